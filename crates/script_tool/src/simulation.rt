//! The state that a script of `rulesim` leads to, command by command.
ghost use Rattle.std.specs.Prelude.{◌≡◌, ◌≢◌, ◌++◌, ◌<◌, None, Some, OnOk, IfOk, List, [], ℕ, Option};
ghost use Rattle.rule_lookup.specs.Answers.{answer_lines};
ghost use Rattle.memory_dirs.specs.MemDir.{mem_state};
ghost use Rattle.dir_calls.specs.Names.{name_fault};
ghost use Rattle.rule_lookup.specs.Pairs.{pairs_of};
ghost use Rattle.rule_lookup.specs.Decisions.{decision_of};
ghost use Rattle.rules_install.specs.Installing.{begun};
ghost use Rattle.rules_install.specs.Installs.{installing};
ghost use Rattle.rules_install.specs.Whole.{Begins, RefusesText};
ghost use Rattle.script_tool.specs.Commands.{Obeys};
ghost use Rattle.script_tool.specs.Kept.{GoesOn, HasTexts, IsAt, IsFileOf, IsInstalling, Reads, Steps, sim_names, steps_left};
ghost use Rattle.script_words.specs.Readings.{meaning};
ghost use Rattle.script_words.specs.Scripts.{Add, Install as InstallText, Begin, To, Stop, Ask, Open, AskBy, BeginEvents, AddEvent, Replay};
ghost use Rattle.script_tool.specs.Logs.{decided_now};
ghost use Rattle.rules_tools.specs.Reviews.{profile};
ghost use Rattle.script_tool.specs.Sim.{BegunInstall, State, start, after, is_in_order, printed, refusal_of, replayed, told};
ghost use Rattle.script_tool.specs.Texts.{Texts, at_phase, position_of};

use crate::replies::{append_fault, append_reached, append_report};
use cdb_files::CdbFile;
use dir_calls::{Choice, Dir, DirFault, Name, NameFault, Phase};
use memory_dirs::{MemDir, MemFile};
use rule_lines::Limits;
use rule_lookup::{
    DecideFault, Decision, Found, Peer, Settings, Verdict, WhenMissing, append_answer, decide,
};
use rules_install::laws::decides;
use rules_install::whole::prepare;
use rules_install::{FileNames, Install, InstallFault, SameName};
use script_words::Command;
use server_events::laws::first_illegal;
use server_events::{Event, ReplayFault, replay};
use server_log::{Piece, append_line};
use std::alloc::{AllocError, Global};
use std::collections::BTreeMap;
use std::marker::Model;
use std::mem;

/// A list of events under a limit and a limit per address.
#[derive(Drop)]
struct History {
    limit: u64,
    per_address: u64,
    events: Vec<Event>,
}

impl Model for History {
    ghost use Rattle.script_words.specs.Events.{History as Listed};

    ghost Value = { Listed };

    ghost view = { λ h. record {
      limit = h.limit;
      per_address = h.per_address;
      events = h.events.items;
    } };
}

/// An installation under way, and the phase that its last step reached.
#[derive(Drop)]
pub struct Progress {
    install: Install,
    reached: Option<Phase>,
}

/// The state that a script leads to.
///
/// It has the pending text, the directory where texts are installed, and the installation that was begun. It also has
/// the files that readers opened, by their names, and the list of events that was begun.
#[derive(Drop)]
pub struct Simulation {
    pending: Vec<u8>,
    dir: MemDir,
    rules: Name,
    begun: Option<Progress>,
    readers: BTreeMap<String, CdbFile<MemFile>>,
    history: Option<History>,
}

/// The rules file that stands, or that none does.
#[derive(Drop)]
pub struct Standing {
    file: Option<CdbFile<MemFile>>,
}

impl Model for Standing {
    ghost use Rattle.std.specs.Prelude.{List, ℕ, Option};

    ghost Value = { Option (List ℕ) };

    ghost view = { λ s. s.file };
}

impl Simulation {
    /// The state at the start of a script: nothing is pending, stands or is begun, and there is no reader and no list
    /// of events.
    pub fn new(alloc: Global) -> Result<Simulation, AllocError>
        ensures { IfOk result (λ sim. IsAt sim start) }
    {
        Ok(Simulation {
            pending: Vec::new(alloc),
            dir: MemDir::new(alloc),
            rules: name(alloc, b"rules")?,
            begun: None,
            readers: BTreeMap::new(alloc),
            history: None,
        })
    }

    /// Whether a command may stand here. An event, and a question for the report, need a list that was begun.
    pub fn may_take(&self, command: &Command<'_>) -> bool
        ensures { (state : State) → IsAt self.now state
            → result ≡ is_in_order state (meaning command.now) }
    {
        match command {
            Command::Event(_) | Command::Replay => self.history.is_some(),
            _ => true,
        }
    }

    /// Carries out a command, and adds what it prints. After want of memory the simulation is not to be used.
    pub fn execute(
        &mut self,
        alloc: Global,
        command: Command<'_>,
        out: &mut Vec<u8>,
    ) -> Result<(), AllocError>
        requires { (state : State) × IsAt self.old state }
        ensures { (state : State) → IsAt self.old state
            → OnOk result (Obeys (meaning command.entry) state self.new out.old.items out.new.items) }
    {
        match command {
            Command::Skip => Ok(()),
            Command::Add(text) => self.add_line(text),
            Command::Install => self.install(alloc, out),
            Command::Begin => self.begin(alloc, out),
            Command::To(target) => self.go_to(alloc, target, out),
            Command::Stop(choice) => self.stop(alloc, choice, out),
            Command::Ask(peer) => self.ask(alloc, &peer, out),
            Command::Reader(name) => self.open_reader(alloc, name, out),
            Command::AskBy(name, peer) => self.ask_by(alloc, name, &peer, out),
            Command::Events { limit, per_address } => {
                self.begin_events(alloc, limit, per_address);
                Ok(())
            }
            Command::Event(event) => self.add_event(event),
            Command::Replay => self.replay(alloc, out),
            Command::Verdicts => Ok(()),
        }
    }

    fn add_line(&mut self, text: &[u8]) -> Result<(), AllocError>
        ensures { (state : State) → IsAt self.old state
            → OnOk result (IsAt self.new (after state (Add text.now))) }
    {
        self.pending.extend_from_slice(text)?;
        self.pending.push(b'\n')?;
        Ok(())
    }

    /// Begins to install the pending text, and leaves that empty. The installation before is dropped.
    fn prepare(&mut self, alloc: Global) -> Result<Install, InstallFault>
        ensures emptied { (state : State) → IsAt self.old state
            → IsAt self.new (record state { pending = []; begun = None }) }
        ensures begun { IfOk result (λ install.
            installing install ≡ begun (pairs_of self.old.pending.items) sim_names) }
        ensures ends { Begins profile self.old.pending.items result }
    {
        self.begun = None;
        let text = mem::replace(&mut self.pending, Vec::new(alloc));
        prepare(alloc, names(alloc)?, &Limits::profile(), text.as_slice())
    }

    fn install(&mut self, alloc: Global, out: &mut Vec<u8>) -> Result<(), AllocError>
        ensures { (state : State) → IsAt self.old state
            → OnOk result (Obeys InstallText state self.new out.old.items out.new.items) }
    {
        match self.prepare(alloc) {
            Ok(install) => {
                let mut progress = Progress {
                    install,
                    reached: None,
                };
                progress.advance(alloc, &mut self.dir, Phase::Done)?;
                out.extend_from_slice(b"installed\n")
            }
            Err(fault) => append_refusal(out, fault),
        }
    }

    fn begin(&mut self, alloc: Global, out: &mut Vec<u8>) -> Result<(), AllocError>
        ensures { (state : State) → IsAt self.old state
            → OnOk result (Obeys Begin state self.new out.old.items out.new.items) }
    {
        match self.prepare(alloc) {
            Ok(install) => {
                self.begun = Some(Progress {
                    install,
                    reached: None,
                });
                out.extend_from_slice(b"begun\n")
            }
            Err(fault) => append_refusal(out, fault),
        }
    }

    /// Goes on with the installation that was begun, up to a phase.
    fn go_to(&mut self, alloc: Global, target: Phase, out: &mut Vec<u8>) -> Result<(), AllocError>
        requires { (state : State) × IsAt self.old state }
        ensures { (state : State) → IsAt self.old state
            → OnOk result (Obeys (To target) state self.new out.old.items out.new.items) }
    {
        let reached = match &mut self.begun {
            None => None,
            Some(progress) => Some(progress.advance(alloc, &mut self.dir, target)?),
        };
        append_reached(out, reached)
    }

    fn stop(&mut self, alloc: Global, choice: Choice, out: &mut Vec<u8>) -> Result<(), AllocError>
        ensures { (state : State) → IsAt self.old state
            → OnOk result (Obeys (Stop choice) state self.new out.old.items out.new.items) }
    {
        self.dir = self.dir.crash(alloc, choice)?;
        self.begun = None;
        self.readers = BTreeMap::new(alloc);
        out.extend_from_slice(b"stopped\n")
    }

    /// Opens the rules file.
    fn open(&mut self, alloc: Global) -> Result<Option<CdbFile<MemFile>>, AllocError>
        ensures same { (state : State) → IsAt self.old state → IsAt self.new state }
        ensures file { (state : State) → IsAt self.old state
            → IfOk result (λ file. Reads file state.texts.standing) }
    {
        match self.dir.open(alloc, &self.rules) {
            Ok(file) => Ok(file.map(CdbFile::new)),
            Err(DirFault::OutOfMemory) => Err(AllocError),
            Err(_) => unreachable!(),
        }
    }

    /// The rules file that stands, which is opened.
    pub fn standing(&mut self, alloc: Global) -> Result<Standing, AllocError>
        ensures { (state : State) → IsAt self.old state
            → IfOk result (λ standing. Reads standing state.texts.standing) }
    {
        Ok(Standing {
            file: self.open(alloc)?,
        })
    }

    fn ask(&mut self, alloc: Global, peer: &Peer, out: &mut Vec<u8>) -> Result<(), AllocError>
        requires { (state : State) × IsAt self.old state }
        ensures { (state : State) → IsAt self.old state
            → OnOk result (Obeys (Ask peer.now) state self.new out.old.items out.new.items) }
    {
        match self.open(alloc)? {
            None => out.extend_from_slice(b"no file\n"),
            Some(file) => append_decision(alloc, &file, peer, out),
        }
    }

    fn open_reader(
        &mut self,
        alloc: Global,
        name: &str,
        out: &mut Vec<u8>,
    ) -> Result<(), AllocError>
        ensures { (state : State) → IsAt self.old state
            → OnOk result (Obeys (Open name.now) state self.new out.old.items out.new.items) }
    {
        match self.open(alloc)? {
            None => out.extend_from_slice(b"no file\n"),
            Some(file) => {
                self.readers.insert(String::from_str(alloc, name)?, file)?;
                out.extend_from_slice(b"opened\n")
            }
        }
    }

    fn ask_by(
        &self,
        alloc: Global,
        name: &str,
        peer: &Peer,
        out: &mut Vec<u8>,
    ) -> Result<(), AllocError>
        requires { (state : State) × IsAt self.now state }
        ensures { (state : State) → IsAt self.now state
            → OnOk result (out.new.items ≡ out.old.items ++ printed state (AskBy name.now peer.now)) }
    {
        match self.readers.get(name) {
            None => out.extend_from_slice(b"no reader\n"),
            Some(file) => append_decision(alloc, file, peer, out),
        }
    }

    fn begin_events(&mut self, alloc: Global, limit: u64, per_address: u64)
        ensures { (state : State) → IsAt self.old state
            → IsAt self.new (after state (BeginEvents limit per_address)) }
    {
        self.history = Some(History {
            limit,
            per_address,
            events: Vec::new(alloc),
        });
    }

    /// Adds an event to the list, if one was begun.
    fn add_event(&mut self, event: Event) -> Result<(), AllocError>
        ensures { (state : State) → IsAt self.old state
            → OnOk result (IsAt self.new (after state (AddEvent event))) }
    {
        if let Some(history) = &mut self.history {
            history.events.push(event)?;
        }
        Ok(())
    }

    fn replay(&self, alloc: Global, out: &mut Vec<u8>) -> Result<(), AllocError>
        ensures { (state : State) → IsAt self.now state
            → OnOk result (out.new.items ≡ out.old.items ++ printed state Replay) }
    {
        match &self.history {
            None => Ok(()),
            Some(history) => append_outcome(alloc, history, out),
        }
    }
}

impl Standing {
    /// The decision for a peer: by the rules that stand, or that of a missing rules file if none do.
    pub fn decide(&self, alloc: Global, peer: &Peer) -> Result<Decision, AllocError>
        requires { (text : Option (List ℕ)) × Reads self.now text }
        ensures { (text : Option (List ℕ)) → Reads self.now text
            → IfOk result (λ decision. decision ≡ decided_now text peer.now) }
    {
        match &self.file {
            Some(file) => decide_by(alloc, file, peer),
            None => Ok(Decision {
                found: Found::NoFile,
                verdict: Verdict::Deny,
                settings: Settings::new(alloc),
            }),
        }
    }
}

impl Progress {
    /// Makes steps until a phase or a later one is reached, and answers the phase that it reached.
    fn advance(
        &mut self,
        alloc: Global,
        dir: &mut MemDir,
        target: Phase,
    ) -> Result<Phase, AllocError>
        requires { (b : BegunInstall) × IsInstalling (mem_state dir.old) self.old b }
        ensures { (b : BegunInstall) (t : Texts) → IsInstalling (mem_state dir.old) self.old b
            → HasTexts (mem_state dir.old) t
            → IfOk result (GoesOn target b t (mem_state dir.new) self.new) }
    {
        loop {
            match self.reached {
                Some(reached) if position_of(target) <= position_of(reached) => return Ok(reached),
                _ => {
                    self.step(alloc, dir)?;
                }
            }
        }
    }

    /// Makes a step, and answers the phase that it reached.
    fn step(&mut self, alloc: Global, dir: &mut MemDir) -> Result<Phase, AllocError>
        requires { (b : BegunInstall) × IsInstalling (mem_state dir.old) self.old b
            × (b.reached ≢ Some Phase.Done) }
        ensures goes { (b : BegunInstall) → IsInstalling (mem_state dir.old) self.old b
            → IfOk result (Steps (installing (self.old).install) b (mem_state dir.new) self.new) }
        ensures texts { (b : BegunInstall) (t : Texts) → IsInstalling (mem_state dir.old) self.old b
            → HasTexts (mem_state dir.old) t
            → IfOk result (λ phase. HasTexts (mem_state dir.new) (at_phase b.text t phase)) }
        ensures fewer { OnOk result
            (steps_left (installing (self.new).install) < steps_left (installing (self.old).install)) }
    {
        match self.install.step(alloc, dir) {
            Ok(phase) => {
                self.reached = Some(phase);
                Ok(phase)
            }
            Err(fault) => match fault {
                InstallFault::OutOfMemory => Err(AllocError),
                InstallFault::Line(_)
                | InstallFault::TooLarge
                | InstallFault::Disk(..)
                | InstallFault::Over => unreachable!(),
            },
        }
    }
}

/// The position of a phase among all.
fn position_of(phase: Phase) -> u8
    ensures { result ≡ position_of phase }
{
    match phase {
        Phase::Fresh => 1,
        Phase::Filling => 2,
        Phase::Synced => 3,
        Phase::Named => 4,
        Phase::Done => 5,
    }
}

/// Makes a name of a text that may be one.
fn name(alloc: Global, text: &[u8]) -> Result<Name, AllocError>
    requires { name_fault text.now ≡ None }
    ensures { IfOk result (λ name. name ≡ text.now) }
{
    match Name::new(alloc, text) {
        Ok(name) => Ok(name),
        Err(NameFault::OutOfMemory) => Err(AllocError),
        Err(_) => unreachable!(),
    }
}

/// The names of the rules file and of the scratch file.
fn names(alloc: Global) -> Result<FileNames, AllocError>
    ensures { IfOk result (λ names. names ≡ sim_names) }
{
    match FileNames::new(name(alloc, b"rules")?, name(alloc, b"rules.tmp")?) {
        Ok(names) => Ok(names),
        Err(SameName) => unreachable!(),
    }
}

/// Adds why a text was not installed.
fn append_refusal(out: &mut Vec<u8>, fault: InstallFault) -> Result<(), AllocError>
    requires { (text : List ℕ) × RefusesText profile text fault }
    ensures { (text words : List ℕ) → RefusesText profile text fault
        → OnOk result (out.new.items ≡ out.old.items ++ told words (refusal_of text)) }
{
    match fault {
        InstallFault::Line(fault) => append_fault(out, &fault),
        InstallFault::TooLarge => out.extend_from_slice(b"compiled file too large\n"),
        InstallFault::OutOfMemory => Err(AllocError),
        InstallFault::Disk(..) | InstallFault::Over => unreachable!(),
    }
}

/// Decides a peer by a file that is compiled of a text.
fn decide_by(alloc: Global, file: &CdbFile<MemFile>, peer: &Peer) -> Result<Decision, AllocError>
    requires { (text : List ℕ) × IsFileOf text file.now }
    ensures { (text : List ℕ) → IsFileOf text file.now
        → IfOk result (λ decision. decision ≡ decision_of text peer.now) }
{
    decides();
    match decide(alloc, Some(file), WhenMissing::Deny, peer) {
        Ok(decision) => Ok(decision),
        Err(DecideFault::OutOfMemory) => Err(AllocError),
        Err(DecideFault::Find(_)) => unreachable!(),
        Err(DecideFault::Code(_)) => unreachable!(),
    }
}

/// Adds the decision by a file that is compiled of a text.
fn append_decision(
    alloc: Global,
    file: &CdbFile<MemFile>,
    peer: &Peer,
    out: &mut Vec<u8>,
) -> Result<(), AllocError>
    requires { (text : List ℕ) × IsFileOf text file.now }
    ensures { (text : List ℕ) → IsFileOf text file.now
        → OnOk result (out.new.items ≡ out.old.items ++ answer_lines (decision_of text peer.now)) }
{
    let decision = decide_by(alloc, file, peer)?;
    append_answer(out, &decision)
}

/// Adds the report of a list of events, or its first event that may not happen.
fn append_outcome(alloc: Global, history: &History, out: &mut Vec<u8>) -> Result<(), AllocError>
    ensures { OnOk result (out.new.items ≡ out.old.items ++ replayed (Some history.now)) }
{
    first_illegal();
    let events = history.events.as_slice();
    match replay(alloc, history.limit, history.per_address, events) {
        Ok(report) => append_report(out, &report),
        Err(ReplayFault::IllegalEvent(position)) => {
            append_line(out, &[Piece::Text("illegal "), Piece::Number(position)])
        }
        Err(ReplayFault::OutOfMemory) => Err(AllocError),
    }
}
