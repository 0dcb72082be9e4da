//! The whole yard: the connections of a server and the installations beside them, over one directory.
ghost use Rattle.std.specs.Prelude.{◌≡◌, ◌≢◌, ◌+◌, ◌∷◌, ◌↔◌, [], true, Err, None, Ok, Some, IsTrue, IfOk, IfErr, IfNone, IfSome, OnErr, Contains, is_some, option_map};
ghost use Rattle.child_jobs.specs.PlacesOut.{RefusesLimits};
ghost use Rattle.dir_calls.specs.Moments.{CountsFault};
ghost use Rattle.dir_calls.specs.declared.phase.Phase.TheVariants.{Done};
ghost use Rattle.rules_install.specs.Installing.{Installing};
ghost use Rattle.rules_install.specs.Installs.{installing};
ghost use Rattle.rules_install.specs.Steps.{BlamesDevice, BlamesFault, IsOfDevice};
ghost use Rattle.rules_install.specs.declared.fault.InstallFault.TheVariants.{Over};
ghost use Rattle.server_events.specs.JournalParts.{books_of_journal};
ghost use Rattle.server_events.specs.Journals.{HasSameRoom};
ghost use Rattle.server_events.specs.ServerState.{stage_of};
ghost use Rattle.headline.specs.Worlds.{missing_by};
ghost use Rattle.server_events.specs.declared.event.Event.TheVariants.{Opened};
ghost use Rattle.server_events.specs.declared.event.Stage.TheVariants as stage;
ghost use Rattle.server_yard.specs.Evidence.{IsNoted};
ghost use Rattle.server_yard.specs.Passes.{pass_bytes, pass_file, pass_serial};
ghost use Rattle.server_yard.specs.Rolls.{HasNoEvents, IsQuiet, NotesSome};
ghost use Rattle.server_yard.specs.Rooms.{KeepsRoom};
ghost use Rattle.server_yard.specs.Seating.{KeepsSeats};
ghost use Rattle.server_yard.specs.Yards.{yard_books, yard_server};
ghost use Rattle.whole_yard.specs.Callers.{spoken_by};
ghost use Rattle.whole_yard.specs.ConnectionTurns.{NotesTold};
ghost use Rattle.whole_yard.specs.Installed.{IsWholeFile, KeepsHistory};
ghost use Rattle.whole_yard.specs.Kept.{FindsItsFile, FindsItsFile-prop, IsKeptInstallation, installing_of, is_kept, lists_of, phase_of, rules_of, state_of};
ghost use Rattle.whole_yard.specs.Readers.{ReadersFind};
ghost use Rattle.whole_yard.specs.Standing.{BeginsWell, LeadsOpened, LeadsSome, standing_of};
ghost use Rattle.whole_yard.specs.Stepping.{GoesAsStep, HandsBack, IsRefusedAs, begin_event, event_of_step, is_kept_after, is_of_disk, kept_after_begin, kept_after_step, kept_then, last_begun_after, lists_after_begin};

use crate::assumptions::Assumptions;
use crate::connection_turns::ConnectionTurn;
use crate::stepping::{begin_noted, step_noted};
use child_jobs::TableFault;
use dir_calls::{Dir, DirFault, Name, Phase};
use rule_lines::RuleList;
use rule_lookup::WhenMissing;
use rules_install::{Install, InstallFault};
use server_events::Journal;
use server_yard::{Made, Pass, Yard};
use std::alloc::Global;
use std::mem;
use std::sync::ledger::Blank;

/// How far the installation has come that a yard keeps.
#[derive(Drop)]
enum Installation {
    // none was begun, or the last met a fault
    Idle,
    UnderWay(Install),
    AtDone,
}

/// The connections of a server and the installations beside them, over one directory. Each call that is an event is one
/// step of the headline's world.
#[derive(Drop)]
pub struct WholeYard<L: Assumptions, D: Dir + Drop> {
    yard: Yard<L>,
    dir: D,
    rules: Option<(Name, WhenMissing)>,
    installation: Installation,
    // the number of the last installation that made its first step
    begun: u64,
    // the rules of each that made it, in order; none if its journal only counts events
    lists: Option<Vec<RuleList>>,
    // if the assumptions are met, the directory is honest
    ghost honest: { IsTrue L.met → IsTrue D.honest },
    pub ghost installs: { L.installs ≡ true },
    pub ghost told: { missing_by (rules_of rules) ≡ L.missing },
    // the phase is that of the installation that is kept
    pub ghost phase: { phase_of (installing_of installation) ≡ (yard_server yard).phase },
    ghost going: { IsKeptInstallation (installing_of installation) (rules_of rules) },
    ghost finds: { FindsItsFile D.honest (installing_of installation) (D.state dir) } by { FindsItsFile-prop D.honest (installing_of installation) (D.state dir) },
    // there are lists of rules if the journal stores events
    pub ghost listed: { is_some (lists_of lists) ≡ is_some (yard_books yard).notes },
    // if the assumptions are met, the installations of its history alone are a history of the headline, which left its
    // directory
    pub ghost installed: { IsTrue L.met → ∥ KeepsHistory (yard_books yard) (lists_of lists)
        (state_of (yard_server yard) (D.state dir) rules installation) ∥₁ },
}

impl<L: Assumptions, D: Dir + Drop> WholeYard<L, D> {
    ghost use Rattle.whole_yard.specs.WholeYards.{IsMadeWhole, IsSameBesides, IsSameButDirectory, LeavesNothingElse, MayBegin, kept_number, kept_under, last_begun, name_of, whole_books, whole_connections, whole_directory, whole_installing, whole_lists, whole_roll, whole_rules, whole_seat, whole_server, whole_state};

    /// A yard over a directory, without connections and without an installation under way.
    ///
    /// `rules` has the name of the rules file, and what is decided if no file stands there. Without a name every
    /// connection is allowed. At most `limit` connections are alive at once, and at most `per_address` from one
    /// address. `blank` has as many parts as the limit says, and the journal has no event.
    ///
    /// # Errors
    /// `ZeroLimit` if the limit is 0.
    pub fn new(
        alloc: Global,
        blank: Blank,
        dir: D,
        rules: Option<(Name, WhenMissing)>,
        limit: u64,
        per_address: u64,
        journal: Journal,
    ) -> Result<WholeYard<L, D>, TableFault>
        requires name { blank.name ≡ L.name }
        requires parts { (blank.parts ≡ L.parts) × (blank.parts ≡ limit) }
        requires journal { HasNoEvents (books_of_journal journal) }
        requires begins { IsTrue L.met → BeginsWell D.honest (D.state dir) (rules_of rules) }
        requires installs { L.installs ≡ true }
        requires missing { missing_by (rules_of rules) ≡ L.missing }
        ensures made { IfOk result (IsMadeWhole dir (rules_of rules) limit per_address journal) }
        ensures refused { IfErr result (RefusesLimits limit) }
    {
        let lists = no_lists(alloc, &journal);
        Ok(WholeYard {
            yard: Yard::new(alloc, blank, limit, per_address, journal)?,
            dir,
            rules,
            installation: Installation::Idle,
            begun: 0,
            lists,
        })
    }

    /// Its connections, with the journal of all events.
    pub fn connections(&self) -> &Yard<L>
        ensures { result.now ≡ whole_connections self.now }
    {
        &self.yard
    }

    /// A law: what a reader finds is what `laws::readers` says, in each yard whose assumptions were met when it was
    /// made.
    pub fn consistent(&self)
        ensures { IsTrue L.met → IfSome (whole_rules self.now) (λ rules.
            ∥ ReadersFind (whole_books self.now) (whole_lists self.now) (whole_state self.now) rules ∥₁) }
    {}

    /// Says who makes the events that follow: a number from 1, or 0 for nobody, as at first. Nothing else changes.
    pub fn speaker(&mut self, speaker: u64)
        ensures speaks { whole_roll self.new ≡ record (whole_roll self.old) { speaker = speaker } }
        ensures same { IsSameBesides self.old self.new }
        ensures seats { KeepsSeats (whole_seat self.old) (whole_seat self.new) }
    {
        self.yard.speaker(speaker);
    }

    /// Makes a turn of a connection for the caller with this number. The directory is not called.
    pub fn connection<T: ConnectionTurn<L>>(&mut self, turn: T, caller: u64) -> T::Answer
        requires may { T.may turn }
        ensures answers { T.answers turn caller (whole_books self.old).count result (whole_books self.new).count }
        ensures notes { NotesTold (T.tells turn result) (spoken_by caller (whole_roll self.old)) (whole_roll self.new) }
        ensures room { KeepsRoom (whole_roll self.old) (whole_roll self.new) }
        ensures same { IsSameBesides self.old self.new }
    {
        self.yard.speaker(caller);
        turn.run(&mut self.yard)
    }

    // What stands under the rules name.
    fn find(&mut self, alloc: Global) -> Result<Option<D::File>, DirFault>
        ensures found { IsTrue D.honest → IfOk result (λ file.
            option_map D.File.bytes file ≡ standing_of (whole_state self.old)) }
        ensures whole { IsTrue L.met → IfOk result (λ file. ∥ IsWholeFile (option_map D.File.bytes file) ∥₁) }
        ensures roll { whole_roll self.new ≡ whole_roll self.old }
        ensures state { IsTrue D.honest → whole_state self.new ≡ whole_state self.old }
        ensures stops { IsTrue D.honest → LeavesNothingElse self.old self.new }
        ensures faults { IfErr result (Contains (DirFault.Device ∷ DirFault.OutOfMemory ∷ [])) }
        ensures counted { CountsFault
            (D.failed (whole_directory self.old)) (D.failed (whole_directory self.new)) result }
        ensures without { whole_rules self.old ≡ None → whole_directory self.new ≡ whole_directory self.old }
        ensures same { IsSameButDirectory self.old self.new }
        ensures seats { KeepsSeats (whole_seat self.old) (whole_seat self.new) }
    {
        match &self.rules {
            Some((name, _)) => self.dir.open(alloc, name),
            None => Ok(None),
        }
    }

    /// Opens the rules for a connection that was let in.
    ///
    /// The pass has what stands under the rules name now, and keeps it through all later calls. Without a rules name
    /// there is no file, the directory is not called, and the connection is allowed. Beside it is the event's evidence.
    ///
    /// # Errors
    /// Those of `Dir::open`. A fault is no event: the connection is as before.
    pub fn open(&mut self, alloc: Global, serial: u64) -> Result<(Pass<L, D::File>, Made), DirFault>
        requires admitted { stage_of serial (whole_server self.old).connections ≡ Some stage.Admitted }
        ensures its { IfOk result (λ r. pass_serial r.0 ≡ serial) }
        ensures found { IsTrue D.honest → IfOk result (λ r.
            pass_bytes D.File.bytes r.0 ≡ standing_of (whole_state self.old)) }
        // if the assumptions are met, the file is compiled of rules
        ensures whole { IsTrue L.met → IfOk result (λ r. ∥ IsWholeFile (pass_bytes D.File.bytes r.0) ∥₁) }
        ensures noted { IfOk result (λ r. IsNoted
            (Opened serial (is_some (pass_file r.0))) r.1 (whole_roll self.old) (whole_roll self.new)) }
        ensures step { IsTrue D.honest → IfOk result (λ r. LeadsOpened serial
            (pass_bytes D.File.bytes r.0) (whole_state self.old) (whole_state self.new)) }
        ensures refused { OnErr result (IsQuiet (whole_roll self.old) (whole_roll self.new)) }
        ensures err_state { IsTrue D.honest → OnErr result (whole_state self.new ≡ whole_state self.old) }
        // a stop since then left what the headline's world may leave: an opening changes nothing
        ensures stops { IsTrue D.honest → LeavesNothingElse self.old self.new }
        ensures faults { IfErr result (Contains (DirFault.Device ∷ DirFault.OutOfMemory ∷ [])) }
        ensures counted { CountsFault
            (D.failed (whole_directory self.old)) (D.failed (whole_directory self.new)) result }
        ensures without { whole_rules self.old ≡ None → whole_directory self.new ≡ whole_directory self.old }
        ensures room { KeepsRoom (whole_roll self.old) (whole_roll self.new) }
        ensures same { IsSameButDirectory self.old self.new }
        ensures seats { KeepsSeats (whole_seat self.old) (whole_seat self.new) }
    {
        let file = self.find(alloc)?;
        Ok(self.opened(serial, file))
    }

    // Notes that a connection which was let in has opened the rules, and has found this.
    fn opened(&mut self, serial: u64, file: Option<D::File>) -> (Pass<L, D::File>, Made)
        requires admitted { stage_of serial (whole_server self.old).connections ≡ Some stage.Admitted }
        ensures its { pass_serial result.0 ≡ serial }
        ensures found { pass_file result.0 ≡ file }
        ensures noted { IsNoted
            (Opened serial (is_some (pass_file result.0))) result.1 (whole_roll self.old) (whole_roll self.new) }
        ensures room { KeepsRoom (whole_roll self.old) (whole_roll self.new) }
        ensures same { IsSameBesides self.old self.new }
        ensures seats { KeepsSeats (whole_seat self.old) (whole_seat self.new) }
    {
        let Ok(opened) = self.yard.opened(serial, file) else {
            unreachable!()
        };
        opened
    }

    // Whether an installation is for the rules name.
    fn is_for_rules(&self, install: &Install) -> bool
        ensures { IsTrue result ↔ (name_of (whole_rules self.now) ≡ Some (installing install.now).names.cdb) }
    {
        match &self.rules {
            Some((name, _)) => is_same_name(name, install.cdb()),
            None => false,
        }
    }

    // The number for an installation, if it may begin.
    fn next_number(&self, install: &Install) -> Option<u64>
        ensures some { IfSome result (λ number.
            MayBegin self.now (installing install.now) × (number ≡ last_begun self.now + 1)) }
        ensures none { result ≡ None → ¬ MayBegin self.now (installing install.now) }
    {
        if install.stepped() {
            return None;
        }
        if self.begun == u64::MAX {
            return None;
        }
        if self.is_for_rules(install) {
            Some(self.begun + 1)
        } else {
            None
        }
    }

    /// Whether the installation with this number is under way: it is kept, and not done.
    pub fn is_under_way(&self, number: u64) -> bool
        ensures { result ≡ is_some (kept_under self.now number) }
    {
        number == self.begun && self.installation.is_under_way()
    }

    /// Begins an installation by its first step, and keeps it in place of any other.
    ///
    /// It is kept until it is done or meets a fault of the directory. The answer is the installation's number, counted
    /// from 1.
    ///
    /// # Errors
    /// The installation is handed back. `Over` if it was stepped before, is not for the rules name, or no number is
    /// left; nothing changed. `Disk` if the directory's call failed, which is an event and ends any installation that
    /// was kept. `OutOfMemory`; nothing changed.
    pub fn install_begin(
        &mut self,
        alloc: Global,
        install: Install,
    ) -> Result<u64, (Install, InstallFault)>
        ensures over { IsRefusedAs Over result ↔ ¬ MayBegin self.old (installing install) }
        ensures number { IfOk result (λ number. number ≡ last_begun self.old + 1) }
        ensures begun { last_begun self.new ≡ last_begun_after result (last_begun self.old) }
        ensures kept { kept_number self.new ≡ kept_after_begin result (kept_number self.old) }
        ensures rules { whole_rules self.new ≡ whole_rules self.old }
        ensures noted { NotesSome (begin_event result) (whole_roll self.old) (whole_roll self.new) }
        ensures step { IsTrue D.honest → LeadsSome
            (begin_event result) (whole_state self.old) (whole_state self.new) }
        // a stop at any moment since left what the headline's world may leave, or an image of the directory as it is
        // then
        ensures stops { IsTrue D.honest → LeavesNothingElse self.old self.new }
        ensures lists { whole_lists self.new
            ≡ lists_after_begin result (installing install).rules (whole_lists self.old) }
        ensures back { IfErr result (λ r. HandsBack (installing install) (installing r.0) r.1) }
        // the device is blamed only if it failed, and that was counted
        ensures device { IsTrue D.honest → IfErr result (λ r. IsOfDevice (Err r.1)) }
        ensures blames { IfErr result (λ r.
            BlamesFault (D.failed (whole_directory self.old)) (D.failed (whole_directory self.new)) r.1) }
        ensures untouched { IsRefusedAs Over result → whole_directory self.new ≡ whole_directory self.old }
        ensures room { HasSameRoom (whole_roll self.old).room (whole_roll self.new).room }
        ensures seats { KeepsSeats (whole_seat self.old) (whole_seat self.new) }
    {
        let Some(number) = self.next_number(&install) else {
            return Err((install, InstallFault::Over));
        };
        let mut install = install;
        match begin_noted(
            alloc,
            &mut self.yard,
            &mut self.lists,
            &mut self.dir,
            &mut install,
        ) {
            Ok(_) => {
                self.installation.becomes(Installation::UnderWay(install));
                self.begun = number;
                Ok(number)
            }
            Err(fault) => {
                if is_of_disk(fault) {
                    self.installation.becomes(Installation::Idle);
                    return Err((install, fault));
                }
                Err((install, fault))
            }
        }
    }

    /// Makes the next step of the installation with this number, if it is kept, as `Install::step` does. After `Done` a
    /// step answers `Done`, does nothing and is no event.
    ///
    /// # Errors
    /// `Over` if no installation with this number is kept; nothing changed. `Disk` with the phase that was to be
    /// reached, which is an event and ends the installation. `OutOfMemory`; nothing changed.
    pub fn install_step(&mut self, alloc: Global, number: u64) -> Result<Phase, InstallFault>
        ensures over { (result ≡ Err Over) ↔ (kept_number self.old ≢ Some number) }
        ensures after_done { kept_number self.old ≡ Some number → whole_installing self.old ≡ None → result ≡ Ok Done }
        ensures noted { NotesSome
            (event_of_step (kept_under self.old number) result) (whole_roll self.old) (whole_roll self.new) }
        ensures step { IsTrue D.honest → LeadsSome (event_of_step (kept_under self.old number) result)
            (whole_state self.old) (whole_state self.new) }
        ensures stops { IsTrue D.honest → LeavesNothingElse self.old self.new }
        // as `Install::step` of the one that is kept
        ensures goes { IfSome (kept_under self.old number) (λ s. GoesAsStep s (whole_installing self.new) result) }
        ensures kept { kept_number self.new ≡ kept_after_step result (kept_number self.old) }
        ensures begun { last_begun self.new ≡ last_begun self.old }
        ensures rules { whole_rules self.new ≡ whole_rules self.old }
        ensures lists { whole_lists self.new ≡ whole_lists self.old }
        // the device is blamed only if it failed, and that was counted; if none is under way the directory is not
        // called
        ensures device { IsTrue D.honest → IsOfDevice result }
        ensures blames { BlamesDevice
            (D.failed (whole_directory self.old)) (D.failed (whole_directory self.new)) result }
        ensures untouched { kept_under self.old number ≡ None → whole_directory self.new ≡ whole_directory self.old }
        ensures room { HasSameRoom (whole_roll self.old).room (whole_roll self.new).room }
        ensures seats { KeepsSeats (whole_seat self.old) (whole_seat self.new) }
    {
        if number != self.begun {
            return Err(InstallFault::Over);
        }
        match mem::replace(&mut self.installation, Installation::Idle) {
            Installation::Idle => Err(InstallFault::Over),
            Installation::AtDone => {
                self.installation.becomes(Installation::AtDone);
                Ok(Phase::Done)
            }
            Installation::UnderWay(mut install) => {
                let result = step_noted(alloc, &mut self.yard, &mut self.dir, &mut install);
                self.installation
                    .becomes(Installation::after(install, result));
                result
            }
        }
    }
}

impl Installation {
    // Puts another in its place. What it was is dropped here, and not where it is put.
    fn becomes(&mut self, next: Installation)
        ensures { self.new ≡ next }
    {
        *self = next;
    }

    fn is_under_way(&self) -> bool
        ensures { result ≡ is_some (installing_of self.now) }
    {
        matches!(self, Installation::UnderWay(..))
    }

    // What a step leaves of an installation, by its answer.
    fn after(install: Install, answer: Result<Phase, InstallFault>) -> Installation
        ensures installing { installing_of result ≡ kept_then (installing install) answer }
        ensures kept { is_kept result ≡ is_kept_after answer }
    {
        match ended_by(answer) {
            Some(ended) => ended,
            None => Installation::UnderWay(install),
        }
    }
}

// What is left if an answer ends an installation; `None` if it goes on.
fn ended_by(answer: Result<Phase, InstallFault>) -> Option<Installation>
    ensures ended { IfSome result (λ left. (installing_of left ≡ None) × (is_kept left ≡ is_kept_after answer)
        × ((s : Installing) → kept_then s answer ≡ None)) }
    ensures goes_on { IfNone result ((is_kept_after answer ≡ true) × ((s : Installing) → kept_then s answer ≡ Some s)) }
{
    match answer {
        Ok(Phase::Done) => Some(Installation::AtDone),
        Err(InstallFault::Disk(..)) => Some(Installation::Idle),
        _ => None,
    }
}

// What a yard stores of the rules of its installations before the first, if its journal stores events.
fn no_lists(alloc: Global, journal: &Journal) -> Option<Vec<RuleList>>
    ensures { lists_of result ≡ option_map (λ _. []) (books_of_journal journal.now).notes }
{
    journal.notes().map(|_| Vec::new(alloc))
}

fn is_same_name(one: &Name, other: &Name) -> bool
    ensures { IsTrue result ↔ (one.now ≡ other.now) }
{
    one.as_str() == other.as_str()
}

// Whether a fault is the directory's, which ends an installation.
fn is_of_disk(fault: InstallFault) -> bool
    ensures { result ≡ is_of_disk fault }
{
    matches!(fault, InstallFault::Disk(..))
}
