//! The lines of the log, and those of each event at each level.
ghost use Rattle.std.specs.Prelude.{◌≡◌, ◌++◌, List, [], ◌∷◌, ℕ, if◌then◌else◌};
ghost use Rattle.rule_lookup.specs.Peers.{given};
ghost use Rattle.server_log.specs.Lines.{cause_text, drop_lines, drop_text, end_lines, end_text, event_lines, fault_text, of_cause, pid_line, progress, retired_text, runs_lines, runs_text, signal_lines, signal_text, start_text, status_line, status_lines, status_text, verdict_text, verdict_word};
ghost use Rattle.server_log.specs.Logs.{Holds};
ghost use Rattle.server_log.specs.Pieces.{line_of, piece_text, told_lines};

use crate::cause::Cause;
use crate::pieces::Piece::{Address, Field, Name, Number, Text};
use crate::pieces::{Piece, append_line};
use child_jobs::{DropCause, Local, StartFault, Status};
use fault_hints::{Detail, Voice};
use rule_lookup::{Peer, Verdict};
use server_words::Level;
use std::alloc::{AllocError, Global};

/// An event of a connection, with what its lines need. Other events have no lines.
#[derive(Drop)]
pub enum Told<'a> {
    /// It was let in, from this address.
    Admitted {
        serial: u64,
        ip: [u8; 4],
    },
    /// It was decided, between these ends; without the rules file, if this says why there is none.
    Decided {
        serial: u64,
        verdict: Verdict,
        local: &'a Local,
        peer: &'a Peer,
        file: Option<Cause<'a>>,
    },
    /// Its child was started, and is this process of the system if that is known.
    Started {
        serial: u64,
        process: Option<u32>,
    },
    /// Its child could not be started, by this cause if the system told one.
    StartFailed {
        serial: u64,
        fault: StartFault,
        cause: Option<Cause<'a>>,
    },
    /// Its child ended; by this signal, if one is known.
    Ended {
        serial: u64,
        status: Status,
        signal: Option<u32>,
    },
    /// Its child could not be waited for.
    Retired {
        serial: u64,
    },
    /// It was given up before its child was started: by what is wrong with the rules file, if that is known, and by
    /// this cause of the system or this damage if there was one.
    Dropped {
        serial: u64,
        cause: DropCause,
        file: Option<Cause<'a>>,
        why: Option<Cause<'a>>,
    },
}

/// What decides which lines are told, and the server's limit of connections.
#[derive(Clone, Copy)]
pub(crate) struct Settings {
    pub level: Level,
    pub voice: Voice,
    pub limit: u64,
}

/// Where a line is told.
#[derive(Clone, Copy)]
pub(crate) enum Shown {
    /// It tells how connections go: under `All` alone.
    Progress,
    /// It tells a fault: under `All` and `Errors`.
    Fault,
    /// It tells a person how connections go.
    Person,
    /// It tells a cause: where causes are told.
    Cause,
    /// It tells a cause to a person alone.
    Hint,
}

impl Shown {
    fn is_told(self, to: Settings) -> bool
        ensures { (line : List ℕ) → told_lines self to.level to.voice line
            ≡ (if result then line ∷ [] else []) }
    {
        match self {
            Shown::Progress => matches!(to.level, Level::All),
            Shown::Fault => !matches!(to.level, Level::Quiet),
            Shown::Person => matches!((to.level, to.voice), (Level::All, Voice::Helpful)),
            Shown::Cause => !matches!(to.voice.detail(to.level), Detail::Line),
            Shown::Hint => matches!(to.voice.detail(to.level), Detail::Hint),
        }
    }
}

/// The lines of an event, as far as they found memory.
#[derive(Drop)]
pub(crate) struct Lines {
    pub bytes: Vec<u8>,
    // whether each line found memory
    pub added: Result<(), AllocError>,
}

impl Lines {
    /// No lines, which take no memory.
    pub(crate) fn new(alloc: Global) -> Lines {
        Lines {
            bytes: Vec::new(alloc),
            added: Ok(()),
        }
    }

    /// Takes all lines away.
    pub(crate) fn clear(&mut self)
        ensures { Holds [] self.new }
    {
        self.bytes.clear();
        self.added = Ok(());
    }

    /// Adds a line of these pieces, where it is told.
    pub(crate) fn add(&mut self, to: Settings, shown: Shown, pieces: &[Piece<'_>])
        ensures { (lines : List (List ℕ)) → Holds lines self.old
            → Holds (lines ++ told_lines shown to.level to.voice (line_of pieces.now)) self.new }
    {
        if shown.is_told(to) {
            let line = append_line(&mut self.bytes, pieces);
            self.added = self.added.and(line);
        }
    }

    /// Adds the lines of an event, after which `live` connections are alive. There are no lines before.
    pub(crate) fn add_event(&mut self, to: Settings, live: u64, told: Told<'_>)
        ensures { Holds [] self.old
            → Holds (event_lines to.level to.voice to.limit live told.entry) self.new }
    {
        match told {
            Told::Admitted { serial, ip } => {
                self.add_status(to, live);
                self.add(to, Shown::Progress, &pid_line(serial, ip));
            }
            Told::Decided {
                serial,
                verdict,
                local,
                peer,
                file,
            } => {
                let line = verdict_line(verdict, serial, local, peer);
                self.add(to, Shown::Progress, &line);
                self.add_cause(to, Shown::Hint, file);
            }
            Told::Started { serial, process } => self.add_runs(to, serial, process),
            end => {
                self.add_end(to, end);
                self.add_status(to, live);
            }
        }
    }

    /// Adds the lines of the end of a connection; nothing if it goes on.
    fn add_end(&mut self, to: Settings, told: Told<'_>)
        ensures { Holds [] self.old → Holds (end_lines to.level to.voice told.entry) self.new }
    {
        match told {
            Told::StartFailed {
                serial,
                fault,
                cause,
            } => {
                self.add(to, Shown::Fault, &start_line(serial, fault));
                self.add_cause(to, Shown::Cause, cause);
            }
            Told::Ended {
                serial,
                status,
                signal,
            } => self.add_exit(to, serial, status, signal),
            Told::Retired { serial } => {
                self.add(to, Shown::Fault, &retired_line(serial));
            }
            Told::Dropped {
                serial,
                cause,
                file,
                why,
            } => {
                self.add_drop(to, serial, cause);
                self.add_cause(to, Shown::Hint, file);
                self.add_cause(to, Shown::Cause, why);
            }
            Told::Admitted { .. } | Told::Decided { .. } | Told::Started { .. } => {}
        }
    }

    /// Adds how many connections are alive, and how many may be.
    fn add_status(&mut self, to: Settings, live: u64)
        ensures { (lines : List (List ℕ)) → Holds lines self.old
            → Holds (lines ++ status_lines to.level to.limit live) self.new }
    {
        self.add(to, Shown::Progress, &status_line(live, to.limit));
    }

    /// Adds which process runs a connection's program, if that is known.
    fn add_runs(&mut self, to: Settings, serial: u64, process: Option<u32>)
        ensures { (lines : List (List ℕ)) → Holds lines self.old
            → Holds (lines ++ runs_lines to.level to.voice serial process) self.new }
    {
        if let Some(process) = process {
            self.add(to, Shown::Person, &runs_line(serial, process));
        }
    }

    /// Adds how a connection's child ended, and by which signal, if one is known.
    fn add_exit(&mut self, to: Settings, serial: u64, status: Status, signal: Option<u32>)
        ensures { (lines : List (List ℕ)) → Holds lines self.old
            → Holds ((lines ++ progress to.level (end_text serial status))
            ++ signal_lines to.level to.voice serial signal) self.new }
    {
        self.add(to, Shown::Progress, &end_line(serial, status));
        if let Some(signal) = signal {
            self.add(to, Shown::Person, &signal_line(serial, signal));
        }
    }

    /// Adds why a connection was dropped; nothing if a rule denied it.
    fn add_drop(&mut self, to: Settings, serial: u64, cause: DropCause)
        ensures { (lines : List (List ℕ)) → Holds lines self.old
            → Holds (lines ++ drop_lines to.level serial (cause_text cause)) self.new }
    {
        if let Some(words) = cause_words(cause) {
            self.add(to, Shown::Fault, &drop_line(serial, words));
        }
    }

    /// Adds a cause, if there is one.
    fn add_cause(&mut self, to: Settings, shown: Shown, cause: Option<Cause<'_>>)
        ensures { (lines : List (List ℕ)) → Holds lines self.old
            → Holds (lines ++ of_cause (λ line. told_lines shown to.level to.voice line) cause.entry) self.new }
    {
        if let Some(Cause { what, why }) = cause {
            let pieces = [
                Text("tcpserver: cause: "),
                Field(what),
                Text(": "),
                Text(why),
            ];
            self.add(to, shown, &pieces);
        }
    }
}

/// The line of how many connections are alive, and how many may be.
pub(crate) fn status_line(live: u64, limit: u64) -> [Piece<'static>; 4]
    ensures { line_of result ≡ status_line live limit }
{
    [
        Text("tcpserver: status: "),
        Number(live),
        Text("/"),
        Number(limit),
    ]
}

/// The line of a connection that was let in.
fn pid_line(serial: u64, ip: [u8; 4]) -> [Piece<'static>; 4]
    ensures { line_of result ≡ pid_line serial ip }
{
    [
        Text("tcpserver: pid "),
        Number(serial),
        Text(" from "),
        Address(ip),
    ]
}

/// The line of what was decided of a connection, with its two ends.
fn verdict_line<'a>(
    verdict: Verdict,
    serial: u64,
    local: &'a Local,
    peer: &'a Peer,
) -> [Piece<'a>; 17]
    ensures { line_of result ≡ verdict_text verdict serial local.now peer.now }
{
    [
        Text("tcpserver: "),
        Text(verdict_word(verdict)),
        Number(serial),
        Text(" "),
        Name(local.host()),
        Text(":"),
        Address(local.ip()),
        Text(":"),
        Number(u64::from(local.port())),
        Text(" "),
        Name(peer.host()),
        Text(":"),
        Address(peer.ip()),
        Text(":"),
        Name(peer.info()),
        Text(":"),
        Number(u64::from(peer.port())),
    ]
}

/// The line of which process runs a connection's program.
fn runs_line(serial: u64, process: u32) -> [Piece<'static>; 4]
    ensures { line_of result ≡ runs_text serial process }
{
    [
        Text("tcpserver: runs "),
        Number(serial),
        Text(" process "),
        Number(u64::from(process)),
    ]
}

/// The line of how a connection's child ended.
fn end_line(serial: u64, status: Status) -> [Piece<'static>; 4]
    ensures { line_of result ≡ end_text serial status }
{
    [
        Text("tcpserver: end "),
        Number(serial),
        Text(" status "),
        status_piece(status),
    ]
}

/// The line of the signal by which it ended.
fn signal_line(serial: u64, signal: u32) -> [Piece<'static>; 4]
    ensures { line_of result ≡ signal_text serial signal }
{
    [
        Text("tcpserver: cause: "),
        Number(serial),
        Text(": signal "),
        Number(u64::from(signal)),
    ]
}

/// The line of a child that could not be waited for.
fn retired_line(serial: u64) -> [Piece<'static>; 2]
    ensures { line_of result ≡ retired_text serial }
{
    [Text("tcpserver: retired "), Number(serial)]
}

/// The line of why a connection was dropped.
fn drop_line<'a>(serial: u64, words: &'a str) -> [Piece<'a>; 4]
    ensures { line_of result ≡ drop_text serial words.now }
{
    [
        Text("tcpserver: drop "),
        Number(serial),
        Text(" "),
        Text(words),
    ]
}

/// The line of why a connection's child was not started.
fn start_line(serial: u64, fault: StartFault) -> [Piece<'static>; 4]
    ensures { line_of result ≡ start_text serial fault }
{
    let words = fault_words(fault);
    [
        Text("tcpserver: start "),
        Number(serial),
        Text(" "),
        Text(words),
    ]
}

fn verdict_word(verdict: Verdict) -> &'static str
    ensures { result.now ≡ verdict_word verdict }
{
    match verdict {
        Verdict::Allow => "ok ",
        Verdict::Deny => "deny ",
    }
}

/// How a child ended.
fn status_piece(status: Status) -> Piece<'static>
    ensures { piece_text result ≡ status_text status }
{
    match status {
        Status::Code(code) => Number(u64::from(code)),
        Status::Signal => Text("signal"),
    }
}

/// The words for a cause, if a drop for it has a line.
fn cause_words(cause: DropCause) -> Option<&'static str>
    ensures { given result ≡ cause_text cause }
{
    match cause {
        DropCause::Denied => None,
        DropCause::Banner => Some("banner fault"),
        DropCause::Directory => Some("directory fault"),
        DropCause::ReadFault => Some("rules read fault"),
        DropCause::Damaged => Some("rules damaged"),
        DropCause::Memory => Some("out of memory"),
    }
}

fn fault_words(fault: StartFault) -> &'static str
    ensures { result.now ≡ fault_text fault }
{
    match fault {
        StartFault::NotFound => "not found",
        StartFault::Refused => "refused",
        StartFault::Other => "failed",
        StartFault::OutOfMemory => "out of memory",
    }
}
