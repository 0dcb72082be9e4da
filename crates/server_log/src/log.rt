//! The log of a server: which lines an event has, and when they are written.
ghost use Rattle.std.specs.Prelude.{◌≡◌, ◌≢◌, ◌↔◌, Err, IfErr, IfOk, IsTrue, List, OnErr, OnOk, is_ok, length, ℕ};
ghost use Rattle.server_log.specs.Lines.{event_lines, full_lines, listening_text, memory_lines, no_names_lines, person, refusal_lines, status_lines};
ghost use Rattle.server_log.specs.Logs.{Holds, IsLater, KeepsSettings, Logged, Takes, TellsInOrder, held, last_of, level_of, limit_of, voice_of, writer_of};
ghost use Rattle.server_log.specs.Pieces.{line_of, told_lines};
ghost use Rattle.server_yard.specs.Evidence.{asked_event, made_at};
ghost use Rattle.server_yard.specs.Yards.{yard_books, yard_server};

use crate::fault::LogFault;
use crate::lines::{Lines, Settings, Shown, Told, status_line};
use crate::pieces::Piece;
use crate::pieces::Piece::{Address, Number, Text};
use byte_streams::write_out;
use fault_hints::Voice;
use server_words::Level;
use server_yard::{AdmitFault, Made, OutOfTurn, Places, Yard};
use std::alloc::Global;
use std::io::Write;

/// The log of a server: it writes the lines of the events that it is told.
///
/// The lines of one event are written together, by one write if the writer takes them so. A line that finds no memory
/// is left out, and so is what the writer does not take. Events are told in the order of the history; one that comes
/// too late is left out.
#[derive(Drop)]
pub struct Log<W> {
    writer: W,
    settings: Settings,
    // the position of the last event that was told
    last: u64,
    // room for the lines of an event
    lines: Lines,
}

/// What a yard answered of an event that it was asked for. If it made the event, a log has taken it, as it was. Only
/// `Log::report` makes one.
#[derive(Drop)]
pub struct Reported {
    answer: Result<Made, OutOfTurn>,
    // what became of its lines: a server goes on either way
    lines: Result<(), LogFault>,
}

impl Reported {
    ghost use Rattle.server_log.specs.Reports.{reported_answer};

    /// Whether the event was made.
    pub fn was_made(&self) -> bool
        ensures { result ≡ is_ok (reported_answer self.now) }
    {
        self.answer.is_ok()
    }
}

impl<W: Write> Log<W> {
    ghost use Rattle.server_log.specs.Reports.{Tells, TellsItsClient, reported_answer, reported_lines};

    /// A log of this level that speaks with this voice, for a server with this limit of connections. It takes no
    /// memory, and nothing is written.
    pub fn new(alloc: Global, writer: W, level: Level, voice: Voice, limit: u64) -> Log<W>
        ensures writer { writer_of result ≡ writer }
        ensures level { level_of result ≡ level }
        ensures voice { voice_of result ≡ voice }
        ensures limit { limit_of result ≡ limit }
        ensures untold { last_of result ≡ 0 }
    {
        let settings = Settings {
            level,
            voice,
            limit,
        };
        Log {
            writer,
            settings,
            last: 0,
            lines: Lines::new(alloc),
        }
    }

    /// Tells how many connections are alive.
    ///
    /// # Errors
    /// There was no memory for the line, or the writer did not take it. So it is of each event.
    pub fn status(&mut self, live: u64) -> Result<(), LogFault>
        ensures lines { Logged (status_lines (level_of self.old) (limit_of self.old) live)
            (held W.contents self.old) (held W.contents self.new) result }
        ensures same { KeepsSettings self.old self.new }
        ensures no_event { last_of self.new ≡ last_of self.old }
    {
        let line = status_line(live, self.settings.limit);
        self.tell_line(Shown::Progress, &line)
    }

    /// Tells what this yard has just answered of an event, if it made it. As many connections are alive after the event
    /// as are in the yard. The lines of the event are written, unless one at its position or a later one was told
    /// before. An event that was not made has no lines.
    pub fn report<L: Places>(
        &mut self,
        yard: &Yard<L>,
        answer: Result<Made, OutOfTurn>,
        told: Told<'_>,
    ) -> Reported
        requires its { Tells told (asked_event answer) }
        requires client { OnOk answer (TellsItsClient told (yard_server yard.now).connections) }
        requires just { IfOk answer (λ made. made_at made ≡ (yard_books yard.now).count) }
        ensures answer { reported_answer result ≡ answer }
        ensures order { IfOk answer (λ made.
            TellsInOrder (last_of self.old) (made_at made) (last_of self.new) (reported_lines result)) }
        ensures lines { OnOk answer (reported_lines result ≢ Err LogFault.OutOfOrder
            → Logged (event_lines (level_of self.old) (voice_of self.old) (limit_of self.old)
            (length (yard_server yard.now).connections) told.entry)
            (held W.contents self.old) (held W.contents self.new) (reported_lines result)) }
        ensures untouched { reported_lines result ≡ Err LogFault.OutOfOrder → self.new ≡ self.old }
        ensures none { OnErr answer (self.new ≡ self.old) }
        ensures same { KeepsSettings self.old self.new }
    {
        let lines = match &answer {
            Ok(made) => self.tell(made.at(), yard.live(), told),
            Err(_) => Ok(()),
        };
        Reported { answer, lines }
    }

    // Tells an event at its position in the history, after which `live` connections are alive. It is refused if one at
    // this position or a later one was told before; nothing is written then.
    fn tell(&mut self, at: u64, live: u64, told: Told<'_>) -> Result<(), LogFault>
        ensures order { TellsInOrder (last_of self.old) at (last_of self.new) result }
        ensures lines { result ≢ Err LogFault.OutOfOrder
            → Logged (event_lines (level_of self.old) (voice_of self.old) (limit_of self.old) live told.entry)
            (held W.contents self.old) (held W.contents self.new) result }
        ensures untouched { result ≡ Err LogFault.OutOfOrder → self.new ≡ self.old }
        ensures same { KeepsSettings self.old self.new }
    {
        if !is_later(self.last, at) {
            return Err(LogFault::OutOfOrder);
        }
        self.last = at;
        self.lines.clear();
        self.lines.add_event(self.settings, live, told);
        self.write_lines()
    }

    /// Tells where the server listens.
    pub fn listening(&mut self, ip: [u8; 4], port: u16) -> Result<(), LogFault>
        ensures lines { Logged (person (voice_of self.old) (level_of self.old) (listening_text ip port))
            (held W.contents self.old) (held W.contents self.new) result }
        ensures same { KeepsSettings self.old self.new }
        ensures no_event { last_of self.new ≡ last_of self.old }
    {
        let port = Number(u64::from(port));
        let line = [
            Text("tcpserver: listening on "),
            Address(ip),
            Text(":"),
            port,
        ];
        self.tell_line(Shown::Person, &line)
    }

    /// Tells why a client at this address was not let in, if that has a line.
    pub fn refused(&mut self, ip: [u8; 4], fault: AdmitFault) -> Result<(), LogFault>
        ensures lines { Logged (refusal_lines (level_of self.old) ip fault)
            (held W.contents self.old) (held W.contents self.new) result }
        ensures same { KeepsSettings self.old self.new }
        ensures no_event { last_of self.new ≡ last_of self.old }
    {
        match fault {
            AdmitFault::FullForAddress => self.address_full(ip),
            AdmitFault::OutOfMemory => self.out_of_memory(),
            AdmitFault::Full | AdmitFault::Spent => Ok(()),
        }
    }

    // Tells that a connection was refused, since as many of its address are alive as may be.
    fn address_full(&mut self, ip: [u8; 4]) -> Result<(), LogFault>
        ensures lines { Logged (full_lines (level_of self.old) ip)
            (held W.contents self.old) (held W.contents self.new) result }
        ensures same { KeepsSettings self.old self.new }
        ensures no_event { last_of self.new ≡ last_of self.old }
    {
        let line = [Text("tcpserver: drop "), Address(ip), Text(" address full")];
        self.tell_line(Shown::Fault, &line)
    }

    /// Tells that a connection was refused for want of memory. Its line takes no memory.
    ///
    /// # Errors
    /// The writer did not take the line.
    #[tactic(auto, using(crate::proofs::LogLemmas::logged_line, crate::proofs::LogLemmas::takes_none))]
    pub fn out_of_memory(&mut self) -> Result<(), LogFault>
        ensures lines { Logged (memory_lines (level_of self.old))
            (held W.contents self.old) (held W.contents self.new) result }
        ensures takes_none { IfErr result (λ fault. fault ≡ LogFault.WriteFault) }
        ensures same { KeepsSettings self.old self.new }
        ensures no_event { last_of self.new ≡ last_of self.old }
    {
        match self.settings.level {
            Level::All | Level::Errors => {
                write_text(b"tcpserver: out of memory\n", &mut self.writer)
            }
            Level::Quiet => Ok(()),
        }
    }

    /// Tells that there are rules by name, and that no client has a name. Its line takes no memory.
    ///
    /// # Errors
    /// The writer did not take the line.
    #[tactic(auto, using(crate::proofs::LogLemmas::logged_line, crate::proofs::LogLemmas::takes_none))]
    pub fn no_names(&mut self) -> Result<(), LogFault>
        ensures lines { Logged (no_names_lines (level_of self.old))
            (held W.contents self.old) (held W.contents self.new) result }
        ensures takes_none { IfErr result (λ fault. fault ≡ LogFault.WriteFault) }
        ensures same { KeepsSettings self.old self.new }
        ensures no_event { last_of self.new ≡ last_of self.old }
    {
        match self.settings.level {
            Level::All => write_text(
                b"tcpserver: rules by name, and no names\n",
                &mut self.writer,
            ),
            Level::Errors | Level::Quiet => Ok(()),
        }
    }

    /// Tells a line of these pieces.
    fn tell_line(&mut self, shown: Shown, pieces: &[Piece<'_>]) -> Result<(), LogFault>
        ensures lines { Logged (told_lines shown (level_of self.old) (voice_of self.old) (line_of pieces.now))
            (held W.contents self.old) (held W.contents self.new) result }
        ensures same { KeepsSettings self.old self.new }
        ensures no_event { last_of self.new ≡ last_of self.old }
    {
        self.lines.clear();
        self.lines.add(self.settings, shown, pieces);
        self.write_lines()
    }

    /// Writes the lines that were added.
    fn write_lines(&mut self) -> Result<(), LogFault>
        ensures lines { (lines : List (List ℕ)) → Holds lines self.old.lines
            → Logged lines (held W.contents self.old) (held W.contents self.new) result }
        ensures same { KeepsSettings self.old self.new }
        ensures no_event { last_of self.new ≡ last_of self.old }
    {
        let written = write_text(&self.lines.bytes, &mut self.writer);
        match (written, self.lines.added) {
            (Err(fault), _) => Err(fault),
            (Ok(()), Err(_)) => Err(LogFault::OutOfMemory),
            (Ok(()), Ok(())) => Ok(()),
        }
    }
}

fn is_later(last: u64, at: u64) -> bool
    ensures { IsTrue result ↔ IsLater last at }
{
    last < at || at == u64::MAX
}

fn write_text<W: Write>(bytes: &[u8], writer: &mut W) -> Result<(), LogFault>
    ensures { Takes bytes.now (W.contents writer.old) (W.contents writer.new) result }
{
    match write_out(bytes, writer) {
        Ok(()) => Ok(()),
        Err(_) => Err(LogFault::WriteFault),
    }
}
