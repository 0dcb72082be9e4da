//! `rulesim`: questions about rule texts, logs and lists of events, and stops during installations, by a script.
ghost use Rattle.std.specs.Prelude.{◌≡◌, ◌⊎◌, None, Err, OnOk, IfOk, IfSome};
ghost use Rattle.std.specs.Io.BufRead.{strip_last};
ghost use Rattle.std.specs.Io.KnownBytes.{Appends};
ghost use Rattle.script_tool.specs.Commands.{Leads};
ghost use Rattle.script_tool.specs.Kept.{IsAt};
ghost use Rattle.script_tool.specs.Sim.{State, command_at, run_log, sim, start, takes_log, Prints};
ghost use Rattle.script_words.specs.Readings.{meaning};
ghost use Rattle.rule_lookup.specs.Lines.{lines_of};

use crate::simulation::Simulation;
use crate::verdicts::compare_log;
use script_words::{Command, LineEnd, SimFault, read_command};
use std::alloc::Global;
use std::io;
use std::io::{BufRead, ErrorKind, Write};

/// The greatest number of lines that are read.
pub const MOST_LINES: u64 = 1 << 40;

const _: () = prove!(MOST_LINES == 1_099_511_627_776);

/// Runs a script, and writes what each command prints as soon as the command is read. The writer is flushed before the
/// return.
///
/// # Errors
/// Those of `SimFault`. What was printed before a bad line stays written.
pub fn run_rulesim<R: BufRead, W: Write>(
    alloc: Global,
    reader: &mut R,
    writer: &mut W,
) -> Result<(), SimFault>
    ensures { IfSome (R.remaining reader.old) (λ script.
        Prints (W.contents writer.old) (W.contents writer.new) (sim script) result) }
{
    let end = run_lines(alloc, reader, writer);
    match writer.flush() {
        Ok(()) => end,
        Err(_) => Err(SimFault::WriteFault),
    }
}

fn run_lines<R: BufRead, W: Write>(
    alloc: Global,
    reader: &mut R,
    writer: &mut W,
) -> Result<(), SimFault>
    ensures { IfSome (R.remaining reader.old) (λ script.
        Prints (W.contents writer.old) (W.contents writer.new) (sim script) result) }
{
    match Simulation::new(alloc) {
        Ok(mut sim) => run_with(alloc, reader, writer, &mut sim),
        Err(_) => Err(SimFault::OutOfMemory),
    }
}

/// What became of a line that is a command.
#[derive(Drop)]
pub enum LineOutcome {
    /// It was carried out, and prints this.
    Printed(Vec<u8>),
    /// The lines after it are a log.
    LogFollows,
}

/// Carries out a script from its start.
fn run_with<R: BufRead, W: Write>(
    alloc: Global,
    reader: &mut R,
    writer: &mut W,
    kept: &mut Simulation,
) -> Result<(), SimFault>
    requires { IsAt kept.old start }
    ensures { IfSome (R.remaining reader.old) (λ script.
        Prints (W.contents writer.old) (W.contents writer.new) (sim script) result) }
{
    let mut line = Vec::new(alloc);
    for number in 1..=MOST_LINES {
        line.clear();
        match reader.read_until(b'\n', &mut line) {
            Ok(0) => return Ok(()),
            Ok(_) => {}
            Err(error) => return Err(read_fault(&error)),
        }
        match answer(alloc, kept, line.as_slice()) {
            Ok(LineOutcome::Printed(out)) => match write_out(writer, out.as_slice()) {
                Ok(()) => {}
                Err(_) => return Err(SimFault::WriteFault),
            },
            Ok(LineOutcome::LogFollows) => return read_log(alloc, kept, number, reader, writer),
            Err(LineEnd::Bad) => return Err(SimFault::BadCommand(number)),
            Err(LineEnd::OutOfMemory) => return Err(SimFault::OutOfMemory),
        }
    }
    Err(SimFault::ReadFault)
}

/// Takes what is left to read as a log. `before` lines were read before it.
fn read_log<R: BufRead, W: Write>(
    alloc: Global,
    kept: &mut Simulation,
    before: u64,
    reader: &mut R,
    writer: &mut W,
) -> Result<(), SimFault>
    requires { (state : State) × IsAt kept.old state }
    ensures { (state : State) → IsAt kept.old state → IfSome (R.remaining reader.old) (λ log.
        Prints (W.contents writer.old) (W.contents writer.new) (run_log state (lines_of log)) result) }
{
    match kept.standing(alloc) {
        Ok(standing) => compare_log(alloc, &standing, before, reader, writer),
        Err(_) => Err(SimFault::OutOfMemory),
    }
}

/// The fault of a run whose reader failed.
pub fn read_fault(error: &io::Error) -> SimFault
    ensures { (result ≡ SimFault.ReadFault) ⊎ (result ≡ SimFault.OutOfMemory) }
{
    match error.kind() {
        ErrorKind::OutOfMemory => SimFault::OutOfMemory,
        _ => SimFault::ReadFault,
    }
}

/// Writes an answer, if there is one, and flushes it.
fn write_out<W: Write>(writer: &mut W, out: &[u8]) -> io::Result<()>
    ensures { OnOk result (Appends (W.contents writer.old) (W.contents writer.new) out.now) }
{
    if out.is_empty() {
        return Ok(());
    }
    writer.write_all(out)?;
    writer.flush()
}

/// Carries out a line, which may have a line feed at its end.
fn answer(alloc: Global, sim: &mut Simulation, line: &[u8]) -> Result<LineOutcome, LineEnd>
    requires { (state : State) × IsAt sim.old state }
    ensures done { IfOk result (λ outcome. (state : State) → IsAt sim.old state
        → Leads (strip_last 10 line.now) state sim.new outcome) }
    ensures refused { (state : State) → IsAt sim.old state
        → result ≡ Err LineEnd.Bad → command_at state (strip_last 10 line.now) ≡ None }
{
    let command = read_command(alloc, without_feed(line))?;
    if !sim.may_take(&command) {
        drop(command);
        return Err(LineEnd::Bad);
    }
    if takes_log(&command) {
        drop(command);
        return Ok(LineOutcome::LogFollows);
    }
    let mut out = Vec::new(alloc);
    sim.execute(alloc, command, &mut out)?;
    Ok(LineOutcome::Printed(out))
}

/// Whether a command takes the lines after it as a log.
fn takes_log(command: &Command<'_>) -> bool
    ensures { result ≡ takes_log (meaning command.now) }
{
    matches!(command, Command::Verdicts)
}

/// A line without the line feed at its end.
pub fn without_feed(line: &[u8]) -> &[u8]
    ensures { result.now ≡ strip_last 10 line.now }
{
    match line {
        [front @ .., b'\n'] => front,
        _ => line,
    }
}
