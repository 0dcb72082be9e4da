//! Why a run of a tool fails, and the code with which the program exits then.
ghost use Rattle.std.specs.Prelude.{◌≡◌, ◌++◌, OnOk};
ghost use Rattle.std.specs.Io.KnownBytes.{Appends};
ghost use Rattle.ucspi_tools.specs.Causes.{TellsLines, hint_of};
ghost use Rattle.ucspi_tools.specs.Exits.{exit_of, status_exit, warned_exit};

use crate::tool::Tool;
use child_jobs::Status;
use fault_hints::Detail;
use rules_tools::{CheckFault, ReviewFault, TcprulesFault};
use script_words::SimFault;
use server_parts::{ServerFault, TcpserverFault};
use std::fmt::Display;
use std::io::{Cursor, Write};
use std::{fmt, io};
use stream_tools::{BetweenFault, FilterFault};

/// The exit code of wrong words and bad input.
pub const BAD_INPUT: u8 = 100;

/// The exit code of faults of the system, want of memory among them.
pub const SYSTEM_FAULT: u8 = 111;

/// The exit code of a text with a warning, where that makes the run fail.
pub const WARNED: u8 = 1;

/// How many bytes the line of a fault may have: the longest has about a hundred.
const LINE: usize = 512;

/// Why a run of a tool fails. It prints as what stands behind the tool's name.
#[derive(Clone, Copy)]
pub enum ToolFault {
    /// The words are not those of this tool.
    UsageOf(Tool, Detail),
    /// The words ask for no tool.
    Usage,
    /// The server could not be started, or it ended by itself.
    Server(TcpserverFault),
    /// A script was not run to its end.
    Script(SimFault),
    /// Rules were not installed.
    Rules(TcprulesFault),
    /// A text was not looked over to its end.
    Review(ReviewFault),
    /// No decision is told.
    Check(CheckFault),
    /// A stream was not passed on to its end.
    Filter(FilterFault),
    /// A program could not be run between two streams.
    Between(BetweenFault),
    /// What is told of the program could not be written.
    WriteFault,
    /// There was no memory for the words.
    OutOfMemory,
}

impl Display for ToolFault {
    fn fmt<W: fmt::Write>(&self, f: &mut fmt::Formatter<W>) -> fmt::Result {
        match self {
            ToolFault::UsageOf(tool, _) => {
                f.write_str("usage: ")?;
                f.write_str(tool.usage())
            }
            ToolFault::Usage => f.write_str("usage: ucspi TOOL ..."),
            ToolFault::Server(TcpserverFault::Words(fault)) => fault.fmt(f),
            ToolFault::Server(TcpserverFault::Server(fault)) => fault.fmt(f),
            ToolFault::Script(fault) => fault.fmt(f),
            ToolFault::Rules(fault) => fault.fmt(f),
            ToolFault::Review(fault) => fault.fmt(f),
            ToolFault::Check(fault) => fault.fmt(f),
            ToolFault::Filter(fault) => fault.fmt(f),
            ToolFault::Between(fault) => fault.fmt(f),
            ToolFault::WriteFault => f.write_str("write fault"),
            ToolFault::OutOfMemory => f.write_str("out of memory"),
        }
    }
}

impl ToolFault {
    /// The code with which the program exits.
    pub fn exit_code(self) -> u8
        ensures { result ≡ exit_of self }
    {
        match self {
            ToolFault::UsageOf(..) | ToolFault::Usage => BAD_INPUT,
            ToolFault::Server(TcpserverFault::Words(fault)) => fault.exit_code(),
            ToolFault::Server(TcpserverFault::Server(ServerFault::BadHosts(_))) => BAD_INPUT,
            ToolFault::Script(SimFault::BadCommand(_)) => BAD_INPUT,
            ToolFault::Rules(TcprulesFault::ReadFault | TcprulesFault::Device(_)) => SYSTEM_FAULT,
            ToolFault::Rules(TcprulesFault::OutOfMemory) => SYSTEM_FAULT,
            ToolFault::Rules(_) => BAD_INPUT,
            ToolFault::Review(ReviewFault::Text(_)) => BAD_INPUT,
            ToolFault::Check(CheckFault::BadIp | CheckFault::BadHost) => BAD_INPUT,
            ToolFault::Check(CheckFault::BadInfo) => BAD_INPUT,
            _ => SYSTEM_FAULT,
        }
    }
}

/// The exit code of a text that was looked over: whether a warning makes the run fail, and whether there was one.
pub fn warned_code(strict: bool, warned: bool) -> u8
    ensures { result ≡ warned_exit strict warned }
{
    if strict && warned { WARNED } else { 0 }
}

/// The exit code of a program that was run, as the tool's own.
pub fn status_code(status: Status) -> u8
    ensures { result ≡ status_exit status }
{
    match status {
        Status::Code(code) => code,
        Status::Signal => SYSTEM_FAULT,
    }
}

/// Writes the line that tells why a tool failed, and behind it its causes and its hint.
///
/// # Errors
/// Those of the writer: some of it may be written.
pub fn write_fault<E: Write>(
    errors: &mut E,
    name: &str,
    fault: ToolFault,
    causes: &[u8],
) -> io::Result<()>
    ensures { TellsLines fault causes.now (E.contents errors.old) (E.contents errors.new) result }
{
    let (line, len) = line_of(name, fault);
    write_parts(errors, &line[..len.min(LINE)], causes, hint_of(fault))
}

/// The line that tells why a tool failed, and its length. It takes no memory of the heap.
fn line_of(name: &str, fault: ToolFault) -> ([u8; LINE], usize) {
    let mut line = Cursor::new([0u8; LINE]);
    let _ = writeln!(line, "{name}: {fault}");
    let len = line.position().min(LINE as u64) as usize;
    (line.into_inner(), len)
}

/// Writes a line, causes and a hint.
fn write_parts<E: Write>(errors: &mut E, line: &[u8], causes: &[u8], hint: &str) -> io::Result<()>
    ensures { OnOk result (Appends (E.contents errors.old) (E.contents errors.new)
        (line.now ++ causes.now ++ hint.now)) }
{
    errors.write_all(line)?;
    errors.write_all(causes)?;
    errors.write_all(hint.as_bytes())
}

/// What is told behind the line of a fault beside its causes: of a usage line what the words of the tool are.
fn hint_of(fault: ToolFault) -> &'static str
    ensures { result.now ≡ hint_of fault }
{
    match fault {
        ToolFault::UsageOf(tool, Detail::Hint) => tool.words(),
        _ => "",
    }
}
