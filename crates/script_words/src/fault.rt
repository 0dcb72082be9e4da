//! Why a run of `rulesim` fails.
use std::fmt;

/// Why a run of `rulesim` doesn't come to the end of its script.
#[derive(Clone, Copy)]
pub enum SimFault {
    /// This line, from 1, is no command.
    BadCommand(u64),
    /// The script could not be read, or has more than 2^40 lines.
    ReadFault,
    /// The answers could not be written.
    WriteFault,
    /// There was no memory.
    OutOfMemory,
}

impl fmt::Display for SimFault {
    fn fmt<W: fmt::Write>(&self, f: &mut fmt::Formatter<W>) -> fmt::Result {
        match self {
            SimFault::BadCommand(line) => write!(f, "line {line}: bad command"),
            SimFault::ReadFault => f.write_str("read fault"),
            SimFault::WriteFault => f.write_str("write fault"),
            SimFault::OutOfMemory => f.write_str("out of memory"),
        }
    }
}
