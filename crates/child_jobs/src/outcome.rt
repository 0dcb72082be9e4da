//! How a child or a connection ends.

/// How a child ended.
#[derive(Clone, Copy, PartialEq, Eq)]
pub enum Status {
    /// It exited with this code.
    Code(u8),
    /// A signal ended it.
    Signal,
}

/// Why a child could not be started.
#[derive(Clone, Copy, PartialEq, Eq)]
pub enum StartFault {
    /// There is no such program.
    NotFound,
    /// The system refused it, as a program that may not be executed.
    Refused,
    /// There was another reason.
    Other,
    /// There was no memory for it.
    OutOfMemory,
}

/// Why a program was not started: what is told of it, and the system's number of its error (`errno`), if the system
/// refused it.
#[derive(Clone, Copy)]
pub struct NotStarted {
    /// What is told.
    pub fault: StartFault,
    /// The number of the error.
    pub error: Option<i32>,
}

impl From<StartFault> for NotStarted {
    fn from(fault: StartFault) -> NotStarted {
        NotStarted { fault, error: None }
    }
}

/// How a program ended.
#[derive(Clone, Copy)]
pub struct Exit {
    /// What is told.
    pub status: Status,
    /// The system's number of the signal that ended it, if one did and it is known.
    pub signal: Option<u32>,
}

/// Why a connection was dropped before a child was started.
#[derive(Clone, Copy, PartialEq, Eq)]
pub enum DropCause {
    /// A rule denied it.
    Denied,
    /// The banner could not be written.
    Banner,
    /// The rules file could not be opened.
    Directory,
    /// The rules file could not be read.
    ReadFault,
    /// The rules file is damaged: it points outside of itself, or a value in it is no code.
    Damaged,
    /// There was no memory for it.
    Memory,
}
