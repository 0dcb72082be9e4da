//! Whom a tool speaks to, and how much it tells of a fault.
ghost use Rattle.std.specs.Prelude.{◌≡◌};
ghost use Rattle.fault_hints.specs.Voices.{detail_of, mode_by_name};

use server_words::{Level, Mode};

/// Whom a tool speaks to, by the name by which it was called.
#[derive(Clone, Copy)]
pub enum Voice {
    /// Scripts and readers of the log: `ucspi TOOL` prints the line of a fault, and its cause where its words ask for
    /// that.
    Plain,
    /// A person: a tool that was called by its own name prints causes and hints beside these lines.
    Helpful,
}

/// What is told behind the line of a fault.
#[derive(Clone, Copy)]
pub enum Detail {
    /// Nothing.
    Line,
    /// Its cause.
    Cause,
    /// Its cause, and what to do.
    Hint,
}

impl Voice {
    /// How connections are passed to programs where the words don't say it.
    pub fn mode(self) -> Mode
        ensures { result ≡ mode_by_name self }
    {
        match self {
            Voice::Plain => Mode::Pumped,
            Voice::Helpful => Mode::HandedOver,
        }
    }

    /// What is told behind the line of a fault, of a tool whose words ask for this level.
    pub fn detail(self, level: Level) -> Detail
        ensures { result ≡ detail_of self level }
    {
        match (self, level) {
            (_, Level::Quiet) => Detail::Line,
            (Voice::Helpful, _) => Detail::Hint,
            (Voice::Plain, Level::All) => Detail::Cause,
            (Voice::Plain, Level::Errors) => Detail::Line,
        }
    }
}
