//! How far a file has come that is put in place of another.
ghost use Rattle.std.specs.Prelude.{◌≡◌};
ghost use Rattle.dir_calls.specs.PhaseWords.{phase_text};

use std::fmt;

/// A phase: how far an installation has come.
#[derive(Clone, Copy, PartialEq, Eq)]
pub enum Phase {
    /// The scratch file was made, empty.
    Fresh,
    /// Some bytes of the scratch file were written.
    Filling,
    /// The scratch file is whole, and lasts through a stop.
    Synced,
    /// The scratch file was renamed, and stands under the name of the rules file.
    Named,
    /// The new name lasts through a stop too.
    Done,
}

impl Phase {
    /// Its word, in lower case.
    pub fn as_str(self) -> &'static str
        ensures { result.now ≡ phase_text self }
    {
        match self {
            Phase::Fresh => "fresh",
            Phase::Filling => "filling",
            Phase::Synced => "synced",
            Phase::Named => "named",
            Phase::Done => "done",
        }
    }
}

impl fmt::Display for Phase {
    fn fmt<W: fmt::Write>(&self, f: &mut fmt::Formatter<W>) -> fmt::Result {
        f.write_str(self.as_str())
    }
}
