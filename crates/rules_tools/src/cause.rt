//! What a fault of the system was about, and the system's error.
ghost use Rattle.std.specs.Prelude.{◌≡◌};
ghost use Rattle.rules_tools.specs.Causes.{cause_of};

use dir_disk::{DiskFailure, FailedOn};

/// What the system was asked for when it failed.
#[derive(Clone, Copy)]
pub enum CauseOf {
    /// Bytes of standard input.
    Input,
    /// That standard output takes bytes.
    Output,
    /// The folder of the rules file.
    Folder,
    /// The scratch file, or who has it.
    Scratch,
    /// The rules file.
    Rules,
}

/// Why a call of the system failed.
#[derive(Clone, Copy)]
pub struct ErrorCause {
    /// What it was asked for.
    pub of: CauseOf,
    /// The system's number of its error (`errno`).
    pub error: i32,
}

impl ErrorCause {
    /// The cause that a call tells, if the system has a number for its error.
    pub(crate) fn of(of: CauseOf, error: Option<i32>) -> Option<ErrorCause>
        ensures { result ≡ cause_of of error }
    {
        Some(ErrorCause { of, error: error? })
    }

    /// The cause of a call of a folder that failed. `named` is the only file that such calls name, and if they move it,
    /// they move it onto the rules file.
    pub(crate) fn of_call(named: CauseOf, failure: Option<DiskFailure>) -> Option<ErrorCause> {
        let failure = failure?;
        let of = match failure.on {
            FailedOn::Folder => CauseOf::Folder,
            FailedOn::Name => named,
            FailedOn::Onto => CauseOf::Rules,
        };
        ErrorCause::of(of, Some(failure.error))
    }
}
