//! Why an installation fails.
ghost use Rattle.std.specs.Prelude.{◌≡◌};
ghost use Rattle.rules_install.specs.ParseFaults.{of_parse};
ghost use Rattle.rules_install.specs.declared.fault.InstallFault.TheVariants.{OutOfMemory};

use dir_calls::{DirFault, Phase};
use rule_lines::{LineFault, ParseFault};
use std::alloc::{AllocError, AllocFailed};

/// Why an installation, or a step of one, fails.
#[derive(Clone, Copy)]
pub enum InstallFault {
    /// The text is not accepted. The directory is as before.
    Line(LineFault),
    /// The compiled file would pass its limit. The directory is as before.
    TooLarge,
    /// A call of the directory failed, on the way to this phase. The rules file is the old one. If the phase is `Named`
    /// or `Done`, it may be the new one. With `Done` the new one stands there, but until names are settled a stop may
    /// bring back what stood there at some moment since they last were. The installation is over.
    Disk(DirFault, Phase),
    /// An earlier step answered `Disk`. Nothing was done.
    Over,
    /// There was no memory, possibly for a call of the directory. A step has changed nothing then, and may be made
    /// again. After a whole installation the rules file is the old one, and the scratch name may stand for an
    /// unfinished file.
    OutOfMemory,
}

impl From<AllocError> for InstallFault {
    ghost from_gives = { λ _ fault. fault ≡ OutOfMemory };

    fn from(_: AllocError) -> Self {
        InstallFault::OutOfMemory
    }
}

impl<T: Drop> From<AllocFailed<T>> for InstallFault {
    ghost from_gives = { λ _ fault. fault ≡ OutOfMemory };

    fn from(_: AllocFailed<T>) -> Self {
        InstallFault::OutOfMemory
    }
}

impl From<ParseFault> for InstallFault {
    ghost from_gives = { λ given fault. fault ≡ of_parse given };

    fn from(fault: ParseFault) -> Self {
        match fault {
            ParseFault::Line(fault) => InstallFault::Line(fault),
            ParseFault::OutOfMemory => InstallFault::OutOfMemory,
        }
    }
}
