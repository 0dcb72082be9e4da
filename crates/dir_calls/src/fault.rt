//! What can go wrong in a directory.
ghost use Rattle.std.specs.Prelude.{◌≡◌};
ghost use Rattle.dir_calls.specs.declared.fault.DirFault.TheVariants.{OutOfMemory};

use std::alloc::{AllocError, AllocFailed};
use std::fmt;

/// Why a call of a directory failed.
#[derive(Clone, Copy)]
pub enum DirFault {
    /// There is no scratch file. Nothing changed.
    NoScratch,
    /// There is no such name. Nothing changed.
    NoName,
    /// The device failed. The names are those before the call or those after it. After a `fresh` they may also lack its
    /// name. A failed settling keeps the names, and may have settled some of the first pending changes. Synced files
    /// are as before, and nothing is known of others.
    Device,
    /// There was no memory. Nothing changed.
    OutOfMemory,
}

impl fmt::Display for DirFault {
    fn fmt<W: fmt::Write>(&self, f: &mut fmt::Formatter<W>) -> fmt::Result {
        f.write_str(match self {
            DirFault::NoScratch => "no scratch file",
            DirFault::NoName => "no such name",
            DirFault::Device => "device fault",
            DirFault::OutOfMemory => "out of memory",
        })
    }
}

impl From<AllocError> for DirFault {
    ghost from_gives = { λ _ fault. fault ≡ OutOfMemory };

    fn from(_: AllocError) -> Self {
        DirFault::OutOfMemory
    }
}

impl<T: Drop> From<AllocFailed<T>> for DirFault {
    ghost from_gives = { λ _ fault. fault ≡ OutOfMemory };

    fn from(_: AllocFailed<T>) -> Self {
        DirFault::OutOfMemory
    }
}
