//! Which call of a disk of the system failed last.
ghost use Rattle.std.specs.Prelude.{◌≡◌};

use std::alloc::{AllocError, Global};
use std::cell::Cell;
use std::io;
use std::sync::Arc;
use std::sync::atomic::{AtomicU32, Ordering};

/// What a failed call was about.
#[derive(Clone, Copy)]
pub enum FailedOn {
    /// The folder itself.
    Folder,
    /// The name that the call was given, the file that stands there, or the process that has it.
    Name,
    /// The name onto which one was to be moved.
    Onto,
}

/// A call of the system that failed.
#[derive(Clone, Copy)]
pub struct DiskFailure {
    /// What it was about.
    pub on: FailedOn,
    /// The system's number of its error (`errno`).
    pub error: i32,
}

/// Notes of how the last call of a disk ended, reads of opened files included. The number of an error is 0 if it is not
/// known.
#[derive(Drop)]
pub(crate) struct Notes {
    on: Cell<FailedOn>,
    error: Arc<AtomicU32, Global>,
}

impl Notes {
    /// Notes of a disk whose calls have not failed.
    pub(crate) fn new(alloc: Global) -> Result<Notes, AllocError> {
        Ok(Notes {
            on: Cell::new(FailedOn::Folder),
            error: Arc::new(alloc, AtomicU32::new(0))?,
        })
    }

    /// Notes how a call ended, and passes it on.
    pub(crate) fn note<T>(&self, on: FailedOn, outcome: io::Result<T>) -> io::Result<T>
        ensures { result ≡ outcome }
    {
        self.on.set(on);
        store(&self.error, &outcome);
        outcome
    }

    /// Notes this failure again, if there is one.
    pub(crate) fn keep(&self, failure: Option<DiskFailure>) {
        if let Some(failure) = failure {
            self.on.set(failure.on);
            self.error
                .store(failure.error.cast_unsigned(), Ordering::SeqCst);
        }
    }

    /// Notes for the reads of a file that is opened; `None` if too many files have them already.
    pub(crate) fn of_file(&self) -> Option<Arc<AtomicU32, Global>> {
        self.on.set(FailedOn::Name);
        Arc::try_clone(&self.error).ok()
    }

    /// The last call, if it failed by an error of the system.
    pub(crate) fn last(&self) -> Option<DiskFailure> {
        match self.error.load(Ordering::SeqCst) {
            0 => None,
            error => Some(DiskFailure {
                on: self.on.get(),
                error: error.cast_signed(),
            }),
        }
    }
}

/// Notes how a call ended.
pub(crate) fn store<T>(noted: &AtomicU32, outcome: &io::Result<T>) {
    let error = match outcome {
        Ok(_) => 0,
        Err(error) => error.raw_os_error().map_or(0, i32::cast_unsigned),
    };
    noted.store(error, Ordering::SeqCst);
}
