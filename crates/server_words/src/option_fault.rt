//! Why option words are refused.
ghost use Rattle.std.specs.Prelude.{◌≡◌};
ghost use Rattle.server_words.specs.declared.option_fault.WordFault.TheVariants.{OutOfMemory};

use std::alloc::{AllocError, AllocFailed};

/// What is wrong with an option word, with the letter at fault.
#[derive(Clone, Copy)]
pub enum WordFault {
    /// The program has no such letter.
    Unknown(char),
    /// The letter takes a value, and nothing follows it.
    NoValue(char),
    /// The original program has the letter, and this one refuses it. It needs no value for that.
    NotInProfile(char),
    /// The letter's value is no number in its range.
    BadNumber(char),
    /// There was no memory for the options.
    OutOfMemory,
}

impl From<AllocError> for WordFault {
    ghost from_gives = { λ _ e. e ≡ OutOfMemory };

    fn from(_error: AllocError) -> WordFault {
        WordFault::OutOfMemory
    }
}

impl<T: Drop> From<AllocFailed<T>> for WordFault {
    ghost from_gives = { λ _ e. e ≡ OutOfMemory };

    fn from(_error: AllocFailed<T>) -> WordFault {
        WordFault::OutOfMemory
    }
}
