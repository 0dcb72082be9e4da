//! Why the words of `tcpserver` are refused, what is printed of it, and the exit code.
ghost use Rattle.std.specs.Prelude.{◌≡◌, ◌++◌};
ghost use Rattle.server_words.specs.declared.fault.ServerWordsFault.TheVariants.{OutOfMemory};
ghost use Rattle.server_words.specs.Faults.{exit_of, fault_of_word, fault_text};

use crate::WordFault;
use std::alloc::{AllocError, AllocFailed};
use std::error::Error;
use std::fmt;

/// What is wrong with the words of `tcpserver`. Where several things are, the first of them counts: the option words in
/// their order, then the numbers in the order of `ConnectionLimits`, then host, port and program, then the wrappers.
#[derive(Clone, Copy, PartialEq, Eq, Debug)]
pub enum ServerWordsFault {
    /// There is no such option.
    UnknownOption(char),
    /// The option takes a value, and nothing follows it.
    NoValue(char),
    /// The original `tcpserver` has the option, and this one refuses it. It needs no value for that.
    NotInProfile(char),
    /// The option's value is no number in its range.
    BadNumber(char),
    /// The words after the options are no host, port and program.
    Usage,
    /// The value of `-w` does not name wrappers.
    BadWrappers,
    /// There was no memory for what the words ask for.
    OutOfMemory,
}

impl ServerWordsFault {
    /// What is told of the fault: a text, the letter of an option if it is about one, and the text behind that.
    fn parts(self, buffer: &mut [u8; 4]) -> (&'static str, &str, &'static str)
        ensures { result.0.now ++ result.1.now ++ result.2.now ≡ fault_text self }
    {
        match self {
            ServerWordsFault::UnknownOption(letter) => {
                ("unknown option -", letter.encode_utf8(buffer), "")
            }
            ServerWordsFault::NoValue(letter) => {
                ("option -", letter.encode_utf8(buffer), " needs a value")
            }
            ServerWordsFault::NotInProfile(letter) => {
                (
                    "option -",
                    letter.encode_utf8(buffer),
                    " is not in this profile",
                )
            }
            ServerWordsFault::BadNumber(letter) => {
                ("option -", letter.encode_utf8(buffer), " has a bad number")
            }
            ServerWordsFault::Usage => {
                ("usage: tcpserver [options] host port prog [args]", "", "")
            }
            ServerWordsFault::BadWrappers => ("bad wrappers", "", ""),
            ServerWordsFault::OutOfMemory => ("out of memory", "", ""),
        }
    }

    /// The code with which `tcpserver` exits: 111 for want of memory, else 100.
    pub fn exit_code(self) -> u8
        ensures { result ≡ exit_of self }
    {
        match self {
            ServerWordsFault::OutOfMemory => 111,
            _ => 100,
        }
    }
}

impl fmt::Display for ServerWordsFault {
    fn fmt<W: fmt::Write>(&self, f: &mut fmt::Formatter<W>) -> fmt::Result {
        let mut buffer = [0u8; 4];
        let (before, letter, after) = self.parts(&mut buffer);
        f.write_str(before)?;
        f.write_str(letter)?;
        f.write_str(after)
    }
}

impl Error for ServerWordsFault {}

impl From<WordFault> for ServerWordsFault {
    ghost from_gives = { λ fault e. e ≡ fault_of_word fault };

    fn from(fault: WordFault) -> ServerWordsFault {
        match fault {
            WordFault::Unknown(letter) => ServerWordsFault::UnknownOption(letter),
            WordFault::NoValue(letter) => ServerWordsFault::NoValue(letter),
            WordFault::NotInProfile(letter) => ServerWordsFault::NotInProfile(letter),
            WordFault::BadNumber(letter) => ServerWordsFault::BadNumber(letter),
            WordFault::OutOfMemory => ServerWordsFault::OutOfMemory,
        }
    }
}

impl From<AllocError> for ServerWordsFault {
    ghost from_gives = { λ _ e. e ≡ OutOfMemory };

    fn from(_error: AllocError) -> ServerWordsFault {
        ServerWordsFault::OutOfMemory
    }
}

impl<T: Drop> From<AllocFailed<T>> for ServerWordsFault {
    ghost from_gives = { λ _ e. e ≡ OutOfMemory };

    fn from(_error: AllocFailed<T>) -> ServerWordsFault {
        ServerWordsFault::OutOfMemory
    }
}
