//! Names of files.
ghost use Rattle.std.specs.Prelude.{◌≡◌, IsTrue, is_none, IfOk, IsOkUnless, MatchOption};
ghost use Rattle.dir_calls.specs.Names.{name_fault, is_dots as dots_test};

use std::alloc::{AllocError, Global};
use std::marker::Model;

/// Why bytes are no name.
#[derive(Clone, Copy)]
pub enum NameFault {
    /// There are no bytes.
    Empty,
    /// There are over 255 bytes.
    TooLong,
    /// A slash is among them.
    Slash,
    /// A zero byte is among them.
    Nul,
    /// They are `.` or `..`.
    Dots,
    /// They are not UTF-8.
    NotText,
    /// There was no memory to keep the name, if they are one.
    OutOfMemory,
}

/// The name of a file: 1 to 255 bytes of UTF-8 without a slash and without a zero byte, and neither `.` nor `..`.
#[derive(Drop)]
pub struct Name {
    text: String,
}

impl Model for Name {
    ghost use Rattle.std.specs.Prelude.{List, ℕ, IsTrue, is_none};
    ghost use Rattle.std.specs.String.{string_bytes};
    ghost use Rattle.dir_calls.specs.Names.{name_fault};

    ghost Value = { List ℕ };

    ghost view = { λ name. string_bytes name.text };

    ghost invariant = { λ name. IsTrue (is_none (name_fault (string_bytes name.text))) };
}

// Whether they are `.` or `..`.
fn is_dots(bytes: &[u8]) -> bool
    ensures { result ≡ dots_test bytes.now }
{
    bytes == b".".as_slice() || bytes == b"..".as_slice()
}

impl Name {
    /// The name with these bytes, or the first rule that they break.
    pub fn new(alloc: Global, bytes: &[u8]) -> Result<Name, NameFault>
        ensures kept { IfOk result (λ name. name ≡ bytes.now) }
        ensures refused { MatchOption (name_fault bytes.now)
            (IsOkUnless result NameFault.OutOfMemory) (λ fault. result ≡ Err fault) }
    {
        if bytes.is_empty() {
            return Err(NameFault::Empty);
        }
        if bytes.len() > 255 {
            return Err(NameFault::TooLong);
        }
        if bytes.contains(&b'/') {
            return Err(NameFault::Slash);
        }
        if bytes.contains(&0) {
            return Err(NameFault::Nul);
        }
        if is_dots(bytes) {
            return Err(NameFault::Dots);
        }
        let Ok(text) = str::from_utf8(bytes) else {
            return Err(NameFault::NotText);
        };
        match String::from_str(alloc, text) {
            Ok(text) => Ok(Name { text }),
            Err(AllocError) => Err(NameFault::OutOfMemory),
        }
    }

    /// Its text, which keeps the rules for names.
    pub fn as_str(&self) -> &str
        ensures same { result.now ≡ self.now }
        ensures allowed { IsTrue (is_none (name_fault result.now)) }
    {
        self.text.as_str()
    }

    /// An equal name.
    pub fn copy(&self, alloc: Global) -> Result<Name, AllocError>
        ensures { IfOk result (λ copy. copy ≡ self.now) }
    {
        Ok(Name {
            text: String::from_str(alloc, self.text.as_str())?,
        })
    }
}
