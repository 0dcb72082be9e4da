//! Why the system refused what it was asked for.
ghost use Rattle.std.specs.Prelude.{◌≡◌};

use std::marker::Model;

/// What the system was asked for, as a program or a path, and its words for its error.
#[derive(Drop)]
pub struct Cause<'a> {
    pub(crate) what: &'a [u8],
    pub(crate) why: &'a str,
}

impl<'a> Model for Cause<'a> {
    ghost use Rattle.server_log.specs.Causes.{CauseText};

    ghost Value = { CauseText };

    ghost view = { λ c. record { what = c.what.now; why = c.why.now } };
}

impl<'a> Cause<'a> {
    /// A cause: this was asked for, and refused with these words.
    pub fn new(what: &'a [u8], why: &'a str) -> Cause<'a>
        ensures { result ≡ record { what = what.now; why = why.now } }
    {
        Cause { what, why }
    }
}
