//! What the standard input and output of a connection's program are.
ghost use Rattle.std.specs.Prelude.{◌≡◌};
ghost use Rattle.server_words.specs.Modes.{mode_given, mode_in};

use crate::Options;

/// What a program has as its standard input and output. Of `-s` and `-S` the last given counts; without them the name
/// by which the tool was called does.
#[derive(Clone, Copy)]
pub enum Mode {
    /// The connection itself, one socket twice, as in ucspi-tcp 0.88 (`-s`).
    HandedOver,
    /// Pipes, and the server passes the bytes on (`-S`, and wherever `-w` is given).
    Pumped,
}

impl Mode {
    /// The mode that options ask for, or that of the tool's name; `None` where `-w` is given beside a last `-s`.
    pub(crate) fn of(options: &Options<'_>, by_name: Mode) -> Option<Mode>
        ensures { result ≡ mode_in by_name options.now }
    {
        if !options.has('w') {
            return Some(Mode::given(options, by_name));
        }
        match Mode::given(options, Mode::Pumped) {
            Mode::HandedOver => None,
            Mode::Pumped => Some(Mode::Pumped),
        }
    }

    /// The last given of `-s` and `-S`, or else that of the tool's name.
    fn given(options: &Options<'_>, by_name: Mode) -> Mode
        ensures { result ≡ mode_given by_name options.now }
    {
        match options.last_of(&['s', 'S']) {
            None => by_name,
            Some('s') => Mode::HandedOver,
            Some(_) => Mode::Pumped,
        }
    }
}
