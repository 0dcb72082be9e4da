//! How much of the log is printed.
ghost use Rattle.std.specs.Prelude.{◌≡◌};
ghost use Rattle.server_words.specs.Plans.{level_of};

use crate::Options;

/// Which lines of the log `tcpserver` prints. Of `-v`, `-Q` and `-q` the last given counts.
#[derive(Clone, Copy)]
pub enum Level {
    /// None (`-q`).
    Quiet,
    /// Those of errors (`-Q`, and without any of the three).
    Errors,
    /// Those of errors and those that tell how connections go (`-v`).
    All,
}

impl Level {
    /// The level that options ask for.
    pub fn of(options: &Options<'_>) -> Level
        ensures { result ≡ level_of options.now }
    {
        match options.last_of(&['v', 'Q', 'q']) {
            Some('v') => Level::All,
            Some('q') => Level::Quiet,
            _ => Level::Errors,
        }
    }
}
