//! How long texts, lines and compiled files may be.
ghost use Rattle.std.specs.Prelude.{◌≡◌};

/// How long a rule text, one of its lines and the compiled file may be, in bytes. A length equal to its limit is
/// allowed.
#[derive(Clone, Copy)]
pub struct Limits {
    /// The longest rule text.
    pub text: u64,
    /// The longest line of a rule text, without the blanks at its end.
    pub line: u64,
    /// The longest compiled file; below 2,048 it counts as that, and above 4,294,967,295 as that.
    pub file: u64,
}

impl Limits {
    /// The limits of the tools: 64 MiB for a text, 64 KiB for a line and 1 GiB for a compiled file.
    pub fn profile() -> Limits
        ensures text { result.text ≡ 67108864 }
        ensures line { result.line ≡ 65536 }
        ensures file { result.file ≡ 1073741824 }
    {
        Limits {
            text: 64 * 1024 * 1024,
            line: 64 * 1024,
            file: 1024 * 1024 * 1024,
        }
    }
}
