//! Why a rule text is refused.
ghost use Rattle.std.specs.Prelude.{◌≡◌};
ghost use Rattle.rule_lines.specs.FaultTexts.{kind_text};
ghost use Rattle.rule_lines.specs.declared.fault.ParseFault.TheVariants.{OutOfMemory};
ghost use Rattle.rule_lines.specs.declared.fault.RuleFault.TheVariants.{OutOfMemory as NoMemory};

use std::alloc::{AllocError, AllocFailed};
use std::fmt;

/// What is wrong with a line of a rule text. Of several the first one in this order is named.
#[derive(Clone, Copy)]
pub enum LineKind {
    /// The instructions begin with neither `allow` nor `deny`.
    NoVerdict,
    /// What follows the word is not a series of settings.
    BadSetting,
    /// A range has a part with a byte that is no digit, or a value above 4,294,967,295.
    BadRange,
    /// The line is not UTF-8.
    NotText,
    /// The line has a zero byte.
    NulByte,
    /// The line, without the blanks at its end, is longer than the limit for a line.
    LongLine,
    /// The text is longer than the limit for a text; this names line 0.
    LongText,
}

impl LineKind {
    /// What the tools print of it.
    pub fn as_str(self) -> &'static str
        ensures { result.now ≡ kind_text self }
    {
        match self {
            LineKind::NoVerdict => "no verdict",
            LineKind::BadSetting => "bad setting",
            LineKind::BadRange => "bad range",
            LineKind::NotText => "not text",
            LineKind::NulByte => "nul byte",
            LineKind::LongLine => "long line",
            LineKind::LongText => "text too long",
        }
    }
}

impl fmt::Display for LineKind {
    fn fmt<W: fmt::Write>(&self, f: &mut fmt::Formatter<W>) -> fmt::Result {
        f.write_str(self.as_str())
    }
}

/// The first faulty line of a text, counted from 1, and its least kind.
#[derive(Clone, Copy)]
pub struct LineFault {
    /// The line's number, from 1; 0 where the whole text is too long.
    pub line: u64,
    /// What is wrong with it.
    pub kind: LineKind,
}

impl fmt::Display for LineFault {
    fn fmt<W: fmt::Write>(&self, f: &mut fmt::Formatter<W>) -> fmt::Result {
        if matches!(self.kind, LineKind::LongText) {
            return write!(f, "{}", self.kind);
        }
        write!(f, "line {}: {}", self.line, self.kind)
    }
}

/// Why a line gives no rules: what is wrong with it, or that there was no memory for them.
#[derive(Clone, Copy)]
pub(crate) enum RuleFault {
    /// The line is faulty.
    Kind(LineKind),
    /// There was no memory for its rules.
    OutOfMemory,
}

impl From<AllocError> for RuleFault {
    ghost from_gives = { λ _ e. e ≡ NoMemory };

    fn from(_error: AllocError) -> RuleFault {
        RuleFault::OutOfMemory
    }
}

/// Why `parse` gives no list.
#[derive(Clone, Copy)]
pub enum ParseFault {
    /// The text is not accepted.
    Line(LineFault),
    /// There was no memory for the list.
    OutOfMemory,
}

impl From<AllocError> for ParseFault {
    ghost from_gives = { λ _ e. e ≡ OutOfMemory };

    fn from(_error: AllocError) -> ParseFault {
        ParseFault::OutOfMemory
    }
}

impl<T: Drop> From<AllocFailed<T>> for ParseFault {
    ghost from_gives = { λ _ e. e ≡ OutOfMemory };

    fn from(_error: AllocFailed<T>) -> ParseFault {
        ParseFault::OutOfMemory
    }
}
