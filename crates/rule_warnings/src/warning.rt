//! Warnings, and their lines.
ghost use Rattle.std.specs.Prelude.{◌≡◌, ◌++◌, OnOk};
ghost use Rattle.rule_warnings.specs.Warnings.{kind_text, warning_line};

use byte_text::{push_number, push_text};
use std::alloc::AllocError;

/// Why a line of an accepted rule text says less than it seems to.
#[derive(Clone, Copy)]
pub enum WarningKind {
    /// Of no peer at all any of its addresses is a lookup form.
    NoClient,
    /// It is for a user, which the server never learns.
    UnknownUser,
    /// Each of its addresses stands in an earlier line, and the first of these lines has this number.
    DecidedBy(u64),
    /// A setting of it has a name with a blank or a tab.
    BlankName,
    /// It is the last line, and no line is for everyone else.
    NobodyElse,
    /// It is no rule and no comment; or a comment that blanks before it make a rule.
    Ignored,
}

/// A warning, and the number of its line.
#[derive(Clone, Copy)]
pub struct Warning {
    /// The line's number, from 1; 0 for a text without lines.
    pub line: u64,
    /// What is said of it.
    pub kind: WarningKind,
}

impl Warning {
    /// Adds the line that `tcprules` prints. After an `Err` there may be any more bytes at the end.
    pub fn append_line(&self, out: &mut Vec<u8>) -> Result<(), AllocError>
        ensures { OnOk result (out.new.items ≡ out.old.items ++ warning_line self.now) }
    {
        push_text(out, "tcprules: line ")?;
        push_number(out, self.line)?;
        push_text(out, ": ")?;
        append_kind(self.kind, out)?;
        push_text(out, "\n")
    }
}

/// Adds what is told of a kind of warning.
fn append_kind(kind: WarningKind, out: &mut Vec<u8>) -> Result<(), AllocError>
    ensures { OnOk result (out.new.items ≡ out.old.items ++ kind_text kind) }
{
    match kind {
        WarningKind::NoClient => push_text(out, "no client has this address"),
        WarningKind::UnknownUser => push_text(out, "a user is never known"),
        WarningKind::DecidedBy(line) => {
            push_text(out, "line ")?;
            push_number(out, line)?;
            push_text(out, " decides first")
        }
        WarningKind::BlankName => push_text(out, "a name with a blank"),
        WarningKind::NobodyElse => push_text(out, "no rule for everyone else"),
        WarningKind::Ignored => push_text(out, "ignored"),
    }
}
