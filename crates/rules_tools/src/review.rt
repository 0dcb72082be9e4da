//! `tcprules -n`: tells what a rule text from standard input says less than it seems to.
ghost use Rattle.std.specs.Prelude.{◌≡◌, ◌==◌, not, length, IfOk, IfErr, IfSome, OnOk};
ghost use Rattle.std.specs.Io.KnownBytes.{Appends};
ghost use Rattle.rule_lines.specs.Faults.{IsAccepted};
ghost use Rattle.rule_warnings.specs.Warnings.{report_of, warnings_of};
ghost use Rattle.rules_tools.specs.Reviews.{OnNoReview, ReviewFails, profile, told_warning};

use crate::tcprules::{TcprulesFault, read_text};
use rule_lines::{Limits, LineFault};
use rule_warnings::{WarnFault, write_warnings};
use std::alloc::Global;
use std::fmt;
use std::fmt::Display;
use std::io::{Read, Write};

/// Why a text is not looked over to its end.
#[derive(Clone, Copy)]
pub enum ReviewFault {
    /// Standard input could not be read.
    ReadFault,
    /// The text is not accepted.
    Text(LineFault),
    /// A warning could not be written.
    WriteFault,
    /// There was no memory.
    OutOfMemory,
}

impl Display for ReviewFault {
    fn fmt<W: fmt::Write>(&self, f: &mut fmt::Formatter<W>) -> fmt::Result {
        match self {
            ReviewFault::ReadFault => f.write_str("read fault"),
            ReviewFault::Text(fault) => fault.fmt(f),
            ReviewFault::WriteFault => f.write_str("write fault"),
            ReviewFault::OutOfMemory => f.write_str("out of memory"),
        }
    }
}

impl From<WarnFault> for ReviewFault {
    ghost from_gives = { λ given fault. fault ≡ told_warning given };

    fn from(fault: WarnFault) -> Self {
        match fault {
            WarnFault::Line(fault) => ReviewFault::Text(fault),
            WarnFault::WriteFault => ReviewFault::WriteFault,
            WarnFault::OutOfMemory => ReviewFault::OutOfMemory,
        }
    }
}

/// Reads a rule text, writes its warnings to `errors`, a line each, and tells whether there was one. Nothing on the
/// disk is touched.
///
/// # Errors
/// In the order of `ReviewFault`. After `ReadFault` and `Text` nothing was written, and after the others some warnings
/// may be.
pub fn run_review<R: Read, W: Write>(
    alloc: Global,
    reader: &mut R,
    errors: &mut W,
) -> Result<bool, ReviewFault>
    ensures accepted { OnOk result (IfSome (R.remaining reader.old) (IsAccepted profile)) }
    ensures written { OnOk result (IfSome (R.remaining reader.old) (λ text.
        Appends (W.contents errors.old) (W.contents errors.new) (report_of text))) }
    ensures warned { IfOk result (λ warned. IfSome (R.remaining reader.old) (λ text.
        warned ≡ not (length (warnings_of text) == 0))) }
    ensures refused { IfErr result (ReviewFails (R.remaining reader.old)) }
    ensures untouched { IfErr result (λ fault. OnNoReview fault (errors.new ≡ errors.old)) }
{
    let limits = Limits::profile();
    let text = match read_text(alloc, reader, limits.text) {
        Ok(text) => text,
        Err(TcprulesFault::OutOfMemory) => return Err(ReviewFault::OutOfMemory),
        Err(_) => return Err(ReviewFault::ReadFault),
    };
    match write_warnings(alloc, &text, &limits, errors) {
        Ok(warned) => Ok(warned),
        Err(fault) => Err(fault.into()),
    }
}
