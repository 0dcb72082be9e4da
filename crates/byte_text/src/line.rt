//! The line that tells a cause.
ghost use Rattle.byte_text.specs.Outcomes.{AppendsLine, AppendsPart};
ghost use Rattle.byte_text.specs.Causes.{AppendsCause, cause_text};

use crate::{push_marked, push_text, whole_or_none};
use std::alloc::{AllocError, Global};
use std::io::Error;

/// What stands in front of the number when an error of the system is displayed.
const NUMBER: &str = " (os error ";

/// Appends the line that tells the cause of a fault: the tool, what the system was asked for, and why that failed.
///
/// What was asked for is a path, an address with its port, or a program. As a field of the log it is cut and marked.
///
/// # Errors
/// There was no memory, and nothing was appended.
pub fn append_cause(out: &mut Vec<u8>, tool: &str, what: &[u8], why: &str) -> Result<(), AllocError>
    ensures { AppendsLine (cause_text tool.now what.now why.now) out.old.items out.new.items result }
{
    let whole = out.len();
    let done = push_cause(out, tool, what, why);
    whole_or_none(out, whole, done)
}

fn push_cause(out: &mut Vec<u8>, tool: &str, what: &[u8], why: &str) -> Result<(), AllocError>
    ensures { AppendsPart (cause_text tool.now what.now why.now) out.old.items out.new.items result }
{
    push_text(out, tool)?;
    push_text(out, ": cause: ")?;
    push_marked(out, what)?;
    push_text(out, ": ")?;
    push_text(out, why)?;
    push_text(out, "\n")
}

/// Appends the line that tells the cause of a fault, by the system's number for the error (`errno`).
///
/// The words are the system's own, such as `No such file or directory`. No clause says which.
///
/// # Errors
/// There was no memory, and nothing was appended.
pub fn append_os_cause(
    out: &mut Vec<u8>,
    alloc: Global,
    tool: &str,
    what: &[u8],
    error: i32,
) -> Result<(), AllocError>
    ensures { AppendsCause tool.now what.now out.old.items out.new.items result }
{
    let why = words_of_error(alloc, error)?;
    append_cause(out, tool, what, why.as_str())
}

/// Gives the system's words for an error by its number (`errno`), such as `No such file or directory`.
///
/// # Errors
/// There was no memory.
pub fn words_of_error(alloc: Global, error: i32) -> Result<String, AllocError> {
    let shown = format!(in alloc; "{}", Error::from_raw_os_error(error))?;
    String::from_str(alloc, without_number(shown.as_str()))
}

// Takes the number off the system's words for an error.
fn without_number(shown: &str) -> &str {
    shown
        .rsplit_once(NUMBER)
        .map_or(shown, |(words, _number)| words)
}
