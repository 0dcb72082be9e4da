//! What is told behind the line of a fault of a rule text: its faulty line, and what was expected there.
ghost use Rattle.std.specs.Prelude.{◌≡◌};
ghost use Rattle.byte_text.specs.Outcomes.{AppendsLine, AppendsPart};
ghost use Rattle.fault_hints.specs.Lines.{behind_word, expected, line_text, name_text, setting_text, shown_text};

use byte_text::{push_marked, push_text, whole_or_none};
use rule_lines::LineKind;
use rule_lookup::lines::is_blank;
use std::alloc::AllocError;

/// What is expected behind the first colon.
pub const VERDICT: &str = "\"allow\" or \"deny\" must follow the first colon";

/// What may stand behind that word.
pub const SETTINGS: &str = "each setting is ,NAME=\"VALUE\" and nothing stands behind the last";

/// That something else stands there.
pub const BEHIND: &str = "behind the word only settings may stand, as ,NAME=\"VALUE\"";

/// That a blank stands behind the comma.
pub const BLANK: &str = "a blank stands before a name";

/// That the text has the ends of lines of other systems.
pub const RETURN: &str = "a carriage return stands at its end";

/// What a range is.
pub const RANGE: &str = "a range is two numbers with a - between, as in 10.0.0.1-9";

/// What else a line has to be.
pub const TEXT: &str = "it is not UTF-8";

/// The same.
pub const NUL: &str = "a zero byte stands in it";

/// The same.
pub const LONG: &str = "a line has at most 65536 bytes";

/// What a text has to be.
pub const LONG_TEXT: &str = "a text has at most 67108864 bytes";

/// Appends the line that shows a faulty line of a rule text: what stands before its first colon and behind it, as
/// fields of the log, and what was expected there.
///
/// # Errors
/// There was no memory, and nothing was appended.
pub fn append_line(
    out: &mut Vec<u8>,
    address: &[u8],
    instructions: &[u8],
    kind: LineKind,
) -> Result<(), AllocError>
    ensures { AppendsLine (line_text kind address.now instructions.now) out.old.items out.new.items result }
{
    let whole = out.len();
    let done = push_line(out, address, instructions, kind);
    whole_or_none(out, whole, done)
}

fn push_line(
    out: &mut Vec<u8>,
    address: &[u8],
    instructions: &[u8],
    kind: LineKind,
) -> Result<(), AllocError>
    ensures { AppendsPart (line_text kind address.now instructions.now) out.old.items out.new.items result }
{
    push_text(out, "tcprules: cause: ")?;
    push_shown(out, address, instructions)?;
    push_text(out, ": ")?;
    push_text(out, expected(kind, instructions))?;
    push_text(out, "\n")
}

/// Adds the two parts of a line.
fn push_shown(out: &mut Vec<u8>, address: &[u8], instructions: &[u8]) -> Result<(), AllocError>
    ensures { AppendsPart (shown_text address.now instructions.now) out.old.items out.new.items result }
{
    push_marked(out, address)?;
    push_text(out, ":")?;
    push_marked(out, instructions)
}

/// What was expected of a line with these instructions.
fn expected(kind: LineKind, instructions: &[u8]) -> &'static str
    ensures { result.now ≡ expected kind instructions.now }
{
    match kind {
        LineKind::NoVerdict => VERDICT,
        LineKind::BadSetting if instructions.ends_with(b"\r") => RETURN,
        LineKind::BadSetting => setting_text(behind_word(instructions)),
        LineKind::BadRange => RANGE,
        LineKind::NotText => TEXT,
        LineKind::NulByte => NUL,
        LineKind::LongLine => LONG,
        LineKind::LongText => LONG_TEXT,
    }
}

/// What stands behind the word of the verdict.
fn behind_word(instructions: &[u8]) -> &[u8]
    ensures { result.now ≡ behind_word instructions.now }
{
    if instructions.starts_with(b"allow") {
        &instructions[5..]
    } else if instructions.starts_with(b"deny") {
        &instructions[4..]
    } else {
        &[]
    }
}

/// What is wrong with settings.
fn setting_text(settings: &[u8]) -> &'static str
    ensures { result.now ≡ setting_text settings.now }
{
    let Some((first, after)) = settings.split_first() else {
        return SETTINGS;
    };
    if *first == b',' {
        name_text(after)
    } else {
        BEHIND
    }
}

/// What is wrong with them behind the first comma.
fn name_text(after: &[u8]) -> &'static str
    ensures { result.now ≡ name_text after.now }
{
    match after.first() {
        Some(first) if is_blank(*first) => BLANK,
        _ => SETTINGS,
    }
}
