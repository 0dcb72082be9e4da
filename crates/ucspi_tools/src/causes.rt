//! What is told of a fault behind its line: a faulty line of rules, or the error of the system by which it came.
ghost use Rattle.fault_hints.specs.declared.voice.Detail.TheVariants.{Hint};
ghost use Rattle.stream_tools.specs.Programs.{texts_of};
ghost use Rattle.ucspi_tools.specs.Causes.{IsNamed, TellsCause, TellsError, TellsFaulty, TellsStart};
ghost use Rattle.ucspi_tools.specs.Choices.{name_of};

use crate::tool::Tool;
use byte_text::append_os_cause;
use fault_hints::{Detail, append_line};
use memchr::memchr;
use rule_lines::LineKind;
use rules_tools::path::{folder_path, split_path};
use rules_tools::{CauseOf, ErrorCause};
use std::alloc::Global;

/// Appends what is told of a faulty line, which is empty where it was not kept.
pub(crate) fn append_faulty(lines: &mut Vec<u8>, detail: Detail, kind: LineKind, faulty: &[u8])
    ensures { TellsFaulty detail kind lines.old.items lines.new.items }
{
    match (detail, memchr(b':', faulty)) {
        (Detail::Hint, Some(colon)) => add_line(
            lines,
            kind,
            &faulty[..colon],
            &faulty[colon + 1..],
        ),
        _ => {}
    }
}

// Appends the line that shows a faulty line, where there is memory for it.
fn add_line(lines: &mut Vec<u8>, kind: LineKind, address: &[u8], instructions: &[u8])
    ensures { TellsFaulty Hint kind lines.old.items lines.new.items }
{
    let _ = append_line(lines, address, instructions, kind);
}

/// Appends the line of a cause of `tcprules` or `tcprulescheck`, where there is one, and this detail asks for it.
pub(crate) fn append_cause(
    lines: &mut Vec<u8>,
    alloc: Global,
    detail: Detail,
    tool: Tool,
    cause: Option<ErrorCause>,
    paths: (&str, &str),
)
    ensures { TellsCause detail (name_of tool) paths.entry.0.now paths.entry.1.now cause
        lines.old.items lines.new.items }
{
    if let Some(cause) = cause {
        let what = named(cause.of, paths.0, paths.1).as_bytes();
        append_error(lines, alloc, detail, tool, what, cause.error);
    }
}

// The name of what the system was asked for.
fn named<'a>(of: CauseOf, cdb: &'a str, tmp: &'a str) -> &'a str
    ensures { IsNamed of cdb.now tmp.now result.now }
{
    match of {
        CauseOf::Input => "stdin",
        CauseOf::Output => "stdout",
        CauseOf::Folder => folder_path(split_path(cdb).0),
        CauseOf::Scratch => tmp,
        CauseOf::Rules => cdb,
    }
}

/// Appends the line of the error by which a program was not started, the first of these words, where there is one, and
/// this detail asks for it.
pub(crate) fn append_start(
    lines: &mut Vec<u8>,
    alloc: Global,
    detail: Detail,
    tool: Tool,
    words: &[Vec<u8>],
    error: Option<i32>,
)
    ensures { TellsStart detail (name_of tool) (texts_of words.now) error lines.old.items lines.new.items }
{
    if let (Some(error), Some((program, _))) = (error, words.split_first()) {
        append_error(lines, alloc, detail, tool, program, error);
    }
}

// Appends the line of an error of the system, where this detail asks for it and there is memory.
fn append_error(
    lines: &mut Vec<u8>,
    alloc: Global,
    detail: Detail,
    tool: Tool,
    what: &[u8],
    error: i32,
)
    ensures { TellsError detail (name_of tool) what.now lines.old.items lines.new.items }
{
    match detail {
        Detail::Line => {}
        Detail::Cause | Detail::Hint => {
            let _ = append_os_cause(lines, alloc, tool.name(), what, error);
        }
    }
}
