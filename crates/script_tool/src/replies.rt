//! The lines that tell a fault of a rule text, a phase that was reached, and what events come to.
ghost use Rattle.std.specs.Prelude.{◌≡◌, ◌++◌, OnOk, codes};
ghost use Rattle.script_tool.specs.Replies.{fault_text, reached_line, report_line};

use dir_calls::Phase;
use rule_lines::{LineFault, LineKind};
use server_events::Report;
use server_log::{Piece, append_line};
use std::alloc::AllocError;

/// Adds the line that tells what is wrong with a rule text: the line and the kind, or that the text is too long.
pub fn append_fault(out: &mut Vec<u8>, fault: &LineFault) -> Result<(), AllocError>
    ensures { OnOk result
        (out.new.items ≡ out.old.items ++ (fault_text fault.now.line fault.now.kind ++ codes "\n")) }
{
    let kind = Piece::Text(fault.kind.as_str());
    match fault.kind {
        LineKind::LongText => append_line(out, &[kind]),
        _ => append_line(
            out,
            &[
                Piece::Text("line "),
                Piece::Number(fault.line),
                Piece::Text(": "),
                kind,
            ],
        ),
    }
}

/// Adds the line with the phase that an installation reached, or with `none`.
pub fn append_reached(out: &mut Vec<u8>, reached: Option<Phase>) -> Result<(), AllocError>
    ensures { OnOk result (out.new.items ≡ out.old.items ++ reached_line reached) }
{
    match reached {
        None => append_line(out, &[Piece::Text("none")]),
        Some(phase) => append_line(out, &[Piece::Text(phase.as_str())]),
    }
}

/// Adds the line with the report of a list of events.
pub fn append_report(out: &mut Vec<u8>, report: &Report) -> Result<(), AllocError>
    ensures { OnOk result (out.new.items ≡ out.old.items ++ report_line report.now) }
{
    let pieces = [
        Piece::Text("admitted "),
        Piece::Number(report.admitted),
        Piece::Text(" live "),
        Piece::Number(report.live),
        Piece::Text(" retired "),
        Piece::Number(report.retired),
        Piece::Text(" most "),
        Piece::Number(report.most),
    ];
    append_line(out, &pieces)
}
