//! The warnings of a text.
ghost use Rattle.std.specs.Prelude.{◌≡◌, ◌<◌, ◌≤◌, ℕ, List, ◌⊎◌, ◌++◌, ◌==◌, ◌||◌, [], not, true, None, length, flat_map, IfOk, IfErr, OnOk};
ghost use Rattle.std.specs.Io.KnownBytes.{Appends};
ghost use Rattle.std.specs.List.{list_any};
ghost use Rattle.rule_lines.specs.Faults.{first_faulty, IsAccepted};
ghost use Rattle.rule_lookup.specs.Lines.{lines_of};
ghost use Rattle.rule_warnings.specs.Findings.{kinds_in, OnRefusal, RefusedBy, WarnFails};
ghost use Rattle.rule_warnings.specs.Names.{names_host};
ghost use Rattle.rule_warnings.specs.Tables.{line_under};
ghost use Rattle.rule_warnings.specs.Warnings.{lines_report, report_of, table_report, trimmed_lines, warning_line, warnings_at, warnings_of, when, when_decided};
ghost use Rattle.rule_warnings.specs.declared.report.WarnFault.TheVariants.{OutOfMemory};

use crate::client::contains;
use crate::findings::{Findings, look_at};
use crate::seen::Seen;
use crate::settings::names_host;
use crate::warning::{Warning, WarningKind};
use rule_lines::{Limits, LineFault, ParseFault};
use rule_lookup::lines::{first_line, trim_blanks};
use std::alloc::{AllocError, Global};
use std::io::Write;

/// Why the warnings of a text are not all written.
#[derive(Clone, Copy)]
pub enum WarnFault {
    /// The text is not accepted, and nothing was written.
    Line(LineFault),
    /// The writer failed; it may have taken some of them.
    WriteFault,
    /// There was no memory; some of them may be written.
    OutOfMemory,
}

impl From<AllocError> for WarnFault {
    ghost from_gives = { λ _ fault. fault ≡ OutOfMemory };

    fn from(_: AllocError) -> WarnFault {
        WarnFault::OutOfMemory
    }
}

/// Writes the warnings of an accepted text, a line each, in the order of its lines, and tells whether there was one.
/// Behind them stands whether a rule is by name, which is no warning of a line.
///
/// # Errors
/// In the order of `WarnFault`.
pub fn write_warnings<W: Write>(
    alloc: Global,
    text: &[u8],
    limits: &Limits,
    writer: &mut W,
) -> Result<bool, WarnFault>
    ensures accepted { OnOk result (IsAccepted limits.now text.now) }
    ensures written { OnOk result (Appends (W.contents writer.old) (W.contents writer.new) (report_of text.now)) }
    ensures warned { IfOk result (λ warned. warned ≡ not (length (warnings_of text.now) == 0)) }
    ensures refused { IfErr result (WarnFails limits.now text.now) }
    ensures untouched { IfErr result (λ fault. OnRefusal fault (writer.new ≡ writer.old)) }
{
    accept(alloc, text, limits)?;
    if text.is_empty() {
        return write_nobody(alloc, writer);
    }
    write_lines(alloc, text, limits.line, writer)
}

/// Sees that a text is accepted.
fn accept(alloc: Global, text: &[u8], limits: &Limits) -> Result<(), WarnFault>
    ensures accepted { OnOk result (IsAccepted limits.now text.now) }
    ensures refused { IfErr result (RefusedBy limits.now text.now) }
{
    match rule_lines::accept(alloc, text, limits) {
        Ok(()) => Ok(()),
        Err(ParseFault::Line(fault)) => Err(WarnFault::Line(fault)),
        Err(ParseFault::OutOfMemory) => Err(WarnFault::OutOfMemory),
    }
}

/// Writes the warning of a text without lines.
fn write_nobody<W: Write>(alloc: Global, writer: &mut W) -> Result<bool, WarnFault>
    ensures written { OnOk result (Appends (W.contents writer.old) (W.contents writer.new) (report_of [])) }
    ensures warned { IfOk result (λ warned. warned ≡ true) }
    ensures fault { IfErr result (λ fault. (fault ≡ WarnFault.WriteFault) ⊎ (fault ≡ WarnFault.OutOfMemory)) }
{
    let warning = Warning {
        line: 0,
        kind: WarningKind::NobodyElse,
    };
    let mut lines = Vec::new(alloc);
    warning.append_line(&mut lines)?;
    write_found(writer, &lines, false)
}

/// Writes the warnings of an accepted text that is not empty.
fn write_lines<W: Write>(
    alloc: Global,
    text: &[u8],
    limit: u64,
    writer: &mut W,
) -> Result<bool, WarnFault>
    requires faultless { first_faulty limit 1 (lines_of text.now) ≡ None }
    requires some { 0 < length text.now }
    ensures written { OnOk result (Appends (W.contents writer.old) (W.contents writer.new) (report_of text.now)) }
    ensures warned { IfOk result (λ warned. warned ≡ not (length (lines_report text.now) == 0)) }
    ensures fault { IfErr result (λ fault. (fault ≡ WarnFault.WriteFault) ⊎ (fault ≡ WarnFault.OutOfMemory)) }
{
    let mut seen = Seen::with_room(alloc, count_hosts(text))?;
    let done = write_each(alloc, text, limit, &mut seen, writer);
    drop(seen);
    let warned = done?;
    write_found(writer, table_line(names_someone(text)), warned)?;
    Ok(warned)
}

/// What is told of a text with rules by name.
fn table_line(named: bool) -> &'static [u8]
    ensures { result.now ≡ table_report named }
{
    if named {
        b"tcprules: rules by name need a host table\n"
    } else {
        b""
    }
}

/// Whether a text has a rule for clients with a name.
fn names_someone(text: &[u8]) -> bool
    ensures { result ≡ list_any names_host (trimmed_lines text.now) }
{
    let mut named = false;
    let mut rest = text;
    while !rest.is_empty() {
        let (line, after) = first_line(rest);
        named = named_by(named, trim_blanks(line));
        rest = after;
    }
    named
}

/// Whether a rule by name was found before, or a line is one.
fn named_by(named: bool, line: &[u8]) -> bool
    ensures { result ≡ (named || names_host line.now) }
{
    named || names_host(line)
}

/// Writes the warnings of the lines of an accepted text that is not empty, of whose addresses none was seen.
fn write_each<'a, W: Write>(
    alloc: Global,
    text: &'a [u8],
    limit: u64,
    seen: &mut Seen<'a>,
    writer: &mut W,
) -> Result<bool, WarnFault>
    requires faultless { first_faulty limit 1 (lines_of text.now) ≡ None }
    requires some { 0 < length text.now }
    requires unseen { (address : List ℕ) → line_under seen.old address ≡ None }
    ensures written { OnOk result (Appends (W.contents writer.old) (W.contents writer.new) (lines_report text.now)) }
    ensures warned { IfOk result (λ warned. warned ≡ not (length (lines_report text.now) == 0)) }
    ensures fault { IfErr result (λ fault. (fault ≡ WarnFault.WriteFault) ⊎ (fault ≡ WarnFault.OutOfMemory)) }
{
    let mut buffer = Vec::new(alloc);
    let mut lines = Vec::new(alloc);
    let mut warned = false;
    let mut rest = text;
    let mut number = 0;
    while !rest.is_empty() {
        let (line, after) = first_line(rest);
        number += 1;
        let is_last = after.is_empty();
        let found = look_at(alloc, trim_blanks(line), number, is_last, seen, &mut buffer)?;
        lines.clear();
        append_found(&mut lines, number, &found)?;
        warned = write_found(writer, &lines, warned)?;
        rest = after;
    }
    Ok(warned)
}

/// How many lines of a text are rules that begin with a `=`, as those of hosts do.
fn count_hosts(text: &[u8]) -> usize
    ensures { result ≤ length text.now }
{
    let mut count = 0;
    let mut rest = text;
    while !rest.is_empty() {
        let (line, after) = first_line(rest);
        if line.starts_with(b"=") && contains(line, b':') {
            count += 1;
        }
        rest = after;
    }
    count
}

/// Writes the warnings of a line, and tells whether there was one, or one before.
fn write_found<W: Write>(writer: &mut W, lines: &[u8], warned: bool) -> Result<bool, WarnFault>
    ensures written { OnOk result (Appends (W.contents writer.old) (W.contents writer.new) lines.now) }
    ensures warned { IfOk result (λ now. now ≡ (warned || not (length lines.now == 0))) }
    ensures fault { IfErr result (λ fault. fault ≡ WarnFault.WriteFault) }
{
    if lines.is_empty() {
        return Ok(warned);
    }
    match writer.write_all(lines) {
        Ok(()) => Ok(true),
        Err(_) => Err(WarnFault::WriteFault),
    }
}

/// Adds the lines of what was found in a line. After an `Err` there may be any more bytes at the end.
fn append_found(out: &mut Vec<u8>, line: u64, found: &Findings) -> Result<(), AllocError>
    ensures { OnOk result (out.new.items ≡ out.old.items
        ++ flat_map warning_line (warnings_at line (kinds_in found.now))) }
{
    append_where(out, line, found.no_client, WarningKind::NoClient)?;
    append_where(out, line, found.unknown_user, WarningKind::UnknownUser)?;
    append_decided(out, line, found.decided_by)?;
    append_where(out, line, found.blank_name, WarningKind::BlankName)?;
    append_where(out, line, found.nobody_else, WarningKind::NobodyElse)?;
    append_where(out, line, found.ignored, WarningKind::Ignored)
}

/// Adds the line of a warning where it holds.
fn append_where(
    out: &mut Vec<u8>,
    line: u64,
    holds: bool,
    kind: WarningKind,
) -> Result<(), AllocError>
    ensures { OnOk result (out.new.items ≡ out.old.items
        ++ flat_map warning_line (warnings_at line (when holds kind))) }
{
    if holds {
        Warning { line, kind }.append_line(out)
    } else {
        Ok(())
    }
}

/// Adds the line of the warning that another line decides, where there is one.
fn append_decided(out: &mut Vec<u8>, line: u64, decider: Option<u64>) -> Result<(), AllocError>
    ensures { OnOk result (out.new.items ≡ out.old.items
        ++ flat_map warning_line (warnings_at line (when_decided decider))) }
{
    match decider {
        Some(decider) => {
            let kind = WarningKind::DecidedBy(decider);
            Warning { line, kind }.append_line(out)
        }
        None => Ok(()),
    }
}
