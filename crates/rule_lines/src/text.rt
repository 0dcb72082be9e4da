//! Rule texts.
ghost use Rattle.std.specs.Prelude.{◌≡◌, ◌↔◌, ◌<◌, ◌≤◌, ◌+◌, ◌++◌, ◌==◌, ℕ, [], None, true, false, drop, length, take, IfOk, IfErr, IsTrue, OnOk};
ghost use Rattle.std.specs.List.{position_or_len};
ghost use Rattle.std.specs.Str.{is_utf8};
ghost use Rattle.rule_lines.specs.Faults.{fault_beside, fault_in, fault_under, first_faulty, IsAccepted, Refuses};
ghost use Rattle.rule_lines.specs.Kept.{IsKept, IsKeptOf};
ghost use Rattle.rule_lookup.specs.Lines.{has_byte, lines_of};
ghost use Rattle.rule_lookup.specs.Pairs.{address_in, instructions_in, is_ignored, pairs_of, verdict_of};
ghost use Rattle.rule_lines.specs.RuleFaults.{IsPlain, Names, RefusesLines};
ghost use Rattle.rule_lookup.specs.Spread.{is_bad_range};

use crate::fault::{LineFault, LineKind, ParseFault, RuleFault};
use crate::instructions::append_code;
use crate::kept::{Tally, tally_of};
use crate::limits::Limits;
use crate::list::RuleList;
use crate::spread::read_address;
use memchr::memchr;
use rule_lookup::lines::{first_line, trim_blanks};
use std::alloc::{AllocError, Global};
use std::str;

/// That a text is over the text limit.
const LONG_TEXT: ParseFault = ParseFault::Line(LineFault {
    line: 0,
    kind: LineKind::LongText,
});

/// The rules of an accepted text, in order. Any other text is refused with its first faulty line and the least kind for
/// which that is faulty; a text over the text limit with line 0, before all.
pub fn parse(alloc: Global, text: &[u8], limits: &Limits) -> Result<RuleList, ParseFault>
    ensures accepted { IfOk result (λ _. IsAccepted limits.now text.now) }
    ensures pairs { IfOk result (λ list. list ≡ pairs_of text.now) }
    ensures refused { IfErr result (Refuses limits.now text.now) }
{
    if text.len() as u64 > limits.text {
        return Err(LONG_TEXT);
    }
    parse_owned(Vec::from_slice(alloc, text)?, limits)
}

/// The same of a text that the list takes over, so that it does not stand in memory twice.
pub fn parse_owned(text: Vec<u8>, limits: &Limits) -> Result<RuleList, ParseFault>
    ensures accepted { IfOk result (λ _. IsAccepted limits.now text.items) }
    ensures pairs { IfOk result (λ list. list ≡ pairs_of text.items) }
    ensures refused { IfErr result (Refuses limits.now text.items) }
{
    if text.len() as u64 > limits.text {
        return Err(LONG_TEXT);
    }
    let mut kept = text;
    let plain = is_plain(&kept);
    let tally = keep_lines(&mut kept, plain, limits.line)?;
    kept.shrink_to_fit();
    Ok(RuleList::new(kept, tally))
}

/// Whether a text is accepted, as `parse` says: of its lines none is kept, so it takes the memory of one.
///
/// # Errors
/// As of `parse`.
pub fn accept(alloc: Global, text: &[u8], limits: &Limits) -> Result<(), ParseFault>
    ensures accepted { OnOk result (IsAccepted limits.now text.now) }
    ensures refused { IfErr result (Refuses limits.now text.now) }
{
    if text.len() as u64 > limits.text {
        return Err(LONG_TEXT);
    }
    accept_lines(alloc, text, is_plain(text), limits.line)
}

/// The same of the lines of a text, however long that is. In a text that is `plain` no line is looked at for that.
fn accept_lines(alloc: Global, text: &[u8], plain: bool, limit: u64) -> Result<(), ParseFault>
    requires { plain ≡ true → IsPlain text.now }
    ensures faultless { OnOk result (first_faulty limit 1 (lines_of text.now) ≡ None) }
    ensures refused { IfErr result (RefusesLines limit text.now) }
{
    let mut kept = Vec::new(alloc);
    let mut rest = text;
    let mut number = 0;
    while !rest.is_empty() {
        let (line, after) = first_line(rest);
        number += 1;
        match keep_line(trim_blanks(line), plain, limit, &mut kept) {
            Ok(_) => {}
            Err(RuleFault::Kind(kind)) => {
                return Err(ParseFault::Line(LineFault { line: number, kind }));
            }
            Err(RuleFault::OutOfMemory) => return Err(ParseFault::OutOfMemory),
        }
        rest = after;
    }
    Ok(())
}

/// Puts the kept lines of a text in its place, and tells the tally of their rules. In a text that is `plain` no line is
/// looked at for that.
fn keep_lines(text: &mut Vec<u8>, plain: bool, limit: u64) -> Result<Tally, ParseFault>
    requires { plain ≡ true → IsPlain text.old.items }
    ensures faultless { OnOk result (first_faulty limit 1 (lines_of text.old.items) ≡ None) }
    ensures kept { IfOk result (λ tally. IsKept text.old.items text.new.items tally) }
    ensures refused { IfErr result (RefusesLines limit text.old.items) }
{
    let mut line_kept = Vec::new(*text.allocator());
    let mut start = 0;
    let mut end = 0;
    let mut number = 0;
    let mut tally = Tally::NONE;
    while start < text.len() {
        let (line, after) = first_line(&text[start..]);
        let next = text.len() - after.len();
        number += 1;
        match keep_line(trim_blanks(line), plain, limit, &mut line_kept) {
            // A text whose addresses have more than `usize::MAX` bytes is one for which there is no memory.
            Ok(more) => tally = tally.with(more).ok_or(AllocError)?,
            Err(RuleFault::Kind(kind)) => {
                return Err(ParseFault::Line(LineFault { line: number, kind }));
            }
            Err(RuleFault::OutOfMemory) => return Err(ParseFault::OutOfMemory),
        }
        overwrite(text, end, &line_kept);
        end += line_kept.len();
        start = next;
    }
    text.truncate(end);
    Ok(tally)
}

/// Puts bytes over others, from a position on.
fn overwrite(text: &mut Vec<u8>, position: usize, bytes: &[u8])
    requires inside { position + length bytes.now ≤ length text.old.items }
    ensures front { take (position + length bytes.now) text.new.items ≡ take position text.old.items ++ bytes.now }
    ensures rest { (n : ℕ) → position + length bytes.now ≤ n → drop n text.new.items ≡ drop n text.old.items }
    ensures len { length text.new.items ≡ length text.old.items }
{
    text[position..position + bytes.len()].copy_from_slice(bytes);
}

/// Puts what is kept of a trimmed line in place of the bytes of `kept`, and tells the tally of its rules. A line that
/// is `plain` is text without a zero byte; of any other that is not known.
///
/// # Errors
/// The least kind for which the line is faulty, and `OutOfMemory`.
fn keep_line(line: &[u8], plain: bool, limit: u64, kept: &mut Vec<u8>) -> Result<Tally, RuleFault>
    requires one_line { has_byte 10 line.now ≡ false }
    requires plain { plain ≡ true → IsPlain line.now }
    ensures faultless { OnOk result (fault_in limit line.now ≡ None) }
    ensures kept { IfOk result (IsKeptOf line.now kept.new.items) }
    ensures refused { IfErr result (Names (fault_in limit line.now)) }
{
    kept.clear();
    match memchr(b':', line) {
        Some(colon) if line[0] != b'#' => keep_rule(line, colon, plain, limit, kept),
        _ => Ok(Tally::NONE),
    }
}

/// The same for a line that is a rule, whose first colon stands at `colon`.
fn keep_rule(
    line: &[u8],
    colon: usize,
    plain: bool,
    limit: u64,
    kept: &mut Vec<u8>,
) -> Result<Tally, RuleFault>
    requires plain { plain ≡ true → IsPlain line.now }
    requires one_line { has_byte 10 line.now ≡ false }
    requires rule { is_ignored line.now ≡ false }
    requires inside { colon < length line.now }
    requires first { colon ≡ position_or_len (λ b. b == 58) line.now }
    requires empty { kept.old.items ≡ [] }
    ensures faultless { OnOk result (fault_under limit line.now (verdict_of (instructions_in line.now)) ≡ None) }
    ensures kept { IfOk result (IsKeptOf line.now kept.new.items) }
    ensures refused { IfErr result (Names (fault_under limit line.now (verdict_of (instructions_in line.now)))) }
{
    let is_text = is_text(line, plain);
    kept.extend_from_slice(&line[..colon + 1])?;
    append_code(is_text, &line[colon + 1..], kept)?;
    let code_length = kept.len() - (colon + 1);
    kept.extend_from_slice(b"\n")?;
    let Some(addresses) = read_address(&line[..colon]) else {
        return Err(RuleFault::Kind(LineKind::BadRange));
    };
    if let Some(kind) = fault_beside_range(line, is_text, plain, limit) {
        return Err(RuleFault::Kind(kind));
    }
    match tally_of(&addresses, code_length) {
        Some(tally) => Ok(tally),
        None => Err(RuleFault::OutOfMemory),
    }
}

/// What is wrong with a rule line whose instructions and range can be read.
fn fault_beside_range(line: &[u8], is_text: bool, plain: bool, limit: u64) -> Option<LineKind>
    requires text { is_text ≡ is_utf8 line.now }
    requires plain { plain ≡ true → has_byte 0 line.now ≡ false }
    requires range { is_bad_range (address_in line.now) ≡ false }
    ensures { result ≡ fault_beside limit line.now }
{
    if !is_text {
        Some(LineKind::NotText)
    } else if has_zero(line, plain) {
        Some(LineKind::NulByte)
    } else if line.len() as u64 > limit {
        Some(LineKind::LongLine)
    } else {
        None
    }
}

/// Whether a text is UTF-8 without a zero byte.
fn is_plain(text: &[u8]) -> bool
    ensures { IsTrue result ↔ IsPlain text.now }
{
    is_text(text, false) && !has_zero(text, false)
}

/// Whether there is a zero byte: not where it is known that bytes are plain.
fn has_zero(bytes: &[u8], plain: bool) -> bool
    requires { plain ≡ true → has_byte 0 bytes.now ≡ false }
    ensures { result ≡ has_byte 0 bytes.now }
{
    !plain && memchr(0, bytes).is_some()
}

/// Whether bytes are UTF-8: they are where it is known that they are plain.
fn is_text(bytes: &[u8], plain: bool) -> bool
    requires { plain ≡ true → is_utf8 bytes.now ≡ true }
    ensures { result ≡ is_utf8 bytes.now }
{
    plain || str::from_utf8(bytes).is_ok()
}
