//! What is found in one line.
ghost use Rattle.std.specs.Prelude.{◌≡◌, ◌≤◌, ◌&&◌, ◌==◌, ℕ, List, [], not, is_none, None, true, false, length, drop, IfOk, OnOk, MatchOption};
ghost use Rattle.std.specs.Char.{is_ascii_uppercase};
ghost use Rattle.std.specs.List.{list_any, position_or_len};
ghost use Rattle.rule_lookup.specs.Lines.{is_blank};
ghost use Rattle.rule_lookup.specs.Pairs.{address_in, is_ignored};
ghost use Rattle.rule_lines.specs.ReadAddresses.{addresses_read};
ghost use Rattle.rule_lookup.specs.Spread.{is_bad_range, spread};
ghost use Rattle.rule_warnings.specs.Clients.{asks_user, is_form};
ghost use Rattle.rule_warnings.specs.Findings.{kinds_in};
ghost use Rattle.rule_warnings.specs.Tables.{IsUpTo, line_under, noted_all};
ghost use Rattle.rule_warnings.specs.Warnings.{addresses_in, decided_by, has_no_client, has_user, is_lost, is_moved_comment, kinds_by, looks_ignored};

use crate::addresses::write_address;
use crate::client::{asks_user, contains, first_equals, has_capitals, is_form};
use crate::seen::Seen;
use crate::settings::has_blank_name;
use crate::spans::{is_cut, lesser};
use memchr::memchr;
use rule_lines::spread::{ReadAddress, count_in, read_address};
use rule_lookup::lines::is_blank;
use std::alloc::{AllocError, Global};

/// What is found in a line.
#[derive(Clone, Copy)]
pub struct Findings {
    /// It is a rule, and none of its addresses is a form of some peer.
    pub no_client: bool,
    /// It is a rule for a user.
    pub unknown_user: bool,
    /// The first line that decides one of its addresses, where each of them is decided by an earlier line.
    pub decided_by: Option<u64>,
    /// A setting of it has a name with a blank.
    pub blank_name: bool,
    /// It is the last line, and no line is for everyone else.
    pub nobody_else: bool,
    /// It is ignored, or was meant to be.
    pub ignored: bool,
}

/// What is found in the rule of a line.
#[derive(Clone, Copy)]
pub struct RuleFindings {
    no_client: bool,
    unknown_user: bool,
    decided_by: Option<u64>,
}

/// What is found in a trimmed line with this number, behind lines whose addresses were seen; its own are seen from then
/// on. The bytes of `buffer` are overwritten. After an `Err` some of its addresses may be seen.
pub fn look_at<'a>(
    alloc: Global,
    line: &'a [u8],
    number: u64,
    is_last: bool,
    seen: &mut Seen<'a>,
    buffer: &mut Vec<u8>,
) -> Result<Findings, AllocError>
    requires range { is_ignored line.now ≡ false → is_bad_range (address_in line.now) ≡ false }
    requires earlier { IsUpTo seen.old number }
    ensures kinds { IfOk result (λ found. kinds_in found ≡ kinds_by (line_under seen.old) line.now
        (is_last && is_none (line_under seen.new []))) }
    ensures noted { OnOk result ((other : List ℕ) → line_under seen.new other
        ≡ noted_all (line_under seen.old) (addresses_in line.now) number other) }
{
    let rule = look_at_rule(alloc, line, number, seen, buffer)?;
    let nobody_else = is_last && seen.line_of(alloc, b"")?.is_none();
    Ok(Findings {
        no_client: rule.no_client,
        unknown_user: rule.unknown_user,
        decided_by: rule.decided_by,
        blank_name: has_blank_name(line),
        nobody_else,
        ignored: looks_ignored(line),
    })
}

/// What is found in the rule of a line, if it has one.
fn look_at_rule<'a>(
    alloc: Global,
    line: &'a [u8],
    number: u64,
    seen: &mut Seen<'a>,
    buffer: &mut Vec<u8>,
) -> Result<RuleFindings, AllocError>
    requires range { is_ignored line.now ≡ false → is_bad_range (address_in line.now) ≡ false }
    requires earlier { IsUpTo seen.old number }
    ensures no_client { IfOk result (λ found. found.no_client ≡ has_no_client line.now) }
    ensures user { IfOk result (λ found. found.unknown_user ≡ has_user line.now) }
    ensures decided { IfOk result (λ found. found.decided_by
        ≡ decided_by (line_under seen.old) (addresses_in line.now)) }
    ensures noted { OnOk result ((other : List ℕ) → line_under seen.new other
        ≡ noted_all (line_under seen.old) (addresses_in line.now) number other) }
{
    match address_of(line) {
        Some(address) => look_at_address(alloc, address, number, seen, buffer),
        None => Ok(RuleFindings {
            no_client: false,
            unknown_user: false,
            decided_by: None,
        }),
    }
}

/// The address of a line that is a rule.
fn address_of(line: &[u8]) -> Option<&[u8]>
    ensures { MatchOption result (is_ignored line.now ≡ true)
        (λ address. (is_ignored line.now ≡ false) × (address.now ≡ address_in line.now)) }
{
    match memchr(b':', line) {
        Some(colon) if line[0] != b'#' => Some(&line[..colon]),
        _ => None,
    }
}

/// What is found in a rule with this address.
fn look_at_address<'a>(
    alloc: Global,
    address: &'a [u8],
    number: u64,
    seen: &mut Seen<'a>,
    buffer: &mut Vec<u8>,
) -> Result<RuleFindings, AllocError>
    requires range { is_bad_range address.now ≡ false }
    requires earlier { IsUpTo seen.old number }
    ensures no_client { IfOk result (λ found. found.no_client ≡ not (list_any is_form (spread address.now))) }
    ensures user { IfOk result (λ found. found.unknown_user ≡ asks_user address.now) }
    ensures decided { IfOk result (λ found. found.decided_by
        ≡ decided_by (line_under seen.old) (spread address.now)) }
    ensures noted { OnOk result ((other : List ℕ) → line_under seen.new other
        ≡ noted_all (line_under seen.old) (spread address.now) number other) }
{
    let addresses = match read_address(address) {
        Some(addresses) => addresses,
        None => unreachable!("an accepted range can be read"),
    };
    let no_client = !has_client(&addresses, buffer)?;
    let decided_by = decide(alloc, addresses, number, seen, buffer)?;
    Ok(RuleFindings {
        no_client,
        unknown_user: asks_user(address),
        decided_by,
    })
}

/// Whether one of the addresses is a form of some peer.
fn has_client(addresses: &ReadAddress<'_>, buffer: &mut Vec<u8>) -> Result<bool, AllocError>
    ensures { IfOk result (λ has. has ≡ list_any is_form (addresses_read addresses.now)) }
{
    for position in 0..count_in(addresses) {
        write_address(addresses, position, buffer)?;
        if is_form(buffer) {
            return Ok(true);
        }
    }
    Ok(false)
}

/// The first line that decides one of the addresses, where each of them was seen in a line.
fn decider(
    alloc: Global,
    addresses: &ReadAddress<'_>,
    seen: &Seen<'_>,
    buffer: &mut Vec<u8>,
) -> Result<Option<u64>, AllocError>
    ensures { IfOk result (λ line.
        line ≡ decided_by (line_under seen.now) (addresses_read addresses.now)) }
{
    let mut least = None;
    for position in 0..count_in(addresses) {
        write_address(addresses, position, buffer)?;
        match seen.line_of(alloc, buffer)? {
            Some(line) => least = Some(lesser(least, line)),
            None => return Ok(None),
        }
    }
    Ok(least)
}

/// The first line that decides one of the addresses, where each of them was seen in a line; they are seen from then on.
/// After an `Err` some of them may be.
fn decide<'a>(
    alloc: Global,
    addresses: ReadAddress<'a>,
    number: u64,
    seen: &mut Seen<'a>,
    buffer: &mut Vec<u8>,
) -> Result<Option<u64>, AllocError>
    requires { IsUpTo seen.old number }
    ensures decided { IfOk result (λ line.
        line ≡ decided_by (line_under seen.old) (addresses_read addresses.entry)) }
    ensures noted { OnOk result ((other : List ℕ) → line_under seen.new other
        ≡ noted_all (line_under seen.old) (addresses_read addresses.entry) number other) }
{
    match decider(alloc, &addresses, seen, buffer)? {
        Some(line) => Ok(Some(line)),
        None => {
            note_all(alloc, addresses, number, seen, buffer)?;
            Ok(None)
        }
    }
}

/// Notes that a line has the addresses, not all of which were seen. After an `Err` some of them may be noted.
fn note_all<'a>(
    alloc: Global,
    addresses: ReadAddress<'a>,
    number: u64,
    seen: &mut Seen<'a>,
    buffer: &mut Vec<u8>,
) -> Result<(), AllocError>
    requires undecided { decided_by (line_under seen.old) (addresses_read addresses) ≡ None }
    requires earlier { IsUpTo seen.old number }
    ensures { OnOk result ((other : List ℕ) → line_under seen.new other
        ≡ noted_all (line_under seen.old) (addresses_read addresses.entry) number other) }
{
    match addresses {
        ReadAddress::One(address) if !is_folding(address) => {
            seen.note_lent(alloc, address, number)
        }
        ReadAddress::Range {
            front,
            numbers,
            back,
        } if is_cut(front, numbers, back) => seen.note_range(alloc, front, numbers, back, number),
        _ => note_each(alloc, &addresses, number, seen, buffer),
    }
}

/// Whether an address has ASCII capital letters from the first `=` on.
fn is_folding(address: &[u8]) -> bool
    ensures { result ≡ list_any is_ascii_uppercase (drop (position_or_len (λ b. b == 61) address.now) address.now) }
{
    has_capitals(&address[first_equals(address)..])
}

/// Notes that a line has the addresses, each of them as one that was made.
fn note_each(
    alloc: Global,
    addresses: &ReadAddress<'_>,
    number: u64,
    seen: &mut Seen<'_>,
    buffer: &mut Vec<u8>,
) -> Result<(), AllocError>
    ensures { OnOk result ((other : List ℕ) → line_under seen.new other
        ≡ noted_all (line_under seen.old) (addresses_read addresses.now) number other) }
{
    for position in 0..count_in(addresses) {
        write_address(addresses, position, buffer)?;
        seen.note_made(alloc, buffer, number)?;
    }
    Ok(())
}

/// Whether a trimmed line is ignored though it is no comment, or is a comment behind blanks.
fn looks_ignored(line: &[u8]) -> bool
    ensures { result ≡ looks_ignored line.now }
{
    is_lost(line) || is_moved_comment(line)
}

/// Whether a line is no rule and no comment.
fn is_lost(line: &[u8]) -> bool
    ensures { result ≡ is_lost line.now }
{
    match line {
        [first, ..] => *first != b'#' && !contains(line, b':'),
        [] => false,
    }
}

/// Whether a line has blanks, at least one, and then a `#`.
fn is_moved_comment(line: &[u8]) -> bool
    ensures { result ≡ is_moved_comment line.now }
{
    let blanks = blanks_before(line);
    blanks > 0 && blanks < line.len() && line[blanks] == b'#'
}

/// How many blanks a line begins with.
fn blanks_before(line: &[u8]) -> usize
    ensures count { result ≡ position_or_len (λ b. not (is_blank b)) line.now }
    ensures within { result ≤ length line.now }
{
    let mut count = 0;
    while count < line.len() && is_blank(line[count]) {
        count += 1;
    }
    count
}
