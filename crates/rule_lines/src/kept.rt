//! The lines that a list keeps: an address, a colon, and the code of the instruction.
ghost use Rattle.std.specs.Prelude.{◌≡◌, ◌++◌, ◌+◌, ◌-◌, ◌<◌, ◌≤◌, ◌^◌, ℕ, List, None, true, drop, is_some, length, slice_get, IfSome, MatchOption};
ghost use Rattle.rule_lookup.specs.Codes.{decoded};
ghost use Rattle.rule_lines.specs.Kept.{AreKept, IsFound, IsKeptLine, IsLineAt, rules_at, rules_in, rules_under};
ghost use Rattle.rule_lines.specs.ReadAddresses.{addresses_read};
ghost use Rattle.rule_lines.specs.Rows.{addresses_under, length_with};

use crate::spread::{Numbers, ReadAddress, count_in, number_at, read_address};
use itoa::Buffer;
use memchr::memchr;
use rule_lookup::lines::first_line;

/// A kept line, read: its addresses, and the code of its instruction.
#[derive(Clone, Copy)]
pub(crate) struct KeptLine<'a> {
    pub(crate) addresses: ReadAddress<'a>,
    pub(crate) code: &'a [u8],
}

/// Where a kept line begins, and how many rules the lines before it have.
#[derive(Clone, Copy)]
pub(crate) struct LinePosition {
    pub(crate) start: usize,
    pub(crate) before: usize,
}

impl LinePosition {
    /// The first line.
    pub(crate) const FRONT: LinePosition = LinePosition {
        start: 0,
        before: 0,
    };

    /// This line, or the first one where the rule at position `i` stands before this.
    pub(crate) fn not_behind(self, i: usize) -> LinePosition
        ensures line { (kept : List ℕ) → AreKept kept → IsLineAt kept self → IsLineAt kept result }
        ensures before { result.before ≤ i }
    {
        if self.before <= i {
            self
        } else {
            LinePosition::FRONT
        }
    }
}

/// A rule that was found: its line, which of the line's addresses it has, and a line from which the next one is found.
#[derive(Clone, Copy)]
pub(crate) struct FoundRule<'a> {
    pub(crate) line: KeptLine<'a>,
    pub(crate) position: usize,
    pub(crate) resume: LinePosition,
}

/// A kept line, read.
fn read_kept(line: &[u8]) -> KeptLine<'_>
    requires { IsKeptLine line.now }
    ensures rules { rules_under result ≡ rules_at line.now }
    ensures decodes { is_some (decoded result.code.now) ≡ true }
{
    let Some(colon) = memchr(b':', line) else {
        unreachable!("a kept line has a colon");
    };
    match read_address(&line[..colon]) {
        Some(addresses) => KeptLine {
            addresses,
            code: &line[colon + 1..],
        },
        None => unreachable!("a kept line has no bad range"),
    }
}

/// The first of the kept lines, of which there is one, and the others.
pub(crate) fn first_kept(kept: &[u8]) -> (KeptLine<'_>, &[u8])
    requires some { 0 < length kept.now }
    requires kept { AreKept kept.now }
    ensures rules { rules_in kept.now ≡ rules_under result.0 ++ rules_in result.1.now }
    ensures decodes { is_some (decoded result.0.code.now) ≡ true }
    ensures kept { AreKept result.1.now }
    ensures follows { result.1.now ≡ drop (length kept.now - length result.1.now) kept.now }
    ensures shorter { length result.1.now < length kept.now }
{
    let (line, after) = first_line(kept);
    (read_kept(line), after)
}

/// How many rules there are, and how many bytes their addresses and the codes of their instructions have.
#[derive(Clone, Copy)]
pub(crate) struct Tally {
    pub(crate) rules: usize,
    pub(crate) bytes: usize,
}

impl Tally {
    /// Of no rules.
    pub(crate) const NONE: Tally = Tally { rules: 0, bytes: 0 };

    /// That of the rules of both, where there is room for its numbers.
    pub(crate) fn with(self, other: Tally) -> Option<Tally>
        ensures rules { IfSome result (λ both. both.rules ≡ self.rules + other.rules) }
        ensures bytes { IfSome result (λ both. both.bytes ≡ self.bytes + other.bytes) }
    {
        Some(Tally {
            rules: self.rules.checked_add(other.rules)?,
            bytes: self.bytes.checked_add(other.bytes)?,
        })
    }
}

/// The tally of the rules that addresses make with a code of this length, where there is room for its numbers.
pub(crate) fn tally_of(addresses: &ReadAddress<'_>, code_length: usize) -> Option<Tally>
    ensures rules { IfSome result (λ tally. tally.rules ≡ length (addresses_read addresses.now)) }
    ensures bytes { IfSome result (λ tally. tally.bytes ≡ length_with code_length (addresses_read addresses.now)) }
{
    let bytes = match addresses {
        ReadAddress::One(address) => address.len().checked_add(code_length)?,
        ReadAddress::Range {
            front,
            numbers,
            back,
        } => range_length(front, *numbers, back, code_length)?,
    };
    Some(Tally {
        rules: count_in(addresses),
        bytes,
    })
}

/// How many bytes the addresses of a range have, each with a code of this length, where there is room for that number.
fn range_length(front: &[u8], numbers: Numbers, back: &[u8], code_length: usize) -> Option<usize>
    ensures { IfSome result (λ bytes. bytes ≡ length_with code_length (addresses_under front.now numbers back.now)) }
{
    let around = front
        .len()
        .checked_add(back.len())?
        .checked_add(code_length)?;
    let mut bytes = 0usize;
    for position in 0..numbers.count {
        let mut buffer = Buffer::new();
        let digits = buffer
            .format(number_at(numbers, usize::from(position)))
            .len();
        bytes = bytes.checked_add(around)?.checked_add(digits)?;
    }
    Some(bytes)
}

/// The rule at position `i` of kept lines, looked for from a line on.
pub(crate) fn rule_at(kept: &[u8], from: LinePosition, i: usize) -> Option<FoundRule<'_>>
    requires fits { length (rules_in kept.now) < 2 ^ 64 }
    requires from { IsLineAt kept.now from }
    requires behind { from.before ≤ i }
    ensures { MatchOption result (slice_get (rules_in kept.now) i ≡ None) (IsFound kept.now i) }
{
    let mut here = from;
    while here.start < kept.len() {
        let (line, after) = first_kept(&kept[here.start..]);
        let next = LinePosition {
            start: kept.len() - after.len(),
            before: here.before + count_in(&line.addresses),
        };
        if i < next.before {
            let is_last = i + 1 == next.before;
            return Some(FoundRule {
                line,
                position: i - here.before,
                resume: if is_last { next } else { here },
            });
        }
        here = next;
    }
    None
}
