//! The numbers of ranges, and the parts of addresses that may be such a number.
ghost use Rattle.std.specs.Prelude.{◌≡◌, ◌≤◌, min, length, Some, None, MatchOption};
ghost use Rattle.std.specs.Option.{option_map_or};
ghost use Rattle.rule_warnings.specs.Spans.{cut_at, cut_in, has_number, is_cut, is_front, line_among, line_in, octet_in, parts_of, sooner};

use crate::client::contains;
use itoa::Buffer;
use rule_lines::spread::{Numbers, next_dot, number};

/// The numbers of a range, and the line that it stands in.
#[derive(Clone, Copy)]
pub struct Span {
    /// The numbers.
    pub numbers: Numbers,
    /// The number of the line.
    pub line: u64,
}

/// An address that is cut before and behind one of its numbers.
#[derive(Clone, Copy)]
pub struct Cut<'a> {
    /// What stands before the number.
    pub front: &'a [u8],
    /// The number.
    pub number: u8,
    /// What stands behind it.
    pub back: &'a [u8],
}

/// The first of two lines, if there is one.
pub fn sooner(line: Option<u64>, other: Option<u64>) -> Option<u64>
    ensures { result ≡ sooner line other }
{
    match other {
        Some(other) => Some(lesser(line, other)),
        None => line,
    }
}

/// The lesser of a line and another, if there is one.
pub fn lesser(least: Option<u64>, line: u64) -> u64
    ensures { result ≡ option_map_or (λ n. min n line) least line }
{
    match least {
        Some(least) => least.min(line),
        None => line,
    }
}

/// The first line of the spans that have a number.
pub fn line_among(spans: &[Span], number: u8) -> Option<u64>
    ensures { result ≡ line_among spans.now number }
{
    let mut first = None;
    for span in spans {
        first = sooner(first, line_in(number, *span));
    }
    first
}

/// The line of a span that has the number.
fn line_in(number: u8, span: Span) -> Option<u64>
    ensures { result ≡ line_in number span }
{
    if has_number(span.numbers, number) {
        Some(span.line)
    } else {
        None
    }
}

/// Whether a number is one of a range.
fn has_number(numbers: Numbers, number: u8) -> bool
    ensures { result ≡ has_number numbers number }
{
    numbers.first <= number
        && u16::from(number) < u16::from(numbers.first).saturating_add(numbers.count)
}

/// Whether a range is one that addresses are cut for: its numbers are a whole part between dots, at most 255, and no
/// `-` stands before them.
pub fn is_cut(front: &[u8], numbers: Numbers, back: &[u8]) -> bool
    ensures { result ≡ is_cut front.now numbers back.now }
{
    is_front(front)
        && back.first().is_none_or(|byte| *byte == b'.')
        && numbers.count > 0
        && u32::from(numbers.first) + u32::from(numbers.count) <= 256
}

/// Whether it may stand before a number: whole parts, each with its dot, and no `-`.
fn is_front(front: &[u8]) -> bool
    ensures { result ≡ is_front front.now }
{
    (front.is_empty() || front.ends_with(b".")) && !contains(front, b'-')
}

/// The cut of an address around the number that begins there, as a whole part between dots: nothing where there is
/// none, or a `-` before it.
pub fn cut_at(address: &[u8], start: usize) -> Option<Cut<'_>>
    requires { start ≤ length address.now }
    ensures { MatchOption result (cut_at address.now start ≡ None)
        (λ cut. cut_at address.now start ≡ Some (parts_of cut)) }
{
    cut_in(&address[..start], &address[start..])
}

/// The cut around the number at the front of what stands behind `front`.
fn cut_in<'a>(front: &'a [u8], rest: &'a [u8]) -> Option<Cut<'a>>
    ensures { MatchOption result (cut_in front.now rest.now ≡ None)
        (λ cut. cut_in front.now rest.now ≡ Some (parts_of cut)) }
{
    if !is_front(front) {
        return None;
    }
    let end = next_dot(rest);
    match octet(&rest[..end]) {
        Some(number) => Some(Cut {
            front,
            number,
            back: &rest[end..],
        }),
        None => None,
    }
}

/// The number below 256 whose decimal text this is.
fn octet(part: &[u8]) -> Option<u8>
    ensures { result ≡ octet_in part.now }
{
    let value = u8::try_from(number(part)?).ok()?;
    if Buffer::new().format(value).as_bytes() == part {
        Some(value)
    } else {
        None
    }
}
