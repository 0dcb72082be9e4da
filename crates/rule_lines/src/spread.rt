//! The addresses that the address of a rule line stands for.
ghost use Rattle.std.specs.Prelude.{◌≡◌, ◌<◌, ◌≤◌, ◌+◌, ◌-◌, ◌&&◌, ◌==◌, min, not, length, MatchOption, true, false};
ghost use Rattle.std.specs.List.{position_or_len, suffix_len, range_with_len};
ghost use Rattle.std.specs.Str.Parse.{digits_value};
ghost use Rattle.rule_lookup.specs.Spread.{addresses_of, is_bad_range, is_number, range_of, spread};
ghost use Rattle.rule_lines.specs.ReadAddresses.{addresses_read};

use memchr::{memchr, memchr2, memrchr};

/// The numbers of a range: `count` of them, from `first` on.
#[derive(Clone, Copy)]
pub struct Numbers {
    /// The first number.
    pub first: u8,
    /// How many there are: none where the range is empty.
    pub count: u16,
}

/// An address of a rule line, read.
#[derive(Clone, Copy)]
pub enum ReadAddress<'a> {
    /// An address that stands for itself, its letters from the first `=` on in lower case.
    One(&'a [u8]),
    /// A range: an address for each number, between the two parts.
    Range {
        /// What stands before the number.
        front: &'a [u8],
        /// The numbers.
        numbers: Numbers,
        /// What stands after the number.
        back: &'a [u8],
    },
}

/// How many addresses there are.
pub fn count_in(addresses: &ReadAddress<'_>) -> usize
    ensures { result ≡ length (addresses_read addresses.now) }
{
    match addresses {
        ReadAddress::One(_) => 1,
        ReadAddress::Range { numbers, .. } => usize::from(numbers.count),
    }
}

/// What an address stands for, or nothing where it is a range with a part that is no number.
pub fn read_address(address: &[u8]) -> Option<ReadAddress<'_>>
    ensures { MatchOption result
        (is_bad_range address.now ≡ true)
        (λ s. (is_bad_range address.now ≡ false) × (addresses_read s ≡ spread address.now)) }
{
    // a host is none, whatever its name, and often the longest of the addresses
    if address.starts_with(b"=") {
        return Some(ReadAddress::One(address));
    }
    match memchr(b'-', address) {
        Some(dash) if memchr2(b'=', b'@', address).is_none() => read_range(address, dash),
        _ => Some(ReadAddress::One(address)),
    }
}

/// The addresses of a range, whose first `-` stands at `dash`, or nothing where a part is no number.
fn read_range(address: &[u8], dash: usize) -> Option<ReadAddress<'_>>
    requires inside { dash < length address.now }
    requires first { dash ≡ position_or_len (λ b. b == 45) address.now }
    ensures { let range = range_of address.now in MatchOption result
        ((is_number range.low && is_number range.high) ≡ false)
        (λ s. ((is_number range.low && is_number range.high) ≡ true) × (addresses_read s ≡ addresses_of range)) }
{
    let parts = cut_range(address, dash);
    let low = number(parts.low)?;
    let high = number(parts.high)?;
    Some(ReadAddress::Range {
        front: parts.front,
        numbers: numbers_between(low, high),
        back: parts.back,
    })
}

/// The parts of a range: what stands before the number at the left of the first `-`, the two numbers, and what stands
/// after the number at its right.
#[derive(Clone, Copy)]
struct RangeParts<'a> {
    front: &'a [u8],
    low: &'a [u8],
    high: &'a [u8],
    back: &'a [u8],
}

/// The parts of a range, whose first `-` stands at `dash`: the left number reaches back to the last dot, the right one
/// to the next.
fn cut_range(address: &[u8], dash: usize) -> RangeParts<'_>
    requires inside { dash < length address.now }
    requires first { dash ≡ position_or_len (λ b. b == 45) address.now }
    ensures front { result.front.now ≡ (range_of address.now).front }
    ensures low { result.low.now ≡ (range_of address.now).low }
    ensures high { result.high.now ≡ (range_of address.now).high }
    ensures back { result.back.now ≡ (range_of address.now).back }
{
    let (left, right) = (&address[..dash], &address[dash + 1..]);
    let low_start = after_last_dot(left);
    let high_end = next_dot(right);
    RangeParts {
        front: &left[..low_start],
        low: &left[low_start..],
        high: &right[..high_end],
        back: &right[high_end..],
    }
}

/// Where begins what follows the last dot: at the front where there is none.
fn after_last_dot(bytes: &[u8]) -> usize
    ensures { result ≡ length bytes.now - suffix_len (λ b. not (b == 46)) bytes.now }
{
    match memrchr(b'.', bytes) {
        Some(dot) => dot + 1,
        None => 0,
    }
}

/// Where the first dot stands: at the end where there is none.
pub fn next_dot(bytes: &[u8]) -> usize
    ensures value { result ≡ position_or_len (λ b. b == 46) bytes.now }
    ensures within { result ≤ length bytes.now }
{
    memchr(b'.', bytes).unwrap_or(bytes.len())
}

/// The number in the address at a position of a range, from 0.
pub(crate) fn number_at(numbers: Numbers, position: usize) -> u32
    requires { position < numbers.count }
    ensures { result ≡ numbers.first + position }
{
    u32::from(numbers.first) + position as u32
}

/// The numbers from `low` to `high` that are not above 255.
fn numbers_between(low: u32, high: u32) -> Numbers
    ensures { range_with_len result.first result.count ≡ range_with_len low (min high 255 + 1 - low) }
{
    let high = high.min(255);
    if low > high {
        return Numbers { first: 0, count: 0 };
    }
    Numbers {
        first: low as u8,
        count: (high - low + 1) as u16,
    }
}

/// The value of decimal digits, maybe none, if it is within `u32`: of none it is 0. Nothing where a byte is no digit or
/// the value is larger.
pub fn number(part: &[u8]) -> Option<u32>
    ensures { MatchOption result
        (is_number part.now ≡ false)
        (λ n. (is_number part.now ≡ true) × (n ≡ digits_value 10 part.now)) }
{
    let mut value: u32 = 0;
    for byte in part {
        if !byte.is_ascii_digit() {
            return None;
        }
        value = value.checked_mul(10)?.checked_add(u32::from(*byte - b'0'))?;
    }
    Some(value)
}
