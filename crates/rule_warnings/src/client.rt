//! Addresses that some peer has.
ghost use Rattle.std.specs.Prelude.{◌≡◌, ◌<◌, ◌≤◌, ◌+◌, ◌==◌, ◌&&◌, ◌++◌, nat_lt, nat_le, length, get_or, drop};
ghost use Rattle.std.specs.Char.{is_ascii_uppercase};
ghost use Rattle.std.specs.List.{list_any, position_or_len};
ghost use Rattle.rule_lookup.specs.Lines.{has_byte};
ghost use Rattle.rule_lookup.specs.Addresses.{ipv4_in};
ghost use Rattle.rule_warnings.specs.Clients.{is_form, is_plain, is_whole, is_front, is_host, is_end, is_users, asks_user};

use arrayvec::ArrayVec;
use memchr::memchr;
use rule_lookup::parse_address;
use std::str;

/// How long the text of an IPv4 address is at most.
const LONGEST: usize = 15;

/// Whether some peer has this address as one of its lookup forms.
pub fn is_form(address: &[u8]) -> bool
    ensures { result ≡ is_form address.now }
{
    is_plain(address)
        && (address.is_empty()
            || is_host(address)
            || is_whole(address)
            || is_front(address)
            || is_users(address))
}

/// Whether an address asks for a user.
pub fn asks_user(address: &[u8]) -> bool
    ensures { result ≡ asks_user address.now }
{
    contains(address, b'@') && !is_host(address)
}

/// Whether it has neither a zero byte nor ASCII capital letters from the first `=` on.
fn is_plain(address: &[u8]) -> bool
    ensures { result ≡ is_plain address.now }
{
    !contains(address, 0) && !has_capitals(&address[first_equals(address)..])
}

/// Where the first `=` stands: at the end where there is none.
pub fn first_equals(address: &[u8]) -> usize
    ensures value { result ≡ position_or_len (λ b. b == 61) address.now }
    ensures within { result ≤ length address.now }
{
    memchr(b'=', address).unwrap_or(address.len())
}

/// Whether a byte stands among others.
pub fn contains(bytes: &[u8], byte: u8) -> bool
    ensures { result ≡ has_byte byte bytes.now }
{
    memchr(byte, bytes).is_some()
}

/// Whether there is an ASCII capital letter.
pub fn has_capitals(bytes: &[u8]) -> bool
    ensures { result ≡ list_any is_ascii_uppercase bytes.now }
{
    bytes.iter().any(|byte| byte.is_ascii_uppercase())
}

/// Whether it is a whole IPv4 address.
fn is_whole(address: &[u8]) -> bool
    ensures { result ≡ is_whole address.now }
{
    octets_of(address).is_some()
}

/// The four numbers of a whole IPv4 address.
pub fn octets_of(address: &[u8]) -> Option<[u8; 4]>
    ensures { result ≡ ipv4_in address.now }
{
    if address.len() > LONGEST {
        return None;
    }
    match str::from_utf8(address) {
        Ok(text) => parse_address(text),
        Err(_) => None,
    }
}

/// Whether it is the front of an IPv4 address up to one of its dots.
fn is_front(address: &[u8]) -> bool
    ensures { result ≡ is_front address.now }
{
    address.ends_with(b".")
        && (is_whole_with(address, b"0")
            || is_whole_with(address, b"0.0")
            || is_whole_with(address, b"0.0.0"))
}

/// Whether it is a whole IPv4 address with these bytes behind it.
fn is_whole_with(address: &[u8], rest: &[u8]) -> bool
    ensures { result ≡ is_whole (address.now ++ rest.now) }
{
    let mut whole = ArrayVec::<u8, LONGEST>::new();
    match whole.try_extend_from_slice(address) {
        Ok(()) => match whole.try_extend_from_slice(rest) {
            Ok(()) => is_whole(&whole),
            Err(_) => false,
        },
        Err(_) => false,
    }
}

/// Whether it is a `=`, alone or before a host or the end of one.
fn is_host(address: &[u8]) -> bool
    ensures { result ≡ is_host address.now }
{
    match address {
        [first, host @ ..] => *first == b'=' && host.len() <= 255,
        [] => false,
    }
}

/// Whether it is a host or an IP address, at which a user may be.
fn is_end(end: &[u8]) -> bool
    ensures { result ≡ is_end end.now }
{
    is_whole(end) || (is_host(end) && end.len() > 1)
}

/// Whether it is a user at a host or an IP address.
fn is_users(address: &[u8]) -> bool
    ensures { result ≡ is_users address.now }
{
    for before in 0..address.len() {
        if before > 255 {
            return false;
        }
        if is_user_at(address, before) {
            return true;
        }
    }
    false
}

/// Whether an `@` stands at this position, behind a user and before a host or an IP address, at which a user may be.
fn is_user_at(address: &[u8], before: usize) -> bool
    requires inside { before < length address.now }
    requires fits { before ≤ 255 }
    ensures { result ≡ (get_or address.now before 0 == 64 && nat_lt 0 before && nat_le before 255
        && is_end (drop (before + 1) address.now)) }
{
    address[before] == b'@' && before > 0 && is_end(&address[before + 1..])
}
