//! The lines of a text.
ghost use Rattle.std.specs.Prelude.{◌≡◌, ◌<◌, ◌≤◌, ◌+◌, ◌-◌, false, drop, length};
ghost use Rattle.rule_lookup.specs.Lines.{IsCutAtFeed, IsFirstLine, has_byte, is_blank, trimmed};

use memchr::memchr;

/// The first line of a text that is not empty, without its line feed, and what follows it.
pub fn first_line(text: &[u8]) -> (&[u8], &[u8])
    requires { 0 < length text.now }
    ensures lines { IsFirstLine text.now result.0.now result.1.now }
    ensures one_line { has_byte 10 result.0.now ≡ false }
    ensures cut { IsCutAtFeed text.now result.0.now result.1.now }
    ensures follows { result.1.now ≡ drop (length text.now - length result.1.now) text.now }
    ensures shorter { length result.1.now < length text.now }
    ensures parts { length result.0.now + length result.1.now ≤ length text.now }
{
    match memchr(b'\n', text) {
        Some(end) => (&text[..end], &text[end + 1..]),
        None => (text, &text[text.len()..]),
    }
}

/// A line without the spaces and tabs at its end.
pub fn trim_blanks(line: &[u8]) -> &[u8]
    ensures { result.now ≡ trimmed line.now }
{
    let mut trimmed = line;
    while let [front @ .., last] = trimmed
        && is_blank(*last)
    {
        trimmed = front;
    }
    trimmed
}

/// Whether a byte is a space or a tab.
pub fn is_blank(byte: u8) -> bool
    ensures { result ≡ is_blank byte }
{
    byte == b' ' || byte == b'\t'
}
