//! The names of the settings of a line.
ghost use Rattle.std.specs.Prelude.{◌≡◌, ◌||◌, MatchOption, true, false};
ghost use Rattle.rule_lookup.specs.Pairs.{instructions_in, is_ignored, verdict_of};
ghost use Rattle.rule_lookup.specs.Settings.{settings_of};
ghost use Rattle.rule_warnings.specs.Names.{blank_among, blank_behind, has_blank, has_blank_name, names_host};

use crate::client::contains;
use memchr::memchr;
use rule_lines::{first_setting, read_verdict};

/// Whether a line of an accepted text is a rule, and a name in its settings has a blank.
pub fn has_blank_name(line: &[u8]) -> bool
    ensures { result ≡ has_blank_name line.now }
{
    match instructions_of(line) {
        Some(instructions) => blank_behind(instructions),
        None => false,
    }
}

/// The instructions of a line that is a rule.
fn instructions_of(line: &[u8]) -> Option<&[u8]>
    ensures { MatchOption result (is_ignored line.now ≡ true)
        (λ found. (is_ignored line.now ≡ false) × (found.now ≡ instructions_in line.now)) }
{
    match memchr(b':', line) {
        Some(colon) if line[0] != b'#' => Some(&line[colon + 1..]),
        _ => None,
    }
}

/// Whether a name in these instructions has a blank.
fn blank_behind(instructions: &[u8]) -> bool
    ensures { result ≡ blank_behind instructions.now (verdict_of instructions.now) }
{
    match read_verdict(instructions) {
        Some((_, settings)) => blank_among(settings),
        None => false,
    }
}

/// Whether the bytes are settings, and a name in them has a blank.
fn blank_among(settings: &[u8]) -> bool
    ensures { result ≡ blank_among (settings_of true settings.now) }
{
    let mut found = false;
    let mut rest = settings;
    while let Some((comma, assignment)) = rest.split_first() {
        if *comma != b',' {
            return false;
        }
        let Some(first) = first_setting(true, assignment) else {
            return false;
        };
        found = found_in(found, first.name);
        rest = first.rest;
    }
    found
}

/// Whether a blank was found before, or a name has one.
fn found_in(found: bool, name: &[u8]) -> bool
    ensures { result ≡ (found || has_blank name.now) }
{
    found || contains(name, b' ') || contains(name, b'\t')
}

/// Whether a line is a rule for clients with a name.
pub fn names_host(line: &[u8]) -> bool
    ensures { result ≡ names_host line.now }
{
    line.starts_with(b"=") && contains(line, b':')
}
