//! The instructions of a rule line, read into their code.
ghost use Rattle.std.specs.Prelude.{◌≡◌, ◌++◌, ◌<◌, ◌≤◌, ℕ, suc, List, Some, Err, if◌then◌else◌, option_map, IfErr, IfSome, MatchOption, OnOk, flat_map, length, drop};
ghost use Rattle.std.specs.Str.{continuation_len};
ghost use Rattle.rule_lookup.specs.Codes.{code_of, setting_code};
ghost use Rattle.rule_lookup.specs.Pairs.{instr_of, verdict_of, word_length};
ghost use Rattle.rule_lines.specs.RuleFaults.{Names, fault_within};
ghost use Rattle.rule_lookup.specs.Settings.{cut_at, first_character, front_of, value_at, setting_at, settings_of};

use crate::fault::{LineKind, RuleFault};
use memchr::memmem;
use rule_lookup::code::{append_setting, append_verdict};
use rule_lookup::{Verdict, split_at_byte};

/// The word of the verdict that allows.
const ALLOW_WORD: &[u8] = b"allow";

/// The word of the verdict that denies.
const DENY_WORD: &[u8] = b"deny";

/// The setting at the front of bytes.
#[derive(Clone, Copy)]
pub struct FirstSetting<'a> {
    /// Its name.
    pub name: &'a [u8],
    /// Its value, without the quotes.
    pub value: &'a [u8],
    /// The bytes after it.
    pub rest: &'a [u8],
}

/// What stands before the first position of a mark, and after it.
fn split_at_mark<'a>(mark: &[u8], bytes: &'a [u8]) -> Option<(&'a [u8], &'a [u8])>
    requires { 0 < length mark.now }
    ensures { MatchOption result
        (cut_at mark.now bytes.now ≡ None)
        (λ parts. cut_at mark.now bytes.now ≡ Some (record { before = parts.0.now; after = parts.1.now })) }
{
    // nearly each quote is one byte
    if let [byte] = mark {
        return split_at_byte(*byte, bytes);
    }
    let position = memmem::find(bytes, mark)?;
    Some((&bytes[..position], &bytes[position + mark.len()..]))
}

/// How long the first character is: in a text it is one of UTF-8, and else a byte.
fn character_len(is_text: bool, first: u8) -> usize
    ensures { result ≡ (if is_text then suc (continuation_len first) else 1) }
{
    match first {
        _ if !is_text => 1,
        0..128 => 1,
        128..224 => 2,
        224..240 => 3,
        _ => 4,
    }
}

/// The first character.
fn quote_of(is_text: bool, bytes: &[u8]) -> &[u8]
    ensures { result.now ≡ first_character is_text bytes.now }
{
    match bytes.first() {
        Some(first) => &bytes[..character_len(is_text, *first).min(bytes.len())],
        None => bytes,
    }
}

/// The value that is quoted at the front, and what follows it.
fn read_value(is_text: bool, bytes: &[u8]) -> Option<(&[u8], &[u8])>
    ensures { MatchOption result
        ((name : List ℕ) → value_at is_text name bytes.now ≡ None)
        (λ read. (name : List ℕ) → value_at is_text name bytes.now ≡ Some (front_of name read.0.now read.1.now)) }
{
    if bytes.is_empty() {
        return None;
    }
    let quote = quote_of(is_text, bytes);
    split_at_mark(quote, &bytes[quote.len()..])
}

/// The setting at the front of bytes, `NAME` and `=` and a quoted value, or `None` where they begin with none. A quote
/// is a character in a text, and else a byte.
pub fn first_setting(is_text: bool, bytes: &[u8]) -> Option<FirstSetting<'_>>
    ensures read { MatchOption result
        (setting_at is_text bytes.now ≡ None)
        (λ first. setting_at is_text bytes.now
        ≡ Some (front_of first.name.now first.value.now first.rest.now)) }
    ensures shorter { IfSome result (λ first. length first.rest.now ≤ length bytes.now) }
{
    let (name, quoted) = split_at_byte(b'=', bytes)?;
    if name.is_empty() {
        return None;
    }
    let (value, rest) = read_value(is_text, quoted)?;
    Some(FirstSetting { name, value, rest })
}

/// Adds the codes of the settings that the bytes are. A quote is a character in a text, and else a byte.
///
/// # Errors
/// `BadSetting` where they are no series of settings, and `OutOfMemory`. After them `code` may have any more bytes at
/// its end.
fn append_settings(is_text: bool, bytes: &[u8], code: &mut Vec<u8>) -> Result<(), RuleFault>
    ensures added { OnOk result
        (option_map (λ settings. code.old.items ++ flat_map setting_code settings) (settings_of is_text bytes.now)
        ≡ Some code.new.items) }
    ensures refused { (kind : LineKind) → result ≡ Err (RuleFault.Kind kind)
        → (kind ≡ LineKind.BadSetting) × (settings_of is_text bytes.now ≡ None) }
{
    let mut rest = bytes;
    while let Some((comma, assignment)) = rest.split_first() {
        if *comma != b',' {
            return Err(RuleFault::Kind(LineKind::BadSetting));
        }
        let Some(first) = first_setting(is_text, assignment) else {
            return Err(RuleFault::Kind(LineKind::BadSetting));
        };
        append_setting(first.name, first.value, code)?;
        rest = first.rest;
    }
    Ok(())
}

/// The verdict that instructions begin with, and what follows its word, or `None` where they begin with neither word.
pub fn read_verdict(instructions: &[u8]) -> Option<(Verdict, &[u8])>
    ensures { MatchOption result
        (verdict_of instructions.now ≡ None)
        (λ read. (verdict_of instructions.now ≡ Some read.0)
        × (read.1.now ≡ drop (word_length read.0) instructions.now)) }
{
    if instructions.starts_with(ALLOW_WORD) {
        Some((Verdict::Allow, &instructions[ALLOW_WORD.len()..]))
    } else if instructions.starts_with(DENY_WORD) {
        Some((Verdict::Deny, &instructions[DENY_WORD.len()..]))
    } else {
        None
    }
}

/// Adds the code of the instruction that the bytes say.
///
/// # Errors
/// `NoVerdict` or `BadSetting` where they say none, and `OutOfMemory`. After them `code` may have any more bytes at its
/// end.
pub(crate) fn append_code(
    is_text: bool,
    instructions: &[u8],
    code: &mut Vec<u8>,
) -> Result<(), RuleFault>
    ensures added { OnOk result
        (option_map (λ instr. code.old.items ++ code_of instr) (instr_of is_text instructions.now)
        ≡ Some code.new.items) }
    ensures refused { IfErr result (Names (fault_within is_text instructions.now)) }
{
    let Some((verdict, settings)) = read_verdict(instructions) else {
        return Err(RuleFault::Kind(LineKind::NoVerdict));
    };
    append_verdict(verdict, code)?;
    append_settings(is_text, settings, code)
}
