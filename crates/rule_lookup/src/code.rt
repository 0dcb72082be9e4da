//! The code of an instruction: the bytes under which a rule is stored in a compiled file.
ghost use Rattle.std.specs.Prelude.{◌≡◌, ◌∷◌, ◌++◌, [], length, drop, string_bytes, true, false, Err, IfOk, IfErr, OnOk, MatchOption};
ghost use Rattle.std.specs.Str.{is_utf8};
ghost use Rattle.rule_lookup.specs.Codes.{code_of, verdict_code, verdict_in, setting_code, setting_in, settings_in, decoded, BeginsNone, IsEndOf, IsInstr, ReadsOn, RefusesCode};
ghost use Rattle.rule_lookup.specs.Lines.{pieces_of, has_byte};
ghost use Rattle.rule_lookup.specs.declared.code.CodeFault.{CodeFault};
ghost use Rattle.rule_lookup.specs.declared.code.DecodeFault.TheVariants.{OutOfMemory};

use crate::instr::{Instr, Settings, Verdict};
use memchr::memchr;
use std::alloc::{AllocError, AllocFailed, Global};

/// The code of the verdict that denies.
const DENY_CODE: &[u8] = b"D\0";

/// Why bytes have no instruction.
#[derive(Clone, Copy)]
pub enum CodeFault {
    /// They are the code of no instruction.
    NotCode,
}

/// Why `decode_instr` gives no instruction.
#[derive(Clone, Copy)]
pub enum DecodeFault {
    /// The bytes are no code.
    Code(CodeFault),
    /// There was no memory for the instruction.
    OutOfMemory,
}

impl From<AllocError> for DecodeFault {
    ghost from_gives = { λ _ e. e ≡ OutOfMemory };

    fn from(_error: AllocError) -> DecodeFault {
        DecodeFault::OutOfMemory
    }
}

impl<T: Drop> From<AllocFailed<T>> for DecodeFault {
    ghost from_gives = { λ _ e. e ≡ OutOfMemory };

    fn from(_error: AllocFailed<T>) -> DecodeFault {
        DecodeFault::OutOfMemory
    }
}

/// Adds the code of a verdict.
pub fn append_verdict(verdict: Verdict, code: &mut Vec<u8>) -> Result<(), AllocError>
    ensures { OnOk result (code.new.items ≡ code.old.items ++ verdict_code verdict) }
{
    match verdict {
        Verdict::Allow => Ok(()),
        Verdict::Deny => code.extend_from_slice(DENY_CODE),
    }
}

/// Adds the code of a setting. After an `Err`, `code` may have any more bytes at its end.
pub fn append_setting(name: &[u8], value: &[u8], code: &mut Vec<u8>) -> Result<(), AllocError>
    ensures { OnOk result (code.new.items ≡ code.old.items
        ++ setting_code (record { name = name.now; value = value.now })) }
{
    code.push(b'+')?;
    code.extend_from_slice(name)?;
    code.push(b'=')?;
    code.extend_from_slice(value)?;
    code.push(0)?;
    Ok(())
}

/// What stands before the first position of a byte, and after it.
pub fn split_at_byte(byte: u8, bytes: &[u8]) -> Option<(&[u8], &[u8])>
    ensures { MatchOption result
        (has_byte byte bytes.now ≡ false)
        (λ parts. (has_byte byte parts.0.now ≡ false) × (bytes.now ≡ parts.0.now ++ byte ∷ parts.1.now)) }
{
    let position = memchr(byte, bytes)?;
    Some((&bytes[..position], &bytes[position + 1..]))
}

/// The verdict of a code, and the codes of its settings.
pub fn split_verdict(bytes: &[u8]) -> (Verdict, &[u8])
    ensures verdict { result.0 ≡ verdict_in bytes.now }
    ensures codes { result.1.now ≡ drop (length (verdict_code result.0)) bytes.now }
{
    if bytes.starts_with(DENY_CODE) {
        (Verdict::Deny, &bytes[DENY_CODE.len()..])
    } else {
        (Verdict::Allow, bytes)
    }
}

/// The bytes as a text.
fn read_text(bytes: &[u8]) -> Option<&str>
    ensures { MatchOption result
        (is_utf8 bytes.now ≡ false)
        (λ text. (is_utf8 bytes.now ≡ true) × (text.now ≡ bytes.now)) }
{
    str::from_utf8(bytes).ok()
}

/// The name before the first `=` and the value after it, where a setting may have them.
fn read_assignment(assignment: &[u8]) -> Option<(&str, &str)>
    requires { has_byte 0 assignment.now ≡ false }
    ensures { MatchOption result
        (setting_in (43 ∷ assignment.now) ≡ None)
        (λ setting. setting_in (43 ∷ assignment.now) ≡ Some (record { name = setting.0.now; value = setting.1.now })) }
{
    let (name, value) = split_at_byte(b'=', assignment)?;
    if name.is_empty() {
        return None;
    }
    Some((read_text(name)?, read_text(value)?))
}

/// The setting whose code, without its zero byte, the piece is.
fn read_setting(piece: &[u8]) -> Option<(&str, &str)>
    requires { has_byte 0 piece.now ≡ false }
    ensures { MatchOption result
        (setting_in piece.now ≡ None)
        (λ setting. setting_in piece.now ≡ Some (record { name = setting.0.now; value = setting.1.now })) }
{
    let (plus, assignment) = piece.split_first()?;
    if *plus != b'+' {
        return None;
    }
    read_assignment(assignment)
}

/// Adds the settings that stand whole at the front of the codes, and gives what is left: a part of the next one, or
/// nothing. After an `Err` some may have been added.
pub fn push_settings<'a>(
    alloc: Global,
    codes: &'a [u8],
    settings: &mut Settings,
) -> Result<&'a [u8], DecodeFault>
    ensures part { IfOk result (λ rest. has_byte 0 rest.now ≡ false) }
    ensures rest { IfOk result (λ rest. IsEndOf codes.now rest.now) }
    ensures added { IfOk result (λ rest. ReadsOn settings.old codes.now settings.new rest.now) }
    ensures refused { (fault : CodeFault) → result ≡ Err (DecodeFault.Code fault) → BeginsNone codes.now }
{
    let mut rest = codes;
    while let Some((piece, later)) = split_at_byte(0, rest) {
        let Some((name, value)) = read_setting(piece) else {
            return Err(DecodeFault::Code(CodeFault::NotCode));
        };
        settings.push(alloc, name, value)?;
        rest = later;
    }
    Ok(rest)
}

/// The text that bytes become, so that they do not stand in memory twice.
fn own_text(bytes: Vec<u8>) -> Option<String>
    ensures { MatchOption result
        (is_utf8 bytes.items ≡ false)
        (λ text. (is_utf8 bytes.items ≡ true) × (string_bytes text ≡ bytes.items)) }
{
    String::from_utf8(bytes).ok()
}

/// Adds the setting of a name without a `=` and of a value. Both are given away, so that neither stands in memory
/// twice. After an `Err` nothing was added.
pub fn push_parts(name: Vec<u8>, value: Vec<u8>, settings: &mut Settings) -> Result<(), DecodeFault>
    requires name { (has_byte 61 name.items ≡ false) × (has_byte 0 name.items ≡ false) }
    requires value { has_byte 0 value.items ≡ false }
    ensures added { OnOk result (ReadsOn settings.old
        (setting_code (record { name = name.items; value = value.items })) settings.new []) }
    ensures refused { (fault : CodeFault) → result ≡ Err (DecodeFault.Code fault)
        → BeginsNone (setting_code (record { name = name.items; value = value.items })) }
{
    if name.is_empty() {
        return Err(DecodeFault::Code(CodeFault::NotCode));
    }
    let Some(name) = own_text(name) else {
        return Err(DecodeFault::Code(CodeFault::NotCode));
    };
    let Some(value) = own_text(value) else {
        return Err(DecodeFault::Code(CodeFault::NotCode));
    };
    settings.push_owned(name, value)?;
    Ok(())
}

/// The settings whose codes the bytes are.
fn decode_settings(alloc: Global, codes: &[u8]) -> Result<Settings, DecodeFault>
    ensures found { IfOk result (λ settings. settings_in (pieces_of 0 codes.now) ≡ Some settings) }
    ensures refused { (fault : CodeFault) → result ≡ Err (DecodeFault.Code fault)
        → settings_in (pieces_of 0 codes.now) ≡ None }
{
    let mut settings = Settings::new(alloc);
    let rest = push_settings(alloc, codes, &mut settings)?;
    if !rest.is_empty() {
        return Err(DecodeFault::Code(CodeFault::NotCode));
    }
    Ok(settings)
}

/// The instruction whose code the bytes are; no code is that of two. `NotCode` comes exactly for bytes that are the
/// code of none.
pub fn decode_instr(alloc: Global, bytes: &[u8]) -> Result<Instr, DecodeFault>
    ensures found { IfOk result (λ instr. IsInstr instr × (code_of instr ≡ bytes.now)) }
    ensures refused { IfErr result (RefusesCode bytes.now) }
    ensures exact { IfOk result (λ instr. decoded bytes.now ≡ Some instr) }
{
    let (verdict, codes) = split_verdict(bytes);
    let settings = decode_settings(alloc, codes)?;
    Ok(Instr { verdict, settings })
}
