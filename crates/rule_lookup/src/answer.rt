//! The lines that tell a decision.
ghost use Rattle.std.specs.Prelude.{◌≡◌, ◌++◌, OnOk, flat_map};
ghost use Rattle.rule_lookup.specs.Answers.{answer_lines, found_line, setting_line, verdict_lines};

use crate::instr::{Setting, Settings, Verdict};
use crate::{Decision, Found};
use std::alloc::AllocError;

/// Adds the lines that tell a decision: the rule's address or the default, the settings of an allowed connection, and
/// the verdict. After an `Err` a part of them may stand at the end of `out`.
pub fn append_answer(out: &mut Vec<u8>, decision: &Decision) -> Result<(), AllocError>
    ensures { OnOk result (out.new.items ≡ out.old.items ++ answer_lines decision.now) }
{
    append_found(out, &decision.found)?;
    append_verdict(out, decision.verdict, &decision.settings)
}

fn append_found(out: &mut Vec<u8>, found: &Found) -> Result<(), AllocError>
    ensures { OnOk result (out.new.items ≡ out.old.items ++ found_line found.now) }
{
    match found {
        Found::Address(address) => {
            out.extend_from_slice(b"rule ")?;
            out.extend_from_slice(address.as_str().as_bytes())?;
            out.extend_from_slice(b":\n")
        }
        Found::Default => out.extend_from_slice(b"default:\n"),
        Found::NoFile => out.extend_from_slice(b"no such file\n"),
    }
}

fn append_verdict(
    out: &mut Vec<u8>,
    verdict: Verdict,
    settings: &Settings,
) -> Result<(), AllocError>
    ensures { OnOk result (out.new.items ≡ out.old.items ++ verdict_lines verdict settings.now) }
{
    match verdict {
        Verdict::Allow => {
            append_settings(out, settings.as_slice())?;
            out.extend_from_slice(b"allow connection\n")
        }
        Verdict::Deny => out.extend_from_slice(b"deny connection\n"),
    }
}

fn append_settings(out: &mut Vec<u8>, settings: &[Setting]) -> Result<(), AllocError>
    ensures { OnOk result (out.new.items ≡ out.old.items ++ flat_map setting_line settings.now) }
{
    for setting in settings {
        append_setting(out, setting)?;
    }
    Ok(())
}

fn append_setting(out: &mut Vec<u8>, setting: &Setting) -> Result<(), AllocError>
    ensures { OnOk result (out.new.items ≡ out.old.items ++ setting_line setting.now) }
{
    out.extend_from_slice(b"set environment variable ")?;
    out.extend_from_slice(setting.name().as_bytes())?;
    out.extend_from_slice(b"=")?;
    out.extend_from_slice(setting.value().as_bytes())?;
    out.extend_from_slice(b"\n")?;
    Ok(())
}
