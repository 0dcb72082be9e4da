//! Copies of decisions, for their receipts.
ghost use Rattle.std.specs.Prelude.{◌≡◌, IfOk};

use rule_lookup::{Address, Decision, Found, Setting, Settings};
use std::alloc::{AllocError, Global};

/// An equal decision.
pub(crate) fn copy_of(alloc: Global, decision: &Decision) -> Result<Decision, AllocError>
    ensures { IfOk result (λ copy. copy ≡ decision.now) }
{
    Ok(Decision {
        found: copy_of_found(alloc, &decision.found)?,
        verdict: decision.verdict,
        settings: copy_of_settings(alloc, &decision.settings)?,
    })
}

fn copy_of_found(alloc: Global, found: &Found) -> Result<Found, AllocError>
    ensures { IfOk result (λ copy. copy ≡ found.now) }
{
    match found {
        Found::Address(address) => Ok(Found::Address(Address::new(alloc, address.as_str())?)),
        Found::Default => Ok(Found::Default),
        Found::NoFile => Ok(Found::NoFile),
    }
}

fn copy_of_settings(alloc: Global, settings: &Settings) -> Result<Settings, AllocError>
    ensures { IfOk result (λ copy. copy ≡ settings.now) }
{
    let mut copy = Settings::new(alloc);
    for setting in settings.as_slice() {
        copy.push(alloc, setting.name(), setting.value())?;
    }
    Ok(copy)
}
