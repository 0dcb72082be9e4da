//! Decisions.
ghost use Rattle.std.specs.Prelude.{◌≡◌, Ok, Err, IfOk, IfErr, IfNone};
ghost use Rattle.rule_lookup.specs.Lookups.{WhereKnown};
ghost use Rattle.rule_lookup.specs.Decisions.{decision_by, decision_from, finds_of, trust_of, by_default, without_file, by_rule, DecisionFails, MayFail, MayFailFrom, of_look_up, of_code};
ghost use Rattle.rule_lookup.specs.declared.decision.DecideFault.TheVariants.{OutOfMemory};

use crate::Peer;
use crate::code::{CodeFault, DecodeFault};
use crate::form::forms;
use crate::instr::{Instr, Settings, Verdict};
use crate::source::{FindFault, RuleSource};
use std::alloc::{AllocError, AllocFailed, Global};
use std::marker::Model;

/// What is decided if there is no rules file.
#[derive(Clone, Copy)]
pub enum WhenMissing {
    /// A connection is denied.
    Deny,
    /// A connection is allowed.
    Allow,
}

/// The address of a rule.
#[derive(Drop)]
pub struct Address {
    text: String,
}

impl Model for Address {
    ghost use Rattle.std.specs.Prelude.{List, ℕ, string_bytes};

    ghost Value = { List ℕ };

    ghost view = { λ a. string_bytes a.text };
}

impl Address {
    /// An address with this text.
    pub fn new(alloc: Global, text: &str) -> Result<Address, AllocError>
        ensures { IfOk result (λ a. a ≡ text.now) }
    {
        Ok(Address {
            text: String::from_str(alloc, text)?,
        })
    }

    /// Its text.
    pub fn as_str(&self) -> &str
        ensures { result.now ≡ self.now }
    {
        self.text.as_str()
    }
}

/// What made a decision.
#[derive(Drop)]
pub enum Found {
    /// The first rule with this address.
    Address(Address),
    /// The default: no lookup form has a rule.
    Default,
    /// The lack of a rules file.
    NoFile,
}

/// A decision about a connection.
pub struct Decision {
    /// What made it.
    pub found: Found,
    /// Whether the connection may be made.
    pub verdict: Verdict,
    /// The settings of the rule that decided, and no others.
    pub settings: Settings,
}

// Written out, the drop of all that it has is proved here alone.
impl Drop for Decision {
    fn drop(self) {
        let Decision {
            found,
            verdict: _,
            settings,
        } = self;
        drop(found);
        drop(settings);
    }
}

impl Decision {
    fn by_default(alloc: Global) -> Decision
        ensures { result ≡ by_default }
    {
        Decision {
            found: Found::Default,
            verdict: Verdict::Allow,
            settings: Settings::new(alloc),
        }
    }

    fn without_file(alloc: Global, missing: WhenMissing) -> Decision
        ensures { result ≡ without_file missing }
    {
        let verdict = match missing {
            WhenMissing::Deny => Verdict::Deny,
            WhenMissing::Allow => Verdict::Allow,
        };
        Decision {
            found: Found::NoFile,
            verdict,
            settings: Settings::new(alloc),
        }
    }
}

/// Why there is no decision.
#[derive(Clone, Copy)]
pub enum DecideFault {
    /// A lookup failed.
    Find(FindFault),
    /// The value that was found is not the code of an instruction.
    Code(CodeFault),
    /// There was no memory for the decision.
    OutOfMemory,
}

impl From<AllocError> for DecideFault {
    ghost from_gives = { λ _ e. e ≡ OutOfMemory };

    fn from(_error: AllocError) -> DecideFault {
        DecideFault::OutOfMemory
    }
}

impl<T: Drop> From<AllocFailed<T>> for DecideFault {
    ghost from_gives = { λ _ e. e ≡ OutOfMemory };

    fn from(_error: AllocFailed<T>) -> DecideFault {
        DecideFault::OutOfMemory
    }
}

impl DecideFault {
    /// The fault of a decision whose lookup failed.
    pub fn of_look_up(fault: FindFault) -> DecideFault
        ensures { result ≡ of_look_up fault }
    {
        match fault {
            FindFault::Short => DecideFault::Find(FindFault::Short),
            FindFault::Device => DecideFault::Find(FindFault::Device),
            FindFault::OutOfMemory => DecideFault::OutOfMemory,
        }
    }

    /// The fault of a decision whose value could not be decoded.
    pub fn of_code(fault: DecodeFault) -> DecideFault
        ensures { result ≡ of_code fault }
    {
        match fault {
            DecodeFault::Code(fault) => DecideFault::Code(fault),
            DecodeFault::OutOfMemory => DecideFault::OutOfMemory,
        }
    }
}

/// The decision for a peer: by the first of its lookup forms under which the source has something. Without a source,
/// `missing` decides, which takes no memory. A fault is that of the deciding form, or of a device that failed under a
/// form before it. Want of memory is always `OutOfMemory` itself.
pub fn decide<S: RuleSource>(
    alloc: Global,
    source: Option<&S>,
    missing: WhenMissing,
    peer: &Peer,
) -> Result<Decision, DecideFault>
    ensures no_file { IfNone source.entry (result ≡ Ok (without_file missing)) }
    ensures decided { IfOk result (λ decision. WhereKnown (trust_of S.trust source.entry)
        (decision_from (finds_of S.finds source.entry) missing peer.now ≡ Ok decision)) }
    ensures refused { IfErr result (DecisionFails (trust_of S.trust source.entry)
        (decision_from (finds_of S.finds source.entry) missing peer.now)) }
    // a device fault comes from a form up to the one that decides, and from no other
    ensures device { result ≡ Err (DecideFault.Find FindFault.Device) → WhereKnown (trust_of S.trust source.entry)
        (MayFailFrom S.may_fail S.finds source.entry peer.now) }
{
    match source {
        None => Ok(Decision::without_file(alloc, missing)),
        Some(source) => decide_by(alloc, source, peer),
    }
}

fn decide_by<S: RuleSource>(alloc: Global, source: &S, peer: &Peer) -> Result<Decision, DecideFault>
    ensures decided { IfOk result (λ decision. WhereKnown (S.trust source.now)
        (decision_by (S.finds source.now) peer.now ≡ Ok decision)) }
    ensures refused { IfErr result (DecisionFails (S.trust source.now) (decision_by (S.finds source.now) peer.now)) }
    ensures device { result ≡ Err (DecideFault.Find FindFault.Device) → WhereKnown (S.trust source.now)
        (MayFail (S.may_fail source.now) (S.finds source.now) peer.now) }
{
    let forms = forms(alloc, peer)?;
    for form in &forms {
        if let Some(instr) = source.find_instr(alloc, form.as_bytes())? {
            return by_instr(alloc, form.as_str(), instr);
        }
    }
    Ok(Decision::by_default(alloc))
}

/// The decision by a rule with this address and this instruction.
fn by_instr(alloc: Global, form: &str, instr: Instr) -> Result<Decision, DecideFault>
    ensures decided { IfOk result (λ decision. decision ≡ by_rule form.now instr) }
    ensures refused { IfErr result (λ fault. fault ≡ OutOfMemory) }
{
    let address = Address::new(alloc, form)?;
    Ok(Decision {
        found: Found::Address(address),
        verdict: instr.verdict,
        settings: instr.settings,
    })
}
