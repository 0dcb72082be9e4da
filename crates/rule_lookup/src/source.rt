//! Where a decision looks its instructions up.
ghost use Rattle.std.specs.Prelude.{◌≡◌, ℕ, List, Ok, Err, IfOk, IfErr};
ghost use Rattle.rule_lookup.specs.Decisions.{instr_in, LookupFails};
ghost use Rattle.rule_lookup.specs.Lookups.{Finding, Trust, WhereKnown};
ghost use Rattle.rule_lookup.specs.declared.source.FindFault.TheVariants.{OutOfMemory};

use crate::decision::DecideFault;
use crate::instr::Instr;
use std::alloc::{AllocError, AllocFailed, Global};

/// Why a look-up has no answer.
#[derive(Clone, Copy)]
pub enum FindFault {
    /// The source is damaged: it points to a position outside of itself.
    Short,
    /// The source could not be read.
    Device,
    /// There was no memory for the answer.
    OutOfMemory,
}

impl From<AllocError> for FindFault {
    ghost from_gives = { λ _ e. e ≡ OutOfMemory };

    fn from(_error: AllocError) -> FindFault {
        FindFault::OutOfMemory
    }
}

impl<T: Drop> From<AllocFailed<T>> for FindFault {
    ghost from_gives = { λ _ e. e ≡ OutOfMemory };

    fn from(_error: AllocFailed<T>) -> FindFault {
        FindFault::OutOfMemory
    }
}

/// A source of pairs, such as a compiled file, whose values are the codes of instructions.
pub trait RuleSource {
    /// What it finds under a key.
    ghost finds: { Self → List ℕ → Finding };

    /// How far that is known to be what it answers.
    ghost trust: { Self → Trust };

    /// Under which keys its device may fail.
    ghost may_fail: { Self → List ℕ → Type 0 };

    /// The instruction of the first pair with this key, or `None` if there is none. A lookup changes nothing, and may
    /// be made again.
    ///
    /// # Errors
    /// `Find` if the source is damaged or could not be read; `Code` if the value is not the code of an instruction;
    /// `OutOfMemory`.
    fn find_instr(&self, alloc: Global, key: &[u8]) -> Result<Option<Instr>, DecideFault>
        ensures found { IfOk result (λ found. WhereKnown (trust self.now)
            (instr_in (finds self.now key.now) ≡ Ok found)) }
        ensures refused { IfErr result (LookupFails (trust self.now) (instr_in (finds self.now key.now))) }
        ensures device { result ≡ Err (DecideFault.Find FindFault.Device) → may_fail self.now key.now };
}
