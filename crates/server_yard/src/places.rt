//! The ledger of a yard's places.
ghost use Rattle.std.specs.Prelude.{ℕ, Bool, Option, None, false};
ghost use Rattle.rule_lookup.specs.declared.decision.WhenMissing.{WhenMissing};
ghost use Rattle.rule_lookup.specs.declared.decision.WhenMissing.TheVariants.{Allow};

use std::marker::Brand;
use std::sync::ledger::Ledger;

/// The ledger of the places of a yard's connections. It also says what is known of the yard, and of its server.
pub trait Places: Ledger {
    /// Whether the yard has callers, and installations beside its connections. A server's has neither.
    ghost installs: { Bool };

    /// What is decided where no rules file stands.
    ghost missing: { WhenMissing };

    /// How many connections are to be let in, if there is such a number.
    ghost admissions: { Option ℕ };
}

impl Places for Brand {
    ghost installs = { false };

    ghost missing = { Allow };

    ghost admissions = { None };
}
