//! The assumptions about a whole yard.
ghost use Rattle.std.specs.Prelude.{Bool, false};

use server_yard::Places;
use std::marker::Brand;

/// The ledger of a yard's places, which also says what is assumed of the yard's directory.
pub trait Assumptions: Places {
    /// Whether the directory is honest and began as it has to: no change of names is pending, and the rules name stands
    /// for nothing, or for a synced file that is compiled of one accepted text.
    ghost met: { Bool };
}

impl Assumptions for Brand {
    ghost met = { false };
}
