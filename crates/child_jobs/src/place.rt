//! The right to one child.
ghost use Rattle.std.specs.Prelude.{◌≡◌};

use std::marker::Model;
use std::sync::ledger::{Ledger, Share};

/// The right to one running child: a share of one in its table's count.
///
/// Contracts see its index. The language lets nobody drop it: `leave` or `retire` gives it back to its table, or
/// `strand` gives it up.
pub struct Place<L: Ledger> {
    pub(crate) index: usize,
    pub(crate) share: Share<L>,
}

impl<L: Ledger> Model for Place<L> {
    ghost use Rattle.std.specs.Prelude.{◌≡◌, ℕ};

    ghost Value = { ℕ };

    ghost view = { λ place. place.index };

    ghost invariant = { λ place. record {
      one_part : place.share.parts ≡ 1;
      one : place.share.amount ≡ 1;
    } };
}

impl<L: Ledger> Place<L> {
    /// The index of the place in its table.
    pub fn index(&self) -> usize
        ensures { result ≡ self.now }
    {
        self.index
    }

    /// Gives the place up without its table: its share stays in the table's count for good, and nothing else changes.
    pub fn strand(self) {
        let Place { index: _, share: _ } = self;
    }
}
