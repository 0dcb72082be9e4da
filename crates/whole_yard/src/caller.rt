//! The callers of a whole site, and the count of their events.
ghost use Rattle.std.specs.Prelude.{◌≡◌, ◌+◌, ◌<◌, ℕ};

use std::marker::Brand;
use std::sync::ledger::{Ledger, Share};

/// The ledger of a site's events, with a part for each caller. It also says how many events came before them.
pub trait Callers: Ledger {
    /// How many events the yard had when the site was made.
    ghost before: { ℕ };
}

impl Callers for Brand {
    ghost before = { 0 };
}

/// A caller: a number from 1, under which a journal notes its events, and its share in the count of a site's events.
/// Each event adds one to its maker's share.
#[derive(Drop)]
pub struct Caller<N: Callers> {
    pub(crate) number: u64,
    /// Its part of the ledger, with as many events as it made.
    pub share: Share<N>,
    pub ghost one_part: { share.parts ≡ 1 },
}

impl<N: Callers> Caller<N> {
    ghost use Rattle.whole_yard.specs.Callers.{caller_number};

    /// Its number.
    pub fn number(&self) -> u64
        ensures { result ≡ caller_number self.now }
    {
        self.number
    }
}

/// The callers of a site that nobody has yet.
#[derive(Drop)]
pub struct NewCallers<N: Callers> {
    count: u64,
    share: Share<N>,
    ghost parts: { share.parts ≡ count },
    ghost idle: { share.amount ≡ 0 },
}

impl<N: Callers> NewCallers<N> {
    ghost use Rattle.whole_yard.specs.Callers.{caller_number, caller_share, new_count};

    /// So many callers, each with a part of this share, which is that of all.
    pub fn of(share: Share<N>, count: u64) -> NewCallers<N>
        requires all { share.parts ≡ N.parts }
        requires parts { share.parts ≡ count }
        requires idle { share.amount ≡ 0 }
        ensures { new_count result ≡ count }
    {
        NewCallers { count, share }
    }

    /// Takes the last one, whose number is how many there were. It has made no event.
    pub fn take(&mut self) -> Caller<N>
        requires some { 0 < new_count self.old }
        ensures number { caller_number result ≡ new_count self.old }
        ensures idle { caller_share result ≡ 0 }
        ensures left { new_count self.new + 1 ≡ new_count self.old }
    {
        let (number, share) = (self.count, self.share.split_off(1, 0));
        self.count = number - 1;
        Caller { number, share }
    }

    /// A share of no caller.
    pub fn nobody(&mut self) -> Share<N>
        ensures { result.parts ≡ 0 }
    {
        self.share.empty()
    }
}
