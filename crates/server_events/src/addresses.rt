//! How many connections come from each address.
ghost use Rattle.std.specs.Prelude.{◌≡◌, ◌+◌, ◌-◌, ◌<◌, ◌^◌, ℕ, List, OnOk, OnErr, bytes_eq, if◌then◌else◌};
ghost use Rattle.std.specs.BTreeMap.{IsUnchanged};
ghost use Rattle.server_events.specs.Addresses.{count_of, CountsOneMore, IsForgotten};

use std::alloc::{AllocError, Global};
use std::collections::BTreeMap;

/// A count for each address. An address that has none left is forgotten.
#[derive(Drop)]
pub(crate) struct AddressCounts {
    counts: BTreeMap<[u8; 4], u64>,
}

impl AddressCounts {
    /// Counts of no connections.
    pub(crate) fn new(alloc: Global) -> AddressCounts
        ensures { (q : List ℕ) → count_of result q ≡ 0 }
    {
        AddressCounts {
            counts: BTreeMap::new(alloc),
        }
    }

    /// The count of an address.
    pub(crate) fn count(&self, ip: [u8; 4]) -> u64
        ensures { result ≡ count_of self.now ip }
    {
        self.counts.get(&ip).copied().unwrap_or(0)
    }

    /// Counts one more at an address.
    pub(crate) fn add(&mut self, ip: [u8; 4]) -> Result<(), AllocError>
        requires { count_of self.old ip < 2 ^ 64 - 1 }
        ensures added { OnOk result (CountsOneMore ip self.old self.new) }
        ensures unchanged { OnErr result (IsUnchanged self.old.counts self.new.counts) }
    {
        let count = self.count(ip);
        self.counts.insert(ip, count + 1)?;
        Ok(())
    }

    /// Counts one less at an address, and forgets an address that has none left.
    pub(crate) fn leave(&mut self, ip: [u8; 4])
        requires { 0 < count_of self.old ip }
        ensures left { (q : List ℕ) → count_of self.new q + (if bytes_eq ip q then 1 else 0) ≡ count_of self.old q }
        ensures forgotten { count_of self.new ip ≡ 0 → IsForgotten self.new ip }
    {
        if self.count(ip) == 1 {
            self.counts.remove(&ip);
        } else if let Some(count) = self.counts.get_mut(&ip) {
            *count -= 1;
        }
    }

    /// Forgets all addresses.
    pub(crate) fn clear(&mut self)
        ensures { (q : List ℕ) → count_of self.new q ≡ 0 }
    {
        self.counts.clear();
    }
}
