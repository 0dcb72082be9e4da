//! The addresses that stand in a text by themselves.
ghost use Rattle.std.specs.Prelude.{◌≡◌, ℕ, List, None, Some, IfOk, OnOk, bytes_eq, if◌then◌else◌};
ghost use Rattle.rule_warnings.specs.LentLines.{line_lent, line_whole};

use crate::client::octets_of;
use std::alloc::{AllocError, Global};
use std::collections::HashMap;

/// Addresses that stand in a text, each with the number of its line. One that is a whole IPv4 address is kept as its
/// four numbers: so it takes little more than half of the memory of any other.
#[derive(Drop)]
pub struct Lent<'a> {
    /// Whole IPv4 addresses.
    whole: HashMap<[u8; 4], u32>,
    /// The others.
    texts: HashMap<&'a [u8], u32>,
}

impl<'a> Lent<'a> {
    /// No addresses, with room for so many that are no whole IPv4 addresses.
    pub fn with_room(alloc: Global, texts: usize) -> Result<Lent<'a>, AllocError>
        ensures { IfOk result (λ lent. (address : List ℕ) → line_lent lent address ≡ None) }
    {
        Ok(Lent {
            whole: HashMap::new(alloc),
            texts: HashMap::with_capacity(alloc, texts)?,
        })
    }

    /// The number of the line of an address.
    pub fn line_of(&self, address: &[u8]) -> Option<u64>
        ensures { result ≡ line_lent self.now address.now }
    {
        match self.texts.get(address) {
            Some(line) => Some(u64::from(*line)),
            None => self.line_whole(address),
        }
    }

    /// The number of the line of a whole address.
    fn line_whole(&self, address: &[u8]) -> Option<u64>
        ensures { result ≡ line_whole self.now address.now }
    {
        let octets = octets_of(address)?;
        match self.whole.get(&octets) {
            Some(line) => Some(u64::from(*line)),
            None => None,
        }
    }

    /// Notes the line of an address that has none. For want of memory nothing is noted.
    pub fn insert(&mut self, address: &'a [u8], line: u32) -> Result<(), AllocError>
        requires { line_lent self.old address.now ≡ None }
        ensures { OnOk result ((other : List ℕ) → line_lent self.new other
            ≡ (if bytes_eq address.now other then Some line else line_lent self.old other)) }
    {
        if let Some(octets) = octets_of(address) {
            self.whole.insert(octets, line)?;
        } else {
            self.texts.insert(address, line)?;
        }
        Ok(())
    }
}
