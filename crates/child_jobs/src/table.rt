//! The table of the places that are out.
ghost use Rattle.std.specs.Prelude.{◌≡◌, ◌+◌, ◌<◌, ◌≤◌, ◌↔◌, true, false, None, IfOk, IfErr, IfSome, IfNone};
ghost use Rattle.child_jobs.specs.declared.table.TableFault.TheVariants.{OutOfMemory};
ghost use Rattle.child_jobs.specs.PlacesOut.{RefusesLimits, none_out, is_used, live_of, with_place, without_place};

use crate::place::Place;
use slab::Slab;
use std::alloc::{AllocError, Global};
use std::marker::Model;
use std::sync::ledger::{Blank, Book, Ledger, Share};

/// Why no table was made.
#[derive(Clone, Copy)]
pub enum TableFault {
    /// The limit is 0.
    ZeroLimit,
    /// There was no memory.
    OutOfMemory,
}

impl From<AllocError> for TableFault {
    ghost from_gives = { λ _ fault. fault ≡ OutOfMemory };

    fn from(_error: AllocError) -> TableFault {
        TableFault::OutOfMemory
    }
}

/// The places that are out. All its room is taken when it is made.
#[derive(Drop)]
pub struct PlaceTable<L: Ledger> {
    limit: u64,
    retired: u64,
    // the index of each place that is out
    indices: Slab<()>,
    count: Book<L>,
    rest: Share<L>,
    kept: Share<L>,
}

impl<L: Ledger> Model for PlaceTable<L> {
    ghost use Rattle.child_jobs.specs.PlacesOut.{PlacesOut, places_out_code};
    ghost use Rattle.std.specs.Prelude.{◌≡◌, ◌+◌, ◌≤◌, ◌<◌, ◌^◌};
    ghost use Rattle.std.specs.FinMap as map;
    ghost use Rattle.slab.specs.Slab.{entries, slab_len};

    ghost Value = { PlacesOut };

    ghost coded = { places_out_code };

    ghost view = { λ t. record {
      limit = t.limit;
      retired = t.retired;
      places = map.from_sorted (entries t.indices);
    } };

    ghost invariant = { λ t. record {
      counted : t.count.total ≡ slab_len t.indices;
      parts : t.rest.parts + slab_len t.indices ≡ t.limit;
      idle : t.rest.amount ≡ 0;
      kept : t.kept.amount ≡ t.retired;
      room : t.limit ≤ t.indices.capacity;
      fits : t.limit < 2 ^ 64;
    } };
}

impl<L: Ledger> PlaceTable<L> {
    /// An empty table, which gives out at most `limit` places. `blank` has as many parts as the limit says.
    ///
    /// # Errors
    /// `ZeroLimit` if the limit is 0.
    pub fn new(alloc: Global, blank: Blank, limit: u64) -> Result<PlaceTable<L>, TableFault>
        requires name { blank.name ≡ L.name }
        requires parts { (blank.parts ≡ L.parts) × (blank.parts ≡ limit) }
        ensures made { IfOk result (λ table. table ≡ none_out limit) }
        ensures limited { IfOk result (λ _. 0 < limit) }
        ensures refused { IfErr result (RefusesLimits limit) }
    {
        if limit == 0 {
            return Err(TableFault::ZeroLimit);
        }
        let indices = Slab::with_capacity(alloc, limit as usize)?;
        let (count, mut rest) = blank.open::<L>();
        let kept = rest.empty();
        Ok(PlaceTable {
            limit,
            retired: 0,
            indices,
            count,
            rest,
            kept,
        })
    }

    /// Gives out a place, with an index that is not in use; or none if as many places are out as the limit says,
    /// retired ones counted. Then nothing changed. It takes no memory.
    pub fn admit(&mut self) -> Option<Place<L>>
        ensures full { (result ≡ None) ↔ (live_of self.old ≡ self.old.limit) }
        ensures unchanged { IfNone result (self.new ≡ self.old) }
        ensures vacant { IfSome result (λ place. is_used self.old place ≡ false) }
        ensures admitted { IfSome result (λ place. self.new ≡ with_place place self.old) }
    {
        if self.live() == self.limit {
            return None;
        }
        let index = self.indices.insert_reserved(());
        let mut share = self.rest.split_off(1, 0);
        self.count.add(&mut share, 1);
        Some(Place { index, share })
    }

    /// Takes a place back, and its index is free again. It takes no memory.
    pub fn leave(&mut self, place: Place<L>)
        requires { is_used self.old place ≡ true }
        ensures { self.new ≡ without_place place self.old }
    {
        let Place { index, mut share } = place;
        self.count.sub(&mut share, 1);
        self.rest.merge(share);
        self.indices.remove(index);
    }

    /// Takes a place back that stays counted for good. It takes no memory.
    pub fn retire(&mut self, place: Place<L>)
        requires { is_used self.old place ≡ true }
        ensures retired { self.new ≡ record self.old { retired = self.old.retired + 1 } }
        ensures within { self.new.retired ≤ live_of self.new }
    {
        let Place { index: _, share } = place;
        self.kept.merge(share);
        self.count.audit(&mut self.kept);
        self.retired += 1;
    }

    /// How many places are out, retired ones too.
    pub fn live(&self) -> u64
        ensures value { result ≡ live_of self.now }
        ensures within { result ≤ self.now.limit }
    {
        self.indices.len() as u64
    }

    /// How many places may be out at once.
    pub fn limit(&self) -> u64
        ensures { result ≡ self.now.limit }
    {
        self.limit
    }
}
