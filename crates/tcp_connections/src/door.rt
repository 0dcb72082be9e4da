//! The door: the value under whose lock connections are accepted and let in.
ghost use Rattle.std.specs.Option.{ForSome};
ghost use Rattle.std.specs.Prelude.{◌≡◌, ◌≢◌, ◌⊎◌, ◌↔◌, ◌+◌, ◌≤◌, Some, false, true, IfSome, IsTrue, min};
ghost use Rattle.tcp_connections.specs.Admissions.{LetsIn, suffices};
ghost use Rattle.tcp_connections.specs.Ends.{asked_count, given_supply};

use crate::accepting::{AcceptError, Acceptor};
use crate::means::{Permit, pause_after};
use crate::served::{Faults, ServeEnd, Served};
use crate::serving::Serving;
use crate::supply::Supply;
use std::time::Duration;

/// So many faults of accepting in succession end a server.
const MOST: u32 = 100;

/// The door: whoever has its lock waits for the next connection, and lets it in.
#[derive(Drop)]
pub(crate) struct Door<'a, A, V: Serving> {
    server: &'a V,
    // where connections come from; none once nobody is let in any more
    acceptor: Option<A>,
    // how many were let in, and at how many the server ends, if it ends by their number
    let_in: u64,
    count: Option<u32>,
    faults: Faults,
    ghost asked: { V.count ≡ count },
    ghost within: { ForSome count (λ most. let_in ≤ most) },
}

impl<'a, A: Acceptor<Came = V::Came> + Drop, V: Serving> Door<'a, A, V> {
    /// The door of a server through which nobody came yet. The server ends once `count` were let in.
    pub fn new(server: &'a V, acceptor: A, count: Option<u32>) -> Door<'a, A, V>
        requires count { V.count ≡ count }
        ensures nobody { result.let_in ≡ 0 }
        ensures no_faults { result.faults.count ≡ 0 }
    {
        Door {
            server,
            acceptor: Some(acceptor),
            let_in: 0,
            count,
            faults: Faults::default(),
        }
    }

    /// Whether nobody is let in any more: as many were as were to be, or a hundred faults came.
    pub fn is_over(&self) -> bool
        ensures more { result ≡ false → self.now.count ≢ Some self.now.let_in }
        ensures open { result ≡ false → self.now.faults.count ≢ 100 }
        ensures over { result ≡ true → (self.now.count ≡ Some self.now.let_in) ⊎ (self.now.faults.count ≡ 100) }
    {
        is_reached(self.count, self.let_in) || self.faults.count == MOST
    }

    /// Waits for the next connection, if there is what it takes. `None` once the door is closed.
    pub fn accept(&self, _permit: &Permit) -> Option<Result<V::Came, AcceptError>> {
        Some(self.acceptor.as_ref()?.accept())
    }

    /// Drops the acceptor.
    pub fn close(&mut self)
        ensures let_in { self.new.let_in ≡ self.old.let_in }
        ensures same { self.new.faults ≡ self.old.faults }
    {
        self.acceptor = None;
    }

    /// Lets a connection in, if it is not refused. It ends the succession of faults.
    pub fn admit(&mut self, _permit: &Permit, came: V::Came) -> Option<V::Work>
        requires more { self.old.count ≢ Some self.old.let_in }
        requires open { self.old.faults.count ≢ 100 }
        ensures its { IfSome result (V.is_its self.old.server.now came) }
        ensures counted { LetsIn result self.old.let_in self.new.let_in }
        ensures anew { self.new.faults.count ≡ 0 }
        ensures last { self.new.faults.last ≡ self.old.faults.last }
    {
        self.faults.count = 0;
        self.faults.lacking = 0;
        let work = self.server.admit(came)?;
        self.let_in = self.let_in.saturating_add(1);
        Some(work)
    }

    /// The pause after one more error for want of room.
    pub fn next_pause(&mut self) -> Duration
        ensures let_in { self.new.let_in ≡ self.old.let_in }
        ensures same { self.new.faults.count ≡ self.old.faults.count }
        ensures last { self.new.faults.last ≡ self.old.faults.last }
    {
        self.faults.lacking = self.faults.lacking.saturating_add(1);
        pause_after(self.faults.lacking)
    }

    /// No connection came, by this error, and that is a fault: the last of a hundred ends the server.
    pub fn add_fault(&mut self, error: AcceptError)
        ensures let_in { self.new.let_in ≡ self.old.let_in }
        ensures one_more { self.new.faults.count ≡ min 100 (self.old.faults.count + 1) }
        ensures last { self.new.faults.last ≡ error.number }
    {
        self.faults.count = MOST.min(self.faults.count.saturating_add(1));
        self.faults.last = error.number;
    }

    /// What the server did, of what `supply` gave it, once it has come to its end. The acceptor is dropped.
    pub fn into_served(self, supply: Supply) -> Served
        requires suffices { IsTrue (suffices supply) }
        ensures count { asked_count result ≡ V.count }
        ensures supply { given_supply result ≡ supply }
        ensures let_in { result.let_in ≡ self.entry.let_in }
        ensures kept { result.faults ≡ self.entry.faults }
    {
        let Door {
            server: _,
            acceptor,
            let_in,
            count,
            faults,
        } = self;
        drop(acceptor);
        let end = if is_reached(count, let_in) {
            ServeEnd::Count
        } else if faults.count == MOST {
            ServeEnd::AcceptFaults
        } else {
            ServeEnd::Exhausted
        };
        Served {
            end,
            let_in,
            faults,
            count,
            supply,
        }
    }
}

// Whether so many were to be let in.
fn is_reached(count: Option<u32>, let_in: u64) -> bool
    ensures { IsTrue result ↔ (count ≡ Some let_in) }
{
    match count {
        Some(count) => u64::from(count) == let_in,
        None => false,
    }
}
