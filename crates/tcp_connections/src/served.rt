//! What a server did until its end.
ghost use Rattle.std.specs.Option.{ForSome};
ghost use Rattle.std.specs.Prelude.{◌≡◌, ◌≤◌, Some, false, IsTrue, pos};
ghost use Rattle.tcp_connections.specs.Admissions.{FailedToAccept, suffices};
ghost use Rattle.tcp_connections.specs.declared.served.ServeEnd.TheVariants.{AcceptFaults, Count};

use crate::supply::Supply;

/// How a server ended.
#[derive(Clone, Copy)]
pub enum ServeEnd {
    /// It let in as many connections as it was to serve.
    Count,
    /// A hundred faults of accepting came in succession, or there were too few descriptors for one connection.
    AcceptFaults,
    /// Nobody more can be served: all places are retired, or there was no memory or no thread for it.
    Exhausted,
}

/// The faults of accepting that came in succession, since the last connection or since the server began. An error for
/// want of room is no fault while a connection is served.
#[derive(Clone, Copy, Default)]
pub struct Faults {
    /// How many, up to a hundred.
    pub count: u32,
    // how many errors were for want of room, faults or not
    pub(crate) lacking: u32,
    /// The system's number of the last fault (`errno`), if it had one; or that for want of descriptors, if there were
    /// too few for one connection.
    pub last: Option<i32>,
}

/// What a server did until its end. Nobody is let in any more, and its threads have ended. It ended by faults of
/// accepting only if a hundred came since the last connection, or if there were too few descriptors for one. Only
/// `Workers::serve_through` gives one.
#[derive(Clone, Copy)]
pub struct Served {
    /// How it ended.
    pub end: ServeEnd,
    /// How many connections were let in.
    pub let_in: u64,
    /// The faults of accepting that came last.
    pub faults: Faults,
    // how many were to be let in, and what the system gave
    pub(crate) count: Option<u32>,
    pub(crate) supply: Supply,
    pub ghost by_count: { end ≡ Count → count ≡ Some let_in },
    pub ghost most: { ForSome count (λ most. let_in ≤ most) },
    pub ghost reached: { IsTrue (suffices supply) → count ≡ Some let_in → end ≡ Count },
    pub ghost by_faults: { end ≡ AcceptFaults → ∥ FailedToAccept (suffices supply) faults.count ∥₁ },
    pub ghost lacking: { suffices supply ≡ false → faults.last ≡ Some (pos 24) },
}

impl Served {
    ghost use Rattle.tcp_connections.specs.Ends.{asked_count, given_supply};

    /// A server with too few descriptors for one connection has let nobody in.
    pub(crate) fn without_descriptors(count: Option<u32>, supply: Supply) -> Served
        requires lacking { suffices supply ≡ false }
        ensures count { asked_count result ≡ count }
        ensures supply { given_supply result ≡ supply }
    {
        let faults = Faults {
            last: Some(libc::EMFILE),
            ..Faults::default()
        };
        Served {
            end: ServeEnd::AcceptFaults,
            let_in: 0,
            faults,
            count,
            supply,
        }
    }
}
