//! The report of a list of events.
ghost use Rattle.std.specs.Prelude.{◌≡◌, IfOk, IfErr, OnOk, true};
ghost use Rattle.server_events.specs.ServerState.{start, is_legal};
ghost use Rattle.server_events.specs.Reports.{report_of, RefusesReplay};
ghost use Rattle.server_events.specs.declared.report.ReplayFault.TheVariants.{OutOfMemory};

use crate::event::Event;
use crate::state::State;
use std::alloc::{AllocError, Global};

/// The report of a list of events: how many connections were let in, are alive, and ever were.
#[derive(Clone, Copy, PartialEq, Eq)]
pub struct Report {
    /// How many connections were let in.
    pub admitted: u64,
    /// How many are alive at the end, retired ones too.
    pub live: u64,
    /// How many of these are retired.
    pub retired: u64,
    /// The most that were ever alive at once.
    pub most: u64,
}

/// Why a list of events has no report.
#[derive(Clone, Copy)]
pub enum ReplayFault {
    /// The event at this position, counted from 1, is the first that may not happen there.
    IllegalEvent(u64),
    /// There was no memory to go through the list.
    OutOfMemory,
}

impl From<AllocError> for ReplayFault {
    ghost from_gives = { λ _ e. e ≡ OutOfMemory };

    fn from(_error: AllocError) -> ReplayFault {
        ReplayFault::OutOfMemory
    }
}

/// The report of a list of events. At most `limit` connections are alive at once, and at most `per_address` of them
/// from one address, retired ones included.
///
/// # Errors
/// `IllegalEvent` with the position, from 1, of the first event that may not happen there. `OutOfMemory` only at an
/// admission, if no event up to it is illegal: no other event takes memory.
pub fn replay(
    alloc: Global,
    limit: u64,
    per_address: u64,
    events: &[Event],
) -> Result<Report, ReplayFault>
    ensures legal { OnOk result (is_legal (start limit per_address) events.now ≡ true) }
    ensures report { IfOk result (λ report. report ≡ report_of events.now) }
    ensures refused { IfErr result (RefusesReplay (start limit per_address) events.now) }
{
    let mut state = State::new(alloc, limit, per_address);
    let mut most = 0;
    let mut taken = 0;
    for event in events {
        taken += 1;
        if !state.may_happen(event) {
            return Err(ReplayFault::IllegalEvent(taken));
        }
        state.apply(event)?;
        most = state.live().max(most);
    }
    Ok(Report {
        admitted: state.last(),
        live: state.live(),
        retired: state.retired(),
        most,
    })
}
