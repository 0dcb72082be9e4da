//! The rounds in which a child is waited for.
ghost use Rattle.std.specs.Prelude.{◌≡◌, IfOk, IfErr, OnErr, true};
ghost use Rattle.child_jobs.specs.Runs.{IsSameRun, job_of, place_of};
ghost use Rattle.tcp_connections.specs.Rounds.{AllFail, IsReady, OneEnds, RoundEnds, RoundFails, rounds};

use child_jobs::{Exit, Job, Place, Running, finish};
use std::sync::ledger::Ledger;

/// Waits for a child in up to three rounds. It is killed before the second and the third. Its place is given back with
/// how it ended, as the wait of the last round told.
///
/// # Errors
/// All three waits failed: the same child holds the same place.
pub fn wait_in_rounds<L: Ledger, C: Job>(
    running: Running<L, C>,
) -> Result<(Place<L>, Exit), Running<L, C>>
    ensures place { IfOk result (λ ended. ended.0 ≡ place_of running) }
    ensures told { IfOk result (λ ended.
        OneEnds C.killed C.refused_wait C.ended rounds (job_of running) ended.1.status) }
    ensures failed { OnErr result (AllFail C.killed C.refused_wait rounds (job_of running)) }
    ensures same { IfErr result (IsSameRun C.program C.environment running) }
{
    match wait_once(running, false) {
        Ok(ended) => Ok(ended),
        Err(running) => match wait_once(running, true) {
            Ok(ended) => Ok(ended),
            Err(running) => wait_once(running, true),
        },
    }
}

// Waits for a child, and under `by_force` kills it first. If the wait fails, the child is handed back.
fn wait_once<L: Ledger, C: Job>(
    running: Running<L, C>,
    by_force: bool,
) -> Result<(Place<L>, Exit), Running<L, C>>
    ensures place { IfOk result (λ ended. ended.0 ≡ place_of running) }
    ensures told { IfOk result (λ ended. RoundEnds C.killed C.ended by_force (job_of running) ended.1.status) }
    ensures failed { IfErr result (λ left. RoundFails C.killed C.refused_wait by_force (job_of running) (job_of left)) }
    ensures same { IfErr result (IsSameRun C.program C.environment running) }
{
    match finish(make_ready(running, by_force)) {
        Ok(ended) => Ok(ended),
        Err((running, _)) => Err(running),
    }
}

// Kills a child under `by_force`, and otherwise does nothing to it.
fn make_ready<L: Ledger, C: Job>(running: Running<L, C>, by_force: bool) -> Running<L, C>
    ensures ready { IsReady C.killed by_force (job_of running) (job_of result) }
    ensures same { IsSameRun C.program C.environment running result }
{
    let mut running = running;
    if by_force {
        let _ = running.kill();
    }
    running
}
