//! A child and its place, from start to end.
ghost use Rattle.std.specs.Prelude.{◌≡◌, ◌+◌, IfOk, IfErr, true, IsTrue};
ghost use Rattle.child_jobs.specs.PlacesOut.{is_used};
ghost use Rattle.child_jobs.specs.Runs.{IsSameRun, job_of, place_of};

use crate::launch::{Job, Launcher, Program, WaitFault};
use crate::{Environment, Exit, NotStarted, Place, PlaceTable};
use std::alloc::Global;
use std::sync::ledger::Ledger;

/// A child that runs, and the place that it holds.
///
/// As long as the child may be alive, its place is counted. The language lets nobody drop or copy it, since it lets
/// nobody drop or copy a place. `finish`, `strand` or `retire` spends it.
pub struct Running<L: Ledger, J: Job> {
    job: J,
    place: Place<L>,
}

impl<L: Ledger, J: Job> Running<L, J> {
    /// The place that the child holds.
    pub fn place(&self) -> &Place<L>
        ensures { result.now ≡ place_of self.now }
    {
        &self.place
    }

    /// The system's number of its process, if it is known.
    pub fn process(&self) -> Option<u32> {
        self.job.process()
    }

    /// Ends the child by force, and answers what `Job::kill` does. The child still has to be waited for.
    ///
    /// # Errors
    /// Those of `Job::kill`. The child is as before.
    pub fn kill(&mut self) -> Result<(), WaitFault>
        ensures told { J.killed (job_of self.old) (job_of self.new) result }
        ensures same { IsSameRun J.program J.environment self.old self.new }
    {
        self.job.kill()
    }
}

impl<L: Ledger, J: Job> Running<L, J> {
    /// Abandons the child and strands its place, which stays counted for good.
    pub fn strand(self) {
        self.give_up().strand();
    }

    /// Abandons the child and retires its place, which stays counted in its table for good. It takes no memory.
    pub fn retire(self, table: &mut PlaceTable<L>)
        requires { is_used table.old (place_of self) ≡ true }
        ensures { table.new ≡ record table.old { retired = table.old.retired + 1 } }
    {
        table.retire(self.give_up());
    }

    // Abandons the child, and hands out its place.
    fn give_up(self) -> Place<L>
        ensures { result ≡ place_of self }
    {
        let Running { job, place } = self;
        job.abandon();
        place
    }
}

/// Starts a program with these variables at a place. The launcher is spent by one try.
///
/// # Errors
/// The launcher's own, with the place handed back. Nothing runs then.
pub fn start<L: Ledger, S: Launcher>(
    alloc: Global,
    place: Place<L>,
    launcher: S,
    program: &Program,
    environment: &Environment,
) -> Result<Running<L, S::Job>, (Place<L>, NotStarted)>
    requires may { IsTrue (S.may launcher program.now environment.now) }
    ensures place { IfOk result (λ running. place_of running ≡ place) }
    ensures program { IfOk result (λ running. S.Job.program (job_of running) ≡ program.now) }
    ensures environment { IfOk result (λ running. S.Job.environment (job_of running) ≡ environment.now) }
    ensures back { IfErr result (λ refused. refused.0 ≡ place) }
    ensures refused { IfErr result (λ refused. S.refuses launcher program.now environment.now refused.1) }
{
    match launcher.start(alloc, program, environment) {
        Ok(job) => Ok(Running { job, place }),
        Err(refusal) => Err((place, refusal)),
    }
}

/// Waits until a child has ended, and gives its place back with how it ended, as its job tells.
///
/// # Errors
/// Those of `Job::wait`: the same child holds the same place, and may be waited for again.
pub fn finish<L: Ledger, J: Job>(
    running: Running<L, J>,
) -> Result<(Place<L>, Exit), (Running<L, J>, WaitFault)>
    ensures place { IfOk result (λ ended. ended.0 ≡ place_of running) }
    ensures told { IfOk result (λ ended. J.ended (job_of running) ended.1.status) }
    ensures refused { IfErr result (λ refused. J.refused_wait (job_of running) (job_of refused.0) refused.1) }
    ensures same { IfErr result (λ refused. IsSameRun J.program J.environment running refused.0) }
{
    let Running { job, place } = running;
    match job.wait() {
        Ok(exit) => Ok((place, exit)),
        Err((job, fault)) => Err((Running { job, place }, fault)),
    }
}
