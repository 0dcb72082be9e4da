//! Children that do nothing, and end by themselves.
ghost use Rattle.std.specs.Prelude.{◌≡◌, ⊤, IfSome, true};
ghost use Rattle.child_jobs.specs.declared.outcome.Status.TheVariants.{Code};
ghost use Rattle.child_jobs.specs.Runs.{place_of};

use child_jobs::{
    Environment, Exit, Job, Launcher, NotStarted, Place, Program, Running, Status, WaitFault,
    finish, start,
};
use std::alloc::Global;
use std::snapshot::Snapshot;
use std::sync::ledger::Ledger;

/// A job that has ended as soon as it is waited for.
pub(crate) struct Idle {
    program: Snapshot<Program>,
    environment: Snapshot<Environment>,
}

impl Job for Idle {
    ghost program = { λ job. job.program.value };

    ghost environment = { λ job. job.environment.value };

    ghost killed = { λ _ _ _. ⊤ };

    ghost ended = { λ _ status. status ≡ Code 7 };

    ghost refused_wait = { λ _ _ _. ⊤ };

    fn kill(&mut self) -> Result<(), WaitFault> {
        Ok(())
    }

    fn wait(self) -> Result<Exit, (Idle, WaitFault)> {
        self.abandon();
        Ok(Exit {
            status: Status::Code(7),
            signal: None,
        })
    }

    fn abandon(self) {
        let Idle {
            program: _,
            environment: _,
        } = self;
    }
}

/// A launcher of such jobs.
#[derive(Drop)]
struct Starts;

impl Launcher for Starts {
    type Job = Idle;

    ghost may = { λ _ _ _. true };

    ghost refuses = { λ _ _ _ _. ⊥ };

    fn start(
        self,
        _alloc: Global,
        program: &Program,
        environment: &Environment,
    ) -> Result<Idle, NotStarted> {
        Ok(Idle {
            program: Snapshot::of(program),
            environment: Snapshot::of(environment),
        })
    }
}

/// Starts such a child at a place.
pub(crate) fn start_child<L: Ledger>(alloc: Global, place: Place<L>) -> Option<Running<L, Idle>>
    ensures { IfSome result (λ running. place_of running ≡ place) }
{
    let program = Program::new(String::new(alloc), Vec::new(alloc));
    let environment = Environment::new(alloc);
    let started = start(alloc, place, Starts, &program, &environment);
    drop(program);
    drop(environment);
    match started {
        Ok(running) => Some(running),
        Err((place, _)) => {
            place.strand();
            None
        }
    }
}

/// Waits until such a child has ended.
pub(crate) fn end_child<L: Ledger>(running: Running<L, Idle>) -> Option<(Place<L>, Status)> {
    match finish(running) {
        Ok((place, exit)) => Some((place, exit.status)),
        Err((running, _)) => {
            running.strand();
            None
        }
    }
}
