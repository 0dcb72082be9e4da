//! A connection whose program runs.
ghost use Rattle.std.specs.Prelude.{◌≡◌, IfOk, IfErr, Some};
ghost use Rattle.child_jobs.specs.Runs.{job_of, place_of};
ghost use Rattle.rule_lookup.specs.declared.instr.Verdict.TheVariants.{Allow};
ghost use Rattle.server_events.specs.declared.event.Event.TheVariants as event;
ghost use Rattle.tcp_service.specs.Ends.{begun_decided, begun_last, noted_event, over_decided, over_end};
ghost use Rattle.tcp_service.specs.Greetings.{greeted_connection, greeted_identity};
ghost use Rattle.tcp_service.specs.Openings.{IsFoundFor};
ghost use Rattle.tcp_service.specs.Servings.{FailsToStart, IsChild, IsDecided, MayStart};

use crate::guest::Greeted;
use crate::host::Host;
use crate::judging::Judged;
use crate::server::Server;
use crate::telling::{Begun, Over};
use child_jobs::{Place, Running};

/// A connection whose program runs: the right to its end. One thread may give it to another.
pub struct Alive<H: Host> {
    pub(crate) serial: u64,
    pub(crate) running: Running<H::Places, H::Job>,
    // this field is private, so that only `run` makes one
    seal: (),
}

impl<H: Host> Alive<H> {
    /// Its serial number, and its program at its place.
    pub(crate) fn into_parts(self) -> (u64, Running<H::Places, H::Job>)
        ensures serial { result.0 ≡ self.serial }
        ensures running { result.1 ≡ self.running }
    {
        let Alive {
            serial,
            running,
            seal: (),
        } = self;
        (serial, running)
    }
}

impl<H: Host> Server<'_, H> {
    /// Starts the program of a connection that was allowed.
    ///
    /// # Errors
    /// It could not be started. The connection is over.
    pub(crate) fn run(
        &self,
        greeted: Greeted<'_, H::Connection>,
        place: Place<H::Places>,
        judged: Judged,
    ) -> Result<(Alive<H>, Begun), Over>
        requires may { MayStart (IsFoundFor H.Rules.Rules H.Folder.Dir self.now.context.rules.now H.Places.missing)
            H.File.honest H.File.sound (greeted_identity greeted) self.now.context.plan.now
            (H.Connection.may (greeted_connection greeted)) }
        requires allowed { IsDecided
            (IsFoundFor H.Rules.Rules H.Folder.Dir self.now.context.rules.now H.Places.missing)
            H.File.honest H.File.sound (greeted_identity greeted) self.now.context.plan.now
            (noted_event judged.noted) Allow judged.environment }
        ensures own { IfOk result (λ r. r.0.serial ≡ (greeted_identity greeted.entry).serial) }
        ensures place { IfOk result (λ r. place_of r.0.running ≡ place) }
        ensures told { IfOk result (λ r. begun_last r.1 ≡ event.Started (greeted_identity greeted.entry).serial) }
        ensures child { IfOk result (λ r. IsChild
            (IsFoundFor H.Rules.Rules H.Folder.Dir self.now.context.rules.now H.Places.missing)
            H.File.honest H.File.sound (greeted_identity greeted.entry) self.now.context.plan.now (begun_decided r.1)
            (H.Job.program (job_of r.0.running)) (H.Job.environment (job_of r.0.running))) }
        ensures over { IfErr result (λ over. over.serial ≡ (greeted_identity greeted.entry).serial) }
        ensures reason { IfErr result (λ over. FailsToStart
            (IsFoundFor H.Rules.Rules H.Folder.Dir self.now.context.rules.now H.Places.missing)
            H.File.honest H.File.sound (greeted_identity greeted.entry) self.now.context.plan.now
            (H.Connection.refuses (greeted_connection greeted.entry)) (noted_event judged.noted) (over_end over)) }
        ensures noted { IfErr result (λ over. over_decided over ≡ Some (noted_event judged.noted)) }
    {
        let Judged {
            noted,
            verdict: _,
            environment,
        } = judged;
        let (context, serial) = (&self.context, greeted.identity.serial);
        let program = context.plan.program();
        let started = greeted.start(context.alloc, place, program, &environment);
        drop(environment);
        match started {
            Ok(running) => {
                let begun = context.started(noted, serial, &running);
                let alive = Alive {
                    serial,
                    running,
                    seal: (),
                };
                Ok((alive, begun))
            }
            Err((place, refusal)) => Err(context.start_failed(noted, serial, place, refusal)),
        }
    }
}
