//! What is told of a connection. Each of its events is made in a yard that all share. Before the yard's lock is let go
//! the log is told of it, so that its lines stand in the order of events; only an opening has no lines. What the yard
//! answered goes on with the connection, and in the end says that it is over.
ghost use Rattle.std.specs.Prelude.{◌≡◌, ◌≢◌, IfOk, IfSome, List, None, OnErr, Some, is_ok, true};
ghost use Rattle.child_jobs.specs.declared.outcome.DropCause.TheVariants.{Banner, Denied};
ghost use Rattle.server_events.specs.declared.event.Event.TheVariants as event;
ghost use Rattle.server_events.specs.declared.state.Connection.{Connection};
ghost use Rattle.server_log.specs.Reports.{Tells, TellsItsClient, reported_answer, reported_event};
ghost use Rattle.server_yard.specs.Passes.{pass_serial};
ghost use Rattle.server_yard.specs.Seating.{leaver};
ghost use Rattle.tcp_service.specs.Lives.{IsEndOf, retires};
ghost use Rattle.tcp_service.specs.Openings.{Decides, opening_of};

use crate::guest::{CutShort, Greeted, Identity};
use crate::host::{Rules, ServiceGround};
use crate::reasons::{GivenUp, Reason, cause_of_absence, cause_of_damage, words_of};
use crate::server::Context;
use child_jobs::{DropCause, Exit, Job, NotStarted, Place, Running};
use rule_lookup::Decision;
use server_events::Event;
use server_log::{Cause, Reported, Told};
use server_yard::Pass;
use std::snapshot::Snapshot;

/// The evidence that a connection's decision was noted. The language lets nobody drop it: what becomes of the
/// connection spends it.
pub(crate) struct Noted {
    decision: Reported,
    ghost made: { is_ok (reported_answer decision) ≡ true },
}

/// What was told of a connection whose program runs: its decision, which was noted, and its start. Only `started` makes
/// one.
#[derive(Drop)]
pub(crate) struct Begun {
    decided: Snapshot<Reported>,
    last: Snapshot<Reported>,
}

/// That a connection is over: its yard was asked for its end. Only that makes one.
pub struct Over {
    serial: u64,
    /// Whether its place is never free again.
    pub(crate) is_retired: bool,
    // the event that notes its decision, if it ended by that
    decided: Option<Snapshot<Reported>>,
    // what its yard answered last
    last: Snapshot<Reported>,
    ghost end: { ∥ IsEndOf (reported_event last.value) serial ∥₁ },
    ghost retired: { is_retired ≡ retires (reported_event last.value) },
}

// Written out, the drop of all that it has is proved here alone.
impl Drop for Over {
    fn drop(self) {
        let Over {
            serial: _,
            is_retired: _,
            decided,
            last,
        } = self;
        drop(decided);
        drop(last);
    }
}

impl Over {
    ghost use Rattle.tcp_service.specs.Ends.{over_end};

    // Evidence that the connection with this serial number is over, by what its yard answered last.
    fn of(
        serial: u64,
        is_retired: bool,
        decided: Option<Snapshot<Reported>>,
        last: Reported,
    ) -> Over
        requires end { IsEndOf (reported_event last) serial }
        requires retired { is_retired ≡ retires (reported_event last) }
        ensures own { result.serial ≡ serial }
        ensures decided { result.decided ≡ decided }
        ensures end { over_end result ≡ reported_event last }
    {
        Over {
            serial,
            is_retired,
            decided,
            last: Snapshot::of(&last),
        }
    }
}

impl<G: ServiceGround> Context<'_, G> {
    ghost use Rattle.tcp_service.specs.Ends.{begun_decided, begun_last, noted_event, over_decided, over_end};
    ghost use Rattle.tcp_service.specs.Greetings.{cut_identity, cut_with, greeted_identity, greeted_with};

    /// The connection that opened this was decided so. `None` if it may not be decided now.
    #[tactic(auto, using(crate::proofs::Asked::asked_for, crate::proofs::Asked::told_as, crate::proofs::Asked::just_made, crate::proofs::Asked::its_client))]
    pub(crate) fn decided(
        &self,
        pass: &Pass<G::Places, G::File>,
        identity: &Identity,
        decision: Decision,
    ) -> Option<Noted>
        requires decides { Decides
            G.File.honest G.File.sound (opening_of G.File.bytes G.Places.missing pass.now) identity.now.peer decision }
        ensures noted { IfSome result (λ noted. noted_event noted ≡ event.Decided (pass_serial pass.now) decision) }
    {
        let peer = &identity.peer;
        let told = Told::Decided {
            serial: pass.serial(),
            verdict: decision.verdict,
            local: &identity.local,
            peer,
            file: cause_of_absence(self.rules.path(), &decision),
        };
        let mut shared = self.shared.lock(self.rt);
        let answer = shared.yard.decided(pass, peer, decision);
        let decision = shared.report(answer, told);
        drop(shared);
        if decision.was_made() {
            Some(Noted { decision })
        } else {
            drop(decision);
            None
        }
    }

    /// The program of the connection with this serial number runs.
    #[tactic(auto, using(crate::proofs::Asked::asked_for, crate::proofs::Asked::told_as, crate::proofs::Asked::just_made))]
    pub(crate) fn started<C: Job>(
        &self,
        noted: Noted,
        serial: u64,
        running: &Running<G::Places, C>,
    ) -> Begun
        ensures decided { begun_decided result ≡ noted_event noted }
        ensures asked { begun_last result ≡ event.Started serial }
    {
        let Noted { decision } = noted;
        let process = running.process();
        let mut shared = self.shared.lock(self.rt);
        let answer = shared.yard.started(serial, running);
        let last = shared.report(answer, Told::Started { serial, process });
        drop(shared);
        Begun {
            decided: Snapshot::of(&decision),
            last: Snapshot::of(&last),
        }
    }

    /// Its program was not started, for this reason. Its place is given back.
    pub(crate) fn start_failed(
        &self,
        noted: Noted,
        serial: u64,
        place: Place<G::Places>,
        refusal: NotStarted,
    ) -> Over
        ensures own { result.serial ≡ serial }
        ensures decided { over_decided result ≡ Some (noted_event noted) }
        ensures end { over_end result ≡ event.StartFailed serial refusal.fault }
    {
        let Noted { decision } = noted;
        let NotStarted { fault, error } = refusal;
        let why = words_of(self.alloc, error);
        let program = self.plan.program().path().as_bytes();
        let cause = why.as_ref().map(|why| Cause::new(program, why.as_str()));
        let told = Told::StartFailed {
            serial,
            fault,
            cause,
        };
        let event = Event::StartFailed { serial, fault };
        let last = self.gone(serial, place, event, told);
        drop(why);
        Over::of(serial, false, Some(Snapshot::of(&decision)), last)
    }

    /// A connection was denied. Its place is given back.
    pub(crate) fn denied(&self, noted: Noted, serial: u64, place: Place<G::Places>) -> Over
        ensures own { result.serial ≡ serial }
        ensures decided { over_decided result ≡ Some (noted_event noted) }
        ensures end { over_end result ≡ event.Dropped serial Denied }
    {
        let Noted { decision } = noted;
        let last = self.give_up(serial, place, DropCause::Denied, None);
        Over::of(serial, false, Some(Snapshot::of(&decision)), last)
    }

    /// A connection is given up, since its client could not be sent the whole banner. Its place is given back.
    pub(crate) fn cut_short<X>(&self, cut: &CutShort<'_, X>, place: Place<G::Places>) -> Over
        requires banner { cut_with cut.now ≡ self.now.plan.now.banner }
        ensures own { result.serial ≡ (cut_identity cut.now).serial }
        ensures decided { over_decided result ≡ None }
        ensures end { over_end result ≡ event.Dropped (cut_identity cut.now).serial Banner }
    {
        let serial = cut.identity.serial;
        let last = self.give_up(serial, place, DropCause::Banner, None);
        Over::of(serial, false, None, last)
    }

    /// A connection is given up undecided, after its client was greeted. Its place is given back.
    pub(crate) fn dropped<X>(
        &self,
        greeted: &Greeted<'_, X>,
        place: Place<G::Places>,
        up: GivenUp,
    ) -> Over
        requires greeted { greeted_with greeted.now ≡ self.now.plan.now.banner }
        requires undecided { (up.cause ≢ Denied) × (up.cause ≢ Banner) }
        ensures own { result.serial ≡ (greeted_identity greeted.now).serial }
        ensures decided { over_decided result ≡ None }
        ensures end { over_end result ≡ event.Dropped (greeted_identity greeted.now).serial up.cause }
    {
        let GivenUp { cause, reason } = up;
        let serial = greeted.identity.serial;
        let last = self.give_up(serial, place, cause, reason);
        Over::of(serial, false, None, last)
    }

    // It leaves before its program was started, for this cause.
    fn give_up(
        &self,
        serial: u64,
        place: Place<G::Places>,
        cause: DropCause,
        reason: Option<Reason>,
    ) -> Reported
        ensures asked { reported_event result ≡ event.Dropped serial cause }
    {
        let path = self.rules.path();
        let why = reason.as_ref().map(|reason| reason.cause(path));
        let file = cause_of_damage(path, cause);
        let told = Told::Dropped {
            serial,
            cause,
            file,
            why,
        };
        let event = Event::Dropped { serial, cause };
        let last = self.gone(serial, place, event, told);
        drop(reason);
        last
    }

    // It has gone by this event, and its place is given back.
    #[tactic(auto, using(crate::proofs::Asked::asked_for, crate::proofs::Asked::told_as, crate::proofs::Asked::just_made))]
    fn gone(&self, serial: u64, place: Place<G::Places>, event: Event, told: Told<'_>) -> Reported
        requires goes { leaver event ≡ Some serial }
        requires its { Tells told event }
        requires client { (connections : List Connection) → TellsItsClient told connections }
        ensures asked { reported_event result ≡ event }
    {
        let mut shared = self.shared.lock(self.rt);
        let answer = shared.yard.left(serial, place, event);
        let reported = shared.report(answer, told);
        drop(shared);
        reported
    }

    /// Its program ended so, and its place is given back; or the program could not be waited for.
    #[tactic(auto, using(crate::proofs::Asked::asked_for, crate::proofs::Asked::told_as, crate::proofs::Asked::just_made))]
    pub(crate) fn ended<C: Job>(
        &self,
        serial: u64,
        ended: Result<(Place<G::Places>, Exit), Running<G::Places, C>>,
    ) -> Over
        ensures own { result.serial ≡ serial }
        ensures ended { IfOk ended (λ end. over_end result ≡ event.Ended serial end.1.status) }
        ensures retired { OnErr ended (over_end result ≡ event.Retired serial) }
    {
        match ended {
            Ok((place, exit)) => {
                let Exit { status, signal } = exit;
                let event = Event::Ended { serial, status };
                let told = Told::Ended {
                    serial,
                    status,
                    signal,
                };
                let last = self.gone(serial, place, event, told);
                Over::of(serial, false, None, last)
            }
            Err(running) => {
                let mut shared = self.shared.lock(self.rt);
                let answer = shared.yard.retired(serial, running);
                let last = shared.report(answer, Told::Retired { serial });
                drop(shared);
                Over::of(serial, true, None, last)
            }
        }
    }
}
