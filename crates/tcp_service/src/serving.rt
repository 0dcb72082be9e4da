//! How a server's connections are let in and served: by the calls that `Workers` makes for each. A connection that was
//! let in, and one whose program runs, are values that can't be let go.
ghost use Rattle.std.specs.Prelude.{◌≡◌, IfErr, IfOk, IfSome, Some};
ghost use Rattle.child_jobs.specs.Runs.{job_of, place_of};
ghost use Rattle.rule_lookup.specs.declared.instr.Verdict.TheVariants.{Allow};
ghost use Rattle.tcp_connections.specs.Names.{client_at, local_at};
ghost use Rattle.tcp_service.specs.Accepting.{IsAccepted};
ghost use Rattle.tcp_service.specs.Ends.{over_decided, over_end};
ghost use Rattle.tcp_service.specs.Greetings.{RefusesGreeted, guest_connection, guest_identity};
ghost use Rattle.tcp_service.specs.Lives.{IsAdmitted, IsEndOfChild, retires};
ghost use Rattle.tcp_service.specs.Openings.{IsFoundFor};
ghost use Rattle.tcp_service.specs.Servings.{EndsFor, IsDecidedChild};

use crate::alive::Alive;
use crate::guest::{Guest, Identity};
use crate::host::{Host, ServiceGround};
use crate::judging::Judged;
use crate::server::{Context, Server};
use crate::telling::Over;
use child_jobs::{Local, Place};
use rule_lookup::{Peer, Verdict};
use server_log::{Reported, Told};
use std::alloc::Global;
use std::snapshot::Snapshot;
use tcp_connections::{Accepted, HostNames, Serving, wait_in_rounds};

/// A connection that was let in and whose program was not started yet: the right to what comes next. It is made of what
/// its admission gave: that was made for its serial number and its client (`own`).
pub struct Admitted<H: Host> {
    pub(crate) guest: Guest<H::Connection>,
    pub(crate) place: Place<H::Places>,
    pub(crate) admitted: Snapshot<Reported>,
    pub(crate) ghost own: { ∥ IsAdmitted (guest_identity guest).serial (guest_identity guest).peer admitted.value ∥₁ },
}

impl<H> Serving for Server<'_, H>
where
    H: Host,
    H::Places: Send + Sync,
    H::Connection: Send,
    H::Job: Send,
{
    type Came = Accepted<H::Connection>;

    type Work = Admitted<H>;

    type Alive = Alive<H>;

    type Over = Over;

    ghost is_its = { λ server came admitted.
        IsAccepted server.context.names.now admitted.guest came };

    ghost most = { H.Places.parts };

    ghost count = { H.Places.admissions };

    /// A connection gets the names of its ends, and is let in by its yard.
    fn admit(&self, came: Accepted<H::Connection>) -> Option<Admitted<H>> {
        let context = &self.context;
        let Some((peer, local)) = ends_of(context.alloc, context.names, &came) else {
            drop(came);
            let _ = context.shared.lock(context.rt).log.out_of_memory();
            return None;
        };
        let Some((serial, place, admitted)) = admit(context, &peer) else {
            drop(came);
            drop(peer);
            drop(local);
            return None;
        };
        let identity = Identity {
            serial,
            peer,
            local,
        };
        Some(Admitted {
            guest: Guest::new(identity, came.connection),
            place,
            admitted: Snapshot::of(&admitted),
        })
    }

    /// A connection is served up to the start of its program (UCSPI-1996; the page of `tcpserver`). Its client is sent
    /// the plan's banner, then the rules are opened for it and it is decided. If it is allowed, the plan's program is
    /// started with the variables of that decision.
    ///
    /// # Errors
    /// It is over, and its place is given back. It was given up undecided, since the banner could not be sent, or the
    /// rules not be opened or read, or they are damaged, or there was no memory; or it was denied; or it was allowed,
    /// and its program could not be started.
    #[tactic(auto, using(crate::proofs::Served::ends_given_up, crate::proofs::Served::ends_denied, crate::proofs::Served::ends_refused, crate::proofs::Served::with_banner, crate::proofs::Served::undecided))]
    fn begin(&self, admitted: Admitted<H>) -> Result<Alive<H>, Over>
        ensures own { IfOk result (λ alive. alive.serial ≡ (guest_identity admitted.guest).serial) }
        ensures place { IfOk result (λ alive. place_of alive.running ≡ admitted.place) }
        // the decided program, with the decided environment
        ensures child { IfOk result (λ alive. IsDecidedChild
            (IsFoundFor H.Rules.Rules H.Folder.Dir self.now.context.rules.now H.Places.missing)
            H.File.honest H.File.sound (guest_identity admitted.guest) self.now.context.plan.now
            (H.Job.program (job_of alive.running)) (H.Job.environment (job_of alive.running))) }
        ensures over { IfErr result (λ over. over.serial ≡ (guest_identity admitted.guest).serial) }
        ensures reason { IfErr result (λ over. EndsFor
            (IsFoundFor H.Rules.Rules H.Folder.Dir self.now.context.rules.now H.Places.missing)
            H.File.honest H.File.sound (guest_identity admitted.guest) self.now.context.plan.now
            (RefusesGreeted H.Connection.contents self.now.context.plan.now.banner
            H.Connection.refuses (guest_connection admitted.guest)) (over_decided over) (over_end over)) }
    {
        let Admitted {
            guest,
            place,
            admitted: _,
        } = admitted;
        let (context, serial) = (&self.context, guest.identity.serial);
        let greeted = match guest.greet(context.plan.banner()) {
            Ok(greeted) => greeted,
            Err(cut) => {
                let over = context.cut_short(&cut, place);
                drop(cut);
                return Err(over);
            }
        };
        let judged = match context.decide(&greeted) {
            Ok(judged) => judged,
            Err(up) => {
                let over = context.dropped(&greeted, place, up);
                drop(greeted);
                return Err(over);
            }
        };
        match judged.verdict {
            Verdict::Deny => {
                let Judged {
                    noted,
                    verdict: _,
                    environment,
                } = judged;
                drop(environment);
                let over = context.denied(noted, serial, place);
                drop(greeted);
                Err(over)
            }
            Verdict::Allow => {
                let (alive, begun) = self.run(greeted, place, judged)?;
                drop(begun);
                Ok(alive)
            }
        }
    }

    /// The program of a connection is waited for in rounds, and its end is told.
    #[tactic(auto, using(crate::proofs::Served::end_told))]
    fn finish(&self, alive: Alive<H>) -> Over
        ensures own { result.serial ≡ alive.serial }
        ensures ended { IsEndOfChild H.Job.killed H.Job.refused_wait H.Job.ended (job_of alive.running)
            (over_end result) alive.serial }
    {
        let (serial, running) = alive.into_parts();
        self.context.ended(serial, wait_in_rounds(running))
    }

    fn is_retired(&self, over: &Over) -> bool
        ensures { result ≡ retires (over_end over.now) }
    {
        over.is_retired
    }
}

// The two ends of a connection that came, with their names, if there is memory for them.
fn ends_of<X>(alloc: Global, names: &HostNames, came: &Accepted<X>) -> Option<(Peer, Local)>
    ensures client { IfSome result (λ ends. ends.0 ≡ client_at names.now came.now.ip came.now.port) }
    ensures end { IfSome result (λ ends. ends.1 ≡ local_at names.now came.now.local.ip came.now.local.port) }
{
    let peer = names.peer(alloc, came.ip, came.port).ok()?;
    let local = names.local(alloc, came.local.ip(), came.local.port()).ok()?;
    Some((peer, local))
}

// Of a connection that was let in: its serial, its place, and the report of its admission.
type Admission<L> = (u64, Place<L>, Reported);

// Lets a connection in: it gets a serial and a place. The log is told of it, or why it was refused, if that has a line.
fn admit<G: ServiceGround>(context: &Context<'_, G>, peer: &Peer) -> Option<Admission<G::Places>>
    ensures own { IfSome result (λ r. IsAdmitted r.0 peer.now r.2) }
{
    let mut shared = context.shared.lock(context.rt);
    match shared.yard.admit(peer) {
        Ok((serial, place, made)) => {
            let ip = peer.ip();
            let admitted = shared.report(Ok(made), Told::Admitted { serial, ip });
            drop(shared);
            Some((serial, place, admitted))
        }
        Err(fault) => {
            let _ = shared.log.refused(peer.ip(), fault);
            drop(shared);
            None
        }
    }
}
