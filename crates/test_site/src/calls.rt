//! Calls of a site that have to succeed. A caller keeps the receipt of each. Where one does not succeed, that is noted:
//! the whole run is wrong then, and a place that is held may be stranded.
ghost use Rattle.std.specs.Prelude.{◌≡◌, IfSome, Some};
ghost use Rattle.server_yard.specs.Passes.{IsDecidedBy};
ghost use Rattle.server_yard.specs.Seating.{leaver};

use crate::children::{end_child, start_child};
use crate::copies::copy_of;
use crate::receipts::Receipts;
use child_jobs::{DropCause, Place};
use dir_calls::{Dir, RulesFile};
use rule_lookup::{Decision, Peer, Verdict, WhenMissing, decide};
use rules_install::Install;
use server_events::Event;
use server_yard::{AdmitFault, Pass, Places};
use std::alloc::Global;
use std::sync::Wait;
use std::thread;
use std::time::{Clock, Duration};
use whole_yard::connection_turns::{Admit, Decided, Left, Started};
use whole_yard::{
    Assumptions, Caller, Callers, InstallBegin, InstallStep, OfConnection, Open, WholeSite,
};

/// More steps than an installation of a short text takes.
const STEPS: u64 = 64;

/// How many milliseconds a caller waits for room.
const PATIENCE: u64 = 60_000;

/// A caller at work, with the receipts of its events.
#[derive(Drop)]
pub(crate) struct Worker<N: Callers> {
    pub(crate) caller: Caller<N>,
    pub(crate) receipts: Receipts,
}

/// A site, and what calls of it need beside.
#[derive(Drop)]
pub(crate) struct At<'a, L: Assumptions, N: Callers, D: Dir + Drop, R> {
    pub(crate) rt: &'a R,
    pub(crate) alloc: Global,
    pub(crate) site: &'a WholeSite<L, N, D>,
    /// What is decided where no rules file stands.
    pub(crate) missing: WhenMissing,
    pub(crate) ghost told: { missing ≡ L.missing },
}

impl<L: Assumptions, N: Callers, D: Dir + Drop, R: Wait + Clock> At<'_, L, N, D, R> {
    /// Serves a connection from its admission to its end.
    pub(crate) fn serve(&self, worker: &mut Worker<N>, peer: &Peer) {
        let Some((serial, place)) = self.let_in(worker, peer) else {
            return worker.receipts.fail();
        };
        match self.decided(worker, serial, peer) {
            Some(Verdict::Allow) => self.run_child(worker, serial, place),
            Some(Verdict::Deny) => {
                let denied = || Event::Dropped {
                    serial,
                    cause: DropCause::Denied,
                };
                self.leave(worker, serial, place, denied(), denied());
            }
            None => place.strand(),
        }
    }

    /// Lets a connection in once there is room for it.
    fn let_in(&self, worker: &mut Worker<N>, peer: &Peer) -> Option<(u64, Place<L>)> {
        for _ in 0..PATIENCE {
            match self
                .site
                .turn(self.rt, &mut worker.caller, OfConnection(Admit { peer }))
            {
                Ok((serial, place, made)) => {
                    worker.receipts.keep_admitted(made, serial, peer);
                    return Some((serial, place));
                }
                Err(fault) => {
                    if !matches!(fault, AdmitFault::Full) {
                        return None;
                    }
                    thread::sleep(self.rt, Duration::from_millis(1));
                }
            }
        }
        None
    }

    /// Opens the rules for a connection, and answers how they decide it.
    fn decided(&self, worker: &mut Worker<N>, serial: u64, peer: &Peer) -> Option<Verdict> {
        let open = Open {
            alloc: self.alloc,
            serial,
        };
        match self.site.turn(self.rt, &mut worker.caller, open) {
            Ok((pass, made)) => {
                let there = pass.source().is_some();
                worker.receipts.keep(made, Event::Opened { serial, there });
                self.decided_by(worker, pass, peer)
            }
            Err(_) => {
                worker.receipts.fail();
                None
            }
        }
    }

    /// Decides a connection by its pass.
    fn decided_by(
        &self,
        worker: &mut Worker<N>,
        pass: Pass<L, D::File>,
        peer: &Peer,
    ) -> Option<Verdict> {
        let serial = pass.serial();
        let Some(decision) = decide_by(self.alloc, &pass, self.missing, peer) else {
            drop(pass);
            worker.receipts.fail();
            return None;
        };
        let verdict = decision.verdict;
        let kept = copy_of(self.alloc, &decision);
        let turn = Decided {
            pass,
            peer,
            decision,
        };
        let answer = self
            .site
            .turn(self.rt, &mut worker.caller, OfConnection(turn));
        worker.receipts.keep_decided(answer, serial, kept);
        Some(verdict)
    }

    /// Runs a child of a connection that was allowed, from its start to its end.
    fn run_child(&self, worker: &mut Worker<N>, serial: u64, place: Place<L>) {
        let Some(running) = start_child(self.alloc, place) else {
            return worker.receipts.fail();
        };
        let started = Started {
            serial,
            running: &running,
        };
        let answer = self
            .site
            .turn(self.rt, &mut worker.caller, OfConnection(started));
        worker.receipts.keep_made(answer, Event::Started { serial });
        match end_child(running) {
            Some((place, status)) => {
                let ended = || Event::Ended { serial, status };
                self.leave(worker, serial, place, ended(), ended());
            }
            None => worker.receipts.fail(),
        }
    }

    /// Notes that a connection has gone by this event. The same event is its receipt's.
    fn leave(&self, worker: &mut Worker<N>, serial: u64, place: Place<L>, event: Event, same: Event)
        requires goes { leaver event ≡ Some serial }
        requires same { same ≡ event }
    {
        let left = Left {
            serial,
            place,
            event,
        };
        let answer = self
            .site
            .turn(self.rt, &mut worker.caller, OfConnection(left));
        worker.receipts.keep_made(answer, same);
    }

    /// Steps an installation until it is done, or another one has taken its place.
    pub(crate) fn install(&self, worker: &mut Worker<N>, install: Install) {
        let begin = InstallBegin {
            alloc: self.alloc,
            install,
        };
        let (begun, made) = self.site.turn(self.rt, &mut worker.caller, begin);
        if let Some(number) = worker.receipts.keep_begun(begun, made) {
            self.install_on(worker, number);
        }
    }

    /// Makes the steps of an installation that has begun.
    fn install_on(&self, worker: &mut Worker<N>, number: u64) {
        for _ in 0..STEPS {
            let step = InstallStep {
                alloc: self.alloc,
                number,
            };
            let (stepped, made) = self.site.turn(self.rt, &mut worker.caller, step);
            if !worker.receipts.keep_stepped(stepped, made) {
                return;
            }
        }
        worker.receipts.fail();
    }
}

/// The decision for a peer by the file that a pass has.
fn decide_by<L: Places, F: RulesFile + Drop>(
    alloc: Global,
    pass: &Pass<L, F>,
    missing: WhenMissing,
    peer: &Peer,
) -> Option<Decision>
    requires { missing ≡ L.missing }
    ensures { IfSome result (IsDecidedBy L.missing F.honest F.sound F.bytes pass.now peer.now) }
{
    decide(alloc, pass.source(), missing, peer).ok()
}
