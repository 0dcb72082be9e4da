//! Eight callers in threads of their own, who share four places.
ghost use Rattle.std.specs.Prelude.{◌≡◌, true, false};
ghost use Rattle.rule_lookup.specs.declared.decision.WhenMissing.TheVariants.{Deny};
ghost use Rattle.whole_yard.specs.Callers.{new_count};

use crate::calls::{At, Worker};
use crate::receipts::Receipts;
use crate::sites::{close, new_site};
use dir_calls::{Dir, Name};
use memory_dirs::MemDir;
use rule_lines::Limits;
use rule_lookup::{Peer, WhenMissing};
use rules_install::whole::prepare;
use rules_install::{FileNames, Install};
use server_events::Report;
use std::alloc::{AllocError, Global};
use std::marker::Brand;
use std::sync::Wait;
use std::sync::ledger::{Blank, Share};
use std::thread;
use std::thread::Threads;
use std::time::Clock;
use whole_yard::{Assumptions, BackCallers, Caller, Callers, NewCallers};

const CALLERS: u64 = 8;

const LIMIT: u64 = 4;

/// How many connections a caller has.
const CONNECTIONS: u64 = 1_250;

/// After how many of its connections a caller installs rules.
const BETWEEN: u64 = 100;

/// What callers do in threads of their own.
trait Work<C, W> {
    /// The whole work of a caller.
    fn work(&self, caller: C) -> W;
}

impl<L, N, D, R> Work<Caller<N>, Worker<N>> for At<'_, L, N, D, R>
where
    L: Assumptions,
    N: Callers,
    D: Dir + Drop,
    R: Wait + Clock,
{
    fn work(&self, caller: Caller<N>) -> Worker<N> {
        let peer = peer_for(self.alloc, caller.number());
        let mut worker = Worker {
            caller,
            receipts: Receipts::new(self.alloc),
        };
        match peer {
            Some(peer) => {
                serve_all(self, &mut worker, &peer);
                drop(peer);
            }
            None => worker.receipts.fail(),
        }
        worker
    }
}

// Makes all connections and installations of a caller, up to a call that does not succeed.
fn serve_all<L: Assumptions, N: Callers, D: Dir + Drop, R: Wait + Clock>(
    at: &At<'_, L, N, D, R>,
    worker: &mut Worker<N>,
    peer: &Peer,
) {
    for k in 0..CONNECTIONS {
        if k % BETWEEN == 0 {
            match installation(at.alloc, k % (2 * BETWEEN) == 0) {
                Some(install) => at.install(worker, install),
                None => worker.receipts.fail(),
            }
        }
        if worker.receipts.has_failed {
            return;
        }
        at.serve(worker, peer);
    }
}

// A peer for the caller with this number: 1.1.1.1 for the first one, and so on.
fn peer_for(alloc: Global, number: u64) -> Option<Peer> {
    let n = u8::try_from(number).ok()?;
    Peer::new(alloc, [n, n, n, n], 4000, None, None).ok()
}

// An installation of a text as `rules`, before its first step. The text allows all clients, or denies all.
fn installation(alloc: Global, allows: bool) -> Option<Install> {
    let text: &[u8] = if allows { b":allow\n" } else { b":deny\n" };
    let (rules, scratch) = (name(alloc, b"rules")?, name(alloc, b"tmp")?);
    let names = FileNames::new(rules, scratch).ok()?;
    prepare(alloc, names, &Limits::profile(), text).ok()
}

// A name of a file.
fn name(alloc: Global, bytes: &[u8]) -> Option<Name> {
    Name::new(alloc, bytes).ok()
}

// Takes eight callers.
fn take_eight<N: Callers>(
    alloc: Global,
    new: &mut NewCallers<N>,
) -> Result<Vec<Caller<N>>, AllocError>
    requires eight { new_count new.old ≡ CALLERS }
{
    let mut callers = Vec::new(alloc);
    for _ in 0..CALLERS {
        callers.push(new.take())?;
    }
    Ok(callers)
}

// Runs eight callers in threads until all have ended.
fn run_eight<N: Callers + Send, W: Work<Caller<N>, Worker<N>> + Sync, R: Threads + Sync>(
    rt: &R,
    alloc: Global,
    work: &W,
    new: &mut NewCallers<N>,
) -> Result<Vec<Worker<N>>, AllocError>
    requires eight { new_count new.old ≡ CALLERS }
{
    let callers = take_eight(alloc, new)?;
    thread::map_vec(rt, callers, &|caller| work.work(caller))
}

// Gathers the callers that are back from their threads, and all their receipts.
fn gather<N: Callers>(
    alloc: Global,
    none: Share<N>,
    workers: Result<Vec<Worker<N>>, AllocError>,
) -> (BackCallers<N>, Receipts)
    requires none { none.parts ≡ 0 }
    ensures all { result.0.all ≡ CALLERS }
{
    let (mut share, mut lacking) = (none, CALLERS);
    let mut receipts = Receipts::new(alloc);
    match workers {
        Ok(workers) => {
            for worker in workers {
                let Worker {
                    caller,
                    receipts: its,
                } = worker;
                if lacking > 0 {
                    share.merge(caller.share);
                    lacking -= 1;
                } else {
                    drop(caller);
                }
                receipts.append(its);
            }
        }
        Err(_) => receipts.fail(),
    }
    let back = BackCallers {
        all: CALLERS,
        lacking,
        share,
    };
    (back, receipts)
}

// Has eight callers do their work. It answers with those that are back then, and all receipts.
fn run_all<N: Callers + Send, W: Work<Caller<N>, Worker<N>> + Sync, R: Threads + Sync>(
    rt: &R,
    alloc: Global,
    work: &W,
    mut new: NewCallers<N>,
) -> (BackCallers<N>, Receipts)
    requires eight { new_count new ≡ CALLERS }
    ensures all { result.0.all ≡ CALLERS }
{
    let workers = run_eight(rt, alloc, work, &mut new);
    gather(alloc, new.nobody(), workers)
}

// Runs eight callers of one site over a directory in memory.
fn eight<
    L: Assumptions + Send + Sync,
    N: Callers + Send + Sync,
    R: Threads + Wait + Clock + Sync + AllocGlobal,
>(rt: &R, places: Blank, parts: Blank) -> Option<Report>
    requires places { (places.name ≡ L.name) × (places.parts ≡ L.parts) × (places.parts ≡ LIMIT) }
    requires met { L.met ≡ false }
    requires installs { L.installs ≡ true }
    requires missing { L.missing ≡ Deny }
    requires parts { (parts.name ≡ N.name) × (parts.parts ≡ N.parts) × (parts.parts ≡ CALLERS) }
    requires callers { N.before ≡ 0 }
{
    let alloc = rt.alloc();
    let rules = Some((name(alloc, b"rules")?, WhenMissing::Deny));
    let dir = MemDir::new(alloc);
    let (site, new) = new_site::<L, N, MemDir>(alloc, places, parts, dir, rules, LIMIT, CALLERS)?;
    let at = At {
        rt,
        alloc,
        site: &site,
        missing: WhenMissing::Deny,
    };
    let (callers, receipts) = run_all(rt, alloc, &at, new);
    drop(at);
    close(alloc, site, callers, receipts, LIMIT)
}

/// Runs eight callers of one site in threads of their own. It answers what the yard reports then: nothing if a call did
/// not succeed, the receipts of all callers are not the whole history, or the yard reports what its history does not
/// come to.
pub(crate) fn eight_callers_in_threads<R: Threads + Wait + Clock + Sync + AllocGlobal>(
    rt: &R,
) -> Option<Report> {
    eight::<Brand, Brand, R>(rt, Blank::new(LIMIT), Blank::new(CALLERS))
}
