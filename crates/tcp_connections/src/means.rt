//! What there is for workers and their connections, and how much of it they have.
use crate::supply::Supply;
use std::sync::{Condvar, CondvarTimeouts, Mutex, MutexGuard, Wait};
use std::time::{Clock, Duration};

/// How many milliseconds a server waits before it tries again for what the system lacks, at first and at most. Each
/// pause is twice the one before it, up to the longest.
const FIRST_PAUSE: u64 = 10;

const LONGEST_PAUSE: u64 = 1_000;

const DOUBLED: u32 = 7;

/// Once so many connections are served, another one is one of many.
const MANY: u64 = 32;

/// How often a server tries to make its first worker, over some two seconds.
const TRIES: u32 = 9;

/// What there is for workers and their connections. A worker is at the door while it waits for a connection, or for
/// what one takes.
#[derive(Drop)]
pub(crate) struct Means {
    held: Mutex<Held>,
    // wakes workers that wait for what a connection takes
    freed: Condvar,
    // wakes whoever makes workers
    wanted: Condvar,
}

// What workers and connections have, of what there is.
#[derive(Clone, Copy)]
struct Held {
    supply: Supply,
    // how many connections there may be, and so how many workers
    most: u64,
    // how many workers there are, how many of them are at the door, and how often in succession none could be made
    workers: u64,
    at_door: u64,
    failures: u32,
    // how many connections are alive, with the one that is waited for; how many of these have no program yet, and how
    // many are retired
    alive: u64,
    beginning: u64,
    retired: u64,
    // how often a permit was given back
    given_back: u64,
    // a worker is being made; if memory is limited, no connection begins meanwhile
    is_expected: bool,
    is_over: bool,
}

/// The right to one connection: there is what it takes. A worker has it before it accepts one, and it is given back
/// once that one is over.
pub(crate) struct Permit {
    // whether the connection has no program yet
    begins: bool,
}

/// How long something is not tried again that has failed so often in succession.
pub fn pause_after(failures: u32) -> Duration {
    let longer = FIRST_PAUSE << failures.saturating_sub(1).min(DOUBLED);
    Duration::from_millis(longer.min(LONGEST_PAUSE))
}

impl Held {
    // How many connections are served.
    fn served(&self) -> u64 {
        self.alive.saturating_sub(self.retired)
    }

    // How many descriptors connections have.
    fn descriptors(&self) -> u64 {
        let going_on = self.served().saturating_sub(self.beginning);
        let to_begin = self.beginning.saturating_mul(self.supply.to_begin);
        to_begin.saturating_add(going_on.saturating_mul(self.supply.to_go_on))
    }

    // Whether there is what one more connection takes.
    fn has_room(&self) -> bool {
        let supply = self.supply;
        let descriptors = self.descriptors().saturating_add(supply.to_begin);
        self.alive < self.most
            && descriptors <= supply.descriptors
            && self.beginning < supply.at_once()
            && !(self.is_expected && supply.is_limited())
    }

    // Whether nobody more can be let in: the server is over, all are retired, or there is no worker, and there can be
    // none.
    fn has_ended(&self) -> bool {
        let has_no_worker = self.workers == 0 && self.failures >= TRIES;
        self.is_over || self.retired >= self.most || has_no_worker
    }

    // Whether one more worker is wanted.
    fn wants_worker(&self) -> bool {
        self.at_door == 0 && self.workers < self.most
    }

    // A connection has its program, or there is none any more.
    fn take_back(&mut self, permit: Permit) {
        let Permit { begins } = permit;
        if begins {
            self.beginning = self.beginning.saturating_sub(1);
        }
    }
}

impl Means {
    /// All of it is free, for at most `most` connections at once. There are no workers yet.
    pub fn new(supply: Supply, most: u64) -> Means {
        let held = Held {
            supply,
            most,
            workers: 0,
            at_door: 0,
            failures: 0,
            alive: 0,
            beginning: 0,
            retired: 0,
            given_back: 0,
            is_expected: false,
            is_over: false,
        };
        Means {
            held: Mutex::new(held),
            freed: Condvar::new(),
            wanted: Condvar::new(),
        }
    }

    /// Waits until there is what one more connection takes, and takes it. `None` once nobody is let in any more.
    pub fn take<R: Wait>(&self, rt: &R) -> Option<Permit> {
        let mut held = self.freed.wait_while(rt, self.held.lock(rt), |held| {
            !held.has_ended() && !held.has_room()
        });
        if held.has_ended() {
            return None;
        }
        held.alive = held.alive.saturating_add(1);
        held.beginning = held.beginning.saturating_add(1);
        Some(Permit { begins: true })
    }

    /// A worker is at the door again.
    pub fn come_to_door<R: Wait>(&self, rt: &R) {
        let mut held = self.held.lock(rt);
        held.at_door = held.at_door.saturating_add(1);
    }

    /// A worker leaves the door with a connection: if it was the last one there, whoever makes workers is woken.
    pub fn leave_door<R: Wait>(&self, rt: &R) {
        let mut held = self.held.lock(rt);
        held.at_door = held.at_door.saturating_sub(1);
        self.free(held);
    }

    /// The program of a connection runs: what it took only for its start is free again. The answer also says whether it
    /// is one of many.
    pub fn began<R: Wait>(&self, rt: &R, permit: Permit) -> (Permit, bool) {
        let mut held = self.held.lock(rt);
        held.take_back(permit);
        let is_one_of_many = held.served() > MANY;
        self.free(held);
        (Permit { begins: false }, is_one_of_many)
    }

    /// A connection is over, or never began. The room of a retired one is never free again.
    pub fn give_back<R: Wait>(&self, rt: &R, permit: Permit, is_retired: bool) {
        let mut held = self.held.lock(rt);
        held.take_back(permit);
        held.given_back = held.given_back.wrapping_add(1);
        if is_retired {
            held.retired = held.retired.saturating_add(1);
        } else {
            held.alive = held.alive.saturating_sub(1);
        }
        self.free(held);
    }

    /// Nobody is let in any more: all who wait for room end, and no more workers are wanted.
    pub fn end<R: Wait>(&self, rt: &R) {
        let mut held = self.held.lock(rt);
        held.is_over = true;
        self.free(held);
    }

    // Lets the lock go, wakes those who wait for a change, and whoever makes workers if there is something to do.
    fn free(&self, held: MutexGuard<'_, Held>) {
        let is_wanted = held.has_ended() || held.wants_worker();
        drop(held);
        self.freed.notify_all();
        if is_wanted {
            self.wanted.notify_all();
        }
    }

    /// Waits until no connection is alive that is not retired.
    pub fn wait_for_ends<R: Wait>(&self, rt: &R) {
        drop(
            self.freed
                .wait_while(rt, self.held.lock(rt), |held| held.served() > 0),
        );
    }

    /// Waits until one more worker is wanted. Before that it waits for the answer of the last new worker, and pauses if
    /// none could be made. `false` once nobody more can be let in.
    pub fn wait_for_want<R: Wait + Clock>(&self, rt: &R) -> bool {
        let mut held = self
            .wanted
            .wait_while(rt, self.held.lock(rt), |held| held.is_expected);
        if held.failures > 0 {
            let pause = pause_after(held.failures);
            let (later, _) = self
                .wanted
                .wait_timeout_while(rt, held, pause, |held| !held.has_ended());
            held = later;
        }
        let held = self.wanted.wait_while(rt, held, |held| {
            !held.has_ended() && !held.wants_worker()
        });
        !held.has_ended()
    }

    /// A worker is to be made: it counts as one that is at the door. It answers how many there are with it, and how
    /// many connections have no program yet. If memory is limited, it first waits until each has one, and lets none
    /// begin until it is known whether the worker stays. So a look for memory takes none that they need. `None` once
    /// nobody more can be let in.
    pub fn expect_worker<R: Wait>(&self, rt: &R) -> Option<(u64, u64)> {
        let mut held = self.freed.wait_while(rt, self.held.lock(rt), |held| {
            held.supply.is_limited() && held.beginning > 0 && !held.has_ended()
        });
        if held.has_ended() {
            return None;
        }
        held.is_expected = true;
        held.workers = held.workers.saturating_add(1);
        held.at_door = held.at_door.saturating_add(1);
        Some((held.workers, held.beginning))
    }

    /// The worker that was to be made stays, or there is none.
    pub fn worker_came<R: Wait>(&self, rt: &R, stays: bool) {
        let mut held = self.held.lock(rt);
        held.is_expected = false;
        if stays {
            held.failures = 0;
        } else {
            held.failures = held.failures.saturating_add(1);
            held.workers = held.workers.saturating_sub(1);
            held.at_door = held.at_door.saturating_sub(1);
        }
        self.free(held);
        self.wanted.notify_all();
    }

    /// Waits for a pause, but no longer once a connection is over, or nobody is let in any more. If no connection is
    /// served and some may come, it answers `false` at once.
    pub fn wait_for_change<R: Wait + Clock>(&self, rt: &R, pause: Duration) -> bool {
        let held = self.held.lock(rt);
        if held.served() == 0 && !held.is_over {
            return false;
        }
        let before = held.given_back;
        drop(
            self.freed.wait_timeout_while(
                rt,
                held,
                pause,
                |held| held.given_back == before && !held.is_over,
            ),
        );
        true
    }
}
