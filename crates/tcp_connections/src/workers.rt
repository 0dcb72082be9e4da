//! Workers: each lets one connection after another in, and serves it up to the start of its program or to its end.
ghost use Rattle.std.specs.Prelude.{◌≡◌};
ghost use Rattle.std.specs.Thread.{IsSend, IsSync};
ghost use Rattle.tcp_connections.specs.Ends.{asked_count, given_supply};

use crate::accepting::{AcceptError, Acceptor};
use crate::door::Door;
use crate::means::{Means, Permit};
use crate::served::Served;
use crate::serving::Serving;
use crate::supply::{Reserve, Supply};
use crate::threads::{connection_thread, has_processes, start_waiting};
use std::alloc::Global;
use std::sync::{Mutex, Wait};
use std::thread;
use std::thread::{Scope, Threads};
use std::time::Clock;

/// For at most this many programs, the server looks whether there are processes before a new worker stays. If there are
/// too few, the last programs wait for those before them.
const PROCESSES: u64 = 4;

/// What the workers share.
#[derive(Drop)]
pub struct Workers<'a, R, V: Serving, A> {
    rt: &'a R,
    server: &'a V,
    // whoever has its lock waits for the next connection, and lets it in
    door: Mutex<Door<'a, A, V>>,
    alloc: Global,
    supply: Supply,
    means: &'a Means,
    reserve: &'a Reserve,
}

// Whether there are processes for so many programs that begin, if there were too few before.
fn has_programs<R: Threads + Wait + Sync>(rt: &R, reserve: &Reserve, beginning: u64) -> bool {
    !reserve.is_gone(rt) || has_processes(rt, beginning.clamp(1, PROCESSES))
}

impl<'a, R, V, A> Workers<'a, R, V, A>
where
    R: Threads + Wait + Clock + Sync,
    V: Serving + Sync,
    A: Acceptor<Came = V::Came> + Send + Drop,
{
    /// Lets connections of `acceptor` in until `count` were let in or no more can be. Then it drops the acceptor, and
    /// waits until all that were let in are over. At most `most` connections are alive at once. Each worker accepts
    /// one, lets it in, and serves it until its program runs. While few are served, the worker waits for that program
    /// too. Otherwise a new thread does, and ends with the connection. This thread makes one more worker whenever none
    /// waits for a connection.
    pub fn serve_through(
        rt: &'a R,
        alloc: Global,
        acceptor: A,
        server: &'a V,
        most: u64,
        count: Option<u32>,
        supply: Supply,
        reserve: &'a Reserve,
    ) -> Served
        requires most { V.most ≡ most }
        requires count { V.count ≡ count }
        ensures count { asked_count result ≡ count }
        ensures supply { given_supply result ≡ supply }
    {
        if !supply.suffices() {
            drop(acceptor);
            return Served::without_descriptors(count, supply);
        }
        let means = Means::new(supply, most);
        let workers = Workers {
            rt,
            server,
            door: Mutex::new(Door::new(server, acceptor, count)),
            alloc,
            supply,
            means: &means,
            reserve,
        };
        workers.run();
        let Workers { door, .. } = workers;
        door.into_inner().into_served(supply)
    }

    // Lets connections in until the server comes to an end, and waits until all that were let in are over.
    fn run(&self) {
        let workers = self;
        thread::scope(
            thread::scope_env(),
            workers.rt,
            move |scope|
                requires { IsSync R.row × IsSync V.row × IsSend V.Alive.row × IsSend A.row }
            {
                if !workers.supply.has_reserve()
                    || !start_waiting(scope, workers.rt, workers.reserve)
                {
                    workers.reserve.give_back(workers.rt);
                }
                workers.make_workers(scope);
                workers.reserve.give_back(workers.rt);
            },
        );
    }

    // Makes one more worker whenever none is at the door, until nobody more can be let in.
    fn make_workers<'s, 'e>(&'s self, scope: &'s Scope<'s, &'e ()>) {
        for _ in self.rt.forever() {
            if !self.means.wait_for_want(self.rt) {
                break;
            }
            self.make_worker(scope);
        }
        self.end(&mut self.door.lock(self.rt));
    }

    // Makes a worker, if there is a thread for it and what its connection would take beside those that begin now.
    fn make_worker<'s, 'e>(&'s self, scope: &'s Scope<'s, &'e ()>) {
        let Some((workers, beginning)) = self.means.expect_worker(self.rt) else {
            return;
        };
        let workers = usize::try_from(workers).unwrap_or(usize::MAX);
        if !self.supply.has_stack(self.alloc, workers)
            || !self.start_worker(scope, workers, beginning)
        {
            self.means.worker_came(self.rt, false);
        }
    }

    // Starts the thread of a worker. Whether the system had one.
    fn start_worker<'s, 'e>(
        &'s self,
        scope: &'s Scope<'s, &'e ()>,
        number: usize,
        beginning: u64,
    ) -> bool {
        let workers = self;
        connection_thread()
            .spawn_scoped(
                scope,
                move ||
                    requires { IsSync R.row × IsSync V.row × IsSend V.Alive.row × IsSend A.row }
                { workers.come_to_work(scope, number, beginning) },
            )
            .is_ok()
    }

    // A new worker stays if there is what the connections of so many workers take beside those that begin. Then it
    // works.
    fn come_to_work<'s, 'e>(&'s self, scope: &'s Scope<'s, &'e ()>, number: usize, beginning: u64) {
        self.supply.begin_thread(self.alloc);
        let stays = self.supply.has_connections(self.alloc, number)
            && has_programs(self.rt, self.reserve, beginning);
        self.means.worker_came(self.rt, stays);
        if stays {
            self.work(scope);
        }
    }

    // Lets in and serves one connection after another, until no more come. Then it waits until all are over: the system
    // may tell a program that the thread has ended which started it.
    fn work<'s, 'e>(&'s self, scope: &'s Scope<'s, &'e ()>) {
        for _ in self.rt.forever() {
            let Some((permit, work)) = self.let_in() else {
                break;
            };
            match self.server.begin(work) {
                Err(over) => self
                    .means
                    .give_back(self.rt, permit, self.server.is_retired(&over)),
                Ok(alive) => self.go_on(scope, permit, alive),
            }
            self.means.come_to_door(self.rt);
        }
        self.means.wait_for_ends(self.rt);
    }

    // Waits for the lock of the door, for what a connection takes, and for a connection that is let in. `None` once
    // nobody is let in any more.
    fn let_in(&self) -> Option<(Permit, V::Work)> {
        let mut door = self.door.lock(self.rt);
        let work = self.let_in_by(&mut door);
        drop(door);
        if work.is_some() {
            self.means.leave_door(self.rt);
        }
        work
    }

    // The same by this door.
    fn let_in_by(&self, door: &mut Door<'_, A, V>) -> Option<(Permit, V::Work)> {
        for _ in self.rt.forever() {
            if door.is_over() {
                self.end(door);
                break;
            }
            let permit = self.means.take(self.rt)?;
            match door.accept(&permit) {
                Some(Ok(came)) => {
                    if let Some(work) = door.admit(&permit, came) {
                        if door.is_over() {
                            self.end(door);
                        }
                        return Some((permit, work));
                    }
                    self.means.give_back(self.rt, permit, false);
                }
                Some(Err(error)) => {
                    self.means.give_back(self.rt, permit, false);
                    self.pause(door, error);
                }
                None => self.means.give_back(self.rt, permit, false),
            }
        }
        None
    }

    // Counts a fault of accepting. After an error for want of descriptors or memory it waits first. If a connection was
    // served then, the error is no fault.
    fn pause(&self, door: &mut Door<'_, A, V>, error: AcceptError) {
        if error.lacks_room {
            let pause = door.next_pause();
            if self.means.wait_for_change(self.rt, pause) {
                return;
            }
            thread::sleep(self.rt, pause);
        }
        door.add_fault(error);
    }

    // Nobody is let in any more: no worker waits for a connection, and the acceptor is dropped.
    fn end(&self, door: &mut Door<'_, A, V>) {
        self.means.end(self.rt);
        door.close();
    }

    // Goes on with a connection to its end. With one of many a thread goes on, if there is one, which takes far less of
    // a stack than a worker.
    fn go_on<'s, 'e>(&'s self, scope: &'s Scope<'s, &'e ()>, permit: Permit, alive: V::Alive) {
        let (permit, is_one_of_many) = self.means.began(self.rt, permit);
        let going_on = GoingOn {
            rt: self.rt,
            server: self.server,
            means: self.means,
            alive,
            permit,
        };
        // (a thread for it takes memory and a process, of which there is plenty)
        let has_plenty = !self.supply.is_limited() && !self.reserve.is_gone(self.rt);
        if is_one_of_many && has_plenty {
            start_going_on(scope, going_on);
        } else {
            drop(going_on);
        }
    }
}

// A connection whose program runs. To drop it is to go on with it to its end. So none is lost on the way from one
// thread to another.
struct GoingOn<'a, R: Wait, V: Serving> {
    rt: &'a R,
    server: &'a V,
    means: &'a Means,
    alive: V::Alive,
    permit: Permit,
}

impl<R: Wait, V: Serving> Drop for GoingOn<'_, R, V> {
    fn drop(self) {
        let GoingOn {
            rt,
            server,
            means,
            alive,
            permit,
        } = self;
        let over = server.finish(alive);
        means.give_back(rt, permit, server.is_retired(&over));
    }
}

// Starts a thread that goes on with a connection to its end. Without a thread this one does.
fn start_going_on<'a: 's, 's, 'e, R, V>(scope: &Scope<'s, &'e ()>, going_on: GoingOn<'a, R, V>)
where
    R: Wait + Sync + 's,
    V: Serving + Sync + 's,
{
    let _ = connection_thread().spawn_scoped(
        scope,
        move ||
            requires { IsSync R.row × IsSync V.row × IsSend V.Alive.row }
        { drop(going_on) },
    );
}
