//! What the system gives a server for its connections.
ghost use Rattle.std.specs.Prelude.{◌≡◌};
ghost use Rattle.tcp_connections.specs.Admissions.{suffices};

use std::alloc::Global;
use std::sync::{Condvar, Mutex, Wait};

/// What a thread takes of address space, in bytes: its stack, and what guards it.
const THREAD: usize = 192 * 1024;

/// What the C library has reserved for a thread already, in bytes. A connection takes that first.
const RESERVED: usize = 128 * 1024;

/// So many connections may be at once whose child does not run yet, if memory is limited and not low.
const AT_ONCE: usize = 4;

/// What the system gives a server for its connections, and what each of them takes. The server takes a connection only
/// once there is all that it may take.
#[derive(Clone, Copy)]
pub struct Supply {
    /// How many descriptors the process may still open.
    pub descriptors: u64,
    /// How many a connection takes at most until its child runs, its own socket included.
    pub to_begin: u64,
    /// How many it takes once its child runs; no more than before.
    pub to_go_on: u64,
    /// What connections take of memory, if it is limited.
    pub memory: Option<Memory>,
}

/// What connections take of limited memory, and its limits, in bytes. A limit that there is not is the greatest number.
#[derive(Clone, Copy)]
pub struct Memory {
    /// How much may be written to.
    pub data: u64,
    /// How much may be reserved.
    pub addresses: u64,
    /// Whether it is low: then one connection at a time begins, and threads are saved.
    pub is_low: bool,
    /// What one connection takes until its child runs, at most.
    pub to_begin: usize,
    /// What one connection whose child runs takes, at most.
    pub to_go_on: usize,
}

impl Memory {
    /// So many connections may be at once whose child does not run yet.
    pub fn at_once(&self) -> usize {
        if self.is_low { 1 } else { AT_ONCE }
    }
}

impl Supply {
    // How many connections may be at once whose child does not run yet.
    pub(crate) fn at_once(&self) -> u64 {
        match self.memory {
            Some(memory) => memory.at_once() as u64,
            None => u64::MAX,
        }
    }

    // Whether it is enough for one connection.
    pub(crate) fn suffices(&self) -> bool
        ensures { result ≡ suffices self.now }
    {
        self.to_begin <= self.descriptors
    }

    // Whether there is memory for a thread that only waits.
    pub(crate) fn has_reserve(&self) -> bool {
        !self.memory.is_some_and(|memory| memory.is_low)
    }

    // Whether memory is limited.
    pub(crate) fn is_limited(&self) -> bool {
        self.memory.is_some()
    }

    // Whether there is memory for the connections of this many workers. If memory is low, `has_stack` has looked
    // already.
    pub(crate) fn has_connections(&self, alloc: Global, workers: usize) -> bool {
        !self.has_reserve() || self.has_memory(alloc, workers, 0)
    }

    // Whether there is memory for one more worker's thread and for all connections. This looks only if memory is low:
    // the C library keeps what threads took that are over, and a program would lack it.
    pub(crate) fn has_stack(&self, alloc: Global, workers: usize) -> bool {
        self.has_reserve() || self.has_memory(alloc, workers, THREAD)
    }

    // Whether there is memory for the connections of this many workers and for this many bytes more, if it is limited.
    // What the system tells is compared with the limits. To ask the C library for so much might take it for good: it
    // keeps what one thread got, and a program would lack it. If the system tells nothing, it is asked all the same.
    fn has_memory(&self, alloc: Global, workers: usize, beside: usize) -> bool {
        let Some(memory) = self.memory else {
            return true;
        };
        let all = memory
            .to_go_on
            .saturating_mul(workers)
            .saturating_add(memory.to_begin.saturating_mul(memory.at_once()))
            .saturating_add(beside)
            .saturating_sub(RESERVED);
        match Taken::now() {
            Some(taken) => taken.leaves(all as u64, memory),
            None => Vec::<u8>::with_capacity(alloc, all).is_ok(),
        }
    }

    // A new thread begins. If memory is limited it asks for some, so that the C library reserves now what it reserves
    // for a thread.
    pub(crate) fn begin_thread(&self, alloc: Global) {
        if self.is_limited() {
            drop(Vec::<u8>::with_capacity(alloc, 64));
        }
    }
}

/// Where the system tells what memory a process takes (proc(5)).
const STATUS: &[u8] = b"/proc/self/status";

// What this process takes of limited memory, in bytes.
#[derive(Clone, Copy)]
struct Taken {
    data: u64,
    addresses: u64,
}

impl Taken {
    // What it takes now, if the system tells it.
    fn now() -> Option<Taken> {
        let mut status = [0u8; 4096];
        let file = os::open_read(STATUS);
        let size = libc::read(file, &mut status);
        let _ = libc::close(file);
        let status = status.get(..usize::try_from(size).ok()?)?;
        Some(Taken {
            data: bytes_in(status, b"VmData:")?,
            addresses: bytes_in(status, b"VmSize:")?,
        })
    }

    // Whether so many bytes more may be taken under these limits.
    fn leaves(self, all: u64, memory: Memory) -> bool {
        self.data.saturating_add(all) <= memory.data
            && self.addresses.saturating_add(all) <= memory.addresses
    }
}

// The number of the line of this name, which counts KiB, in bytes.
fn bytes_in(status: &[u8], name: &[u8]) -> Option<u64> {
    for line in status.split(|&byte| byte == b'\n') {
        if line.starts_with(name) {
            let mut number = 0u64;
            for digit in line.iter().filter(|byte| byte.is_ascii_digit()) {
                let digit = u64::from(digit.saturating_sub(b'0'));
                number = number.saturating_mul(10).saturating_add(digit);
            }
            return Some(number.saturating_mul(1024));
        }
    }
    None
}

/// A process that is kept in reserve, as a thread that waits: the system counts threads and processes together. If a
/// program finds no process, the reserve is given back, for good. From then on a new worker stays only if there are
/// processes for programs, and connections get no threads of their own. If memory is low, there is no reserve from the
/// start.
#[derive(Drop)]
pub struct Reserve {
    is_gone: Mutex<bool>,
    given_back: Condvar,
}

impl Reserve {
    /// A reserve that is not given back yet.
    pub fn new() -> Reserve {
        Reserve {
            is_gone: Mutex::new(false),
            given_back: Condvar::new(),
        }
    }

    /// Gives it back: its thread ends.
    pub fn give_back<R: Wait>(&self, rt: &R) {
        *self.is_gone.lock(rt) = true;
        self.given_back.notify_all();
    }

    /// Whether it was given back.
    pub fn is_gone<R: Wait>(&self, rt: &R) -> bool {
        *self.is_gone.lock(rt)
    }

    /// Waits until it is given back, as its thread does.
    pub(crate) fn wait<R: Wait>(&self, rt: &R) {
        drop(
            self.given_back
                .wait_while(rt, self.is_gone.lock(rt), |is_gone| !*is_gone),
        );
    }
}
