//! The limits that the system sets for this process, and what they leave a server for its connections.
ghost use Rattle.std.specs.Prelude.{◌≡◌};
ghost use Rattle.server_parts.specs.Limits.{is_low, small_limit};
ghost use Rattle.server_parts.specs.Services.{IsSupplyIn};

use libc::net::POLLNVAL;
use libc::types::{pollfd, rlimit};
use server_words::Mode;
use tcp_connections::{Memory, Supply};

/// What `getrlimit` is asked beside descriptors: for the memory that is used, and for the addresses that are reserved.
const DATA: i32 = 2;

const ADDRESSES: i32 = 9;

/// The answer if there is no limit.
const UNLIMITED: u64 = u64::MAX;

/// So many descriptors count as taken if the system does not tell which are.
const TAKEN: u64 = 64;

/// So many numbers of descriptors are looked at by one call.
const LOOKED: u64 = 256;

// The limit of this process on something; if the system doesn't tell it there is none.
fn limit_on(something: i32) -> u64 {
    let mut limit = rlimit {
        rlim_cur: UNLIMITED,
        rlim_max: UNLIMITED,
    };
    if libc::getrlimit(something, &mut limit) < 0 {
        return UNLIMITED;
    }
    limit.rlim_cur
}

/// The limits on the memory of a process, in bytes; one that there is not is the greatest number.
#[derive(Clone, Copy)]
pub(crate) struct MemoryLimits {
    /// How much of it the process may write to (`ulimit -d`).
    pub data: u64,
    /// How much address space it may reserve (`ulimit -v`).
    pub addresses: u64,
}

impl MemoryLimits {
    /// Those of this process.
    pub fn own() -> MemoryLimits {
        MemoryLimits {
            data: limit_on(DATA),
            addresses: limit_on(ADDRESSES),
        }
    }
}

/// The descriptors of a server that it opens after this: its socket, a look at what memory it takes, and two for a log
/// that has to be waited for.
const OWN: u64 = 4;

/// The descriptors of a connection that is handed over, until its program has it: itself, and the rules file.
const HANDED: u64 = 2;

/// Those of a connection that is pumped, while its program is started: itself, and both ends of two pipes. Then:
/// itself, and an end of each.
const PUMPED: u64 = 5;

const PUMPED_ON: u64 = 3;

/// Numbers of descriptors are looked at as far as connections may need them, and so many more.
const BESIDE: u64 = 1_024;

/// A page of memory, in bytes: if memory is limited the C library may take so much for each text.
const PAGE: usize = 4 * 1024;

/// How many texts a connection has, beside four for each variable that its program inherits.
const TEXTS: usize = 64;

/// What starting a program takes, in bytes; what a connection takes whose program runs; and the buffers of one that is
/// pumped.
const START: usize = 64 * 1024;

const GOING_ON: usize = 32 * 1024;

const BUFFERS: usize = 320 * 1024;

/// What a server takes of data and of address space, in bytes, beside its connections, as `bench/least` measures it.
const DATA_ALONE: u64 = 540_000;

const ADDRESSES_ALONE: u64 = 3_300_000;

/// What starting a program takes that inherits no variables.
const START_ALONE: u64 = (TEXTS * PAGE + START) as u64;

/// What the system gives the connections of a server in this mode, of which so many may be alive, and whose programs
/// inherit so many variables.
pub fn supply_for(mode: Mode, connections: u64, variables: usize) -> Supply
    ensures { IsSupplyIn mode result }
{
    let most = connections.saturating_mul(PUMPED).saturating_add(BESIDE);
    let descriptors = free_descriptors(most).saturating_sub(OWN);
    let (to_begin, to_go_on, buffers) = match mode {
        Mode::HandedOver => (HANDED, 0, 0),
        Mode::Pumped => (PUMPED, PUMPED_ON, BUFFERS),
    };
    let texts = variables.saturating_mul(4).saturating_add(TEXTS);
    let start = texts.saturating_mul(PAGE).saturating_add(START);
    let limits = MemoryLimits::own();
    let is_limited = limits.data != UNLIMITED || limits.addresses != UNLIMITED;
    let memory = Memory {
        data: limits.data,
        addresses: limits.addresses,
        is_low: is_low(limits, start),
        to_begin: start,
        to_go_on: buffers.saturating_add(GOING_ON),
    };
    Supply {
        descriptors,
        to_begin,
        to_go_on,
        memory: is_limited.then_some(memory),
    }
}

// Whether memory is low, if a connection takes so much until its program runs: there is no room for five such
// connections beside what a server takes alone.
fn is_low(limits: MemoryLimits, start: usize) -> bool
    ensures { result ≡ is_low limits start }
{
    let data = limits.data.saturating_sub(DATA_ALONE);
    let room = data.min(limits.addresses.saturating_sub(ADDRESSES_ALONE));
    start as u64 > room / 5
}

/// What a limit on memory counts.
#[derive(Clone, Copy)]
pub(crate) enum Counted {
    /// What may be written to (`ulimit -d`).
    Data,
    /// What is reserved (`ulimit -v`).
    Addresses,
}

/// A limit on memory that is too small for a server.
#[derive(Clone, Copy)]
pub(crate) struct SmallLimit {
    /// What it counts.
    pub counted: Counted,
    /// The limit, in bytes.
    pub limit: u64,
    /// How many bytes a server wants at least, with one connection whose program inherits no variables.
    pub wanted: u64,
}

/// Of these limits the one that is too small for a server in this mode, if one is; of two that of data.
pub(crate) fn small_limit(mode: Mode, limits: MemoryLimits) -> Option<SmallLimit>
    ensures { result ≡ small_limit mode limits }
{
    let connection = match mode {
        Mode::HandedOver => START_ALONE,
        Mode::Pumped => START_ALONE + BUFFERS as u64,
    };
    let (data, addresses) = (DATA_ALONE + connection, ADDRESSES_ALONE + connection);
    let (counted, limit, wanted) = if limits.data < data {
        (Counted::Data, limits.data, data)
    } else {
        (Counted::Addresses, limits.addresses, addresses)
    };
    (limit < wanted).then_some(SmallLimit {
        counted,
        limit,
        wanted,
    })
}

// How many descriptors this process may open beside those that it has. Numbers from `most` on are not looked at: they
// count as taken.
fn free_descriptors(most: u64) -> u64 {
    let count = limit_on(libc::RLIMIT_NOFILE).min(most);
    let mut free = 0u64;
    for block in 0..count.div_ceil(LOOKED) {
        let first = block.saturating_mul(LOOKED);
        match free_from(first, count.saturating_sub(first).min(LOOKED)) {
            Some(found) => free = free.saturating_add(found),
            None => return count.saturating_sub(TAKEN),
        }
    }
    free
}

// How many of so many descriptors, at most `LOOKED`, are free; `None` if the system doesn't tell.
fn free_from(first: u64, count: u64) -> Option<u64> {
    let unlooked = pollfd {
        fd: -1,
        events: 0,
        revents: 0,
    };
    let mut looked = [unlooked; LOOKED as usize];
    let looked = looked.get_mut(..count as usize)?;
    for (position, one) in looked.iter_mut().enumerate() {
        // a number that is none is not looked at, and counts as taken
        one.fd = i32::try_from(first.saturating_add(position as u64)).unwrap_or(-1);
    }
    if libc::net::poll(looked, 0) < 0 {
        return None;
    }
    let free = looked.iter().filter(|one| one.revents & POLLNVAL != 0);
    Some(free.count() as u64)
}
