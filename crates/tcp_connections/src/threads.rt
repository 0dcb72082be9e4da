//! Threads of connections, and those that only wait.
ghost use Rattle.std.specs.Thread.{IsSync};

use crate::supply::Reserve;
use std::sync::Wait;
use std::thread;
use std::thread::{Builder, Scope, Threads};

/// How many bytes the stack of such a thread has: the least that a thread gets. Its calls are few and not deep, and
/// were seen to take 50 KiB at most.
const STACK: usize = 128 * 1024;

/// Starts a thread of a connection.
pub(crate) fn connection_thread() -> Builder {
    Builder::new().stack_size(STACK)
}

/// Starts a thread that only waits until the reserve is given back. Whether the system had one.
pub(crate) fn start_waiting<'a: 's, 's, 'e, R: Wait + Sync + 's>(
    scope: &Scope<'s, &'e ()>,
    rt: &'a R,
    reserve: &'a Reserve,
) -> bool {
    connection_thread()
        .spawn_scoped(
            scope,
            move ||
                requires { IsSync R.row }
            { reserve.wait(rt) },
        )
        .is_ok()
}

/// Whether this many processes could be made now. The system counts threads with processes, so this many threads are
/// made, and end at once.
pub(crate) fn has_processes<R: Threads + Wait + Sync>(rt: &R, count: u64) -> bool {
    let reserve = Reserve::new();
    let reserve = &reserve;
    thread::scope(
        thread::scope_env(),
        rt,
        |scope| -> bool
            requires { IsSync R.row }
        {
            let mut made = 0u64;
            for _ in 0..count {
                if start_waiting(scope, rt, reserve) {
                    made = made.saturating_add(1);
                }
            }
            reserve.give_back(rt);
            made == count
        },
    )
}
