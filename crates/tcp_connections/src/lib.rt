//! TCP connections, without rules and logs: where they come from, the names of their two ends, the workers that accept
//! and serve them, and the wait for the end of a child.
//!
//! The server uses `Workers::serve_through`. If it ends by its count, its `Served` says that it let in exactly that
//! many. It alone starts threads. A connection is a value that each call of `Serving` passes on, or answers as over.
//! Dropping a `GoingOn` ends the connection too. A worker accepts a connection and lets it in only with a `Permit`,
//! under the lock of the `Door`. `wait_in_rounds` gives a place back only after a wait that succeeded. Only tests show
//! that one more worker is made if none waits for a connection, that what a connection takes is there before it is
//! taken, and that a hundred faults of accepting in succession end the server.
#![tactic(auto)]

pub mod accepting;
pub mod door;
mod means;
pub mod names;
pub mod rounds;
pub mod served;
pub mod serving;
pub mod supply;
mod threads;
pub mod workers;

pub use accepting::{AcceptError, Accepted, Acceptor};
pub use means::pause_after;
pub use names::HostNames;
pub use rounds::wait_in_rounds;
pub use served::{Faults, ServeEnd, Served};
pub use serving::Serving;
pub use supply::{Memory, Reserve, Supply};
pub use workers::Workers;
