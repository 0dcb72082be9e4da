//! The service of TCP connections: who is let in, the events of each connection in a yard that all share under a lock,
//! and when the lines of the log are written. A line that can't be written is left out.
//!
//! The program's `serve` lends a `Server` to `Workers`. What it stands on is one type, a `Host`: its types are those of
//! the yard's places, the runtime, the rules, the log, and connections with their programs. The life of a connection
//! is one value after another: `Admitted` with a `Guest`, `Greeted`, `Alive`, `Over`. Neither an `Admitted` nor an
//! `Alive` can be let go, and an end can't be told twice. `Server::begin` greets a client, decides it by what is found
//! for it, and starts its program. What passes between a client and its program is no part of it: a pumped connection
//! stands behind the job of its program. Tested only: no event comes out of turn.
#![tactic(auto)]

pub mod alive;
pub mod guest;
pub mod host;
mod judging;
mod reasons;
pub mod server;
pub mod serving;
pub mod telling;

pub use host::{Host, Rules, ServiceGround};
pub use server::{Context, LoggedYard, Server};
