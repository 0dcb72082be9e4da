//! The connections of a server over the system: their sockets, their programs, and how their bytes pass.
//!
//! One `SocketAcceptor` accepts connections. A `Connection` starts its program and is spent by that: the program has
//! the socket, or it has pipes and the connection is pumped. All connections have one `ProgramStarter`. A pumped
//! connection stands behind the job of its program: `ServiceJob::wait` passes bytes both ways, in the one thread that
//! waits, and then waits for the program. So nobody above knows of it.
//!
//! The start of a `Connection` is proved: a job has the program and the variables that were asked for. It pumps its
//! connection exactly if the mode says so. Each way then goes through new line wrappers in their order, and is recorded
//! if that is asked for. Each piece passes by `byte_streams::pump_into`. `proofs/Crossing.antt` proves that a job may
//! go to another thread. Only tests show which descriptors a program gets, that a pump writes what it keeps before it
//! reads on, that neither way holds up the other, and the bounds on clients that take nothing (`Passage`).
#![tactic(auto)]

mod lanes;
pub mod passing;
pub mod programs;
pub mod sockets;
mod wrappers;

pub use passing::Passing;
pub use programs::{Connection, ProgramStarter, ServiceJob};
pub use sockets::SocketAcceptor;
