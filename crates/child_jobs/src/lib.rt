//! Programs, their environment, the jobs that run them, and the children that hold a place while they run.
//!
//! The crates above use `build`. It makes the environment in three layers: what is inherited without the names that a
//! connection gives, what the connection tells, and the rule's settings in order. `HostTable::read` gives exactly what
//! the lines of a host table say, or the number of the first bad line.
//!
//! Then they use `PlaceTable::admit`, `start` and `finish`. A `Place` can't be copied or dropped, and nor can a
//! `Running` child or a job. So a place comes back only by a wait that succeeded, or stays counted for good (`retire`),
//! or goes with `Job::abandon`. `Launcher` and `Job` say what may be known of a program. By their clauses a program of
//! the system may end in any way and be refused for any reason; tests show that the answers are true.
#![tactic(auto)]

pub mod child;
pub mod environment;
pub mod hosts;
pub mod launch;
pub mod local;
pub mod outcome;
pub mod place;
pub mod plan;
pub mod running;
pub mod table;

pub use child::build;
pub use environment::{Environment, Variable};
pub use hosts::{HostFault, HostTable};
pub use launch::{Job, Launcher, Program, WaitFault};
pub use local::Local;
pub use outcome::{DropCause, Exit, NotStarted, StartFault, Status};
pub use place::Place;
pub use plan::Plan;
pub use running::{Running, finish, start};
pub use table::{PlaceTable, TableFault};
