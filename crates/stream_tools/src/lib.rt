//! The tools for streams: `addcr` and `delcr` pass one on, and `fixcrio` and `recordio` run a program between two.
//!
//! The tools use `add_returns`, `delete_returns`, `fix_between` and `record_between`; the last two rest on
//! `run_between`, whose pumps each promise what they wrote. `command_words` and `inherited_variables` give all that the
//! process was given. An `OsLauncher` starts programs of the system: its job tells the program and variables with which
//! it was started, and the words and variables that the system was given are proved to be exactly those. Tested only:
//! where a program is looked for, that the system runs it, that a fault is one of the system's, and that nobody killed
//! a program before its status was told. Nothing is known of what the input of a program has left, which is watched.
#![tactic(auto)]

pub mod between;
mod child;
pub mod filter;
pub mod fixcrio;
pub mod job;
pub mod launcher;
pub mod process;
pub mod recordio;
pub mod search;
pub mod started;
pub mod tools;

pub use between::{Between, BetweenFailure, BetweenFault, Lane, Piped, RunEnd, run_between};
pub use filter::{FilterFault, add_returns, delete_returns};
pub use job::OsJob;
pub use launcher::OsLauncher;
pub use search::SearchPath;
pub use tools::{run_fixcrio, run_recordio};
