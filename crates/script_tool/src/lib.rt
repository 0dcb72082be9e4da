//! The script tool `rulesim`: questions about rule texts, logs and lists of events, and stops during installations. It
//! carries out the lines of a script.
//!
//! The tool uses `run_buffered`, which is `run_rulesim` over a buffered writer. What a script prints is defined by
//! texts alone; the code installs compiled files in a directory in memory and stops it. After a fault a front of that
//! text was written. That a fault is one of the reader, the writer or memory is tested only, and so is `run_script`,
//! which lends the system's streams.
#![tactic(auto)]

mod replies;
pub mod sim;
mod simulation;
pub mod standard;
mod verdicts;

pub use sim::run_rulesim;
pub use standard::run_script;
