//! The program that the words of `ucspi` ask for: which tool that is, why a run of it fails, and the code with which it
//! exits then.
//!
//! The program uses `run_program`: it runs the one tool that name and words choose, once, and exits by its answer
//! (`runs`). What `addcr`, `delcr` and a tool's help do, and what is told of a fault behind its line, is said there.
//! What each other tool does is a relation of its own (`Calls`), of which nothing is known: the program lends them.
//! `write_fault` writes causes and hints behind the line of a fault. The lines of faults, the version and the list of
//! tools are tested only.
#![tactic(auto)]

mod about;
pub mod calls;
mod causes;
mod choice;
pub mod fault;
pub mod program;
pub mod tool;

pub use calls::Calls;
pub use fault::{ToolFault, write_fault};
pub use program::{Program, run_program};
