//! What a rule text says less than it seems to: lines that decide for nobody, or that are no rules at all
//! (`docs/RULES.md`).
//!
//! `tcprules -n` uses `write_warnings`, over any writer. The definition compares each line with all lines before it;
//! the code keeps a table of the addresses that it has seen. The warning `no client has this address` is exact:
//! `laws::exact_forms` gives for each other address a peer that has it among its forms. That two texts of 64 MiB take
//! at most twice the memory of compiling them is tested only.
#![tactic(auto)]

mod addresses;
mod client;
mod findings;
pub mod laws;
mod lent;
pub mod report;
mod seen;
mod settings;
mod spans;
pub mod warning;

pub use client::is_form;
pub use report::{WarnFault, write_warnings};
pub use warning::{Warning, WarningKind};
