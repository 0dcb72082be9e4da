//! The tools for rules: `tcprules` installs them, and `tcprulescheck` tells which of them decides.
//!
//! The program's path goes through `run_tcprules`, `run_review` and `run_tcprulescheck`, each one call from its input
//! to its answer. They take any reader, writer and folders, and have the contracts of `install_text` and
//! `tell_decision`, which are below them. A `RulesFolder` is a directory with what an installation left
//! there. Of `SystemFolders` and `SystemVariables`, which are the system's, only safety is proved. Tested:
//! two installers at once, what they say while they wait, buffered lines of `-n`, and causes.
#![tactic(auto)]

pub mod cause;
pub mod folder;
pub mod folders;
pub mod installing;
pub mod path;
pub mod review;
mod steps;
pub mod tcprules;
pub mod tcprulescheck;
pub mod variables;
pub mod waiting;

pub use cause::{CauseOf, ErrorCause};
pub use folder::RulesFolder;
pub use folders::{Folders, InstallFolders, SystemFolders};
pub use installing::{install_named, install_text};
pub use review::{ReviewFault, run_review};
pub use tcprules::{RulesFailure, TcprulesFault, run_tcprules};
pub use tcprulescheck::{CheckFailure, CheckFault, run_tcprulescheck, tell_decision};
pub use variables::{SystemVariables, Variables, read_peer};
pub use waiting::Waiting;
