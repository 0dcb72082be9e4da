//! What `tcpserver` has of the system: the path of its rules, and the files, the folder and the socket that its words
//! ask for; its limits; and the lines of causes behind that of a fault.
//!
//! `ucspi` uses `names_of`, `plan_of`, `listen`, `print_port`, `supply_for`, `hold_standard`, `forgets_programs`,
//! `rules_name`, `rules_folder`, `has_named_rule` and `tell_failure`.
//!
//! Tested only: the look for rules by name, and lines of causes.
#![tactic(auto)]

pub mod causes;
pub mod fault;
pub mod limits;
pub mod named_rules;
pub mod opening;
pub mod rules_path;
pub mod signals;

pub use fault::{ServerFailure, ServerFault, TcpserverFault};
pub use rules_path::{RulesOnDisk, rules_folder, rules_name};
