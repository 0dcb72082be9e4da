//! Directories and rules files as the tools see them: their calls.
//!
//! The crates above use the trait `Dir`. Of an honest directory its clauses say what each call does (`does`) and what
//! stops since a moment may have left (`time` from above, `within` from below); of any other directory they say little
//! more than that faults are counted. `MemDir` of `memory_dirs` is honest.
//! By `laws::one_name` a stop leaves under a name what stood there when names were last settled, or what one change
//! since then put there; `torn` and `nameless` show that the definition has the bad cases too. That a folder of the
//! system is honest is the premise of `dir_disk`.
#![tactic(auto)]

mod choice;
pub mod clearable;
pub mod dir;
pub mod fault;
pub mod laws;
pub mod name;
pub mod phase;
pub mod rules_file;

pub use choice::Choice;
pub use clearable::ClearableDir;
pub use dir::Dir;
pub use fault::DirFault;
pub use name::{Name, NameFault};
pub use phase::Phase;
pub use rules_file::{DeviceFault, RulesFile};
