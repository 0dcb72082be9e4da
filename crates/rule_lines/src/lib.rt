//! The rules language of `tcprules`: rule texts, and their pairs of address and instruction (the `tcprules` page of
//! ucspi-tcp; `docs/RULES.md`).
//!
//! `tcprules` uses `parse_owned`: it gives the rules of an accepted text in order, and refuses any other text with the
//! fault of the first faulty line. `accept` answers the same and keeps nothing. Each `RuleList` has the rules of some
//! accepted text (`of_text`), and the crates above rest on that. A list keeps its text, with codes in the place of
//! instructions; contracts speak of the list of rules, one for each address. `write_rule` reads rules one after
//! another. By `laws::accepted` a list decides each peer as its text does. That
//! parsing succeeds with ample memory is tested only.
#![tactic(auto)]

pub mod fault;
mod instructions;
mod kept;
pub mod laws;
pub mod limits;
pub mod list;
mod open_range;
pub mod spread;
pub mod text;

pub use fault::{LineFault, LineKind, ParseFault};
pub use instructions::{FirstSetting, first_setting, read_verdict};
pub use limits::Limits;
pub use list::{RuleList, StoredRule};
pub use text::{accept, parse, parse_owned};
