//! Who connects, and which rule decides: instructions and their codes, peers, the forms under which a peer is looked
//! up, and decisions (the `tcprules` page of ucspi-tcp; `docs/RULES.md`).
//!
//! `decode_instr` gives the instruction of a code, and no two instructions have one code (`laws::one_instr`).
//! `Peer::new` refuses exactly the names that a peer can't have, the host's name first. The host is kept in lower case.
//! The crates above use `decide`, over any source of pairs. What it promises depends on what is known of the source
//! (`Trust`): if nothing is known, only safety is proved. By `laws::listed` the decision over a list is that of the
//! first form with a rule, and of the first rule with that form. `cdb_files` has a source for files, whose honest reads
//! are a premise.
#![tactic(auto)]

pub mod address;
mod answer;
pub mod code;
pub mod decision;
pub mod form;
pub mod instr;
pub mod laws;
pub mod lines;
pub mod peer;
pub mod source;

pub use address::parse_address;
pub use answer::append_answer;
pub use code::{
    CodeFault, DecodeFault, decode_instr, push_parts, push_settings, split_at_byte, split_verdict,
};
pub use decision::{Address, DecideFault, Decision, Found, WhenMissing, decide};
pub use form::forms;
pub use instr::{Instr, Setting, Settings, Verdict};
pub use peer::{Peer, PeerFault};
pub use source::{FindFault, RuleSource};
