//! The events of a server and of installations beside it: which lists of them may happen, what they lead to, and
//! journals, where events are kept or only counted.
//!
//! `rulesim` uses `replay`, which reports a legal list or names its first illegal event. What all events have in common
//! is said of their eight effects (`specs/ServerState.antt`). The headline speaks of such lists (`headline::laws`).
//!
//! The report and the number of a `Journal` stay those of the history (`goes_on`). That of `tcpserver` only counts, and
//! takes no memory. One that stores each event with its caller is for tests and audits. Room is taken before an event
//! is noted, so noting can't fail.
#![tactic(auto)]

mod addresses;
pub mod event;
pub mod journal;
pub mod laws;
pub mod report;
pub mod same;
pub mod state;

pub use event::{Event, Stage};
pub use journal::{Journal, Noted};
pub use report::{ReplayFault, Report, replay};
pub use same::is_same_peer;
pub use state::{Connection, State};
