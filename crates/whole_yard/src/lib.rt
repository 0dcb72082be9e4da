//! The whole yard: what the headline speaks of, and what laws and tests say of it. No crate of the program uses it.
//!
//! A server's yard has the connections, and installations are made by another process. `WholeYard` has both over one
//! directory, one event after another: `make_step` makes each step of an installation, and each call that is an event
//! is a step of the headline's world over an honest directory (`step`, or `noted` with `laws::noted_leads`). `laws`
//! ties the events of a server's yard to that world, over whatever directory other processes left.
//!
//! `WholeSite` is a whole yard under one lock, with callers that have a share each of its events. A server has a yard
//! under a lock too, whose calls it makes itself; a whole site is handed a turn, a value that asks for one event. Its
//! turns `Open`, `InstallBegin` and `InstallStep` are calls that a server leaves to connections and other processes, and
//! `OfConnection` makes those of `connection_turns`, which are calls that a server makes. Evidence of an event becomes
//! its `Receipt`. `audit`, `audit_whole` and `close_and_audit` compare receipts with a history. `test_site` runs
//! the turns and an audit.
#![tactic(auto)]

pub mod assumptions;
pub mod audit;
pub mod caller;
pub mod closing;
pub mod connection_turns;
pub mod install_laws;
pub mod install_turns;
pub mod laws;
pub mod open_turn;
pub mod receipt;
mod same;
pub mod site;
pub mod step;
mod stepping;
pub mod yard;

pub use assumptions::Assumptions;
pub use caller::{Caller, Callers, NewCallers};
pub use closing::{BackCallers, NotWhole, audit_whole, close_and_audit};
pub use connection_turns::ConnectionTurn;
pub use install_turns::{InstallBegin, InstallStep};
pub use open_turn::{Open, OpenFault};
pub use receipt::Receipt;
pub use site::{OfConnection, WholeSite, WholeTurn};
pub use yard::WholeYard;
