//! The yard: the connections of a server with their places, and the journal of all events.
//!
//! Each call of `Yard` for an event of a connection tests whether it is in turn (`in_turn`), and then makes it
//! (`makes`; of an admission `made`): a step of the headline's world over whatever directory others left
//! (`whole_yard::laws::noted_leads`). The type keeps the rest. `tcpserver` has its yard under a lock, and opens the
//! rules outside of that. It installs nothing: `tcprules` is another process. The calls of `beside` note installations
//! in the same journal; only the whole yard makes them, of which the headline speaks. `tcp_service` says which thread
//! makes which call.
#![tactic(auto)]

mod beside;
pub mod evidence;
pub mod pass;
pub mod places;
pub mod yard;

pub use evidence::{Made, OutOfTurn};
pub use pass::Pass;
pub use places::Places;
pub use yard::{AdmitFault, Yard};
