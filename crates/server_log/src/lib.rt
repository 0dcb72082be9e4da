//! The log of `tcpserver`: which lines each event has at which level and for whom, and what is written of them.
//!
//! The server uses `Log::report`, which takes what a yard answered of an event, and gives it back as a `Reported`. It
//! writes exactly the lines of the event for the log's level and voice, whole and in order, or keeps what was left out.
//! An event that is not later than the last is refused (`order`). `Write::contents` says what a writer holds; of
//! standard error no clause says more. It is tested only that an event's lines go by one write if the writer takes
//! them. `append_line`, by which a line is appended whole or not at all, also serves `rulesim`.
#![tactic(auto)]

pub mod cause;
pub mod fault;
mod lines;
pub mod log;
pub mod pieces;

pub use cause::Cause;
pub use fault::LogFault;
pub use lines::Told;
pub use log::{Log, Reported};
pub use pieces::{Piece, append_line, push_pieces};
