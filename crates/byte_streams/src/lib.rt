//! A pump: it reads a stream, passes it through a chain of line wrappers and writes it out, while a tap looks on.
//!
//! The crates above use `pump`: what was written is what the chain makes of what was read, as far as the end says. Who
//! must look at something else between two reads uses `pump_into`, which reads into room that `new_room` made and that
//! is kept from call to call. By the contract of `LineWrapper` what a wrapper writes doesn't depend on how the input is
//! cut. A chain is generic over its kind of wrapper. A `Recorder` is the tap of `recordio`. Only tests show that a
//! fault is one of the reader or the writer, that a pump makes the reads that it counts, and that a `Patient` stream
//! waits as long as it should.
#![tactic(auto)]

pub mod chain;
pub mod patient;
mod pieces;
pub mod pumping;
pub mod recording;
pub mod tap;
pub mod watched;
pub mod wrappers;

pub use chain::{Chain, ChainFault};
pub use patient::Patient;
pub use pieces::write_out;
pub use pumping::{PumpEnd, Why, new_room, pump, pump_into};
pub use recording::{PIPE_BUF, Way, longest_piece, record, record_end};
pub use tap::{NoTap, Recorder, Tap};
pub use watched::Watched;
pub use wrappers::{AddCr, DelCr, FixCr, LineWrapper};
