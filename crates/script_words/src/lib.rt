//! The words of a script of `rulesim`: what each line asks for; and lines of a log that are read back.
//!
//! `rulesim` uses `read_command` for scripts and `read_line` for the lines of a log. A verdict's line is read as what
//! it was written of, if no field was cut or marked (`laws::reads_what_was_written`). What is read was written so
//! (`laws::was_written_as_read`). Why a run of `rulesim` fails stands here too, for who only tells it.
#![tactic(auto)]

mod event_words;
pub mod fault;
pub mod laws;
pub mod log_line;
mod parts;
pub mod script;

pub use fault::SimFault;
pub use log_line::{End, LogLine, VerdictLine, read_line};
pub use script::{Command, LineEnd, read_command};
