//! What a tool tells behind the line of a fault: its cause, and what to do.
//!
//! A `Voice` is made of the name by which a tool was called, and `Voice::detail` of it and of the level that the words
//! ask for. All texts of hints stand here, but those that go over options: `server_words` has them beside the options.
//! `append_help` appends exactly what is told of a fault of the words of `tcpserver`, or, where there is no memory,
//! nothing; `append_line` does so of a faulty line of a rule text. That a `KeepingReader` keeps what it gave is tested
//! only.
#![tactic(auto)]

pub mod kept;
pub mod lines;
pub mod voice;
pub mod words;

pub use kept::KeepingReader;
pub use lines::append_line;
pub use voice::{Detail, Voice};
pub use words::append_help;
