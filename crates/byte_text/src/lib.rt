//! Texts, fields of the log and causes of errors, which are appended to bytes whole or not at all.
//!
//! A text for which there is no memory leaves the bytes as they were (`whole_or_none`). The crates above use
//! `append_cause`, which appends exactly the line of a cause, or nothing. A `NotingStream` passes all calls on and
//! keeps the number of the last one's error. That `append_os_cause` has the system's own words for an error is tested
//! only.
#![tactic(auto)]

pub mod append;
pub mod fields;
pub mod line;
pub mod noted;

pub use append::{push_number, push_text, take_back, whole_or_none};
pub use fields::{push_address, push_marked};
pub use line::{append_cause, append_os_cause, words_of_error};
pub use noted::NotingStream;
