//! Installs a rule text: it is compiled into a scratch file, which takes the place of the rules file as a whole.
//!
//! `tcprules` uses `whole::finish`, which makes all steps that are left and no other call of the directory (`series`).
//! Each `Install` is consistent, however far it has come (`Install::consistent`), so its caller proves nothing about
//! it. By `laws::decides` an installed file decides as its text. No clause says that an installation gets done: each
//! step may end in a fault.
#![tactic(auto)]

pub mod fault;
pub mod install;
pub mod laws;
mod layout;
pub mod names;
mod pieces;
pub mod whole;

pub use fault::InstallFault;
pub use install::Install;
pub use names::{FileNames, SameName};
