//! Directories in memory, for scripts and tests. What a directory is stands in `dir_calls`.
//!
//! `MemDir` is an honest directory, and a stop of it leaves what its `Choice` says, which is one of the things that a
//! stop may leave. So the clauses of a directory don't contradict one another.
#![tactic(auto)]

mod crash;
mod entries;
pub mod folder;
mod held;
pub mod mem_dir;
pub mod mem_file;
mod stored;

pub use folder::Folder;
pub use mem_dir::MemDir;
pub use mem_file::MemFile;
