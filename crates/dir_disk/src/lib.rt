//! Folders of a disk, and so of the system. What a directory is stands in `dir_calls`.
//!
//! `DiskDir` is an honest directory if its disk keeps the clauses of `Disk`, which say what POSIX and Linux promise of
//! each call. `OsDir` and `LockedDir`, which the tools use, are `DiskDir`s over `SystemDisk`. Each method of
//! `SystemDisk` is a call of std's with the looks before it, made again if a signal interrupts it, and only its safety
//! is proved: that it keeps the clauses is the premise. Only tests show that one process at a time installs, that
//! another folder at the path is refused, and which error is noted.
#![tactic(auto)]

pub mod disk;
pub mod failure;
pub mod lock;
pub mod os_dir;
pub mod os_file;
mod scratch;
pub mod system_disk;

pub use disk::{Disk, DiskFile, Look};
pub use failure::{DiskFailure, FailedOn};
pub use lock::{NoWait, Waits};
pub use os_dir::{DiskDir, FolderError, FolderFault, LockedDir, OsDir, find_folder};
pub use os_file::OsFile;
pub use system_disk::{SystemDisk, SystemFile};
