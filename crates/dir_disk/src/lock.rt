//! Files that are claimed by a lock. Of several processes that make a file under one name one has it, and the others
//! wait.
//!
//! A file is claimed by an exclusive lock of its first byte. The lock lasts until the file is closed, by this process
//! or, if that is killed, by the system. A file without a lock was left by a killed process, and is taken away while
//! this process locks it. Only who may write a file can have such a lock.
use crate::system_disk::{Identity, is_same, stale};
use os::RangeLock;
use std::fs::{File, Files, Metadata, OpenOptions, Permissions};
use std::io::{self, ErrorKind, Read};
use std::os::fd::AsRawFd;
use std::os::unix::fs::{MetadataExt, OpenOptionsExt, PermissionsExt};

/// The permissions of a file that is not complete: no other user can open it, and so lock it.
pub(crate) const HIDDEN: u32 = 0o600;

/// The system's errors for a file that another process has, for a text that is in use, for a folder, for a link, and
/// for anything else that is no file.
const TAKEN: i32 = 11;

const IN_USE: i32 = 26;

const IS_FOLDER: i32 = 21;

const IS_LINK: i32 = 40;

const INVALID: i32 = 22;

/// The standard input, if the system has such a name for it.
const INPUT: &str = "/proc/self/fd/0";

/// The file in which the system says which permissions the process masks, in one of the first lines.
const STATUS: &str = "/proc/self/status";

const MASK: &str = "Umask:\t";

/// How long to wait for a file that another process has.
pub trait Waits {
    /// Waits a little, and answers whether to try again.
    fn wait(&mut self) -> bool;
}

/// No wait for another process: its file is a fault.
#[derive(Clone, Copy)]
pub struct NoWait;

impl Waits for NoWait {
    fn wait(&mut self) -> bool {
        false
    }
}

/// Makes a new file at a path, with these permissions, and claims it. A file that stands there and that no process has
/// is taken away.
///
/// # Errors
/// `WouldBlock` if another process has the file there, and then nothing is done; others of the system.
pub(crate) fn make_claimed<R: Files<File = File>>(
    files: &R,
    path: &str,
    mode: u32,
) -> io::Result<File> {
    match make_held(files, path, mode) {
        Err(error) if is_taken(&error) => {}
        outcome => return outcome,
    }
    match take_free(files, path, None) {
        Err(error) if error.kind() != ErrorKind::NotFound => Err(error),
        _ => make_held(files, path, mode),
    }
}

/// Gives a file that was made its permissions, if it was made with others: it is complete.
///
/// # Errors
/// Those of the system.
pub(crate) fn complete(file: &File, mode: Option<u32>) -> io::Result<()> {
    match mode {
        Some(mode) => match file.set_permissions(Permissions::from_mode(mode)) {
            Err(error) if !allows(file, mode)? => Err(error),
            _ => Ok(()),
        },
        None => Ok(()),
    }
}

// Whether a file has these permissions, and perhaps more. Some file systems give each file the same ones, and let
// nobody change them.
fn allows(file: &File, mode: u32) -> io::Result<bool> {
    Ok(file.metadata()?.mode() & mode == mode)
}

// The error that another process has a file.
fn taken() -> io::Error {
    io::Error::from_raw_os_error(TAKEN)
}

/// Whether an error says that another process has a file.
pub(crate) fn is_taken(error: &io::Error) -> bool {
    error.kind() == ErrorKind::WouldBlock
}

// The answer of a call. An error of this kind says that another process has the file.
fn unless_taken<T>(outcome: io::Result<T>, kind: ErrorKind) -> io::Result<T> {
    match outcome {
        Err(error) if error.kind() == kind => Err(taken()),
        outcome => outcome,
    }
}

// Makes a new file at a path, and locks it. Another process may have found and taken it away before it was locked.
fn make_held<R: Files<File = File>>(files: &R, path: &str, mode: u32) -> io::Result<File> {
    let made = OpenOptions::new()
        .read(true)
        .write(true)
        .create_new(true)
        .mode(mode)
        .open(files, path);
    let file = unless_taken(made, ErrorKind::AlreadyExists)?;
    match hold(files, &file, path, RangeLock::Exclusive) {
        Ok(true) => Ok(file),
        Ok(false) => Err(taken()),
        Err(error) => {
            // no process can lock such a file, so it is of no use
            if matches!(is_at(files, &file, path), Ok(true)) {
                let _ = files.remove_file(path);
            }
            Err(error)
        }
    }
}

/// Checks that what was looked at is a file; if not, the error is the system's for such a thing.
pub(crate) fn check_file(found: &Metadata) -> io::Result<()> {
    let error = match (found.is_file(), found.is_dir(), found.is_symlink()) {
        (true, _, _) => return Ok(()),
        (_, true, _) => IS_FOLDER,
        (_, _, true) => IS_LINK,
        _ => INVALID,
    };
    Err(io::Error::from_raw_os_error(error))
}

// Checks that a file which was looked at is not the standard input. With it the text would be lost that is read.
fn check_not_input<R: Files>(files: &R, found: &Metadata) -> io::Result<()> {
    match files.metadata(INPUT) {
        Ok(input) if Identity::of(&input) == Identity::of(found) => {
            Err(io::Error::from_raw_os_error(IN_USE))
        }
        _ => Ok(()),
    }
}

/// Checks that a file may be moved to this path: nothing stands there, or something that is not the standard input.
pub(crate) fn check_onto<R: Files>(files: &R, path: &str) -> io::Result<()> {
    match files.symlink_metadata(path) {
        Ok(found) => check_not_input(files, &found),
        Err(error) if error.kind() == ErrorKind::NotFound => Ok(()),
        Err(error) => Err(error),
    }
}

/// Takes away what stands at a path, if it is a file that no process has, and not the standard input; if one is named,
/// only that one. Anything but a file is left there. It has no lock by which two processes could agree which of them
/// takes it away, so one might take away the other's new file.
///
/// # Errors
/// `NotFound` if nothing stands there; `WouldBlock` if another process has the file; that of `stale` if it is another
/// file than is named; others of the system.
pub(crate) fn take_free<R: Files<File = File>>(
    files: &R,
    path: &str,
    only: Option<Identity>,
) -> io::Result<()> {
    check_removable(files, &files.symlink_metadata(path)?, only)?;
    // (if a pipe was put there meanwhile, opening it to read and write does not wait)
    let opened = OpenOptions::new().read(true).write(true).open(files, path);
    let file = unless_taken(opened, ErrorKind::PermissionDenied)?;
    let removed = remove_held(files, &file, path, only);
    drop(file);
    removed
}

// Checks that what was looked at may be taken away.
fn check_removable<R: Files>(
    files: &R,
    found: &Metadata,
    only: Option<Identity>,
) -> io::Result<()> {
    check_file(found)?;
    check_wanted(found, only)?;
    check_not_input(files, found)
}

// Takes away a file that was opened, if no other process has it, and it is the one that is named, if one is.
fn remove_held<R: Files<File = File>>(
    files: &R,
    file: &File,
    path: &str,
    only: Option<Identity>,
) -> io::Result<()> {
    if !hold(files, file, path, RangeLock::Exclusive)?
        && !hold(files, file, path, RangeLock::Shared)?
    {
        return Err(taken());
    }
    check_wanted(&file.metadata()?, only)?;
    files.remove_file(path)
}

// Checks that a file that was looked at is the one that is named, if one is.
fn check_wanted(found: &Metadata, only: Option<Identity>) -> io::Result<()> {
    match only {
        Some(only) if only != Identity::of(found) => Err(stale()),
        _ => Ok(()),
    }
}

// Locks a file, if no other process has a lock in the way, and answers whether it is locked and still stands at its
// path. Whoever may read a file can have a shared lock, beside which others can share it too. A process that made a
// file shares its lock with nobody. (Two processes that find a file so locked at one moment may both take it away. The
// second may then take away the new file of the first, whose look before the rename fails.)
fn hold<R: Files<File = File>>(
    files: &R,
    file: &File,
    path: &str,
    kind: RangeLock,
) -> io::Result<bool> {
    Ok(lock(file, kind)? && is_at(files, file, path)?)
}

// Locks the first byte of a file, if no other process has a lock in the way, and answers whether it is locked.
fn lock(file: &File, kind: RangeLock) -> io::Result<bool> {
    if os::try_lock_range(file.as_raw_fd(), kind, 0, 1) == 0 {
        return Ok(true);
    }
    let error = io::Error::from_raw_os_error(os::errno());
    if is_taken(&error) {
        Ok(false)
    } else {
        Err(error)
    }
}

// Whether an opened file stands at a path.
fn is_at<R: Files<File = File>>(files: &R, file: &File, path: &str) -> io::Result<bool> {
    match is_same(file.metadata(), files.symlink_metadata(path)) {
        Err(error) if error.kind() == ErrorKind::NotFound => Ok(false),
        outcome => outcome,
    }
}

/// The permissions that the process masks, if the system says so.
pub(crate) fn read_mask<R: Files<File = File>>(files: &R) -> Option<u32> {
    let mut start = [0; 256];
    let mut file = OpenOptions::new().read(true).open(files, STATUS).ok()?;
    let count = file.read(&mut start).ok()?;
    let text = str::from_utf8(&start[..count]).ok()?;
    for line in text.lines() {
        if let Some(mask) = line.strip_prefix(MASK) {
            return u32::from_str_radix(mask, 8).ok();
        }
    }
    None
}
