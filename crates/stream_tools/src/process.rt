//! Processes of the system, started at a path of bytes.
ghost use Rattle.std.specs.Prelude.{◌≡◌, IfOk};
ghost use Rattle.std.specs.IoError.{error_kind, raw_os_error};
ghost use Rattle.stream_tools.specs.Starts.{told_of};

use crate::child::{Child, Start};
use crate::search::{SearchPath, put_path};
use child_jobs::{Environment, NotStarted, Program, StartFault};
use std::alloc::Global;
use std::io::{Error, ErrorKind};
use std::os::fd::RawFd;

/// Why a program was not started, by an error of the system.
pub(crate) fn not_started(error: &Error) -> NotStarted
    ensures fault { result.fault ≡ told_of (error_kind error.now) }
    ensures error { result.error ≡ raw_os_error error.now }
{
    let fault = match error.kind() {
        ErrorKind::NotFound => StartFault::NotFound,
        ErrorKind::PermissionDenied => StartFault::Refused,
        ErrorKind::OutOfMemory => StartFault::OutOfMemory,
        _ => StartFault::Other,
    };
    let error = error.raw_os_error();
    NotStarted { fault, error }
}

/// Starts a program with these variables and no others, and these descriptors as 0, 1 and 2; a negative one stands for
/// this process's own. It gets no other descriptor. Argument 0 is the program's name as it is given. A name without a
/// slash is looked for in the folders of `search`, whatever the variables say: in each in turn until it is started; a
/// folder that is not there, that is a file, or in which the program may not be executed is passed over. The child is
/// neither waited for nor killed by itself.
///
/// # Errors
/// `NotFound` where there is no such program, `Refused` where one was found that may not be executed, `Other` where
/// anything else is amiss, as a zero byte in a word; `OutOfMemory`. Nothing runs then.
pub(crate) fn start_process(
    alloc: Global,
    search: &SearchPath,
    program: &Program,
    environment: &Environment,
    streams: [RawFd; 3],
) -> Result<Child, NotStarted>
    ensures program { IfOk result (λ child. child.program.value ≡ program.now) }
    ensures environment { IfOk result (λ child. child.environment.value ≡ environment.now) }
{
    let start = Start::new(alloc, program, environment, streams)?;
    let name = program.path().as_bytes();
    if name.is_empty() || name.contains(&b'/') {
        return match start.at(name) {
            Ok(child) => Ok(child),
            Err(error) => Err(not_started(&error)),
        };
    }
    start_along(alloc, search, &start, name)
}

// Starts the program of this name that the first folder has.
fn start_along(
    alloc: Global,
    search: &SearchPath,
    start: &Start<'_>,
    name: &[u8],
) -> Result<Child, NotStarted>
    ensures program { IfOk result (λ child. child.program.value ≡ start.now.program.now) }
    ensures environment { IfOk result (λ child. child.environment.value ≡ start.now.environment.now) }
{
    let mut path = Vec::new(alloc);
    let mut missed = not_started(&Error::from_raw_os_error(libc::ENOENT));
    for folder in search.path.split(|&byte| byte == b':') {
        if put_path(&mut path, folder, name).is_err() {
            return Err(NotStarted::from(StartFault::OutOfMemory));
        }
        match start.at(&path) {
            Ok(child) => return Ok(child),
            Err(error) => match error.kind() {
                ErrorKind::NotFound | ErrorKind::NotADirectory => {}
                ErrorKind::PermissionDenied => missed = not_started(&error),
                _ => return Err(not_started(&error)),
            },
        }
    }
    Err(missed)
}
