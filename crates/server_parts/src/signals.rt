//! The signals that a server was started with.
use memchr::memmem;
use std::fs::{self, File, Files};

/// Where the system tells which signals a process ignores.
const STATUS: &str = "/proc/self/status";

/// The line of these signals has sixteen hexadecimal digits, the last of which has the signals 1 to 4.
const IGNORED: &[u8] = b"\nSigIgn:\t";

/// The position of the digit that has the signals 17 to 20; its lowest bit is SIGCHLD.
const DIGIT: usize = 11;

/// Whether SIGCHLD is ignored, so that the system forgets how programs end. If it does not tell, it counts as not
/// ignored.
pub fn forgets_programs<F: Files<File = File> + AllocGlobal>(files: &F) -> bool {
    let Ok(status) = fs::read(files, STATUS) else {
        return false;
    };
    let Some(line) = memmem::find(&status, IGNORED) else {
        return false;
    };
    let position = line.saturating_add(IGNORED.len()).saturating_add(DIGIT);
    let digit = status.get(position).copied();
    matches!(
        digit,
        Some(b'1' | b'3' | b'5' | b'7' | b'9' | b'b' | b'd' | b'f')
    )
}
