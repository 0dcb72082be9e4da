//! The lines of causes, behind that of a fault with which the tool ends.
use crate::fault::{ServerFailure, ServerFault};
use crate::limits::{Counted, MemoryLimits, small_limit};
use byte_text::{append_os_cause, words_of_error};
use fault_hints::{Detail, Voice};
use rules_tools::path::{folder_path, split_path};
use server_words::{Mode, ServerWords};
use std::alloc::{AllocError, Global};
use std::io::Write;
use std::net::Ipv4Addr;

/// The tool's name, at the head of its lines.
const TOOL: &str = "tcpserver";

/// Appends the line of the cause by which a server ends to `causes`, if this voice tells it and there is one. If memory
/// runs out, only a part of the line may be there.
pub fn tell_failure(
    alloc: Global,
    voice: Voice,
    words: &ServerWords<'_>,
    failure: ServerFailure,
    causes: &mut Vec<u8>,
) {
    if let Detail::Line = voice.detail(words.level()) {
        return;
    }
    match failure.error {
        Some(error) => {
            let _ = append_failure(alloc, words, failure.fault, error, causes);
        }
        None => append_known(words.mode(), failure.fault, causes),
    }
}

// The line of a fault that has one without an error of the system, if there is memory for it.
fn append_known(mode: Mode, fault: ServerFault, causes: &mut Vec<u8>) {
    let small = match fault {
        ServerFault::CannotWait => {
            let _ = causes.extend_from_slice(b"tcpserver: cause: SIGCHLD is ignored\n");
            return;
        }
        ServerFault::OutOfMemory => small_limit(mode, MemoryLimits::own()),
        _ => return,
    };
    if let Some(small) = small {
        let (limit, wanted) = (small.limit, small.wanted);
        let counted = match small.counted {
            Counted::Data => "data",
            Counted::Addresses => "address space",
        };
        let _ = writeln!(
            causes,
            "{TOOL}: cause: {counted}: limited to {limit} bytes, at least {wanted} needed"
        );
    }
}

// The line of an error, with what the system was asked for. That of an address with its port has a colon of its own,
// and nothing in it can be misread.
fn append_failure(
    alloc: Global,
    words: &ServerWords<'_>,
    fault: ServerFault,
    error: i32,
    causes: &mut Vec<u8>,
) -> Result<(), AllocError> {
    let what = match fault {
        ServerFault::ReadFault => words.hosts().unwrap_or_default(),
        ServerFault::Device => {
            let path = words.rules().unwrap_or_default();
            // (the name is too long, or a part of the folder's path)
            if error == libc::ENAMETOOLONG {
                path
            } else {
                folder_path(split_path(path).0)
            }
        }
        ServerFault::WriteFault => "stdout",
        _ => {
            let why = words_of_error(alloc, error)?;
            let (address, port) = (words.service().address(), words.service().port());
            let address = Ipv4Addr::from(address);
            let _ = writeln!(causes, "{TOOL}: cause: {address}:{port}: {why}");
            return Ok(());
        }
    };
    append_os_cause(causes, alloc, TOOL, what.as_bytes(), error)
}
