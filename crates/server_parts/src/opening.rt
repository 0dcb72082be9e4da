//! What a server opens before it begins: its files, folder, socket and program.
ghost use Rattle.std.specs.Prelude.{◌≡◌, ◌⊎◌, [], map, string_bytes, IsTrue, IfOk, IfErr, Some};
ghost use Rattle.server_parts.specs.Asked.{FailsNames, IsAskedPlan};
ghost use Rattle.server_parts.specs.Services.{AreNamesOf};
ghost use Rattle.server_parts.specs.declared.fault.ServerFault.TheVariants.{CannotListen, WriteFault};
ghost use Rattle.stream_tools.specs.Entries.{with_entries};

use crate::fault::{ServerFailure, ServerFault};
use child_jobs::{HostFault, HostTable, Plan, Program};
use server_words::ServerWords;
use std::alloc::{AllocError, Global};
use std::fs::{File, Files};
use std::io::Write;
use std::net::{Ipv4Addr, Net, SocketAddr, SocketAddrV4, TcpListener};
use std::os::fd::AsRawFd;
use std::{fs, io};
use stream_tools::started::{Given, inherited_variables};
use tcp_connections::HostNames;

/// The descriptor of standard error, the last of the standard ones.
const STANDARD_ERROR: i32 = 2;

/// If the tool was started without some of the three standard descriptors, holds them with `/dev/null`. Otherwise a
/// connection or a pipe could get such a number, and lines of the log would go there.
pub fn hold_standard<F: Files<File = File>>(files: &F) -> [Option<File>; 3] {
    [stand_in(files), stand_in(files), stand_in(files)]
}

// The null device, if it gets the number of a standard descriptor.
fn stand_in<F: Files<File = File>>(files: &F) -> Option<File> {
    let file = File::open(files, "/dev/null").ok()?;
    (file.as_raw_fd() <= STANDARD_ERROR).then_some(file)
}

/// The names of the ends of connections, with the host table that the words name.
///
/// # Errors
/// `ReadFault` if the table could not be read, `BadHosts` with the first bad line of it, `OutOfMemory`.
pub fn names_of<F: Files + AllocGlobal>(
    alloc: Global,
    files: &F,
    words: &ServerWords<'_>,
) -> Result<HostNames, ServerFailure>
    ensures asked { IfOk result (AreNamesOf words.now) }
    ensures refused { IfErr result (λ failure. FailsNames words.now.hosts failure.fault) }
{
    let hosts = match words.hosts() {
        Some(path) => Some(read_hosts(alloc, files, path)?),
        None => None,
    };
    let local = match words.local() {
        Some(name) => Some(String::from_str(alloc, name)?),
        None => None,
    };
    Ok(HostNames {
        hosts,
        local,
        remote: words.names_remote(),
        confirm: words.confirms(),
    })
}

// The host table of a file.
fn read_hosts<F: Files + AllocGlobal>(
    alloc: Global,
    files: &F,
    path: &str,
) -> Result<HostTable, ServerFailure>
    ensures refused { IfErr result (λ failure. FailsNames (Some path.now) failure.fault) }
{
    let text = match fs::read(files, path) {
        Ok(text) => text,
        Err(error) if error.kind() == io::ErrorKind::OutOfMemory => {
            return Err(ServerFailure::from(ServerFault::OutOfMemory));
        }
        Err(error) => return Err(ServerFailure::by(ServerFault::ReadFault, &error)),
    };
    match HostTable::read(alloc, text.as_slice()) {
        Ok(table) => Ok(table),
        Err(HostFault::BadLine(line)) => Err(ServerFailure::from(ServerFault::BadHosts(line))),
        Err(HostFault::OutOfMemory) => Err(ServerFailure::from(ServerFault::OutOfMemory)),
    }
}

/// So many clients may wait with the system until they are accepted, or as many as it allows at all. If fewer may, a
/// burst of clients makes it send SYN cookies, and with them it may lose the first bytes that a client sends.
const WAITING: i32 = 4096;

/// A socket that listens at an address and port.
///
/// # Errors
/// `CannotListen` with each fault of the system.
pub fn listen<R: Net>(net: &R, ip: [u8; 4], port: u16) -> Result<R::Listener, ServerFailure>
    ensures refused { IfErr result (λ failure. failure.fault ≡ CannotListen) }
{
    let end = SocketAddr::V4(SocketAddrV4::new(Ipv4Addr::from(ip), port));
    match TcpListener::bind(net, end) {
        Ok(listener) => {
            // (it listens already; if this call fails, fewer clients may wait)
            let _ = libc::net::listen(listener.as_raw_fd(), WAITING);
            Ok(listener)
        }
        Err(error) => Err(ServerFailure::by(ServerFault::CannotListen, &error)),
    }
}

/// Prints the port of a listening socket, as the system tells where it listens.
///
/// # Errors
/// `CannotListen` if the system doesn't tell it, `WriteFault` if it could not be printed.
pub fn print_port<R: Print>(rt: &R, end: &io::Result<SocketAddr>) -> Result<(), ServerFailure>
    ensures refused { IfErr result (λ failure. (failure.fault ≡ CannotListen) ⊎ (failure.fault ≡ WriteFault)) }
{
    let port = match end {
        Ok(end) => end.port(),
        Err(error) => return Err(ServerFailure::by(ServerFault::CannotListen, error)),
    };
    let mut output = io::writer(rt);
    match writeln!(output, "{port}").and_then(|()| output.flush()) {
        Ok(()) => Ok(()),
        Err(error) => Err(ServerFailure::by(ServerFault::WriteFault, &error)),
    }
}

// Equal texts.
fn copies_of(alloc: Global, texts: &[String]) -> Result<Vec<String>, AllocError>
    ensures { IfOk result (λ copies. map string_bytes copies.items ≡ map string_bytes texts.now) }
{
    let mut copies = Vec::new(alloc);
    for text in texts {
        copies.push(String::from_str(alloc, text.as_str())?)?;
    }
    Ok(copies)
}

/// What all connections are served by. Their programs inherit the variables that this process was given.
///
/// # Errors
/// There was no memory.
pub fn plan_of<G: Given>(
    alloc: Global,
    given: &G,
    words: &ServerWords<'_>,
) -> Result<Plan, AllocError>
    ensures asked { IfOk result (IsAskedPlan words.now) }
    ensures inherited { IsTrue G.honest → IfOk result (λ plan. plan.inherited ≡ with_entries [] (G.entries given.now)) }
{
    let service = words.service();
    let args = copies_of(alloc, service.args())?;
    let program = Program::new(String::from_str(alloc, service.path())?, args);
    let inherited = inherited_variables(alloc, given)?;
    let banner = words.banner().to_vec(alloc)?;
    Ok(Plan::new(program, inherited, banner))
}
