//! How a server ends other than by its count.
ghost use Rattle.std.specs.Prelude.{◌≡◌, None};
ghost use Rattle.server_parts.specs.declared.fault.ServerFault.TheVariants.{OutOfMemory};
ghost use Rattle.server_parts.specs.declared.fault.TcpserverFault.TheVariants.{Words};
ghost use Rattle.server_words.specs.declared.fault.ServerWordsFault.TheVariants as words;

use server_words::ServerWordsFault;
use std::alloc::AllocError;
use std::fmt;
use std::fmt::Display;
use std::io::Error;

/// Why `tcpserver` ends.
#[derive(Clone, Copy)]
pub enum TcpserverFault {
    /// Its words are wrong, or there was no memory to read them.
    Words(ServerWordsFault),
    /// Its words are right, and its server ends.
    Server(ServerFault),
}

/// Why a server ends whose words are right, in the order of its checks. It prints as what stands behind the tool's
/// name.
#[derive(Clone, Copy)]
pub enum ServerFault {
    /// SIGCHLD is ignored, so that the system forgets how programs end.
    CannotWait,
    /// The host table could not be read.
    ReadFault,
    /// This line of the host table, from 1, is none.
    BadHosts(u64),
    /// The folder of the rules file can't be used, or the last part of its path is no name.
    Device,
    /// It can't listen at that address and port.
    CannotListen,
    /// The port could not be printed.
    WriteFault,
    /// A hundred faults of accepting came in succession, or there are too few descriptors for one connection.
    AcceptFault,
    /// All places are retired: no program that has them could be waited for.
    NoPlaces,
    /// The server has lost a connection: one is alive that no thread has, and that is not retired; or another number of
    /// connections had their admission than were let in.
    LostConnection,
    /// There was no memory for the server itself, or no thread or process for a first worker.
    OutOfMemory,
}

impl Display for ServerFault {
    fn fmt<W: fmt::Write>(&self, f: &mut fmt::Formatter<W>) -> fmt::Result {
        f.write_str(match self {
            ServerFault::CannotWait => "cannot wait for programs",
            ServerFault::ReadFault => "read fault",
            ServerFault::BadHosts(line) => return write!(f, "host table line {line}"),
            ServerFault::Device => "device fault",
            ServerFault::CannotListen => "cannot listen",
            ServerFault::WriteFault => "write fault",
            ServerFault::AcceptFault => "accept fault",
            ServerFault::NoPlaces => "no places left",
            ServerFault::LostConnection => "lost connection",
            ServerFault::OutOfMemory => "out of memory",
        })
    }
}

/// Why a server ends, and the system's number of the error (`errno`) by which it does, if it has one.
#[derive(Clone, Copy)]
pub struct ServerFailure {
    /// Why.
    pub fault: ServerFault,
    /// The number of the error.
    pub error: Option<i32>,
}

impl ServerFailure {
    /// By an error of the system.
    pub(crate) fn by(fault: ServerFault, error: &Error) -> ServerFailure
        ensures { result.fault ≡ fault }
    {
        let error = error.raw_os_error();
        ServerFailure { fault, error }
    }
}

impl From<ServerFault> for ServerFailure {
    ghost from_gives = { λ fault failure. failure ≡ record { fault = fault; error = None } };

    fn from(fault: ServerFault) -> ServerFailure {
        ServerFailure { fault, error: None }
    }
}

impl From<AllocError> for ServerFailure {
    ghost from_gives = { λ _ failure. failure ≡ record { fault = OutOfMemory; error = None } };

    fn from(_error: AllocError) -> ServerFailure {
        ServerFailure::from(ServerFault::OutOfMemory)
    }
}

impl From<AllocError> for TcpserverFault {
    ghost from_gives = { λ _ fault. fault ≡ Words words.OutOfMemory };

    fn from(_error: AllocError) -> TcpserverFault {
        TcpserverFault::Words(ServerWordsFault::OutOfMemory)
    }
}
