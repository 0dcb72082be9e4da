//! What the tool has of the system, and what its server stands on.
ghost use Rattle.std.specs.Prelude.{◌≡◌, ⊤, ℕ, List, IfOk, IfErr};
ghost use Rattle.server_parts.specs.declared.fault.ServerFault.TheVariants.{CannotListen};

use crate::rules::SystemRules;
use byte_streams::Patient;
use dir_disk::OsDir;
use server_parts::opening::listen;
use server_parts::{RulesOnDisk, ServerFailure};
use server_yard::Places;
use std::fs::{File, Files};
use std::io::{Read, Write};
use std::marker::PhantomData;
use std::net::{Net, OpenListener, TcpStream};
use std::rt::Env;
use std::sync::{Mutex, Wait};
use std::thread::Threads;
use std::time::Clock;
use tcp_service::{Host, ServiceGround};
use tcp_streams::{Connection, ServiceJob};

/// What the tool has of the system. It is a name for these types together, and has no values.
pub(crate) trait System {
    /// The runtime, with the system's files and threads.
    type Runtime: Env
        + Print
        + AllocGlobal
        + Files<File = File, Dir = Self::Folder>
        + Threads
        + Wait
        + Clock
        + Sync;

    /// A folder that is open. None goes to another thread, but the prover asks for each type of the runtime.
    type Folder: Read + Send + Sync + Drop;

    /// A socket that listens.
    type Listener: OpenListener<Stream = TcpStream> + Send + Drop;

    /// What takes what is recorded of connections.
    type Errors: Write + Copy + Send + Sync + Drop;

    /// What takes the lines of the log.
    type Lines: Write + Send + Drop;

    /// Whether a socket listens at this address and port.
    ghost listens: { Self.Listener → List ℕ → ℕ → Type 0 };

    /// A socket that listens at an address and port.
    ///
    /// # Errors
    /// `CannotListen` with each fault of the system.
    fn listen(rt: &Self::Runtime, ip: [u8; 4], port: u16) -> Result<Self::Listener, ServerFailure>
        ensures there { IfOk result (λ listener. listens listener ip port) }
        ensures refused { IfErr result (λ failure. failure.fault ≡ CannotListen) };
}

/// The system of a runtime, with the stream that takes the lines of the log.
pub(crate) struct SystemOf<'a, R, E>(PhantomData<(&'a R, Mutex<E>)>);

impl<'a, R, E> System for SystemOf<'a, R, E>
where
    R: Env + Print + AllocGlobal + Files<File = File> + Threads + Wait + Clock + Sync,
    R: Net<Stream = TcpStream>,
    R::Dir: Send + Sync,
    R::Listener: Send,
    E: Write + Copy + Send + Sync + Drop,
{
    type Runtime = R;

    type Folder = R::Dir;

    type Listener = R::Listener;

    type Errors = E;

    type Lines = Patient<'a, R, E>;

    ghost listens = { λ _ _ _. ⊤ };

    fn listen(rt: &R, ip: [u8; 4], port: u16) -> Result<R::Listener, ServerFailure> {
        listen(rt, ip, port)
    }
}

/// What a server stands on, over this ledger.
pub(crate) struct OnSystem<'a, P: System, L>(PhantomData<(&'a P::Runtime, &'a P::Errors, L)>);

impl<'a, P: System, L: Places> ServiceGround for OnSystem<'a, P, L> {
    type Runtime = P::Runtime;

    type Places = L;

    type File = RulesOnDisk;

    type Folder = OsDir<&'a P::Runtime>;

    type Rules = SystemRules<'a, P::Runtime>;

    type Lines = P::Lines;
}

impl<'a, P: System, L: Places> Host for OnSystem<'a, P, L> {
    type Connection = Connection<'a, P::Runtime, P::Errors>;

    type Job = ServiceJob<'a, P::Runtime, P::Errors>;
}
