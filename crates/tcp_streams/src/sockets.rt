//! What accepts connections from a listening socket.
ghost use Rattle.std.specs.Prelude.{◌≡◌, IfOk};
ghost use Rattle.std.specs.Net.Addr.{ipv4_octets};
ghost use Rattle.std.specs.Net.Socket.{v4_ip, v4_port};
ghost use Rattle.tcp_streams.specs.Asked.{acceptor_starter, accepts_at_once, accepts_from, connection_starter, port_of};

use crate::programs::{Connection, ProgramStarter, TOO_MANY_FILES_AT_ALL};
use child_jobs::Local;
use std::io;
use std::io::{Error, ErrorKind};
use std::net::{OpenListener, SocketAddr, SocketAddrV4, TcpStream};
use tcp_connections::{AcceptError, Accepted, Acceptor};

/// `ENOBUFS`: the system has no memory for a socket.
const NO_BUFFERS: i32 = 105;

/// The connections that a listening socket accepts.
#[derive(Drop)]
pub struct SocketAcceptor<'a, R, T, E> {
    listener: T,
    // whether what is written to its connections is sent at once (TCP_NODELAY)
    sends_at_once: bool,
    // what starts their programs
    starter: &'a ProgramStarter<'a, R, E>,
}

impl<'a, R, T: OpenListener<Stream = TcpStream>, E> SocketAcceptor<'a, R, T, E> {
    /// Those of this listener, whose programs this starter starts. What is written to them is sent at once if that is
    /// asked for (`-D`).
    pub fn new(
        listener: T,
        sends_at_once: bool,
        starter: &'a ProgramStarter<'a, R, E>,
    ) -> SocketAcceptor<'a, R, T, E>
        ensures from { accepts_from result ≡ listener }
        ensures at_once { accepts_at_once result ≡ sends_at_once }
        ensures starter { acceptor_starter result ≡ starter.now }
    {
        SocketAcceptor {
            listener,
            sends_at_once,
            starter,
        }
    }

    // Waits for the next connection: its socket, and where its ends are, the server's first. It is an error too if one
    // is no IPv4 end.
    fn next(&self) -> io::Result<(SocketAddrV4, TcpStream, SocketAddrV4)> {
        let (stream, peer) = self.listener.accept()?;
        match (stream.local_addr()?, peer) {
            (SocketAddr::V4(local), SocketAddr::V4(peer)) => Ok((local, stream, peer)),
            _ => Err(Error::from(ErrorKind::Other)),
        }
    }
}

impl<'a, R, T, E> Acceptor for SocketAcceptor<'a, R, T, E>
where
    R: Sync,
    T: OpenListener<Stream = TcpStream> + Drop,
    E: Sync,
{
    type Came = Accepted<Connection<'a, R, E>>;

    fn accept(&self) -> Result<Accepted<Connection<'a, R, E>>, AcceptError>
        ensures port { IfOk result (λ accepted. port_of accepted.connection ≡ accepted.port) }
        ensures starter { IfOk result (λ accepted. connection_starter accepted.connection ≡ acceptor_starter self.now) }
    {
        let (local, socket, peer) = match self.next() {
            Ok(next) => next,
            Err(error) => return Err(error_of(&error)),
        };
        if self.sends_at_once {
            let _ = socket.set_nodelay(true);
        }
        Ok(accepted(local, socket, peer, self.starter))
    }
}

// A connection of this socket between two ends, the server's first.
fn accepted<'a, R, E>(
    local: SocketAddrV4,
    socket: TcpStream,
    peer: SocketAddrV4,
    starter: &'a ProgramStarter<'a, R, E>,
) -> Accepted<Connection<'a, R, E>>
    ensures client { (result.ip ≡ ipv4_octets (v4_ip peer)) × (result.port ≡ v4_port peer) }
    ensures end { (result.local.ip ≡ ipv4_octets (v4_ip local)) × (result.local.port ≡ v4_port local) }
    ensures port { port_of result.connection ≡ v4_port peer }
    ensures starter { connection_starter result.connection ≡ starter.now }
{
    Accepted {
        connection: Connection {
            socket,
            port: peer.port(),
            starter,
        },
        ip: peer.ip().octets(),
        port: peer.port(),
        local: Local::new(local.ip().octets(), local.port(), None),
    }
}

// What the system's error is for a server that accepts.
fn error_of(error: &Error) -> AcceptError {
    let number = error.raw_os_error();
    let lacks_room = match number {
        Some(libc::EMFILE | TOO_MANY_FILES_AT_ALL | NO_BUFFERS) => true,
        _ => error.kind() == ErrorKind::OutOfMemory,
    };
    AcceptError { lacks_room, number }
}
