//! Where connections come from.
use child_jobs::Local;

/// An error of accepting: no connection was given.
#[derive(Clone, Copy)]
pub struct AcceptError {
    /// Whether there was no descriptor or no memory for one. The end of another connection may help.
    pub lacks_room: bool,
    /// The system's number of the error (`errno`), if it has one.
    pub number: Option<i32>,
}

/// An accepted connection. It is closed once it is let go.
#[derive(Drop)]
pub struct Accepted<X> {
    /// The connection itself, which starts its program.
    pub connection: X,
    /// The client's IPv4 address.
    pub ip: [u8; 4],
    /// The client's port.
    pub port: u16,
    /// The server's end, without a name.
    pub local: Local,
}

/// Where connections come from.
pub trait Acceptor {
    /// A connection that came.
    type Came: Send + Drop;

    /// Waits for the next connection.
    ///
    /// # Errors
    /// There is no connection; the call may be made again.
    fn accept(&self) -> Result<Self::Came, AcceptError>;
}
