//! The names of the two ends of a connection.
ghost use Rattle.std.specs.Prelude.{◌≡◌, IfOk};
ghost use Rattle.rule_lookup.specs.Peers.{given};
ghost use Rattle.tcp_connections.specs.Names.{client_at, client_name, local_at, local_name};

use child_jobs::{HostTable, Local};
use rule_lookup::Peer;
use std::alloc::{AllocError, Global};

/// How the ends of a connection get their names (the page of `tcpserver`: `-h`, `-H`, `-l`, `-p`, `-P`).
pub struct HostNames {
    /// The host table (`-N`).
    pub hosts: Option<HostTable>,
    /// The name of the server's end, which may be empty (`-l`), in place of the table's.
    pub local: Option<String>,
    /// Whether the client's name is taken from the table (`-h`), or it has none (`-H`).
    pub remote: bool,
    /// Whether a client's name that the table does not confirm is removed (`-p`).
    pub confirm: bool,
}

// Written out, the drop of all that it has is proved here alone.
impl Drop for HostNames {
    fn drop(self) {
        let HostNames {
            hosts,
            local,
            remote: _,
            confirm: _,
        } = self;
        drop(hosts);
        drop(local);
    }
}

impl HostNames {
    /// The client at an address and port, with its name if it has one.
    ///
    /// # Errors
    /// There was no memory for the name.
    pub fn peer(&self, alloc: Global, ip: [u8; 4], port: u16) -> Result<Peer, AllocError>
        ensures { IfOk result (λ peer. peer ≡ client_at self.now ip port) }
    {
        match Peer::new(alloc, ip, port, self.client_name(ip), None) {
            Ok(peer) => Ok(peer),
            Err(_) => Err(AllocError),
        }
    }

    /// The server's end at an address and port, with its name if it has one: the given name, or else that of the table.
    ///
    /// # Errors
    /// There was no memory for the name.
    pub fn local(&self, alloc: Global, ip: [u8; 4], port: u16) -> Result<Local, AllocError>
        ensures { IfOk result (λ end. end ≡ local_at self.now ip port) }
    {
        let host = match self.local_name(ip) {
            Some(name) => Some(String::from_str(alloc, name)?),
            None => None,
        };
        Ok(Local::new(ip, port, host))
    }

    // The name of the client at an address, if it has one.
    fn client_name(&self, ip: [u8; 4]) -> Option<&str>
        ensures { given result ≡ client_name self.now ip }
    {
        if !self.remote {
            return None;
        }
        let hosts = self.hosts.as_ref()?;
        let name = hosts.name_of(ip)?;
        if self.confirm && !hosts.confirms(name, ip) {
            None
        } else {
            Some(name)
        }
    }

    // The name of the server's end at an address, if it has one.
    fn local_name(&self, ip: [u8; 4]) -> Option<&str>
        ensures { given result ≡ local_name self.now ip }
    {
        match (&self.local, &self.hosts) {
            (Some(name), _) => Some(name.as_str()),
            (None, Some(hosts)) => hosts.name_of(ip),
            (None, None) => None,
        }
    }
}
