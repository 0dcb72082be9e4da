//! The server's end of a connection.
ghost use Rattle.std.specs.Prelude.{◌≡◌, option_map, string_bytes};
ghost use Rattle.rule_lookup.specs.Peers.{given};
ghost use Rattle.child_jobs.specs.Ends.{LocalEnd};

use std::marker::Model;

/// The server's end of a connection: its address and port, and the name of its host if it is known. That name may be
/// empty.
#[derive(Drop)]
pub struct Local {
    ip: [u8; 4],
    port: u16,
    host: Option<String>,
}

impl Model for Local {
    ghost use Rattle.std.specs.Prelude.{option_map, string_bytes};
    ghost use Rattle.child_jobs.specs.Ends.{LocalEnd};

    ghost Value = { LocalEnd };

    ghost view = { λ l. record { ip = l.ip; port = l.port; host = option_map string_bytes l.host } };
}

impl Local {
    /// An end with this address and port, and the name of its host if it is known.
    pub fn new(ip: [u8; 4], port: u16, host: Option<String>) -> Local
        ensures { result ≡ record { ip = ip; port = port; host = option_map string_bytes host } }
    {
        Local { ip, port, host }
    }

    /// The address of the server's end.
    pub fn ip(&self) -> [u8; 4]
        ensures { result ≡ self.now.ip }
    {
        self.ip
    }

    /// The port of the server's end.
    pub fn port(&self) -> u16
        ensures { result ≡ self.now.port }
    {
        self.port
    }

    /// The name of its host, if it is known.
    pub fn host(&self) -> Option<&str>
        ensures { given result ≡ self.now.host }
    {
        self.host.as_deref()
    }
}
