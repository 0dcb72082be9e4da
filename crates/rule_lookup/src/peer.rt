//! The other end of a connection.
ghost use Rattle.std.specs.Prelude.{◌≡◌, IfOk, IfErr, option_map, string_bytes, true};
ghost use Rattle.rule_lookup.specs.Peers.{Client, HasNames, is_peer_name, may_be_name, lowered, given, RefusesNames};
ghost use Rattle.rule_lookup.specs.declared.peer.PeerFault.TheVariants.{OutOfMemory};

use std::alloc::{AllocError, AllocFailed, Global};
use std::marker::Model;

/// Why a peer can't be made.
#[derive(Clone, Copy)]
pub enum PeerFault {
    /// The host's name is empty, longer than 255 bytes, or has a zero byte.
    BadHost,
    /// The user's name is empty, longer than 255 bytes, or has a zero byte.
    BadInfo,
    /// There was no memory for the names.
    OutOfMemory,
}

impl From<AllocError> for PeerFault {
    ghost from_gives = { λ _ e. e ≡ OutOfMemory };

    fn from(_error: AllocError) -> PeerFault {
        PeerFault::OutOfMemory
    }
}

impl<T: Drop> From<AllocFailed<T>> for PeerFault {
    ghost from_gives = { λ _ e. e ≡ OutOfMemory };

    fn from(_error: AllocFailed<T>) -> PeerFault {
        PeerFault::OutOfMemory
    }
}

/// The other end of a connection: its address and port, and the names of its host and user if they are known.
///
/// Each name has 1 to 255 bytes without a zero byte. The host's is in lower case.
#[derive(Drop)]
pub struct Peer {
    ip: [u8; 4],
    port: u16,
    host: Option<String>,
    info: Option<String>,
}

impl Model for Peer {
    ghost use Rattle.std.specs.Prelude.{option_map, string_bytes};
    ghost use Rattle.rule_lookup.specs.Peers.{Client};

    ghost Value = { Client };

    ghost use Rattle.rule_lookup.specs.Peers.{HasNames};

    ghost view = { λ p.
        record {
          ip = p.ip;
          port = p.port;
          host = option_map string_bytes p.host;
          info = option_map string_bytes p.info;
        } };

    ghost invariant = { λ p. HasNames (option_map string_bytes p.host) (option_map string_bytes p.info) };
}

impl Peer {
    /// A peer with these names, the host's in lower case. A bad host is answered before a bad user.
    pub fn new(
        alloc: Global,
        ip: [u8; 4],
        port: u16,
        host: Option<&str>,
        info: Option<&str>,
    ) -> Result<Peer, PeerFault>
        ensures kept { IfOk result (λ peer.
            peer ≡ record { ip = ip; port = port; host = lowered host.entry; info = given info.entry }) }
        ensures host_fits { IfOk result (λ _. may_be_name host.entry ≡ true) }
        ensures info_fits { IfOk result (λ _. may_be_name info.entry ≡ true) }
        ensures refused { IfErr result (RefusesNames host.entry info.entry) }
    {
        if !may_be_name(host) {
            return Err(PeerFault::BadHost);
        }
        if !may_be_name(info) {
            return Err(PeerFault::BadInfo);
        }
        Ok(Peer {
            ip,
            port,
            host: lower_name(alloc, host)?,
            info: own_name(alloc, info)?,
        })
    }

    /// The IPv4 address, in the order in which it is written.
    pub fn ip(&self) -> [u8; 4]
        ensures { result ≡ self.now.ip }
    {
        self.ip
    }

    /// The port.
    pub fn port(&self) -> u16
        ensures { result ≡ self.now.port }
    {
        self.port
    }

    /// The host's name in lower case, if it is known.
    pub fn host(&self) -> Option<&str>
        ensures value { given result ≡ self.now.host }
        ensures names { HasNames self.now.host self.now.info }
    {
        name_in(&self.host)
    }

    /// The user's name, if it is known.
    pub fn info(&self) -> Option<&str>
        ensures value { given result ≡ self.now.info }
        ensures names { HasNames self.now.host self.now.info }
    {
        name_in(&self.info)
    }

    /// A copy of the peer.
    pub fn copy(&self) -> Result<Peer, AllocError>
        ensures { IfOk result (λ peer. peer ≡ self.now) }
    {
        Ok(Peer {
            ip: self.ip,
            port: self.port,
            host: copy_name(&self.host)?,
            info: copy_name(&self.info)?,
        })
    }
}

fn is_peer_name(name: &[u8]) -> bool
    ensures { result ≡ is_peer_name name.now }
{
    !name.is_empty() && name.len() <= 255 && !name.contains(&0)
}

fn may_be_name(name: Option<&str>) -> bool
    ensures { result ≡ may_be_name name.entry }
{
    match name {
        None => true,
        Some(text) => is_peer_name(text.as_bytes()),
    }
}

fn lower_name(alloc: Global, name: Option<&str>) -> Result<Option<String>, AllocError>
    ensures { IfOk result (λ own. option_map string_bytes own ≡ lowered name.entry) }
{
    match name {
        None => Ok(None),
        Some(text) => Ok(Some(text.to_ascii_lowercase(alloc)?)),
    }
}

fn own_name(alloc: Global, name: Option<&str>) -> Result<Option<String>, AllocError>
    ensures { IfOk result (λ own. option_map string_bytes own ≡ given name.entry) }
{
    match name {
        None => Ok(None),
        Some(text) => Ok(Some(String::from_str(alloc, text)?)),
    }
}

fn copy_name(name: &Option<String>) -> Result<Option<String>, AllocError>
    ensures { IfOk result (λ own. option_map string_bytes own ≡ option_map string_bytes name.now) }
{
    match name {
        None => Ok(None),
        Some(text) => Ok(Some(text.clone()?)),
    }
}

fn name_in(name: &Option<String>) -> Option<&str>
    ensures { given result ≡ option_map string_bytes name.now }
{
    match name {
        None => None,
        Some(text) => Some(text.as_str()),
    }
}
