//! Variables, and what they tell of a client.
ghost use Rattle.std.specs.Prelude.{◌≡◌, ◌⊎◌, ℕ, Bool, List, Option, Some, None, Err, Ok, IsTrue, IfOk, IfErr, false, option_map, string_bytes, codes};
ghost use Rattle.rule_lookup.specs.Peers.{given};
ghost use Rattle.rules_tools.specs.Clients.{ClientFails, address_told, client_by, client_of, known, text_in};
ghost use Rattle.rules_tools.specs.declared.tcprulescheck.CheckFault.TheVariants.{BadIp, OutOfMemory};

use crate::tcprulescheck::CheckFault;
use rule_lookup::{Peer, PeerFault, parse_address};
use std::alloc::{AllocError, Global};
use std::env::{self, VarError};
use std::rt::Env;

/// The address of a peer of which none is known.
const NO_ADDRESS: [u8; 4] = [0; 4];

/// Variables.
pub trait Variables {
    /// The value of a variable, if it is set.
    ghost value: { Self → List ℕ → Option (List ℕ) };

    /// Whether it is known what they are.
    ghost honest: { Bool };

    /// The value of a variable, if it is set and UTF-8.
    ///
    /// # Errors
    /// There was no memory.
    fn get(&self, alloc: Global, name: &str) -> Result<Option<String>, AllocError>
        ensures { IsTrue honest → IfOk result (λ found. option_map string_bytes found ≡ text_in (value self.now name.now)) };
}

/// The variables of this process. Nothing is known of them.
#[derive(Drop)]
pub struct SystemVariables<'a, E>(pub &'a E);

impl<'a, E: Env + AllocGlobal> Variables for SystemVariables<'a, E> {
    ghost value = { λ _ _. None };

    ghost honest = { false };

    fn get(&self, _alloc: Global, name: &str) -> Result<Option<String>, AllocError> {
        match env::var(self.0, name) {
            Ok(text) => Ok(Some(text)),
            Err(VarError::NotPresent) | Err(VarError::NotUnicode) => Ok(None),
            Err(VarError::OutOfMemory) => Err(AllocError),
        }
    }
}

/// The peer of `TCPREMOTEIP`, `TCPREMOTEHOST` and `TCPREMOTEINFO`. What is unset, empty or no UTF-8 is unknown; an
/// unknown address is 0.0.0.0.
///
/// # Errors
/// `BadIp`, else `BadHost`, else `BadInfo`, where the variable is no address, or no name that a peer may have;
/// `OutOfMemory`.
pub fn read_peer<V: Variables>(alloc: Global, variables: &V) -> Result<Peer, CheckFault>
    ensures told { IsTrue V.honest → IfOk result (λ peer. client_of (V.value variables.now) ≡ Ok peer) }
    ensures refused { IsTrue V.honest → IfErr result (ClientFails (V.value variables.now)) }
{
    let ip = read_address(alloc, variables)?;
    let host = read_variable(alloc, variables, "TCPREMOTEHOST")?;
    let info = read_variable(alloc, variables, "TCPREMOTEINFO")?;
    make_peer(alloc, ip, host.as_deref(), info.as_deref())
}

/// The address of `TCPREMOTEIP`.
fn read_address<V: Variables>(alloc: Global, variables: &V) -> Result<[u8; 4], CheckFault>
    ensures told { IsTrue V.honest → IfOk result (λ ip.
        address_told (known (V.value variables.now (codes "TCPREMOTEIP"))) ≡ Some ip) }
    ensures refused { IsTrue V.honest → IfErr result (λ fault. fault ≡ BadIp
        → address_told (known (V.value variables.now (codes "TCPREMOTEIP"))) ≡ None) }
    ensures faults { IfErr result (λ fault. (fault ≡ BadIp) ⊎ (fault ≡ OutOfMemory)) }
{
    match read_variable(alloc, variables, "TCPREMOTEIP")? {
        None => Ok(NO_ADDRESS),
        Some(text) => parse_address(text.as_str()).ok_or(CheckFault::BadIp),
    }
}

/// A variable, if it is set, not empty, and UTF-8.
fn read_variable<V: Variables>(
    alloc: Global,
    variables: &V,
    name: &str,
) -> Result<Option<String>, AllocError>
    ensures { IsTrue V.honest → IfOk result (λ found. option_map string_bytes found ≡ known (V.value variables.now name.now)) }
{
    match variables.get(alloc, name)? {
        Some(text) if text.is_empty() => Ok(None),
        found => Ok(found),
    }
}

/// The peer of what is known of it.
fn make_peer(
    alloc: Global,
    ip: [u8; 4],
    host: Option<&str>,
    info: Option<&str>,
) -> Result<Peer, CheckFault>
    ensures told { IfOk result (λ peer. client_by (Some ip) (given host.entry) (given info.entry) ≡ Ok peer) }
    ensures refused { IfErr result (λ fault. (fault ≡ OutOfMemory)
        ⊎ (client_by (Some ip) (given host.entry) (given info.entry) ≡ Err fault)) }
{
    match Peer::new(alloc, ip, 0, host, info) {
        Ok(peer) => Ok(peer),
        Err(PeerFault::BadHost) => Err(CheckFault::BadHost),
        Err(PeerFault::BadInfo) => Err(CheckFault::BadInfo),
        Err(PeerFault::OutOfMemory) => Err(CheckFault::OutOfMemory),
    }
}
