//! The state that a list of events leads to.
ghost use Rattle.std.specs.Prelude.{◌≡◌, length, option_copied, true, OnOk, OnErr};
ghost use Rattle.std.specs.List.{count_by};
ghost use Rattle.server_events.specs.ServerState.{start, stage_of, with_stage, without, count_from, may_admit, after, is_retired, peer_of};

use crate::addresses::AddressCounts;
use crate::event::{Event, Stage};
use dir_calls::Phase;
use rule_lookup::Peer;
use std::alloc::{AllocError, Global};
use std::collections::BTreeMap;
use std::marker::Model;

/// A connection that is alive.
#[derive(Drop)]
pub struct Connection {
    /// The number of the connection.
    pub serial: u64,
    /// Its other end.
    pub peer: Peer,
    /// How far it has come.
    pub stage: Stage,
}

/// The limits, the connections that are alive, the last serial, and the phase of the installation under way.
#[derive(Drop)]
pub struct State {
    limit: u64,
    per_address: u64,
    last: u64,
    /// The connections that are alive, by their serials.
    connections: BTreeMap<u64, Connection>,
    /// How many of them come from each address.
    addresses: AddressCounts,
    pub(crate) phase: Option<Phase>,
}

impl Model for State {
    ghost use Rattle.server_events.specs.ServerState.{ServerState};

    ghost Value = { ServerState };

    ghost use Rattle.server_events.specs.Kept.{Kept, state_of};

    ghost view = { state_of };

    ghost invariant = { Kept };
}

impl State {
    /// A state without connections and without an installation under way.
    pub fn new(alloc: Global, limit: u64, per_address: u64) -> State
        ensures { result ≡ start limit per_address }
    {
        State {
            limit,
            per_address,
            last: 0,
            connections: BTreeMap::new(alloc),
            addresses: AddressCounts::new(alloc),
            phase: None,
        }
    }

    /// The stage of a connection that is alive.
    pub fn stage(&self, serial: u64) -> Option<Stage>
        ensures { result ≡ stage_of serial self.now.connections }
    {
        self.connections.get(&serial).map(|c| c.stage)
    }

    /// The other end of a connection that is alive.
    pub fn peer(&self, serial: u64) -> Option<&Peer>
        ensures { option_copied result ≡ peer_of serial self.now.connections }
    {
        match self.connections.get(&serial) {
            Some(connection) => Some(&connection.peer),
            None => None,
        }
    }

    pub(crate) fn set_stage(&mut self, serial: u64, stage: Stage)
        ensures { self.new ≡ record self.old { connections = with_stage serial stage self.old.connections } }
    {
        if let Some(connection) = self.connections.get_mut(&serial) {
            connection.stage = stage;
        }
    }

    pub(crate) fn remove(&mut self, serial: u64)
        ensures { self.new ≡ record self.old { connections = without serial self.old.connections } }
    {
        if let Some(connection) = self.connections.remove(&serial) {
            self.addresses.leave(connection.peer.ip());
        }
    }

    /// The serial of the last connection that was let in, or 0.
    pub fn last(&self) -> u64
        ensures { result ≡ self.now.last }
    {
        self.last
    }

    /// How many connections are alive.
    pub fn live(&self) -> u64
        ensures { result ≡ length self.now.connections }
    {
        self.connections.len() as u64
    }

    /// How many of the connections alive are retired.
    pub fn retired(&self) -> u64
        ensures { result ≡ count_by (λ c. is_retired c.stage) self.now.connections }
    {
        self.connections
            .values()
            .filter(|c| is_retired(c.stage))
            .count() as u64
    }

    /// How many of the connections alive come from an address, retired ones too.
    pub fn live_from(&self, ip: [u8; 4]) -> u64
        ensures { result ≡ count_from ip self.now.connections }
    {
        self.addresses.count(ip)
    }

    /// How many connections from one address may be alive at once.
    pub fn address_limit(&self) -> u64
        ensures { result ≡ self.now.per_address }
    {
        self.per_address
    }

    pub(crate) fn may_admit(&self, serial: u64, peer: &Peer) -> bool
        ensures { result ≡ may_admit self.now serial peer.now }
    {
        self.last.checked_add(1) == Some(serial)
            && self.live() < self.limit
            && self.live_from(peer.ip()) < self.per_address
    }

    pub(crate) fn admit(&mut self, serial: u64, peer: Peer) -> Result<(), AllocError>
        requires may_admit { may_admit self.old serial peer ≡ true }
        ensures applied { OnOk result (self.new ≡ after self.old (Event.Admitted serial peer)) }
        ensures unchanged { OnErr result (self.new ≡ self.old) }
    {
        let ip = peer.ip();
        let newcomer = Connection {
            serial,
            peer,
            stage: Stage::Admitted,
        };
        self.addresses.add(ip)?;
        if let Err(refused) = self.connections.insert(serial, newcomer) {
            self.addresses.leave(ip);
            return Err(refused.into());
        }
        self.last = serial;
        Ok(())
    }

    pub(crate) fn set_phase(&mut self, phase: Option<Phase>)
        ensures { self.new ≡ record self.old { phase = phase } }
    {
        self.phase = phase;
    }

    pub(crate) fn stop(&mut self)
        ensures { self.new ≡ after self.old Event.Stop }
    {
        self.connections.clear();
        self.addresses.clear();
        self.phase = None;
    }
}

fn is_retired(stage: Stage) -> bool
    ensures { result ≡ is_retired stage }
{
    matches!(stage, Stage::Retired)
}
