//! The connections of a server with their places, and the journal of all events.
ghost use Rattle.std.specs.Prelude.{◌≡◌, ◌≢◌, ◌<◌, ◌≤◌, ◌+◌, ◌-◌, ◌^◌, ◌↔◌, ◌++◌, ◌∷◌, [], ℕ, List, true, false, Err, Some, None, IfOk, IfErr, IsOk, IsTrue, OnOk, OnErr, is_some, length};
ghost use Rattle.std.specs.List.{count_by};
ghost use Rattle.std.specs.BTreeMap.{get};
ghost use Rattle.std.specs.Ordering.{nat_cmp};
ghost use Rattle.child_jobs.specs.Runs.{place_of};
ghost use Rattle.child_jobs.specs.PlacesOut.{is_used, live_of, RefusesLimits, with_place};
ghost use Rattle.server_events.specs.JournalParts.{books_of_journal, has_room};
ghost use Rattle.server_events.specs.ServerState.{after, count_from, is_connections, is_retired, may_admit, may_happen, stage_of, peer_of};
ghost use Rattle.server_events.specs.declared.event.Event.{Event};
ghost use Rattle.server_events.specs.declared.event.Event.TheVariants.{Admitted, Decided, Opened, Retired, Started};
ghost use Rattle.server_yard.specs.Passes.{IsDecidedBy, pass_file, pass_serial};
ghost use Rattle.server_yard.specs.Rolls.{CountsStored, HasHistory, HasNoEvents, IsQuiet, Lived, Notes, Roll};
ghost use Rattle.server_yard.specs.Rooms.{KeepsRoom, events_left, room_needed, spare_events};
ghost use Rattle.server_yard.specs.Runs.{HasRunTo, IsRun};
ghost use Rattle.server_yard.specs.Seating.{GivesSeat, HasSeats, KeepsSeats, KeepsSerials, LosesOne, goes_on, leaver};
ghost use Rattle.server_yard.specs.declared.yard.AdmitFault.TheVariants.{Full, FullForAddress, OutOfMemory, Spent};

use crate::evidence::{Made, OutOfTurn};
use crate::pass::Pass;
use crate::places::Places;
use cdb_files::CdbFile;
use child_jobs::{Job, Place, PlaceTable, Running, TableFault};
use dir_calls::RulesFile;
use rule_lookup::{Decision, Peer};
use server_events::{Event, Journal, Stage, State, is_same_peer};
use std::alloc::{AllocError, Global};
use std::collections::BTreeMap;
use std::marker::PhantomData;
use std::snapshot::Snapshot;
use std::sync::ledger::{Blank, Ledger};

/// Why a connection isn't let in. Nothing changed.
#[derive(Clone, Copy)]
pub enum AdmitFault {
    /// As many connections are alive as may be, retired ones counted.
    Full,
    /// The last number of an event, or the last serial, was given: 2^64 - 1.
    Spent,
    /// As many connections of its address are alive as may be, retired ones counted.
    FullForAddress,
    /// There was no memory.
    OutOfMemory,
}

// How many events a connection may have, the first among them.
const EVENTS: usize = 5;

/// The connections of a server, each with its place, and the journal of all events.
///
/// Each call that is an event tests whether it is in turn: the table of events allows it now, and the place or the peer
/// is the connection's. If so, the call makes the event, and answers the evidence of it. Otherwise nothing changes. A
/// place, a running child or a pass that a call takes has the yard's ledger, by its type. Nothing here waits for
/// anybody or calls a directory.
pub struct Yard<L: Places> {
    pub(crate) state: State,
    table: PlaceTable<L>,
    // for each index the serial of the connection that last got its place
    seats: BTreeMap<usize, u64>,
    pub(crate) journal: Journal,
    pub(crate) speaker: u64,
    pub ghost history: { HasHistory (books_of_journal journal) state },
    // without installations its events are those of connections
    pub ghost ran: { L.installs ≡ false → HasRunTo (books_of_journal journal) state },
    pub ghost small: { state.limit < 2 ^ 64 },
    pub ghost live: { live_of table ≡ length state.connections },
    pub ghost retired: { table.retired ≡ count_by (λ c. is_retired c.stage) state.connections },
    pub ghost limit: { table.limit ≡ state.limit },
    pub ghost seated: { HasSeats (get nat_cmp seats) table state },
    pub ghost room: { has_room journal (room_needed state.connections) ≡ true },
}

// Written out, the drop of all that a yard has is proved here alone. A derived one is proved in each crate above that
// lets a yard go, with those of all its parts.
impl<L: Places> Drop for Yard<L> {
    fn drop(self) {
        let Yard {
            state,
            table,
            seats,
            journal,
            speaker: _,
        } = self;
        drop(state);
        drop(table);
        drop(seats);
        drop(journal);
    }
}

impl<L: Places> Yard<L> {
    ghost use Rattle.server_yard.specs.Evidence.{IsNoted, Makes, Refuses, evidence_of};
    ghost use Rattle.server_yard.specs.Yards.{HasRun, IsInTurn, IsMade, MayBeDecided, yard_books, yard_journal, yard_roll, yard_seat, yard_server};

    /// A yard without connections.
    ///
    /// At most `limit` connections are alive at once, and at most `per_address` from one address; so with 0 for that
    /// nobody is let in. `blank` has as many parts as the limit says, and the journal has no event.
    ///
    /// # Errors
    /// `ZeroLimit` if the limit is 0.
    pub fn new(
        alloc: Global,
        blank: Blank,
        limit: u64,
        per_address: u64,
        journal: Journal,
    ) -> Result<Yard<L>, TableFault>
        requires name { blank.name ≡ L.name }
        requires parts { (blank.parts ≡ L.parts) × (blank.parts ≡ limit) }
        requires journal { HasNoEvents (books_of_journal journal) }
        ensures made { IfOk result (IsMade limit per_address journal) }
        ensures refused { IfErr result (RefusesLimits limit) }
    {
        let table = PlaceTable::new(alloc, blank, limit)?;
        Ok(Yard {
            state: State::new(alloc, limit, per_address),
            table,
            seats: BTreeMap::new(alloc),
            journal,
            speaker: 0,
        })
    }

    /// How many connections are alive, retired ones too.
    pub fn live(&self) -> u64
        ensures { result ≡ length (yard_server self.now).connections }
    {
        self.state.live()
    }

    /// How many connections may be alive at once.
    pub fn limit(&self) -> u64
        ensures { result ≡ (yard_server self.now).limit }
    {
        self.table.limit()
    }

    /// The journal.
    pub fn journal(&self) -> &Journal
        ensures { result.now ≡ yard_journal self.now }
    {
        &self.journal
    }

    /// A law: each yard has a history.
    ///
    /// The table of events allows it, with these limits. The journal's report, number and notes are those of the
    /// history. Along it never more connections are alive than may be, in all and from one address. If the journal
    /// stores events, it stores as many as it counts.
    pub fn history(&self)
        ensures lived { ∥ Lived (yard_books self.now) (yard_server self.now) ∥₁ }
        ensures limit { length (yard_server self.now).connections ≤ (yard_server self.now).limit }
        ensures per_address { (ip : List ℕ)
            → count_from ip (yard_server self.now).connections ≤ (yard_server self.now).per_address }
        ensures stored { CountsStored (yard_books self.now) }
    {}

    /// A law: the events of a yard that notes no installations are a run.
    pub fn ran(&self)
        requires serves { L.installs ≡ false }
        ensures { HasRun self.now }
    {}

    /// The stage of a connection that is alive.
    pub fn stage(&self, serial: u64) -> Option<Stage>
        ensures { result ≡ stage_of serial (yard_server self.now).connections }
    {
        self.state.stage(serial)
    }

    // Whether the place of an index was given to the connection with this serial, and this event may happen.
    fn is_in_turn(&self, index: usize, serial: u64, event: &Event) -> bool
        ensures { IsTrue result ↔ IsInTurn index serial event.now self.now }
    {
        self.seats.get(&index) == Some(&serial) && self.state.may_happen(event)
    }

    // Whether a peer is the other end of a connection that is alive.
    fn is_peer(&self, serial: u64, peer: &Peer) -> bool
        ensures { IsTrue result ↔ (peer_of serial (yard_server self.now).connections ≡ Some peer.now) }
    {
        match self.state.peer(serial) {
            Some(own) => is_same_peer(own, peer),
            None => false,
        }
    }

    /// Lets a connection in: it is alive from now on, and has the next serial and a place.
    ///
    /// All room that its events will take is made now. So none of them can want for memory.
    ///
    /// # Errors
    /// `Spent` if the last number of an event was given, or that of a connection while another one may be alive;
    /// otherwise `Full` if as many are alive as may be, or `FullForAddress` if as many from its address are; otherwise
    /// `OutOfMemory`. Nothing changed.
    pub fn admit(&mut self, peer: &Peer) -> Result<(u64, Place<L>, Made), AdmitFault>
        ensures spent { (result ≡ Err Spent) ↔ Refuses
            Spent peer.now.ip (yard_books self.old).count (yard_server self.old) }
        ensures full { (result ≡ Err Full) ↔ Refuses
            Full peer.now.ip (yard_books self.old).count (yard_server self.old) }
        ensures full_for_address { (result ≡ Err FullForAddress) ↔ Refuses
            FullForAddress peer.now.ip (yard_books self.old).count (yard_server self.old) }
        ensures made { IfOk result (λ r.
            IsNoted (Admitted r.0 peer.now) r.2 (yard_roll self.old) (yard_roll self.new)) }
        ensures next { OnOk result ((yard_books self.new).count ≡ (yard_books self.old).count + 1) }
        ensures seat { IfOk result (λ r. GivesSeat r.1 r.0 (yard_seat self.old) (yard_seat self.new)) }
        ensures refused { OnErr result (IsQuiet (yard_roll self.old) (yard_roll self.new)) }
        ensures room { KeepsRoom (yard_roll self.old) (yard_roll self.new) }
        ensures same_seats { OnErr result
            (KeepsSerials (yard_server self.old) (yard_seat self.old) (yard_seat self.new)) }
    {
        let serial = self.next_serial(peer)?;
        match self.take_in(peer, serial) {
            Ok((place, made)) => Ok((serial, place, made)),
            Err(_) => Err(AdmitFault::OutOfMemory),
        }
    }

    // The serial of a connection, if it may be let in.
    fn next_serial(&self, peer: &Peer) -> Result<u64, AdmitFault>
        ensures spent { (result ≡ Err Spent) ↔ Refuses
            Spent peer.now.ip (yard_books self.now).count (yard_server self.now) }
        ensures full { (result ≡ Err Full) ↔ Refuses
            Full peer.now.ip (yard_books self.now).count (yard_server self.now) }
        ensures full_for_address { (result ≡ Err FullForAddress) ↔ Refuses
            FullForAddress peer.now.ip (yard_books self.now).count (yard_server self.now) }
        ensures memory { result ≢ Err OutOfMemory }
        ensures next { OnOk result ((yard_books self.now).count ≢ 2 ^ 64 - 1) }
        ensures may { IfOk result (λ serial. may_admit (yard_server self.now) serial peer.now ≡ true) }
    {
        if self.journal.events() == u64::MAX {
            return Err(AdmitFault::Spent);
        }
        if self.table.live() == self.table.limit() {
            return Err(AdmitFault::Full);
        }
        let Some(serial) = self.state.last().checked_add(1) else {
            return Err(AdmitFault::Spent);
        };
        if self.state.live_from(peer.ip()) == self.state.address_limit() {
            return Err(AdmitFault::FullForAddress);
        }
        Ok(serial)
    }

    // Lets in a connection that may be let in, with room for all of its events.
    fn take_in(&mut self, peer: &Peer, serial: u64) -> Result<(Place<L>, Made), AllocError>
        requires may { may_admit (yard_server self.old) serial peer.now ≡ true }
        ensures made { IfOk result (λ r.
            IsNoted (Admitted serial peer.now) r.1 (yard_roll self.old) (yard_roll self.new)) }
        ensures seat { IfOk result (λ r. GivesSeat r.0 serial (yard_seat self.old) (yard_seat self.new)) }
        ensures refused { OnErr result (IsQuiet (yard_roll self.old) (yard_roll self.new)) }
        ensures room { KeepsRoom (yard_roll self.old) (yard_roll self.new) }
        ensures same_seats { OnErr result
            (KeepsSerials (yard_server self.old) (yard_seat self.old) (yard_seat self.new)) }
    {
        let event = Event::Admitted {
            serial,
            peer: peer.copy()?,
        };
        let shown = Snapshot::of(&event);
        self.journal.reserve(EVENTS)?;
        match give_place(
            &mut self.table,
            &mut self.seats,
            &mut self.state,
            serial,
            &event,
        ) {
            Ok(place) => {
                self.journal.note(event, self.speaker);
                Ok((place, Made::of(self, shown)))
            }
            Err(refused) => {
                self.journal.release(EVENTS);
                Err(refused)
            }
        }
    }

    // Makes an event by which a connection goes on and keeps its place, if it may happen. It takes no memory.
    fn go_on(&mut self, event: Event) -> Result<Made, OutOfTurn>
        requires kind { goes_on event ≡ true }
        ensures in_turn { IsOk result ↔ (may_happen (yard_server self.old) event ≡ true) }
        ensures makes { Makes event result self.old self.new }
    {
        if !self.state.may_happen(&event) {
            return Err(OutOfTurn::of(event));
        }
        let shown = Snapshot::of(&event);
        let Ok(()) = self.state.apply(&event) else {
            unreachable!()
        };
        self.journal.note(event, self.speaker);
        Ok(Made::of(self, shown))
    }

    /// A connection that was let in has opened the rules, and has found this file, or none. Its pass has what was
    /// found, and keeps it through all later calls. It takes no memory.
    ///
    /// # Errors
    /// The event is out of turn. Nothing changed, and the file is dropped.
    pub fn opened<F: RulesFile + Drop>(
        &mut self,
        serial: u64,
        file: Option<F>,
    ) -> Result<(Pass<L, F>, Made), OutOfTurn>
        ensures its { IfOk result (λ r. pass_serial r.0 ≡ serial) }
        ensures found { IfOk result (λ r. pass_file r.0 ≡ file) }
        ensures in_turn { IsOk result ↔ (may_happen (yard_server self.old) (Opened serial (is_some file)) ≡ true) }
        ensures makes { Makes (Opened serial (is_some file)) (evidence_of result) self.old self.new }
    {
        let there = file.is_some();
        match self.go_on(Event::Opened { serial, there }) {
            Ok(made) => {
                let file = file.map(CdbFile::new);
                let yard = PhantomData;
                Ok((Pass { serial, file, yard }, made))
            }
            Err(refusal) => {
                drop(file);
                Err(refusal)
            }
        }
    }

    /// A connection was decided, as `decide` decides by the pass that it opened. It takes no memory.
    ///
    /// # Errors
    /// The event is out of turn, or the peer is not the connection's. Nothing changed.
    pub fn decided<F: RulesFile + Drop>(
        &mut self,
        pass: &Pass<L, F>,
        peer: &Peer,
        decision: Decision,
    ) -> Result<Made, OutOfTurn>
        requires decides { IsDecidedBy L.missing F.honest F.sound F.bytes pass.now peer.now decision }
        ensures in_turn { IsOk result ↔ MayBeDecided pass.now peer.now decision self.old }
        ensures makes { Makes (Decided (pass_serial pass.now) decision) result self.old self.new }
    {
        let serial = pass.serial;
        let event = Event::Decided { serial, decision };
        if self.is_peer(serial, peer) {
            self.go_on(event)
        } else {
            Err(OutOfTurn::of(event))
        }
    }

    /// The child of an allowed connection runs, at its place. It takes no memory.
    ///
    /// # Errors
    /// The event is out of turn, or the place is not the connection's. Nothing changed.
    pub fn started<C: Job>(
        &mut self,
        serial: u64,
        running: &Running<L, C>,
    ) -> Result<Made, OutOfTurn>
        ensures in_turn { IsOk result ↔ IsInTurn (place_of running.now) serial (Started serial) self.old }
        ensures makes { Makes (Started serial) result self.old self.new }
    {
        let event = Event::Started { serial };
        if self.is_in_turn(running.place().index(), serial, &event) {
            self.go_on(event)
        } else {
            Err(OutOfTurn::of(event))
        }
    }

    /// A connection has gone by this event, and its place is free. It takes no memory.
    ///
    /// # Errors
    /// The event is out of turn, or the place is not the connection's. Nothing changed: the place stays counted for
    /// good.
    pub fn left(&mut self, serial: u64, place: Place<L>, event: Event) -> Result<Made, OutOfTurn>
        requires goes { leaver event ≡ Some serial }
        ensures in_turn { IsOk result ↔ IsInTurn place serial event self.old }
        ensures makes { Makes event result self.old self.new }
        ensures gone { OnOk result (stage_of serial (yard_server self.new).connections ≡ None) }
    {
        if !self.is_in_turn(place.index(), serial, &event) {
            place.strand();
            return Err(OutOfTurn::of(event));
        }
        let shown = Snapshot::of(&event);
        self.leave(place, serial, event);
        Ok(Made::of(self, shown))
    }

    // How many events a connection may still have after its next.
    fn spare(&self, serial: u64) -> usize
        ensures { result ≡ spare_events (stage_of serial (yard_server self.now).connections) }
    {
        match self.state.stage(serial) {
            Some(stage) => events_left(stage).saturating_sub(1),
            None => 0,
        }
    }

    // Notes an event by which a connection goes. Its place is free.
    fn leave(&mut self, place: Place<L>, serial: u64, event: Event)
        requires kind { leaver event ≡ Some serial }
        requires seat { yard_seat self.old place ≡ Some serial }
        requires may { may_happen (yard_server self.old) event ≡ true }
        ensures noted { Notes event (yard_roll self.old) (yard_roll self.new) }
        ensures room { KeepsRoom (yard_roll self.old) (yard_roll self.new) }
        ensures seats { KeepsSeats (yard_seat self.old) (yard_seat self.new) }
        ensures gone { stage_of serial (yard_server self.new).connections ≡ None }
    {
        let spare = self.spare(serial);
        let Ok(()) = self.state.apply(&event) else {
            unreachable!()
        };
        self.table.leave(place);
        self.journal.note(event, self.speaker);
        self.journal.release(spare);
    }

    /// The child of a connection could not be waited for. In turn or not, it is abandoned, and its place stays counted
    /// for good. It takes no memory.
    ///
    /// # Errors
    /// The event is out of turn, or the place is not the connection's. Nothing changed.
    pub fn retired<C: Job>(
        &mut self,
        serial: u64,
        running: Running<L, C>,
    ) -> Result<Made, OutOfTurn>
        ensures in_turn { IsOk result ↔ IsInTurn (place_of running) serial (Retired serial) self.old }
        ensures makes { Makes (Retired serial) result self.old self.new }
    {
        let event = Event::Retired { serial };
        if !self.is_in_turn(running.place().index(), serial, &event) {
            running.strand();
            return Err(OutOfTurn::of(event));
        }
        let shown = Snapshot::of(&event);
        running.retire(&mut self.table);
        let Ok(()) = self.state.apply(&event) else {
            unreachable!()
        };
        self.journal.note(event, self.speaker);
        Ok(Made::of(self, shown))
    }
}

/// A law: a run goes on by each event of a connection that is noted.
pub fn runs_on()
    ensures { (old new : Roll) (event : Event) (events : List Event) → is_connections event ≡ true
        → Notes event old new → IsRun old.books old.server events → IsRun new.books new.server (events ++ event ∷ []) }
{}

// How many events a connection may still have.
fn events_left(stage: Stage) -> usize
    ensures { result ≡ events_left stage }
{
    match stage {
        Stage::Admitted => 4,
        Stage::Opened => 3,
        Stage::Decided(_) => 2,
        Stage::Started => 1,
        Stage::Retired => 0,
    }
}

// Gives a connection that is let in a place. All three change; or none does, but that the seat of a free index may be
// lost.
fn give_place<L: Ledger>(
    table: &mut PlaceTable<L>,
    seats: &mut BTreeMap<usize, u64>,
    state: &mut State,
    serial: u64,
    event: &Event,
) -> Result<Place<L>, AllocError>
    requires may { may_happen state.old event.now ≡ true }
    requires open { live_of table.old < table.old.limit }
    ensures vacant { IfOk result (λ place. is_used table.old place ≡ false) }
    ensures placed { IfOk result (λ place. table.new ≡ with_place place table.old) }
    ensures seated { IfOk result (λ place. GivesSeat place serial (get nat_cmp seats.old) (get nat_cmp seats.new)) }
    ensures admitted { OnOk result (state.new ≡ after state.old event.now) }
    ensures err { OnErr result ((table.new ≡ table.old) × (state.new ≡ state.old)) }
    ensures err_seats { OnErr result (LosesOne table.old (get nat_cmp seats.old) (get nat_cmp seats.new)) }
{
    let Some(place) = table.admit() else {
        unreachable!()
    };
    let index = place.index();
    if seats.insert(index, serial).is_err() {
        table.leave(place);
        return Err(AllocError);
    }
    if let Err(refused) = state.apply(event) {
        seats.remove(&index);
        table.leave(place);
        return Err(refused);
    }
    Ok(place)
}
