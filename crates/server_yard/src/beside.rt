//! Installations beside the connections of a yard, and callers: room for the events of installations in the journal,
//! these events, and for whom events are noted. A server has none of this: each call wants a ledger that says so
//! (`installs`). The whole yard has, which also has the directory (`whole_yard`).
ghost use Rattle.std.specs.Prelude.{◌≡◌, true, OnOk, OnErr};
ghost use Rattle.server_events.specs.Journals.{HasOneMore, HasSameRoom};
ghost use Rattle.server_events.specs.ServerState.{may_happen, is_installations};
ghost use Rattle.server_yard.specs.Rolls.{IsQuiet, Notes};
ghost use Rattle.server_yard.specs.Seating.{HasSpareRoom, KeepsSeats};

use crate::evidence::Made;
use crate::places::Places;
use crate::yard::Yard;
use server_events::Event;
use std::alloc::AllocError;
use std::snapshot::Snapshot;

impl<L: Places> Yard<L> {
    ghost use Rattle.server_yard.specs.Evidence.{IsLast, made_at, made_by, made_event};
    ghost use Rattle.server_yard.specs.Yards.{yard_books, yard_journal, yard_roll, yard_seat, yard_server};

    /// Says who makes the events that follow: a number from 1, or 0 for nobody, as at first. Nothing else changes.
    pub fn speaker(&mut self, speaker: u64)
        requires installs { L.installs ≡ true }
        ensures speaks { yard_roll self.new ≡ record (yard_roll self.old) { speaker = speaker } }
        ensures journal { yard_journal self.new ≡ yard_journal self.old }
        ensures seats { KeepsSeats (yard_seat self.old) (yard_seat self.new) }
    {
        self.speaker = speaker;
    }

    /// Evidence of the event of an installation that was noted last.
    pub fn evidence(&self, event: Snapshot<Event>) -> Made
        requires installs { L.installs ≡ true }
        requires last { IsLast event.value (yard_roll self.now) }
        ensures its { made_event result ≡ event.value }
        ensures for_speaker { made_by result ≡ (yard_roll self.now).speaker }
        ensures at { made_at result ≡ (yard_books self.now).count }
    {
        Made::of(self, event)
    }

    /// Takes room for an event of an installation.
    pub fn reserve(&mut self) -> Result<(), AllocError>
        requires installs { L.installs ≡ true }
        ensures room { OnOk result (HasSpareRoom (yard_roll self.new)) }
        ensures one_more { OnOk result (HasOneMore (yard_roll self.old).room (yard_roll self.new).room) }
        ensures none { OnErr result (HasSameRoom (yard_roll self.old).room (yard_roll self.new).room) }
        ensures quiet { IsQuiet (yard_roll self.old) (yard_roll self.new) }
        ensures seats { KeepsSeats (yard_seat self.old) (yard_seat self.new) }
    {
        self.journal.reserve(1)
    }

    /// Gives the room for an event of an installation back.
    pub fn release(&mut self)
        requires installs { L.installs ≡ true }
        requires room { HasSpareRoom (yard_roll self.old) }
        ensures one_less { HasOneMore (yard_roll self.new).room (yard_roll self.old).room }
        ensures quiet { IsQuiet (yard_roll self.old) (yard_roll self.new) }
        ensures seats { KeepsSeats (yard_seat self.old) (yard_seat self.new) }
    {
        self.journal.release(1);
    }

    /// Notes an event of an installation, into the room that was taken.
    pub fn note_step(&mut self, event: Event)
        requires installs { L.installs ≡ true }
        requires kind { is_installations event ≡ true }
        requires may { may_happen (yard_server self.old) event ≡ true }
        requires room { HasSpareRoom (yard_roll self.old) }
        ensures noted { Notes event (yard_roll self.old) (yard_roll self.new) }
        ensures one_less { HasOneMore (yard_roll self.new).room (yard_roll self.old).room }
        ensures seats { KeepsSeats (yard_seat self.old) (yard_seat self.new) }
    {
        let Ok(()) = self.state.apply(&event) else {
            unreachable!()
        };
        self.journal.note(event, self.speaker);
    }
}
