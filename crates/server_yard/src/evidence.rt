//! What a yard answers of the event that it was asked for.
ghost use Rattle.std.specs.Prelude.{◌≡◌};

use crate::places::Places;
use crate::yard::Yard;
use server_events::Event;
use std::snapshot::Snapshot;

/// Evidence that an event was made, at a position of the history, for the yard's speaker. Only a yard makes one, of the
/// event that it noted last. It takes no memory, and copies nothing.
#[derive(Drop)]
pub struct Made {
    caller: u64,
    at: u64,
    event: Snapshot<Event>,
}

impl Made {
    ghost use Rattle.server_yard.specs.Evidence.{IsLast, made_at, made_by, made_event};
    ghost use Rattle.server_yard.specs.Yards.{yard_books, yard_roll};

    // Of this yard's last event.
    pub(crate) fn of<L: Places>(yard: &Yard<L>, event: Snapshot<Event>) -> Made
        requires last { IsLast event.value (yard_roll yard.now) }
        ensures its { made_event result ≡ event.value }
        ensures for_speaker { made_by result ≡ (yard_roll yard.now).speaker }
        ensures at { made_at result ≡ (yard_books yard.now).count }
    {
        Made {
            caller: yard.speaker,
            at: yard.journal.events(),
            event,
        }
    }

    /// The event's position in the whole history of the yard, from 1.
    pub fn at(&self) -> u64
        ensures { result ≡ made_at self.now }
    {
        self.at
    }

    /// For whom it was made: the number of the yard's speaker then.
    pub fn caller(&self) -> u64
        ensures { result ≡ made_by self.now }
    {
        self.caller
    }
}

/// Evidence that a yard was asked for an event, and made none: the table of events does not allow it now, or the place
/// or the peer is not the connection's.
#[derive(Drop)]
pub struct OutOfTurn {
    event: Snapshot<Event>,
}

impl OutOfTurn {
    ghost use Rattle.server_yard.specs.Evidence.{refused_event};

    // That this one was not made.
    pub(crate) fn of(event: Event) -> OutOfTurn
        ensures { refused_event result ≡ event }
    {
        let refused = Snapshot::of(&event);
        drop(event);
        OutOfTurn { event: refused }
    }
}
