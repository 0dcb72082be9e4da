//! Turns of connections: values that ask the yard of connections for one event each. They are the yard's calls without
//! that of an opening, since a whole yard opens the rules itself (`Open`).
ghost use Rattle.std.specs.Prelude.{◌≡◌, ⊤, ℕ, Option, Some};
ghost use Rattle.server_events.specs.declared.event.Event.{Event as TheEvent};
ghost use Rattle.server_events.specs.declared.event.Event.TheVariants as event;
ghost use Rattle.server_yard.specs.Passes.{IsDecidedBy, pass_serial};
ghost use Rattle.server_yard.specs.Rooms.{KeepsRoom};
ghost use Rattle.server_yard.specs.Seating.{leaver};
ghost use Rattle.server_yard.specs.Yards.{yard_roll};
ghost use Rattle.whole_yard.specs.ConnectionTurns.{AdmitsOrNot, Answers, MakesOrNot, NotesTold, told_if_admitted, told_if_made};

use child_jobs::{Job, Place, Running};
use dir_calls::RulesFile;
use rule_lookup::{Decision, Peer};
use server_events::Event;
use server_yard::{AdmitFault, Made, OutOfTurn, Pass, Places, Yard};

/// A turn of a connection: a value that asks a yard for one event, and makes one or none.
pub trait ConnectionTurn<L: Places> {
    /// What it answers.
    type Answer;

    /// What has to hold of the turn itself before it may run.
    ghost may: { Self → Type 0 };

    /// After this many events of a yard whose speaker has this number, the turn may give this answer, and this many
    /// events have happened then.
    ghost answers: { Self → (who before : ℕ) → Self.Answer → (after : ℕ) → Type 0 };

    /// Which event of a connection it made, by its answer.
    ghost tells: { Self → Self.Answer → Option TheEvent };

    /// Runs the turn on a yard.
    fn run(self, yard: &mut Yard<L>) -> Self::Answer
        requires may { may self }
        ensures answers { Answers (answers self) result yard.old yard.new }
        ensures notes { NotesTold (tells self result) (yard_roll yard.old) (yard_roll yard.new) }
        ensures room { KeepsRoom (yard_roll yard.old) (yard_roll yard.new) };
}

/// Lets a connection in, as `Yard::admit` does.
///
/// # Errors
/// Those of `Yard::admit`. Nothing changed.
#[derive(Drop)]
pub struct Admit<'a> {
    /// The client.
    pub peer: &'a Peer,
}

impl<L: Places> ConnectionTurn<L> for Admit<'_> {
    type Answer = Result<(u64, Place<L>, Made), AdmitFault>;

    ghost may = { λ _. ⊤ };

    ghost answers = { λ turn. AdmitsOrNot turn.peer.now };

    ghost tells = { λ turn. told_if_admitted turn.peer.now };

    fn run(self, yard: &mut Yard<L>) -> Result<(u64, Place<L>, Made), AdmitFault> {
        yard.admit(self.peer)
    }
}

/// Notes that a connection was decided, as `Yard::decided` does.
///
/// # Errors
/// The event is out of turn, or the peer is not the connection's. Nothing changed.
#[derive(Drop)]
pub struct Decided<'a, L: Places, F: RulesFile + Drop> {
    /// What the connection opened.
    pub pass: Pass<L, F>,
    /// The connection's client.
    pub peer: &'a Peer,
    /// The decision by what the connection opened.
    pub decision: Decision,
}

impl<L: Places, F: RulesFile + Drop> ConnectionTurn<L> for Decided<'_, L, F> {
    type Answer = Result<Made, OutOfTurn>;

    ghost may = { λ turn. IsDecidedBy L.missing F.honest F.sound F.bytes turn.pass turn.peer.now turn.decision };

    ghost answers = { λ turn. MakesOrNot (event.Decided (pass_serial turn.pass) turn.decision) };

    ghost tells = { λ turn. told_if_made (event.Decided (pass_serial turn.pass) turn.decision) };

    fn run(self, yard: &mut Yard<L>) -> Result<Made, OutOfTurn> {
        let Decided {
            pass,
            peer,
            decision,
        } = self;
        let answer = yard.decided(&pass, peer, decision);
        drop(pass);
        answer
    }
}

/// Notes that the child of the connection with this serial runs, as `Yard::started` does.
///
/// # Errors
/// The event is out of turn, or the child's place is not the connection's. Nothing changed.
#[derive(Drop)]
pub struct Started<'a, L: Places, C: Job> {
    /// The connection's serial.
    pub serial: u64,
    /// The child.
    pub running: &'a Running<L, C>,
}

impl<L: Places, C: Job> ConnectionTurn<L> for Started<'_, L, C> {
    type Answer = Result<Made, OutOfTurn>;

    ghost may = { λ _. ⊤ };

    ghost answers = { λ turn. MakesOrNot (event.Started turn.serial) };

    ghost tells = { λ turn. told_if_made (event.Started turn.serial) };

    fn run(self, yard: &mut Yard<L>) -> Result<Made, OutOfTurn> {
        yard.started(self.serial, self.running)
    }
}

/// Notes that the connection with this serial has gone by this event, as `Yard::left` does.
///
/// # Errors
/// The event is out of turn, or the place is not the connection's. The place stays counted for good, and nothing
/// changed.
pub struct Left<L: Places> {
    /// The connection's serial.
    pub serial: u64,
    /// Its place.
    pub place: Place<L>,
    /// How it goes.
    pub event: Event,
}

impl<L: Places> ConnectionTurn<L> for Left<L> {
    type Answer = Result<Made, OutOfTurn>;

    ghost may = { λ turn. leaver turn.event ≡ Some turn.serial };

    ghost answers = { λ turn. MakesOrNot turn.event };

    ghost tells = { λ turn. told_if_made turn.event };

    fn run(self, yard: &mut Yard<L>) -> Result<Made, OutOfTurn> {
        let Left {
            serial,
            place,
            event,
        } = self;
        yard.left(serial, place, event)
    }
}

/// Notes that the child of the connection with this serial could not be waited for, as `Yard::retired` does. In turn or
/// not, the child is abandoned, and its place stays counted for good.
///
/// # Errors
/// The event is out of turn, or the child's place is not the connection's. Nothing changed.
pub struct Retired<L: Places, C: Job> {
    /// The connection's serial.
    pub serial: u64,
    /// The child.
    pub running: Running<L, C>,
}

impl<L: Places, C: Job> ConnectionTurn<L> for Retired<L, C> {
    type Answer = Result<Made, OutOfTurn>;

    ghost may = { λ _. ⊤ };

    ghost answers = { λ turn. MakesOrNot (event.Retired turn.serial) };

    ghost tells = { λ turn. told_if_made (event.Retired turn.serial) };

    fn run(self, yard: &mut Yard<L>) -> Result<Made, OutOfTurn> {
        let Retired { serial, running } = self;
        yard.retired(serial, running)
    }
}
