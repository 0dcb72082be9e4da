//! The whole site: a whole yard under one lock, for many threads. It makes the turns of connections, and those by which
//! a yard itself opens the rules or installs.
ghost use Rattle.std.specs.Prelude.{◌≡◌, ◌+◌, ℕ};
ghost use Rattle.whole_yard.specs.Callers.{CountsAtMostOne, CountsForIts, new_count};
ghost use Rattle.whole_yard.specs.WholeYards.{whole_books};

use crate::assumptions::Assumptions;
use crate::caller::{Caller, Callers, NewCallers};
use crate::connection_turns::ConnectionTurn;
use crate::yard::WholeYard;
use dir_calls::Dir;
use std::sync::ledger::{Blank, Book, Share};
use std::sync::{Mutex, Wait};

// A whole yard, and how many events it had since the site was made.
#[derive(Drop)]
struct Guarded<L: Assumptions, N: Callers, D: Dir + Drop> {
    yard: WholeYard<L, D>,
    events: Book<N>,
    // the shares together are that number
    ghost counted: { N.before + events.total ≡ (whole_books yard).count },
}

impl<L: Assumptions, N: Callers, D: Dir + Drop> Guarded<L, N, D> {
    // Runs a turn of a caller. The journal's number before and after the turn says how many events it made.
    fn turn<T: WholeTurn<L, D>>(&mut self, caller: &mut Caller<N>, turn: T) -> T::Answer
        requires may { T.may turn }
        ensures counted { CountsForIts (T.answers turn) result caller.old caller.new }
    {
        let before = self.yard.connections().journal().events();
        let answer = turn.run(&mut self.yard, caller.number());
        let made = self.yard.connections().journal().events() - before;
        self.events.add(&mut caller.share, made);
        answer
    }
}

/// A whole yard that many threads call, one turn after another. Each thread has a caller of its own, and each event
/// belongs to one turn.
#[derive(Drop)]
pub struct WholeSite<L: Assumptions, N: Callers, D: Dir + Drop> {
    guarded: Mutex<Guarded<L, N, D>>,
}

impl<L: Assumptions, N: Callers, D: Dir + Drop> WholeSite<L, N, D> {
    /// A site, and so many callers, each with a part of `blank`. They have made no event.
    pub fn new(
        blank: Blank,
        yard: WholeYard<L, D>,
        callers: u64,
    ) -> (WholeSite<L, N, D>, NewCallers<N>)
        requires name { blank.name ≡ N.name }
        requires parts { (blank.parts ≡ N.parts) × (blank.parts ≡ callers) }
        requires before { N.before ≡ (whole_books yard).count }
        ensures callers { new_count result.1 ≡ callers }
    {
        let (events, share) = blank.open::<N>();
        let site = WholeSite {
            guarded: Mutex::new(Guarded { yard, events }),
        };
        (site, NewCallers::of(share, callers))
    }

    /// Makes a turn for a caller. It waits for the lock, runs the turn on the yard with the caller's number, and lets
    /// the lock go. If the turn made an event, the caller's share grows by it.
    pub fn turn<R: Wait, T: WholeTurn<L, D>>(
        &self,
        rt: &R,
        caller: &mut Caller<N>,
        turn: T,
    ) -> T::Answer
        requires may { T.may turn }
        ensures counted { CountsForIts (T.answers turn) result caller.old caller.new }
    {
        self.guarded.lock(rt).turn(caller, turn)
    }

    /// The yard, for the share of all callers: none of them makes an event any more. Its history has as many events as
    /// when the site was made, and those of the share.
    pub fn close(self, all: Share<N>) -> WholeYard<L, D>
        requires all { all.parts ≡ N.parts }
        ensures history { (whole_books result).count ≡ N.before + all.amount }
    {
        let WholeSite { guarded } = self;
        let Guarded { yard, mut events } = guarded.into_inner();
        let mut all = all;
        events.audit(&mut all);
        yard
    }
}

/// A turn of a whole yard: a value that asks it for one event, and makes one or none.
pub trait WholeTurn<L: Assumptions, D: Dir + Drop> {
    /// What it answers.
    type Answer;

    /// What has to hold of the turn itself before it may run.
    ghost may: { Self → Type 0 };

    /// After this many events, run for the caller with this number, the turn may give this answer, and this many events
    /// have happened then.
    ghost answers: { Self → (who before : ℕ) → Self.Answer → (after : ℕ) → Type 0 };

    /// Runs the turn on a yard, for the caller with this number.
    fn run(self, yard: &mut WholeYard<L, D>, caller: u64) -> Self::Answer
        requires may { may self }
        ensures answers { answers self caller
            (whole_books yard.old).count result (whole_books yard.new).count }
        ensures counts { CountsAtMostOne (whole_books yard.old).count (whole_books yard.new).count };
}

/// A turn of a connection.
#[derive(Drop)]
pub struct OfConnection<T>(pub T);

impl<L: Assumptions, D: Dir + Drop, T: ConnectionTurn<L>> WholeTurn<L, D> for OfConnection<T> {
    type Answer = T::Answer;

    ghost may = { λ turn. T.may turn.0 };

    ghost answers = { λ turn. T.answers turn.0 };

    fn run(self, yard: &mut WholeYard<L, D>, caller: u64) -> T::Answer {
        yard.connection(self.0, caller)
    }
}
