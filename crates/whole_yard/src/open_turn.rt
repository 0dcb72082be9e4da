//! The turn by which the yard itself opens the rules for a connection. The server doesn't make it: there a connection
//! opens them for itself (`Yard::opened`).
ghost use Rattle.std.specs.Prelude.{◌≡◌, ◌↔◌, ⊤, false, Err, None, IsTrue, IfOk, OnErr, is_some};
ghost use Rattle.server_events.specs.ServerState.{is_admitted, stage_of};
ghost use Rattle.server_events.specs.declared.event.Event.TheVariants as event;
ghost use Rattle.server_yard.specs.Passes.{pass_bytes, pass_file};
ghost use Rattle.server_yard.specs.Rolls.{IsQuiet};
ghost use Rattle.server_yard.specs.Seating.{KeepsSeats};
ghost use Rattle.whole_yard.specs.Installed.{IsWholeFile};
ghost use Rattle.whole_yard.specs.Standing.{LeadsOpened, standing_of};
ghost use Rattle.whole_yard.specs.WholeYards.{IsSameButDirectory, LeavesNothingElse, whole_books, whole_directory, whole_roll, whole_rules, whole_seat, whole_server, whole_state};
ghost use Rattle.whole_yard.specs.Callers.{CountsAtMostOne, NotesBy, spoken_by};
ghost use Rattle.whole_yard.specs.YardTurns.{CountsDevice, IsOnlySpoken, OpensOrNot};
ghost use Rattle.whole_yard.specs.declared.open_turn.OpenFault.TheVariants as open_fault;

use crate::assumptions::Assumptions;
use crate::site::WholeTurn;
use crate::yard::WholeYard;
use dir_calls::{Dir, DirFault};
use server_events::Stage;
use server_yard::{Made, Pass};
use std::alloc::Global;

/// Why the rules aren't opened. Nothing changed but the speaker.
#[derive(Clone, Copy)]
pub enum OpenFault {
    /// The connection isn't alive, or has opened them before.
    OutOfTurn,
    /// The directory's device failed.
    Device,
    /// There was no memory.
    OutOfMemory,
}

/// Opens the rules for a connection, as `WholeYard::open` does.
///
/// # Errors
/// `OutOfTurn` exactly if no connection with this serial is in the stage `Admitted`. Otherwise those of
/// `WholeYard::open`: `Device`, if its failure was counted, and `OutOfMemory`.
#[derive(Drop)]
pub struct Open {
    /// What gives memory.
    pub alloc: Global,
    /// The connection's serial.
    pub serial: u64,
}

impl<L: Assumptions, D: Dir + Drop> WholeTurn<L, D> for Open {
    type Answer = Result<(Pass<L, D::File>, Made), OpenFault>;

    ghost may = { λ _. ⊤ };

    ghost answers = { λ turn. OpensOrNot turn.serial };

    fn run(
        self,
        yard: &mut WholeYard<L, D>,
        caller: u64,
    ) -> Result<(Pass<L, D::File>, Made), OpenFault>
        ensures answers { OpensOrNot self.serial
            caller (whole_books yard.old).count result (whole_books yard.new).count }
        ensures counts { CountsAtMostOne (whole_books yard.old).count (whole_books yard.new).count }
        ensures in_turn { (result ≡ Err open_fault.OutOfTurn)
            ↔ (is_admitted (stage_of self.serial (whole_server yard.old).connections) ≡ false) }
        ensures found { IsTrue D.honest → IfOk result (λ r.
            pass_bytes D.File.bytes r.0 ≡ standing_of (whole_state yard.old)) }
        ensures whole { IsTrue L.met → IfOk result (λ r. ∥ IsWholeFile (pass_bytes D.File.bytes r.0) ∥₁) }
        ensures noted { IfOk result (λ r. NotesBy
            caller (event.Opened self.serial (is_some (pass_file r.0))) (whole_roll yard.old) (whole_roll yard.new)) }
        ensures step { IsTrue D.honest → IfOk result (λ r. LeadsOpened self.serial
            (pass_bytes D.File.bytes r.0) (whole_state yard.old) (whole_state yard.new)) }
        ensures out { result ≡ Err open_fault.OutOfTurn → IsOnlySpoken caller yard.old yard.new }
        ensures refused { OnErr result (IsQuiet (spoken_by caller (whole_roll yard.old)) (whole_roll yard.new)) }
        ensures err_state { IsTrue D.honest → OnErr result (whole_state yard.new ≡ whole_state yard.old) }
        ensures counted { CountsDevice
            (D.failed (whole_directory yard.old)) (D.failed (whole_directory yard.new)) result }
        ensures stops { IsTrue D.honest → LeavesNothingElse yard.old yard.new }
        ensures without { whole_rules yard.old ≡ None → whole_directory yard.new ≡ whole_directory yard.old }
        ensures same { IsSameButDirectory yard.old yard.new }
        ensures seats { KeepsSeats (whole_seat yard.old) (whole_seat yard.new) }
    {
        let Open { alloc, serial } = self;
        yard.speaker(caller);
        if yard.connections().stage(serial) != Some(Stage::Admitted) {
            return Err(OpenFault::OutOfTurn);
        }
        match yard.open(alloc, serial) {
            Ok(opened) => Ok(opened),
            Err(DirFault::OutOfMemory) => Err(OpenFault::OutOfMemory),
            Err(_) => Err(OpenFault::Device),
        }
    }
}
