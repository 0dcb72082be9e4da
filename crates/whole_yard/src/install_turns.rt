//! Turns of installations: to begin one, and to make its next step. Each notes its caller as the speaker, makes the
//! yard's call of its name, and answers which event that was, if it was one.
ghost use Rattle.std.specs.Prelude.{◌≡◌, ◌≢◌, ◌+◌, ◌↔◌, ⊤, Err, None, Some, IsTrue, IfOk, IfErr, IfSome, Ok, option_map, if◌then◌else◌};
ghost use Rattle.rules_install.specs.Installs.{installing};
ghost use Rattle.rules_install.specs.Steps.{BlamesDevice, BlamesFault, IsOfDevice};
ghost use Rattle.dir_calls.specs.declared.phase.Phase.TheVariants.{Done};
ghost use Rattle.rules_install.specs.declared.fault.InstallFault.TheVariants.{Over};
ghost use Rattle.server_yard.specs.Evidence.{IsLast};
ghost use Rattle.server_yard.specs.Rolls.{NotesSome};
ghost use Rattle.server_yard.specs.Seating.{KeepsSeats};
ghost use Rattle.whole_yard.specs.Standing.{LeadsSome};
ghost use Rattle.whole_yard.specs.Stepping.{GoesAsStep, IsRefusedAs, begin_event, event_of_step, fault_event, kept_after_begin, kept_after_step, last_begun_after, lists_after_begin, step_event};
ghost use Rattle.whole_yard.specs.WholeYards.{LeavesNothingElse, MayBegin, kept_number, kept_under, last_begun, whole_books, whole_directory, whole_installing, whole_lists, whole_roll, whole_rules, whole_seat, whole_state};
ghost use Rattle.whole_yard.specs.Callers.{CountsAtMostOne, spoken_by};
ghost use Rattle.whole_yard.specs.Receipts.{receipt_after, receipt_at, receipt_of};
ghost use Rattle.whole_yard.specs.YardTurns.{BeginsOrNot, StepsOrNot};

use crate::assumptions::Assumptions;
use crate::site::WholeTurn;
use crate::yard::WholeYard;
use dir_calls::{Dir, Phase};
use rules_install::{Install, InstallFault};
use server_events::Event;
use server_yard::Made;
use std::alloc::Global;
use std::snapshot::Snapshot;

/// Begins an installation, as `WholeYard::install_begin` does. The answer also has the event, if it was one: a first
/// step, or a fault of the directory.
#[derive(Drop)]
pub struct InstallBegin {
    /// What gives memory.
    pub alloc: Global,
    /// The installation.
    pub install: Install,
}

impl<L: Assumptions, D: Dir + Drop> WholeTurn<L, D> for InstallBegin {
    type Answer = (Result<u64, (Install, InstallFault)>, Option<Made>);

    ghost may = { λ _. ⊤ };

    ghost answers = { λ turn. BeginsOrNot (installing turn.install) };

    fn run(
        self,
        yard: &mut WholeYard<L, D>,
        caller: u64,
    ) -> (Result<u64, (Install, InstallFault)>, Option<Made>)
        ensures answers { BeginsOrNot (installing self.install)
            caller (whole_books yard.old).count result (whole_books yard.new).count }
        ensures counts { CountsAtMostOne (whole_books yard.old).count (whole_books yard.new).count }
        ensures over { IsRefusedAs Over result.0 ↔ ¬ MayBegin yard.old (installing self.install) }
        ensures number { IfOk result.0 (λ number. number ≡ last_begun yard.old + 1) }
        ensures begun { last_begun yard.new ≡ last_begun_after result.0 (last_begun yard.old) }
        ensures kept { kept_number yard.new ≡ kept_after_begin result.0 (kept_number yard.old) }
        ensures rules { whole_rules yard.new ≡ whole_rules yard.old }
        ensures noted { NotesSome
            (begin_event result.0) (spoken_by caller (whole_roll yard.old)) (whole_roll yard.new) }
        ensures step { IsTrue D.honest → LeadsSome
            (begin_event result.0) (whole_state yard.old) (whole_state yard.new) }
        ensures stops { IsTrue D.honest → LeavesNothingElse yard.old yard.new }
        ensures lists { whole_lists yard.new
            ≡ lists_after_begin result.0 (installing self.install).rules (whole_lists yard.old) }
        ensures device { IsTrue D.honest → IfErr result.0 (λ r. IsOfDevice (Err r.1)) }
        ensures blames { IfErr result.0 (λ r.
            BlamesFault (D.failed (whole_directory yard.old)) (D.failed (whole_directory yard.new)) r.1) }
        ensures untouched { IsRefusedAs Over result.0 → whole_directory yard.new ≡ whole_directory yard.old }
        ensures seats { KeepsSeats (whole_seat yard.old) (whole_seat yard.new) }
    {
        let InstallBegin { alloc, install } = self;
        yard.speaker(caller);
        let answer = yard.install_begin(alloc, install);
        let made = evidence(yard, begin_event(&answer));
        (answer, made)
    }
}

/// Makes the next step of an installation, as `WholeYard::install_step` does. The answer also has the event, if it was
/// one: a step of an installation under way, or a fault of the directory.
#[derive(Drop)]
pub struct InstallStep {
    /// What gives memory.
    pub alloc: Global,
    /// The installation's number.
    pub number: u64,
}

impl<L: Assumptions, D: Dir + Drop> WholeTurn<L, D> for InstallStep {
    type Answer = (Result<Phase, InstallFault>, Option<Made>);

    ghost may = { λ _. ⊤ };

    ghost answers = { λ _. StepsOrNot };

    fn run(
        self,
        yard: &mut WholeYard<L, D>,
        caller: u64,
    ) -> (Result<Phase, InstallFault>, Option<Made>)
        ensures answers { StepsOrNot caller (whole_books yard.old).count result (whole_books yard.new).count }
        ensures counts { CountsAtMostOne (whole_books yard.old).count (whole_books yard.new).count }
        ensures receipt { option_map receipt_of result.1
            ≡ option_map (receipt_after (whole_books yard.old).count caller)
            (event_of_step (kept_under yard.old self.number) result.0) }
        ensures over { (result.0 ≡ Err Over) ↔ (kept_number yard.old ≢ Some self.number) }
        ensures after_done { kept_number yard.old ≡ Some self.number
            → whole_installing yard.old ≡ None → result.0 ≡ Ok Done }
        ensures noted { NotesSome (event_of_step (kept_under yard.old self.number) result.0)
            (spoken_by caller (whole_roll yard.old)) (whole_roll yard.new) }
        ensures step { IsTrue D.honest → LeadsSome (event_of_step (kept_under yard.old self.number) result.0)
            (whole_state yard.old) (whole_state yard.new) }
        ensures stops { IsTrue D.honest → LeavesNothingElse yard.old yard.new }
        ensures goes { IfSome (kept_under yard.old self.number)
            (λ s. GoesAsStep s (whole_installing yard.new) result.0) }
        ensures kept { kept_number yard.new ≡ kept_after_step result.0 (kept_number yard.old) }
        ensures begun { last_begun yard.new ≡ last_begun yard.old }
        ensures rules { whole_rules yard.new ≡ whole_rules yard.old }
        ensures lists { whole_lists yard.new ≡ whole_lists yard.old }
        ensures device { IsTrue D.honest → IsOfDevice result.0 }
        ensures blames { BlamesDevice
            (D.failed (whole_directory yard.old)) (D.failed (whole_directory yard.new)) result.0 }
        ensures untouched { kept_under yard.old self.number ≡ None
            → whole_directory yard.new ≡ whole_directory yard.old }
        ensures seats { KeepsSeats (whole_seat yard.old) (whole_seat yard.new) }
    {
        let InstallStep { alloc, number } = self;
        yard.speaker(caller);
        let under_way = yard.is_under_way(number);
        let answer = yard.install_step(alloc, number);
        let made = evidence(yard, step_event(under_way, answer));
        (answer, made)
    }
}

// Evidence of a call's event, if it was one.
fn evidence<L: Assumptions, D: Dir + Drop>(
    yard: &WholeYard<L, D>,
    event: Option<Event>,
) -> Option<Made>
    requires { IfSome event (λ event. IsLast event (whole_roll yard.now)) }
    ensures { option_map receipt_of result
        ≡ option_map (receipt_at (whole_books yard.now).count (whole_roll yard.now).speaker) event }
{
    Some(yard.connections().evidence(Snapshot::of(&event?)))
}

// Which event a first step was, if it was one.
fn begin_event(answer: &Result<u64, (Install, InstallFault)>) -> Option<Event>
    ensures { result ≡ begin_event answer.now }
{
    match answer {
        Ok(_) => Some(Event::Stepped {
            phase: Phase::Fresh,
        }),
        Err((_, fault)) => fault_event(*fault),
    }
}

// Which event a step was, if the installation was under way and it was one.
fn step_event(under_way: bool, answer: Result<Phase, InstallFault>) -> Option<Event>
    ensures { result ≡ (if under_way then step_event answer else None) }
{
    if !under_way {
        return None;
    }
    match answer {
        Ok(phase) => Some(Event::Stepped { phase }),
        Err(fault) => fault_event(fault),
    }
}

// That a step failed, if the fault was the directory's.
fn fault_event(fault: InstallFault) -> Option<Event>
    ensures { result ≡ fault_event fault }
{
    match fault {
        InstallFault::Disk(_, phase) => Some(Event::StepFailed { phase }),
        _ => None,
    }
}
