//! Steps of installations, each noted as the event that it was.
ghost use Rattle.std.specs.Prelude.{◌≡◌, ◌≢◌, ◌++◌, ◌∷◌, [], true, None, IsTrue, OnOk, OnErr, option_map};
ghost use Rattle.server_events.specs.Journals.{HasOneMore, HasSameRoom};
ghost use Rattle.whole_yard.specs.UnderWay.{StepLeads, Leaves};
ghost use Rattle.rules_install.specs.Installing.{Fits};
ghost use Rattle.rules_install.specs.Installs.{installing, IsOpen, IsUndone, StepGoes};
ghost use Rattle.rules_install.specs.Steps.{BlamesDevice, IsOfDevice, IsSame};
ghost use Rattle.server_yard.specs.Rolls.{NotesSome};
ghost use Rattle.server_yard.specs.Yards.{yard_roll, yard_seat, yard_server};
ghost use Rattle.server_yard.specs.Seating.{HasSpareRoom, KeepsSeats};
ghost use Rattle.whole_yard.specs.Kept.{lists_of};
ghost use Rattle.whole_yard.specs.Stepping.{MayFail, fault_event, step_event, without_last};

use crate::step::make_step;
use dir_calls::{Dir, Phase};
use rule_lines::RuleList;
use rules_install::{Install, InstallFault};
use server_events::Event;
use server_yard::{Places, Yard};
use std::alloc::{AllocError, Global};

/// Makes the next step of an installation, and notes it. The installation has not begun, or it is in the phase that the
/// yard has.
pub(crate) fn step_noted<L: Places, D: Dir>(
    alloc: Global,
    yard: &mut Yard<L>,
    dir: &mut D,
    install: &mut Install,
) -> Result<Phase, InstallFault>
    requires installs { L.installs ≡ true }
    requires is_open { IsOpen install.old }
    requires undone { IsUndone install.old }
    requires phase { (installing install.old).reached ≢ None
        → (yard_server yard.old).phase ≡ (installing install.old).reached }
    requires fits { IsTrue D.honest → Fits (installing install.old) (D.state dir.old) }
    ensures noted { NotesSome (step_event result) (yard_roll yard.old) (yard_roll yard.new) }
    ensures seats { KeepsSeats (yard_seat yard.old) (yard_seat yard.new) }
    ensures room { HasSameRoom (yard_roll yard.old).room (yard_roll yard.new).room }
    ensures goes { StepGoes install.old install.new result }
    ensures same { IsSame (installing install.old) (installing install.new) }
    ensures leads { IsTrue D.honest
        → StepLeads (installing install.old) (installing install.new) (D.state dir.old) (D.state dir.new) result }
    ensures stops { IsTrue D.honest
        → Leaves D.Dir (installing install.old) dir.old dir.new }
    ensures fits { IsTrue D.honest → Fits (installing install.new) (D.state dir.new) }
    ensures still { IsTrue D.honest → step_event result ≡ None → D.state dir.new ≡ D.state dir.old }
    ensures device { IsTrue D.honest → IsOfDevice result }
    ensures blames { BlamesDevice (D.failed dir.old) (D.failed dir.new) result }
{
    yard.reserve()?;
    install.consistent();
    match make_step(alloc, dir, install) {
        Ok(phase) => {
            yard.note_step(Event::Stepped { phase });
            Ok(phase)
        }
        Err(fault) => {
            note_fault(yard, fault);
            Err(fault)
        }
    }
}

// Notes a step that met a fault. If the fault is not the directory's, there is no event.
fn note_fault<L: Places>(yard: &mut Yard<L>, fault: InstallFault)
    requires installs { L.installs ≡ true }
    requires may { MayFail (yard_server yard.old) fault }
    requires room { HasSpareRoom (yard_roll yard.old) }
    ensures noted { NotesSome (fault_event fault) (yard_roll yard.old) (yard_roll yard.new) }
    ensures one_less { HasOneMore (yard_roll yard.new).room (yard_roll yard.old).room }
    ensures seats { KeepsSeats (yard_seat yard.old) (yard_seat yard.new) }
{
    match fault {
        InstallFault::Disk(_, phase) => yard.note_step(Event::StepFailed { phase }),
        _ => yard.release(),
    }
}

/// Makes the first step of an installation, and notes it. If it was made, its rules are stored too, where any are.
pub(crate) fn begin_noted<L: Places, D: Dir>(
    alloc: Global,
    yard: &mut Yard<L>,
    lists: &mut Option<Vec<RuleList>>,
    dir: &mut D,
    install: &mut Install,
) -> Result<Phase, InstallFault>
    requires installs { L.installs ≡ true }
    requires is_open { IsOpen install.old }
    requires unbegun { (installing install.old).reached ≡ None }
    ensures noted { NotesSome (step_event result) (yard_roll yard.old) (yard_roll yard.new) }
    ensures kept { OnOk result (lists_of lists.new
        ≡ option_map (λ all. all ++ (installing install.old).rules ∷ []) (lists_of lists.old)) }
    ensures err { OnErr result (lists_of lists.new ≡ lists_of lists.old) }
    ensures seats { KeepsSeats (yard_seat yard.old) (yard_seat yard.new) }
    ensures room { HasSameRoom (yard_roll yard.old).room (yard_roll yard.new).room }
    ensures goes { StepGoes install.old install.new result }
    ensures same { IsSame (installing install.old) (installing install.new) }
    ensures leads { IsTrue D.honest
        → StepLeads (installing install.old) (installing install.new) (D.state dir.old) (D.state dir.new) result }
    ensures stops { IsTrue D.honest
        → Leaves D.Dir (installing install.old) dir.old dir.new }
    ensures fits { IsTrue D.honest → Fits (installing install.new) (D.state dir.new) }
    ensures still { IsTrue D.honest → step_event result ≡ None → D.state dir.new ≡ D.state dir.old }
    ensures device { IsTrue D.honest → IsOfDevice result }
    ensures blames { BlamesDevice (D.failed dir.old) (D.failed dir.new) result }
{
    keep_list(lists, install.list())?;
    match step_noted(alloc, yard, dir, install) {
        Ok(phase) => Ok(phase),
        Err(fault) => {
            forget_list(lists);
            Err(fault)
        }
    }
}

// Stores the rules of an installation that begins, where any are stored.
//
// # Errors
// There was no memory. All is as before.
fn keep_list(lists: &mut Option<Vec<RuleList>>, list: &RuleList) -> Result<(), AllocError>
    ensures kept { OnOk result (lists_of lists.new
        ≡ option_map (λ all. all ++ list.now ∷ []) (lists_of lists.old)) }
    ensures err { OnErr result (lists_of lists.new ≡ lists_of lists.old) }
{
    if let Some(all) = lists {
        all.push(list.copy()?)?;
    }
    Ok(())
}

// Takes the last rules back, if the first step of their installation was not made. It takes no memory.
fn forget_list(lists: &mut Option<Vec<RuleList>>)
    ensures { lists_of lists.new ≡ option_map without_last (lists_of lists.old) }
{
    if let Some(all) = lists {
        all.pop();
    }
}
