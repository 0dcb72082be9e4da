//! The next step of an installation.
ghost use Rattle.std.specs.Prelude.{◌≡◌, ◌≢◌, ◌≤◌, IsTrue, Ok};
ghost use Rattle.whole_yard.specs.UnderWay.{StepLeads, Leaves};
ghost use Rattle.rules_install.specs.Installing.{Fits, FillsMore};
ghost use Rattle.rules_install.specs.Steps.{BlamesDevice, HasFilled, IsOfDevice, IsSame};
ghost use Rattle.dir_calls.specs.declared.phase.Phase.TheVariants.{Filling};
ghost use Rattle.rules_install.specs.Installs.{installing, IsOpen, IsUndone, StepChanges, StepGoes};

use crate::install_laws::leads_on;
use dir_calls::{Dir, Phase};
use rules_install::{Install, InstallFault};
use std::alloc::Global;

/// Makes the next step of an installation that is neither over nor done.
///
/// In each world in which the installation is under way the step is an event of the table, or nothing.
///
/// # Errors
/// Those of `Install::step`. After `Disk`, which has the phase that was to be reached, the installation is over. After
/// `OutOfMemory` nothing has changed.
pub fn make_step<D: Dir>(
    alloc: Global,
    dir: &mut D,
    install: &mut Install,
) -> Result<Phase, InstallFault>
    requires is_open { IsOpen install.old }
    requires undone { IsUndone install.old }
    requires fits { IsTrue D.honest → Fits (installing install.old) (D.state dir.old) }
    // by the answered event the world goes on to one in which the installation is under way as far as it has come
    ensures leads { IsTrue D.honest
        → StepLeads (installing install.old) (installing install.new) (D.state dir.old) (D.state dir.new) result }
    // a stop at any moment since left what a stop may leave of the world, or of the one after it
    ensures stops { IsTrue D.honest
        → Leaves D.Dir (installing install.old) dir.old dir.new }
    ensures fits { IsTrue D.honest → Fits (installing install.new) (D.state dir.new) }
    // what it answers, and how far the installation is then
    ensures goes { StepGoes install.old install.new result }
    ensures same { IsSame (installing install.old) (installing install.new) }
    ensures more { result ≡ Ok Filling → FillsMore (installing install.old) (installing install.new) }
    ensures kept { result ≢ Ok Filling → HasFilled (installing install.old) (installing install.new) }
    ensures changes { IsTrue D.honest → StepChanges install.old (D.state dir.old) (D.state dir.new) result }
    // and the device is blamed only if it failed, and that was counted
    ensures device { IsTrue D.honest → IsOfDevice result }
    ensures failures { D.failed dir.old ≤ D.failed dir.new }
    ensures blames { BlamesDevice (D.failed dir.old) (D.failed dir.new) result }
{
    leads_on();
    install.consistent();
    install.step(alloc, dir)
}
