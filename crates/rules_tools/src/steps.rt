//! All steps of an installation, with the names of the folder made lasting behind the first one.
ghost use Rattle.std.specs.Prelude.{◌≡◌, ◌≢◌, ◌≤◌, List, ℕ, None, false, IsTrue, IfErr, OnOk};
ghost use Rattle.dir_calls.specs.Clearing.{SparesOthers};
ghost use Rattle.dir_calls.specs.Replacing.{KeepsWhatLasts};
ghost use Rattle.rules_install.specs.Filled.{IsWritten};
ghost use Rattle.rules_install.specs.Installing.{Fits, HasForGood};
ghost use Rattle.rules_install.specs.Installs.{installing};
ghost use Rattle.rules_install.specs.Steps.{BlamesFault, IsSame};
ghost use Rattle.rules_install.specs.Whole.{IsDeviceFault, RunKeeps, RunLasts};
ghost use Rattle.rules_tools.specs.Disks.{EndsOnDisk, IsAtFresh};
ghost use Rattle.rules_tools.specs.Series.{Begins, IsBegun, MakesSeries};

use dir_calls::{Dir, Phase};
use rules_install::{Install, InstallFault, whole};
use std::alloc::Global;

/// Makes all steps of an installation of which none was made. Behind the first one, which makes the scratch file, all
/// changes of names are made lasting, so that nothing is written while one is pending: what stood under the name of the
/// rules file may be overwritten on the disk only once that name is gone for good. (Whoever had the scratch name before
/// may have given it back, by its rename, before that was lasting.)
///
/// # Errors
/// As of `whole::finish`. A fault of that settling is one on the way to `Fresh`.
pub(crate) fn make_steps<D: Dir>(
    alloc: Global,
    dir: &mut D,
    install: &mut Install,
) -> Result<(), InstallFault>
    requires is_open { (installing install.old).over ≡ false }
    requires unbegun { (installing install.old).reached ≡ None }
    ensures same { IsSame (installing install.old) (installing install.new) }
    ensures ends { EndsOnDisk result }
    ensures series { IsTrue D.honest
        → MakesSeries (installing install.old) (D.state dir.old) (D.state dir.new) result }
    ensures any_moment { IsTrue D.honest → RunKeeps D.Dir (installing install.old) dir.old dir.new }
    ensures lasts { IsTrue D.honest
        → RunLasts (installing install.old) (D.state dir.old) (D.state dir.new) result }
    ensures done { IsTrue D.honest → OnOk result (HasForGood (installing install.old) (D.state dir.new)) }
    ensures written { OnOk result (IsWritten (installing install.old).rules) }
    ensures device { IsTrue D.honest → IfErr result IsDeviceFault }
    ensures blames { IfErr result (BlamesFault (D.failed dir.old) (D.failed dir.new)) }
{
    install.consistent();
    begin(alloc, dir, install)?;
    whole::finish(alloc, dir, install)
}

/// Makes the first step, and makes all changes of names lasting.
fn begin<D: Dir>(alloc: Global, dir: &mut D, install: &mut Install) -> Result<(), InstallFault>
    requires is_open { (installing install.old).over ≡ false }
    requires unbegun { (installing install.old).reached ≡ None }
    ensures same { IsSame (installing install.old) (installing install.new) }
    ensures begins { IsTrue D.honest → Begins (installing install.old) (installing install.new)
        (D.state dir.old) (D.state dir.new) result }
    ensures begun { OnOk result (IsBegun (installing install.new)) }
    ensures faults { IfErr result IsAtFresh }
    ensures fits { IsTrue D.honest → OnOk result (Fits (installing install.new) (D.state dir.new)) }
    ensures others { IsTrue D.honest
        → SparesOthers (installing install.old).names.tmp (D.state dir.old) (D.state dir.new) }
    ensures stays { IsTrue D.honest → (name : List ℕ) → (installing install.old).names.tmp ≢ name
        → KeepsWhatLasts D.Dir name dir.old dir.new }
    ensures count { D.failed dir.old ≤ D.failed dir.new }
    ensures device { IsTrue D.honest → IfErr result IsDeviceFault }
    ensures blames { IfErr result (BlamesFault (D.failed dir.old) (D.failed dir.new)) }
{
    install.consistent();
    install.step(alloc, dir)?;
    match dir.settle() {
        Ok(()) => Ok(()),
        Err(fault) => Err(InstallFault::Disk(fault, Phase::Fresh)),
    }
}
