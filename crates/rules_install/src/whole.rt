//! The begin and all steps of an installation.
ghost use Rattle.std.specs.Prelude.{◌≡◌, IsTrue, false, OnOk, IfOk, IfErr};
ghost use Rattle.rule_lookup.specs.Pairs.{pairs_of};
ghost use Rattle.rules_install.specs.Filled.{IsWritten};
ghost use Rattle.rules_install.specs.Installing.{begun, Fits, HasForGood};
ghost use Rattle.rules_install.specs.Installs.{installing, IsUndone};
ghost use Rattle.rules_install.specs.Series.{IsSeries};
ghost use Rattle.rules_install.specs.Steps.{BlamesFault, IsSame};
ghost use Rattle.rules_install.specs.Whole.{Begins, EndsRun, IsDeviceFault, RunKeeps, RunLasts, StandsAtDone, TellsWhere};

use crate::{FileNames, Install, InstallFault};
use dir_calls::{Dir, Phase};
use rule_lines::{Limits, parse};
use std::alloc::Global;

/// Prepares the installation of a rule text. It makes no call of a directory.
///
/// # Errors
/// `Line` if the text is not accepted; `TooLarge` if its compiled file would be too large; `OutOfMemory`.
pub fn prepare(
    alloc: Global,
    names: FileNames,
    limits: &Limits,
    text: &[u8],
) -> Result<Install, InstallFault>
    ensures begun { IfOk result (λ install. installing install ≡ begun (pairs_of text.now) names) }
    // which text gets which answer
    ensures ends { Begins limits.now text.now result }
{
    Install::begin(alloc, parse(alloc, text, limits)?, names, limits)
}

/// Makes all steps of an installation that are left.
///
/// # Errors
/// `Disk` with the phase that was to be reached: the installation is over. `OutOfMemory`: it may be finished later.
pub fn finish<D: Dir>(alloc: Global, dir: &mut D, install: &mut Install) -> Result<(), InstallFault>
    requires is_open { (installing install.old).over ≡ false }
    requires fits { IsTrue D.honest → Fits (installing install.old) (D.state dir.old) }
    // how far it has come then; after want of memory it may be finished later
    ensures same { IsSame (installing install.old) (installing install.new) }
    ensures ends { EndsRun (installing install.new) result }
    ensures fits { IsTrue D.honest → Fits (installing install.new) (D.state dir.new) }
    // it made steps of this installation, one after another, and no other call
    ensures series { IsTrue D.honest → IsUndone install.old
        → IsSeries (installing install.old) (installing install.new) (D.state dir.old) (D.state dir.new) result }
    // a fault of the directory has the phase that was to be reached
    ensures tells { IsTrue D.honest
        → IfErr result (TellsWhere (installing install.old) (D.state dir.old) (D.state dir.new)) }
    ensures stands { IsTrue D.honest → IfErr result (StandsAtDone (installing install.old) (D.state dir.new)) }

    ensures any_moment { IsTrue D.honest
        → RunKeeps D.Dir (installing install.old) dir.old dir.new }
    ensures lasts { IsTrue D.honest → RunLasts (installing install.old) (D.state dir.old) (D.state dir.new) result }
    ensures done { IsTrue D.honest → OnOk result (HasForGood (installing install.old) (D.state dir.new)) }
    // the new file is compiled of the rules
    ensures written { OnOk result (IsWritten (installing install.old).rules) }
    ensures device { IsTrue D.honest → IfErr result IsDeviceFault }
    ensures blames { IfErr result (BlamesFault (D.failed dir.old) (D.failed dir.new)) }
{
    install.consistent();
    while install.step(alloc, dir)? != Phase::Done {}
    Ok(())
}
