//! One call from a reader and two names to what stands in a folder of rules.
ghost use Rattle.std.specs.Prelude.{◌≡◌, None, false, IsTrue, IfOk, IfErr, OnOk};
ghost use Rattle.rules_install.specs.Filled.{IsWritten};
ghost use Rattle.rules_install.specs.Installing.{HasForGood};
ghost use Rattle.rules_install.specs.Installs.{installing};
ghost use Rattle.rules_install.specs.Whole.{IsDeviceFault, RunKeeps, RunLasts};
ghost use Rattle.rules_tools.specs.Disks.{BlamesDisk, EndsOnDisk, fails_on_disk};
ghost use Rattle.rules_tools.specs.FolderParts.{folder_dir, folder_left};
ghost use Rattle.rules_tools.specs.Installed.{CompilesTo, FailsInput, Installs, IsRefusal, PassesPaths, Runs};
ghost use Rattle.rules_tools.specs.Scratch.{AfterFault, HasFailedTwice, IsTakenAway};
ghost use Rattle.rules_tools.specs.Series.{MakesSeries};

use crate::folder::RulesFolder;
use crate::path::split_path;
use crate::steps::make_steps;
use crate::tcprules::{TcprulesFault, read_names, read_text};
use dir_calls::ClearableDir;
use rule_lines::{Limits, parse_owned};
use rules_install::laws::decides;
use rules_install::{FileNames, Install, InstallFault};
use std::alloc::Global;
use std::io::Read;

/// Reads a rule text to its end, compiles it, and installs the compiled file in a folder, under the last part of the
/// path `cdb`, with the last part of `tmp` as its scratch name. The folder has to be that of both paths.
///
/// # Errors
/// In the order of `TcprulesFault`. After those that stand above `Device` there nothing was touched in the folder.
/// After `Device` and `OutOfMemory` the rules file is the old one, or with the phases `Named` and `Done` possibly the
/// new one. After a fault of the disk on the way to any phase the scratch file is taken away, as well as that can be
/// done, and else the folder notes why not (`RulesFolder::left`); after want of memory it may be left.
pub fn install_text<R: Read, D: ClearableDir>(
    alloc: Global,
    reader: &mut R,
    folder: &mut RulesFolder<D>,
    cdb: &str,
    tmp: &str,
) -> Result<(), TcprulesFault>
    ensures runs { Runs (record {
      tells = D.Dir;
      left = folder_left folder.new;
      input = R.remaining reader.old;
      old = folder_dir folder.old;
      new = folder_dir folder.new;
    }) cdb.now tmp.now result }
    ensures untouched { IsRefusal result → folder.new ≡ folder.old }
{
    let (cdb_folder, cdb_name) = split_path(cdb);
    let (tmp_folder, tmp_name) = split_path(tmp);
    let names = read_names(alloc, cdb_folder == tmp_folder, cdb_name, tmp_name)?;
    install_named(alloc, reader, folder, names)
}

/// The same for two names.
pub fn install_named<R: Read, D: ClearableDir>(
    alloc: Global,
    reader: &mut R,
    folder: &mut RulesFolder<D>,
    names: FileNames,
) -> Result<(), TcprulesFault>
    ensures installs { Installs (record {
      tells = D.Dir;
      left = folder_left folder.new;
      input = R.remaining reader.old;
      old = folder_dir folder.old;
      new = folder_dir folder.new;
    }) names result }
    ensures untouched { IsRefusal result → folder.new ≡ folder.old }
    ensures of_text { PassesPaths result }
{
    let mut install = compile(alloc, reader, names)?;
    // a law: the file that is compiled of a text decides as the text does
    decides();
    let outcome = install_begun(alloc, folder, &mut install);
    drop(install);
    Ok(outcome?)
}

/// Reads a rule text to its end and compiles it, for an installation under these names.
fn compile<R: Read>(
    alloc: Global,
    reader: &mut R,
    names: FileNames,
) -> Result<Install, TcprulesFault>
    ensures compiled { IfOk result (λ install. CompilesTo (R.remaining reader.old) names (installing install)) }
    ensures refused { IfErr result (FailsInput (R.remaining reader.old)) }
{
    let limits = Limits::profile();
    let text = read_text(alloc, reader, limits.text)?;
    let list = parse_owned(text, &limits)?;
    Ok(Install::begin(alloc, list, names, &limits)?)
}

/// Installs what was compiled: makes all steps. After a fault of the disk what stands under the scratch name is taken
/// away.
fn install_begun<D: ClearableDir>(
    alloc: Global,
    folder: &mut RulesFolder<D>,
    install: &mut Install,
) -> Result<(), InstallFault>
    requires is_open { (installing install.old).over ≡ false }
    requires unbegun { (installing install.old).reached ≡ None }
    ensures ends { EndsOnDisk result }
    ensures series { IsTrue D.honest → MakesSeries (installing install.old)
        (D.state (folder_dir folder.old)) (D.state (folder_dir folder.new)) result }
    ensures any_moment { IsTrue D.honest → RunKeeps
        D.Dir (installing install.old) (folder_dir folder.old) (folder_dir folder.new) }
    ensures lasts { IsTrue D.honest → RunLasts
        (installing install.old) (D.state (folder_dir folder.old)) (D.state (folder_dir folder.new)) result }
    ensures done { IsTrue D.honest
        → OnOk result (HasForGood (installing install.old) (D.state (folder_dir folder.new))) }
    ensures written { OnOk result (IsWritten (installing install.old).rules) }
    ensures device { IsTrue D.honest → IfErr result IsDeviceFault }
    ensures blames { IfErr result
        (BlamesDisk (D.failed (folder_dir folder.old)) (D.failed (folder_dir folder.new))) }
    ensures removed { IsTrue D.honest
        → AfterFault (IsTakenAway (installing install.old).names.tmp (D.state (folder_dir folder.new))
        (HasFailedTwice (D.failed (folder_dir folder.old)) (D.failed (folder_dir folder.new)))
        (folder_left folder.new)) result }
{
    let outcome = make_steps(alloc, &mut folder.dir, install);
    if is_of_disk(&outcome) {
        folder.remove_scratch(alloc, install.tmp());
    }
    outcome
}

/// Whether an installation failed by a fault of the disk.
fn is_of_disk(outcome: &Result<(), InstallFault>) -> bool
    ensures { result ≡ fails_on_disk outcome.now }
{
    matches!(outcome, Err(InstallFault::Disk(..)))
}
