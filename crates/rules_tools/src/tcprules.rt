//! `tcprules`: compiles a rule text from standard input, and installs it.
ghost use Rattle.std.specs.Prelude.{◌≡◌, ◌⊎◌, ◌<◌, ◌^◌, ◌-◌, ◌+◌, None, IsSome, IfOk, IfErr, IfSome, OnOk, take};
ghost use Rattle.byte_text.specs.NotingStream.{noted_error, noted_stream};
ghost use Rattle.dir_calls.specs.Names.{name_fault};
ghost use Rattle.rules_install.specs.ParseFaults.{of_parse};
ghost use Rattle.rules_tools.specs.Causes.{failure_of, without_cause};
ghost use Rattle.rules_tools.specs.Paths.{AreNames};
ghost use Rattle.rules_tools.specs.Rules.{told_fault};
ghost use Rattle.rules_tools.specs.Shells.{AreOne, RunsByPaths, RunsIn};
ghost use Rattle.rules_tools.specs.declared.tcprules.TcprulesFault.TheVariants.{OutOfMemory};

use crate::cause::{CauseOf, ErrorCause};
use crate::folder::RulesFolder;
use crate::folders::InstallFolders;
use crate::installing::install_text;
use crate::path::{folder_path, split_path};
use byte_text::NotingStream;
use dir_calls::{Name, NameFault, Phase};
use rule_lines::{LineFault, LineKind, ParseFault};
use rules_install::{FileNames, InstallFault};
use std::alloc::{AllocError, Global};
use std::fmt;
use std::fmt::Display;
use std::io::{ErrorKind, Read};

/// Why `tcprules` fails. Of several the first in this order is told.
#[derive(Clone, Copy)]
pub enum TcprulesFault {
    /// The last part of a path is no name of a file.
    BadName,
    /// The paths name different folders.
    OtherFolder,
    /// The paths name one file.
    SameName,
    /// Standard input could not be read.
    ReadFault,
    /// A line of the text is faulty.
    Line(LineFault),
    /// The text is over its limit.
    LongText,
    /// The compiled file would be over its limit.
    TooLarge,
    /// The disk failed on the way to this phase of the installation.
    Device(Phase),
    /// There was no memory.
    OutOfMemory,
}

impl Display for TcprulesFault {
    fn fmt<W: fmt::Write>(&self, f: &mut fmt::Formatter<W>) -> fmt::Result {
        match self {
            TcprulesFault::BadName => f.write_str("bad file name"),
            TcprulesFault::OtherFolder => f.write_str("cdb and tmp are in different folders"),
            TcprulesFault::SameName => f.write_str("cdb and tmp are the same name"),
            TcprulesFault::ReadFault => f.write_str("read fault"),
            TcprulesFault::Line(fault) => fault.fmt(f),
            TcprulesFault::LongText => LineKind::LongText.fmt(f),
            TcprulesFault::TooLarge => f.write_str("compiled file too large"),
            TcprulesFault::Device(phase) => write!(f, "device fault at {phase}"),
            TcprulesFault::OutOfMemory => f.write_str("out of memory"),
        }
    }
}

impl From<AllocError> for TcprulesFault {
    ghost from_gives = { λ _ fault. fault ≡ OutOfMemory };

    fn from(_: AllocError) -> Self {
        TcprulesFault::OutOfMemory
    }
}

impl From<InstallFault> for TcprulesFault {
    ghost from_gives = { λ given fault. fault ≡ told_fault given };

    fn from(fault: InstallFault) -> Self {
        match fault {
            InstallFault::Line(fault) => match fault.kind {
                LineKind::LongText => TcprulesFault::LongText,
                _ => TcprulesFault::Line(fault),
            },
            InstallFault::TooLarge => TcprulesFault::TooLarge,
            InstallFault::Disk(_, phase) => TcprulesFault::Device(phase),
            InstallFault::Over => TcprulesFault::Device(Phase::Done),
            InstallFault::OutOfMemory => TcprulesFault::OutOfMemory,
        }
    }
}

impl From<ParseFault> for TcprulesFault {
    ghost from_gives = { λ given fault. fault ≡ told_fault (of_parse given) };

    fn from(fault: ParseFault) -> Self {
        InstallFault::from(fault).into()
    }
}

/// Why a run of `tcprules` failed, and of what a fault of the system came, where the system has told that.
#[derive(Clone, Copy)]
pub struct RulesFailure {
    /// Why.
    pub fault: TcprulesFault,
    /// Of what it came.
    pub cause: Option<ErrorCause>,
}

impl From<AllocError> for RulesFailure {
    ghost from_gives = { λ _ failure. failure ≡ without_cause OutOfMemory };

    fn from(error: AllocError) -> Self {
        RulesFailure::from(TcprulesFault::from(error))
    }
}

impl From<TcprulesFault> for RulesFailure {
    ghost from_gives = { λ fault failure. failure ≡ without_cause fault };

    fn from(fault: TcprulesFault) -> Self {
        RulesFailure { fault, cause: None }
    }
}

/// Reads a rule text, compiles it, and installs the compiled file under the path `cdb`, with `tmp` as its scratch file:
/// `install_text` over the folder of the paths, which may spell it in two ways.
///
/// # Errors
/// As of `install_text`, with the cause of a fault: the error that the reader noted, or that of the disk. Where
/// something is wrong with the paths no folder is opened.
pub fn run_tcprules<F: InstallFolders, R: Read>(
    alloc: Global,
    folders: &mut F,
    reader: &mut NotingStream<R>,
    cdb: &str,
    tmp: &str,
) -> Result<(), RulesFailure>
    ensures runs { RunsByPaths (record {
      tells = F.Opened.Dir;
      are_one = F.are_one;
      opens = F.opens;
      closes = F.closes;
      input = R.remaining (noted_stream reader.old);
      noted = noted_error reader.new;
      old = folders.old;
      new = folders.new;
    }) cdb.now tmp.now result }
{
    let (folder, cdb_name) = split_path(cdb);
    let (other, tmp_name) = split_path(tmp);
    let one_folder = are_one(folders, folder, other);
    let names = read_names(alloc, one_folder, cdb_name, tmp_name)?;
    drop(names);
    let dir = folders.open(alloc, folder_path(folder))?;
    run_there(alloc, folders, dir, reader, cdb_name, tmp_name)
}

// Whether the folders of two paths are one, as far as that is told.
fn are_one<F: InstallFolders>(folders: &F, folder: &str, other: &str) -> bool
    ensures { AreOne (F.are_one folders.now) folder.now other.now result }
{
    folder == other || folders.are_one(folder_path(folder), folder_path(other))
}

// The run for two names in the folder of the paths, which is let go in the end.
fn run_there<F: InstallFolders, R: Read>(
    alloc: Global,
    folders: &mut F,
    dir: F::Opened,
    reader: &mut NotingStream<R>,
    cdb: &str,
    tmp: &str,
) -> Result<(), RulesFailure>
    ensures runs { RunsIn (record {
      tells = F.Opened.Dir;
      are_one = F.are_one;
      opens = F.opens;
      closes = F.closes;
      input = R.remaining (noted_stream reader.old);
      noted = noted_error reader.new;
      old = folders.old;
      new = folders.new;
    }) dir (record { cdb = cdb.now; tmp = tmp.now }) result }
{
    let mut folder = RulesFolder::new(dir);
    let outcome = install_text(alloc, reader, &mut folder, cdb, tmp);
    let cause = folders.close(folder.dir);
    tell(outcome, reader.error(), cause)
}

// What is told of a run, with the cause of its fault.
fn tell(
    outcome: Result<(), TcprulesFault>,
    reading: Option<i32>,
    disk: Option<ErrorCause>,
) -> Result<(), RulesFailure>
    ensures { result ≡ failure_of outcome reading disk }
{
    let Err(fault) = outcome else {
        return Ok(());
    };
    let cause = match fault {
        TcprulesFault::ReadFault => ErrorCause::of(CauseOf::Input, reading),
        TcprulesFault::Device(_) => disk,
        _ => None,
    };
    Err(RulesFailure { fault, cause })
}

/// The last parts of two paths as names; `one_folder` is whether the folders of the paths are one. Names are looked at
/// first, then folders, then whether the names are the same; want of memory is told only where nothing is wrong with
/// them.
pub(crate) fn read_names(
    alloc: Global,
    one_folder: bool,
    cdb: &str,
    tmp: &str,
) -> Result<FileNames, TcprulesFault>
    ensures { AreNames one_folder (record { cdb = cdb.now; tmp = tmp.now }) result }
{
    let cdb_name = read_name(alloc, cdb)?;
    let tmp_name = read_name(alloc, tmp)?;
    if !one_folder {
        return Err(TcprulesFault::OtherFolder);
    }
    if cdb == tmp {
        return Err(TcprulesFault::SameName);
    }
    let cdb_name = cdb_name.ok_or(TcprulesFault::OutOfMemory)?;
    let tmp_name = tmp_name.ok_or(TcprulesFault::OutOfMemory)?;
    match FileNames::new(cdb_name, tmp_name) {
        Ok(names) => Ok(names),
        Err(_) => unreachable!("the names differ"),
    }
}

/// A name of a file, or `None` where there is no memory for it.
fn read_name(alloc: Global, text: &str) -> Result<Option<Name>, TcprulesFault>
    ensures good { OnOk result (name_fault text.now ≡ None) }
    ensures kept { IfOk result (λ made. IfSome made (λ name. name ≡ text.now)) }
    ensures refused { IfErr result (λ fault. (fault ≡ TcprulesFault.BadName) × IsSome (name_fault text.now)) }
{
    match Name::new(alloc, text.as_bytes()) {
        Ok(name) => Ok(Some(name)),
        Err(NameFault::OutOfMemory) => Ok(None),
        Err(_) => Err(TcprulesFault::BadName),
    }
}

/// Reads a text, and one byte over its limit at most.
///
/// # Errors
/// `ReadFault` where the reader failed; `OutOfMemory`. What was read is lost.
pub fn read_text<R: Read>(
    alloc: Global,
    reader: &mut R,
    limit: u64,
) -> Result<Vec<u8>, TcprulesFault>
    requires { limit < 2 ^ 64 - 1 }
    ensures text { IfOk result (λ text.
        IfSome (R.remaining reader.old) (λ all. text.items ≡ take (limit + 1) all)) }
    ensures faults { IfErr result (λ fault.
        (fault ≡ TcprulesFault.ReadFault) ⊎ (fault ≡ TcprulesFault.OutOfMemory)) }
{
    let mut text = Vec::new(alloc);
    match reader.take(limit + 1).read_to_end(&mut text) {
        Ok(_) => Ok(text),
        Err(error) if error.kind() == ErrorKind::OutOfMemory => Err(TcprulesFault::OutOfMemory),
        Err(_) => Err(TcprulesFault::ReadFault),
    }
}
