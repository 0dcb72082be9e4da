//! `tcprulescheck`: which rule of a compiled file decides a peer.
ghost use Rattle.std.specs.Prelude.{◌≡◌, ◌≢◌, ◌⊎◌, None, IsTrue, IfOk, IfErr, OnOk};
ghost use Rattle.std.specs.Io.KnownBytes.{Appends};
ghost use Rattle.rule_lookup.specs.Answers.{answer_lines};
ghost use Rattle.dir_calls.specs.Directory.{content};
ghost use Rattle.byte_text.specs.NotingStream.{noted_error, noted_stream};
ghost use Rattle.rules_tools.specs.Causes.{check_failure_of};
ghost use Rattle.rules_tools.specs.Checks.{Blames, DecidesBy, FailsBy};
ghost use Rattle.rules_tools.specs.Told.{Checks, DecidesAt, DecidesThere, FailsAt, HasNone, NameFails, TellsWithCause, told_decide, told_folder};
ghost use Rattle.rules_tools.specs.declared.tcprulescheck.CheckFault.TheVariants.{OutOfMemory};

use crate::cause::{CauseOf, ErrorCause};
use crate::folders::Folders;
use crate::path::{folder_path, split_path};
use crate::variables::{Variables, read_peer};
use byte_text::NotingStream;
use cdb_files::CdbFile;
use dir_calls::{Dir, DirFault, Name, NameFault};
use dir_disk::FolderFault;
use rule_lookup::{
    DecideFault, Decision, FindFault, Found, Peer, WhenMissing, append_answer, decide,
};
use std::alloc::{AllocError, Global};
use std::fmt;
use std::io::Write;

/// Why `tcprulescheck` tells no decision. Of several the first in this order is told.
#[derive(Clone, Copy)]
pub enum CheckFault {
    /// `TCPREMOTEIP` is no IPv4 address.
    BadIp,
    /// `TCPREMOTEHOST` is over 255 bytes.
    BadHost,
    /// `TCPREMOTEINFO` is over 255 bytes.
    BadInfo,
    /// The compiled file is not there.
    NoFile,
    /// It could not be opened.
    Device,
    /// It could not be read.
    ReadFault,
    /// It is no compiled file, or its value is no instruction.
    Damaged,
    /// The answer could not be written.
    WriteFault,
    /// There was no memory.
    OutOfMemory,
}

impl fmt::Display for CheckFault {
    fn fmt<W: fmt::Write>(&self, f: &mut fmt::Formatter<W>) -> fmt::Result {
        f.write_str(match self {
            CheckFault::BadIp => "bad TCPREMOTEIP",
            CheckFault::BadHost => "bad TCPREMOTEHOST",
            CheckFault::BadInfo => "bad TCPREMOTEINFO",
            CheckFault::NoFile => "no such file",
            CheckFault::Device => "device fault",
            CheckFault::ReadFault => "read fault",
            CheckFault::Damaged => "damaged file",
            CheckFault::WriteFault => "write fault",
            CheckFault::OutOfMemory => "out of memory",
        })
    }
}

impl From<AllocError> for CheckFault {
    ghost from_gives = { λ _ fault. fault ≡ OutOfMemory };

    fn from(_: AllocError) -> Self {
        CheckFault::OutOfMemory
    }
}

impl From<FolderFault> for CheckFault {
    ghost from_gives = { λ given fault. fault ≡ told_folder given };

    fn from(fault: FolderFault) -> Self {
        match fault {
            FolderFault::NoFolder => CheckFault::NoFile,
            FolderFault::Device => CheckFault::Device,
            FolderFault::OutOfMemory => CheckFault::OutOfMemory,
        }
    }
}

/// Why a run of `tcprulescheck` failed, and of what a fault of the system came, where the system has told that.
#[derive(Clone, Copy)]
pub struct CheckFailure {
    /// Why.
    pub fault: CheckFault,
    /// Of what it came.
    pub cause: Option<ErrorCause>,
}

/// The same as `tell_decision`, with the cause of a fault.
///
/// # Errors
/// As of `tell_decision`, with the cause that the folders tell, or the error that the writer noted.
pub fn run_tcprulescheck<V: Variables, F: Folders, W: Write>(
    alloc: Global,
    variables: &V,
    folders: &mut F,
    writer: &mut NotingStream<W>,
    cdb: &str,
) -> Result<(), CheckFailure>
    ensures runs { TellsWithCause (λ outcome. IsTrue V.honest → IsTrue F.honest → Checks (V.value variables.now)
        (F.stands folders.old) cdb.now (W.contents (noted_stream writer.old)) (W.contents (noted_stream writer.new)) outcome)
        (F.told folders.new) (noted_error writer.new) result }
    ensures passed { OnOk result (noted_error writer.new ≡ None) }
    ensures unwritten { IfErr result (λ failure. failure.fault ≢ CheckFault.WriteFault → writer.new ≡ writer.old) }
{
    let outcome = tell_decision(alloc, variables, folders, writer, cdb);
    tell(outcome, folders.cause(), writer.error())
}

// What is told of a run, with the cause of its fault.
fn tell(
    outcome: Result<(), CheckFault>,
    folders: Option<ErrorCause>,
    writing: Option<i32>,
) -> Result<(), CheckFailure>
    ensures { result ≡ check_failure_of outcome folders writing }
{
    let Err(fault) = outcome else {
        return Ok(());
    };
    let cause = match fault {
        CheckFault::NoFile | CheckFault::Device | CheckFault::ReadFault => folders,
        CheckFault::WriteFault => ErrorCause::of(CauseOf::Output, writing),
        _ => None,
    };
    Err(CheckFailure { fault, cause })
}

/// Writes what the compiled file at a path decides for the peer of the variables `TCPREMOTEIP`, `TCPREMOTEHOST` and
/// `TCPREMOTEINFO`. One that is unset, empty or not UTF-8 counts as unknown; an unknown address is `0.0.0.0`. A folder
/// that is not there has no files, and there is no file at a path whose last part is no name.
///
/// # Errors
/// In the order of `CheckFault`. Before `WriteFault` nothing was written. Where there is none, the last call of the
/// writer, that all it holds goes out, had no error of the system.
pub fn tell_decision<V: Variables, F: Folders, W: Write>(
    alloc: Global,
    variables: &V,
    folders: &mut F,
    writer: &mut NotingStream<W>,
    cdb: &str,
) -> Result<(), CheckFault>
    ensures checks { IsTrue V.honest → IsTrue F.honest → Checks (V.value variables.now) (F.stands folders.old) cdb.now
        (W.contents (noted_stream writer.old)) (W.contents (noted_stream writer.new)) result }
    ensures passed { OnOk result (noted_error writer.new ≡ None) }
    ensures unwritten { IfErr result (λ fault. fault ≢ CheckFault.WriteFault → writer.new ≡ writer.old) }
{
    let peer = read_peer(alloc, variables)?;
    let decided = decide_in(alloc, folders, cdb, &peer);
    drop(peer);
    let decision = decided?;
    let written = write_decision(alloc, writer, &decision);
    drop(decision);
    written
}

/// Writes what a compiled file decides, and flushes it.
fn write_decision<W: Write>(
    alloc: Global,
    writer: &mut NotingStream<W>,
    decision: &Decision,
) -> Result<(), CheckFault>
    ensures written { OnOk result (Appends (W.contents (noted_stream writer.old))
        (W.contents (noted_stream writer.new)) (answer_lines decision.now)) }
    ensures passed { OnOk result (noted_error writer.new ≡ None) }
    ensures faults { IfErr result (λ fault. (fault ≡ CheckFault.WriteFault)
        ⊎ ((fault ≡ CheckFault.OutOfMemory) × (writer.new ≡ writer.old))) }
{
    let mut answer = Vec::new(alloc);
    append_answer(&mut answer, decision)?;
    if writer.write_all(answer.as_slice()).is_err() || writer.flush().is_err() {
        return Err(CheckFault::WriteFault);
    }
    Ok(())
}

/// What the compiled file at a path decides.
///
/// # Errors
/// `NoFile` where none stands there, and those of `decide_at`.
fn decide_in<F: Folders>(
    alloc: Global,
    folders: &mut F,
    cdb: &str,
    peer: &Peer,
) -> Result<Decision, CheckFault>
    ensures decided { IsTrue F.honest → IfOk result (DecidesAt (F.stands folders.old) cdb.now peer.now) }
    ensures refused { IsTrue F.honest → IfErr result (FailsAt (F.stands folders.old) cdb.now peer.now) }
{
    let (folder, name) = split_path(cdb);
    let name = read_name(alloc, name)?;
    let mut dir = match folders.find(alloc, folder_path(folder)) {
        Ok(dir) => dir,
        Err(fault) => {
            drop(name);
            return Err(fault.into());
        }
    };
    let decided = decide_there(alloc, &mut dir, &name, peer);
    if decided.is_err() {
        folders.failed(&dir);
    }
    drop(dir);
    drop(name);
    decided
}

/// What the compiled file under a name decides.
///
/// # Errors
/// `NoFile` where none stands there, and those of `decide_at`.
fn decide_there<D: Dir>(
    alloc: Global,
    dir: &mut D,
    name: &Name,
    peer: &Peer,
) -> Result<Decision, CheckFault>
    ensures decided { IsTrue D.honest → IfOk result (DecidesThere (content (D.state dir.old) name.now) peer.now) }
    ensures refused { IsTrue D.honest
        → IfErr result (HasNone name.now (content (D.state dir.old) name.now) peer.now) }
{
    let decision = decide_at(alloc, dir, name, peer)?;
    match decision.found {
        Found::NoFile => {
            drop(decision);
            Err(CheckFault::NoFile)
        }
        _ => Ok(decision),
    }
}

/// The name of the compiled file.
fn read_name(alloc: Global, text: &str) -> Result<Name, CheckFault>
    ensures kept { IfOk result (λ name. name ≡ text.now) }
    ensures refused { IfErr result (NameFails text.now) }
{
    match Name::new(alloc, text.as_bytes()) {
        Ok(name) => Ok(name),
        Err(NameFault::OutOfMemory) => Err(CheckFault::OutOfMemory),
        Err(_) => Err(CheckFault::NoFile),
    }
}

/// What the compiled file under a name decides, or that there is none.
///
/// # Errors
/// `Device` where it could not be opened, `ReadFault` where it could not be read, `Damaged` where it is no compiled
/// file or its value no instruction; `OutOfMemory`. The directory is as before.
pub fn decide_at<D: Dir>(
    alloc: Global,
    dir: &mut D,
    name: &Name,
    peer: &Peer,
) -> Result<Decision, CheckFault>
    ensures decided { IsTrue D.honest
        → IfOk result (DecidesBy (content (D.state dir.old) name.now) peer.now) }
    ensures refused { IsTrue D.honest
        → IfErr result (FailsBy (content (D.state dir.old) name.now) peer.now) }
    ensures blames { IfErr result (Blames (D.failed dir.old) (D.failed dir.new) D.File.sound) }
{
    let file = match dir.open(alloc, name) {
        Ok(file) => file.map(CdbFile::new),
        Err(fault) => match fault {
            DirFault::OutOfMemory => return Err(CheckFault::OutOfMemory),
            DirFault::Device | DirFault::NoScratch | DirFault::NoName => {
                return Err(CheckFault::Device);
            }
        },
    };
    let decided = decide(alloc, file.as_ref(), WhenMissing::Deny, peer);
    drop(file);
    match decided {
        Ok(decision) => Ok(decision),
        Err(fault) => Err(told(fault)),
    }
}

// What is told where there is no decision.
fn told(fault: DecideFault) -> CheckFault
    ensures { result ≡ told_decide fault }
{
    match fault {
        DecideFault::Find(FindFault::Device) => CheckFault::ReadFault,
        DecideFault::Find(FindFault::Short) | DecideFault::Code(_) => CheckFault::Damaged,
        DecideFault::Find(FindFault::OutOfMemory) | DecideFault::OutOfMemory => {
            CheckFault::OutOfMemory
        }
    }
}
