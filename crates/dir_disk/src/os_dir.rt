//! Folders of a disk, and so of the system.
ghost use Rattle.std.specs.Prelude.{◌≡◌, ◌≢◌, ◌⊎◌, ◌∷◌, [], Contains, Err, false, None, Option, Some, IsSome, IsTrue, IfErr, IfOk, IsErr, OnOk, OnErr, Ok, List, ℕ};
ghost use Rattle.std.specs.Option.{option_map};
ghost use Rattle.std.specs.IoError.{error_kind};
ghost use Rattle.dir_calls.specs.Calls.{renames};
ghost use Rattle.dir_calls.specs.Clearing.{SparesOthers};
ghost use Rattle.dir_calls.specs.Directory.{number_of};
ghost use Rattle.dir_calls.specs.Methods.{CallElapses, CallIncludes, DoesCall};
ghost use Rattle.dir_calls.specs.Replacing.{KeepsWhatLasts};
ghost use Rattle.dir_disk.specs.DiskSteps.{MovesNoOther, StepElapses};
ghost use Rattle.dir_disk.specs.OsDir.{Holds, Holds_honest-prop, kept_back};
ghost use Rattle.dir_calls.specs.Moments.{CountsFault};
ghost use Rattle.dir_disk.specs.OsFile.{IsFoundAt};
ghost use Rattle.dir_disk.specs.KeptImages.{kept_image, disk_image};
ghost use Rattle.std.proofs.Common.{subst, sym};

use crate::disk::Disk;
use crate::failure::DiskFailure;
use crate::lock::{NoWait, Waits};
use crate::os_file::OsFile;
use crate::scratch::{BUFFER, give_up, make_room, overwrite, rename, renew, sync_kept};
use crate::system_disk::{SystemDisk, check_folder, patiently};
use dir_calls::{ClearableDir, Dir, DirFault, Name};
use std::alloc::{AllocError, Global};
use std::fmt;
use std::fs::{File, Files};
use std::io::{self, ErrorKind};

/// Why a folder can't be used.
#[derive(Clone, Copy)]
pub enum FolderFault {
    /// There is nothing at the path, or something other than a folder.
    NoFolder,
    /// The system does not say what stands at the path, for instance because a folder on the way may not be searched.
    /// So there may be a folder.
    Device,
    /// There was no memory.
    OutOfMemory,
}

impl fmt::Display for FolderFault {
    fn fmt<W: fmt::Write>(&self, f: &mut fmt::Formatter<W>) -> fmt::Result {
        f.write_str(match self {
            FolderFault::NoFolder => "no such folder",
            FolderFault::Device => "device fault",
            FolderFault::OutOfMemory => "out of memory",
        })
    }
}

/// Why a folder can't be used, with the number of the system's error (`errno`), if there was one.
#[derive(Clone, Copy)]
pub struct FolderError {
    /// Why.
    pub fault: FolderFault,
    /// The system's error.
    pub error: Option<i32>,
}

/// A folder of a disk, which is a directory. It is honest if its disk is.
///
/// `fresh` removes the name and creates a file that must be new. `append` keeps bytes back until there are 65,536, or
/// the file is patched, synced or let go, so a fault of the device may come at a later call. `sync` writes the rest,
/// has the system sync the file (fsync), and closes it. `settle` syncs the folder. The scratch file itself can't be
/// opened: that is a device fault.
///
/// After a device fault of `fresh`, `append`, `patch` or `sync` there is no scratch file. What was kept back or written
/// may be lost, and the system reports a failed write only once, so a later `sync` must not succeed.
///
/// `rename` moves no file but the one that `fresh` made last and `sync` made lasting. If a name stands for another
/// file, which another process may have put there, that is a device fault, and nothing is moved. The file stays open
/// until the next `fresh` or `take_away`, so that others see that this process has it.
#[derive(Drop)]
pub struct DiskDir<D: Disk + Drop> {
    disk: D,
    scratch: Option<D::File>,
    // how many bytes the scratch file has
    written: u64,
    // what is still to be written at its end
    pending: Vec<u8>,
    // the last scratch file, after its sync
    made: Option<D::File>,
    failures: u64,
    ghost holds: { IsTrue D.honest → Holds D.number (D.state disk) scratch written } by { Holds_honest-prop D.honest D.number (D.state disk) scratch written },
}

/// A folder of the system. Several processes may make files under one name there: one process has the name, and the
/// others wait as `W` says.
pub type LockedDir<R, W> = DiskDir<SystemDisk<R, W>>;

/// A folder of the system that waits for no other process, such as one in which files are only opened.
pub type OsDir<R> = LockedDir<R, NoWait>;

impl<D: Disk + Drop> DiskDir<D> {
    ghost use Rattle.dir_disk.specs.OsParts.{os_disk, os_failed, os_made, os_state};

    /// The directory of a disk. None of its files may be open to be written.
    pub fn over(alloc: Global, disk: D) -> Self
        requires { IsTrue D.honest → (D.state disk).scratch ≡ None }
        ensures disk { os_disk result ≡ disk }
        ensures none_made { os_made D.number result ≡ None }
    {
        DiskDir {
            disk,
            scratch: None,
            written: 0,
            pending: Vec::new(alloc),
            made: None,
            failures: 0,
        }
    }
}

impl<D: Disk + Drop> ClearableDir for DiskDir<D> {
    ghost use Rattle.dir_disk.specs.OsParts.{os_failed, os_state};

    /// If the name is taken away, that is a pending change. The scratch file is given up: there is none afterwards.
    ///
    /// # Errors
    /// `Device`: the name may still stand. All else is as without the fault.
    fn take_away(&mut self, alloc: Global, name: &Name) -> Result<(), DirFault>
        ensures gone { IsTrue D.honest → OnOk result (number_of (os_state D.state self.new) name.now ≡ None) }
        ensures others { IsTrue D.honest
            → SparesOthers name.now (os_state D.state self.old) (os_state D.state self.new) }
        ensures closed { IsTrue D.honest → (os_state D.state self.new).scratch ≡ None }
        // what lasts under another name lasts there, and stands there whenever the machine stops since the call began
        ensures stays { IsTrue D.honest → (other : List ℕ) → name.now ≢ other
            → KeepsWhatLasts ⟦<DiskDir<D> as Dir>⟧ other self.old self.new }
        ensures device { IfErr result (λ fault. fault ≡ DirFault.Device) }
        ensures faults { IfErr result (Contains (DirFault.Device ∷ DirFault.OutOfMemory ∷ [])) }
        ensures counted { CountsFault (os_failed self.old) (os_failed self.new) result }
    {
        let scratch = self.scratch.take();
        give_up(&mut self.disk, scratch);
        self.made = None;
        self.pending.clear();
        let outcome = self.disk.unlink(name);
        told(&mut self.failures, outcome)
    }
}

impl<R: Files<File = File> + Drop, W: Waits + Drop> DiskDir<SystemDisk<R, W>> {
    ghost use Rattle.dir_disk.specs.OsParts.{os_disk, system_folder};

    /// The folder of the system at a path, such as `/etc/tcprules` or `.`. It waits for other processes in this way.
    /// The system is not called: later calls find out what stands there, and an empty path leads to no folder.
    ///
    /// # Errors
    /// Want of memory.
    pub fn at(alloc: Global, files: R, waits: W, folder: &str) -> Result<Self, AllocError>
        ensures folder { IfOk result (λ dir. system_folder (os_disk dir) ≡ folder.now) }
    {
        let disk = SystemDisk::new(alloc, files, waits, folder)?;
        Ok(DiskDir::over(alloc, disk))
    }

    /// The last call of the system, if it failed; a read of an opened file counts too. From it the cause of a fault is
    /// told. Taking a file away after a failure leaves that failure noted.
    pub fn failure(&self) -> Option<DiskFailure> {
        self.disk.notes.last()
    }
}

/// Checks that a folder stands at a path.
///
/// # Errors
/// `NoFolder` if there is nothing or no folder; `Device` if the system does not say what stands there.
pub fn find_folder<R: Files>(files: &R, folder: &str) -> Result<(), FolderError> {
    let Err(error) = patiently(|| check_folder(files, folder)) else {
        return Ok(());
    };
    let fault = match error.kind() {
        ErrorKind::NotFound | ErrorKind::NotADirectory => FolderFault::NoFolder,
        _ => FolderFault::Device,
    };
    Err(FolderError {
        fault,
        error: error.raw_os_error(),
    })
}

// The answer of the disk, with its faults counted as the device's.
fn told<T>(failures: &mut u64, answer: io::Result<T>) -> Result<T, DirFault>
    ensures passed { IfOk result (λ value. answer ≡ Ok value) }
    ensures failed { OnErr result (IsErr answer) }
    ensures fault { IfErr result (λ fault. fault ≡ DirFault.Device) }
    ensures counted { CountsFault failures.old failures.new result }
{
    match answer {
        Ok(value) => Ok(value),
        Err(_) => {
            *failures = failures.saturating_add(1);
            Err(DirFault::Device)
        }
    }
}

// The answer of the disk for a name that is moved. A missing name is no fault of the device.
fn told_move(failures: &mut u64, answer: io::Result<()>) -> Result<(), DirFault>
    ensures passed { IfOk result (λ value. answer ≡ Ok value) }
    ensures failed { OnErr result (IsErr answer) }
    ensures absent { result ≡ Err DirFault.NoName → IfErr answer (λ e. error_kind e ≡ ErrorKind.NotFound) }
    ensures faults { IfErr result (λ fault. (fault ≡ DirFault.NoName) ⊎ (fault ≡ DirFault.Device)) }
    ensures counted { CountsFault failures.old failures.new result }
{
    match answer {
        Err(error) if error.kind() == ErrorKind::NotFound => Err(DirFault::NoName),
        answer => told(failures, answer),
    }
}

// Whether an opened file is the scratch file.
fn is_scratch<D: Disk>(disk: &D, file: &D::File, scratch: &Option<D::File>) -> io::Result<bool>
    requires { IsTrue D.honest → (D.state disk.now).scratch ≡ option_map D.number scratch.now }
    ensures { IsTrue D.honest → IfOk result (λ same. same ≡ false
        → (D.state disk.now).scratch ≢ Some (D.number file.now)) }
{
    let Some(scratch) = scratch else {
        return Ok(false);
    };
    let found = disk.look(file)?;
    let written = disk.look(scratch)?;
    Ok(found.device == written.device && found.inode == written.inode)
}

// Opens a file to read it. The scratch file is not opened. What was opened is looked at once more, with its length,
// since something that is no file may stand there by then.
fn open_file<D: Disk>(
    disk: &mut D,
    name: &Name,
    scratch: &Option<D::File>,
) -> io::Result<Option<OsFile<D::File>>>
    requires { IsTrue D.honest → (D.state disk.old).scratch ≡ option_map D.number scratch.now }
    ensures found { IsTrue D.honest → IfOk result (IsFoundAt D.File.bytes (D.state disk.old) name.now) }
    ensures same { IsTrue D.honest → D.state disk.new ≡ D.state disk.old }
    ensures time { IsTrue D.honest → StepElapses D.state D.moment D.left_since disk.old disk.new }
{
    let file = match disk.open(name) {
        Ok(file) => file,
        Err(error) if error.kind() == ErrorKind::NotFound => return Ok(None),
        Err(error) => return Err(error),
    };
    let found = disk.look(&file)?;
    if is_scratch(disk, &file, scratch)? {
        return Err(io::Error::from(ErrorKind::ResourceBusy));
    }
    Ok(Some(OsFile::new(file, found.len)))
}

impl<D: Disk + Drop> Dir for DiskDir<D> {
    ghost use Rattle.dir_disk.specs.OsParts.{os_failed, os_left_since, os_made, os_moment, os_state};

    type File = OsFile<D::File>;

    ghost state = { λ dir. kept_back dir.pending.items (D.state dir.disk) };

    ghost honest = { D.honest };

    ghost moment = { λ dir. D.moment dir.disk };

    ghost left_since = { λ dir. D.left_since dir.disk };

    ghost failed = { λ dir. dir.failures };

    ghost counts_now = { λ dir earlier image honest le now. D.counts_now dir.disk earlier image honest le
        (disk_image D.number (D.state dir.disk) dir.scratch dir.written dir.pending.items image (dir.holds honest) now) };

    ghost only_now = { λ dir image honest left. kept_image D.number (D.state dir.disk) dir.scratch dir.written
        dir.pending.items image (dir.holds honest) (D.only_now dir.disk image honest left) };

    ghost honest_files = { λ honest. subst (λ known. IsTrue known) (sym D.honest_files) honest };

    fn fresh(&mut self, alloc: Global, name: &Name) -> Result<(), DirFault> {
        self.pending.try_reserve(BUFFER)?;
        let scratch = self.scratch.take();
        self.made = None;
        let outcome = renew(
            &mut self.disk,
            name,
            scratch,
            self.written,
            &mut self.pending,
        );
        let file = told(&mut self.failures, outcome)?;
        self.scratch = Some(file);
        self.written = 0;
        Ok(())
    }

    fn append(&mut self, alloc: Global, piece: &[u8]) -> Result<usize, DirFault> {
        let Some(file) = self.scratch.take() else {
            return Err(DirFault::NoScratch);
        };
        let outcome = make_room(&mut self.disk, file, self.written, &mut self.pending);
        let (file, written) = told(&mut self.failures, outcome)?;
        self.scratch = Some(file);
        self.written = written;
        let count = piece.len().min(BUFFER - self.pending.len());
        self.pending.extend_from_slice(&piece[..count])?;
        Ok(count)
    }

    fn patch(&mut self, alloc: Global, position: u64, bytes: &[u8]) -> Result<(), DirFault> {
        let Some(file) = self.scratch.take() else {
            return Err(DirFault::NoScratch);
        };
        let outcome = overwrite(
            &mut self.disk,
            file,
            self.written,
            &mut self.pending,
            position,
            bytes,
        );
        let (file, written) = told(&mut self.failures, outcome)?;
        self.scratch = Some(file);
        self.written = written;
        Ok(())
    }

    fn sync(&mut self, alloc: Global) -> Result<(), DirFault> {
        let Some(file) = self.scratch.take() else {
            return Err(DirFault::NoScratch);
        };
        let outcome = sync_kept(
            &mut self.disk,
            file,
            self.written,
            &mut self.pending,
            &mut self.made,
        );
        told(&mut self.failures, outcome)
    }

    fn rename(&mut self, alloc: Global, from: &Name, to: &Name) -> Result<(), DirFault>
        // only the file that was made last is ever moved, whatever was done to names meanwhile, and whatever is
        // answered
        ensures own { IsTrue D.honest → OnOk result
            (number_of (os_state D.state self.old) from.now ≡ os_made D.number self.old) }
        ensures own_if_moved { IsTrue D.honest → OnErr result (MovesNoOther (os_made D.number self.old) from.now
            (os_state D.state self.old) (os_state D.state self.new)) }
        ensures does { IsTrue D.honest
            → DoesCall (os_state D.state) (renames from.now to.now) self.old self.new result }
        ensures found { IsTrue D.honest → OnOk result (IsSome (number_of (os_state D.state self.old) from.now)) }
        ensures no_name { IsTrue D.honest → result ≡ Err DirFault.NoName
            → number_of (os_state D.state self.old) from.now ≡ None }
        ensures no_memory { IsTrue D.honest → result ≡ Err DirFault.OutOfMemory
            → IsSome (number_of (os_state D.state self.old) from.now) }
        ensures faults { IfErr result (Contains (DirFault.NoName ∷ DirFault.Device ∷ DirFault.OutOfMemory ∷ [])) }
        ensures counted { CountsFault (os_failed self.old) (os_failed self.new) result }
        ensures time { IsTrue D.honest → CallElapses (os_state D.state) (os_moment D.moment)
            (os_left_since D.left_since) (renames from.now to.now) self.old self.new }
        ensures within { IsTrue D.honest → OnOk result (CallIncludes (os_state D.state) (os_moment D.moment)
            (os_left_since D.left_since) (renames from.now to.now) self.old self.new) }
    {
        let outcome = rename(&mut self.disk, &self.made, from, to);
        told_move(&mut self.failures, outcome)
    }

    fn settle(&mut self) -> Result<(), DirFault> {
        let outcome = self.disk.sync_folder();
        told(&mut self.failures, outcome)
    }

    fn open(&mut self, alloc: Global, name: &Name) -> Result<Option<OsFile<D::File>>, DirFault> {
        let outcome = open_file(&mut self.disk, name, &self.scratch);
        told(&mut self.failures, outcome)
    }

    fn failures(&self) -> u64 {
        self.failures
    }
}
