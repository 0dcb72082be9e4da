//! Folders of the system, call by call.
ghost use Rattle.std.specs.Prelude.{◌≡◌, [], ⊤, true, false, refl, IfOk};
ghost use Rattle.dir_calls.specs.NoDirectory.{no_directory, not_honest};
ghost use Rattle.dir_disk.specs.OsParts.{system_folder};

use crate::disk::{Disk, DiskFile, Look};
use crate::failure::{FailedOn, Notes, store};
use crate::lock::{
    HIDDEN, Waits, check_file, check_onto, complete, is_taken, make_claimed, read_mask, take_free,
};
use dir_calls::Name;
use std::alloc::{AllocError, Global};
use std::fs::{File, Files, Metadata, OpenOptions};
use std::io::{self, ErrorKind};
use std::os::unix::fs::{FileExt, MetadataExt};
use std::sync::Arc;
use std::sync::atomic::AtomicU32;

/// How many bytes a slash and a name have at most.
const LONGEST: usize = 256;

/// How often a call is made again if signals interrupt it.
const TRIES: u32 = 1_000;

/// How often a name is tried for that another process has: more often than there is time for.
const NAME_TRIES: u32 = 1_000_000;

/// The system's errors: for a file of a folder that is gone, and for what is no folder.
const STALE: i32 = 116;

const NO_FOLDER: i32 = 20;

/// A folder of the system. Each call is one of std's, with looks before it. Std writes all bytes of a call, and makes
/// an interrupted `open`, `write` or `fsync` again. Looks at the folder, reads, `unlink` and `rename` are made again
/// here. Nothing is known of the system: that it does what `Disk` says is the premise of all that stands on it.
///
/// Std has no calls by a folder's descriptor, so each call is by the path. The folder is opened once, before the first
/// change of a name; if it can't be opened for reading, nothing has changed. Before each change of a name, and before
/// names are made lasting, the disk compares the folder that it opened with what stands at its path now. If that is
/// another folder, because a link on the way was changed, the call fails and nothing changes. A file that is to be
/// renamed is compared in the same way with what stands under its name. No name is taken from the standard input, whose
/// text would be lost. Between such a look and the call itself the path may still be changed.
///
/// Several processes may make files under one name. A process claims a file by its lock, and `waits` says how long the
/// others wait for it. No call takes memory.
#[derive(Drop)]
pub struct SystemDisk<R: Drop, W: Drop> {
    files: R,
    waits: W,
    folder: String,
    // the folder itself, once it is opened
    opened: Option<File>,
    // room for the paths of a call
    path: String,
    onto: String,
    // the permissions that the file which was made last gets once it is complete, if it was made with others
    mode: Option<u32>,
    // the file that was made last
    made: Option<Identity>,
    pub(crate) notes: Notes,
}

/// A file of the system.
#[derive(Drop)]
pub struct SystemFile {
    file: File,
    // where it is noted how a read ended
    noted: Option<Arc<AtomicU32, Global>>,
}

// Puts the path of a name in a folder into the room for one, which is enough for any name.
fn put_path(path: &mut String, folder: &str, name: &Name) -> Result<(), AllocError> {
    path.clear();
    path.push_str(folder)?;
    path.push_str("/")?;
    path.push_str(name.as_str())
}

// The error of a call that was tried too often.
fn no_more() -> io::Error {
    io::Error::from(ErrorKind::OutOfMemory)
}

/// Makes a call, and makes it again if a signal interrupts it.
pub(crate) fn patiently<T, F: FnMut() -> io::Result<T>>(mut call: F) -> io::Result<T>
    requires { F.IsAlwaysCallable call }
{
    for _ in 0..TRIES {
        match call() {
            Err(error) if error.kind() == ErrorKind::Interrupted => {}
            outcome => return outcome,
        }
    }
    Err(io::Error::from(ErrorKind::Interrupted))
}

/// Checks that a folder stands at a path.
pub(crate) fn check_folder<R: Files>(files: &R, path: &str) -> io::Result<()> {
    if files.metadata(path)?.is_dir() {
        Ok(())
    } else {
        Err(io::Error::from_raw_os_error(NO_FOLDER))
    }
}

impl<R: Files<File = File> + Drop, W: Waits + Drop> SystemDisk<R, W> {
    /// The folder at a path. The system is not called.
    pub(crate) fn new(alloc: Global, files: R, waits: W, folder: &str) -> Result<Self, AllocError>
        ensures folder { IfOk result (λ disk. system_folder disk ≡ folder.now) }
    {
        let length = folder.len().saturating_add(LONGEST);
        Ok(SystemDisk {
            files,
            waits,
            folder: String::from_str(alloc, folder)?,
            opened: None,
            path: String::with_capacity(alloc, length)?,
            onto: String::with_capacity(alloc, length)?,
            mode: None,
            made: None,
            notes: Notes::new(alloc)?,
        })
    }

    // Opens the folder. A folder that can't be opened is an error of no other meaning.
    fn open_folder(&self) -> io::Result<File> {
        let path = self.folder.as_str();
        let outcome = match patiently(|| check_folder(&self.files, path)) {
            Ok(()) => OpenOptions::new().read(true).open(&self.files, path),
            Err(error) => Err(error),
        };
        match self.notes.note(FailedOn::Folder, outcome) {
            Ok(folder) => Ok(folder),
            Err(_) => Err(io::Error::from(ErrorKind::Other)),
        }
    }

    // Checks that the folder which was opened still stands at its path.
    fn see_folder(&mut self) -> io::Result<()> {
        let folder = match self.opened.take() {
            Some(folder) => folder,
            None => self.open_folder()?,
        };
        let same = check_same(folder.metadata(), self.files.metadata(self.folder.as_str()));
        self.opened = Some(folder);
        self.notes.note(FailedOn::Folder, same)
    }

    // The answer of a call that makes a file or takes one away, as it is noted. There is none if another process has
    // the name and the call is to be tried again. After a file was made, only that file is taken away: if another
    // process has the name by then, nothing is left to be done.
    fn answer<T: Drop>(&mut self, outcome: io::Result<T>) -> Option<io::Result<T>> {
        let taken = match &outcome {
            Err(error) => is_taken(error),
            Ok(_) => false,
        };
        if taken && self.made.is_none() && self.waits.wait() {
            return None;
        }
        Some(self.notes.note(FailedOn::Name, outcome))
    }

    // Takes away what stands under a name; after a file was made, that file alone. Somebody may have put another one
    // there meanwhile, and have been told that it stands there for good.
    fn take_away(&mut self, name: &Name) -> io::Result<()> {
        put_path(&mut self.path, self.folder.as_str(), name)?;
        for _ in 0..NAME_TRIES {
            self.see_folder()?;
            let outcome = take_free(&self.files, self.path.as_str(), self.made);
            if let Some(outcome) = self.answer(outcome) {
                return outcome;
            }
        }
        Err(no_more())
    }

    // Makes a file under a name.
    fn make(&mut self, name: &Name, mode: u32) -> io::Result<File> {
        put_path(&mut self.path, self.folder.as_str(), name)?;
        for _ in 0..NAME_TRIES {
            patiently(|| self.see_folder())?;
            let outcome = self.make_hidden(mode);
            if let Some(outcome) = self.answer(outcome) {
                return outcome;
            }
        }
        Err(no_more())
    }

    // Makes a file at the path. Until it is complete no other user can open it, if it is known what the process masks.
    fn make_hidden(&mut self, mode: u32) -> io::Result<File> {
        let mut first = mode;
        self.mode = None;
        if let Some(mask) = read_mask(&self.files) {
            first = HIDDEN;
            self.mode = Some(mode & !mask);
        }
        let file = make_claimed(&self.files, self.path.as_str(), first)?;
        self.made = Some(Identity::of(&file.metadata()?));
        Ok(file)
    }

    // Moves one name onto another, if it stands for this file, and the other not for the standard input.
    fn move_file(&mut self, file: &File, from: &Name, to: &Name) -> io::Result<()> {
        put_path(&mut self.path, self.folder.as_str(), from)?;
        put_path(&mut self.onto, self.folder.as_str(), to)?;
        self.see_folder()?;
        let path = self.path.as_str();
        let same = check_same(file.metadata(), self.files.symlink_metadata(path));
        self.notes.note(FailedOn::Name, same)?;
        let onto = self.onto.as_str();
        let kept = check_onto(&self.files, onto);
        self.notes.note(FailedOn::Onto, kept)?;
        let outcome = self.files.rename(path, onto);
        self.notes.note(FailedOn::Onto, outcome)
    }

    // Opens the file under a name. It is looked at first, so that a pipe holds nobody up.
    fn open_file(&mut self, name: &Name) -> io::Result<File> {
        put_path(&mut self.path, self.folder.as_str(), name)?;
        let path = self.path.as_str();
        check_file(&self.files.metadata(path)?)?;
        OpenOptions::new().read(true).open(&self.files, path)
    }
}

/// Which file one is: its device, and its number there.
#[derive(Clone, Copy, PartialEq, Eq)]
pub(crate) struct Identity {
    device: u64,
    inode: u64,
}

impl Identity {
    /// That of a file that was looked at.
    pub(crate) fn of(found: &Metadata) -> Identity {
        Identity {
            device: found.dev(),
            inode: found.ino(),
        }
    }
}

/// Whether what was opened is what stands at a path, by device and number.
pub(crate) fn is_same(
    opened: io::Result<Metadata>,
    stands: io::Result<Metadata>,
) -> io::Result<bool> {
    Ok(Identity::of(&opened?) == Identity::of(&stands?))
}

/// The error if it is something else: the system's for a file of a folder that is gone.
pub(crate) fn stale() -> io::Error {
    io::Error::from_raw_os_error(STALE)
}

// Checks that it is.
fn check_same(opened: io::Result<Metadata>, stands: io::Result<Metadata>) -> io::Result<()> {
    if is_same(opened, stands)? {
        Ok(())
    } else {
        Err(stale())
    }
}

// What a look at an opened file answers, if it is a file.
fn look_at(file: &File) -> io::Result<Look> {
    let found = file.metadata()?;
    check_file(&found)?;
    Ok(Look {
        len: found.len(),
        device: found.dev(),
        inode: found.ino(),
    })
}

/// Nothing is known of a file of the system.
impl DiskFile for SystemFile {
    ghost bytes = { λ _. [] };

    ghost honest = { false };

    fn read_at(&self, position: u64, buf: &mut [u8]) -> io::Result<usize> {
        for _ in 0..TRIES {
            let outcome = self.file.read_at(buf, position);
            if let Some(noted) = &self.noted {
                store(noted, &outcome);
            }
            match outcome {
                Err(error) if error.kind() == ErrorKind::Interrupted => {}
                outcome => return outcome,
            }
        }
        Err(io::Error::from(ErrorKind::Interrupted))
    }
}

impl<R: Files<File = File> + Drop, W: Waits + Drop> Disk for SystemDisk<R, W> {
    type File = SystemFile;

    ghost state = { λ _. no_directory };

    ghost honest = { false };

    ghost moment = { λ _. 0 };

    ghost left_since = { λ _ _ _. ⊤ };

    ghost number = { λ _. 0 };

    ghost regular = { λ _. true };

    ghost identity = { λ _. (0, 0) };

    ghost counts_now = { λ _ _ _ honest. not_honest honest };

    ghost only_now = { λ _ _ honest. not_honest honest };

    ghost honest_files = { refl };

    fn sync_folder(&mut self) -> io::Result<()> {
        patiently(|| self.see_folder())?;
        let outcome = match &self.opened {
            Some(folder) => folder.sync_all(),
            None => Err(stale()),
        };
        self.notes.note(FailedOn::Folder, outcome)
    }

    // (a failure that is noted already stays noted)
    fn unlink(&mut self, name: &Name) -> io::Result<()> {
        let failure = self.notes.last();
        let outcome = patiently(|| self.take_away(name));
        self.notes.keep(failure);
        match outcome {
            Err(error) if error.kind() == ErrorKind::NotFound => Ok(()),
            outcome => outcome,
        }
    }

    fn create(&mut self, name: &Name, mode: u32) -> io::Result<SystemFile> {
        let file = self.make(name, mode)?;
        Ok(SystemFile { file, noted: None })
    }

    fn write_all_at(&mut self, file: &SystemFile, position: u64, bytes: &[u8]) -> io::Result<()> {
        let outcome = file.file.write_all_at(bytes, position);
        self.notes.note(FailedOn::Name, outcome)
    }

    fn sync(&mut self, file: &SystemFile) -> io::Result<()> {
        let outcome = match complete(&file.file, self.mode) {
            Ok(()) => file.file.sync_all(),
            failed => failed,
        };
        self.notes.note(FailedOn::Name, outcome)
    }

    fn close(&mut self, _file: &SystemFile) {}

    fn rename(&mut self, file: &SystemFile, from: &Name, to: &Name) -> io::Result<()> {
        patiently(|| self.move_file(&file.file, from, to))
    }

    fn open(&mut self, name: &Name) -> io::Result<SystemFile> {
        let outcome = patiently(|| self.open_file(name));
        let file = self.notes.note(FailedOn::Name, outcome)?;
        Ok(SystemFile {
            file,
            noted: self.notes.of_file(),
        })
    }

    fn look(&self, file: &SystemFile) -> io::Result<Look> {
        self.notes.note(FailedOn::Name, look_at(&file.file))
    }
}
