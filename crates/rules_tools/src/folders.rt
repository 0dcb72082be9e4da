//! Folders by their paths.
ghost use Rattle.std.specs.Prelude.{◌≡◌, ⊤, ℕ, Bool, List, Option, Some, None, Err, IsTrue, IfOk, OnErr, false};
ghost use Rattle.dir_calls.specs.Directory.{Directory};
ghost use Rattle.dir_calls.specs.NoDirectory.{not_honest};
ghost use Rattle.rules_tools.specs.declared.cause.ErrorCause.{ErrorCause};

use crate::cause::{CauseOf, ErrorCause};
use crate::waiting::Waiting;
use dir_calls::{ClearableDir, Dir};
use dir_disk::{FolderError, FolderFault, LockedDir, NoWait, OsDir, find_folder};
use std::alloc::{AllocError, Global};
use std::cell::Cell;
use std::fs::{File, Files};
use std::io::Write;
use std::os::unix::fs::MetadataExt;
use std::time::Clock;

/// Folders by their paths.
pub trait Folders {
    /// One that is used as a directory.
    type Folder: Dir + Drop;

    /// Which directory stands at a path, if one does.
    ghost stands: { Self → List ℕ → Option Directory };

    /// Whether it is known what stands where.
    ghost honest: { Bool };

    /// The folder at a path.
    ///
    /// # Errors
    /// `NoFolder` where nothing stands there, or no folder; `Device` where it isn't told what stands there;
    /// `OutOfMemory`.
    fn find(&mut self, alloc: Global, path: &str) -> Result<Self::Folder, FolderFault>
        ensures found { IsTrue honest → IfOk result (λ folder.
            stands self.old path.now ≡ Some (Self.Folder.state folder)) }
        ensures missing { IsTrue honest → result ≡ Err FolderFault.NoFolder → stands self.old path.now ≡ None };

    /// Is shown a folder right after no answer came from there, so that the cause can be told.
    fn failed(&mut self, folder: &Self::Folder);

    /// The cause that is told of the last fault, if one is.
    ghost told: { Self → Option ErrorCause };

    /// Of what the last fault came, where the system has told that.
    fn cause(&self) -> Option<ErrorCause>
        ensures { result ≡ told self.now };

    /// Where what stands is known, each folder is honest.
    ghost honest_folders: { IsTrue honest → IsTrue Self.Folder.honest };
}

/// Folders by their paths, in which rules are installed.
pub trait InstallFolders {
    /// One that was opened: a directory.
    type Opened: ClearableDir + Drop;

    /// What is answered of two paths: whether they stand for one folder.
    ghost are_one: { Self → List ℕ → List ℕ → Bool → Type 0 };

    /// Which folder is opened at a path, and how all stand after that.
    ghost opens: { Self → List ℕ → Self.Opened → Self → Type 0 };

    /// Which folder is let go, the cause that is told of the last fault there, and how all stand after that.
    ghost closes: { Self → Self.Opened → Option ErrorCause → Self → Type 0 };

    /// Whether two paths stand for one folder, as far as that is told.
    fn are_one(&self, folder: &str, other: &str) -> bool
        ensures { are_one self.now folder.now other.now result };

    /// Opens the folder at a path.
    ///
    /// # Errors
    /// There was no memory, and nothing was opened.
    fn open(&mut self, alloc: Global, path: &str) -> Result<Self::Opened, AllocError>
        ensures opened { IfOk result (λ dir. opens self.old path.now dir self.new) }
        ensures unopened { OnErr result (self.new ≡ self.old) };

    /// Lets a folder go, and tells of what the last fault there came, where the system has told that.
    fn close(&mut self, dir: Self::Opened) -> Option<ErrorCause>
        ensures { closes self.old dir result self.new };
}

/// Folders of the system, and the cause of what failed there last. Nothing is known of them.
#[derive(Drop)]
pub struct SystemFolders<'a, S, E> {
    system: &'a S,
    // what takes the line of a wait, until a folder is opened in which one may wait
    errors: Cell<Option<E>>,
    cause: Option<ErrorCause>,
}

impl<'a, S, E> SystemFolders<'a, S, E> {
    /// Those of this system. `errors` is told of a wait for another installation.
    pub fn new(system: &'a S, errors: E) -> SystemFolders<'a, S, E> {
        SystemFolders {
            system,
            errors: Cell::new(Some(errors)),
            cause: None,
        }
    }
}

impl<'a, S: Files<File = File>, E> Folders for SystemFolders<'a, S, E> {
    type Folder = OsDir<&'a S>;

    ghost stands = { λ _ _. None };

    ghost honest = { false };

    ghost told = { λ folders. folders.cause };

    ghost honest_folders = { not_honest };

    fn find(&mut self, alloc: Global, path: &str) -> Result<OsDir<&'a S>, FolderFault> {
        if let Err(FolderError { fault, error }) = find_folder(self.system, path) {
            self.cause = ErrorCause::of(CauseOf::Folder, error);
            return Err(fault);
        }
        match OsDir::at(alloc, self.system, NoWait, path) {
            Ok(folder) => Ok(folder),
            Err(_) => Err(FolderFault::OutOfMemory),
        }
    }

    fn failed(&mut self, folder: &OsDir<&'a S>) {
        self.cause = ErrorCause::of_call(CauseOf::Rules, folder.failure());
    }

    fn cause(&self) -> Option<ErrorCause> {
        self.cause
    }
}

/// A folder of the system in which several processes may install: one does, and the others wait for it.
impl<'a, S, E> InstallFolders for SystemFolders<'a, S, E>
where
    S: Files<File = File> + Clock,
    E: Write + Drop,
{
    type Opened = LockedDir<&'a S, Waiting<'a, S, E>>;

    ghost are_one = { λ _ _ _ _. ⊤ };

    ghost opens = { λ _ _ _ _. ⊤ };

    ghost closes = { λ _ _ _ _. ⊤ };

    fn are_one(&self, folder: &str, other: &str) -> bool {
        match (self.system.metadata(folder), self.system.metadata(other)) {
            (Ok(folder), Ok(other)) => folder.dev() == other.dev() && folder.ino() == other.ino(),
            _ => false,
        }
    }

    fn open(
        &mut self,
        alloc: Global,
        path: &str,
    ) -> Result<LockedDir<&'a S, Waiting<'a, S, E>>, AllocError> {
        let waiting = Waiting::new(self.system, self.errors.replace(None));
        LockedDir::at(alloc, self.system, waiting, path)
    }

    fn close(&mut self, dir: LockedDir<&'a S, Waiting<'a, S, E>>) -> Option<ErrorCause> {
        ErrorCause::of_call(CauseOf::Scratch, dir.failure())
    }
}
