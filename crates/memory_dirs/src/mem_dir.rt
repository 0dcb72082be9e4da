//! Directories in memory.
ghost use Rattle.std.specs.Prelude.{◌≡◌, ◌≤◌, ◌<◌, [], ◌∷◌, map, length, true, None, IsSome, Contains, IfOk, IfErr, OnOk};
ghost use Rattle.dir_calls.specs.Calls.{appends};
ghost use Rattle.dir_calls.specs.Methods.{AppendsSome, CallElapses, CallIncludes};
ghost use Rattle.dir_calls.specs.Moments.{CountsFault};
ghost use Rattle.dir_calls.specs.Images.{IsImage};
ghost use Rattle.memory_dirs.specs.Folder.{directory_of, empty_directory};
ghost use Rattle.dir_calls.specs.Stop.{stopped};
ghost use Rattle.memory_dirs.specs.Past.{LeftSince, past_call, left_now};
ghost use Rattle.std.proofs.Common.{inl};

use crate::crash::stopped_folder;
use crate::folder::Folder;
use crate::mem_file::MemFile;
use dir_calls::{Choice, Dir, DirFault, Name};
use http_server::Log;
use std::alloc::{AllocError, Global};

/// A directory in memory. Its calls do what they should, its device never fails, and `append` takes the whole piece.
///
/// It is known what a stop at any moment since it was made may have left. Of the past, the running program keeps only
/// the name of each file that was made.
#[derive(Drop)]
pub struct MemDir {
    folder: Folder,
    // what stood there before each call that did something, and the name of the file that the call made, if it made one
    past: Log<Folder, Option<Name>>,
}

impl MemDir {
    ghost use Rattle.memory_dirs.specs.MemDir.{mem_state};

    /// An empty directory. It takes no memory.
    pub fn new(alloc: Global) -> Self
        ensures { mem_state result ≡ empty_directory }
    {
        MemDir {
            folder: Folder::new(alloc),
            past: Log::new(),
        }
    }

    /// The directory that a stop now leaves, by a choice. Synced files are shared and not copied.
    pub fn crash(&self, alloc: Global, choice: Choice) -> Result<MemDir, AllocError>
        ensures chosen { IfOk result (λ left. mem_state left ≡ stopped choice (mem_state self.now)) }
        ensures image { IfOk result (λ left. IsImage (mem_state self.now) (mem_state left)) }
    {
        Ok(MemDir {
            folder: stopped_folder(alloc, &self.folder, choice)?,
            past: Log::new(),
        })
    }
}

impl Dir for MemDir {
    ghost use Rattle.memory_dirs.specs.MemDir.{mem_state, mem_moment, mem_left_since};

    type File = MemFile;

    ghost state = { λ m. directory_of m.folder };

    ghost honest = { true };

    ghost moment = { λ m. length (map past_call m.past.items) };

    ghost left_since = { λ m. LeftSince (map past_call m.past.items) (directory_of m.folder) };

    ghost failed = { λ _. 0 };

    ghost counts_now = { λ m earlier image honest le now. inl now };

    ghost only_now = { λ m image honest left.
        left_now (map past_call m.past.items) (directory_of m.folder) image left };

    ghost honest_files = { λ honest. honest };

    fn fresh(&mut self, alloc: Global, name: &Name) -> Result<(), DirFault> {
        let made = Some(name.copy(alloc)?);
        let past = self.past.and(&self.folder, &made);
        self.folder.make(alloc, name.as_str().as_bytes())?;
        self.past = past;
        Ok(())
    }

    fn append(&mut self, alloc: Global, piece: &[u8]) -> Result<usize, DirFault>
        ensures whole { IfOk result (λ count. count ≡ length piece.now) }
        ensures taken { IfOk result (λ count. count ≤ length piece.now) }
        ensures some { IfOk result (λ count. 0 < length piece.now → 0 < count) }
        ensures does { AppendsSome mem_state piece.now self.old self.new result }
        ensures scratch { OnOk result (IsSome (mem_state self.old).scratch) }
        ensures no_scratch { result ≡ Err DirFault.NoScratch → (mem_state self.old).scratch ≡ None }
        ensures no_memory { result ≡ Err DirFault.OutOfMemory → IsSome (mem_state self.old).scratch }
        ensures faults { IfErr result (Contains (DirFault.NoScratch ∷ DirFault.Device ∷ DirFault.OutOfMemory ∷ [])) }
        ensures counted { CountsFault 0 0 result }
        ensures time { CallElapses mem_state mem_moment mem_left_since (appends piece.now) self.old self.new }
        ensures within { OnOk result
            (CallIncludes mem_state mem_moment mem_left_since (appends piece.now) self.old self.new) }
    {
        let Some(number) = self.folder.scratch else {
            return Err(DirFault::NoScratch);
        };
        let past = self.past.and(&self.folder, &None);
        self.folder.append(number, piece)?;
        self.past = past;
        Ok(piece.len())
    }

    fn patch(&mut self, alloc: Global, position: u64, bytes: &[u8]) -> Result<(), DirFault> {
        let Some(number) = self.folder.scratch else {
            return Err(DirFault::NoScratch);
        };
        let past = self.past.and(&self.folder, &None);
        self.folder.patch(number, position as usize, bytes);
        self.past = past;
        Ok(())
    }

    fn sync(&mut self, alloc: Global) -> Result<(), DirFault> {
        let Some(number) = self.folder.scratch else {
            return Err(DirFault::NoScratch);
        };
        let past = self.past.and(&self.folder, &None);
        self.folder.sync(alloc, number)?;
        self.past = past;
        Ok(())
    }

    fn rename(&mut self, alloc: Global, from: &Name, to: &Name) -> Result<(), DirFault> {
        let Some(number) = self.folder.number(from.as_str().as_bytes()) else {
            return Err(DirFault::NoName);
        };
        let past = self.past.and(&self.folder, &None);
        self.folder.rename(
            alloc,
            from.as_str().as_bytes(),
            to.as_str().as_bytes(),
            number,
        )?;
        self.past = past;
        Ok(())
    }

    fn settle(&mut self) -> Result<(), DirFault> {
        let past = self.past.and(&self.folder, &None);
        self.folder.settle();
        self.past = past;
        Ok(())
    }

    fn open(&mut self, alloc: Global, name: &Name) -> Result<Option<MemFile>, DirFault> {
        Ok(self.folder.open(alloc, name.as_str().as_bytes())?)
    }

    fn failures(&self) -> u64 {
        0
    }
}
