//! What stands in a directory in memory.
ghost use Rattle.std.specs.Prelude.{◌≡◌, ◌≤◌, ◌<◌, ◌+◌, ◌++◌, [], ◌∷◌, Some, None, length, map, IfOk, OnOk, OnErr, is_some, option_to_list, slice_get, vec_len, vec_capacity};
ghost use Rattle.std.specs.Option.{ForSome, option_map};
ghost use Rattle.std.specs.FinMap.{get};
ghost use Rattle.dir_calls.specs.NameTable.{after_changes, takes};
ghost use Rattle.memory_dirs.specs.Entries.{names_in, change_of};
ghost use Rattle.dir_calls.specs.Same.{same_names-prop};

use crate::entries::{Entry, NameEdit, number_at, with_name, without_name};
use crate::mem_file::MemFile;
use crate::stored::{Stored, close};
use std::alloc::{AllocError, Global};
use std::sync::Arc;

/// A directory in memory. The names are those of `origin` after the edits; the first `settled` edits are settled.
#[derive(Drop)]
pub struct Folder {
    pub(crate) origin: Vec<Entry>,
    pub(crate) edits: Vec<NameEdit>,
    pub(crate) settled: usize,
    pub(crate) names: Vec<Entry>,
    pub(crate) files: Vec<Stored>,
    pub(crate) scratch: Option<usize>,
    ghost standing: { names_in names.items
        ≡ after_changes (names_in origin.items) (map change_of edits.items) } by { same_names-prop _ _ },
    ghost settled_fits: { settled ≤ length edits.items },
    ghost in_range: { ForSome scratch (λ number. number < length files.items) },
}

// Appends an edit, and before it another one if there is one.
fn keep_both(edits: &mut Vec<NameEdit>, first: Option<NameEdit>, last: NameEdit)
    requires { vec_len edits.old + 2 ≤ vec_capacity edits.old }
    ensures { map change_of edits.new.items
        ≡ map change_of edits.old.items ++ (option_to_list (option_map change_of first) ++ change_of last ∷ []) }
{
    if let Some(first) = first {
        edits.push_reserved(first);
    }
    edits.push_reserved(last);
}

impl Folder {
    ghost use Rattle.dir_calls.specs.Calls.{makes, appends, patches, renames, settles, syncs, after, closed, lasting, with_scratch, without};
    ghost use Rattle.memory_dirs.specs.Stored.{open_length};
    ghost use Rattle.memory_dirs.specs.Folder.{directory_of, empty_directory};
    ghost use Rattle.dir_calls.specs.Directory.{number_of, scratch_of, content};
    ghost use Rattle.dir_calls.specs.Methods.{IsInside};

    /// An empty directory.
    pub fn new(alloc: Global) -> Self
        ensures { directory_of result ≡ empty_directory }
    {
        Folder {
            origin: Vec::new(alloc),
            edits: Vec::new(alloc),
            settled: 0,
            names: Vec::new(alloc),
            files: Vec::new(alloc),
            scratch: None,
        }
    }

    /// The number of the file that a name stands for.
    pub fn number(&self, name: &[u8]) -> Option<usize>
        ensures { result ≡ number_of (directory_of self.now) name.now }
    {
        number_at(&self.names, name)
    }

    /// Takes away what stands under a name, and makes a new empty file there, the scratch file.
    ///
    /// # Errors
    /// Want of memory. Nothing has changed.
    pub fn make(&mut self, alloc: Global, name: &[u8]) -> Result<(), AllocError>
        ensures ok { OnOk result (directory_of self.new ≡ after (makes name.now) (directory_of self.old)) }
        ensures err { OnErr result (directory_of self.new ≡ directory_of self.old) }
    {
        let number = self.files.len();
        let names = with_name(alloc, &self.names, name, name, number)?;
        let put = NameEdit::Put(name.to_vec(alloc)?, number);
        let taken = self.taking(alloc, name)?;
        self.edits.try_reserve(2)?;
        self.files.try_reserve(1)?;
        keep_both(&mut self.edits, taken, put);
        self.files.push_reserved(Stored::Open(Vec::new(alloc)));
        self.names = names;
        self.scratch = Some(number);
        Ok(())
    }

    // The change that takes a name away, if it stands.
    fn taking(&self, alloc: Global, name: &[u8]) -> Result<Option<NameEdit>, AllocError>
        ensures { IfOk result (λ taken. option_map change_of taken
            ≡ option_map (λ _. takes name.now) (number_of (directory_of self.now) name.now)) }
    {
        match self.number(name) {
            Some(_) => Ok(Some(NameEdit::Taken(name.to_vec(alloc)?))),
            None => Ok(None),
        }
    }

    /// Takes a name away, if it stands. Whether it stood.
    ///
    /// # Errors
    /// Want of memory. Nothing has changed.
    pub fn take(&mut self, alloc: Global, name: &[u8]) -> Result<bool, AllocError>
        ensures stood { IfOk result (λ stood. stood ≡ is_some (number_of (directory_of self.old) name.now)) }
        ensures ok { OnOk result (directory_of self.new ≡ without (directory_of self.old) name.now) }
        ensures err { OnErr result (directory_of self.new ≡ directory_of self.old) }
    {
        let Some(taken) = self.taking(alloc, name)? else {
            return Ok(false);
        };
        let names = without_name(alloc, &self.names, name)?;
        self.edits.push(taken)?;
        self.names = names;
        Ok(true)
    }

    /// The number of the scratch file.
    pub fn scratch(&self) -> Option<usize>
        ensures { result ≡ (directory_of self.now).scratch }
    {
        self.scratch
    }

    /// How many bytes the file with this number has.
    pub fn length(&self, number: usize) -> Option<usize>
        ensures { result ≡ option_map (λ file. length file.bytes) (slice_get (directory_of self.now).files number) }
    {
        match self.files.get(number)? {
            Stored::Open(bytes) => Some(bytes.len()),
            Stored::Synced(bytes) => Some(bytes.len()),
        }
    }

    /// How many bytes the file with this number has, if it is not synced.
    pub fn open_length(&self, number: usize) -> Option<usize>
        ensures { result ≡ open_length (slice_get (directory_of self.now).files number) }
    {
        match self.files.get(number)? {
            Stored::Open(bytes) => Some(bytes.len()),
            Stored::Synced(_) => None,
        }
    }

    /// The file that stands under a name, if any.
    ///
    /// # Errors
    /// Want of memory for a copy of its bytes, if they are not synced.
    pub fn open(&self, alloc: Global, name: &[u8]) -> Result<Option<MemFile>, AllocError>
        ensures { IfOk result (λ found. found ≡ content (directory_of self.now) name.now) }
    {
        let Some(number) = self.number(name) else {
            return Ok(None);
        };
        match self.files.get(number) {
            Some(Stored::Open(bytes)) => Ok(Some(MemFile::new(bytes.to_vec(alloc)?))),
            Some(Stored::Synced(bytes)) => Ok(Some(MemFile::shared(Arc::try_clone(bytes)?))),
            None => Ok(None),
        }
    }

    /// Puts bytes at the end of the scratch file.
    ///
    /// # Errors
    /// Want of memory. Nothing has changed.
    pub fn append(&mut self, number: usize, piece: &[u8]) -> Result<(), AllocError>
        requires { self.old.scratch ≡ Some number }
        ensures ok { OnOk result (directory_of self.new ≡ after (appends piece.now) (directory_of self.old)) }
        ensures err { OnErr result (directory_of self.new ≡ directory_of self.old) }
    {
        if let Stored::Open(bytes) = &mut self.files[number] {
            bytes.extend_from_slice(piece)?;
        }
        Ok(())
    }

    /// Overwrites bytes of the scratch file from a position on.
    pub fn patch(&mut self, number: usize, position: usize, bytes: &[u8])
        requires scratch { self.old.scratch ≡ Some number }
        requires inside { IsInside position bytes.now (scratch_of (directory_of self.old)) }
        ensures { directory_of self.new ≡ after (patches position bytes.now) (directory_of self.old) }
    {
        if let Stored::Open(old) = &mut self.files[number] {
            old[position..position + bytes.len()].copy_from_slice(bytes);
        }
    }

    /// Syncs the scratch file, which stays the scratch file.
    ///
    /// # Errors
    /// Want of memory. Nothing has changed.
    pub fn last(&mut self, alloc: Global, number: usize) -> Result<(), AllocError>
        requires { self.old.scratch ≡ Some number }
        ensures ok { OnOk result (directory_of self.new
            ≡ with_scratch lasting (directory_of self.old).scratch (directory_of self.old)) }
        ensures err { OnErr result (directory_of self.new ≡ directory_of self.old) }
    {
        let file = &mut self.files[number];
        close(alloc, file)?;
        Ok(())
    }

    /// Lets the scratch file go: there is none afterwards.
    pub fn leave(&mut self)
        ensures { directory_of self.new ≡ closed (directory_of self.old) }
    {
        self.scratch = None;
    }

    /// Makes the scratch file lasting, and closes it.
    ///
    /// # Errors
    /// Want of memory. Nothing has changed.
    pub fn sync(&mut self, alloc: Global, number: usize) -> Result<(), AllocError>
        requires { self.old.scratch ≡ Some number }
        ensures ok { OnOk result (directory_of self.new ≡ after syncs (directory_of self.old)) }
        ensures err { OnErr result (directory_of self.new ≡ directory_of self.old) }
    {
        self.last(alloc, number)?;
        self.leave();
        Ok(())
    }

    /// Makes all changes of names lasting.
    pub fn settle(&mut self)
        ensures { directory_of self.new ≡ after settles (directory_of self.old) }
    {
        self.settled = self.edits.len();
    }

    /// Moves a name that stands for the file with this number onto another, unless that stands for it too.
    ///
    /// # Errors
    /// Want of memory. Nothing has changed.
    pub fn rename(
        &mut self,
        alloc: Global,
        from: &[u8],
        to: &[u8],
        number: usize,
    ) -> Result<(), AllocError>
        requires { number_of (directory_of self.old) from.now ≡ Some number }
        ensures ok { OnOk result (directory_of self.new ≡ after (renames from.now to.now) (directory_of self.old)) }
        ensures err { OnErr result (directory_of self.new ≡ directory_of self.old) }
    {
        if self.number(to) == Some(number) {
            return Ok(());
        }
        let names = with_name(alloc, &self.names, from, to, number)?;
        let edit = NameEdit::Moved(from.to_vec(alloc)?, to.to_vec(alloc)?, number);
        self.edits.push(edit)?;
        self.names = names;
        Ok(())
    }
}
