//! A disk in memory.
ghost use Rattle.std.specs.Prelude.{◌≡◌, ◌≤◌, ◌<◌, ◌+◌, ◌^◌, Some, OnErr, OnOk, length, map, slice_get, true};
ghost use Rattle.std.specs.IoError.{error_kind};
ghost use Rattle.memory_dirs.specs.Folder.{directory_of, empty_directory};
ghost use Rattle.memory_dirs.specs.Stored.{open_length};
ghost use Rattle.dir_disk.specs.DiskSteps.{Spoils, after_write};
ghost use Rattle.memory_dirs.specs.Past.{left_now, past_call};
ghost use Rattle.test_site.specs.MemDisk.{handle_bytes, mem_disk_left_since, mem_disk_moment, mem_disk_state};
ghost use Rattle.std.proofs.Common.{inl, refl};

use dir_calls::{Name, RulesFile};
use dir_disk::{Disk, DiskFile, Look};
use http_server::Log;
use memory_dirs::{Folder, MemFile};
use std::alloc::{AllocError, Global};
use std::io::{self, ErrorKind};

/// A disk in memory, for tests. Each call does what its clauses say, and succeeds if one of a real disk would, unless
/// there is no memory. A synced file is written no more. So it is a witness that a disk can keep all clauses.
#[derive(Drop)]
pub struct MemDisk {
    alloc: Global,
    folder: Folder,
    // what stood there before each call that did something; no call passes through another state
    past: Log<Folder, Option<Name>>,
}

/// An opened file of a disk in memory.
#[derive(Drop)]
pub struct MemHandle {
    number: usize,
    // its bytes, if it was opened to be read
    content: Option<MemFile>,
}

// The fault of a call for which there is no such file or name.
fn not_opened() -> io::Error
    ensures { error_kind result ≡ ErrorKind.Other }
{
    io::Error::from(ErrorKind::Other)
}

impl MemDisk {
    /// An empty disk. It takes no memory.
    pub fn new(alloc: Global) -> MemDisk
        ensures { mem_disk_state result ≡ empty_directory }
    {
        MemDisk {
            alloc,
            folder: Folder::new(alloc),
            past: Log::new(),
        }
    }
}

// Want of memory, as an error of the system.
fn no_memory(_: AllocError) -> io::Error
    ensures { error_kind result ≡ ErrorKind.OutOfMemory }
{
    io::Error::from(ErrorKind::OutOfMemory)
}

// Writes bytes into the scratch file from a position on, over those that stand there, and the rest at its end.
fn write(
    folder: &mut Folder,
    number: usize,
    size: usize,
    position: u64,
    bytes: &[u8],
) -> io::Result<()>
    requires last { (directory_of folder.old).scratch ≡ Some number }
    requires open { open_length (slice_get (directory_of folder.old).files number) ≡ Some size }
    requires inside { position ≤ size }
    ensures fits { OnOk result (position + length bytes.now < 2 ^ 63) }
    ensures done { OnOk result
        (directory_of folder.new ≡ after_write position bytes.now (directory_of folder.old)) }
    ensures failed { OnErr result (Spoils (directory_of folder.old) (directory_of folder.new)) }
{
    if position.saturating_add(bytes.len() as u64) >= 1 << 63 {
        return Err(not_opened());
    }
    let position = position as usize;
    let room = size - position;
    if bytes.len() <= room {
        folder.patch(number, position, bytes);
        return Ok(());
    }
    let (over, rest) = bytes.split_at(room);
    folder.patch(number, position, over);
    folder.append(number, rest).map_err(no_memory)?;
    Ok(())
}

impl DiskFile for MemHandle {
    ghost bytes = { handle_bytes };

    ghost honest = { true };

    fn read_at(&self, position: u64, buf: &mut [u8]) -> io::Result<usize> {
        let Some(content) = &self.content else {
            return Err(not_opened());
        };
        match content.read_at(position, buf) {
            Ok(count) => Ok(count),
            Err(_) => Err(not_opened()),
        }
    }
}

impl Disk for MemDisk {
    type File = MemHandle;

    ghost state = { mem_disk_state };

    ghost honest = { true };

    ghost moment = { mem_disk_moment };

    ghost left_since = { mem_disk_left_since };

    ghost number = { λ handle. handle.number };

    ghost regular = { λ _. true };

    ghost identity = { λ number. (0, number) };

    ghost counts_now = { λ disk earlier image honest le now. inl now };

    ghost only_now = { λ disk image honest left.
        left_now (map past_call disk.past.items) (directory_of disk.folder) image left };

    ghost honest_files = { refl };

    fn sync_folder(&mut self) -> io::Result<()> {
        let past = self.past.and(&self.folder, &None);
        self.folder.settle();
        self.past = past;
        Ok(())
    }

    fn unlink(&mut self, name: &Name) -> io::Result<()> {
        let past = self.past.and(&self.folder, &None);
        self.folder
            .take(self.alloc, name.as_str().as_bytes())
            .map_err(no_memory)?;
        self.past = past;
        Ok(())
    }

    fn create(&mut self, name: &Name, mode: u32) -> io::Result<MemHandle> {
        if self.folder.number(name.as_str().as_bytes()).is_some() {
            return Err(io::Error::from(ErrorKind::AlreadyExists));
        }
        let past = self.past.and(&self.folder, &None);
        self.folder
            .make(self.alloc, name.as_str().as_bytes())
            .map_err(no_memory)?;
        self.past = past;
        match self.folder.scratch() {
            Some(number) => Ok(MemHandle {
                number,
                content: None,
            }),
            None => unreachable!("it was made"),
        }
    }

    fn write_all_at(&mut self, file: &MemHandle, position: u64, bytes: &[u8]) -> io::Result<()> {
        let Some(size) = self.folder.open_length(file.number) else {
            return Err(not_opened());
        };
        let past = self.past.and(&self.folder, &None);
        let outcome = write(&mut self.folder, file.number, size, position, bytes);
        self.past = past;
        outcome
    }

    fn sync(&mut self, file: &MemHandle) -> io::Result<()> {
        let past = self.past.and(&self.folder, &None);
        self.folder
            .last(self.alloc, file.number)
            .map_err(no_memory)?;
        self.past = past;
        Ok(())
    }

    fn close(&mut self, file: &MemHandle) {
        let past = self.past.and(&self.folder, &None);
        self.folder.leave();
        self.past = past;
    }

    fn rename(&mut self, file: &MemHandle, from: &Name, to: &Name) -> io::Result<()> {
        let Some(number) = self.folder.number(from.as_str().as_bytes()) else {
            return Err(io::Error::from(ErrorKind::NotFound));
        };
        if number != file.number {
            return Err(not_opened());
        }
        let past = self.past.and(&self.folder, &None);
        self.folder
            .rename(
                self.alloc,
                from.as_str().as_bytes(),
                to.as_str().as_bytes(),
                number,
            )
            .map_err(no_memory)?;
        self.past = past;
        Ok(())
    }

    fn open(&mut self, name: &Name) -> io::Result<MemHandle> {
        let Some(number) = self.folder.number(name.as_str().as_bytes()) else {
            return Err(io::Error::from(ErrorKind::NotFound));
        };
        let content = self
            .folder
            .open(self.alloc, name.as_str().as_bytes())
            .map_err(no_memory)?;
        if content.is_none() {
            return Err(not_opened());
        }
        Ok(MemHandle { number, content })
    }

    fn look(&self, file: &MemHandle) -> io::Result<Look> {
        let Some(size) = self.folder.length(file.number) else {
            return Err(not_opened());
        };
        Ok(Look {
            len: size as u64,
            device: 0,
            inode: file.number as u64,
        })
    }
}
