//! Opened files of a disk.
ghost use Rattle.std.specs.Prelude.{◌≡◌, length, IsTrue};

use crate::disk::DiskFile;
use dir_calls::{DeviceFault, RulesFile};

/// An opened file of a disk. Dropping it closes it. It is honest if its disk's files are.
#[derive(Drop)]
pub struct OsFile<F: DiskFile + Drop> {
    file: F,
    len: u64,
    ghost length: { IsTrue F.honest → len ≡ length (F.bytes file) },
}

impl<F: DiskFile + Drop> OsFile<F> {
    ghost use Rattle.dir_disk.specs.OsFile.{os_bytes};

    /// An open file that has this many bytes.
    pub(crate) fn new(file: F, len: u64) -> OsFile<F>
        requires { IsTrue F.honest → len ≡ length (F.bytes file) }
        ensures { os_bytes F.bytes result ≡ F.bytes file }
    {
        OsFile { file, len }
    }
}

impl<F: DiskFile + Drop> RulesFile for OsFile<F> {
    ghost use Rattle.std.specs.Prelude.{false};

    ghost bytes = { λ opened. F.bytes opened.file };

    ghost honest = { F.honest };

    ghost sound = { false };

    ghost sound_is_honest = { λ sound. absurd (cc) };

    fn len(&self) -> u64 {
        self.len
    }

    fn read_at(&self, position: u64, buf: &mut [u8]) -> Result<usize, DeviceFault> {
        match self.file.read_at(position, buf) {
            Ok(count) => Ok(count),
            Err(_) => Err(DeviceFault),
        }
    }
}
