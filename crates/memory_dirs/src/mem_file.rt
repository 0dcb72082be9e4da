//! Files in memory.
ghost use Rattle.std.specs.Prelude.{◌≡◌, true};
ghost use Rattle.std.specs.Arc.{arc_value};

use crate::held::Held;
use dir_calls::{DeviceFault, RulesFile};
use std::marker::Model;
use std::sync::Arc;

/// A file in memory.
#[derive(Drop)]
pub struct MemFile {
    bytes: Held,
}

impl Model for MemFile {
    ghost use Rattle.std.specs.Prelude.{List, ℕ};
    ghost use Rattle.memory_dirs.specs.Held.{held_bytes};

    ghost Value = { List ℕ };

    ghost view = { λ f. held_bytes f.bytes };
}

impl MemFile {
    /// A file with these bytes. It takes no memory.
    pub fn new(bytes: Vec<u8>) -> MemFile
        ensures { result ≡ bytes.items }
    {
        MemFile {
            bytes: Held::Own(bytes),
        }
    }

    /// A file that shares these bytes.
    pub(crate) fn shared(bytes: Arc<Vec<u8>>) -> MemFile
        ensures { result ≡ (arc_value bytes).items }
    {
        MemFile {
            bytes: Held::Shared(bytes),
        }
    }
}

impl RulesFile for MemFile {
    ghost bytes = { λ f. f };

    ghost honest = { true };

    ghost sound = { true };

    ghost sound_is_honest = { λ sound. sound };

    fn len(&self) -> u64 {
        self.bytes.as_slice().len() as u64
    }

    fn read_at(&self, position: u64, buf: &mut [u8]) -> Result<usize, DeviceFault> {
        let Ok(position) = usize::try_from(position) else {
            return Ok(0);
        };
        let bytes = self.bytes.as_slice();
        let Some(rest) = bytes.get(position..) else {
            return Ok(0);
        };
        let count = rest.len().min(buf.len());
        buf[..count].copy_from_slice(&rest[..count]);
        Ok(count)
    }
}
