//! The files of a directory in memory.
ghost use Rattle.std.specs.Prelude.{◌≡◌, OnOk, OnErr};
ghost use Rattle.dir_calls.specs.Calls.{lasting};
ghost use Rattle.memory_dirs.specs.Stored.{file_of};

use std::alloc::{AllocError, Global};
use std::mem::replace;
use std::sync::Arc;

/// A file. Once synced it is never written again, so its bytes are shared.
#[derive(Drop)]
pub enum Stored {
    Open(Vec<u8>),
    Synced(Arc<Vec<u8>>),
}

/// Makes a file lasting.
pub fn close(alloc: Global, file: &mut Stored) -> Result<(), AllocError>
    ensures ok { OnOk result (file_of file.new ≡ lasting (file_of file.old)) }
    ensures err { OnErr result (file_of file.new ≡ file_of file.old) }
{
    let Stored::Open(bytes) = file else {
        return Ok(());
    };
    let bytes = replace(bytes, Vec::new(alloc));
    match Arc::new(alloc, bytes) {
        Ok(shared) => {
            *file = Stored::Synced(shared);
            Ok(())
        }
        Err(failed) => {
            *file = Stored::Open(failed.value);
            Err(AllocError)
        }
    }
}
