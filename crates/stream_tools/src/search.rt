//! Where programs are looked for.
ghost use Rattle.std.specs.Prelude.{◌≡◌, OnOk};
ghost use Rattle.stream_tools.specs.Searches.{path_in};

use crate::started::{Entry, told};
use std::alloc::{AllocError, Global};
use std::rt::Env;

/// What is searched where this process was given no `PATH`.
const DEFAULT_PATH: &[u8] = b"/bin:/usr/bin";

/// The folders in which a program is looked for whose name has no slash, in their order, each as the bytes that it is,
/// with a colon between each two. An empty one is the working directory.
#[derive(Drop)]
pub struct SearchPath {
    pub(crate) path: Vec<u8>,
}

impl SearchPath {
    /// The folders of this process's own `PATH`; `/bin` and `/usr/bin` where it was given none.
    ///
    /// # Errors
    /// There was no memory.
    pub fn own<E: Env>(alloc: Global, env: &E) -> Result<SearchPath, AllocError> {
        let path = match told(alloc, env, Entry::Named("PATH"))? {
            Some(path) => path,
            None => DEFAULT_PATH.to_vec(alloc)?,
        };
        Ok(SearchPath { path })
    }
}

/// Makes a path that of a name in a folder, which the working directory is where it is empty.
///
/// # Errors
/// There was no memory: what the path is now is not said.
pub fn put_path(path: &mut Vec<u8>, folder: &[u8], name: &[u8]) -> Result<(), AllocError>
    ensures { OnOk result (path.new.items ≡ path_in folder.now name.now) }
{
    path.clear();
    if !folder.is_empty() {
        path.extend_from_slice(folder)?;
        path.extend_from_slice(b"/")?;
    }
    path.extend_from_slice(name)
}
