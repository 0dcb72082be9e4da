//! Copies of a directory in memory, as a stop leaves it.
ghost use Rattle.std.specs.Prelude.{◌≡◌, ◌≤◌, map, length, take, drop, IfOk};
ghost use Rattle.memory_dirs.specs.Entries.{change_of, names_in};
ghost use Rattle.memory_dirs.specs.Folder.{directory_of, settled_directory};
ghost use Rattle.memory_dirs.specs.Stored.{file_of};
ghost use Rattle.dir_calls.specs.Stop.{chosen_bytes, chosen_changes, stopped_file, stopped};

use crate::entries::{Entry, after_edits, copied_names};
use crate::folder::Folder;
use crate::stored::{Stored, close};
use dir_calls::Choice;
use std::alloc::{AllocError, Global};
use std::sync::Arc;

fn left_bytes(alloc: Global, bytes: &[u8], choice: Choice) -> Result<Vec<u8>, AllocError>
    ensures { IfOk result (λ left. left.items ≡ chosen_bytes choice bytes.now) }
{
    match choice {
        Choice::Kept => bytes.to_vec(alloc),
        Choice::Empty => Ok(Vec::new(alloc)),
        Choice::Junk => vec![in alloc; 255; bytes.len()],
    }
}

fn left_file(alloc: Global, file: &Stored, choice: Choice) -> Result<Stored, AllocError>
    ensures { IfOk result (λ left. file_of left ≡ stopped_file choice (file_of file.now)) }
{
    match file {
        Stored::Synced(bytes) => Ok(Stored::Synced(Arc::try_clone(bytes)?)),
        Stored::Open(bytes) => {
            let mut left = Stored::Open(left_bytes(alloc, bytes, choice)?);
            close(alloc, &mut left)?;
            Ok(left)
        }
    }
}

fn left_files(alloc: Global, files: &[Stored], choice: Choice) -> Result<Vec<Stored>, AllocError>
    ensures { IfOk result (λ left. map file_of left.items ≡ map (stopped_file choice) (map file_of files.now)) }
{
    let mut left = Vec::new(alloc);
    for file in files {
        left.push(left_file(alloc, file, choice)?)?;
    }
    Ok(left)
}

// How many of the changes are taken.
fn taken(folder: &Folder, choice: Choice) -> usize
    ensures fits { result ≤ length folder.now.edits.items }
    ensures not_settled { folder.now.settled ≤ result }
    ensures chosen { drop folder.now.settled (take result (map change_of folder.now.edits.items))
        ≡ chosen_changes choice (directory_of folder.now).names.pending }
{
    let count = folder.edits.len();
    match choice {
        Choice::Kept => count,
        Choice::Empty => folder.settled,
        Choice::Junk => count.saturating_sub(1).max(folder.settled),
    }
}

// A directory with these names, all of them settled, and no scratch file.
fn settled_folder(
    alloc: Global,
    names: Vec<Entry>,
    files: Vec<Stored>,
) -> Result<Folder, AllocError>
    ensures { IfOk result (λ left. directory_of left ≡ settled_directory (names_in names.items) (map file_of files.items)) }
{
    Ok(Folder {
        origin: copied_names(alloc, &names)?,
        edits: Vec::new(alloc),
        settled: 0,
        names,
        files,
        scratch: None,
    })
}

/// The directory as a stop leaves it. Synced files share their bytes.
pub fn stopped_folder(alloc: Global, folder: &Folder, choice: Choice) -> Result<Folder, AllocError>
    ensures { IfOk result (λ left. directory_of left ≡ stopped choice (directory_of folder.now)) }
{
    let count = taken(folder, choice);
    let names = after_edits(alloc, &folder.origin, &folder.edits[..count])?;
    let files = left_files(alloc, &folder.files, choice)?;
    settled_folder(alloc, names, files)
}
