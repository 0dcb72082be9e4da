//! The path of a server's rules file: its name, and the folder in which it stands.
ghost use Rattle.std.specs.Prelude.{IfErr, IfOk, Some};
ghost use Rattle.dir_disk.specs.OsParts.{os_disk, system_folder};
ghost use Rattle.server_parts.specs.Asked.{FailsRules};
ghost use Rattle.server_parts.specs.RulesPaths.{IsFolderOfPath, IsNameIn};

use crate::fault::{ServerFailure, ServerFault};
use dir_calls::{Name, NameFault};
use dir_disk::{FolderFault, NoWait, OsDir, OsFile, SystemFile, find_folder};
use rules_tools::path::{folder_path, split_path};
use std::alloc::{AllocError, Global};
use std::fs::{File, Files};

/// A file of the system's rules.
pub type RulesOnDisk = OsFile<SystemFile>;

/// The name of the rules file at a path: the last part of the path. Its folder is looked at.
///
/// # Errors
/// `Device` if the folder can't be used, or the last part of the path is no name; `OutOfMemory`.
pub fn rules_name<R: Files>(alloc: Global, files: &R, path: &str) -> Result<Name, ServerFailure>
    ensures its { IfOk result (λ name. IsNameIn path.now (Some name)) }
    ensures refused { IfErr result (λ failure. FailsRules failure.fault) }
{
    let (folder, name) = split_path(path);
    check_folder(files, folder_path(folder))?;
    match Name::new(alloc, name.as_bytes()) {
        Ok(name) => Ok(name),
        Err(NameFault::OutOfMemory) => Err(ServerFailure::from(ServerFault::OutOfMemory)),
        // (a path that ends with a slash, or by one or two dots, leads to a folder)
        Err(NameFault::Empty | NameFault::Dots) => Err(ServerFailure {
            fault: ServerFault::Device,
            error: Some(libc::EISDIR),
        }),
        Err(NameFault::TooLong) => Err(ServerFailure {
            fault: ServerFault::Device,
            error: Some(libc::ENAMETOOLONG),
        }),
        Err(_) => Err(ServerFailure::from(ServerFault::Device)),
    }
}

// Checks that a folder stands at a path.
fn check_folder<R: Files>(files: &R, path: &str) -> Result<(), ServerFailure>
    ensures refused { IfErr result (λ failure. FailsRules failure.fault) }
{
    let Err(refused) = find_folder(files, path) else {
        return Ok(());
    };
    let fault = match refused.fault {
        FolderFault::OutOfMemory => ServerFault::OutOfMemory,
        FolderFault::NoFolder | FolderFault::Device => ServerFault::Device,
    };
    let error = refused.error;
    Err(ServerFailure { fault, error })
}

/// The folder of the rules file at a path, which is not opened yet: the system is not called.
///
/// # Errors
/// There was no memory.
pub fn rules_folder<'a, R: Files<File = File>>(
    alloc: Global,
    files: &'a R,
    path: &str,
) -> Result<OsDir<&'a R>, AllocError>
    ensures its { IfOk result (λ dir. IsFolderOfPath path.now (system_folder (os_disk dir))) }
{
    OsDir::at(alloc, files, NoWait, folder_path(split_path(path).0))
}
