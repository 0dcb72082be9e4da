//! Paths as a folder and the name of a file in it.
ghost use Rattle.std.specs.Prelude.{◌≡◌};
ghost use Rattle.rules_tools.specs.Paths.{IsSplit, folder_path};

/// The folder of a path and its last part: what stands before its last slash and after that. Without a slash the folder
/// is `.`; of `/rules` it is the empty text, which stands for the root folder.
pub fn split_path(path: &str) -> (&str, &str)
    ensures { IsSplit path.now result.0.now result.1.now }
{
    match path.rsplit_once('/') {
        Some((folder, name)) => (folder, name),
        None => (".", path),
    }
}

/// The path by which the system knows such a folder.
pub fn folder_path(folder: &str) -> &str
    ensures { result.now ≡ folder_path folder.now }
{
    if folder.is_empty() { "/" } else { folder }
}
