//! What a stop leaves.

/// A choice of what a stop leaves: of files that are not synced, and of the pending changes of names.
#[derive(Clone, Copy)]
pub enum Choice {
    /// Files keep their bytes, and all changes are taken.
    Kept,
    /// Files are empty, and no change is taken.
    Empty,
    /// Each byte of the files is 255, and all changes but the last are taken.
    Junk,
}
