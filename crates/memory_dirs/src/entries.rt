//! The names of a directory in memory.
ghost use Rattle.std.specs.Prelude.{◌≡◌, ◌||◌, not, map, IfOk};
ghost use Rattle.std.specs.FinMap.{get, insert, remove};
ghost use Rattle.dir_calls.specs.NameTable.{same_name, after_change, after_changes};
ghost use Rattle.dir_calls.specs.Pairs.{others as other_pairs};
ghost use Rattle.memory_dirs.specs.Entries.{pair_of, names_in, change_of};

use std::alloc::{AllocError, Global};

/// A name, and the number of the file that it stands for.
#[derive(Drop)]
pub struct Entry {
    pub name: Vec<u8>,
    pub number: usize,
}

/// A change of names.
#[derive(Drop)]
pub enum NameEdit {
    Taken(Vec<u8>),
    Put(Vec<u8>, usize),
    Moved(Vec<u8>, Vec<u8>, usize),
}

/// The number at a name.
pub fn number_at(names: &[Entry], name: &[u8]) -> Option<usize>
    ensures { result ≡ get (names_in names.now) name.now }
{
    for entry in names {
        if has_name(entry, name) {
            return Some(entry.number);
        }
    }
    None
}

// Whether it has neither of these names.
fn is_other(entry: &Entry, from: &[u8], to: &[u8]) -> bool
    ensures { result ≡ not (same_name from.now entry.now.name.items || same_name to.now entry.now.name.items) }
{
    if has_name(entry, from) {
        return false;
    }
    !has_name(entry, to)
}

fn has_name(entry: &Entry, name: &[u8]) -> bool
    ensures { result ≡ same_name name.now entry.now.name.items }
{
    name == entry.name.as_slice()
}

// The entries with other names than these two.
fn others(alloc: Global, names: &[Entry], from: &[u8], to: &[u8]) -> Result<Vec<Entry>, AllocError>
    ensures { IfOk result (λ kept. map pair_of kept.items ≡ other_pairs from.now to.now (map pair_of names.now)) }
{
    let mut kept = Vec::new(alloc);
    for entry in names {
        if is_other(entry, from, to) {
            kept.push(Entry {
                name: entry.name.to_vec(alloc)?,
                number: entry.number,
            })?;
        }
    }
    Ok(kept)
}

/// The names without one.
pub fn without_name(alloc: Global, names: &[Entry], name: &[u8]) -> Result<Vec<Entry>, AllocError>
    ensures { IfOk result (λ left. names_in left.items ≡ remove (names_in names.now) name.now) }
{
    others(alloc, names, name, name)
}

/// The names without one, and with one that stands for this number.
pub fn with_name(
    alloc: Global,
    names: &[Entry],
    from: &[u8],
    to: &[u8],
    number: usize,
) -> Result<Vec<Entry>, AllocError>
    ensures { IfOk result (λ moved.
        names_in moved.items ≡ insert (remove (names_in names.now) from.now) to.now number) }
{
    let mut kept = others(alloc, names, from, to)?;
    kept.push(Entry {
        name: to.to_vec(alloc)?,
        number,
    })?;
    Ok(kept)
}

/// The names after a change.
pub fn after_edit(alloc: Global, names: &[Entry], edit: &NameEdit) -> Result<Vec<Entry>, AllocError>
    ensures { IfOk result (λ left. names_in left.items ≡ after_change (names_in names.now) (change_of edit.now)) }
{
    match edit {
        NameEdit::Taken(name) => without_name(alloc, names, name),
        NameEdit::Put(name, number) => with_name(alloc, names, name, name, *number),
        NameEdit::Moved(from, to, number) => with_name(alloc, names, from, to, *number),
    }
}

/// The same names.
pub fn copied_names(alloc: Global, names: &[Entry]) -> Result<Vec<Entry>, AllocError>
    ensures { IfOk result (λ copy. map pair_of copy.items ≡ map pair_of names.now) }
{
    let mut copy = Vec::new(alloc);
    for entry in names {
        copy.push(Entry {
            name: entry.name.to_vec(alloc)?,
            number: entry.number,
        })?;
    }
    Ok(copy)
}

/// The names after these changes, in order.
pub fn after_edits(
    alloc: Global,
    names: &[Entry],
    edits: &[NameEdit],
) -> Result<Vec<Entry>, AllocError>
    ensures { IfOk result (λ left.
        names_in left.items ≡ after_changes (names_in names.now) (map change_of edits.now)) }
{
    let mut left = copied_names(alloc, names)?;
    for edit in edits {
        left = after_edit(alloc, &left, edit)?;
    }
    Ok(left)
}
