//! The pieces of a file: the header, a piece for each record, and a piece for each table.
ghost use Rattle.std.specs.Prelude.{◌≡◌, ◌<◌, length, IfOk};
ghost use Rattle.cdb_files.specs.Image.{header_bytes, table_bytes};

use crate::append::append_pairs;
use crate::slot::filled_slots;
use std::alloc::{AllocError, Global};

/// The slots of one table, by the hashes and positions of its records in order. Without records there are none.
///
/// # Errors
/// There was no memory.
pub fn table_piece(alloc: Global, entries: &[(u32, u32)]) -> Result<Vec<u8>, AllocError>
    ensures { IfOk result (λ piece. piece.items ≡ table_bytes entries.now) }
{
    let slots = filled_slots(alloc, entries)?;
    let mut piece = Vec::with_capacity(alloc, 8 * slots.len())?;
    append_pairs(&mut piece, &slots)?;
    Ok(piece)
}

/// The 2,048 bytes of 256 pointers: for each a position and a number of slots.
///
/// # Errors
/// There was no memory.
pub fn header(alloc: Global, pointers: &[(u32, u32)]) -> Result<Vec<u8>, AllocError>
    requires all { length pointers.now ≡ 256 }
    ensures { IfOk result (λ piece. piece.items ≡ header_bytes pointers.now) }
{
    let mut piece = Vec::with_capacity(alloc, 8 * pointers.len())?;
    append_pairs(&mut piece, pointers)?;
    Ok(piece)
}
