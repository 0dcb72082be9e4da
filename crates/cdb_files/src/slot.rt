//! The slots of a table.
ghost use Rattle.std.specs.Prelude.{◌≡◌, ◌<◌, IfOk};
ghost use Rattle.std.specs.List.{count_by, position_or_len};
ghost use Rattle.cdb_files.specs.Image.{slots_of, with_entry};
ghost use Rattle.cdb_files.specs.Slots.{is_empty};

use std::alloc::{AllocError, Global};

/// The position of the first empty slot, or the number of slots if none is empty.
fn empty_slot(slots: &[(u32, u32)]) -> usize
    ensures { result ≡ position_or_len is_empty slots.now }
{
    for (position, slot) in slots.iter().enumerate() {
        if slot.1 == 0 {
            return position;
        }
    }
    slots.len()
}

/// Puts an entry into the first empty slot of its probe: upward from the slot that its hash names, and then from the
/// first slot.
fn fill(slots: &mut [(u32, u32)], entry: (u32, u32))
    requires { 0 < count_by is_empty slots.old }
    ensures { slots.new ≡ with_entry slots.old entry }
{
    let start = (entry.0 / 256) as usize % slots.len();
    let upward = start + empty_slot(&slots[start..]);
    let free = if upward < slots.len() {
        upward
    } else {
        empty_slot(&slots[..start])
    };
    slots[free] = entry;
}

/// The slots of a table: twice as many as entries, each entry in the first empty slot of its probe.
pub(crate) fn filled_slots(
    alloc: Global,
    entries: &[(u32, u32)],
) -> Result<Vec<(u32, u32)>, AllocError>
    ensures { IfOk result (λ slots. slots.items ≡ slots_of entries.now) }
{
    let mut slots = vec![in alloc; (0u32, 0u32); 2 * entries.len()]?;
    for entry in entries {
        fill(&mut slots, *entry);
    }
    Ok(slots)
}
