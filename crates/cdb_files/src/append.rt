//! Numbers and records at the end of a list of bytes.
ghost use Rattle.std.specs.Prelude.{◌≡◌, ◌+◌, ◌^◌, ◌<◌, ◌≤◌, ◌++◌, flat_map, length, vec_capacity, vec_len, OnErr, OnOk};
ghost use Rattle.cdb_files.specs.Format.{number, record_bytes, two_numbers};

use byteorder::{ByteOrder, LittleEndian};
use std::alloc::AllocError;

/// Appends a number: 32 bits, the lowest byte first.
pub(crate) fn append_number(out: &mut Vec<u8>, value: u32) -> Result<(), AllocError>
    ensures appended { OnOk result (out.new.items ≡ out.old.items ++ number value) }
    ensures capacity { vec_capacity out.old ≤ vec_capacity out.new }
    ensures full { OnErr result (vec_capacity out.old < vec_len out.old + 4) }
{
    let mut bytes = [0u8; 4];
    LittleEndian::write_u32(&mut bytes, value);
    out.extend_from_slice(&bytes)
}

/// Appends two numbers for each pair: a pointer, or a slot.
pub(crate) fn append_pairs(out: &mut Vec<u8>, pairs: &[(u32, u32)]) -> Result<(), AllocError>
    ensures { OnOk result (out.new.items ≡ out.old.items ++ flat_map two_numbers pairs.now) }
{
    for pair in pairs {
        append_number(out, pair.0)?;
        append_number(out, pair.1)?;
    }
    Ok(())
}

/// Appends a record: the lengths of its key and of its value, the key, and the value.
///
/// # Errors
/// There was no memory. Nothing changed.
pub fn append_record(out: &mut Vec<u8>, key: &[u8], value: &[u8]) -> Result<(), AllocError>
    requires key_fits { length key.now < 2 ^ 32 }
    requires value_fits { length value.now < 2 ^ 32 }
    ensures appended { OnOk result (out.new.items ≡ out.old.items ++ record_bytes key.now value.now) }
    ensures unchanged { OnErr result (out.new.items ≡ out.old.items) }
{
    out.reserve(8 + key.len() + value.len())?;
    append_number(out, key.len() as u32)?;
    append_number(out, value.len() as u32)?;
    out.extend_from_slice(key)?;
    out.extend_from_slice(value)
}
