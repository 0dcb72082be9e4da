//! The addresses of a rule line, one after another.
ghost use Rattle.std.specs.Prelude.{◌≡◌, ◌<◌, ◌+◌, ◌++◌, [], length, get_or, decimal, OnOk};
ghost use Rattle.rule_lines.specs.ReadAddresses.{addresses_read};
ghost use Rattle.rule_lookup.specs.Spread.{folded};

use crate::client::first_equals;
use byte_text::push_number;
use rule_lines::spread::{Numbers, ReadAddress};
use std::alloc::AllocError;

/// Writes the address at a position, in place of the bytes of `out`. After an `Err` any bytes stand there.
pub fn write_address(
    addresses: &ReadAddress<'_>,
    position: usize,
    out: &mut Vec<u8>,
) -> Result<(), AllocError>
    requires { position < length (addresses_read addresses.now) }
    ensures { OnOk result (out.new.items ≡ get_or (addresses_read addresses.now) position []) }
{
    out.clear();
    match addresses {
        ReadAddress::One(address) => push_folded(address, out),
        ReadAddress::Range {
            front,
            numbers,
            back,
        } => {
            let number = number_at(*numbers, position);
            push_numbered(front, number, back, out)
        }
    }
}

/// The number at a position of a range, from 0.
fn number_at(numbers: Numbers, position: usize) -> u64
    requires { position < numbers.count }
    ensures { result ≡ numbers.first + position }
{
    u64::from(numbers.first) + position as u64
}

/// Adds an address of a range: what stands before the number, the number, and what stands after it.
fn push_numbered(
    front: &[u8],
    number: u64,
    back: &[u8],
    out: &mut Vec<u8>,
) -> Result<(), AllocError>
    ensures { OnOk result (out.new.items ≡ out.old.items ++ (front.now ++ decimal number ++ back.now)) }
{
    out.extend_from_slice(front)?;
    push_number(out, number)?;
    out.extend_from_slice(back)
}

/// Adds an address with its letters from the first `=` on in lower case.
fn push_folded(address: &[u8], out: &mut Vec<u8>) -> Result<(), AllocError>
    ensures { OnOk result (out.new.items ≡ out.old.items ++ folded address.now) }
{
    let start = out.len() + first_equals(address);
    out.extend_from_slice(address)?;
    out[start..].make_ascii_lowercase();
    Ok(())
}
