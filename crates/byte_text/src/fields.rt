//! Fields of a line: addresses, and texts that anybody may choose, which are cut and marked.
ghost use Rattle.std.specs.Prelude.{◌≡◌};
ghost use Rattle.std.specs.Net.Text.{ipv4_text};
ghost use Rattle.byte_text.specs.Fields.{field_text, mark};
ghost use Rattle.byte_text.specs.Outcomes.{AppendsPart};

use crate::append::{push_number, push_text};
use std::alloc::AllocError;

/// The greatest number of bytes that a field prints.
const FIELD: usize = 100;

// A byte as a field prints it: `?` stands for one that would be misread there.
fn mark(byte: u8) -> u8
    ensures { result ≡ mark byte }
{
    match byte {
        b'%' | b':' => b'?',
        33..=126 => byte,
        _ => b'?',
    }
}

/// Appends an IPv4 address, as `127.0.0.1`.
///
/// # Errors
/// There was no memory; some of it may have been added.
pub fn push_address(out: &mut Vec<u8>, ip: [u8; 4]) -> Result<(), AllocError>
    ensures { AppendsPart (ipv4_text ip) out.old.items out.new.items result }
{
    let [a, b, c, d] = ip;
    push_number(out, u64::from(a))?;
    push_text(out, ".")?;
    push_number(out, u64::from(b))?;
    push_text(out, ".")?;
    push_number(out, u64::from(c))?;
    push_text(out, ".")?;
    push_number(out, u64::from(d))
}

/// Appends a field: its first hundred bytes, marked, and `...` if it has a hundred or more. So a text that anybody may
/// choose can't be misread in a line.
///
/// # Errors
/// There was no memory; some of the field may have been added.
pub fn push_marked(out: &mut Vec<u8>, bytes: &[u8]) -> Result<(), AllocError>
    ensures { AppendsPart (field_text bytes.now) out.old.items out.new.items result }
{
    let printed = &bytes[..bytes.len().min(FIELD)];
    for byte in printed {
        out.push(mark(*byte))?;
    }
    if bytes.len() < FIELD {
        return Ok(());
    }
    push_text(out, "...")
}
