//! Calls that append to bytes. After an `Err` a part of what was to be appended may stand at the end.
ghost use Rattle.std.specs.Prelude.{◌≡◌, List, ℕ, OnErr, OnOk, decimal, length, take};
ghost use Rattle.byte_text.specs.Outcomes.{AppendsLine, AppendsPart};

use itoa::Buffer;
use std::alloc::AllocError;

/// Appends a text.
///
/// # Errors
/// There was no memory; some of the text may have been added.
pub fn push_text(out: &mut Vec<u8>, text: &str) -> Result<(), AllocError>
    ensures { AppendsPart text.now out.old.items out.new.items result }
{
    out.extend_from_slice(text.as_bytes())
}

/// Appends a number, in decimal digits.
///
/// # Errors
/// There was no memory; some of the digits may have been added.
pub fn push_number(out: &mut Vec<u8>, number: u64) -> Result<(), AllocError>
    ensures { AppendsPart (decimal number) out.old.items out.new.items result }
{
    push_text(out, Buffer::new().format(number))
}

/// Takes back what was appended behind a length, if appending failed. `done` is what appending gave, and is given back.
pub fn take_back<T>(
    out: &mut Vec<u8>,
    whole: usize,
    done: Result<T, AllocError>,
) -> Result<T, AllocError>
    ensures done { result ≡ done }
    ensures ok { OnOk done (out.new.items ≡ out.old.items) }
    ensures err { OnErr done (out.new.items ≡ take whole out.old.items) }
{
    if done.is_err() {
        out.truncate(whole);
    }
    done
}

/// Takes back what was appended in parts behind a length, if a part failed: the whole is appended or not at all. `done`
/// is what the parts gave, and is given back.
pub fn whole_or_none(
    out: &mut Vec<u8>,
    whole: usize,
    done: Result<(), AllocError>,
) -> Result<(), AllocError>
    ensures { (old line : List ℕ) → length old ≡ whole → AppendsPart line old out.old.items done
        → AppendsLine line old out.new.items result }
{
    take_back(out, whole, done)
}
