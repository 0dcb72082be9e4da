//! The lines that record pieces of a stream, as `recordio` prints them.
ghost use Rattle.std.specs.Prelude.{◌≡◌, ◌++◌, ◌<◌, ◌≤◌, ◌+◌, length, OnOk, OnErr};
ghost use Rattle.byte_streams.specs.Records.{before_part, end_text, longest_piece, record_text};
ghost use Rattle.byte_streams.specs.Wrappers.{Extends};

use byte_text::take_back;
use itoa::Buffer;
use memchr::memchr;
use std::alloc::AllocError;

/// Which way a stream goes.
#[derive(Clone, Copy)]
pub enum Way {
    /// From the network to the program.
    Input,
    /// From the program to the network.
    Output,
}

/// How many bytes a pipe takes as a whole: no bytes of another process land among them.
pub const PIPE_BUF: usize = 4096;

/// The length of the longest piece of a record with this number, so that its lines fit into `PIPE_BUF` even if each
/// byte is a line feed.
///
/// It is 256, and 160 if the number has more than ten digits. It takes no memory.
pub fn longest_piece(number: u64) -> usize
    ensures longest { result ≡ longest_piece number }
    ensures some { 0 < result }
    ensures most { result ≤ 256 }
{
    if number < 10_000_000_000 { 256 } else { 160 }
}

/// Appends the lines that record a piece: one that ends with a blank for each line with a line feed, and one that ends
/// with a plus for the rest.
///
/// # Errors
/// There was no memory: nothing was added.
pub fn record(number: u64, way: Way, piece: &[u8], out: &mut Vec<u8>) -> Result<(), AllocError>
    ensures ok { OnOk result (out.new.items ≡ out.old.items ++ record_text number way piece.now) }
    ensures fits { length piece.now ≤ longest_piece number → length out.new.items ≤ length out.old.items + PIPE_BUF }
    ensures err { OnErr result (out.new.items ≡ out.old.items) }
{
    let before = out.len();
    let done = record_parts(number, way, piece, out);
    take_back(out, before, done)
}

/// Appends the line that records the end of a stream.
///
/// # Errors
/// There was no memory: nothing was added.
pub fn record_end(number: u64, way: Way, out: &mut Vec<u8>) -> Result<(), AllocError>
    ensures ok { OnOk result (out.new.items ≡ out.old.items ++ end_text number way) }
    ensures fits { length out.new.items ≤ length out.old.items + PIPE_BUF }
    ensures err { OnErr result (out.new.items ≡ out.old.items) }
{
    let before = out.len();
    let done = add_line(number, way, b"", b"[EOF]\n", out);
    take_back(out, before, done)
}

/// Appends the lines that record a piece. After an `Err` some of them may have been appended.
fn record_parts(number: u64, way: Way, piece: &[u8], out: &mut Vec<u8>) -> Result<(), AllocError>
    ensures ok { OnOk result (out.new.items ≡ out.old.items ++ record_text number way piece.now) }
    ensures extends { Extends out.old.items out.new.items }
{
    let mut rest = piece;
    while let Some(end) = memchr(b'\n', rest) {
        add_line(number, way, &rest[..end], b" \n", out)?;
        rest = &rest[end + 1..];
    }
    if rest.is_empty() {
        return Ok(());
    }
    add_line(number, way, rest, b"+\n", out)
}

/// Appends a line: its number and way, a part of the piece, and what ends the line. After an `Err` some of it may have
/// been appended.
fn add_line(
    number: u64,
    way: Way,
    part: &[u8],
    end: &[u8],
    out: &mut Vec<u8>,
) -> Result<(), AllocError>
    ensures ok { OnOk result (out.new.items ≡ out.old.items ++ (before_part number way ++ part.now ++ end.now)) }
    ensures extends { Extends out.old.items out.new.items }
{
    out.extend_from_slice(Buffer::new().format(number).as_bytes())?;
    out.extend_from_slice(match way {
        Way::Input => b" < ",
        Way::Output => b" > ",
    })?;
    out.extend_from_slice(part)?;
    out.extend_from_slice(end)
}
