//! One read of a pump, and the writing of what the chain gives for it.
ghost use Rattle.std.specs.Prelude.{◌≡◌, ◌+◌, ◌-◌, ◌^◌, ◌<◌, false, length, List, ℕ, [], IfErr};
ghost use Rattle.std.specs.declared.option.Option.{Option};
ghost use Rattle.std.specs.Io.{ReadsAtMost};
ghost use Rattle.std.specs.Io.KnownBytes.{IsAtEnd, ReadConsumes};
ghost use Rattle.byte_streams.specs.Chains.{has_failed, wrappers_of};
ghost use Rattle.byte_streams.specs.Wrappers.{through};
ghost use Rattle.byte_streams.specs.declared.recording.Way.TheVariants.{Output};
ghost use Rattle.byte_streams.specs.Taps.{SeesAll, shown_to};
ghost use Rattle.byte_streams.specs.Pumps.{ends_of};
ghost use Rattle.byte_streams.specs.Pieces.{IsOfEnd, IsOfPiece, Passes, StaysOpen, ReadAndPassed, Wrote, ends_with, pieces_of, why_of};

use crate::pumping::Why;
use crate::tap::Tap;
use crate::{Chain, ChainFault, LineWrapper, Way};
use std::io;
use std::io::{ErrorKind, Read, Write};

/// The reads of a pump.
#[derive(Clone, Copy)]
pub struct Reads {
    /// How many it has made.
    pub made: u64,
    /// How many bytes the last one gave.
    pub last: usize,
}

/// Reads once and passes on what was read. At the end of the reader it ends the stream.
///
/// # Errors
/// The reason for which the pump ends.
pub fn pump_piece<R: Read, W: Write, S: LineWrapper, T: Tap>(
    reader: &mut R,
    writer: &mut W,
    chain: &mut Chain<S>,
    tap: &mut T,
    buffer: &mut [u8],
    out: &mut Vec<u8>,
    reads: &mut Reads,
) -> Result<(), Why>
    requires room { 0 < length buffer.old }
    requires few { reads.old.made < 2 ^ 64 - 1 }
    requires goes_on { has_failed chain.old ≡ false }
    ensures read_and_passed { ReadAndPassed (ends_of R.remaining W.contents S.rest reader.old writer.old chain.old)
        (ends_of R.remaining W.contents S.rest reader.new writer.new chain.new)
        (shown_to T.watches T.sees T.ends tap.old tap.new) 1 (why_of result) }
    ensures counted { reads.new.made ≡ reads.old.made + 1 }
    ensures reason { IfErr result IsOfPiece }
    ensures stays_open { StaysOpen (why_of result) (has_failed chain.old) (has_failed chain.new) }
    ensures wholes { through S.whole (wrappers_of chain.new) ≡ through S.whole (wrappers_of chain.old) }
    ensures same { T.watches tap.new ≡ T.watches tap.old }
{
    match read_once(reader, buffer, reads) {
        Ok(0) => Err(end(writer, chain, tap, out)),
        Ok(count) => pass(&buffer[..count], writer, chain, tap, out),
        Err(error) if error.kind() == ErrorKind::Interrupted => Ok(()),
        Err(_) => Err(Why::ReadFault),
    }
}

/// Reads once, and counts that. Nothing else reads.
fn read_once<R: Read>(reader: &mut R, buffer: &mut [u8], reads: &mut Reads) -> io::Result<usize>
    requires few { reads.old.made < 2 ^ 64 - 1 }
    ensures bound { ReadsAtMost result buffer.new }
    ensures bytes { ReadConsumes (R.remaining reader.old) (R.remaining reader.new) result buffer.new }
    ensures counted { reads.new.made ≡ reads.old.made + 1 }
{
    reads.made += 1;
    reads.last = 0;
    let count = reader.read(buffer)?;
    reads.last = count;
    Ok(count)
}

/// Passes a piece through the chain, and writes what the chain gives.
fn pass<W: Write, S: LineWrapper, T: Tap>(
    piece: &[u8],
    writer: &mut W,
    chain: &mut Chain<S>,
    tap: &mut T,
    out: &mut Vec<u8>,
) -> Result<(), Why>
    requires { has_failed chain.old ≡ false }
    ensures passed { (left : Option (List ℕ)) → Passes piece.now
        (ends_with left W.contents S.rest writer.old chain.old)
        (ends_with left W.contents S.rest writer.new chain.new)
        (shown_to T.watches T.sees T.ends tap.old tap.new) 1 (why_of result) }
    ensures reason { IfErr result IsOfPiece }
    ensures stays_open { StaysOpen (why_of result) (has_failed chain.old) (has_failed chain.new) }
    ensures wholes { through S.whole (wrappers_of chain.new) ≡ through S.whole (wrappers_of chain.old) }
    ensures same { T.watches tap.new ≡ T.watches tap.old }
{
    show(piece, Way::Input, tap);
    if chain.is_empty() {
        return give(piece, writer, tap);
    }
    out.clear();
    match chain.feed(piece, out) {
        Ok(()) => give(out, writer, tap),
        Err(ChainFault::Failed) => Err(Why::Failed),
        Err(ChainFault::OutOfMemory) => Err(Why::OutOfMemory),
    }
}

/// Ends the stream: finishes the chain, writes its rest, and tells the tap. It answers why the pump ends.
fn end<W: Write, S: LineWrapper, T: Tap>(
    writer: &mut W,
    chain: &mut Chain<S>,
    tap: &mut T,
    out: &mut Vec<u8>,
) -> Why
    requires { has_failed chain.old ≡ false }
    ensures passed { (left : Option (List ℕ)) → IsAtEnd left → Passes []
        (ends_with left W.contents S.rest writer.old chain.old)
        (ends_with left W.contents S.rest writer.new chain.new)
        (shown_to T.watches T.sees T.ends tap.old tap.new) 1 result }
    ensures reason { IsOfEnd result }
    ensures wholes { through S.whole (wrappers_of chain.new) ≡ through S.whole (wrappers_of chain.old) }
    ensures same { T.watches tap.new ≡ T.watches tap.old }
{
    out.clear();
    match chain.finish(out) {
        Ok(()) => {}
        Err(ChainFault::Failed) => return Why::Failed,
        Err(ChainFault::OutOfMemory) => return Why::OutOfMemory,
    }
    if let Err(why) = give(out, writer, tap) {
        return why;
    }
    tap.ended();
    Why::End
}

/// Shows a piece that the chain gave, and writes it.
///
/// # Errors
/// Those of `write_out`.
fn give<W: Write, T: Tap>(piece: &[u8], writer: &mut W, tap: &mut T) -> Result<(), Why>
    ensures shown { SeesAll T.sees tap.old (pieces_of (T.watches tap.old) Output piece.now) tap.new }
    ensures wrote { Wrote (W.contents writer.old) (W.contents writer.new) piece.now result }
    ensures same { T.watches tap.new ≡ T.watches tap.old }
{
    show(piece, Way::Output, tap);
    write_out(piece, writer)
}

/// Shows a piece that goes this way to a tap, if the tap watches that way.
fn show<T: Tap>(piece: &[u8], way: Way, tap: &mut T)
    ensures shown { SeesAll T.sees tap.old (pieces_of (T.watches tap.old) way piece.now) tap.new }
    ensures same { T.watches tap.new ≡ T.watches tap.old }
{
    match (tap.way(), way) {
        (Way::Input, Way::Input) | (Way::Output, Way::Output) => tap.seen(piece),
        _ => {}
    }
}

/// Writes all of these bytes.
///
/// # Errors
/// `ZeroWrite` if the writer took nothing. `WriteFault` if it failed, or was interrupted too often.
pub fn write_out<W: Write>(bytes: &[u8], writer: &mut W) -> Result<(), Why>
    ensures { Wrote (W.contents writer.old) (W.contents writer.new) bytes.now result }
{
    let mut rest = bytes;
    let mut tries = u64::MAX;
    while !rest.is_empty() {
        if tries == 0 {
            return Err(Why::WriteFault);
        }
        tries -= 1;
        match writer.write(rest) {
            Ok(0) => return Err(Why::ZeroWrite),
            Ok(count) => rest = &rest[count..],
            Err(error) if error.kind() == ErrorKind::Interrupted => {}
            Err(_) => return Err(Why::WriteFault),
        }
    }
    Ok(())
}
