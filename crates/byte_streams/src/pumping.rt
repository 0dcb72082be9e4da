//! The pump: it reads a stream, passes each piece through a chain, and writes what that gives.
ghost use Rattle.std.specs.Prelude.{◌≡◌, ◌≢◌, ◌⊎◌, ◌<◌, ◌≤◌, length, true, false, IfOk};
ghost use Rattle.byte_streams.specs.Chains.{has_failed, wrappers_of};
ghost use Rattle.byte_streams.specs.Wrappers.{through};
ghost use Rattle.byte_streams.specs.Pumps.{Pumped, ends_of};
ghost use Rattle.byte_streams.specs.Taps.{shown_to};
ghost use Rattle.byte_streams.specs.Pieces.{StaysOpen, ReadAndPassed};

use crate::pieces::{Reads, pump_piece};
use crate::tap::Tap;
use crate::{Chain, LineWrapper};
use std::alloc::{AllocError, Global};
use std::io::{Read, Write};

/// The length of the first reads. A stream that carries little takes little memory.
const FIRST: usize = 4 * 1024;

/// The length of the reads behind one that filled its buffer.
const MOST: usize = 64 * 1024;

/// Why a pump ended.
#[derive(Clone, Copy)]
pub enum Why {
    /// The reader has nothing left, and all was written.
    End,
    /// The reader failed.
    ReadFault,
    /// The writer failed.
    WriteFault,
    /// The writer took nothing.
    ZeroWrite,
    /// As many reads were made as are allowed.
    ReadsOver,
    /// The chain had failed or was finished before.
    Failed,
    /// There was no memory.
    OutOfMemory,
}

/// How a pump ended.
#[derive(Clone, Copy)]
pub struct PumpEnd {
    /// How many reads it made.
    pub reads: u64,
    /// Why it ended.
    pub why: Why,
}

/// Reads a stream, passes each piece through the chain, and writes what the chain gives before it reads again.
///
/// It reads at most `most_reads` times. An interrupted read counts, with nothing read; an interrupted write is tried
/// again. At the end of the reader the chain is finished and its rest is written. The tap sees each piece before it is
/// written, and the end.
///
/// The end says what was written. At `ReadFault` and `ReadsOver` the chain is not finished, and all that it gave was
/// written. At `WriteFault` and `ZeroWrite` a front of that was written. At `Failed` and `OutOfMemory` all that it gave
/// before was written.
pub fn pump<R: Read, W: Write, S: LineWrapper, T: Tap>(
    alloc: Global,
    reader: &mut R,
    writer: &mut W,
    chain: &mut Chain<S>,
    tap: &mut T,
    most_reads: u64,
) -> PumpEnd
    ensures pumped { Pumped (ends_of R.remaining W.contents S.rest reader.old writer.old chain.old)
        (ends_of R.remaining W.contents S.rest reader.new writer.new chain.new)
        (shown_to T.watches T.sees T.ends tap.old tap.new) result }
    ensures over { result.why ≡ Why.ReadsOver → result.reads ≡ most_reads }
    ensures within { result.reads ≤ most_reads }
    ensures failed { result.why ≡ Why.Failed → has_failed chain.old ≡ true }
    ensures gives_none { has_failed chain.old ≡ true → (result.why ≢ Why.End) × (writer.new ≡ writer.old) }
    ensures unfinished { (result.why ≡ Why.ReadFault) ⊎ (result.why ≡ Why.ReadsOver)
        → has_failed chain.new ≡ has_failed chain.old }
    ensures wholes { through S.whole (wrappers_of chain.new) ≡ through S.whole (wrappers_of chain.old) }
{
    match new_room(alloc) {
        Ok(mut room) => pump_into(alloc, reader, writer, chain, tap, most_reads, &mut room),
        Err(_) => PumpEnd {
            reads: 0,
            why: Why::OutOfMemory,
        },
    }
}

/// Makes room for the reads of `pump_into`. Its caller keeps it from call to call.
///
/// # Errors
/// There was no memory.
pub fn new_room(alloc: Global) -> Result<Vec<u8>, AllocError>
    ensures room { IfOk result (λ room. 0 < length room.items) }
{
    vec![in alloc; 0u8; FIRST]
}

/// Pumps a stream as `pump` does, into room that its caller keeps from call to call.
///
/// So a caller can see to something else between two reads: at `ReadsOver` the reads were made, what the chain gave was
/// written, and the next call goes on there. The room is for reads alone, and nothing of it is used by the next call;
/// it grows where a read filled it. At every end there is room for the next read.
pub fn pump_into<R: Read, W: Write, S: LineWrapper, T: Tap>(
    alloc: Global,
    reader: &mut R,
    writer: &mut W,
    chain: &mut Chain<S>,
    tap: &mut T,
    most_reads: u64,
    room: &mut Vec<u8>,
) -> PumpEnd
    requires room { 0 < length room.old.items }
    ensures pumped { Pumped (ends_of R.remaining W.contents S.rest reader.old writer.old chain.old)
        (ends_of R.remaining W.contents S.rest reader.new writer.new chain.new)
        (shown_to T.watches T.sees T.ends tap.old tap.new) result }
    ensures over { result.why ≡ Why.ReadsOver → result.reads ≡ most_reads }
    ensures within { result.reads ≤ most_reads }
    ensures failed { result.why ≡ Why.Failed → has_failed chain.old ≡ true }
    ensures gives_none { has_failed chain.old ≡ true → (result.why ≢ Why.End) × (writer.new ≡ writer.old) }
    ensures unfinished { (result.why ≡ Why.ReadFault) ⊎ (result.why ≡ Why.ReadsOver)
        → has_failed chain.new ≡ has_failed chain.old }
    ensures wholes { through S.whole (wrappers_of chain.new) ≡ through S.whole (wrappers_of chain.old) }
    ensures room { 0 < length room.new.items }
{
    let mut reads = Reads { made: 0, last: 0 };
    if chain.has_failed() {
        return PumpEnd {
            reads: 0,
            why: Why::Failed,
        };
    }
    let why = run(
        alloc, reader, writer, chain, tap, most_reads, room, &mut reads,
    );
    PumpEnd {
        reads: reads.made,
        why,
    }
}

/// Reads and passes on until that ends the pump, or no reads are left.
fn run<R: Read, W: Write, S: LineWrapper, T: Tap>(
    alloc: Global,
    reader: &mut R,
    writer: &mut W,
    chain: &mut Chain<S>,
    tap: &mut T,
    most_reads: u64,
    buffer: &mut Vec<u8>,
    reads: &mut Reads,
) -> Why
    requires start { reads.old.made ≡ 0 }
    requires room { 0 < length buffer.old.items }
    requires goes_on { has_failed chain.old ≡ false }
    ensures read_and_passed { ReadAndPassed (ends_of R.remaining W.contents S.rest reader.old writer.old chain.old)
        (ends_of R.remaining W.contents S.rest reader.new writer.new chain.new)
        (shown_to T.watches T.sees T.ends tap.old tap.new) reads.new.made result }
    ensures over { result ≡ Why.ReadsOver → reads.new.made ≡ most_reads }
    ensures within { reads.new.made ≤ most_reads }
    ensures not_failed { result ≢ Why.Failed }
    ensures stays_open { StaysOpen result (has_failed chain.old) (has_failed chain.new) }
    ensures wholes { through S.whole (wrappers_of chain.new) ≡ through S.whole (wrappers_of chain.old) }
    ensures room { 0 < length buffer.new.items }
{
    let mut out = Vec::new(alloc);
    for _read in 0..most_reads {
        if let Err(why) = pump_piece(reader, writer, chain, tap, buffer, &mut out, reads) {
            return why;
        }
        widen(buffer, reads.last);
    }
    Why::ReadsOver
}

/// Makes room for longer reads if a read filled the buffer. Without memory the buffer stays as it is.
fn widen(buffer: &mut Vec<u8>, got: usize)
    ensures { 0 < length buffer.old.items → 0 < length buffer.new.items }
{
    if buffer.len() < MOST && buffer.len() <= got {
        let _ = buffer.resize(MOST, 0);
    }
}
