//! Line wrappers, one behind another.
ghost use Rattle.std.specs.Prelude.{◌≡◌, ◌++◌, ◌↔◌, [], true, false, Err, IsTrue, OnOk, OnErr, is_err};
ghost use Rattle.byte_streams.specs.Chains.{has_failed, wrappers_of};
ghost use Rattle.byte_streams.specs.Wrappers.{Feeds, through};
ghost use Rattle.byte_streams.specs.declared.chain.ChainFault.TheVariants.{Failed, OutOfMemory};

use crate::wrappers::LineWrapper;
use std::alloc::{AllocError, Global};
use std::mem;

/// Why a chain refuses a piece.
#[derive(Clone, Copy)]
pub enum ChainFault {
    /// An earlier call met want of memory, or was `finish`.
    Failed,
    /// There was no memory.
    OutOfMemory,
}

impl From<AllocError> for ChainFault {
    ghost from_gives = { λ _ fault. fault ≡ OutOfMemory };

    fn from(_error: AllocError) -> ChainFault {
        ChainFault::OutOfMemory
    }
}

/// A chain of line wrappers: what one writes is the text of the next.
#[derive(Drop)]
pub struct Chain<S> {
    wrappers: Vec<S>,
    // what the wrappers so far wrote, and room for what the next one writes
    from: Vec<u8>,
    into: Vec<u8>,
    failed: bool,
}

impl<S: LineWrapper> Chain<S> {
    /// A chain of these line wrappers, the first one first. It takes no memory.
    pub fn new(alloc: Global, wrappers: Vec<S>) -> Chain<S>
        ensures wrappers { wrappers_of result ≡ wrappers.items }
        ensures failed { has_failed result ≡ false }
    {
        Chain {
            wrappers,
            from: Vec::new(alloc),
            into: Vec::new(alloc),
            failed: false,
        }
    }

    /// Whether there are no wrappers. Such a chain copies its pieces.
    pub fn is_empty(&self) -> bool
        ensures { IsTrue result ↔ ((wrappers_of self.now) ≡ []) }
    {
        self.wrappers.is_empty()
    }

    /// Whether it refuses all pieces: a call met want of memory, or was `finish`.
    pub fn has_failed(&self) -> bool
        ensures { result ≡ has_failed self.now }
    {
        self.failed
    }

    /// Takes the next piece of the text, and appends what the last wrapper writes of it.
    ///
    /// # Errors
    /// `Failed` if an earlier call met want of memory or was `finish`. `OutOfMemory` if this call met it; the chain has
    /// failed then. Nothing was appended.
    pub fn feed(&mut self, piece: &[u8], out: &mut Vec<u8>) -> Result<(), ChainFault>
        ensures fed { OnOk result (Feeds (through S.rest (wrappers_of self.old)) (through S.rest (wrappers_of self.new))
            piece.now out.old.items out.new.items) }
        ensures err { OnErr result (out.new.items ≡ out.old.items) }
        ensures failed { (result ≡ Err Failed) ↔ (has_failed self.old ≡ true) }
        ensures now_failed { has_failed self.new ≡ is_err result }
        ensures wholes { through S.whole (wrappers_of self.new) ≡ through S.whole (wrappers_of self.old) }
    {
        if self.failed {
            return Err(ChainFault::Failed);
        }
        let done = feed_all(
            &mut self.wrappers,
            piece,
            &mut self.from,
            &mut self.into,
            out,
        );
        self.failed = done.is_err();
        Ok(done?)
    }

    /// Ends the text, and appends what the last wrapper still writes. From then on the chain refuses all pieces.
    ///
    /// # Errors
    /// Those of `feed`.
    pub fn finish(&mut self, out: &mut Vec<u8>) -> Result<(), ChainFault>
        ensures finished { OnOk result (out.new.items ≡ out.old.items ++ through S.rest (wrappers_of self.old) []) }
        ensures err { OnErr result (out.new.items ≡ out.old.items) }
        ensures failed { (result ≡ Err Failed) ↔ (has_failed self.old ≡ true) }
        ensures now_failed { has_failed self.new ≡ true }
        ensures wholes { through S.whole (wrappers_of self.new) ≡ through S.whole (wrappers_of self.old) }
    {
        if self.failed {
            return Err(ChainFault::Failed);
        }
        self.failed = true;
        self.from.clear();
        finish_through(&mut self.wrappers, &mut self.from, &mut self.into)?;
        out.extend_from_slice(&self.from)?;
        Ok(())
    }
}

/// Feeds a piece through all wrappers, and appends what the last one writes. Without wrappers it copies the piece.
fn feed_all<S: LineWrapper>(
    wrappers: &mut [S],
    piece: &[u8],
    from: &mut Vec<u8>,
    into: &mut Vec<u8>,
    out: &mut Vec<u8>,
) -> Result<(), AllocError>
    ensures fed { OnOk result (Feeds (through S.rest wrappers.old) (through S.rest wrappers.new)
        piece.now out.old.items out.new.items) }
    ensures err { OnErr result (out.new.items ≡ out.old.items) }
    ensures wholes { through S.whole wrappers.new ≡ through S.whole wrappers.old }
{
    let count = wrappers.len();
    if count == 0 {
        return out.extend_from_slice(piece);
    }
    let last = count - 1;
    if last == 0 {
        return wrappers[0].feed(piece, out);
    }
    from.clear();
    wrappers[0].feed(piece, from)?;
    for position in 1..last {
        into.clear();
        wrappers[position].feed(from, into)?;
        mem::swap(from, into);
    }
    wrappers[last].feed(from, out)
}

/// Feeds the bytes in `from` through these wrappers as the end of the text, and leaves there what the last one writes.
fn finish_through<S: LineWrapper>(
    wrappers: &mut [S],
    from: &mut Vec<u8>,
    into: &mut Vec<u8>,
) -> Result<(), AllocError>
    ensures finished { OnOk result (from.new.items ≡ through S.rest wrappers.old from.old.items) }
    ensures wholes { through S.whole wrappers.new ≡ through S.whole wrappers.old }
{
    for position in 0..wrappers.len() {
        into.clear();
        finish_one(&mut wrappers[position], from, into)?;
        mem::swap(from, into);
    }
    Ok(())
}

/// Feeds a wrapper its last piece, and ends its text.
fn finish_one<S: LineWrapper>(
    wrapper: &mut S,
    piece: &[u8],
    out: &mut Vec<u8>,
) -> Result<(), AllocError>
    ensures finished { OnOk result (out.new.items ≡ out.old.items ++ S.rest wrapper.old piece.now) }
    ensures wholes { S.whole wrapper.new ≡ S.whole wrapper.old }
{
    wrapper.feed(piece, out)?;
    wrapper.finish(out)
}
