//! `addcr` and `delcr`: one stream through a chain.
ghost use Rattle.std.specs.Prelude.{◌≡◌, [], ◌∷◌, IfOk, IfSome, OnOk};
ghost use Rattle.std.specs.Io.KnownBytes.{Appends};
ghost use Rattle.byte_streams.specs.Chains.{wrappers_of};
ghost use Rattle.byte_streams.specs.Wrapped.{added, deleted};
ghost use Rattle.stream_tools.specs.Filters.{Came, EndWithNothing, answer_of};
ghost use Rattle.stream_tools.specs.declared.filter.FilterFault.TheVariants.{OutOfMemory};

use byte_streams::{AddCr, Chain, DelCr, LineWrapper, NoTap, Why, pump};
use std::alloc::{AllocError, Global};
use std::fmt;
use std::io::{Read, Write};

/// How many reads a pump of a tool makes at most.
pub const MOST_READS: u64 = 1 << 40;

const _: () = prove!(MOST_READS == 1_099_511_627_776);

/// Why a stream was not passed on to its end.
#[derive(Clone, Copy)]
pub enum FilterFault {
    /// It could not be read, or took more than 2^40 reads.
    ReadFault,
    /// It could not be written.
    WriteFault,
    /// There was no memory.
    OutOfMemory,
}

impl fmt::Display for FilterFault {
    fn fmt<W: fmt::Write>(&self, f: &mut fmt::Formatter<W>) -> fmt::Result {
        f.write_str(match self {
            FilterFault::ReadFault => "read fault",
            FilterFault::WriteFault => "write fault",
            FilterFault::OutOfMemory => "out of memory",
        })
    }
}

impl From<AllocError> for FilterFault {
    ghost from_gives = { λ _ fault. fault ≡ OutOfMemory };

    fn from(_error: AllocError) -> FilterFault {
        FilterFault::OutOfMemory
    }
}

/// Passes a stream through a wrapper that writes nothing more at the end of a text, to its end.
///
/// # Errors
/// What was read until the fault was passed on, as far as it was written.
fn pass_on<R: Read, W: Write, S: LineWrapper + Drop>(
    alloc: Global,
    reader: &mut R,
    writer: &mut W,
    wrapper: S,
) -> Result<(), FilterFault>
    requires { EndWithNothing S.rest }
    ensures { Came (S.rest wrapper) (R.remaining reader.old) (R.remaining reader.new)
        (W.contents writer.old) (W.contents writer.new) result }
{
    let mut chain = chain_of(alloc, wrapper)?;
    let end = pump(alloc, reader, writer, &mut chain, &mut NoTap, MOST_READS);
    answer_of(end.why)
}

/// What the end of a pump is for such a tool.
fn answer_of(why: Why) -> Result<(), FilterFault>
    ensures { result ≡ answer_of why }
{
    match why {
        Why::End => Ok(()),
        Why::ReadFault | Why::ReadsOver => Err(FilterFault::ReadFault),
        Why::WriteFault | Why::ZeroWrite => Err(FilterFault::WriteFault),
        Why::OutOfMemory | Why::Failed => Err(FilterFault::OutOfMemory),
    }
}

/// `addcr`: passes a text on with a carriage return before each line feed, to its end.
///
/// # Errors
/// As of `FilterFault`. All that is made of what was read is written before a read fault; at another fault a front of
/// it.
pub fn add_returns<R: Read, W: Write>(
    alloc: Global,
    reader: &mut R,
    writer: &mut W,
) -> Result<(), FilterFault>
    ensures passed { OnOk result (IfSome (R.remaining reader.old) (λ text.
        Appends (W.contents writer.old) (W.contents writer.new) (added text))) }
    ensures came { Came added (R.remaining reader.old) (R.remaining reader.new)
        (W.contents writer.old) (W.contents writer.new) result }
{
    pass_on(alloc, reader, writer, AddCr)
}

/// `delcr`: passes a text on without one carriage return at the end of each line and of the last part, to its end.
///
/// # Errors
/// Those of `add_returns`.
pub fn delete_returns<R: Read, W: Write>(
    alloc: Global,
    reader: &mut R,
    writer: &mut W,
) -> Result<(), FilterFault>
    ensures passed { OnOk result (IfSome (R.remaining reader.old) (λ text.
        Appends (W.contents writer.old) (W.contents writer.new) (deleted text))) }
    ensures came { Came deleted (R.remaining reader.old) (R.remaining reader.new)
        (W.contents writer.old) (W.contents writer.new) result }
{
    pass_on(alloc, reader, writer, DelCr::new())
}

/// A chain of one wrapper.
pub(crate) fn chain_of<S: LineWrapper + Drop>(
    alloc: Global,
    wrapper: S,
) -> Result<Chain<S>, AllocError>
    ensures { IfOk result (λ chain. wrappers_of chain ≡ wrapper ∷ []) }
{
    let mut wrappers = Vec::new(alloc);
    wrappers.push(wrapper)?;
    Ok(Chain::new(alloc, wrappers))
}
