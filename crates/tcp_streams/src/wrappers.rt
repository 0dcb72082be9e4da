//! The line wrappers of a connection whose bytes are passed on.
ghost use Rattle.std.specs.Prelude.{◌≡◌, IfOk};
ghost use Rattle.tcp_streams.specs.Wrappers.{IsNewChain, changed_by, rest_of, whole_of};

use byte_streams::{AddCr, Chain, DelCr, FixCr, LineWrapper};
use server_words::LineWrapperName;
use std::alloc::{AllocError, Global};

/// A line wrapper of one of the kinds that change a text.
#[derive(Drop)]
pub(crate) enum Wrapper {
    /// Puts a carriage return before each line feed.
    AddCr(AddCr),
    /// Takes a carriage return away at the end of each line.
    DelCr(DelCr),
    /// Puts a carriage return before each line feed that has none.
    FixCr(FixCr),
}

impl LineWrapper for Wrapper {
    ghost rest = { rest_of };

    ghost whole = { whole_of };

    fn feed(&mut self, piece: &[u8], out: &mut Vec<u8>) -> Result<(), AllocError> {
        match self {
            Wrapper::AddCr(inner) => inner.feed(piece, out),
            Wrapper::DelCr(inner) => inner.feed(piece, out),
            Wrapper::FixCr(inner) => inner.feed(piece, out),
        }
    }

    fn finish(&mut self, out: &mut Vec<u8>) -> Result<(), AllocError> {
        match self {
            Wrapper::AddCr(inner) => inner.finish(out),
            Wrapper::DelCr(inner) => inner.finish(out),
            Wrapper::FixCr(inner) => inner.finish(out),
        }
    }
}

impl Wrapper {
    /// The wrapper of this name, at the begin of a text. It takes no memory.
    pub(crate) fn new(name: LineWrapperName) -> Wrapper
        ensures rest { rest_of result ≡ changed_by name }
        ensures whole { whole_of result ≡ changed_by name }
    {
        match name {
            LineWrapperName::AddCr => Wrapper::AddCr(AddCr),
            LineWrapperName::DelCr => Wrapper::DelCr(DelCr::new()),
            LineWrapperName::FixCr => Wrapper::FixCr(FixCr::new()),
        }
    }
}

/// A chain of the wrappers of these names, the first one first. It is new: nothing of another connection's text has
/// passed it.
///
/// # Errors
/// There was no memory.
pub(crate) fn chain_of(
    alloc: Global,
    names: &[LineWrapperName],
) -> Result<Chain<Wrapper>, AllocError>
    ensures new { IfOk result (IsNewChain names.now) }
{
    let mut wrappers = Vec::new(alloc);
    for name in names {
        wrappers.push(Wrapper::new(*name))?;
    }
    Ok(Chain::new(alloc, wrappers))
}
