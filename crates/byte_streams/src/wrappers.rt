//! The line wrappers.
ghost use Rattle.std.specs.Prelude.{◌≡◌, ◌++◌, [], List, ℕ, false, OnOk, OnErr, IfOk};
ghost use Rattle.byte_streams.specs.Wrappers.{Extends, Feeds, deleted_from, fixed_from};
ghost use Rattle.byte_streams.specs.Wrapped.{IsOneLine, added, deleted, fixed};

use byte_text::take_back;
use memchr::memchr;
use std::alloc::AllocError;

/// A carriage return.
const CR: u8 = b'\r';

/// A line wrapper: it changes a text that comes in pieces. What it writes doesn't depend on how the text is cut.
pub trait LineWrapper {
    /// What it will still write, given the rest of the text.
    ghost rest: { Self → List ℕ → List ℕ };

    /// What it writes of a whole text. No call changes this.
    ghost whole: { Self → List ℕ → List ℕ };

    /// Takes the next piece of the text, and appends what it writes of it.
    ///
    /// # Errors
    /// There was no memory. Nothing was appended, and the wrapper is as before.
    fn feed(&mut self, piece: &[u8], out: &mut Vec<u8>) -> Result<(), AllocError>
        ensures fed { OnOk result (Feeds (rest self.old) (rest self.new) piece.now out.old.items out.new.items) }
        ensures unchanged { OnErr result ((out.new.items ≡ out.old.items) × (rest self.new ≡ rest self.old)) }
        ensures same { whole self.new ≡ whole self.old };

    /// Ends the text, and appends what it still writes.
    ///
    /// # Errors
    /// There was no memory. Nothing was appended.
    fn finish(&mut self, out: &mut Vec<u8>) -> Result<(), AllocError>
        ensures finished { OnOk result (out.new.items ≡ out.old.items ++ rest self.old []) }
        ensures unchanged { OnErr result (out.new.items ≡ out.old.items) }
        ensures same { whole self.new ≡ whole self.old };
}

/// Puts a carriage return before each line feed, as `addcr`.
#[derive(Clone, Copy)]
pub struct AddCr;

/// Takes one carriage return away at the end of each line and of the text, as `delcr`.
#[derive(Clone, Copy, Default)]
pub struct DelCr {
    // a carriage return was read, and is not written yet
    held: bool,
}

/// Puts a carriage return before each line feed that has none, as `fixcrio`.
#[derive(Clone, Copy, Default)]
pub struct FixCr {
    // the last byte was a carriage return
    after_cr: bool,
}

impl DelCr {
    /// A wrapper that has read nothing.
    pub fn new() -> DelCr
        ensures { ⟦<DelCr as LineWrapper>⟧.rest result ≡ ⟦<DelCr as LineWrapper>⟧.whole result }
    {
        DelCr { held: false }
    }
}

impl FixCr {
    /// A wrapper that has read nothing.
    pub fn new() -> FixCr
        ensures { ⟦<FixCr as LineWrapper>⟧.rest result ≡ ⟦<FixCr as LineWrapper>⟧.whole result }
    {
        FixCr { after_cr: false }
    }
}

impl LineWrapper for AddCr {
    ghost rest = { λ _. added };

    ghost whole = { λ _. added };

    fn feed(&mut self, piece: &[u8], out: &mut Vec<u8>) -> Result<(), AllocError> {
        let before = out.len();
        let done = add_returns(piece, out);
        take_back(out, before, done)
    }

    fn finish(&mut self, _out: &mut Vec<u8>) -> Result<(), AllocError> {
        Ok(())
    }
}

impl LineWrapper for DelCr {
    ghost rest = { λ wrapper. deleted_from wrapper.held };

    ghost whole = { λ _. deleted };

    fn feed(&mut self, piece: &[u8], out: &mut Vec<u8>) -> Result<(), AllocError> {
        let before = out.len();
        let done = delete_returns(self.held, piece, out);
        self.held = take_back(out, before, done)?;
        Ok(())
    }

    fn finish(&mut self, _out: &mut Vec<u8>) -> Result<(), AllocError> {
        Ok(())
    }
}

impl LineWrapper for FixCr {
    ghost rest = { λ wrapper. fixed_from wrapper.after_cr };

    ghost whole = { λ _. fixed };

    fn feed(&mut self, piece: &[u8], out: &mut Vec<u8>) -> Result<(), AllocError> {
        let before = out.len();
        let done = fix_returns(self.after_cr, piece, out);
        self.after_cr = take_back(out, before, done)?;
        Ok(())
    }

    fn finish(&mut self, _out: &mut Vec<u8>) -> Result<(), AllocError> {
        Ok(())
    }
}

/// Appends a piece with a carriage return before each line feed. After an `Err` some of it may have been appended.
fn add_returns(piece: &[u8], out: &mut Vec<u8>) -> Result<(), AllocError>
    ensures fed { OnOk result (Feeds added added piece.now out.old.items out.new.items) }
    ensures extends { Extends out.old.items out.new.items }
{
    let mut rest = piece;
    while let Some(end) = memchr(b'\n', rest) {
        out.extend_from_slice(&rest[..end])?;
        out.extend_from_slice(b"\r\n")?;
        rest = &rest[end + 1..];
    }
    out.extend_from_slice(rest)
}

/// Appends a piece without the carriage returns at the ends of its lines. `held` says whether one was held back before
/// the piece; the answer says whether one is held back now. After an `Err` some of the piece may have been appended.
fn delete_returns(held: bool, piece: &[u8], out: &mut Vec<u8>) -> Result<bool, AllocError>
    ensures fed { IfOk result (λ last.
        Feeds (deleted_from held) (deleted_from last) piece.now out.old.items out.new.items) }
    ensures extends { Extends out.old.items out.new.items }
{
    let mut held = held;
    let mut rest = piece;
    while let Some(end) = memchr(b'\n', rest) {
        hold_return(held, &rest[..end], out)?;
        out.extend_from_slice(b"\n")?;
        held = false;
        rest = &rest[end + 1..];
    }
    hold_return(held, rest, out)
}

/// Appends bytes of one line, and holds back a carriage return at their end. The answer says whether one is held back
/// now. After an `Err` some of the bytes may have been appended.
fn hold_return(held: bool, bytes: &[u8], out: &mut Vec<u8>) -> Result<bool, AllocError>
    requires { IsOneLine bytes.now }
    ensures fed { IfOk result (λ last.
        Feeds (deleted_from held) (deleted_from last) bytes.now out.old.items out.new.items) }
    ensures extends { Extends out.old.items out.new.items }
{
    let Some((last, front)) = bytes.split_last() else {
        return Ok(held);
    };
    if held {
        out.extend_from_slice(b"\r")?;
    }
    if *last == CR {
        out.extend_from_slice(front)?;
        return Ok(true);
    }
    out.extend_from_slice(bytes)?;
    Ok(false)
}

/// Appends a piece with a carriage return before each line feed that has none. `after_cr` says whether the byte before
/// the piece was one; the answer says whether the last byte is one now. After an `Err` some of the piece may have been
/// appended.
fn fix_returns(after_cr: bool, piece: &[u8], out: &mut Vec<u8>) -> Result<bool, AllocError>
    ensures fed { IfOk result (λ last.
        Feeds (fixed_from after_cr) (fixed_from last) piece.now out.old.items out.new.items) }
    ensures extends { Extends out.old.items out.new.items }
{
    let mut after_cr = after_cr;
    let mut rest = piece;
    while let Some(end) = memchr(b'\n', rest) {
        after_cr = note_return(after_cr, &rest[..end], out)?;
        if !after_cr {
            out.extend_from_slice(b"\r")?;
        }
        out.extend_from_slice(b"\n")?;
        after_cr = false;
        rest = &rest[end + 1..];
    }
    note_return(after_cr, rest, out)
}

/// Appends bytes of one line, and answers whether the last byte is a carriage return now. After an `Err` nothing was
/// appended.
fn note_return(after_cr: bool, bytes: &[u8], out: &mut Vec<u8>) -> Result<bool, AllocError>
    requires { IsOneLine bytes.now }
    ensures fed { IfOk result (λ last.
        Feeds (fixed_from after_cr) (fixed_from last) bytes.now out.old.items out.new.items) }
    ensures extends { Extends out.old.items out.new.items }
{
    out.extend_from_slice(bytes)?;
    match bytes {
        [.., last] => Ok(*last == CR),
        [] => Ok(after_cr),
    }
}
