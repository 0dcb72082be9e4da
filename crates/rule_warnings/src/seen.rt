//! The addresses that stood in lines.
ghost use Rattle.std.specs.Prelude.{◌≡◌, ◌≤◌, ◌++◌, ◌∷◌, [], ℕ, List, OnOk, IfOk, None, Some, length, true};
ghost use Rattle.rule_lines.specs.Rows.{addresses_under};
ghost use Rattle.rule_warnings.specs.Spans.{around, is_cut, line_among, line_from, line_spanned};
ghost use Rattle.rule_warnings.specs.Tables.{IsUpTo, items_of, line_alone, line_under, noted, noted_all, spans_under};

use crate::lent::Lent;
use crate::spans::{Span, cut_at, line_among, sooner};
use rule_lines::spread::Numbers;
use std::alloc::{AllocError, Global};
use std::collections::HashMap;

/// The addresses of the lines so far, each with the number of the first line that has it.
#[derive(Drop)]
pub struct Seen<'a> {
    /// Those that stand in the text as they are.
    lent: Lent<'a>,
    /// Those that were made: of capital letters, and of lines whose number has no room there.
    made: HashMap<Vec<u8>, u64>,
    /// Those of ranges, by what stands before and behind their numbers, with a `-` between.
    spans: HashMap<Vec<u8>, Vec<Span>>,
}

impl<'a> Seen<'a> {
    /// No addresses, with room for so many that stand in the text and are no whole IPv4 addresses: what grows stands
    /// twice for a moment.
    pub fn with_room(alloc: Global, texts: usize) -> Result<Seen<'a>, AllocError>
        ensures { IfOk result (λ seen. (address : List ℕ) → line_under seen address ≡ None) }
    {
        Ok(Seen {
            lent: Lent::with_room(alloc, texts)?,
            made: HashMap::new(alloc),
            spans: HashMap::new(alloc),
        })
    }

    /// The number of the first line that has the address.
    pub fn line_of(&self, alloc: Global, address: &[u8]) -> Result<Option<u64>, AllocError>
        ensures { IfOk result (λ line. line ≡ line_under self.now address.now) }
    {
        match self.line_alone(address) {
            Some(line) => Ok(Some(line)),
            None => self.line_spanned(alloc, address),
        }
    }

    /// The line of an address that was noted by itself.
    fn line_alone(&self, address: &[u8]) -> Option<u64>
        ensures { result ≡ line_alone self.now address.now }
    {
        match self.lent.line_of(address) {
            Some(line) => Some(line),
            None => self.made.get(address).copied(),
        }
    }

    /// The first line of the ranges that have an address.
    fn line_spanned(&self, alloc: Global, address: &[u8]) -> Result<Option<u64>, AllocError>
        ensures { IfOk result (λ line. line ≡ line_spanned (spans_under self.now) address.now) }
    {
        if self.spans.is_empty() {
            return Ok(None);
        }
        let mut first = None;
        for start in 0..=address.len() {
            first = sooner(first, self.line_from(alloc, address, start)?);
        }
        Ok(first)
    }

    /// The first line of the ranges that have an address by a number that begins there.
    fn line_from(
        &self,
        alloc: Global,
        address: &[u8],
        start: usize,
    ) -> Result<Option<u64>, AllocError>
        requires { start ≤ length address.now }
        ensures { IfOk result (λ line. line ≡ line_from (spans_under self.now) address.now start) }
    {
        match cut_at(address, start) {
            Some(cut) => {
                let around = around(alloc, cut.front, cut.back)?;
                Ok(self.line_around(&around, cut.number))
            }
            None => Ok(None),
        }
    }

    /// The first line of the ranges that have a number between what stands around it.
    fn line_around(&self, around: &[u8], number: u8) -> Option<u64>
        ensures { result ≡ line_among (spans_under self.now around.now) number }
    {
        match self.spans.get(around) {
            Some(spans) => line_among(spans, number),
            None => None,
        }
    }

    /// Notes that a line has an address that was made: where none had it before, it is the first. For want of memory
    /// nothing is noted.
    pub fn note_made(&mut self, alloc: Global, address: &[u8], line: u64) -> Result<(), AllocError>
        ensures { OnOk result ((other : List ℕ) → line_under self.new other
            ≡ noted (line_under self.old) address.now line other) }
    {
        if self.line_of(alloc, address)?.is_none() {
            self.made.insert(Vec::from_slice(alloc, address)?, line)?;
        }
        Ok(())
    }

    /// Notes that a line has an address that stands in the text, and that none had before. For want of memory nothing
    /// is noted.
    pub fn note_lent(
        &mut self,
        alloc: Global,
        address: &'a [u8],
        line: u64,
    ) -> Result<(), AllocError>
        requires { line_under self.old address.now ≡ None }
        ensures { OnOk result ((other : List ℕ) → line_under self.new other
            ≡ noted (line_under self.old) address.now line other) }
    {
        match u32::try_from(line) {
            Ok(short) => self.lent.insert(address, short),
            Err(_) => self.note_made(alloc, address, line),
        }
    }

    /// Notes that a line has the addresses of a range, and that no line noted so far comes after it. For want of memory
    /// the ranges with the same parts may be lost.
    pub fn note_range(
        &mut self,
        alloc: Global,
        front: &[u8],
        numbers: Numbers,
        back: &[u8],
        line: u64,
    ) -> Result<(), AllocError>
        requires range { is_cut front.now numbers back.now ≡ true }
        requires earlier { IsUpTo self.old line }
        ensures { OnOk result ((other : List ℕ) → line_under self.new other
            ≡ noted_all (line_under self.old) (addresses_under front.now numbers back.now) line other) }
    {
        let around = around(alloc, front, back)?;
        let spans = self.spans.remove(&around[..]);
        match with_span(alloc, spans, Span { numbers, line }) {
            Ok(spans) => {
                self.spans.insert(around, spans)?;
                Ok(())
            }
            Err(refused) => {
                drop(around);
                Err(refused)
            }
        }
    }
}

/// What stands before and behind a number, with a `-` between.
fn around(alloc: Global, front: &[u8], back: &[u8]) -> Result<Vec<u8>, AllocError>
    ensures { IfOk result (λ bytes. bytes.items ≡ around front.now back.now) }
{
    let mut around = Vec::with_capacity(alloc, front.len() + 1 + back.len())?;
    around.extend_from_slice(front)?;
    around.push(b'-')?;
    around.extend_from_slice(back)?;
    Ok(around)
}

/// The spans that there are, and one more.
fn with_span(alloc: Global, spans: Option<Vec<Span>>, span: Span) -> Result<Vec<Span>, AllocError>
    ensures { IfOk result (λ kept. kept.items ≡ items_of spans ++ span ∷ []) }
{
    let mut kept = or_none(alloc, spans)?;
    match kept.push(span) {
        Ok(()) => Ok(kept),
        Err(_) => {
            drop(kept);
            Err(AllocError)
        }
    }
}

/// The spans that there are; else none, and room for one: most ranges stand alone.
fn or_none(alloc: Global, spans: Option<Vec<Span>>) -> Result<Vec<Span>, AllocError>
    ensures { IfOk result (λ kept. kept.items ≡ items_of spans) }
{
    match spans {
        Some(spans) => Ok(spans),
        None => Vec::with_capacity(alloc, 1),
    }
}
