//! The range whose rules are being written.
ghost use Rattle.std.specs.Prelude.{◌≡◌, ◌++◌, ◌+◌, ◌<◌, ◌≤◌, ℕ, List, decimal, IfSome, OnErr, OnOk};
ghost use Rattle.byte_text.specs.Outcomes.{AppendsPart};
ghost use Rattle.rule_lines.specs.Kept.{IsFound, IsOpenAmong};

use crate::kept::FoundRule;
use crate::list::StoredRule;
use crate::spread::{Numbers, ReadAddress, number_at};
use itoa::Buffer;
use std::alloc::{AllocError, Global};

/// The parts of a range line whose rules are being written, so that the line is not read again for each of them. It is
/// closed where it has no numbers.
#[derive(Drop)]
pub(crate) struct OpenRange {
    /// How many rules the lines before its own have.
    pub(crate) before: usize,
    pub(crate) front: Vec<u8>,
    pub(crate) numbers: Numbers,
    pub(crate) back: Vec<u8>,
    /// The code of the instruction.
    pub(crate) code: Vec<u8>,
}

impl OpenRange {
    /// A closed one. It takes no memory.
    pub(crate) fn closed(alloc: Global) -> OpenRange
        ensures { result.numbers.count ≡ 0 }
    {
        OpenRange {
            before: 0,
            front: Vec::new(alloc),
            numbers: Numbers { first: 0, count: 0 },
            back: Vec::new(alloc),
            code: Vec::new(alloc),
        }
    }

    /// Opens the range of a line, behind so many rules. After an `Err` it is closed.
    fn begin(
        &mut self,
        before: usize,
        front: &[u8],
        numbers: Numbers,
        back: &[u8],
        code: &[u8],
    ) -> Result<(), AllocError>
        ensures before { OnOk result (self.new.before ≡ before) }
        ensures front { OnOk result (self.new.front.items ≡ front.now) }
        ensures numbers { OnOk result (self.new.numbers ≡ numbers) }
        ensures back { OnOk result (self.new.back.items ≡ back.now) }
        ensures code { OnOk result (self.new.code.items ≡ code.now) }
        ensures closed { OnErr result (self.new.numbers.count ≡ 0) }
    {
        self.numbers.count = 0;
        overwrite(&mut self.front, front)?;
        overwrite(&mut self.back, back)?;
        overwrite(&mut self.code, code)?;
        self.before = before;
        self.numbers = numbers;
        Ok(())
    }

    /// Opens the range of a rule at position `i` that was found, if it has more rules. After an `Err` it is closed.
    pub(crate) fn take_up(&mut self, i: usize, found: &FoundRule<'_>) -> Result<(), AllocError>
        requires { found.now.position ≤ i }
        ensures { (kept : List ℕ) → IsFound kept i found.now → IsOpenAmong kept self.old → IsOpenAmong kept self.new }
    {
        match found.line.addresses {
            ReadAddress::Range {
                front,
                numbers,
                back,
            } if numbers.count > 1 => {
                self.begin(i - found.position, front, numbers, back, found.line.code)
            }
            _ => Ok(()),
        }
    }

    /// Which of its addresses the rule at position `i` has, if it is one of its rules.
    pub(crate) fn position_of(&self, i: usize) -> Option<usize>
        ensures { IfSome result (λ position. (position < self.now.numbers.count) × (self.now.before + position ≡ i)) }
    {
        let position = i.checked_sub(self.before)?;
        if position < usize::from(self.numbers.count) {
            Some(position)
        } else {
            None
        }
    }

    /// Writes the rule with the address at a position in place of the bytes of `rule`. After an `Err` any bytes stand
    /// there.
    pub(crate) fn write(&self, position: usize, rule: &mut StoredRule) -> Result<(), AllocError>
        requires { position < self.now.numbers.count }
        ensures key { OnOk result (rule.new.key.items
            ≡ self.now.front.items ++ decimal (self.now.numbers.first + position) ++ self.now.back.items) }
        ensures code { OnOk result (rule.new.code.items ≡ self.now.code.items) }
    {
        let number = number_at(self.numbers, position);
        rule.key.clear();
        append_numbered(&mut rule.key, &self.front, number, &self.back)?;
        overwrite(&mut rule.code, &self.code)
    }
}

/// Puts bytes in place of others. After an `Err` there may be none.
fn overwrite(out: &mut Vec<u8>, bytes: &[u8]) -> Result<(), AllocError>
    ensures { OnOk result (out.new.items ≡ bytes.now) }
{
    out.clear();
    out.extend_from_slice(bytes)
}

/// Adds an address of a range: what stands before the number, the number, and what stands after it. After an `Err`
/// there may be any more bytes at the end.
pub(crate) fn append_numbered(
    out: &mut Vec<u8>,
    front: &[u8],
    number: u32,
    back: &[u8],
) -> Result<(), AllocError>
    ensures { AppendsPart (front.now ++ decimal number ++ back.now) out.old.items out.new.items result }
{
    out.extend_from_slice(front)?;
    let mut buffer = Buffer::new();
    out.extend_from_slice(buffer.format(number).as_bytes())?;
    out.extend_from_slice(back)
}
