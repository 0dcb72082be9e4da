//! Lists of rules.
ghost use Rattle.std.specs.Prelude.{◌≡◌, ◌++◌, ◌<◌, ◌+◌, length, slice_get, IfOk, OnOk, OnErr};
ghost use Rattle.byte_text.specs.Outcomes.{AppendsPart};
ghost use Rattle.rule_lookup.specs.Codes.{AreRules, code_of};
ghost use Rattle.rule_lines.specs.Kept.{AreKept, IsStored, Tallies, rules_in};
ghost use Rattle.rule_lines.specs.Rows.{stored_length};
ghost use Rattle.rule_lookup.specs.Spread.{folded};
ghost use Rattle.rule_lines.specs.Texts.{AreOfText};
ghost use Rattle.rule_lines.specs.ReadAddresses.{addresses_read};

use crate::kept::{KeptLine, LinePosition, Tally, rule_at};
use crate::open_range::{OpenRange, append_numbered};
use crate::spread::{ReadAddress, number_at};
use memchr::memchr;
use std::alloc::{AllocError, Global};
use std::marker::Model;

/// The rules of a text in order, one for each address. The list keeps the text, with the code of each instruction in
/// its place, and reads a rule out of it when it is asked for: so it takes less memory than the text, however many
/// rules that has.
#[derive(Drop)]
pub struct RuleList {
    kept: Vec<u8>,
    tally: Tally,
    /// A line from which the rules at and after it are looked for.
    near: LinePosition,
    /// The range whose rules are being written.
    range: OpenRange,
}

impl Model for RuleList {
    ghost use Rattle.std.specs.Prelude.{List};
    ghost use Rattle.rule_lookup.specs.Pairs.{Rule};

    ghost Value = { List Rule };

    ghost use Rattle.rule_lines.specs.Kept.{Keeps, rules_in};

    ghost view = { λ l. rules_in l.kept.items };

    ghost invariant = { λ l. Keeps l.kept.items l.tally l.near l.range };
}

/// A rule of a list: an address with its instruction, lent by the list.
#[derive(Drop)]
struct Pair<'a> {
    line: KeptLine<'a>,
    /// Which of the line's addresses it has.
    position: usize,
}

impl<'a> Model for Pair<'a> {
    ghost use Rattle.rule_lookup.specs.Pairs.{Rule};

    ghost Value = { Rule };

    ghost use Rattle.std.specs.Prelude.{◌≡◌, ◌<◌, is_some, length, true};
    ghost use Rattle.rule_lookup.specs.Codes.{decoded};
    ghost use Rattle.rule_lines.specs.Kept.{rule_of_line};
    ghost use Rattle.rule_lines.specs.ReadAddresses.{addresses_read};

    ghost view = { λ p. rule_of_line p.line p.position };

    ghost invariant = { λ p. (is_some (decoded p.line.code.now) ≡ true) × (p.position < length (addresses_read p.line.addresses)) };
}

impl<'a> Pair<'a> {
    /// Adds the address at the end of `out`. After an `Err` there may be any more bytes at the end.
    fn append_address(&self, out: &mut Vec<u8>) -> Result<(), AllocError>
        ensures { AppendsPart self.now.address out.old.items out.new.items result }
    {
        match self.line.addresses {
            ReadAddress::One(address) => append_folded(out, address)?,
            ReadAddress::Range {
                front,
                numbers,
                back,
            } => {
                let number = number_at(numbers, self.position);
                append_numbered(out, front, number, back)?;
            }
        }
        Ok(())
    }

    /// The code of the instruction.
    fn code(&self) -> &'a [u8]
        ensures { result.now ≡ code_of self.now.instr }
    {
        self.line.code
    }

    /// Writes it in place of the bytes of `rule`. After an `Err` any bytes stand there.
    fn put(&self, rule: &mut StoredRule) -> Result<(), AllocError>
        ensures key { OnOk result (rule.new.key.items ≡ self.now.address) }
        ensures code { OnOk result (rule.new.code.items ≡ code_of self.now.instr) }
    {
        rule.key.clear();
        self.append_address(&mut rule.key)?;
        rule.code.clear();
        rule.code.extend_from_slice(self.code())
    }
}

/// A rule as it is stored: its address, and the code of its instruction.
#[derive(Drop)]
pub struct StoredRule {
    /// The address.
    pub key: Vec<u8>,
    /// The code of the instruction.
    pub code: Vec<u8>,
}

impl StoredRule {
    /// One with neither. It takes no memory.
    pub fn new(alloc: Global) -> StoredRule {
        StoredRule {
            key: Vec::new(alloc),
            code: Vec::new(alloc),
        }
    }
}

impl RuleList {
    /// The list of kept lines, whose rules have this tally.
    pub(crate) fn new(kept: Vec<u8>, tally: Tally) -> RuleList
        requires kept { AreKept kept.items }
        requires tallied { Tallies (rules_in kept.items) tally }
        requires of_text { AreOfText (rules_in kept.items) }
        ensures { result ≡ rules_in kept.items }
    {
        let range = OpenRange::closed(*kept.allocator());
        RuleList {
            kept,
            tally,
            near: LinePosition::FRONT,
            range,
        }
    }

    /// How many rules there are: as many as addresses. Each of them sets what may be set.
    pub fn len(&self) -> usize
        ensures count { result ≡ length self.now }
        ensures known { AreRules self.now }
    {
        self.tally.rules
    }

    /// How many bytes the addresses of all rules and the codes of their instructions have together.
    pub fn stored_length(&self) -> usize
        ensures { result ≡ stored_length self.now }
    {
        self.tally.bytes
    }

    /// A law: they are the rules of an accepted text.
    pub fn of_text(&self)
        ensures { AreOfText self.now }
    {
        // this tells the proof what each list keeps
        let _ = &self.kept;
    }

    /// Puts the rule at position `i`, from 0, into `rule`, and says whether there is one. Where rules are written one
    /// after another, each line is read once for each of its rules.
    ///
    /// # Errors
    /// There was no memory. `rule` may have any bytes then.
    pub fn write_rule(&mut self, i: usize, rule: &mut StoredRule) -> Result<bool, AllocError>
        ensures same { self.new ≡ self.old }
        ensures written { IfOk result (λ found.
            IsStored (slice_get self.old i) found rule.new.key.items rule.new.code.items) }
    {
        if let Some(position) = self.range.position_of(i) {
            self.range.write(position, rule)?;
            return Ok(true);
        }
        let Some(found) = rule_at(&self.kept, self.near.not_behind(i), i) else {
            return Ok(false);
        };
        let resume = found.resume;
        self.range.take_up(i, &found)?;
        let pair = Pair {
            line: found.line,
            position: found.position,
        };
        pair.put(rule)?;
        self.near = resume;
        Ok(true)
    }

    /// An equal list.
    pub fn copy(&self) -> Result<RuleList, AllocError>
        ensures { IfOk result (λ l. l ≡ self.now) }
    {
        let alloc = *self.kept.allocator();
        Ok(RuleList {
            kept: Vec::from_slice(alloc, &self.kept)?,
            tally: self.tally,
            near: self.near,
            range: OpenRange::closed(alloc),
        })
    }
}

/// Adds an address with its letters from the first `=` on in lower case. For want of memory nothing is added.
fn append_folded(out: &mut Vec<u8>, address: &[u8]) -> Result<(), AllocError>
    ensures ok { OnOk result (out.new.items ≡ out.old.items ++ folded address.now) }
    ensures err { OnErr result (out.new.items ≡ out.old.items) }
{
    let start = out.len();
    let position = memchr(b'=', address).unwrap_or(address.len());
    out.extend_from_slice(address)?;
    out[start + position..].make_ascii_lowercase();
    Ok(())
}
