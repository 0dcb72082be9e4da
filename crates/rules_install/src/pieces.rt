//! The pieces of which a compiled file is made.
ghost use Rattle.std.specs.Prelude.{◌≡◌, ◌⊎◌, ◌↔◌, ◌<◌, ◌≤◌, List, [], IsTrue, IfOk, IfErr, OnErr, OnOk};
ghost use Rattle.cdb_files.specs.Format.{entries_of};
ghost use Rattle.cdb_files.specs.Image.{finished_length, limit_of, pointers_of, header_bytes};
ghost use Rattle.cdb_files.specs.Tables.{HoldsByTable};
ghost use Rattle.cdb_files.specs.Compiled.{stored};
ghost use Rattle.rule_lookup.specs.Pairs.{Rule};
ghost use Rattle.rules_install.specs.Pieces.{Continues};

use crate::InstallFault;
use crate::layout::{Layout, place_all, place_record};
use cdb_files::layout::{HEADER_LENGTH, LENGTHS_LENGTH, SLOTS_LENGTH, TABLE_COUNT, file_limit};
use cdb_files::{Tables, append_record, header, table_piece};
use rule_lines::{RuleList, StoredRule};
use std::alloc::{AllocError, Global};
use std::marker::Model;

/// The byte that stands in the place of the pointers until these are put there. Pointers of such bytes lead outside of
/// the file. So each lookup finds a part of a file damaged. With zeros it would find no rule, and everybody would be
/// let in.
const UNSET: u8 = 255;

/// A piece: the position of the pointers, the record of a rule, or a table.
#[derive(Clone, Copy)]
pub enum Piece {
    Unset,
    Record(usize),
    Table(usize),
}

/// The pieces of the file of a list of rules. It keeps the list, and the position of each record once that is made.
#[derive(Drop)]
pub struct Pieces {
    list: RuleList,
    layout: Layout,
}

impl Model for Pieces {
    ghost use Rattle.std.specs.Prelude.{List};
    ghost use Rattle.rule_lookup.specs.Pairs.{Rule};
    ghost use Rattle.rules_install.specs.Layout.{ArePlaced};

    ghost Value = { List Rule };

    ghost view = { λ p. p.list };

    ghost invariant = { λ p. ArePlaced p.list p.layout };
}

/// Whether the finished file of a list keeps the limit.
fn keeps_to(list: &RuleList, limit: u64) -> bool
    ensures { IsTrue result ↔ (finished_length (stored list.now) ≤ limit_of limit) }
{
    let beside = (LENGTHS_LENGTH + SLOTS_LENGTH) as u64;
    let records = (list.len() as u64)
        .saturating_mul(beside)
        .saturating_add(list.stored_length() as u64);
    records.saturating_add(HEADER_LENGTH as u64) <= file_limit(limit)
}

impl Pieces {
    /// The pieces of the file of a list, if the file keeps to the limit.
    pub fn new(alloc: Global, list: RuleList, limit: u64) -> Result<Pieces, InstallFault>
        ensures kept { IfOk result (λ pieces. pieces ≡ list) }
        ensures fits { IfOk result (λ _. finished_length (stored list) ≤ limit_of limit) }
        ensures refused { result ≡ Err InstallFault.TooLarge → limit_of limit < finished_length (stored list) }
        ensures faults { IfErr result (λ fault. (fault ≡ InstallFault.TooLarge) ⊎ (fault ≡ InstallFault.OutOfMemory)) }
    {
        if !keeps_to(&list, limit) {
            return Err(InstallFault::TooLarge);
        }
        let layout = Layout {
            tables: Tables::new(alloc)?,
            placed: 0,
            end: HEADER_LENGTH as u32,
        };
        Ok(Pieces { list, layout })
    }

    /// The list.
    pub fn list(&self) -> &RuleList
        ensures { result.now ≡ self.now }
    {
        &self.list
    }

    /// Replaces the bytes of `piece` by those of the piece at a position, if there is one, and answers the position of
    /// the next. The bytes of `rule` are overwritten.
    ///
    /// # Errors
    /// There was no memory. `piece` has no bytes then.
    pub fn make(
        &mut self,
        alloc: Global,
        position: Piece,
        rule: &mut StoredRule,
        piece: &mut Vec<u8>,
    ) -> Result<Option<Piece>, AllocError>
        ensures same { self.new ≡ self.old }
        ensures made { IfOk result (Continues self.old position piece.new.items) }
        ensures unmade { OnErr result (piece.new.items ≡ []) }
    {
        piece.clear();
        match position {
            Piece::Unset => {
                *piece = vec![in alloc; UNSET; HEADER_LENGTH]?;
                Ok(Some(Piece::Record(0)))
            }
            Piece::Record(i) => self.record(alloc, i, rule, piece),
            Piece::Table(t) => self.table(alloc, t, rule, piece),
        }
    }

    // The same for the record of a rule, and for the first table where there is no such rule.
    fn record(
        &mut self,
        alloc: Global,
        i: usize,
        rule: &mut StoredRule,
        piece: &mut Vec<u8>,
    ) -> Result<Option<Piece>, AllocError>
        requires { piece.old.items ≡ [] }
        ensures same { self.new ≡ self.old }
        ensures made { IfOk result (Continues self.old (Piece.Record i) piece.new.items) }
        ensures unmade { OnErr result (piece.new.items ≡ []) }
    {
        if !self.list.write_rule(i, rule)? {
            return self.table(alloc, 0, rule, piece);
        }
        if i == self.layout.placed {
            place_record(&mut self.layout, rule)?;
        }
        append_record(piece, &rule.key, &rule.code)?;
        Ok(Some(Piece::Record(i + 1)))
    }

    // The same for the first table from this one on that has records.
    fn table(
        &mut self,
        alloc: Global,
        first: usize,
        rule: &mut StoredRule,
        piece: &mut Vec<u8>,
    ) -> Result<Option<Piece>, AllocError>
        requires { piece.old.items ≡ [] }
        ensures same { self.new ≡ self.old }
        ensures made { IfOk result (Continues self.old (Piece.Table first) piece.new.items) }
        ensures unmade { OnErr result (piece.new.items ≡ []) }
    {
        place_all(&mut self.list, &mut self.layout, rule)?;
        next_table(alloc, &self.layout.tables, first, piece)
    }

    /// The pointers of all tables. The bytes of `rule` are overwritten.
    pub fn header(&mut self, alloc: Global, rule: &mut StoredRule) -> Result<Vec<u8>, AllocError>
        ensures same { self.new ≡ self.old }
        ensures header { IfOk result (λ header. header.items ≡ header_bytes (pointers_of (stored self.old))) }
    {
        place_all(&mut self.list, &mut self.layout, rule)?;
        let pointers = self.layout.tables.pointers(alloc, self.layout.end)?;
        header(alloc, &pointers)
    }
}

/// The piece of the first table from this one on that has records, and the position of the next piece. All rules have a
/// position by then.
fn next_table(
    alloc: Global,
    tables: &Tables,
    first: usize,
    piece: &mut Vec<u8>,
) -> Result<Option<Piece>, AllocError>
    requires { piece.old.items ≡ [] }
    ensures made { IfOk result (λ next. (rules : List Rule) → HoldsByTable tables.now (entries_of (stored rules))
        → Continues rules (Piece.Table first) piece.new.items next) }
    ensures unmade { OnErr result (piece.new.items ≡ []) }
{
    for t in first..TABLE_COUNT {
        let entries = tables.get(t);
        if !entries.is_empty() {
            *piece = table_piece(alloc, entries)?;
            return Ok(Some(Piece::Table(t + 1)));
        }
    }
    Ok(None)
}

impl Pieces {
    ghost use Rattle.rules_install.specs.Filled.{IsWritten};

    /// A law: the file of the list is compiled of it.
    pub fn written(&self)
        ensures { IsWritten self.now }
    {
        // the call tells the proof that the file has fewer than 2^32 bytes
        let _ = &self.list;
        cdb_files::laws::pieces();
    }
}
