//! Entries by their tables.
ghost use Rattle.std.specs.Prelude.{◌≡◌, ℕ, ◌<◌, List, [], OnErr, OnOk, IfOk};
ghost use Rattle.cdb_files.specs.Format.{Pair};
ghost use Rattle.cdb_files.specs.Slots.{entries_in};
ghost use Rattle.cdb_files.specs.Tables.{AddsEntry, ArePointers, AreTablesOf, HoldsByTable};

use crate::layout::TABLE_COUNT;
use std::alloc::{AllocError, Global};
use std::marker::Model;

/// The hashes and positions of records, in 256 lists: a list for each table, which the hash names.
#[derive(Drop)]
pub struct Tables {
    lists: Vec<Vec<(u32, u32)>>,
}

impl Model for Tables {
    ghost use Rattle.std.specs.Prelude.{◌≡◌, ℕ, List, length, map};

    ghost Value = { List (List (ℕ × ℕ)) };

    ghost view = { λ t. map (λ list. list.items) t.lists.items };

    ghost invariant = { λ t. length t.lists.items ≡ 256 };
}

impl Tables {
    /// 256 empty lists.
    ///
    /// # Errors
    /// There was no memory.
    pub fn new(alloc: Global) -> Result<Tables, AllocError>
        ensures { IfOk result (λ tables. HoldsByTable tables []) }
    {
        let mut lists = Vec::with_capacity(alloc, TABLE_COUNT)?;
        for _table in 0..TABLE_COUNT {
            lists.push(Vec::new(alloc))?;
        }
        Ok(Tables { lists })
    }

    /// Appends an entry to the list of its table.
    ///
    /// # Errors
    /// There was no memory. Nothing changed.
    pub fn push(&mut self, entry: (u32, u32)) -> Result<(), AllocError>
        ensures added { OnOk result (AddsEntry entry self.old self.new) }
        ensures unchanged { OnErr result (self.new ≡ self.old) }
    {
        let table = (entry.0 % 256) as usize;
        self.lists[table].push(entry)?;
        Ok(())
    }

    /// The entries of a table, in order.
    pub fn get(&self, table: usize) -> &[(u32, u32)]
        requires { table < 256 }
        ensures { (entries : List (ℕ × ℕ)) → HoldsByTable self.now entries → result.now ≡ entries_in table entries }
    {
        &self.lists[table]
    }

    /// The pointers of all tables: where each stands, and how many slots it has. The first table stands at `first`,
    /// behind the records.
    ///
    /// # Errors
    /// There was no memory.
    pub fn pointers(&self, alloc: Global, first: u32) -> Result<Vec<(u32, u32)>, AllocError>
        requires { (pairs : List Pair) × AreTablesOf pairs self.now first }
        ensures { IfOk result (λ found. ArePointers self.now first found.items) }
    {
        let mut pointers = Vec::with_capacity(alloc, TABLE_COUNT)?;
        let mut position = first;
        for table in 0..TABLE_COUNT {
            let slots = 2 * self.get(table).len() as u32;
            pointers.push((position, slots))?;
            position += 8 * slots;
        }
        Ok(pointers)
    }
}
