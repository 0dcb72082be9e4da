//! The layout of records, as they are made.
ghost use Rattle.std.specs.Prelude.{◌≡◌, ◌+◌, ◌^◌, ◌<◌, length, OnErr, OnOk};
ghost use Rattle.cdb_files.specs.Format.{hash_of};
ghost use Rattle.cdb_files.specs.Tables.{AddsEntry};
ghost use Rattle.rules_install.specs.Layout.{ArePlaced};

use cdb_files::layout::LENGTHS_LENGTH;
use cdb_files::{Tables, hash};
use rule_lines::{RuleList, StoredRule};
use std::alloc::AllocError;

/// The layout of the records of the first rules of a list.
#[derive(Drop)]
pub struct Layout {
    /// The hash and the position of each record, by their tables.
    pub tables: Tables,
    /// How many rules have a position.
    pub placed: usize,
    /// Where the next record stands.
    pub end: u32,
}

/// Gives the record of a rule the next position.
///
/// # Errors
/// There was no memory. Nothing changed then.
pub fn place_record(layout: &mut Layout, rule: &StoredRule) -> Result<(), AllocError>
    requires fits { layout.old.end + 8 + length rule.now.key.items + length rule.now.code.items < 2 ^ 32 }
    requires few { layout.old.placed < 2 ^ 32 }
    ensures tables { OnOk result (AddsEntry (hash_of rule.now.key.items, layout.old.end) layout.old.tables layout.new.tables) }
    ensures end { OnOk result (layout.new.end
        ≡ layout.old.end + 8 + length rule.now.key.items + length rule.now.code.items) }
    ensures placed { OnOk result (layout.new.placed ≡ layout.old.placed + 1) }
    ensures unchanged { OnErr result (layout.new ≡ layout.old) }
{
    layout.tables.push((hash(&rule.key), layout.end))?;
    let length = LENGTHS_LENGTH + rule.key.len() + rule.code.len();
    layout.end += length as u32;
    layout.placed += 1;
    Ok(())
}

/// Gives a position to each rule of a list that has none yet. The bytes of `rule` are overwritten.
///
/// # Errors
/// There was no memory. Some more rules may have a position then.
pub fn place_all(
    list: &mut RuleList,
    layout: &mut Layout,
    rule: &mut StoredRule,
) -> Result<(), AllocError>
    requires { ArePlaced list.old layout.old }
    ensures same { list.new ≡ list.old }
    ensures placed { ArePlaced list.old layout.new }
    ensures all { OnOk result (layout.new.placed ≡ length list.old) }
{
    while list.write_rule(layout.placed, rule)? {
        place_record(layout, rule)?;
    }
    Ok(())
}
