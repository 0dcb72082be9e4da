//! Compiled files (cdb), by the cdb format page: key and value pairs as a file that djb's tools read, and lookups in
//! such a file, whatever its bytes.
//!
//! `rules_install` uses the pieces (`append_record`, `table_piece`, `header`) and writes one after another. By
//! `laws::pieces` the joined pieces are a compiled file of the pairs, if it fits into 32 bits; by `laws::same_file`
//! there is one such file.
//!
//! The crates above use `CdbFile`, a source of pairs for `rule_lookup::decide`. On any bytes a lookup finds what the
//! definition says: an instruction, nothing, or damage. That is promised of files with honest reads; of a file of the
//! system it is a premise, and that its damage is reported is tested. `laws::first_pair` holds of each compiled file,
//! whoever wrote it. By `laws::same_as_list` the file of a rule text finds what the list of its rules finds.
#![tactic(auto)]

mod append;
pub mod cdb_file;
pub mod key_hash;
pub mod laws;
pub mod layout;
pub mod piece;
mod slot;
mod stage;
pub mod tables;
mod window;

pub use append::append_record;
pub use cdb_file::CdbFile;
pub use key_hash::hash;
pub use piece::{header, table_piece};
pub use tables::Tables;
