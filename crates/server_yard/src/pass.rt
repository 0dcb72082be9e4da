//! What a connection found when it opened the rules.
ghost use Rattle.std.specs.Prelude.{◌≡◌, option_copied};

use cdb_files::CdbFile;
use dir_calls::RulesFile;
use std::marker::PhantomData;
use std::sync::ledger::Ledger;

/// The rules file that a connection opened, or that there was none. It keeps its bytes, whatever becomes of the name.
/// Only `Yard::opened` makes one.
#[derive(Drop)]
pub struct Pass<L: Ledger, F: RulesFile + Drop> {
    pub(crate) serial: u64,
    pub(crate) file: Option<CdbFile<F>>,
    pub(crate) yard: PhantomData<L>,
}

impl<L: Ledger, F: RulesFile + Drop> Pass<L, F> {
    ghost use Rattle.server_yard.specs.Passes.{pass_file, pass_serial};

    /// The file that decides, if there is one.
    pub fn source(&self) -> Option<&CdbFile<F>>
        ensures { option_copied result ≡ pass_file self.now }
    {
        match &self.file {
            Some(file) => Some(file),
            None => None,
        }
    }

    /// The serial of the connection that opened it.
    pub fn serial(&self) -> u64
        ensures { result ≡ pass_serial self.now }
    {
        self.serial
    }
}
