//! The names of an installation.
ghost use Rattle.std.specs.Prelude.{◌≡◌, ◌≢◌, ◌↔◌, IfOk};

use dir_calls::Name;
use std::marker::Model;

/// The two names are the same.
#[derive(Clone, Copy)]
pub struct SameName;

/// The name of the rules file, and the scratch name, under which a new file is made.
#[derive(Drop)]
pub struct FileNames {
    cdb: Name,
    tmp: Name,
}

impl Model for FileNames {
    ghost use Rattle.std.specs.Prelude.{◌≢◌};
    ghost use Rattle.rules_install.specs.NamePair.{NamePair};

    ghost Value = { NamePair };

    ghost view = { λ names. record { cdb = names.cdb; tmp = names.tmp } };

    ghost invariant = { λ names. names.cdb ≢ names.tmp };
}

impl FileNames {
    /// The two names, of the rules file and of the scratch file. It takes no memory.
    ///
    /// # Errors
    /// The two names are the same.
    pub fn new(cdb: Name, tmp: Name) -> Result<FileNames, SameName>
        ensures names { IfOk result (λ names. names ≡ record { cdb = cdb; tmp = tmp }) }
        ensures same { (result ≡ Err record {}) ↔ (cdb ≡ tmp) }
    {
        if cdb.as_str() == tmp.as_str() {
            return Err(SameName);
        }
        Ok(FileNames { cdb, tmp })
    }

    /// The name of the rules file.
    pub fn cdb(&self) -> &Name
        ensures name { result.now ≡ self.now.cdb }
        ensures other { self.now.cdb ≢ self.now.tmp }
    {
        &self.cdb
    }

    /// The name of the scratch file.
    pub fn tmp(&self) -> &Name
        ensures name { result.now ≡ self.now.tmp }
        ensures other { self.now.cdb ≢ self.now.tmp }
    {
        &self.tmp
    }
}
