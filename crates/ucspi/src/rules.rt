//! Where the rules of a server stand.
ghost use Rattle.std.specs.Prelude.{IfErr, IfOk};
ghost use Rattle.dir_disk.specs.OsParts.{os_disk, system_folder};
ghost use Rattle.server_parts.specs.Asked.{FailsRules};
ghost use Rattle.server_parts.specs.RulesPaths.{IsFolderOfPath};
ghost use Rattle.ucspi.specs.Rules.{AreRulesOf, rules_name, rules_path};

use dir_calls::Name;
use dir_disk::OsDir;
use rule_lookup::WhenMissing;
use server_parts::{ServerFailure, rules_folder, rules_name};
use server_words::ServerWords;
use std::alloc::{AllocError, Global};
use std::fs::{File, Files};
use tcp_service::Rules;

/// Where the rules of a server stand in the system, and what is decided if there is no file. Only `by_words` makes one.
#[derive(Drop)]
pub(crate) struct SystemRules<'a, R> {
    // the system's files
    files: &'a R,
    /// The path of the file as it was given; empty if there is none.
    path: &'a str,
    name: Option<Name>,
    /// What is decided if there is no file.
    pub missing: WhenMissing,
}

impl<'a, R: Files<File = File>> SystemRules<'a, R> {
    /// Those of the server with these words. Their folder is looked at. Without `-x` there are no rules, and every
    /// connection is allowed.
    ///
    /// # Errors
    /// `Device` if the folder can't be used, or the last part of the path is no name; `OutOfMemory`.
    pub fn by_words(
        alloc: Global,
        files: &'a R,
        words: &ServerWords<'a>,
    ) -> Result<SystemRules<'a, R>, ServerFailure>
        ensures asked { IfOk result (AreRulesOf words.now) }
        ensures refused { IfErr result (λ failure. FailsRules failure.fault) }
    {
        let Some(path) = words.rules() else {
            return Ok(SystemRules {
                files,
                path: "",
                name: None,
                missing: WhenMissing::Allow,
            });
        };
        let name = Some(rules_name(alloc, files, path)?);
        let missing = words.missing();
        Ok(SystemRules {
            files,
            path,
            name,
            missing,
        })
    }
}

impl<'a, R: Files<File = File>> Rules<OsDir<&'a R>> for SystemRules<'a, R> {
    ghost its = { λ rules _ folder. IsFolderOfPath (rules_path rules) (system_folder (os_disk folder)) };

    ghost named = { rules_name };

    fn folder(&self, alloc: Global, _serial: u64) -> Result<OsDir<&'a R>, AllocError> {
        rules_folder(alloc, self.files, self.path)
    }

    fn name(&self) -> Option<&Name> {
        self.name.as_ref()
    }

    fn error(&self, folder: &OsDir<&'a R>) -> Option<i32> {
        Some(folder.failure()?.error)
    }

    fn path(&self) -> &str {
        self.path
    }
}
