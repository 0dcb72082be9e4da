//! What a server stands on, and where its rules stand.
ghost use Rattle.std.specs.Prelude.{◌≡◌, ℕ, List, Option, IfOk, option_copied};

use child_jobs::{Job, Launcher};
use dir_calls::{Dir, Name, RulesFile};
use server_yard::Places;
use std::alloc::{AllocError, Global};
use std::io::Write;
use std::sync::Wait;

/// What a server's connections are decided and told by. It is a name for these types together, and has no values.
pub trait ServiceGround {
    /// The runtime.
    type Runtime: Wait;

    /// The ledger of the places of connections.
    type Places: Places;

    /// A rules file that a connection has opened.
    type File: RulesFile + Drop;

    /// The folder in which it opens the file. Each connection has a value of its own.
    type Folder: Dir<File = Self::File> + Drop;

    /// Where the rules stand.
    type Rules: Rules<Self::Folder>;

    /// What takes the lines of the log.
    type Lines: Write + Drop;
}

/// What a server stands on: a type for each thing that its connections are served with. A host is a name for these
/// types together, and has no values. Where connections come from is a parameter beside it.
///
/// Each type costs the check of each function over a host some time, so most functions are over a `ServiceGround`.
/// `Sync` and `Send` are asked for where threads start: the prover takes no method of a trait that calls a function
/// with such a bound.
pub trait Host: ServiceGround {
    /// A connection: a writer to its client, which starts its program. It is closed once it is let go.
    type Connection: Write + Launcher<Job = Self::Job> + Drop;

    /// The program of a connection while it runs.
    type Job: Job;
}

/// Where the rules stand. Each connection opens them for itself, and nobody else waits meanwhile.
pub trait Rules<D> {
    /// Whether a folder is theirs, as the connection with this serial number has it.
    ghost its: { Self → (serial : ℕ) → D → Type 0 };

    /// Their name in it, if they have one.
    ghost named: { Self → Option (List ℕ) };

    /// Their folder, for the connection with this serial number. The system is not called.
    ///
    /// # Errors
    /// There was no memory.
    fn folder(&self, alloc: Global, serial: u64) -> Result<D, AllocError>
        ensures its { IfOk result (its self.now serial) };

    /// Their name in it; without a name there are no rules.
    fn name(&self) -> Option<&Name>
        ensures named { option_copied result ≡ named self.now };

    /// The system's number of the error (`errno`) by which the last call of a folder or of its file failed, if it has
    /// one.
    fn error(&self, folder: &D) -> Option<i32>;

    /// The path of the rules file as it was given; empty where there is none.
    fn path(&self) -> &str;
}
