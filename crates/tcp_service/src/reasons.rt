//! What the log tells of why a connection was denied or given up.
ghost use Rattle.std.specs.Prelude.{◌≡◌};

use byte_text::words_of_error;
use cdb_files::CdbFile;
use child_jobs::DropCause;
use dir_calls::{Dir, Name};
use rule_lookup::{DecideFault, Decision, Found, Peer, RuleSource, Verdict, forms};
use server_log::Cause;
use std::alloc::Global;

/// Why a rules file that is not there can't be followed, in the words of the system.
const ABSENT: &str = "No such file or directory";

/// Why one that is there can't be followed.
const DAMAGED: &str = "damaged, or not compiled by tcprules";

/// What the log tells of why a connection was given up: what the system was asked for, or what is damaged, and how that
/// failed.
#[derive(Drop)]
pub(crate) enum Reason {
    /// The rules could not be opened or read; the system's words.
    Rules(String),
    /// The rule with this address is damaged.
    Rule(String),
}

/// Why a connection is given up undecided, and what the log tells of it.
#[derive(Drop)]
pub(crate) struct GivenUp {
    pub cause: DropCause,
    pub reason: Option<Reason>,
}

impl GivenUp {
    /// Given up for this cause, of which the log tells nothing more.
    pub(crate) fn by(cause: DropCause) -> GivenUp
        ensures { result.cause ≡ cause }
    {
        GivenUp {
            cause,
            reason: None,
        }
    }
}

impl Reason {
    /// The rules could not be opened or read by this error of the system, if it has a number and there is memory.
    pub(crate) fn of_error(alloc: Global, error: Option<i32>) -> Option<Reason> {
        Some(Reason::Rules(words_of(alloc, error)?))
    }

    /// The rule that is damaged: the first of a client's addresses under which the file of this name in a folder has
    /// something now, if that is no instruction. `None` too if the file can't be read, or there is no memory.
    pub(crate) fn of_damage<D: Dir>(
        alloc: Global,
        folder: &mut D,
        name: &Name,
        peer: &Peer,
    ) -> Option<Reason> {
        let file = CdbFile::new(folder.open(alloc, name).ok()??);
        for address in forms(alloc, peer).ok()? {
            match file.find_instr(alloc, address.as_bytes()) {
                Ok(None) => {}
                Err(DecideFault::Code(_)) => return Some(Reason::Rule(address)),
                _ => return None,
            }
        }
        None
    }

    /// The cause for the log, for rules at this path.
    pub(crate) fn cause<'a>(&'a self, rules: &'a str) -> Cause<'a> {
        match self {
            Reason::Rules(why) => Cause::new(rules.as_bytes(), why.as_str()),
            Reason::Rule(address) => Cause::new(address.as_bytes(), "damaged rule"),
        }
    }
}

/// The system's words of an error with this number, if there is one and there is memory.
pub(crate) fn words_of(alloc: Global, error: Option<i32>) -> Option<String> {
    words_of_error(alloc, error?).ok()
}

/// What a person is told of a connection that was denied because there is no rules file.
pub(crate) fn cause_of_absence<'a>(rules: &'a str, decision: &Decision) -> Option<Cause<'a>> {
    match (decision.verdict, &decision.found) {
        (Verdict::Deny, Found::NoFile) => Some(Cause::new(rules.as_bytes(), ABSENT)),
        _ => None,
    }
}

/// What a person is told of a connection that was given up because the rules file is damaged.
pub(crate) fn cause_of_damage(rules: &str, cause: DropCause) -> Option<Cause<'_>> {
    match cause {
        DropCause::Damaged => Some(Cause::new(rules.as_bytes(), DAMAGED)),
        _ => None,
    }
}
