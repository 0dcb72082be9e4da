//! How a connection is decided: by what it finds when it opens the rules. No other connection waits while the rules are
//! opened, read or closed.
ghost use Rattle.std.specs.Option.{option_map};
ghost use Rattle.std.specs.Prelude.{◌≡◌, [], IfErr, IfOk};
ghost use Rattle.server_yard.specs.Passes.{pass_serial};
ghost use Rattle.tcp_service.specs.Ends.{noted_event};
ghost use Rattle.tcp_service.specs.Openings.{IsFoundFor, StoodFor, cause_of, cause_of_open, opening_of};
ghost use Rattle.tcp_service.specs.Servings.{FailsFor, GivesUp, IsDecided};

use crate::guest::{Greeted, Identity};
use crate::host::{Rules, ServiceGround};
use crate::reasons::{GivenUp, Reason};
use crate::server::Context;
use crate::telling::Noted;
use child_jobs::{DropCause, Environment, build};
use dir_calls::{Dir, DirFault};
use rule_lookup::{DecideFault, FindFault, Peer, Verdict, decide};
use server_yard::Pass;

/// A connection that was decided: the evidence that this is noted, the verdict, and the variables for its program.
pub(crate) struct Judged {
    pub noted: Noted,
    pub verdict: Verdict,
    pub environment: Environment,
}

// What was opened for a connection: its pass, and the folder of the rules, if they have a name there.
type Opened<G> = (
    Pass<<G as ServiceGround>::Places, <G as ServiceGround>::File>,
    Option<<G as ServiceGround>::Folder>,
);

// The cause with which a connection is dropped if the rules can't be opened.
fn cause_of_open(fault: DirFault) -> DropCause
    ensures { result ≡ cause_of_open fault }
{
    match fault {
        DirFault::NoScratch | DirFault::NoName | DirFault::Device => DropCause::Directory,
        DirFault::OutOfMemory => DropCause::Memory,
    }
}

// The cause with which a connection is dropped if its decision fails.
fn cause_of(fault: DecideFault) -> DropCause
    ensures { result ≡ cause_of fault }
{
    match fault {
        DecideFault::Find(FindFault::Device) => DropCause::ReadFault,
        DecideFault::Find(FindFault::OutOfMemory) | DecideFault::OutOfMemory => DropCause::Memory,
        DecideFault::Find(FindFault::Short) | DecideFault::Code(_) => DropCause::Damaged,
    }
}

impl<G: ServiceGround> Context<'_, G> {
    ghost use Rattle.tcp_service.specs.Greetings.{greeted_identity, greeted_with};

    // What stands under the name of the rules, for the connection with this serial number, and the folder in which it
    // was opened. Without a name no call of a folder is made.
    #[tactic(auto, using(crate::proofs::Found::stood_there))]
    fn find(&self, serial: u64) -> Result<(Option<G::File>, Option<G::Folder>), GivenUp>
        ensures found { IfOk result (λ r. StoodFor G.Rules.Rules G.Folder.Dir self.now.rules.now serial
            (option_map G.File.bytes r.0)) }
        ensures given_up { IfErr result (λ up. GivesUp (λ _. ⊥) [] up.cause) }
    {
        let Some(name) = self.rules.name() else {
            return Ok((None, None));
        };
        let Ok(mut folder) = self.rules.folder(self.alloc, serial) else {
            return Err(GivenUp::by(DropCause::Memory));
        };
        match folder.open(self.alloc, name) {
            Ok(file) => Ok((file, Some(folder))),
            Err(fault) => {
                let error = self.rules.error(&folder);
                drop(folder);
                Err(GivenUp {
                    cause: cause_of_open(fault),
                    reason: Reason::of_error(self.alloc, error),
                })
            }
        }
    }

    // Opens the rules for a connection, after its client was greeted. If it may not open them now, that counts as a
    // fault of the directory.
    #[tactic(auto, using(crate::proofs::Found::found_for))]
    fn open<X>(&self, greeted: &Greeted<'_, X>) -> Result<Opened<G>, GivenUp>
        requires greeted { greeted_with greeted.now ≡ self.now.plan.now.banner }
        ensures its { IfOk result (λ r. pass_serial r.0 ≡ (greeted_identity greeted.now).serial) }
        ensures found { IfOk result (λ r. IsFoundFor G.Rules.Rules G.Folder.Dir self.now.rules.now G.Places.missing
            (greeted_identity greeted.now).serial (opening_of G.File.bytes G.Places.missing r.0)) }
        ensures given_up { IfErr result (λ up. GivesUp (λ _. ⊥) [] up.cause) }
    {
        let serial = greeted.identity.serial;
        let (file, folder) = self.find(serial)?;
        match self.shared.lock(self.rt).yard.opened(serial, file) {
            Ok((pass, _)) => Ok((pass, folder)),
            Err(_) => {
                drop(folder);
                Err(GivenUp::by(DropCause::Directory))
            }
        }
    }

    /// Opens the rules for a connection that was greeted, decides it by them, makes the variables for its program, and
    /// notes the decision.
    ///
    /// # Errors
    /// The rules can't be opened or read, or are damaged; or there was no memory. It is not decided. If it may not be
    /// decided now, that counts as a fault of the directory.
    #[tactic(auto, using(crate::proofs::Served::given_up_anyway))]
    pub(crate) fn decide<X>(&self, greeted: &Greeted<'_, X>) -> Result<Judged, GivenUp>
        requires greeted { greeted_with greeted.now ≡ self.now.plan.now.banner }
        ensures judged { IfOk result (λ judged. IsDecided
            (IsFoundFor G.Rules.Rules G.Folder.Dir self.now.rules.now G.Places.missing)
            G.File.honest G.File.sound (greeted_identity greeted.now) self.now.plan.now
            (noted_event judged.noted) judged.verdict judged.environment) }
        ensures given_up { IfErr result (λ up. GivesUp (FailsFor
            (IsFoundFor G.Rules.Rules G.Folder.Dir self.now.rules.now G.Places.missing (greeted_identity greeted.now).serial)
            G.File.honest G.File.sound (greeted_identity greeted.now).peer) [] up.cause) }
    {
        let (pass, folder) = self.open(greeted)?;
        let Identity { peer, local, .. } = &greeted.identity;
        let decision = match decide(self.alloc, pass.source(), self.missing, peer) {
            Ok(decision) => decision,
            Err(fault) => {
                // (one more look at the rules takes the descriptor that this one had)
                drop(pass);
                return Err(self.given_up(cause_of(fault), folder, peer));
            }
        };
        drop(folder);
        let Ok(environment) = build(self.alloc, self.plan.inherited(), local, peer, &decision)
        else {
            drop(pass);
            drop(decision);
            return Err(GivenUp::by(DropCause::Memory));
        };
        let verdict = decision.verdict;
        let noted = self.decided(&pass, &greeted.identity, decision);
        drop(pass);
        match noted {
            Some(noted) => Ok(Judged {
                noted,
                verdict,
                environment,
            }),
            None => {
                drop(environment);
                Err(GivenUp::by(DropCause::Directory))
            }
        }
    }

    // A connection is given up for this cause, since its decision failed. The reason is the error of its last read in
    // this folder, or the rule that is damaged.
    fn given_up(&self, cause: DropCause, folder: Option<G::Folder>, peer: &Peer) -> GivenUp
        ensures { result.cause ≡ cause }
    {
        let (Some(mut folder), Some(name)) = (folder, self.rules.name()) else {
            return GivenUp::by(cause);
        };
        let reason = match cause {
            DropCause::ReadFault => Reason::of_error(self.alloc, self.rules.error(&folder)),
            DropCause::Damaged => Reason::of_damage(self.alloc, &mut folder, name, peer),
            _ => None,
        };
        drop(folder);
        GivenUp { cause, reason }
    }
}
