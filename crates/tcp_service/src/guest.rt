//! A connection from its admission until its program is started.
//!
//! From then on only this module has the connection itself. It writes the banner to it once, before all else, and
//! nothing more. So no connection is decided, or its program started, before its client was greeted.
ghost use Rattle.std.specs.Prelude.{◌≡◌, ◌≢◌, [], IfErr, IfOk, IsTrue};
ghost use Rattle.child_jobs.specs.Runs.{job_of, place_of};

use byte_streams::write_out;
use child_jobs::{Environment, Launcher, Local, NotStarted, Place, Program, Running, start};
use rule_lookup::Peer;
use std::alloc::Global;
use std::io::Write;
use std::sync::ledger::Ledger;

/// Which connection it is.
#[derive(Drop)]
pub struct Identity {
    /// Its serial number.
    pub serial: u64,
    /// Its client.
    pub peer: Peer,
    /// The server's end.
    pub local: Local,
}

/// A guest, whose client was not greeted yet: a connection that was let in.
#[derive(Drop)]
pub struct Guest<X> {
    /// Which one it is.
    pub identity: Identity,
    connection: X,
}

/// A guest whose client was sent this banner. Only `Guest::greet` makes one.
#[derive(Drop)]
pub(crate) struct Greeted<'a, X> {
    /// Which one it is.
    pub identity: Identity,
    connection: X,
    banner: &'a [u8],
}

/// A guest to whose client not all of this banner could be sent. It is closed once it is let go. Only `Guest::greet`
/// makes one.
#[derive(Drop)]
pub(crate) struct CutShort<'a, X> {
    /// Which one it is.
    pub identity: Identity,
    connection: X,
    banner: &'a [u8],
}

impl<X> Guest<X> {
    ghost use Rattle.tcp_service.specs.Greetings.{guest_connection, guest_identity};

    /// This connection.
    pub(crate) fn new(identity: Identity, connection: X) -> Guest<X>
        ensures identity { guest_identity result ≡ identity }
        ensures connection { guest_connection result ≡ connection }
    {
        Guest {
            identity,
            connection,
        }
    }
}

impl<X: Write> Guest<X> {
    ghost use Rattle.tcp_service.specs.Greetings.{IsCutShort, IsGreeted, cut_connection, cut_identity, cut_with, greeted_connection, greeted_identity, greeted_with, guest_connection, guest_identity};

    /// Sends its client the banner.
    ///
    /// # Errors
    /// Not all of it could be sent.
    pub(crate) fn greet(self, banner: &[u8]) -> Result<Greeted<'_, X>, CutShort<'_, X>>
        ensures greeted { IfOk result (λ greeted. IsGreeted X.contents banner.now
            (guest_connection self) (greeted_connection greeted)) }
        ensures with { IfOk result (λ greeted. greeted_with greeted ≡ banner.now) }
        ensures same { IfOk result (λ greeted. greeted_identity greeted ≡ guest_identity self) }
        ensures cut { IfErr result (λ cut. IsCutShort X.contents banner.now
            (guest_connection self) (cut_connection cut)) }
        ensures cut_with { IfErr result (λ cut. cut_with cut ≡ banner.now) }
        ensures cut_same { IfErr result (λ cut. cut_identity cut ≡ guest_identity self) }
        ensures some { IfErr result (λ _. banner.now ≢ []) }
    {
        let Guest {
            identity,
            mut connection,
        } = self;
        match write_out(banner, &mut connection) {
            Ok(()) => Ok(Greeted {
                identity,
                connection,
                banner,
            }),
            Err(_) => Err(CutShort {
                identity,
                connection,
                banner,
            }),
        }
    }
}

impl<X: Launcher> Greeted<'_, X> {
    ghost use Rattle.tcp_service.specs.Greetings.{greeted_connection};

    /// Starts a program for it, with these variables, at a place.
    ///
    /// # Errors
    /// Those of `Launcher::start`, with the place handed back. The connection is closed.
    pub(crate) fn start<L: Ledger>(
        self,
        alloc: Global,
        place: Place<L>,
        program: &Program,
        environment: &Environment,
    ) -> Result<Running<L, X::Job>, (Place<L>, NotStarted)>
        requires may { IsTrue (X.may (greeted_connection self) program.now environment.now) }
        ensures place { IfOk result (λ running. place_of running ≡ place) }
        ensures program { IfOk result (λ running. X.Job.program (job_of running) ≡ program.now) }
        ensures environment { IfOk result (λ running. X.Job.environment (job_of running) ≡ environment.now) }
        ensures back { IfErr result (λ refused. refused.0 ≡ place) }
        ensures refused { IfErr result (λ refused.
            X.refuses (greeted_connection self.entry) program.now environment.now refused.1) }
    {
        let Greeted {
            identity,
            connection,
            banner: _,
        } = self;
        drop(identity);
        start(alloc, place, connection, program, environment)
    }
}
