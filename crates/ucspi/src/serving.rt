//! The server: it lets connections in, workers serve them, and it comes to an end.
//!
//! This stands in the program's crate because whoever names `Workers::serve_through` loads all proofs behind it.
ghost use Rattle.std.specs.Prelude.{◌≡◌, false};
ghost use Rattle.server_yard.specs.Yards.{yard_books, yard_server};
ghost use Rattle.tcp_service.specs.Openings.{IsFoundFor};
ghost use Rattle.tcp_service.specs.Servings.{MayStartEach};
ghost use Rattle.ucspi.specs.Asked.{AreLimits};

use crate::ends::{Finished, end_of};
use child_jobs::Plan;
use rule_lookup::WhenMissing;
use server_parts::ServerFailure;
use server_words::ConnectionLimits;
use std::alloc::Global;
use std::sync::Mutex;
use std::thread::Threads;
use std::time::Clock;
use stream_tools::SearchPath;
use tcp_connections::{Accepted, Acceptor, HostNames, Reserve, Supply, Workers};
use tcp_service::{Context, Host, LoggedYard, Server};
use tcp_streams::Passing;

/// What a server has but for its socket, its yard and its log.
#[derive(Drop)]
pub(crate) struct ServerParts<'a> {
    /// The program of its connections, their variables and the banner.
    pub plan: Plan,
    /// Where programs are looked for.
    pub search: SearchPath,
    /// How the ends of connections get their names.
    pub names: HostNames,
    /// How many connections there may be at once, in all and from one address, and after how many the server ends.
    pub limits: ConnectionLimits,
    /// What the system gives it for its connections.
    pub supply: Supply,
    /// The process that is kept in reserve for their programs.
    pub reserve: Reserve,
    /// How the bytes of connections pass.
    pub passing: Passing<'a>,
}

/// Serves connections in this yard, which has had no event and notes no installations, until it comes to an end, and
/// waits until all that were let in are over. Its log is told of them. It answers how the tool ends by that (`end_of`).
///
/// Each connection is served by the plan of these parts: it is asked for nothing but the plan's program, once its
/// client was greeted, with the variables of a decision to allow. It opens `rules` for itself, and `missing` is what is
/// decided where no file stands. Once no more connections are let in, the acceptor is dropped.
///
/// # Errors
/// Those of `end_of`.
pub(crate) fn serve<'a, H, A>(
    rt: &'a H::Runtime,
    alloc: Global,
    acceptor: A,
    logged: LoggedYard<H::Places, H::Lines>,
    rules: &'a H::Rules,
    missing: WhenMissing,
    parts: &'a ServerParts<'_>,
) -> Result<Finished, ServerFailure>
where
    H: Host + Send + Sync,
    H::Runtime: Threads + Clock + Sync,
    H::Places: Send + Sync,
    H::File: Send,
    H::Folder: Send,
    H::Rules: Sync,
    H::Lines: Send,
    H::Connection: Send,
    H::Job: Send,
    A: Acceptor<Came = Accepted<H::Connection>> + Send + Drop,
    requires new { (yard_books logged.yard).count ≡ 0 }
    requires limits { AreLimits parts.now.limits
        (yard_server logged.yard).limit (yard_server logged.yard).per_address }
    requires serves { H.Places.installs ≡ false }
    requires most { H.Places.parts ≡ parts.now.limits.connections }
    requires count { H.Places.admissions ≡ parts.now.limits.count }
    requires missing { missing ≡ H.Places.missing }
    requires may { MayStartEach (IsFoundFor H.Rules.Rules H.Folder.Dir rules.now H.Places.missing)
        H.File.honest H.File.sound parts.now.plan H.Connection.contents H.Connection.may }
{
    let LoggedYard { yard, mut log } = logged;
    let _ = log.status(yard.live());
    let shared = Mutex::new(LoggedYard { yard, log });
    let server = Server::<H> {
        context: Context {
            rt,
            alloc,
            names: &parts.names,
            shared: &shared,
            rules,
            missing,
            plan: &parts.plan,
        },
    };
    let (limits, supply) = (parts.limits, parts.supply);
    let served = Workers::<H::Runtime, Server<'_, H>, A>::serve_through(
        rt,
        alloc,
        acceptor,
        &server,
        limits.connections,
        limits.count,
        supply,
        &parts.reserve,
    );
    drop(server);
    let LoggedYard { yard, log } = shared.into_inner();
    drop(log);
    end_of(served, yard)
}
