//! What all connections of a server share.
ghost use Rattle.std.specs.Prelude.{◌≡◌, IfOk, OnOk};
ghost use Rattle.server_log.specs.Reports.{Tells, TellsItsClient, reported_answer};
ghost use Rattle.server_yard.specs.Evidence.{asked_event, made_at};
ghost use Rattle.server_yard.specs.Yards.{yard_books, yard_server};
ghost use Rattle.tcp_service.specs.Openings.{IsFoundFor};
ghost use Rattle.tcp_service.specs.Servings.{MayStartEach};

use crate::host::{Host, ServiceGround};
use child_jobs::Plan;
use rule_lookup::WhenMissing;
use server_log::{Log, Reported, Told};
use server_yard::{Made, OutOfTurn, Places, Yard};
use std::alloc::Global;
use std::io::Write;
use std::sync::Mutex;
use tcp_connections::HostNames;

/// The yard in which all connections of a server make their events, and the log that is told of them. They are under
/// one lock, so that the lines of the log stand in the order of events.
#[derive(Drop)]
pub struct LoggedYard<L: Places, W> {
    /// The yard.
    pub yard: Yard<L>,
    /// Its log.
    pub log: Log<W>,
}

impl<L: Places, W: Write> LoggedYard<L, W> {
    /// Tells the log what the yard has just answered of an event. Nothing else happened there since.
    pub(crate) fn report(&mut self, answer: Result<Made, OutOfTurn>, told: Told<'_>) -> Reported
        requires its { Tells told (asked_event answer) }
        requires client { OnOk answer (TellsItsClient told (yard_server self.old.yard).connections) }
        requires just { IfOk answer (λ made. made_at made ≡ (yard_books self.old.yard).count) }
        ensures same { reported_answer result ≡ answer }
        ensures yard { self.new.yard ≡ self.old.yard }
    {
        self.log.report(&self.yard, answer, told)
    }
}

/// What all connections of a server are named, decided and told by.
#[derive(Drop)]
pub struct Context<'a, G: ServiceGround> {
    /// The runtime.
    pub rt: &'a G::Runtime,
    /// What gives memory.
    pub alloc: Global,
    /// How their ends get their names.
    pub names: &'a HostNames,
    /// The yard and the log of their events.
    pub shared: &'a Mutex<LoggedYard<G::Places, G::Lines>>,
    /// Where the rules stand, which each connection opens for itself.
    pub rules: &'a G::Rules,
    /// What is decided where no rules file stands.
    pub missing: WhenMissing,
    /// The program, its variables and the banner.
    pub plan: &'a Plan,
    pub ghost without: { missing ≡ G.Places.missing },
}

/// What all connections of a server share. A connection may start its program once it was greeted and allowed (`may`):
/// code that is generic in the host knows of no other start.
#[derive(Drop)]
pub struct Server<'a, H: Host> {
    /// What connections are named, decided and told by.
    pub context: Context<'a, H>,
    pub ghost may: { MayStartEach (IsFoundFor H.Rules.Rules H.Folder.Dir context.rules.now H.Places.missing)
        H.File.honest H.File.sound context.plan.now H.Connection.contents H.Connection.may },
}
