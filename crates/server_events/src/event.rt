//! Events, the stages of a connection, and what each event does: when it may happen, the state that it leads to, and
//! the report after it.
ghost use Rattle.std.specs.Prelude.{◌≡◌, ◌↔◌, true, IsTrue, OnOk, OnErr};
ghost use Rattle.server_events.specs.Journals.{next_report};
ghost use Rattle.server_events.specs.Reports.{is_admission};
ghost use Rattle.server_events.specs.ServerState.{after, may_come, may_happen, phase_after};

use crate::report::Report;
use crate::state::State;
use child_jobs::{DropCause, StartFault, Status};
use dir_calls::Phase;
use rule_lookup::{Decision, Peer, Verdict};
use std::alloc::AllocError;

/// How far a connection has come.
#[derive(Clone, Copy, PartialEq, Eq)]
pub enum Stage {
    /// It was let in.
    Admitted,
    /// The rules file was opened for it, or found absent.
    Opened,
    /// The rules allow or deny it.
    Decided(Verdict),
    /// Its child runs.
    Started,
    /// Its child could not be waited for. It counts as alive until a stop.
    Retired,
}

/// One thing that happened.
///
/// A serial is the number of a connection, from 1. Each kind says when it may happen.
#[derive(Drop)]
pub enum Event {
    /// A connection was let in. It may happen if its serial is one above the last, fewer connections than the limit are
    /// alive, and fewer of these than the limit per address have this peer's address.
    Admitted { serial: u64, peer: Peer },
    /// The rules file was opened for a connection, or found absent. It finds the connection `Admitted`.
    Opened { serial: u64, there: bool },
    /// A connection was decided. It finds the connection `Opened`.
    Decided { serial: u64, decision: Decision },
    /// The child of a connection was started. It finds the connection `Decided`, and allowed.
    Started { serial: u64 },
    /// The child of a connection could not be started. It finds the connection `Decided`, and allowed.
    StartFailed { serial: u64, fault: StartFault },
    /// A child ended. It finds the connection `Started`.
    Ended { serial: u64, status: Status },
    /// A child could not be waited for. It finds the connection `Started`.
    Retired { serial: u64 },
    /// A connection was given up before a child was started. It finds the connection `Admitted`, `Opened` or `Decided`.
    Dropped { serial: u64, cause: DropCause },
    /// An installation came to a phase. It may happen if this phase may come next. The first phase may come at any
    /// time, in place of an installation under way.
    Stepped { phase: Phase },
    /// An installation failed on its way to a phase. It may happen if this phase may come next.
    StepFailed { phase: Phase },
    /// All connections and the installation under way ended at once. It may happen at any time. Serials go on.
    Stop,
}

impl State {
    /// Whether an event may happen now, by the table of events.
    pub fn may_happen(&self, event: &Event) -> bool
        ensures { result ≡ may_happen self.now event.now }
    {
        match event {
            Event::Admitted { serial, peer } => self.may_admit(*serial, peer),
            Event::Opened { serial, .. } => matches!(self.stage(*serial), Some(Stage::Admitted)),
            Event::Decided { serial, .. } => matches!(self.stage(*serial), Some(Stage::Opened)),
            Event::Started { serial } | Event::StartFailed { serial, .. } => {
                matches!(self.stage(*serial), Some(Stage::Decided(Verdict::Allow)))
            }
            Event::Ended { serial, .. } | Event::Retired { serial } => {
                matches!(self.stage(*serial), Some(Stage::Started))
            }
            Event::Dropped { serial, .. } => {
                matches!(
                    self.stage(*serial),
                    Some(Stage::Admitted | Stage::Opened | Stage::Decided(_))
                )
            }
            Event::Stepped { phase } | Event::StepFailed { phase } => may_come(self.phase, *phase),
            Event::Stop => true,
        }
    }

    /// Applies an event that may happen now. Only an admission may want memory, and without memory nothing changes.
    pub fn apply(&mut self, event: &Event) -> Result<(), AllocError>
        requires may_happen { may_happen self.old event.now ≡ true }
        ensures applied { OnOk result (self.new ≡ after self.old event.now) }
        ensures unchanged { OnErr result (self.new ≡ self.old) }
        ensures memory { OnErr result (is_admission event.now ≡ true) }
    {
        match event {
            Event::Admitted { serial, peer } => {
                let peer = peer.copy()?;
                self.admit(*serial, peer)?;
            }
            Event::Opened { serial, .. } => self.set_stage(*serial, Stage::Opened),
            Event::Decided { serial, decision } => {
                self.set_stage(*serial, Stage::Decided(decision.verdict));
            }
            Event::Started { serial } => self.set_stage(*serial, Stage::Started),
            Event::StartFailed { serial, .. }
            | Event::Ended { serial, .. }
            | Event::Dropped { serial, .. } => self.remove(*serial),
            Event::Retired { serial } => self.set_stage(*serial, Stage::Retired),
            Event::Stepped { phase } => self.set_phase(phase_after(*phase)),
            Event::StepFailed { .. } => self.set_phase(None),
            Event::Stop => self.stop(),
        }
        Ok(())
    }
}

fn may_come(before: Option<Phase>, phase: Phase) -> bool
    ensures { result ≡ may_come before phase }
{
    match (before, phase) {
        (_, Phase::Fresh) => true,
        (Some(Phase::Fresh), Phase::Filling) => true,
        (Some(Phase::Filling), Phase::Filling | Phase::Synced) => true,
        (Some(Phase::Synced), Phase::Named) => true,
        (Some(Phase::Named), Phase::Done) => true,
        _ => false,
    }
}

fn phase_after(phase: Phase) -> Option<Phase>
    ensures { result ≡ phase_after phase }
{
    match phase {
        Phase::Done => None,
        under_way => Some(under_way),
    }
}

/// The report after one more event.
pub(crate) fn next(report: Report, event: &Event) -> Report
    ensures { result ≡ next_report report event.now }
{
    match event {
        Event::Admitted { .. } => {
            let live = report.live.saturating_add(1);
            Report {
                admitted: report.admitted.saturating_add(1),
                live,
                retired: report.retired,
                most: live.max(report.most),
            }
        }
        Event::StartFailed { .. } | Event::Ended { .. } | Event::Dropped { .. } => Report {
            live: report.live.saturating_sub(1),
            ..report
        },
        Event::Retired { .. } => Report {
            retired: report.retired.saturating_add(1),
            ..report
        },
        Event::Stop => Report {
            live: 0,
            retired: 0,
            ..report
        },
        Event::Opened { .. }
        | Event::Decided { .. }
        | Event::Started { .. }
        | Event::Stepped { .. }
        | Event::StepFailed { .. } => report,
    }
}
