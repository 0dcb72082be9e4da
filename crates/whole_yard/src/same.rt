//! Whether two events are the same in all. No call here takes memory.
ghost use Rattle.std.specs.Prelude.{◌≡◌, ◌↔◌, IsTrue};

use rule_lookup::{Decision, Found, Setting};
use server_events::{Event, is_same_peer};

/// Whether two events are the same.
pub(crate) fn is_same_event(one: &Event, other: &Event) -> bool
    ensures { IsTrue result ↔ (one.now ≡ other.now) }
{
    match one {
        Event::Admitted { serial: n, peer: p } => {
            matches!(other, Event::Admitted { serial, peer } if serial == n && is_same_peer(p, peer))
        }
        Event::Opened {
            serial: n,
            there: t,
        } => { matches!(other, Event::Opened { serial, there } if serial == n && there == t) }
        Event::Decided {
            serial: n,
            decision: d,
        } => {
            matches!(other, Event::Decided { serial, decision } if serial == n && is_same_decision(d, decision))
        }
        Event::Started { serial: n } => matches!(other, Event::Started { serial } if serial == n),
        Event::StartFailed {
            serial: n,
            fault: f,
        } => { matches!(other, Event::StartFailed { serial, fault } if serial == n && fault == f) }
        Event::Ended {
            serial: n,
            status: s,
        } => { matches!(other, Event::Ended { serial, status } if serial == n && status == s) }
        Event::Retired { serial: n } => matches!(other, Event::Retired { serial } if serial == n),
        Event::Dropped {
            serial: n,
            cause: c,
        } => { matches!(other, Event::Dropped { serial, cause } if serial == n && cause == c) }
        Event::Stepped { phase: p } => matches!(other, Event::Stepped { phase } if phase == p),
        Event::StepFailed { phase: p } => {
            matches!(other, Event::StepFailed { phase } if phase == p)
        }
        Event::Stop => matches!(other, Event::Stop),
    }
}

// Whether two decisions are the same.
fn is_same_decision(one: &Decision, other: &Decision) -> bool
    ensures { IsTrue result ↔ (one.now ≡ other.now) }
{
    one.verdict == other.verdict
        && is_same_found(&one.found, &other.found)
        && is_same_list(one.settings.as_slice(), other.settings.as_slice())
}

fn is_same_found(one: &Found, other: &Found) -> bool
    ensures { IsTrue result ↔ (one.now ≡ other.now) }
{
    match (one, other) {
        (Found::Address(a), Found::Address(b)) => a.as_str() == b.as_str(),
        (Found::Default, Found::Default) => true,
        (Found::NoFile, Found::NoFile) => true,
        _ => false,
    }
}

fn is_same_list(one: &[Setting], other: &[Setting]) -> bool
    ensures { IsTrue result ↔ (one.now ≡ other.now) }
{
    if one.len() != other.len() {
        return false;
    }
    for i in 0..one.len() {
        if !is_same_setting(&one[i], &other[i]) {
            return false;
        }
    }
    true
}

fn is_same_setting(one: &Setting, other: &Setting) -> bool
    ensures { IsTrue result ↔ (one.now ≡ other.now) }
{
    one.name() == other.name() && one.value() == other.value()
}
