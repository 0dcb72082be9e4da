//! Events in the words of a script.
ghost use Rattle.std.specs.Prelude.{◌≡◌, Some, IfOk, IfErr};
ghost use Rattle.script_words.specs.Readings.{RefusesAs, texts};
ghost use Rattle.script_words.specs.Events.{event_in, event_with, limit_in, other_event, phase_in, serial_and_word, serial_event, serial_in, status_in, there_in, verdict_in};

use crate::script::LineEnd;
use child_jobs::{DropCause, StartFault, Status};
use dir_calls::Phase;
use rule_lookup::{Decision, Found, Peer, Settings, Verdict, parse_address};
use server_events::Event;
use server_words::number_in;
use std::alloc::Global;

/// The greatest limit of a list of events.
const MOST_LIMIT: u64 = 10_000;

/// Reads an event from its words: its name, and what belongs to it.
pub(crate) fn read_event(alloc: Global, words: &[&str]) -> Result<Event, LineEnd>
    ensures read { IfOk result (λ event. event_in (texts words.now) ≡ Some event) }
    ensures refused { IfErr result (RefusesAs (event_in (texts words.now))) }
{
    match words {
        [name] if *name == "stop" => Ok(Event::Stop),
        [name, word] => event_with(name, word).ok_or(LineEnd::Bad),
        [name, serial, word] => {
            let serial = serial_in(serial).ok_or(LineEnd::Bad)?;
            serial_and_word(alloc, name, serial, word)
        }
        _ => Err(LineEnd::Bad),
    }
}

/// Reads a limit of a list of events.
pub(crate) fn limit_in(word: &str) -> Option<u64>
    ensures { result ≡ limit_in word.now }
{
    number_in(word, 1, MOST_LIMIT)
}

/// Reads an event with one word.
fn event_with(name: &str, word: &str) -> Option<Event>
    ensures { result ≡ event_with name.now word.now }
{
    match name {
        "phase" => {
            let phase = phase_in(word)?;
            Some(Event::Stepped { phase })
        }
        "failed" => {
            let phase = phase_in(word)?;
            Some(Event::StepFailed { phase })
        }
        _ => serial_event(name, serial_in(word)?),
    }
}

/// An event of a connection that has no words more. A fault of a start has no words, and is `Other`. Nor has the cause
/// of a drop, which is that the directory failed.
fn serial_event(name: &str, serial: u64) -> Option<Event>
    ensures { result ≡ serial_event name.now serial }
{
    match name {
        "started" => Some(Event::Started { serial }),
        "startfailed" => Some(Event::StartFailed {
            serial,
            fault: StartFault::Other,
        }),
        "retired" => Some(Event::Retired { serial }),
        "dropped" => Some(Event::Dropped {
            serial,
            cause: DropCause::Directory,
        }),
        _ => None,
    }
}

/// Reads an event of a connection that has a word more. One that is let in has no names, and port 0.
fn serial_and_word(alloc: Global, name: &str, serial: u64, word: &str) -> Result<Event, LineEnd>
    ensures read { IfOk result (λ event. serial_and_word name.now serial word.now ≡ Some event) }
    ensures refused { IfErr result (RefusesAs (serial_and_word name.now serial word.now)) }
{
    if name != "admitted" {
        return other_event(alloc, name, serial, word).ok_or(LineEnd::Bad);
    }
    let ip = parse_address(word).ok_or(LineEnd::Bad)?;
    match Peer::new(alloc, ip, 0, None, None) {
        Ok(peer) => Ok(Event::Admitted { serial, peer }),
        Err(_) => Err(LineEnd::OutOfMemory),
    }
}

/// The same of an event other than an admission. A decision has a verdict alone.
fn other_event(alloc: Global, name: &str, serial: u64, word: &str) -> Option<Event>
    ensures { result ≡ other_event name.now serial word.now }
{
    match name {
        "opened" => {
            let there = there_in(word)?;
            Some(Event::Opened { serial, there })
        }
        "decided" => {
            let decision = Decision {
                found: Found::Default,
                verdict: verdict_in(word)?,
                settings: Settings::new(alloc),
            };
            Some(Event::Decided { serial, decision })
        }
        "ended" => {
            let status = status_in(word)?;
            Some(Event::Ended { serial, status })
        }
        _ => None,
    }
}

fn serial_in(word: &str) -> Option<u64>
    ensures { result ≡ serial_in word.now }
{
    number_in(word, 0, u64::MAX)
}

fn there_in(word: &str) -> Option<bool>
    ensures { result ≡ there_in word.now }
{
    match word {
        "yes" => Some(true),
        "no" => Some(false),
        _ => None,
    }
}

fn verdict_in(word: &str) -> Option<Verdict>
    ensures { result ≡ verdict_in word.now }
{
    match word {
        "allow" => Some(Verdict::Allow),
        "deny" => Some(Verdict::Deny),
        _ => None,
    }
}

/// An exit code, or `signal`.
fn status_in(word: &str) -> Option<Status>
    ensures { result ≡ status_in word.now }
{
    if word == "signal" {
        return Some(Status::Signal);
    }
    let code = number_in(word, 0, 255)?;
    Some(Status::Code(code as u8))
}

pub(crate) fn phase_in(word: &str) -> Option<Phase>
    ensures { result ≡ phase_in word.now }
{
    match word {
        "fresh" => Some(Phase::Fresh),
        "filling" => Some(Phase::Filling),
        "synced" => Some(Phase::Synced),
        "named" => Some(Phase::Named),
        "done" => Some(Phase::Done),
        _ => None,
    }
}
