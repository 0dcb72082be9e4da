//! What `rulesim` prints for the log of a server: the verdicts that would be others under the rules that stand.
ghost use Rattle.std.specs.Prelude.{◌≡◌, ◌++◌, ℕ, List, Option, Some, None, true, OnOk, IfOk, IfSome};
ghost use Rattle.rule_lookup.specs.Lines.{lines_of};
ghost use Rattle.rule_lookup.specs.Peers.{fits, given};
ghost use Rattle.script_tool.specs.Judging.{HasRoom, Judges};
ghost use Rattle.script_tool.specs.Kept.{Reads};
ghost use Rattle.script_tool.specs.Logs.{asked, change_line, decided_now, differs, found_text, host_text, log_printed, sums_text, verdict_name, was_text};
ghost use Rattle.script_tool.specs.Sim.{Prints};
ghost use Rattle.script_words.specs.LogLines.{Tells, TellsPeer, reading};
ghost use Rattle.script_words.specs.Meanings.{client_of, told_of};

use crate::sim::{MOST_LINES, read_fault, without_feed};
use crate::simulation::Standing;
use rule_lookup::{Decision, Found, Peer, PeerFault, Verdict};
use script_words::{End, LogLine, SimFault, VerdictLine, read_line};
use server_log::Piece::{Address, Number, Text};
use server_log::{append_line, push_pieces};
use std::alloc::{AllocError, Global};
use std::io::{BufRead, Write};

/// The sums of a log: lines that tell a verdict, verdicts that would be others now, and lines of a verdict that can't
/// be read.
#[derive(Clone, Copy)]
pub struct Sums {
    told: u64,
    changed: u64,
    unread: u64,
}

/// Takes what is left to read as the log of a server, and compares its verdicts with the rules that stand.
///
/// It writes a line for each verdict that would be another, and then the sums. `before` lines were read before the log.
///
/// # Errors
/// Those of `SimFault`, but never `BadCommand`.
pub fn compare_log<R: BufRead, W: Write>(
    alloc: Global,
    standing: &Standing,
    before: u64,
    reader: &mut R,
    writer: &mut W,
) -> Result<(), SimFault>
    requires { (text : Option (List ℕ)) × Reads standing.now text }
    ensures { (text : Option (List ℕ)) → Reads standing.now text → IfSome (R.remaining reader.old) (λ log.
        Prints (W.contents writer.old) (W.contents writer.new)
        (record { output = log_printed text (lines_of log); bad = None }) result) }
{
    let mut sums = Sums {
        told: 0,
        changed: 0,
        unread: 0,
    };
    let mut line = Vec::new(alloc);
    for _number in before..MOST_LINES {
        line.clear();
        match reader.read_until(b'\n', &mut line) {
            Ok(0) => return write_sums(alloc, writer, sums),
            Ok(_) => {}
            Err(error) => return Err(read_fault(&error)),
        }
        match judge(alloc, standing, without_feed(line.as_slice()), &mut sums) {
            Ok(out) => match writer.write_all(out.as_slice()) {
                Ok(()) => {}
                Err(_) => return Err(SimFault::WriteFault),
            },
            Err(_) => return Err(SimFault::OutOfMemory),
        }
    }
    Err(SimFault::ReadFault)
}

/// Writes the sums.
fn write_sums<W: Write>(alloc: Global, writer: &mut W, sums: Sums) -> Result<(), SimFault>
    ensures { Prints (W.contents writer.old) (W.contents writer.new)
        (record { output = sums_text sums; bad = None }) result }
{
    let mut out = Vec::new(alloc);
    match push_sums(&mut out, sums) {
        Ok(()) => {}
        Err(_) => return Err(SimFault::OutOfMemory),
    }
    match writer.write_all(out.as_slice()) {
        Ok(()) => Ok(()),
        Err(_) => Err(SimFault::WriteFault),
    }
}

/// Adds a line of the log to the sums, and answers what is printed for it.
fn judge(
    alloc: Global,
    standing: &Standing,
    line: &[u8],
    sums: &mut Sums,
) -> Result<Vec<u8>, AllocError>
    requires known { (text : Option (List ℕ)) × Reads standing.now text }
    requires room { HasRoom sums.old }
    ensures { (text : Option (List ℕ)) → Reads standing.now text
        → IfOk result (λ out. Judges text (reading line.now) sums.old sums.new out.items) }
{
    match read_line(line) {
        LogLine::Other => Ok(Vec::new(alloc)),
        LogLine::Unread => {
            sums.unread += 1;
            Ok(Vec::new(alloc))
        }
        LogLine::Verdict(told) => judge_verdict(alloc, standing, &told, sums),
    }
}

fn judge_verdict(
    alloc: Global,
    standing: &Standing,
    told: &VerdictLine<'_>,
    sums: &mut Sums,
) -> Result<Vec<u8>, AllocError>
    requires known { (text : Option (List ℕ)) × Reads standing.now text }
    requires room { HasRoom sums.old }
    requires name { fits (given (told.now).peer.host) ≡ true }
    ensures { (text : Option (List ℕ)) → Reads standing.now text
        → IfOk result (λ out. Judges text (Tells (told_of told.now)) sums.old sums.new out.items) }
{
    sums.told += 1;
    let peer = asked(alloc, &told.peer)?;
    let now = standing.decide(alloc, &peer)?;
    drop(peer);
    if !differ(told.verdict, now.verdict) {
        return Ok(Vec::new(alloc));
    }
    sums.changed += 1;
    let mut out = Vec::new(alloc);
    push_change(&mut out, told, &now)?;
    Ok(out)
}

/// The peer whose decision is asked for.
fn asked(alloc: Global, end: &End<'_>) -> Result<Peer, AllocError>
    requires { fits (given (end.now).host) ≡ true }
    ensures { IfOk result (λ peer. peer ≡ asked (client_of end.now None)) }
{
    match Peer::new(alloc, end.ip, 0, end.host, None) {
        Ok(peer) => Ok(peer),
        Err(PeerFault::OutOfMemory) => Err(AllocError),
        Err(PeerFault::BadHost) => unreachable!(),
        Err(PeerFault::BadInfo) => unreachable!(),
    }
}

fn differ(was: Verdict, now: Verdict) -> bool
    ensures { result ≡ differs was now }
{
    match (was, now) {
        (Verdict::Allow, Verdict::Allow) | (Verdict::Deny, Verdict::Deny) => false,
        (Verdict::Allow, Verdict::Deny) | (Verdict::Deny, Verdict::Allow) => true,
    }
}

/// Adds the line of a verdict that would be another now. After an `Err` a part may stand at the end of `out`.
fn push_change(out: &mut Vec<u8>, told: &VerdictLine<'_>, now: &Decision) -> Result<(), AllocError>
    ensures { OnOk result
        (out.new.items ≡ out.old.items ++ change_line (told_of told.now) now.now) }
{
    push_was(out, told)?;
    let (before, rule, after) = found_words(&now.found);
    let pieces = [
        Text(", now "),
        Text(verdict_name(now.verdict)),
        Text(" "),
        Text(before),
        Text(rule),
        Text(after),
    ];
    append_line(out, &pieces)
}

fn push_was(out: &mut Vec<u8>, told: &VerdictLine<'_>) -> Result<(), AllocError>
    ensures { OnOk result (out.new.items ≡ out.old.items ++ was_text (told_of told.now)) }
{
    let pieces = [
        Number(told.serial),
        Text(" "),
        Address(told.peer.ip),
        Text(" "),
        Text(host_text(told.peer.host)),
        Text(" was "),
        Text(verdict_name(told.verdict)),
    ];
    push_pieces(out, &pieces)
}

/// What decides, as the first line of an answer tells it: the address of a rule, and the words before and behind it.
fn found_words(found: &Found) -> (&'static str, &str, &'static str)
    ensures { result.0.now ++ result.1.now ++ result.2.now ≡ found_text found.now }
{
    match found {
        Found::Address(address) => ("rule ", address.as_str(), ":"),
        Found::Default => ("default:", "", ""),
        Found::NoFile => ("no file", "", ""),
    }
}

fn verdict_name(verdict: Verdict) -> &'static str
    ensures { result.now ≡ verdict_name verdict }
{
    match verdict {
        Verdict::Allow => "ok",
        Verdict::Deny => "deny",
    }
}

fn host_text(host: Option<&str>) -> &str
    ensures { result.now ≡ host_text (given host.entry) }
{
    match host {
        Some(name) => name,
        None => "",
    }
}

/// Adds the lines of the sums. After an `Err` the first may stand at the end of `out`.
fn push_sums(out: &mut Vec<u8>, sums: Sums) -> Result<(), AllocError>
    ensures { OnOk result (out.new.items ≡ out.old.items ++ sums_text sums) }
{
    let changed = [
        Text("changed "),
        Number(sums.changed),
        Text(" of "),
        Number(sums.told),
    ];
    append_line(out, &changed)?;
    if sums.unread == 0 {
        return Ok(());
    }
    append_line(out, &[Text("unread "), Number(sums.unread)])
}
