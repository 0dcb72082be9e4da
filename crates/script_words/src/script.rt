//! The lines of a script of `rulesim`.
ghost use Rattle.std.specs.Prelude.{◌≡◌, ◌==◌, Some, IfOk, IfErr, option_map};
ghost use Rattle.rule_lookup.specs.Peers.{given};
ghost use Rattle.script_words.specs.Readings.{meaning, RefusesAs, RefusesLine, texts};
ghost use Rattle.script_words.specs.Scripts.{bare_command, choice_in, command_in, command_named, command_of, command_with, host_in, info_in, limits_in, option_in, other_command, peer_in, peer_of, peer_with, peer_with_both, question_in, reader_in, words_of};
ghost use Rattle.script_words.specs.declared.script.LineEnd.TheVariants.{OutOfMemory};

use crate::event_words::{limit_in, phase_in, read_event};
use dir_calls::{Choice, Phase};
use rule_lookup::{Peer, PeerFault, parse_address};
use server_events::Event;
use std::alloc::{AllocError, Global};

/// A command of a script: what a line asks for.
#[derive(Drop)]
pub enum Command<'a> {
    /// Nothing: the line is empty or a comment.
    Skip,
    /// Add this to the pending text as a line.
    Add(&'a [u8]),
    /// Install the pending text.
    Install,
    /// Begin to install the pending text.
    Begin,
    /// Go on with the installation to this phase.
    To(Phase),
    /// Stop the machine with this choice.
    Stop(Choice),
    /// Decide this peer.
    Ask(Peer),
    /// Open the rules file, and keep it under this name.
    Reader(&'a str),
    /// Decide this peer by the file that is kept under this name.
    AskBy(&'a str, Peer),
    /// Begin an empty list of events, under these limits.
    Events {
        /// How many connections may be alive at once.
        limit: u64,
        /// How many of these may be from one address.
        per_address: u64,
    },
    /// Add this to the list of events.
    Event(Event),
    /// Print what the list of events comes to.
    Replay,
    /// Take the lines after this one as a log, and print what would be decided otherwise.
    Verdicts,
}

/// Why a line gives no command.
#[derive(Clone, Copy)]
pub enum LineEnd {
    /// The line is no command.
    Bad,
    /// There was no memory for it.
    OutOfMemory,
}

impl From<AllocError> for LineEnd {
    ghost from_gives = { λ _ e. e ≡ OutOfMemory };

    fn from(_error: AllocError) -> LineEnd {
        LineEnd::OutOfMemory
    }
}

/// Reads the command of a line, which has no line feed.
///
/// # Errors
/// `Bad` if the line is no command. `OutOfMemory`, but only for a line that has words.
pub fn read_command(alloc: Global, line: &[u8]) -> Result<Command<'_>, LineEnd>
    ensures read { IfOk result (λ command. command_of line.now ≡ Some (meaning command)) }
    ensures refused { IfErr result (RefusesLine line.now) }
{
    let Some((first, rest)) = line.split_first() else {
        return Ok(Command::Skip);
    };
    if *first == b'#' {
        return Ok(Command::Skip);
    }
    if *first == b'|' {
        return Ok(Command::Add(rest));
    }
    match str::from_utf8(line) {
        Ok(text) => read_words(alloc, text),
        Err(_) => Err(LineEnd::Bad),
    }
}

/// Reads the command of a line of words.
fn read_words(alloc: Global, line: &str) -> Result<Command<'_>, LineEnd>
    ensures read { IfOk result (λ command.
        command_in (words_of line.now) ≡ Some (meaning command)) }
    ensures refused { result ≡ Err LineEnd.Bad → command_in (words_of line.now) ≡ None }
{
    let words = words_in(alloc, line)?;
    command_from(alloc, words.as_slice())
}

/// The words of a line, one space between each two.
fn words_in(alloc: Global, line: &str) -> Result<Vec<&str>, AllocError>
    ensures { IfOk result (λ words. texts words.items ≡ words_of line.now) }
{
    line.split(' ').collect(alloc)
}

fn command_from<'a>(alloc: Global, words: &[&'a str]) -> Result<Command<'a>, LineEnd>
    ensures read { IfOk result (λ command. command_in (texts words.now) ≡ Some (meaning command)) }
    ensures refused { IfErr result (RefusesAs (command_in (texts words.now))) }
{
    let Some((name, words)) = words.split_first() else {
        return Err(LineEnd::Bad);
    };
    command_named(alloc, name, words)
}

/// Reads what belongs to the command with a name.
fn command_named<'a>(alloc: Global, name: &str, words: &[&'a str]) -> Result<Command<'a>, LineEnd>
    ensures read { IfOk result (λ command.
        command_named name.now (texts words.now) ≡ Some (meaning command)) }
    ensures refused { IfErr result (RefusesAs (command_named name.now (texts words.now))) }
{
    match name {
        "ask" => Ok(Command::Ask(read_peer(alloc, words)?)),
        "askby" => read_question(alloc, words),
        "event" => Ok(Command::Event(read_event(alloc, words)?)),
        _ => other_command(name, words).ok_or(LineEnd::Bad),
    }
}

/// Reads a command that names no peer and no event.
fn other_command<'a>(name: &str, words: &[&'a str]) -> Option<Command<'a>>
    ensures { option_map meaning result ≡ other_command name.now (texts words.now) }
{
    match words {
        [] => bare_command(name),
        [word] => command_with(name, word),
        [limit, per_address] => match name {
            "events" => limits_in(limit, per_address),
            _ => None,
        },
        _ => None,
    }
}

/// The command with a name alone.
fn bare_command<'a>(name: &str) -> Option<Command<'a>>
    ensures { option_map meaning result ≡ bare_command name.now }
{
    match name {
        "install" => Some(Command::Install),
        "begin" => Some(Command::Begin),
        "replay" => Some(Command::Replay),
        "verdicts" => Some(Command::Verdicts),
        _ => None,
    }
}

/// Reads a command with one word. The limit per address is the limit if it is left out.
fn command_with<'a>(name: &str, word: &'a str) -> Option<Command<'a>>
    ensures { option_map meaning result ≡ command_with name.now word.now }
{
    match name {
        "to" => Some(Command::To(phase_in(word)?)),
        "stop" => Some(Command::Stop(choice_in(word)?)),
        "reader" => Some(Command::Reader(reader_in(word)?)),
        "events" => limits_in(word, word),
        _ => None,
    }
}

/// Reads an empty list of events under these limits.
fn limits_in<'a>(limit: &str, per_address: &str) -> Option<Command<'a>>
    ensures { option_map meaning result ≡ limits_in limit.now per_address.now }
{
    let limit = limit_in(limit)?;
    let per_address = limit_in(per_address)?;
    Some(Command::Events { limit, per_address })
}

fn choice_in(word: &str) -> Option<Choice>
    ensures { result ≡ choice_in word.now }
{
    match word {
        "kept" => Some(Choice::Kept),
        "empty" => Some(Choice::Empty),
        "junk" => Some(Choice::Junk),
        _ => None,
    }
}

/// A reader's name, which is not empty.
fn reader_in(word: &str) -> Option<&str>
    ensures { given result ≡ reader_in word.now }
{
    if word.is_empty() { None } else { Some(word) }
}

/// Reads a question to a reader: its name, and the peer.
fn read_question<'a>(alloc: Global, words: &[&'a str]) -> Result<Command<'a>, LineEnd>
    ensures read { IfOk result (λ command. question_in (texts words.now) ≡ Some (meaning command)) }
    ensures refused { IfErr result (RefusesAs (question_in (texts words.now))) }
{
    let Some((name, words)) = words.split_first() else {
        return Err(LineEnd::Bad);
    };
    let name = reader_in(name).ok_or(LineEnd::Bad)?;
    Ok(Command::AskBy(name, read_peer(alloc, words)?))
}

/// Reads the peer behind `ask`.
fn read_peer(alloc: Global, words: &[&str]) -> Result<Peer, LineEnd>
    ensures read { IfOk result (λ peer. peer_in (texts words.now) ≡ Some peer) }
    ensures refused { IfErr result (RefusesAs (peer_in (texts words.now))) }
{
    match words {
        [ip] => make_peer(alloc, ip, None, None),
        [ip, word] => peer_with(alloc, ip, word),
        [ip, first, second] => peer_with_both(alloc, ip, first, second),
        _ => Err(LineEnd::Bad),
    }
}

/// The peer with one option: that of the user, or else that of the host.
fn peer_with(alloc: Global, ip: &str, word: &str) -> Result<Peer, LineEnd>
    ensures read { IfOk result (λ peer.
        peer_with ip.now (info_in word.now) (host_in word.now) ≡ Some peer) }
    ensures refused { IfErr result
        (RefusesAs (peer_with ip.now (info_in word.now) (host_in word.now))) }
{
    match (option_in("info=", word), option_in("host=", word)) {
        (Some(info), _) => make_peer(alloc, ip, Some(info), None),
        (None, Some(host)) => make_peer(alloc, ip, None, Some(host)),
        (None, None) => Err(LineEnd::Bad),
    }
}

/// The peer with both options.
fn peer_with_both(alloc: Global, ip: &str, first: &str, second: &str) -> Result<Peer, LineEnd>
    ensures read { IfOk result (λ peer.
        peer_with_both ip.now (info_in first.now) (host_in second.now) ≡ Some peer) }
    ensures refused { IfErr result
        (RefusesAs (peer_with_both ip.now (info_in first.now) (host_in second.now))) }
{
    match (option_in("info=", first), option_in("host=", second)) {
        (Some(info), Some(host)) => make_peer(alloc, ip, Some(info), Some(host)),
        _ => Err(LineEnd::Bad),
    }
}

/// What stands behind the mark in a word that begins with it.
fn option_in<'a>(mark: &str, word: &'a str) -> Option<&'a str>
    ensures { given result ≡ option_in mark.now word.now }
{
    word.strip_prefix(mark)
}

fn make_peer(
    alloc: Global,
    ip: &str,
    info: Option<&str>,
    host: Option<&str>,
) -> Result<Peer, LineEnd>
    ensures read { IfOk result (λ peer.
        peer_of ip.now (given info.entry) (given host.entry) ≡ Some peer) }
    ensures refused { IfErr result
        (RefusesAs (peer_of ip.now (given info.entry) (given host.entry))) }
{
    let Some(ip) = parse_address(ip) else {
        return Err(LineEnd::Bad);
    };
    match Peer::new(alloc, ip, 0, host, info) {
        Ok(peer) => Ok(peer),
        Err(PeerFault::OutOfMemory) => Err(LineEnd::OutOfMemory),
        Err(PeerFault::BadHost) => Err(LineEnd::Bad),
        Err(PeerFault::BadInfo) => Err(LineEnd::Bad),
    }
}
