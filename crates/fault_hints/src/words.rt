//! What is told behind the line of a fault of words: what is wrong, and what may stand there.
ghost use Rattle.std.specs.Prelude.{◌≡◌, Ok, IfOk, IfErr};
ghost use Rattle.byte_text.specs.Outcomes.{AppendsLine, AppendsPart};
ghost use Rattle.server_words.specs.Operands.{texts};
ghost use Rattle.fault_hints.specs.Words.{help_of, help_text, host_text, lacking_behind, lacking_in, lacking_line, port_text, refused_hint, what_lacks};
ghost use Rattle.server_words.specs.Words.{Refuses, reading};

use crate::voice::{Detail, Voice};
use byte_text::{append_cause, push_text, whole_or_none};
use server_words::option_laws::by_the_rules;
use server_words::{
    HEARD_LETTERS, Level, NUMBERS_HINT, OPTIONS, Options, ServerWordsFault, WordFault, address_of,
    port_of, read_words,
};
use std::alloc::{AllocError, Global};

/// The tool, as the lines of causes name it.
const TOOL: &str = "tcpserver";

/// What is no host, and what is one.
pub const HOSTS: &str = "no host: 0, localhost or an IPv4 address";

/// What is no port, and what is one.
pub const PORTS: &str = "no port: 0 to 65535";

/// What to do without `-u`, `-g` and `-U`.
pub const USERS: &str = "\
tcpserver: hint: let setpriv choose the user: setpriv --reuid USER --regid GROUP --clear-groups tcpserver ..\n\
tcpserver: hint: a port under 1024 needs more: --inh-caps=-all,+net_bind_service --ambient-caps=-all,+net_bind_service\n\
tcpserver: hint: see tcpserver(1), Ports under 1024 and users\n";

/// What to do without `-r`.
pub const PEERS: &str = "tcpserver: hint: leave -r out: nothing else is known of a client\n";

/// What `-w` takes.
pub const WRAPPERS: &str =
    "tcpserver: hint: -w takes addcr, delcr, fixcrio, with commas between, recordio first; and no -s beside it\n";

/// Which of the words after the options is lacking.
#[derive(Clone, Copy)]
enum Lacking<'a> {
    /// The host: the first word, which is none.
    Host(&'a str),
    /// The port: the second word, which is none.
    Port(&'a str),
    /// The program, or any word before it.
    Program,
}

/// The first of host, port and program that these words lack.
fn lacking_in(words: &[String]) -> Lacking<'_>
    ensures { what_lacks result ≡ lacking_in (texts words.now) }
{
    match words.split_first() {
        None => Lacking::Program,
        Some((host, rest)) if address_of(host.as_str()).is_some() => lacking_behind(rest),
        Some((host, _)) => Lacking::Host(host.as_str()),
    }
}

/// The first of port and program that the words after a host lack.
fn lacking_behind(words: &[String]) -> Lacking<'_>
    ensures { what_lacks result ≡ lacking_behind (texts words.now) }
{
    match words.split_first() {
        Some((port, _)) if port_of(port.as_str()).is_none() => Lacking::Port(port.as_str()),
        _ => Lacking::Program,
    }
}

/// Appends what a voice tells behind the line of this fault of words, under the level that they ask for.
///
/// # Errors
/// There was no memory, and nothing was appended.
pub fn append_help(
    out: &mut Vec<u8>,
    alloc: Global,
    voice: Voice,
    words: &[String],
    fault: ServerWordsFault,
) -> Result<(), AllocError>
    ensures { AppendsLine (help_of voice fault (texts words.now)) out.old.items out.new.items result }
{
    match hear(alloc, words) {
        Ok((options, rest)) => {
            let detail = voice.detail(Level::of(&options));
            append_detail(out, detail, fault, rest)
        }
        Err(WordFault::OutOfMemory) => Err(AllocError),
        Err(_) => Ok(()),
    }
}

/// The options at the start of words, the refused ones among them, and the words behind them.
fn hear(alloc: Global, words: &[String]) -> Result<(Options<'_>, &[String]), WordFault>
    ensures read { IfOk result (λ r. reading HEARD_LETTERS.now (texts words.now)
        ≡ Ok (record { options = r.0; rest = texts r.1.now })) }
    ensures refused { IfErr result (Refuses (reading HEARD_LETTERS.now (texts words.now))) }
{
    by_the_rules();
    read_words(alloc, HEARD_LETTERS, words)
}

/// Appends what is told with this detail, whole or not at all.
fn append_detail(
    out: &mut Vec<u8>,
    detail: Detail,
    fault: ServerWordsFault,
    rest: &[String],
) -> Result<(), AllocError>
    ensures { AppendsLine (help_text detail fault (texts rest.now)) out.old.items out.new.items result }
{
    let whole = out.len();
    let done = push_detail(out, detail, fault, rest);
    whole_or_none(out, whole, done)
}

fn push_detail(
    out: &mut Vec<u8>,
    detail: Detail,
    fault: ServerWordsFault,
    rest: &[String],
) -> Result<(), AllocError>
    ensures { AppendsPart (help_text detail fault (texts rest.now)) out.old.items out.new.items result }
{
    match (detail, fault) {
        (Detail::Cause, ServerWordsFault::Usage) => push_lacking(out, detail, rest),
        (Detail::Hint, ServerWordsFault::Usage) => {
            push_lacking(out, detail, rest)?;
            push_text(out, OPTIONS)
        }
        (Detail::Hint, ServerWordsFault::NotInProfile(letter)) => {
            push_text(out, refused_hint(letter))
        }
        (Detail::Hint, ServerWordsFault::BadNumber(_)) => push_text(out, NUMBERS_HINT),
        (Detail::Hint, ServerWordsFault::BadWrappers) => push_text(out, WRAPPERS),
        _ => Ok(()),
    }
}

/// Adds the line of what is lacking; a hint says what may stand there.
fn push_lacking(out: &mut Vec<u8>, detail: Detail, rest: &[String]) -> Result<(), AllocError>
    ensures { AppendsPart (lacking_line detail (lacking_in (texts rest.now))) out.old.items out.new.items result }
{
    match lacking_in(rest) {
        Lacking::Host(word) => append_cause(out, TOOL, word.as_bytes(), host_text(detail)),
        Lacking::Port(word) => append_cause(out, TOOL, word.as_bytes(), port_text(detail)),
        Lacking::Program => push_text(out, "tcpserver: cause: no program\n"),
    }
}

/// Why a word is no host.
fn host_text(detail: Detail) -> &'static str
    ensures { result.now ≡ host_text detail }
{
    match detail {
        Detail::Hint => HOSTS,
        Detail::Line | Detail::Cause => "no host",
    }
}

/// Why a word is no port.
fn port_text(detail: Detail) -> &'static str
    ensures { result.now ≡ port_text detail }
{
    match detail {
        Detail::Hint => PORTS,
        Detail::Line | Detail::Cause => "no port",
    }
}

/// What to do without a letter that is refused.
fn refused_hint(letter: char) -> &'static str
    ensures { result.now ≡ refused_hint letter }
{
    if letter == 'r' { PEERS } else { USERS }
}
