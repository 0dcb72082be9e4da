//! The lines of a log that tell verdicts.
ghost use Rattle.std.specs.Prelude.{◌≡◌, option_map};
ghost use Rattle.rule_lookup.specs.Peers.{given};
ghost use Rattle.script_words.specs.LogLines.{TellsPeer, behind, end_in, fields_of, is_plain, is_whole, local_in, name_in, number_written, peer_in, reading, tells_or_not, told_in, words_of};
ghost use Rattle.script_words.specs.Meanings.{client_of, end_of, meaning, told_of};

use crate::parts::{four_parts, three_parts};
use itoa::Buffer;
use rule_lookup::{Verdict, parse_address};
use server_words::number_in;
use std::str;

/// The greatest number of bytes that a field prints.
const FIELD: usize = 100;

/// An end of a connection: the name of its host, if it is known, its address and its port.
#[derive(Clone, Copy)]
pub struct End<'a> {
    /// The name of its host.
    pub host: Option<&'a str>,
    /// Its address, in the order in which it is written.
    pub ip: [u8; 4],
    /// Its port.
    pub port: u16,
}

/// What the line of a verdict tells: the connection, its ends, and whether it may be made.
#[derive(Clone, Copy)]
pub struct VerdictLine<'a> {
    /// Whether the connection may be made.
    pub verdict: Verdict,
    /// The connection's serial number.
    pub serial: u64,
    /// The server's end.
    pub local: End<'a>,
    /// The other end.
    pub peer: End<'a>,
    /// The name of the user there, if it is known.
    pub info: Option<&'a str>,
}

/// A line of a log, as it is read.
#[derive(Clone, Copy)]
pub enum LogLine<'a> {
    /// It tells no verdict.
    Other,
    /// It tells a verdict, and can't be read: a field was cut or has a mark, or no server writes such a line.
    Unread,
    /// It tells this verdict.
    Verdict(VerdictLine<'a>),
}

/// Reads a line of a log, which has no line feed.
pub fn read_line(line: &[u8]) -> LogLine<'_>
    ensures line { meaning result ≡ reading line.now }
    ensures names { TellsPeer (meaning result) }
{
    if let Some(words) = behind(Verdict::Allow, line) {
        return tells_or_not(Verdict::Allow, words);
    }
    match behind(Verdict::Deny, line) {
        Some(words) => tells_or_not(Verdict::Deny, words),
        None => LogLine::Other,
    }
}

/// What stands behind the front of a verdict's line, if a line begins with that.
fn behind(verdict: Verdict, line: &[u8]) -> Option<&[u8]>
    ensures { option_map (λ words. words.now) result ≡ behind verdict line.now }
{
    match verdict {
        Verdict::Allow => line.strip_prefix(b"tcpserver: ok "),
        Verdict::Deny => line.strip_prefix(b"tcpserver: deny "),
    }
}

/// Reads what stands behind the front of a verdict's line, if it can be read.
fn tells_or_not(verdict: Verdict, words: &[u8]) -> LogLine<'_>
    ensures { meaning result ≡ tells_or_not (told_in verdict (words_of words.now)) }
{
    match str::from_utf8(words) {
        Ok(text) => match told_in(verdict, text) {
            Some(told) => LogLine::Verdict(told),
            None => LogLine::Unread,
        },
        Err(_) => LogLine::Unread,
    }
}

/// Reads the words behind `ok` or `deny`.
fn told_in(verdict: Verdict, text: &str) -> Option<VerdictLine<'_>>
    ensures { option_map told_of result ≡ told_in verdict (words_of text.now) }
{
    let (serial, local, peer) = three_parts(text, ' ')?;
    let serial = number_written(serial, u64::MAX)?;
    let local = local_in(local)?;
    let (peer, info) = peer_in(peer)?;
    Some(VerdictLine {
        verdict,
        serial,
        local,
        peer,
        info,
    })
}

/// Reads the server's end from its fields.
fn local_in(word: &str) -> Option<End<'_>>
    ensures { option_map end_of result ≡ local_in (fields_of word.now) }
{
    let (host, ip, port) = three_parts(word, ':')?;
    end_in(host, ip, port)
}

/// Reads the other end from its fields, with the name of the user.
fn peer_in(word: &str) -> Option<(End<'_>, Option<&str>)>
    ensures { option_map (λ peer. client_of peer.0 peer.1) result ≡ peer_in (fields_of word.now) }
{
    let (host, ip, info, port) = four_parts(word, ':')?;
    if !is_whole(info) {
        return None;
    }
    let end = end_in(host, ip, port)?;
    Some((end, name_in(info)))
}

fn end_in<'a>(host: &'a str, ip: &str, port: &str) -> Option<End<'a>>
    ensures { option_map end_of result ≡ end_in host.now ip.now port.now }
{
    if !is_whole(host) {
        return None;
    }
    let ip = parse_address(ip)?;
    let port = port_in(port)?;
    Some(End {
        host: name_in(host),
        ip,
        port,
    })
}

fn port_in(word: &str) -> Option<u16>
    ensures { result ≡ number_written 65535 word.now }
{
    let port = number_written(word, u64::from(u16::MAX))?;
    u16::try_from(port).ok()
}

/// Reads a number as a server writes it, up to a greatest.
fn number_written(word: &str, greatest: u64) -> Option<u64>
    ensures { result ≡ number_written greatest word.now }
{
    let number = number_in(word, 0, greatest)?;
    if Buffer::new().format(number) == word {
        Some(number)
    } else {
        None
    }
}

/// The name in a field, which is empty if there is none.
fn name_in(field: &str) -> Option<&str>
    ensures { given result ≡ name_in field.now }
{
    if field.is_empty() { None } else { Some(field) }
}

/// Whether a field is whole: it was not cut, and no byte of it is a mark.
fn is_whole(field: &str) -> bool
    ensures { result ≡ is_whole field.now }
{
    field.len() < FIELD && field.as_bytes().iter().all(|byte| is_plain(*byte))
}

/// Whether a byte of a field stands for itself.
fn is_plain(byte: u8) -> bool
    ensures { result ≡ is_plain byte }
{
    matches!(byte, 33..=126) && !matches!(byte, b'%' | b':' | b'?')
}
