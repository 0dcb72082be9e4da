//! The host table, which knows names of addresses and addresses of names.
ghost use Rattle.std.specs.Prelude.{◌≡◌, ◌⊎◌, ◌||◌, ℕ, List, Some, None, IfOk, IfErr, IfSome, OnOk, length};
ghost use Rattle.rule_lookup.specs.Lines.{trimmed};
ghost use Rattle.rule_lookup.specs.Addresses.{ipv4_in};
ghost use Rattle.rule_lookup.specs.Peers.{given};
ghost use Rattle.child_jobs.specs.HostMaps.{HasHostName, host_name_in, key_of, option_or, row_said, row_read};
ghost use Rattle.child_jobs.specs.HostRows.{after_blanks, are_visible, first_bad, first_word, is_host_name, name_in, row_of_trimmed, rows_of, says_so, second_word};
ghost use Rattle.child_jobs.specs.Hosts.{SaysAs, confirms, name_of};
ghost use Rattle.child_jobs.specs.declared.hosts.HostFault.TheVariants.{BadLine, OutOfMemory};

use rule_lookup::lines::{first_line, is_blank, trim_blanks};
use std::alloc::{AllocError, AllocFailed, Global};
use std::collections::{BTreeMap, BTreeSet};
use std::marker::Model;
use std::net::Ipv4Addr;
use std::str;

/// The length of the longest name.
const LONGEST: usize = 255;

/// The length of an address, in bytes.
const ADDRESS: usize = 4;

/// Why a text is no host table.
#[derive(Clone, Copy)]
pub enum HostFault {
    /// The line with this number, from 1, is the first bad one. It is not ignored, and is neither an address and a
    /// name, nor a name and an address.
    BadLine(u64),
    /// There was no memory.
    OutOfMemory,
}

impl From<AllocError> for HostFault {
    ghost from_gives = { λ _ fault. fault ≡ OutOfMemory };

    fn from(_: AllocError) -> Self {
        HostFault::OutOfMemory
    }
}

impl<T: Drop> From<AllocFailed<T>> for HostFault {
    ghost from_gives = { λ _ fault. fault ≡ OutOfMemory };

    fn from(_: AllocFailed<T>) -> Self {
        HostFault::OutOfMemory
    }
}

/// The names of addresses, and the addresses of names.
#[derive(Drop)]
pub struct HostTable {
    names: BTreeMap<[u8; 4], String>,
    // for each address of a name its four bytes, and then the name in lower case
    addresses: BTreeSet<Vec<u8>>,
}

impl Model for HostTable {
    ghost use Rattle.child_jobs.specs.Hosts.{Hosts};
    ghost use Rattle.child_jobs.specs.HostMaps.{hosts_in};

    ghost Value = { Hosts };

    ghost view = { λ t. hosts_in t.names t.addresses };
}

/// What a line says.
#[derive(Clone, Copy)]
enum Said<'a> {
    Nothing,
    Gives([u8; 4], &'a str),
    Has(&'a str, [u8; 4]),
}

impl HostTable {
    /// Reads the table of a text.
    ///
    /// A line `IP NAME` gives an address a name; the first such line counts. A line `=NAME IP` says that a name has an
    /// address. Blanks at a line's end are removed. Empty lines, and those that begin with `#`, are ignored.
    ///
    /// # Errors
    /// `BadLine` with the number of the first bad line; `OutOfMemory`.
    pub fn read(alloc: Global, text: &[u8]) -> Result<HostTable, HostFault>
        ensures table { IfOk result (λ table.
            (first_bad 1 (rows_of text.now) ≡ None) × SaysAs table (rows_of text.now)) }
        ensures refused { IfErr result (λ fault. (fault ≡ OutOfMemory)
            ⊎ ((n : ℕ) × (fault ≡ BadLine n) × (first_bad 1 (rows_of text.now) ≡ Some n))) }
    {
        let mut table = HostTable {
            names: BTreeMap::new(alloc),
            addresses: BTreeSet::new(alloc),
        };
        let mut rest = text;
        let mut number = 0;
        while !rest.is_empty() {
            let (line, later) = first_line(rest);
            rest = later;
            number += 1;
            let said = read_line(line).ok_or(HostFault::BadLine(number))?;
            table.add(alloc, said)?;
        }
        Ok(table)
    }

    /// The name of an address, in lower case. It takes no memory.
    pub fn name_of(&self, ip: [u8; 4]) -> Option<&str>
        ensures { given result ≡ name_of self.now ip }
    {
        let name = self.names.get(&ip)?;
        Some(name.as_str())
    }

    /// Whether the table says that a name has an address. Capital and small letters are the same. It takes no memory.
    pub fn confirms(&self, name: &str, ip: [u8; 4]) -> bool
        ensures { result ≡ confirms self.now name.now ip }
    {
        let mut room = [0; ADDRESS + LONGEST];
        match write_key(&mut room, name, ip) {
            Some(key) => self.addresses.contains(key),
            None => false,
        }
    }

    /// Adds what a line says. The first name of an address stays.
    fn add(&mut self, alloc: Global, said: Said<'_>) -> Result<(), HostFault>
        requires { HasHostName said }
        ensures names { OnOk result ((ip : List ℕ) → name_of self.new ip
            ≡ option_or (name_of self.old ip) (name_in (row_said said.entry) ip None)) }
        ensures addresses { OnOk result ((name ip : List ℕ) → length ip ≡ 4 → confirms self.new name ip
            ≡ (confirms self.old name ip || says_so name ip (row_said said.entry))) }
        ensures err { IfErr result (λ fault. fault ≡ OutOfMemory) }
    {
        match said {
            Said::Nothing => {}
            Said::Gives(ip, name) => {
                if !self.names.contains_key(&ip) {
                    self.names.insert(ip, name.to_ascii_lowercase(alloc)?)?;
                }
            }
            Said::Has(name, ip) => {
                let mut room = [0; ADDRESS + LONGEST];
                if let Some(key) = write_key(&mut room, name, ip) {
                    self.addresses.insert(Vec::from_slice(alloc, key)?)?;
                }
            }
        }
        Ok(())
    }
}

/// Writes an address, and behind it a name in lower case, into the front of `room`. `None` if the name is too long.
fn write_key<'a>(room: &'a mut [u8; ADDRESS + LONGEST], name: &str, ip: [u8; 4]) -> Option<&'a [u8]>
    ensures key { given result ≡ key_of name.now ip }
    ensures address { IfSome result (λ _. length ip ≡ 4) }
{
    if name.len() > LONGEST {
        return None;
    }
    let end = ADDRESS + name.len();
    room[..ADDRESS].copy_from_slice(&ip);
    room[ADDRESS..end].copy_from_slice(name.as_bytes());
    room[ADDRESS..end].make_ascii_lowercase();
    Some(&room[..end])
}

/// What a line says, or `None` if it is bad.
fn read_line(line: &[u8]) -> Option<Said<'_>>
    ensures row { row_read result ≡ row_of_trimmed (trimmed line.now) }
    ensures name { IfSome result HasHostName }
{
    let line = trim_blanks(line);
    if line.is_empty() || line[0] == b'#' {
        return Some(Said::Nothing);
    }
    let (first, second) = split_words(line);
    match first.strip_prefix(b"=") {
        Some(name) => Some(Said::Has(host_name(name)?, address(second)?)),
        None => Some(Said::Gives(address(first)?, host_name(second)?)),
    }
}

/// The first word of a line, and what stands behind the blanks that follow it.
fn split_words(line: &[u8]) -> (&[u8], &[u8])
    ensures first { result.0.now ≡ first_word line.now }
    ensures second { result.1.now ≡ second_word line.now }
{
    let mut end = 0;
    while end < line.len() && !is_blank(line[end]) {
        end += 1;
    }
    let (first, rest) = line.split_at(end);
    (first, skip_blanks(rest))
}

fn skip_blanks(text: &[u8]) -> &[u8]
    ensures { result.now ≡ after_blanks text.now }
{
    let mut rest = text;
    while let [first, later @ ..] = rest
        && is_blank(*first)
    {
        rest = later;
    }
    rest
}

/// These bytes as the name of a host, if they are one.
fn host_name(bytes: &[u8]) -> Option<&str>
    ensures { given result ≡ host_name_in bytes.now }
{
    if is_host_name(bytes) {
        str::from_utf8(bytes).ok()
    } else {
        None
    }
}

/// Whether bytes are the name of a host: 1 to 255 visible ASCII characters.
fn is_host_name(bytes: &[u8]) -> bool
    ensures { result ≡ is_host_name bytes.now }
{
    !bytes.is_empty() && bytes.len() <= LONGEST && are_visible(bytes)
}

fn are_visible(bytes: &[u8]) -> bool
    ensures { result ≡ are_visible bytes.now }
{
    bytes.iter().all(u8::is_ascii_graphic)
}

/// These bytes as an address, if they are one.
fn address(bytes: &[u8]) -> Option<[u8; 4]>
    ensures { result ≡ ipv4_in bytes.now }
{
    match Ipv4Addr::parse_ascii(bytes) {
        Ok(address) => Some(address.octets()),
        Err(_) => None,
    }
}
