//! The words after the options: host, port, program.
ghost use Rattle.std.specs.Prelude.{◌≡◌};
ghost use Rattle.server_words.specs.Operands.{address_in, operands_in, port_in, texts};

use crate::number_in;
use rule_lookup::parse_address;
use std::marker::Model;

/// Where a server listens, and which program it starts for each connection.
#[derive(Drop)]
pub struct Operands<'a> {
    address: [u8; 4],
    port: u16,
    path: &'a str,
    args: &'a [String],
}

impl<'a> Model for Operands<'a> {
    ghost use Rattle.std.specs.Prelude.{map, string_bytes};
    ghost use Rattle.server_words.specs.Operands.{Service};

    ghost Value = { Service };

    ghost view = { λ o. record { address = o.address; port = o.port; path = o.path.now; args = map string_bytes o.args.now } };
}

impl<'a> Operands<'a> {
    /// The host, the port and the program that words name, if they do: a host is `0`, `localhost` or an IPv4 address,
    /// and a port a number up to 65,535.
    pub(crate) fn of(words: &'a [String]) -> Option<Operands<'a>>
        ensures { result ≡ operands_in (texts words.now) }
    {
        let [host, port, path, args @ ..] = words else {
            return None;
        };
        let address = address_of(host.as_str())?;
        let port = port_of(port.as_str())?;
        Some(Operands {
            address,
            port,
            path: path.as_str(),
            args,
        })
    }

    /// The address to listen at, `0.0.0.0` for any of the machine's own.
    pub fn address(&self) -> [u8; 4]
        ensures { result ≡ self.now.address }
    {
        self.address
    }

    /// The port to listen at, 0 for one that is free.
    pub fn port(&self) -> u16
        ensures { result ≡ self.now.port }
    {
        self.port
    }

    /// The path of the program.
    pub fn path(&self) -> &'a str
        ensures { result.now ≡ self.now.path }
    {
        self.path
    }

    /// The arguments of the program.
    pub fn args(&self) -> &'a [String]
        ensures { texts result.now ≡ self.now.args }
    {
        self.args
    }
}

/// The address that a host stands for.
pub fn address_of(host: &str) -> Option<[u8; 4]>
    ensures { result ≡ address_in host.now }
{
    match host {
        "0" => Some([0, 0, 0, 0]),
        "localhost" => Some([127, 0, 0, 1]),
        _ => parse_address(host),
    }
}

/// The port that a word is.
pub fn port_of(word: &str) -> Option<u16>
    ensures { result ≡ port_in word.now }
{
    let port = number_in(word, 0, 65_535)?;
    Some(port as u16)
}
