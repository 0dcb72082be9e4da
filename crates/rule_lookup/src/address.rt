//! IPv4 addresses as text.
ghost use Rattle.std.specs.Prelude.{◌≡◌};
ghost use Rattle.rule_lookup.specs.Addresses.{ipv4_in};

use std::net::Ipv4Addr;

/// The IPv4 address that a text says: four decimal numbers from 0 to 255 without leading zeros, with dots between them.
pub fn parse_address(text: &str) -> Option<[u8; 4]>
    ensures { result ≡ ipv4_in text.now }
{
    match text.parse::<Ipv4Addr>() {
        Ok(address) => Some(address.octets()),
        Err(_) => None,
    }
}
