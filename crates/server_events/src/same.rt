//! Whether two peers are the same in all. It takes no memory.
ghost use Rattle.std.specs.Prelude.{◌≡◌, ◌↔◌, IsTrue};

use rule_lookup::Peer;

/// Whether two peers are the same.
pub fn is_same_peer(one: &Peer, other: &Peer) -> bool
    ensures { IsTrue result ↔ (one.now ≡ other.now) }
{
    one.ip() == other.ip()
        && one.port() == other.port()
        && one.host() == other.host()
        && one.info() == other.info()
}
