//! The bytes of a file in memory.
ghost use Rattle.std.specs.Prelude.{◌≡◌};

use std::sync::Arc;

/// The bytes of a file: its own, or shared ones.
#[derive(Drop)]
pub enum Held {
    Own(Vec<u8>),
    Shared(Arc<Vec<u8>>),
}

impl Held {
    ghost use Rattle.memory_dirs.specs.Held.{held_bytes};

    /// The bytes.
    pub fn as_slice(&self) -> &[u8]
        ensures { result.now ≡ held_bytes self.now }
    {
        match self {
            Held::Own(bytes) => bytes.as_slice(),
            Held::Shared(bytes) => bytes.as_slice(),
        }
    }
}
