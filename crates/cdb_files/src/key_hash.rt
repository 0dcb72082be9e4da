//! The hash of a key.
ghost use Rattle.std.specs.Prelude.{◌≡◌};
ghost use Rattle.cdb_files.specs.Format.{hash_of};

/// The hash of a key, as the cdb page has it. It takes no memory.
///
/// It is 5381 at first, and `h = ((h << 5) + h) ^ c` in 32 bits for each byte.
pub fn hash(key: &[u8]) -> u32
    ensures { result ≡ hash_of key.now }
{
    let mut h: u32 = 5381;
    for byte in key {
        h = h.wrapping_mul(33) ^ u32::from(*byte);
    }
    h
}
