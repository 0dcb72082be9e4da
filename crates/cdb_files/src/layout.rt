//! The lengths of a compiled file's parts, and its limit.
ghost use Rattle.std.specs.Prelude.{◌≡◌};
ghost use Rattle.cdb_files.specs.Image.{limit_of};

/// The length of the pointers, with which a file begins.
pub const HEADER_LENGTH: usize = 2048;

/// The length of the two lengths with which a record begins.
pub const LENGTHS_LENGTH: usize = 8;

/// The length of the two slots that a table has for each record.
pub const SLOTS_LENGTH: usize = 16;

/// The number of tables.
pub const TABLE_COUNT: usize = 256;

/// The greatest length of a file, if `limit` bytes are asked for. It is at least 2,048, the length of the pointers, and
/// at most what 32 bits count.
pub fn file_limit(limit: u64) -> u64
    ensures { result ≡ limit_of limit }
{
    limit.clamp(2048, 4294967295)
}
