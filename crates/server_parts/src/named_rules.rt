//! Whether a compiled rules file has rules by name.
use std::alloc::Global;
use std::fs::{File, Files};
use std::io::{self, BufReader, Read};

/// So many bytes of a file are looked through at most.
const MOST: u64 = 16 << 20;

/// The bytes of a compiled file's header, which the records stand behind; the first four tell where they end.
const HEADER: u64 = 2048;

/// The first four of eight bytes as a number, if all eight are read as one.
const FIRST: u64 = 0xFFFF_FFFF;

/// Whether the compiled file (https://cr.yp.to/cdb/cdb.txt) at a path has a rule by a host's name (`=`) or a user
/// (`@`). It reads at most 16 MiB, and answers `false` if a record can't be read or there is no memory.
pub fn has_named_rule<R: Files<File = File>>(alloc: Global, files: &R, path: &str) -> bool {
    // (to open something other than a file may take for ever)
    let is_file = files.metadata(path).is_ok_and(|found| found.is_file());
    if !is_file {
        return false;
    }
    let Ok(file) = File::open(files, path) else {
        return false;
    };
    match BufReader::new(alloc, file) {
        Ok(mut reader) => has_name(&mut reader).unwrap_or(false),
        Err(_) => false,
    }
}

// Whether the key of a record has a `=` or a `@`. A record begins with the lengths of its key and of its value, of four
// bytes each: so there are fewer records than bytes.
fn has_name<R: Read>(file: &mut R) -> io::Result<bool> {
    let mut bytes = [0; 8];
    file.read_exact(&mut bytes)?;
    let end = (u64::from_le_bytes(bytes) & FIRST).min(MOST);
    io::copy(&mut file.by_ref().take(HEADER - 8), &mut io::sink())?;
    let mut records = file.take(end.saturating_sub(HEADER));
    for _ in 0..end {
        records.read_exact(&mut bytes)?;
        let lengths = u64::from_le_bytes(bytes);
        let mut named = false;
        for byte in records.by_ref().take(lengths & FIRST).bytes() {
            named |= matches!(byte?, b'=' | b'@');
        }
        if named {
            return Ok(true);
        }
        io::copy(&mut records.by_ref().take(lengths >> 32), &mut io::sink())?;
    }
    Ok(false)
}
