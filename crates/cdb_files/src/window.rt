//! Bytes of a file that were read together.
ghost use Rattle.std.specs.Prelude.{◌≡◌, ◌≤◌, ◌+◌, ◌-◌, [], length, IsTrue};
ghost use Rattle.cdb_files.specs.Format.{two_numbers_at};
ghost use Rattle.cdb_files.specs.Parts.{Covers, bytes_at};

use byteorder::{ByteOrder, LittleEndian};
use std::alloc::Global;

/// How many bytes are read at once, at most.
const PIECE: usize = 65536;

/// How much of a table is read at first: most lookups end in it.
pub(crate) const FIRST_SLOTS: usize = 4096;

/// How much of a record is read at first: most are no longer.
pub(crate) const FIRST_RECORD: usize = 128;

/// How much of a value is read at once.
pub(crate) const VALUE_PIECE: usize = 4096;

/// How much longer the next read is for each answer of the last: less than it costs to read again.
const MORE: usize = 1024;

/// The bytes from a position on.
#[derive(Drop)]
pub(crate) struct Window {
    pub(crate) position: u64,
    pub(crate) bytes: Vec<u8>,
    first: usize,
    next: usize,
}

impl Window {
    /// No bytes, where so many are read at first.
    pub(crate) fn empty(alloc: Global, first: usize) -> Window
        ensures { result.bytes.items ≡ [] }
    {
        Window {
            position: 0,
            bytes: Vec::new(alloc),
            first,
            next: first,
        }
    }

    /// Whether it has so many bytes from a position on.
    pub(crate) fn has(&self, position: u64, len: usize) -> bool
        ensures { IsTrue result → Covers self.now position len }
    {
        match position.checked_sub(self.position) {
            Some(at) => len <= self.bytes.len() && at <= (self.bytes.len() - len) as u64,
            None => false,
        }
    }

    /// So many bytes from a position on that it has.
    pub(crate) fn part(&self, position: u64, len: usize) -> &[u8]
        requires { Covers self.now position len }
        ensures { result.now ≡ bytes_at self.now.bytes.items (position - self.now.position) len }
    {
        let at = (position - self.position) as usize;
        &self.bytes[at..at + len]
    }

    /// The two numbers at a position that it has.
    pub(crate) fn numbers(&self, position: u64) -> (u32, u32)
        requires { Covers self.now position 8 }
        ensures { result ≡ two_numbers_at self.now.bytes.items (position - self.now.position) }
    {
        let at = (position - self.position) as usize;
        let first = LittleEndian::read_u32(&self.bytes[at..]);
        let second = LittleEndian::read_u32(&self.bytes[at + 4..]);
        (first, second)
    }

    /// Lets the next read be longer, after an answer.
    pub(crate) fn answered(&mut self)
        ensures position { self.new.position ≡ self.old.position }
        ensures bytes { self.new.bytes ≡ self.old.bytes }
    {
        if self.next < PIECE {
            self.next += MORE;
        }
    }

    /// How many bytes are read next, where so many are needed and so many are left.
    pub(crate) fn next_len(&self, needed: usize, left: u64) -> usize
        requires { needed ≤ left }
        ensures least { needed ≤ result }
        ensures most { result ≤ left }
    {
        left.min(self.next as u64).max(needed as u64) as usize
    }

    /// Takes bytes from a position on.
    pub(crate) fn fill(&mut self, position: u64, bytes: Vec<u8>)
        ensures position { self.new.position ≡ position }
        ensures bytes { self.new.bytes ≡ bytes }
    {
        self.position = position;
        self.bytes = bytes;
        self.next = self.first;
    }
}
