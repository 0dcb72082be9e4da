//! Lookups in a compiled file.
ghost use Rattle.std.specs.Prelude.{◌≡◌, ◌≢◌, ◌≤◌, ◌<◌, ◌+◌, ◌*◌, ◌^◌, ◌%◌, bytes_eq, length, Some, IsTrue, IfOk, IfErr, IfSome, OnOk};
ghost use Rattle.cdb_files.specs.Format.{two_numbers_at};
ghost use Rattle.cdb_files.specs.Parts.{AddsCodes, CodeFails, Covers, FailsOf, IsFault, IsFirst, IsInside, IsReadFault, IsWindowOf, ReadFails, SettingsFail, Tells, bytes_at, found_in_slots, record_at, value_of, value_position};
ghost use Rattle.cdb_files.specs.Reading.{lies_in, reading};
ghost use Rattle.cdb_files.specs.Sources.{trust_of};
ghost use Rattle.rule_lookup.specs.Codes.{decoded, settings_in};
ghost use Rattle.rule_lookup.specs.Lines.{has_byte, pieces_of};
ghost use Rattle.rule_lookup.specs.Lookups.Trust.{Sound};

use crate::hash;
use crate::layout::HEADER_LENGTH;
use crate::stage::{Stage, text_front};
use crate::window::{FIRST_RECORD, FIRST_SLOTS, VALUE_PIECE, Window};
use byteorder::{ByteOrder, LittleEndian};
use dir_calls::RulesFile;
use rule_lookup::{
    CodeFault, DecideFault, FindFault, Instr, RuleSource, Settings, decode_instr, push_parts,
    push_settings, split_at_byte, split_verdict,
};
use std::alloc::Global;
use std::marker::Model;

/// Where a record stands: its position, and the lengths of its key and of its value.
#[derive(Clone, Copy)]
struct Stored {
    position: u32,
    key_len: u32,
    value_len: u32,
}

impl Stored {
    /// The position of its value.
    fn value_position(self) -> u64
        ensures { result ≡ value_position self }
    {
        u64::from(self.position) + 8 + u64::from(self.key_len)
    }
}

/// The index that is so many behind the first, where the last index is followed by 0.
fn turned(first: u64, passed: u64, slots: u64) -> u64
    requires first_inside { first < slots }
    requires passed_inside { passed < slots }
    requires fits { slots < 2 ^ 32 }
    ensures { result ≡ (first + passed) % slots }
{
    let index = first + passed;
    if index < slots { index } else { index - slots }
}

/// An opened compiled file, as a source of pairs.
#[derive(Drop)]
pub struct CdbFile<F: RulesFile> {
    file: F,
}

impl<F: RulesFile> Model for CdbFile<F> {
    ghost Value = { F };

    ghost view = { λ c. c.file };
}

/// Whether a byte stands among others.
fn has(byte: u8, bytes: &[u8]) -> bool
    ensures { result ≡ has_byte byte bytes.now }
{
    split_at_byte(byte, bytes).is_some()
}

impl<F: RulesFile> CdbFile<F> {
    /// The file as a source.
    pub fn new(file: F) -> CdbFile<F>
        ensures { result ≡ file }
    {
        CdbFile { file }
    }

    /// Whether so many bytes from a position on lie in the file.
    fn holds(&self, position: u64, len: u64) -> bool
        requires { position + len < 2 ^ 64 }
        ensures { IsTrue F.honest → result ≡ lies_in (F.bytes self.now) position len }
    {
        position + len <= self.file.len()
    }

    /// Fills `buf` with the bytes from a position on. After a fault `buf` may hold anything.
    fn read_full(&self, position: u64, buf: &mut [u8]) -> Result<(), FindFault>
        requires fits { position + length buf.old < 2 ^ 64 }
        requires inside { IsTrue F.honest → position + length buf.old ≤ length (F.bytes self.now) }
        ensures filled { IsTrue F.honest → OnOk result (buf.new ≡ bytes_at (F.bytes self.now) position (length buf.old)) }
        ensures fault { IfErr result (ReadFails F.honest F.sound) }
    {
        let mut done = 0;
        while done < buf.len() {
            match self.file.read_at(position + done as u64, &mut buf[done..]) {
                Ok(0) => return Err(FindFault::Short),
                Ok(count) => done += count,
                Err(_) => return Err(FindFault::Device),
            }
        }
        Ok(())
    }

    /// So many bytes from a position on.
    fn bytes_at(&self, alloc: Global, position: u64, len: usize) -> Result<Vec<u8>, FindFault>
        requires fits { position + len < 2 ^ 64 }
        requires inside { IsTrue F.honest → position + len ≤ length (F.bytes self.now) }
        ensures length { IfOk result (λ v. length v.items ≡ len) }
        ensures bytes { IsTrue F.honest → IfOk result (λ v. v.items ≡ bytes_at (F.bytes self.now) position len) }
        ensures fault { IfErr result (ReadFails F.honest F.sound) }
    {
        let mut bytes = vec![in alloc; 0; len]?;
        self.read_full(position, bytes.as_mut_slice())?;
        Ok(bytes)
    }

    /// The two numbers at a position.
    fn two_numbers(&self, position: u64) -> Result<(u32, u32), FindFault>
        requires fits { position + 8 < 2 ^ 64 }
        requires inside { IsTrue F.honest → position + 8 ≤ length (F.bytes self.now) }
        ensures numbers { IsTrue F.honest → IfOk result (λ pair. pair ≡ two_numbers_at (F.bytes self.now) position) }
        ensures fault { IfErr result (ReadFails F.honest F.sound) }
    {
        let mut buf = [0; 8];
        self.read_full(position, &mut buf)?;
        let first = LittleEndian::read_u32(&buf);
        let second = LittleEndian::read_u32(&buf[4..]);
        Ok((first, second))
    }

    /// Lets a window have so many bytes from a position on, read in its place where it has not, and no further than an
    /// end.
    fn cover(
        &self,
        alloc: Global,
        window: &mut Window,
        position: u64,
        len: usize,
        end: u64,
    ) -> Result<(), FindFault>
        requires fits { position + len ≤ end }
        requires inside { IsTrue F.honest → end ≤ length (F.bytes self.now) }
        requires read { IsTrue F.honest → IsWindowOf (F.bytes self.now) window.old }
        ensures covers { OnOk result (Covers window.new position len) }
        ensures read { IsTrue F.honest → OnOk result (IsWindowOf (F.bytes self.now) window.new) }
        ensures fault { IfErr result (ReadFails F.honest F.sound) }
    {
        if window.has(position, len) {
            window.answered();
            return Ok(());
        }
        let bytes = self.bytes_at(alloc, position, window.next_len(len, end - position))?;
        window.fill(position, bytes);
        Ok(())
    }

    /// The two numbers at a position, by a window.
    fn windowed_numbers(
        &self,
        alloc: Global,
        window: &mut Window,
        position: u64,
        end: u64,
    ) -> Result<(u32, u32), FindFault>
        requires fits { position + 8 ≤ end }
        requires inside { IsTrue F.honest → end ≤ length (F.bytes self.now) }
        requires read { IsTrue F.honest → IsWindowOf (F.bytes self.now) window.old }
        ensures numbers { IsTrue F.honest → IfOk result (λ pair. pair ≡ two_numbers_at (F.bytes self.now) position) }
        ensures read { IsTrue F.honest → IfOk result (λ pair. IsWindowOf (F.bytes self.now) window.new) }
        ensures fault { IfErr result (ReadFails F.honest F.sound) }
    {
        self.cover(alloc, window, position, 8, end)?;
        Ok(window.numbers(position))
    }

    /// Whether a key stands at a position, by a window.
    fn has_key_at(
        &self,
        alloc: Global,
        window: &mut Window,
        position: u64,
        key: &[u8],
        end: u64,
    ) -> Result<bool, FindFault>
        requires fits { position + length key.now ≤ end }
        requires inside { IsTrue F.honest → end ≤ length (F.bytes self.now) }
        requires read { IsTrue F.honest → IsWindowOf (F.bytes self.now) window.old }
        ensures same { IsTrue F.honest
            → IfOk result (λ same. same ≡ bytes_eq (bytes_at (F.bytes self.now) position (length key.now)) key.now) }
        ensures read { IsTrue F.honest → IfOk result (λ same. IsWindowOf (F.bytes self.now) window.new) }
        ensures fault { IfErr result (ReadFails F.honest F.sound) }
    {
        self.cover(alloc, window, position, key.len(), end)?;
        Ok(window.part(position, key.len()) == key)
    }

    /// The record at a position, or `None` where it has another key. One that does not lie in the file is `Short`.
    fn record_at(
        &self,
        alloc: Global,
        window: &mut Window,
        position: u32,
        key: &[u8],
    ) -> Result<Option<Stored>, FindFault>
        requires read { IsTrue F.honest → IsWindowOf (F.bytes self.now) window.old }
        ensures found { IsTrue F.honest → Tells (F.bytes self.now) (record_at (F.bytes self.now) key.now position) result }
        ensures read { IsTrue F.honest → IfOk result (λ found. IsWindowOf (F.bytes self.now) window.new) }
        ensures fault { IfErr result (IsFault F.honest F.sound (record_at (F.bytes self.now) key.now position)) }
    {
        let end = self.file.len();
        let record = u64::from(position);
        if record + 8 > end {
            return Err(FindFault::Short);
        }
        let (key_len, value_len) = self.windowed_numbers(alloc, window, record, end)?;
        if record + 8 + u64::from(key_len) + u64::from(value_len) > end {
            return Err(FindFault::Short);
        }
        if key_len as usize != key.len() {
            return Ok(None);
        }
        if !self.has_key_at(alloc, window, record + 8, key, end)? {
            return Ok(None);
        }
        Ok(Some(Stored {
            position,
            key_len,
            value_len,
        }))
    }

    /// What the slots of a table have for a key: the first of the probe that is not passed decides.
    fn find_in_table(
        &self,
        alloc: Global,
        key: &[u8],
        table: u32,
        slots: u32,
    ) -> Result<Option<Stored>, FindFault>
        requires some_slots { 0 < slots }
        requires inside { IsTrue F.honest → table + 8 * slots ≤ length (F.bytes self.now) }
        ensures found { IsTrue F.honest → Tells (F.bytes self.now) (found_in_slots (F.bytes self.now) key.now (table, slots)) result }
        ensures fault { FailsOf F.honest F.sound (found_in_slots (F.bytes self.now) key.now (table, slots)) result }
    {
        let key_hash = hash(key);
        let first = u64::from(key_hash / 256 % slots);
        let count = u64::from(slots);
        let begin = u64::from(table);
        let mut slot_window = Window::empty(alloc, FIRST_SLOTS);
        let mut record_window = Window::empty(alloc, FIRST_RECORD);
        for passed in 0..count {
            let slot = begin + 8 * turned(first, passed, count);
            let (slot_hash, position) = self.windowed_numbers(
                alloc,
                &mut slot_window,
                slot,
                begin + 8 * count,
            )?;
            if position == 0 {
                return Ok(None);
            }
            if slot_hash != key_hash {
                continue;
            }
            if let Some(stored) = self.record_at(alloc, &mut record_window, position, key)? {
                return Ok(Some(stored));
            }
        }
        Ok(None)
    }

    /// The record that a lookup finds.
    fn find_record(&self, alloc: Global, key: &[u8]) -> Result<Option<Stored>, FindFault>
        ensures found { IsTrue F.honest → Tells (F.bytes self.now) (reading (F.bytes self.now) key.now) result }
        ensures fault { FailsOf F.honest F.sound (reading (F.bytes self.now) key.now) result }
    {
        if !self.holds(0, HEADER_LENGTH as u64) {
            return Err(FindFault::Short);
        }
        let (table, slots) = self.two_numbers(8 * u64::from(hash(key) % 256))?;
        if slots == 0 {
            return Ok(None);
        }
        if !self.holds(u64::from(table), 8 * u64::from(slots)) {
            return Err(FindFault::Short);
        }
        self.find_in_table(alloc, key, table, slots)
    }

    /// Refuses a value that is no code by the piece that shows it; one that it lets pass may still be none.
    fn check_code(&self, alloc: Global, stored: Stored) -> Result<(), DecideFault>
        requires inside { IsTrue F.honest → IsInside (F.bytes self.now) stored }
        ensures refused { IfErr result (CodeFails F.honest F.sound (value_of (F.bytes self.now) stored)) }
    {
        let len = stored.value_len as usize;
        let mut stage = Stage::Nothing;
        let mut done = 0;
        while done < len {
            let count = (len - done).min(VALUE_PIECE);
            let piece = self.read(alloc, stored.value_position() + done as u64, count)?;
            let Some(front) = text_front(&piece, done + count == len) else {
                return Err(DecideFault::Code(CodeFault::NotCode));
            };
            stage = stage.from(&piece[..front]);
            if stage.is_no_code() {
                return Err(DecideFault::Code(CodeFault::NotCode));
            }
            done += front;
        }
        if stage.may_end() {
            Ok(())
        } else {
            Err(DecideFault::Code(CodeFault::NotCode))
        }
    }

    /// So many bytes from a position on, with the faults of a decision.
    fn read(&self, alloc: Global, position: u64, len: usize) -> Result<Vec<u8>, DecideFault>
        requires fits { position + len < 2 ^ 64 }
        requires inside { IsTrue F.honest → position + len ≤ length (F.bytes self.now) }
        ensures length { IfOk result (λ v. length v.items ≡ len) }
        ensures bytes { IsTrue F.honest → IfOk result (λ v. v.items ≡ bytes_at (F.bytes self.now) position len) }
        ensures refused { IfErr result (IsReadFault F.honest F.sound) }
    {
        match self.bytes_at(alloc, position, len) {
            Ok(bytes) => Ok(bytes),
            Err(fault) => Err(DecideFault::of_look_up(fault)),
        }
    }

    /// Where a byte first stands among so many from a position on, counted from there. No more than a piece of them is
    /// held.
    fn find_byte(
        &self,
        alloc: Global,
        byte: u8,
        position: u64,
        len: usize,
    ) -> Result<Option<usize>, DecideFault>
        requires fits { position + len < 2 ^ 64 }
        requires inside { IsTrue F.honest → position + len ≤ length (F.bytes self.now) }
        ensures within { IfOk result (λ found. IfSome found (λ at. at < len)) }
        ensures first { IsTrue F.honest
            → IfOk result (λ found. IsFirst byte (bytes_at (F.bytes self.now) position len) found) }
        ensures refused { IfErr result (IsReadFault F.honest F.sound) }
    {
        let mut done = 0;
        while done < len {
            let count = (len - done).min(VALUE_PIECE);
            let piece = self.read(alloc, position + done as u64, count)?;
            if let Some((before, _)) = split_at_byte(byte, &piece) {
                return Ok(Some(done + before.len()));
            }
            done += count;
        }
        Ok(None)
    }

    /// Adds the setting whose code stands at the front of so many bytes from a position on, and answers how long that
    /// is. Its name and its value are read into the memory that they keep; besides, no more than a piece is held.
    fn push_long(
        &self,
        alloc: Global,
        position: u64,
        len: usize,
        settings: &mut Settings,
    ) -> Result<usize, DecideFault>
        requires fits { position + len < 2 ^ 64 }
        requires some { 0 < len }
        requires inside { IsTrue F.honest → position + len ≤ length (F.bytes self.now) }
        ensures moves { IfOk result (λ count. (0 < count) × (count ≤ len)) }
        ensures added { IsTrue F.honest → IfOk result (AddsCodes (bytes_at (F.bytes self.now) position len)
            settings.old settings.new) }
        ensures refused { IfErr result (SettingsFail F.honest F.sound (bytes_at (F.bytes self.now) position len)) }
    {
        let Some(end) = self.find_byte(alloc, 0, position, len)? else {
            return Err(DecideFault::Code(CodeFault::NotCode));
        };
        let Some(equals) = self.find_byte(alloc, b'=', position, end)? else {
            return Err(DecideFault::Code(CodeFault::NotCode));
        };
        let mut name = self.read(alloc, position, equals)?;
        if !name.starts_with(b"+") {
            return Err(DecideFault::Code(CodeFault::NotCode));
        }
        name.remove(0);
        let value = self.read(alloc, position + equals as u64 + 1, end - equals - 1)?;
        // these bytes stand in the parts only if the file changed meanwhile
        if has(b'=', &name) || has(0, &name) || has(0, &value) {
            return Err(DecideFault::Code(CodeFault::NotCode));
        }
        match push_parts(name, value, settings) {
            Ok(()) => Ok(end + 1),
            Err(fault) => Err(DecideFault::of_code(fault)),
        }
    }

    /// Adds settings whose codes stand at the front of so many bytes from a position on, one at least, and answers how
    /// long these codes are.
    fn push_next(
        &self,
        alloc: Global,
        position: u64,
        len: usize,
        settings: &mut Settings,
    ) -> Result<usize, DecideFault>
        requires fits { position + len < 2 ^ 64 }
        requires some { 0 < len }
        requires inside { IsTrue F.honest → position + len ≤ length (F.bytes self.now) }
        ensures moves { IfOk result (λ count. (0 < count) × (count ≤ len)) }
        ensures added { IsTrue F.honest → IfOk result (AddsCodes (bytes_at (F.bytes self.now) position len)
            settings.old settings.new) }
        ensures refused { IfErr result (SettingsFail F.honest F.sound (bytes_at (F.bytes self.now) position len)) }
    {
        let piece = self.read(alloc, position, len.min(VALUE_PIECE))?;
        let count = match push_settings(alloc, &piece, settings) {
            Ok(rest) => piece.len() - rest.len(),
            Err(fault) => return Err(DecideFault::of_code(fault)),
        };
        if count > 0 {
            return Ok(count);
        }
        self.push_long(alloc, position, len, settings)
    }

    /// The settings whose codes so many bytes from a position on are, decoded as they are read: besides the settings no
    /// more is held than a piece.
    fn settings_at(&self, alloc: Global, position: u64, len: usize) -> Result<Settings, DecideFault>
        requires fits { position + len < 2 ^ 64 }
        requires inside { IsTrue F.honest → position + len ≤ length (F.bytes self.now) }
        ensures found { IsTrue F.honest → IfOk result (λ settings.
            settings_in (pieces_of 0 (bytes_at (F.bytes self.now) position len)) ≡ Some settings) }
        ensures refused { IfErr result (SettingsFail F.honest F.sound (bytes_at (F.bytes self.now) position len)) }
    {
        let mut settings = Settings::new(alloc);
        let mut done = 0;
        while done < len {
            done += self.push_next(alloc, position + done as u64, len - done, &mut settings)?;
        }
        Ok(settings)
    }

    /// The instruction whose code a long value is.
    fn decode_long(&self, alloc: Global, stored: Stored) -> Result<Instr, DecideFault>
        requires inside { IsTrue F.honest → IsInside (F.bytes self.now) stored }
        requires long { 2 ≤ stored.value_len }
        ensures decoded { IsTrue F.honest
            → IfOk result (λ instr. decoded (value_of (F.bytes self.now) stored) ≡ Some instr) }
        ensures refused { IfErr result (CodeFails F.honest F.sound (value_of (F.bytes self.now) stored)) }
    {
        let head = self.read(alloc, stored.value_position(), 2)?;
        let (verdict, codes) = split_verdict(&head);
        let begin = 2 - codes.len();
        let settings = self.settings_at(
            alloc,
            stored.value_position() + begin as u64,
            stored.value_len as usize - begin,
        )?;
        Ok(Instr { verdict, settings })
    }

    /// The instruction whose code the value of a record is.
    fn decode(&self, alloc: Global, stored: Stored) -> Result<Instr, DecideFault>
        requires inside { IsTrue F.honest → IsInside (F.bytes self.now) stored }
        ensures decoded { IsTrue F.honest
            → IfOk result (λ instr. decoded (value_of (F.bytes self.now) stored) ≡ Some instr) }
        ensures refused { IfErr result (CodeFails F.honest F.sound (value_of (F.bytes self.now) stored)) }
    {
        if stored.value_len as usize > VALUE_PIECE {
            self.check_code(alloc, stored)?;
            return self.decode_long(alloc, stored);
        }
        let code = self.read(alloc, stored.value_position(), stored.value_len as usize)?;
        match decode_instr(alloc, &code) {
            Ok(instr) => Ok(instr),
            Err(fault) => Err(DecideFault::of_code(fault)),
        }
    }
}

impl<F: RulesFile> RuleSource for CdbFile<F> {
    ghost finds = { λ source key. reading (F.bytes source) key };

    ghost trust = { λ _. trust_of F.honest F.sound };

    ghost may_fail = { λ _ _. trust_of F.honest F.sound ≢ Sound };

    fn find_instr(&self, alloc: Global, key: &[u8]) -> Result<Option<Instr>, DecideFault> {
        match self.find_record(alloc, key) {
            Ok(Some(stored)) => Ok(Some(self.decode(alloc, stored)?)),
            Ok(None) => Ok(None),
            Err(fault) => Err(DecideFault::of_look_up(fault)),
        }
    }
}
