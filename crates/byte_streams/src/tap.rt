//! Taps: what watches a stream as it goes through a pump.
ghost use Rattle.std.specs.Io.KnownBytes.{Appends};
ghost use Rattle.std.specs.Prelude.{◌≡◌, ◌≤◌, false, length, true, ℕ, List, ⊤};
ghost use Rattle.byte_streams.specs.declared.recording.Way.{Way};
ghost use Rattle.byte_streams.specs.declared.recording.Way.TheVariants.{Input};
ghost use Rattle.byte_streams.specs.Records.{end_text, longest_piece, record_text};
ghost use Rattle.byte_streams.specs.declared.recording.TheConstants.{PIPE_BUF};
ghost use Rattle.byte_streams.specs.Recorders.{Writes, has_failed, number_of, records_text, way_of, writer_of};
ghost use Rattle.byte_streams.specs.Taps.{changed_by, watched_by};

use crate::{Way, longest_piece, record, record_end};
use std::alloc::Global;
use std::io::Write;

/// A tap: it watches one way of a stream.
///
/// A pump shows it each piece once, in order: the pieces that the pump reads if it watches the way in, and those that
/// the chain gives if it watches the way out.
pub trait Tap {
    /// The way that it watches.
    ghost watches: { Self → Way };

    /// How being shown a piece changes it: before, the piece, after.
    ghost sees: { Self → List ℕ → Self → Type 0 };

    /// How being told of the end changes it: before, after.
    ghost ends: { Self → Self → Type 0 };

    /// The way that it watches.
    fn way(&self) -> Way
        ensures { result ≡ watches self.now };

    /// Shows it the next piece. It may wait.
    fn seen(&mut self, piece: &[u8])
        ensures seen { sees self.old piece.now self.new }
        ensures same { watches self.new ≡ watches self.old };

    /// Tells it that the stream has ended, after its last piece. It may wait.
    fn ended(&mut self)
        ensures ended { ends self.old self.new }
        ensures same { watches self.new ≡ watches self.old };
}

/// A tap that looks at nothing.
#[derive(Clone, Copy, Default)]
pub struct NoTap;

impl Tap for NoTap {
    ghost watches = { λ _. Input };

    ghost sees = { λ _ _ _. ⊤ };

    ghost ends = { λ _ _. ⊤ };

    fn way(&self) -> Way {
        Way::Input
    }

    fn seen(&mut self, _piece: &[u8]) {}

    fn ended(&mut self) {}
}

/// A tap that may be left out: then nothing is looked at.
impl<T: Tap> Tap for Option<T> {
    ghost watches = { watched_by T.watches };

    ghost sees = { λ old piece. changed_by (λ tap. T.sees tap piece) old };

    ghost ends = { changed_by T.ends };

    fn way(&self) -> Way {
        match self {
            Some(tap) => tap.way(),
            None => Way::Input,
        }
    }

    fn seen(&mut self, piece: &[u8]) {
        if let Some(tap) = self {
            tap.seen(piece);
        }
    }

    fn ended(&mut self) {
        if let Some(tap) = self {
            tap.ended();
        }
    }
}

/// The tap of `recordio`: it writes the lines of `record` for each piece, and that of `record_end` at the end.
///
/// It cuts a piece into parts of `longest_piece` bytes. The lines of a part go by one write, which a pipe takes whole:
/// no line of another process lands among them. Once memory was lacking or a write failed it writes no more.
#[derive(Drop)]
pub struct Recorder<W> {
    number: u64,
    way: Way,
    writer: W,
    failed: bool,
    // room for the lines of a piece
    lines: Vec<u8>,
}

impl<W: Write> Recorder<W> {
    /// A recorder of this number and way over a writer. It takes no memory.
    pub fn new(alloc: Global, number: u64, way: Way, writer: W) -> Recorder<W>
        ensures number { number_of result ≡ number }
        ensures way { way_of result ≡ way }
        ensures writer { writer_of result ≡ writer }
        ensures failed { has_failed result ≡ false }
    {
        Recorder {
            number,
            way,
            writer,
            failed: false,
            lines: Vec::new(alloc),
        }
    }
}

impl<W: Write> Tap for Recorder<W> {
    ghost watches = { way_of };

    ghost sees = { λ old text new. Writes W.contents old (records_text (number_of old) (way_of old) text) new };

    ghost ends = { λ old new. Writes W.contents old (end_text (number_of old) (way_of old)) new };

    fn way(&self) -> Way {
        self.way
    }

    fn seen(&mut self, piece: &[u8]) {
        let longest = longest_piece(self.number);
        let mut rest = piece;
        while !self.failed && !rest.is_empty() {
            let (front, behind) = rest.split_at(longest.min(rest.len()));
            self.record_piece(front);
            rest = behind;
        }
    }

    fn ended(&mut self) {
        if self.failed {
            return;
        }
        self.lines.clear();
        let done = record_end(self.number, self.way, &mut self.lines);
        self.write_lines(done.is_ok());
    }
}

impl<W: Write> Recorder<W> {
    fn record_piece(&mut self, piece: &[u8])
        requires goes_on { has_failed self.old ≡ false }
        requires short { length piece.now ≤ longest_piece (number_of self.old) }
        ensures { Writes W.contents self.old (record_text (number_of self.old) (way_of self.old) piece.now) self.new }
    {
        self.lines.clear();
        let done = record(self.number, self.way, piece, &mut self.lines);
        self.write_lines(done.is_ok());
    }

    /// Writes the lines by one write, unless they could not be made.
    fn write_lines(&mut self, made: bool)
        requires fits { length self.old.lines.items ≤ PIPE_BUF }
        ensures number { number_of self.new ≡ number_of self.old }
        ensures way { way_of self.new ≡ way_of self.old }
        ensures wrote { has_failed self.new ≡ false → (made ≡ true)
            × Appends (W.contents (writer_of self.old)) (W.contents (writer_of self.new)) self.old.lines.items }
    {
        self.failed = !made || self.writer.write_all(&self.lines).is_err();
    }
}
