//! What was read of a text, so that a faulty line of it can be shown.
ghost use Rattle.std.specs.Prelude.{◌≡◌};

use rule_lookup::lines::first_line;
use std::alloc::Global;
use std::io::{Read, Result};

/// So many bytes of a text are kept. A line that stands behind them is not shown.
const KEPT: usize = 262_144;

/// A reader that keeps the beginning of what it gives, where there is memory for it.
#[derive(Drop)]
pub struct KeepingReader<R> {
    reader: R,
    kept: Vec<u8>,
    whole: bool,
}

impl<R> KeepingReader<R> {
    ghost use Rattle.fault_hints.specs.Kept.{kept_reader};

    /// One that has given nothing.
    pub fn new(alloc: Global, reader: R) -> KeepingReader<R>
        ensures { kept_reader result ≡ reader }
    {
        KeepingReader {
            reader,
            kept: Vec::new(alloc),
            whole: true,
        }
    }

    /// Puts a line of the text, from 1, into a buffer, where it was kept to its end and there is memory for it; else
    /// the buffer is empty.
    pub fn copy_line(&self, number: u64, out: &mut Vec<u8>) {
        out.clear();
        let mut rest = self.kept.as_slice();
        for line in 1..=number {
            if rest.is_empty() {
                return;
            }
            let (first, after) = first_line(rest);
            if line == number {
                let ended = self.whole || first.len() < rest.len();
                if ended && out.extend_from_slice(first).is_err() {
                    out.clear();
                }
                return;
            }
            rest = after;
        }
    }
}

impl<R: Read> Read for KeepingReader<R> {
    ghost remaining = { λ keeping. R.remaining keeping.reader };

    fn read(&mut self, buf: &mut [u8]) -> Result<usize> {
        let outcome = self.reader.read(buf);
        if let Ok(count) = &outcome {
            keep(&mut self.kept, &mut self.whole, &buf[..*count]);
        }
        outcome
    }
}

// Keeps a piece that was read, as far as there is room; once one was not kept whole no more is.
fn keep(kept: &mut Vec<u8>, whole: &mut bool, piece: &[u8]) {
    if !*whole {
        return;
    }
    let room = KEPT.saturating_sub(kept.len());
    let front = &piece[..piece.len().min(room)];
    if kept.extend_from_slice(front).is_err() || front.len() < piece.len() {
        *whole = false;
    }
}
