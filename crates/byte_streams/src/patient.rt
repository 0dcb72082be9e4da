//! Streams that wait when the system says that a call would block.
use std::io::{Error, ErrorKind, Read, Result, Write};
use std::thread;
use std::time::{Clock, Duration};

/// How many milliseconds pass before a call is tried again.
const PAUSE: u64 = 5;

/// A stream that waits, though its descriptor may have been left non-blocking by whoever opened it.
///
/// A read or a write that would block is tried again after five milliseconds. So nothing is lost, as if the descriptor
/// blocked.
#[derive(Drop)]
pub struct Patient<'a, C, S> {
    clock: &'a C,
    stream: S,
}

impl<'a, C: Clock, S> Patient<'a, C, S> {
    /// A stream that waits by this clock.
    pub fn new(clock: &'a C, stream: S) -> Patient<'a, C, S> {
        Patient { clock, stream }
    }
}

// Whether a fault says that the call would have blocked.
fn would_wait(error: &Error) -> bool {
    error.kind() == ErrorKind::WouldBlock
}

impl<'a, C: Clock, S: Read> Read for Patient<'a, C, S> {
    ghost remaining = { λ patient. S.remaining patient.stream };

    fn read(&mut self, buf: &mut [u8]) -> Result<usize> {
        for _ in 0..u64::MAX {
            match self.stream.read(buf) {
                Err(error) if would_wait(&error) => thread::sleep(
                    self.clock,
                    Duration::from_millis(PAUSE),
                ),
                outcome => return outcome,
            }
        }
        Err(Error::from(ErrorKind::WouldBlock))
    }
}

impl<'a, C: Clock, S: Write> Write for Patient<'a, C, S> {
    ghost contents = { λ patient. S.contents patient.stream };

    fn write(&mut self, buf: &[u8]) -> Result<usize> {
        for _ in 0..u64::MAX {
            match self.stream.write(buf) {
                Err(error) if would_wait(&error) => thread::sleep(
                    self.clock,
                    Duration::from_millis(PAUSE),
                ),
                outcome => return outcome,
            }
        }
        Err(Error::from(ErrorKind::WouldBlock))
    }

    fn flush(&mut self) -> Result<()> {
        self.stream.flush()
    }
}
