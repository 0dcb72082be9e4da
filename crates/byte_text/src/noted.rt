//! Streams that note the error of a call that fails.
ghost use Rattle.std.specs.Prelude.{◌≡◌, None};
ghost use Rattle.std.specs.Io.{ReadsAtMost, WritesAtMost};
ghost use Rattle.std.specs.Io.KnownBytes.{Keeps, ReadConsumes, WriteAppends};
ghost use Rattle.byte_text.specs.Numbers.{number_of};

use std::io::{Read, Result, Write};

/// A stream that notes the system's number for the error of its last call.
///
/// So the cause can be told where a call answers no more than a fault. It reads and writes what its stream does.
#[derive(Drop)]
pub struct NotingStream<S> {
    stream: S,
    error: Option<i32>,
}

impl<S> NotingStream<S> {
    ghost use Rattle.byte_text.specs.NotingStream.{noted_error, noted_stream};

    /// Wraps a stream of which no call has failed.
    pub fn new(stream: S) -> NotingStream<S>
        ensures error { noted_error result ≡ None }
        ensures stream { noted_stream result ≡ stream }
    {
        NotingStream {
            stream,
            error: None,
        }
    }

    /// The system's number for the error of the last call. `None` if the call did not fail, or if the system has no
    /// number for its error.
    pub fn error(&self) -> Option<i32>
        ensures { result ≡ noted_error self.now }
    {
        self.error
    }
}

// The system's number for the error of a call, if the call failed and the error has one.
fn error_of<T>(outcome: &Result<T>) -> Option<i32>
    ensures { result ≡ number_of outcome.now }
{
    match outcome {
        Ok(_) => None,
        Err(error) => error.raw_os_error(),
    }
}

impl<S: Read> Read for NotingStream<S> {
    ghost use Rattle.byte_text.specs.NotingStream.{noted_error, noted_stream};

    ghost remaining = { λ noted. S.remaining noted.stream };

    fn read(&mut self, buf: &mut [u8]) -> Result<usize>
        ensures bound { ReadsAtMost result buf.new }
        ensures bytes { ReadConsumes (S.remaining (noted_stream self.old)) (S.remaining (noted_stream self.new))
            result buf.new }
        ensures noted { noted_error self.new ≡ number_of result }
    {
        let outcome = self.stream.read(buf);
        self.error = error_of(&outcome);
        outcome
    }
}

impl<S: Write> Write for NotingStream<S> {
    ghost use Rattle.byte_text.specs.NotingStream.{noted_error, noted_stream};

    ghost contents = { λ noted. S.contents noted.stream };

    fn write(&mut self, buf: &[u8]) -> Result<usize>
        ensures bound { WritesAtMost result buf.now }
        ensures bytes { WriteAppends (S.contents (noted_stream self.old)) (S.contents (noted_stream self.new))
            result buf.now }
        ensures noted { noted_error self.new ≡ number_of result }
    {
        let outcome = self.stream.write(buf);
        self.error = error_of(&outcome);
        outcome
    }

    fn flush(&mut self) -> Result<()>
        ensures bytes { Keeps (S.contents (noted_stream self.old)) (S.contents (noted_stream self.new)) }
        ensures noted { noted_error self.new ≡ number_of result }
    {
        let outcome = self.stream.flush();
        self.error = error_of(&outcome);
        outcome
    }
}
