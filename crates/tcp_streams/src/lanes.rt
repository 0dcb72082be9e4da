//! One way of a pumped connection, from a stream to another one. No call of it waits.
ghost use Rattle.std.specs.Prelude.{◌≡◌, ◌<◌, IfOk, length};
ghost use Rattle.tcp_streams.specs.Recorders.{Records};
ghost use Rattle.tcp_streams.specs.Wrappers.{IsNewChain};

use crate::wrappers::{Wrapper, chain_of};
use byte_streams::{Chain, Recorder, Way, Why, new_room, pump_into};
use server_words::LineWrapperName;
use std::alloc::{AllocError, Global};
use std::io;
use std::io::{Error, ErrorKind, Read, Write};

/// What records a way of a connection with this number to `writer`, if it is recorded.
pub(crate) fn recorder_if<W: Write + Drop>(
    is_recorded: bool,
    alloc: Global,
    number: u64,
    way: Way,
    writer: W,
) -> Option<Recorder<W>>
    ensures { Records is_recorded number way result }
{
    if is_recorded {
        return Some(Recorder::new(alloc, number, way, writer));
    }
    drop(writer);
    None
}

/// One way of a connection: what is read goes through line wrappers, and what they give is written. What the writer
/// does not take yet is kept, and nothing more is read until it has.
#[derive(Drop)]
pub(crate) struct Lane<W> {
    alloc: Global,
    chain: Chain<Wrapper>,
    recorder: Option<Recorder<W>>,
    // room for a read
    room: Vec<u8>,
    kept: Vec<u8>,
    // whether its reader may give more, and whether something that it gave is lost
    is_open: bool,
    is_cut: bool,
    ghost has_room: { 0 < length room.items },
}

impl<W: Write + Drop> Lane<W> {
    /// A way through the line wrappers of these names, at its begin.
    ///
    /// # Errors
    /// There was no memory.
    pub fn new(
        alloc: Global,
        names: &[LineWrapperName],
        recorder: Option<Recorder<W>>,
    ) -> Result<Lane<W>, AllocError>
        ensures new { IfOk result (λ lane. IsNewChain names.now lane.chain) }
        ensures recorder { IfOk result (λ lane. lane.recorder ≡ recorder) }
    {
        let chain = chain_of(alloc, names)?;
        let room = new_room(alloc)?;
        Ok(Lane {
            alloc,
            chain,
            recorder,
            room,
            kept: Vec::new(alloc),
            is_open: true,
            is_cut: false,
        })
    }

    /// How many bytes are kept.
    pub fn kept(&self) -> usize {
        self.kept.len()
    }

    /// Whether something that its reader gave is lost: the writer has failed, or there was no memory.
    pub fn is_cut(&self) -> bool {
        self.is_cut
    }

    /// Passes a piece on, or writes what is kept. It answers whether there may be more: `false` once the reader has
    /// ended or failed and all was written, or something is lost.
    pub fn go_on<F: Read + Drop, T: Write + Drop>(&mut self, from: F, to: T) -> bool {
        let (mut from, mut to) = (from, to);
        if !self.kept.is_empty() {
            self.write_kept(&mut to);
        } else if self.is_open {
            self.pass_piece(&mut from, &mut to);
        }
        self.is_open || !self.kept.is_empty()
    }

    // Reads a piece, if there is one, and passes it on.
    fn pass_piece<F: Read, T: Write>(&mut self, from: &mut F, to: &mut T) {
        let mut reader = NotingReader {
            from,
            is_dry: false,
        };
        let mut writer = KeepingWriter {
            to,
            kept: Vec::new(self.alloc),
        };
        let end = pump_into(
            self.alloc,
            &mut reader,
            &mut writer,
            &mut self.chain,
            &mut self.recorder,
            1,
            &mut self.room,
        );
        let KeepingWriter { to: _, kept } = writer;
        self.kept = kept;
        match end.why {
            Why::ReadsOver => {}
            Why::ReadFault if reader.is_dry => {}
            Why::End | Why::ReadFault => self.is_open = false,
            Why::WriteFault | Why::ZeroWrite | Why::Failed | Why::OutOfMemory => self.cut(),
        }
    }

    // Writes what is kept, as far as it is taken.
    fn write_kept<T: Write>(&mut self, to: &mut T) {
        match to.write(&self.kept) {
            Ok(count) if 0 < count && count < self.kept.len() => drop(self.kept.drain(..count)),
            Ok(count) if 0 < count => self.kept = Vec::new(self.alloc),
            Err(error) if may_go_on(&error) => {}
            _ => self.cut(),
        }
    }

    // Nothing more passes, and what is kept is lost.
    fn cut(&mut self) {
        self.is_open = false;
        self.is_cut = true;
        self.kept = Vec::new(self.alloc);
    }
}

// Whether a call that failed may be made again.
fn may_go_on(error: &Error) -> bool {
    matches!(error.kind(), ErrorKind::WouldBlock | ErrorKind::Interrupted)
}

// A reader that notes whether it had nothing to give yet.
#[derive(Drop)]
struct NotingReader<'a, F> {
    from: &'a mut F,
    is_dry: bool,
}

impl<F: Read> Read for NotingReader<'_, F> {
    fn read(&mut self, buf: &mut [u8]) -> io::Result<usize> {
        let got = self.from.read(buf);
        self.is_dry = matches!(&got, Err(error) if error.kind() == ErrorKind::WouldBlock);
        got
    }
}

// A writer that keeps what the stream behind it does not take yet.
#[derive(Drop)]
struct KeepingWriter<'a, T> {
    to: &'a mut T,
    kept: Vec<u8>,
}

impl<T: Write> Write for KeepingWriter<'_, T> {
    fn write(&mut self, buf: &[u8]) -> io::Result<usize> {
        if self.kept.is_empty() {
            match self.to.write(buf) {
                Err(error) if error.kind() == ErrorKind::WouldBlock => {}
                outcome => return outcome,
            }
        }
        match self.kept.extend_from_slice(buf) {
            Ok(()) => Ok(buf.len()),
            Err(_) => Err(Error::from(ErrorKind::OutOfMemory)),
        }
    }

    fn flush(&mut self) -> io::Result<()> {
        Ok(())
    }
}
