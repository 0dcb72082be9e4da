//! An input that ends once the program that gets it reads no more.
ghost use Rattle.std.specs.Prelude.{◌≡◌, None};
ghost use Rattle.byte_streams.specs.Watches.{reader_of};

use libc::net::{POLLERR, POLLIN, poll};
use libc::types::pollfd;
use std::io::{Read, Result};
use std::os::fd::RawFd;

/// A reader that ends with its own input, or once the program that gets it reads no more.
#[derive(Drop)]
pub struct Watched<R> {
    reader: R,
    input: RawFd,
    pipe: RawFd,
}

impl<R> Watched<R> {
    /// A reader of the descriptor `input`. A program gets what it reads over `pipe`.
    pub fn new(reader: R, input: RawFd, pipe: RawFd) -> Watched<R>
        ensures reader { reader_of result ≡ reader }
    {
        Watched {
            reader,
            input,
            pipe,
        }
    }
}

/// Nothing is known of what is left to read: the end may be the program's.
impl<R: Read> Read for Watched<R> {
    ghost remaining = { λ _. None };

    fn read(&mut self, buf: &mut [u8]) -> Result<usize> {
        if !has_reader(self.input, self.pipe) {
            return Ok(0);
        }
        self.reader.read(buf)
    }
}

// Waits until the input can be read, or nobody reads the pipe any more (poll(2)). It answers whether the pipe still
// has a reader, as far as the system tells.
fn has_reader(input: RawFd, pipe: RawFd) -> bool {
    let watched = |fd, events| pollfd {
        fd,
        events,
        revents: 0,
    };
    for _ in 0..u64::MAX {
        let mut both = [watched(input, POLLIN), watched(pipe, 0)];
        if poll(&mut both, -1) >= 0 {
            return both[1].revents & POLLERR == 0;
        }
        if os::errno() != libc::EINTR {
            return true;
        }
    }
    true
}
