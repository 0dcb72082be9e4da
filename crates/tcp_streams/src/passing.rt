//! Both ways of a pumped connection, in one thread.
ghost use Rattle.std.specs.Prelude.{◌≡◌, IfOk, true};
ghost use Rattle.stream_tools.specs.Jobs.{has_ends};
ghost use Rattle.tcp_streams.specs.Asked.{IsNewPassage};

use crate::lanes::{Lane, recorder_if};
use byte_streams::{Patient, Way};
use child_jobs::Job;
use libc::net::{_SS_SIZE, POLLERR, POLLHUP, POLLIN, POLLOUT};
use libc::types::pollfd;
use server_words::{LineWrapperName, Mode};
use std::alloc::{AllocError, Global};
use std::io::{Read, Write};
use std::net::TcpStream;
use std::os::fd::AsRawFd;
use std::process::{ChildStdin, ChildStdout};
use std::sync::Wait;
use std::thread;
use std::time::{Clock, Duration, Instant};
use stream_tools::{OsJob, Piped};

/// For so many seconds in succession a client may take nothing of what its program left for it.
const IDLE: u64 = 60;

/// And for so many it may take it in all.
const ALL: u64 = 600;

/// So often, in milliseconds, bytes that are kept for a client are tried again. So often the server also looks whether
/// a program is over that has closed its output but not its input.
const LOOK: i32 = 1_000;

/// While bytes pass, it looks each time that so many pieces have.
const TURNS: u32 = 64;

/// So many milliseconds pass if the system doesn't tell what is ready.
const SHORT_PAUSE: u64 = 5;

/// So many pieces of what a client sent, of so many bytes at most, are read and dropped at the end of its connection.
/// With unread bytes that end would be a reset, by which the client may lose what the program wrote.
const PIECES: u32 = 128;

const PIECE: usize = 512;

/// The length of an IPv4 address for the system, in bytes.
const ADDRESS: u32 = 16;

/// How the bytes of connections pass.
#[derive(Clone, Copy)]
pub struct Passing<'a> {
    /// Whether programs hold their connections themselves (`-s`), or the server passes the bytes on (`-S`).
    pub mode: Mode,
    /// If it does: whether what goes both ways is recorded (`-w recordio`).
    pub recording: bool,
    /// The line wrappers for what a client sends, the first one first (`-w`).
    pub input: &'a [LineWrapperName],
    /// The same for what it is sent.
    pub output: &'a [LineWrapperName],
}

/// A connection that is pumped, with the pipe ends of its program while its bytes pass.
///
/// While somebody holds the other end of the program's output, what was written there waits as long as the client does.
/// Once nobody does, what is left is given up if the client takes nothing for `IDLE` seconds, or after `ALL` seconds.
/// The connection of a client that does not get all ends in a reset.
#[derive(Drop)]
pub(crate) struct Passage<'a, R, E> {
    rt: &'a R,
    client: TcpStream,
    upward: Lane<Patient<'a, R, E>>,
    downward: Lane<Patient<'a, R, E>>,
    input: Option<ChildStdin>,
    output: Option<ChildStdout>,
    // since when the client alone holds up what is left for it, and when it took something last
    waited: Option<(Instant, Instant)>,
}

// What can pass.
#[derive(Clone, Copy)]
struct Ready {
    upward: bool,
    downward: bool,
    // whether nobody reads the program's input any more
    unread: bool,
    // whether nothing was ready for as long as was waited
    is_quiet: bool,
}

impl<'a, R: Wait + Clock, E: Write + Copy + Drop> Passage<'a, R, E> {
    /// A connection whose client has this port, at its begin. What passes is recorded to `errors`.
    ///
    /// # Errors
    /// There was no memory. The connection is closed.
    pub fn new(
        alloc: Global,
        rt: &'a R,
        passing: &Passing<'_>,
        errors: E,
        port: u16,
        client: TcpStream,
    ) -> Result<Box<Passage<'a, R, E>>, AllocError>
        ensures new { IfOk result (λ passage. IsNewPassage passing.now port passage.value) }
    {
        let (recording, number) = (passing.recording, u64::from(port));
        let errors = (Patient::new(rt, errors), Patient::new(rt, errors));
        let recorder = recorder_if(recording, alloc, number, Way::Input, errors.0);
        let upward = Lane::new(alloc, passing.input, recorder)?;
        let recorder = recorder_if(recording, alloc, number, Way::Output, errors.1);
        let downward = Lane::new(alloc, passing.output, recorder)?;
        let passage = Passage {
            rt,
            client,
            upward,
            downward,
            input: None,
            output: None,
            waited: None,
        };
        Box::new(alloc, passage).ok().ok_or(AllocError)
    }

    /// Passes bytes between the client and this program, until nothing more passes, or the program writes no more and
    /// is over, whatever processes it left behind. It does so once; both pipe ends are closed then.
    pub fn pass(&mut self, job: &mut OsJob)
        requires ends { has_ends job.old ≡ true }
        ensures program { ⟦<OsJob as Job>⟧.program job.new ≡ ⟦<OsJob as Job>⟧.program job.old }
        ensures environment { ⟦<OsJob as Job>⟧.environment job.new ≡ ⟦<OsJob as Job>⟧.environment job.old }
    {
        let Some((input, output)) = job.ends() else {
            unreachable!();
        };
        self.begin(input, output);
        let (rt, mut turns) = (self.rt, 0u32);
        for _look in rt.forever() {
            turns = turns.wrapping_add(1);
            let looks = self.pass_once() || turns % TURNS == 0;
            if self.output.is_none() && (self.input.is_none() || looks && job.is_over()) {
                break;
            }
        }
        self.input = None;
        self.output = None;
    }

    // From now on no call of a stream waits.
    fn begin(&mut self, input: ChildStdin, output: ChildStdout) {
        let _ = self.client.set_nonblocking(true);
        for end in [input.as_raw_fd(), output.as_raw_fd()] {
            let _ = os::set_nonblocking(end, true);
        }
        self.input = Some(input);
        self.output = Some(output);
    }

    // Waits until something can pass, and passes it. Whether nothing could for as long as it waited.
    fn pass_once(&mut self) -> bool {
        let ready = self.wait();
        if ready.unread {
            self.input = None;
        } else if ready.upward {
            self.go_up();
        }
        let kept = self.downward.kept();
        if ready.downward {
            self.go_down();
        }
        let took = self.downward.kept() != kept;
        if self.keeps() && self.is_given_up(took) {
            self.cut_off();
        }
        ready.is_quiet
    }

    // Whether something is kept for the client.
    fn keeps(&self) -> bool {
        self.output.is_some() && self.downward.kept() > 0
    }

    // Waits until something can pass, but no longer than until the next look at the client or the program. What is kept
    // for the client may go at any time: the system calls a socket ready only once it has much room.
    fn wait(&self) -> Ready {
        let (keeps, has_kept) = (self.keeps(), self.upward.kept() > 0);
        let reads = self.input.is_some() && !has_kept;
        let wanted = if reads { POLLIN } else { 0 } | if keeps { POLLOUT } else { 0 };
        let client = watched((wanted != 0).then_some(self.client.as_raw_fd()), wanted);
        let input = self.input.as_ref().map(|input| input.as_raw_fd());
        let output = match &self.output {
            Some(output) if !keeps => Some(output.as_raw_fd()),
            _ => None,
        };
        let limit = if self.output.is_none() || keeps {
            LOOK
        } else {
            -1
        };
        let room = if has_kept { POLLOUT } else { 0 };
        let mut all = [client, watched(input, room), watched(output, POLLIN)];
        let count = libc::net::poll(&mut all, limit);
        if count < 0 {
            thread::sleep(self.rt, Duration::from_millis(SHORT_PAUSE));
        }
        let (client, input, output) = (all[0].revents, all[1].revents, all[2].revents);
        Ready {
            upward: count < 0 || reads && client != 0 || input != 0,
            downward: count < 0 || keeps || output != 0,
            unread: input & POLLERR != 0,
            is_quiet: count <= 0,
        }
    }

    // Passes on what the client sends.
    fn go_up(&mut self) {
        let goes_on = match &mut self.input {
            Some(input) => self.upward.go_on(&self.client, input),
            None => true,
        };
        if !goes_on {
            self.input = None;
        }
    }

    // Passes on what the program writes.
    fn go_down(&mut self) {
        let goes_on = match &mut self.output {
            Some(output) => self.downward.go_on(output, &self.client),
            None => true,
        };
        if self.downward.is_cut() {
            self.cut_off();
        } else if !goes_on {
            self.output = None;
        }
    }

    // Ends the connection of a client that does not get all that its program wrote. To connect to nobody dissolves it
    // (connect(2)): the client is told of a reset, so that it can't take what it has for all.
    fn cut_off(&mut self) {
        self.output = None;
        let nobody = [0u8; _SS_SIZE];
        let _ = unsafe { libc::net::connect(self.client.as_raw_fd(), &nobody, ADDRESS) };
    }

    /// Drops what nobody read of the client, as far as it is there.
    pub fn drop_rest(&self) {
        let mut piece = [0u8; PIECE];
        for _piece in 0..PIECES {
            let mut looked = [watched(Some(self.client.as_raw_fd()), POLLIN)];
            if libc::net::poll(&mut looked, 0) <= 0 || !has_read(&self.client, &mut piece) {
                break;
            }
        }
    }

    // Whether the client has held up for too long what is left for it. It has just taken something, or nothing. Its
    // time runs from when nobody holds the other end of the output any more, and doesn't begin anew.
    fn is_given_up(&mut self, took: bool) -> bool {
        if self.waited.is_none() && self.output.as_ref().is_some_and(is_held) {
            return false;
        }
        let Ok(now) = Instant::now(self.rt) else {
            return false;
        };
        let (since, taken) = self.waited.unwrap_or((now, now));
        let taken = if took { now } else { taken };
        self.waited = Some((since, taken));
        now.duration_since(taken) >= Duration::from_secs(IDLE)
            || now.duration_since(since) >= Duration::from_secs(ALL)
    }
}

// Reads what a client sent. Whether there was something.
fn has_read(mut client: &TcpStream, piece: &mut [u8]) -> bool {
    matches!(client.read(piece), Ok(size) if size > 0)
}

// A descriptor whose events are waited for; without one nothing is.
fn watched(descriptor: Option<i32>, events: i16) -> pollfd {
    pollfd {
        fd: descriptor.unwrap_or(-1),
        events,
        revents: 0,
    }
}

// Whether somebody holds the other end of a pipe that is read, as far as the system tells: it hangs up once nobody
// does, though bytes are left.
fn is_held(output: &ChildStdout) -> bool {
    let mut looked = [watched(Some(output.as_raw_fd()), 0)];
    libc::net::poll(&mut looked, 0) <= 0 || looked[0].revents & POLLHUP == 0
}
