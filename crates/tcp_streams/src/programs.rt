//! Programs of the system, each with the connection that it serves.
ghost use Rattle.std.specs.Prelude.{◌≡◌, ⊤, IfErr, IfOk, IfSome, is_none, is_some, true};
ghost use Rattle.std.specs.Option.{ForSome};
ghost use Rattle.stream_tools.specs.Jobs.{has_ends};

use crate::passing::{Passage, Passing};
use child_jobs::{Environment, Exit, Job, Launcher, NotStarted, Program, StartFault, WaitFault};
use server_words::Mode;
use std::alloc::Global;
use std::fs::Files;
use std::io::Write;
use std::net::TcpStream;
use std::os::fd::OwnedFd;
use std::sync::Wait;
use std::time::Clock;
use std::{io, thread};
use stream_tools::{OsJob, OsLauncher, SearchPath};
use tcp_connections::{Reserve, pause_after};

/// `ENFILE`: the whole system has too many open files.
pub(crate) const TOO_MANY_FILES_AT_ALL: i32 = 23;

/// So often a start waits and tries again, for about a minute, if the system has no process or no descriptor for a
/// program.
const WAITS: u32 = 66;

/// Starts programs as `OsLauncher` does. If the system has no process for one, the one in reserve is given back. Then,
/// and if it has no descriptor for one now, the start waits for some time for the end of another program.
#[derive(Drop)]
pub struct ProgramStarter<'a, R, E> {
    rt: &'a R,
    search: &'a SearchPath,
    reserve: &'a Reserve,
    passing: Passing<'a>,
    // takes what is recorded
    errors: E,
}

impl<'a, R: Files + Wait + Clock, E: Write + Copy + Drop> ProgramStarter<'a, R, E> {
    ghost use Rattle.tcp_streams.specs.Asked.{passing_of};

    /// A starter that looks for programs in these folders. The bytes of their connections pass in this way, and are
    /// recorded to `errors`.
    pub fn new(
        rt: &'a R,
        search: &'a SearchPath,
        reserve: &'a Reserve,
        passing: Passing<'a>,
        errors: E,
    ) -> ProgramStarter<'a, R, E>
        ensures passing { passing_of result ≡ passing.entry }
    {
        ProgramStarter {
            rt,
            search,
            reserve,
            passing,
            errors,
        }
    }

    // Starts a program on this socket, or else between pipes, once the system has a process and descriptors for it, if
    // that is before long.
    fn start_in_time(
        &self,
        alloc: Global,
        program: &Program,
        environment: &Environment,
        stream: Option<&OwnedFd>,
    ) -> Result<OsJob, NotStarted>
        ensures program { IfOk result (λ job. ⟦<OsJob as Job>⟧.program job ≡ program.now) }
        ensures environment { IfOk result (λ job. ⟦<OsJob as Job>⟧.environment job ≡ environment.now) }
        ensures ends { IfOk result (λ job. has_ends job ≡ is_none stream.entry) }
    {
        for waits in 0..WAITS {
            let error = match self.start_once(alloc, program, environment, stream) {
                Err(NotStarted { error, .. }) if is_passing(error) => error,
                outcome => return outcome,
            };
            if error == Some(libc::EAGAIN) {
                self.reserve.give_back(self.rt);
            }
            thread::sleep(self.rt, pause_after(waits + 1));
        }
        self.start_once(alloc, program, environment, stream)
    }

    // Starts a program on this socket, or else between pipes.
    fn start_once(
        &self,
        alloc: Global,
        program: &Program,
        environment: &Environment,
        stream: Option<&OwnedFd>,
    ) -> Result<OsJob, NotStarted>
        ensures program { IfOk result (λ job. ⟦<OsJob as Job>⟧.program job ≡ program.now) }
        ensures environment { IfOk result (λ job. ⟦<OsJob as Job>⟧.environment job ≡ environment.now) }
        ensures ends { IfOk result (λ job. has_ends job ≡ is_none stream.entry) }
    {
        let launcher = OsLauncher::new(self.rt, self.search);
        match stream {
            Some(stream) => launcher.start_on(alloc, program, environment, stream),
            None => launcher.start(alloc, program, environment),
        }
    }
}

// Whether a start may succeed later that failed by this error: the system had no process, or no descriptor.
fn is_passing(error: Option<i32>) -> bool {
    matches!(
        error,
        Some(libc::EAGAIN | libc::EMFILE | TOO_MANY_FILES_AT_ALL)
    )
}

/// A connection that was accepted: what is written to it goes to its client, until its program is started. It is closed
/// once it is let go.
#[derive(Drop)]
pub struct Connection<'a, R, E> {
    pub(crate) socket: TcpStream,
    /// The client's port.
    pub(crate) port: u16,
    /// What starts its program.
    pub(crate) starter: &'a ProgramStarter<'a, R, E>,
}

impl<R, E> Write for Connection<'_, R, E> {
    fn write(&mut self, buf: &[u8]) -> io::Result<usize> {
        self.socket.write(buf)
    }

    fn flush(&mut self) -> io::Result<()> {
        Ok(())
    }
}

impl<'a, R, E> Launcher for Connection<'a, R, E>
where
    R: Files + Wait + Clock,
    E: Write + Copy + Drop,
{
    ghost use Rattle.tcp_streams.specs.Asked.{IsNewPassage, connection_starter, passage_of, passing_of, port_of, pumps};

    type Job = ServiceJob<'a, R, E>;

    ghost may = { λ _ _ _. true };

    ghost refuses = { λ _ _ _ _. ⊤ };

    /// As of the trait. A connection that is handed over is the standard input and output of its program, one socket
    /// twice, and this process holds it no more. Else both are pipes, and the job has the connection: `wait` passes its
    /// bytes.
    ///
    /// # Errors
    /// Those of the trait. The connection is closed.
    fn start(
        self,
        alloc: Global,
        program: &Program,
        environment: &Environment,
    ) -> Result<ServiceJob<'a, R, E>, NotStarted>
        ensures refused { IfErr result (λ _. ⊤) }
        ensures program { IfOk result (λ job. ⟦<OsJob as Job>⟧.program job.job ≡ program.now) }
        ensures environment { IfOk result (λ job. ⟦<OsJob as Job>⟧.environment job.job ≡ environment.now) }
        ensures mode { IfOk result (λ job.
            is_some (passage_of job) ≡ pumps (passing_of (connection_starter self.entry)).mode) }
        ensures ends { IfOk result (λ job.
            has_ends job.job ≡ pumps (passing_of (connection_starter self.entry)).mode) }
        ensures passage { IfOk result (λ job.
            IfSome (passage_of job) (IsNewPassage (passing_of (connection_starter self.entry)) (port_of self.entry))) }
    {
        let Connection {
            socket,
            port,
            starter,
        } = self;
        let passing = &starter.passing;
        match passing.mode {
            Mode::HandedOver => {
                let stream = OwnedFd::from(socket);
                let job = starter.start_in_time(alloc, program, environment, Some(&stream))?;
                Ok(ServiceJob { job, passage: None })
            }
            Mode::Pumped => {
                let passage = Passage::new(
                    alloc,
                    starter.rt,
                    passing,
                    starter.errors,
                    port,
                    socket,
                );
                let passage = Some(passage.ok().ok_or(StartFault::OutOfMemory)?);
                let job = starter.start_in_time(alloc, program, environment, None)?;
                Ok(ServiceJob { job, passage })
            }
        }
    }
}

/// The program of a connection, with the connection if it is pumped. The language lets nobody drop it: it is waited
/// for, or abandoned.
pub struct ServiceJob<'a, R, E> {
    job: OsJob,
    // (in a box, since a job that is handed on takes each time as much of the stack as it is long)
    passage: Option<Box<Passage<'a, R, E>>>,
    ghost has_pipes: { ForSome passage (λ _. has_ends job ≡ true) },
}

impl<'a, R: Wait + Clock, E: Write + Copy + Drop> Job for ServiceJob<'a, R, E> {
    ghost program = { λ job. ⟦<OsJob as Job>⟧.program job.job };

    ghost environment = { λ job. ⟦<OsJob as Job>⟧.environment job.job };

    ghost killed = { λ _ _ _. ⊤ };

    ghost ended = { λ _ _. ⊤ };

    ghost refused_wait = { λ _ _ _. ⊤ };

    fn kill(&mut self) -> Result<(), WaitFault> {
        self.job.kill()
    }

    fn process(&self) -> Option<u32> {
        self.job.process()
    }

    /// As of the trait. Before it waits, the bytes of a pumped connection pass; and once it has waited, that connection
    /// is closed.
    ///
    /// # Errors
    /// Those of `Job::wait`. The connection is closed then too; the job that is handed back has none.
    fn wait(self) -> Result<Exit, (ServiceJob<'a, R, E>, WaitFault)> {
        let ServiceJob {
            mut job,
            mut passage,
        } = self;
        if let Some(passage) = &mut passage {
            passage.pass(&mut job);
        }
        let waited = job.wait();
        if let Some(passage) = passage {
            passage.drop_rest();
            drop(passage);
        }
        match waited {
            Ok(exit) => Ok(exit),
            Err((job, fault)) => Err((ServiceJob { job, passage: None }, fault)),
        }
    }

    fn abandon(self) {
        let ServiceJob { job, passage: _ } = self;
        job.abandon();
    }
}
