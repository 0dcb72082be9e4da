//! What starts programs of the system, as jobs.
ghost use Rattle.std.specs.Prelude.{◌≡◌, ⊤, IfErr, IfOk, false, true};
ghost use Rattle.stream_tools.specs.Jobs.{has_ends};

use crate::job::OsJob;
use crate::process::{not_started, start_process};
use crate::search::SearchPath;
use child_jobs::{Environment, Job, Launcher, NotStarted, Program};
use std::alloc::Global;
use std::fs::Files;
use std::io;
use std::io::{PipeReader, PipeWriter};
use std::os::fd::{AsRawFd, OwnedFd, RawFd};
use std::process::{ChildStdin, ChildStdout};

/// Stands for this process's own descriptor, which a program is given as it is.
const INHERITED: RawFd = -1;

/// Starts programs of the system, as children of this process. A child gets descriptors 0, 1 and 2 alone, the last this
/// process's standard error. A program whose name has no slash is looked for, at each start, in the folders of the
/// launcher's search path, whatever the variables say that the program is given.
#[derive(Drop)]
pub struct OsLauncher<'a, F> {
    files: &'a F,
    search: &'a SearchPath,
}

impl<'a, F: Files> OsLauncher<'a, F> {
    /// A launcher that makes pipes over these files, and looks for programs in these folders.
    pub fn new(files: &'a F, search: &'a SearchPath) -> OsLauncher<'a, F> {
        OsLauncher { files, search }
    }

    /// Starts a program whose standard input and output are both what this descriptor stands for. The job has no pipe
    /// ends to give.
    ///
    /// # Errors
    /// As of `Launcher::start`.
    pub fn start_on(
        &self,
        alloc: Global,
        program: &Program,
        environment: &Environment,
        stream: &OwnedFd,
    ) -> Result<OsJob, NotStarted>
        ensures program { IfOk result (λ job. ⟦<OsJob as Job>⟧.program job ≡ program.now) }
        ensures environment { IfOk result (λ job. ⟦<OsJob as Job>⟧.environment job ≡ environment.now) }
        ensures ends { IfOk result (λ job. has_ends job ≡ false) }
    {
        let number = stream.as_raw_fd();
        self.start_over(alloc, program, environment, (number, number), None)
    }

    // Starts a program on these two descriptors; the job has these pipe ends to give.
    fn start_over(
        &self,
        alloc: Global,
        program: &Program,
        environment: &Environment,
        streams: (RawFd, RawFd),
        ends: Option<(ChildStdin, ChildStdout)>,
    ) -> Result<OsJob, NotStarted>
        ensures program { IfOk result (λ job. job.child.program.value ≡ program.now) }
        ensures environment { IfOk result (λ job. job.child.environment.value ≡ environment.now) }
        ensures ends { IfOk result (λ job. job.ends ≡ ends) }
    {
        let streams = [streams.0, streams.1, INHERITED];
        let child = start_process(alloc, self.search, program, environment, streams)?;
        Ok(OsJob {
            child,
            gone: false,
            exit: None,
            ends,
        })
    }
}

impl<'a, F: Files> Launcher for OsLauncher<'a, F> {
    type Job = OsJob;

    ghost may = { λ _ _ _. true };

    ghost refuses = { λ _ _ _ _. ⊤ };

    /// As of the trait. The program stands between two pipes, and the job has their other ends to give.
    fn start(
        self,
        alloc: Global,
        program: &Program,
        environment: &Environment,
    ) -> Result<OsJob, NotStarted>
        ensures refused { IfErr result (λ _. ⊤) }
        ensures program { IfOk result (λ job. ⟦<OsJob as Job>⟧.program job ≡ program.now) }
        ensures environment { IfOk result (λ job. ⟦<OsJob as Job>⟧.environment job ≡ environment.now) }
        ensures ends { IfOk result (λ job. has_ends job ≡ true) }
    {
        let (input, to) = new_pipe(self.files)?;
        let (from, output) = new_pipe(self.files)?;
        let streams = (input.as_raw_fd(), output.as_raw_fd());
        let ends = (
            ChildStdin::from(OwnedFd::from(to)),
            ChildStdout::from(OwnedFd::from(from)),
        );
        self.start_over(alloc, program, environment, streams, Some(ends))
    }
}

/// A new pipe.
fn new_pipe<F: Files>(files: &F) -> Result<(PipeReader, PipeWriter), NotStarted> {
    match io::pipe(files) {
        Ok(pipe) => Ok(pipe),
        Err(error) => Err(not_started(&error)),
    }
}
