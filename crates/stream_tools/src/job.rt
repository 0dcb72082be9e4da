//! Children of this process, waited for until they have ended, and killed.
ghost use Rattle.std.specs.Prelude.{◌≡◌, ◌↔◌, ◌⊎◌, ℕ, pos, ⊤, IsSome, Some, false, is_some};
ghost use Rattle.std.specs.Process.{exit_code, exit_signal};
ghost use Rattle.libc.specs.Io.{WaitFlags};
ghost use Rattle.child_jobs.specs.declared.outcome.Status.TheVariants.{Code, Signal};
ghost use Rattle.stream_tools.specs.Jobs.{has_ends};

use crate::between::Piped;
use crate::child::Child;
use child_jobs::{Exit, Job, Status, WaitFault};
use std::os::unix::process::ExitStatusExt;
use std::process::{ChildStdin, ChildStdout, ExitStatus};

/// A child of this process, and the ends of its pipes until they are given. The language lets nobody drop it: it is
/// waited for, or abandoned.
pub struct OsJob {
    pub(crate) child: Child,
    // whether it was waited for, by this value or by other code, so that its number may be another's
    pub(crate) gone: bool,
    // how it ended, if `is_over` saw that: `wait` answers it
    pub(crate) exit: Option<Exit>,
    pub(crate) ends: Option<(ChildStdin, ChildStdout)>,
}

impl OsJob {
    /// Looks, without waiting, whether the child is over: it has exited or was killed, or it can't be waited for any
    /// more, as where other code has waited for it. One that is stopped is not over, and nor is one of which the system
    /// told nothing.
    ///
    /// A child that has ended is waited for by this look. How it ended is kept, and `wait` answers it. From then on
    /// each look answers the same, and `kill` refuses, since the child's number may be another's. The pipe ends stay as
    /// they are.
    pub fn is_over(&mut self) -> bool
        ensures program { ⟦<OsJob as Job>⟧.program self.new ≡ ⟦<OsJob as Job>⟧.program self.old }
        ensures environment { ⟦<OsJob as Job>⟧.environment self.new ≡ ⟦<OsJob as Job>⟧.environment self.old }
    {
        if self.gone {
            return true;
        }
        if let Ok(exit) = wait_once(self.child.number(), libc::WNOHANG, &mut self.gone) {
            self.exit = exit;
        }
        self.gone
    }
}

impl Piped for OsJob {
    type Input = ChildStdin;

    type Output = ChildStdout;

    /// As of the trait. There are ends as long as they were not given.
    fn ends(&mut self) -> Option<(ChildStdin, ChildStdout)>
        ensures program { ⟦<OsJob as Job>⟧.program self.new ≡ ⟦<OsJob as Job>⟧.program self.old }
        ensures environment { ⟦<OsJob as Job>⟧.environment self.new ≡ ⟦<OsJob as Job>⟧.environment self.old }
        ensures given { is_some result ≡ has_ends self.old }
        ensures once { has_ends self.new ≡ false }
    {
        self.ends.take()
    }
}

impl Job for OsJob {
    ghost program = { λ job. job.child.program.value };

    ghost environment = { λ job. job.child.environment.value };

    ghost killed = { λ _ _ _. ⊤ };

    ghost ended = { λ _ _. ⊤ };

    ghost refused_wait = { λ _ _ _. ⊤ };

    /// As of the trait. The pipe ends stay as they are.
    fn kill(&mut self) -> Result<(), WaitFault>
        ensures told { ⊤ }
        ensures program { ⟦<OsJob as Job>⟧.program self.new ≡ ⟦<OsJob as Job>⟧.program self.old }
        ensures environment { ⟦<OsJob as Job>⟧.environment self.new ≡ ⟦<OsJob as Job>⟧.environment self.old }
        ensures ends { has_ends self.new ≡ has_ends self.old }
    {
        if self.gone || os::kill_child(self.child.number()) < 0 {
            return Err(WaitFault::Failed);
        }
        Ok(())
    }

    fn process(&self) -> Option<u32> {
        u32::try_from(self.child.number()).ok()
    }

    /// As of the trait. Pipe ends that were not given are closed first: a program that waits for input could not end.
    fn wait(mut self) -> Result<Exit, (OsJob, WaitFault)> {
        drop(self.ends.take());
        if let Some(exit) = self.exit {
            self.abandon();
            return Ok(exit);
        }
        match wait_for_end(self.child.number(), &mut self.gone) {
            Ok(exit) => {
                self.abandon();
                Ok(exit)
            }
            Err(fault) => Err((self, fault)),
        }
    }

    fn abandon(self) {
        let OsJob {
            child: _,
            gone: _,
            exit: _,
            ends: _,
        } = self;
    }
}

/// Waits until the child of this number has exited or was killed, and tells which, with the signal. One that is stopped
/// is waited for, until it goes on and ends. `gone` is whether it was waited for before, and then whether it is now.
///
/// # Errors
/// `Failed` where the system refused it, as where other code has waited for the child; `OutOfMemory`.
fn wait_for_end(number: i32, gone: &mut bool) -> Result<Exit, WaitFault> {
    for _ in 0..u64::MAX {
        if let Some(exit) = wait_once(number, 0, gone)? {
            return Ok(exit);
        }
    }
    Err(WaitFault::Failed)
}

/// Waits for the next that the system tells of the child; `None` where that is not its end. With the option `WNOHANG`
/// it does not wait, and answers `None` as well where the system has nothing to tell yet.
fn wait_once(number: i32, options: i32, gone: &mut bool) -> Result<Option<Exit>, WaitFault>
    requires options { WaitFlags options }
{
    if *gone || number <= 0 {
        return Err(WaitFault::Failed);
    }
    let mut bits = 0;
    let told = unsafe { libc::waitpid(number, &mut bits, options) };
    if told == 0 {
        return Ok(None);
    }
    if told < 0 {
        let fault = os::errno();
        *gone = fault == libc::ECHILD;
        return match fault {
            libc::EINTR => Ok(None),
            libc::ENOMEM => Err(WaitFault::OutOfMemory),
            _ => Err(WaitFault::Failed),
        };
    }
    let ended = ExitStatus::from_raw(bits);
    let status = status_of(ended);
    *gone = status.is_some();
    let signal = match ended.signal() {
        Some(signal) => u32::try_from(signal).ok(),
        None => None,
    };
    match status {
        Some(status) => Ok(Some(Exit { status, signal })),
        None => Ok(None),
    }
}

/// How a child ended. `None` where it did not: the system also tells of a child that is stopped, as under a debugger.
fn status_of(status: ExitStatus) -> Option<Status>
    ensures ended { IsSome result ↔ (IsSome (exit_code status) ⊎ IsSome (exit_signal status)) }
    ensures signal { (result ≡ Some Signal) ↔ IsSome (exit_signal status) }
    ensures code { (n : ℕ) → exit_code status ≡ Some (pos n) → result ≡ Some (Code n) }
{
    match (status.code(), status.signal()) {
        (Some(code), _) => Some(Status::Code((code & 255) as u8)),
        (None, Some(_)) => Some(Status::Signal),
        (None, None) => None,
    }
}
