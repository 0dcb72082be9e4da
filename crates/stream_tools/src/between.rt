//! `fixcrio` and `recordio`: a program between two pumps.
ghost use Rattle.std.specs.Prelude.{◌≡◌, ◌⊎◌, None, Err, IfErr, IfOk, IfSome, Some, IsTrue};
ghost use Rattle.std.specs.Thread.{IsSend};
ghost use Rattle.stream_tools.specs.Lanes.{Drained, Fed, IsNotStarted, IsRunOf, Ran, not_served, refusal_of};
ghost use Rattle.stream_tools.specs.declared.between.BetweenFault.TheVariants.{OutOfMemory};

use crate::filter::MOST_READS;
use byte_streams::{Chain, FixCr, PumpEnd, Tap, Watched, pump};
use child_jobs::{Environment, Job, Launcher, NotStarted, Program, StartFault, Status, WaitFault};
use std::alloc::{AllocError, Global};
use std::io::{Read, Write};
use std::os::fd::{AsRawFd, RawFd};
use std::snapshot::Snapshot;
use std::sync::Wait;
use std::thread::{Promise, Threads};
use std::{fmt, thread};

/// Why a program could not be run between pumps.
#[derive(Clone, Copy)]
pub enum BetweenFault {
    /// It could not be started, gave no pipe ends, or its input got no thread.
    CannotStart,
    /// It could not be waited for.
    Device,
    /// There was no memory.
    OutOfMemory,
}

impl fmt::Display for BetweenFault {
    fn fmt<W: fmt::Write>(&self, f: &mut fmt::Formatter<W>) -> fmt::Result {
        f.write_str(match self {
            BetweenFault::CannotStart => "cannot start",
            BetweenFault::Device => "device fault",
            BetweenFault::OutOfMemory => "out of memory",
        })
    }
}

/// Why a program could not be run between pumps, and the system's number of the error (`errno`) by which it was not
/// started, where it has one.
#[derive(Clone, Copy)]
pub struct BetweenFailure {
    /// Why.
    pub fault: BetweenFault,
    /// The number of the error.
    pub error: Option<i32>,
}

impl From<BetweenFault> for BetweenFailure {
    ghost from_gives = { λ fault failure. failure ≡ record { fault = fault; error = None } };

    fn from(fault: BetweenFault) -> BetweenFailure {
        BetweenFailure { fault, error: None }
    }
}

impl From<AllocError> for BetweenFailure {
    ghost from_gives = { λ _ failure. failure ≡ record { fault = OutOfMemory; error = None } };

    fn from(_error: AllocError) -> BetweenFailure {
        BetweenFailure::from(BetweenFault::OutOfMemory)
    }
}

impl From<NotStarted> for BetweenFailure {
    ghost from_gives = { λ refusal failure. failure ≡ record { fault = refusal_of refusal.fault; error = refusal.error } };

    fn from(refusal: NotStarted) -> BetweenFailure {
        BetweenFailure {
            fault: match refusal.fault {
                StartFault::OutOfMemory => BetweenFault::OutOfMemory,
                _ => BetweenFault::CannotStart,
            },
            error: refusal.error,
        }
    }
}

/// One way through a pump: the stream at this process's side, and what its bytes pass.
#[derive(Drop)]
pub struct Lane<E, T> {
    /// Where the bytes come from, or where they go.
    pub stream: E,
    /// The wrappers that they pass.
    pub chain: Chain<FixCr>,
    /// What watches them.
    pub tap: T,
}

/// A program that runs between two pipes.
pub trait Piped: Job {
    /// The end of the pipe that the program reads.
    type Input;

    /// The end of the pipe that it writes.
    type Output;

    /// Gives the two ends of its pipes, once: what is written into the first the program reads on descriptor 0, and
    /// what it writes on descriptor 1 is read from the second. `None` if they were given before, or there are none.
    fn ends(&mut self) -> Option<(Self::Input, Self::Output)>
        ensures program { Self.program self.new ≡ Self.program self.old }
        ensures environment { Self.environment self.new ≡ Self.environment self.old };
}

/// What is on both sides of two pumps: a type for each part. It is a name for these types together, and has no values.
pub trait Between {
    /// Where the program's input comes from.
    type Reader: Read + Send + Drop;

    /// Where its output goes.
    type Writer: Write + Drop;

    /// The end of the pipe that it reads.
    type Input: Write + AsRawFd + Send + Drop;

    /// The end of the pipe that it writes.
    type Output: Read + Drop;

    /// The program while it runs.
    type Job: Piped<Input = Self::Input, Output = Self::Output>;

    /// What starts it.
    type Launcher: Launcher<Job = Self::Job>;
}

/// The lanes of the input and of the output of a program.
pub type Lanes<B, T> = (
    Lane<<B as Between>::Reader, T>,
    Lane<<B as Between>::Writer, T>,
);

/// How a program ended that ran between two pumps, and how these ended.
#[derive(Clone, Copy)]
pub struct RunEnd {
    /// How the program ended.
    pub status: Status,
    /// How the pump ended that gave it its input.
    pub input: PumpEnd,
    /// How the one ended that took its output.
    pub output: PumpEnd,
}

/// Runs a program between two pumps: what `input` reads it is given as its standard input, and what it writes on its
/// standard output goes to `output`. The program's input is closed when the one pump ends. When both have ended the
/// program is waited for, once. A pump that ended before its reader did is no error of the run.
///
/// The input, which is read from the descriptor `source`, ends too where the program reads no more.
///
/// # Errors
/// `CannotStart` where the program could not be started, gave no pipe ends, or no thread could be had for its input; in
/// the last two cases it was killed and waited for. `Device` where the wait failed; `OutOfMemory`.
pub fn run_between<H, B, T>(
    rt: &H,
    alloc: Global,
    launcher: B::Launcher,
    run: (&Program, &Environment),
    lanes: Lanes<B, T>,
    source: RawFd,
) -> Result<RunEnd, BetweenFailure>
where
    H: Threads + Wait + Sync,
    B: Between,
    T: Tap + Send + Drop,
    requires may { IsTrue (B.Launcher.may launcher run.0.now run.1.now) }
    ensures ended { IfOk result (λ end. (job : B.Job)
        × IsRunOf B.Job.program B.Job.environment run.entry.0.now run.entry.1.now job × B.Job.ended job end.status) }
    ensures input { IfOk result (λ end. Fed B.Input.contents T.watches T.sees T.ends lanes.0 end.input) }
    ensures output { IfOk result (λ end. Drained B.Output.remaining B.Writer.contents
        T.watches T.sees T.ends lanes.1 end.output) }
    ensures fault { IfErr result (λ why. IsNotStarted B.Launcher.refuses launcher run.entry.0.now run.entry.1.now why
        ⊎ ((job : B.Job) × IsRunOf B.Job.program B.Job.environment run.entry.0.now run.entry.1.now job)) }
{
    let mut job = match launcher.start(alloc, run.0, run.1) {
        Ok(job) => job,
        Err(refusal) => {
            drop(lanes);
            return Err(BetweenFailure::from(refusal));
        }
    };
    let pumps = serve::<H, B, T>(rt, alloc, &mut job, lanes, source);
    end_of(job, pumps)
}

/// Pumps both ways until both pumps have ended. It answers how they ended; `None` where it could not be without the
/// program's pipe ends and a thread for its input.
fn serve<H, B, T>(
    rt: &H,
    alloc: Global,
    job: &mut B::Job,
    lanes: Lanes<B, T>,
    source: RawFd,
) -> Option<(PumpEnd, PumpEnd)>
where
    H: Threads + Wait + Sync,
    B: Between,
    T: Tap + Send + Drop,
    ensures program { B.Job.program job.new ≡ B.Job.program job.old }
    ensures environment { B.Job.environment job.new ≡ B.Job.environment job.old }
    ensures input { IfSome result (λ pumps. Fed B.Input.contents T.watches T.sees T.ends lanes.0 pumps.0) }
    ensures output { IfSome result (λ pumps. Drained B.Output.remaining B.Writer.contents
        T.watches T.sees T.ends lanes.1 pumps.1) }
{
    let Some((to, from)) = job.ends() else {
        drop(lanes);
        return None;
    };
    let (input, output) = lanes;
    let input = Lane {
        stream: Watched::new(input.stream, source, to.as_raw_fd()),
        chain: input.chain,
        tap: input.tap,
    };
    pump_both::<H, B, _, T>(rt, alloc, (input, to), (from, output))
}

/// The end of a program, which is waited for once, and abandoned where that fails, with the ends of its pumps. One that
/// was not served, since its input got no thread, has none, and is killed before the wait, whatever the system answers.
pub fn end_of<J: Job>(
    mut job: J,
    pumps: Option<(PumpEnd, PumpEnd)>,
) -> Result<RunEnd, BetweenFailure>
    ensures ended { IfOk result (λ end. J.ended job end.status) }
    ensures pumps { IfOk result (λ end. pumps ≡ Some (end.input, end.output)) }
    ensures served { pumps ≡ None → result ≡ Err not_served }
{
    let Some((input, output)) = pumps else {
        let _ = job.kill();
        let _ = wait_once(job);
        return Err(BetweenFailure::from(BetweenFault::CannotStart));
    };
    match wait_once(job) {
        Ok(status) => Ok(RunEnd {
            status,
            input,
            output,
        }),
        Err(WaitFault::Failed) => Err(BetweenFailure::from(BetweenFault::Device)),
        Err(WaitFault::OutOfMemory) => Err(BetweenFailure::from(BetweenFault::OutOfMemory)),
    }
}

/// Waits for a program, and abandons it where that fails: nobody else could wait for it.
fn wait_once<J: Job>(job: J) -> Result<Status, WaitFault>
    ensures { IfOk result (J.ended job) }
{
    match job.wait() {
        Ok(exit) => Ok(exit.status),
        Err((job, fault)) => {
            job.abandon();
            Err(fault)
        }
    }
}

/// What the thread of a program's input promises of the end that it gives: its pump ran from this lane to this pipe.
#[derive(Drop)]
struct Feeding<I, P, T> {
    input: Snapshot<Lane<I, T>>,
    to: Snapshot<P>,
}

impl<I: Read, P: Write, T: Tap> Promise<PumpEnd> for Feeding<I, P, T> {
    ghost kept_by = { λ feeding end. Ran I.remaining P.contents T.watches T.sees T.ends
        feeding.input.value.stream feeding.to.value feeding.input.value.chain feeding.input.value.tap end };
}

/// Pumps input to a program in a thread of its own, and its output in this one. Each of the program's pipe ends is
/// closed when its pump ends. It answers how the pumps ended; `None` where no thread could be had: nothing was pumped
/// then, and both ends are closed.
fn pump_both<H, B, I, T>(
    rt: &H,
    alloc: Global,
    feeding: (Lane<I, T>, B::Input),
    draining: (B::Output, Lane<B::Writer, T>),
) -> Option<(PumpEnd, PumpEnd)>
where
    H: Threads + Wait + Sync,
    B: Between,
    I: Read + Send + Drop,
    T: Tap + Send + Drop,
    ensures input { IfSome result (λ pumps. Ran I.remaining B.Input.contents T.watches T.sees T.ends
        feeding.0.stream feeding.1 feeding.0.chain feeding.0.tap pumps.0) }
    ensures output { IfSome result (λ pumps. Ran B.Output.remaining B.Writer.contents T.watches T.sees T.ends
        draining.0 draining.1.stream draining.1.chain draining.1.tap pumps.1) }
{
    let (input, to) = feeding;
    let (from, output) = draining;
    thread::scope(
        thread::scope_env(),
        rt,
        move |scope| -> Option<(PumpEnd, PumpEnd)>
            requires { IsSend I.row × IsSend B.Input.row × IsSend T.row }
            ensures input { IfSome result (λ pumps. Ran I.remaining B.Input.contents T.watches T.sees T.ends
                input.stream to input.chain input.tap pumps.0) }
            ensures output { IfSome result (λ pumps. Ran B.Output.remaining B.Writer.contents
                T.watches T.sees T.ends from output.stream output.chain output.tap pumps.1) }
        {
            let promise = Feeding {
                input: Snapshot::of(&input),
                to: Snapshot::of(&to),
            };
            let feed = move || run_pump(alloc, input.stream, to, input.chain, input.tap);
            let Ok(feeder) = scope.spawn_with(promise, feed) else {
                return None;
            };
            let output = run_pump(alloc, from, output.stream, output.chain, output.tap);
            let input = feeder.join(rt);
            Some((input, output))
        },
    )
}

/// Pumps from a reader to a writer, through this chain and under the eyes of this tap, to the end of one of them, and
/// closes both.
fn run_pump<R: Read + Drop, W: Write + Drop, T: Tap + Drop>(
    alloc: Global,
    mut reader: R,
    mut writer: W,
    mut chain: Chain<FixCr>,
    mut tap: T,
) -> PumpEnd
    ensures ran { Ran R.remaining W.contents T.watches T.sees T.ends reader writer chain tap result }
{
    pump(
        alloc,
        &mut reader,
        &mut writer,
        &mut chain,
        &mut tap,
        MOST_READS,
    )
}
