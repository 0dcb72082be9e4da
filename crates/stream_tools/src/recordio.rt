//! `recordio`: a program both of whose streams are recorded.
ghost use Rattle.std.specs.Prelude.{◌≡◌, ◌⊎◌, IfErr, IfOk, codes, IsTrue};
ghost use Rattle.byte_streams.specs.declared.tap.Recorder.{Recorder};
ghost use Rattle.child_jobs.specs.Variables.{value_of};
ghost use Rattle.byte_streams.specs.declared.recording.Way.TheVariants.{Input, Output};
ghost use Rattle.stream_tools.specs.Lanes.{Drained, Fed, IsNotStarted, IsRecording, IsRunOf};
ghost use Rattle.stream_tools.specs.Programs.{recorder_number};
ghost use Rattle.stream_tools.specs.declared.between.Lane.{Lane};

use crate::between::{Between, BetweenFailure, Lane, RunEnd, run_between};
use byte_streams::{Chain, Recorder, Tap, Way};
use child_jobs::{Environment, Job, Launcher, Program};
use server_words::number_in;
use std::alloc::Global;
use std::io::{Read, Write};
use std::os::fd::RawFd;
use std::sync::Wait;
use std::thread::Threads;

/// `recordio`: runs a program between two streams, and records what goes by on two writers, with the number that is the
/// peer's port among the variables.
///
/// # Errors
/// As of `run_between`.
pub fn record_between<H, B, W>(
    rt: &H,
    alloc: Global,
    launcher: B::Launcher,
    run: (&Program, &Environment),
    streams: (B::Reader, B::Writer),
    errors: (W, W),
    source: RawFd,
) -> Result<RunEnd, BetweenFailure>
where
    H: Threads + Wait + Sync,
    B: Between,
    W: Write + Send + Drop,
    requires may { IsTrue (B.Launcher.may launcher run.0.now run.1.now) }
    ensures ended { IfOk result (λ end. (job : B.Job)
        × IsRunOf B.Job.program B.Job.environment run.entry.0.now run.entry.1.now job × B.Job.ended job end.status) }
    ensures input { IfOk result (λ end. (lane : Lane B.Reader (Recorder W))
        × IsRecording (recorder_number (value_of run.entry.1.now (codes "TCPREMOTEPORT"))) Input errors.0 streams.0 lane
        × Fed B.Input.contents
        ⟦<Recorder<W> as Tap>⟧.watches ⟦<Recorder<W> as Tap>⟧.sees ⟦<Recorder<W> as Tap>⟧.ends lane end.input) }
    ensures output { IfOk result (λ end. (lane : Lane B.Writer (Recorder W))
        × IsRecording (recorder_number (value_of run.entry.1.now (codes "TCPREMOTEPORT"))) Output errors.1 streams.1 lane
        × Drained B.Output.remaining B.Writer.contents
        ⟦<Recorder<W> as Tap>⟧.watches ⟦<Recorder<W> as Tap>⟧.sees ⟦<Recorder<W> as Tap>⟧.ends lane end.output) }
    ensures fault { IfErr result (λ why. IsNotStarted B.Launcher.refuses launcher run.entry.0.now run.entry.1.now why
        ⊎ ((job : B.Job) × IsRunOf B.Job.program B.Job.environment run.entry.0.now run.entry.1.now job)) }
{
    let number = number_told(run.1);
    let input = record_lane(alloc, streams.0, number, Way::Input, errors.0);
    let output = record_lane(alloc, streams.1, number, Way::Output, errors.1);
    run_between::<H, B, _>(rt, alloc, launcher, run, (input, output), source)
}

/// A lane over a stream that changes nothing, which is recorded with this number and way.
fn record_lane<E, W: Write>(
    alloc: Global,
    stream: E,
    number: u64,
    way: Way,
    errors: W,
) -> Lane<E, Recorder<W>>
    ensures { IsRecording number way errors stream result }
{
    Lane {
        stream,
        chain: Chain::new(alloc, Vec::new(alloc)),
        tap: Recorder::new(alloc, number, way, errors),
    }
}

/// The number of a recorder, by the text of the peer's port among these variables: 0 where that is no port.
fn number_told(variables: &Environment) -> u64
    ensures { result ≡ recorder_number (value_of variables.now (codes "TCPREMOTEPORT")) }
{
    match variables.get("TCPREMOTEPORT") {
        Some(text) if text.len() <= 5 => number_in(text, 0, 65535).unwrap_or(0),
        _ => 0,
    }
}
