//! `fixcrio`: a program both of whose streams get carriage returns.
ghost use Rattle.std.specs.Prelude.{◌≡◌, ◌⊎◌, IfErr, IfOk, IsTrue};
ghost use Rattle.byte_streams.specs.declared.tap.NoTap.{NoTap};
ghost use Rattle.stream_tools.specs.Lanes.{Drained, Fed, IsFixing, IsNotStarted, IsRunOf};
ghost use Rattle.stream_tools.specs.declared.between.BetweenFault.TheVariants.{OutOfMemory};
ghost use Rattle.stream_tools.specs.declared.between.Lane.{Lane};

use crate::between::{Between, BetweenFailure, Lane, RunEnd, run_between};
use crate::filter::chain_of;
use byte_streams::{FixCr, NoTap, Tap};
use child_jobs::{Environment, Job, Launcher, Program};
use std::alloc::{AllocError, Global};
use std::io::{Read, Write};
use std::os::fd::RawFd;
use std::sync::Wait;
use std::thread::Threads;

/// `fixcrio`: runs a program between two streams, each of whose lines gets a carriage return where it has none.
///
/// # Errors
/// As of `run_between`; `OutOfMemory` also where nothing was started.
pub fn fix_between<H, B>(
    rt: &H,
    alloc: Global,
    launcher: B::Launcher,
    run: (&Program, &Environment),
    streams: (B::Reader, B::Writer),
    source: RawFd,
) -> Result<RunEnd, BetweenFailure>
where
    H: Threads + Wait + Sync,
    B: Between,
    B::Launcher: Drop,
    requires may { IsTrue (B.Launcher.may launcher run.0.now run.1.now) }
    ensures ended { IfOk result (λ end. (job : B.Job)
        × IsRunOf B.Job.program B.Job.environment run.entry.0.now run.entry.1.now job × B.Job.ended job end.status) }
    ensures input { IfOk result (λ end. (lane : Lane B.Reader NoTap) × IsFixing streams.0 lane
        × Fed B.Input.contents
        ⟦<NoTap as Tap>⟧.watches ⟦<NoTap as Tap>⟧.sees ⟦<NoTap as Tap>⟧.ends lane end.input) }
    ensures output { IfOk result (λ end. (lane : Lane B.Writer NoTap) × IsFixing streams.1 lane
        × Drained B.Output.remaining B.Writer.contents
        ⟦<NoTap as Tap>⟧.watches ⟦<NoTap as Tap>⟧.sees ⟦<NoTap as Tap>⟧.ends lane end.output) }
    ensures fault { IfErr result (λ why. (why.fault ≡ OutOfMemory)
        ⊎ (IsNotStarted B.Launcher.refuses launcher run.entry.0.now run.entry.1.now why
        ⊎ ((job : B.Job) × IsRunOf B.Job.program B.Job.environment run.entry.0.now run.entry.1.now job))) }
{
    let (input, output) = streams;
    let input = fix_lane(alloc, input)?;
    let output = fix_lane(alloc, output)?;
    run_between::<H, B, _>(rt, alloc, launcher, run, (input, output), source)
}

/// A lane over a stream, in which each line gets a carriage return where it has none.
fn fix_lane<E: Drop>(alloc: Global, stream: E) -> Result<Lane<E, NoTap>, AllocError>
    ensures { IfOk result (IsFixing stream) }
{
    let chain = chain_of(alloc, FixCr::new())?;
    let tap = NoTap;
    Ok(Lane { stream, chain, tap })
}
