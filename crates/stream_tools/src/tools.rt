//! The tools over the standard streams and the system's programs.
use crate::between::{Between, BetweenFailure};
use crate::fixcrio::fix_between;
use crate::job::OsJob;
use crate::launcher::OsLauncher;
use crate::recordio::record_between;
use crate::search::SearchPath;
use crate::started::{SystemGiven, inherited_variables, program_of};
use byte_streams::Patient;
use child_jobs::{Environment, Program, Status};
use std::alloc::{AllocError, Global};
use std::fs::Files;
use std::io;
use std::io::{Printer, Write};
use std::marker::PhantomData;
use std::os::fd::RawFd;
use std::process::{ChildStdin, ChildStdout};
use std::rt::Env;
use std::sync::Wait;
use std::thread::Threads;
use std::time::Clock;

/// The descriptor of standard input.
const STANDARD_INPUT: RawFd = 0;

/// What the system has on both sides of two pumps.
struct OverSystem<'a, R> {
    system: PhantomData<&'a R>,
}

impl<'a, R: Input + Print + Clock + Files + Sync> Between for OverSystem<'a, R>
where
    R::Reader: Send,
{
    type Reader = Patient<'a, R, R::Reader>;

    type Writer = Patient<'a, R, Printer<'a, R>>;

    type Input = ChildStdin;

    type Output = ChildStdout;

    type Job = OsJob;

    type Launcher = OsLauncher<'a, R>;
}

/// What a tool was told that runs a program: the program, its variables, and where programs are looked for.
#[derive(Drop)]
struct ToldRun {
    program: Program,
    variables: Environment,
    search: SearchPath,
}

impl ToldRun {
    /// The program that words name, with the variables that this process was given.
    fn by_words<E: Env>(alloc: Global, env: &E, words: &[Vec<u8>]) -> Result<ToldRun, AllocError> {
        Ok(ToldRun {
            program: program_of(alloc, words)?,
            variables: inherited_variables(alloc, &SystemGiven(env))?,
            search: SearchPath::own(alloc, env)?,
        })
    }
}

/// Runs a program whose lines get a carriage return where they have none, both ways.
///
/// # Errors
/// As of `fix_between`.
pub fn run_fixcrio<R>(rt: &R, words: &[Vec<u8>]) -> Result<Status, BetweenFailure>
where
    R: Env + Input + Print + AllocGlobal + Threads + Wait + Sync + Clock + Files,
    R::Reader: Send,
{
    let alloc = rt.alloc();
    let told = ToldRun::by_words(alloc, rt, words)?;
    let launcher = OsLauncher::new(rt, &told.search);
    let run = (&told.program, &told.variables);
    let streams = (
        Patient::new(rt, rt.reader()),
        Patient::new(rt, io::writer(rt)),
    );
    let end = fix_between::<_, OverSystem<'_, R>>(
        rt,
        alloc,
        launcher,
        run,
        streams,
        STANDARD_INPUT,
    );
    drop(told);
    Ok(end?.status)
}

/// Runs a program, and records what goes both ways on `errors`: each record by one write, so that it stands together.
///
/// # Errors
/// As of `record_between`.
pub fn run_recordio<R, E>(rt: &R, errors: E, words: &[Vec<u8>]) -> Result<Status, BetweenFailure>
where
    R: Env + Input + Print + AllocGlobal + Threads + Wait + Sync + Clock + Files,
    R::Reader: Send,
    E: Write + Copy + Send + Drop,
{
    let alloc = rt.alloc();
    let told = ToldRun::by_words(alloc, rt, words)?;
    let launcher = OsLauncher::new(rt, &told.search);
    let run = (&told.program, &told.variables);
    let writers = (Patient::new(rt, errors), Patient::new(rt, errors));
    let streams = (
        Patient::new(rt, rt.reader()),
        Patient::new(rt, io::writer(rt)),
    );
    let end = record_between::<_, OverSystem<'_, R>, _>(
        rt,
        alloc,
        launcher,
        run,
        streams,
        writers,
        STANDARD_INPUT,
    );
    drop(told);
    Ok(end?.status)
}
