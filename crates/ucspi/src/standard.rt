//! The tools over the system, and over the streams of the process.
//!
//! They stand in the program's crate because whoever names a tool loads all proofs behind it.
ghost use Rattle.ucspi_tools.specs.Runs.{IsWritten, telling};

use byte_streams::Patient;
use byte_text::NotingStream;
use child_jobs::Status;
use fault_hints::{KeepingReader, Voice};
use rules_tools::{
    CheckFailure, InstallFolders, ReviewFault, RulesFailure, SystemFolders, SystemVariables,
    TcprulesFault, run_review, run_tcprules, run_tcprulescheck,
};
use script_tool::run_script;
use script_words::SimFault;
use server_parts::TcpserverFault;
use std::alloc::Global;
use std::fs::{File, Files};
use std::io;
use std::io::{BufWriter, Read, Write};
use std::rt::Env;
use std::time::Clock;
use stream_tools::BetweenFailure;
use stream_tools::started::SystemGiven;
use ucspi_tools::{Calls, Program, ToolFault, run_program, write_fault};

/// The descriptor of standard input.
const STANDARD_INPUT: i32 = 0;

/// Runs the program over the system, and answers its exit code. `errors` is standard error. Those tools that start
/// threads are lent as calls that may be made at any time, since the system has threads in `main` alone. A stream that
/// was left non-blocking is waited for.
pub(crate) fn run_system<R, E, S, P>(rt: &R, errors: E, serve: S, pass: P) -> u8
where
    R: Env + Input + Print + AllocGlobal + Files<File = File> + Clock,
    E: Write + Copy + Drop,
    S: Fn(Voice, &[Vec<u8>], &mut Vec<u8>) -> Result<(), TcpserverFault> + Drop,
    P: Fn(bool, &[Vec<u8>]) -> Result<Status, BetweenFailure> + Drop,
    requires { S.IsAlwaysCallable serve × P.IsAlwaysCallable pass }
{
    let mut program = Program {
        alloc: rt.alloc(),
        input: Patient::new(rt, rt.reader()),
        output: Patient::new(rt, io::writer(rt)),
        calls: StandardCalls {
            rt,
            errors,
            told: Patient::new(rt, errors),
            serve,
            pass,
        },
    };
    let code = run_program(&SystemGiven(rt), &mut program);
    drop(program);
    code
}

/// The tools over the system, and over its standard streams.
#[derive(Drop)]
struct StandardCalls<'a, R, E, W, S, P> {
    /// The system.
    rt: &'a R,
    /// Standard error.
    errors: E,
    /// The same, for the lines of faults.
    told: W,
    /// `tcpserver`.
    serve: S,
    /// `recordio` and `fixcrio`.
    pass: P,
}

impl<R, E, W, S, P> Calls for StandardCalls<'_, R, E, W, S, P>
where
    R: Env + Input + Print + AllocGlobal + Files<File = File> + Clock,
    E: Write + Copy + Drop,
    W: Write,
    S: Fn(Voice, &[Vec<u8>], &mut Vec<u8>) -> Result<(), TcpserverFault>,
    P: Fn(bool, &[Vec<u8>]) -> Result<Status, BetweenFailure>,
{
    ghost lent = { telling (λ _ fault causes old new.
        IsWritten fault causes (W.contents old.told) (W.contents new.told)) };

    ghost ready = { λ calls. S.IsAlwaysCallable calls.serve × P.IsAlwaysCallable calls.pass };

    fn serve(
        &mut self,
        voice: Voice,
        words: &[Vec<u8>],
        causes: &mut Vec<u8>,
    ) -> Result<(), TcpserverFault> {
        (self.serve)(voice, words, causes)
    }

    fn simulate(&mut self) -> Result<(), SimFault> {
        run_script(self.rt)
    }

    fn is_at_terminal(&self) -> bool {
        libc::isatty(STANDARD_INPUT) == 1
    }

    fn install(&mut self, cdb: &str, tmp: &str, faulty: &mut Vec<u8>) -> Result<(), RulesFailure> {
        let input = Patient::new(self.rt, self.rt.reader());
        let errors = Patient::new(self.rt, self.errors);
        let folders = SystemFolders::new(self.rt, errors);
        install_by(self.rt.alloc(), folders, input, (cdb, tmp), faulty)
    }

    fn review(&mut self, faulty: &mut Vec<u8>) -> Result<bool, ReviewFault> {
        let input = Patient::new(self.rt, self.rt.reader());
        let errors = Patient::new(self.rt, self.errors);
        review_by(self.rt.alloc(), input, errors, faulty)
    }

    fn check(&mut self, cdb: &str) -> Result<(), CheckFailure> {
        let errors = Patient::new(self.rt, self.errors);
        let output = Patient::new(self.rt, io::writer(self.rt));
        check_over(self.rt, errors, output, cdb)
    }

    fn pass(&mut self, recorded: bool, words: &[Vec<u8>]) -> Result<Status, BetweenFailure> {
        (self.pass)(recorded, words)
    }

    fn tell(&mut self, name: &str, fault: ToolFault, causes: &[u8]) {
        let _ = write_fault(&mut self.told, name, fault, causes);
    }
}

// `tcprules` over these folders, by the rule text that a reader gives.
fn install_by<F: InstallFolders + Drop, I: Read + Drop>(
    alloc: Global,
    folders: F,
    input: I,
    paths: (&str, &str),
    faulty: &mut Vec<u8>,
) -> Result<(), RulesFailure> {
    let mut folders = folders;
    let mut reader = KeepingReader::new(alloc, input);
    let mut noting = NotingStream::new(&mut reader);
    let done = run_tcprules(alloc, &mut folders, &mut noting, paths.0, paths.1);
    drop(noting);
    drop(folders);
    if let Err(failure) = done
        && let TcprulesFault::Line(fault) = failure.fault
    {
        reader.copy_line(fault.line, faulty);
    }
    drop(reader);
    done
}

// Looks over the rule text that a reader gives, and writes all its warnings.
fn review_by<I: Read + Drop, E: Write + Drop>(
    alloc: Global,
    input: I,
    errors: E,
    faulty: &mut Vec<u8>,
) -> Result<bool, ReviewFault> {
    let Ok(mut lines) = BufWriter::new(alloc, errors) else {
        return Err(ReviewFault::OutOfMemory);
    };
    let mut reader = KeepingReader::new(alloc, input);
    let outcome = run_review(alloc, &mut reader, &mut lines);
    if let Err(ReviewFault::Text(fault)) = outcome {
        reader.copy_line(fault.line, faulty);
    }
    drop(reader);
    let flushed = lines.flush();
    drop(lines);
    match (outcome, flushed) {
        (Ok(_), Err(_)) => Err(ReviewFault::WriteFault),
        (outcome, _) => outcome,
    }
}

// `tcprulescheck` over this system.
fn check_over<R, E, W>(system: &R, errors: E, output: W, cdb: &str) -> Result<(), CheckFailure>
where
    R: Env + AllocGlobal + Files<File = File>,
    E: Write + Drop,
    W: Write + Drop,
{
    let variables = SystemVariables(system);
    let mut folders = SystemFolders::new(system, errors);
    let mut writer = NotingStream::new(output);
    let told = run_tcprulescheck(system.alloc(), &variables, &mut folders, &mut writer, cdb);
    drop(writer);
    drop(folders);
    told
}
