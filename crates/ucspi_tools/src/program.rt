//! The program `ucspi`: its words, and the tool that they ask for.
ghost use Rattle.std.specs.Prelude.{◌≡◌, IfOk};
ghost use Rattle.stream_tools.specs.Programs.{texts_of};
ghost use Rattle.ucspi_tools.specs.Choices.{wanted};
ghost use Rattle.ucspi_tools.specs.Exits.{end_code};
ghost use Rattle.ucspi_tools.specs.Runs.{AreGiven, Checks, Installs, Passes, Ran, Reviews, Runs, RunsBy, Told, answered, listed, name_told, written};
ghost use Rattle.ucspi_tools.specs.declared.fault.ToolFault.TheVariants.{Filter, Script};

use crate::about::{tell_tools, tell_version, tell_words};
use crate::calls::Calls;
use crate::causes::{append_cause, append_faulty, append_start};
use crate::choice::{ToolChoice, choose};
use crate::fault::{BAD_INPUT, SYSTEM_FAULT, ToolFault, status_code, warned_code};
use crate::tool::Tool;
use fault_hints::Detail;
use rules_tools::{ReviewFault, TcprulesFault};
use script_words::SimFault;
use std::alloc::{AllocError, Global};
use std::io;
use std::io::{Read, Write};
use stream_tools::started::{Given, command_words, program_path};
use stream_tools::{FilterFault, add_returns, delete_returns};

/// The program's name.
const PROGRAM: &str = "ucspi";

/// What the program has: two streams, and its other tools as calls.
#[derive(Drop)]
pub struct Program<I, O, C> {
    /// What memory is taken from.
    pub alloc: Global,
    /// Standard input.
    pub input: I,
    /// Standard output.
    pub output: O,
    /// The tools that don't pass one stream on, and the line of a fault.
    pub calls: C,
}

/// Runs the tool that the name by which the program was called and its words ask for, and answers the exit code. A
/// fault is told under the name of the tool, or under the program's.
pub fn run_program<G: Given, I: Read, O: Write, C: Calls>(
    given: &G,
    program: &mut Program<I, O, C>,
) -> u8
    requires { C.ready program.old.calls }
    ensures runs { Runs G.honest (G.words given.now) (record { lent = C.lent; left = I.remaining; holds = O.contents })
        program.old program.new result }
{
    match words_of(program.alloc, given) {
        Ok((path, words)) => run_words(program, &path, &words),
        Err(_) => {
            program.calls.tell(PROGRAM, ToolFault::OutOfMemory, &[]);
            SYSTEM_FAULT
        }
    }
}

/// The path by which the program was called, and its words.
///
/// # Errors
/// There was no memory.
fn words_of<G: Given>(alloc: Global, given: &G) -> Result<(Vec<u8>, Vec<Vec<u8>>), AllocError>
    ensures { IfOk result (λ told. AreGiven G.honest (G.words given.now) told.0.items (texts_of told.1.items)) }
{
    let path = program_path(alloc, given)?;
    let words = command_words(alloc, given)?;
    Ok((path, words))
}

/// Runs the tool that a path and words ask for.
fn run_words<I: Read, O: Write, C: Calls>(
    program: &mut Program<I, O, C>,
    path: &[u8],
    words: &[Vec<u8>],
) -> u8
    requires { C.ready program.old.calls }
    ensures { RunsBy (record { lent = C.lent; left = I.remaining; holds = O.contents })
        path.now (texts_of words.now) program.old program.new result }
{
    let mut causes = Vec::new(program.alloc);
    let choice = choose(path, words);
    let answer = run(program, &mut causes, choice);
    end(&mut program.calls, choice, answer, &causes)
}

/// Tells the fault of a run, where there is one, and answers the exit code.
fn end<C: Calls>(
    calls: &mut C,
    choice: ToolChoice<'_>,
    answer: Result<u8, ToolFault>,
    causes: &[u8],
) -> u8
    ensures told { Told C.lent (name_told (wanted choice.entry)) answer causes.now calls.old calls.new }
    ensures exit { result ≡ end_code answer }
{
    match answer {
        Ok(code) => code,
        Err(fault) => {
            calls.tell(name_of(choice), fault, causes);
            fault.exit_code()
        }
    }
}

/// The name under which a fault is told of what words ask for.
fn name_of(choice: ToolChoice<'_>) -> &'static str
    ensures { result.now ≡ name_told (wanted choice.entry) }
{
    match choice.tool() {
        Some(tool) => tool.name(),
        None => PROGRAM,
    }
}

/// Runs what words ask for. What is told behind the line of a fault is appended to `causes`.
fn run<I: Read, O: Write, C: Calls>(
    program: &mut Program<I, O, C>,
    causes: &mut Vec<u8>,
    choice: ToolChoice<'_>,
) -> Result<u8, ToolFault>
    requires { C.ready program.old.calls }
    ensures { Ran (record { lent = C.lent; left = I.remaining; holds = O.contents }) (wanted choice.entry)
        program.old program.new causes.old.items causes.new.items result }
{
    let alloc = program.alloc;
    let (input, output) = (&mut program.input, &mut program.output);
    let calls = &mut program.calls;
    match choice {
        ToolChoice::Tcpserver(voice, words) => match calls.serve(voice, words, causes) {
            Ok(()) => Ok(0),
            Err(fault) => Err(ToolFault::Server(fault)),
        },
        ToolChoice::Rulesim => simulated(calls.simulate()),
        ToolChoice::Unasked => {
            if calls.is_at_terminal() {
                listed(tell_tools(output))
            } else {
                simulated(calls.simulate())
            }
        }
        ToolChoice::Tcprules(detail, cdb, tmp) => install(calls, alloc, causes, detail, (cdb, tmp)),
        ToolChoice::Review(detail, strict) => review(calls, alloc, causes, detail, strict),
        ToolChoice::Tcprulescheck(detail, cdb) => check(calls, alloc, causes, detail, cdb),
        ToolChoice::Addcr => filtered(add_returns(alloc, input, output)),
        ToolChoice::Delcr => filtered(delete_returns(alloc, input, output)),
        ToolChoice::Passing(recorded, detail, words) => {
            pass(calls, alloc, causes, detail, (recorded, words))
        }
        ToolChoice::Version => written(tell_version(output)),
        ToolChoice::Help => written(tell_tools(output)),
        ToolChoice::HelpOf(tool) => written(tell_words(output, tool)),
        ToolChoice::UsageOf(detail, tool) => Err(ToolFault::UsageOf(tool, detail)),
        ToolChoice::Usage => Err(ToolFault::Usage),
    }
}

/// `tcprules`, by the paths of the rules file and of the scratch file.
fn install<C: Calls>(
    calls: &mut C,
    alloc: Global,
    causes: &mut Vec<u8>,
    detail: Detail,
    paths: (&str, &str),
) -> Result<u8, ToolFault>
    ensures { Installs C.lent detail paths.entry.0.now paths.entry.1.now calls.old calls.new
        causes.old.items causes.new.items result }
{
    let mut faulty = Vec::new(alloc);
    match calls.install(paths.0, paths.1, &mut faulty) {
        Ok(()) => Ok(0),
        Err(failure) => {
            match failure.fault {
                TcprulesFault::Line(fault) => append_faulty(causes, detail, fault.kind, &faulty),
                _ => append_cause(causes, alloc, detail, Tool::Tcprules, failure.cause, paths),
            }
            Err(ToolFault::Rules(failure.fault))
        }
    }
}

/// `tcprules` over a text alone; under `strict` a warning makes it fail.
fn review<C: Calls>(
    calls: &mut C,
    alloc: Global,
    causes: &mut Vec<u8>,
    detail: Detail,
    strict: bool,
) -> Result<u8, ToolFault>
    ensures { Reviews C.lent detail strict calls.old calls.new causes.old.items causes.new.items result }
{
    let mut faulty = Vec::new(alloc);
    match calls.review(&mut faulty) {
        Ok(warned) => Ok(warned_code(strict, warned)),
        Err(fault) => {
            if let ReviewFault::Text(line) = fault {
                append_faulty(causes, detail, line.kind, &faulty);
            }
            Err(ToolFault::Review(fault))
        }
    }
}

/// `tcprulescheck`, by the path of the rules file.
fn check<C: Calls>(
    calls: &mut C,
    alloc: Global,
    causes: &mut Vec<u8>,
    detail: Detail,
    cdb: &str,
) -> Result<u8, ToolFault>
    ensures { Checks C.lent detail cdb.now calls.old calls.new causes.old.items causes.new.items result }
{
    match calls.check(cdb) {
        Ok(()) => Ok(0),
        Err(failure) => {
            append_cause(
                causes,
                alloc,
                detail,
                Tool::Tcprulescheck,
                failure.cause,
                (cdb, cdb),
            );
            Err(ToolFault::Check(failure.fault))
        }
    }
}

/// `fixcrio` or `recordio`: whether it is recorded, and the words of the program.
fn pass<C: Calls>(
    calls: &mut C,
    alloc: Global,
    causes: &mut Vec<u8>,
    detail: Detail,
    told: (bool, &[Vec<u8>]),
) -> Result<u8, ToolFault>
    requires { C.ready calls.old }
    ensures { Passes C.lent detail told.entry.0 (texts_of told.entry.1.now) calls.old calls.new
        causes.old.items causes.new.items result }
{
    let (recorded, words) = told;
    match calls.pass(recorded, words) {
        Ok(status) => Ok(status_code(status)),
        Err(failure) => {
            append_start(
                causes,
                alloc,
                detail,
                Tool::passing(recorded),
                words,
                failure.error,
            );
            Err(ToolFault::Between(failure.fault))
        }
    }
}

/// The answer of a run that passed one stream on.
fn filtered(own: Result<(), FilterFault>) -> Result<u8, ToolFault>
    ensures { result ≡ answered Filter own }
{
    match own {
        Ok(()) => Ok(0),
        Err(fault) => Err(ToolFault::Filter(fault)),
    }
}

/// The answer of a script.
fn simulated(own: Result<(), SimFault>) -> Result<u8, ToolFault>
    ensures { result ≡ answered Script own }
{
    match own {
        Ok(()) => Ok(0),
        Err(fault) => Err(ToolFault::Script(fault)),
    }
}

/// The answer after all tools were to be listed, since the words ask for none.
fn listed(own: io::Result<()>) -> Result<u8, ToolFault>
    ensures { result ≡ listed own }
{
    match own {
        Ok(()) => Ok(BAD_INPUT),
        Err(_) => Err(ToolFault::WriteFault),
    }
}

/// The answer after a text that was to be written.
fn written(own: io::Result<()>) -> Result<u8, ToolFault>
    ensures { result ≡ written own }
{
    match own {
        Ok(()) => Ok(0),
        Err(_) => Err(ToolFault::WriteFault),
    }
}
