//! A child of this process, and what it is started with.
ghost use Rattle.std.specs.Prelude.{◌≡◌, ◌++◌, ◌∷◌, [], IfOk, OnOk};
ghost use Rattle.stream_tools.specs.Starts.{ended, entries_of, words_of};

use child_jobs::{Environment, Program, StartFault};
use std::alloc::Global;
use std::io::{Error, ErrorKind};
use std::os::fd::RawFd;
use std::snapshot::Snapshot;

/// A child of this process, which was started with the words of this program and with these variables: only a `Start`
/// makes one.
#[derive(Drop)]
pub(crate) struct Child {
    number: i32,
    program: Snapshot<Program>,
    environment: Snapshot<Environment>,
}

impl Child {
    /// The system's number of it.
    pub fn number(&self) -> i32 {
        self.number
    }
}

/// What a program is started with, beside its path: texts, each with a zero byte behind it.
#[derive(Drop)]
pub(crate) struct Start<'a> {
    program: &'a Program,
    environment: &'a Environment,
    words: Vec<u8>,
    variables: Vec<u8>,
    streams: [RawFd; 3],
    ghost words_are: { words.items ≡ ended (words_of program.now) },
    ghost variables_are: { variables.items ≡ ended (entries_of environment.now) },
}

impl<'a> Start<'a> {
    /// What this program is started with, and these variables and descriptors.
    ///
    /// # Errors
    /// `Other` where a zero byte is in a text; `OutOfMemory`.
    pub fn new(
        alloc: Global,
        program: &'a Program,
        environment: &'a Environment,
        streams: [RawFd; 3],
    ) -> Result<Start<'a>, StartFault>
        ensures program { IfOk result (λ start. start.program.now ≡ program.now) }
        ensures environment { IfOk result (λ start. start.environment.now ≡ environment.now) }
    {
        let words = words_of(alloc, program)?;
        let variables = variables_of(alloc, environment)?;
        Ok(Start {
            program,
            environment,
            words,
            variables,
            streams,
        })
    }

    /// Starts the program at this path. Makes no process for a path at which nothing is.
    ///
    /// # Errors
    /// What the system told.
    pub fn at(&self, path: &[u8]) -> Result<Child, Error>
        ensures program { IfOk result (λ child. child.program.value ≡ self.now.program.now) }
        ensures environment { IfOk result (λ child. child.environment.value ≡ self.now.environment.now) }
    {
        if os::readlink(path, &mut [0u8; 1]) < 0 {
            let error = Error::from_raw_os_error(os::errno());
            if matches!(error.kind(), ErrorKind::NotFound | ErrorKind::NotADirectory) {
                return Err(error);
            }
        }
        let number = os::spawn(path, &self.words, &self.variables, b"", self.streams);
        if number <= 0 {
            return Err(Error::from_raw_os_error(os::errno()));
        }
        Ok(Child {
            number,
            program: Snapshot::of(self.program),
            environment: Snapshot::of(self.environment),
        })
    }
}

/// The words of a program, its name first.
fn words_of(alloc: Global, program: &Program) -> Result<Vec<u8>, StartFault>
    ensures { IfOk result (λ words. words.items ≡ ended (words_of program.now)) }
{
    let mut words = Vec::new(alloc);
    push_text(&mut words, program.path().as_bytes())?;
    for word in program.args() {
        push_text(&mut words, word.as_bytes())?;
    }
    Ok(words)
}

/// Variables, each as `NAME=VALUE`.
fn variables_of(alloc: Global, environment: &Environment) -> Result<Vec<u8>, StartFault>
    ensures { IfOk result (λ variables. variables.items ≡ ended (entries_of environment.now)) }
{
    let mut variables = Vec::new(alloc);
    for variable in environment.as_slice() {
        push_part(&mut variables, variable.name().as_bytes())?;
        push_part(&mut variables, b"=")?;
        push_text(&mut variables, variable.value().as_bytes())?;
    }
    Ok(variables)
}

/// Adds a text and the zero byte that ends it.
fn push_text(texts: &mut Vec<u8>, text: &[u8]) -> Result<(), StartFault>
    ensures { OnOk result (texts.new.items ≡ texts.old.items ++ text.now ++ 0 ∷ []) }
{
    push_part(texts, text)?;
    texts.push(0).or(Err(StartFault::OutOfMemory))
}

/// Adds a part of a text, in which no zero byte may be.
fn push_part(texts: &mut Vec<u8>, part: &[u8]) -> Result<(), StartFault>
    ensures { OnOk result (texts.new.items ≡ texts.old.items ++ part.now) }
{
    if part.contains(&0) {
        return Err(StartFault::Other);
    }
    texts
        .extend_from_slice(part)
        .or(Err(StartFault::OutOfMemory))
}
