//! What a program is given when it is started: its words and its variables.
ghost use Rattle.std.specs.Prelude.{◌≡◌, ℕ, Bool, List, [], false, drop, map, slice_get, string_bytes, IfOk, IsTrue, OnOk, OnErr};
ghost use Rattle.stream_tools.specs.Entries.{bytes_found, path_among, texts_around, variable_in, variable_of, with_entries, with_found};
ghost use Rattle.stream_tools.specs.Programs.{program_by, text_in, texts_of};

use child_jobs::{Environment, Program};
use std::alloc::{AllocError, Global};
use std::env::FillError;
use std::rt::Env;

/// What a process is given when it is started.
pub trait Given {
    /// Its words, each as the bytes that it is: the path by which it was called, and its arguments.
    ghost words: { Self → List (List ℕ) };

    /// The entries of its environment, each as the bytes that it is.
    ghost entries: { Self → List (List ℕ) };

    /// Whether it is known what they are.
    ghost honest: { Bool };

    /// The word at a position, from 0; `None` behind the last.
    ///
    /// # Errors
    /// There was no memory.
    fn word(&self, alloc: Global, position: usize) -> Result<Option<Vec<u8>>, AllocError>
        ensures { IsTrue honest → IfOk result (λ found. bytes_found found ≡ slice_get (words self.now) position) };

    /// The entry at a position, from 0; `None` behind the last.
    ///
    /// # Errors
    /// There was no memory.
    fn entry(&self, alloc: Global, position: usize) -> Result<Option<Vec<u8>>, AllocError>
        ensures { IsTrue honest → IfOk result (λ found. bytes_found found ≡ slice_get (entries self.now) position) };
}

/// What the system gave this process. Nothing is known of it.
#[derive(Drop)]
pub struct SystemGiven<'a, E>(pub &'a E);

impl<'a, E: Env> Given for SystemGiven<'a, E> {
    ghost words = { λ _. [] };

    ghost entries = { λ _. [] };

    ghost honest = { false };

    fn word(&self, alloc: Global, position: usize) -> Result<Option<Vec<u8>>, AllocError> {
        told(alloc, self.0, Entry::Word(position))
    }

    fn entry(&self, alloc: Global, position: usize) -> Result<Option<Vec<u8>>, AllocError> {
        told(alloc, self.0, Entry::Variable(position))
    }
}

/// The path by which the program was called, as the bytes that it is: the first of its words, empty where there is
/// none.
///
/// # Errors
/// There was no memory.
pub fn program_path<G: Given>(alloc: Global, given: &G) -> Result<Vec<u8>, AllocError>
    ensures all { IsTrue G.honest → IfOk result (λ path. path.items ≡ path_among (G.words given.now)) }
{
    Ok(given.word(alloc, 0)?.unwrap_or(Vec::new(alloc)))
}

/// All words of the command line after the path, each as the bytes that it is.
///
/// # Errors
/// There was no memory.
pub fn command_words<G: Given>(alloc: Global, given: &G) -> Result<Vec<Vec<u8>>, AllocError>
    ensures all { IsTrue G.honest → IfOk result (λ words. texts_of words.items ≡ drop 1 (G.words given.now)) }
{
    let mut words = Vec::new(alloc);
    for position in 1..usize::MAX {
        match given.word(alloc, position)? {
            Some(word) => words.push(word)?,
            None => return Ok(words),
        }
    }
    Err(AllocError)
}

/// All variables that a process was given. An entry that is not UTF-8 says none, and so does one without a name.
///
/// # Errors
/// There was no memory.
pub fn inherited_variables<G: Given>(alloc: Global, given: &G) -> Result<Environment, AllocError>
    ensures all { IsTrue G.honest → IfOk result (λ variables. variables ≡ with_entries [] (G.entries given.now)) }
{
    let mut variables = Environment::new(alloc);
    for position in 0..usize::MAX {
        match given.entry(alloc, position)? {
            Some(entry) => put_entry(alloc, &mut variables, &entry)?,
            None => return Ok(variables),
        }
    }
    Err(AllocError)
}

/// Puts the variable of an entry, where it says one.
///
/// # Errors
/// There was no memory, and the variables are as before.
fn put_entry(alloc: Global, variables: &mut Environment, entry: &[u8]) -> Result<(), AllocError>
    ensures put { OnOk result (variables.new ≡ with_found variables.old (variable_in entry.now)) }
    ensures unchanged { OnErr result (variables.new ≡ variables.old) }
{
    match variable_in(entry) {
        Some((name, value)) => variables.put(alloc, name, value),
        None => Ok(()),
    }
}

/// The name and the value of an entry `NAME=VALUE`, which is UTF-8.
fn variable_in(entry: &[u8]) -> Option<(&str, &str)>
    ensures { texts_around result ≡ variable_in entry.now }
{
    match str::from_utf8(entry) {
        Ok(text) => variable_of(text),
        Err(_) => None,
    }
}

/// The name and the value of a text `NAME=VALUE`.
fn variable_of(text: &str) -> Option<(&str, &str)>
    ensures { texts_around result ≡ variable_of text.now }
{
    match text.split_once('=') {
        Some((name, value)) if !name.is_empty() => Some((name, value)),
        _ => None,
    }
}

/// The program that words name: the first is its path, the others are its arguments. A word that is not UTF-8 counts as
/// empty.
pub fn program_of(alloc: Global, words: &[Vec<u8>]) -> Result<Program, AllocError>
    ensures { IfOk result (λ program. program ≡ program_by (texts_of words.now)) }
{
    let Some((path, rest)) = words.split_first() else {
        return Ok(Program::new(String::new(alloc), Vec::new(alloc)));
    };
    let path = text_of(alloc, path)?;
    Ok(Program::new(path, texts_of(alloc, rest)?))
}

/// All words as texts. One that is not UTF-8 counts as empty.
///
/// # Errors
/// There was no memory.
pub fn texts_of(alloc: Global, words: &[Vec<u8>]) -> Result<Vec<String>, AllocError>
    ensures { IfOk result (λ texts. map string_bytes texts.items ≡ map text_in (texts_of words.now)) }
{
    let mut texts = Vec::new(alloc);
    for word in words {
        texts.push(text_of(alloc, word)?)?;
    }
    Ok(texts)
}

/// A word as a text of its own.
fn text_of(alloc: Global, word: &[u8]) -> Result<String, AllocError>
    ensures { IfOk result (λ text. string_bytes text ≡ text_in word.now) }
{
    match str::from_utf8(word) {
        Ok(text) => String::from_str(alloc, text),
        Err(_) => Ok(String::new(alloc)),
    }
}

/// What a program is told, by its position or its name.
#[derive(Clone, Copy)]
pub(crate) enum Entry<'a> {
    /// A word of the command line, from 0, which is the program's name.
    Word(usize),
    /// An entry of its environment, from 0.
    Variable(usize),
    /// The value of the variable of this name.
    Named(&'a str),
}

/// What this process was told there, as the bytes that it is, in a buffer that grows until it fits; `None` where there
/// is nothing.
pub(crate) fn told<E: Env>(
    alloc: Global,
    env: &E,
    entry: Entry<'_>,
) -> Result<Option<Vec<u8>>, AllocError> {
    let mut size = 256usize;
    for _ in 0..40 {
        let mut buffer = vec![in alloc; 0u8; size]?;
        let filled = match entry {
            Entry::Word(position) => env.arg(position, &mut buffer),
            Entry::Variable(position) => env.var_at(position, &mut buffer),
            Entry::Named(name) => env.var(name, &mut buffer),
        };
        match filled {
            Ok(len) => {
                buffer.truncate(len);
                return Ok(Some(buffer));
            }
            Err(FillError::NotPresent) => return Ok(None),
            Err(FillError::TooLong) => size = size.saturating_mul(2),
        }
    }
    Err(AllocError)
}
