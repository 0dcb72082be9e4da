//! Options that were given.
ghost use Rattle.std.specs.Prelude.{◌≡◌, ◌++◌, ◌∷◌, [], map, option_map, IfErr, IfOk, OnOk, OnErr};
ghost use Rattle.std.specs.Borrow.{Bor};
ghost use Rattle.server_words.specs.declared.options.OptionGiven.{OptionGiven};
ghost use Rattle.server_words.specs.OptionWords.{text_of, letter_of, last_given, value_of, is_given, last_of, number_option, IsNumberOf, IsBadBy};

use crate::number::number_in;
use crate::option_fault::WordFault;
use std::alloc::{AllocError, Global};
use std::marker::Model;

/// An option that was given.
#[derive(Clone, Copy)]
pub struct OptionGiven<'a> {
    /// Its letter.
    pub letter: char,
    /// Its value, if it takes one.
    pub value: Option<&'a str>,
}

/// The options that were given, in their order. Of one that was given more than once the last counts.
#[derive(Drop)]
pub struct Options<'a> {
    given: Vec<OptionGiven<'a>>,
}

impl<'a> Model for Options<'a> {
    ghost use Rattle.std.specs.Prelude.{List, map};
    ghost use Rattle.server_words.specs.OptionWords.{letter_of};
    ghost use Rattle.server_words.specs.Words.{LetterGiven};

    ghost Value = { List LetterGiven };

    ghost view = { λ o. map letter_of o.given.items };
}

impl<'a> Options<'a> {
    /// No options.
    pub fn new(alloc: Global) -> Options<'a>
        ensures { result ≡ [] }
    {
        Options {
            given: Vec::new(alloc),
        }
    }

    /// Adds an option at the end.
    pub fn push(&mut self, given: OptionGiven<'a>) -> Result<(), AllocError>
        ensures added { OnOk result (self.new ≡ self.old ++ letter_of given.entry ∷ []) }
        ensures kept { OnErr result (self.new ≡ self.old) }
    {
        self.given.push(given)?;
        Ok(())
    }

    /// Whether a letter was given.
    pub fn has(&self, letter: char) -> bool
        ensures { result ≡ is_given self.now letter }
    {
        self.given.iter().any(|given| given.letter == letter)
    }

    /// The value of a letter, where it was given with one.
    pub fn value(&self, letter: char) -> Option<&'a str>
        ensures { text_of result ≡ value_of self.now letter }
    {
        last_given(self.given.as_slice(), letter)?.value
    }

    /// The one of these letters that was given last.
    pub fn last_of(&self, letters: &[char]) -> Option<char>
        ensures { result ≡ last_of self.now letters.now }
    {
        last_of(self.given.as_slice(), letters)
    }

    /// The number that a letter's value is, from `least` to `greatest`; `None` where the letter has no value. A value
    /// that is no such number is `BadNumber` with the letter.
    pub fn number(&self, letter: char, least: u64, greatest: u64) -> Result<Option<u64>, WordFault>
        ensures read { IfOk result (IsNumberOf self.now (number_option letter least greatest)) }
        ensures refused { IfErr result (IsBadBy self.now (number_option letter least greatest)) }
    {
        let Some(text) = self.value(letter) else {
            return Ok(None);
        };
        match number_in(text, least, greatest) {
            None => Err(WordFault::BadNumber(letter)),
            number => Ok(number),
        }
    }
}

/// The last of the options with a letter.
fn last_given<'s, 'a>(options: &'s [OptionGiven<'a>], letter: char) -> Option<&'s OptionGiven<'a>>
    ensures { option_map (λ (given : Bor OptionGiven). letter_of given.now) result
        ≡ last_given (map letter_of options.now) letter }
{
    let mut last = None;
    for given in options {
        if given.letter == letter {
            last = Some(given);
        }
    }
    last
}

/// The letter of the last of the options with one of these letters.
fn last_of(options: &[OptionGiven<'_>], letters: &[char]) -> Option<char>
    ensures { result ≡ last_of (map letter_of options.now) letters.now }
{
    let mut last = None;
    for given in options {
        if letters.contains(&given.letter) {
            last = Some(given.letter);
        }
    }
    last
}
