//! The reading of option words.
ghost use Rattle.std.specs.Prelude.{◌≡◌, ◌≤◌, ℕ, List, [], length, map, IfOk, IfErr, string_bytes};
ghost use Rattle.std.specs.Str.{chars};
ghost use Rattle.server_words.specs.Words.{Reads, Refuses, RefusesWords, before, before_letters, kind_of, letters_read, reading, reading_from, value_in_rest, word_kind};
ghost use Rattle.server_words.specs.declared.option_fault.WordFault.TheVariants.{OutOfMemory};

use crate::letter::{Meaning, split_first_char};
use crate::option_fault::WordFault;
use crate::option_laws::by_the_rules;
use crate::options::{OptionGiven, Options};
use std::alloc::Global;

/// Reads the options at the start of `words`, as `letters` describes them, and gives them with the words that follow.
///
/// A word that begins with `-` and is longer holds letters. A letter with a value takes the rest of its word if that is
/// not empty, else the next word, whatever that is. `--` ends the options and is dropped; the first other word ends
/// them and is kept. This is how the ucspi-tcp tools read their words.
///
/// # Errors
/// `Unknown`, `NoValue` or `NotInProfile` with the first faulty letter of the first faulty word; `OutOfMemory` where
/// there was no memory for the options. `BadNumber` is not answered here.
pub fn read_words<'a>(
    alloc: Global,
    letters: &str,
    words: &'a [String],
) -> Result<(Options<'a>, &'a [String]), WordFault>
    ensures read { IfOk result (λ r. Reads (chars letters.now) [] (map string_bytes words.now)
        (Ok (record { options = r.0; rest = map string_bytes r.1.now }))) }
    ensures refused { IfErr result (RefusesWords (chars letters.now) (map string_bytes words.now)) }
{
    by_the_rules();
    read_options(alloc, letters, words)
}

fn read_options<'a>(
    alloc: Global,
    letters: &str,
    words: &'a [String],
) -> Result<(Options<'a>, &'a [String]), WordFault>
    ensures read { IfOk result (λ r. reading letters.now (map string_bytes words.now)
        ≡ Ok (record { options = r.0; rest = map string_bytes r.1.now })) }
    ensures refused { IfErr result (Refuses (reading letters.now (map string_bytes words.now))) }
{
    let mut options = Options::new(alloc);
    let rest = fill_options(&mut options, letters, words)?;
    Ok((options, rest))
}

/// Adds the options at the start of `words` to those of none, and gives the words that follow.
fn fill_options<'a>(
    options: &mut Options<'a>,
    letters: &str,
    words: &'a [String],
) -> Result<&'a [String], WordFault>
    requires { options.old ≡ [] }
    ensures read { IfOk result (λ rest. reading letters.now (map string_bytes words.now)
        ≡ Ok (record { options = options.new; rest = map string_bytes rest.now })) }
    ensures refused { IfErr result (Refuses (reading letters.now (map string_bytes words.now))) }
{
    let mut rest = words;
    while let Some((word, after)) = rest.split_first() {
        match Word::of(word.as_str()) {
            Word::EndMark => return Ok(after),
            Word::Ordinary => return Ok(rest),
            Word::Letters(text) => {
                let wanting = read_letters(options, letters, text)?;
                rest = take_value(options, wanting, after)?;
            }
        }
    }
    Ok(rest)
}

/// What a word is.
#[derive(Clone, Copy)]
enum Word<'a> {
    /// `--`.
    EndMark,
    /// The characters after a `-`, at least one.
    Letters(&'a str),
    /// Another word.
    Ordinary,
}

impl<'a> Word<'a> {
    fn of(word: &'a str) -> Word<'a>
        ensures { word_kind result ≡ kind_of (chars word.now) }
    {
        let Some(('-', letters)) = split_first_char(word) else {
            return Word::Ordinary;
        };
        let Some((first, rest)) = split_first_char(letters) else {
            return Word::Ordinary;
        };
        if first == '-' && rest.is_empty() {
            Word::EndMark
        } else {
            Word::Letters(letters)
        }
    }
}

/// Adds the options that the letters of a word give. Answers the letter that takes the next word as its value, if one
/// does.
fn read_letters<'a>(
    options: &mut Options<'a>,
    letters: &str,
    text: &'a str,
) -> Result<Option<char>, WordFault>
    ensures read { IfOk result (λ wanting.
        before_letters options.old (letters_read (chars letters.now) (chars text.now))
        ≡ Ok (record { options = options.new; wanting = wanting })) }
    ensures refused { IfErr result
        (Refuses (before_letters options.old (letters_read (chars letters.now) (chars text.now)))) }
{
    let mut rest = text;
    while let Some((letter, after)) = split_first_char(rest) {
        match Meaning::of(letters, letter) {
            Meaning::Plain => options.push(OptionGiven {
                letter,
                value: None,
            })?,
            Meaning::Valued => return read_value(options, letter, after),
            Meaning::NotInProfile => return Err(WordFault::NotInProfile(letter)),
            Meaning::Unknown => return Err(WordFault::Unknown(letter)),
        }
        rest = after;
    }
    Ok(None)
}

/// Adds a letter with the rest of its word as its value. Where nothing is left of its word, answers the letter.
fn read_value<'a>(
    options: &mut Options<'a>,
    letter: char,
    rest: &'a str,
) -> Result<Option<char>, WordFault>
    ensures read { IfOk result (λ wanting. before_letters options.old (Ok (value_in_rest letter (chars rest.now)))
        ≡ Ok (record { options = options.new; wanting = wanting })) }
    ensures refused { IfErr result (λ fault. fault ≡ OutOfMemory) }
{
    if rest.is_empty() {
        return Ok(Some(letter));
    }
    options.push(OptionGiven {
        letter,
        value: Some(rest),
    })?;
    Ok(None)
}

/// Adds a letter that wants the next word as its value, if there is such a letter, and gives the words after that.
fn take_value<'a>(
    options: &mut Options<'a>,
    wanting: Option<char>,
    words: &'a [String],
) -> Result<&'a [String], WordFault>
    ensures read { IfOk result (λ rest. (letters : List ℕ)
        → before options.old (reading_from letters (map string_bytes words.now) wanting)
        ≡ before options.new (reading_from letters (map string_bytes rest.now) None)) }
    ensures refused { IfErr result (λ fault. (letters : List ℕ)
        → Refuses (reading_from letters (map string_bytes words.now) wanting) fault) }
    ensures shorter { IfOk result (λ rest. length rest.now ≤ length words.now) }
{
    let Some(letter) = wanting else {
        return Ok(words);
    };
    let Some((value, after)) = words.split_first() else {
        return Err(WordFault::NoValue(letter));
    };
    options.push(OptionGiven {
        letter,
        value: Some(value.as_str()),
    })?;
    Ok(after)
}
