//! What the letters of a program say.
ghost use Rattle.std.specs.Prelude.{◌≡◌, ◌∷◌, ◌++◌, [], IfSome, MatchOption};
ghost use Rattle.std.specs.Char.{encode_utf8};
ghost use Rattle.std.specs.Str.{chars};
ghost use Rattle.server_words.specs.Letters.{is_mark, listed_as, marked_by, meaning_of};

/// What a character is as an option.
#[derive(Clone, Copy)]
pub enum Meaning {
    /// A letter without a value.
    Plain,
    /// A letter with a value.
    Valued,
    /// A letter that is not in this profile.
    NotInProfile,
    /// No letter of the program.
    Unknown,
}

impl Meaning {
    /// What a text of letters says of a character. Of a letter that stands there twice the first place counts. `:`, `!`
    /// and `-` are no letters.
    pub fn of(letters: &str, letter: char) -> Meaning
        ensures { result ≡ meaning_of (chars letters.now) letter }
    {
        if is_mark(letter) {
            Meaning::Unknown
        } else {
            listed_as(letters, letter)
        }
    }
}

/// The characters that are no letters.
fn is_mark(c: char) -> bool
    ensures { result ≡ is_mark c }
{
    c == ':' || c == '!' || c == '-'
}

/// What stands after a character where it first stands.
fn listed_as(letters: &str, letter: char) -> Meaning
    ensures { result ≡ listed_as (chars letters.now) letter }
{
    let mut rest = letters;
    while let Some((first, after)) = split_first_char(rest) {
        if first == letter {
            return marked_by(after);
        }
        rest = after;
    }
    Meaning::Unknown
}

/// What the text after a letter says of it.
fn marked_by(after: &str) -> Meaning
    ensures { result ≡ marked_by (chars after.now) }
{
    match split_first_char(after) {
        Some((':', _)) => Meaning::Valued,
        Some(('!', _)) => Meaning::NotInProfile,
        _ => Meaning::Plain,
    }
}

/// The first character of a text, and the text after it.
pub(crate) fn split_first_char(text: &str) -> Option<(char, &str)>
    ensures characters { MatchOption result (chars text.now ≡ []) (λ p. chars text.now ≡ p.0 ∷ chars p.1.now) }
    ensures bytes { IfSome result (λ p. text.now ≡ encode_utf8 p.0 ++ p.1.now) }
{
    let mut rest = text.chars();
    let first = rest.next()?;
    Some((first, rest.as_str()))
}
