//! Texts that are cut into a number of parts.
ghost use Rattle.std.specs.Prelude.{◌≡◌, ◌==◌, ◌<◌, ◌∷◌, [], MatchOption, option_map};
ghost use Rattle.std.specs.List.{slice_split};
ghost use Rattle.script_words.specs.Parts.{four_of, four_texts, three_of, three_texts};

/// Cuts a text at the first of these characters, if it has one.
fn cut(text: &str, at: char) -> Option<(&str, &str)>
    requires { at < 128 }
    ensures { MatchOption result (slice_split (λ b. b == at) text.now ≡ text.now ∷ [])
        (λ parts. slice_split (λ b. b == at) text.now ≡ parts.0.now ∷ slice_split (λ b. b == at) parts.1.now) }
{
    text.split_once(at)
}

/// The three parts of a text that is cut at each of these characters. `None` if there are more or fewer.
pub fn three_parts(text: &str, at: char) -> Option<(&str, &str, &str)>
    requires { at < 128 }
    ensures { option_map three_texts result ≡ three_of (slice_split (λ b. b == at) text.now) }
{
    let (first, rest) = cut(text, at)?;
    let (second, third) = cut(rest, at)?;
    match cut(third, at) {
        None => Some((first, second, third)),
        Some(_) => None,
    }
}

/// The four parts of a text that is cut at each of these characters. `None` if there are more or fewer.
pub fn four_parts(text: &str, at: char) -> Option<(&str, &str, &str, &str)>
    requires { at < 128 }
    ensures { option_map four_texts result ≡ four_of (slice_split (λ b. b == at) text.now) }
{
    let (first, rest) = cut(text, at)?;
    let (second, third, fourth) = three_parts(rest, at)?;
    Some((first, second, third, fourth))
}
