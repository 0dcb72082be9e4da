//! Numbers as texts.
ghost use Rattle.std.specs.Prelude.{◌≡◌};
ghost use Rattle.std.specs.Str.{all_ascii_digits};
ghost use Rattle.server_words.specs.Numbers.{number_in};

/// The number that a text is: one or more decimal digits, however many, with a value from `least` to `greatest`.
pub fn number_in(text: &str, least: u64, greatest: u64) -> Option<u64>
    ensures { result ≡ number_in text.now least greatest }
{
    if !are_digits(text) {
        return None;
    }
    let number = text.parse::<u64>().ok()?;
    if least <= number && number <= greatest {
        Some(number)
    } else {
        None
    }
}

fn are_digits(text: &str) -> bool
    ensures { result ≡ all_ascii_digits text.now }
{
    text.as_bytes().iter().all(|byte| byte.is_ascii_digit())
}
