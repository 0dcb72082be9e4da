//! Laws over the definitions alone.
ghost use Rattle.std.specs.Prelude.{◌≡◌, ◌↔◌, ℕ, List, [], Result};
ghost use Rattle.std.specs.Str.{chars};
ghost use Rattle.server_words.specs.declared.option_fault.WordFault.{WordFault};
ghost use Rattle.server_words.specs.Words.{Reading, Reads, reading};

/// The reading of words is exactly what the rules allow.
pub fn by_the_rules()
    ensures { (letters : List ℕ) (words : List (List ℕ)) (result : Result Reading WordFault)
        → Reads (chars letters) [] words result ↔ (result ≡ reading letters words) }
{}
