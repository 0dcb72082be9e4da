//! Laws of the definitions alone.
ghost use Rattle.std.specs.Prelude.{◌≡◌, ℕ, List};
ghost use Rattle.script_words.specs.LogLines.{IsLineOf, Tells, Told, reading};

/// The line of a verdict is read as what it tells, if no field was cut or has a mark.
pub fn reads_what_was_written()
    ensures { (told : Told) (line : List ℕ) → IsLineOf told line → reading line ≡ Tells told }
{}

/// What is read was written so.
pub fn was_written_as_read()
    ensures { (told : Told) (line : List ℕ) → reading line ≡ Tells told → IsLineOf told line }
{}
