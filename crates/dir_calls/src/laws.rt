//! Laws over the definitions alone.
ghost use Rattle.std.specs.Prelude.{◌≡◌, ◌↔◌, ℕ, List, Option, Some, None};
ghost use Rattle.dir_calls.specs.Calls.{renames, after};
ghost use Rattle.dir_calls.specs.Directory.{Directory, FileState, number_of};
ghost use Rattle.dir_calls.specs.NameTable.{NameTable};
ghost use Rattle.dir_calls.specs.Torn.{HasFile, HasImage, IsNameless, MayBeTorn, MayStand, StandFor, StoodThere};

/// Under one name a stop leaves what stood there when names were last settled, or what one change since then put there,
/// and nothing else.
pub fn one_name()
    ensures { (table : NameTable) (name : List ℕ) (number : Option ℕ)
        → StoodThere table name number ↔ MayStand table name number }
{}

/// A stop may tear a rename that is not settled yet. It may leave both names for the file. Or it may leave nothing
/// under the old name, and under the new one what stood there before.
pub fn torn()
    ensures both { (d : Directory) (from to : List ℕ) (n : ℕ) → MayBeTorn d from to n
        → HasImage (after (renames from to) d) (StandFor from (Some n) to (Some n)) }
    ensures neither { (d : Directory) (from to : List ℕ) (n : ℕ) → MayBeTorn d from to n
        → HasImage (after (renames from to) d) (StandFor from None to (number_of d to)) }
{}

/// Nothing is known of a file to which no stop leaves a name, synced or not: a stop may leave any bytes of it.
pub fn nameless()
    ensures { (d : Directory) (number : ℕ) (file : FileState) (bytes : List ℕ) → IsNameless d number file
        → HasImage d (HasFile number bytes) }
{}

/// A rename of two names of one file changes nothing.
pub fn one_file()
    ensures { (d : Directory) (from to : List ℕ) → number_of d from ≡ number_of d to → after (renames from to) d ≡ d }
{}
