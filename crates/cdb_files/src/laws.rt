//! Laws over the definitions alone.
ghost use Rattle.std.specs.Prelude.{◌≡◌, ℕ, ◌^◌, ◌<◌, List};
ghost use Rattle.cdb_files.specs.Format.{Pair};
ghost use Rattle.cdb_files.specs.Image.{finished_length, image_of};
ghost use Rattle.cdb_files.specs.Written.{AreBytes, Written};
ghost use Rattle.cdb_files.specs.IsCdb.{IsCdb};
ghost use Rattle.cdb_files.specs.Compiled.{Compiled};
ghost use Rattle.cdb_files.specs.Reading.{first_value, reading};
ghost use Rattle.rule_lookup.specs.Lookups.{found_among};
ghost use Rattle.rule_lookup.specs.Pairs.{pairs_of};

/// The header, the pieces of the records and those of the tables, joined in order, are a compiled file of the pairs.
pub fn pieces()
    ensures { (pairs : List Pair) → finished_length pairs < 2 ^ 32 → Written (image_of pairs) pairs }
{}

/// Two files of bytes that are written of the same pairs are the same file.
pub fn same_file()
    ensures { (a b : List ℕ) (pairs : List Pair) → AreBytes a → AreBytes b → Written a pairs → Written b pairs → a ≡ b }
{}

/// In a compiled file of some pairs a lookup finds the value of the first pair with the key, or that there is none.
pub fn first_pair()
    ensures { (file key : List ℕ) (pairs : List Pair) → IsCdb file pairs → reading file key ≡ first_value pairs key }
{}

/// In a file that is compiled of a rule text a lookup finds what the list of the text's rules does: the code of the
/// first rule with the address, or that there is none.
pub fn same_as_list()
    ensures { (file text key : List ℕ) → Compiled file text → reading file key ≡ found_among (pairs_of text) key }
{}
