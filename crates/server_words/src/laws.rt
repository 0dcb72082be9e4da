//! Laws over the definitions alone.
ghost use Rattle.std.specs.Prelude.{◌≡◌, ℕ, List};
ghost use Rattle.std.specs.Result.{result_err};
ghost use Rattle.server_words.specs.Words.{Reading};
ghost use Rattle.server_words.specs.declared.option_fault.WordFault.{WordFault};
ghost use Rattle.server_words.specs.Checks.{checks, first_found};
ghost use Rattle.server_words.specs.Faults.{fault_of_word};
ghost use Rattle.server_words.specs.declared.mode.Mode.{Mode};
ghost use Rattle.server_words.specs.Plans.{options_in, plan_of};

/// The fault of words is that of their option words, or else the first that the checks find, in their order; and where
/// these find none, the words have none.
pub fn first_fault()
    ensures options { (by_name : Mode) (words : List (List ℕ)) (fault : WordFault)
        → options_in words ≡ Err fault → plan_of by_name words ≡ Err (fault_of_word fault) }
    ensures checks { (by_name : Mode) (words : List (List ℕ)) (read : Reading)
        → options_in words ≡ Ok read → result_err (plan_of by_name words) ≡ first_found (checks by_name read) }
{}
