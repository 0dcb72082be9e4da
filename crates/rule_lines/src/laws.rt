//! Laws over the definitions alone.
ghost use Rattle.std.specs.Prelude.{◌≡◌, ℕ, List, Ok};
ghost use Rattle.rule_lines.specs.Faults.{IsAccepted};
ghost use Rattle.rule_lines.specs.declared.limits.Limits.{Limits};
ghost use Rattle.rule_lookup.specs.Codes.{AreRules};
ghost use Rattle.rule_lookup.specs.Decisions.{decision_by, decision_of};
ghost use Rattle.rule_lookup.specs.Lookups.{found_among};
ghost use Rattle.rule_lookup.specs.Pairs.{pairs_of};
ghost use Rattle.rule_lookup.specs.Peers.{Client};

/// The rules of an accepted text are rules: their settings are such as a setting may be.
pub fn known()
    ensures { (limits : Limits) (text : List ℕ) → IsAccepted limits text → AreRules (pairs_of text) }
{}

/// The list of an accepted text's rules decides every peer as the text does.
pub fn accepted()
    ensures { (limits : Limits) (text : List ℕ) (peer : Client) → IsAccepted limits text
        → decision_by (found_among (pairs_of text)) peer ≡ Ok (decision_of text peer) }
{}
