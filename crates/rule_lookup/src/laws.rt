//! Laws over the definitions alone.
ghost use Rattle.std.specs.Prelude.{◌≡◌, List, Ok};
ghost use Rattle.rule_lookup.specs.Codes.{AreRules, IsInstr, code_of};
ghost use Rattle.rule_lookup.specs.Decisions.{decision_by, decision_in};
ghost use Rattle.rule_lookup.specs.Lookups.{found_among};
ghost use Rattle.rule_lookup.specs.Pairs.{Rule};
ghost use Rattle.rule_lookup.specs.Peers.{Client};
ghost use Rattle.rule_lookup.specs.declared.instr.Instr.{Instr};

/// No code is the code of two instructions.
pub fn one_instr()
    ensures { (i : Instr) (j : Instr) → IsInstr i → IsInstr j → code_of i ≡ code_of j → i ≡ j }
{}

/// Over a list of rules a decision is that of the first form that a rule has, by the first rule that has it.
pub fn listed()
    ensures { (rules : List Rule) (peer : Client) → AreRules rules
        → decision_by (found_among rules) peer ≡ Ok (decision_in rules peer) }
{}
