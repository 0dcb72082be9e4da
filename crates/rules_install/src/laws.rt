//! Laws over the definitions alone.
ghost use Rattle.std.specs.Prelude.{◌≡◌, ◌⊎◌, ℕ, List, Ok, Option, Result, Some};
ghost use Rattle.dir_calls.specs.Directory.{Directory, content};
ghost use Rattle.dir_calls.specs.Images.{IsImage};
ghost use Rattle.dir_calls.specs.Lasting.{LastsAmong};
ghost use Rattle.dir_calls.specs.Torn.{StoodThere};
ghost use Rattle.cdb_files.specs.Compiled.{Compiled};
ghost use Rattle.cdb_files.specs.Reading.{reading};
ghost use Rattle.rule_lines.specs.Faults.{IsAccepted};
ghost use Rattle.rule_lookup.specs.Pairs.{pairs_of};
ghost use Rattle.rule_lines.specs.declared.limits.Limits.{Limits};
ghost use Rattle.rule_lookup.specs.Decisions.{decision_by, decision_in};
ghost use Rattle.rules_install.specs.Beside.{AreBegun, Beside, IsItsFile, IsWhole, MakesOwn, MovesOwn, Run, RunSteps, Shared, run_after, view};
ghost use Rattle.rules_install.specs.Installing.{Fits, Installing};
ghost use Rattle.rules_install.specs.Series.{MakesStep};
ghost use Rattle.dir_calls.specs.declared.phase.Phase.{Phase};
ghost use Rattle.rules_install.specs.declared.fault.InstallFault.{InstallFault};
ghost use Rattle.rule_lookup.specs.Peers.{Client};

/// A file that is compiled of an accepted rule text decides each peer as the text does: nothing in it is damaged, and
/// each value that is found is the code of an instruction.
pub fn decides()
    ensures { (limits : Limits) (file text : List ℕ) (peer : Client) → IsAccepted limits text → Compiled file text
        → decision_by (reading file) peer ≡ Ok (decision_in (pairs_of text) peer) }
{}

/// Each step of an installation is a step of such a run, if the rename of its directory moves no file but the one that
/// the run made.
pub fn own_steps()
    ensures { (r : Run) (t : Installing) (d e : Directory) (result : Result Phase InstallFault)
        → MakesStep r.install t d e result → Fits t e → MovesOwn r d e
        → MakesOwn r (run_after r t e result) d e result }
{}

/// Any number of installations run in a folder, and others change its names meanwhile. A file that a step puts under
/// the rules name is the one that this run made: it is whole, and was synced before.
pub fn puts_its_own()
    ensures { (name : List ℕ) (u w v : Shared) (i number : ℕ) → AreBegun u → Beside name u w → RunSteps name i w v
        → StoodThere v.names name (Some number)
        → StoodThere w.names name (Some number) ⊎ IsItsFile (w.run i) w.files number }
{}

/// So the rules name stands for nothing, for what stood there before all runs, or for the whole file that is compiled
/// of the text of one of them. That is true now, and after a stop.
pub fn whole_beside()
    ensures now { (name : List ℕ) (olds : List (Option (List ℕ))) (u w : Shared) (i : ℕ) → AreBegun u
        → LastsAmong (view u i) name olds → Beside name u w → IsWhole olds w (content (view w i) name) }
    ensures stopped { (name : List ℕ) (olds : List (Option (List ℕ))) (u w : Shared) (i : ℕ) (image : Directory) → AreBegun u
        → LastsAmong (view u i) name olds → Beside name u w → IsImage (view w i) image → IsWhole olds w (content image name) }
{}
