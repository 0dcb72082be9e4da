//! Laws of the definitions alone: installations in a world.
ghost use Rattle.std.specs.Prelude.{◌≡◌, List, Some, Result};
ghost use Rattle.dir_calls.specs.Calls.{Call};
ghost use Rattle.dir_calls.specs.Directory.{Directory};
ghost use Rattle.dir_calls.specs.Outcomes.{Passes};
ghost use Rattle.whole_yard.specs.Series.{LeadsAlong};
ghost use Rattle.whole_yard.specs.UnderWay.{IsUnderWay, StepLeads, rules_named};
ghost use Rattle.rule_lookup.specs.Pairs.{Rule};
ghost use Rattle.rule_lookup.specs.declared.decision.WhenMissing.{WhenMissing};
ghost use Rattle.rules_install.specs.Installing.{Installing, begun, next_phase};
ghost use Rattle.rules_install.specs.NamePair.{NamePair};
ghost use Rattle.rules_install.specs.Series.{IsSeries, MakesStep, MayStepFrom};
ghost use Rattle.rules_install.specs.Steps.{IsCallOf};
ghost use Rattle.dir_calls.specs.declared.phase.Phase.{Phase};
ghost use Rattle.rules_install.specs.declared.fault.InstallFault.{InstallFault};
ghost use Rattle.headline.specs.Steps.{MayBeAt};
ghost use Rattle.headline.specs.Worlds.{World};

/// A new installation is under way in each world that has its directory and follows rules of its name.
pub fn begins()
    ensures { (w : World) (rules : List Rule) (names : NamePair) (missing : WhenMissing)
        → w.rules ≡ Some (rules_named names missing) → IsUnderWay w (begun rules names) w.directory }
{}

/// Each step of an installation leads from a world in which it is under way to one in which it is under way too.
///
/// It leads there by the event that the step answers. A step that answers no event leaves the world as it is.
pub fn leads_on()
    ensures { (s t : Installing) (d e : Directory) (result : Result Phase InstallFault)
        → MakesStep s t d e result → StepLeads s t d e result }
{}

/// A world with an installation under way may be stopped at each moment within the one call of the next step.
pub fn leaves()
    ensures { (w : World) (s : Installing) (d : Directory) (call : Call) (state : Directory) → IsUnderWay w s d
        → MayStepFrom s → IsCallOf s (next_phase s) call → Passes call d state → MayBeAt w state }
{}

/// The steps of a run, as `rules_install::whole::finish` makes them, are a series of events.
///
/// From each world in which the installation is under way they lead to one in which it is under way as far as it has
/// come. So they do from each world in which it may begin.
pub fn series()
    ensures from_there { (s t : Installing) (d e : Directory) (result : Result (Unit {0}) InstallFault) (w : World)
        → IsSeries s t d e result → IsUnderWay w s d → LeadsAlong w t e result }
    ensures from_begin { (w : World) (rules : List Rule) (names : NamePair) (missing : WhenMissing) (t : Installing)
        (e : Directory) (result : Result (Unit {0}) InstallFault) → w.rules ≡ Some (rules_named names missing)
        → IsSeries (begun rules names) t w.directory e result → LeadsAlong w t e result }
{}
