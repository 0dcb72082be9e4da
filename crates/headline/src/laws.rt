//! Laws of the definitions alone.
ghost use Rattle.std.specs.Prelude.{◌≡◌, ◌≢◌, ℕ, ◌+◌, ◌≤◌, ◌<◌, Bool, List, Option, length, true, None, Some, IsSomeAnd};
ghost use Rattle.dir_calls.specs.Directory.{Directory, FileState};
ghost use Rattle.dir_calls.specs.Calls.{settles, without};
ghost use Rattle.dir_calls.specs.Calls as call;
ghost use Rattle.dir_calls.specs.Images.{IsImage};
ghost use Rattle.rule_lookup.specs.Peers.{Client};
ghost use Rattle.rule_lookup.specs.declared.decision.Decision.{Decision};
ghost use Rattle.dir_calls.specs.declared.phase.Phase.{Phase};
ghost use Rattle.dir_calls.specs.declared.phase.Phase.TheVariants.{Fresh, Synced, Named, Done};
ghost use Rattle.headline.specs.Again.{BeginsAgain};
ghost use Rattle.headline.specs.Headline.{DecidesByWhatStood, Finishes, HaveTheirOpenings, IsKeptBy, LeavesWholeText, Reaches, SurelyHas};
ghost use Rattle.server_events.specs.Live.{retired_of};
ghost use Rattle.headline.specs.Processes.{Woven};
ghost use Rattle.server_events.specs.ServerState.{after, is_legal, state_after, HasStage, IsFull, IsFullFor};
ghost use Rattle.headline.specs.Steps.{IsWhole, Legal, Outside, Step};
ghost use Rattle.headline.specs.Taken.{AddsText, CanBeChanged, CanStep, CanStepTo, CannotStep, HappensAfterStop, HaveOtherNames, HasShortScratch, IsDue, IsLeftWithin, IsOthers, LeadsTo, MayFail, is_there, with_others};
ghost use Rattle.headline.specs.Within.{FindsWithin, noting, with_opening};
ghost use Rattle.headline.specs.Witness.{WovenAround, an_older_text, behind_the_kill, texts_of_both, texts_of_it, texts_of_that, two_texts, until_the_kill};
ghost use Rattle.headline.specs.Worlds.{IsStart, RulesName, UnderWay, World, standing};
ghost use Rattle.server_events.specs.declared.event.Event.{Event};
ghost use Rattle.server_events.specs.declared.event.Event.TheVariants.{Admitted, Decided, Opened, Stepped, StepFailed, Stop};
ghost use Rattle.server_events.specs.declared.event.Stage.TheVariants as Stage;

/// The events of a list of steps of the world are a history that the table allows, and lead to the same connections. So
/// `limit`, `per_address` and `live` speak of it too.
pub fn allowed()
    ensures legal { (v w : World) (history : List Event) → Legal v history w → is_legal v.server history ≡ true }
    ensures same { (v w : World) (history : List Event) → Legal v history w → w.server ≡ state_after v.server history }
{}

/// In each world that is reached from a start, one whole accepted text stands under the rules name, no older than the
/// last acknowledged.
///
/// It stands there now, and after a stop before, after or within any call of the directory that may come next.
pub fn whole_text()
    ensures { (history : List Event) (w : World) → Reaches history w → LeavesWholeText w }
{}

/// Each decision, and what its child is told, is by the text that stood under the rules name when its connection opened
/// the rules.
///
/// That is said of each opening before the decision, and there is one in its history.
pub fn decisions()
    ensures by_what_stood { (x : World) → DecidesByWhatStood x }
    ensures opened { (history : List Event) (x : World) → Reaches history x → HaveTheirOpenings history x }
{}

/// The headline: `whole_text`, `decisions` and `limit` hold of every history of every world from a start.
pub fn headline()
    ensures { (history : List Event) (w : World) → Reaches history w → IsKeptBy history w }
{}

/// Once an installation is done, its text is under the rules name after each stop, before or within the next call. That
/// is what an acknowledgement is worth.
pub fn done()
    ensures { (w v : World) (r : RulesName) (u : UnderWay) → Finishes w v r u → SurelyHas v r.name u.rules }
{}

/// Nothing takes back what was acknowledged or accepted, not even a stop or a failure.
///
/// Only the last step of an installation raises what is acknowledged, and only a first step adds to what is accepted.
pub fn keeps()
    ensures acknowledged { (w v : World) (e : Event) → Step w e v → w.acknowledged ≤ v.acknowledged }
    ensures raised { (w v : World) (e : Event) → Step w e v → e ≢ Stepped Done → v.acknowledged ≡ w.acknowledged }
    ensures accepted { (w v : World) (e : Event) → Step w e v → e ≢ Stepped Fresh → v.accepted ≡ w.accepted }
    ensures added { (w v : World) → Step w (Stepped Fresh) v → AddsText w v }
{}

/// Steps that a world takes, so that the laws speak of something.
///
/// A stop may leave each image of the directory as it is, and of each moment within a call that may come next. A step
/// may fail, and leave whatever a failing device leaves. Whoever was let in may open each rules file, which decides as
/// it says. Others may make a file under a name of their own, take one away, and make all names lasting.
pub fn taken()
    ensures stopped { (w : World) (image : Directory) → IsImage w.directory image → CanStepTo w Stop image }
    ensures stopped_within { (w : World) (image : Directory) → IsLeftWithin w image → CanStepTo w Stop image }
    ensures failed { (w : World) (p : Phase) (d : Directory) → MayFail w p d → CanStepTo w (StepFailed p) d }
    ensures opened { (w : World) (n : ℕ) → HasStage w.server n Stage.Admitted → CanStep w (Opened n (is_there w)) }
    ensures decided { (w : World) (n : ℕ) (d : Decision) → IsDue w n d → CanStep w (Decided n d) }
    ensures made { (w : World) (name : List ℕ) (file : FileState) → IsOthers w name
        → CanBeChanged w (with_others w.directory name file) }
    ensures taken_away { (w : World) (name : List ℕ) → IsOthers w name → CanBeChanged w (without w.directory name) }
    ensures settled { (w : World) → CanBeChanged w (call.after settles w.directory) }
{}

/// Steps that no world takes.
///
/// A file that is not whole is not synced, and none is named before it is synced. An installation doesn't go on without
/// a rules name, or if none is under way. A scratch file's name is not the rules name. A connection opens what stands
/// there, and is decided by what it keeps. No admission passes a limit or takes another serial than the next. After a
/// stop nothing happens to a connection from before.
pub fn refusals()
    ensures short { (w : World) → HasShortScratch w.directory → CannotStep w (Stepped Synced) }
    ensures whole { (w v : World) → Step w (Stepped Synced) v → IsSomeAnd w.under_way (IsWhole w.directory) }
    ensures not_synced { (w : World) → w.server.phase ≢ Some Synced → CannotStep w (Stepped Named) }
    ensures without_rules { (w : World) (phase : Phase) → w.rules ≡ None → CannotStep w (Stepped phase) }
    ensures without_rules_failed { (w : World) (phase : Phase) → w.rules ≡ None → CannotStep w (StepFailed phase) }
    ensures not_begun { (w : World) (p : Phase) → w.under_way ≡ None → p ≢ Fresh → CannotStep w (Stepped p) }
    ensures own_name { (w v : World) → Step w (Stepped Fresh) v → HaveOtherNames w.rules v.under_way }
    ensures other_file { (w : World) (n : ℕ) (there : Bool) → there ≢ is_there w → CannotStep w (Opened n there) }
    ensures other_decision { (w : World) (n : ℕ) (d : Decision) → ¬ IsDue w n d → CannotStep w (Decided n d) }
    ensures full { (w : World) (n : ℕ) (peer : Client) → IsFull w.server → CannotStep w (Admitted n peer) }
    ensures full_address { (w : World) (n : ℕ) (p : Client) → IsFullFor w.server p.ip → CannotStep w (Admitted n p) }
    ensures serial { (w : World) (n : ℕ) (peer : Client) → n ≢ w.server.last + 1 → CannotStep w (Admitted n peer) }
    ensures after_a_stop { (w : World) (n : ℕ) → HappensAfterStop w n → w.server.last < n }
    ensures others { (w v : World) (bytes : List ℕ) → Outside w v → standing w ≡ Some bytes → standing v ≡ Some bytes }
{}

/// A history in which all of this happens, so that the laws are not about nothing.
///
/// A text that denies is installed; a connection opens it and is decided by it. A text that allows is installed as far
/// as its name, and the machine stops when the name should become lasting. That text decides a connection, whose child
/// is retired. Then the first text is installed once more.
pub fn witness()
    ensures leads { LeadsTo two_texts texts_of_it 3 }
    ensures retired { length (retired_of two_texts) ≡ 1 }
{}

/// A history in which a stop takes a name back.
///
/// An installation is given up for another. That one's name doesn't become lasting, since the call for it fails. The
/// new text decides a connection, and after a stop the text from the start decides another one.
pub fn older()
    ensures { LeadsTo an_older_text texts_of_that 0 }
{}

/// What a stop leaves is a start.
///
/// A text that was accepted before it stands there, no older than the last acknowledged. A new server over it begins as
/// all histories do. So the headline speaks of each of a machine's boots, and what was acknowledged in one holds in the
/// next.
pub fn again()
    ensures { (history : List Event) (w v : World) (limit per_address : ℕ) → Reaches history w → Step w Stop v
        → BeginsAgain v limit per_address }
{}

/// The steps of a server and of installers beside it are one history.
///
/// The server installs nothing. The installers are other processes, one after another, over the same directory. Each
/// makes its steps in what the others left. Woven in any order, these steps are one history of the world that all
/// share, and each history of that world is such steps. So the headline speaks of them.
pub fn two_processes()
    ensures one { (w v : World) (history : List Event) → Woven w history v → Legal w history v }
    ensures parts { (w v : World) (history : List Event) → Legal w history v → Woven w history v }
    ensures headline { (w v : World) (history : List Event) → IsStart w → Woven w history v → IsKeptBy history v }
{}

/// A history of a server and installers beside it that happens.
///
/// An installer makes a text lasting that denies, and a connection opens it. Another installer is killed within the
/// rename of a text that allows. Somebody makes a file. Then the connection is decided by the text that it opened, and
/// the next one by the newer text.
pub fn witness_of_two()
    ensures { WovenAround until_the_kill behind_the_kill texts_of_both 1 }
{}

/// An opening that takes some time is one at a moment of its call.
///
/// It finds what stood under the rules name at that moment. The server notes it when the call ends, in the world that
/// others came to meanwhile. The same world is reached if the opening stands at its moment among the steps of others.
/// So it is one history of the two, and the decision is by the text that stood there then.
pub fn opened_within()
    ensures { (w v : World) (n : ℕ) (bytes : Option (List ℕ)) (finds : FindsWithin w v bytes)
        → HasStage w.server n Stage.Admitted → Woven w (with_opening n finds) (noting n bytes v) }
{}
