//! Laws of the definitions alone.
ghost use Rattle.std.specs.Prelude.{◌≡◌, ◌++◌, ◌+◌, ℕ, List, [], IsPermutation, Ok, Option, Some, drop, is_some, length, map, option_map, true};
ghost use Rattle.cdb_files.specs.Reading.{reading};
ghost use Rattle.server_events.specs.Journals.{Books};
ghost use Rattle.rule_lookup.specs.Decisions.{decision_from};
ghost use Rattle.rule_lookup.specs.Pairs.{Rule};
ghost use Rattle.rule_lookup.specs.Peers.{Client};
ghost use Rattle.rule_lookup.specs.declared.decision.Decision.{Decision};
ghost use Rattle.rule_lookup.specs.declared.decision.WhenMissing.{WhenMissing};
ghost use Rattle.headline.specs.Headline.{Reaches};
ghost use Rattle.headline.specs.Processes.{Woven};
ghost use Rattle.server_events.specs.ServerState.{ServerState, start, HasStage, is_connections, peer_of};
ghost use Rattle.headline.specs.Worlds.{KeptFile, World, missing_by};
ghost use Rattle.server_events.specs.declared.event.Event.{Event};
ghost use Rattle.server_events.specs.declared.journal.Noted.{Noted};
ghost use Rattle.whole_yard.specs.declared.receipt.Receipt.{Receipt as TheReceipt};
ghost use Rattle.whole_yard.specs.Audits.{AreOthersUpTo, AreRight, note_of};
ghost use Rattle.server_events.specs.declared.event.Event.TheVariants.{Decided, Opened};
ghost use Rattle.server_events.specs.declared.event.Stage.TheVariants as Stage;
ghost use Rattle.whole_yard.specs.Readers.{IsAbsentOrCompiled, KeptYard, NamesStoredSinceDone, begun_in};
ghost use Rattle.server_yard.specs.Rolls.{Notes, Roll};
ghost use Rattle.server_yard.specs.Runs.{IsRun};
ghost use Rattle.whole_yard.specs.Findings.{AreByFound, BeginsRun, Found, InOrderOfFinding, IsPlayedOut};
ghost use Rattle.whole_yard.specs.Serving.{IsReachedOn, IsServers, Serves, StepsByItself, is_plain, over, with_roll};
ghost use Rattle.whole_yard.specs.Standing.{IsNew, IsReachedBy, Leads, LeadsDecided, LeadsOn, LeadsOpened, Series, YardState, standing_of};
ghost use Rattle.whole_yard.specs.Telling.{AreApart, ToldLater};

/// From a new yard each series of calls is a history of the headline.
///
/// The directory began as it has to. The history leads from a start to a world that is the yard's. So all that the
/// headline says of histories is true of the running yard.
pub fn reached()
    ensures { (y z : YardState) (files : List KeptFile) (history : List Event) → IsNew y → Series y [] history z files
        → IsReachedBy history z files }
{}

/// The calls that serve a connection after its admission go on with a yard's history.
///
/// Whatever a yard has come to, the history with their events is one of the headline.
pub fn served()
    ensures { (n : ℕ) (history events : List Event) (y z : YardState) (files : List KeptFile)
        → IsReachedBy history y files → HasStage y.server n Stage.Admitted → Serves n y events z
        → IsReachedOn (history ++ events) z }
{}

/// Each call of a server's yard is a step of the server by itself, beside installers in other processes, and others.
///
/// The call leads on over the directory as the others left it. `headline::laws::two_processes` weaves such steps.
pub fn beside()
    ensures { (w : World) (y z : YardState) (files more : List KeptFile) (event : Event) → is_connections event ≡ true
        → IsServers y files w → Leads event (over y w.directory) files (over z w.directory) more
        → StepsByItself w event z more }
{}

/// Each event of a connection that a yard notes is a step of the headline, over whatever directory others left.
///
/// A call of a server's yard notes its event between the rolls before and after it (`Makes`; of an admission `made`),
/// and a whole yard has the same rules and installation. So with these rolls `y` is the yard before and after the call:
/// over any directory, as others left it, or over its own if that is the same. An opening has to find what stands
/// there. A decision has to be by what its connection keeps, as far as files are honest, and for its peer:
/// `Yard::decided` requires the first, and tests the second.
pub fn noted_leads()
    ensures plain { (y : YardState) (event : Event) (old new : Roll) → is_plain event ≡ true → Notes event old new
        → LeadsOn event (with_roll y old) (with_roll y new) }
    ensures opened { (y : YardState) (n : ℕ) (bytes : Option (List ℕ)) (old new : Roll) → bytes ≡ standing_of y
        → Notes (Opened n (is_some bytes)) old new → LeadsOpened n bytes (with_roll y old) (with_roll y new) }
    ensures decided { (y : YardState) (n : ℕ) (bytes : Option (List ℕ)) (decision : Decision) (peer : Client)
        (old new : Roll) → peer_of n old.server.connections ≡ Some peer
        → decision_from (option_map reading bytes) (missing_by y.rules) peer ≡ Ok decision
        → Notes (Decided n decision) old new → LeadsDecided n bytes decision (with_roll y old) (with_roll y new) }
{}

/// An opening that takes some time is as good as one at a moment of its call.
///
/// It is made by `WholeYard::open`, or by the connection for itself. Others go on meanwhile, and the yard's
/// other connections too. It found what stood at that moment, and the yard is told of it later (`noted_leads`:
/// `opened`). All is as if it had opened the rules at that moment, so the headline says that its decision is by the
/// text that stood then.
pub fn told_later()
    ensures { (history events : List Event) (u w : World) (y z : YardState) (files : List KeptFile)
        (n : ℕ) (bytes : Option (List ℕ)) → Reaches history u
        → HasStage u.server n Stage.Admitted → Woven u events w → AreApart n events
        → IsServers y files w → bytes ≡ standing_of (over y u.directory)
        → LeadsOpened n bytes (over y u.directory) (over z u.directory) → ToldLater n bytes u events files z }
{}

/// A reader finds no file or a whole one, in each yard whose assumptions were met when it was made.
///
/// Whatever a stop leaves, the rules name is absent, or stands for a synced file that is compiled of rules. If the
/// yard stores the list of each installation, there is one list for each. Once an installation answered `Done`, the
/// file is compiled of its list or of a later one.
pub fn readers()
    ensures always { (k : KeptYard) → IsAbsentOrCompiled k.state.directory k.rules.name }
    ensures since_done { (k : KeptYard) (lists : List (List Rule)) → k.lists ≡ Some lists
        → NamesStoredSinceDone k.kept.history lists k.state.directory k.rules.name }
    ensures one_each { (k : KeptYard) (lists : List (List Rule)) → k.lists ≡ Some lists
        → length lists ≡ begun_in k.kept.history }
{}

/// A run of a server, beside installers in other processes and others, is a history of the headline.
///
/// There is a run that led to a server's yard (`Yard::ran`), and it goes on by each event that a call makes
/// (`server_yard::yard::runs_on`). Between two of them installers, one after another, and others go on. An opening
/// stands in the history when it found its file: at some time since its connection was let in, in whatever order
/// (`InOrderOfFinding`). So at each time a whole accepted text stands under the rules name, or none; each decision is
/// by the text that stood there when its connection opened the rules; and the limit is kept.
///
/// The premises are the headline's: the start is whole (`BeginsRun`), and what an opening found stood there
/// (`FindsWhatStands`). Besides, each decision is by what its own connection found (`AreByFound`): `Yard::decided` asks
/// this of its pass, as far as files are honest.
pub fn whole_run()
    ensures { (books : Books) (server : ServerState) (events order : List Event) (found : Found) (missing : WhenMissing)
        (w : World) → IsRun books server events
        → AreByFound found missing (start server.limit server.per_address) events → InOrderOfFinding events order
        → BeginsRun missing server.limit server.per_address w → IsPlayedOut found order [] w }
{}

/// Right receipts are the history since some position: each event with its caller, once.
///
/// There have to be as many as events since then, and no event before that position may have the number of one of their
/// callers.
pub fn whole()
    ensures { (notes : List Noted) (receipts : List TheReceipt) (before : ℕ) → AreRight notes receipts
        → length notes ≡ before + length receipts → AreOthersUpTo before notes receipts
        → IsPermutation (map note_of receipts) (drop before notes) }
{}
