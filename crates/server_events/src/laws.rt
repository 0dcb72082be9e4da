//! Laws of the definitions alone.
ghost use Rattle.std.specs.Prelude.{◌≡◌, ◌↔◌, ℕ, List, true, None, Some};
ghost use Rattle.std.specs.List.Sorted.{IsStrictlyIncreasing};
ghost use Rattle.server_events.specs.Live.{KeepsAddressLimit, KeepsLimit, live_of, lives_of, serials_of};
ghost use Rattle.server_events.specs.Reports.{first_illegal, IsFirstIllegal};
ghost use Rattle.server_events.specs.ServerState.{AllowedHistory, IsLegalTo, ServerState, may_happen, after, connections_after, is_legal, Happens, Runs};
ghost use Rattle.server_events.specs.declared.event.Event.{Event};

/// Along each list of events that the table allows, no more connections are alive than the limit says.
pub fn limit()
    ensures { (h : AllowedHistory) → KeepsLimit h.limit h.events }
{}

/// Along each list of events that the table allows, no address has more connections alive than the limit per address
/// says.
pub fn per_address()
    ensures { (h : AllowedHistory) → KeepsAddressLimit h.per_address h.events }
{}

/// After each list of events that the table allows, those alive by the events alone are the connections of the state
/// that it leads to. Their serials rise, so none is told twice.
pub fn live()
    ensures connections { (h : AllowedHistory) → live_of h.events ≡ lives_of (connections_after h) }
    ensures serials { (h : AllowedHistory) → IsStrictlyIncreasing (serials_of (live_of h.events)) }
{}

/// The rules of the table agree with the functions, for one event and for a list.
pub fn table()
    ensures step { (w v : ServerState) (e : Event) → Happens w e v ↔ ((may_happen w e ≡ true) × (v ≡ after w e)) }
    ensures runs { (w v : ServerState) (events : List Event) → Runs w events v ↔ IsLegalTo w events v }
{}

/// The position of the first event that may not happen, as a function. There is none exactly if the table allows the
/// list.
pub fn first_illegal()
    ensures none { (w : ServerState) (es : List Event) → (first_illegal w es ≡ None) ↔ (is_legal w es ≡ true) }
    ensures some { (w : ServerState) (es : List Event) (i : ℕ) → (first_illegal w es ≡ Some i) ↔ IsFirstIllegal w es i }
{}
