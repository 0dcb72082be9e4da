//! The journal of a server: its events, kept or only counted.
ghost use Rattle.std.specs.Prelude.{◌≡◌, ◌≤◌, ℕ, ◌+◌, [], ◌∷◌, ◌++◌, true, option_map, option_copied, IfSome, OnOk, OnErr, vec_len, vec_capacity};
ghost use Rattle.server_events.specs.Journals.{GoesOn, HasSameRoom, TellsOf, next_report, one_more};

use crate::event::next;
use crate::{Event, Report};
use std::alloc::{AllocError, Global};

/// An event, and the number of its caller.
#[derive(Drop)]
pub struct Noted {
    /// What happened.
    pub event: Event,
    /// The number of its caller, from 1; 0 if nobody said who calls.
    pub caller: u64,
}

/// The report of the events of a server and their number. A journal that stores them has each event with its caller
/// too.
///
/// Noting an event takes no memory: `reserve` takes its room before. No call takes or gives other room than it says.
#[derive(Drop)]
pub struct Journal {
    report: Report,
    events: u64,
    // none if the events are only counted
    stored: Option<Stored>,
}

// What a journal stores.
#[derive(Drop)]
struct Stored {
    notes: Vec<Noted>,
    // for how many more events there is room
    credit: usize,
    ghost room: { vec_len notes + credit ≤ vec_capacity notes },
}

impl Journal {
    ghost use Rattle.std.specs.Prelude.{None, Some};
    ghost use Rattle.server_events.specs.JournalParts.{books_of_journal, has_room};

    /// A journal without events, which only counts those to come. It takes no memory, ever.
    pub fn counting() -> Journal
        ensures told { TellsOf (books_of_journal result) [] }
        ensures notes { (books_of_journal result).notes ≡ None }
    {
        Journal::new(None)
    }

    /// A journal without events, which stores those to come. It takes no memory yet.
    pub fn storing(alloc: Global) -> Journal
        ensures told { TellsOf (books_of_journal result) [] }
        ensures notes { (books_of_journal result).notes ≡ Some [] }
    {
        Journal::new(Some(Stored {
            notes: Vec::new(alloc),
            credit: 0,
        }))
    }

    // One without events, which stores those to come there, if anywhere.
    fn new(stored: Option<Stored>) -> Journal
        requires empty { IfSome stored (λ s. s.notes.items ≡ []) }
        ensures told { TellsOf (books_of_journal result) [] }
        ensures notes { (books_of_journal result).notes ≡ option_map (λ _. []) stored }
    {
        Journal {
            report: Report {
                admitted: 0,
                live: 0,
                retired: 0,
                most: 0,
            },
            events: 0,
            stored,
        }
    }

    /// The report of the events: how many connections were let in, are alive, are retired, and the most ever alive.
    pub fn report(&self) -> Report
        ensures { result ≡ (books_of_journal self.now).report }
    {
        self.report
    }

    /// How many events were noted. The number stays at 2^64 - 1.
    pub fn events(&self) -> u64
        ensures { result ≡ (books_of_journal self.now).count }
    {
        self.events
    }

    /// The events with their callers, in order, if they are stored.
    pub fn notes(&self) -> Option<&[Noted]>
        ensures { option_copied result ≡ (books_of_journal self.now).notes }
    {
        match &self.stored {
            Some(stored) => Some(stored.notes.as_slice()),
            None => None,
        }
    }

    /// Takes room for more events, as for the five that a connection may have.
    ///
    /// # Errors
    /// There was no memory. All is as before.
    pub fn reserve(&mut self, events: usize) -> Result<(), AllocError>
        ensures room { OnOk result ((n : ℕ) → has_room self.new (n + events) ≡ has_room self.old n) }
        ensures err { OnErr result (HasSameRoom (has_room self.old) (has_room self.new)) }
        ensures same { books_of_journal self.new ≡ books_of_journal self.old }
    {
        match &mut self.stored {
            Some(stored) => stored.reserve(events),
            None => Ok(()),
        }
    }

    /// Gives room back that is not needed.
    pub fn release(&mut self, events: usize)
        requires { has_room self.old events ≡ true }
        ensures room { (n : ℕ) → has_room self.new n ≡ has_room self.old (n + events) }
        ensures same { books_of_journal self.new ≡ books_of_journal self.old }
    {
        if let Some(stored) = &mut self.stored {
            stored.credit -= events;
        }
    }

    /// Notes an event and its caller, into room that was taken.
    pub fn note(&mut self, event: Event, caller: u64)
        requires { has_room self.old 1 ≡ true }
        ensures report { (books_of_journal self.new).report ≡ next_report (books_of_journal self.old).report event }
        ensures count { (books_of_journal self.new).count ≡ one_more (books_of_journal self.old).count }
        ensures notes { (books_of_journal self.new).notes
            ≡ option_map (λ notes. notes ++ record { event = event; caller = caller } ∷ []) (books_of_journal self.old).notes }
        ensures room { (n : ℕ) → has_room self.new n ≡ has_room self.old (n + 1) }

        // so the report and the number stay those of the history, as far as the table allows it
        ensures goes_on { GoesOn (books_of_journal self.old) event (books_of_journal self.new) }
    {
        self.report = next(self.report, &event);
        self.events = self.events.saturating_add(1);
        if let Some(stored) = &mut self.stored {
            stored.note(event, caller);
        }
    }
}

impl Stored {
    ghost use Rattle.std.specs.Prelude.{◌-◌};

    // Takes room for more events.
    fn reserve(&mut self, events: usize) -> Result<(), AllocError>
        ensures room { OnOk result (self.new.credit ≡ self.old.credit + events) }
        ensures err { OnErr result (self.new.credit ≡ self.old.credit) }
        ensures same { self.new.notes.items ≡ self.old.notes.items }
    {
        let wanted = self.credit.checked_add(events).ok_or(AllocError)?;
        self.notes.reserve(wanted)?;
        self.credit = wanted;
        Ok(())
    }

    // Stores an event with its caller, into room that was taken.
    fn note(&mut self, event: Event, caller: u64)
        requires { 1 ≤ self.old.credit }
        ensures notes { self.new.notes.items ≡ self.old.notes.items ++ record { event = event; caller = caller } ∷ [] }
        ensures room { self.new.credit ≡ self.old.credit - 1 }
    {
        self.credit -= 1;
        self.notes.push_reserved(Noted { event, caller });
    }
}
