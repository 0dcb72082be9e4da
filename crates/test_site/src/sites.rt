//! Sites, from the start to the audit.
ghost use Rattle.std.specs.Prelude.{◌≡◌, true, false, IfSome, OnOk};
ghost use Rattle.server_events.specs.JournalParts.{books_of_journal};
ghost use Rattle.headline.specs.Worlds.{missing_by};
ghost use Rattle.whole_yard.specs.Callers.{new_count};
ghost use Rattle.whole_yard.specs.Kept.{rules_of};
ghost use Rattle.whole_yard.specs.Closings.{IsWhole};

use crate::receipts::Receipts;
use dir_calls::{Dir, Name};
use rule_lookup::WhenMissing;
use server_events::{Event, Journal, Report, replay};
use std::alloc::{AllocError, Global};
use std::sync::ledger::Blank;
use whole_yard::{
    Assumptions, BackCallers, Callers, NewCallers, NotWhole, Receipt, WholeSite, WholeYard,
    close_and_audit,
};

/// A site over a directory, and so many callers.
pub(crate) fn new_site<L: Assumptions, N: Callers, D: Dir + Drop>(
    alloc: Global,
    places: Blank,
    parts: Blank,
    dir: D,
    rules: Option<(Name, WhenMissing)>,
    limit: u64,
    callers: u64,
) -> Option<(WholeSite<L, N, D>, NewCallers<N>)>
    requires places { (places.name ≡ L.name) × (places.parts ≡ L.parts) × (places.parts ≡ limit) }
    requires met { L.met ≡ false }
    requires installs { L.installs ≡ true }
    requires missing { missing_by (rules_of rules) ≡ L.missing }
    requires parts { (parts.name ≡ N.name) × (parts.parts ≡ N.parts) × (parts.parts ≡ callers) }
    requires callers { N.before ≡ 0 }
    ensures { IfSome result (λ made. new_count made.1 ≡ callers) }
{
    let journal = Journal::storing(alloc);
    let yard = WholeYard::new(alloc, places, dir, rules, limit, limit, journal).ok()?;
    Some(WholeSite::new(parts, yard, callers))
}

/// What the yard of a site reports once its callers are all back. Their receipts have to be its whole history, and that
/// has to come to this report.
pub(crate) fn close<L: Assumptions, N: Callers, D: Dir + Drop>(
    alloc: Global,
    site: WholeSite<L, N, D>,
    callers: BackCallers<N>,
    receipts: Receipts,
    limit: u64,
) -> Option<Report>
    requires all { callers.all ≡ N.parts }
{
    match close_and_audit(site, callers, &receipts.list) {
        Ok((yard, audited)) => {
            let report = report_of(
                alloc,
                yard.connections().journal(),
                audited,
                receipts,
                limit,
            );
            drop(yard);
            report
        }
        Err((site, callers)) => {
            drop(site);
            drop(callers);
            None
        }
    }
}

// What a journal reports, if that is what its history comes to. The receipts have to be the whole history, by their
// audit, and of calls that all succeeded.
fn report_of(
    alloc: Global,
    journal: &Journal,
    audited: Result<(), NotWhole>,
    receipts: Receipts,
    limit: u64,
) -> Option<Report>
    requires { OnOk audited (IsWhole (books_of_journal journal.now).notes receipts.list.items) }
{
    let report = journal.report();
    let history = in_order(alloc, receipts.list).ok()?;
    let comes_to = replay(alloc, limit, limit, &history);
    drop(history);
    let is_right = audited.is_ok() && !receipts.has_failed && comes_to.ok() == Some(report);
    is_right.then_some(report)
}

// The events of receipts, ordered by their places.
fn in_order(alloc: Global, mut receipts: Vec<Receipt>) -> Result<Vec<Event>, AllocError> {
    receipts.sort_unstable_by_key(|receipt| receipt.at);
    let mut events = Vec::new(alloc);
    for receipt in receipts {
        events.push(receipt.event)?;
    }
    Ok(events)
}
