//! The end of a site: its receipts are its whole history.
ghost use Rattle.std.specs.Prelude.{◌≡◌, ◌≢◌, ◌+◌, ◌↔◌, Err, IsOk, IfOk, IfErr, OnOk, length};
ghost use Rattle.server_yard.specs.Yards.{yard_books};
ghost use Rattle.whole_yard.specs.WholeYards.{whole_books};
ghost use Rattle.whole_yard.specs.Closings.{IsNotWhole, IsWhole};
ghost use Rattle.whole_yard.specs.declared.closing.NotWhole.TheVariants.{Missing};

use crate::assumptions::Assumptions;
use crate::audit::{Mismatch, audit};
use crate::caller::Callers;
use crate::laws::whole;
use crate::receipt::Receipt;
use crate::site::WholeSite;
use crate::yard::WholeYard;
use dir_calls::Dir;
use server_yard::{Places, Yard};
use std::sync::ledger::{Ledger, Share};

/// The callers of a site that make no events any more, with the events of all of them.
#[derive(Drop)]
pub struct BackCallers<N: Ledger> {
    /// How many there are.
    pub all: u64,
    /// How many are not back yet.
    pub lacking: u64,
    /// The share of those that are.
    pub share: Share<N>,
    pub ghost parts: { share.parts + lacking ≡ all },
}

/// Why receipts are not the whole history.
#[derive(Clone, Copy)]
pub enum NotWhole {
    /// A receipt is wrong: the first one that `audit` finds.
    Wrong(Mismatch),
    /// Each receipt is right, but some event has none.
    Missing,
    /// The journal stores no events.
    OnlyCounted,
}

/// Checks that receipts are the whole history of a yard: each event with its caller, once. It takes no memory.
///
/// # Errors
/// `OnlyCounted` if the journal of the yard stores no events; `Wrong` with the first receipt that is wrong; otherwise
/// `Missing`.
pub fn audit_whole<L: Places>(yard: &Yard<L>, receipts: &[Receipt]) -> Result<(), NotWhole>
    ensures whole { OnOk result (IsWhole (yard_books yard.now).notes receipts.now) }
    ensures refused { IfErr result (IsNotWhole (yard_books yard.now).notes receipts.now) }
    ensures missing { result ≡ Err Missing → length receipts.now ≢ (yard_books yard.now).count }
{
    whole();
    yard.history();
    let Some(notes) = yard.journal().notes() else {
        return Err(NotWhole::OnlyCounted);
    };
    if let Err(mismatch) = audit(notes, receipts) {
        return Err(NotWhole::Wrong(mismatch));
    }
    if receipts.len() == notes.len() {
        Ok(())
    } else {
        Err(NotWhole::Missing)
    }
}

/// Closes a site whose callers are all back, and audits their receipts. If the audit is Ok, they are the whole history
/// of its yard: each event with its caller, once. None is missing if there are as many receipts as the callers made
/// events, and the yard had no events before. The audit of a yard whose journal stores nothing is `OnlyCounted`.
///
/// # Errors
/// Some caller is lacking. The site and the callers are handed back.
pub fn close_and_audit<L: Assumptions, N: Callers, D: Dir + Drop>(
    site: WholeSite<L, N, D>,
    callers: BackCallers<N>,
    receipts: &[Receipt],
) -> Result<(WholeYard<L, D>, Result<(), NotWhole>), (WholeSite<L, N, D>, BackCallers<N>)>
    requires all { callers.all ≡ N.parts }
    ensures all { IsOk result ↔ (callers.lacking ≡ 0) }
    ensures whole { IfOk result (λ r. OnOk r.1 (IsWhole (whole_books r.0).notes receipts.now)) }
    ensures refused { IfOk result (λ r. IfErr r.1 (IsNotWhole (whole_books r.0).notes receipts.now)) }
    ensures complete { N.before + callers.share.amount ≡ length receipts.now
        → IfOk result (λ r. r.1 ≢ Err Missing) }
    ensures back { IfErr result (λ r. (r.0 ≡ site) × (r.1 ≡ callers)) }
{
    if callers.lacking != 0 {
        return Err((site, callers));
    }
    let BackCallers {
        all: _,
        lacking: _,
        share,
    } = callers;
    let yard = site.close(share);
    let audited = audit_whole(yard.connections(), receipts);
    Ok((yard, audited))
}
