//! The audit: receipts compared with the history.
ghost use Rattle.std.specs.Prelude.{◌↔◌, ◌<◌, IsTrue, IfErr, OnOk, length};
ghost use Rattle.whole_yard.specs.Audits.{AreRight, AreRightBefore, IsAbove, IsFirstWrong, IsRight, Rise, StandsAtItsPosition};

use crate::receipt::Receipt;
use crate::same::is_same_event;
use server_events::Noted;

/// The position in the list of the first receipt that is wrong, counted from 0.
#[derive(Clone, Copy)]
pub struct Mismatch(pub usize);

/// Compares receipts with a history, which a journal stores. Each has to be the event and the caller at its position
/// there, and that position has to be above those of its caller's earlier receipts in the list. Then no position stands
/// in the list twice.
///
/// It takes no memory. For each receipt it goes back in the list to the last one of the same caller. That takes at most
/// as many steps as there are receipts for each caller, and few if the receipts of each caller stand together.
///
/// # Errors
/// The first receipt that is wrong.
pub fn audit(notes: &[Noted], receipts: &[Receipt]) -> Result<(), Mismatch>
    ensures ok { OnOk result (AreRight notes.now receipts.now) }
    ensures wrong { IfErr result (λ m. IsFirstWrong notes.now receipts.now m.0) }
{
    for i in 0..receipts.len() {
        if !is_right(notes, receipts, i) {
            return Err(Mismatch(i));
        }
    }
    Ok(())
}

fn is_right(notes: &[Noted], receipts: &[Receipt], i: usize) -> bool
    requires within { i < length receipts.now }
    requires others { AreRightBefore notes.now receipts.now i }
    ensures { IsTrue result ↔ IsRight notes.now receipts.now i }
{
    let receipt = &receipts[i];
    stands_at_its_position(notes, receipt) && is_above(&receipts[..i], receipt)
}

fn stands_at_its_position(notes: &[Noted], receipt: &Receipt) -> bool
    ensures { IsTrue result ↔ StandsAtItsPosition notes.now receipt.now }
{
    if receipt.at == 0 {
        return false;
    }
    match notes.get((receipt.at - 1) as usize) {
        Some(note) => note.caller == receipt.caller && is_same_event(&note.event, &receipt.event),
        None => false,
    }
}

// Whether a receipt's position is above those of its caller's earlier ones. Those rise, so it is enough to look at the
// last.
fn is_above(earlier: &[Receipt], receipt: &Receipt) -> bool
    requires { Rise earlier.now }
    ensures { IsTrue result ↔ IsAbove earlier.now receipt.now }
{
    let mut left = earlier.len();
    while left > 0 {
        left -= 1;
        let one = &earlier[left];
        if one.caller == receipt.caller {
            return one.at < receipt.at;
        }
    }
    true
}
