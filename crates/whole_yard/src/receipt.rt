//! Receipts, which an audit compares with a history.
ghost use Rattle.std.specs.Prelude.{◌≡◌};
ghost use Rattle.server_yard.specs.Evidence.{made_event};

use server_events::Event;
use server_yard::Made;

/// Which event a caller made, and where it stands in the history. Only a `Made` becomes a receipt.
#[derive(Drop)]
pub struct Receipt {
    /// The caller's number, from 1; it was the speaker.
    pub caller: u64,
    /// The event's position in the whole history of the yard, from 1.
    pub at: u64,
    /// What happened.
    pub event: Event,
    // this field is private, so that nobody else makes a receipt
    pub(crate) seal: (),
}

impl Receipt {
    ghost use Rattle.whole_yard.specs.Receipts.{receipt_of};

    /// The receipt of the event that this evidence shows, with the event itself.
    pub fn of(made: Made, event: Event) -> Receipt
        requires its_event { made_event made ≡ event }
        ensures { result ≡ receipt_of made }
    {
        Receipt {
            caller: made.caller(),
            at: made.at(),
            event,
            seal: (),
        }
    }
}
