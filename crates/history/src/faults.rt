//! Faults of the crates below as refusals.

ghost use Rattle.std.specs.Prelude.{◌≡◌};
ghost use Rattle.history.specs.Refusal.{opening_refusal, posting_refusal, refusal_of};

use crate::refusal::Refusal;
use shoot::{PostFault, TicketFault};
use spaces::MapFault;

/// The refusal of an edit that has this fault.
pub fn edit_refusal(fault: MapFault) -> Refusal
    ensures { result ≡ refusal_of fault }
{
    match fault {
        MapFault::NotHome => Refusal::NotHome,
        MapFault::WrongHalf => Refusal::WrongHalf,
        MapFault::BadFlags => Refusal::BadFlags,
        MapFault::PpnTooLarge => Refusal::PpnTooLarge,
        MapFault::Misaligned => Refusal::Misaligned,
        MapFault::AlreadyMapped => Refusal::AlreadyMapped,
        MapFault::LeafInWay => Refusal::LeafInWay,
        MapFault::TableInWay => Refusal::TableInWay,
        MapFault::NoFrame => Refusal::NoFrame,
        MapFault::NotMapped => Refusal::NotMapped,
        MapFault::WrongSize => Refusal::WrongSize,
    }
}

/// The refusal of a ticket that can't be opened, for this fault.
pub fn opening_refusal(fault: TicketFault) -> Refusal
    ensures { result ≡ opening_refusal fault }
{
    match fault {
        TicketFault::HomeNotNamed => Refusal::HomeNotNamed,
        TicketFault::NoTicket => Refusal::NoTicket,
    }
}

/// The refusal of a request that a mailbox doesn't take, for this fault.
pub fn posting_refusal(fault: PostFault) -> Refusal
    ensures { result ≡ posting_refusal fault }
{
    match fault {
        PostFault::Closed => Refusal::Closed,
        PostFault::Full => Refusal::Full,
    }
}
