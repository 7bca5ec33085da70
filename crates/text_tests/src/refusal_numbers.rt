//! The numbers of the refusals, as they are written down.

use history::Refusal;
use std::process::Abort;

#[test]
fn refusals_have_their_numbers(rt: HostRuntime) {
    for (number, refusal) in [
        (1, Refusal::NoHart),
        (2, Refusal::NoSpace),
        (3, Refusal::NotHome),
        (4, Refusal::WrongHalf),
        (5, Refusal::BadFlags),
        (6, Refusal::PpnTooLarge),
        (7, Refusal::Misaligned),
        (8, Refusal::AlreadyMapped),
        (9, Refusal::LeafInWay),
        (10, Refusal::TableInWay),
        (11, Refusal::NoFrame),
        (12, Refusal::NotMapped),
        (13, Refusal::WrongSize),
        (14, Refusal::HomeNotNamed),
        (15, Refusal::NoTicket),
        (16, Refusal::NotOpen),
        (17, Refusal::NotNamed),
        (18, Refusal::AlreadyPosted),
        (19, Refusal::Closed),
        (20, Refusal::Full),
        (21, Refusal::Empty),
        (22, Refusal::Walking),
        (23, Refusal::NotWalking),
        (24, Refusal::Serving),
        (25, Refusal::NotServing),
        (26, Refusal::NotFenced),
        (27, Refusal::NotDone),
        (28, Refusal::Retiring),
        (29, Refusal::InUse),
        (30, Refusal::NotAcked),
        (31, Refusal::NotRetiring),
        (32, Refusal::NotFree),
        (33, Refusal::AsidInUse),
    ] {
        assert!(rt; refusal.code() == number, "{refusal:?}");
    }
}
