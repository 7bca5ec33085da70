//! Why a step is refused.

ghost use Rattle.std.specs.Prelude.{◌≡◌};
ghost use Rattle.history.specs.Numbers.{code_of};

use thiserror::Error;

/// Why an event changed nothing.
#[derive(Clone, Copy, PartialEq, Eq, Debug, Error)]
pub enum Refusal {
    /// A hart is named that does not exist, or the two harts of a pair are the same.
    #[error("a hart is not there, or is named as its own partner")]
    NoHart,
    /// The space does not exist, or, but for a Create, is free.
    #[error("no such space")]
    NoSpace,
    /// Only the home of a space stores to its tables; hart 0 to those of the kernel.
    #[error("the hart is not the home of these tables")]
    NotHome,
    /// A page that is none of the scheme, a space's page outside the user half of the root, or a
    /// kernel page outside the window.
    #[error("the page lies outside the part of the root that its place has")]
    WrongHalf,
    /// No leaf has these flags, or G is set for a space, or clear for the kernel.
    #[error("no leaf of this place has these flags")]
    BadFlags,
    /// The PPN is 2^44 or more.
    #[error("the PPN is 2^44 or more")]
    PpnTooLarge,
    /// The PPN is no multiple of the page's size.
    #[error("the PPN is no multiple of the page's size")]
    Misaligned,
    /// The page is already mapped, by a leaf of its own size.
    #[error("the page is already mapped")]
    AlreadyMapped,
    /// A leaf of a larger page is in the way.
    #[error("a larger page is mapped there")]
    LeafInWay,
    /// A table of smaller pages is in the way, even if none of them is mapped any more.
    #[error("a table of smaller pages is there")]
    TableInWay,
    /// Every spare frame of the home is in use.
    #[error("no spare frame of the home is left")]
    NoFrame,
    /// Nothing is mapped there.
    #[error("the page is not mapped")]
    NotMapped,
    /// A larger page is mapped there, or a table of smaller ones stands there.
    #[error("a page of another size is mapped there")]
    WrongSize,
    /// The hart that opens a ticket is not among the named.
    #[error("the hart that opens an order is not among the named")]
    HomeNotNamed,
    /// All 64 tickets of the hart are open.
    #[error("all tickets of the hart are open")]
    NoTicket,
    /// No such ticket of the hart is open.
    #[error("the ticket is not open")]
    NotOpen,
    /// The ticket does not name the hart.
    #[error("the ticket does not name the hart")]
    NotNamed,
    /// The ticket was posted to the hart before.
    #[error("the ticket was posted to the hart before")]
    AlreadyPosted,
    /// The mailbox is closed.
    #[error("the mailbox is closed")]
    Closed,
    /// As many requests as the mailbox may hold are not collected yet.
    #[error("the mailbox is full")]
    Full,
    /// Nothing waits in the mailbox.
    #[error("the mailbox is empty")]
    Empty,
    /// The hart is in the middle of a walk.
    #[error("the hart is in the middle of a walk")]
    Walking,
    /// The hart is not in the middle of a walk.
    #[error("the hart is in no walk")]
    NotWalking,
    /// The hart serves a request that it has not acknowledged.
    #[error("the hart serves a request that it has not acknowledged")]
    Serving,
    /// The hart serves no request.
    #[error("the hart serves no request")]
    NotServing,
    /// The hart has not fenced since it took the request.
    #[error("the hart has not fenced since it took the request")]
    NotFenced,
    /// Some named hart of the ticket is not collected.
    #[error("a named hart is not collected")]
    NotDone,
    /// The space is retiring.
    #[error("the space is retiring")]
    Retiring,
    /// Some hart is in the space.
    #[error("a hart is in the space")]
    InUse,
    /// Some hart is not collected for the retirement of the space.
    #[error("a hart is not collected for the retirement of the space")]
    NotAcked,
    /// The space is not retiring.
    #[error("the space is not retiring")]
    NotRetiring,
    /// The space is not free.
    #[error("the space is not free")]
    NotFree,
    /// A live or a retiring space has the ASID.
    #[error("another space has the ASID")]
    AsidInUse,
}

impl Refusal {
    /// The number of the refusal, from 1 to 33.
    pub fn code(self) -> u8
        ensures { result ≡ code_of self }
    {
        match self {
            Refusal::NoHart => 1,
            Refusal::NoSpace => 2,
            Refusal::NotHome => 3,
            Refusal::WrongHalf => 4,
            Refusal::BadFlags => 5,
            Refusal::PpnTooLarge => 6,
            Refusal::Misaligned => 7,
            Refusal::AlreadyMapped => 8,
            Refusal::LeafInWay => 9,
            Refusal::TableInWay => 10,
            Refusal::NoFrame => 11,
            Refusal::NotMapped => 12,
            Refusal::WrongSize => 13,
            Refusal::HomeNotNamed => 14,
            Refusal::NoTicket => 15,
            Refusal::NotOpen => 16,
            Refusal::NotNamed => 17,
            Refusal::AlreadyPosted => 18,
            Refusal::Closed => 19,
            Refusal::Full => 20,
            Refusal::Empty => 21,
            Refusal::Walking => 22,
            Refusal::NotWalking => 23,
            Refusal::Serving => 24,
            Refusal::NotServing => 25,
            Refusal::NotFenced => 26,
            Refusal::NotDone => 27,
            Refusal::Retiring => 28,
            Refusal::InUse => 29,
            Refusal::NotAcked => 30,
            Refusal::NotRetiring => 31,
            Refusal::NotFree => 32,
            Refusal::AsidInUse => 33,
        }
    }
}
