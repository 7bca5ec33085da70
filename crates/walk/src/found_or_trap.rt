//! What a walk ends with.

use pte::{Access, Ctx, Page, PteFlags, access_cause, allowed, page_cause};
use thiserror::Error;

/// What a leaf gives for an address.
#[derive(Clone, Copy, PartialEq, Eq, Debug)]
pub struct Found {
    /// The physical address, of 56 bits.
    pub pa: u64,
    /// The page of the leaf's size that the virtual address lies in.
    pub page: Page,
    /// The leaf's PPN, a multiple of the page's size in pages of 4 KiB.
    pub ppn: u64,
    /// The leaf's flags.
    pub flags: PteFlags,
    /// Whether G is set in the leaf or in a pointer above it, so that the mapping belongs to all
    /// address spaces.
    pub global: bool,
}

/// Why there is no translation. Of several reasons at one word the first in this order is given.
#[derive(Clone, Copy, PartialEq, Eq, Debug, Error)]
pub enum Why {
    /// The address is not canonical. No word was read.
    #[error("the address is not canonical")]
    NotCanonical,
    /// The table's word lies outside memory. This alone is an access fault.
    #[error("the table's word lies outside memory")]
    Outside,
    /// V is clear.
    #[error("V is clear")]
    Invalid,
    /// The word is one that the manual reserves.
    #[error("the word is reserved")]
    Reserved,
    /// There is a pointer at level 0.
    #[error("there is a pointer at level 0")]
    TooDeep,
    /// The leaf's flags do not permit the access.
    #[error("the flags do not permit the access")]
    Denied,
    /// The leaf is a superpage whose PPN is no multiple of its size.
    #[error("the superpage's PPN is no multiple of its size")]
    Misaligned,
    /// A is clear.
    #[error("A is clear")]
    NotAccessed,
    /// The access is a store and D is clear.
    #[error("D is clear")]
    NotDirty,
}

/// The exception that an access raises.
#[derive(Clone, Copy, PartialEq, Eq, Debug, Error)]
#[error("exception {cause}: {why}")]
pub struct Trap {
    /// The cause, as in scause (privileged manual 4.1.8): of the access fault of the access (1, 5
    /// or 7) for `Outside`, else of its page fault (12, 13 or 15).
    pub cause: u8,
    /// What was wrong.
    pub why: Why,
}

impl Trap {
    ghost use Rattle.std.specs.Prelude.{◌≡◌};
    ghost use Rattle.walk.specs.Answer.{outside_trap, page_trap};

    /// The page fault of an access.
    #[inline(always)]
    pub fn page(access: Access, why: Why) -> Trap
        ensures { result ≡ page_trap access why }
    {
        Trap {
            cause: page_cause(access),
            why,
        }
    }

    /// The access fault of an access whose table word lies outside memory.
    #[inline(always)]
    pub fn outside(access: Access) -> Trap
        ensures { result ≡ outside_trap access }
    {
        Trap {
            cause: access_cause(access),
            why: Why::Outside,
        }
    }
}

ghost use Rattle.std.specs.Prelude.{◌≡◌};
ghost use Rattle.walk.specs.Answer.{accessed_fault, flags_fault};

/// What in the flags of an aligned leaf refuses an access, the first of `Denied`, `NotAccessed` and
/// `NotDirty` that applies, or `None`. A TLB entry answers by it without the tables.
#[inline(always)]
pub fn flags_fault(flags: PteFlags, access: Access, ctx: Ctx) -> Option<Why>
    ensures { result ≡ flags_fault access ctx flags }
{
    if allowed(flags, access, ctx) {
        accessed_fault(flags, access)
    } else {
        Some(Why::Denied)
    }
}

/// What is wrong with A and D for an access.
#[inline(always)]
pub(crate) fn accessed_fault(flags: PteFlags, access: Access) -> Option<Why>
    ensures { result ≡ accessed_fault access flags }
{
    if !flags.is_accessed() {
        Some(Why::NotAccessed)
    } else if access == Access::Store && !flags.is_dirty() {
        Some(Why::NotDirty)
    } else {
        None
    }
}
