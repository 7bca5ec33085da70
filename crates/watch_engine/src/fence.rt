//! What fences drop.

ghost use Rattle.std.specs.Prelude.{◌≡◌};
ghost use Rattle.tlb.specs.Fence.{is_fenced, is_of_address, is_of_space};
ghost use Rattle.watch.specs.Holding.{is_covered, names, reaches};
ghost use Rattle.watch_engine.specs.Held.{is_taken_by, outlives_fence, outlives_remote};

use crate::held::Held;
use crate::open::OpenFence;
use pte::{ASID_BITS, Page, Scheme, VirtAddr};
use tlb::Entry;
use watch::{AddressRange, RemoteFence};

/// How many ASIDs there are.
pub(crate) const ASIDS: u64 = 1 << ASID_BITS;

/// Whether some address of the range lies in the page.
pub(crate) fn reaches(range: &Option<AddressRange>, page: &Page) -> bool
    ensures { result ≡ reaches range.now page.now }
{
    match range {
        None => true,
        Some(range) => {
            range.start.saturating_sub(page.base().get()) < page.size().bytes()
                && page.base().get().saturating_sub(range.start) < range.size
        }
    }
}

fn is_of_space(entry: &Entry, rs2: u64) -> bool
    ensures { result ≡ is_of_space rs2 entry.now }
{
    !entry.global && u64::from(entry.asid) == rs2 % ASIDS
}

fn is_of_address(scheme: Scheme, rs1: u64, entry: &Entry) -> bool
    ensures { result ≡ is_of_address scheme rs1 entry.now }
{
    let base = entry.page.base().get();
    if rs1 < base || rs1 - base >= entry.page.size().bytes() {
        return false;
    }
    VirtAddr::new_in(scheme, rs1).is_some()
}

pub(crate) fn is_fenced(scheme: Scheme, rs1: Option<u64>, rs2: Option<u64>, entry: &Entry) -> bool
    ensures { result ≡ is_fenced scheme rs1 rs2 entry.now }
{
    match (rs1, rs2) {
        (None, None) => true,
        (None, Some(rs2)) => is_of_space(entry, rs2),
        (Some(rs1), None) => is_of_address(scheme, rs1, entry),
        (Some(rs1), Some(rs2)) => is_of_address(scheme, rs1, entry) && is_of_space(entry, rs2),
    }
}

/// The value of rs2 that names an ASID; `None` for x0.
pub(crate) fn asid_register(asid: Option<u16>) -> Option<u64>
    ensures { result ≡ asid }
{
    match asid {
        None => None,
        Some(asid) => Some(u64::from(asid)),
    }
}

pub(crate) fn is_covered(scheme: Scheme, fence: &RemoteFence, entry: &Entry) -> bool
    ensures { result ≡ is_covered scheme fence.now entry.now }
{
    reaches(&fence.range, &entry.page) && is_fenced(scheme, None, asid_register(fence.asid), entry)
}

pub(crate) fn names(fence: &RemoteFence, hart: u8) -> bool
    ensures { result ≡ names fence.now hart }
{
    let harts = fence.harts;
    hart < 64 && harts >> hart & 1 == 1
}

impl Held {
    /// A fence of the hart leaves it.
    pub(crate) fn outlives_fence(
        &self,
        scheme: Scheme,
        hart: u8,
        rs1: Option<u64>,
        rs2: Option<u64>,
    ) -> bool
        ensures { result ≡ outlives_fence scheme hart rs1 rs2 self.now }
    {
        !(hart == self.hart && is_fenced(scheme, rs1, rs2, &self.entry))
    }

    fn is_taken_by(&self, scheme: Scheme, fence: &Option<OpenFence>) -> bool
        ensures { result ≡ is_taken_by scheme fence.now self.now }
    {
        match fence {
            None => false,
            Some(begun) => {
                names(&begun.fence, self.hart)
                    && is_covered(scheme, &begun.fence, &self.entry)
                    && self.last_live < begun.begun
            }
        }
    }

    /// The end of a remote fence leaves it.
    pub(crate) fn outlives_remote(&self, scheme: Scheme, fence: &Option<OpenFence>) -> bool
        ensures { result ≡ outlives_remote scheme fence.now self.now }
    {
        !self.is_taken_by(scheme, fence)
    }
}
