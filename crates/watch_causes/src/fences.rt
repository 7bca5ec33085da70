//! Which fences a flush asked for, and what they take out.

ghost use Rattle.std.specs.Prelude.{◌≡◌};
ghost use Rattle.tlb.specs.Fence.{is_fenced, is_of_address, is_of_space as is_entry_of_space};
ghost use Rattle.watch.specs.Holding.{is_covered, names, reaches};
ghost use Rattle.watch_causes.specs.Reasons.{asks_others, covers, fences_itself, is_asked, is_for, is_of_space};

use pte::{ASID_BITS, Page, Scheme, VirtAddr};
use tlb::Entry;
use watch::{AddressRange, Record, RemoteFence};

/// How many ASIDs there are.
const ASIDS: u64 = 1 << ASID_BITS;

/// Whether some address of the range lies in the page.
pub(crate) fn reaches(range: &Option<AddressRange>, page: &Page) -> bool
    ensures { result ≡ reaches range.now page.now }
{
    match range {
        None => true,
        Some(range) => {
            range.start.saturating_sub(page.base().get()) < page.size().bytes()
                && page.base().get().saturating_sub(range.start) < range.size
        }
    }
}

fn is_entry_of_space(entry: &Entry, rs2: u64) -> bool
    ensures { result ≡ is_entry_of_space rs2 entry.now }
{
    !entry.global && u64::from(entry.asid) == rs2 % ASIDS
}

fn is_of_address(scheme: Scheme, rs1: u64, entry: &Entry) -> bool
    ensures { result ≡ is_of_address scheme rs1 entry.now }
{
    let base = entry.page.base().get();
    if rs1 < base || rs1 - base >= entry.page.size().bytes() {
        return false;
    }
    VirtAddr::new_in(scheme, rs1).is_some()
}

fn is_fenced(scheme: Scheme, rs1: Option<u64>, rs2: Option<u64>, entry: &Entry) -> bool
    ensures { result ≡ is_fenced scheme rs1 rs2 entry.now }
{
    match (rs1, rs2) {
        (None, None) => true,
        (None, Some(rs2)) => is_entry_of_space(entry, rs2),
        (Some(rs1), None) => is_of_address(scheme, rs1, entry),
        (Some(rs1), Some(rs2)) => {
            is_of_address(scheme, rs1, entry) && is_entry_of_space(entry, rs2)
        }
    }
}

/// The value of rs2 that names an ASID; `None` for x0.
fn asid_register(asid: Option<u16>) -> Option<u64>
    ensures { result ≡ asid }
{
    match asid {
        None => None,
        Some(asid) => Some(u64::from(asid)),
    }
}

fn is_covered(scheme: Scheme, fence: &RemoteFence, entry: &Entry) -> bool
    ensures { result ≡ is_covered scheme fence.now entry.now }
{
    reaches(&fence.range, &entry.page) && is_fenced(scheme, None, asid_register(fence.asid), entry)
}

fn names(fence: &RemoteFence, hart: u8) -> bool
    ensures { result ≡ names fence.now hart }
{
    let harts = fence.harts;
    hart < 64 && harts >> hart & 1 == 1
}

fn fences_itself(made: &Record, hart: u8) -> bool
    ensures { result ≡ fences_itself hart made.now }
{
    match made {
        Record::Fence { hart: of, .. } => *of == hart,
        _ => false,
    }
}

/// The hart asks others for a fence.
pub(crate) fn asks_others(made: &Record, hart: u8) -> bool
    ensures { result ≡ asks_others hart made.now }
{
    match made {
        Record::RemoteBegin { hart: of, .. } => *of == hart,
        _ => false,
    }
}

/// A flush of one hart asked for the fence, for another hart, if it asked others or not.
pub(crate) fn is_asked(made: &Record, others: bool, flusher: u8, hart: u8) -> bool
    ensures { result ≡ is_asked others flusher hart made.now }
{
    fences_itself(made, flusher)
        || asks_others(made, flusher)
        || (!others && fences_itself(made, hart))
}

/// The fence is executed by the hart.
pub(crate) fn is_for(made: &Record, hart: u8) -> bool
    ensures { result ≡ is_for hart made.now }
{
    match made {
        Record::Fence { hart: of, .. } => *of == hart,
        Record::RemoteBegin { fence, .. } => names(fence, hart),
        _ => false,
    }
}

/// The fence takes out an entry of its address space, if the address is right.
pub(crate) fn is_of_space(scheme: Scheme, made: &Record, entry: &Entry) -> bool
    ensures { result ≡ is_of_space scheme entry.now made.now }
{
    match made {
        Record::Fence { rs2, .. } => is_fenced(scheme, None, *rs2, entry),
        Record::RemoteBegin { fence, .. } => {
            is_fenced(scheme, None, asid_register(fence.asid), entry)
        }
        _ => false,
    }
}

/// The fence takes out the entry.
pub(crate) fn covers(scheme: Scheme, made: &Record, entry: &Entry) -> bool
    ensures { result ≡ covers scheme entry.now made.now }
{
    match made {
        Record::Fence { rs1, rs2, .. } => is_fenced(scheme, *rs1, *rs2, entry),
        Record::RemoteBegin { fence, .. } => is_covered(scheme, fence, entry),
        _ => false,
    }
}
