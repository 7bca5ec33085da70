//! The TLB of one hart: look-ups, fills, fences and services.

ghost use Rattle.std.specs.Prelude.{◌≡◌, ◌↔◌, [], IsSome, IsTrue, None, Some, length, slice_get};
ghost use Rattle.std.specs.Prelude.{true};
ghost use Rattle.pte.specs.Address.{IsPage, is_canonical};
ghost use Rattle.tlb.specs.Banks.{IsBanks, entries_of};
ghost use Rattle.pte.specs.declared.scheme.Scheme.{Scheme as SchemeOf};
ghost use Rattle.pte.specs.declared.scheme.Scheme.TheVariants.{Sv39};
ghost use Rattle.tlb.specs.Answer.{answer_of, entry_of};
ghost use Rattle.tlb.specs.Entries.{IsTlb, filled, first_match};
ghost use Rattle.tlb.specs.Fence.{fenced, is_fenced, is_of_space};
ghost use Rattle.tlb.specs.Mappings.{IsMappedBy, Translates};
ghost use Rattle.tlb.specs.Service.{is_dropped, after_service, Served};

use crate::banks::Banks;
use pte::{ASID_BITS, Access, Ctx, PAGE_BYTES, PPN_LIMIT, Page, PteFlags, Scheme, VirtAddr, What};
use std::marker::Model;
use walk::{Found, Trap, flags_fault};

/// How many entries a TLB holds.
pub const TLB_SIZE: usize = 16;

/// How many ASIDs there are.
const ASIDS: u64 = 1 << ASID_BITS;

/// A successful leaf translation, as a walk found it in the address space of an ASID.
#[derive(Clone, Copy, PartialEq, Eq, Debug, Default)]
pub struct Entry {
    /// The address space of the walk.
    pub asid: u16,
    /// Whether the mapping belongs to all address spaces.
    pub global: bool,
    /// The page that the leaf maps.
    pub page: Page,
    /// The leaf's PPN.
    pub ppn: u64,
    /// The leaf's flags.
    pub flags: PteFlags,
}

impl Entry {
    /// What a walk found in the address space of an ASID.
    #[inline(always)]
    pub fn found(asid: u16, found: &Found) -> Entry
        ensures { result ≡ entry_of asid found.now }
    {
        Entry {
            asid,
            global: found.global,
            page: found.page,
            ppn: found.ppn,
            flags: found.flags,
        }
    }

    /// What the entry answers to an access of an address of its page, without the tables
    /// (privileged manual 4.3.2, steps 5 to 8): the physical address, or a page fault with the
    /// first of `Denied`, `NotAccessed` and `NotDirty` that applies. Of the PPN the low 44 bits
    /// count.
    #[inline(always)]
    pub fn translate(&self, va: VirtAddr, access: Access, ctx: Ctx) -> Result<u64, Trap>
        ensures { result ≡ answer_of self.now va access ctx }
    {
        if let Some(why) = flags_fault(self.flags, access, ctx) {
            return Err(Trap::page(access, why));
        }
        Ok(self.ppn % PPN_LIMIT * PAGE_BYTES + va.get() % self.page.size().bytes())
    }
}

/// The TLB of one hart: at most `TLB_SIZE` entries, each with its age, in a bank for each size of
/// page, and the scheme that decides which addresses its fences count. In contracts it is the list
/// of its entries by age, the oldest first. Nothing but `fence`, `serve` and the fill of a full TLB
/// takes an entry out, whatever becomes of the page tables meanwhile.
#[derive(Drop)]
pub struct Tlb {
    scheme: Scheme,
    banks: Banks,
}

impl Model for Tlb {
    ghost use Rattle.tlb.specs.Banks.{IsBanks, entries_of};
    ghost use Rattle.tlb.specs.Entries.{TlbState};

    ghost Value = { TlbState };

    ghost view = { λ t. record { scheme = t.scheme; entries = entries_of t.banks } };

    ghost invariant = { λ t. IsBanks t.banks };
}

// The entry is of the ASID that the low bits of rs2 name, and not global.
fn is_of_space(entry: &Entry, rs2: u64) -> bool
    ensures { result ≡ is_of_space rs2 entry.now }
{
    !entry.global && u64::from(entry.asid) == rs2 % ASIDS
}

// The fence for an address, if that is canonical in the scheme, takes the entry out.
fn is_fenced(entry: &Entry, va: VirtAddr, rs2: Option<u64>) -> bool
    ensures { (scheme : SchemeOf) → is_canonical scheme va ≡ true
        → result ≡ is_fenced scheme (Some va) rs2 entry.now }
{
    let by_space = match rs2 {
        None => true,
        Some(rs2) => is_of_space(entry, rs2),
    };
    entry.page.contains(va) && by_space
}

// The service of a page takes the entry out.
fn is_served(entry: &Entry, page: &Page, asid: Option<u16>) -> bool
    ensures { result ≡ is_dropped (What.PageOf page.now asid) entry.now }
{
    page.overlaps(&entry.page)
        && match asid {
            None => true,
            Some(asid) => is_of_space(entry, u64::from(asid)),
        }
}

// Leaves what a fence of no address does not take out.
fn drop_of_space(banks: &mut Banks, rs2: Option<u64>)
    requires { IsBanks banks.old }
    ensures kept { IsBanks banks.new }
    ensures entries { (scheme : SchemeOf)
        → entries_of banks.new ≡ fenced scheme (entries_of banks.old) None rs2 }
{
    match rs2 {
        None => banks.clear(),
        Some(rs2) => banks.drop_among(banks.in_use(), |e| is_of_space(e, rs2)),
    }
}

// Leaves what the fence does not take out.
fn drop_fenced(scheme: Scheme, banks: &mut Banks, rs1: Option<u64>, rs2: Option<u64>)
    requires { IsBanks banks.old }
    ensures kept { IsBanks banks.new }
    ensures entries { entries_of banks.new ≡ fenced scheme (entries_of banks.old) rs1 rs2 }
{
    let Some(va) = rs1 else {
        drop_of_space(banks, rs2);
        return;
    };
    let Some(va) = VirtAddr::new_in(scheme, va) else {
        return;
    };
    banks.drop_among(banks.near_address(va), |e| is_fenced(e, va, rs2));
}

// Leaves what the service of a page does not take out.
fn drop_served(banks: &mut Banks, page: &Page, asid: Option<u16>)
    requires kept { IsBanks banks.old }
    requires page { IsPage page.now }
    ensures kept { IsBanks banks.new }
    ensures entries { entries_of banks.new
        ≡ after_service (entries_of banks.old) (What.PageOf page.now asid) }
{
    banks.drop_among(banks.near_page(page), |e| is_served(e, page, asid));
}

impl Default for Tlb {
    ghost is_default = { λ t. t ≡ record { scheme = Sv39; entries = [] } };

    fn default() -> Tlb {
        Tlb::new()
    }
}

impl Tlb {
    ghost use Rattle.tlb.specs.Service.{IsRequest};

    /// A TLB of Sv39 without entries.
    pub fn new() -> Tlb
        ensures { result ≡ record { scheme = Sv39; entries = [] } }
    {
        Tlb::new_in(Scheme::Sv39)
    }

    /// A TLB of a scheme without entries.
    pub fn new_in(scheme: Scheme) -> Tlb
        ensures { result ≡ record { scheme = scheme; entries = [] } }
    {
        Tlb {
            scheme,
            banks: Banks::new(),
        }
    }

    /// The oldest entry whose page has the address and that is global or of the ASID. There is one
    /// exactly if the mappings of the entries translate the address for that ASID.
    #[inline(always)]
    pub fn lookup(&self, asid: u16, va: VirtAddr) -> Option<Entry>
        ensures oldest { result ≡ first_match self.now.entries asid va }
        ensures kept { IsTlb self.now.entries }
        ensures translates { IsSome result ↔ Translates (IsMappedBy self.now.entries) asid va }
    {
        self.banks.oldest_match(asid, va)
    }

    /// How many entries there are, at most `TLB_SIZE`.
    pub fn len(&self) -> usize
        ensures { result ≡ length self.now.entries }
    {
        self.banks.len()
    }

    /// Whether there is no entry.
    pub fn is_empty(&self) -> bool
        ensures { IsTrue result ↔ (self.now.entries ≡ []) }
    {
        self.banks.len() == 0
    }

    /// The entry of an age: `entry(0)` is the oldest, `entry(len - 1)` the youngest, and from `len`
    /// on there is none.
    pub fn entry(&self, age: usize) -> Option<Entry>
        ensures { result ≡ slice_get self.now.entries age }
    {
        self.banks.entry(age)
    }

    /// Adds an entry as the youngest. A full TLB drops its oldest entry; no other goes, not even
    /// one of the same page.
    pub fn fill(&mut self, entry: Entry)
        ensures { self.new ≡ record self.old { entries = filled self.old.entries entry } }
    {
        entry.page.recall();
        self.banks.add(entry);
    }

    /// SFENCE.VMA with the registers rs1, for an address, and rs2, for an ASID, each `None` for x0
    /// (privileged manual 4.2.1). Of rs2 the low 16 bits count. Where rs1 is not canonical in the
    /// TLB's scheme nothing is dropped.
    pub fn fence(&mut self, rs1: Option<u64>, rs2: Option<u64>)
        ensures { self.new
            ≡ record self.old { entries = fenced self.old.scheme self.old.entries rs1 rs2 } }
    {
        drop_fenced(self.scheme, &mut self.banks, rs1, rs2);
    }

    /// Serves a request. For a page it drops each entry whose page overlaps that one, with an ASID
    /// only those of it that are not global; for an ASID all of it that are not global; else all.
    /// Where the page is one of the TLB's scheme, these are the entries that a fence for some
    /// address of the page would drop.
    pub fn serve(&mut self, what: &What)
        ensures list { self.new ≡ record self.old
            { entries = after_service self.old.entries what.now } }
        ensures meaning { IsRequest self.old.scheme what.now
            → Served self.old.scheme self.old.entries what.now self.new.entries }
    {
        match what {
            What::PageOf(page, asid) => self.serve_page(page, *asid),
            What::SpaceOf(asid) => self.fence(None, Some(u64::from(*asid))),
            What::All => self.fence(None, None),
        }
    }

    // The service of a page: one test an entry, in place of a fence for each address.
    fn serve_page(&mut self, page: &Page, asid: Option<u16>)
        ensures list { self.new
            ≡ record self.old {
              entries = after_service self.old.entries
                  (What.PageOf page.now asid);
            } }
        ensures meaning { IsRequest self.old.scheme (What.PageOf page.now asid)
            → Served self.old.scheme self.old.entries (What.PageOf page.now asid) self.new.entries }
    {
        page.recall();
        drop_served(&mut self.banks, page, asid);
    }
}
