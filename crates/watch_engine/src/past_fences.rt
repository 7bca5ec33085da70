//! Fences that have been executed, each found by keys of what it can drop.

ghost use Rattle.std.specs.Prelude.{◌≡◌, ◌==◌, ◌≤◌, ◌/◌, ◌^◌, ◌++◌, ◌∷◌, [], IsTrue, None, OnErr, OnOk, false, length, map, true};
ghost use Rattle.pte.specs.Address.{bytes_of};
ghost use Rattle.pte.specs.declared.address.PageSize.{PageSize as PageSizeOf};
ghost use Rattle.pte.specs.declared.address.PageSize.TheVariants.{Kib4, Mib2};
ghost use Rattle.watch_engine.specs.Left.{is_taken_since};
ghost use Rattle.watch_engine.specs.PastFences.{AreOldest, NoneBefore, address_key, asid_key, fence_key, is_in_page, is_taken_by, is_taken_by_asid, range_key, wide_key};

use crate::chains::Chains;
use crate::fence::{ASIDS, asid_register};
use crate::left::{Left, PastFence, is_taken_since};
use pte::{PageSize, Scheme};
use std::alloc::{AllocError, Global};
use tlb::Entry;
use watch::AddressRange;

/// How many pages of 4 KiB canonical addresses have. There are fewer of each larger size.
const PAGES: u64 = 1 << 36;

/// How many numbers keys leave to the ASID of a page: there is one for each ASID, and one for all.
const KEYS: u64 = 2 * ASIDS;

// An ASID as a part of a key, or what stands for all of them.
fn asid_key(asid: Option<u64>) -> u64
    ensures is { result ≡ asid_key asid }
    ensures within { result ≤ 2 ^ 16 }
{
    match asid {
        None => ASIDS,
        Some(asid) => asid % ASIDS,
    }
}

// The number of the page of a size that an address lies in.
fn page_number(size: PageSize, address: u64) -> u64
    ensures { result ≡ address / bytes_of size }
{
    match size {
        PageSize::Kib4 => address / PageSize::Kib4.bytes(),
        PageSize::Mib2 => address / PageSize::Mib2.bytes(),
        PageSize::Gib1 => address / PageSize::Gib1.bytes(),
        PageSize::Gib512 => address / PageSize::Gib512.bytes(),
    }
}

// The key of fences for addresses of one page of a size.
fn address_key(size: PageSize, address: u64, asid: Option<u64>) -> u64
    ensures { result ≡ address_key size address asid }
{
    page_number(size, address) % PAGES * KEYS + asid_key(asid)
}

// The key of fences for addresses of many pages.
fn wide_key(asid: Option<u64>) -> u64
    ensures { result ≡ wide_key asid }
{
    PAGES * KEYS + asid_key(asid)
}

// All addresses of the range lie in one page of the size.
fn is_in_page(size: PageSize, range: &AddressRange) -> bool
    ensures { result ≡ is_in_page size range.now }
{
    let bytes = size.bytes();
    range.size <= bytes - range.start % bytes
}

fn range_key(size: PageSize, range: &Option<AddressRange>, asid: Option<u64>) -> u64
    ensures { result ≡ range_key size range.now asid }
{
    let Some(range) = range else {
        return wide_key(asid);
    };
    if is_in_page(size, range) {
        address_key(size, range.start, asid)
    } else {
        wide_key(asid)
    }
}

impl PastFence {
    // The key that it is found by, for entries of pages of a size. One that it drops has this key among
    // four: of its page or of many pages, with its ASID or with none.
    fn key(&self, size: PageSize) -> u64
        ensures { result ≡ fence_key size self.now }
    {
        match self {
            PastFence::Own { rs1: None, rs2, .. } => wide_key(*rs2),
            PastFence::Own {
                rs1: Some(address),
                rs2,
                ..
            } => address_key(size, *address, *rs2),
            PastFence::Remote { fence, .. } => {
                range_key(size, &fence.range, asid_register(fence.asid))
            }
        }
    }
}

/// How many keys a bucket has on average before the buckets double: with two, a fence takes less time and
/// memory, and a look at fences a few steps more.
const LOAD: usize = 2;

/// The keys of the oldest fences, for entries of pages of one size.
#[derive(Drop)]
struct FenceKeys {
    keys: Chains,
}

impl FenceKeys {
    fn new(alloc: Global) -> FenceKeys
        ensures { result.keys.keys.items ≡ [] }
    {
        FenceKeys {
            keys: Chains::with_load(alloc, LOAD),
        }
    }

    // Whether each of these fences has its key.
    fn has_each(&self, fences: &[PastFence]) -> bool
        ensures is { result ≡ (length self.now.keys.keys.items == length fences.now) }
        ensures keys { (size : PageSizeOf) → result ≡ true
            → AreOldest size fences.now self.now.keys.keys.items
            → self.now.keys.keys.items ≡ map (fence_key size) fences.now }
    {
        self.keys.keys.len() == fences.len()
    }

    // With the keys of the fences that have none yet, as far as there is memory for them.
    fn add_missing(&mut self, fences: &[PastFence], size: PageSize)
        requires { AreOldest size fences.now self.old.keys.keys.items }
        ensures { AreOldest size fences.now self.new.keys.keys.items }
    {
        let mut at = self.keys.keys.len();
        while at < fences.len() {
            if self.keys.push(fences[at].key(size)).is_err() {
                return;
            }
            at += 1;
        }
    }

    // Whether a fence since the hart left the space has dropped the entry, if one with the key has. By
    // turns from the oldest fence that has not been looked at and along the chain of the key's bucket.
    fn is_taken_by(
        &self,
        fences: &[PastFence],
        key: u64,
        scheme: Scheme,
        left: &Left,
        entry: &Entry,
        oldest: &mut usize,
    ) -> bool
        requires keys { self.now.keys.keys.items ≡ map (fence_key entry.now.page.size) fences.now }
        requires before { NoneBefore scheme fences.now left.now entry.now oldest.old }
        ensures taken { IsTrue result → is_taken_since scheme fences.now left.now entry.now ≡ true }
        ensures none { result ≡ false → is_taken_by key scheme fences.now left.now entry.now ≡ false }
        ensures before { NoneBefore scheme fences.now left.now entry.now oldest.new }
    {
        let mut at = self.keys.head(key);
        while at > *oldest {
            if fences[*oldest].takes(scheme, left, entry) {
                return true;
            }
            *oldest += 1;
            if fences[at - 1].takes(scheme, left, entry) {
                return true;
            }
            at = self.keys.older(at);
        }
        false
    }

    // The same of fences with the ASID of the entry, which drop nothing that is global.
    fn is_taken_by_asid(
        &self,
        fences: &[PastFence],
        scheme: Scheme,
        left: &Left,
        entry: &Entry,
        oldest: &mut usize,
    ) -> bool
        requires keys { self.now.keys.keys.items ≡ map (fence_key entry.now.page.size) fences.now }
        requires before { NoneBefore scheme fences.now left.now entry.now oldest.old }
        ensures taken { IsTrue result → is_taken_since scheme fences.now left.now entry.now ≡ true }
        ensures none { result ≡ false → is_taken_by_asid scheme fences.now left.now entry.now ≡ false }
        ensures before { NoneBefore scheme fences.now left.now entry.now oldest.new }
    {
        if entry.global {
            return false;
        }
        let asid = Some(u64::from(entry.asid));
        let page = address_key(entry.page.size(), entry.page.base().get(), asid);
        if self.is_taken_by(fences, page, scheme, left, entry, oldest) {
            return true;
        }
        self.is_taken_by(fences, wide_key(asid), scheme, left, entry, oldest)
    }

    // Whether a fence since the hart left the space has dropped the entry, found by the entry's keys.
    fn is_taken_since(
        &self,
        fences: &[PastFence],
        scheme: Scheme,
        left: &Left,
        entry: &Entry,
    ) -> bool
        requires { self.now.keys.keys.items ≡ map (fence_key entry.now.page.size) fences.now }
        ensures { result ≡ is_taken_since scheme fences.now left.now entry.now }
    {
        let mut oldest = left.fences as usize;
        let page = address_key(entry.page.size(), entry.page.base().get(), None);
        if self.is_taken_by(fences, page, scheme, left, entry, &mut oldest) {
            return true;
        }
        if self.is_taken_by_asid(fences, scheme, left, entry, &mut oldest) {
            return true;
        }
        self.is_taken_by(fences, wide_key(None), scheme, left, entry, &mut oldest)
    }
}

/// Fences that have been executed, the oldest first.
#[derive(Drop)]
pub(crate) struct PastFences {
    pub(crate) fences: Vec<PastFence>,
    /// Keys for entries of 4 KiB: of all fences, unless no hart had left a space or there was no memory.
    /// Without them the fences since the hart left are scanned.
    small: FenceKeys,
    /// Those for entries of 2 MiB.
    large: FenceKeys,
    ghost small_keyed: { AreOldest Kib4 fences.items small.keys.keys.items },
    ghost large_keyed: { AreOldest Mib2 fences.items large.keys.keys.items },
}

impl PastFences {
    /// None was done yet.
    pub(crate) fn new(alloc: Global) -> PastFences
        ensures { result.fences.items ≡ [] }
    {
        PastFences {
            fences: Vec::new(alloc),
            small: FenceKeys::new(alloc),
            large: FenceKeys::new(alloc),
        }
    }

    /// With one more. At `Err` nothing changed. Unless somebody asks for fences their keys are not made:
    /// a hart that leaves a space later asks for none of those before.
    pub(crate) fn push(&mut self, fence: PastFence, is_asked: bool) -> Result<(), AllocError>
        ensures ok { OnOk result (self.new.fences.items ≡ self.old.fences.items ++ fence ∷ []) }
        ensures err { OnErr result (self.new.fences.items ≡ self.old.fences.items) }
    {
        self.fences.push(fence)?;
        if is_asked {
            let fences = self.fences.as_slice();
            self.small.add_missing(fences, PageSize::Kib4);
            self.large.add_missing(fences, PageSize::Mib2);
        }
        Ok(())
    }

    /// Whether a fence since the hart left the space has dropped the entry.
    pub(crate) fn is_taken_since(&self, scheme: Scheme, left: &Left, entry: &Entry) -> bool
        ensures { result ≡ is_taken_since scheme self.now.fences.items left.now entry.now }
    {
        let fences = self.fences.as_slice();
        match entry.page.size() {
            PageSize::Kib4 if self.small.has_each(fences) => {
                self.small.is_taken_since(fences, scheme, left, entry)
            }
            PageSize::Mib2 if self.large.has_each(fences) => {
                self.large.is_taken_since(fences, scheme, left, entry)
            }
            _ => is_taken_since(scheme, fences, left, entry),
        }
    }
}
