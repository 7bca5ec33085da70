//! The entries of a TLB in banks, one for each size of page, each entry with an age.

ghost use Rattle.std.specs.Prelude.{ℕ, Bool, ◌≡◌, ◌+◌, ◌<◌, ◌≤◌, ◌++◌, [], ◌∷◌, filter, length};
ghost use Rattle.std.specs.Prelude.{bit_and, map, not, slice_get, slice_index, true};
ghost use Rattle.std.specs.Fn.{FnReturnsAt};
ghost use Rattle.pte.specs.Address.{holds, IsPage, overlaps};
ghost use Rattle.pte.specs.declared.address.PageSize.TheVariants.{Kib4};
ghost use Rattle.tlb.specs.declared.store.Entry.{Entry};
ghost use Rattle.tlb.specs.Banks.{HasAll, InUse, IsBanks, entries_of, mask_of, tag_of};
ghost use Rattle.tlb.specs.Entries.{filled, first_match, is_match};
ghost use Rattle.tlb.specs.Slots.{IsIn, closed_up};

use crate::slots::{
    SlotSet, close_up, lowest_slot, slot_of, slots_below, slots_with_tag, without_slot,
};
use crate::store::{Entry, TLB_SIZE};
use pte::{LEVEL_BITS, OFFSET_BITS, Page, PageSize, VirtAddr};

/// At most 16 entries, in 16 slots that the banks share. Each slot has an age, each number below 16
/// once. The slots in use are those with an age below the count, so the ages of the entries are the
/// numbers below the count, and the oldest has 0. A slot in use is in the bank of its entry's size,
/// which its mask says, and in no other.
#[derive(Drop)]
pub(crate) struct Banks {
    // Of each slot in use, the number of the page of 4 KiB at its base, of which 32 bits count.
    tags: [u32; TLB_SIZE],
    // Of each slot in use its bank: the bits of this number that all addresses in a page of the
    // bank's size share.
    masks: [u32; TLB_SIZE],
    ages: [u8; TLB_SIZE],
    // What each slot holds, in no order; of a slot that is not in use, what it held last.
    held: [Entry; TLB_SIZE],
    // How many slots are in use.
    count: u8,
}

// The low bits of the number of the page of 4 KiB that has the address.
#[inline(always)]
fn tag_of(va: VirtAddr) -> u32
    ensures { result ≡ tag_of va Kib4 }
{
    ((va.get() >> OFFSET_BITS) % (1 << 32)) as u32
}

// The bits of such a number that all addresses in a page of the size share.
#[inline(always)]
fn mask_of(size: PageSize) -> u32
    ensures { result ≡ mask_of size }
{
    u32::MAX << (LEVEL_BITS * u32::from(size.level()))
}

// The page has the address, and the entry is global or of the ASID.
#[inline(always)]
fn is_match(entry: &Entry, asid: u16, va: VirtAddr) -> bool
    ensures { result ≡ is_match asid va entry.now }
{
    entry.page.contains(va) && (entry.global || entry.asid == asid)
}

impl Banks {
    /// No entry.
    pub(crate) fn new() -> Banks
        ensures kept { IsBanks result }
        ensures empty { entries_of result ≡ [] }
    {
        Banks {
            tags: [0; TLB_SIZE],
            masks: [0; TLB_SIZE],
            ages: [0, 1, 2, 3, 4, 5, 6, 7, 8, 9, 10, 11, 12, 13, 14, 15],
            held: [Entry::default(); TLB_SIZE],
            count: 0,
        }
    }

    // The slots whose page can share an address with the page of a size that has this one: they
    // agree in the bits of the tag that both pages share.
    #[inline(always)]
    fn near(&self, va: VirtAddr, size: PageSize) -> SlotSet
        ensures { (slot : ℕ) → slot < TLB_SIZE
            → bit_and (slice_index self.now.tags slot) (mask_of size)
            ≡ bit_and (slice_index self.now.masks slot) (tag_of va Kib4) → IsIn result slot }
    {
        slots_with_tag(&self.tags, &self.masks, tag_of(va), mask_of(size))
    }

    /// The slots that can have a page that overlaps this one: each one that has is among them.
    pub(crate) fn near_page(&self, page: &Page) -> SlotSet
        requires kept { IsBanks self.now }
        requires page { IsPage page.now }
        ensures { HasAll self.now (λ e. overlaps page.now e.page) result }
    {
        self.near(page.base(), page.size())
    }

    /// The slots that can have a page that has this address: each one that has is among them.
    #[inline(always)]
    pub(crate) fn near_address(&self, va: VirtAddr) -> SlotSet
        requires { IsBanks self.now }
        ensures { HasAll self.now (λ e. holds e.page va) result }
    {
        self.near(va, PageSize::Kib4)
    }

    /// The slots in use.
    pub(crate) fn in_use(&self) -> SlotSet
        requires { IsBanks self.now }
        ensures { HasAll self.now (λ e. true) result }
    {
        slots_below(&self.ages, self.count)
    }

    /// The entry that matches and has the least age. Only the slots whose tag agrees with
    /// the address are looked at whole: no other can match.
    #[inline(always)]
    pub(crate) fn oldest_match(&self, asid: u16, va: VirtAddr) -> Option<Entry>
        requires { IsBanks self.now }
        ensures { result ≡ first_match (entries_of self.now) asid va }
    {
        let near = self.near_address(va);
        if near == 0 {
            return None;
        }
        let slot = lowest_slot(near);
        if without_slot(near, slot) != 0 {
            return self.oldest_among(near, asid, va);
        }
        if self.ages[slot] < self.count && is_match(&self.held[slot], asid, va) {
            Some(self.held[slot])
        } else {
            None
        }
    }

    // The same, where each slot in use whose page has the address is in the set. It is kept out of
    // line, since mostly one slot alone is near.
    #[cold]
    fn oldest_among(&self, near: SlotSet, asid: u16, va: VirtAddr) -> Option<Entry>
        requires kept { IsBanks self.now }
        requires near { HasAll self.now (λ e. holds e.page va) near }
        ensures { result ≡ first_match (entries_of self.now) asid va }
    {
        let mut left = near;
        let mut least = self.count;
        let mut oldest = 0_usize;
        while left != 0 {
            let slot = lowest_slot(left);
            left = without_slot(left, slot);
            if self.ages[slot] < least && is_match(&self.held[slot], asid, va) {
                least = self.ages[slot];
                oldest = slot;
            }
        }
        if least < self.count {
            Some(self.held[oldest])
        } else {
            None
        }
    }

    /// How many entries there are.
    pub(crate) fn len(&self) -> usize
        requires { IsBanks self.now }
        ensures { result ≡ length (entries_of self.now) }
    {
        usize::from(self.count)
    }

    /// The entry of an age, of which the oldest has 0.
    pub(crate) fn entry(&self, age: usize) -> Option<Entry>
        requires { IsBanks self.now }
        ensures { result ≡ slice_get (entries_of self.now) age }
    {
        if age < usize::from(self.count) {
            Some(self.held[slot_of(&self.ages, age as u8)])
        } else {
            None
        }
    }

    // Takes out the entry of a slot, and lowers the ages above its age.
    fn drop_slot(&mut self, slot: usize)
        requires kept { IsBanks self.old }
        requires within { slot < TLB_SIZE }
        requires in_use { InUse self.old slot }
        ensures kept { IsBanks self.new }
        ensures held { self.new.held ≡ self.old.held }
        ensures ages { self.new.ages
            ≡ map (closed_up (slice_index self.old.ages slot)) self.old.ages }
        ensures count { self.new.count + 1 ≡ self.old.count }
    {
        let age = self.ages[slot];
        close_up(&mut self.ages, age);
        self.count -= 1;
    }

    // Takes out the oldest entry: each other age comes one down, all at once.
    #[inline(always)]
    fn drop_oldest(&mut self)
        requires kept { IsBanks self.old }
        requires some { 0 < self.old.count }
        ensures kept { IsBanks self.new }
        ensures held { self.new.held ≡ self.old.held }
        ensures ages { self.new.ages ≡ map (closed_up 0) self.old.ages }
        ensures count { self.new.count + 1 ≡ self.old.count }
    {
        close_up(&mut self.ages, 0);
        self.count -= 1;
    }

    // Adds an entry where there is room.
    fn add_youngest(&mut self, entry: Entry)
        requires kept { IsBanks self.old }
        requires room { self.old.count < TLB_SIZE }
        requires page { IsPage entry.page }
        ensures kept { IsBanks self.new }
        ensures entries { entries_of self.new ≡ entries_of self.old ++ entry ∷ [] }
    {
        let slot = slot_of(&self.ages, self.count);
        self.tags[slot] = tag_of(entry.page.base());
        self.masks[slot] = mask_of(entry.page.size());
        self.held[slot] = entry;
        self.count += 1;
    }

    /// Adds an entry as the youngest, and where there is no room takes out the oldest first.
    pub(crate) fn add(&mut self, entry: Entry)
        requires kept { IsBanks self.old }
        requires page { IsPage entry.page }
        ensures kept { IsBanks self.new }
        ensures entries { entries_of self.new ≡ filled (entries_of self.old) entry }
    {
        if usize::from(self.count) == TLB_SIZE {
            self.drop_oldest();
        }
        self.add_youngest(entry);
    }

    /// Takes out each entry that goes, where each one that does is in a slot of the set.
    pub(crate) fn drop_among<F: Fn(&Entry) -> bool>(&mut self, slots: SlotSet, goes: F)
        requires kept { IsBanks self.old }
        requires callable { F.IsAlwaysCallable goes }
        ensures kept { IsBanks self.new }
        ensures entries { (test : Entry → Bool)
            → ((e : Entry) (r : Bool) → FnReturnsAt F.Fn goes e r → r ≡ test e)
            → HasAll self.old test slots
            → entries_of self.new ≡ filter (λ e. not (test e)) (entries_of self.old) }
    {
        let mut left = slots;
        while left != 0 {
            let slot = lowest_slot(left);
            left = without_slot(left, slot);
            if self.ages[slot] < self.count && goes(&self.held[slot]) {
                self.drop_slot(slot);
            }
        }
    }

    /// Takes out all entries.
    pub(crate) fn clear(&mut self)
        requires { IsBanks self.old }
        ensures kept { IsBanks self.new }
        ensures empty { entries_of self.new ≡ [] }
    {
        self.count = 0;
    }
}
