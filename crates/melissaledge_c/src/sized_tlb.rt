//! A TLB of a chosen size, in memory of C's.

ghost use Rattle.std.specs.Prelude.{Bool, ◌≡◌, ◌+◌, ◌-◌, ◌<◌, ◌≤◌, ◌++◌, ◌∷◌, [], filter, find, length, pos, take, false, true};
ghost use Rattle.std.specs.Fn.{FnReturnsAt};
ghost use Rattle.std.specs.Option.{is_some};
ghost use Rattle.pte.specs.Address.{holds};
ghost use Rattle.tlb.specs.Entries.{first_match, is_match};
ghost use Rattle.tlb.specs.Fence.{fenced, is_fenced, is_of_address, is_of_space};
ghost use Rattle.tlb.specs.Service.{after_service, is_dropped};
ghost use Rattle.melissaledge_c.specs.declared.requests.EntryGiven.{EntryGiven as Given};
ghost use Rattle.melissaledge_c.specs.SizedTlbs.{entries_in, entries_of, entry_in, fails, filled_to, is_capacity, is_replaced, is_tlb, is_whole, memory, passes, places};
ghost use Rattle.melissaledge_c.specs.Tlbs.{Dropped, Filled, Replaced};

use crate::codes::{is_set, page_of};
use crate::requests::{EntryGiven, entry_of};
use pte::{ASID_BITS, Scheme, VirtAddr, What, tests_are_facts};
use tlb::Entry;

/// How many entries a TLB holds at most.
pub const MOST_ENTRIES: u32 = 4096;

/// The numbers at the head of a TLB: `struct mle_tlb` of C. Behind them stand its slots, twice as
/// many as the entries that it holds at most; those in use stand in a row, by age.
#[repr(C)]
#[derive(Clone, Copy, PartialEq, Eq)]
pub struct TlbHead {
    /// The slot of the oldest entry.
    pub first: u64,
    /// How many entries the TLB holds at most: a power of two up to 4,096.
    pub capacity: u32,
    /// How many entries there are.
    pub count: u32,
}

/// Whether a TLB can hold so many entries: a power of two from 1 to 4,096.
#[inline(always)]
pub(crate) fn is_capacity(entries: u32) -> bool
    ensures { result ≡ is_capacity entries }
{
    entries.is_power_of_two() && entries <= MOST_ENTRIES
}

impl TlbHead {
    /// Whether these are the numbers of a TLB with so many slots.
    #[inline(always)]
    pub(crate) fn is_tlb(&self, slots: usize) -> bool
        ensures { result ≡ is_tlb self.now slots }
    {
        is_capacity(self.capacity)
            && slots == 2 * self.capacity as usize
            && self.count <= self.capacity
            && self.first <= (slots - self.count as usize) as u64
    }
}

/// The slots in use.
#[inline(always)]
pub(crate) fn places<'a>(head: &TlbHead, slots: &'a [EntryGiven]) -> &'a [EntryGiven]
    requires { is_tlb head.now (length slots.now) ≡ true }
    ensures { result.now ≡ places head.now slots.now }
{
    let first = head.first as usize;
    &slots[first..first + head.count as usize]
}

// The numbers stand for an entry of the ASID, or a global one, whose page has the address.
#[inline(always)]
fn is_of_both(given: &EntryGiven, asid: u16, va: u64) -> bool
    ensures { result ≡ passes (is_match asid va) (entry_in given.now) }
{
    (is_set(given.global) || given.asid == asid)
        && given.page_base <= va
        && va - given.page_base < given.page_bytes
        && page_of(given.page_base, given.page_bytes).is_ok()
}

// Whether one comparison tells that the address is none of the page: one before a page is far past
// its end.
#[inline(always)]
fn is_far(given: &EntryGiven, va: u64) -> bool
    ensures { result ≡ true → passes (λ e. holds e.page va) (entry_in given.now) ≡ false }
{
    va.wrapping_sub(given.page_base) >= given.page_bytes
}

// The numbers stand for an entry that matches the address.
#[inline(always)]
fn is_match(given: &EntryGiven, asid: u16, va: u64) -> bool
    ensures { result ≡ passes (is_match asid va) (entry_in given.now) }
{
    if is_far(given, va) {
        return false;
    }
    is_of_both(given, asid, va)
}

// The oldest place whose entry matches.
#[inline(always)]
fn matching_place(places: &[EntryGiven], asid: u16, va: u64) -> Option<EntryGiven>
    ensures { result ≡ find (λ given. passes (is_match asid va) (entry_in given)) places.now }
{
    places
        .iter()
        .copied()
        .find(|given| is_match(given, asid, va))
}

/// The oldest entry that matches.
#[inline(always)]
pub(crate) fn first_match(places: &[EntryGiven], asid: u16, va: u64) -> Option<Entry>
    ensures { result ≡ first_match (entries_in places.now) asid va }
{
    let Some(given) = matching_place(places, asid, va) else {
        return None;
    };
    entry_of(&given).ok()
}

// Moves what stays to the front, in the same order, and counts it.
fn keep<F: Fn(&EntryGiven) -> bool>(window: &mut [EntryGiven], stays: F) -> usize
    requires { F.IsAlwaysCallable stays }
    ensures len { length window.new ≡ length window.old }
    ensures count { result ≤ length window.old }
    ensures kept { (test : Given → Bool)
        → ((given : Given) (r : Bool) → FnReturnsAt F.Fn stays given r → r ≡ test given)
        → take result window.new ≡ filter test window.old }
{
    let mut kept = 0_usize;
    for at in 0..window.len() {
        let given = window[at];
        if stays(&given) {
            window[kept] = given;
            kept += 1;
        }
    }
    kept
}

// Takes out the places that do not stay, and says how many they were.
fn drop_places<F: Fn(&EntryGiven) -> bool>(
    head: &mut TlbHead,
    slots: &mut [EntryGiven],
    stays: F,
) -> u32
    requires callable { F.IsAlwaysCallable stays }
    requires tlb { is_tlb head.old (length slots.old) ≡ true }
    ensures tlb { is_tlb head.new (length slots.new) ≡ true }
    ensures capacity { head.new.capacity ≡ head.old.capacity }
    ensures dropped { result ≡ head.old.count - head.new.count }
    ensures most { result ≤ MOST_ENTRIES }
    ensures places { (test : Given → Bool)
        → ((given : Given) (r : Bool) → FnReturnsAt F.Fn stays given r → r ≡ test given)
        → places head.new slots.new ≡ filter test (places head.old slots.old) }
{
    let first = head.first as usize;
    let kept = keep(&mut slots[first..first + head.count as usize], stays) as u32;
    let dropped = head.count - kept;
    head.count = kept;
    dropped
}

// Adds to the places where there is room behind them.
fn push(head: &mut TlbHead, slots: &mut [EntryGiven], given: EntryGiven)
    requires tlb { is_tlb head.old (length slots.old) ≡ true }
    requires below { head.old.count < head.old.capacity }
    requires room { head.old.first + head.old.count < length slots.old }
    ensures tlb { is_tlb head.new (length slots.new) ≡ true }
    ensures places { places head.new slots.new ≡ places head.old slots.old ++ given ∷ [] }
    ensures capacity { head.new.capacity ≡ head.old.capacity }
{
    slots[head.first as usize + head.count as usize] = given;
    head.count += 1;
}

// Moves the places to the first slots.
fn move_down(head: &mut TlbHead, slots: &mut [EntryGiven])
    requires { is_tlb head.old (length slots.old) ≡ true }
    ensures len { length slots.new ≡ length slots.old }
    ensures head { head.new ≡ record head.old { first = 0 } }
    ensures places { places head.new slots.new ≡ places head.old slots.old }
{
    let first = head.first as usize;
    slots.copy_within(first..first + head.count as usize, 0);
    head.first = 0;
}

// Adds to the places, and of one too many lets the oldest go.
fn add(head: &mut TlbHead, slots: &mut [EntryGiven], given: EntryGiven)
    requires { is_tlb head.old (length slots.old) ≡ true }
    ensures tlb { is_tlb head.new (length slots.new) ≡ true }
    ensures places { places head.new slots.new
        ≡ filled_to head.old.capacity (places head.old slots.old) given }
    ensures capacity { head.new.capacity ≡ head.old.capacity }
{
    if head.count == head.capacity {
        head.first += 1;
        head.count -= 1;
    }
    if head.first as usize + head.count as usize == slots.len() {
        move_down(head, slots);
    }
    push(head, slots, given);
}

/// Adds an entry as the youngest, and of one too many lets the oldest go.
pub(crate) fn fill(head: &mut TlbHead, slots: &mut [EntryGiven], entry: &Entry)
    requires { is_tlb head.old (length slots.old) ≡ true }
    ensures { Filled (memory head.old slots.old) entry.now (memory head.new slots.new) }
{
    entry.page.recall();
    add(head, slots, EntryGiven::of(entry));
}

// The numbers stand for an entry.
fn is_entry(given: &EntryGiven) -> bool
    ensures { result ≡ is_some (entry_in given.now) }
{
    entry_of(given).is_ok()
}

/// Whether each place stands for an entry.
pub(crate) fn is_whole(places: &[EntryGiven]) -> bool
    ensures { result ≡ is_whole places.now }
{
    places.iter().all(is_entry)
}

// The entry is not global, and of the ASID of rs2.
fn is_of_space(rs2: u64, entry: &Entry) -> bool
    ensures { result ≡ is_of_space rs2 entry.now }
{
    !entry.global && u64::from(entry.asid) == rs2 % (1 << ASID_BITS)
}

// The address is canonical in the scheme, and one of the entry's page.
fn is_of_address(scheme: Scheme, rs1: u64, entry: &Entry) -> bool
    ensures { result ≡ is_of_address scheme rs1 entry.now }
{
    tests_are_facts();
    match VirtAddr::new_in(scheme, rs1) {
        Some(va) => entry.page.contains(va),
        None => false,
    }
}

// The fence takes the entry out.
fn is_fenced(scheme: Scheme, rs1: Option<u64>, rs2: Option<u64>, entry: &Entry) -> bool
    ensures { result ≡ is_fenced scheme rs1 rs2 entry.now }
{
    match (rs1, rs2) {
        (None, None) => true,
        (None, Some(rs2)) => is_of_space(rs2, entry),
        (Some(rs1), None) => is_of_address(scheme, rs1, entry),
        (Some(rs1), Some(rs2)) => is_of_address(scheme, rs1, entry) && is_of_space(rs2, entry),
    }
}

// The service takes the entry out.
fn is_dropped(what: &What, entry: &Entry) -> bool
    ensures { result ≡ is_dropped what.now entry.now }
{
    match what {
        What::PageOf(page, None) => page.overlaps(&entry.page),
        What::PageOf(page, Some(asid)) => {
            page.overlaps(&entry.page) && is_of_space(u64::from(*asid), entry)
        }
        What::SpaceOf(asid) => is_of_space(u64::from(*asid), entry),
        What::All => true,
    }
}

// The place stays: its entry is not taken out by the fence.
fn stays_fenced(scheme: Scheme, rs1: Option<u64>, rs2: Option<u64>, given: &EntryGiven) -> bool
    ensures { result ≡ fails (is_fenced scheme rs1 rs2) given.now }
{
    match rs1 {
        Some(va) if is_far(given, va) => true,
        _ => is_kept(scheme, rs1, rs2, given),
    }
}

// The place stays: its entry is not taken out by the fence.
fn is_kept(scheme: Scheme, rs1: Option<u64>, rs2: Option<u64>, given: &EntryGiven) -> bool
    ensures { result ≡ fails (is_fenced scheme rs1 rs2) given.now }
{
    match entry_of(given) {
        Ok(entry) => !is_fenced(scheme, rs1, rs2, &entry),
        Err(_) => true,
    }
}

// The place stays: its entry is not taken out by the service.
fn stays_served(what: &What, given: &EntryGiven) -> bool
    ensures { result ≡ fails (is_dropped what.now) given.now }
{
    match entry_of(given) {
        Ok(entry) => !is_dropped(what, &entry),
        Err(_) => true,
    }
}

/// SFENCE.VMA: takes out what it names, and says how many entries they were.
pub(crate) fn fence(
    head: &mut TlbHead,
    slots: &mut [EntryGiven],
    scheme: Scheme,
    rs1: Option<u64>,
    rs2: Option<u64>,
) -> u32
    requires { is_tlb head.old (length slots.old) ≡ true }
    ensures most { result ≤ MOST_ENTRIES }
    ensures drops { Dropped (memory head.old slots.old)
        (fenced scheme (entries_of (memory head.old slots.old)) rs1 rs2) (pos result)
        (memory head.new slots.new) }
{
    drop_places(head, slots, |given| stays_fenced(scheme, rs1, rs2, given))
}

/// The service of a request: takes out what it names, and says how many entries they were.
pub(crate) fn serve(head: &mut TlbHead, slots: &mut [EntryGiven], what: &What) -> u32
    requires { is_tlb head.old (length slots.old) ≡ true }
    ensures most { result ≤ MOST_ENTRIES }
    ensures drops { Dropped (memory head.old slots.old)
        (after_service (entries_of (memory head.old slots.old)) what.now) (pos result)
        (memory head.new slots.new) }
{
    drop_places(head, slots, |given| stays_served(what, given))
}

// The entry answers for the page of a new one, in its address space, or if that is global in any.
fn is_replaced(new: &Entry, entry: &Entry) -> bool
    ensures { result ≡ is_replaced new.now entry.now }
{
    let is_same_space = new.global || entry.global || entry.asid == new.asid;
    new.page.overlaps(&entry.page) && is_same_space
}

// The place stays: its entry is not one that the new one replaces.
fn stays_beside(new: &Entry, given: &EntryGiven) -> bool
    ensures { result ≡ fails (is_replaced new.now) given.now }
{
    match entry_of(given) {
        Ok(entry) => !is_replaced(new, &entry),
        Err(_) => true,
    }
}

/// Takes out what answers for the page of an entry, adds it, and says how many entries were taken
/// out for it; where there is still one too many, the oldest goes too.
pub(crate) fn replace(head: &mut TlbHead, slots: &mut [EntryGiven], entry: &Entry) -> u32
    requires { is_tlb head.old (length slots.old) ≡ true }
    ensures most { result ≤ MOST_ENTRIES }
    ensures replaces { Replaced (memory head.old slots.old) entry.now (pos result)
        (memory head.new slots.new) }
{
    let dropped = drop_places(head, slots, |given| stays_beside(entry, given));
    fill(head, slots, entry);
    dropped
}
