//! A TLB in C's memory.

ghost use Rattle.std.specs.Prelude.{◌≡◌, ◌&&◌, if◌then◌else◌, length, pos, slice_get};
ghost use Rattle.std.specs.Option.{ok_or};
ghost use Rattle.melissaledge_c.specs.declared.codes.Fault.TheVariants as fault;
ghost use Rattle.melissaledge_c.specs.Codes.{code_of, scheme_of};
ghost use Rattle.melissaledge_c.specs.Requests.{asked_of, entry_of, what_of};
ghost use Rattle.melissaledge_c.specs.SizedTlbs.{entries_in, is_there, is_whole, memory, places_of};
ghost use Rattle.melissaledge_c.specs.Tlbs.{Answers, Drops, Fills, Inits, LooksUp, Replaces, Shows, Translates, dropped, fenced_by, matched_at};

use crate::codes::{Fault, scheme_of};
use crate::requests::{
    AccessAsked, EntryGiven, FenceAsked, WhatAsked, asked_of, entry_of, optional_word, what_of,
};
use crate::sized_tlb::{
    TlbHead, fence, fill, first_match, is_capacity, is_whole, places, replace, serve,
};
use crate::translations::Answer;
use pte::{Scheme, VirtAddr, tests_are_facts};
use tlb::Entry;

/// Makes an empty TLB that holds so many entries at most. Refused with `Tlb` if they are no power
/// of two from 1 to 4,096, or with `Length` if there are not twice as many slots, in this order, and
/// then nothing has changed.
#[unsafe(no_mangle)]
pub extern "C" fn melissaledge_tlb_init(
    entries: u32,
    head: &mut TlbHead,
    slots: &mut [EntryGiven],
) -> i32
    ensures { Inits entries (memory head.old slots.old) result (memory head.new slots.new) }
{
    if !is_capacity(entries) {
        return Fault::Tlb.code();
    }
    if slots.len() != 2 * entries as usize {
        return Fault::Length.code();
    }
    *head = TlbHead {
        first: 0,
        capacity: entries,
        count: 0,
    };
    0
}

/// Whether memory has a TLB, each of whose entries is of a page: 0, or else refused with `Tlb`.
#[unsafe(no_mangle)]
pub extern "C" fn melissaledge_tlb_check(head: &TlbHead, slots: &[EntryGiven]) -> i32
    ensures { result ≡ (if is_there (memory head.now slots.now)
        && is_whole (places_of (memory head.now slots.now)) then pos 0 else code_of fault.Tlb) }
{
    if head.is_tlb(slots.len()) && is_whole(places(head, slots)) {
        0
    } else {
        Fault::Tlb.code()
    }
}

/// How many entries there are. Refused with `Tlb`.
#[unsafe(no_mangle)]
pub extern "C" fn melissaledge_tlb_count(head: &TlbHead, slots: &[EntryGiven]) -> i32
    ensures { result ≡ (if is_there (memory head.now slots.now) then pos head.now.count
        else code_of fault.Tlb) }
{
    if head.is_tlb(slots.len()) {
        head.count as i32
    } else {
        Fault::Tlb.code()
    }
}

/// The entry of an age, of which the oldest has 0: 0 with the entry, or 2 if there are not so many.
/// Refused with `Tlb`.
#[unsafe(no_mangle)]
pub extern "C" fn melissaledge_tlb_entry(
    head: &TlbHead,
    slots: &[EntryGiven],
    age: u32,
    entry: &mut EntryGiven,
) -> i32
    ensures { Shows (is_there (memory head.now slots.now))
        (slice_get (places_of (memory head.now slots.now)) age) result entry.old entry.new }
{
    if !head.is_tlb(slots.len()) {
        return Fault::Tlb.code();
    }
    match places(head, slots).get(age as usize) {
        Some(found) => {
            *entry = *found;
            0
        }
        None => 2,
    }
}

// The oldest entry that matches an address for an ASID, none if the address is not canonical.
fn matched_at(places: &[EntryGiven], asid: u16, va: u64) -> Option<Entry>
    ensures { result ≡ matched_at (entries_in places.now) asid va }
{
    tests_are_facts();
    match VirtAddr::new_in(Scheme::Sv48, va) {
        Some(_) => first_match(places, asid, va),
        None => None,
    }
}

/// The oldest entry that matches an address for an ASID: 0 with the entry, or 2 if there is none,
/// which is also so if the address is not canonical. Refused with `Tlb`.
#[unsafe(no_mangle)]
pub extern "C" fn melissaledge_tlb_lookup(
    head: &TlbHead,
    slots: &[EntryGiven],
    asid: u16,
    va: u64,
    entry: &mut EntryGiven,
) -> i32
    ensures { LooksUp (memory head.now slots.now) asid va result entry.old entry.new }
{
    if !head.is_tlb(slots.len()) {
        return Fault::Tlb.code();
    }
    match matched_at(places(head, slots), asid, va) {
        Some(found) => {
            *entry = EntryGiven::of(&found);
            0
        }
        None => 2,
    }
}

/// What the oldest entry that matches an address for an ASID answers to an access: 0 with the
/// physical address or 1 with the page fault, and the entry, or 2 if there is none. Refused with
/// `Access`, `Mode` or `Tlb`, in this order.
#[unsafe(no_mangle)]
pub extern "C" fn melissaledge_tlb_translate(
    head: &TlbHead,
    slots: &[EntryGiven],
    asid: u16,
    asked: &AccessAsked,
    answer: &mut Answer,
    entry: &mut EntryGiven,
) -> i32
    ensures { Translates (memory head.now slots.now) (asked_of asked.now) asid asked.now.va result
        answer.old answer.new entry.old entry.new }
{
    tests_are_facts();
    let (access, ctx) = match asked_of(asked) {
        Ok(asked) => asked,
        Err(fault) => return fault.code(),
    };
    if !head.is_tlb(slots.len()) {
        return Fault::Tlb.code();
    }
    let Some(va) = VirtAddr::new_in(Scheme::Sv48, asked.va) else {
        return 2;
    };
    let Some(found) = first_match(places(head, slots), asid, asked.va) else {
        return 2;
    };
    *entry = EntryGiven::of(&found);
    match found.translate(va, access, ctx) {
        Ok(pa) => {
            *answer = Answer::hit(pa, &found);
            0
        }
        Err(trap) => {
            *answer = Answer::trap(&trap);
            1
        }
    }
}

/// Adds an entry as the youngest; of one too many the oldest goes. Refused with `Page` or `Tlb`, in
/// this order.
#[unsafe(no_mangle)]
pub extern "C" fn melissaledge_tlb_fill(
    head: &mut TlbHead,
    slots: &mut [EntryGiven],
    entry: &EntryGiven,
) -> i32
    ensures { Fills (entry_of entry.now) (memory head.old slots.old) result
        (memory head.new slots.new) }
{
    let entry = match entry_of(entry) {
        Ok(entry) => entry,
        Err(fault) => return fault.code(),
    };
    if !head.is_tlb(slots.len()) {
        return Fault::Tlb.code();
    }
    fill(head, slots, &entry);
    0
}

/// Drops what answers for the page of an entry in its address space, or if it is global in any, and
/// adds it as the youngest; of one too many the oldest goes. How many entries were dropped for it.
/// Refused with `Page` or `Tlb`, in this order.
#[unsafe(no_mangle)]
pub extern "C" fn melissaledge_tlb_replace(
    head: &mut TlbHead,
    slots: &mut [EntryGiven],
    entry: &EntryGiven,
) -> i32
    ensures { Replaces (entry_of entry.now) (memory head.old slots.old) result
        (memory head.new slots.new) }
{
    let entry = match entry_of(entry) {
        Ok(entry) => entry,
        Err(fault) => return fault.code(),
    };
    if !head.is_tlb(slots.len()) {
        return Fault::Tlb.code();
    }
    replace(head, slots, &entry) as i32
}

/// SFENCE.VMA (privileged manual 4.2.1) of a hart whose satp has this scheme: how many entries it
/// dropped. Refused with `Scheme` or `Tlb`, in this order.
#[unsafe(no_mangle)]
pub extern "C" fn melissaledge_tlb_fence(
    head: &mut TlbHead,
    slots: &mut [EntryGiven],
    scheme: u32,
    asked: &FenceAsked,
) -> i32
    ensures { Drops (ok_or (scheme_of scheme) fault.Scheme) (fenced_by asked.now)
        (memory head.old slots.old) result (memory head.new slots.new) }
{
    let Some(scheme) = scheme_of(scheme) else {
        return Fault::Scheme.code();
    };
    if !head.is_tlb(slots.len()) {
        return Fault::Tlb.code();
    }
    let rs1 = optional_word(asked.has_rs1, asked.rs1);
    let rs2 = optional_word(asked.has_rs2, asked.rs2);
    fence(head, slots, scheme, rs1, rs2) as i32
}

/// Drops what is asked: how many entries it dropped. Refused with `Page` or `Kind`, or with `Tlb`.
#[unsafe(no_mangle)]
pub extern "C" fn melissaledge_tlb_serve(
    head: &mut TlbHead,
    slots: &mut [EntryGiven],
    asked: &WhatAsked,
) -> i32
    ensures { Drops (what_of asked.now) dropped (memory head.old slots.old) result
        (memory head.new slots.new) }
{
    let what = match what_of(asked) {
        Ok(what) => what,
        Err(fault) => return fault.code(),
    };
    if !head.is_tlb(slots.len()) {
        return Fault::Tlb.code();
    }
    serve(head, slots, &what) as i32
}

/// What an entry answers to an access, as `Entry::translate` has it: 0 with the physical address,
/// or 1 with the page fault. Refused with `Page`, `Access`, `Mode` or `Address`, in this order, and
/// then nothing has changed.
#[unsafe(no_mangle)]
pub extern "C" fn melissaledge_entry_translate(
    entry: &EntryGiven,
    asked: &AccessAsked,
    answer: &mut Answer,
) -> i32
    ensures { Answers (entry_of entry.now) (asked_of asked.now) asked.now.va result answer.old
        answer.new }
{
    tests_are_facts();
    let entry = match entry_of(entry) {
        Ok(entry) => entry,
        Err(fault) => return fault.code(),
    };
    let (access, ctx) = match asked_of(asked) {
        Ok(asked) => asked,
        Err(fault) => return fault.code(),
    };
    let Some(va) = VirtAddr::new_in(Scheme::Sv48, asked.va) else {
        return Fault::Address.code();
    };
    match entry.translate(va, access, ctx) {
        Ok(pa) => {
            *answer = Answer::hit(pa, &entry);
            0
        }
        Err(trap) => {
            *answer = Answer::trap(&trap);
            1
        }
    }
}
