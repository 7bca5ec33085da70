//! The exports of a TLB: each once on its way, and what they refuse, with nothing changed.

use crate::requests::{AccessAsked, EntryGiven, FenceAsked, WhatAsked};
use crate::sized_tlb::TlbHead;
use crate::tlbs::{
    melissaledge_tlb_check, melissaledge_tlb_count, melissaledge_tlb_entry, melissaledge_tlb_fence,
    melissaledge_tlb_fill, melissaledge_tlb_init, melissaledge_tlb_lookup,
    melissaledge_tlb_replace, melissaledge_tlb_serve, melissaledge_tlb_translate,
};
use crate::translations::Answer;

/// An empty TLB of two entries.
const EMPTY: TlbHead = TlbHead {
    first: 0,
    capacity: 2,
    count: 0,
};

/// A page of 4 KiB at 0x1000, for address space 1: R, U, A and D.
const ENTRY: EntryGiven = EntryGiven {
    page_base: 0x1000,
    page_bytes: 0x1000,
    ppn: 5,
    asid: 1,
    flags: 0xd2,
    global: 0,
};

/// The service of that page for that address space.
const WHAT: WhatAsked = WhatAsked {
    page_base: 0x1000,
    page_bytes: 0x1000,
    asid: 1,
    has_asid: 1,
    kind: 0,
};

/// The same entry for the page at another address.
fn entry_at(page_base: u64) -> EntryGiven {
    let mut entry = ENTRY;
    entry.page_base = page_base;
    entry
}

/// SFENCE.VMA for an address and all address spaces.
fn fence_of(rs1: u64) -> FenceAsked {
    FenceAsked {
        rs1,
        rs2: 0,
        has_rs1: 1,
        has_rs2: 0,
    }
}

#[test]
fn tlb_of_a_wrong_size_is_refused(rt: HostRuntime) {
    let mut head = EMPTY;
    let mut slots = [EntryGiven::default(); 4];
    for entries in [0_u32, 3, 8192] {
        assert!(rt; melissaledge_tlb_init(entries, &mut head, &mut slots) == -22);
    }
    assert!(rt; melissaledge_tlb_init(1, &mut head, &mut slots) == -7);
    assert!(rt; head == EMPTY);
    head.capacity = 7;
    assert!(rt; melissaledge_tlb_init(2, &mut head, &mut slots) == 0);
    assert!(rt; head == EMPTY);
}

/// Of two entries the third fill drops the first, and so on; the slots are gone through twice.
#[test]
fn fill_of_a_full_tlb_drops_the_oldest(rt: HostRuntime) {
    let mut head = EMPTY;
    let mut slots = [EntryGiven::default(); 4];
    let mut found = EntryGiven::default();
    assert!(rt; melissaledge_tlb_fill(&mut head, &mut slots, &entry_at(0x1000)) == 0);
    assert!(rt; melissaledge_tlb_fill(&mut head, &mut slots, &entry_at(0x2000)) == 0);
    assert!(rt; melissaledge_tlb_lookup(&head, &slots, 1, 0x1fff, &mut found) == 0);
    assert!(rt; found == ENTRY);
    for page in 3..10_u64 {
        let base = page * 0x1000;
        assert!(rt; melissaledge_tlb_fill(&mut head, &mut slots, &entry_at(base)) == 0);
        assert!(rt; melissaledge_tlb_count(&head, &slots) == 2);
        assert!(rt; melissaledge_tlb_lookup(&head, &slots, 1, base - 0x2000, &mut found) == 2);
        assert!(rt; melissaledge_tlb_entry(&head, &slots, 0, &mut found) == 0);
        assert!(rt; found.page_base == base - 0x1000);
        assert!(rt; melissaledge_tlb_entry(&head, &slots, 1, &mut found) == 0);
        assert!(rt; found.page_base == base);
        assert!(rt; melissaledge_tlb_entry(&head, &slots, 2, &mut found) == 2);
    }
}

#[test]
fn fence_drops_by_the_scheme(rt: HostRuntime) {
    let mut head = EMPTY;
    let mut slots = [EntryGiven::default(); 4];
    let beyond = entry_at(0x40_0000_0000);
    assert!(rt; melissaledge_tlb_fill(&mut head, &mut slots, &beyond) == 0);
    assert!(rt; melissaledge_tlb_fill(&mut head, &mut slots, &ENTRY) == 0);
    let fence = fence_of(0x40_0000_0fff);
    assert!(rt; melissaledge_tlb_fence(&mut head, &mut slots, 0, &fence) == -3);
    assert!(rt; melissaledge_tlb_fence(&mut head, &mut slots, 8, &fence) == 0);
    assert!(rt; melissaledge_tlb_count(&head, &slots) == 2);
    assert!(rt; melissaledge_tlb_fence(&mut head, &mut slots, 9, &fence) == 1);
    assert!(rt; melissaledge_tlb_count(&head, &slots) == 1);
    let mut all = fence;
    all.has_rs1 = 0;
    all.has_rs2 = 1;
    all.rs2 = 2;
    assert!(rt; melissaledge_tlb_fence(&mut head, &mut slots, 8, &all) == 0);
    all.has_rs2 = 0;
    assert!(rt; melissaledge_tlb_fence(&mut head, &mut slots, 8, &all) == 1);
    assert!(rt; melissaledge_tlb_count(&head, &slots) == 0);
}

#[test]
fn service_says_how_many_it_dropped(rt: HostRuntime) {
    let mut head = EMPTY;
    let mut slots = [EntryGiven::default(); 4];
    let mut bad = WHAT;
    for _ in 0..2 {
        assert!(rt; melissaledge_tlb_fill(&mut head, &mut slots, &ENTRY) == 0);
    }
    let before = head;
    bad.kind = 3;
    assert!(rt; melissaledge_tlb_serve(&mut head, &mut slots, &bad) == -13);
    bad.kind = 0;
    bad.page_bytes = 0;
    assert!(rt; melissaledge_tlb_serve(&mut head, &mut slots, &bad) == -12);
    assert!(rt; melissaledge_tlb_fill(&mut head, &mut slots, &entry_at(0x1001)) == -12);
    assert!(rt; head == before);
    assert!(rt; melissaledge_tlb_serve(&mut head, &mut slots, &WHAT) == 2);
    assert!(rt; melissaledge_tlb_serve(&mut head, &mut slots, &WHAT) == 0);
}

/// A global page of 2 MiB takes the place of what overlaps it, and the third fill still drops the
/// oldest.
#[test]
fn replacement_drops_what_answered(rt: HostRuntime) {
    let mut head = EMPTY;
    let mut slots = [EntryGiven::default(); 4];
    let mut found = EntryGiven::default();
    let mut other = ENTRY;
    other.asid = 2;
    assert!(rt; melissaledge_tlb_replace(&mut head, &mut slots, &ENTRY) == 0);
    assert!(rt; melissaledge_tlb_replace(&mut head, &mut slots, &other) == 0);
    assert!(rt; melissaledge_tlb_replace(&mut head, &mut slots, &entry_at(0x1800)) == -12);
    assert!(rt; melissaledge_tlb_replace(&mut head, &mut slots, &other) == 1);
    assert!(rt; melissaledge_tlb_replace(&mut head, &mut slots, &entry_at(0x2000)) == 0);
    assert!(rt; melissaledge_tlb_lookup(&head, &slots, 1, 0x1000, &mut found) == 2);
    let mut wide = entry_at(0);
    wide.page_bytes = 0x20_0000;
    wide.global = 1;
    assert!(rt; melissaledge_tlb_replace(&mut head, &mut slots, &wide) == 2);
    assert!(rt; melissaledge_tlb_lookup(&head, &slots, 7, 0x2000, &mut found) == 0);
    assert!(rt; found == wide);
}

#[test]
fn tlb_translates(rt: HostRuntime) {
    let mut head = EMPTY;
    let mut slots = [EntryGiven::default(); 4];
    let mut answer = Answer::default();
    let mut found = EntryGiven::default();
    let mut asked = AccessAsked {
        va: 0x1234,
        access: 1,
        mode: 0,
        sum: 0,
        mxr: 0,
    };
    let miss = melissaledge_tlb_translate(&head, &slots, 1, &asked, &mut answer, &mut found);
    assert!(rt; miss == 2 && answer == Answer::default() && found == EntryGiven::default());
    assert!(rt; melissaledge_tlb_fill(&mut head, &mut slots, &ENTRY) == 0);
    let hit = melissaledge_tlb_translate(&head, &slots, 1, &asked, &mut answer, &mut found);
    assert!(rt; hit == 0 && answer.pa == 0x5234 && found == ENTRY);
    asked.access = 2;
    let trap = melissaledge_tlb_translate(&head, &slots, 1, &asked, &mut answer, &mut found);
    assert!(rt; trap == 1 && answer.cause == 15 && answer.why == 6);
    asked.mode = 2;
    let mode = melissaledge_tlb_translate(&head, &slots, 1, &asked, &mut answer, &mut found);
    assert!(rt; mode == -5 && answer.cause == 15);
}

/// Numbers that are no TLB's: more entries than it can hold, and slots that are not there.
#[test]
fn broken_tlb_is_refused(rt: HostRuntime) {
    let mut slots = [ENTRY; 4];
    let mut found = EntryGiven::default();
    for (first, capacity, count) in [
        (0_u64, 2_u32, 3_u32),
        (3, 2, 2),
        (0, 3, 0),
        (u64::MAX, 2, 1),
    ] {
        let mut head = TlbHead {
            first,
            capacity,
            count,
        };
        let before = head;
        assert!(rt; melissaledge_tlb_check(&head, &slots) == -22);
        assert!(rt; melissaledge_tlb_count(&head, &slots) == -22);
        assert!(rt; melissaledge_tlb_entry(&head, &slots, 0, &mut found) == -22);
        assert!(rt; melissaledge_tlb_lookup(&head, &slots, 1, 0x1000, &mut found) == -22);
        assert!(rt; melissaledge_tlb_fill(&mut head, &mut slots, &ENTRY) == -22);
        assert!(rt; melissaledge_tlb_fence(&mut head, &mut slots, 8, &fence_of(0)) == -22);
        assert!(rt; melissaledge_tlb_serve(&mut head, &mut slots, &WHAT) == -22);
        assert!(rt; head == before && found == EntryGiven::default());
    }
    let mut head = EMPTY;
    assert!(rt; melissaledge_tlb_fill(&mut head, &mut slots, &ENTRY) == 0);
    assert!(rt; melissaledge_tlb_check(&head, &slots) == 0);
    slots[0].page_bytes = 0x3000;
    assert!(rt; melissaledge_tlb_check(&head, &slots) == -22);
    assert!(rt; melissaledge_tlb_lookup(&head, &slots, 1, 0x1000, &mut found) == 2);
}
