//! What the public calls give beside an answer: the page that is found, and the words that are read,
//! over three frames in memory. Walks that are fed word by word, and those of Sv48, stand in the
//! modules below.

ghost use Rattle.std.specs.Prelude.{◌≡◌};

use crate::common::{USER, assert_row};
use pte::Access::{Fetch, Load, Store};
use pte::PageSize::{Gib1, Kib4, Mib2};
use pte::{Access, Kind, PageSize, Pte};
use std::cell::Cell;
use walk::Why::{Denied, NotAccessed, NotDirty};
use walk::{Found, Trap, Why, Words, flags_fault, translate};

mod fed;
mod sv48;

/// Three frames at 0x80000 to 0x80002: a root and a middle table whose word at index 2 is not 0,
/// and a low table whose word at index 3 is not. The loads are counted.
#[derive(Drop)]
struct Memory {
    root: u64,
    middle: u64,
    low: u64,
    loads: Cell<u32>,
}

impl Words for Memory {
    ghost use Rattle.walk.specs.Frames.{three_frames};

    ghost words = { λ memory ppn index. three_frames memory.root memory.middle memory.low ppn index };

    fn word(&self, ppn: u64, index: u16) -> Option<u64> {
        self.loads.set(self.loads.get().wrapping_add(1));
        match ppn {
            0x8_0000 => Some(if index == 2 { self.root } else { 0 }),
            0x8_0001 => Some(if index == 2 { self.middle } else { 0 }),
            0x8_0002 => Some(if index == 3 { self.low } else { 0 }),
            _ => None,
        }
    }
}

/// The word of a pointer to 0x80001, of one to 0x80002, and of a leaf: PPN 0x12345 with R, W, U, A
/// and D.
const MIDDLE: u64 = 0x2000_0401;

const LOW: u64 = 0x2000_0801;

const LEAF: u64 = 0x48D_14D7;

const WORDS: [u64; 3] = [MIDDLE, LOW, LEAF];

const ROOT: u64 = 0x8_0000;

/// VPN 2, 2 and 3, offset 0xABC.
const VA: u64 = 0x8040_3ABC;

fn memory_of([root, middle, low]: [u64; 3]) -> Memory {
    Memory {
        root,
        middle,
        low,
        loads: Cell::new(0),
    }
}

/// What is printed of an answer: the physical address, the size, and whether it is global; or the
/// cause of a trap, and why.
type Answer = Result<(u64, PageSize, bool), (u8, Why)>;

/// The page of 4 KiB to which the leaf maps VA, and the same where it is global.
const SMALL: Answer = Ok((0x1234_5ABC, Kib4, false));

const SMALL_GLOBAL: Answer = Ok((0x1234_5ABC, Kib4, true));

/// The pages of 2 MiB, of PPN 0x12200, and of 1 GiB, of PPN 0x40000, that have VA.
const MIB: Answer = Ok((0x1220_3ABC, Mib2, false));

const GIB: Answer = Ok((0x4040_3ABC, Gib1, false));

fn answer_of(found: Result<Found, Trap>) -> Answer {
    match found {
        Ok(found) => Ok((found.pa, found.page.size(), found.global)),
        Err(trap) => Err((trap.cause, trap.why)),
    }
}

/// Whether what is found is a page that begins there and is mapped to this PPN.
fn is_page(found: Result<Found, Trap>, base: u64, ppn: u64) -> bool {
    match found {
        Ok(found) => found.page.base().get() == base && found.ppn == ppn,
        Err(_) => false,
    }
}

/// The words of the three frames, and the base and the PPN of the page that a load finds.
const FOUND: [([u64; 3], u64, u64); 3] = [
    (WORDS, 0x8040_3000, 0x1_2345),
    ([MIDDLE, 0x488_00D7, LEAF], 0x8040_0000, 0x1_2200),
    ([0x1000_00D7, LOW, LEAF], 0x8000_0000, 0x4_0000),
];

/// The page that is found begins at a multiple of its size.
#[test]
fn pages_that_are_found(rt: HostRuntime) {
    for (number, (words, base, ppn)) in FOUND.iter().enumerate() {
        let found = translate(&memory_of(*words), ROOT, VA, Access::Load, USER);
        assert_row(&rt, number, is_page(found, *base, *ppn));
    }
}

/// The words of the three frames, an address, and how many words a load from there reads.
const LOADS: [([u64; 3], u64, u32); 6] = [
    (WORDS, VA, 3),
    ([MIDDLE, 0x488_00D7, LEAF], VA, 2),
    ([0x1000_00D7, LOW, LEAF], VA, 1),
    ([MIDDLE, LOW, 0x2000_0401], VA, 3),
    ([0x2000_0C01, LOW, LEAF], VA, 2),
    (WORDS, 0x40_0000_0000, 0),
];

fn loads_of(words: [u64; 3], va: u64) -> u32 {
    let memory = memory_of(words);
    let _ = translate(&memory, ROOT, va, Access::Load, USER);
    memory.loads.get()
}

/// A walk reads one word a level and no more, which no clause says.
#[test]
fn loads_are_counted(rt: HostRuntime) {
    for (number, (words, va, want)) in LOADS.iter().enumerate() {
        assert_row(&rt, number, loads_of(*words, *va) == *want);
    }
}

/// The low byte of a leaf, an access from user mode, and why it is refused.
const BY_FLAGS: [(u64, Access, Option<Why>); 6] = [
    (0x13, Fetch, Some(Denied)),
    (0x13, Load, Some(NotAccessed)),
    (0x53, Load, None),
    (0x53, Store, Some(Denied)),
    (0x57, Store, Some(NotDirty)),
    (0xD7, Store, None),
];

/// Whether the flags of a leaf refuse an access so.
fn is_refused(word: u64, access: Access, want: Option<Why>) -> bool {
    match Pte(word).kind() {
        Kind::Leaf { flags, .. } => flags_fault(flags, access, USER) == want,
        _ => false,
    }
}

/// What flags alone refuse, as a TLB entry answers: the words are leaves with V, R and U, then with
/// A, W and D too.
#[test]
fn flags_refuse(rt: HostRuntime) {
    for (number, (word, access, want)) in BY_FLAGS.iter().enumerate() {
        assert_row(&rt, number, is_refused(*word, *access, *want));
    }
}

/// Each of the worked rows is a law that a caller gets.
#[test]
fn worked_rows_are_laws(_rt: HostRuntime) {
    walk::worked_pages();
    walk::worked_permissions();
    walk::worked_accessed_and_dirty();
    walk::worked_orders_of_faults();
    walk::worked_words();
    walk::worked_global_bits();
    walk::worked_ends_of_paths();
    walk::worked_pages_of_sv48();
    walk::worked_faults_of_sv48();
    walk::worked_halves_of_sv48();
}
