//! Walks of Sv48 over four frames in memory, and the ends of the halves of each scheme.

ghost use Rattle.std.specs.Prelude.{◌≡◌};

use super::{Answer, GIB, LEAF, LOW, MIB, MIDDLE, ROOT, SMALL, SMALL_GLOBAL, answer_of, is_page};
use crate::common::{USER, assert_row};
use pte::PageSize::{Gib512, Kib4};
use pte::Scheme::{Sv39, Sv48};
use pte::{Access, Scheme};
use std::cell::Cell;
use walk::Why::{Invalid, Misaligned, NotCanonical, Outside, Reserved, TooDeep};
use walk::{Words, translate_in};

/// Four frames at 0x80000 to 0x80003, for Sv48: a root whose word at index 1 is not 0, two tables
/// whose word at index 2 is not, and a low table whose word at index 3 is not. The loads are
/// counted.
#[derive(Drop)]
struct FourFrames {
    root: u64,
    upper: u64,
    middle: u64,
    low: u64,
    loads: Cell<u32>,
}

impl Words for FourFrames {
    ghost use Rattle.walk.specs.Frames.{four_frames};

    ghost words = { λ memory ppn index. four_frames memory.root memory.upper memory.middle memory.low ppn
        index };

    fn word(&self, ppn: u64, index: u16) -> Option<u64> {
        self.loads.set(self.loads.get().wrapping_add(1));
        match ppn {
            0x8_0000 => Some(if index == 1 { self.root } else { 0 }),
            0x8_0001 => Some(if index == 2 { self.upper } else { 0 }),
            0x8_0002 => Some(if index == 2 { self.middle } else { 0 }),
            0x8_0003 => Some(if index == 3 { self.low } else { 0 }),
            _ => None,
        }
    }
}

/// The word of a pointer to 0x80003.
const LOWEST: u64 = 0x2000_0C01;

/// Pointers to 0x80001, 0x80002 and 0x80003, and a leaf: PPN 0x12345 with R, W, U, A and D.
pub const DEEP_WORDS: [u64; 4] = [MIDDLE, LOW, LOWEST, LEAF];

/// VPN 1, 2, 2 and 3, offset 0xABC.
pub const DEEP_VA: u64 = 0x80_8040_3ABC;

fn four_frames([root, upper, middle, low]: [u64; 4]) -> FourFrames {
    FourFrames {
        root,
        upper,
        middle,
        low,
        loads: Cell::new(0),
    }
}

/// Whether a load by U-mode from an address gives this, and reads so many words.
fn is_loaded(scheme: Scheme, words: [u64; 4], va: u64, want: Answer, loads: u32) -> bool {
    let memory = four_frames(words);
    let found = translate_in(scheme, &memory, ROOT, va, Access::Load, USER);
    answer_of(found) == want && memory.loads.get() == loads
}

/// The words of the four frames, an address, what a load in Sv48 gives there, and how many words it
/// reads.
type Sv48Row = ([u64; 4], u64, Answer, u32);

/// A page of each size of Sv48, by one load a level; words that end a walk of Sv48; and the last
/// pages of 4 KiB and of 512 GiB.
const OF_SV48: [Sv48Row; 16] = [
    (DEEP_WORDS, DEEP_VA, SMALL, 4),
    ([0x2000_0421, LOW, LOWEST, LEAF], DEEP_VA, SMALL_GLOBAL, 4),
    ([MIDDLE, LOW, 0x488_00D7, 0], DEEP_VA, MIB, 3),
    ([MIDDLE, 0x1000_00D7, LOWEST, 0], DEEP_VA, GIB, 2),
    (
        [0x40_0000_00D7, LOW, LOWEST, LEAF],
        DEEP_VA,
        Ok((0x100_8040_3ABC, Gib512, false)),
        1,
    ),
    (
        [0x40_0000_04D7, LOW, LOWEST, LEAF],
        DEEP_VA,
        Err((13, Misaligned)),
        1,
    ),
    (
        [0x50_0000_00D7, LOW, LOWEST, LEAF],
        DEEP_VA,
        Err((13, Misaligned)),
        1,
    ),
    (
        [0x2000_1001, LOW, LOWEST, LEAF],
        DEEP_VA,
        Err((5, Outside)),
        2,
    ),
    (
        [MIDDLE, LOW, LOWEST, MIDDLE],
        DEEP_VA,
        Err((13, TooDeep)),
        4,
    ),
    // root to itself at each level, and then twice
    (
        [0x2000_0001, LOW, LOWEST, LEAF],
        0x80_4020_1ABC,
        Err((13, TooDeep)),
        4,
    ),
    (
        [0x2000_0001, LOW, LOWEST, LEAF],
        DEEP_VA,
        Err((13, Invalid)),
        2,
    ),
    // all ones, and all ones but V
    (
        [u64::MAX, LOW, LOWEST, LEAF],
        DEEP_VA,
        Err((13, Reserved)),
        1,
    ),
    (
        [u64::MAX - 1, LOW, LOWEST, LEAF],
        DEEP_VA,
        Err((13, Invalid)),
        1,
    ),
    // the highest table
    (
        [0x3F_FFFF_FFFF_FC01, LOW, LOWEST, LEAF],
        DEEP_VA,
        Err((5, Outside)),
        2,
    ),
    // the highest page of 4 KiB, and of 512 GiB
    (
        [MIDDLE, LOW, LOWEST, 0x3F_FFFF_FFFF_FCD7],
        0x80_8040_3FFF,
        Ok((0xFF_FFFF_FFFF_FFFF, Kib4, false)),
        4,
    ),
    (
        [0x3F_FFE0_0000_00D7, LOW, LOWEST, LEAF],
        0xFF_FFFF_FFFF,
        Ok((0xFF_FFFF_FFFF_FFFF, Gib512, false)),
        1,
    ),
];

#[test]
fn loads_of_sv48(rt: HostRuntime) {
    for (number, (words, va, want, loads)) in OF_SV48.iter().enumerate() {
        let is_right = is_loaded(Scheme::Sv48, *words, *va, *want, *loads);
        assert_row(&rt, number, is_right);
    }
}

/// A scheme, an address, what a load of the deep words gives there, and how many words it reads.
type HalfRow = (Scheme, u64, Answer, u32);

const HALVES: [HalfRow; 9] = [
    (Sv39, DEEP_VA, Err((13, NotCanonical)), 0),
    (Sv39, 0x3F_FFFF_FFFF, Err((13, Invalid)), 1),
    (Sv39, 0x40_0000_0000, Err((13, NotCanonical)), 0),
    (Sv48, 0x40_0000_0000, Err((13, Invalid)), 1),
    (Sv48, 0x7FFF_FFFF_FFFF, Err((13, Invalid)), 1),
    (Sv48, 0x8000_0000_0000, Err((13, NotCanonical)), 0),
    (Sv48, 0xFFFF_7FFF_FFFF_FFFF, Err((13, NotCanonical)), 0),
    (Sv48, 0xFFFF_8000_0000_0000, Err((13, Invalid)), 1),
    (Sv39, 0xFFFF_8000_0000_0000, Err((13, NotCanonical)), 0),
];

/// The ends of the two halves of each scheme: an address that is not canonical is refused before
/// any word is read.
#[test]
fn halves_of_each_scheme(rt: HostRuntime) {
    for (number, (scheme, va, want, loads)) in HALVES.iter().enumerate() {
        let is_right = is_loaded(*scheme, DEEP_WORDS, *va, *want, *loads);
        assert_row(&rt, number, is_right);
    }
}

/// The 512 GiB that are found begin at a multiple of their size.
#[test]
fn widest_page_that_is_found(rt: HostRuntime) {
    let memory = four_frames([0x40_0000_00D7, LOW, LOWEST, LEAF]);
    let found = translate_in(Scheme::Sv48, &memory, ROOT, DEEP_VA, Access::Store, USER);
    assert!(rt; is_page(found, 0x80_0000_0000, 0x1000_0000));
}
