//! The same under Sv48, and pages of Sv48 under Sv39.

use super::{
    Base, Call, EditRow, Layout, ONE_HART, OWN, RGAD, RGAD_4_0000, RGAD_300, RUAD, RUAD_4_0000,
    RUAD_100, RUAD_300, RUAD_1000_0000, RWGAD_4_0000, RWUAD_1000_0000, SMALL, TOP_GIB, TWO_HARTS,
    W, WINDOW, WordRow, edits, is_changed, made, opened, words,
};
use crate::common::{SUPER, USER, assert_row, page};
use crate::edits::Call::{Map, Protect, Unmap};
use pte::{Access, Ctx, Page, PageSize, Scheme};
use spaces::MapFault::{
    AlreadyMapped, BadFlags, LeafInWay, Misaligned, NoFrame, NotMapped, TableInWay, WrongHalf,
    WrongSize,
};
use spaces::{MapFault, Memory, Place};
use std::process::Abort;
use walk::translate_in;

/// The default configuration for Sv48: the window's table is 0x80000, the root 0x80001, and spares
/// begin at 0x80002.
const OF_SV48: Layout = Layout {
    scheme: Scheme::Sv48,
    ..ONE_HART
};

/// What a load reaches: the physical address, the size, and whether it is global.
type Reached = Option<(u64, PageSize, bool)>;

/// Whether a load from the root of space 0 reaches this.
fn is_reached(memory: &Memory, va: u64, ctx: Ctx, reached: Reached) -> bool {
    if !memory.has(Place::Space(0)) {
        return false;
    }
    let root = memory.root(0);
    match translate_in(memory.scheme(), memory, root, va, Access::Load, ctx) {
        Ok(found) => reached == Some((found.pa, found.page.size(), found.global)),
        Err(_) => reached.is_none(),
    }
}

/// Addresses, and what a load reaches there.
fn loads(rt: &impl Abort, memory: &Memory, ctx: Ctx, rows: &[(u64, Reached)]) {
    for (number, (va, reached)) in rows.iter().enumerate() {
        assert_row(rt, number, is_reached(memory, *va, ctx, *reached));
    }
}

const FIRST_WORDS: [WordRow; 3] = [
    (0x8_0001, 511, Some(0x2000_0021)),
    (0x8_0001, 510, Some(0)),
    (0x8_0000, 511, Some(0)),
];

/// The first pages of 512 GiB, and those of the slots 255, 256 and 511 of a root of Sv48.
const FIRST: Base = (0, PageSize::Gib512);

const SLOT_255: Base = (0x7F80_0000_0000, PageSize::Gib512);

const SLOT_256: Base = (0xFFFF_8000_0000_0000, PageSize::Gib512);

const SLOT_511: Base = (0xFFFF_FF80_0000_0000, PageSize::Gib512);

const WIDEST: Base = (0x80_0000_0000, PageSize::Gib512);

const INSIDE: Base = (0x80_4000_0000, PageSize::Gib1);

const WORKED: [EditRow; 12] = [
    (0, OWN, SMALL, RUAD_100, Ok((0x8_0001, 0, 0x2000_0801))),
    (0, OWN, SMALL, RUAD_100, Ok((0x8_0002, 0, 0x2000_0C01))),
    (0, OWN, SMALL, RUAD_100, Ok((0x8_0003, 0, 0x2000_1001))),
    (0, OWN, SMALL, RUAD_100, Ok((0x8_0004, 1, 0x4_00D3))),
    (0, OWN, SMALL, RUAD_100, Err(AlreadyMapped)),
    (0, OWN, WIDEST, Map(0x1000_0001, RUAD | W), Err(Misaligned)),
    (0, OWN, WIDEST, Map(0x1400_0000, RUAD | W), Err(Misaligned)),
    (
        0,
        OWN,
        WIDEST,
        RWUAD_1000_0000,
        Ok((0x8_0001, 1, 0x40_0000_00D7)),
    ),
    (0, OWN, INSIDE, RUAD_4_0000, Err(LeafInWay)),
    (0, OWN, INSIDE, Unmap, Err(WrongSize)),
    (0, OWN, FIRST, RWUAD_1000_0000, Err(TableInWay)),
    (0, OWN, FIRST, Unmap, Err(WrongSize)),
];

/// Addresses, and what a load from user mode reaches there.
const REACHED: [(u64, Reached); 4] = [
    (0x1004, Some((0x10_0004, PageSize::Kib4, false))),
    (0x2004, None),
    (
        0x80_8040_3ABC,
        Some((0x100_8040_3ABC, PageSize::Gib512, false)),
    ),
    (0x100_0000_0000, None),
];

const TAKEN_AWAY: [EditRow; 4] = [
    (
        0,
        OWN,
        WIDEST,
        Protect(RUAD),
        Ok((0x8_0001, 1, 0x40_0000_00D3)),
    ),
    (0, OWN, WIDEST, Unmap, Ok((0x8_0001, 1, 0))),
    (0, OWN, WIDEST, Unmap, Err(NotMapped)),
    (0, OWN, SMALL, Unmap, Ok((0x8_0004, 1, 0))),
];

/// Under Sv48 a page of 4 KiB takes three tables and a leaf, 512 GiB one leaf in the root.
#[test]
fn table_of_words_of_sv48(rt: HostRuntime) {
    let mut memory = opened(&rt, rt.alloc(), &OF_SV48);
    assert!(rt; memory.scheme() == Scheme::Sv48);
    words(&rt, &memory, &FIRST_WORDS);
    edits(&rt, &mut memory, &WORKED);
    loads(&rt, &memory, USER, &REACHED);
    edits(&rt, &mut memory, &TAKEN_AWAY);
}

const IN_SLOT: Base = (0xFFFF_FF80_0000_1000, PageSize::Kib4);

const BELOW_SLOT: Base = (0xFFFF_FF7F_C000_0000, PageSize::Gib1);

const OF_THE_WINDOW: [EditRow; 8] = [
    (
        0,
        WINDOW,
        TOP_GIB,
        RWGAD_4_0000,
        Ok((0x8_0000, 511, 0x1000_00E7)),
    ),
    (0, WINDOW, SLOT_511, Map(0x1000_0000, RGAD), Err(TableInWay)),
    (0, WINDOW, SLOT_511, Unmap, Err(WrongSize)),
    (0, WINDOW, BELOW_SLOT, RWGAD_4_0000, Err(WrongHalf)),
    (0, WINDOW, IN_SLOT, RUAD_300, Err(BadFlags)),
    (0, WINDOW, IN_SLOT, RGAD_300, Ok((0x8_0000, 0, 0x2000_0821))),
    (0, WINDOW, IN_SLOT, RGAD_300, Ok((0x8_0002, 0, 0x2000_0C21))),
    (0, WINDOW, IN_SLOT, RGAD_300, Ok((0x8_0003, 1, 0xC_00E3))),
];

/// Addresses, and what a load from supervisor mode reaches there.
const REACHED_BY_THE_KERNEL: [(u64, Reached); 3] = [
    (
        0xFFFF_FFFF_C000_0008,
        Some((0x4000_0008, PageSize::Gib1, true)),
    ),
    (
        0xFFFF_FF80_0000_1008,
        Some((0x30_0008, PageSize::Kib4, true)),
    ),
    (0xFFFF_FF80_0000_0008, None),
];

const GIB_TAKEN_AWAY: [EditRow; 1] = [(0, WINDOW, TOP_GIB, Unmap, Ok((0x8_0000, 511, 0)))];

/// Under Sv48 a window's slot points to a table of level 2: there a kernel page may have 1 GiB, and
/// none 512 GiB.
#[test]
fn window_of_sv48(rt: HostRuntime) {
    let mut memory = opened(&rt, rt.alloc(), &OF_SV48);
    edits(&rt, &mut memory, &OF_THE_WINDOW);
    loads(&rt, &memory, SUPER, &REACHED_BY_THE_KERNEL);
    edits(&rt, &mut memory, &GIB_TAKEN_AWAY);
}

const WINDOW_WORDS: [WordRow; 2] = [
    (0x8_0002, 510, Some(0x2000_0021)),
    (0x8_0002, 511, Some(0x2000_0421)),
];

const LOW_GIB: Base = (0xFFFF_FF00_0000_0000, PageSize::Gib1);

const HIGH_GIB: Base = (0xFFFF_FF80_0000_0000, PageSize::Gib1);

const IN_BOTH_SLOTS: [EditRow; 2] = [
    (
        0,
        WINDOW,
        LOW_GIB,
        RGAD_4_0000,
        Ok((0x8_0000, 0, 0x1000_00E3)),
    ),
    (
        0,
        WINDOW,
        HIGH_GIB,
        RGAD_4_0000,
        Ok((0x8_0001, 0, 0x1000_00E3)),
    ),
];

/// Two slots of the window: slots 510 and 511 of the root at 0x80002 point to the tables 0x80000
/// and 0x80001.
#[test]
fn two_window_slots_of_sv48(rt: HostRuntime) {
    let layout = Layout {
        window: 2,
        ..OF_SV48
    };
    let mut memory = opened(&rt, rt.alloc(), &layout);
    words(&rt, &memory, &WINDOW_WORDS);
    edits(&rt, &mut memory, &IN_BOTH_SLOTS);
}

const SMALL_C0: Base = (0xC0_0000_0000, PageSize::Kib4);

const SPACE_SLOTS: [EditRow; 6] = [
    (
        0,
        OWN,
        SLOT_255,
        RUAD_1000_0000,
        Ok((0x8_0001, 255, 0x40_0000_00D3)),
    ),
    (0, OWN, SLOT_256, RUAD_1000_0000, Err(WrongHalf)),
    (0, OWN, SLOT_511, RUAD_1000_0000, Err(WrongHalf)),
    (
        0,
        OWN,
        FIRST,
        RUAD_1000_0000,
        Ok((0x8_0001, 0, 0x40_0000_00D3)),
    ),
    (0, OWN, SMALL_C0, RUAD_100, Ok((0x8_0001, 1, 0x2000_0801))),
    (0, OWN, SMALL_C0, RUAD_100, Ok((0x8_0002, 256, 0x2000_0C01))),
];

const OF_TWO_FRAMES: [EditRow; 3] = [
    (0, OWN, SMALL, RUAD_100, Ok((0x8_0001, 0, 0x2000_0801))),
    (0, OWN, SMALL, RUAD_100, Ok((0x8_0002, 0, 0x2000_0C01))),
    (0, OWN, SMALL, RUAD_100, Err(NoFrame)),
];

const WITH_TWO_FRAMES: Layout = Layout {
    spares: &[2],
    ..OF_SV48
};

/// The user's half of Sv48 is slots 0 to 255 of a root, each of 512 GiB; and three tables are
/// missing where there are two spare frames.
const RUNS: [(Layout, &[EditRow]); 2] = [
    (OF_SV48, &SPACE_SLOTS),
    (WITH_TWO_FRAMES, &OF_TWO_FRAMES),
];

#[test]
fn slots_and_frames_of_a_space_of_sv48(rt: HostRuntime) {
    for (layout, rows) in &RUNS {
        let mut memory = opened(&rt, rt.alloc(), layout);
        edits(&rt, &mut memory, *rows);
    }
}

const UNFIT: [(Place, Base); 7] = [
    (OWN, FIRST),
    (OWN, (0x80_0000_0000, PageSize::Gib512)),
    (OWN, (0x80_0000_1000, PageSize::Kib4)),
    (OWN, (0x7F80_0000_0000, PageSize::Mib2)),
    (WINDOW, (0x7F_C000_0000, PageSize::Kib4)),
    (WINDOW, SLOT_511),
    (WINDOW, (0xFFFF_FFBF_C000_0000, PageSize::Gib1)),
];

const CALLS: [Call; 4] = [RUAD_1000_0000, Map(1, W), Unmap, Protect(W)];

/// What is asked of a page by both harts.
fn is_unfit(memory: &mut Memory, place: Place, page: Page, call: Call) -> bool {
    let of_home = made(memory, 0, place, page, call);
    let of_other = made(memory, 1, place, page, call);
    is_changed(memory, of_home, &Err(MapFault::WrongHalf))
        && is_changed(memory, of_other, &Err(MapFault::NotHome))
}

/// Pages of Sv48 alone, by their size or by their base, whose slots in a root of Sv39 would be the
/// place's own: they are refused there, after the home and before the flags, whatever is asked.
#[test]
fn pages_that_do_not_fit(rt: HostRuntime) {
    let mut memory = opened(&rt, rt.alloc(), &TWO_HARTS);
    for (number, (place, base)) in UNFIT.iter().enumerate() {
        let page = page(&rt, base.0, base.1);
        for call in &CALLS {
            assert_row(&rt, number, is_unfit(&mut memory, *place, page, *call));
        }
    }
    assert!(rt; memory.scheme() == Scheme::Sv39);
}
