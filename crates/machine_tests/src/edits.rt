//! Edits of a table memory: the worked table of words, and what is refused. The layouts at their
//! limits, edits of several homes, those of Sv48, and edits fed word by word stand in the modules
//! below.

use crate::common::{assert_row, flags, page, spaces_of, spares_of};
use crate::edits::Call::{Map, Protect, Unmap};
use pte::{Page, PageSize, PteFlags, Scheme};
use spaces::MapFault::{
    AlreadyMapped, BadFlags, LeafInWay, Misaligned, NotHome, NotMapped, PpnTooLarge, TableInWay,
    WrongHalf, WrongSize,
};
use spaces::{
    Config, Edit, MapFault, Memory, Place, apply, next_map_edit, protect_edit, unmap_edit,
};
use std::alloc::Global;
use std::process::Abort;
use walk::Words;

mod edit_walks;
mod homes;
mod layouts;
mod sv48;

/// The flags by their bits in a word (privileged manual 4.3.1).
const R: u8 = 0x02;

const W: u8 = 0x04;

const X: u8 = 0x08;

const U: u8 = 0x10;

const G: u8 = 0x20;

const A: u8 = 0x40;

const D: u8 = 0x80;

/// The flags of a page that a user may load from.
const RUAD: u8 = R | U | A | D;

/// The flags of a page that the kernel may load from.
const RGAD: u8 = R | G | A | D;

const KERNEL: u64 = 0xFFFF_FFFF_C000_0000;

/// A configuration by its numbers: the spares of each hart, and the home and ASID of each space.
#[derive(Clone, Copy)]
struct Layout {
    scheme: Scheme,
    harts: u16,
    window: u16,
    capacity: u16,
    base: u64,
    spares: &'static [u16],
    spaces: &'static [(u8, u16)],
}

/// The numbers of the default configuration. The frames are: the window's table at 0x80000, the
/// root at 0x80001, and the spares from 0x80002 on.
const ONE_HART: Layout = Layout {
    scheme: Scheme::Sv39,
    harts: 1,
    window: 1,
    capacity: 4,
    base: 0x8_0000,
    spares: &[8],
    spaces: &[(0, 1)],
};

const TWO_HARTS: Layout = Layout {
    harts: 2,
    spares: &[8, 8],
    ..ONE_HART
};

fn config_of(layout: &Layout) -> Config {
    Config {
        scheme: layout.scheme,
        harts: layout.harts,
        spaces: spaces_of(layout.spaces),
        window: layout.window,
        base: layout.base,
        spares: spares_of(layout.spares),
        capacity: layout.capacity,
    }
}

fn opened(rt: &impl Abort, alloc: Global, layout: &Layout) -> Memory {
    Memory::open(alloc, &config_of(layout))
        .ok()
        .expect(rt, "a memory")
}

/// A page by its base, an address of Sv48, and its size.
type Base = (u64, PageSize);

/// What is asked of a page of a place.
#[derive(Clone, Copy)]
enum Call {
    /// To a PPN, with flags.
    Map(u64, u8),
    Unmap,
    Protect(u8),
}

/// The word that an edit changes, by its table and index, or why there is no edit.
type Changed = Result<(u64, u16, u64), MapFault>;

/// The edit that was applied, or why there was none.
type Stored = Result<Edit, MapFault>;

/// The hart, what is asked of which page, and what it changes.
type EditRow = (u8, Place, Base, Call, Changed);

/// Maps a page, by the next edit that is due for it.
fn mapped(
    memory: &mut Memory,
    hart: u8,
    place: Place,
    page: Page,
    leaf: (u64, PteFlags),
) -> Option<Stored> {
    if !memory.has(place) {
        return None;
    }
    match next_map_edit(memory, hart, place, page, leaf.0, leaf.1) {
        Ok(edit) => {
            apply(memory, edit);
            Some(Ok(edit))
        }
        Err(fault) => Some(Err(fault)),
    }
}

fn unmapped(memory: &mut Memory, hart: u8, place: Place, page: Page) -> Option<Stored> {
    if !memory.has(place) {
        return None;
    }
    match unmap_edit(memory, hart, place, page) {
        Ok(edit) => {
            apply(memory, edit);
            Some(Ok(edit))
        }
        Err(fault) => Some(Err(fault)),
    }
}

fn protected(
    memory: &mut Memory,
    hart: u8,
    place: Place,
    page: Page,
    flags: PteFlags,
) -> Option<Stored> {
    if !memory.has(place) {
        return None;
    }
    match protect_edit(memory, hart, place, page, flags) {
        Ok(edit) => {
            apply(memory, edit);
            Some(Ok(edit))
        }
        Err(fault) => Some(Err(fault)),
    }
}

/// Makes the edit and applies it. `None`: the memory does not have the place.
fn made(memory: &mut Memory, hart: u8, place: Place, page: Page, call: Call) -> Option<Stored> {
    match call {
        Map(ppn, bits) => mapped(memory, hart, place, page, (ppn, flags(bits))),
        Unmap => unmapped(memory, hart, place, page),
        Protect(bits) => protected(memory, hart, place, page, flags(bits)),
    }
}

/// Whether an edit changed this word, which the memory has now, or none did for this reason.
fn is_changed(memory: &Memory, stored: Option<Stored>, changed: &Changed) -> bool {
    match (stored, *changed) {
        (Some(Ok(edit)), Ok((ppn, index, word))) => {
            edit.ppn() == ppn
                && edit.index() == index
                && edit.word() == word
                && memory.word(ppn, index) == Some(word)
        }
        (Some(Err(fault)), Err(why)) => fault == why,
        _ => false,
    }
}

/// Each edit, in order, changes what the row says.
fn edits(rt: &impl Abort, memory: &mut Memory, rows: &[EditRow]) {
    for (number, (hart, place, base, call, changed)) in rows.iter().enumerate() {
        let page = page(rt, base.0, base.1);
        let stored = made(memory, *hart, *place, page, *call);
        assert_row(rt, number, is_changed(memory, stored, changed));
    }
}

/// A word by its table and index; `None` where none is.
type WordRow = (u64, u16, Option<u64>);

/// Each word stands there, or none does.
fn words(rt: &impl Abort, memory: &Memory, rows: &[WordRow]) {
    for (number, (ppn, index, word)) in rows.iter().enumerate() {
        assert_row(rt, number, memory.word(*ppn, *index) == *word);
    }
}

/// The PPN of the root of a space, if the memory has the space.
fn root_of(memory: &Memory, space: u8) -> Option<u64> {
    if memory.has(Place::Space(space)) {
        Some(memory.root(space))
    } else {
        None
    }
}

const OWN: Place = Place::Space(0);

const OTHER: Place = Place::Space(1);

const WINDOW: Place = Place::Kernel;

/// The pages of 4 KiB at 0x1000, of 2 MiB at 0x40_0000 and of 1 GiB at 0; and the first ones of the
/// last slot of a root of Sv39.
const SMALL: Base = (0x1000, PageSize::Kib4);

const LARGE: Base = (0x40_0000, PageSize::Mib2);

const HUGE: Base = (0, PageSize::Gib1);

const TOP: Base = (KERNEL, PageSize::Kib4);

const TOP_LARGE: Base = (KERNEL, PageSize::Mib2);

const TOP_GIB: Base = (KERNEL, PageSize::Gib1);

const LARGE_6: Base = (0x60_0000, PageSize::Mib2);

const LARGE_8: Base = (0x80_0000, PageSize::Mib2);

const LARGE_A: Base = (0xA0_0000, PageSize::Mib2);

const LARGE_C: Base = (0xC0_0000, PageSize::Mib2);

/// Mappings, by their flags and their PPNs.
const RUAD_100: Call = Map(0x100, RUAD);

const RGAD_100: Call = Map(0x100, RGAD);

const RWUAD_200: Call = Map(0x200, RUAD | W);

const RUAD_300: Call = Map(0x300, RUAD);

const RGAD_300: Call = Map(0x300, RGAD);

const RWGAD_300: Call = Map(0x300, RGAD | W);

const RUAD_4_0000: Call = Map(0x4_0000, RUAD);

const RGAD_4_0000: Call = Map(0x4_0000, RGAD);

const RWGAD_4_0000: Call = Map(0x4_0000, RGAD | W);

const RUAD_1000_0000: Call = Map(0x1000_0000, RUAD);

const RWUAD_1000_0000: Call = Map(0x1000_0000, RUAD | W);

const FIRST_WORDS: [WordRow; 6] = [
    (0x8_0001, 511, Some(0x2000_0021)),
    (0x8_0001, 0, Some(0)),
    (0x8_0009, 0, Some(0)),
    (0x8_000A, 0, None),
    (0x7_FFFF, 0, None),
    (0x8_0001, 512, None),
];

const WORKED: [EditRow; 7] = [
    (0, OWN, SMALL, RUAD_100, Ok((0x8_0001, 0, 0x2000_0801))),
    (0, OWN, SMALL, RUAD_100, Ok((0x8_0002, 0, 0x2000_0C01))),
    (0, OWN, SMALL, RUAD_100, Ok((0x8_0003, 1, 0x4_00D3))),
    (0, WINDOW, TOP, RWGAD_300, Ok((0x8_0000, 0, 0x2000_1021))),
    (0, WINDOW, TOP, RWGAD_300, Ok((0x8_0004, 0, 0xC_00E7))),
    (
        0,
        OWN,
        SMALL,
        Protect(R | U | A),
        Ok((0x8_0003, 1, 0x4_0053)),
    ),
    (0, OWN, SMALL, Unmap, Ok((0x8_0003, 1, 0))),
];

#[test]
fn table_of_words(rt: HostRuntime) {
    let mut memory = Memory::open(rt.alloc(), &Config::default())
        .ok()
        .expect(&rt, "a memory");
    assert!(rt; root_of(&memory, 0) == Some(0x8_0001));
    words(&rt, &memory, &FIRST_WORDS);
    edits(&rt, &mut memory, &WORKED);
}

/// The pages of 1 GiB of these slots of a root of Sv39.
const SLOT_255: Base = (0x3F_C000_0000, PageSize::Gib1);

const SLOT_256: Base = (0xFFFF_FFC0_0000_0000, PageSize::Gib1);

const SLOT_510: Base = (0xFFFF_FFFF_8000_0000, PageSize::Gib1);

const SLOT_511: Base = TOP_GIB;

/// The user's half is slots 0 to 255 of a root. A window of one slot is slot 511, where a table is
/// from the opening on.
const SLOTS: [EditRow; 8] = [
    (0, WINDOW, SLOT_255, RGAD_4_0000, Err(WrongHalf)),
    (0, WINDOW, SLOT_256, RGAD_4_0000, Err(WrongHalf)),
    (0, WINDOW, SLOT_510, RGAD_4_0000, Err(WrongHalf)),
    (0, WINDOW, SLOT_511, RGAD_4_0000, Err(TableInWay)),
    (
        0,
        OWN,
        SLOT_255,
        RUAD_4_0000,
        Ok((0x8_0001, 255, 0x1000_00D3)),
    ),
    (0, OWN, SLOT_256, RUAD_4_0000, Err(WrongHalf)),
    (0, OWN, SLOT_510, RUAD_4_0000, Err(WrongHalf)),
    (0, OWN, SLOT_511, RUAD_4_0000, Err(WrongHalf)),
];

#[test]
fn slots_of_a_space_and_of_the_window(rt: HostRuntime) {
    let mut memory = opened(&rt, rt.alloc(), &ONE_HART);
    edits(&rt, &mut memory, &SLOTS);
}

const INSIDE: Base = (0x40_1000, PageSize::Kib4);

/// The 2 MiB at 0x400000 of the space are mapped, and then edits refused: by what is asked; by the
/// first of several reasons, which are the home, the half, the flags, the PPN, its alignment, and
/// then the tables; and by what stands there. The last rows are leaves of flags that one may have,
/// and that none has: X alone is a leaf, and U, A and D alone are not.
const BESIDE_A_LARGE_PAGE: [EditRow; 40] = [
    (0, OWN, LARGE, RWUAD_200, Ok((0x8_0001, 0, 0x2000_0801))),
    (0, OWN, LARGE, RWUAD_200, Ok((0x8_0002, 2, 0x8_00D7))),
    // by what is asked
    (1, OWN, SMALL, RUAD_100, Err(NotHome)),
    (0, OWN, TOP, RUAD_100, Err(WrongHalf)),
    (0, WINDOW, SMALL, RGAD_100, Err(WrongHalf)),
    (0, OWN, SMALL, Map(0x100, W | X | U), Err(BadFlags)),
    (0, OWN, SMALL, Map(0x100, RUAD | G), Err(BadFlags)),
    (0, WINDOW, TOP, Map(0x100, R), Err(BadFlags)),
    (0, OWN, SMALL, Map(1 << 44, RUAD), Err(PpnTooLarge)),
    (0, OWN, LARGE_6, Map(0x201, RUAD), Err(Misaligned)),
    // by the first of several reasons
    (1, OWN, TOP_LARGE, Map(1 << 44, W), Err(NotHome)),
    (1, OWN, SMALL, Unmap, Err(NotHome)),
    (1, OWN, TOP_LARGE, Unmap, Err(NotHome)),
    (1, OWN, SMALL, Protect(W), Err(NotHome)),
    (0, OWN, TOP_LARGE, Map(1 << 44, W), Err(WrongHalf)),
    (0, OWN, TOP_LARGE, Unmap, Err(WrongHalf)),
    (0, OWN, TOP_LARGE, Protect(W), Err(WrongHalf)),
    (0, OWN, LARGE, Map((1 << 44) + 1, W), Err(BadFlags)),
    (0, OWN, LARGE, Map(0x201, W), Err(BadFlags)),
    (0, OWN, LARGE, Map((1 << 44) + 1, RUAD), Err(PpnTooLarge)),
    (0, OWN, LARGE, Map(0x201, RUAD), Err(Misaligned)),
    (0, OWN, LARGE, RWUAD_200, Err(AlreadyMapped)),
    (0, OWN, SMALL, Protect(W), Err(BadFlags)),
    (0, OWN, SMALL, Protect(R | G), Err(BadFlags)),
    // by what stands there
    (0, OWN, LARGE, Map(0x400, RUAD), Err(AlreadyMapped)),
    (0, OWN, INSIDE, RUAD_100, Err(LeafInWay)),
    (0, OWN, HUGE, RUAD_4_0000, Err(TableInWay)),
    (0, WINDOW, TOP_GIB, RGAD_4_0000, Err(TableInWay)),
    (0, OWN, INSIDE, Unmap, Err(WrongSize)),
    (0, OWN, SMALL, Unmap, Err(NotMapped)),
    (0, OWN, INSIDE, Protect(RUAD), Err(WrongSize)),
    (0, OWN, SMALL, Protect(RUAD), Err(NotMapped)),
    (0, WINDOW, TOP_GIB, Unmap, Err(WrongSize)),
    (0, OWN, HUGE, Unmap, Err(WrongSize)),
    (0, OWN, HUGE, Protect(RUAD), Err(WrongSize)),
    // flags of leaves
    (
        0,
        OWN,
        LARGE_8,
        Map(0x200, X | U | A),
        Ok((0x8_0002, 4, 0x8_0059)),
    ),
    (
        0,
        OWN,
        LARGE_A,
        Map(0x200, R | W | X),
        Ok((0x8_0002, 5, 0x8_000F)),
    ),
    (0, OWN, LARGE_C, Map(0x200, U | A | D), Err(BadFlags)),
    (0, OWN, LARGE_C, Map(0x200, W | U | A | D), Err(BadFlags)),
    (0, OWN, LARGE_C, Map(0x200, W | X | U), Err(BadFlags)),
];

#[test]
fn edits_beside_a_large_page(rt: HostRuntime) {
    let mut memory = opened(&rt, rt.alloc(), &TWO_HARTS);
    assert!(rt; root_of(&memory, 5).is_none());
    edits(&rt, &mut memory, &BESIDE_A_LARGE_PAGE);
}
