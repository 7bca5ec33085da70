//! Edits that are fed by hand, word by word. The words are the manual's (privileged manual 4.4.1):
//! a PPN times 1024, the flags, and V.

use super::{
    A, Base, Call, Changed, G, LARGE_6, Layout, ONE_HART, OWN, R, RUAD, RUAD_100, RUAD_1000_0000,
    RWGAD_4_0000, RWGAD_300, SMALL, TOP, TOP_GIB, U, W, WINDOW, X, config_of,
};
use crate::common::{assert_row, flags, page};
use crate::edits::Call::{Map, Protect, Unmap};
use pte::{Page, PageSize, Scheme};
use spaces::MapFault::{
    AlreadyMapped, BadFlags, LeafInWay, Misaligned, NoFrame, NotHome, NotMapped, PpnTooLarge,
    TableInWay, WrongHalf, WrongSize,
};
use spaces::{EditWalk, MapFault, Next, Place, Wish};
use std::process::Abort;

/// The words of pointers to the tables at 0x80002, 0x80003 and 0x80004.
const TO_2: u64 = 0x2000_0801;

const TO_3: u64 = 0x2000_0C01;

const TO_4: u64 = 0x2000_1001;

/// The word of a leaf with PPN 0x100 and R, U, A and D.
const LEAF: u64 = 0x4_00D3;

/// The first address of the last slot of a root of Sv48.
const LAST_SLOT: u64 = 0xFFFF_FF80_0000_0000;

/// Begins an edit of a hart in the default configuration for a scheme. `None`: the configuration is
/// not within the limits, or does not have the place.
fn begun(scheme: Scheme, hart: u8, wish: Wish) -> Option<Result<EditWalk, MapFault>> {
    let config = config_of(&Layout { scheme, ..ONE_HART });
    let place = match wish {
        Wish::Map { place, .. } | Wish::Unmap { place, .. } | Wish::Protect { place, .. } => place,
    };
    if config.check() && config.has(place) {
        Some(EditWalk::begin(&config, hart, wish))
    } else {
        None
    }
}

/// Feeds a walk the words, each of which it is to wait for at the table and the index that stand
/// before it. Whether it ends so, at the last of them. The lowest unused spare frame is at 0x80005,
/// or there is none.
fn ends_so(begun: EditWalk, has_spare: bool, loads: &[Load], end: &Changed) -> bool {
    let mut walk = begun;
    let spare = if has_spare { Some(0x8_0005) } else { None };
    for (number, (ppn, index, word)) in loads.iter().enumerate() {
        let is_last = number + 1 == loads.len();
        if walk.wants() != (*ppn, *index) {
            return false;
        }
        match walk.load(*word, spare) {
            Next::More(next) => walk = next,
            Next::Edit(edit) => {
                return is_last && *end == Ok((edit.ppn(), edit.index(), edit.word()));
            }
            Next::Refused(fault) => return is_last && *end == Err(fault),
        }
    }
    false
}

/// A load of an edit: the table and the index that it waits for, and the word that is there.
type Load = (u64, u16, u64);

/// An edit of hart 0: whether there is a spare frame, and what is asked of which page.
type Asked = (bool, Place, Base, Call);

/// An edit, its loads, and what it ends with.
type FedRow = (Asked, &'static [Load], Changed);

fn wish_of(place: Place, page: Page, call: Call) -> Wish {
    match call {
        Call::Map(ppn, bits) => Wish::Map {
            place,
            page,
            ppn,
            flags: flags(bits),
        },
        Call::Unmap => Wish::Unmap { place, page },
        Call::Protect(bits) => Wish::Protect {
            place,
            page,
            flags: flags(bits),
        },
    }
}

/// Each edit ends as its row says.
fn are_fed(rt: &impl Abort, scheme: Scheme, rows: &[FedRow]) {
    for (number, ((has_spare, place, base, call), loads, end)) in rows.iter().enumerate() {
        let wish = wish_of(*place, page(rt, base.0, base.1), *call);
        let is_right = match begun(scheme, 0, wish) {
            Some(Ok(walk)) => ends_so(walk, *has_spare, *loads, end),
            Some(Err(fault)) => *end == Err(fault),
            None => false,
        };
        assert_row(rt, number, is_right);
    }
}

const LARGE: Base = (0, PageSize::Mib2);

/// The loads of a root and of a middle table that lead to the next.
const ROOT: Load = (0x8_0001, 0, TO_2);

const MIDDLE: Load = (0x8_0002, 0, TO_3);

/// A leaf of 2 MiB in the middle table, of PPN 0x200 with R, W, U, A and D.
const LEAF_ABOVE: Load = (0x8_0002, 0, 0x8_00D7);

const TO_MAP: [FedRow; 8] = [
    (
        (true, OWN, SMALL, RUAD_100),
        &[(0x8_0001, 0, 0)],
        Ok((0x8_0001, 0, 0x2000_1401)),
    ),
    (
        (false, OWN, SMALL, RUAD_100),
        &[(0x8_0001, 0, 0)],
        Err(NoFrame),
    ),
    (
        (true, OWN, SMALL, RUAD_100),
        &[ROOT, (0x8_0002, 0, 0)],
        Ok((0x8_0002, 0, 0x2000_1401)),
    ),
    (
        (false, OWN, SMALL, RUAD_100),
        &[ROOT, MIDDLE, (0x8_0003, 1, 0)],
        Ok((0x8_0003, 1, LEAF)),
    ),
    (
        (true, OWN, SMALL, RUAD_100),
        &[ROOT, MIDDLE, (0x8_0003, 1, LEAF)],
        Err(AlreadyMapped),
    ),
    (
        (false, OWN, SMALL, RUAD_100),
        &[ROOT, LEAF_ABOVE],
        Err(LeafInWay),
    ),
    (
        (true, OWN, LARGE, Map(0x200, RUAD)),
        &[ROOT, MIDDLE],
        Err(TableInWay),
    ),
    (
        (true, OWN, LARGE, Map(0x200, RUAD)),
        &[ROOT, (0x8_0002, 0, 0)],
        Ok((0x8_0002, 0, 0x8_00D3)),
    ),
];

const TO_UNMAP_AND_PROTECT: [FedRow; 10] = [
    (
        (true, OWN, SMALL, Unmap),
        &[ROOT, MIDDLE, (0x8_0003, 1, LEAF)],
        Ok((0x8_0003, 1, 0)),
    ),
    (
        (true, OWN, SMALL, Protect(R | U | A)),
        &[ROOT, MIDDLE, (0x8_0003, 1, LEAF)],
        Ok((0x8_0003, 1, 0x4_0053)),
    ),
    (
        (true, OWN, SMALL, Unmap),
        &[ROOT, MIDDLE, (0x8_0003, 1, 0)],
        Err(NotMapped),
    ),
    (
        (true, OWN, SMALL, Unmap),
        &[(0x8_0001, 0, 0)],
        Err(NotMapped),
    ),
    (
        (true, OWN, SMALL, Unmap),
        &[ROOT, LEAF_ABOVE],
        Err(WrongSize),
    ),
    (
        (true, OWN, SMALL, Protect(R | U | A)),
        &[ROOT, MIDDLE, (0x8_0003, 1, 0)],
        Err(NotMapped),
    ),
    (
        (true, OWN, SMALL, Protect(R | U | A)),
        &[(0x8_0001, 0, 0)],
        Err(NotMapped),
    ),
    (
        (true, OWN, SMALL, Protect(R | U | A)),
        &[ROOT, LEAF_ABOVE],
        Err(WrongSize),
    ),
    ((true, OWN, LARGE, Unmap), &[ROOT, MIDDLE], Err(WrongSize)),
    (
        (true, OWN, LARGE, Protect(R | U)),
        &[ROOT, MIDDLE],
        Err(WrongSize),
    ),
];

/// The load of the window's table that leads to the table at 0x80004.
const WINDOW_LOAD: Load = (0x8_0000, 0, TO_4 | 0x20);

const OF_THE_KERNEL: [FedRow; 2] = [
    (
        (true, WINDOW, TOP, RWGAD_300),
        &[(0x8_0000, 0, 0)],
        Ok((0x8_0000, 0, 0x2000_1421)),
    ),
    (
        (true, WINDOW, TOP, RWGAD_300),
        &[WINDOW_LOAD, (0x8_0004, 0, 0)],
        Ok((0x8_0004, 0, 0xC_00E7)),
    ),
];

const HIGH_GIB: Base = (LAST_SLOT, PageSize::Gib1);

const OF_THE_KERNEL_IN_SV48: [FedRow; 1] = [(
    (true, WINDOW, HIGH_GIB, RWGAD_4_0000),
    &[(0x8_0000, 0, 0)],
    Ok((0x8_0000, 0, 0x1000_00E7)),
)];

/// The load of the low one of the two middle tables of Sv48 that leads to the next.
const LOW_MIDDLE: Load = (0x8_0003, 0, TO_4);

const UNDER_SV48: [FedRow; 4] = [
    (
        (true, OWN, SMALL, RUAD_100),
        &[ROOT, MIDDLE, LOW_MIDDLE, (0x8_0004, 1, 0)],
        Ok((0x8_0004, 1, LEAF)),
    ),
    (
        (true, OWN, SMALL, Unmap),
        &[ROOT, MIDDLE, LOW_MIDDLE, (0x8_0004, 1, LEAF)],
        Ok((0x8_0004, 1, 0)),
    ),
    (
        (true, OWN, SMALL, Protect(R | U)),
        &[ROOT, MIDDLE, LOW_MIDDLE, (0x8_0004, 1, LEAF)],
        Ok((0x8_0004, 1, 0x4_0013)),
    ),
    (
        (true, OWN, WIDEST, RUAD_1000_0000),
        &[(0x8_0001, 1, 0)],
        Ok((0x8_0001, 1, 0x40_0000_00D3)),
    ),
];

/// A page of the kernel is looked for from its window's table on, one load fewer.
#[test]
fn fed_word_by_word(rt: HostRuntime) {
    are_fed(&rt, Scheme::Sv39, &TO_MAP);
    are_fed(&rt, Scheme::Sv39, &TO_UNMAP_AND_PROTECT);
    are_fed(&rt, Scheme::Sv39, &OF_THE_KERNEL);
    are_fed(&rt, Scheme::Sv48, &OF_THE_KERNEL_IN_SV48);
    are_fed(&rt, Scheme::Sv48, &UNDER_SV48);
}

/// The scheme, the hart, what is asked of which page, and why it is refused at once, if it is.
type BeginRow = (Scheme, u8, Place, Base, Call, Option<MapFault>);

const WIDEST: Base = (0x80_0000_0000, PageSize::Gib512);

/// The slot of the window of Sv48, as a page.
const SLOT_48: Base = (LAST_SLOT, PageSize::Gib512);

const AT_THE_BEGIN: [BeginRow; 16] = [
    (Scheme::Sv39, 1, OWN, SMALL, RUAD_100, Some(NotHome)),
    (Scheme::Sv39, 0, OWN, SMALL, RUAD_100, None),
    (Scheme::Sv39, 0, OWN, TOP, Unmap, Some(WrongHalf)),
    (Scheme::Sv39, 0, WINDOW, SMALL, Unmap, Some(WrongHalf)),
    (Scheme::Sv39, 0, OWN, WIDEST, Unmap, Some(WrongHalf)),
    (
        Scheme::Sv39,
        0,
        OWN,
        SMALL,
        Map(0x100, W | X | U),
        Some(BadFlags),
    ),
    (
        Scheme::Sv39,
        0,
        OWN,
        SMALL,
        Protect(RUAD | G),
        Some(BadFlags),
    ),
    (Scheme::Sv39, 0, WINDOW, TOP, Protect(R), Some(BadFlags)),
    (
        Scheme::Sv39,
        0,
        OWN,
        SMALL,
        Map(1 << 44, RUAD),
        Some(PpnTooLarge),
    ),
    (
        Scheme::Sv39,
        0,
        OWN,
        LARGE_6,
        Map(0x201, RUAD),
        Some(Misaligned),
    ),
    (
        Scheme::Sv39,
        0,
        WINDOW,
        TOP_GIB,
        Map(0x800_0000, R | G),
        Some(TableInWay),
    ),
    (Scheme::Sv39, 0, WINDOW, TOP_GIB, Unmap, Some(WrongSize)),
    (
        Scheme::Sv39,
        0,
        WINDOW,
        TOP_GIB,
        Protect(R | G),
        Some(WrongSize),
    ),
    (
        Scheme::Sv48,
        0,
        WINDOW,
        SLOT_48,
        Map(0x800_0000, R | G),
        Some(TableInWay),
    ),
    (Scheme::Sv48, 0, WINDOW, SLOT_48, Unmap, Some(WrongSize)),
    (
        Scheme::Sv48,
        0,
        WINDOW,
        SLOT_48,
        Protect(R | G),
        Some(WrongSize),
    ),
];

/// What no word decides is refused before the first load.
#[test]
fn refused_at_the_begin(rt: HostRuntime) {
    for (number, (scheme, hart, place, base, call, fault)) in AT_THE_BEGIN.iter().enumerate() {
        let wish = wish_of(*place, page(&rt, base.0, base.1), *call);
        let is_right = match begun(*scheme, *hart, wish) {
            Some(Ok(_)) => fault.is_none(),
            Some(Err(why)) => *fault == Some(why),
            None => false,
        };
        assert_row(&rt, number, is_right);
    }
}
