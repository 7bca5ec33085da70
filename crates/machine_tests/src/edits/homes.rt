//! Edits of two harts, each at home in a space, and edits where frames run out.

use super::{
    Base, EditRow, HUGE, Layout, ONE_HART, OTHER, OWN, RGAD_100, RUAD_4_0000, RUAD_100, SMALL, TOP,
    TWO_HARTS, WINDOW, WordRow, edits, opened, root_of, words,
};
use pte::PageSize;
use spaces::MapFault::{LeafInWay, NoFrame, NotHome};

/// Two harts with 3 and 2 spare frames, two spaces at home on hart 1 and hart 0, and two slots of
/// the window. So the frames are: the window's at 0x80000, the roots at 0x80002, hart 0's spares at
/// 0x80004, and hart 1's at 0x80007.
const TWO_HOMES: Layout = Layout {
    window: 2,
    spares: &[3, 2],
    spaces: &[(1, 7), (0, 9)],
    ..TWO_HARTS
};

const FRAMES: [WordRow; 11] = [
    (0x7_FFFF, 511, None),
    (0x8_0000, 511, Some(0)),
    (0x8_0002, 256, Some(0)),
    (0x8_0002, 509, Some(0)),
    (0x8_0002, 510, Some(0x2000_0021)),
    (0x8_0002, 511, Some(0x2000_0421)),
    (0x8_0003, 510, Some(0x2000_0021)),
    (0x8_0003, 511, Some(0x2000_0421)),
    (0x8_0004, 511, Some(0)),
    (0x8_0008, 511, Some(0)),
    (0x8_0009, 0, None),
];

#[test]
fn frames_in_their_order(rt: HostRuntime) {
    let memory = opened(&rt, rt.alloc(), &TWO_HOMES);
    let roots = [
        root_of(&memory, 0),
        root_of(&memory, 1),
        root_of(&memory, 2),
    ];
    assert!(rt; roots == [Some(0x8_0002), Some(0x8_0003), None]);
    words(&rt, &memory, &FRAMES);
}

const SMALL_4000: Base = (0x4000_0000, PageSize::Kib4);

const OF_TWO_HOMES: [EditRow; 7] = [
    (0, OWN, SMALL, RUAD_100, Err(NotHome)),
    (1, OWN, SMALL, RUAD_100, Ok((0x8_0002, 0, 0x2000_1C01))),
    (1, OWN, SMALL, RUAD_100, Ok((0x8_0007, 0, 0x2000_2001))),
    (1, OWN, SMALL, RUAD_100, Ok((0x8_0008, 1, 0x4_00D3))),
    (1, OWN, SMALL_4000, RUAD_100, Err(NoFrame)),
    (1, OTHER, SMALL, RUAD_100, Err(NotHome)),
    (0, OTHER, SMALL, RUAD_100, Ok((0x8_0003, 0, 0x2000_1001))),
];

const LOW_SLOT: Base = (0xFFFF_FFFF_8000_0000, PageSize::Kib4);

const OF_THE_WINDOW: [EditRow; 6] = [
    (1, WINDOW, LOW_SLOT, RGAD_100, Err(NotHome)),
    (
        0,
        WINDOW,
        LOW_SLOT,
        RGAD_100,
        Ok((0x8_0000, 0, 0x2000_1021)),
    ),
    (0, WINDOW, LOW_SLOT, RGAD_100, Ok((0x8_0004, 0, 0x4_00E3))),
    (0, WINDOW, TOP, RGAD_100, Ok((0x8_0001, 0, 0x2000_1421))),
    (0, WINDOW, TOP, RGAD_100, Ok((0x8_0005, 0, 0x4_00E3))),
    (1, WINDOW, TOP, RGAD_100, Err(NotHome)),
];

const OF_ONE_FRAME: [EditRow; 2] = [
    (0, OWN, SMALL, RUAD_100, Ok((0x8_0001, 0, 0x2000_0801))),
    (0, OWN, SMALL, RUAD_100, Err(NoFrame)),
];

const OF_NO_FRAME: [EditRow; 2] = [
    (0, OWN, HUGE, RUAD_4_0000, Ok((0x8_0001, 0, 0x1000_00D3))),
    (0, OWN, SMALL, RUAD_4_0000, Err(LeafInWay)),
];

const WITH_ONE_FRAME: Layout = Layout {
    spares: &[1],
    ..ONE_HART
};

const WITH_NO_FRAME: Layout = Layout {
    spares: &[0],
    ..ONE_HART
};

/// Edits of each memory: of two homes; of the window, whose home is hart 0, also where space 0 is
/// at home elsewhere; where frames run out; and where a leaf is in the way and no frame is left,
/// for which the answer names the leaf.
const RUNS: [(Layout, &[EditRow]); 4] = [
    (TWO_HOMES, &OF_TWO_HOMES),
    (TWO_HOMES, &OF_THE_WINDOW),
    (WITH_ONE_FRAME, &OF_ONE_FRAME),
    (WITH_NO_FRAME, &OF_NO_FRAME),
];

#[test]
fn edits_of_homes_and_their_frames(rt: HostRuntime) {
    for (layout, rows) in &RUNS {
        let mut memory = opened(&rt, rt.alloc(), layout);
        edits(&rt, &mut memory, *rows);
    }
}
