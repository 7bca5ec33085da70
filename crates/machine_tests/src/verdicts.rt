//! A page that two harts may hold is unmapped, and its frame given back without a fence.

use crate::common::assert_row;
use pte::Scheme;
use std::alloc::Global;
use std::process::Abort;
use watch::{Frames, Record, Space, Verdict};
use watch_engine::{Warning, Watch};
use watch_tables::PageTables;

/// A root of Sv39 with a pointer to a table of level 1.
const SPACE: Space = Space {
    root: 0x8_0000,
    asid: 7,
};

/// The words of two roots with this pointer, and of the tables of level 1 and 0 below, without the
/// leaf.
const WORDS: [(u64, u64); 3] = [
    (0x8000_0008, 0x2000_0401),
    (0x8001_0008, 0x2000_0401),
    (0x8000_1010, 0x2000_0801),
];

/// The address of the leaf, and the leaf of the frame 0x12345 with R, W, U, A and D.
const LEAF: u64 = 0x8000_2018;

const WORD: u64 = 0x48D_14D7;

const FRAME: Frames = Frames {
    first: 0x1_2345,
    count: 1,
};

fn store(address: u64, word: u64) -> Record {
    Record::Store {
        hart: 0,
        address,
        word,
    }
}

fn enter(hart: u8, space: Space) -> Record {
    Record::Satp {
        hart,
        space: Some(space),
    }
}

/// Takes a record and answers its warnings, which memory suffices for.
fn warnings(rt: &impl Abort, watch: &mut Watch<PageTables>, record: Record) -> Vec<Warning> {
    watch.record(record).ok().expect(rt, "a record is taken")
}

fn warned(rt: &impl Abort, watch: &mut Watch<PageTables>, record: Record) -> usize {
    warnings(rt, watch, record).len()
}

/// A watch of the tables with a leaf, where harts 0 and 1 are in the space.
fn two_harts(rt: &impl Abort, alloc: Global, leaf: u64) -> Watch<PageTables> {
    let mut watch = Watch::new(alloc, Scheme::Sv39, PageTables::new(alloc));
    for (number, (address, word)) in WORDS.iter().enumerate() {
        assert_row(
            rt,
            number,
            warned(rt, &mut watch, store(*address, *word)) == 0,
        );
    }
    assert_row(rt, 3, warned(rt, &mut watch, store(LEAF, leaf)) == 0);
    assert_row(rt, 4, warned(rt, &mut watch, enter(0, SPACE)) == 0);
    assert_row(rt, 5, warned(rt, &mut watch, enter(1, SPACE)) == 0);
    watch
}

/// The leaf is taken away.
const UNMAP: Record = Record::Store {
    hart: 0,
    address: LEAF,
    word: 0,
};

/// The frame is given back.
const GIVE_BACK: Record = Record::GiveBack {
    hart: 0,
    frames: FRAME,
};

/// Whether the frame is given back while this hart may hold the page.
fn is_free(warning: &Warning, hart: usize) -> bool {
    warning.verdict == Verdict::Free
        && usize::from(warning.hart) == hart
        && warning.root == SPACE.root
        && warning.entry.ppn == 0x1_2345
        && warning.stale_since == 7
}

#[test]
fn no_fence(rt: HostRuntime) {
    let mut watch = two_harts(&rt, rt.alloc(), WORD);
    assert_row(&rt, 0, warned(&rt, &mut watch, UNMAP) == 0);
    let given = warnings(&rt, &mut watch, GIVE_BACK);
    assert_row(&rt, 1, given.len() == 2);
    for (hart, warning) in given.iter().enumerate() {
        assert_row(&rt, hart, is_free(warning, hart));
    }
}
