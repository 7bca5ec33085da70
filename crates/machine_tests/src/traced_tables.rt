//! A table of each level, with leaves of two sizes in both halves of the addresses, below pointers
//! with G and without: the ways to each table, and the leaves through each word.

use crate::common::{assert_row, flags};
use pte::{Page, PageSize, Scheme, VirtAddr};
use std::alloc::{AllocError, Global};
use std::process::Abort;
use tlb::Entry;
use watch::Frames;
use watch_tables::{PageTables, RootLeaf, Way};

/// The root of Sv39, and that of Sv48, which has the other below it twice.
const ROOT_OF_SV39: u64 = 0x8_0000;

const ROOT_OF_SV48: u64 = 0x8_0010;

/// Words with their physical addresses, in the order of their numbers of records, from 1 on. Under
/// the root of Sv39: a leaf of 1 GiB that is not aligned, a pointer to a table that has a leaf of
/// 2 MiB and a pointer to the table of a leaf of 4 KiB, and a pointer with G to a table with a leaf
/// of 2 MiB.
const WORDS: [(u64, u64); 9] = [
    (0x8000_0000, 0x4D7),
    (0x8000_0008, 0x2000_0401),
    (0x8000_1010, 0x488_00D7),
    (0x8000_1018, 0x2000_0801),
    (0x8000_2028, 0x48D_14D7),
    (0x8000_0FF8, 0x2000_0C21),
    (0x8000_3000, 0x10_00CF),
    (0x8001_0008, 0x2000_0001),
    (0x8001_0FF8, 0x2000_0001),
];

/// R, W, U, A and D; and R, W, X, A and D.
const USER: u8 = 0xD6;

const KERNEL: u8 = 0xCE;

/// A leaf as it is expected: base, size, PPN, flags, and whether it is global.
type Row = (u64, PageSize, u64, u8, bool);

const SMALL: Row = (0x4060_5000, PageSize::Kib4, 0x1_2345, USER, false);

const LARGE: Row = (0x4040_0000, PageSize::Mib2, 0x1_2200, USER, false);

const GLOBAL: Row = (0xFFFF_FFFF_C000_0000, PageSize::Mib2, 0x400, KERNEL, true);

/// A leaf of a root, with the number of records after which its path became what it is.
type LeafRow = (u64, Row, u64);

/// A way as it is expected: root, level, and the VPNs above the level.
type WayRow = (u64, u8, u64);

const SV39: Scheme = Scheme::Sv39;

const SV48: Scheme = Scheme::Sv48;

fn entry_of(scheme: Scheme, row: &Row) -> Option<Entry> {
    let (base, size, ppn, bits, global) = *row;
    match VirtAddr::new_in(scheme, base) {
        Some(base) => Some(Entry {
            asid: 0,
            global,
            page: Page::around(base, size),
            ppn,
            flags: flags(bits),
        }),
        None => None,
    }
}

fn entry_of_sv39(rt: &impl Abort, row: &Row) -> Entry {
    entry_of(SV39, row).expect(rt, "a canonical address")
}

/// Stores a word, which memory suffices for.
fn store(rt: &impl Abort, tables: &mut PageTables, address: u64, word: u64, number: u64) {
    tables
        .store(address, word, number)
        .ok()
        .expect(rt, "memory");
}

fn tables(rt: &impl Abort, alloc: Global) -> PageTables {
    let mut tables = PageTables::new(alloc);
    for (index, (address, word)) in WORDS.iter().enumerate() {
        store(rt, &mut tables, *address, *word, index as u64 + 1);
    }
    tables
}

/// One of the leaves is that of the row.
fn has_leaf(leaves: &[RootLeaf], scheme: Scheme, root: u64, row: &Row, since: u64) -> bool {
    match entry_of(scheme, row) {
        Some(entry) => leaves.contains(&RootLeaf { root, entry, since }),
        None => false,
    }
}

/// The leaves are those of the rows, in any order.
fn are_leaves(leaves: &[RootLeaf], scheme: Scheme, rows: &[LeafRow]) -> bool {
    for (root, row, since) in rows {
        if !has_leaf(leaves, scheme, *root, row, *since) {
            return false;
        }
    }
    leaves.len() == rows.len()
}

/// One of the ways is that of the row.
fn has_way(ways: &[Way], row: &WayRow) -> bool {
    for way in ways {
        if way.root == row.0 && way.level == row.1 && way.vpn == row.2 {
            return true;
        }
    }
    false
}

/// The ways are those of the rows, in any order.
fn are_ways(ways: &[Way], rows: &[WayRow]) -> bool {
    for row in rows {
        if !has_way(ways, row) {
            return false;
        }
    }
    ways.len() == rows.len()
}

/// A word by its scheme and its address.
type At = (Scheme, u64);

/// The ways to the table that has a word.
fn ways(rt: &impl Abort, alloc: Global, tables: &PageTables, at: At) -> Vec<Way> {
    tables.ways(alloc, at.0, at.1).ok().expect(rt, "memory")
}

/// Whether these are the ways to the table that has a word.
fn has_ways(rt: &impl Abort, alloc: Global, tables: &PageTables, at: At, rows: &[WayRow]) -> bool {
    are_ways(ways(rt, alloc, tables, at).as_slice(), rows)
}

fn leaves_through(
    alloc: Global,
    tables: &PageTables,
    scheme: Scheme,
    address: u64,
) -> Result<Vec<RootLeaf>, AllocError> {
    let ways = tables.ways(alloc, scheme, address)?;
    tables.leaves_through(alloc, scheme, address, ways.as_slice())
}

/// The leaves through a word.
fn leaves(rt: &impl Abort, alloc: Global, tables: &PageTables, at: At) -> Vec<RootLeaf> {
    leaves_through(alloc, tables, at.0, at.1)
        .ok()
        .expect(rt, "memory")
}

/// Whether these are the leaves through a word.
fn has_leaves(
    rt: &impl Abort,
    alloc: Global,
    tables: &PageTables,
    at: At,
    rows: &[LeafRow],
) -> bool {
    are_leaves(leaves(rt, alloc, tables, at).as_slice(), at.0, rows)
}

/// Whether the tables have just this leaf, and whether they map what it maps.
fn found(tables: &PageTables, scheme: Scheme, entry: &Entry) -> [bool; 2] {
    [
        tables.has_leaf(scheme, ROOT_OF_SV39, entry),
        tables.is_mapped(scheme, ROOT_OF_SV39, entry),
    ]
}

/// Whether the leaf is found as it is, is mapped with fewer flags, and is not with more.
fn is_found(tables: &PageTables, entry: Entry, bits: u8) -> bool {
    let fewer = Entry {
        flags: flags(bits & !0x04),
        ..entry
    };
    let more = Entry {
        flags: flags(0xDE),
        ..entry
    };
    found(tables, SV39, &entry) == [true, true]
        && found(tables, SV39, &fewer) == [false, true]
        && found(tables, SV39, &more) == [false, false]
        && found(tables, SV48, &entry) == [false, false]
}

const PAGES: [Row; 3] = [SMALL, LARGE, GLOBAL];

#[test]
fn leaf_of_each_page(rt: HostRuntime) {
    let tables = tables(&rt, rt.alloc());
    for (number, row) in PAGES.iter().enumerate() {
        let entry = entry_of_sv39(&rt, row);
        assert_row(&rt, number, is_found(&tables, entry, row.3));
    }
}

/// Each table is a root of its own, and below it are those that point to it. In Sv48 there is a
/// level more, and the root of Sv39 is below the other twice.
const TO_TABLES: [(At, &[WayRow]); 5] = [
    (
        (SV39, 0x8000_0808),
        &[
            (ROOT_OF_SV39, 2, 0),
            (ROOT_OF_SV48, 1, 1),
            (ROOT_OF_SV48, 1, 0x1FF),
        ],
    ),
    (
        (SV39, 0x8000_1808),
        &[
            (0x8_0001, 2, 0),
            (ROOT_OF_SV39, 1, 1),
            (ROOT_OF_SV48, 0, 0x201),
            (ROOT_OF_SV48, 0, 0x3_FE01),
        ],
    ),
    (
        (SV39, 0x8000_2808),
        &[(0x8_0002, 2, 0), (0x8_0001, 1, 3), (ROOT_OF_SV39, 0, 0x203)],
    ),
    ((SV39, 0x8000_4808), &[(0x8_0004, 2, 0)]),
    (
        (SV48, 0x8000_2000),
        &[
            (0x8_0002, 3, 0),
            (0x8_0001, 2, 3),
            (ROOT_OF_SV39, 1, 0x203),
            (ROOT_OF_SV48, 0, 0x4_0203),
            (ROOT_OF_SV48, 0, 0x7FC_0203),
        ],
    ),
];

#[test]
fn ways_to_each_table(rt: HostRuntime) {
    let tables = tables(&rt, rt.alloc());
    for (number, (at, rows)) in TO_TABLES.iter().enumerate() {
        assert_row(&rt, number, has_ways(&rt, rt.alloc(), &tables, *at, *rows));
    }
}

const LOW: Row = (0x4020_2000, PageSize::Kib4, 0x1_2200, USER, false);

const HIGH: Row = (0xFFFF_FFFF_C020_2000, PageSize::Kib4, 0x1_2200, USER, false);

const LOW_GLOBAL: Row = (0x7FE0_0000, PageSize::Kib4, 0x400, KERNEL, true);

const HIGH_GLOBAL: Row = (0xFFFF_FFFF_FFE0_0000, PageSize::Kib4, 0x400, KERNEL, true);

/// SMALL in Sv48, from the address 2^39 on, and in the last 2^39 bytes: the table is under the root
/// twice.
const SMALL_OF_SV48: Row = (0x80_4060_5000, PageSize::Kib4, 0x1_2345, USER, false);

const SMALL_OF_SV48_HIGH: Row = (0xFFFF_FF80_4060_5000, PageSize::Kib4, 0x1_2345, USER, false);

/// Each word with the leaves that a store to it can take away, and their ages. Where Sv39 has the
/// root of Sv48, the other root is a table of level 1, and the tables below it of level 0.
const THROUGH_WORDS: [(At, &[LeafRow]); 8] = [
    (
        (SV39, 0x8000_0008),
        &[
            (ROOT_OF_SV39, SMALL, 5),
            (ROOT_OF_SV39, LARGE, 3),
            (ROOT_OF_SV48, LOW, 8),
            (ROOT_OF_SV48, HIGH, 9),
        ],
    ),
    ((SV39, 0x8000_1018), &[(ROOT_OF_SV39, SMALL, 5)]),
    ((SV39, 0x8000_202F), &[(ROOT_OF_SV39, SMALL, 5)]),
    (
        (SV39, 0x8000_0FF8),
        &[
            (ROOT_OF_SV39, GLOBAL, 7),
            (ROOT_OF_SV48, LOW_GLOBAL, 8),
            (ROOT_OF_SV48, HIGH_GLOBAL, 9),
        ],
    ),
    ((SV39, 0x8000_2020), &[]),
    ((SV39, 0x8000_0000), &[]),
    (
        (SV39, 0x8001_0008),
        &[(ROOT_OF_SV48, LOW, 8), (ROOT_OF_SV48, LOW_GLOBAL, 8)],
    ),
    (
        (SV48, 0x8000_2028),
        &[
            (ROOT_OF_SV48, SMALL_OF_SV48, 8),
            (ROOT_OF_SV48, SMALL_OF_SV48_HIGH, 9),
        ],
    ),
];

#[test]
fn leaves_through_each_word(rt: HostRuntime) {
    let tables = tables(&rt, rt.alloc());
    for (number, (at, rows)) in THROUGH_WORDS.iter().enumerate() {
        assert_row(
            &rt,
            number,
            has_leaves(&rt, rt.alloc(), &tables, *at, *rows),
        );
    }
}

/// A call of tables, and what they answer.
#[derive(Clone, Copy)]
enum Call {
    /// A word is stored at an address by the record of this number.
    Store(u64, u64, u64),
    Ways(u64, &'static [WayRow]),
    Leaves(u64, &'static [LeafRow]),
}

fn is_answered(rt: &impl Abort, alloc: Global, tables: &mut PageTables, call: &Call) -> bool {
    match *call {
        Call::Store(address, word, number) => {
            store(rt, tables, address, word, number);
            true
        }
        Call::Ways(address, rows) => has_ways(rt, alloc, tables, (SV39, address), rows),
        Call::Leaves(address, rows) => has_leaves(rt, alloc, tables, (SV39, address), rows),
    }
}

fn are_answered(rt: &impl Abort, alloc: Global, tables: &mut PageTables, calls: &[Call]) {
    for (number, call) in calls.iter().enumerate() {
        assert_row(rt, number, is_answered(rt, alloc, tables, call));
    }
}

const OTHER: Row = (0x8060_5000, PageSize::Kib4, 0x1_2345, USER, false);

/// A second root points to the same table.
const SHARED: [Call; 2] = [
    Call::Store(0x8002_0010, 0x2000_0401, 20),
    Call::Leaves(
        0x8000_2028,
        &[(ROOT_OF_SV39, SMALL, 5), (0x8_0020, OTHER, 20)],
    ),
];

/// A pointer that is overwritten points no more, and one that is stored again is as new as that.
const OVERWRITTEN: [Call; 9] = [
    Call::Store(0x8000_1018, 0x2000_1001, 30),
    Call::Ways(0x8000_2000, &[(0x8_0002, 2, 0)]),
    Call::Ways(
        0x8000_4000,
        &[(0x8_0004, 2, 0), (0x8_0001, 1, 3), (ROOT_OF_SV39, 0, 0x203)],
    ),
    Call::Store(0x8000_1018, 0x2000_0801, 31),
    Call::Leaves(0x8000_2028, &[(ROOT_OF_SV39, SMALL, 31)]),
    Call::Store(0x8000_1018, 0x2000_0801, 32),
    Call::Leaves(0x8000_2028, &[(ROOT_OF_SV39, SMALL, 32)]),
    Call::Store(0x8000_1018, 0, 33),
    Call::Ways(0x8000_2000, &[(0x8_0002, 2, 0)]),
];

#[test]
fn leaves_of_a_shared_table(rt: HostRuntime) {
    are_answered(&rt, rt.alloc(), &mut tables(&rt, rt.alloc()), &SHARED);
}

#[test]
fn pointers_are_overwritten(rt: HostRuntime) {
    are_answered(&rt, rt.alloc(), &mut tables(&rt, rt.alloc()), &OVERWRITTEN);
}

const GIB: Row = (0x1_C000_0000, PageSize::Gib1, 0x4_0000, USER, false);

const MIB: Row = (0x1_40E0_0000, PageSize::Mib2, 0x4_0000, USER, false);

const KIB: Row = (0x1_40A0_7000, PageSize::Kib4, 0x4_0000, USER, false);

/// A table that points to itself is at each level, and so is its leaf.
const TO_ITSELF: [Call; 4] = [
    Call::Store(0x9000_0028, 0x2400_0001, 1),
    Call::Store(0x9000_0038, 0x1000_00D7, 2),
    Call::Ways(
        0x9000_0038,
        &[(0x9_0000, 2, 0), (0x9_0000, 1, 5), (0x9_0000, 0, 0xA05)],
    ),
    Call::Leaves(
        0x9000_0038,
        &[(0x9_0000, GIB, 2), (0x9_0000, MIB, 2), (0x9_0000, KIB, 2)],
    ),
];

#[test]
fn table_that_points_to_itself(rt: HostRuntime) {
    let mut tables = PageTables::new(rt.alloc());
    are_answered(&rt, rt.alloc(), &mut tables, &TO_ITSELF);
    let by_pointer = leaves(&rt, rt.alloc(), &tables, (SV39, 0x9000_0028));
    assert_row(&rt, 4, has_leaf(&by_pointer, SV39, 0x9_0000, &MIB, 2));
    assert_row(&rt, 5, has_leaf(&by_pointer, SV39, 0x9_0000, &KIB, 2));
}

/// Whether these are the addresses of the words of frames.
fn has_words(
    rt: &impl Abort,
    alloc: Global,
    tables: &PageTables,
    frames: Frames,
    rows: &[u64],
) -> bool {
    let filled = tables.stored_in(alloc, frames).ok().expect(rt, "memory");
    filled.as_slice() == rows
}

fn has_page(rt: &impl Abort, tables: &PageTables, row: &Row) -> bool {
    tables.has_leaf(SV39, ROOT_OF_SV39, &entry_of_sv39(rt, row))
}

const FRAMES: Frames = Frames {
    first: 0x8_0001,
    count: 2,
};

const IN_FRAMES: [u64; 3] = [0x8000_1010, 0x8000_1018, 0x8000_2028];

const LEFT: [u64; 3] = [0x8000_0000, 0x8000_0008, 0x8000_0FF8];

/// The words of frames, and what points from them, until they are cleared.
#[test]
fn frames_are_cleared(rt: HostRuntime) {
    let mut tables = tables(&rt, rt.alloc());
    assert_row(
        &rt,
        0,
        has_words(&rt, rt.alloc(), &tables, FRAMES, &IN_FRAMES),
    );
    tables.clear(FRAMES);
    assert_row(&rt, 1, has_words(&rt, rt.alloc(), &tables, FRAMES, &[]));
    let lowest = (SV39, 0x8000_2000);
    assert_row(
        &rt,
        2,
        has_ways(&rt, rt.alloc(), &tables, lowest, &[(0x8_0002, 2, 0)]),
    );
    let to_middle = ways(&rt, rt.alloc(), &tables, (SV39, 0x8000_1000));
    assert_row(&rt, 3, to_middle.len() == 4);
    assert_row(&rt, 4, !has_page(&rt, &tables, &SMALL));
    let (first, count) = (0x8_0002, u64::MAX);
    tables.clear(Frames { first, count });
    assert_row(&rt, 5, !has_page(&rt, &tables, &GLOBAL));
    let all = Frames { first: 0, count };
    assert_row(&rt, 6, has_words(&rt, rt.alloc(), &tables, all, &LEFT));
}

/// Whether a page lies below a word, by one of the ways from the root of Sv39.
fn is_below(ways: &[Way], address: u64, page: Page) -> bool {
    let mut is_below = false;
    for way in ways {
        if way.root == ROOT_OF_SV39 {
            is_below |= way.is_below(SV39, address, page);
        }
    }
    is_below
}

/// A word, and which of the three pages lie below it.
const BELOW: [(u64, [bool; 3]); 5] = [
    (0x8000_0008, [true, true, false]),
    (0x8000_0FF8, [false, false, true]),
    (0x8000_1018, [true, false, false]),
    (0x8000_2028, [true, false, false]),
    (0x8000_2030, [false, false, false]),
];

fn are_below(rt: &impl Abort, ways: &[Way], address: u64) -> [bool; 3] {
    [
        is_below(ways, address, entry_of_sv39(rt, &SMALL).page),
        is_below(ways, address, entry_of_sv39(rt, &LARGE).page),
        is_below(ways, address, entry_of_sv39(rt, &GLOBAL).page),
    ]
}

/// A page lies below the words on its path, by the way to each.
#[test]
fn page_below_a_word(rt: HostRuntime) {
    let tables = tables(&rt, rt.alloc());
    for (number, (address, below)) in BELOW.iter().enumerate() {
        let ways = ways(&rt, rt.alloc(), &tables, (SV39, *address));
        assert_row(&rt, number, are_below(&rt, &ways, *address) == *below);
    }
}
