//! What fences and services drop and leave, and which of several entries answers.

use super::{
    AnswerRow, Asked, Base, DropRow, Probe, SMALL, SV39, SV48, WIDEST, are_answered, are_dropped,
    entry_of, filled, is_there, lookup,
};
use crate::common::assert_row;
use pte::{PageSize, Scheme};
use std::process::Abort;
use tlb::Tlb;

/// The page of 4 KiB at 0, in the address space 0, with R.
const ZERO: Probe = Probe {
    asid: 0,
    global: false,
    base: (0, SMALL),
    ppn: 0x4_0000,
    flags: 0x02,
    at: (0, 0),
};

/// This page, the next one, that of the address space 1, and one that is global.
const FOUR: [Probe; 4] = [
    ZERO,
    Probe {
        base: (0x1000, SMALL),
        at: (0, 0x1000),
        ..ZERO
    },
    Probe {
        asid: 1,
        at: (1, 0),
        ..ZERO
    },
    Probe {
        global: true,
        at: (2, 0),
        ..ZERO
    },
];

const OF_FOUR: [DropRow; 7] = [
    (
        SV39,
        Asked::Fence(Some(0), None),
        &[false, true, false, false],
    ),
    (
        SV39,
        Asked::Fence(None, Some(0)),
        &[false, false, true, true],
    ),
    (
        SV39,
        Asked::Fence(None, Some(0x10000)),
        &[false, false, true, true],
    ),
    (
        SV39,
        Asked::Fence(Some(0), Some(0)),
        &[false, true, true, true],
    ),
    (
        SV39,
        Asked::Fence(Some(0xFFF), Some(1)),
        &[true, true, false, true],
    ),
    (
        SV39,
        Asked::Fence(Some(0x40_0000_0000), None),
        &[true, true, true, true],
    ),
    (
        SV39,
        Asked::Fence(None, None),
        &[false, false, false, false],
    ),
];

#[test]
fn fences(rt: HostRuntime) {
    are_dropped(&rt, &FOUR, &OF_FOUR);
}

/// The page of 2 MiB at 0x400000, in the address space 1.
const LARGE: Base = (0x40_0000, PageSize::Mib2);

const LARGE_OF_1: Probe = Probe {
    asid: 1,
    base: LARGE,
    at: (1, 0x40_2000),
    ..ZERO
};

/// This page, its last page of 4 KiB, one of its pages that is global, the same 2 MiB of the
/// address space 2, the 1 GiB around them, and the page of 4 KiB behind the 2 MiB.
const SIX: [Probe; 6] = [
    LARGE_OF_1,
    Probe {
        base: (0x5F_F000, SMALL),
        at: (1, 0x5F_F000),
        ..LARGE_OF_1
    },
    Probe {
        global: true,
        base: (0x40_1000, SMALL),
        at: (3, 0x40_1000),
        ..LARGE_OF_1
    },
    Probe {
        asid: 2,
        at: (2, 0x40_2000),
        ..LARGE_OF_1
    },
    Probe {
        base: (0, PageSize::Gib1),
        at: (1, 0),
        ..LARGE_OF_1
    },
    Probe {
        base: (0x60_0000, SMALL),
        at: (1, 0x60_0000),
        ..LARGE_OF_1
    },
];

const SMALL_PAGE: Base = (0x40_1000, SMALL);

/// Fences of an address in larger pages, and services.
const OF_SIX: [DropRow; 7] = [
    (
        SV39,
        Asked::Fence(Some(0x5F_FFFF), None),
        &[false, false, true, false, false, true],
    ),
    (
        SV39,
        Asked::Fence(Some(0x40_1FFF), Some(1)),
        &[false, true, true, true, false, true],
    ),
    (
        SV39,
        Asked::PageOf(LARGE, Some(1)),
        &[false, false, true, true, false, true],
    ),
    (
        SV39,
        Asked::PageOf(SMALL_PAGE, Some(1)),
        &[false, true, true, true, false, true],
    ),
    (
        SV39,
        Asked::PageOf(SMALL_PAGE, None),
        &[false, true, false, false, false, true],
    ),
    (
        SV39,
        Asked::SpaceOf(1),
        &[false, false, true, true, false, false],
    ),
    (SV39, Asked::All, &[false; 6]),
];

#[test]
fn fences_and_services_of_larger_pages(rt: HostRuntime) {
    are_dropped(&rt, &SIX, &OF_SIX);
}

const IN_SIX: [AnswerRow; 4] = [
    (1, 0x40_1000, Some(0)),
    (2, 0x40_1000, Some(2)),
    (2, 0x5F_F000, Some(3)),
    (3, 0x60_0000, None),
];

#[test]
fn the_oldest_match_answers(rt: HostRuntime) {
    let tlb = filled(&rt, SV39, &SIX);
    are_answered(&rt, &tlb, &SIX, &IN_SIX);
}

/// The first page of 4 KiB that Sv39 does not have, and one of the high half of Sv48.
const BEYOND: Probe = Probe {
    asid: 1,
    base: (0x40_0000_0000, SMALL),
    at: (1, 0x40_0000_0000),
    ..ZERO
};

const BEYOND_SV39: [Probe; 2] = [
    BEYOND,
    Probe {
        base: (0xFFFF_8000_0000_0000, SMALL),
        at: (1, 0xFFFF_8000_0000_0FFF),
        ..BEYOND
    },
];

/// The TLB's scheme decides what is canonical: an address that Sv39 does not have drops nothing
/// there.
const BY_SCHEME: [DropRow; 7] = [
    (
        SV48,
        Asked::Fence(Some(0x40_0000_0000), None),
        &[false, true],
    ),
    (
        SV48,
        Asked::Fence(Some(0x40_0000_0FFF), None),
        &[false, true],
    ),
    (
        SV48,
        Asked::Fence(Some(0x40_0000_1000), None),
        &[true, true],
    ),
    (
        SV48,
        Asked::Fence(Some(0xFFFF_8000_0000_0000), None),
        &[true, false],
    ),
    (
        SV48,
        Asked::Fence(Some(0x8000_0000_0000), None),
        &[true, true],
    ),
    (
        SV39,
        Asked::Fence(Some(0x40_0000_0000), None),
        &[true, true],
    ),
    (
        SV39,
        Asked::Fence(Some(0xFFFF_8000_0000_0000), None),
        &[true, true],
    ),
];

#[test]
fn fences_by_the_scheme(rt: HostRuntime) {
    are_dropped(&rt, &BEYOND_SV39, &BY_SCHEME);
}

/// Whether an empty TLB, once filled with a page that Sv39 does not have, keeps it at a fence of
/// its address.
fn stays(rt: &impl Abort, mut tlb: Tlb) -> bool {
    assert!(rt; lookup(rt, &tlb, 1, 0x40_0000_0000).is_none());
    tlb.fill(entry_of(rt, &BEYOND));
    tlb.fence(Some(0x40_0000_0000), None);
    is_there(rt, &tlb, &BEYOND)
}

/// A TLB that is made without a scheme is of Sv39.
#[test]
fn schemes_of_new_tlbs(rt: HostRuntime) {
    assert_row(&rt, 0, stays(&rt, Tlb::new()));
    assert_row(&rt, 1, stays(&rt, Tlb::default()));
    assert_row(&rt, 2, stays(&rt, Tlb::new_in(Scheme::Sv39)));
    assert_row(&rt, 3, !stays(&rt, Tlb::new_in(Scheme::Sv48)));
}

/// The page of 4 KiB right before the widest one, and an entry of the widest, with R, U and A.
const PAGE_BEFORE: Base = (0x7F_FFFF_F000, SMALL);

const WIDEST_ENTRY: Probe = Probe {
    asid: 1,
    global: false,
    base: WIDEST,
    ppn: 0x1000_0000,
    flags: 0x52,
    at: (1, 0xFF_FFFF_FFFF),
};

const NEIGHBOURS: [Probe; 2] = [
    Probe {
        base: PAGE_BEFORE,
        ppn: 0x4_0000,
        at: (1, 0x7F_FFFF_F000),
        ..WIDEST_ENTRY
    },
    WIDEST_ENTRY,
];

/// A service of the page for every ASID, which no order for a page of a space asks for.
const OF_NEIGHBOURS: [DropRow; 1] = [(SV48, Asked::PageOf(WIDEST, None), &[true, false])];

#[test]
fn an_entry_of_512_gib(rt: HostRuntime) {
    are_dropped(&rt, &NEIGHBOURS, &OF_NEIGHBOURS);
}
