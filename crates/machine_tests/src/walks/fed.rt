//! Walks that are fed word by word, under Sv39 and under Sv48.

use super::sv48::{DEEP_VA, DEEP_WORDS};
use super::{ROOT, VA, WORDS};
use crate::common::{SUPER, USER, assert_row, flags};
use pte::{Access, Kind, Page, PageSize, Pte, Scheme, VirtAddr};
use std::ops::ControlFlow;
use walk::{Found, Progress, Trap, Walk, Why};

/// The walk after the first of these words, if it goes on after each.
fn fed_on(begun: Walk, words: &[u64], count: usize) -> Option<Walk> {
    let mut walk = begun;
    for (number, word) in words.iter().enumerate() {
        if number >= count {
            break;
        }
        let ControlFlow::Continue(next) = walk.load(Some(*word)).flow() else {
            return None;
        };
        walk = next;
    }
    Some(walk)
}

/// The walk of a store by U-mode after the first of the words.
fn fed(count: usize) -> Option<Walk> {
    let begun = Walk::begin(ROOT, VA, Access::Store, USER).ok()?;
    fed_on(begun, &WORDS, count)
}

/// The walk of a load by U-mode under Sv48 after the first of the deep words.
fn fed_deep(count: usize) -> Option<Walk> {
    let begun = Walk::begin_in(Scheme::Sv48, ROOT, DEEP_VA, Access::Load, USER).ok()?;
    fed_on(begun, &DEEP_WORDS, count)
}

/// Whether a walk is there, and waits for this word of this table.
fn is_waiting(walk: Option<Walk>, wanted: (u64, u16)) -> bool {
    match walk {
        Some(walk) => walk.wants() == wanted,
        None => false,
    }
}

fn ended(walk: Option<Walk>, word: Option<u64>) -> Option<Progress> {
    Some(walk?.load(word))
}

/// Whether no walk began, since the address is not canonical, and the answer is a trap of this
/// cause.
fn is_refused(begun: Result<Walk, Trap>, cause: u8) -> bool {
    let why = Why::NotCanonical;
    begun == Err(Trap { cause, why })
}

/// What a walk of each scheme waits for after so many words.
const WANTED: [(u64, u16); 3] = [(0x8_0000, 2), (0x8_0001, 2), (0x8_0002, 3)];

const WANTED_IN_SV48: [(u64, u16); 4] = [
    (0x8_0000, 1),
    (0x8_0001, 2),
    (0x8_0002, 2),
    (0x8_0003, 3),
];

#[test]
fn waits_for_a_word_of_each_level(rt: HostRuntime) {
    for (count, wanted) in WANTED.iter().enumerate() {
        assert_row(&rt, count, is_waiting(fed(count), *wanted));
    }
    for (count, wanted) in WANTED_IN_SV48.iter().enumerate() {
        assert_row(&rt, count, is_waiting(fed_deep(count), *wanted));
    }
}

#[test]
fn not_begun_at_an_address_that_is_not_canonical(rt: HostRuntime) {
    let low = Walk::begin(ROOT, 0x40_0000_0000, Access::Fetch, USER);
    assert_row(&rt, 0, is_refused(low, 12));
    let beyond = Walk::begin_in(Scheme::Sv48, ROOT, 0x8000_0000_0000, Access::Store, USER);
    assert_row(&rt, 1, is_refused(beyond, 15));
    let deep = Walk::begin_in(Scheme::Sv39, ROOT, DEEP_VA, Access::Store, USER);
    assert_row(&rt, 2, is_refused(deep, 15));
}

/// Whether a walk begins alike at an address and at its number.
fn begins_alike(scheme: Scheme) -> bool {
    match VirtAddr::new_in(scheme, VA) {
        Some(va) => {
            let walk = Walk::from_root(scheme, ROOT, va, Access::Store, SUPER);
            Walk::begin_in(scheme, ROOT, VA, Access::Store, SUPER) == Ok(walk)
        }
        None => false,
    }
}

#[test]
fn begun_at_an_address(rt: HostRuntime) {
    assert!(rt; begins_alike(Scheme::Sv39) && begins_alike(Scheme::Sv48));
}

const OUTSIDE: Trap = Trap {
    cause: 7,
    why: Why::Outside,
};

/// What a fed walk ends with, in full. A walk that is over gives its answer.
#[test]
fn fed_walks_end(rt: HostRuntime) {
    let va = VirtAddr::new(VA).expect(&rt, "a canonical address");
    let small = Found {
        pa: 0x1234_5ABC,
        page: Page::around(va, PageSize::Kib4),
        ppn: 0x1_2345,
        flags: flags(0xD6),
        global: false,
    };
    let leaf = Kind::Leaf {
        ppn: small.ppn,
        flags: small.flags,
    };
    assert_row(&rt, 0, Pte(WORDS[2]).kind() == leaf && va.offset() == 0xABC);
    let end = ended(fed(2), Some(WORDS[2]));
    assert_row(&rt, 1, end == Some(Progress::Found(small)));
    let large = Found {
        pa: 0x1220_3ABC,
        page: Page::around(va, PageSize::Mib2),
        ppn: 0x1_2200,
        ..small
    };
    let end = ended(fed(1), Some(0x488_00D7));
    assert_row(&rt, 2, end == Some(Progress::Found(large)));
    let over = ended(fed(1), None).expect(&rt, "an end");
    assert_row(&rt, 3, over == Progress::Trap(OUTSIDE));
    assert_row(&rt, 4, over.flow() == ControlFlow::Break(Err(OUTSIDE)));
}

fn is_deep_page(end: Option<Progress>) -> bool {
    match end {
        Some(Progress::Found(found)) => {
            found.page.base().get() == 0x80_8040_3000
                && found.pa == 0x1234_5ABC
                && found.ppn == 0x1_2345
                && !found.global
        }
        _ => false,
    }
}

/// A walk of Sv48 takes its page from the word of the last of four levels.
#[test]
fn fed_walk_of_sv48_ends(rt: HostRuntime) {
    assert!(rt; is_deep_page(ended(fed_deep(3), Some(DEEP_WORDS[3]))));
}
