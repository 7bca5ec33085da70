//! What faults and traps are printed as.

use crate::common::{address, assert_row, flags};
use pte::{LeafFault, NotPage, Page, PageSize, Pte, Scheme};
use std::alloc::Global;
use std::error::Error;
use std::process::Abort;
use walk::{Trap, Why};

/// Whether an error is printed as this text.
fn is_told(rt: &impl Abort, alloc: Global, fault: &impl Error, text: &str) -> bool {
    let told = format!(in alloc; "{fault}").ok().expect(rt, "memory");
    told.as_str() == text
}

#[test]
fn faults_of_entries(rt: HostRuntime) {
    let without_flags = Pte::leaf(0x100, flags(0)).err();
    assert_row(&rt, 0, without_flags == Some(LeafFault::BadFlags));
    let wide = Pte::leaf(1 << 44, flags(0x02)).err();
    assert_row(&rt, 1, wide == Some(LeafFault::PpnTooLarge));
    let text = "a leaf has neither R nor X, or W without R";
    assert_row(&rt, 2, is_told(&rt, rt.alloc(), &LeafFault::BadFlags, text));
    let text = "a PPN has more than 44 bits";
    assert_row(
        &rt,
        3,
        is_told(&rt, rt.alloc(), &LeafFault::PpnTooLarge, text),
    );
}

#[test]
fn faults_of_pages(rt: HostRuntime) {
    let unaligned = Page::new(address(&rt, 0x1000), PageSize::Mib2)
        .err()
        .expect(&rt, "a fault");
    let text = "the address is no multiple of the page's size";
    assert!(rt; is_told(&rt, rt.alloc(), &unaligned, text));
}

/// An address and a size of Sv39, and why there is no page: the first reason of those that apply.
const NO_PAGES: [(u64, PageSize, NotPage, &str); 4] = [
    (
        0,
        PageSize::Gib512,
        NotPage::NoSuchSize,
        "the scheme has no pages of this size",
    ),
    (
        0x40_0000_0001,
        PageSize::Gib512,
        NotPage::NoSuchSize,
        "the scheme has no pages of this size",
    ),
    (
        0x40_0000_0001,
        PageSize::Gib1,
        NotPage::NotCanonical,
        "the address is not canonical in the scheme",
    ),
    (
        0x20_1000,
        PageSize::Mib2,
        NotPage::Unaligned,
        "the address is no multiple of the page's size",
    ),
];

#[test]
fn faults_of_pages_of_a_scheme(rt: HostRuntime) {
    for (number, (va, size, why, text)) in NO_PAGES.iter().enumerate() {
        let fault = Page::at(Scheme::Sv39, *va, *size)
            .err()
            .expect(&rt, "a fault");
        assert_row(&rt, number, fault == *why);
        assert_row(&rt, number, is_told(&rt, rt.alloc(), &fault, text));
    }
}

const TRAPS: [(u8, Why, &str); 9] = [
    (
        12,
        Why::NotCanonical,
        "exception 12: the address is not canonical",
    ),
    (
        5,
        Why::Outside,
        "exception 5: the table's word lies outside memory",
    ),
    (13, Why::Invalid, "exception 13: V is clear"),
    (13, Why::Reserved, "exception 13: the word is reserved"),
    (
        13,
        Why::TooDeep,
        "exception 13: there is a pointer at level 0",
    ),
    (
        12,
        Why::Denied,
        "exception 12: the flags do not permit the access",
    ),
    (
        13,
        Why::Misaligned,
        "exception 13: the superpage's PPN is no multiple of its size",
    ),
    (13, Why::NotAccessed, "exception 13: A is clear"),
    (15, Why::NotDirty, "exception 15: D is clear"),
];

#[test]
fn traps(rt: HostRuntime) {
    for (number, (cause, why, text)) in TRAPS.iter().enumerate() {
        let trap = Trap {
            cause: *cause,
            why: *why,
        };
        assert_row(&rt, number, is_told(&rt, rt.alloc(), &trap, *text));
    }
}
