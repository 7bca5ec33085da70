//! The words of requests in the order of their bits.

use crate::common::{assert_row, page};
use pte::{PageSize, What};
use shoot::{Request, encode};
use std::test::*;

#[test]
fn words_worked_out_by_hand(rt: HostRuntime) {
    let large = page(&rt, 0x40_0000, PageSize::Mib2);
    let kernel = page(&rt, 0xFFFF_FFFF_C000_0000, PageSize::Kib4);
    let largest = page(&rt, 0x80_0000_0000, PageSize::Gib512);
    let rows = [
        (What::PageOf(large, Some(1)), 0x8010_0010_0000_0400),
        (What::PageOf(kernel, None), 0x8040_000F_FFFC_0000),
        (What::All, 0x80C0_0000_0000_0000),
        (What::PageOf(largest, Some(1)), 0x8030_0010_0800_0000),
    ];
    for (number, (what, word)) in rows.iter().enumerate() {
        let request = Request {
            ticket: 0,
            what: *what,
        };
        assert_row(&rt, number, encode(&request) == *word);
    }
}

/// Whether the request of this number is the first of these whose word under ticket 0 is this one.
fn is_first_with(requests: &[What], number: usize, word: u64) -> bool {
    for (place, what) in requests.iter().enumerate() {
        let request = Request {
            ticket: 0,
            what: *what,
        };
        if encode(&request) == word {
            return place == number;
        }
    }
    false
}

/// The words of requests that differ in one thing alone: the size, the ASID, the address, and
/// whether they speak of a global page, of a space or of all.
#[test]
fn words_tell_requests_apart_and_no_tickets(rt: HostRuntime) {
    let small = page(&rt, 0, PageSize::Kib4);
    let low = page(&rt, 0x7FFF_FFFF_F000, PageSize::Kib4);
    let high = page(&rt, 0xFFFF_8000_0000_0000, PageSize::Kib4);
    let requests = [
        What::PageOf(small, Some(0)),
        What::PageOf(small, Some(0xFFFF)),
        What::PageOf(small, None),
        What::PageOf(page(&rt, 0, PageSize::Mib2), Some(0)),
        What::PageOf(page(&rt, 0, PageSize::Gib1), Some(0)),
        What::PageOf(page(&rt, 0, PageSize::Gib512), Some(0)),
        What::PageOf(low, Some(0)),
        What::PageOf(high, Some(0)),
        What::SpaceOf(0),
        What::SpaceOf(0xFFFF),
        What::All,
    ];
    for (number, what) in requests.iter().enumerate() {
        let request = Request {
            ticket: 63,
            what: *what,
        };
        let word = encode(&request);
        assert_row(&rt, number, is_first_with(&requests, number, word));
    }
}
