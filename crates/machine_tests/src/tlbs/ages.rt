//! The oldest entry of a TLB answers, and is dropped by the fill of a full one.

use super::{Base, ppn_at};
use crate::common::{assert_row, flags, page};
use pte::{PageSize, What};
use std::process::Abort;
use tlb::{Entry, Tlb};

/// An entry of the address space 1 with R, U, A and D.
fn entry_at(rt: &impl Abort, base: Base, ppn: u64) -> Entry {
    Entry {
        asid: 1,
        global: false,
        page: page(rt, base.0, base.1),
        ppn,
        flags: flags(0xD2),
    }
}

/// Fills a TLB with the k-th page of 4 KiB, mapped to a PPN for loads by U-mode.
fn fill_page(rt: &impl Abort, tlb: &mut Tlb, k: u16, ppn: u64) {
    let base = (u64::from(k) * 0x1000, PageSize::Kib4);
    tlb.fill(entry_at(rt, base, ppn));
}

/// Fills it with as many pages as there are from the first to before the end.
fn fill_pages(rt: &impl Abort, tlb: &mut Tlb, first: u16, end: u16) {
    for k in first..end {
        fill_page(rt, tlb, k, 0x300);
    }
}

#[test]
fn a_page_filled_twice_is_there_twice(rt: HostRuntime) {
    let mut tlb = Tlb::new();
    fill_page(&rt, &mut tlb, 1, 0x100);
    fill_page(&rt, &mut tlb, 1, 0x200);
    assert_row(&rt, 0, ppn_at(&rt, &tlb, 1, 0x1000) == Some(0x100));
    fill_pages(&rt, &mut tlb, 2, 16);
    assert_row(&rt, 1, ppn_at(&rt, &tlb, 1, 0x1000) == Some(0x100));
    fill_page(&rt, &mut tlb, 16, 0x300);
    assert_row(&rt, 2, ppn_at(&rt, &tlb, 1, 0x1000) == Some(0x200));
    fill_page(&rt, &mut tlb, 17, 0x300);
    assert_row(&rt, 3, ppn_at(&rt, &tlb, 1, 0x1000).is_none());
}

/// Each with the page of a size at 0 or, of the smallest, at 0x1000: the address 0x1000 lies in all
/// three.
#[test]
fn of_three_sizes_the_oldest_answers(rt: HostRuntime) {
    let mut tlb = Tlb::new();
    tlb.fill(entry_at(&rt, (0, PageSize::Gib1), 0x4_0000));
    tlb.fill(entry_at(&rt, (0x1000, PageSize::Kib4), 0x101));
    tlb.fill(entry_at(&rt, (0, PageSize::Mib2), 0x200));
    assert_row(&rt, 0, ppn_at(&rt, &tlb, 1, 0x1000) == Some(0x4_0000));
    let other = page(&rt, 0x4_0000, PageSize::Kib4);
    tlb.serve(&What::PageOf(other, Some(1)));
    assert_row(&rt, 1, ppn_at(&rt, &tlb, 1, 0x1000) == Some(0x101));
    fill_pages(&rt, &mut tlb, 2, 17);
    assert_row(&rt, 2, ppn_at(&rt, &tlb, 1, 0x1000) == Some(0x101));
    fill_page(&rt, &mut tlb, 17, 0x300);
    assert_row(&rt, 3, ppn_at(&rt, &tlb, 1, 0x1000).is_none());
}
