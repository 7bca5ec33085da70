//! Addresses and pages: tables worked by hand from the fields and rules of the RISC-V privileged
//! manual, chapter 4.

use crate::common::{address, assert_row, page};
use pte::{Page, PageSize, Scheme, VirtAddr};
use std::process::Abort;

const CANONICAL: [(u64, bool); 10] = [
    (0, true),
    (0x3F_FFFF_FFFF, true),
    (0x40_0000_0000, false),
    (0x7F_FFFF_FFFF, false),
    (0x80_0000_0000, false),
    (0x8000_0000_0000_0000, false),
    (0xFFFF_FF80_0000_0000, false),
    (0xFFFF_FFBF_FFFF_FFFF, false),
    (0xFFFF_FFC0_0000_0000, true),
    (u64::MAX, true),
];

/// Bits 63 to 39 equal bit 38.
#[test]
fn canonical_addresses(rt: HostRuntime) {
    for (number, (va, is_canonical)) in CANONICAL.iter().enumerate() {
        assert_row(&rt, number, VirtAddr::new(*va).is_some() == *is_canonical);
    }
}

/// Whether an address is canonical in each scheme as `in_39` and `in_48` say, by each way to make
/// it.
fn is_canonical(va: u64, in_39: bool, in_48: bool) -> bool {
    let narrow = VirtAddr::new_in(Scheme::Sv39, va);
    let is_wide = match VirtAddr::new_in(Scheme::Sv48, va) {
        Some(address) => in_48 && address.get() == va,
        None => !in_48,
    };
    is_wide && narrow.is_some() == in_39 && VirtAddr::new(va) == narrow
}

const CANONICAL_IN_EACH: [(u64, bool, bool); 14] = [
    (0, true, true),
    (0x3F_FFFF_FFFF, true, true),
    (0x40_0000_0000, false, true),
    (0x7FFF_FFFF_FFFF, false, true),
    (0x8000_0000_0000, false, false),
    (0xFFFF_FFFF_FFFF, false, false),
    (0x1_0000_0000_0000, false, false),
    (0x8000_0000_0000_0000, false, false),
    (0xFFFF_0000_0000_0000, false, false),
    (0xFFFF_7FFF_FFFF_FFFF, false, false),
    (0xFFFF_8000_0000_0000, false, true),
    (0xFFFF_FFBF_FFFF_FFFF, false, true),
    (0xFFFF_FFC0_0000_0000, true, true),
    (u64::MAX, true, true),
];

/// In Sv39 bits 63 to 39 equal bit 38, in Sv48 bits 63 to 48 equal bit 47: an address, and whether
/// it is canonical in each.
#[test]
fn canonical_addresses_of_each_scheme(rt: HostRuntime) {
    for (number, (va, in_39, in_48)) in CANONICAL_IN_EACH.iter().enumerate() {
        assert_row(&rt, number, is_canonical(*va, *in_39, *in_48));
    }
}

fn has_levels(scheme: Scheme, top: u8, bits: u32) -> bool {
    scheme.top_level() == top && scheme.address_bits() == bits
}

#[test]
fn levels_of_each_scheme(rt: HostRuntime) {
    assert_row(&rt, 0, has_levels(Scheme::Sv39, 2, 39));
    assert_row(&rt, 1, has_levels(Scheme::Sv48, 3, 48));
    assert!(rt; Scheme::default() == Scheme::Sv39);
}

fn has_fields(va: VirtAddr, vpns: [u16; 4], offset: u16) -> bool {
    [va.vpn(3), va.vpn(2), va.vpn(1), va.vpn(0)] == vpns && va.offset() == offset
}

const FIELDS: [(u64, [u16; 4], u16); 7] = [
    (0x2A_F879_FABC, [0, 0x0AB, 0x1C3, 0x19F], 0xABC),
    (0xFFFF_FFFF_FFFF_F000, [511, 511, 511, 511], 0),
    (0xFFFF_FFC0_0020_1FFF, [511, 256, 1, 1], 0xFFF),
    (0x80_8040_3ABC, [1, 2, 2, 3], 0xABC),
    (0x7FFF_FFFF_FFFF, [255, 511, 511, 511], 0xFFF),
    (0xFFFF_8000_0000_0000, [256, 0, 0, 0], 0),
    (0x7F_FFFF_FFFF, [0, 511, 511, 511], 0xFFF),
];

/// VPN[3] is bits 47 to 39, VPN[2] bits 38 to 30, VPN[1] bits 29 to 21, VPN[0] bits 20 to 12, and
/// the offset bits 11 to 0.
#[test]
fn fields_of_an_address(rt: HostRuntime) {
    for (number, (va, vpns, offset)) in FIELDS.iter().enumerate() {
        assert_row(&rt, number, has_fields(address(&rt, *va), *vpns, *offset));
    }
}

fn has_extent(size: PageSize, level: u8, bytes: u64, pages: u64) -> bool {
    size.level() == level
        && size.bytes() == bytes
        && size.pages() == pages
        && PageSize::at_level(size.level()) == size
}

#[test]
fn sizes_of_pages(rt: HostRuntime) {
    assert_row(&rt, 0, has_extent(PageSize::Kib4, 0, 0x1000, 1));
    assert_row(&rt, 1, has_extent(PageSize::Mib2, 1, 0x20_0000, 512));
    assert_row(&rt, 2, has_extent(PageSize::Gib1, 2, 0x4000_0000, 0x4_0000));
    assert_row(
        &rt,
        3,
        has_extent(PageSize::Gib512, 3, 0x80_0000_0000, 0x800_0000),
    );
}

/// Whether the page of a size around an address has this base.
fn has_base(va: VirtAddr, size: PageSize, base: u64) -> bool {
    let page = Page::around(va, size);
    page.base().get() == base && page.size() == size
}

/// A base, a size, and whether there is that page.
const BASES: [(u64, PageSize, bool); 14] = [
    (0x1000, PageSize::Kib4, true),
    (0x800, PageSize::Kib4, false),
    (0x20_0000, PageSize::Mib2, true),
    (0x10_0000, PageSize::Mib2, false),
    (0x20_1000, PageSize::Mib2, false),
    (0x4000_0000, PageSize::Gib1, true),
    (0x2000_0000, PageSize::Gib1, false),
    (0x4020_0000, PageSize::Gib1, false),
    (0, PageSize::Gib512, true),
    (0x80_0000_0000, PageSize::Gib512, true),
    (0x40_0000_0000, PageSize::Gib512, false),
    (0x80_4000_0000, PageSize::Gib512, false),
    (0xFFFF_FF80_0000_0000, PageSize::Gib512, true),
    (0xFFFF_FFC0_0000_0000, PageSize::Gib512, false),
];

#[test]
fn bases_that_a_page_may_have(rt: HostRuntime) {
    for (number, (base, size, is_page)) in BASES.iter().enumerate() {
        let is_made = Page::new(address(&rt, *base), *size).is_ok();
        assert_row(&rt, number, is_made == *is_page);
    }
}

/// The base of each page that has the address 0x8080403ABC.
#[test]
fn bases_of_pages(rt: HostRuntime) {
    let va = address(&rt, 0x80_8040_3ABC);
    assert_row(&rt, 0, has_base(va, PageSize::Kib4, 0x80_8040_3000));
    assert_row(&rt, 1, has_base(va, PageSize::Mib2, 0x80_8040_0000));
    assert_row(&rt, 2, has_base(va, PageSize::Gib1, 0x80_8000_0000));
    assert_row(&rt, 3, has_base(va, PageSize::Gib512, 0x80_0000_0000));
}

/// Whether the page with this base fits each scheme as `in_39` and `in_48` say, and is made there.
fn fits_as(base: VirtAddr, size: PageSize, in_39: bool, in_48: bool) -> bool {
    let page = Page::around(base, size);
    let narrow = Page::at(Scheme::Sv39, base.get(), size);
    let wide = Page::at(Scheme::Sv48, base.get(), size);
    let fits = page.fits(Scheme::Sv39) == in_39 && page.fits(Scheme::Sv48) == in_48;
    page.base() == base && fits && narrow.is_ok() == in_39 && wide.is_ok() == in_48
}

const FITTING: [(u64, PageSize, bool, bool); 12] = [
    (0x3F_FFFF_F000, PageSize::Kib4, true, true),
    (0x40_0000_0000, PageSize::Kib4, false, true),
    (0x3F_C000_0000, PageSize::Gib1, true, true),
    (0x40_0000_0000, PageSize::Gib1, false, true),
    (0x40_0000_0000, PageSize::Mib2, false, true),
    (0, PageSize::Gib512, false, true),
    (0x80_0000_0000, PageSize::Gib512, false, true),
    (0xFFFF_FF80_0000_0000, PageSize::Gib512, false, true),
    (0xFFFF_8000_0000_0000, PageSize::Gib512, false, true),
    (0xFFFF_FFBF_FFFF_F000, PageSize::Kib4, false, true),
    (0xFFFF_FFC0_0000_0000, PageSize::Gib1, true, true),
    (0xFFFF_FFFF_FFFF_F000, PageSize::Kib4, true, true),
];

/// A base, a size, and whether there is that page in Sv39 and in Sv48.
#[test]
fn pages_that_fit_a_scheme(rt: HostRuntime) {
    for (number, (base, size, in_39, in_48)) in FITTING.iter().enumerate() {
        let base = address(&rt, *base);
        assert_row(&rt, number, fits_as(base, *size, *in_39, *in_48));
    }
}

/// Which addresses lie in the page.
fn lie_in(rt: &impl Abort, page: &Page, rows: &[(u64, bool)]) {
    for (number, (va, lies_in)) in rows.iter().enumerate() {
        assert_row(rt, number, page.contains(address(rt, *va)) == *lies_in);
    }
}

/// Whether two pages have an address in common, asked of each.
fn overlap_as(one: &Page, other: &Page, overlaps: bool) -> bool {
    one.overlaps(other) == overlaps && other.overlaps(one) == overlaps
}

const OVERLAPPING: [(u64, PageSize, bool); 11] = [
    (0x3F_F000, PageSize::Kib4, false),
    (0x40_0000, PageSize::Kib4, true),
    (0x40_1000, PageSize::Kib4, true),
    (0x5F_F000, PageSize::Kib4, true),
    (0x60_0000, PageSize::Kib4, false),
    (0x20_0000, PageSize::Mib2, false),
    (0x40_0000, PageSize::Mib2, true),
    (0, PageSize::Gib1, true),
    (0x4000_0000, PageSize::Gib1, false),
    (0, PageSize::Gib512, true),
    (0x80_0000_0000, PageSize::Gib512, false),
];

const LAST: [(u64, bool); 1] = [(u64::MAX, true)];

const IN_LARGE: [(u64, bool); 4] = [
    (0x3F_FFFF, false),
    (0x40_0000, true),
    (0x5F_FFFF, true),
    (0x60_0000, false),
];

const IN_WIDEST: [(u64, bool); 4] = [
    (0x7F_FFFF_FFFF, false),
    (0x80_0000_0000, true),
    (0xFF_FFFF_FFFF, true),
    (0x100_0000_0000, false),
];

/// The pages with an address in common with the 2 MiB at 0x400000.
#[test]
fn pages_that_overlap(rt: HostRuntime) {
    let large = page(&rt, 0x40_0000, PageSize::Mib2);
    for (number, (base, size, overlaps)) in OVERLAPPING.iter().enumerate() {
        let other = Page::around(address(&rt, *base), *size);
        assert_row(&rt, number, overlap_as(&large, &other, *overlaps));
    }
}

/// Which addresses lie in the page of a size around an address, which overlaps itself.
fn has_parts(rt: &impl Abort, va: u64, size: PageSize, rows: &[(u64, bool)]) {
    let page = Page::around(address(rt, va), size);
    lie_in(rt, &page, rows);
    assert!(rt; page.overlaps(&page));
}

#[test]
fn parts_of_a_page(rt: HostRuntime) {
    has_parts(&rt, 0x40_0000, PageSize::Mib2, &IN_LARGE);
    has_parts(&rt, u64::MAX, PageSize::Kib4, &LAST);
    has_parts(&rt, 0x80_0000_0000, PageSize::Gib512, &IN_WIDEST);
    has_parts(&rt, u64::MAX, PageSize::Gib512, &LAST);
}
