//! The TLB of one hart alone: each kind of call on it, a given number of times.
//!
//! It begins with 16 entries of the address space 1, filled in the order of their numbers 0 to 15,
//! the one of number 5 global. Entry k begins at k + 1 times the size of its page: 1 GiB where k is
//! 7 or 15, 2 MiB where k is 3 or 11, else 4 KiB. No two overlap.
//!
//! What each kind makes each time, and what is counted:
//!
//! - `oldest`, `middle`, `youngest`: a look-up in the page of entry 0, 8 or 15; the look-ups that
//!   find it, which are all;
//! - `miss`: a look-up at 128 GiB, where no entry is; the look-ups that find one, which are none;
//! - `fill`: a fill of the next of 64 pages of 4 KiB; the pages that it holds at the end, which are
//!   the last 16;
//! - `serve`: such a fill, and the service of the page that was filled 8 fills before; the last 8;
//! - `fence_page`, `fence_page_of_space`: such a fill, and a fence of an address of that page, for
//!   any ASID or for 1; the last 8;
//! - `fence_space`: such a fill, and a fence of the ASID 1; the one of the global entry;
//! - `fence_all`: such a fill, and a fence of all; none.
//!
//! These are the counts of 64 times or more. The 64 pages are those from the address 0 on. While
//! nothing is dropped, which is during the first 8 fills, each fill takes out the oldest entry, so
//! the entries 0 to 7 go; those of 8 to 15 that have 4 KiB lie in the 64 pages, and go when these
//! are served or fenced. The fence of the ASID 1 leaves entry 5 from the first time on, whose page
//! at 0x6000 is one of the 64.
//!
//! So the file `stdout`, of 100,000 times, has 100,000 for each of the three look-ups that find, 0
//! for the miss, 16 for the fill, 8 for the service and the two fences of a page, 1 for the fence
//! of an address space, and 0 for that of all.

use pte::{Page, PageSize, PteFlags, VirtAddr, What};
use tlb::{Entry, Tlb};

/// How many pages are filled in turn.
const PAGES: u64 = 64;

/// How many fills later a page is served, or fenced.
const LATER: u64 = 8;

/// The kind of call that is repeated.
#[derive(Clone, Copy, PartialEq, Eq, Debug)]
pub enum Kind {
    /// A look-up of the entry of a number.
    Find(u64),
    Miss,
    Fill,
    Serve,
    FencePage,
    FencePageOfSpace,
    FenceSpace,
    FenceAll,
}

/// Each kind with its name.
pub fn kinds() -> [(Kind, &'static str); 10] {
    [
        (Kind::Find(0), "oldest"),
        (Kind::Find(8), "middle"),
        (Kind::Find(15), "youngest"),
        (Kind::Miss, "miss"),
        (Kind::Fill, "fill"),
        (Kind::Serve, "serve"),
        (Kind::FencePage, "fence_page"),
        (Kind::FencePageOfSpace, "fence_page_of_space"),
        (Kind::FenceSpace, "fence_space"),
        (Kind::FenceAll, "fence_all"),
    ]
}

/// The page of a size that has an address.
fn page(va: u64, size: PageSize) -> Page {
    Page::around(VirtAddr::new(va).unwrap_or_default(), size)
}

/// An entry of the address space 1.
fn entry(page: Page, ppn: u64, global: bool) -> Entry {
    Entry {
        asid: 1,
        global,
        page,
        ppn,
        flags: PteFlags::R | PteFlags::U | PteFlags::A,
    }
}

/// The page of an entry that the TLB holds at the beginning.
fn first_page(number: u64) -> Page {
    let size = match number % 8 {
        7 => PageSize::Gib1,
        3 => PageSize::Mib2,
        _ => PageSize::Kib4,
    };
    page((number % 16 + 1).wrapping_mul(size.bytes()), size)
}

/// The address of one of the pages that are filled in turn.
fn address(number: u64) -> u64 {
    number % PAGES * pte::PAGE_BYTES
}

/// The TLB at the beginning.
fn full() -> Tlb {
    let mut tlb = Tlb::new();
    for number in 0..16_u64 {
        tlb.fill(entry(first_page(number), number << 18, number == 5));
    }
    tlb
}

/// Whether a look-up of an address finds an entry.
fn is_found(tlb: &Tlb, va: u64) -> bool {
    tlb.lookup(1, VirtAddr::new(va).unwrap_or_default())
        .is_some()
}

/// How many of `count` look-ups find an entry. The addresses are read from a table, so that each
/// look-up is made again.
fn count_found(tlb: &Tlb, addresses: &[u64], count: u64) -> u64 {
    let mut found: u64 = 0;
    for number in 0..count {
        if let Some(va) = addresses.get((number % PAGES) as usize) {
            found = found.wrapping_add(u64::from(is_found(tlb, *va)));
        }
    }
    found
}

/// What follows a fill.
fn follow(tlb: &mut Tlb, kind: Kind, va: u64) {
    match kind {
        Kind::Serve => tlb.serve(&What::PageOf(page(va, PageSize::Kib4), Some(1))),
        Kind::FencePage => tlb.fence(Some(va), None),
        Kind::FencePageOfSpace => tlb.fence(Some(va), Some(1)),
        Kind::FenceSpace => tlb.fence(None, Some(1)),
        Kind::FenceAll => tlb.fence(None, None),
        Kind::Find(_) | Kind::Miss | Kind::Fill => {}
    }
}

/// How many of the pages the TLB holds after `count` fills, with what follows each of them.
fn count_left(kind: Kind, count: u64) -> u64 {
    let mut tlb = full();
    for number in 0..count {
        let va = address(number);
        tlb.fill(entry(page(va, PageSize::Kib4), number, false));
        follow(&mut tlb, kind, address(number.wrapping_sub(LATER)));
    }
    let mut left: u64 = 0;
    for number in 0..PAGES {
        left = left.wrapping_add(u64::from(is_found(&tlb, address(number))));
    }
    left
}

/// Makes a kind of call `count` times, and returns what is counted.
pub fn run(kind: Kind, count: u64) -> u64 {
    let base = match kind {
        Kind::Find(number) => first_page(number).base().get(),
        Kind::Miss => 0x20_0000_0000,
        _ => return count_left(kind, count),
    };
    let mut addresses = [base; PAGES as usize];
    for (number, va) in addresses.iter_mut().enumerate() {
        *va |= number as u64 * 8;
    }
    count_found(&full(), &addresses, count)
}
