//! Edits of a table memory, each with its store, in an Sv39 tree of all pages of the module `tree`:
//! 253,440 pages of 4 KiB, whose tables are all there.
//!
//! | part | each time |
//! |---|---|
//! | `map` | maps the next page, which is not mapped |
//! | `unmap` | unmaps the next page |
//! | `protect` | takes W from the next page, or gives it back |
//!
//! After each pass over all pages, and before the clock runs again, `map` unmaps all of them, and
//! `unmap` maps them again.

use crate::Failure;
use crate::tree::{self, PLACE};
use pte::{PAGE_BYTES, Page, PageSize, PteFlags, Scheme, VirtAddr};
use spaces::{Memory, apply, next_map_edit, protect_edit, unmap_edit};
use std::alloc::{AllocError, Global};
use std::time::{Clock, Duration, Instant};

/// What is done to each page.
#[derive(Clone, Copy, PartialEq, Eq, Debug)]
pub enum Change {
    Map,
    Unmap,
    Protect,
}

/// Each change with its name.
pub fn changes() -> [(Change, &'static str); 3] {
    [
        (Change::Map, "map"),
        (Change::Unmap, "unmap"),
        (Change::Protect, "protect"),
    ]
}

fn read_only() -> PteFlags {
    PteFlags::R | PteFlags::X | PteFlags::U | PteFlags::A | PteFlags::D
}

fn writable() -> PteFlags {
    PteFlags::R | PteFlags::W | PteFlags::X | PteFlags::U | PteFlags::A | PteFlags::D
}

/// Maps a page to itself.
fn map(memory: &mut Memory, page: Page, flags: PteFlags) -> Option<()> {
    if !memory.has(PLACE) {
        return None;
    }
    let ppn = page.base().get() / PAGE_BYTES;
    let edit = next_map_edit(memory, 0, PLACE, page, ppn, flags).ok()?;
    apply(memory, edit);
    Some(())
}

fn unmap(memory: &mut Memory, page: Page) -> Option<()> {
    if !memory.has(PLACE) {
        return None;
    }
    let edit = unmap_edit(memory, 0, PLACE, page).ok()?;
    apply(memory, edit);
    Some(())
}

fn protect(memory: &mut Memory, page: Page, flags: PteFlags) -> Option<()> {
    if !memory.has(PLACE) {
        return None;
    }
    let edit = protect_edit(memory, 0, PLACE, page, flags).ok()?;
    apply(memory, edit);
    Some(())
}

fn map_all(memory: &mut Memory, pages: &[Page]) -> Option<()> {
    let flags = writable();
    for page in pages {
        map(memory, *page, flags)?;
    }
    Some(())
}

fn unmap_all(memory: &mut Memory, pages: &[Page]) -> Option<()> {
    for page in pages {
        unmap(memory, *page)?;
    }
    Some(())
}

fn protect_all(memory: &mut Memory, pages: &[Page], flags: PteFlags) -> Option<()> {
    for page in pages {
        protect(memory, *page, flags)?;
    }
    Some(())
}

/// Makes the change of each page. Of two passes of `Protect`, one takes W and the other gives it
/// back.
fn change_all(memory: &mut Memory, pages: &[Page], change: Change, pass: u64) -> Option<()> {
    let flags = if pass % 2 == 0 {
        read_only()
    } else {
        writable()
    };
    match change {
        Change::Map => map_all(memory, pages),
        Change::Unmap => unmap_all(memory, pages),
        Change::Protect => protect_all(memory, pages, flags),
    }
}

/// Makes the memory ready for a pass: the pages are mapped, but for `Map`.
fn prepare(memory: &mut Memory, pages: &[Page], change: Change, pass: u64) -> Option<()> {
    match change {
        Change::Map => unmap_all(memory, pages),
        Change::Unmap if pass > 0 => map_all(memory, pages),
        Change::Unmap | Change::Protect => Some(()),
    }
}

/// All pages, in the order in which the tree is filled.
fn all_pages(alloc: Global) -> Result<Vec<Page>, AllocError> {
    let mut pages = Vec::new(alloc);
    for number in 0..tree::page_count(Scheme::Sv39) {
        let va = tree::address_of(Scheme::Sv39, number);
        let va = VirtAddr::new(va).unwrap_or_default();
        pages.push(Page::around(va, PageSize::Kib4))?;
    }
    Ok(pages)
}

/// Makes a change `count` times. How long the changes took.
pub fn run<C: Clock>(
    clock: &C,
    alloc: Global,
    change: Change,
    count: u64,
) -> Result<Duration, Failure> {
    let mut memory = tree::full_memory(alloc, Scheme::Sv39)?;
    let pages = all_pages(alloc)?;
    let mut time = Duration::ZERO;
    let mut left = count;
    for pass in 0..count {
        if left == 0 {
            break;
        }
        let some = left.min(pages.len() as u64);
        prepare(&mut memory, &pages, change, pass).ok_or(Failure::NotOpened)?;
        let start = Instant::now(clock)?;
        let made = change_all(&mut memory, &pages[..some as usize], change, pass);
        time = time.saturating_add(start.elapsed(clock)?);
        made.ok_or(Failure::NotOpened)?;
        left -= some;
    }
    Ok(time)
}
