//! Translations in a memory of at most 512 table frames.
//!
//! In Sv39 stand 15 tables below the root, and below each of these 33 tables full of leaves, which
//! map each page to itself: with the table of the kernel window these are 1 + 1 + 15 + 15 * 33 =
//! 512 frames, and 15 * 33 * 512 = 253,440 pages. In Sv48 one table more stands between, and 14
//! below it: 1 + 1 + 1 + 14 + 14 * 33 = 479 frames, and 236,544 pages.

ghost use Rattle.std.specs.Prelude.{◌≢◌, ◌≤◌};

use crate::Failure;
use arrayvec::ArrayVec;
use pte::{
    Access, Ctx, Kind, Mode, PAGE_BYTES, Page, PageSize, Pte, PteFlags, Scheme, TABLE_LENGTH,
    VirtAddr,
};
use spaces::{Config, Memory, OpenFault, Place, Space, apply, next_map_edit};
use std::alloc::{AllocError, Global};
use walk::translate_in;

/// How many tables whose words span 2 MiB each there are.
fn middles(scheme: Scheme) -> u64
    ensures some { result ≢ 0 }
    ensures few { result ≤ 15 }
{
    match scheme {
        Scheme::Sv39 => 15,
        Scheme::Sv48 => 14,
    }
}

/// How many tables stand below each of these.
const LOWS: u64 = 33;

/// How many leaves each of these has: all that a table has room for.
const LEAVES: u64 = TABLE_LENGTH as u64;

/// How many addresses are picked. They are translated again and again, at other offsets of their
/// pages.
const ADDRESSES: u64 = 1 << 16;

const CTX: Ctx = Ctx {
    mode: Mode::User,
    sum: false,
    mxr: false,
};

pub const PLACE: Place = Place::Space(0);

/// Of each page.
fn flags() -> PteFlags {
    PteFlags::R | PteFlags::W | PteFlags::X | PteFlags::U | PteFlags::A | PteFlags::D
}

/// One hart, the home of one space, with 510 spare frames.
fn config(scheme: Scheme) -> Config {
    let mut spaces = ArrayVec::new();
    spaces.push(Space { home: 0, asid: 1 });
    let mut spares = ArrayVec::new();
    spares.push(510);
    Config {
        scheme,
        harts: 1,
        spaces,
        window: 1,
        base: 0x8_0000,
        spares,
        capacity: 1,
    }
}

/// The address of a leaf.
fn address(middle: u64, low: u64, leaf: u64) -> u64 {
    (middle % LEAVES) << 30 | (low % LEAVES) << 21 | (leaf % LEAVES) << 12
}

/// How many pages are mapped.
pub fn page_count(scheme: Scheme) -> u64 {
    LOWS * middles(scheme) * LEAVES
}

/// The address of the page of a number, table after table.
pub fn address_of(scheme: Scheme, number: u64) -> u64 {
    let table = number / LEAVES;
    let middles = middles(scheme);
    address(table % middles, table / middles, number % LEAVES)
}

/// Makes the next store that maps a page to itself. `Some(true)` if that is the leaf, `Some(false)`
/// if a table.
fn store_next(memory: &mut Memory, scheme: Scheme, va: u64) -> Option<bool> {
    if !memory.has(PLACE) {
        return None;
    }
    let page = Page::around(VirtAddr::new_in(scheme, va)?, PageSize::Kib4);
    let flags = flags();
    let edit = next_map_edit(memory, 0, PLACE, page, va >> 12, flags).ok()?;
    apply(memory, edit);
    Some(matches!(Pte(edit.word()).kind(), Kind::Leaf { .. }))
}

/// Maps a page to itself, with the tables that are missing.
fn map(memory: &mut Memory, scheme: Scheme, va: u64) -> Result<(), Failure> {
    for _ in 0..=scheme.top_level() {
        if store_next(memory, scheme, va).ok_or(Failure::NotOpened)? {
            return Ok(());
        }
    }
    Err(Failure::NotOpened)
}

/// The memory with all its pages mapped.
pub fn full_memory(alloc: Global, scheme: Scheme) -> Result<Memory, Failure> {
    let mut memory = match Memory::open(alloc, &config(scheme)) {
        Ok(memory) => memory,
        Err(OpenFault::NoMemory) => return Err(Failure::NoMemory),
        Err(OpenFault::BadLayout) => return Err(Failure::NotOpened),
    };
    for number in 0..page_count(scheme) {
        map(&mut memory, scheme, address_of(scheme, number))?;
    }
    Ok(memory)
}

/// Addresses picked by a linear congruential generator. Every 16th is of a table that does not
/// exist.
fn picked(alloc: Global, scheme: Scheme) -> Result<Vec<u64>, AllocError> {
    let mut addresses = Vec::with_capacity(alloc, ADDRESSES as usize)?;
    let middles = middles(scheme);
    let mut state: u64 = 77;
    for number in 0..ADDRESSES {
        state = state
            .wrapping_mul(6_364_136_223_846_793_005)
            .wrapping_add(1_442_695_040_888_963_407);
        let (middle, low, leaf) = ((state >> 33) % middles, (state >> 40) % LOWS, state >> 48);
        let low = if number % 16 == 15 { LOWS } else { low };
        addresses.push(address(middle, low, leaf))?;
    }
    Ok(addresses)
}

/// How many of the addresses, with an offset of their pages, lead to themselves.
fn count_found(memory: &Memory, scheme: Scheme, addresses: &[u64], offset: u64) -> u64 {
    if !memory.has(PLACE) {
        return 0;
    }
    let root = memory.root(0);
    let mut found: u64 = 0;
    for address in addresses {
        let va = *address | offset % PAGE_BYTES;
        match translate_in(scheme, memory, root, va, Access::Load, CTX) {
            Ok(there) if there.pa == va => found = found.wrapping_add(1),
            _ => {}
        }
    }
    found
}

/// Makes `count` translations, and returns how many of them are found: all but every 16th.
pub fn run(alloc: Global, scheme: Scheme, count: u64) -> Result<u64, Failure> {
    let memory = full_memory(alloc, scheme)?;
    let addresses = picked(alloc, scheme)?;
    let mut found: u64 = 0;
    for pass in 0..count / ADDRESSES {
        found = found.wrapping_add(count_found(&memory, scheme, &addresses, pass));
    }
    let rest = (count % ADDRESSES) as usize;
    match addresses.get(..rest) {
        Some(rest) => Ok(found.wrapping_add(count_found(&memory, scheme, rest, 0))),
        None => Err(Failure::NotOpened),
    }
}
