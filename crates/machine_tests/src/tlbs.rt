//! TLBs: what fences and services drop and leave, and which entry answers an address.

use crate::common::{USER, address, assert_row, flags, page};
use pte::{Access, PageSize, Scheme, What};
use std::process::Abort;
use tlb::{Entry, Tlb};
use walk::{Found, Trap, Why};

mod ages;
mod drops;

/// A page by its base, an address of Sv48, and its size.
type Base = (u64, PageSize);

/// An entry, with an ASID and an address at which it is the oldest match in each TLB below that
/// holds it.
#[derive(Clone, Copy)]
struct Probe {
    asid: u16,
    global: bool,
    base: Base,
    ppn: u64,
    flags: u8,
    at: (u16, u64),
}

fn entry_of(rt: &impl Abort, probe: &Probe) -> Entry {
    Entry {
        asid: probe.asid,
        global: probe.global,
        page: page(rt, probe.base.0, probe.base.1),
        ppn: probe.ppn,
        flags: flags(probe.flags),
    }
}

fn lookup(rt: &impl Abort, tlb: &Tlb, asid: u16, va: u64) -> Option<Entry> {
    tlb.lookup(asid, address(rt, va))
}

fn filled(rt: &impl Abort, scheme: Scheme, probes: &[Probe]) -> Tlb {
    let mut tlb = Tlb::new_in(scheme);
    for probe in probes {
        tlb.fill(entry_of(rt, probe));
    }
    tlb
}

fn is_there(rt: &impl Abort, tlb: &Tlb, probe: &Probe) -> bool {
    lookup(rt, tlb, probe.at.0, probe.at.1) == Some(entry_of(rt, probe))
}

/// Whether the TLB has just those of these entries that are to stay.
fn are_left(rt: &impl Abort, tlb: &Tlb, probes: &[Probe], stays: &[bool]) -> bool {
    for (number, probe) in probes.iter().enumerate() {
        if stays.get(number).copied() != Some(is_there(rt, tlb, probe)) {
            return false;
        }
    }
    probes.len() == stays.len()
}

/// What a TLB is asked to drop.
#[derive(Clone, Copy)]
enum Asked {
    /// By an SFENCE.VMA with these registers.
    Fence(Option<u64>, Option<u64>),
    /// By a service: a page of an ASID or, without one, of each; all of an ASID; or all.
    PageOf(Base, Option<u16>),
    SpaceOf(u16),
    All,
}

fn drop_asked(rt: &impl Abort, tlb: &mut Tlb, asked: &Asked) {
    match *asked {
        Asked::Fence(rs1, rs2) => tlb.fence(rs1, rs2),
        Asked::PageOf(base, asid) => tlb.serve(&What::PageOf(page(rt, base.0, base.1), asid)),
        Asked::SpaceOf(asid) => tlb.serve(&What::SpaceOf(asid)),
        Asked::All => tlb.serve(&What::All),
    }
}

/// The scheme of a TLB, what it is asked to drop, and which of its entries stay.
type DropRow = (Scheme, Asked, &'static [bool]);

/// Each of these TLBs, filled with the entries, keeps what its row says.
fn are_dropped(rt: &impl Abort, probes: &[Probe], rows: &[DropRow]) {
    for (number, (scheme, asked, stays)) in rows.iter().enumerate() {
        let mut tlb = filled(rt, *scheme, probes);
        drop_asked(rt, &mut tlb, asked);
        assert_row(rt, number, are_left(rt, &tlb, probes, *stays));
    }
}

/// An ASID, an address, and the number of the entry that answers for these, or none.
type AnswerRow = (u16, u64, Option<usize>);

fn is_answered(rt: &impl Abort, tlb: &Tlb, probes: &[Probe], row: &AnswerRow) -> bool {
    let found = lookup(rt, tlb, row.0, row.1);
    match row.2 {
        Some(number) => match probes.get(number) {
            Some(probe) => found == Some(entry_of(rt, probe)),
            None => false,
        },
        None => found.is_none(),
    }
}

fn are_answered(rt: &impl Abort, tlb: &Tlb, probes: &[Probe], rows: &[AnswerRow]) {
    for (number, row) in rows.iter().enumerate() {
        assert_row(rt, number, is_answered(rt, tlb, probes, row));
    }
}

const SV39: Scheme = Scheme::Sv39;

const SV48: Scheme = Scheme::Sv48;

const SMALL: PageSize = PageSize::Kib4;

/// An entry of the address space 1 with these flags, an access of an address of its page from user
/// mode, and what the entry answers.
type TranslationRow = (Base, u64, u8, u64, Access, Result<u64, (u8, Why)>);

/// A match tests permission, then accessed; of a PPN 44 bits count.
const TRANSLATIONS: [TranslationRow; 4] = [
    (
        NEAR,
        0x1_2345,
        0x16,
        NEAR_VA,
        Access::Fetch,
        Err((12, Why::Denied)),
    ),
    (
        NEAR,
        0x1_2345,
        0x16,
        NEAR_VA,
        Access::Load,
        Err((13, Why::NotAccessed)),
    ),
    (
        NEAR,
        0x1_2345,
        0x16,
        NEAR_VA,
        Access::Store,
        Err((15, Why::NotAccessed)),
    ),
    (
        NEAR,
        0x1800_0001_2345,
        0x52,
        NEAR_VA,
        Access::Load,
        Ok(0x80_0000_1234_5ABC),
    ),
];

/// The page of 512 GiB at 0x80_0000_0000, and one of 4 KiB.
const WIDEST: Base = (0x80_0000_0000, PageSize::Gib512);

const NEAR: Base = (0x8040_3000, SMALL);

const NEAR_VA: u64 = 0x8040_3ABC;

/// What is expected as an entry gives it.
fn answer_of(want: Result<u64, (u8, Why)>) -> Result<u64, Trap> {
    match want {
        Ok(pa) => Ok(pa),
        Err((cause, why)) => Err(Trap { cause, why }),
    }
}

#[test]
fn entries_translate(rt: HostRuntime) {
    for (number, (base, ppn, bits, va, access, want)) in TRANSLATIONS.iter().enumerate() {
        let entry = Entry {
            asid: 1,
            global: false,
            page: page(&rt, base.0, base.1),
            ppn: *ppn,
            flags: flags(*bits),
        };
        let answer = entry.translate(address(&rt, *va), *access, USER);
        assert_row(&rt, number, answer == answer_of(*want));
    }
}

/// The PPN of the entry that answers for an address of an address space.
fn ppn_at(rt: &impl Abort, tlb: &Tlb, asid: u16, va: u64) -> Option<u64> {
    match lookup(rt, tlb, asid, va) {
        Some(entry) => Some(entry.ppn),
        None => None,
    }
}

/// The PPN at which the address space 2 finds a page of the kernel that a walk of the address space
/// 1 found.
fn found_by_another(rt: &impl Abort, global: bool) -> Option<u64> {
    let found = Found {
        pa: 0x30_0008,
        page: page(rt, 0xFFFF_FFFF_C000_0000, PageSize::Kib4),
        ppn: 0x300,
        flags: flags(0xE2),
        global,
    };
    let mut tlb = Tlb::new();
    tlb.fill(Entry::found(1, &found));
    ppn_at(rt, &tlb, 2, 0xFFFF_FFFF_C000_0008)
}

#[test]
fn what_a_walk_found_global_answers_in_every_space(rt: HostRuntime) {
    assert_row(&rt, 0, found_by_another(&rt, true) == Some(0x300));
    assert_row(&rt, 1, found_by_another(&rt, false).is_none());
}

/// Each of the worked rows is a law that a caller gets.
#[test]
fn worked_rows_are_laws(_rt: HostRuntime) {
    tlb::worked_fences();
    tlb::worked_ends_of_the_halves();
    tlb::worked_matches();
    tlb::worked_services();
    tlb::worked_fills();
    tlb::worked_ages();
    tlb::worked_answers();
}
