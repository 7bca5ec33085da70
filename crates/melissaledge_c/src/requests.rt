//! What C asks of a TLB, as structs of numbers, and what it is given of an entry.

ghost use Rattle.std.specs.Prelude.{◌≡◌};
ghost use Rattle.melissaledge_c.specs.Requests.{asked_of, entry_given, entry_of, optional_asid, optional_word, what_of};

use crate::codes::{Fault, access_of, is_set, mode_of, number_of, page_of};
use bitflags::Flags;
use pte::{Access, Ctx, PteFlags, What};
use tlb::Entry;

/// What an access asks: `struct mle_access` of C.
#[repr(C)]
#[derive(Clone, Copy, PartialEq, Eq, Default)]
pub struct AccessAsked {
    /// The virtual address, canonical or not.
    pub va: u64,
    /// What it does: 0 fetches, 1 loads, 2 stores.
    pub access: u8,
    /// The privilege mode: 0 for U-mode, 1 for S-mode.
    pub mode: u8,
    /// SUM: set if not 0.
    pub sum: u8,
    /// MXR: set if not 0.
    pub mxr: u8,
}

/// An entry of a TLB: `struct mle_entry` of C.
#[repr(C)]
#[derive(Clone, Copy, PartialEq, Eq, Default)]
pub struct EntryGiven {
    /// The first address of the page.
    pub page_base: u64,
    /// How many bytes the page has.
    pub page_bytes: u64,
    /// The leaf's PPN.
    pub ppn: u64,
    /// The address space.
    pub asid: u16,
    /// The leaf's flags, each at its place in the entry's word.
    pub flags: u8,
    /// Not 0 if the mapping belongs to all address spaces.
    pub global: u8,
}

/// The registers of an SFENCE.VMA: `struct mle_fence` of C.
#[repr(C)]
#[derive(Clone, Copy, PartialEq, Eq)]
pub struct FenceAsked {
    /// The value of rs1, an address.
    pub rs1: u64,
    /// The value of rs2, an ASID.
    pub rs2: u64,
    /// 0 if rs1 is the register x0.
    pub has_rs1: u8,
    /// 0 if rs2 is the register x0.
    pub has_rs2: u8,
}

/// What is to be dropped from a TLB: `struct mle_what` of C.
#[repr(C)]
#[derive(Clone, Copy, PartialEq, Eq, Default)]
pub struct WhatAsked {
    /// The first address of the page, for kind 0.
    pub page_base: u64,
    /// How many bytes the page has, for kind 0.
    pub page_bytes: u64,
    /// The address space, for kinds 0 and 1.
    pub asid: u16,
    /// Not 0 if a page is to be dropped for the address space alone, for kind 0.
    pub has_asid: u8,
    /// 0 for a page, 1 for an address space, 2 for all.
    pub kind: u8,
}

/// The access and the context that numbers ask for.
pub(crate) fn asked_of(asked: &AccessAsked) -> Result<(Access, Ctx), Fault>
    ensures { result ≡ asked_of asked.now }
{
    let Some(access) = access_of(asked.access) else {
        return Err(Fault::Access);
    };
    let Some(mode) = mode_of(asked.mode) else {
        return Err(Fault::Mode);
    };
    let ctx = Ctx {
        mode,
        sum: is_set(asked.sum),
        mxr: is_set(asked.mxr),
    };
    Ok((access, ctx))
}

/// The entry of numbers, refused if they are of no page.
#[inline(always)]
pub(crate) fn entry_of(given: &EntryGiven) -> Result<Entry, Fault>
    ensures { result ≡ entry_of given.now }
{
    let page = page_of(given.page_base, given.page_bytes)?;
    Ok(Entry {
        asid: given.asid,
        global: is_set(given.global),
        page,
        ppn: given.ppn,
        flags: PteFlags::from_bits_retain(given.flags),
    })
}

impl EntryGiven {
    /// The numbers of an entry.
    pub(crate) fn of(entry: &Entry) -> EntryGiven
        ensures { result ≡ entry_given entry.now }
    {
        EntryGiven {
            page_base: entry.page.base().get(),
            page_bytes: entry.page.size().bytes(),
            ppn: entry.ppn,
            asid: entry.asid,
            flags: entry.flags.bits(),
            global: number_of(entry.global),
        }
    }
}

/// A register, or `None` for x0.
pub(crate) fn optional_word(is_there: u8, word: u64) -> Option<u64>
    ensures { result ≡ optional_word is_there word }
{
    if is_set(is_there) { Some(word) } else { None }
}

/// An ASID, if there is one.
fn optional_asid(is_there: u8, asid: u16) -> Option<u16>
    ensures { result ≡ optional_asid is_there asid }
{
    if is_set(is_there) { Some(asid) } else { None }
}

/// What numbers ask to drop.
pub(crate) fn what_of(asked: &WhatAsked) -> Result<What, Fault>
    ensures { result ≡ what_of asked.now }
{
    match asked.kind {
        0 => {
            let page = page_of(asked.page_base, asked.page_bytes)?;
            Ok(What::PageOf(page, optional_asid(asked.has_asid, asked.asid)))
        }
        1 => Ok(What::SpaceOf(asked.asid)),
        2 => Ok(What::All),
        _ => Err(Fault::Kind),
    }
}
