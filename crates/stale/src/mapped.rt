//! Whether the tables map now what a TLB entry holds.

ghost use Rattle.std.specs.Prelude.{◌≡◌, ◌<◌, ◌^◌, ◌↔◌, IfNone, IfSome, IsTrue, None, Ok, length};
ghost use Rattle.walk.specs.Answer.{flags_fault};
ghost use Rattle.walk.specs.Maps.{page_number};
ghost use Rattle.history.specs.Setup.{Setup};
ghost use Rattle.history.specs.Turns.{History};
ghost use Rattle.history.specs.Tables.{words_of};
ghost use Rattle.history.specs.Staleness.{IsMappedNow};
ghost use Rattle.walk.specs.Outcome.{Outcome};
ghost use Rattle.spaces.specs.Held.{memory_words};
ghost use Rattle.spaces.specs.Layout.{root_ppn};
ghost use Rattle.stepcore.specs.Stands.{Stands};
ghost use Rattle.stale.specs.Mapped.{has_asid, is_reached, IsMappedFrom, IsMappedIn, mapping_of, reach_of};

use pte::{Access, Ctx, PAGE_BYTES, VirtAddr};
use spaces::{MAX_SPACES, Memory, Place};
use stepcore::Machine;
use tlb::Entry;
use walk::{Found, Trap, translate_in};

/// Whether the entry is global, or the space has its ASID.
fn has_asid(machine: &Machine, entry: &Entry, space: u8) -> bool
    ensures { result ≡ has_asid machine.now (reach_of entry.now) space }
{
    if entry.global {
        return true;
    }
    match machine.asid_of_space(space) {
        Some(asid) => asid == entry.asid,
        None => false,
    }
}

/// Whether the pages of an entry's ASID, or of every one, are reached through a space.
pub(crate) fn is_reached(machine: &Machine, entry: &Entry, space: u8) -> bool
    ensures value { result ≡ is_reached machine.now (reach_of entry.now) space }
    ensures there { IsTrue result → space < length machine.now.memory.layout.homes }
{
    machine.memory().has(Place::Space(space)) && has_asid(machine, entry, space)
}

/// Whether the PPN is that of the entry's page at an address.
fn is_frame_of(entry: &Entry, va: u64, ppn: u64) -> bool
    ensures { IsTrue result ↔ (ppn ≡ (mapping_of entry.now (page_number va)).ppn) }
{
    let place = va / PAGE_BYTES % entry.page.size().pages();
    ppn.checked_sub(entry.ppn) == Some(place)
}

/// Whether a walk found the mapping that the entry has.
fn is_found(entry: &Entry, va: u64, found: &Found) -> bool
    ensures { IsTrue result ↔ ((page_number found.now.pa
        ≡ (mapping_of entry.now (page_number va)).ppn) × (found.now.flags ≡ entry.now.flags)
        × (found.now.global ≡ entry.now.global)) }
{
    is_frame_of(entry, va, found.pa / PAGE_BYTES)
        && found.flags == entry.flags
        && found.global == entry.global
}

/// What a walk of an access from the root of a space answers.
fn walked(memory: &Memory, space: u8, va: u64, access: Access, ctx: Ctx) -> Result<Found, Trap>
    requires { space < length memory.now.layout.homes }
    ensures { Outcome memory.now.layout.scheme (memory_words memory.now)
        (root_ppn memory.now.layout space) va access ctx result }
{
    let root = memory.root(space);
    translate_in(memory.scheme(), memory, root, va, access, ctx)
}

/// What a walk from the root of a space finds at an address, if the tables map the entry's page
/// there as the entry does. The entry answers this access of the address.
pub(crate) fn found_in(
    memory: &Memory,
    space: u8,
    entry: &Entry,
    va: u64,
    access: Access,
    ctx: Ctx,
) -> Option<Found>
    requires there { space < length memory.now.layout.homes }
    requires answers { flags_fault access ctx entry.now.flags ≡ None }
    ensures walked { IfSome result (λ found. Outcome memory.now.layout.scheme
        (memory_words memory.now) (root_ppn memory.now.layout space) va access ctx (Ok found)) }
    ensures some { IfSome result (λ _. IsMappedFrom memory.now space
        (mapping_of entry.now (page_number va))) }
    ensures none { IfNone result (¬ IsMappedFrom memory.now space
        (mapping_of entry.now (page_number va))) }
{
    match walked(memory, space, va, access, ctx) {
        Ok(found) => {
            if is_found(entry, va, &found) {
                Some(found)
            } else {
                None
            }
        }
        Err(_) => None,
    }
}

/// Whether the tables of a space map the entry's page at an address as the entry does. The entry
/// answers this access of the address.
fn is_mapped_from(
    memory: &Memory,
    space: u8,
    entry: &Entry,
    va: u64,
    access: Access,
    ctx: Ctx,
) -> bool
    requires there { space < length memory.now.layout.homes }
    requires answers { flags_fault access ctx entry.now.flags ≡ None }
    ensures { IsTrue result ↔ IsMappedFrom memory.now space
        (mapping_of entry.now (page_number va)) }
{
    found_in(memory, space, entry, va, access, ctx).is_some()
}

/// Whether the tables map the entry's page at an address as the entry does, in each space of the
/// entry's ASID, and there is one. The entry answers this access of the address.
fn is_mapped(machine: &Machine, entry: &Entry, va: u64, access: Access, ctx: Ctx) -> bool
    requires answers { flags_fault access ctx entry.now.flags ≡ None }
    ensures { IsTrue result ↔ IsMappedIn machine.now (mapping_of entry.now (page_number va)) }
{
    let memory = machine.memory();
    // The contract of `has` says how many spaces a memory can have.
    let _kernel = memory.has(Place::Kernel);
    let mut is_some = false;
    for space in 0..MAX_SPACES as u8 {
        if is_reached(machine, entry, space) {
            if !is_mapped_from(memory, space, entry, va, access, ctx) {
                return false;
            }
            is_some = true;
        }
    }
    is_some
}

/// Whether the tables map the entry's page at an address as the entry does: there is a live or
/// retiring space of the entry's ASID, for a global entry any space, and the tables of each map it
/// so. The entry answers this access of the address.
pub fn is_mapped_now(
    machine: &Machine,
    entry: &Entry,
    va: VirtAddr,
    access: Access,
    ctx: Ctx,
) -> bool
    requires answers { flags_fault access ctx entry.now.flags ≡ None }
    ensures { (setup : Setup) (history : History) → Stands setup machine.now history → IsTrue result
        ↔ IsMappedNow setup history (words_of setup history) (reach_of entry.now)
        (mapping_of entry.now (page_number va)) }
{
    is_mapped(machine, entry, va.get(), access, ctx)
}
