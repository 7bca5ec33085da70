//! What is counted of findings.
ghost use Rattle.std.specs.Prelude.{◌≡◌, bit_or, IfOk, nat_lt};
ghost use Rattle.watch_engine.specs.Held.{own};
ghost use Rattle.watch_causes.specs.Tallies.{more_if};
ghost use Rattle.watch_report.specs.NoteGroups.{no_finding, page_of, space_of, with_found, with_hart};

use crate::found::{Found, is_not_reached, is_reachable, is_used};
use std::alloc::AllocError;

/// The address space of a finding. Of what is global ASID and root are 0.
#[derive(Clone, Copy, PartialEq, Eq, PartialOrd, Ord, Debug)]
pub(crate) struct SpaceKey {
    asid: u16,
    root: u64,
}

/// A page in an address space.
#[derive(Clone, Copy, PartialEq, Eq, PartialOrd, Ord, Debug)]
pub(crate) struct PageKey {
    base: u64,
    level: u8,
    global: bool,
    space: SpaceKey,
}

/// What is counted of the findings of one note.
#[derive(Clone, Copy, PartialEq, Eq, Debug)]
pub struct NoteGroup {
    /// The record that made the page of the last of them stale: it has the note.
    pub since: u64,
    /// How many findings.
    pub findings: u64,
    /// How many different pages.
    pub pages: u64,
    /// How many different address spaces.
    pub spaces: u64,
    /// The harts of the findings, a bit each.
    pub harts: u64,
    /// The harts that the flushes of their first verdicts fenced, a bit each.
    pub fenced: u64,
    /// How many findings are used.
    pub used: u64,
    /// How many are reachable.
    pub reachable: u64,
    /// How many are neither.
    pub not_reached: u64,
}

fn own_root(global: bool, root: u64) -> u64
    ensures { result ≡ own global root }
{
    if global { 0 } else { root }
}

fn own_asid(global: bool, asid: u16) -> u16
    ensures { result ≡ own global asid }
{
    if global { 0 } else { asid }
}

/// The address space of a finding.
pub(crate) fn space_of(found: &Found) -> SpaceKey
    ensures { result ≡ space_of found.now }
{
    let warning = &found.begun.warning;
    let global = warning.entry.global;
    SpaceKey {
        asid: own_asid(global, warning.entry.asid),
        root: own_root(global, warning.root),
    }
}

/// The page of a finding.
pub(crate) fn page_of(found: &Found) -> PageKey
    ensures { result ≡ page_of found.now }
{
    let entry = &found.begun.warning.entry;
    PageKey {
        base: entry.page.base().get(),
        level: entry.page.size().level(),
        global: entry.global,
        space: space_of(found),
    }
}

/// One more, if so. Refused where the count has no room in 64 bits.
fn more_if(count: u64, is_more: bool) -> Result<u64, AllocError>
    ensures { IfOk result (λ more. more ≡ more_if is_more count) }
{
    if !is_more {
        return Ok(count);
    }
    match count.checked_add(1) {
        Some(more) => Ok(more),
        None => Err(AllocError),
    }
}

fn with_hart(hart: u8, mask: u64) -> u64
    ensures { result ≡ with_hart hart mask }
{
    if hart < 64 { mask | (1 << hart) } else { mask }
}

impl NoteGroup {
    /// No finding.
    pub(crate) fn none() -> NoteGroup
        ensures { result ≡ no_finding }
    {
        NoteGroup {
            since: 0,
            findings: 0,
            pages: 0,
            spaces: 0,
            harts: 0,
            fenced: 0,
            used: 0,
            reachable: 0,
            not_reached: 0,
        }
    }

    /// With one more finding, on a page and in a space that are new or not.
    pub(crate) fn with(
        &self,
        new_page: bool,
        new_space: bool,
        found: &Found,
    ) -> Result<NoteGroup, AllocError>
        ensures { IfOk result (λ group. group ≡ with_found new_page new_space found.now self.now) }
    {
        let begun = &found.begun;
        Ok(NoteGroup {
            since: begun.warning.stale_since,
            findings: more_if(self.findings, true)?,
            pages: more_if(self.pages, new_page)?,
            spaces: more_if(self.spaces, new_space)?,
            harts: with_hart(begun.warning.hart, self.harts),
            fenced: self.fenced | begun.fenced,
            used: more_if(self.used, is_used(found.reach))?,
            reachable: more_if(self.reachable, is_reachable(found.reach))?,
            not_reached: more_if(self.not_reached, is_not_reached(found.reach))?,
        })
    }
}
