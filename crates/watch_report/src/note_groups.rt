//! The findings of a cause, grouped by the notes of the records that made their pages stale.
ghost use Rattle.std.specs.Prelude.{◌≡◌, ◌∷◌, ◌++◌, ◌&&◌, ◌||◌, ℕ, List, [], Option, Some, IfOk, OnOk, cond, not, reverse};
ghost use Rattle.std.specs.Str.{bytes_eq};
ghost use Rattle.watch_report.specs.GroupsSoFar.{AreGroups, group_in, page_in, space_in};
ghost use Rattle.watch_report.specs.NoteGroups.{by_findings, counts_of, groups_so_far, is_same_page, is_same_space, no_finding, note_groups, note_of, of_note};
ghost use Rattle.watch_report.specs.Past.{ArePast};
ghost use Rattle.watch_report.specs.TraceText.{Noted, note_at};
ghost use Rattle.std.specs.Option.{is_none, unwrap_or};
ghost use Rattle.watch_report.specs.declared.found.Found.{Found as FoundOf};
ghost use Rattle.watch_report.specs.declared.note_group.PageKey.{PageKey as PageOf};
ghost use Rattle.watch_report.specs.declared.note_group.SpaceKey.{SpaceKey as SpaceOf};

use crate::found::Found;
use crate::note_group::{NoteGroup, PageKey, SpaceKey, page_of, space_of};
use crate::past::Past;
use std::alloc::{AllocError, Global};
use std::cmp::Reverse;
use std::collections::{BTreeMap, BTreeSet};

/// A page, and the note of the record that made it stale.
#[derive(Clone, Copy, PartialEq, Eq, PartialOrd, Ord)]
pub(crate) struct NotedPage<'a> {
    note: &'a [u8],
    page: PageKey,
}

/// An address space, and such a note.
#[derive(Clone, Copy, PartialEq, Eq, PartialOrd, Ord)]
pub(crate) struct NotedSpace<'a> {
    note: &'a [u8],
    space: SpaceKey,
}

/// The groups so far, by their notes, and the record of the first finding of each.
#[derive(Drop)]
pub(crate) struct Groups<'a> {
    groups: BTreeMap<&'a [u8], NoteGroup>,
    pages: BTreeSet<NotedPage<'a>>,
    spaces: BTreeSet<NotedSpace<'a>>,
    firsts: Vec<u64>,
}

fn group_of(groups: &BTreeMap<&[u8], NoteGroup>, note: &[u8]) -> Option<NoteGroup>
    ensures { result ≡ group_in groups.now note.now }
{
    match groups.get(note) {
        Some(group) => Some(*group),
        None => None,
    }
}

fn is_none(group: &Option<NoteGroup>) -> bool
    ensures { result ≡ is_none group.now }
{
    group.is_none()
}

/// A group that has no finding yet counts none.
fn or_none(group: Option<NoteGroup>) -> NoteGroup
    ensures { result ≡ unwrap_or group no_finding }
{
    match group {
        Some(group) => group,
        None => NoteGroup::none(),
    }
}

fn put_group<'a>(
    groups: &mut BTreeMap<&'a [u8], NoteGroup>,
    note: &'a [u8],
    group: NoteGroup,
) -> Result<(), AllocError>
    ensures { OnOk result ((by : List ℕ) → group_in groups.new by
        ≡ cond (bytes_eq note.now by) (Some group) (group_in groups.old by)) }
{
    match groups.insert(note, group) {
        Ok(_) => Ok(()),
        Err(_) => Err(AllocError),
    }
}

/// Adds a page that a note made stale; whether it is new.
fn add_page<'a>(
    pages: &mut BTreeSet<NotedPage<'a>>,
    note: &'a [u8],
    page: PageKey,
) -> Result<bool, AllocError>
    ensures new { IfOk result (λ is_new. is_new ≡ not (page_in pages.old note.now page)) }
    ensures pages { OnOk result ((by : List ℕ) (p : PageOf) → page_in pages.new by p
        ≡ ((bytes_eq note.now by && is_same_page page p) || page_in pages.old by p)) }
{
    match pages.insert(NotedPage { note, page }) {
        Ok(is_new) => Ok(is_new),
        Err(_) => Err(AllocError),
    }
}

/// Adds a space of such a page; whether it is new.
fn add_space<'a>(
    spaces: &mut BTreeSet<NotedSpace<'a>>,
    note: &'a [u8],
    space: SpaceKey,
) -> Result<bool, AllocError>
    ensures new { IfOk result (λ is_new. is_new ≡ not (space_in spaces.old note.now space)) }
    ensures spaces { OnOk result ((by : List ℕ) (s : SpaceOf) → space_in spaces.new by s
        ≡ ((bytes_eq note.now by && is_same_space space s) || space_in spaces.old by s)) }
{
    match spaces.insert(NotedSpace { note, space }) {
        Ok(is_new) => Ok(is_new),
        Err(_) => Err(AllocError),
    }
}

fn push_first(firsts: &mut Vec<u64>, is_first: bool, since: u64) -> Result<(), AllocError>
    ensures { OnOk result (firsts.new.items
        ≡ cond is_first (firsts.old.items ++ since ∷ []) firsts.old.items) }
{
    if is_first {
        firsts.push(since)?;
    }
    Ok(())
}

impl<'a> Groups<'a> {
    /// No finding was taken.
    pub(crate) fn new(alloc: Global) -> Groups<'a>
        ensures { (notes : ℕ → List ℕ) → AreGroups notes [] result }
    {
        Groups {
            groups: BTreeMap::new(alloc),
            pages: BTreeSet::new(alloc),
            spaces: BTreeSet::new(alloc),
            firsts: Vec::new(alloc),
        }
    }

    /// Takes the next finding, whose page is stale since a record with the note.
    pub(crate) fn add(&mut self, note: &'a [u8], found: &Found) -> Result<(), AllocError>
        ensures { (notes : ℕ → List ℕ) (before : List FoundOf) → AreGroups notes before self.old
            → note_of notes found.now ≡ note.now
            → OnOk result (AreGroups notes (found.now ∷ before) self.new) }
    {
        let old = group_of(&self.groups, note);
        let is_first = is_none(&old);
        let new_page = add_page(&mut self.pages, note, page_of(found))?;
        let new_space = add_space(&mut self.spaces, note, space_of(found))?;
        let group = or_none(old).with(new_page, new_space, found)?;
        put_group(&mut self.groups, note, group)?;
        push_first(&mut self.firsts, is_first, found.begun.warning.stale_since)
    }

    /// What is counted of the note.
    fn counts(&self, note: &[u8]) -> NoteGroup
        ensures { (notes : ℕ → List ℕ) (before : List FoundOf) → AreGroups notes before self.now
            → result ≡ counts_of (of_note notes note.now before) }
    {
        or_none(group_of(&self.groups, note))
    }

    /// The groups, in the order in which they began.
    fn all(&self, alloc: Global, past: &Past) -> Result<Vec<NoteGroup>, AllocError>
        ensures { (records : List Noted) (before : List FoundOf) → ArePast records past.now
            → AreGroups (note_at records) before self.now
            → IfOk result (λ groups. groups.items ≡ groups_so_far (note_at records) before) }
    {
        let mut groups = Vec::new(alloc);
        for since in self.firsts.as_slice() {
            groups.push(self.counts(past.note(*since)))?;
        }
        Ok(groups)
    }
}

fn findings_of(group: &NoteGroup) -> Reverse<u64>
    ensures { result ≡ record { 0 = group.now.findings } }
{
    Reverse(group.findings)
}

/// Puts groups with more findings first; the others stay as they are.
fn sort(groups: &mut Vec<NoteGroup>) -> Result<(), AllocError>
    ensures { OnOk result (groups.new.items ≡ by_findings groups.old.items) }
{
    groups.sort_by_key(findings_of)
}

/// Takes the findings in the order in which they began.
fn grouped<'a>(alloc: Global, past: &'a Past, founds: &[Found]) -> Result<Groups<'a>, AllocError>
    ensures { (records : List Noted) → ArePast records past.now
        → IfOk result (AreGroups (note_at records) (reverse founds.now)) }
{
    let mut groups = Groups::new(alloc);
    for found in founds {
        groups.add(past.note(found.begun.warning.stale_since), found)?;
    }
    Ok(groups)
}

/// The groups of findings, which come in the order in which they began, by the notes of the records
/// that made their pages stale: those with more findings first, else as they began.
pub(crate) fn note_groups(
    alloc: Global,
    past: &Past,
    founds: &[Found],
) -> Result<Vec<NoteGroup>, AllocError>
    ensures { (records : List Noted) → ArePast records past.now
        → IfOk result (λ groups. groups.items ≡ note_groups (note_at records) founds.now) }
{
    let mut groups = grouped(alloc, past, founds)?.all(alloc, past)?;
    sort(&mut groups)?;
    Ok(groups)
}
