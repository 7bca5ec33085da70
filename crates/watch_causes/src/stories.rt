//! The story of a verdict: the records that matter.

ghost use Rattle.std.specs.Prelude.{◌≡◌, ◌∷◌, ◌||◌, ◌++◌, List, IfOk, OnOk, false, get_or, map};
ghost use Rattle.std.specs.List.{list_any};
ghost use Rattle.watch.specs.Trace.{Trace};
ghost use Rattle.watch.specs.WorkedTraces.{trace_of};
ghost use Rattle.watch_engine.specs.Warnings.{AreWarnings, has_same_rights};
ghost use Rattle.watch_engine.specs.Watching.{Follows};
ghost use Rattle.watch_tables.specs.Words.{since, words};
ghost use Rattle.watch_causes.specs.Stories.{AreLast, IsDueAt, IsJudged, IsStory, in_story, is_fence_since, is_named, is_same, number_at, part_of, parts_from, told, with_part};

use crate::choice::chosen;
use crate::fences::is_for;
use crate::finding::finding_of;
use crate::role::{Role, role_of};
use pte::{PteFlags, Scheme};
use std::alloc::{AllocError, Global};
use watch::Record;
use watch_engine::{Warning, Watch, stale_from_one_moment};
use watch_tables::PageTables;

/// A record that matters for a verdict.
#[derive(Clone, Copy, PartialEq, Eq, Debug)]
pub struct Part {
    /// The number of the record; the first of the trace has 1.
    pub number: u64,
    /// The record.
    pub made: Record,
    /// What it has to do with the verdict.
    pub role: Role,
}

/// Takes the next record of a trace in memory, which never has too many.
fn taken(watch: &mut Watch<PageTables>, made: Record) -> Result<Vec<Warning>, AllocError>
    ensures scheme { watch.new.scheme ≡ watch.old.scheme }
    ensures warnings { (trace : Trace) → Follows words since trace watch.old → IfOk result (λ warnings.
        AreWarnings watch.old.scheme made trace warnings.items) }
    ensures ok { (trace : Trace) → Follows words since trace watch.old
        → OnOk result (Follows words since (made ∷ trace) watch.new) }
{
    match watch.record(made) {
        Ok(warnings) => Ok(warnings),
        Err(_) => Err(AllocError),
    }
}

/// The warnings at the last of the records of a trace; of none, none.
pub fn last_warnings(
    alloc: Global,
    scheme: Scheme,
    records: &[Record],
) -> Result<Vec<Warning>, AllocError>
    ensures { IfOk result (λ warnings. AreLast scheme (trace_of records.now) warnings.items) }
{
    let mut watch = Watch::new(alloc, scheme, PageTables::new(alloc));
    let mut last = Vec::new(alloc);
    for made in records {
        last = taken(&mut watch, *made)?;
    }
    Ok(last)
}

/// A fence for the hart since the translation was stale.
fn is_fence_since(warning: &Warning, number: u64, made: &Record) -> bool
    ensures { result ≡ is_fence_since warning.now number made.now }
{
    warning.stale_since < number && is_for(made, warning.hart)
}

fn part_of(scheme: Scheme, warning: &Warning, named: bool, number: u64, made: &Record) -> Part
    ensures { result ≡ part_of scheme warning.now named number made.now }
{
    let role = if named {
        role_of(scheme, warning, number, made)
    } else {
        Role::Other
    };
    Part {
        number,
        made: *made,
        role,
    }
}

/// Whether a record is chosen, by its number.
fn is_chosen(chosen: &[bool], number: usize) -> bool
    ensures { result ≡ get_or chosen.now number false }
{
    number < chosen.len() && chosen[number]
}

/// Adds the record if it is chosen, or if it is a fence for the hart since the translation was stale.
fn add_part(
    parts: &mut Vec<Part>,
    scheme: Scheme,
    warning: &Warning,
    number: u64,
    made: &Record,
    chosen: bool,
    named: bool,
) -> Result<(), AllocError>
    ensures { (rest : List Part) → OnOk result (parts.new.items ++ rest ≡ parts.old.items
        ++ with_part scheme warning.now chosen named number made.now rest) }
{
    if is_fence_since(warning, number, made) {
        parts.push(part_of(scheme, warning, true, number, made))?;
    } else if chosen {
        parts.push(part_of(scheme, warning, named, number, made))?;
    }
    Ok(())
}

/// All records, or those that are named by their numbers and the last; and each fence for the hart since
/// the translation was stale.
fn parts_by(
    alloc: Global,
    scheme: Scheme,
    records: &[Record],
    warning: &Warning,
    all: bool,
    named: &[bool],
) -> Result<Vec<Part>, AllocError>
    ensures { IfOk result (λ parts. parts.items ≡ parts_from scheme warning.now
        (λ number. all || is_named records.now named.now number) (is_named records.now named.now) 1
        records.now) }
{
    let mut parts = Vec::new(alloc);
    for (at, made) in records.iter().enumerate() {
        let is_named = is_chosen(named, at + 1) || at + 1 == records.len();
        let number = at as u64 + 1;
        add_part(
            &mut parts,
            scheme,
            warning,
            number,
            made,
            all || is_named,
            is_named,
        )?;
    }
    Ok(parts)
}

/// The number that the part in this place, from 1 on, has in the trace; 0 if there is none.
fn number_at(parts: &[Part], place: u64) -> u64
    ensures { result ≡ number_at parts.now place }
{
    if place == 0 || place > parts.len() as u64 {
        return 0;
    }
    parts[place as usize - 1].number
}

/// A warning on the parts alone, by the numbers of the trace.
fn in_story(parts: &[Part], alone: &Warning) -> Warning
    ensures { result ≡ in_story parts.now alone.now }
{
    Warning {
        verdict: alone.verdict,
        hart: alone.hart,
        root: alone.root,
        entry: alone.entry,
        stale_since: number_at(parts, alone.stale_since),
    }
}

fn has_same_rights(flags: PteFlags, other: PteFlags) -> bool
    ensures { result ≡ has_same_rights flags other }
{
    flags.is_user() == other.is_user()
        && flags.may_read() == other.may_read()
        && flags.may_write() == other.may_write()
        && flags.may_execute() == other.may_execute()
}

/// A warning on the parts alone is of the verdict and the finding of another, and shows what it shows.
fn is_same(parts: &[Part], alone: &Warning, warning: &Warning) -> bool
    ensures { result ≡ is_same parts.now alone.now warning.now }
{
    alone.verdict == warning.verdict
        && alone.entry.ppn == warning.entry.ppn
        && has_same_rights(alone.entry.flags, warning.entry.flags)
        && finding_of(&in_story(parts, alone)) == finding_of(warning)
}

fn has_same(parts: &[Part], alone: &[Warning], warning: &Warning) -> bool
    ensures { result ≡ list_any (λ other. is_same parts.now other warning.now) alone.now }
{
    alone.iter().any(|other| is_same(parts, other, warning))
}

fn records_of(alloc: Global, parts: &[Part]) -> Result<Vec<Record>, AllocError>
    ensures { IfOk result (λ records. records.items ≡ map (λ p. p.made) parts.now) }
{
    parts.iter().map(|part| part.made).collect(alloc)
}

/// Whether some warning on the parts alone is the verdict.
fn suffices(
    alloc: Global,
    scheme: Scheme,
    parts: &[Part],
    warning: &Warning,
) -> Result<bool, AllocError>
    ensures { IfOk result (λ gives. IsJudged scheme parts.now warning.now gives) }
{
    let records = records_of(alloc, parts)?;
    let alone = last_warnings(alloc, scheme, records.as_slice())?;
    Ok(has_same(parts, alone.as_slice(), warning))
}

/// The story of a verdict at the last of the records of a trace: those that matter, in their order,
/// each with what it has to do with it. They alone, without the others, give the same verdict at the
/// last of them. Each fence for the hart since the translation was stale is among them.
pub fn story(
    alloc: Global,
    scheme: Scheme,
    records: &[Record],
    warning: &Warning,
) -> Result<Vec<Part>, AllocError>
    ensures { IsDueAt scheme (trace_of records.now) warning.now
        → IfOk result (λ parts. IsStory scheme records.now warning.now parts.items) }
{
    stale_from_one_moment();
    let some = chosen(alloc, scheme, records, warning)?;
    let parts = parts_by(alloc, scheme, records, warning, false, some.as_slice())?;
    if suffices(alloc, scheme, parts.as_slice(), warning)? {
        return Ok(parts);
    }
    let parts = parts_by(alloc, scheme, records, warning, true, some.as_slice())?;
    Ok(parts)
}
