//! The blocks of causes, and their lines at the end.
ghost use Rattle.std.specs.Prelude.{◌≡◌, ◌++◌, ◌+◌, ◌∷◌, List, IfOk, OnOk, drop, length};
ghost use Rattle.watch.specs.Trace.{Trace};
ghost use Rattle.watch_causes.specs.Causes.{HasSeen};
ghost use Rattle.watch_causes.specs.Judging.{verdicts_of};
ghost use Rattle.watch_causes.specs.Tallies.{tallies_of};
ghost use Rattle.watch_engine.specs.declared.warning.Warning.{Warning as WarningOf};
ghost use Rattle.watch_report.specs.Forms.{at_most};
ghost use Rattle.watch_report.specs.NoteForms.{founds_as, notes_as};
ghost use Rattle.watch_report.specs.Past.{ArePast};
ghost use Rattle.watch_report.specs.Reports.{block_lines, blocks_by, notes_below, record_blocks, tallies_after, total_lines, totals_after, totals_of};
ghost use Rattle.watch_report.specs.TraceText.{Noted, note_at, trace_of};
ghost use Rattle.watch_report.specs.VerdictLines.{noted_by, trigger_of};

use crate::cause_line::{NumberedTally, in_order};
use crate::forms::{at_most, push_block_as, push_total_as};
use crate::found::{Found, founds_of, of_cause};
use crate::newest::Newest;
use crate::note_group::NoteGroup;
use crate::note_groups::note_groups;
use crate::note_json::{push_found_lines, push_note_objects};
use crate::note_lines::push_note_lines;
use crate::options::Form;
use crate::past::Past;
use crate::verdicts::printed;
use crate::warning::Trigger;
use std::alloc::{AllocError, Global};
use watch_causes::{Causes, Tally};
use watch_engine::Warning;

/// Adds a block for each tally behind the first so many, at the record of its first verdict.
fn push_blocks(
    alloc: Global,
    form: Form,
    text: &mut Vec<u8>,
    file: &[u8],
    trigger: Trigger,
    newest: &Newest<'_>,
    past: &Past,
    before: usize,
    tallies: &[Tally],
) -> Result<(), AllocError>
    ensures ok { (records : List Noted) → ArePast records past.now → OnOk result
        (text.new.items ≡ text.old.items ++ block_lines form file.now (before + 1) trigger
        (noted_by newest.now) records (drop before tallies.now)) }
{
    let mut place = before;
    while place < tallies.len() {
        let tally = &tallies[place];
        let warning = &tally.example.warning;
        push_block_as(
            alloc,
            form,
            text,
            file,
            place as u64 + 1,
            &tally.cause,
            &printed(trigger, newest, past, warning),
            past.note(warning.stale_since),
            newest.by,
        )?;
        place += 1;
    }
    Ok(())
}

/// The blocks for the tallies behind the first so many.
fn blocks_by(
    alloc: Global,
    form: Form,
    file: &[u8],
    trigger: Option<Trigger>,
    newest: &Newest<'_>,
    past: &Past,
    before: usize,
    tallies: &[Tally],
) -> Result<Vec<u8>, AllocError>
    ensures { (records : List Noted) → ArePast records past.now → IfOk result
        (λ text. text.items ≡ blocks_by form file.now (before + 1) trigger (noted_by newest.now) records
        (drop before tallies.now)) }
{
    let mut text = Vec::new(alloc);
    if let Some(trigger) = trigger {
        push_blocks(
            alloc, form, &mut text, file, trigger, newest, past, before, tallies,
        )?;
    }
    Ok(text)
}

/// Takes the next record, and answers a block for each cause that begins there and is among the first
/// `most`. There are never too many records: the watch takes none that the causes do not.
pub(crate) fn blocks_at(
    causes: &mut Causes,
    alloc: Global,
    form: Form,
    most: Option<u64>,
    file: &[u8],
    trigger: Option<Trigger>,
    newest: &Newest<'_>,
    past: &Past,
    warnings: &[Warning],
) -> Result<Vec<u8>, AllocError>
    ensures scheme { causes.new.scheme ≡ causes.old.scheme }
    ensures text { (records : List Noted) (given : List (List WarningOf))
        → trigger ≡ trigger_of records newest.now.made → ArePast records past.now
        → HasSeen (trace_of records) given causes.old → IfOk result (λ text. text.items
        ≡ record_blocks form most file.now causes.old.scheme (noted_by newest.now) records warnings.now given) }
    ensures seen { (trace : Trace) (given : List (List WarningOf)) → HasSeen trace given causes.old
        → OnOk result (HasSeen (newest.now.made ∷ trace) (warnings.now ∷ given) causes.new) }
{
    let before = causes.tallies().len();
    match causes.record(newest.made, warnings) {
        Ok(()) => {
            let told = at_most(most, causes.tallies());
            blocks_by(alloc, form, file, trigger, newest, past, before, told)
        }
        Err(_) => Err(AllocError),
    }
}

/// Adds each finding, in the form that has findings.
fn push_founds_as(
    alloc: Global,
    form: Form,
    text: &mut Vec<u8>,
    file: &[u8],
    past: &Past,
    founds: &[Found],
) -> Result<(), AllocError>
    ensures ok { (records : List Noted) → ArePast records past.now → OnOk result
        (text.new.items ≡ text.old.items ++ founds_as form file.now records founds.now) }
{
    match form {
        Form::Text => Ok(()),
        Form::Json => push_found_lines(alloc, text, file, past, founds),
    }
}

/// Adds the notes of a cause.
fn push_notes_as(
    alloc: Global,
    form: Form,
    text: &mut Vec<u8>,
    file: &[u8],
    past: &Past,
    one: &NumberedTally,
    groups: &[NoteGroup],
) -> Result<(), AllocError>
    ensures ok { (records : List Noted) → ArePast records past.now → OnOk result (text.new.items
        ≡ text.old.items ++ notes_as form file.now (note_at records) one.now groups.now) }
{
    let global = one.tally.cause.global;
    match form {
        Form::Text => push_note_lines(alloc, text, past, global, groups),
        Form::Json => push_note_objects(alloc, text, file, one.number, past, global, groups),
    }
}

/// Adds the notes of the findings of a cause.
fn push_notes_below(
    alloc: Global,
    form: Form,
    text: &mut Vec<u8>,
    file: &[u8],
    past: &Past,
    founds: &[Found],
    one: &NumberedTally,
) -> Result<(), AllocError>
    ensures ok { (records : List Noted) → ArePast records past.now → OnOk result (text.new.items
        ≡ text.old.items ++ notes_below form file.now records founds.now one.now) }
{
    let own = of_cause(alloc, one.number, founds)?;
    let groups = note_groups(alloc, past, own.as_slice())?;
    push_notes_as(alloc, form, text, file, past, one, groups.as_slice())
}

/// Adds the lines of causes in this order, each with its notes.
fn push_each(
    alloc: Global,
    form: Form,
    text: &mut Vec<u8>,
    file: &[u8],
    past: &Past,
    founds: &[Found],
    ones: &[NumberedTally],
) -> Result<(), AllocError>
    ensures ok { (records : List Noted) → ArePast records past.now → OnOk result
        (text.new.items ≡ text.old.items
        ++ total_lines form file.now records founds.now ones.now) }
{
    for one in ones {
        let line = past.line(one.tally.example.number);
        push_total_as(alloc, form, text, file, line, one)?;
        push_notes_below(alloc, form, text, file, past, founds, one)?;
    }
    Ok(())
}

/// Adds a line for each cause, in the order of the end, with what stands below it.
fn push_totals_of(
    alloc: Global,
    form: Form,
    text: &mut Vec<u8>,
    file: &[u8],
    past: &Past,
    founds: &[Found],
    tallies: &[Tally],
) -> Result<(), AllocError>
    ensures ok { (records : List Noted) → ArePast records past.now → OnOk result
        (text.new.items ≡ text.old.items
        ++ totals_of form file.now records founds.now tallies.now) }
{
    let ones = in_order(alloc, founds, tallies)?;
    push_founds_as(alloc, form, text, file, past, founds)?;
    push_each(alloc, form, text, file, past, founds, ones.as_slice())
}

/// Adds what is told at the end of the first `most` causes.
pub(crate) fn push_totals(
    alloc: Global,
    form: Form,
    most: Option<u64>,
    text: &mut Vec<u8>,
    file: &[u8],
    past: &Past,
    causes: &Causes,
) -> Result<(), AllocError>
    ensures ok { (records : List Noted) (given : List (List WarningOf)) → ArePast records past.now
        → HasSeen (trace_of records) given causes.now → OnOk result (text.new.items
        ≡ text.old.items ++ totals_after form file.now causes.now.scheme records given
        (at_most most (tallies_after causes.now.scheme records given))) }
{
    let tallies = at_most(most, causes.tallies());
    let reaches = causes.reaches(alloc)?;
    let founds = founds_of(alloc, tallies, causes.begun(), reaches.as_slice())?;
    push_totals_of(alloc, form, text, file, past, founds.as_slice(), tallies)
}
