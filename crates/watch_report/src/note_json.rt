//! The objects of JSON at the end: of each finding, and below a cause of each note.
ghost use Rattle.std.specs.Prelude.{◌≡◌, ◌++◌, List, OnOk, map};
ghost use Rattle.watch_report.specs.JsonObjects.{field, json_line, number_value};
ghost use Rattle.watch_report.specs.NoteObjects.{found_fields, found_line, found_lines, found_object, group_fields, note_fields, note_object, note_objects, numbers_field, reach_fields, spaces_value, stale_fields};
ghost use Rattle.watch_report.specs.Past.{ArePast};
ghost use Rattle.watch_report.specs.TraceText.{Noted, note_at};

use crate::found::Found;
use crate::json_lines::{add_entry, add_file, add_note, add_place, add_scoped};
use crate::note_group::NoteGroup;
use crate::note_lines::harts_in;
use crate::object::Object;
use crate::past::Past;
use crate::reason_word::reach_word;
use std::alloc::{AllocError, Global};

fn add_items(object: &mut Object, numbers: &[u64]) -> Result<(), AllocError>
    ensures ok { OnOk result (object.new ≡ object.old ++ map number_value numbers.now) }
{
    for number in numbers {
        object.item(*number)?;
    }
    Ok(())
}

/// Adds a field with an array of the harts in a mask.
#[tactic(auto, unfolding(crate::specs::NoteObjects::numbers_field))]
fn add_numbers(object: &mut Object, name: &str, numbers: &[u64]) -> Result<(), AllocError>
    ensures ok { OnOk result (object.new ≡ object.old ++ numbers_field name.now numbers.now) }
{
    object.begin_numbers(name)?;
    add_items(object, numbers)?;
    object.end_numbers()
}

/// Adds the line of the first verdict, the cause and the hart.
#[tactic(auto, unfolding(crate::specs::NoteObjects::found_fields))]
fn add_found(object: &mut Object, file: &[u8], line: u64, found: &Found) -> Result<(), AllocError>
    ensures ok { OnOk result (object.new ≡ object.old ++ found_fields file.now line found.now) }
{
    let warning = &found.begun.warning;
    add_place(object, b"finding", file, line)?;
    object.number("cause", found.number)?;
    object.boolean("kernel", warning.entry.global)?;
    object.number("hart", u64::from(warning.hart))
}

/// Adds the root, and since which line the page is stale, with the note there.
#[tactic(auto, unfolding(crate::specs::NoteObjects::stale_fields))]
fn add_stale(
    object: &mut Object,
    found: &Found,
    since: u64,
    stale_by: &[u8],
) -> Result<(), AllocError>
    ensures ok { OnOk result (object.new ≡ object.old
        ++ stale_fields found.now since stale_by.now) }
{
    let warning = &found.begun.warning;
    add_scoped(object, "root", warning.entry.global, warning.root)?;
    object.number("stale_since", since)?;
    add_note(object, "stale_by", stale_by)
}

/// Adds the object of a finding, which begins on this line of the file and is stale since another.
/// `AllocError`: there was no room; a part of the line may stay.
fn push_found_json(
    alloc: Global,
    text: &mut Vec<u8>,
    file: &[u8],
    line: u64,
    since: u64,
    stale_by: &[u8],
    found: &Found,
) -> Result<(), AllocError>
    ensures ok { OnOk result (text.new.items ≡ text.old.items
        ++ json_line (found_object file.now line since stale_by.now found.now)) }
{
    let mut object = Object::begin(alloc)?;
    add_found(&mut object, file, line, found)?;
    add_entry(alloc, &mut object, &found.begun.warning.entry)?;
    add_stale(&mut object, found, since, stale_by)?;
    object.text("reach", reach_word(found.reach))?;
    object.push_line(text)
}

/// Adds the object of a finding.
fn push_found_line(
    alloc: Global,
    text: &mut Vec<u8>,
    file: &[u8],
    past: &Past,
    found: &Found,
) -> Result<(), AllocError>
    ensures ok { (records : List Noted) → ArePast records past.now → OnOk result
        (text.new.items ≡ text.old.items ++ found_line file.now records found.now) }
{
    let since = found.begun.warning.stale_since;
    push_found_json(
        alloc,
        text,
        file,
        past.line(found.begun.number),
        past.line(since),
        past.note(since),
        found,
    )
}

/// Adds an object for each finding.
pub(crate) fn push_found_lines(
    alloc: Global,
    text: &mut Vec<u8>,
    file: &[u8],
    past: &Past,
    founds: &[Found],
) -> Result<(), AllocError>
    ensures ok { (records : List Noted) → ArePast records past.now → OnOk result
        (text.new.items ≡ text.old.items ++ found_lines file.now records founds.now) }
{
    for found in founds {
        push_found_line(alloc, text, file, past, found)?;
    }
    Ok(())
}

/// Adds how many address spaces; what is global is of none.
fn add_spaces(object: &mut Object, name: &str, global: bool, spaces: u64) -> Result<(), AllocError>
    ensures ok { OnOk result (object.new ≡ object.old
        ++ field name.now (spaces_value global spaces)) }
{
    if global {
        object.null(name)
    } else {
        object.number(name, spaces)
    }
}

/// Adds the cause and the note.
#[tactic(auto, unfolding(crate::specs::NoteObjects::note_fields))]
fn add_cause_note(
    object: &mut Object,
    file: &[u8],
    number: u64,
    by: &[u8],
) -> Result<(), AllocError>
    ensures ok { OnOk result (object.new ≡ object.old ++ note_fields file.now number by.now) }
{
    add_file(object, b"note", file)?;
    object.number("cause", number)?;
    add_note(object, "note", by)
}

/// Adds how many findings, pages and spaces, and the harts.
#[tactic(auto, unfolding(crate::specs::NoteObjects::group_fields))]
fn add_group(
    alloc: Global,
    object: &mut Object,
    global: bool,
    group: &NoteGroup,
) -> Result<(), AllocError>
    ensures ok { OnOk result (object.new ≡ object.old ++ group_fields global group.now) }
{
    let harts = harts_in(alloc, group.harts)?;
    let fenced = harts_in(alloc, group.fenced)?;
    object.number("findings", group.findings)?;
    object.number("pages", group.pages)?;
    add_spaces(object, "spaces", global, group.spaces)?;
    add_numbers(object, "harts", harts.as_slice())?;
    add_numbers(object, "asked", fenced.as_slice())
}

/// Adds how many findings have each reach.
#[tactic(auto, unfolding(crate::specs::NoteObjects::reach_fields))]
fn add_reaches(object: &mut Object, group: &NoteGroup) -> Result<(), AllocError>
    ensures ok { OnOk result (object.new ≡ object.old ++ reach_fields group.now) }
{
    object.number("used", group.used)?;
    object.number("reachable", group.reachable)?;
    object.number("not_reached", group.not_reached)
}

/// Adds the object of a note of a cause. `AllocError`: there was no room; a part of the line may stay.
fn push_note_json(
    alloc: Global,
    text: &mut Vec<u8>,
    file: &[u8],
    number: u64,
    by: &[u8],
    global: bool,
    group: &NoteGroup,
) -> Result<(), AllocError>
    ensures ok { OnOk result (text.new.items ≡ text.old.items
        ++ json_line (note_object file.now number by.now global group.now)) }
{
    let mut object = Object::begin(alloc)?;
    add_cause_note(&mut object, file, number, by)?;
    add_group(alloc, &mut object, global, group)?;
    add_reaches(&mut object, group)?;
    object.push_line(text)
}

/// Adds the object of a note, with the note.
fn push_note_object(
    alloc: Global,
    text: &mut Vec<u8>,
    file: &[u8],
    number: u64,
    past: &Past,
    global: bool,
    group: &NoteGroup,
) -> Result<(), AllocError>
    ensures ok { (records : List Noted) → ArePast records past.now → OnOk result
        (text.new.items ≡ text.old.items ++ json_line
        (note_object file.now number (note_at records group.now.since) global group.now)) }
{
    let by = past.note(group.since);
    push_note_json(alloc, text, file, number, by, global, group)
}

/// Adds an object for each note of a cause.
pub(crate) fn push_note_objects(
    alloc: Global,
    text: &mut Vec<u8>,
    file: &[u8],
    number: u64,
    past: &Past,
    global: bool,
    groups: &[NoteGroup],
) -> Result<(), AllocError>
    ensures ok { (records : List Noted) → ArePast records past.now → OnOk result
        (text.new.items ≡ text.old.items
        ++ note_objects file.now number (note_at records) global groups.now) }
{
    for group in groups {
        push_note_object(alloc, text, file, number, past, global, group)?;
    }
    Ok(())
}
