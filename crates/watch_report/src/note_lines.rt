//! The lines below a cause at the end, of the notes of the records that made its pages stale.
ghost use Rattle.std.specs.Fmt.{decimal};
ghost use Rattle.std.specs.Prelude.{◌≡◌, ◌∷◌, ◌++◌, ◌<◌, List, [], IfOk, OnOk, drop, if◌then◌else◌, true};
ghost use Rattle.watch_report.specs.NoteLines.{each_note_line, fenced_part, findings_count, findings_of, found_part, harts_in, harts_text, has_hart, joined, more_notes_line, note_line, note_lines, of_spaces_text, reach_counts, stale_by_part};
ghost use Rattle.watch_report.specs.Past.{ArePast};
ghost use Rattle.watch_report.specs.TraceText.{Noted, note_at};
ghost use Rattle.watch_report.specs.Warnings.{comma_text, counted_text, verdict_counts_text};

use crate::counts::{count_of, push_comma, push_counts, word_of};
use crate::forms::at_most;
use crate::note_group::NoteGroup;
use crate::past::Past;
use crate::push::{push, push_decimal};
use crate::shown::push_shown;
use std::alloc::{AllocError, Global};

/// As many notes of a cause have a line of their own at most.
const MOST_NOTES: usize = 5;

fn has_hart(mask: u64, hart: u64) -> bool
    requires { hart < 64 }
    ensures { result ≡ has_hart mask hart }
{
    (mask >> hart) & 1 == 1
}

fn push_hart(harts: &mut Vec<u64>, mask: u64, hart: u64) -> Result<(), AllocError>
    requires { hart < 64 }
    ensures { OnOk result (harts.new.items ≡ (if has_hart mask hart
        then harts.old.items ++ hart ∷ [] else harts.old.items)) }
{
    if has_hart(mask, hart) {
        harts.push(hart)?;
    }
    Ok(())
}

/// The harts in a mask, ascending.
pub(crate) fn harts_in(alloc: Global, mask: u64) -> Result<Vec<u64>, AllocError>
    ensures { IfOk result (λ harts. harts.items ≡ harts_in mask) }
{
    let mut harts = Vec::new(alloc);
    for hart in 0..64_u64 {
        push_hart(&mut harts, mask, hart)?;
    }
    Ok(harts)
}

fn push_next(text: &mut Vec<u8>, is_first: bool, number: u64) -> Result<(), AllocError>
    ensures ok { OnOk result (text.new.items
        ≡ text.old.items ++ comma_text is_first ++ decimal number) }
{
    push_comma(text, is_first)?;
    push_decimal(text, number)
}

/// Adds numbers with commas between them.
fn push_joined(text: &mut Vec<u8>, numbers: &[u64]) -> Result<(), AllocError>
    ensures ok { OnOk result (text.new.items ≡ text.old.items ++ joined true numbers.now) }
{
    let mut is_first = true;
    for number in numbers {
        push_next(text, is_first, *number)?;
        is_first = false;
    }
    Ok(())
}

fn push_harts(alloc: Global, text: &mut Vec<u8>, mask: u64) -> Result<(), AllocError>
    ensures ok { OnOk result (text.new.items ≡ text.old.items ++ harts_text (harts_in mask)) }
{
    let harts = harts_in(alloc, mask)?;
    push(text, word_of(harts.len() == 1, b"hart ", b"harts "))?;
    push_joined(text, harts.as_slice())
}

fn push_stale_by(text: &mut Vec<u8>, by: &[u8]) -> Result<(), AllocError>
    ensures ok { OnOk result (text.new.items ≡ text.old.items ++ stale_by_part by.now) }
{
    if by.is_empty() {
        return push(text, b"  stale without a note: ");
    }
    push(text, b"  stale by ")?;
    push_shown(text, by)?;
    push(text, b": ")
}

fn push_counted(
    text: &mut Vec<u8>,
    n: u64,
    one: &'static [u8],
    more: &'static [u8],
) -> Result<(), AllocError>
    ensures ok { OnOk result (text.new.items ≡ text.old.items ++ counted_text n one.now more.now) }
{
    push_decimal(text, n)?;
    push(text, word_of(n == 1, one, more))
}

fn push_findings(text: &mut Vec<u8>, n: u64) -> Result<(), AllocError>
    ensures ok { OnOk result (text.new.items ≡ text.old.items ++ findings_count n) }
{
    push_counted(text, n, b" finding", b" findings")
}

fn push_spaces(text: &mut Vec<u8>, global: bool, spaces: u64) -> Result<(), AllocError>
    ensures ok { OnOk result (text.new.items ≡ text.old.items ++ of_spaces_text global spaces) }
{
    if global {
        return Ok(());
    }
    push(text, b" of ")?;
    push_counted(text, spaces, b" space", b" spaces")
}

/// Adds how many findings and pages there are, and their harts.
fn push_found(
    alloc: Global,
    text: &mut Vec<u8>,
    global: bool,
    group: &NoteGroup,
) -> Result<(), AllocError>
    ensures ok { OnOk result (text.new.items ≡ text.old.items ++ found_part global group.now) }
{
    push_findings(text, group.findings)?;
    push(text, b", ")?;
    push_counted(text, group.pages, b" page", b" pages")?;
    push_spaces(text, global, group.spaces)?;
    push(text, b", ")?;
    push_harts(alloc, text, group.harts)
}

fn push_fenced(alloc: Global, text: &mut Vec<u8>, mask: u64) -> Result<(), AllocError>
    ensures ok { OnOk result (text.new.items ≡ text.old.items ++ fenced_part mask) }
{
    if mask == 0 {
        return Ok(());
    }
    push(text, b"; fences asked of ")?;
    push_harts(alloc, text, mask)
}

/// Adds how many findings have each reach.
fn push_reaches(text: &mut Vec<u8>, group: &NoteGroup) -> Result<(), AllocError>
    ensures ok { OnOk result (text.new.items ≡ text.old.items
        ++ verdict_counts_text true (reach_counts group.now)) }
{
    let counts = [
        count_of(b"used", group.used),
        count_of(b"reachable", group.reachable),
        count_of(b"not reached", group.not_reached),
    ];
    push_counts(text, &counts)
}

/// Adds the line of a note.
fn push_note_line(
    alloc: Global,
    text: &mut Vec<u8>,
    by: &[u8],
    global: bool,
    group: &NoteGroup,
) -> Result<(), AllocError>
    ensures ok { OnOk result (text.new.items ≡ text.old.items ++ note_line by.now global group.now) }
{
    push_stale_by(text, by)?;
    push_found(alloc, text, global, group)?;
    push_fenced(alloc, text, group.fenced)?;
    push(text, b"; ")?;
    push_reaches(text, group)?;
    push(text, b"\n")
}

/// Adds the line of a note, with the note.
fn push_note(
    alloc: Global,
    text: &mut Vec<u8>,
    past: &Past,
    global: bool,
    group: &NoteGroup,
) -> Result<(), AllocError>
    ensures ok { (records : List Noted) → ArePast records past.now → OnOk result (text.new.items
        ≡ text.old.items ++ note_line (note_at records group.now.since) global group.now) }
{
    push_note_line(alloc, text, past.note(group.since), global, group)
}

fn push_each(
    alloc: Global,
    text: &mut Vec<u8>,
    past: &Past,
    global: bool,
    groups: &[NoteGroup],
) -> Result<(), AllocError>
    ensures ok { (records : List Noted) → ArePast records past.now → OnOk result
        (text.new.items ≡ text.old.items ++ each_note_line (note_at records) global groups.now) }
{
    for group in groups {
        push_note(alloc, text, past, global, group)?;
    }
    Ok(())
}

/// How many findings there are; `AllocError` where that has no room in 64 bits.
fn findings_of(groups: &[NoteGroup]) -> Result<u64, AllocError>
    ensures { IfOk result (λ n. n ≡ findings_of groups.now) }
{
    let mut n = 0_u64;
    for group in groups {
        match n.checked_add(group.findings) {
            Some(more) => n = more,
            None => return Err(AllocError),
        }
    }
    Ok(n)
}

fn push_more(text: &mut Vec<u8>, notes: u64, findings: u64) -> Result<(), AllocError>
    ensures ok { OnOk result (text.new.items ≡ text.old.items ++ more_notes_line notes findings) }
{
    if notes == 0 {
        return Ok(());
    }
    push(text, b"  ")?;
    push_counted(text, notes, b" more note: ", b" more notes: ")?;
    push_findings(text, findings)?;
    push(text, b"\n")
}

/// Those behind the first five.
#[tactic(auto, using(std::proofs::lemmas::List::drop_all))]
fn others_of(groups: &[NoteGroup]) -> &[NoteGroup]
    ensures { result.now ≡ drop 5 groups.now }
{
    if groups.len() > MOST_NOTES {
        &groups[MOST_NOTES..]
    } else {
        &[]
    }
}

/// Adds a line for each of the first five notes, and one for the others. `AllocError`: there was no
/// room; a part may stay.
pub(crate) fn push_note_lines(
    alloc: Global,
    text: &mut Vec<u8>,
    past: &Past,
    global: bool,
    groups: &[NoteGroup],
) -> Result<(), AllocError>
    ensures ok { (records : List Noted) → ArePast records past.now → OnOk result
        (text.new.items ≡ text.old.items ++ note_lines (note_at records) global groups.now) }
{
    let others = others_of(groups);
    let findings = findings_of(others)?;
    push_each(
        alloc,
        text,
        past,
        global,
        at_most(Some(MOST_NOTES as u64), groups),
    )?;
    push_more(text, others.len() as u64, findings)
}
