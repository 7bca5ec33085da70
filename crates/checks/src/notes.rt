//! Maps that stop before their leaf.
ghost use Rattle.std.specs.Prelude.{◌≡◌, ◌≤◌, ◌++◌, ◌-◌, IfOk, IsTrue, OnOk, drop, false, length, map, take};
ghost use Rattle.std.specs.List.{list_any};
ghost use Rattle.checks.specs.Lines.{IsInOrder};
ghost use Rattle.checks.specs.Notes.{AreNotesOn, is_map, is_map_of, is_table, mapped_by, note_text, short_map, short_maps, stops_short, text_of_note};
ghost use Rattle.checks.specs.Told.{most_told};

use crate::places::Place as TextPlace;
use crate::printed::{Told, in_order};
use crate::report::MOST_TOLD;
use crate::step_texts::List;
use crate::values::Document;
use files::Key;
use history::{Event, Reply};
use pte::Page;
use spaces::Place;
use std::alloc::{AllocError, Global};

/// The place and the page that a `map` names, refused or not.
fn mapped_by(event: &Event) -> Option<(Place, Page)>
    ensures { result ≡ mapped_by event.now }
{
    match *event {
        Event::Map { place, page, .. } => Some((place, page)),
        Event::Begin { .. }
        | Event::Load { .. }
        | Event::Unmap { .. }
        | Event::Protect { .. }
        | Event::Flush { .. }
        | Event::Switch { .. }
        | Event::Fence { .. }
        | Event::Post { .. }
        | Event::Take { .. }
        | Event::ServeFence { .. }
        | Event::Ack { .. }
        | Event::AckSelf { .. }
        | Event::Collect { .. }
        | Event::Finish { .. }
        | Event::Close { .. }
        | Event::Retire { .. }
        | Event::Reclaim { .. }
        | Event::Create { .. } => None,
    }
}

fn is_map(event: &Event) -> bool
    ensures { result ≡ is_map event.now }
{
    mapped_by(event).is_some()
}

/// Whether a step is a `map` of this page of this place.
fn is_map_of(place: Place, page: Page, event: &Event) -> bool
    ensures { result ≡ is_map_of place page event.now }
{
    match mapped_by(event) {
        Some((other_place, other_page)) => other_place == place && other_page == page,
        None => false,
    }
}

/// Whether a pointer to a new table was stored.
fn is_table(reply: &Reply) -> bool
    ensures { result ≡ is_table reply.now }
{
    match reply {
        Reply::Table(_) => true,
        Reply::Hit(_)
        | Reply::Trap(_)
        | Reply::More
        | Reply::Filled(_)
        | Reply::Leaf
        | Reply::Opened(_)
        | Reply::Ok
        | Reply::Taken(_)
        | Reply::Done
        | Reply::Waiting(_)
        | Reply::Refused(_) => false,
    }
}

fn is_named_later(place: Place, page: Page, later: &[Event]) -> bool
    ensures { result ≡ list_any (is_map_of place page) later.now }
{
    later.iter().any(|event| is_map_of(place, page, event))
}

/// Whether a step with this reply stored a pointer to a table for a page that no later `map` names.
fn stops_short(event: &Event, reply: &Reply, later: &[Event]) -> bool
    ensures { result ≡ stops_short event.now reply.now later.now }
{
    if !is_table(reply) {
        return false;
    }
    match mapped_by(event) {
        Some((place, page)) => !is_named_later(place, page, later),
        None => false,
    }
}

/// How many steps there are up to the last `map`. Those after it decide of no note.
pub fn up_to_last_map(events: &[Event]) -> usize
    ensures within { result ≤ length events.now }
    ensures none_after { list_any is_map (drop result events.now) ≡ false }
    ensures last { ¬ (result ≡ 0) → IsTrue (list_any is_map (drop (result - 1) events.now)) }
{
    let mut count = events.len();
    while count > 0 && !is_map(&events[count - 1]) {
        count -= 1;
    }
    count
}

/// Adds the number of a step with this reply, if it stops short.
fn push_short_map(
    short: &mut Vec<usize>,
    number: usize,
    event: &Event,
    reply: &Reply,
    later: &[Event],
) -> Result<(), AllocError>
    ensures { OnOk result (short.new.items ≡ short.old.items ++ short_map number event.now reply.now
        later.now) }
{
    if !stops_short(event, reply, later) {
        return Ok(());
    }
    Ok(short.push(number)?)
}

/// The numbers of the steps that stop short, from 1 on, the first 200 of them. `AllocError`: there
/// was not enough memory.
pub fn short_maps(
    alloc: Global,
    events: &[Event],
    replies: &[Reply],
) -> Result<Vec<usize>, AllocError>
    ensures { IfOk result (λ short. short.items ≡ take most_told
        (short_maps 1 events.now replies.now)) }
{
    let mut short = Vec::new(alloc);
    let mut steps = events;
    for (index, reply) in replies.iter().enumerate() {
        let [event, later @ ..] = steps else {
            break;
        };
        if short.len() >= MOST_TOLD {
            break;
        }
        push_short_map(&mut short, index + 1, event, reply, later)?;
        steps = later;
    }
    Ok(short)
}

/// The note on the step of this number.
fn note_on(
    alloc: Global,
    document: &Document<'_>,
    place: &TextPlace,
    number: usize,
) -> Result<Told, AllocError>
    ensures { IfOk result (λ note. text_of_note note ≡ note_text number) }
{
    let at = document.position(place, List::Run.group(), number.saturating_sub(1));
    let (line, column) = (at.line, at.column);
    let mut text = String::new(alloc);
    write!(
        text,
        "note: step {number}: only a table was added, and no later `map` names this page"
    )?;
    Ok(Told { line, column, text })
}

/// The notes on the steps of these numbers, in their order.
fn notes_on(
    alloc: Global,
    document: &Document<'_>,
    numbers: &[usize],
) -> Result<Vec<Told>, AllocError>
    ensures { IfOk result (λ notes. map text_of_note notes.items ≡ map note_text numbers.now) }
{
    let mut notes = Vec::new(alloc);
    if numbers.is_empty() {
        return Ok(notes);
    }
    let place = TextPlace::of_key(alloc, document.text, Key::Steps.name())?;
    for (index, number) in numbers.iter().enumerate() {
        notes.push(note_on(alloc, document, &place, *number)?)?;
    }
    Ok(notes)
}

/// A note on each of these steps, in the order of lines and columns. `AllocError`: there was not
/// enough memory.
#[tactic(auto, using(crate::proofs::NoteLemmas::notes_in_order))]
pub fn sorted_notes(
    alloc: Global,
    document: &Document<'_>,
    numbers: &[usize],
) -> Result<Vec<Told>, AllocError>
    ensures notes { IfOk result (λ notes. AreNotesOn numbers.now notes.items) }
    ensures in_order { IfOk result (λ notes. IsInOrder notes.items) }
{
    in_order(notes_on(alloc, document, numbers)?)
}
