//! Which records a story is made of. No clause says which: whether they give the verdict is found by
//! judging them alone.

ghost use Rattle.std.specs.Prelude.{◌<◌, ◌≤◌, IfSome, length};

use crate::fences::{asks_others, covers, is_asked, is_for};
use crate::reasons::{begins_claim, begins_flush_of};
use crate::role::is_in_space;
use pte::{Kind, PAGE_BYTES, Page, Pte, Scheme};
use std::alloc::{AllocError, Global};
use watch::{Frames, Record, Verdict};
use watch_engine::Warning;

/// How many bytes a word of a table has.
const WORD_BYTES: u64 = 8;

/// Tells the record at an index, if there is one. Its number is one more.
fn tell(told: &mut [bool], at: Option<usize>) {
    let Some(at) = at else {
        return;
    };
    let number = at.saturating_add(1);
    if number < told.len() {
        told[number] = true;
    }
}

fn writes_satp(made: &Record, hart: u8) -> bool {
    match made {
        Record::Satp { hart: of, .. } => *of == hart,
        _ => false,
    }
}

/// The hart's satp gets the address space of the translation.
fn enters(made: &Record, warning: &Warning) -> bool {
    match made {
        Record::Satp { hart, space } => *hart == warning.hart && is_in_space(warning, *space),
        _ => false,
    }
}

fn stores_at(made: &Record, at: u64) -> bool {
    match made {
        Record::Store { address, .. } => *address == at,
        _ => false,
    }
}

/// Stores the leaf of the translation there.
fn maps_at(made: &Record, at: u64, warning: &Warning) -> bool {
    let Record::Store { address, word, .. } = made else {
        return false;
    };
    match Pte(*word).kind() {
        Kind::Leaf { ppn, flags } => {
            *address == at && ppn == warning.entry.ppn && flags == warning.entry.flags
        }
        _ => false,
    }
}

fn ends_claim(made: &Record, token: u64) -> bool {
    match made {
        Record::ClaimEnd { token: of, .. } => *of == token,
        _ => false,
    }
}

fn has_frame_of(frames: &Frames, warning: &Warning) -> bool {
    let entry = &warning.entry;
    frames.first < entry.ppn.saturating_add(entry.page.size().pages())
        && entry.ppn < frames.first.saturating_add(frames.count)
}

fn gives_back(made: &Record, warning: &Warning) -> bool {
    match made {
        Record::GiveBack { frames, .. } => has_frame_of(frames, warning),
        _ => false,
    }
}

/// The root of the address space that a hart's satp gets.
fn root_in(made: &Record, otherwise: u64) -> u64 {
    match made {
        Record::Satp {
            space: Some(space),
            ..
        } => space.root,
        _ => otherwise,
    }
}

/// The table that a stored word points to.
fn pointed(made: &Record) -> Option<u64> {
    let Record::Store { word, .. } = made else {
        return None;
    };
    match Pte(*word).kind() {
        Kind::Table { ppn, .. } => Some(ppn),
        _ => None,
    }
}

/// The newest stores of the words on the way from a root to a page. The address of the last of them.
fn tell_way(
    told: &mut [bool],
    scheme: Scheme,
    before: &[Record],
    root: u64,
    page: Page,
) -> Option<u64> {
    let mut table = root;
    for level in (0..=scheme.top_level()).rev() {
        let index = u64::from(page.base().vpn(level));
        let address = table
            .saturating_mul(PAGE_BYTES)
            .saturating_add(index * WORD_BYTES);
        let at = before.iter().rposition(|made| stores_at(made, address))?;
        tell(told, Some(at));
        match pointed(&before[at]) {
            Some(next) => table = next,
            None => return Some(address),
        }
    }
    None
}

/// How many of the records were made up to the newest moment at which the word at an address was the
/// leaf of the translation.
fn last_mapped(before: &[Record], address: u64, warning: &Warning) -> usize
    ensures { result ≤ length before.now }
{
    let Some(at) = before
        .iter()
        .rposition(|made| maps_at(made, address, warning))
    else {
        return before.len();
    };
    let rest = &before[at + 1..];
    match rest.iter().position(|made| stores_at(made, address)) {
        Some(stayed) => at + 1 + stayed,
        None => before.len(),
    }
}

/// The words that mapped the page when the hart was in its address space for the last time.
fn tell_visit(told: &mut [bool], scheme: Scheme, visited: &[Record], root: u64, warning: &Warning) {
    if let Some(address) = tell_way(told, scheme, visited, root, warning.entry.page) {
        let mapped = last_mapped(visited, address, warning);
        let _address = tell_way(told, scheme, &visited[..mapped], root, warning.entry.page);
    }
}

/// How the hart came to hold the translation: the newest fence that took it out, the newest visit to
/// its address space, and the words that mapped it then and last.
fn tell_beginning(told: &mut [bool], scheme: Scheme, before: &[Record], warning: &Warning) {
    tell(
        told,
        before.iter().rposition(|made| {
            is_for(made, warning.hart) && covers(scheme, made, &warning.entry)
        }),
    );
    let Some(entered) = before.iter().rposition(|made| enters(made, warning)) else {
        return;
    };
    tell(told, Some(entered));
    let root = root_in(&before[entered], warning.root);
    tell_visit(told, scheme, before, root, warning);
    let rest = &before[entered + 1..];
    let Some(stayed) = rest.iter().position(|made| writes_satp(made, warning.hart)) else {
        return;
    };
    let left = entered + 1 + stayed;
    tell(told, Some(left));
    tell_visit(told, scheme, &before[..left], root, warning);
}

/// What a flush asked for between its begin and its return, and its return.
fn tell_flush(told: &mut [bool], records: &[Record], begun: usize, warning: &Warning)
    requires { begun < length records.now }
{
    tell(told, Some(begun));
    let Record::ClaimBegin { hart, token, .. } = &records[begun] else {
        return;
    };
    let rest = &records[begun + 1..];
    let length = match rest.iter().position(|made| ends_claim(made, *token)) {
        Some(length) => length,
        None => rest.len(),
    };
    let asks = rest[..length].iter().any(|made| asks_others(made, *hart));
    for (at, made) in rest.iter().enumerate() {
        if at < length && is_asked(made, asks, *hart, warning.hart) {
            tell(told, Some(begun + 1 + at));
        }
    }
    tell(told, Some(begun + 1 + length));
}

/// The flush that a verdict goes by, at the last of the records.
fn flush_of(records: &[Record], since: usize, warning: &Warning) -> Option<usize>
    requires { since ≤ length records.now }
    ensures { IfSome result (λ at. at < length records.now) }
{
    if let Some(Record::ClaimEnd { token, .. }) = records.last() {
        return records.iter().rposition(|made| begins_claim(made, *token));
    }
    let rest = &records[since..];
    match rest.iter().rposition(|made| begins_flush_of(made, warning)) {
        Some(at) => Some(since + at),
        None => None,
    }
}

/// What the kernel did since the translation was stale.
fn tell_since(told: &mut [bool], records: &[Record], since: usize, warning: &Warning)
    requires { since ≤ length records.now }
{
    let rest = &records[since..];
    if let Some(begun) = flush_of(records, since, warning) {
        tell_flush(told, records, begun, warning);
    }
    if let Some(at) = rest.iter().rposition(|made| gives_back(made, warning)) {
        tell(told, Some(since + at));
    }
    if warning.verdict != Verdict::Used {
        return;
    }
    if let Some(at) = rest.iter().position(|made| begins_flush_of(made, warning)) {
        tell_flush(told, records, since + at, warning);
    }
    tell(
        told,
        records
            .iter()
            .rposition(|made| writes_satp(made, warning.hart)),
    );
}

/// Which records a story is made of, by their numbers: the first has 1.
pub(crate) fn chosen(
    alloc: Global,
    scheme: Scheme,
    records: &[Record],
    warning: &Warning,
) -> Result<Vec<bool>, AllocError> {
    let count = records.len();
    let mut told = vec![in alloc; false; count.saturating_add(1)]?;
    let since = (warning.stale_since as usize).min(count);
    let before = &records[..since.saturating_sub(1)];
    let marks = told.as_mut_slice();
    tell_beginning(marks, scheme, before, warning);
    tell(marks, since.checked_sub(1));
    tell_since(marks, records, since, warning);
    tell(marks, count.checked_sub(1));
    Ok(told)
}
