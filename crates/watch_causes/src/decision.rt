//! What decides whether a hart comes back.

ghost use Rattle.std.specs.Prelude.{◌≡◌, slice_get};
ghost use Rattle.watch_causes.specs.Concerned.{decided_at, decision_by};
ghost use Rattle.watch_causes.specs.Decisions.{decided, decision, is_late, is_under_asid, takes_it};

use crate::fences::{covers, is_for};
use crate::log::Numbered;
use crate::moves::Move;
use pte::Scheme;
use tlb::Entry;
use watch::Record;
use watch_engine::Warning;

/// Under the ASID an access may use the entry; one that is global, under each.
pub(crate) fn is_under(entry: &Entry, asid: Option<u16>) -> bool
    ensures { result ≡ is_under_asid entry.now asid }
{
    match asid {
        None => false,
        Some(asid) => entry.global || asid == entry.asid,
    }
}

/// The hart executed the fence after the page was stale, since that is done.
fn is_late(warning: &Warning, fence: &Numbered) -> bool
    ensures { result ≡ is_late warning.now fence.now.number fence.now.made }
{
    match fence.made {
        Record::RemoteBegin { .. } => warning.stale_since < fence.number,
        _ => true,
    }
}

/// The fence, done, takes the translation from the hart.
fn takes(scheme: Scheme, warning: &Warning, fence: &Numbered) -> bool
    ensures { result ≡ takes_it scheme warning.now fence.now }
{
    is_for(&fence.made, warning.hart)
        && covers(scheme, &fence.made, &warning.entry)
        && is_late(warning, fence)
}

/// Whether the hart is back by the move; `None` where that says nothing.
fn decision(scheme: Scheme, fences: &[Numbered], warning: &Warning, one: &Move) -> Option<bool>
    ensures { result ≡ decision scheme fences.now warning.now one.now }
{
    match one {
        Move::Writes { hart, asid } => {
            if *hart == warning.hart && is_under(&warning.entry, *asid) {
                return Some(true);
            }
            None
        }
        Move::Fences { at } => match fences.get(*at) {
            Some(fence) => {
                if takes(scheme, warning, fence) {
                    return Some(false);
                }
                None
            }
            None => None,
        },
    }
}

/// By the first of the moves that decides.
pub(crate) fn decided(
    scheme: Scheme,
    fences: &[Numbered],
    warning: &Warning,
    moves: &[Move],
) -> Option<bool>
    ensures { result ≡ decided scheme fences.now warning.now moves.now }
{
    for one in moves {
        if let Some(back) = decision(scheme, fences, warning, one) {
            return Some(back);
        }
    }
    None
}

/// By the move at that place.
fn decision_at(
    scheme: Scheme,
    fences: &[Numbered],
    warning: &Warning,
    moves: &[Move],
    place: usize,
) -> Option<bool>
    ensures { result ≡ decision_by scheme fences.now warning.now (slice_get moves.now place) }
{
    match moves.get(place) {
        Some(one) => decision(scheme, fences, warning, one),
        None => None,
    }
}

/// By the first of the moves at these places that decides.
pub(crate) fn decided_at(
    scheme: Scheme,
    fences: &[Numbered],
    warning: &Warning,
    moves: &[Move],
    places: &[usize],
) -> Option<bool>
    ensures { result ≡ decided_at scheme fences.now warning.now moves.now places.now }
{
    for place in places {
        if let Some(back) = decision_at(scheme, fences, warning, moves, *place) {
            return Some(back);
        }
    }
    None
}
