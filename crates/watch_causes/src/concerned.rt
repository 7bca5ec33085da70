//! The moves that concern a hart: no other says whether it comes back.

ghost use Rattle.std.specs.Prelude.{ℕ, ◌≡◌, ◌<◌, ◌≤◌, ◌==◌, ◌||◌, IfOk, OnOk, drop, filter, is_some, length, nat_le, slice_get};
ghost use Rattle.std.specs.BTreeMap.{get};
ghost use Rattle.std.specs.List.Sorted.{IsNonDecreasing, IsPartitionPoint};
ghost use Rattle.std.specs.Ordering.{nat_cmp};
ghost use Rattle.watch_causes.specs.Concerned.{AreListed, concerns, is_fence_for, places_of};
ghost use Rattle.watch_causes.specs.Decisions.{decided};

use crate::decision::{decided, decided_at};
use crate::fences::is_for;
use crate::log::Numbered;
use crate::moves::{Move, Moves};
use pte::Scheme;
use std::alloc::{AllocError, Global};
use std::collections::BTreeMap;
use watch_engine::Warning;

fn is_fence_for(fences: &[Numbered], hart: u8, at: usize) -> bool
    ensures { result ≡ is_fence_for hart (slice_get fences.now at) }
{
    match fences.get(at) {
        Some(fence) => is_for(&fence.made, hart),
        None => false,
    }
}

/// The hart writes its satp, or executes the fence.
fn concerns(fences: &[Numbered], hart: u8, one: &Move) -> bool
    ensures { result ≡ concerns fences.now hart one.now }
{
    match one {
        Move::Writes { hart: of, .. } => *of == hart,
        Move::Fences { at } => is_fence_for(fences, hart, *at),
    }
}

fn places_of(
    alloc: Global,
    fences: &[Numbered],
    hart: u8,
    moves: &[Move],
) -> Result<Vec<usize>, AllocError>
    ensures { IfOk result (λ places. places.items ≡ places_of fences.now hart moves.now) }
{
    let mut places = Vec::new(alloc);
    for (at, one) in moves.iter().enumerate() {
        if concerns(fences, hart, one) {
            places.push(at)?;
        }
    }
    Ok(places)
}

/// Adds the list of a hart, unless it has one.
pub(crate) fn add_hart(
    alloc: Global,
    lists: &mut BTreeMap<u8, Vec<usize>>,
    fences: &[Numbered],
    moves: &[Move],
    hart: u8,
) -> Result<(), AllocError>
    ensures listed { AreListed fences.now moves.now lists.old
        → OnOk result (AreListed fences.now moves.now lists.new) }
    ensures harts { OnOk result ((h : ℕ) → is_some (get nat_cmp lists.new h)
        ≡ (hart == h || is_some (get nat_cmp lists.old h))) }
{
    if lists.get(&hart).is_some() {
        return Ok(());
    }
    let places = places_of(alloc, fences, hart, moves)?;
    if lists.insert(hart, places).is_err() {
        return Err(AllocError);
    }
    Ok(())
}

fn count_below(places: &[usize], start: usize) -> usize
    ensures within { result ≤ length places.now }
    ensures place { IsNonDecreasing places.now
        → IsPartitionPoint (λ p. p < start) (λ p. start ≤ p) places.now result }
{
    places.partition_point(|place| *place < start)
}

fn not_below(places: &[usize], start: usize) -> &[usize]
    ensures { IsNonDecreasing places.now → result.now ≡ filter (nat_le start) places.now }
{
    let below = count_below(places, start);
    &places[below..]
}

/// By the first move behind that start that decides.
pub(crate) fn decided_behind(
    scheme: Scheme,
    fences: &[Numbered],
    lists: &BTreeMap<u8, Vec<usize>>,
    warning: &Warning,
    moves: &Moves,
    start: usize,
) -> Option<bool>
    ensures { AreListed fences.now moves.now.kept.items lists.now → result
        ≡ decided scheme fences.now warning.now (drop start moves.now.kept.items) }
{
    match lists.get(&warning.hart) {
        Some(places) => {
            let places = not_below(places.as_slice(), start);
            decided_at(scheme, fences, warning, moves.behind(0), places)
        }
        None => decided(scheme, fences, warning, moves.behind(start)),
    }
}
