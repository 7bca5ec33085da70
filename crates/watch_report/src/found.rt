//! The findings of the causes that are told.
ghost use Rattle.std.specs.Prelude.{◌≡◌, ◌==◌, ◌++◌, List, IfOk, OnOk, position};
ghost use Rattle.std.specs.List.{list_any};
ghost use Rattle.watch_causes.specs.Findings.{is_same_cause, is_same_reason, is_same_verdict};
ghost use Rattle.watch_report.specs.NoteGroups.{best_reach, founds_of, is_not_reached, is_reachable, is_used, number_of, of_cause, with_number};
ghost use Rattle.watch_report.specs.declared.found.Found.{Found as FoundOf};
ghost use Rattle.watch_causes.specs.Tallies.{is_of};

use std::alloc::{AllocError, Global};
use watch::Verdict;
use watch_causes::{Begun, Cause, Reach, Reason, Tally};

/// A finding that has begun.
#[derive(Clone, Copy, PartialEq, Eq, Debug)]
pub struct Found {
    /// The number of its cause: 1 for the cause that began first.
    pub number: u64,
    /// Its first verdict.
    pub begun: Begun,
    /// Whether its hart comes back to the page.
    pub reach: Reach,
}

fn is_same_verdict(a: Verdict, b: Verdict) -> bool
    ensures { result ≡ is_same_verdict a b }
{
    a == b
}

fn is_same_reason(a: Reason, b: Reason) -> bool
    ensures { result ≡ is_same_reason a b }
{
    a == b
}

fn is_same_cause(a: &Cause, b: &Cause) -> bool
    ensures { result ≡ is_same_cause a.now b.now }
{
    a.global == b.global && is_same_verdict(a.first, b.first) && is_same_reason(a.reason, b.reason)
}

fn place_of(tallies: &[Tally], cause: &Cause) -> Option<usize>
    ensures { result ≡ position (is_of cause.now) tallies.now }
{
    tallies.iter().position(|t| is_same_cause(cause, &t.cause))
}

/// The number of a cause among the tallies, if it has one.
pub(crate) fn number_of(tallies: &[Tally], cause: &Cause) -> Option<u64>
    ensures { result ≡ number_of tallies.now cause.now }
{
    match place_of(tallies, cause) {
        Some(place) => Some(place as u64 + 1),
        None => None,
    }
}

pub(crate) fn is_used(reach: Reach) -> bool
    ensures { result ≡ is_used reach }
{
    match reach {
        Reach::Used => true,
        Reach::Reachable | Reach::NotReached => false,
    }
}

pub(crate) fn is_reachable(reach: Reach) -> bool
    ensures { result ≡ is_reachable reach }
{
    match reach {
        Reach::Reachable => true,
        Reach::Used | Reach::NotReached => false,
    }
}

pub(crate) fn is_not_reached(reach: Reach) -> bool
    ensures { result ≡ is_not_reached reach }
{
    match reach {
        Reach::NotReached => true,
        Reach::Used | Reach::Reachable => false,
    }
}

/// Adds a finding, if its cause has a number.
fn push_found(
    founds: &mut Vec<Found>,
    number: Option<u64>,
    begun: &Begun,
    reach: Reach,
) -> Result<(), AllocError>
    ensures { (rest : List FoundOf) → OnOk result (founds.new.items ++ rest
        ≡ founds.old.items ++ with_number number begun.now reach rest) }
{
    if let Some(number) = number {
        founds.push(Found {
            number,
            begun: *begun,
            reach,
        })?;
    }
    Ok(())
}

/// The findings that have begun, each with its reach; those of causes without a tally are left out.
pub(crate) fn founds_of(
    alloc: Global,
    tallies: &[Tally],
    begun: &[Begun],
    reaches: &[Reach],
) -> Result<Vec<Found>, AllocError>
    ensures { IfOk result (λ founds. founds.items ≡ founds_of tallies.now begun.now reaches.now) }
{
    let mut founds = Vec::new(alloc);
    let mut place = 0;
    while place < begun.len() {
        let Some(reach) = reaches.get(place) else {
            return Ok(founds);
        };
        let begun = &begun[place];
        push_found(&mut founds, number_of(tallies, &begun.cause), begun, *reach)?;
        place += 1;
    }
    Ok(founds)
}

/// The findings of a cause.
pub(crate) fn of_cause(
    alloc: Global,
    number: u64,
    founds: &[Found],
) -> Result<Vec<Found>, AllocError>
    ensures { IfOk result (λ own. own.items ≡ of_cause number founds.now) }
{
    let mut own = Vec::new(alloc);
    for found in founds {
        if found.number == number {
            own.push(*found)?;
        }
    }
    Ok(own)
}

fn some_used(founds: &[Found]) -> bool
    ensures { result ≡ list_any (λ f. is_used f.reach) founds.now }
{
    founds.iter().any(|found| is_used(found.reach))
}

fn some_reachable(founds: &[Found]) -> bool
    ensures { result ≡ list_any (λ f. is_reachable f.reach) founds.now }
{
    founds.iter().any(|found| is_reachable(found.reach))
}

/// The best reach of findings: used before reachable before not reached.
pub(crate) fn best_reach(founds: &[Found]) -> Reach
    ensures { result ≡ best_reach founds.now }
{
    if some_used(founds) {
        Reach::Used
    } else if some_reachable(founds) {
        Reach::Reachable
    } else {
        Reach::NotReached
    }
}
