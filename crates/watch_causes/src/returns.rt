//! When the harts last came back to an ASID.

ghost use Rattle.std.specs.Prelude.{◌≡◌, IfOk, OnOk, Some, cond, if◌then◌else◌, nat_le};
ghost use Rattle.std.specs.BTreeMap.{get};
ghost use Rattle.std.specs.Ordering.{is_eq};
ghost use Rattle.watch_engine.specs.declared.warning.Warning.{Warning as WarningOf};
ghost use Rattle.watch_causes.specs.declared.returns.Visit.{Visit as VisitOf};
ghost use Rattle.watch_causes.specs.Returns.{AreLast, any_visit, last_in, returns_behind, returns_to, visit_cmp, visit_of, visit_under};

use crate::finding::own_asid;
use crate::moves::Move;
use std::alloc::{AllocError, Global};
use std::collections::BTreeMap;
use watch_engine::Warning;

/// A hart under an ASID; for what is global, under any, which is 0.
#[derive(Clone, Copy, PartialEq, Eq, PartialOrd, Ord, Debug)]
pub(crate) struct Visit {
    hart: u8,
    global: bool,
    asid: u16,
}

/// The hart of a verdict comes back by this.
fn visit_of(warning: &Warning) -> Visit
    ensures { result ≡ visit_of warning.now }
{
    let entry = &warning.entry;
    Visit {
        hart: warning.hart,
        global: entry.global,
        asid: own_asid(entry.global, entry.asid),
    }
}

fn under(hart: u8, asid: u16) -> Visit
    ensures { result ≡ visit_under hart asid }
{
    Visit {
        hart,
        global: false,
        asid,
    }
}

fn any(hart: u8) -> Visit
    ensures { result ≡ any_visit hart }
{
    Visit {
        hart,
        global: true,
        asid: 0,
    }
}

fn put(lasts: &mut BTreeMap<Visit, usize>, visit: Visit, count: usize) -> Result<(), AllocError>
    ensures { OnOk result ((v : VisitOf) → get visit_cmp lasts.new v
        ≡ cond (is_eq (visit_cmp visit v)) (Some count) (get visit_cmp lasts.old v)) }
{
    if lasts.insert(visit, count).is_err() {
        return Err(AllocError);
    }
    Ok(())
}

/// Takes a move, up to which there are so many.
fn add(lasts: &mut BTreeMap<Visit, usize>, one: &Move, count: usize) -> Result<(), AllocError>
    ensures { OnOk result ((w : WarningOf) → last_in lasts.new w
        ≡ if returns_to w one.now then count else last_in lasts.old w) }
{
    match one {
        Move::Writes { hart, asid } => match asid {
            Some(asid) => {
                put(lasts, under(*hart, *asid), count)?;
                put(lasts, any(*hart), count)
            }
            None => Ok(()),
        },
        Move::Fences { .. } => Ok(()),
    }
}

/// How many of the moves go up to the last by which a hart comes back to an ASID, and to any.
pub(crate) fn last_returns(
    alloc: Global,
    moves: &[Move],
) -> Result<BTreeMap<Visit, usize>, AllocError>
    ensures { IfOk result (AreLast moves.now) }
{
    let mut lasts = BTreeMap::new(alloc);
    for (at, one) in moves.iter().enumerate() {
        add(&mut lasts, one, at + 1)?;
    }
    Ok(lasts)
}

/// By none of the moves behind the first so many the hart comes back.
pub(crate) fn is_gone(lasts: &BTreeMap<Visit, usize>, warning: &Warning, start: usize) -> bool
    ensures { result ≡ nat_le (last_in lasts.now warning.now) start }
{
    match lasts.get(&visit_of(warning)) {
        Some(last) => *last <= start,
        None => true,
    }
}

/// The hart comes back behind the start of a finding, if it has one.
pub(crate) fn returns_behind(
    lasts: &BTreeMap<Visit, usize>,
    warning: &Warning,
    start: Option<usize>,
) -> bool
    ensures { result ≡ returns_behind lasts.now warning.now start }
{
    match start {
        Some(start) => !is_gone(lasts, warning, start),
        None => false,
    }
}
