//! The verdicts that are known to be by design are dropped.
ghost use Rattle.std.specs.Prelude.{◌≡◌, ◌&&◌, not, ◌∷◌, ◌++◌, [], IfOk, List, OnOk, if◌then◌else◌};
ghost use Rattle.pte.specs.declared.scheme.Scheme.{Scheme as SchemeOf};
ghost use Rattle.watch.specs.declared.trace.Verdict.TheVariants.{Used};
ghost use Rattle.watch_causes.specs.Findings.{is_same_verdict};
ghost use Rattle.watch_causes.specs.KnownFindings.{KnownEntry, Sourced};
ghost use Rattle.watch_causes.specs.KnownSoFar.{HasKnown};
ghost use Rattle.watch_report.specs.KnownVerdicts.{unknown_at, with_verdicts};
ghost use Rattle.watch_report.specs.Past.{ArePast};
ghost use Rattle.watch_report.specs.TraceText.{Noted, trace_of};
ghost use Rattle.watch_report.specs.VerdictLines.{noted_by};

use crate::newest::Newest;
use crate::past::Past;
use std::alloc::{AllocError, Global};
use watch::Verdict;
use watch_causes::KnownFindings;
use watch_engine::Warning;

/// Whether a verdict of a finding that is known or not is by design. A `use` never is.
fn is_by_design(warning: &Warning, is_known: bool) -> bool
    ensures { result ≡ (is_known && not (is_same_verdict warning.now.verdict Used)) }
{
    is_known && !matches!(warning.verdict, Verdict::Used)
}

/// Adds a verdict that is not dropped.
fn push_unknown(
    unknown: &mut Vec<Warning>,
    warning: &Warning,
    is_dropped: bool,
) -> Result<(), AllocError>
    ensures { OnOk result (unknown.new.items ≡ unknown.old.items
        ++ (if is_dropped then [] else warning.now ∷ [])) }
{
    if is_dropped {
        return Ok(());
    }
    Ok(unknown.push(*warning)?)
}

/// The verdicts at the next record that are not by design, in order.
fn unknown_at(
    alloc: Global,
    known: &mut KnownFindings,
    newest: &Newest<'_>,
    past: &Past,
    warnings: &[Warning],
) -> Result<Vec<Warning>, AllocError>
    ensures { (entries : List KnownEntry) (scheme : SchemeOf) (records : List Noted)
        (before : List Sourced) → ArePast records past.now
        → HasKnown entries scheme (trace_of records) before known.old → IfOk result (λ unknown.
        (unknown.items ≡ unknown_at entries scheme (noted_by newest.now) records warnings.now before)
        × HasKnown entries scheme (trace_of records)
        (with_verdicts scheme (noted_by newest.now) records warnings.now before) known.new) }
{
    let mut unknown = Vec::new(alloc);
    for warning in warnings {
        let is_known = known.take(&newest.made, warning, past.note(warning.stale_since))?;
        let is_dropped = is_by_design(warning, is_known);
        push_unknown(&mut unknown, warning, is_dropped)?;
    }
    Ok(unknown)
}

/// Drops of the verdicts at the next record those that are by design, and takes the record.
#[inline(never)]
fn drop_some(
    alloc: Global,
    known: &mut KnownFindings,
    newest: &Newest<'_>,
    past: &Past,
    warnings: &mut Vec<Warning>,
) -> Result<(), AllocError>
    ensures { (entries : List KnownEntry) (scheme : SchemeOf) (records : List Noted)
        (before : List Sourced) → ArePast records past.now
        → HasKnown entries scheme (trace_of records) before known.old → OnOk result (
        (warnings.new.items ≡ unknown_at entries scheme (noted_by newest.now) records warnings.old.items before)
        × HasKnown entries scheme (newest.now.made ∷ trace_of records)
        (with_verdicts scheme (noted_by newest.now) records warnings.old.items before) known.new) }
{
    let unknown = unknown_at(alloc, known, newest, past, warnings.as_slice())?;
    *warnings = unknown;
    known.add(newest.made)
}

/// The same. Without entries nothing is known, and nothing is done.
#[inline(always)]
pub(crate) fn drop_known(
    alloc: Global,
    known: &mut KnownFindings,
    newest: &Newest<'_>,
    past: &Past,
    warnings: &mut Vec<Warning>,
) -> Result<(), AllocError>
    ensures { (entries : List KnownEntry) (scheme : SchemeOf) (records : List Noted)
        (before : List Sourced) → ArePast records past.now
        → HasKnown entries scheme (trace_of records) before known.old → OnOk result (
        (warnings.new.items ≡ unknown_at entries scheme (noted_by newest.now) records warnings.old.items before)
        × HasKnown entries scheme (newest.now.made ∷ trace_of records)
        (with_verdicts scheme (noted_by newest.now) records warnings.old.items before) known.new) }
{
    if known.is_empty() {
        return Ok(());
    }
    // a copy, so that the record stays in registers where nothing is known
    let copy = *newest;
    drop_some(alloc, known, &copy, past, warnings)
}
