//! The findings so far that are known to be by design.

ghost use Rattle.std.specs.Prelude.{◌≡◌, ◌==◌, ◌∷◌, ◌+◌, ◌<◌, ℕ, List, Option, [], IfOk, None, OnOk, Some, length};
ghost use Rattle.std.specs.BTreeMap.{get};
ghost use Rattle.std.specs.Option.{is_some};
ghost use Rattle.pte.specs.declared.scheme.Scheme.{Scheme as SchemeOf};
ghost use Rattle.watch.specs.Trace.{Trace};
ghost use Rattle.watch_causes.specs.declared.finding.Finding.{Finding as FindingOf};
ghost use Rattle.watch_causes.specs.declared.reach.Reach.{Reach as ReachOf};
ghost use Rattle.watch_causes.specs.Findings.{finding_cmp, finding_of};
ghost use Rattle.watch_causes.specs.KnownFindings.{KnownEntry, Sourced, counted_at, counts_of, entry_of, first_of, is_known, known_of, sourced, unnumbered};
ghost use Rattle.watch_causes.specs.KnownReaches.{reach_in};
ghost use Rattle.watch_causes.specs.KnownSoFar.{entries_by};

use crate::finding::{Finding, finding_of};
use crate::known::{Known, entry_of};
use crate::known_reaches::KnownReaches;
use crate::log::Log;
use crate::reason::Reason;
use crate::tally::more_if;
use pte::Scheme;
use std::alloc::{AllocError, Global};
use std::collections::BTreeMap;
use watch::Record;
use watch_engine::Warning;

/// Which findings so far are known to be by design, and how many each entry of the list counts.
#[derive(Drop)]
pub struct KnownFindings {
    scheme: Scheme,
    known: Vec<Known>,
    reaches: KnownReaches,
    log: Log,
    /// Each finding, and whether it is known.
    findings: BTreeMap<Finding, bool>,
    counts: Vec<u64>,
}

fn known_in(findings: &BTreeMap<Finding, bool>, finding: &Finding) -> Option<bool>
    ensures { result ≡ get finding_cmp findings.now finding.now }
{
    match findings.get(finding) {
        Some(is_known) => Some(*is_known),
        None => None,
    }
}

/// One more at a place, if there is one and the list has it.
fn count_at(counts: &mut Vec<u64>, place: Option<usize>) -> Result<(), AllocError>
    ensures { OnOk result (counts.new.items ≡ counted_at place counts.old.items) }
{
    let Some(place) = place else {
        return Ok(());
    };
    if let Some(count) = counts.get_mut(place) {
        *count = more_if(*count, true)?;
    }
    Ok(())
}

impl KnownFindings {
    ghost use Rattle.watch_causes.specs.KnownSoFar.{HasKnown};

    /// No record was taken, of a trace whose findings have these reaches.
    pub fn new(
        alloc: Global,
        scheme: Scheme,
        known: Vec<Known>,
        reaches: KnownReaches,
    ) -> Result<KnownFindings, AllocError>
        ensures { IfOk result (HasKnown (entries_by (reach_in reaches) known.items) scheme [] []) }
    {
        let counts = vec![in alloc; 0_u64; known.len()]?;
        Ok(KnownFindings {
            scheme,
            known,
            reaches,
            log: Log::new(alloc),
            findings: BTreeMap::new(alloc),
            counts,
        })
    }

    /// Whether there is no entry: then nothing is known, and nothing is kept.
    #[inline(always)]
    pub fn is_empty(&self) -> bool
        ensures { (known : List KnownEntry) (scheme : SchemeOf) (trace : Trace) (verdicts : List Sourced)
            → HasKnown known scheme trace verdicts self.now → result ≡ (length known == 0) }
    {
        self.known.is_empty()
    }

    /// Whether the finding of a verdict is known, if it has begun.
    fn known_before(&self, warning: &Warning) -> Option<bool>
        ensures { (known : List KnownEntry) (scheme : SchemeOf) (trace : Trace) (verdicts : List Sourced)
            → HasKnown known scheme trace verdicts self.now → 0 < length known
            → result ≡ known_of known verdicts (finding_of warning.now) }
    {
        known_in(&self.findings, &finding_of(warning))
    }

    /// Takes a verdict that begins its finding; whether that is known.
    fn begin(&mut self, warning: &Warning, reason: Reason, by: &[u8]) -> Result<bool, AllocError>
        ensures known { IfOk result (λ answer. answer
            ≡ is_some (entry_of (entries_by (reach_in self.old.reaches) self.old.known.items)
            (unnumbered warning.now reason by.now))) }
        ensures taken { (known : List KnownEntry) (scheme : SchemeOf) (trace : Trace)
            (verdicts : List Sourced) (number : ℕ) → HasKnown known scheme trace verdicts self.old
            → first_of verdicts (finding_of warning.now) ≡ None
            → OnOk result (HasKnown known scheme trace (record {
              judged = record { number = number; warning = warning.now; reason = reason };
              by = by.now;
            } ∷ verdicts) self.new) }
    {
        let finding = finding_of(warning);
        let reach = self.reaches.reach(&finding);
        let place = entry_of(self.known.as_slice(), warning, reason, by, reach);
        if self.findings.insert(finding, place.is_some()).is_err() {
            return Err(AllocError);
        }
        count_at(&mut self.counts, place)?;
        Ok(place.is_some())
    }

    /// Takes a verdict at the next record, with the note of the record that made the page stale;
    /// whether its finding is known. `AllocError` where memory runs out, or a count has no room in 64
    /// bits: after that nothing is said of the findings.
    pub fn take(
        &mut self,
        newest: &Record,
        warning: &Warning,
        by: &[u8],
    ) -> Result<bool, AllocError>
        ensures known { (known : List KnownEntry) (scheme : SchemeOf) (trace : Trace)
            (verdicts : List Sourced) → HasKnown known scheme trace verdicts self.old
            → IfOk result (λ answer. answer
            ≡ is_known known (sourced scheme newest.now trace warning.now by.now) verdicts) }
        ensures taken { (known : List KnownEntry) (scheme : SchemeOf) (trace : Trace)
            (verdicts : List Sourced) → HasKnown known scheme trace verdicts self.old
            → OnOk result (HasKnown known scheme trace
            (sourced scheme newest.now trace warning.now by.now ∷ verdicts) self.new) }
    {
        if self.known.is_empty() {
            return Ok(false);
        }
        if let Some(is_known) = self.known_before(warning) {
            return Ok(is_known);
        }
        let reason = self.log.reason(self.scheme, newest, warning);
        self.begin(warning, reason, by)
    }

    /// Takes the next record, after its verdicts. `AllocError` where memory runs out, or where 2^64 - 1
    /// records have been taken: after that nothing is said of the findings.
    pub fn add(&mut self, newest: Record) -> Result<(), AllocError>
        ensures { (known : List KnownEntry) (scheme : SchemeOf) (trace : Trace) (verdicts : List Sourced)
            → HasKnown known scheme trace verdicts self.old
            → OnOk result (HasKnown known scheme (newest ∷ trace) verdicts self.new) }
    {
        if self.known.is_empty() {
            return Ok(());
        }
        if self.log.count == u64::MAX {
            return Err(AllocError);
        }
        self.log.add(newest)
    }

    /// How many findings each entry counts.
    pub fn counts(&self) -> &[u64]
        ensures { (known : List KnownEntry) (scheme : SchemeOf) (trace : Trace) (verdicts : List Sourced)
            → HasKnown known scheme trace verdicts self.now → result.now ≡ counts_of known verdicts }
    {
        self.counts.as_slice()
    }

    /// The entries of the list.
    pub fn entries(&self) -> &[Known]
        ensures { (known : List KnownEntry) (scheme : SchemeOf) (trace : Trace) (verdicts : List Sourced)
            → HasKnown known scheme trace verdicts self.now
            → (reach : FindingOf → Option ReachOf) × (entries_by reach result.now ≡ known) }
    {
        self.known.as_slice()
    }
}
