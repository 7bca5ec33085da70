//! The findings so far, and their causes.

ghost use Rattle.std.specs.Prelude.{◌≡◌, ◌∷◌, ℕ, List, [], None, OnOk, Some};
ghost use Rattle.std.specs.BTreeMap.{get};
ghost use Rattle.watch_causes.specs.Findings.{Judged, cause_by, cause_of, finding_cmp, finding_of};
ghost use Rattle.watch_causes.specs.declared.reason.Reason.{Reason as ReasonOf};

use crate::finding::{Cause, Finding, finding_of};
use crate::reason::Reason;
use crate::tally::{Tally, count};
use std::alloc::{AllocError, Global};
use std::collections::BTreeMap;
use watch_engine::Warning;

/// The findings so far, each with its cause, and what is counted of each cause.
#[derive(Drop)]
pub(crate) struct Findings {
    causes: BTreeMap<Finding, Cause>,
    pub(crate) tallies: Vec<Tally>,
}

fn cause_in(causes: &BTreeMap<Finding, Cause>, finding: &Finding) -> Option<Cause>
    ensures { result ≡ get finding_cmp causes.now finding.now }
{
    match causes.get(finding) {
        Some(cause) => Some(*cause),
        None => None,
    }
}

/// The cause of a finding that begins with a verdict.
pub(crate) fn cause_by(warning: &Warning, reason: Reason) -> Cause
    ensures { (number : ℕ) → result
        ≡ cause_by (record { number = number; warning = warning.now; reason = reason }) }
{
    Cause {
        global: warning.entry.global,
        first: warning.verdict,
        reason,
    }
}

impl Findings {
    ghost use Rattle.watch_causes.specs.Causes.{AreOf};

    pub(crate) fn new(alloc: Global) -> Findings
        ensures { AreOf [] result }
    {
        Findings {
            causes: BTreeMap::new(alloc),
            tallies: Vec::new(alloc),
        }
    }

    /// The cause of the finding that a verdict belongs to, if it has begun.
    pub(crate) fn cause_of(&self, warning: &Warning) -> Option<Cause>
        ensures { (verdicts : List Judged) → AreOf verdicts self.now
            → result ≡ cause_of verdicts (finding_of warning.now) }
    {
        cause_in(&self.causes, &finding_of(warning))
    }

    /// Takes a verdict that begins its finding.
    pub(crate) fn begin(
        &mut self,
        number: u64,
        warning: &Warning,
        reason: Reason,
    ) -> Result<(), AllocError>
        ensures { (verdicts : List Judged) → AreOf verdicts self.old
            → cause_of verdicts (finding_of warning.now) ≡ None
            → OnOk result (AreOf (record { number = number; warning = warning.now; reason = reason }
            ∷ verdicts) self.new) }
    {
        let cause = cause_by(warning, reason);
        if self.causes.insert(finding_of(warning), cause).is_err() {
            return Err(AllocError);
        }
        count(&mut self.tallies, &cause, true, number, warning)
    }

    /// Takes a verdict of a finding that has begun and has the cause.
    pub(crate) fn go_on(
        &mut self,
        number: u64,
        warning: &Warning,
        cause: &Cause,
    ) -> Result<(), AllocError>
        ensures { (verdicts : List Judged) (reason : ReasonOf) → AreOf verdicts self.old
            → cause_of verdicts (finding_of warning.now) ≡ Some cause.now
            → OnOk result (AreOf (record { number = number; warning = warning.now; reason = reason }
            ∷ verdicts) self.new) }
    {
        count(&mut self.tallies, cause, false, number, warning)
    }
}
