//! The causes of the verdicts on a trace.

ghost use Rattle.std.specs.Prelude.{◌≡◌, ◌∷◌, ◌++◌, ◌<◌, ◌-◌, ◌^◌, ◌↔◌, List, [], Err, IfOk, OnOk, length, map};
ghost use Rattle.pte.specs.declared.scheme.Scheme.{Scheme as SchemeOf};
ghost use Rattle.watch.specs.Trace.{Trace};
ghost use Rattle.watch_engine.specs.declared.warning.Warning.{Warning as WarningOf};
ghost use Rattle.watch_causes.specs.declared.begun.Begun.{Begun as BegunOf};
ghost use Rattle.watch_causes.specs.Begins.{begun_after, begun_by, begun_of, begun_with};
ghost use Rattle.watch_causes.specs.Findings.{Judged};
ghost use Rattle.watch_causes.specs.Judging.{judged, judged_after, verdicts_of};
ghost use Rattle.watch_causes.specs.Logs.{Follows};
ghost use Rattle.watch_causes.specs.Reaches.{reach_of};
ghost use Rattle.watch_causes.specs.Reaching.{HasReached};
ghost use Rattle.watch_causes.specs.Reasons.{reason_of};
ghost use Rattle.watch_causes.specs.Tallies.{tallies_of};

use crate::begun::Begun;
use crate::findings::{Findings, cause_by};
use crate::log::Log;
use crate::reach::Reach;
use crate::reaches::Reaches;
use crate::reason::Reason;
use crate::tally::Tally;
use pte::Scheme;
use std::alloc::{AllocError, Global};
use watch::Record;
use watch_engine::{RecordFault, Warning};

/// The causes of the verdicts on a trace: it takes the records, and the warnings that
/// `Watch::record` gives for each.
#[derive(Drop)]
pub struct Causes {
    scheme: Scheme,
    log: Log,
    findings: Findings,
    reaches: Reaches,
}

/// Takes a verdict that begins its finding, at the next record.
fn begin(
    reaches: &mut Reaches,
    log: &Log,
    newest: &Record,
    warning: &Warning,
    reason: Reason,
) -> Result<(), AllocError>
    requires { log.now.count < 2 ^ 64 - 1 }
    ensures { (scheme : SchemeOf) (trace : Trace) (verdicts : List Judged) (begun : List BegunOf)
        → Follows trace log.now → HasReached scheme (newest.now ∷ trace) verdicts begun reaches.old
        → reason ≡ reason_of scheme newest.now trace warning.now
        → OnOk result (HasReached scheme (newest.now ∷ trace) verdicts
        (begun ++ begun_by newest.now trace (judged scheme newest.now trace warning.now) ∷ [])
        reaches.new) }
{
    reaches.begin(Begun {
        number: log.count + 1,
        warning: *warning,
        cause: cause_by(warning, reason),
        fenced: log.fenced(newest, warning),
    })
}

impl Findings {
    ghost use Rattle.watch_causes.specs.Causes.{AreOf};

    /// Takes a verdict at the next record.
    fn take(
        &mut self,
        reaches: &mut Reaches,
        log: &Log,
        scheme: Scheme,
        newest: &Record,
        warning: &Warning,
    ) -> Result<(), AllocError>
        requires { log.now.count < 2 ^ 64 - 1 }
        ensures findings { (trace : Trace) (verdicts : List Judged) → Follows trace log.now
            → AreOf verdicts self.old
            → OnOk result (AreOf (judged scheme newest.now trace warning.now ∷ verdicts) self.new) }
        ensures reached { (trace : Trace) (verdicts : List Judged) (begun : List BegunOf)
            → Follows trace log.now → AreOf verdicts self.old
            → HasReached scheme (newest.now ∷ trace) verdicts begun reaches.old
            → OnOk result (HasReached scheme (newest.now ∷ trace)
            (judged scheme newest.now trace warning.now ∷ verdicts)
            (begun_with newest.now trace verdicts begun (judged scheme newest.now trace warning.now))
            reaches.new) }
    {
        let number = log.count + 1;
        if let Some(cause) = self.cause_of(warning) {
            self.go_on(number, warning, &cause)?;
            reaches.take(warning)?;
            return Ok(());
        }
        let reason = log.reason(scheme, newest, warning);
        begin(reaches, log, newest, warning, reason)?;
        self.begin(number, warning, reason)?;
        reaches.take(warning)?;
        Ok(())
    }

    /// Takes the verdicts at the next record.
    fn take_all(
        &mut self,
        reaches: &mut Reaches,
        log: &Log,
        scheme: Scheme,
        newest: &Record,
        warnings: &[Warning],
    ) -> Result<(), AllocError>
        requires { log.now.count < 2 ^ 64 - 1 }
        ensures findings { (trace : Trace) (verdicts : List Judged) → Follows trace log.now
            → AreOf verdicts self.old
            → OnOk result (AreOf (judged_after scheme newest.now trace verdicts warnings.now)
            self.new) }
        ensures reached { (trace : Trace) (verdicts : List Judged) (begun : List BegunOf)
            → Follows trace log.now → AreOf verdicts self.old
            → HasReached scheme (newest.now ∷ trace) verdicts begun reaches.old
            → OnOk result (HasReached scheme (newest.now ∷ trace)
            (judged_after scheme newest.now trace verdicts warnings.now)
            (begun_after scheme newest.now trace verdicts begun warnings.now) reaches.new) }
    {
        for warning in warnings {
            self.take(reaches, log, scheme, newest, warning)?;
        }
        Ok(())
    }
}

impl Causes {
    ghost use Rattle.watch_causes.specs.Causes.{HasSeen};

    /// No record was taken.
    pub fn new(alloc: Global, scheme: Scheme) -> Causes
        ensures scheme { result.scheme ≡ scheme }
        ensures seen { HasSeen [] [] result }
    {
        Causes {
            scheme,
            log: Log::new(alloc),
            findings: Findings::new(alloc),
            reaches: Reaches::new(alloc),
        }
    }

    /// Takes the next record, with the warnings at it. `TooManyRecords` exactly if 2^64 - 1 records
    /// have been taken; `NoMemory` where memory runs out, or a count has no room in 64 bits. After
    /// that nothing is said of the causes.
    pub fn record(&mut self, newest: Record, warnings: &[Warning]) -> Result<(), RecordFault>
        ensures scheme { self.new.scheme ≡ self.old.scheme }
        ensures ok { (trace : Trace) (given : List (List WarningOf)) → HasSeen trace given self.old
            → OnOk result (HasSeen (newest ∷ trace) (warnings.now ∷ given) self.new) }
        ensures full { (trace : Trace) (given : List (List WarningOf)) → HasSeen trace given self.old
            → (result ≡ Err RecordFault.TooManyRecords) ↔ (length trace ≡ 2 ^ 64 - 1) }
    {
        if self.log.count == u64::MAX {
            return Err(RecordFault::TooManyRecords);
        }
        self.reaches.add(&newest, self.log.fences.len())?;
        self.findings.take_all(&mut self.reaches, &self.log, self.scheme, &newest, warnings)?;
        self.log.add(newest)?;
        Ok(())
    }

    /// The causes so far, each with what is counted of it, in the order in which they began.
    pub fn tallies(&self) -> &[Tally]
        ensures { (trace : Trace) (given : List (List WarningOf)) → HasSeen trace given self.now
            → result.now ≡ tallies_of (verdicts_of self.now.scheme trace given) }
    {
        self.findings.tallies.as_slice()
    }

    /// The findings so far, each by its first verdict, in the order in which they began.
    pub fn begun(&self) -> &[Begun]
        ensures { (trace : Trace) (given : List (List WarningOf)) → HasSeen trace given self.now
            → result.now ≡ begun_of self.now.scheme trace given }
    {
        self.reaches.begun()
    }

    /// The reach of each of these findings, in the same order. `Err` only where memory runs out.
    pub fn reaches(&self, alloc: Global) -> Result<Vec<Reach>, AllocError>
        ensures { (trace : Trace) (given : List (List WarningOf)) → HasSeen trace given self.now
            → IfOk result (λ reaches. reaches.items
            ≡ map (reach_of self.now.scheme trace given) (begun_of self.now.scheme trace given)) }
    {
        self.reaches
            .reaches(alloc, self.scheme, self.log.fences.as_slice())
    }
}
