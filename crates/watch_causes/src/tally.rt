//! The counts of each cause.

ghost use Rattle.std.specs.Prelude.{◌≡◌, ◌+◌, IfOk, OnOk, position};
ghost use Rattle.watch_causes.specs.Findings.{Judged};
ghost use Rattle.watch_causes.specs.Tallies.{counted, first_tally, is_of, more_if, with_verdict, tallied};
ghost use Rattle.watch_causes.specs.declared.reason.Reason.{Reason as ReasonOf};

use crate::finding::{Cause, is_same_cause};
use std::alloc::AllocError;
use watch::Verdict;
use watch_engine::Warning;

/// How many verdicts of each kind.
#[derive(Clone, Copy, PartialEq, Eq, Debug)]
pub struct Verdicts {
    pub free: u64,
    pub reuse: u64,
    pub claimed: u64,
    pub used: u64,
}

/// A verdict, and the number of its record. `warning.stale_since` is that of the record that made the
/// page stale.
#[derive(Clone, Copy, PartialEq, Eq, Debug)]
pub struct Example {
    pub number: u64,
    pub warning: Warning,
}

/// What is counted of a cause.
#[derive(Clone, Copy, PartialEq, Eq, Debug)]
pub struct Tally {
    /// The cause.
    pub cause: Cause,
    /// How many findings it has.
    pub findings: u64,
    /// The verdicts of these findings.
    pub verdicts: Verdicts,
    /// The first verdict.
    pub example: Example,
}

/// One more, if so. Refused where the count has no room in 64 bits.
pub(crate) fn more_if(count: u64, is_more: bool) -> Result<u64, AllocError>
    ensures { IfOk result (λ more. more ≡ more_if is_more count) }
{
    if !is_more {
        return Ok(count);
    }
    match count.checked_add(1) {
        Some(more) => Ok(more),
        None => Err(AllocError),
    }
}

impl Verdicts {
    fn none() -> Verdicts
        ensures { result ≡ record { free = 0; reuse = 0; claimed = 0; used = 0 } }
    {
        Verdicts {
            free: 0,
            reuse: 0,
            claimed: 0,
            used: 0,
        }
    }

    fn count(&mut self, verdict: Verdict) -> Result<(), AllocError>
        ensures { OnOk result (self.new ≡ counted verdict self.old) }
    {
        match verdict {
            Verdict::Free => self.free = more_if(self.free, true)?,
            Verdict::Reuse => self.reuse = more_if(self.reuse, true)?,
            Verdict::Claimed => self.claimed = more_if(self.claimed, true)?,
            Verdict::Used => self.used = more_if(self.used, true)?,
        }
        Ok(())
    }
}

impl Tally {
    fn first(
        cause: Cause,
        begins: bool,
        number: u64,
        warning: &Warning,
    ) -> Result<Tally, AllocError>
        ensures { (reason : ReasonOf) → IfOk result (λ tally. tally ≡ first_tally cause begins
            (record { number = number; warning = warning.now; reason = reason })) }
    {
        let mut verdicts = Verdicts::none();
        verdicts.count(warning.verdict)?;
        Ok(Tally {
            cause,
            findings: more_if(0, begins)?,
            verdicts,
            example: Example {
                number,
                warning: *warning,
            },
        })
    }

    fn count(&mut self, begins: bool, verdict: Verdict) -> Result<(), AllocError>
        ensures { OnOk result (self.new ≡ tallied begins verdict self.old) }
    {
        self.findings = more_if(self.findings, begins)?;
        self.verdicts.count(verdict)
    }
}

fn place_of(tallies: &[Tally], cause: &Cause) -> Option<usize>
    ensures { result ≡ position (is_of cause.now) tallies.now }
{
    tallies.iter().position(|t| is_same_cause(cause, &t.cause))
}

/// Counts a verdict of the cause, which begins its finding or not.
pub(crate) fn count(
    tallies: &mut Vec<Tally>,
    cause: &Cause,
    begins: bool,
    number: u64,
    warning: &Warning,
) -> Result<(), AllocError>
    ensures { (reason : ReasonOf) → OnOk result (tallies.new.items ≡ with_verdict cause.now begins
        (record { number = number; warning = warning.now; reason = reason }) tallies.old.items) }
{
    match place_of(tallies.as_slice(), cause) {
        Some(place) => tallies[place].count(begins, warning.verdict),
        None => {
            let tally = Tally::first(*cause, begins, number, warning)?;
            Ok(tallies.push(tally)?)
        }
    }
}
