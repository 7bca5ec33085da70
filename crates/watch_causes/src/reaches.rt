//! The findings that have begun, and their reach.

ghost use Rattle.std.specs.Prelude.{ℕ, ◌≡◌, ◌∷◌, ◌++◌, List, [], IfOk, None, OnOk, get_or, is_some, length, map};
ghost use Rattle.std.specs.BTreeMap.{get};
ghost use Rattle.std.specs.Ordering.{nat_cmp};
ghost use Rattle.pte.specs.declared.scheme.Scheme.{Scheme as SchemeOf};
ghost use Rattle.watch.specs.Trace.{Trace};
ghost use Rattle.watch.specs.declared.trace.Record.{Record as RecordOf};
ghost use Rattle.watch_causes.specs.declared.begun.Begun.{Begun as BegunOf};
ghost use Rattle.watch_causes.specs.Concerned.{AreListed, any_returns};
ghost use Rattle.watch_causes.specs.Decisions.{comes_from};
ghost use Rattle.watch_causes.specs.Findings.{Judged, finding_cmp, finding_of};
ghost use Rattle.watch_causes.specs.Moves.{fence_count, fences_of};
ghost use Rattle.watch_causes.specs.Reaches.{reach_by, reach_among};
ghost use Rattle.watch_causes.specs.Returns.{AreLast};

use crate::begun::Begun;
use crate::concerned::{add_hart, decided_behind};
use crate::finding::{Finding, finding_of, is_same_verdict};
use crate::log::Numbered;
use crate::moves::{Move, Moves};
use crate::reach::Reach;
use crate::returns::{Visit, is_gone, last_returns, returns_behind};
use pte::Scheme;
use std::alloc::{AllocError, Global};
use std::collections::BTreeMap;
use watch::{Record, Verdict};
use watch_engine::Warning;

/// The findings so far; how many moves were kept when each began, where its hart was elsewhere; and
/// those that have a use.
#[derive(Drop)]
pub(crate) struct Reaches {
    begun: Vec<Begun>,
    starts: Vec<Option<usize>>,
    used: BTreeMap<Finding, ()>,
    moves: Moves,
}

fn is_in(used: &BTreeMap<Finding, ()>, finding: &Finding) -> bool
    ensures { result ≡ is_some (get finding_cmp used.now finding.now) }
{
    used.get(finding).is_some()
}

fn start_at(starts: &[Option<usize>], at: usize) -> Option<usize>
    ensures { result ≡ get_or starts.now at None }
{
    match starts.get(at) {
        Some(start) => *start,
        None => None,
    }
}

/// The places of the moves that concern each hart that comes back behind the start of a finding.
fn places_by_hart(
    alloc: Global,
    fences: &[Numbered],
    moves: &[Move],
    lasts: &BTreeMap<Visit, usize>,
    begun: &[Begun],
    starts: &[Option<usize>],
) -> Result<BTreeMap<u8, Vec<usize>>, AllocError>
    ensures listed { IfOk result (AreListed fences.now moves.now) }
    ensures harts { IfOk result (λ lists. (hart : ℕ) → is_some (get nat_cmp lists hart)
        ≡ any_returns lasts.now hart begun.now starts.now) }
{
    let mut lists = BTreeMap::new(alloc);
    for (at, one) in begun.iter().enumerate() {
        if returns_behind(lasts, &one.warning, start_at(starts, at)) {
            add_hart(alloc, &mut lists, fences, moves, one.warning.hart)?;
        }
    }
    Ok(lists)
}

fn reach_by(used: bool, back: bool) -> Reach
    ensures { result ≡ reach_by used back }
{
    if used {
        Reach::Used
    } else if back {
        Reach::Reachable
    } else {
        Reach::NotReached
    }
}

impl Reaches {
    ghost use Rattle.watch_causes.specs.Reaching.{HasReached};

    pub(crate) fn new(alloc: Global) -> Reaches
        ensures { (scheme : SchemeOf) → HasReached scheme [] [] [] result }
    {
        Reaches {
            begun: Vec::new(alloc),
            starts: Vec::new(alloc),
            used: BTreeMap::new(alloc),
            moves: Moves::new(alloc),
        }
    }

    /// Takes the next record, where the log has so many fences.
    #[inline(always)]
    pub(crate) fn add(&mut self, newest: &Record, fences: usize) -> Result<(), AllocError>
        ensures { (scheme : SchemeOf) (trace : Trace) (verdicts : List Judged) (begun : List BegunOf)
            → HasReached scheme trace verdicts begun self.old → fences ≡ fence_count trace
            → OnOk result (HasReached scheme (newest.now ∷ trace) verdicts begun self.new) }
    {
        self.moves.add(newest, fences)
    }

    /// Takes a finding that begins with the last record.
    pub(crate) fn begin(&mut self, begun: Begun) -> Result<(), AllocError>
        ensures { (scheme : SchemeOf) (newest : RecordOf) (trace : Trace) (verdicts : List Judged)
            (others : List BegunOf) → HasReached scheme (newest ∷ trace) verdicts others self.old
            → begun.number ≡ length (newest ∷ trace)
            → OnOk result (HasReached scheme (newest ∷ trace) verdicts (others ++ begun ∷ [])
            self.new) }
    {
        let start = self.moves.start(&begun.warning);
        self.begun.push(begun)?;
        self.starts.push(start)?;
        Ok(())
    }

    /// Takes a verdict.
    pub(crate) fn take(&mut self, warning: &Warning) -> Result<(), AllocError>
        ensures { (scheme : SchemeOf) (trace : Trace) (verdicts : List Judged) (v : Judged)
            (begun : List BegunOf) → HasReached scheme trace verdicts begun self.old
            → v.warning ≡ warning.now
            → OnOk result (HasReached scheme trace (v ∷ verdicts) begun self.new) }
    {
        if !is_same_verdict(warning.verdict, Verdict::Used) {
            return Ok(());
        }
        if self.used.insert(finding_of(warning), ()).is_err() {
            return Err(AllocError);
        }
        Ok(())
    }

    /// The findings, in the order in which they began.
    pub(crate) fn begun(&self) -> &[Begun]
        ensures { result.now ≡ self.now.begun.items }
    {
        self.begun.as_slice()
    }

    /// Whether the hart of a finding with that start comes back.
    fn comes_back(
        &self,
        scheme: Scheme,
        fences: &[Numbered],
        lasts: &BTreeMap<Visit, usize>,
        lists: &BTreeMap<u8, Vec<usize>>,
        warning: &Warning,
        start: Option<usize>,
    ) -> bool
        ensures { AreLast self.now.moves.kept.items lasts.now
            → AreListed fences.now self.now.moves.kept.items lists.now → result
            ≡ comes_from scheme fences.now self.now.moves.kept.items warning.now start }
    {
        let Some(start) = start else {
            return true;
        };
        if is_gone(lasts, warning, start) {
            return false;
        }
        match decided_behind(scheme, fences, lists, warning, &self.moves, start) {
            Some(back) => back,
            None => false,
        }
    }

    /// The reach of a finding with that start.
    fn reach(
        &self,
        scheme: Scheme,
        fences: &[Numbered],
        lasts: &BTreeMap<Visit, usize>,
        lists: &BTreeMap<u8, Vec<usize>>,
        begun: &Begun,
        start: Option<usize>,
    ) -> Reach
        ensures { AreLast self.now.moves.kept.items lasts.now
            → AreListed fences.now self.now.moves.kept.items lists.now → result
            ≡ reach_by (is_some (get finding_cmp self.now.used (finding_of begun.now.warning)))
            (comes_from scheme fences.now self.now.moves.kept.items begun.now.warning start) }
    {
        let used = is_in(&self.used, &finding_of(&begun.warning));
        reach_by(
            used,
            used || self.comes_back(scheme, fences, lasts, lists, &begun.warning, start),
        )
    }

    /// The reach of each finding.
    pub(crate) fn reaches(
        &self,
        alloc: Global,
        scheme: Scheme,
        fences: &[Numbered],
    ) -> Result<Vec<Reach>, AllocError>
        ensures { (trace : Trace) (verdicts : List Judged) (begun : List BegunOf)
            → HasReached scheme trace verdicts begun self.now → fences.now ≡ fences_of trace
            → IfOk result (λ reaches. reaches.items ≡ map (reach_among scheme trace verdicts) begun) }
    {
        let moves = self.moves.behind(0);
        let lasts = last_returns(alloc, moves)?;
        let lists = places_by_hart(
            alloc,
            fences,
            moves,
            &lasts,
            self.begun.as_slice(),
            self.starts.as_slice(),
        )?;
        let mut reaches = Vec::new(alloc);
        for (at, begun) in self.begun.iter().enumerate() {
            let start = start_at(self.starts.as_slice(), at);
            let reach = self.reach(scheme, fences, &lasts, &lists, begun, start);
            reaches.push(reach)?;
        }
        Ok(reaches)
    }
}
