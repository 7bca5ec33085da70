//! Laws of the definitions: each function does nothing, and its contract is the law.

ghost use Rattle.std.specs.Prelude.{ℕ, ◌≡◌, ◌≢◌, ◌<◌, ◌==◌, ◌+◌, ◌++◌, ◌∷◌, ◌↔◌, [], List, Some, false, find, is_some, length, map, option_map, sum, sum_by, true};
ghost use Rattle.std.specs.Int.{bit_at};
ghost use Rattle.std.specs.List.{before_first};
ghost use Rattle.pte.specs.declared.scheme.Scheme.{Scheme};
ghost use Rattle.watch.specs.declared.trace.Claim.{Claim};
ghost use Rattle.watch.specs.declared.trace.Record.{Record};
ghost use Rattle.watch.specs.declared.trace.Record.TheVariants as records;
ghost use Rattle.watch.specs.Holding.{MayHold};
ghost use Rattle.watch.specs.Trace.{Trace, begins_claim, claim_of};
ghost use Rattle.watch.specs.declared.trace.Verdict.{Verdict};
ghost use Rattle.watch_engine.specs.declared.warning.Warning.{Warning};
ghost use Rattle.watch_engine.specs.Open.{claim_begun};
ghost use Rattle.watch_engine.specs.Warnings.{StaleFrom, shown_of};
ghost use Rattle.watch_causes.specs.declared.begun.Begun.{Begun};
ghost use Rattle.watch_causes.specs.declared.finding.Cause.{Cause};
ghost use Rattle.watch_causes.specs.declared.finding.Finding.{Finding};
ghost use Rattle.watch_causes.specs.declared.known_findings.KnownFindings.{KnownFindings};
ghost use Rattle.watch_causes.specs.declared.reach.Reach.TheVariants.{NotReached, Reachable, Used};
ghost use Rattle.watch_causes.specs.declared.tally.Tally.{Tally};
ghost use Rattle.watch_causes.specs.Begins.{begun_of};
ghost use Rattle.watch_causes.specs.Counting.{AreApart, AreOfOneFinding, begun_of_cause, example_of, finding_count, findings_in, findings_of, sum_of, times_begun, verdicts_in, verdicts_of};
ghost use Rattle.watch_causes.specs.Fenced.{fenced_of, is_of_hart};
ghost use Rattle.watch_causes.specs.Findings.{Judged, cause_by, cause_of, cause_with, finding_of};
ghost use Rattle.watch_causes.specs.Judging.{verdicts_of as verdicts_on};
ghost use Rattle.watch_causes.specs.KnownFindings.{KnownEntry, Sourced, counts_of, finding, first_of, is_known, known_count};
ghost use Rattle.watch_causes.specs.KnownSoFar.{HasKnown};
ghost use Rattle.watch_causes.specs.Reaches.{is_used, reach_of, takes};
ghost use Rattle.watch_causes.specs.Reasons.{reason_of};
ghost use Rattle.watch_causes.specs.Tallies.{is_of, more_if, tallies_of};

use watch::what_is_mapped_is_not_stale;

/// The flush that a record ends is the one that is open under its token: the newest record that
/// begins one there has its claim, and so many records were made up to it.
#[tactic(auto, using(crate::proofs::OpenFlushes::open_flush))]
pub fn ended_flush_is_the_open_one()
    ensures { (token : ℕ) (trace : Trace) (claim : Claim) → claim_of trace token ≡ Some claim
        → (hart : ℕ)
        × (find (begins_claim token) trace ≡ Some (records.ClaimBegin hart token claim))
        × (length (before_first (begins_claim token) trace) + claim_begun token trace ≡ length trace) }
{}

/// A verdict has one finding, and two verdicts have the same exactly if they agree in the record that
/// made the page stale, the hart, the page, whether it is global and, if not, its root and its ASID.
#[tactic(auto, using(crate::proofs::Apart::one_finding))]
pub fn verdict_has_one_finding()
    ensures { (a b : Warning) → (finding_of a ≡ finding_of b) ↔ AreOfOneFinding a b }
{}

/// A finding has one cause, which stays as its first verdict made it; and each verdict is counted to
/// the cause of its finding.
#[tactic(auto, using(crate::proofs::Knowing::causes_of_findings))]
pub fn finding_has_one_cause()
    ensures stays { (f : Finding) (cause : Cause) (next : Judged) (verdicts : List Judged)
        → cause_of verdicts f ≡ Some cause → cause_of (next ∷ verdicts) f ≡ Some cause }
    ensures own { (next : Judged) (verdicts : List Judged)
        → cause_of (next ∷ verdicts) (finding_of next.warning) ≡ Some (cause_with next verdicts) }
{}

/// The tally of a cause, if it has one, has its findings, its verdicts of each kind and its first
/// verdict; a cause with no tally has none.
#[tactic(auto, using(crate::proofs::Counted::counts))]
pub fn tallies_count_their_causes()
    ensures findings { (cause : Cause) (verdicts : List Judged)
        → findings_in (find (is_of cause) (tallies_of verdicts)) ≡ findings_of cause verdicts }
    ensures verdicts { (cause : Cause) (kind : Verdict) (verdicts : List Judged)
        → verdicts_in kind (find (is_of cause) (tallies_of verdicts))
        ≡ verdicts_of cause kind verdicts }
    ensures example { (cause : Cause) (verdicts : List Judged)
        → option_map (λ (t : Tally). t.example) (find (is_of cause) (tallies_of verdicts))
        ≡ example_of cause verdicts }
{}

/// The findings of all causes are all findings, and their verdicts all verdicts.
#[tactic(auto, using(crate::proofs::Counted::sums))]
pub fn tallies_add_up()
    ensures findings { (verdicts : List Judged)
        → sum_by (λ (t : Tally). t.findings) (tallies_of verdicts) ≡ finding_count verdicts }
    ensures verdicts { (verdicts : List Judged)
        → sum_by (λ (t : Tally). sum_of t.verdicts) (tallies_of verdicts) ≡ length verdicts }
{}

/// No cause has two tallies.
#[tactic(auto, using(crate::proofs::Apart::tallies_apart))]
pub fn cause_has_one_tally()
    ensures { (verdicts : List Judged) → AreApart (tallies_of verdicts) }
{}

/// Without entries nothing is known, and nothing has to be kept.
pub fn without_entries_nothing_is_known()
    ensures known { (next : Sourced) (verdicts : List Sourced) → is_known [] next verdicts ≡ false }
    ensures kept { (scheme : Scheme) (trace later : Trace) (verdicts next : List Sourced)
        (k : KnownFindings) → HasKnown [] scheme trace verdicts k → HasKnown [] scheme later next k }
{}

/// A finding is known as a whole: two of its verdicts agree, whatever stands between.
#[tactic(auto, using(crate::proofs::FirstVerdicts::as_a_whole))]
pub fn finding_is_known_as_a_whole()
    ensures { (known : List KnownEntry) (a b : Sourced) (before between : List Sourced)
        → finding a ≡ finding b → is_known known b (between ++ a ∷ before) ≡ is_known known a before }
{}

/// The verdict that begins a finding is the one that makes its cause.
#[tactic(auto, using(crate::proofs::FirstVerdicts::makes_the_cause))]
pub fn first_verdict_makes_the_cause()
    ensures { (f : Finding) (verdicts : List Sourced)
        → option_map (λ (v : Sourced). cause_by v.judged) (first_of verdicts f)
        ≡ cause_of (map (λ (v : Sourced). v.judged) verdicts) f }
{}

/// The findings that the entries count are all that are known.
#[tactic(auto, using(crate::proofs::KnownCounts::counts_add_up))]
pub fn known_findings_add_up()
    ensures { (known : List KnownEntry) (verdicts : List Sourced)
        → sum (counts_of known verdicts) ≡ known_count known verdicts }
{}

/// A finding that has a verdict has begun, once; one that has none has not.
#[tactic(auto, using(crate::proofs::Beginning::begun_once))]
pub fn finding_begins_once()
    ensures { (f : Finding) (scheme : Scheme) (trace : Trace) (given : List (List Warning))
        → times_begun f (begun_of scheme trace given)
        ≡ more_if (is_some (cause_of (verdicts_on scheme trace given) f)) 0 }
{}

/// As many findings of a cause have begun as its tally counts.
#[tactic(auto, using(crate::proofs::Beginning::begun_as_counted))]
pub fn begun_findings_are_counted()
    ensures { (cause : Cause) (scheme : Scheme) (trace : Trace) (given : List (List Warning))
        → begun_of_cause cause (begun_of scheme trace given)
        ≡ findings_in (find (is_of cause) (tallies_of (verdicts_on scheme trace given))) }
{}

/// A finding is used exactly if one of its verdicts is a use.
#[tactic(auto, using(crate::proofs::Beginning::used_by_a_use))]
pub fn use_is_of_its_finding()
    ensures { (scheme : Scheme) (trace : Trace) (given : List (List Warning)) (b : Begun)
        → (reach_of scheme trace given b ≡ Used)
        ↔ (is_used (verdicts_on scheme trace given) (finding_of b.warning) ≡ true) }
{}

/// With more records a finding that was used stays so, and one that was reachable is reachable or used.
#[tactic(auto, using(crate::proofs::Beginning::reach_stays))]
pub fn reach_only_grows()
    ensures used { (scheme : Scheme) (trace : Trace) (given : List (List Warning)) (newest : Record)
        (warnings : List Warning) (b : Begun) → reach_of scheme trace given b ≡ Used
        → reach_of scheme (newest ∷ trace) (warnings ∷ given) b ≡ Used }
    ensures reachable { (scheme : Scheme) (trace : Trace) (given : List (List Warning))
        (newest : Record) (warnings : List Warning) (b : Begun)
        → reach_of scheme trace given b ≡ Reachable
        → reach_of scheme (newest ∷ trace) (warnings ∷ given) b ≢ NotReached }
{}

/// The harts that a flush asked for a fence have that of a verdict exactly if the reason says so.
#[tactic(auto, using(crate::proofs::FencedHarts::fenced_by_reason))]
pub fn fenced_harts_fit_the_reason()
    ensures { (scheme : Scheme) (newest : Record) (trace : Trace) (w : Warning) → w.hart < 64
        → (bit_at (fenced_of newest trace w) w.hart == 1)
        ≡ is_of_hart (reason_of scheme newest trace w) }
{}

/// What a fence takes, the hart may not hold, if it has been stale since the record that the verdict
/// names.
pub fn taken_is_not_held()
    ensures { (scheme : Scheme) (newest : Record) (trace : Trace) (w : Warning)
        → StaleFrom scheme w.stale_since trace w.hart (shown_of w)
        → takes scheme w newest trace ≡ true
        → ¬ MayHold scheme (newest ∷ trace) w.hart (shown_of w) }
{
    what_is_mapped_is_not_stale();
}
