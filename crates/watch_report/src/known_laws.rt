//! Laws of what is known to be by design: each call makes no step, and its clauses hold of the
//! definitions alone.
ghost use Rattle.std.specs.Prelude.{◌≡◌, ◌↔◌, List, [], true};
ghost use Rattle.pte.specs.declared.scheme.Scheme.{Scheme};
ghost use Rattle.watch_engine.specs.declared.warning.Warning.{Warning};
ghost use Rattle.watch_report.specs.declared.filter.Filter.{Filter};
ghost use Rattle.watch_report.specs.KnownVerdicts.{has_verdict, unknown};
ghost use Rattle.watch_report.specs.Reports.{TellsVerdict, Told};
ghost use Rattle.watch_report.specs.TraceText.{Noted, trace_of};
ghost use Rattle.watch_report.specs.VerdictLines.{AreTakenBy, GivesVerdict};

/// Without entries a report tells of each verdict that its filter takes, and of some exactly when one is
/// due that the filter takes.
pub fn nothing_is_known_without_entries()
    ensures all { (filter : Filter) (scheme : Scheme) (records : List Noted)
        (taken : List (List Warning)) → AreTakenBy filter scheme records taken
        → unknown [] scheme records taken ≡ taken }
    ensures some { (filter : Filter) (scheme : Scheme) (records : List Noted)
        (taken : List (List Warning)) → AreTakenBy filter scheme records taken
        → (has_verdict taken ≡ true) ↔ GivesVerdict filter scheme (trace_of records) }
{}

/// Whatever is known, a verdict is told only where one is due that the filter takes.
pub fn told_verdict_is_due()
    ensures { (told : Told) (scheme : Scheme) (records : List Noted) → TellsVerdict told scheme records
        → GivesVerdict told.options.filter scheme (trace_of records) }
{}
