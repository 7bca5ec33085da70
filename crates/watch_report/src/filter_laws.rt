//! Laws of filters: each call makes no step, and its clauses hold of the definitions alone.
ghost use Rattle.std.specs.Prelude.{◌≡◌, ◌∷◌, ◌++◌, ◌↔◌, Bool, List, ℕ, Some, codes, true};
ghost use Rattle.pte.specs.declared.scheme.Scheme.{Scheme};
ghost use Rattle.watch.specs.declared.trace.Verdict.{Verdict};
ghost use Rattle.watch_engine.specs.declared.warning.Warning.{Warning};
ghost use Rattle.watch_report.specs.declared.filter.Filter.{Filter};
ghost use Rattle.watch_report.specs.declared.filter.Kind.{Kind};
ghost use Rattle.watch_report.specs.declared.warning.Warning.{Warning as PrintedWarning};
ghost use Rattle.watch_report.specs.Filters.{AreTakenAt, has_kind, kind_in, kind_of, kind_text, no_filter, takes};
ghost use Rattle.watch_report.specs.Orders.{IsInOrder};
ghost use Rattle.watch_report.specs.TraceText.{Noted, trace_of};
ghost use Rattle.watch_report.specs.VerdictLines.{AreGiven, AreInOrder, AreTakenBy};
ghost use Rattle.watch_report.specs.Warnings.{place_text, verdict_of, verdict_part};

/// The filter without a test takes every verdict that is given.
pub fn open_filter_takes_all()
    ensures takes { (w : Warning) → takes no_filter w ≡ true }
    ensures told { (scheme : Scheme) (records : List Noted) (given : List (List Warning))
        → AreTakenBy no_filter scheme records given
        ↔ AreGiven scheme records given × AreInOrder given }
{}

/// At the newest record a report tells of the verdicts there that its filter takes, all of them and no
/// others, in order, and at each record before it likewise, where none of them is known to be by design.
pub fn told_verdicts_are_those_taken()
    ensures newest { (filter : Filter) (scheme : Scheme) (newest : Noted) (records : List Noted)
        (warnings : List Warning) (told : List (List Warning))
        → AreTakenBy filter scheme (newest ∷ records) (warnings ∷ told)
        → AreTakenAt filter scheme newest.made (trace_of records) warnings × IsInOrder warnings }
    ensures before { (filter : Filter) (scheme : Scheme) (newest : Noted) (records : List Noted)
        (warnings : List Warning) (told : List (List Warning))
        → AreTakenBy filter scheme (newest ∷ records) (warnings ∷ told)
        → AreTakenBy filter scheme records told }
{}

/// The line of a verdict has the word of its kind. Each such word is read as its kind, and no other word
/// is read.
pub fn kind_is_the_word_of_a_line()
    ensures has { (verdict : Verdict) (global : Bool) (kind : Kind)
        → (has_kind verdict global kind ≡ true) ↔ (kind ≡ kind_of global verdict) }
    ensures line { (file : List ℕ) (w : PrintedWarning) → verdict_part file w
        ≡ place_text file w.line ++ kind_text (kind_of w.entry.global (verdict_of w.trigger))
        ++ codes " hart " }
    ensures read { (kind : Kind) → kind_in (kind_text kind) ≡ Some kind }
    ensures refused { (word : List ℕ) (kind : Kind) → kind_in word ≡ Some kind
        → kind_text kind ≡ word }
{}
