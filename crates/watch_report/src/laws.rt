//! Laws of lines and reports: each call makes no step, and its clauses hold of the definitions alone.
ghost use Rattle.std.specs.Prelude.{◌≡◌, ◌<◌, ◌≤◌, ◌++◌, List, [], ℕ, Some, None, is_none, is_some};
ghost use Rattle.std.specs.List.{Contains};
ghost use Rattle.std.specs.List.Sorted.{IsPermutation, IsStableBy};
ghost use Rattle.pte.specs.declared.scheme.Scheme.{Scheme};
ghost use Rattle.watch.specs.declared.trace.Record.{Record};
ghost use Rattle.watch.specs.Trace.{hart_of};
ghost use Rattle.watch_causes.specs.declared.tally.Tally.{Tally};
ghost use Rattle.watch_engine.specs.declared.warning.Warning.{Warning};
ghost use Rattle.watch_engine.specs.Warnings.{AreWarnings};
ghost use Rattle.watch_report.specs.declared.header.Header.{Header};
ghost use Rattle.watch_report.specs.declared.warning.Trigger.{Trigger};
ghost use Rattle.watch_report.specs.declared.found.Found.{Found};
ghost use Rattle.watch_report.specs.CauseLines.{AreInOrder, comes_before, numbered_from, ordered};
ghost use Rattle.watch_report.specs.ReadBack.{HasLine};
ghost use Rattle.watch_report.specs.RecordLines.{note_text, record_text};
ghost use Rattle.watch_report.specs.Fields.{fields_of};
ghost use Rattle.watch_report.specs.LineFaults.{fault_of, header_fault};
ghost use Rattle.watch_report.specs.TraceLines.{header_in, line_in, record_of};
ghost use Rattle.watch_report.specs.TraceText.{has_no_form, Noted, records_of, StandsOnLine, trace_of};
ghost use Rattle.watch_report.specs.VerdictLines.{trigger_of};
ghost use Rattle.watch_report.specs.Warnings.{verdict_of};

/// What is printed of a record, and of a note, reads as that record and that note.
pub fn printed_record_is_read()
    ensures { (header : Header) (made : Record) (by : List ℕ) → header.harts ≤ 64
        → hart_of made < header.harts → HasLine made
        → line_in header (record_text header.scheme made ++ note_text by)
        ≡ Some (record_of made by) }
{}

/// A line has a fault exactly when it has no form, and a first line when it is no header.
pub fn line_has_a_fault_or_a_form()
    ensures line { (header : Header) (text : List ℕ)
        → is_some (fault_of header text) ≡ has_no_form header text }
    ensures first { (text : List ℕ)
        → is_some (header_fault text) ≡ is_none (header_in (fields_of text)) }
{}

/// Each record has the number of the line of the file that says it, where the header is line 1.
pub fn record_stands_on_its_line()
    ensures { (header : Header) (lines : List (List ℕ)) (r : Noted)
        → Contains (records_of header lines) r → StandsOnLine header lines r }
{}

/// Each warning at a record has its line, and the line the verdict that is counted: a record of which
/// nothing is printed has no warning, and of the others the printed verdict is that of the warning.
pub fn each_warning_is_printed()
    ensures silent { (scheme : Scheme) (newest : Record) (records : List Noted)
        (warnings : List Warning) → AreWarnings scheme newest (trace_of records) warnings
        → trigger_of records newest ≡ None → warnings ≡ [] }
    ensures verdict { (scheme : Scheme) (newest : Record) (records : List Noted)
        (warnings : List Warning) (trigger : Trigger) (w : Warning)
        → AreWarnings scheme newest (trace_of records) warnings
        → trigger_of records newest ≡ Some trigger → Contains warnings w
        → w.verdict ≡ verdict_of trigger }
{}

/// At the end stands each cause that began, once, with its number. None comes before one that stands
/// in front of it, and those of which none comes before another stand as they began.
pub fn causes_stand_in_order()
    ensures each { (founds : List Found) (tallies : List Tally)
        → IsPermutation (numbered_from founds 1 tallies) (ordered founds tallies) }
    ensures order { (founds : List Found) (tallies : List Tally)
        → AreInOrder (ordered founds tallies) }
    ensures alike { (founds : List Found) (tallies : List Tally)
        → IsStableBy comes_before (numbered_from founds 1 tallies) (ordered founds tallies) }
{}
