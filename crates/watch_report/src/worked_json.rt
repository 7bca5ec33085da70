//! Worked objects of JSON and worked reports of at most so many: the definitions give what was worked
//! out by hand. Each function does nothing, and each of its clauses is a row.

ghost use Rattle.watch_report.specs.JsonLaws as laws;
ghost use Rattle.watch_report.specs.WorkedJson as objects;
ghost use Rattle.watch_report.specs.WorkedMost as reports;

/// Verdicts of each kind, with and without notes.
#[tactic(auto, using(crate::proofs::WorkedJson::verdicts))]
pub fn worked_verdict_objects()
    ensures claim { objects.claim }
    ensures free_of_kernel { objects.free_of_kernel }
    ensures reuse { objects.reuse }
    ensures used { objects.used }
{}

/// Where a cause begins, and what is counted of it.
#[tactic(auto, using(crate::proofs::WorkedJson::causes))]
pub fn worked_cause_objects()
    ensures cause_begins { objects.cause_begins }
    ensures other_cause_begins { objects.other_cause_begins }
    ensures total { objects.total }
    ensures other_total { objects.other_total }
{}

/// What is printed at the end.
#[tactic(auto, using(crate::proofs::WorkedJson::endings))]
pub fn worked_last_objects()
    ensures known { objects.known }
    ensures summary { objects.summary }
    ensures summary_before_a_wrong_line { objects.summary_before_a_wrong_line }
{}

/// At most so many verdicts, and at most so many causes; all are counted.
#[tactic(auto, using(crate::proofs::WorkedMost::firsts))]
pub fn worked_firsts()
    ensures no_verdict { reports.no_verdict }
    ensures one_verdict { reports.one_verdict }
    ensures two_verdicts { reports.two_verdicts }
    ensures fewer_verdicts { reports.fewer_verdicts }
    ensures one_of_a_record { reports.one_of_a_record }
    ensures no_cause { reports.no_cause }
    ensures one_cause { reports.one_cause }
    ensures one_of_two_causes { reports.one_of_two_causes }
    ensures two_causes { reports.two_causes }
    ensures fewer_causes { reports.fewer_causes }
{}

/// Reports in JSON.
#[tactic(auto, using(crate::proofs::WorkedMost::in_json))]
pub fn worked_json_reports()
    ensures objects_of_verdicts { reports.objects_of_verdicts }
    ensures objects_of_causes { reports.objects_of_causes }
    ensures object_of_counts { reports.object_of_counts }
    ensures first_object { reports.first_object }
{}

/// Each object stands on a line of its own.
#[tactic(auto, using(crate::proofs::JsonLaws::lines))]
pub fn each_object_is_on_a_line()
    ensures verdicts { laws.each_verdict }
    ensures causes { laws.each_cause }
    ensures totals { laws.each_total }
    ensures known { laws.each_known }
    ensures summaries { laws.each_summary }
    ensures findings { laws.each_finding }
    ensures notes { laws.each_note }
{}
