//! Worked reports with a list of what is known: the definitions give what was worked out by hand. The
//! function does nothing, and each of its clauses is a row.

ghost use Rattle.watch_report.specs.WorkedKnownReports as reports;

/// What is told where one of two findings is known, none, and all.
#[tactic(auto, using(crate::proofs::WorkedKnownReports::reports))]
pub fn worked_known_findings()
    ensures other_verdict { reports.other_verdict }
    ensures other_cause { reports.other_cause }
    ensures other_count { reports.other_count }
    ensures other_is_told { reports.other_is_told }
    ensures all_verdicts { reports.all_verdicts }
    ensures all_causes { reports.all_causes }
    ensures later_verdict { reports.later_verdict }
    ensures other_note { reports.other_note }
    ensures use_is_told { reports.use_is_told }
    ensures cause_of_use { reports.cause_of_use }
    ensures count_of_use { reports.count_of_use }
    ensures some_is_told { reports.some_is_told }
    ensures first_entry { reports.first_entry }
    ensures both_entries { reports.both_entries }
    ensures no_cause { reports.no_cause }
    ensures none_is_told { reports.none_is_told }
    ensures all_tests { reports.all_tests }
    ensures other_page { reports.other_page }
    ensures other_reason { reports.other_reason }
    ensures object_of_design { reports.object_of_design }
    ensures object_of_entry { reports.object_of_entry }
    ensures first_unknown { reports.first_unknown }
{}
