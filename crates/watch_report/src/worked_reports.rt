//! Worked reports: the definitions give what was worked out by hand. Each function does nothing, and
//! each of its clauses is a row.

ghost use Rattle.watch_report.specs.WorkedReports as reports;

/// How reports of a few lines end, and what they leave written.
#[tactic(auto, using(crate::proofs::WorkedReports::endings))]
pub fn worked_endings()
    ensures done { reports.done }
    ensures done_without_a_feed { reports.done_without_a_feed }
    ensures header_alone { reports.header_alone }
    ensures no_line { reports.no_line }
    ensures no_header { reports.no_header }
    ensures faulty { reports.faulty }
    ensures torn { reports.torn }
    ensures cut_off { reports.cut_off }
    ensures cut_off_at_a_fault { reports.cut_off_at_a_fault }
    ensures unread { reports.unread }
    ensures unread_at_a_fault { reports.unread_at_a_fault }
{}

/// What no report leaves.
#[tactic(auto, using(crate::proofs::WorkedReports::refusals))]
pub fn refused_endings()
    ensures other_line { reports.other_line }
    ensures other_fault { reports.other_fault }
    ensures done_with_a_fault { reports.done_with_a_fault }
    ensures warned_without_a_verdict { reports.warned_without_a_verdict }
    ensures warned_at_a_fault { reports.warned_at_a_fault }
    ensures warned_without_a_header { reports.warned_without_a_header }
    ensures whole_at_a_fault { reports.whole_at_a_fault }
    ensures no_last_line_at_a_fault { reports.no_last_line_at_a_fault }
    ensures nothing_printed { reports.nothing_printed }
    ensures unread_before_a_fault { reports.unread_before_a_fault }
    ensures unread_without_a_verdict { reports.unread_without_a_verdict }
    ensures unread_other_bytes { reports.unread_other_bytes }
{}

/// What is told of two verdicts, in each detail.
#[tactic(auto, using(crate::proofs::WorkedReports::texts))]
pub fn worked_texts()
    ensures lines_of_records { reports.lines_of_records }
    ensures lines_of_verdicts { reports.lines_of_verdicts }
    ensures lines_of_cause { reports.lines_of_cause }
    ensures lines_of_causes { reports.lines_of_causes }
    ensures counts_alone { reports.counts_alone }
{}

/// What is not told of them.
#[tactic(auto, using(crate::proofs::WorkedReports::refused))]
pub fn refused_texts()
    ensures numbers_of_records { reports.numbers_of_records }
    ensures no_block { reports.no_block }
    ensures no_total { reports.no_total }
    ensures block_of_counts { reports.block_of_counts }
{}

/// The order of verdicts at a record.
#[tactic(auto, using(crate::proofs::WorkedReports::orders))]
pub fn worked_verdict_orders()
    ensures by_hart { reports.by_hart }
    ensures by_page { reports.by_page }
    ensures by_size { reports.by_size }
    ensures by_ppn { reports.by_ppn }
    ensures by_rights { reports.by_rights }
    ensures by_owner { reports.by_owner }
    ensures by_kind { reports.by_kind }
    ensures by_root { reports.by_root }
    ensures hart_too_late { reports.hart_too_late }
    ensures page_too_late { reports.page_too_late }
    ensures rights_too_late { reports.rights_too_late }
    ensures kind_too_late { reports.kind_too_late }
    ensures root_too_late { reports.root_too_late }
{}
