//! Worked filters: the definitions give what was worked out by hand. Each function does nothing, and
//! each of its clauses is a row.

ghost use Rattle.watch_report.specs.WorkedFilters as filters;

use watch_engine::worked_two_warnings;

/// Of which verdicts a report tells, and which its last line counts.
#[tactic(auto, using(crate::proofs::WorkedFilters::told))]
pub fn worked_filtered_lines()
    ensures without_a_filter { filters.without_a_filter }
    ensures one_hart { filters.one_hart }
    ensures first_address { filters.first_address }
    ensures last_address { filters.last_address }
    ensures address_within { filters.address_within }
    ensures address_behind { filters.address_behind }
    ensures users_kind { filters.users_kind }
    ensures kernels_kind { filters.kernels_kind }
    ensures other_kind { filters.other_kind }
    ensures two_tests { filters.two_tests }
    ensures three_tests { filters.three_tests }
    ensures none_passes { filters.none_passes }
    ensures counted_alone { filters.counted_alone }
{}

/// Of which causes it tells.
#[tactic(auto, using(crate::proofs::WorkedFilters::causes))]
pub fn worked_filtered_causes()
    ensures cause_of_use { filters.cause_of_use }
    ensures causes_of_hart { filters.causes_of_hart }
    ensures no_cause { filters.no_cause }
{}

/// Whether it answers that there is a verdict.
pub fn worked_statuses()
    ensures warns_at_all { filters.warns_at_all }
    ensures warns_of_hart { filters.warns_of_hart }
    ensures warns_of_page { filters.warns_of_page }
    ensures warns_of_kind { filters.warns_of_kind }
    ensures silent_of_hart { filters.silent_of_hart }
    ensures silent_of_page { filters.silent_of_page }
    ensures silent_of_kind { filters.silent_of_kind }
    ensures silent_of_kernel { filters.silent_of_kernel }
{
    worked_two_warnings();
}

/// Words and their filters.
#[tactic(auto, using(crate::proofs::WorkedFilters::words))]
pub fn worked_words()
    ensures no_word { filters.no_word }
    ensures three_words { filters.three_words }
    ensures hart_word { filters.hart_word }
    ensures page_word { filters.page_word }
    ensures kind_word { filters.kind_word }
{}

/// Words that are refused.
#[tactic(auto, using(crate::proofs::WorkedFilters::refused))]
pub fn refused_words()
    ensures no_such_hart { filters.no_such_hart }
    ensures hart_in_letters { filters.hart_in_letters }
    ensures empty_hart { filters.empty_hart }
    ensures page_with_prefix { filters.page_with_prefix }
    ensures long_page { filters.long_page }
    ensures large_letters { filters.large_letters }
    ensures owner_alone { filters.owner_alone }
    ensures word_of_users { filters.word_of_users }
    ensures end_of_a_word { filters.end_of_a_word }
{}
