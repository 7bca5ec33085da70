//! Worked stories: the definitions give what was worked out by hand. Each function does nothing, and
//! each of its clauses is a row.

ghost use Rattle.watch_report.specs.WorkedStories as stories;

/// What is told of a record in each role.
#[tactic(auto, using(crate::proofs::WorkedStories::roles))]
pub fn worked_roles()
    ensures word_stored { stories.word_stored }
    ensures hart_enters { stories.hart_enters }
    ensures hart_leaves { stories.hart_leaves }
    ensures hart_fenced { stories.hart_fenced }
    ensures hart_was_asked { stories.hart_was_asked }
    ensures unmapped { stories.unmapped }
    ensures other_hart_fenced { stories.other_hart_fenced }
    ensures other_hart_was_asked { stories.other_hart_was_asked }
    ensures other_space_fenced { stories.other_space_fenced }
    ensures fenced_by_asid { stories.fenced_by_asid }
    ensures other_page_fenced { stories.other_page_fenced }
    ensures not_done { stories.not_done }
    ensures flush_begins { stories.flush_begins }
    ensures flush_returns { stories.flush_returns }
    ensures frame_comes_back { stories.frame_comes_back }
    ensures frame_goes_out { stories.frame_goes_out }
    ensures page_is_used { stories.page_is_used }
    ensures other { stories.other }
{}

/// A whole story, and that it reads as a trace of its records.
#[tactic(auto, using(crate::proofs::WorkedStories::whole))]
pub fn worked_story()
    ensures whole_text { stories.whole_text }
    ensures header_is_read { stories.header_is_read }
    ensures records_are_read { stories.records_are_read }
    ensures sv48_header { stories.sv48_header }
{}

/// How lines of a trace are explained.
#[tactic(auto, using(crate::proofs::WorkedStories::explained))]
pub fn worked_explanations()
    ensures no_story { stories.no_story }
    ensures at_a_fault { stories.at_a_fault }
    ensures behind_a_fault { stories.behind_a_fault }
    ensures before_a_fault { stories.before_a_fault }
    ensures no_header { stories.no_header }
{}

/// How lines are not explained.
#[tactic(auto, using(crate::proofs::WorkedStories::refused))]
pub fn refused_explanations()
    ensures story_of_none { stories.story_of_none }
    ensures fault_behind { stories.fault_behind }
    ensures no_fault { stories.no_fault }
    ensures written_without_a_story { stories.written_without_a_story }
    ensures written_unread { stories.written_unread }
    ensures cut_off_without_a_story { stories.cut_off_without_a_story }
{}
