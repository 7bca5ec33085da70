//! Worked reasons: the definitions give what was worked out by hand. Each function does nothing, and
//! each of its clauses is a verdict.

ghost use Rattle.watch_causes.specs.WorkedReasons as worked;

/// A flush returns: what it asked for, from nothing to the right fence.
#[tactic(auto, using(crate::proofs::WorkedReasons::worked_claims))]
pub fn worked_claims()
    ensures asked_for_nothing { worked.asked_for_nothing }
    ensures fenced_before { worked.fenced_before }
    ensures third_fenced { worked.third_fenced }
    ensures fenced_itself { worked.fenced_itself }
    ensures asked_third { worked.asked_third }
    ensures asked_for_other_space { worked.asked_for_other_space }
    ensures asked_third_for_all { worked.asked_third_for_all }
    ensures asked_for_other_page { worked.asked_for_other_page }
    ensures asked_for_either { worked.asked_for_either }
    ensures asked_for_page { worked.asked_for_page }
    ensures asked_for_both { worked.asked_for_both }
{}

/// Fences of harts themselves, of what is global, and of several flushes at once.
#[tactic(auto, using(crate::proofs::WorkedReasons::worked_fences))]
pub fn worked_fences()
    ensures holder_fenced_next { worked.holder_fenced_next }
    ensures holder_fenced_other { worked.holder_fenced_other }
    ensures holder_fenced_unasked { worked.holder_fenced_unasked }
    ensures flusher_fenced_next { worked.flusher_fenced_next }
    ensures flusher_fenced_other { worked.flusher_fenced_other }
    ensures flusher_asked_others { worked.flusher_asked_others }
    ensures other_asked_flusher { worked.other_asked_flusher }
    ensures global_asked_with_asid { worked.global_asked_with_asid }
    ensures global_asked_without_asid { worked.global_asked_without_asid }
    ensures begun_again { worked.begun_again }
    ensures begun_beside { worked.begun_beside }
{}

/// Frames are given back or out: with no flush of the page, and by the newest one.
#[tactic(auto, using(crate::proofs::WorkedReasons::worked_frees))]
pub fn worked_frees()
    ensures freed_with_no_flush { worked.freed_with_no_flush }
    ensures freed_after_early_flush { worked.freed_after_early_flush }
    ensures freed_after_flush { worked.freed_after_flush }
    ensures freed_after_flush_of_next { worked.freed_after_flush_of_next }
    ensures freed_after_flush_of_other_root { worked.freed_after_flush_of_other_root }
    ensures global_freed_after_flush_of_root { worked.global_freed_after_flush_of_root }
    ensures global_freed_after_flush { worked.global_freed_after_flush }
    ensures freed_after_two_flushes { worked.freed_after_two_flushes }
    ensures freed_after_flush_beside { worked.freed_after_flush_beside }
    ensures reused_within_flush { worked.reused_within_flush }
{}
