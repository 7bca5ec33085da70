//! Worked traces: the definitions give what the manual gives by hand. Each function does nothing, and
//! each of its clauses is a trace.

ghost use Rattle.watch.specs.WorkedTraces as traces;

/// A frame is given back while a hart may hold its page, or no longer may: after fences of the hart,
/// of others, of other pages and other spaces, and after remote ones.
#[tactic(auto, using(crate::proofs::WorkedAnswers::worked_traces))]
pub fn worked_frees()
    ensures freed_before_fence { traces.freed_before_fence }
    ensures freed_after_own_fence { traces.freed_after_own_fence }
    ensures freed_after_fence { traces.freed_after_fence }
    ensures freed_after_full_fences { traces.freed_after_full_fences }
    ensures other_frame_freed { traces.other_frame_freed }
    ensures freed_after_fence_elsewhere { traces.freed_after_fence_elsewhere }
    ensures freed_after_fence_of_other_asid { traces.freed_after_fence_of_other_asid }
    ensures freed_after_early_fence { traces.freed_after_early_fence }
    ensures freed_after_remote_fence { traces.freed_after_remote_fence }
    ensures freed_within_remote_fence { traces.freed_within_remote_fence }
    ensures freed_after_early_remote_fence { traces.freed_after_early_remote_fence }
    ensures freed_after_fence_of_others { traces.freed_after_fence_of_others }
    ensures freed_after_fill_within_fence { traces.freed_after_fill_within_fence }
    ensures freed_after_leaving { traces.freed_after_leaving }
    ensures freed_after_leaving_and_fence { traces.freed_after_leaving_and_fence }
    ensures superpage_freed { traces.superpage_freed }
    ensures superpage_freed_after_fence { traces.superpage_freed_after_fence }
    ensures global_freed_after_fence_with_asid { traces.global_freed_after_fence_with_asid }
    ensures global_freed_after_fence { traces.global_freed_after_fence }
    ensures freed_for_the_first_time { traces.freed_for_the_first_time }
    ensures freed_once_more { traces.freed_once_more }
    ensures freed_after_mapped_again { traces.freed_after_mapped_again }
{}

/// A frame is given out while a hart may hold its page, or no longer may.
#[tactic(auto, using(crate::proofs::WorkedAnswers::worked_traces))]
pub fn worked_reuses()
    ensures reused_before_fence { traces.reused_before_fence }
    ensures reused_after_fence { traces.reused_after_fence }
{}

/// A flush returns while a hart may hold what it was for, or no longer may.
#[tactic(auto, using(crate::proofs::WorkedAnswers::worked_traces))]
pub fn worked_claims()
    ensures claimed_with_no_fence { traces.claimed_with_no_fence }
    ensures claimed_with_fence { traces.claimed_with_fence }
    ensures claimed_before_store { traces.claimed_before_store }
    ensures claimed_of_other_root { traces.claimed_of_other_root }
    ensures claimed_after_protection { traces.claimed_after_protection }
{}

/// A hart uses a page that the kernel took for gone, or may still use it.
#[tactic(auto, using(crate::proofs::WorkedAnswers::worked_traces))]
pub fn worked_uses()
    ensures used_after_free { traces.used_after_free }
    ensures used_after_claim { traces.used_after_claim }
    ensures used_after_fence { traces.used_after_fence }
    ensures used_before_free { traces.used_before_free }
    ensures used_elsewhere { traces.used_elsewhere }
    ensures global_used_elsewhere { traces.global_used_elsewhere }
    ensures used_beside { traces.used_beside }
{}

/// What is stale of a page that a hart may hold, and what is not.
#[tactic(auto, using(crate::proofs::WorkedAnswers::worked_traces))]
pub fn worked_staleness()
    ensures rights_lost { traces.rights_lost }
    ensures rights_gained { traces.rights_gained }
    ensures unmapped { traces.unmapped }
    ensures mapped_again { traces.mapped_again }
    ensures mapped_elsewhere { traces.mapped_elsewhere }
    ensures pointer_cleared { traces.pointer_cleared }
    ensures table_given_out { traces.table_given_out }
    ensures entered_late { traces.entered_late }
{}

/// What is global is mapped as long as the tables of an address space have it; a root that is given
/// out is one no longer, unless a hart's satp has it.
#[tactic(auto, using(crate::proofs::WorkedAnswers::worked_traces))]
pub fn worked_roots()
    ensures root_given_out { traces.root_given_out }
    ensures unmapped_after_root { traces.unmapped_after_root }
    ensures both_roots_given_out { traces.both_roots_given_out }
    ensures root_of_page_given_out { traces.root_of_page_given_out }
    ensures used_root_given_out { traces.used_root_given_out }
    ensures filled_from_used_root { traces.filled_from_used_root }
    ensures unused_root_given_out { traces.unused_root_given_out }
    ensures own_root_given_out { traces.own_root_given_out }
    ensures unmapped_in_one_space { traces.unmapped_in_one_space }
    ensures unmapped_in_both_spaces { traces.unmapped_in_both_spaces }
{}

/// What is global is of every address space: which hart fills it, and which fence drops it.
#[tactic(auto, using(crate::proofs::WorkedAnswers::worked_traces))]
pub fn worked_globals()
    ensures global_filled_in_other_space { traces.global_filled_in_other_space }
    ensures global_dropped_in_other_space { traces.global_dropped_in_other_space }
    ensures global_of_no_root { traces.global_of_no_root }
    ensures page_of_no_root { traces.page_of_no_root }
    ensures global_after_fences_with_asid { traces.global_after_fences_with_asid }
    ensures page_after_fence_with_asid { traces.page_after_fence_with_asid }
{}
