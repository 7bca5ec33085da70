//! Worked stories: the definitions give what was worked out by hand. Each function does nothing, and
//! each of its clauses is a record, or a whole story.

ghost use Rattle.watch_causes.specs.WorkedStories as worked;

/// What records have to do with a verdict, up to the one that made its page stale.
#[tactic(auto, using(crate::proofs::WorkedStories::roles_before))]
pub fn worked_roles_before()
    ensures word_stored { worked.word_stored }
    ensures hart_enters { worked.hart_enters }
    ensures other_hart_enters { worked.other_hart_enters }
    ensures hart_goes_elsewhere { worked.hart_goes_elsewhere }
    ensures hart_goes_bare { worked.hart_goes_bare }
    ensures global_is_everywhere { worked.global_is_everywhere }
    ensures hart_fenced { worked.hart_fenced }
    ensures hart_was_asked { worked.hart_was_asked }
    ensures other_hart_fenced { worked.other_hart_fenced }
    ensures next_page_fenced { worked.next_page_fenced }
    ensures unmapped { worked.unmapped }
{}

/// What records have to do with a verdict since its page was stale.
#[tactic(auto, using(crate::proofs::WorkedStories::roles_since))]
pub fn worked_roles_since()
    ensures fence_of_other_hart { worked.fence_of_other_hart }
    ensures fence_of_other_asid { worked.fence_of_other_asid }
    ensures fence_by_asid_of_global { worked.fence_by_asid_of_global }
    ensures fence_of_next_page { worked.fence_of_next_page }
    ensures fence_that_is_asked { worked.fence_that_is_asked }
    ensures flush_begins { worked.flush_begins }
    ensures flush_returns { worked.flush_returns }
    ensures frame_comes_back { worked.frame_comes_back }
    ensures frame_goes_out { worked.frame_goes_out }
    ensures page_is_used { worked.page_is_used }
    ensures word_stored_since { worked.word_stored_since }
    ensures fence_is_learnt { worked.fence_is_learnt }
{}

/// A story, that it gives its verdict, and that without the store that made the page stale it does not.
#[tactic(auto, using(crate::proofs::WorkedStories::stories))]
pub fn worked_story()
    ensures parts_told { worked.parts_told }
    ensures they_give_it { worked.they_give_it }
    ensures others_do_not { worked.others_do_not }
{}
