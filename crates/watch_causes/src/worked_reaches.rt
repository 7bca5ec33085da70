//! Worked reaches: the definitions give what was worked out by hand. Each function does nothing, and each
//! of its clauses is a trace.

ghost use Rattle.watch_causes.specs.WorkedReaches as worked;

/// A hart is there at the first verdict, comes back later, or does not.
#[tactic(auto, using(crate::proofs::WorkedReaches::worked_comebacks))]
pub fn worked_comebacks()
    ensures is_there_at_first { worked.is_there_at_first }
    ensures leaves_behind_it { worked.leaves_behind_it }
    ensures stays_elsewhere { worked.stays_elsewhere }
    ensures stays_in_bare { worked.stays_in_bare }
    ensures is_back { worked.is_back }
    ensures is_back_and_leaves { worked.is_back_and_leaves }
    ensures is_back_by_asid { worked.is_back_by_asid }
    ensures other_hart_comes { worked.other_hart_comes }
    ensures fenced_first { worked.fenced_first }
    ensures fenced_last { worked.fenced_last }
    ensures other_asid_fenced { worked.other_asid_fenced }
    ensures next_page_fenced { worked.next_page_fenced }
    ensures other_hart_fenced { worked.other_hart_fenced }
    ensures is_used { worked.is_used }
    ensures other_is_used { worked.other_is_used }
{}

/// Remote fences, and pages that are global.
#[tactic(auto, using(crate::proofs::WorkedReaches::worked_remotes))]
pub fn worked_remotes()
    ensures asked_early { worked.asked_early }
    ensures asked_between { worked.asked_between }
    ensures asked_late { worked.asked_late }
    ensures not_learnt { worked.not_learnt }
    ensures other_learnt { worked.other_learnt }
    ensures other_hart_asked { worked.other_hart_asked }
    ensures other_asid_asked { worked.other_asid_asked }
    ensures next_page_asked { worked.next_page_asked }
    ensures asked_again { worked.asked_again }
    ensures asked_another { worked.asked_another }
    ensures global_is_everywhere { worked.global_is_everywhere }
    ensures bare_has_nothing { worked.bare_has_nothing }
    ensures global_comes_back { worked.global_comes_back }
    ensures global_is_fenced { worked.global_is_fenced }
{}

/// The harts that a flush asked for a fence, and the findings that begin.
#[tactic(auto, using(crate::proofs::WorkedReaches::worked_begins))]
pub fn worked_begins()
    ensures fenced_nobody { worked.fenced_nobody }
    ensures fenced_itself { worked.fenced_itself }
    ensures fenced_another { worked.fenced_another }
    ensures fenced_several { worked.fenced_several }
    ensures fenced_before { worked.fenced_before }
    ensures holder_fenced { worked.holder_fenced }
    ensures holder_fenced_unasked { worked.holder_fenced_unasked }
    ensures last_hart_fenced { worked.last_hart_fenced }
    ensures hart_without_bit { worked.hart_without_bit }
    ensures freed_with_no_flush { worked.freed_with_no_flush }
    ensures freed_within_flush { worked.freed_within_flush }
    ensures begin_in_order { worked.begin_in_order }
{}
