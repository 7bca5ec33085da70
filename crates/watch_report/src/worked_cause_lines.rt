//! Worked lines of causes: the definitions give what was worked out by hand. Each function does
//! nothing, and each of its clauses is a row.

ghost use Rattle.watch_report.specs.WorkedCauseLines as lines;

/// A cause with each reason.
#[tactic(auto, using(crate::proofs::WorkedCauseLines::cause_texts))]
pub fn worked_causes()
    ensures no_flush { lines.no_flush }
    ensures no_fence { lines.no_fence }
    ensures other_harts { lines.other_harts }
    ensures other_spaces { lines.other_spaces }
    ensures spaces_of_kernel { lines.spaces_of_kernel }
    ensures other_pages { lines.other_pages }
    ensures not_done { lines.not_done }
{}

/// What is printed where a cause begins, and of its counts.
#[tactic(auto, using(crate::proofs::WorkedCauseLines::cause_lines))]
pub fn worked_totals()
    ensures claim_begins { lines.claim_begins }
    ensures free_begins { lines.free_begins }
    ensures one_finding { lines.one_finding }
    ensures one_kind { lines.one_kind }
    ensures each_kind { lines.each_kind }
{}

/// In which order causes come at the end, and in which they do not.
#[tactic(auto, using(crate::proofs::WorkedCauseLines::orders))]
pub fn worked_orders()
    ensures one_of_each { lines.one_of_each }
    ensures of_kernel_alone { lines.of_kernel_alone }
    ensures alike { lines.alike }
    ensures none { lines.none }
    ensures kernels_first { lines.kernels_first }
    ensures fewer_first { lines.fewer_first }
    ensures last_first { lines.last_first }
    ensures by_reach { lines.by_reach }
    ensures reuse_before_reach { lines.reuse_before_reach }
    ensures users_before_reach { lines.users_before_reach }
    ensures more_before_used { lines.more_before_used }
    ensures not_reached_before_reachable { lines.not_reached_before_reachable }
{}
