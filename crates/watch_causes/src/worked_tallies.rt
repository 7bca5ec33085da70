//! Worked causes: the definitions give what was worked out by hand. Each function does nothing, and
//! each of its clauses is a list of verdicts.

ghost use Rattle.watch_causes.specs.WorkedCauses as worked;

/// Verdicts of one finding, and of two.
#[tactic(auto, using(crate::proofs::WorkedCauses::worked_findings))]
pub fn worked_findings()
    ensures freed_and_used { worked.freed_and_used }
    ensures of_other_rights { worked.of_other_rights }
    ensures of_other_frame { worked.of_other_frame }
    ensures of_other_page { worked.of_other_page }
    ensures of_other_size { worked.of_other_size }
    ensures of_other_hart { worked.of_other_hart }
    ensures of_other_record { worked.of_other_record }
    ensures of_other_root { worked.of_other_root }
    ensures of_other_asid { worked.of_other_asid }
    ensures global_elsewhere { worked.global_elsewhere }
{}

/// Findings of one cause, and of two; and the verdicts on a trace.
#[tactic(auto, using(crate::proofs::WorkedCauses::worked_causes))]
pub fn worked_causes()
    ensures claimed_later { worked.claimed_later }
    ensures of_other_reason { worked.of_other_reason }
    ensures of_other_kind { worked.of_other_kind }
    ensures of_the_kernel { worked.of_the_kernel }
    ensures first_cause_again { worked.first_cause_again }
    ensures both_claimed { worked.both_claimed }
    ensures freed_within_flush { worked.freed_within_flush }
{}
