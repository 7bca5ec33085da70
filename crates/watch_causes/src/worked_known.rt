//! Worked findings that are known: the definitions give what was worked out by hand. Each function does
//! nothing, and each of its clauses is an entry and a verdict, or a list of verdicts.

ghost use Rattle.watch_causes.specs.WorkedKnown as worked;

/// Verdicts that pass the tests of an entry, and that fail one.
#[tactic(auto, using(crate::proofs::WorkedKnown::worked_entries))]
pub fn worked_entries()
    ensures user_passes { worked.user_passes }
    ensures user_fails { worked.user_fails }
    ensures kernel_passes { worked.kernel_passes }
    ensures kernel_fails { worked.kernel_fails }
    ensures first_passes { worked.first_passes }
    ensures first_fails { worked.first_fails }
    ensures reason_passes { worked.reason_passes }
    ensures reason_fails { worked.reason_fails }
    ensures reach_passes { worked.reach_passes }
    ensures reach_fails { worked.reach_fails }
    ensures other_reach_fails { worked.other_reach_fails }
    ensures unknown_reach_fails { worked.unknown_reach_fails }
    ensures no_reach_passes { worked.no_reach_passes }
    ensures range_before_passes { worked.range_before_passes }
    ensures range_before_fails { worked.range_before_fails }
    ensures range_behind_passes { worked.range_behind_passes }
    ensures range_behind_fails { worked.range_behind_fails }
    ensures no_byte_fails { worked.no_byte_fails }
    ensures whole_note_passes { worked.whole_note_passes }
    ensures note_passes { worked.note_passes }
    ensures longer_note_fails { worked.longer_note_fails }
    ensures later_note_fails { worked.later_note_fails }
    ensures other_note_fails { worked.other_note_fails }
    ensures no_note_passes { worked.no_note_passes }
    ensures no_note_fails { worked.no_note_fails }
    ensures all_pass { worked.all_pass }
    ensures all_but_one_fail { worked.all_but_one_fail }
{}

/// Whether the finding of a verdict is known.
#[tactic(auto, using(crate::proofs::WorkedKnown::worked_first_verdicts))]
pub fn worked_first_verdicts()
    ensures begins_known { worked.begins_known }
    ensures begins_unknown { worked.begins_unknown }
    ensures stays_known { worked.stays_known }
    ensures stays_unknown { worked.stays_unknown }
    ensures other_hart_is_not { worked.other_hart_is_not }
    ensures other_record_is_not { worked.other_record_is_not }
    ensures second_entry { worked.second_entry }
{}

/// How many findings each entry counts.
#[tactic(auto, using(crate::proofs::WorkedKnown::worked_counts))]
pub fn worked_counts()
    ensures counts_nothing { worked.counts_nothing }
    ensures counts_one { worked.counts_one }
    ensures counts_first_match { worked.counts_first_match }
    ensures counts_each { worked.counts_each }
    ensures counts_first_verdict { worked.counts_first_verdict }
{}
