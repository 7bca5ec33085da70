//! Worked lists of what is known: the definitions give what was worked out by hand. Each function does
//! nothing, and each of its clauses is a list.

ghost use Rattle.watch_report.specs.WorkedKnownTexts as lists;

/// Lists, and their entries.
#[tactic(auto, using(crate::proofs::WorkedKnownTexts::entries))]
pub fn worked_known_lists()
    ensures no_line { lists.no_line }
    ensures silent_lines { lists.silent_lines }
    ensures any_of_users { lists.any_of_users }
    ensures without_a_feed { lists.without_a_feed }
    ensures later_lines { lists.later_lines }
    ensures first_free { lists.first_free }
    ensures first_reuse { lists.first_reuse }
    ensures first_claim { lists.first_claim }
    ensures first_use { lists.first_use }
    ensures no_flush { lists.no_flush }
    ensures no_fence { lists.no_fence }
    ensures other_hart { lists.other_hart }
    ensures other_asid { lists.other_asid }
    ensures other_page { lists.other_page }
    ensures not_done { lists.not_done }
    ensures of_addresses { lists.of_addresses }
    ensures with_a_note { lists.with_a_note }
    ensures note_after_a_hash { lists.note_after_a_hash }
    ensures note_in_a_note { lists.note_in_a_note }
    ensures empty_note { lists.empty_note }
    ensures note_of_any_bytes { lists.note_of_any_bytes }
    ensures used_alone { lists.used_alone }
    ensures reachable_alone { lists.reachable_alone }
    ensures reach_before_addresses { lists.reach_before_addresses }
    ensures with_all { lists.with_all }
{}

/// Lists with a wrong line, and its fault.
#[tactic(auto, using(crate::proofs::WorkedKnownTexts::faults))]
pub fn worked_known_faults()
    ensures other_owner { lists.other_owner }
    ensures owner_alone { lists.owner_alone }
    ensures other_verdict { lists.other_verdict }
    ensures verdict_with_its_owner { lists.verdict_with_its_owner }
    ensures verdict_alone { lists.verdict_alone }
    ensures other_reason { lists.other_reason }
    ensures other_reach { lists.other_reach }
    ensures two_reaches { lists.two_reaches }
    ensures reach_behind_addresses { lists.reach_behind_addresses }
    ensures prefixed_address { lists.prefixed_address }
    ensures long_address { lists.long_address }
    ensures start_alone { lists.start_alone }
    ensures start_before_a_note { lists.start_before_a_note }
    ensures other_size { lists.other_size }
    ensures word_too_many { lists.word_too_many }
    ensures line_of_windows { lists.line_of_windows }
    ensures note_of_windows { lists.note_of_windows }
    ensures empty_line_of_windows { lists.empty_line_of_windows }
    ensures return_in_a_line { lists.return_in_a_line }
    ensures tab_for_a_space { lists.tab_for_a_space }
    ensures byte_behind_ascii { lists.byte_behind_ascii }
    ensures no_space_before_a_note { lists.no_space_before_a_note }
    ensures two_spaces { lists.two_spaces }
    ensures space_at_the_end { lists.space_at_the_end }
    ensures space_in_front { lists.space_in_front }
    ensures two_spaces_before_a_note { lists.two_spaces_before_a_note }
    ensures first_of_two { lists.first_of_two }
{}

/// What is printed of these faults.
#[tactic(auto, using(crate::proofs::WorkedKnownTexts::texts))]
pub fn worked_known_fault_texts()
    ensures told_return { lists.told_return }
    ensures told_byte { lists.told_byte }
    ensures told_note { lists.told_note }
    ensures told_space { lists.told_space }
    ensures told_owner { lists.told_owner }
    ensures told_verdict { lists.told_verdict }
    ensures told_reason { lists.told_reason }
    ensures told_address { lists.told_address }
    ensures told_size { lists.told_size }
    ensures told_excess { lists.told_excess }
{}
