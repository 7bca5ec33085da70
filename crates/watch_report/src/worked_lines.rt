//! Worked lines: the definitions give what was worked out by hand. Each function does nothing, and
//! each of its clauses is a line.

ghost use Rattle.watch_report.specs.WorkedLines as lines;
ghost use Rattle.watch_report.specs.WorkedWarnings as warnings;

/// What first lines say, and what is none.
#[tactic(auto, using(crate::proofs::WorkedLines::header_lines))]
pub fn worked_headers()
    ensures two_harts { lines.two_harts }
    ensures most_harts { lines.most_harts }
    ensures no_harts { lines.no_harts }
    ensures too_many_harts { lines.too_many_harts }
    ensures other_version { lines.other_version }
    ensures other_scheme { lines.other_scheme }
    ensures no_scheme { lines.no_scheme }
    ensures more_than_a_scheme { lines.more_than_a_scheme }
{}

/// A line of each kind of record: it is read so, and printed so.
#[tactic(auto, using(crate::proofs::WorkedLines::record_lines))]
pub fn worked_records()
    ensures store { lines.store }
    ensures satp { lines.satp }
    ensures satp_of_all_ones { lines.satp_of_all_ones }
    ensures satp_bare { lines.satp_bare }
    ensures fence_of_an_address { lines.fence_of_an_address }
    ensures fence_of_an_asid { lines.fence_of_an_asid }
    ensures fence_of_all { lines.fence_of_all }
    ensures remote_fence { lines.remote_fence }
    ensures remote_fence_of_all { lines.remote_fence_of_all }
    ensures remote_end { lines.remote_end }
    ensures give_out { lines.give_out }
    ensures give_back { lines.give_back }
    ensures claim { lines.claim }
    ensures claim_of_all { lines.claim_of_all }
    ensures claim_to_the_end { lines.claim_to_the_end }
    ensures claim_end { lines.claim_end }
    ensures usage { lines.usage }
{}

/// Lines that are read as a record that is printed otherwise, and lines of no record.
#[tactic(auto, using(crate::proofs::WorkedLines::other_lines))]
pub fn worked_readings()
    ensures upper_case { lines.upper_case }
    ensures zeros_in_front { lines.zeros_in_front }
    ensures satp_with_the_rest_of_bare { lines.satp_with_the_rest_of_bare }
    ensures remote_fence_of_zeros { lines.remote_fence_of_zeros }
    ensures remote_fence_of_all_ones { lines.remote_fence_of_all_ones }
    ensures remote_fence_of_no_bytes { lines.remote_fence_of_no_bytes }
    ensures claim_of_no_bytes { lines.claim_of_no_bytes }
    ensures noted { lines.noted }
    ensures commented { lines.commented }
    ensures mark { lines.mark }
    ensures comment_line { lines.comment_line }
    ensures empty_line { lines.empty_line }
{}

/// Lines that have no form.
#[tactic(auto, using(crate::proofs::WorkedLines::refused_lines))]
pub fn worked_refusals()
    ensures two_spaces { lines.two_spaces }
    ensures space_in_front { lines.space_in_front }
    ensures space_at_the_end { lines.space_at_the_end }
    ensures two_spaces_before_a_note { lines.two_spaces_before_a_note }
    ensures no_space_before_a_note { lines.no_space_before_a_note }
    ensures field_missing { lines.field_missing }
    ensures field_too_many { lines.field_too_many }
    ensures no_fields { lines.no_fields }
    ensures seventeen_digits { lines.seventeen_digits }
    ensures digit_g { lines.digit_g }
    ensures prefixed { lines.prefixed }
    ensures signed { lines.signed }
    ensures hart_too_great { lines.hart_too_great }
    ensures hart_in_hexadecimal { lines.hart_in_hexadecimal }
    ensures unaligned_word { lines.unaligned_word }
    ensures satp_of_mode_1 { lines.satp_of_mode_1 }
    ensures satp_of_the_other_scheme { lines.satp_of_the_other_scheme }
    ensures wide_asid { lines.wide_asid }
    ensures dash_for_a_token { lines.dash_for_a_token }
    ensures unknown_letter { lines.unknown_letter }
    ensures two_letters { lines.two_letters }
    ensures mark_with_no_space { lines.mark_with_no_space }
    ensures note_alone { lines.note_alone }
{}

/// The lines of verdicts, one of each.
#[tactic(auto, using(crate::proofs::WorkedWarnings::warning_lines))]
pub fn worked_warnings()
    ensures given_back { warnings.given_back }
    ensures given_out { warnings.given_out }
    ensures other_bytes { warnings.other_bytes }
    ensures below_a_global_pointer { warnings.below_a_global_pointer }
    ensures claimed { warnings.claimed }
    ensures used { warnings.used }
{}

/// Last lines.
#[tactic(auto, using(crate::proofs::WorkedWarnings::summary_lines))]
pub fn worked_summaries()
    ensures no_verdict { warnings.no_verdict }
    ensures one_record { warnings.one_record }
    ensures one_verdict { warnings.one_verdict }
    ensures some_verdicts { warnings.some_verdicts }
    ensures verdicts_of_both { warnings.verdicts_of_both }
    ensures all_verdicts { warnings.all_verdicts }
    ensures before_a_wrong_line { warnings.before_a_wrong_line }
    ensures one_before_a_wrong_line { warnings.one_before_a_wrong_line }
    ensures none_by_design { warnings.none_by_design }
    ensures one_by_design { warnings.one_by_design }
    ensures many_by_design { warnings.many_by_design }
{}
