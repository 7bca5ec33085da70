//! Worked faults of lines: the definitions give what was worked out by hand. Each function does
//! nothing, and each of its clauses is a line.

ghost use Rattle.watch_report.specs.WorkedFaults as faults;

/// Faults of first lines, and headers.
#[tactic(auto, using(crate::proofs::WorkedFaults::wrong_headers))]
pub fn worked_header_faults()
    ensures empty_start { faults.empty_start }
    ensures scenario { faults.scenario }
    ensures upper_case { faults.upper_case }
    ensures other_version { faults.other_version }
    ensures no_harts { faults.no_harts }
    ensures too_many_harts { faults.too_many_harts }
    ensures harts_in_a_word { faults.harts_in_a_word }
    ensures other_scheme { faults.other_scheme }
    ensures no_scheme { faults.no_scheme }
    ensures more_than_a_scheme { faults.more_than_a_scheme }
    ensures header_before_a_space { faults.header_before_a_space }
    ensures header_of_windows { faults.header_of_windows }
    ensures header_after_a_mark { faults.header_after_a_mark }
    ensures header_cut_after_a_space { faults.header_cut_after_a_space }
    ensures header_after_a_time { faults.header_after_a_time }
    ensures header_after_a_long_time { faults.header_after_a_long_time }
    ensures table_of_a_scenario { faults.table_of_a_scenario }
    ensures fewest_harts { faults.fewest_harts }
    ensures most_harts { faults.most_harts }
{}

/// Faults of other lines.
#[tactic(auto, using(crate::proofs::WorkedFaults::wrong_lines))]
pub fn worked_line_faults()
    ensures two_spaces { faults.two_spaces }
    ensures space_in_front { faults.space_in_front }
    ensures space_at_the_end { faults.space_at_the_end }
    ensures cut_after_a_space { faults.cut_after_a_space }
    ensures cut_after_the_letter { faults.cut_after_the_letter }
    ensures cut_before_a_note { faults.cut_before_a_note }
    ensures two_spaces_and_no_more { faults.two_spaces_and_no_more }
    ensures tab_for_a_space { faults.tab_for_a_space }
    ensures tab_after_the_letter { faults.tab_after_the_letter }
    ensures two_spaces_before_a_note { faults.two_spaces_before_a_note }
    ensures line_of_windows { faults.line_of_windows }
    ensures unknown_letter { faults.unknown_letter }
    ensures two_letters { faults.two_letters }
    ensures mark_with_no_space { faults.mark_with_no_space }
    ensures no_hart_field { faults.no_hart_field }
    ensures no_value { faults.no_value }
    ensures no_asid { faults.no_asid }
    ensures field_too_many { faults.field_too_many }
    ensures digit_g { faults.digit_g }
    ensures dash_for_a_token { faults.dash_for_a_token }
    ensures name_of_a_register { faults.name_of_a_register }
    ensures prefixed { faults.prefixed }
    ensures prefixed_in_upper_case { faults.prefixed_in_upper_case }
    ensures seventeen_digits { faults.seventeen_digits }
    ensures hart_in_hexadecimal { faults.hart_in_hexadecimal }
    ensures hart_too_great { faults.hart_too_great }
    ensures unaligned_word { faults.unaligned_word }
    ensures wide_asid { faults.wide_asid }
    ensures satp_of_mode_1 { faults.satp_of_mode_1 }
    ensures satp_of_the_other_scheme { faults.satp_of_the_other_scheme }
    ensures no_space_before_a_note { faults.no_space_before_a_note }
    ensures note_alone { faults.note_alone }
    ensures note_after_a_space { faults.note_after_a_space }
    ensures hart_before_the_address { faults.hart_before_the_address }
    ensures address_before_what_is_missing { faults.address_before_what_is_missing }
{}

/// Bytes that no word has, of two the first; and times of a kernel's log.
#[tactic(auto, using(crate::proofs::WorkedFaults::wrong_bytes))]
pub fn worked_byte_faults()
    ensures mark_before_a_tab { faults.mark_before_a_tab }
    ensures tab_before_a_mark { faults.tab_before_a_mark }
    ensures mark_before_a_return { faults.mark_before_a_return }
    ensures tab_before_a_return { faults.tab_before_a_return }
    ensures return_before_a_tab { faults.return_before_a_tab }
    ensures zero_before_a_tab { faults.zero_before_a_tab }
    ensures tab_before_a_zero { faults.tab_before_a_zero }
    ensures zero_before_a_return { faults.zero_before_a_return }
    ensures return_before_a_zero { faults.return_before_a_zero }
    ensures zeros_alone { faults.zeros_alone }
    ensures file_of_zeros { faults.file_of_zeros }
    ensures compressed { faults.compressed }
    ensures escape_before_a_zero { faults.escape_before_a_zero }
    ensures zero_before_an_escape { faults.zero_before_an_escape }
    ensures delete { faults.delete }
    ensures letter_with_an_accent { faults.letter_with_an_accent }
    ensures last_printable { faults.last_printable }
    ensures line_after_a_time { faults.line_after_a_time }
    ensures line_after_a_long_time { faults.line_after_a_long_time }
    ensures bracket_and_letter { faults.bracket_and_letter }
    ensures bracket_in_a_field { faults.bracket_in_a_field }
{}

/// Lines that just have a form.
#[tactic(auto, using(crate::proofs::WorkedFaults::formed_lines))]
pub fn worked_formed_lines()
    ensures letters_in_upper_case { faults.letters_in_upper_case }
    ensures dash { faults.dash }
    ensures sixteen_digits { faults.sixteen_digits }
    ensures last_hart { faults.last_hart }
    ensures aligned_word { faults.aligned_word }
    ensures widest_asid { faults.widest_asid }
    ensures every_asid { faults.every_asid }
    ensures satp_of_the_scheme { faults.satp_of_the_scheme }
    ensures satp_of_bare { faults.satp_of_bare }
    ensures noted { faults.noted }
    ensures return_in_a_note { faults.return_in_a_note }
    ensures zero_in_a_note { faults.zero_in_a_note }
    ensures comment_line { faults.comment_line }
    ensures mark { faults.mark }
    ensures empty_line { faults.empty_line }
{}

/// What is printed of a fault.
#[tactic(auto, using(crate::proofs::WorkedFaults::fault_texts))]
pub fn worked_fault_texts()
    ensures text_of_harts { faults.text_of_harts }
    ensures text_of_what_is_missing { faults.text_of_what_is_missing }
    ensures text_of_a_field_too_many { faults.text_of_a_field_too_many }
    ensures text_of_no_number { faults.text_of_no_number }
    ensures text_of_no_hart { faults.text_of_no_hart }
    ensures text_of_an_address { faults.text_of_an_address }
    ensures text_of_an_asid { faults.text_of_an_asid }
    ensures text_of_a_mode { faults.text_of_a_mode }
    ensures text_of_a_mode_in_sv48 { faults.text_of_a_mode_in_sv48 }
    ensures text_of_a_time { faults.text_of_a_time }
    ensures text_of_a_mark { faults.text_of_a_mark }
    ensures text_of_a_zero { faults.text_of_a_zero }
    ensures text_of_a_byte { faults.text_of_a_byte }
{}
