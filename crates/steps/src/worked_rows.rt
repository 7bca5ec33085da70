//! Worked rows: the definitions give what was worked out by hand. Each function does nothing, and
//! each of its clauses is a row.

ghost use Rattle.steps.specs.LiveRows as live;
ghost use Rattle.steps.specs.WorkedRows as rows;

/// Each letter is the flag of its name, and stands at most once.
#[tactic(auto, using(crate::proofs::WorkedRows::letter_rows))]
pub fn worked_letters()
    ensures letter_r { rows.letter_r }
    ensures letter_w { rows.letter_w }
    ensures letter_x { rows.letter_x }
    ensures letter_u { rows.letter_u }
    ensures letter_g { rows.letter_g }
    ensures letter_a { rows.letter_a }
    ensures letter_d { rows.letter_d }
    ensures three_letters { rows.three_letters }
    ensures no_letters { rows.no_letters }
    ensures letter_twice { rows.letter_twice }
    ensures letter_v { rows.letter_v }
{}

/// What texts are read as.
#[tactic(auto, using(crate::proofs::WorkedRows::step_rows))]
pub fn worked_steps()
    ensures blanks_between_words { rows.blanks_between_words }
    ensures store_of_walk { rows.store_of_walk }
    ensures begin_with_mxr { rows.begin_with_mxr }
    ensures begin_with_a_store { rows.begin_with_a_store }
    ensures fence_of_a_page { rows.fence_of_a_page }
    ensures fence_of_a_space { rows.fence_of_a_space }
    ensures unmap_of_the_kernel { rows.unmap_of_the_kernel }
    ensures flush_of_all { rows.flush_of_all }
    ensures take_from_hart_0 { rows.take_from_hart_0 }
    ensures retire_of_a_space { rows.retire_of_a_space }
    ensures reclaim_of_a_space { rows.reclaim_of_a_space }
    ensures create_of_a_space { rows.create_of_a_space }
    ensures wide_asid { rows.wide_asid }
{}

/// Lines of `run`, with values that are not those of an empty step.
#[tactic(auto, using(crate::proofs::WorkedRows::line_rows))]
pub fn worked_lines()
    ensures load_of_hart_2 { rows.load_of_hart_2 }
    ensures map_of_a_space { rows.map_of_a_space }
    ensures protect_of_the_kernel { rows.protect_of_the_kernel }
    ensures protect_of_a_space { rows.protect_of_a_space }
    ensures unmap_of_a_space { rows.unmap_of_a_space }
    ensures flush_of_a_space { rows.flush_of_a_space }
    ensures take_from_hart_6 { rows.take_from_hart_6 }
    ensures switch_of_hart_1 { rows.switch_of_hart_1 }
    ensures post_to_hart_3 { rows.post_to_hart_3 }
    ensures servefence_of_hart_3 { rows.servefence_of_hart_3 }
    ensures ack_of_hart_3 { rows.ack_of_hart_3 }
    ensures ackself_of_hart_2 { rows.ackself_of_hart_2 }
    ensures collect_from_hart_3 { rows.collect_from_hart_3 }
    ensures finish_of_hart_2 { rows.finish_of_hart_2 }
    ensures close_to_hart_3 { rows.close_to_hart_3 }
{}

/// The first fault of several.
#[tactic(auto, using(crate::proofs::WorkedRows::fault_rows))]
pub fn worked_faults()
    ensures no_step { rows.no_step }
    ensures no_hart { rows.no_hart }
    ensures no_step_after_no_page { rows.no_step_after_no_page }
    ensures no_page { rows.no_page }
{}

/// Pages of 512 GiB, and addresses, by the scheme.
#[tactic(auto, using(crate::proofs::WorkedRows::page_rows))]
pub fn worked_pages()
    ensures terapage { rows.terapage }
    ensures no_terapage { rows.no_terapage }
    ensures unaligned_terapage { rows.unaligned_terapage }
    ensures far_page { rows.far_page }
    ensures farther_page { rows.farther_page }
{}

/// What lines of `live` are read as.
#[tactic(auto, using(crate::proofs::LiveRows::live_step_rows))]
pub fn worked_live_steps()
    ensures translate_to_store { live.translate_to_store }
    ensures map_of_the_kernel { live.map_of_the_kernel }
    ensures unmap_of_a_space { live.unmap_of_a_space }
    ensures protect_of_a_space { live.protect_of_a_space }
    ensures flush_of_a_space { live.flush_of_a_space }
    ensures switch_to_a_space { live.switch_to_a_space }
    ensures fence_of_an_address { live.fence_of_an_address }
    ensures fence_of_both { live.fence_of_both }
    ensures post_to_hart_2 { live.post_to_hart_2 }
    ensures serve_of_hart_0 { live.serve_of_hart_0 }
    ensures serve_of_hart_5 { live.serve_of_hart_5 }
    ensures ackself_of_the_last { live.ackself_of_the_last }
    ensures collect_of_a_ticket { live.collect_of_a_ticket }
    ensures finish_of_a_ticket { live.finish_of_a_ticket }
    ensures close_to_hart_7 { live.close_to_hart_7 }
    ensures wait_for_a_ticket { live.wait_for_a_ticket }
    ensures setup_of_hart_3 { live.setup_of_hart_3 }
{}

/// Lines that only one of `run` and `live` has, and the first fault of several.
#[tactic(auto, using(crate::proofs::LiveRows::live_fault_rows))]
pub fn worked_live_faults()
    ensures hart_before_a_line { live.hart_before_a_line }
    ensures no_hart_before_setup { live.no_hart_before_setup }
    ensures collect_with_a_hart { live.collect_with_a_hart }
    ensures take_in_a_script { live.take_in_a_script }
    ensures take_in_the_setup { live.take_in_the_setup }
    ensures retire_in_a_script { live.retire_in_a_script }
    ensures run_alone_in_a_script { live.run_alone_in_a_script }
    ensures live_alone_in_a_run { live.live_alone_in_a_run }
    ensures wait_in_a_run { live.wait_in_a_run }
    ensures collect_without_a_hart { live.collect_without_a_hart }
    ensures unread_before_absent { live.unread_before_absent }
    ensures absent_before_no_page { live.absent_before_no_page }
    ensures absent_of_the_setup { live.absent_of_the_setup }
    ensures no_page_of_live { live.no_page_of_live }
    ensures no_page_of_the_setup { live.no_page_of_the_setup }
{}

/// Pages of 512 GiB in lines of `live`, by the scheme.
#[tactic(auto, using(crate::proofs::LiveRows::live_page_rows))]
pub fn worked_live_pages()
    ensures terapage_of_live { live.terapage_of_live }
    ensures no_terapage_of_live { live.no_terapage_of_live }
{}
