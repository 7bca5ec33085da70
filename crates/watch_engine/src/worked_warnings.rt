//! Worked traces of warnings: the definitions give what the manual gives by hand. Each function does
//! nothing, and each of its clauses is a trace.

ghost use Rattle.watch_engine.specs.WorkedWarnings as traces;

/// What one warning shows of translations that differ in one thing alone.
#[tactic(auto, using(crate::proofs::WarningAnswers::shown_rows))]
pub fn worked_shows()
    ensures other_base { traces.other_base }
    ensures other_size { traces.other_size }
    ensures other_ppn { traces.other_ppn }
    ensures other_user { traces.other_user }
    ensures other_write { traces.other_write }
    ensures other_execute { traces.other_execute }
    ensures other_read { traces.other_read }
    ensures other_global { traces.other_global }
    ensures other_root { traces.other_root }
    ensures other_asid { traces.other_asid }
    ensures not_accessed { traces.not_accessed }
    ensures not_dirty { traces.not_dirty }
    ensures neither_accessed_nor_dirty { traces.neither_accessed_nor_dirty }
    ensures global_elsewhere { traces.global_elsewhere }
    ensures global_by_pointer { traces.global_by_pointer }
{}

/// The moment from which a page is stale.
#[tactic(auto, using(crate::proofs::WarningAnswers::moment_rows))]
pub fn worked_moments()
    ensures stale_since_unmapped { traces.stale_since_unmapped }
    ensures not_since_before { traces.not_since_before }
    ensures not_since_after { traces.not_since_after }
    ensures never_after_fence { traces.never_after_fence }
    ensures stale_since_second { traces.stale_since_second }
    ensures not_since_first { traces.not_since_first }
    ensures stale_since_moved { traces.stale_since_moved }
    ensures stale_since_moved_and_unmapped { traces.stale_since_moved_and_unmapped }
    ensures stale_since_protected { traces.stale_since_protected }
    ensures stale_since_protected_and_unmapped { traces.stale_since_protected_and_unmapped }
{}

/// One warning at a record; and lists that are not the warnings there, each for one reason.
#[tactic(auto, using(crate::proofs::WarningAnswers::one_warning_rows))]
pub fn worked_one_warning()
    ensures one_free { traces.one_free }
    ensures free_left_out { traces.free_left_out }
    ensures free_given_twice { traces.free_given_twice }
    ensures free_of_other_ppn { traces.free_of_other_ppn }
    ensures free_of_other_page { traces.free_of_other_page }
    ensures free_of_other_rights { traces.free_of_other_rights }
    ensures free_of_other_root { traces.free_of_other_root }
    ensures free_of_other_asid { traces.free_of_other_asid }
    ensures free_as_global { traces.free_as_global }
    ensures free_as_reuse { traces.free_as_reuse }
    ensures free_of_hart_that_fenced { traces.free_of_hart_that_fenced }
    ensures free_from_before { traces.free_from_before }
    ensures free_from_after { traces.free_from_after }
    ensures free_of_both_harts { traces.free_of_both_harts }
    ensures set_shows_clear { traces.set_shows_clear }
    ensures clear_shows_set { traces.clear_shows_set }
    ensures not_both_clear_and_set { traces.not_both_clear_and_set }
    ensures one_reuse { traces.one_reuse }
    ensures one_use { traces.one_use }
    ensures one_more_use { traces.one_more_use }
{}

/// Two warnings at a record: of two harts, two frames, different rights, or two ASIDs.
#[tactic(auto, using(crate::proofs::WarningAnswers::two_warnings_rows))]
pub fn worked_two_warnings()
    ensures two_harts { traces.two_harts }
    ensures two_harts_in_other_order { traces.two_harts_in_other_order }
    ensures one_of_two_harts { traces.one_of_two_harts }
    ensures two_frames { traces.two_frames }
    ensures one_of_two_frames { traces.one_of_two_frames }
    ensures two_rights { traces.two_rights }
    ensures one_of_two_rights { traces.one_of_two_rights }
    ensures two_spaces { traces.two_spaces }
    ensures one_of_two_spaces { traces.one_of_two_spaces }
    ensures two_claims { traces.two_claims }
{}

/// No warning at a record.
#[tactic(auto, using(crate::proofs::WarningAnswers::no_warnings_rows))]
pub fn worked_no_warnings()
    ensures both_fenced { traces.both_fenced }
    ensures freed_again { traces.freed_again }
    ensures other_frame { traces.other_frame }
    ensures fence_alone { traces.fence_alone }
{}
