//! Worked rows: the definitions give what was worked out by hand. Each function does nothing, and
//! each of its clauses is a row.

ghost use Rattle.std.specs.Prelude.{ℕ};
ghost use Rattle.pte.specs.declared.flags.PteFlags.{PteFlags};
ghost use Rattle.tlb.specs.WorkedRows as rows;

/// What each form of a fence leaves, by the addresses, ASIDs and scheme that it names.
pub fn worked_fences()
    ensures form_3 { (ppn : ℕ) (flags : PteFlags) → rows.form_3 ppn flags }
    ensures form_2 { (ppn : ℕ) (flags : PteFlags) → rows.form_2 ppn flags }
    ensures form_2_high_bits { (ppn : ℕ) (flags : PteFlags) → rows.form_2_high_bits ppn flags }
    ensures form_4 { (ppn : ℕ) (flags : PteFlags) → rows.form_4 ppn flags }
    ensures form_4_inside_the_page { (ppn : ℕ) (flags : PteFlags)
        → rows.form_4_inside_the_page ppn flags }
    ensures not_canonical { (ppn : ℕ) (flags : PteFlags) → rows.not_canonical ppn flags }
    ensures form_1 { (ppn : ℕ) (flags : PteFlags) → rows.form_1 ppn flags }
    ensures form_3_behind_the_page { (ppn : ℕ) (flags : PteFlags)
        → rows.form_3_behind_the_page ppn flags }
    ensures form_3_kernel_page { (ppn : ℕ) (flags : PteFlags) → rows.form_3_kernel_page ppn flags }
    ensures form_2_all_bits { (ppn : ℕ) (flags : PteFlags) → rows.form_2_all_bits ppn flags }
    ensures form_3_superpages { (ppn : ℕ) (flags : PteFlags) → rows.form_3_superpages ppn flags }
    ensures form_4_superpages { (ppn : ℕ) (flags : PteFlags) → rows.form_4_superpages ppn flags }
    ensures widest_is_fenced_by_any_address { (ppn : ℕ) (flags : PteFlags)
        → rows.widest_is_fenced_by_any_address ppn flags }
{}

/// Where the halves of the addresses end for a fence, in each scheme.
pub fn worked_ends_of_the_halves()
    ensures last_canonical_below { (ppn : ℕ) (flags : PteFlags)
        → rows.last_canonical_below ppn flags }
    ensures first_canonical_above { (ppn : ℕ) (flags : PteFlags)
        → rows.first_canonical_above ppn flags }
    ensures not_canonical_above { (ppn : ℕ) (flags : PteFlags)
        → rows.not_canonical_above ppn flags }
    ensures sv48_takes_it_out { (ppn : ℕ) (flags : PteFlags) → rows.sv48_takes_it_out ppn flags }
    ensures sv39_leaves_it { (ppn : ℕ) (flags : PteFlags) → rows.sv39_leaves_it ppn flags }
    ensures sv48_takes_it_out_of_its_space { (ppn : ℕ) (flags : PteFlags)
        → rows.sv48_takes_it_out_of_its_space ppn flags }
    ensures sv48_leaves_it_of_another_space { (ppn : ℕ) (flags : PteFlags)
        → rows.sv48_leaves_it_of_another_space ppn flags }
    ensures last_canonical_of_sv48 { (ppn : ℕ) (flags : PteFlags)
        → rows.last_canonical_of_sv48 ppn flags }
    ensures first_canonical_above_of_sv48 { (ppn : ℕ) (flags : PteFlags)
        → rows.first_canonical_above_of_sv48 ppn flags }
    ensures not_canonical_of_sv48 { (ppn : ℕ) (flags : PteFlags)
        → rows.not_canonical_of_sv48 ppn flags }
    ensures not_canonical_above_of_sv48 { (ppn : ℕ) (flags : PteFlags)
        → rows.not_canonical_above_of_sv48 ppn flags }
{}

/// Which entry matches an address for an ASID.
pub fn worked_matches()
    ensures widest_matches_its_first { (ppn : ℕ) (flags : PteFlags)
        → rows.widest_matches_its_first ppn flags }
    ensures widest_matches_its_last { (ppn : ℕ) (flags : PteFlags)
        → rows.widest_matches_its_last ppn flags }
    ensures widest_ends { (ppn : ℕ) (flags : PteFlags) → rows.widest_ends ppn flags }
    ensures widest_begins { (ppn : ℕ) (flags : PteFlags) → rows.widest_begins ppn flags }
    ensures asid_0_matches_its_own { (ppn : ℕ) (flags : PteFlags)
        → rows.asid_0_matches_its_own ppn flags }
    ensures oldest { (ppn : ℕ) (flags : PteFlags) → rows.oldest ppn flags }
    ensures global_matches { (ppn : ℕ) (flags : PteFlags) → rows.global_matches ppn flags }
    ensures superpage_matches { (ppn : ℕ) (flags : PteFlags) → rows.superpage_matches ppn flags }
    ensures none_matches { (ppn : ℕ) (flags : PteFlags) → rows.none_matches ppn flags }
    ensures found_is_of_the_space { (ppn : ℕ) (flags : PteFlags)
        → rows.found_is_of_the_space ppn flags }
    ensures found_global_is_of_every_space { (ppn : ℕ) (flags : PteFlags)
        → rows.found_global_is_of_every_space ppn flags }
{}

/// What each service of a request leaves.
pub fn worked_services()
    ensures widest_goes_by_a_part { (ppn : ℕ) (flags : PteFlags)
        → rows.widest_goes_by_a_part ppn flags }
    ensures parts_go_by_the_widest { (ppn : ℕ) (flags : PteFlags)
        → rows.parts_go_by_the_widest ppn flags }
    ensures parts_of_all_spaces_go { (ppn : ℕ) (flags : PteFlags)
        → rows.parts_of_all_spaces_go ppn flags }
    ensures superpage_of_space { (ppn : ℕ) (flags : PteFlags) → rows.superpage_of_space ppn flags }
    ensures page_of_space { (ppn : ℕ) (flags : PteFlags) → rows.page_of_space ppn flags }
    ensures global_page { (ppn : ℕ) (flags : PteFlags) → rows.global_page ppn flags }
    ensures page_behind_others { (ppn : ℕ) (flags : PteFlags) → rows.page_behind_others ppn flags }
    ensures whole_space { (ppn : ℕ) (flags : PteFlags) → rows.whole_space ppn flags }
    ensures everything { (ppn : ℕ) (flags : PteFlags) → rows.everything ppn flags }
{}

/// What fills leave: the oldest of 16 goes first, and of entries of one address the oldest answers,
/// whatever their sizes.
pub fn worked_fills()
    ensures seventeenth_drops_first { (ppn : ℕ) (flags : PteFlags)
        → rows.seventeenth_drops_first ppn flags }
    ensures seventeenth_keeps_second { (ppn : ℕ) (flags : PteFlags)
        → rows.seventeenth_keeps_second ppn flags }
    ensures twice_filled { (ppn : ℕ) (flags : PteFlags) → rows.twice_filled ppn flags }
    ensures older_answers { (ppn : ℕ) (flags : PteFlags) → rows.older_answers ppn flags }
    ensures oldest_of_three_sizes { (ppn : ℕ) (flags : PteFlags)
        → rows.oldest_of_three_sizes ppn flags }
    ensures one_of_three_stays { (ppn : ℕ) (flags : PteFlags) → rows.one_of_three_stays ppn flags }
    ensures there_after_fifteen { (ppn : ℕ) (flags : PteFlags)
        → rows.there_after_fifteen ppn flags }
    ensures gone_after_sixteen { (ppn : ℕ) (flags : PteFlags) → rows.gone_after_sixteen ppn flags }
{}

/// The order that the ages of slots give their entries, what a drop makes of both, and the tags of
/// addresses.
pub fn worked_ages()
    ensures order_by_age { (ppn : ℕ) (flags : PteFlags) → rows.order_by_age ppn flags }
    ensures ages_close_up { (ppn : ℕ) (flags : PteFlags) → rows.ages_close_up ppn flags }
    ensures order_after_a_drop { (ppn : ℕ) (flags : PteFlags) → rows.order_after_a_drop ppn flags }
    ensures tags { (ppn : ℕ) (flags : PteFlags) → rows.tags ppn flags }
{}

/// What an entry answers an access.
pub fn worked_answers()
    ensures small_page_answers { rows.small_page_answers }
    ensures superpage_answers { rows.superpage_answers }
    ensures huge_page_answers { rows.huge_page_answers }
    ensures widest_page_answers { rows.widest_page_answers }
    ensures bits_of_the_ppn { rows.bits_of_the_ppn }
    ensures clean_page_is_not_stored_to { rows.clean_page_is_not_stored_to }
    ensures clean_page_is_not_executed { rows.clean_page_is_not_executed }
{}
