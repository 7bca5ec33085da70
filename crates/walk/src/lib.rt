//! The walk of Sv39 and of Sv48 from a virtual address to its leaf, one word of a table at a time
//! (privileged manual 4.3.2, virtual address translation process, 4.4.1, Sv39, and 4.5.1, Sv48).
#![tactic(auto)]

mod found_or_trap;
mod laws;
mod memory;
mod permissions;
mod policy_laws;
mod stepping;
mod translation;
mod walking;
mod worked_rows;

pub use found_or_trap::{Found, Trap, Why, flags_fault};
pub use laws::{
    addresses_of_a_page_share_their_path, found_is_in_range, found_is_mapped, found_page_is_mapped,
    global_is_known, leads_is_the_pointers_followed, leaf_maps_its_page,
    loads_count_the_levels_of_a_walk, mapped_page_answers_by_its_flags,
    nothing_leads_below_the_end_of_a_path, one_word_leads_at_a_level, outcome_is_unique,
    outcome_takes_one_load_a_level, page_is_mapped_once, path_without_leaf_maps_nothing,
    paths_go_pointer_by_pointer, store_agrees_elsewhere, store_over_no_pointer_is_at_an_end,
    walk_begins_on_its_path, walk_goes_on_along_its_path, walk_on_its_path_computes_the_outcome,
    walk_stays_on_its_path, what_is_mapped_passes_through_a_change,
    what_leads_passes_through_a_change,
};
pub use memory::Words;
pub use permissions::{Permitted, permits};
pub use policy_laws::{
    bits_to_set_let_the_access_through, trap_policy_sets_nothing, worked_bits_to_set,
    worked_policies,
};
pub use stepping::{AccessedDirty, Advance, Granted, ReadWord, Trapped, WORD_BYTES};
pub use translation::{translate, translate_in};
pub use walking::{Progress, Walk};
pub use worked_rows::{
    worked_accessed_and_dirty, worked_ends_of_paths, worked_faults_of_sv48, worked_global_bits,
    worked_halves_of_sv48, worked_orders_of_faults, worked_pages, worked_pages_of_sv48,
    worked_permissions, worked_words,
};
