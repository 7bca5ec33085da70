//! The TLB of a hart: entries that stay until a fence or the service of a request takes them out.
#![tactic(auto)]

mod banks;
mod laws;
mod slots;
mod store;
mod worked_rows;

pub use laws::{
    each_entry_is_kept_or_dropped, fill_drops_at_most_the_oldest, found_entry_is_mapped,
    look_up_translates, mapped_entry_answers_as_a_walk, mappings_come_by_fills,
    served_page_is_not_mapped, service_is_its_fences, unmapped_page_is_not_found,
    unmapped_page_is_not_translated, what_goes_is_gone,
};
pub use store::{Entry, TLB_SIZE, Tlb};
pub use worked_rows::{
    worked_ages, worked_answers, worked_ends_of_the_halves, worked_fences, worked_fills,
    worked_matches, worked_services,
};
