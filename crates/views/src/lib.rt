//! The rule that the shared words, those of all table frames and the cells of acknowledgements,
//! keep between any two atomic steps of running harts, and each kind of step.
#![tactic(auto)]

mod cells;
mod edits;
mod gathered;
mod laws;
mod opening;
mod rule;
mod seat;
mod services;
mod steps;
mod view;
mod walks;

pub use cells::{arm, collect, open_order};
pub use edits::{decide, edit, store};
pub use gathered::Gathered;
pub use laws::{
    acknowledged_holds_since, acknowledged_is_clean, cells_are_apart, cells_meet,
    collected_holds_since, collected_is_clean, each_edit_is_one_store, each_read_is_of_an_own_load,
    each_space_at_home_is_read_back, each_table_word_is_as_its_home_says,
    equal_words_ask_for_equal_service, kernel_is_in_every_space, leaves_are_aligned,
    nothing_stored_since, only_a_leaf_over_the_page_marks_anew, orders_are_kept, orders_begin,
    seats_are_numbered, stores_overwrite_no_pointer, table_words_are_a_tree,
    translates_none_holds_none, unmapped_is_where_no_leaf_leads, unmapped_page_stays_unmapped,
    unmapping_begins_live, walk_answers_as_computed, walk_in_flight_leads,
    walk_of_a_wrong_address_changes_nothing, walk_records_what_its_load_found, window_is_global,
};
pub use opening::{deal, open};
pub use rule::{Deal, Memory, Rule, To, Turn, Words};
pub use seat::{Seat, meet};
pub use services::{serve, serve_self};
pub use steps::{load_first, load_next, read_home, store_edit};
pub use view::{Cause, CellStep, Order, Read, SeatView, View};
pub use walks::{walk, walk_from_root};
