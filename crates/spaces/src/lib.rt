//! Table memory: its frames, their homes, the kernel window, and the edits that map, unmap and
//! protect pages by one store.
#![tactic(auto)]

mod configuration;
mod edit_walk_laws;
mod edit_walks;
mod edits;
mod faults;
mod frame_use;
mod frames;
mod laws;
mod places;
mod unused_frames;
mod wishes;

pub use configuration::{
    Config, DEFAULT_SPARES, MAX_CAPACITY, MAX_FRAMES, MAX_HARTS, MAX_LIVE_FRAMES, MAX_SPACES,
    MAX_WINDOW, Space,
};
pub use edit_walk_laws::{
    edit_points_to_a_frame, edit_replaces_no_pointer, edit_walk_continues, edit_walk_starts,
    edit_walk_stays_at_home,
};
pub use edit_walks::{EditWalk, Next};
pub use edits::{Edit, apply, next_edit, next_map_edit, protect_edit, unmap_edit};
pub use faults::{Limit, MapFault, OpenFault};
pub use frames::{Memory, first_words};
pub use laws::{
    defaults_meet_the_limits, edit_changes_its_page, edit_is_accepted, edit_keeps_tree,
    edit_stays_at_home, giving_back_empties_the_space, giving_back_empties_the_words,
    giving_back_keeps_tree, giving_back_leaves_the_frames_unused, home_is_one,
    kernel_path_starts_in_the_window, limits_are_checked, limits_give_layout, map_keeps_mappings,
    new_table_takes_the_lowest_unused_frame, opening_is_tree, path_ends_lowest, places_are_tested,
    store_takes_its_frame, unmapped_page_is_gone, unused_frame_is_not_reached, window_is_global,
};
pub use places::Place;
pub use wishes::Wish;
