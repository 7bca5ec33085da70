//! The page tables that a trace has stored, and what they map now (privileged manual 4.3.2, virtual
//! address translation process).
#![tactic(auto)]

mod any_root;
mod frame;
mod frame_table;
mod global;
mod hints;
mod laws;
mod leaf;
mod leaves;
mod path;
mod pointers;
mod steady;
mod tables;
mod way;
mod ways;

pub use laws::{
    leaf_changes_below_a_changed_word, path_passes_a_first_word_or_none,
    path_through_a_word_has_a_way, what_leads_goes_by_the_words_on_its_path,
    word_of_an_address_is_by_its_number,
};
pub use leaf::RootLeaf;
pub use tables::PageTables;
pub use way::Way;
