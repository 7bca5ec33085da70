//! What is wrong with a file: the command that it is for, a line for each fault that is found in
//! it, and, where there is none, a line for each map that stops before its leaf.
#![tactic(auto)]

mod checked;
mod commands;
mod fields;
mod forms;
mod keys_known;
mod layout;
mod meant;
mod near;
mod near_laws;
mod note_laws;
mod notes;
mod places;
mod positions;
mod printed;
mod report;
mod shown;
mod spaces_told;
mod split;
mod step_texts;
mod steps_told;
mod tables_told;
mod values;

pub use checked::{Checked, check_text};
pub use commands::command_of;
pub use files::Command;
pub use near::{is_near, is_swap, nearest};
pub use near_laws::{
    near_words_are_edited_ones, no_word_is_its_own_swap, worked_swaps, worked_words_meant,
};
pub use note_laws::worked_notes;
pub use places::{Mark, Place};
pub use printed::Told;
