//! Scenario files: from a file's bytes to the lines that `svsim` prints.
//!
//! `walk_text` and `run_text` answer a text, `command` does the whole of a command over any reader
//! and writers, `live_command` that of `live`, whose harts are threads, `watch_command_with`,
//! `explain_command` and `picture_command` those of `watch` and `explain`, and `answer_words` is the whole program over the
//! words of the command line. But for `watch` and `explain` a text is read and checked whole before its
//! first line is written.
#![tactic(auto)]

mod command_line;
mod commands;
mod ending_laws;
mod explain_program;
mod finding;
mod format_laws;
mod input;
mod inspections;
mod known_file;
mod limits;
mod live_program;
mod live_texts;
mod outcome;
mod output;
mod print_laws;
mod program;
mod progress;
mod shown;
mod stale_items;
mod stale_texts;
mod story_picture;
mod system;
mod task;
mod texts;
mod trouble;
mod watch_program;
mod word_laws;
mod words;

pub use command_line::{Ask, NoWords, answer_words, ask_of};
pub use commands::{Command, Which};
pub use ending_laws::{what_a_status_says, worked_faults, worked_reports};
pub use explain_program::{explain_command, picture_command};
pub use files::{
    Fault, first_wrong_step, least_unknown_key, mode_is_sv39_by_default, worked_modes, worked_turns,
};
pub use format_laws::worked_endings;
pub use limits::worked_limit;
pub use lines::one_text;
pub use live_program::live_command;
pub use live_texts::live_lines;
pub use print_laws::{one_print, worked_prints};
pub use program::command;
pub use progress::Progress;
pub use shown::{Shown, shown_of};
pub use spaces::limits_are_checked;
pub use stale_items::stale_lines;
pub use stale_texts::{StaleText, stale_text};
pub use steps::StepFault;
pub use system::start;
pub use task::Task;
pub use texts::{run_text, walk_text};
pub use trouble::Trouble;
pub use watch_program::{watch_command, watch_command_with};
pub use watch_report::{
    Detail, Filter, Form, Kind, Known, KnownFault, KnownList, Options, read_filter,
};
pub use word_laws::{
    words_are_read, worked_explanations, worked_filters, worked_forms, worked_options,
    worked_pictures, worked_refusals, worked_texts, worked_words, worked_wrong_forms,
};
