//! Pictures of runs: what the harts of a scenario do, step by step, as one SVG document.
//!
//! Time goes down, a line a step or a walk, and each hart has a column. `run` records a scenario: which bars
//! stand in which columns, from which row to which, and which rows an arrow joins. `picture` writes
//! that as SVG: `layout` says where things stand, `shapes` has the elements, `style` how they look.
//!
//! `story` has the records of a verdict's story as plain data, and `story_picture` draws them.
#![tactic(auto)]

mod bars;
mod columns;
mod comments;
mod document;
mod file_comments;
mod fills;
mod heading;
mod lanes;
mod layout;
mod legend;
mod owners;
mod picture;
mod record;
mod recorder;
mod rows;
mod run;
mod shapes;
mod sheet;
mod step_words;
mod story;
mod story_picture;
mod style;
mod tints;

pub use layout::{
    Column, FIRST_COLUMN, HEAD_HEIGHT, LEAST_WIDTH, Point, ROW_HEIGHT, ROWS_A_HEAD, entry_middle,
    heads_above, row_middle, row_top,
};
pub use legend::{KINDS, Kind, push_entry};
pub use picture::{draw_file, draw_text};
pub use shapes::{
    Area, push_arrow, push_dot, push_escaped, push_full_head, push_line, push_number,
    push_open_head, push_rect, push_text,
};
pub use story::{Story, StoryMark, StoryRecord};
pub use story_picture::draw_story;
pub use style::STYLE;
