//! The texts of steps: numbers, words, and the steps that `svsim` reads.
//!
//! A step is one text of a scenario file. Its words stand between spaces and tabs, and its numbers
//! are hexadecimal after `0x` or decimal.
#![tactic(auto)]

mod accesses;
mod fault;
mod fields;
mod laws;
mod live;
mod numbers;
mod parts;
mod run;
mod step;
mod table;
mod text;
mod told;
mod worked_rows;

pub use fault::StepFault;
pub use laws::{
    harts_are_told_between_steps_and_pages, harts_of_live_are_told_between_steps_and_pages,
    live_step_is_written, live_steps_of_sv39_are_live_steps_of_sv48, num_is_written,
    run_step_is_written, setup_step_is_written, steps_of_sv39_are_steps_of_sv48,
    walk_step_is_written,
};
pub use live::{live_step_among, setup_step_among};
pub use numbers::num;
pub use parts::Parts;
pub use run::{run_step, run_step_among};
pub use step::{WalkStep, walk_step};
pub use table::{Field, NAMES, Row, STEP_NAMES, StepName, WALK_FIELDS};
pub use text::{next_word, words};
pub use told::step_for;
pub use worked_rows::{
    worked_faults, worked_letters, worked_lines, worked_live_faults, worked_live_pages,
    worked_live_steps, worked_pages, worked_steps,
};
