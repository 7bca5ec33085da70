//! Scenario files read and checked: the text of each of the three kinds, to what it asks for, or
//! its first fault.
//!
//! `read_walk`, `read_run` and `read_live` answer what the text of a file for `walk`, `run` and
//! `live` asks for, and `walk_scenario_in`, `run_scenario_in` and `live_scenario_in` the same of a
//! document that was parsed already. Nothing is run: what comes of a scenario is in the crate
//! `scenario`.
#![tactic(auto)]

mod documents;
mod fault;
mod format_laws;
mod frames;
mod key_laws;
mod key_table;
mod limits;
mod live_file;
mod plan;
mod run_file;
mod settings;
mod walk_file;

pub use documents::{number, value_at, value_of};
pub use fault::Fault;
pub use format_laws::{first_wrong_step, worked_turns};
pub use frames::TableFrames;
pub use key_laws::{
    defaults_are_those_of_the_table, least_unknown_key, limits_are_those_of_the_table,
    mode_is_sv39_by_default, own_keys_are_of_one_command, worked_modes,
};
pub use key_table::{Command, DEFAULT_TURNS, Key, Kind, MOST_KEYS};
pub use limits::{MOST_FRAMES, MOST_STEPS};
pub use live_file::{live_scenario_in, read_live};
pub use plan::{LiveScenario, RunScenario, WalkScenario};
pub use run_file::{read_run, run_scenario_in};
pub use walk_file::{read_walk, walk_scenario_in};
