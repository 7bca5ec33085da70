//! Worked runs, whose replies were written down by hand and the definitions give too; and what the
//! promises refuse, and where they say nothing. Each function does nothing, and its contract is
//! what is said.
#![tactic(auto)]

pub mod of_done;
pub mod of_locks;
pub mod of_machines;
pub mod of_promises;
pub mod of_records;
pub mod premises;
pub mod runs;
pub mod translations;
