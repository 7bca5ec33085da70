//! The moments at which a hart may still use a translation that the kernel took for gone, record by
//! record: the verdicts on a trace as the definitions give them, no more and no fewer.
#![tactic(auto)]

mod cause;
mod chains;
mod concern;
mod effects;
mod engine;
mod fence;
mod held;
mod held_list;
mod indexes;
mod kept_ways;
mod keys;
mod laws;
mod left;
mod left_spaces;
mod live;
mod open;
mod page_harts;
mod page_runs;
mod past_fences;
mod places;
mod relinked;
mod roots;
mod satps;
mod seen;
mod shared;
mod state;
mod tables;
mod touched;
mod translation_index;
mod unseen;
mod view;
mod warning;
mod worked_warnings;

pub use engine::{RecordFault, Watch};
pub use laws::{
    no_warnings_if_none_is_due, recheck_is_idempotent, shown_are_stale_from_one_moment,
    shown_by_one_agree, shows_is_an_equivalence, stale_from_one_moment, warnings_say_the_same,
};
pub use tables::Tables;
pub use warning::Warning;
pub use worked_warnings::{
    worked_moments, worked_no_warnings, worked_one_warning, worked_shows, worked_two_warnings,
};
