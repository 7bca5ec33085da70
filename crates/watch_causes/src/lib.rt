//! The causes of the verdicts on a trace. A finding is what one record made stale of one page for one
//! hart; a cause is all findings of global pages, or all of others, that begin with the same kind of
//! verdict for the same reason.
#![tactic(auto)]

mod begun;
mod causes;
mod choice;
mod concerned;
mod decision;
mod fenced;
mod fences;
mod finding;
mod findings;
mod known;
mod known_findings;
mod known_reaches;
mod laws;
mod log;
mod moves;
mod reach;
mod reaches;
mod reason;
mod reasons;
mod returns;
mod role;
mod stories;
mod tally;
mod worked_known;
mod worked_reaches;
mod worked_reasons;
mod worked_stories;
mod worked_tallies;

pub use begun::Begun;
pub use causes::Causes;
pub use finding::Cause;
pub use known::Known;
pub use known_findings::KnownFindings;
pub use known_reaches::KnownReaches;
pub use laws::{
    begun_findings_are_counted, cause_has_one_tally, ended_flush_is_the_open_one,
    fenced_harts_fit_the_reason, finding_begins_once, finding_has_one_cause,
    finding_is_known_as_a_whole, first_verdict_makes_the_cause, known_findings_add_up,
    reach_only_grows, taken_is_not_held, tallies_add_up, tallies_count_their_causes,
    use_is_of_its_finding, verdict_has_one_finding, without_entries_nothing_is_known,
};
pub use reach::Reach;
pub use reason::Reason;
pub use role::Role;
pub use stories::{Part, last_warnings, story};
pub use tally::{Example, Tally, Verdicts};
pub use worked_known::{worked_counts, worked_entries, worked_first_verdicts};
pub use worked_reaches::{worked_begins, worked_comebacks, worked_remotes};
pub use worked_reasons::{worked_claims, worked_fences, worked_frees};
pub use worked_stories::{worked_roles_before, worked_roles_since, worked_story};
pub use worked_tallies::{worked_causes, worked_findings};
