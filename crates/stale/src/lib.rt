//! Stale mappings: what a TLB holds while the page tables do not map it so, and the accesses that
//! it answers by it.
#![tactic(auto)]

mod changes;
mod ends;
mod hits;
mod items;
mod lasting;
mod mapped;
mod promises;
mod report;
mod runs;

pub use ends::{may_end_stale, may_end_stale_at};
pub use hits::{StaleUse, stale_use};
pub use items::{BecameStale, StaleAt, StaleItem};
pub use lasting::stale_page;
pub use mapped::is_mapped_now;
pub use promises::{
    acknowledged_page_is_not_stale, changed_page_is_not_stale, entries_differ,
    entry_holds_what_became_stale, only_edits_make_stale, pages_are_looked_for_in_turn,
    unmapping_makes_stale,
};
pub use report::{stale_report, step_stale};
pub use runs::{UseAt, stale_uses};
