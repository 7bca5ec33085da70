//! What a hart may still hold of translations, by a trace of what a kernel did to its page tables,
//! its satp and its TLBs: a hart may use any translation that was valid since the last fence that
//! covers it (privileged manual 4.2.1, Supervisor Memory-Management Fence Instruction).
#![tactic(auto)]

mod laws;
mod trace;
mod worked_traces;

pub use laws::{
    fence_of_all_leaves_nothing_stale, fence_takes_what_it_covers, hart_without_satp_holds_nothing,
    held_is_the_least_set, held_was_live_and_not_dropped_since, later_records_change_no_verdict,
    leaf_is_what_a_walk_finds, only_fences_take, only_stores_make_stale,
    remote_fence_takes_what_was_not_live, root_and_asid_of_global_change_nothing,
    root_in_satp_is_a_root, satp_takes_nothing, verdicts_are_known,
    verdicts_are_of_stale_translations, what_has_changed_is_stale, what_is_mapped_is_not_stale,
};
pub use trace::{AddressRange, Claim, Frames, Record, RemoteFence, Space, Verdict};
pub use worked_traces::{
    worked_claims, worked_frees, worked_globals, worked_reuses, worked_roots, worked_staleness,
    worked_uses,
};
