//! The laws of all lawful histories, over the definitions alone: each function does nothing, and
//! its contract is the law.
#![tactic(auto)]

pub mod done;
mod laws;

pub use laws::{
    acknowledged_hart_holds_only_what_it_filled_since, acknowledged_was_posted,
    acknowledgement_leaves_nothing_of_the_request, changed_page_stays_coherent,
    collected_request_was_taken, entries_were_filled, fenced_hart_holds_nothing_of_the_request,
    filled_pages_are_mapped, finished_ticket_is_collected, free_space_maps_nothing,
    harts_are_in_live_spaces, held_asids_are_used, limits_give_setup, mapped_page_stays_mapped,
    open_orders_are_of_their_ticket, orders_are_known, orders_stay,
    orders_stay_open_until_finished, outstanding_counts_posts_and_collects, outstanding_is_bounded,
    posted_order_stands_among_the_posts, posts_are_of_their_order, posts_of_a_pair_differ,
    retired_space_is_not_held, serving_hart_is_not_walking, tables_stay_a_tree,
    unmapped_page_stays_clear, unmapped_page_stays_unmapped, used_asids_differ,
    user_pages_are_not_global, walks_hold_used_frames, what_is_served_is_live, what_waits_is_live,
    window_is_shared,
};
