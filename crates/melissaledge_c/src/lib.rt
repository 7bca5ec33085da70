//! The C interface: a static library whose exports each make one public call of the crates below, or
//! of the TLB of a chosen size that stands here. `include/melissaledge.h` declares them for C, and says
//! what C has to keep.
#![tactic(auto)]

mod bare;
mod codes;
mod configs;
mod events;
mod flat;
mod loose;
mod machine_handle;
mod machines;
mod replies;
mod requests;
mod sized_tlb;
#[cfg(test)]
mod state_tests;
mod states;
#[cfg(test)]
mod tests;
mod tlb_laws;
#[cfg(test)]
mod tlb_tests;
mod tlbs;
mod translations;
mod version;
#[cfg(test)]
mod walk_tests;
mod walks;

pub use configs::{ConfigAsked, SpaceAsked};
pub use events::EventAsked;
pub use machine_handle::MachineHandle;
pub use machines::{
    melissaledge_machine_close, melissaledge_machine_open, melissaledge_machine_step,
    melissaledge_machine_translates,
};
pub use replies::ReplyGiven;
pub use requests::{AccessAsked, EntryGiven, FenceAsked, WhatAsked};
pub use sized_tlb::TlbHead;
pub use states::{
    HartGiven, MailboxGiven, RequestGiven, SpaceGiven, TicketGiven, melissaledge_machine_entry,
    melissaledge_machine_hart, melissaledge_machine_mailbox, melissaledge_machine_request,
    melissaledge_machine_space, melissaledge_machine_ticket, melissaledge_machine_word,
};
pub use tlb_laws::{
    fill_drops_at_most_the_oldest, last_fills_stay, replacement_answers, worked_fills,
};
pub use tlbs::{
    melissaledge_entry_translate, melissaledge_tlb_check, melissaledge_tlb_count,
    melissaledge_tlb_entry, melissaledge_tlb_fence, melissaledge_tlb_fill, melissaledge_tlb_init,
    melissaledge_tlb_lookup, melissaledge_tlb_replace, melissaledge_tlb_serve,
    melissaledge_tlb_translate,
};
pub use translations::{Answer, Tables, melissaledge_translate};
pub use version::{Version, melissaledge_version};
pub use walks::{
    LeafGiven, WalkGiven, melissaledge_entry_permits, melissaledge_walk_begin,
    melissaledge_walk_no_word, melissaledge_walk_word, numbers_are_of_one_walk,
};
