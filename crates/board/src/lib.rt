//! Harts that are threads and share no lock: a port for each hart, with which it edits and walks
//! shared tables, posts requests to other harts, serves theirs, and collects what they
//! acknowledged.
#![tactic(auto)]

mod board;
mod closing;
mod collecting;
mod editing;
mod inbox;
mod laws;
mod mapped;
mod meeting;
mod opening;
mod outbox;
mod pair;
mod port;
mod receiver;
mod report;
mod seats;
mod slot;
mod translating;

pub use board::Board;
pub use inbox::Inbox;
pub use laws::{
    accepted_orders_begin, accepted_unmapping_is_live, counts_add_up, done_is_gone_from_tlbs,
    looks_in_order, new_ports_have_done_nothing, pairs_of_three_harts, serving_drops_the_page,
    translate_none_holds_none, unmapping_stays_open,
};
pub use mapped::Mapped;
pub use outbox::Outbox;
pub use pair::{ends, settle, take_waiting};
pub use port::HartPort;
pub use report::{PairReport, Report};
