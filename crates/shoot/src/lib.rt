//! The bookkeeping of a TLB shootdown: the mailboxes that carry requests from
//! one hart to another, the tickets by which the hart that asks keeps count of
//! who has answered, and the word by which a hart answers.
#![tactic(auto)]

mod acknowledgement;
mod acknowledgement_laws;
mod free_tickets;
mod hart_set;
mod hart_set_laws;
mod mailbox;
mod mailbox_laws;
mod request;
mod ticket_laws;
mod tickets;
mod worked_rows;

pub use acknowledgement::encode;
pub use acknowledgement_laws::equal_words_ask_for_the_same;
pub use hart_set::HartSet;
pub use hart_set_laws::{bytes_are_sets_of_harts, sets_of_harts_are_tests};
pub use mailbox::{Mailbox, PostFault};
pub use mailbox_laws::{
    mailbox_accepts_nothing_after_close, mailbox_counts_what_is_not_collected, mailbox_keeps_order,
    mailbox_refuses_when_closed_or_full, mailbox_stands_at_its_calls,
};
pub use pte::MAX_HARTS;
pub use request::Request;
pub use ticket_laws::{
    done_tickets_were_acknowledged, lowest_free_number_is_opened, one_ticket_changes,
    ticket_is_done_once_all_are_collected, tickets_stay_sound,
};
pub use tickets::{Collected, NotDone, Ticket, TicketFault, Tickets};
pub use worked_rows::{
    worked_acknowledgements, worked_bytes, worked_mailboxes, worked_marks, worked_numbers,
    worked_tickets,
};

/// The largest capacity of a mailbox.
pub const MAX_CAPACITY: usize = pte::MAX_CAPACITY as usize;

/// How many tickets a hart has, with numbers from 0 on.
pub const MAX_TICKETS: usize = MAX_CAPACITY;
