//! Laws of the tickets of one hart. Each function does nothing: its contract is the law.

ghost use Rattle.std.specs.Prelude.{◌≡◌, ◌≢◌, ◌↔◌, ◌<◌, ℕ, Bool, false, List, Option, None, Ok, Err, IsTrue, length};
ghost use Rattle.pte.specs.declared.address.What.{What};
ghost use Rattle.shoot.specs.HartSet.{contains, harts_in};
ghost use Rattle.shoot.specs.Tickets.{AreSound, TicketTable, after_acked, after_collect, after_finish, after_open_for, after_posted, ticket_acked, is_done, is_done_at, is_open, names, no_tickets, open_answer, ticket_at, with_ticket};

use crate::tickets::{Ticket, TicketFault};
use pte::MAX_HARTS;

/// There are 64 numbers, and each hart that is collected has acknowledged: it is so of new tickets,
/// and stays so at each call.
pub fn tickets_stay_sound()
    ensures new { (home : ℕ) → AreSound (no_tickets home) }
    ensures open { (table : TicketTable) (what : What) (named : List Bool) → AreSound table
        → AreSound (after_open_for table what named) }
    ensures posted { (table : TicketTable) (number to : ℕ) → AreSound table
        → AreSound (after_posted table number to) }
    ensures acked { (table : TicketTable) (number from : ℕ) → AreSound table
        → AreSound (after_acked table number from) }
    ensures collect { (table : TicketTable) (number from : ℕ) → AreSound table
        → AreSound (after_collect table number from) }
    ensures finish { (table : TicketTable) (number : ℕ) → AreSound table
        → AreSound (after_finish table number) }
{}

/// An opening has to name the hart whose tickets they are. It is then refused exactly if all are
/// open, and else opens the lowest that is free.
pub fn lowest_free_number_is_opened()
    ensures home { (table : TicketTable) (named : ℕ)
        → open_answer table named ≡ Err TicketFault.HomeNotNamed
        ↔ (contains (harts_in named) table.hart ≡ false) }
    ensures full { (table : TicketTable) (named : ℕ)
        → open_answer table named ≡ Err TicketFault.NoTicket
        ↔ IsTrue (contains (harts_in named) table.hart)
        × ((number : ℕ) → number < length table.tickets → IsTrue (is_open table number)) }
    ensures number { (table : TicketTable) (named number : ℕ) → open_answer table named ≡ Ok number
        ↔ IsTrue (contains (harts_in named) table.hart) × (number < length table.tickets)
        × (ticket_at table number ≡ None)
        × ((lower : ℕ) → lower < number → IsTrue (is_open table lower)) }
{}

/// Each hart that a ticket names has acknowledged it by the time that it is done.
#[tactic(auto, using(crate::proofs::TicketLaws::done_acked))]
pub fn done_tickets_were_acknowledged()
    ensures { (table : TicketTable) (number hart : ℕ) → AreSound table → hart < MAX_HARTS
        → IsTrue (is_done_at table number) → IsTrue (names table number hart)
        → IsTrue (ticket_acked table number hart) }
{}

/// A ticket is done exactly if each hart that it names is collected.
#[tactic(auto, using(crate::proofs::HartBytes::done))]
pub fn ticket_is_done_once_all_are_collected()
    ensures { (ticket : Ticket) → IsTrue (is_done ticket)
        ↔ ((hart : ℕ) → hart < MAX_HARTS → IsTrue (contains ticket.named hart)
        → IsTrue (contains ticket.collected hart)) }
{}

/// A change of one ticket leaves all others.
#[tactic(auto, using(crate::proofs::TicketLaws::at_same, crate::proofs::TicketLaws::at_other))]
pub fn one_ticket_changes()
    ensures own { (table : TicketTable) (number : ℕ) (place : Option Ticket)
        → number < length table.tickets
        → ticket_at (with_ticket table number place) number ≡ place }
    ensures others { (table : TicketTable) (number other : ℕ) (place : Option Ticket)
        → number ≢ other → ticket_at (with_ticket table number place) other
        ≡ ticket_at table other }
{}
