//! Tickets.

ghost use Rattle.std.specs.Prelude.{◌≡◌, ◌<◌, IsTrue, IsSome, IfSome, IfOk, length, slice_set};
ghost use Rattle.std.specs.Option.{option_copied, option_map};

use crate::MAX_TICKETS;
use crate::free_tickets::FreeTickets;
use crate::hart_set::HartSet;
use arrayvec::ArrayVec;
use pte::{MAX_HARTS, What};
use std::marker::Model;
use thiserror::Error;

/// Why no ticket is opened.
#[derive(Clone, Copy, PartialEq, Eq, Debug, Error)]
pub enum TicketFault {
    /// The hart that opens is not among those that it names.
    #[error("the hart that opens the ticket is not named")]
    HomeNotNamed,
    /// All tickets are open.
    #[error("all tickets are open")]
    NoTicket,
}

/// Some named hart is not collected yet.
#[derive(Clone, Copy, PartialEq, Eq, Debug, Error)]
#[error("a named hart is not collected yet")]
pub struct NotDone;

/// How far a ticket is.
#[derive(Clone, Copy, PartialEq, Eq, Debug)]
pub enum Collected {
    /// Each named hart is collected.
    Done,
    /// These named harts are not: bit h stands for hart h.
    Waiting(u8),
}

/// An open ticket: what was asked of which harts, and who of them was posted
/// to, has acknowledged, and is collected.
#[derive(Clone, Copy, PartialEq, Eq, Debug)]
pub struct Ticket {
    /// What the named harts are to drop.
    pub what: What,
    /// The harts that are asked.
    pub named: HartSet,
    /// Those to which it was posted.
    pub posted: HartSet,
    /// Those that have acknowledged it.
    pub acked: HartSet,
    /// Those whose acknowledgement is collected.
    pub collected: HartSet,
}

/// The tickets of one hart, with numbers from 0 to 63.
///
/// A ticket is opened for what the named harts are to drop, posted to each of
/// the others, and done once each named hart is collected.
/// Which numbers are free is kept beside the tickets, so that opening one
/// searches none of them.
#[derive(Drop)]
pub struct Tickets {
    hart: u8,
    tickets: ArrayVec<Option<Ticket>, MAX_TICKETS>,
    free: FreeTickets,
}

impl Model for Tickets {
    ghost use Rattle.std.specs.Prelude.{◌≡◌, ◌<◌, map, is_none};
    ghost use Rattle.shoot.specs.Tickets.{TicketTable};
    ghost use Rattle.pte.specs.declared.TheConstants.{MAX_HARTS};

    ghost Value = { TicketTable };

    ghost view = { λ t. record { hart = t.hart; tickets = t.tickets.items } };

    ghost invariant = { λ t. (t.hart < MAX_HARTS) × (t.free ≡ map is_none t.tickets.items) };
}

/// Puts a ticket, or none, in the place of a number.
fn put(places: &mut ArrayVec<Option<Ticket>, MAX_TICKETS>, number: u32, ticket: Option<Ticket>)
    requires { number < length places.old.items }
    ensures { places.new.items ≡ slice_set places.old.items number ticket }
{
    places.as_mut_slice()[number as usize] = ticket;
}

impl Ticket {
    ghost use Rattle.shoot.specs.Tickets.{is_done, progress, ticket_for, with_posted, with_acked, with_collected};

    /// A ticket that names these harts.
    #[inline(always)]
    fn new(what: What, named: &HartSet) -> Ticket
        ensures { result ≡ ticket_for what named.now }
    {
        Ticket {
            what,
            named: *named,
            posted: HartSet::new(),
            acked: HartSet::new(),
            collected: HartSet::new(),
        }
    }

    #[inline(always)]
    fn mark_posted(&mut self, to: u8)
        ensures { self.new ≡ with_posted to self.old }
    {
        self.posted.insert(to);
    }

    #[inline(always)]
    fn mark_acked(&mut self, home: u8, from: u8)
        ensures { self.new ≡ with_acked home from self.old }
    {
        self.acked.insert(from);
        if from == home {
            self.collected.insert(from);
        }
    }

    #[inline(always)]
    fn mark_collected(&mut self, from: u8)
        ensures { self.new ≡ with_collected from self.old }
    {
        if self.acked.contains(from) {
            self.collected.insert(from);
        }
    }

    /// Whether each named hart is collected.
    #[inline(always)]
    fn is_done(&self) -> bool
        ensures { result ≡ is_done self.now }
    {
        self.named.difference(&self.collected).is_empty()
    }

    /// How far the ticket is.
    #[inline(always)]
    fn progress(&self) -> Collected
        ensures { result ≡ progress self.now }
    {
        let uncollected = self.named.difference(&self.collected);
        if uncollected.is_empty() {
            Collected::Done
        } else {
            Collected::Waiting(u8::from(uncollected))
        }
    }
}

impl Tickets {
    ghost use Rattle.shoot.specs.Tickets.{no_tickets, ticket_at, is_open, names, ticket_posted, ticket_acked, ticket_collected, open_answer, answer_for, after_open, after_open_for, progress_at, after_posted, after_acked, after_collect, is_done, finish_answer, after_finish, lowest_free, what_at, with_ticket};

    /// The tickets of a hart whose number is below 8, all of them free.
    pub fn new(hart: u8) -> Tickets
        requires { hart < MAX_HARTS }
        ensures { result ≡ no_tickets hart }
    {
        Tickets {
            hart,
            tickets: ArrayVec::from_array_in((), [None; MAX_TICKETS]),
            free: FreeTickets::new(),
        }
    }

    #[inline(always)]
    fn get(&self, ticket: u32) -> Option<&Ticket>
        ensures ticket { option_copied result ≡ ticket_at self.now ticket }
        ensures below { IsSome result → ticket < MAX_TICKETS }
    {
        self.tickets.as_slice().get(ticket as usize)?.as_ref()
    }

    /// Puts a ticket in the place of an open one.
    #[tactic(auto, using(crate::proofs::FreeTickets::ticket_replaced))]
    fn replace(&mut self, number: u32, ticket: Ticket)
        requires { IsTrue (is_open self.old number) }
        ensures { self.new ≡ with_ticket self.old number (Some ticket) }
    {
        put(&mut self.tickets, number, Some(ticket));
    }

    #[inline(always)]
    #[tactic(auto, using(crate::proofs::FreeTickets::lowest_of_test))]
    fn lowest_free(&self) -> Option<usize>
        ensures lowest { result ≡ lowest_free self.now }
        ensures below { IfSome result (λ number. number < MAX_TICKETS) }
    {
        self.free.lowest()
    }

    /// What `open_for` would answer for these harts now.
    pub fn would_open(&self, named: &HartSet) -> Result<u32, TicketFault>
        ensures answer { result ≡ answer_for self.now named.now }
        ensures below { IfOk result (λ number. number < MAX_TICKETS) }
    {
        if !named.contains(self.hart) {
            return Err(TicketFault::HomeNotNamed);
        }
        match self.lowest_free() {
            Some(number) => Ok(number as u32),
            None => Err(TicketFault::NoTicket),
        }
    }

    /// Opens the lowest free ticket for the harts of a byte, in which bit h stands for hart h.
    /// Refused with `HomeNotNamed`, else with `NoTicket`, nothing changes.
    pub fn open(&mut self, what: What, named: u8) -> Result<u32, TicketFault>
        ensures answer { result ≡ open_answer self.old named }
        ensures below { IfOk result (λ number. number < MAX_TICKETS) }
        ensures after { self.new ≡ after_open self.old what named }
    {
        self.open_for(what, &HartSet::from(named))
    }

    /// Opens the lowest free ticket for these harts. Refused with `HomeNotNamed`, else with
    /// `NoTicket`, nothing changes.
    #[tactic(auto, using(crate::proofs::FreeTickets::ticket_opened))]
    pub fn open_for(&mut self, what: What, named: &HartSet) -> Result<u32, TicketFault>
        ensures answer { result ≡ answer_for self.old named.now }
        ensures below { IfOk result (λ number. number < MAX_TICKETS) }
        ensures after { self.new ≡ after_open_for self.old what named.now }
    {
        let number = self.would_open(named)?;
        put(&mut self.tickets, number, Some(Ticket::new(what, named)));
        self.free.remove(number as usize);
        Ok(number)
    }

    /// An open ticket was posted to a hart that it names.
    pub fn posted(&mut self, ticket: u32, to: u8)
        requires { IsTrue (names self.old ticket to) }
        ensures { self.new ≡ after_posted self.old ticket to }
    {
        let Some(mut open) = self.get(ticket).copied() else {
            return;
        };
        open.mark_posted(to);
        self.replace(ticket, open);
    }

    /// A hart that an open ticket names acknowledged it. The acknowledgement of
    /// the hart whose ticket it is counts as collected at once.
    pub fn acked(&mut self, ticket: u32, from: u8)
        requires { IsTrue (names self.old ticket from) }
        ensures { self.new ≡ after_acked self.old ticket from }
    {
        let home = self.hart;
        let Some(mut open) = self.get(ticket).copied() else {
            return;
        };
        open.mark_acked(home, from);
        self.replace(ticket, open);
    }

    /// Collects the acknowledgement of a hart that an open ticket names, if there is one, and
    /// answers how far the ticket is then.
    pub fn collect(&mut self, ticket: u32, from: u8) -> Collected
        requires { IsTrue (names self.old ticket from) }
        ensures answer { result ≡ progress_at self.new ticket }
        ensures after { self.new ≡ after_collect self.old ticket from }
    {
        let Some(mut open) = self.get(ticket).copied() else {
            return Collected::Done;
        };
        open.mark_collected(from);
        self.replace(ticket, open);
        open.progress()
    }

    /// How far an open ticket is.
    #[inline(always)]
    pub fn progress(&self, ticket: u32) -> Collected
        requires { IsTrue (is_open self.now ticket) }
        ensures { result ≡ progress_at self.now ticket }
    {
        match self.get(ticket) {
            Some(open) => open.progress(),
            None => Collected::Done,
        }
    }

    /// Whether each hart that an open ticket names is collected, or `None` exactly if the ticket is
    /// not open.
    #[inline(always)]
    pub fn is_done(&self, ticket: u32) -> Option<bool>
        ensures { result ≡ option_map is_done (ticket_at self.now ticket) }
    {
        self.get(ticket).map(|open| open.is_done())
    }

    /// Frees an open ticket that is done. At a refusal nothing changes.
    #[tactic(auto, using(crate::proofs::FreeTickets::ticket_freed))]
    pub fn finish(&mut self, ticket: u32) -> Result<(), NotDone>
        requires { IsTrue (is_open self.old ticket) }
        ensures answer { result ≡ finish_answer self.old ticket }
        ensures after { self.new ≡ after_finish self.old ticket }
    {
        let Some(open) = self.get(ticket) else {
            return Err(NotDone);
        };
        if !open.is_done() {
            return Err(NotDone);
        }
        put(&mut self.tickets, ticket, None);
        self.free.insert(ticket as usize);
        Ok(())
    }

    /// Whether the ticket is open.
    #[inline(always)]
    pub fn is_open(&self, ticket: u32) -> bool
        ensures open { result ≡ is_open self.now ticket }
        ensures below { IsTrue result → ticket < MAX_TICKETS }
    {
        self.get(ticket).is_some()
    }

    /// Whether the ticket is open and names the hart.
    #[inline(always)]
    pub fn names(&self, ticket: u32, hart: u8) -> bool
        ensures { result ≡ names self.now ticket hart }
    {
        self.get(ticket)
            .is_some_and(|open| open.named.contains(hart))
    }

    /// Whether an open ticket was posted to the hart.
    #[inline(always)]
    pub fn is_posted(&self, ticket: u32, hart: u8) -> bool
        requires { IsTrue (is_open self.now ticket) }
        ensures { result ≡ ticket_posted self.now ticket hart }
    {
        self.get(ticket)
            .is_some_and(|open| open.posted.contains(hart))
    }

    /// Whether the hart acknowledged an open ticket.
    #[inline(always)]
    pub fn is_acked(&self, ticket: u32, hart: u8) -> bool
        requires { IsTrue (is_open self.now ticket) }
        ensures { result ≡ ticket_acked self.now ticket hart }
    {
        self.get(ticket)
            .is_some_and(|open| open.acked.contains(hart))
    }

    /// Whether the hart's acknowledgement of an open ticket is collected.
    #[inline(always)]
    pub fn is_collected(&self, ticket: u32, hart: u8) -> bool
        requires { IsTrue (is_open self.now ticket) }
        ensures { result ≡ ticket_collected self.now ticket hart }
    {
        self.get(ticket)
            .is_some_and(|open| open.collected.contains(hart))
    }

    /// The open ticket of a number.
    pub fn ticket(&self, ticket: u32) -> Option<Ticket>
        ensures { result ≡ ticket_at self.now ticket }
    {
        self.get(ticket).copied()
    }

    /// What an open ticket asks the named harts to drop.
    #[inline(always)]
    pub fn what(&self, ticket: u32) -> What
        requires { IsTrue (is_open self.now ticket) }
        ensures { what_at self.now ticket ≡ Some result }
    {
        match self.get(ticket) {
            Some(open) => open.what,
            None => What::All,
        }
    }
}
