//! A sender's look for acknowledgements.

ghost use Rattle.std.specs.Prelude.{◌≡◌, ◌≢◌, ◌<◌, ◌↔◌, IfSome, IfNone, true, false, ◌==◌, IsTrue, Some, Ok, Err, length, map, slice_set};
ghost use Rattle.shoot.specs.declared.tickets.Collected.TheVariants as collected;
ghost use Rattle.shoot.specs.Tickets.{is_open, progress_at, ticket_at, what_at};
ghost use Rattle.board.specs.Ends.{after_release};
ghost use Rattle.std.specs.Option.{option_map};
ghost use Rattle.board.specs.Ends.{OutboxState};
ghost use Rattle.board.specs.Ports.{element, end_of_outbox, name_of};
ghost use Rattle.board.specs.Answers.{request_of};
ghost use Rattle.board.specs.Ties.{awaits};
ghost use Rattle.views.specs.OnBoard.{IsWithin};
ghost use Rattle.board.specs.Collects.{AreAllCollected, IsCollected, after_look, awaited_word, is_awaiting};
ghost use Rattle.board.specs.Promises.{IsDoneClean, StaysClean};
ghost use Rattle.views.specs.OrderTurns.{last_word};

use crate::outbox::Outbox;
use crate::port::HartPort;
use history::Refusal;
use shoot::{Collected, Request};
use views::collect;

/// Makes room in an end, if the port has it.
#[inline(always)]
fn release_end(outbox: &mut Option<Outbox>)
    requires some { (end : OutboxState) → outbox.old ≡ Some end → 0 < end.outstanding }
    ensures released { outbox.new ≡ option_map after_release outbox.old }
    ensures same { option_map end_of_outbox outbox.new ≡ option_map end_of_outbox outbox.old }
{
    if let Some(outbox) = outbox {
        outbox.release();
    }
}

/// Makes room in one of the ends.
#[inline(always)]
#[tactic(auto, using(crate::proofs::Counts::outboxes_kept, crate::proofs::Counts::there_set, crate::proofs::Counts::put_back))]
fn release_at(outboxes: &mut Vec<Option<Outbox>>, to: u8)
    requires there { to < length outboxes.old.items }
    requires some { (end : OutboxState) → element outboxes.old.items to ≡ Some end
        → 0 < end.outstanding }
    ensures released { outboxes.new.items
        ≡ slice_set outboxes.old.items to
        (option_map after_release (element outboxes.old.items to)) }
    ensures same { map (option_map end_of_outbox) outboxes.new.items
        ≡ map (option_map end_of_outbox) outboxes.old.items }
{
    let outbox = &mut outboxes[usize::from(to)];
    release_end(outbox);
}

impl HartPort {
    ghost use Rattle.board.specs.Calls as call;
    ghost use Rattle.board.specs.Calls.{LeadsTo};

    /// The request of an open ticket that was posted to another hart, which is not collected.
    #[inline(always)]
    fn awaited(&self, ticket: u32, from: u8) -> Option<Request>
        ensures request { IfSome result (λ request. request ≡ request_of self.now.tickets ticket) }
        ensures what { IfSome result (λ request. what_at self.now.tickets ticket
            ≡ Some request.what) }
        ensures awaited { IfSome result (λ _. IsTrue (is_awaiting self.now ticket from)) }
        ensures awaits { IfSome result (λ _.
            IsTrue (awaits from (ticket_at self.now.tickets ticket))) }
        ensures other { IfSome result (λ _. from ≢ self.now.hart) }
        ensures there { IfSome result (λ _. from < length self.now.outboxes) }
        ensures spare { IfSome result (λ _. from < length self.now.setup.layout.spares) }
        ensures none { IfNone result (is_awaiting self.now ticket from ≡ false) }
    {
        if !self.is_other(from) {
            return None;
        }
        if !self.tickets.is_open(ticket) {
            return None;
        }
        if !self.tickets.is_posted(ticket, from) || self.tickets.is_collected(ticket, from) {
            return None;
        }
        Some(Request {
            ticket,
            what: self.tickets.what(ticket),
        })
    }

    /// Loads the cell of a hart, if the ticket awaits it. Whether it holds the word of the request:
    /// then the hart is collected.
    #[inline(always)]
    fn look(&mut self, ticket: u32, from: u8) -> bool
        ensures open { IsTrue (is_open self.old.tickets ticket)
            → IsTrue (is_open self.new.tickets ticket) }
        ensures idle { is_awaiting self.old ticket from ≡ false → self.new ≡ self.old }
        ensures found { is_awaiting self.old ticket from ≡ true
            → result ≡ (last_word self.new.view.cell_steps == awaited_word self.old ticket) }
        ensures after { is_awaiting self.old ticket from ≡ true
            → self.new ≡ after_look self.old ticket from result
            (last_word self.new.view.cell_steps) }
        ensures same { name_of self.new ≡ name_of self.old }
    {
        let Some(request) = self.awaited(ticket, from) else {
            return false;
        };
        let HartPort {
            config,
            memory,
            seat,
            hart,
            tickets,
            outboxes,
            ..
        } = self;
        if !collect(&memory.shared, seat, config, *hart, from, &request) {
            return false;
        }
        tickets.acked(ticket, from);
        tickets.collect(ticket, from);
        release_at(outboxes, from);
        true
    }

    /// The request that is posted to the harts of a ticket, if the ticket is open.
    pub fn request_of(&self, ticket: u32) -> Option<Request>
        ensures request { IfSome result (λ request. request ≡ request_of self.now.tickets ticket) }
        ensures open { IfSome result (λ _. IsTrue (is_open self.now.tickets ticket)) }
        ensures none { IfNone result (is_open self.now.tickets ticket ≡ false) }
    {
        if !self.tickets.is_open(ticket) {
            return None;
        }
        Some(Request {
            ticket,
            what: self.tickets.what(ticket),
        })
    }

    /// How far an open ticket is. It is done exactly if each hart that it names is collected in the
    /// view.
    pub(crate) fn progress(&self, ticket: u32) -> Collected
        requires { IsTrue (is_open self.now.tickets ticket) }
        ensures progress { result ≡ progress_at self.now.tickets ticket }
        ensures done { (result ≡ collected.Done) ↔ AreAllCollected self.now ticket }
        ensures clean { (result ≡ collected.Done) → IsDoneClean self.now ticket }
    {
        self.tickets.progress(ticket)
    }

    /// The tickets are the hart's own. Each entry of the TLB is one that the hart's view holds; and
    /// what was collected stays clean, also when the ticket is finished and used again. Nothing is
    /// done: the clauses are the facts.
    pub fn held(&self)
        ensures own { self.now.tickets.hart ≡ self.now.hart }
        ensures within { IsWithin self.now.tlb.entries self.now.view.entries }
        ensures clean { StaysClean self.now }
    {
        self.seat.held();
    }

    /// Looks at the cell of each other hart that an open ticket was posted to and that is not
    /// collected, the lowest first, with one load each. A hart is collected exactly if the word of
    /// the request is found, and then its mailbox has room for one more. How far the ticket is
    /// then: it is done exactly if each named hart is collected in the view. Refused with
    /// `NotOpen`, nothing changes.
    #[tactic(auto, unfolding(crate::specs::Calls::LeadsTo))]
    pub fn collect(&mut self, ticket: u32) -> Result<Collected, Refusal>
        ensures not_open { is_open self.old.tickets ticket ≡ false
            → (result ≡ Err Refusal.NotOpen) × (self.new ≡ self.old) }
        ensures answer { is_open self.old.tickets ticket ≡ true
            → result ≡ Ok (progress_at self.new.tickets ticket) }
        ensures after { is_open self.old.tickets ticket ≡ true
            → IsCollected self.old ticket self.old.setup.harts self.new }
        ensures call { LeadsTo (call.Collect ticket) self.old self.new }
        ensures done { is_open self.old.tickets ticket ≡ true
            → (result ≡ Ok collected.Done) ↔ AreAllCollected self.new ticket }
        ensures clean { result ≡ Ok collected.Done → IsDoneClean self.new ticket }
        ensures same { name_of self.new ≡ name_of self.old }
    {
        if !self.tickets.is_open(ticket) {
            return Err(Refusal::NotOpen);
        }
        for from in 0..self.harts() as u8 {
            self.look(ticket, from);
        }
        Ok(self.progress(ticket))
    }
}
