//! Shootdowns: requests that go from mailbox to mailbox, and the tickets that count the answers.

ghost use Rattle.std.specs.Prelude.{◌≡◌, ◌<◌, ◌&&◌, false, true, length, IsTrue, IfOk, IfErr, OnOk, OnErr, IfSome, IfNone, slice_set, None, Some};
ghost use Rattle.shoot.specs.Mailbox.{can_release, post_fault, first_waiting, after_post, after_take, after_release};
ghost use Rattle.shoot.specs.Tickets.{acked_by, is_done_at, is_open, names, progress_at, after_posted, after_collect, after_finish};
ghost use Rattle.tlb.specs.Service.{after_service};
ghost use Rattle.history.specs.Turns.{is_progress};
ghost use Rattle.history.specs.declared.refusal.Refusal.TheVariants.{NotDone};
ghost use Rattle.history.specs.declared.event.Event.TheVariants.{Post, Take, ServeFence, Ack, AckSelf, Collect, Finish, Close};
ghost use Rattle.history.specs.declared.reply.Reply.TheVariants as reply;
ghost use Rattle.stepcore.specs.State.{hart_at, tickets_at, mailbox_at, mailbox_index};
ghost use Rattle.stepcore.specs.Answers.{reply_to, box_answer, next_answer, progress_reply};
ghost use Rattle.stepcore.specs.Changes.{Answers, is_accepted, is_collectable, put_mailbox, what_in};

use crate::conditions::refuse;
use crate::machine::Machine;
use crate::serving::Serving;
use history::{Refusal, Reply, posting_refusal};
use pte::What;
use shoot::{Collected, Request, Tickets};

/// The reply that a ticket is done, or which harts it waits for.
fn progress_reply(collected: Collected) -> Reply
    ensures reply { result ≡ progress_reply collected }
    ensures progress { is_progress result ≡ true }
    ensures accepted { is_accepted result ≡ true }
{
    match collected {
        Collected::Done => Reply::Done,
        Collected::Waiting(harts) => Reply::Waiting(harts),
    }
}

/// Marks a ticket as acknowledged by a hart, if it is open and names the hart.
fn mark_acknowledged(tickets: &mut Tickets, ticket: u32, hart: u8)
    ensures { tickets.new ≡ acked_by tickets.old ticket hart }
{
    if tickets.names(ticket, hart) {
        tickets.acked(ticket, hart);
    }
}

impl Machine {
    /// An open ticket was posted to a hart that it names.
    fn mark_posted(&mut self, hart: u8, ticket: u32, to: u8)
        requires hart { hart < length self.old.harts }
        requires names { IsTrue (names (tickets_at self.old hart) ticket to) }
        ensures { self.new ≡ record self.old {
          tickets = slice_set self.old.tickets hart
              (after_posted (tickets_at self.old hart) ticket to);
        } }
    {
        let tickets = &mut self.tickets[usize::from(hart)];
        tickets.posted(ticket, to);
    }

    /// Posts a request, if the mailbox takes it. At a refusal nothing changes.
    fn send(&mut self, sender: u8, receiver: u8, request: Request) -> Result<(), Refusal>
        requires sender { sender < length self.old.harts }
        requires receiver { receiver < length self.old.harts }
        ensures sent { OnOk result
            (box_answer (post_fault (mailbox_at self.old sender receiver)) ≡ reply.Ok) }
        ensures refused { IfErr result (λ refusal.
            box_answer (post_fault (mailbox_at self.old sender receiver)) ≡ reply.Refused refusal) }
        ensures after { OnOk result (self.new ≡ record self.old {
          mailboxes =
              slice_set self.old.mailboxes (mailbox_index sender receiver)
              (after_post (mailbox_at self.old sender receiver) request);
        }) }
        ensures unchanged { OnErr result (self.new ≡ self.old) }
    {
        let place = self.mailbox_place(sender, receiver);
        let mailbox = &mut self.mailboxes[place];
        match mailbox.post(request) {
            Ok(()) => Ok(()),
            Err((fault, _)) => Err(posting_refusal(fault)),
        }
    }

    /// Takes the oldest request out of a mailbox, if one waits.
    fn receive(&mut self, sender: u8, receiver: u8) -> Option<Request>
        requires sender { sender < length self.old.harts }
        requires receiver { receiver < length self.old.harts }
        ensures oldest { result ≡ first_waiting (mailbox_at self.old sender receiver) }
        ensures after { IfSome result (λ request. self.new ≡ record self.old {
          mailboxes =
              slice_set self.old.mailboxes (mailbox_index sender receiver)
              (after_take (mailbox_at self.old sender receiver));
        }) }
        ensures unchanged { IfNone result (self.new ≡ self.old) }
    {
        let place = self.mailbox_place(sender, receiver);
        let mailbox = &mut self.mailboxes[place];
        mailbox.take()
    }

    /// A hart begins to serve a request that another hart posted.
    fn begin_service(&mut self, hart: u8, from: u8, request: Request)
        requires { hart < length self.old.harts }
        ensures { self.new ≡ record self.old {
          harts = slice_set self.old.harts hart
              (record (hart_at self.old hart) {
                serving = Some (record { from = from; request = request; fenced = false });
              });
        } }
    {
        let this = &mut self.harts[usize::from(hart)];
        this.take(from, request);
    }

    /// Ends a hart's service: it then serves no request.
    fn end_service(&mut self, hart: u8)
        requires { hart < length self.old.harts }
        ensures { self.new ≡ record self.old {
          harts = slice_set self.old.harts hart
              (record (hart_at self.old hart) { serving = None });
        } }
    {
        let this = &mut self.harts[usize::from(hart)];
        this.end_service();
    }

    /// A hart acknowledges what it served, to the hart that posted it, if that hart exists.
    fn acknowledge(&mut self, serving: Serving, hart: u8)
        ensures { self.new ≡ record self.old {
          tickets = slice_set self.old.tickets serving.from
              (acked_by (tickets_at self.old serving.from) serving.request.ticket hart);
        } }
    {
        let sender = usize::from(serving.from);
        if sender < self.tickets.len() {
            mark_acknowledged(&mut self.tickets[sender], serving.request.ticket, hart);
        }
    }

    /// Makes room in a mailbox for one more request.
    fn release(&mut self, sender: u8, receiver: u8)
        requires sender { sender < length self.old.harts }
        requires receiver { receiver < length self.old.harts }
        requires taken { IsTrue (can_release (mailbox_at self.old sender receiver)) }
        ensures { self.new ≡ record self.old {
          mailboxes =
              slice_set self.old.mailboxes (mailbox_index sender receiver)
              (after_release (mailbox_at self.old sender receiver));
        } }
    {
        let place = self.mailbox_place(sender, receiver);
        let mailbox = &mut self.mailboxes[place];
        mailbox.release();
    }

    /// The request of an open ticket for another hart, to whom it was not posted yet.
    fn request_to(&self, hart: u8, ticket: u32, to: u8) -> Result<Request, Refusal>
        ensures reply { OnOk result (reply_to self.now (Post hart ticket to)
            ≡ box_answer (post_fault (mailbox_at self.now hart to))) }
        ensures hart { OnOk result (hart < length self.now.harts) }
        ensures to { OnOk result (to < length self.now.harts) }
        ensures names { OnOk result (IsTrue (names (tickets_at self.now hart) ticket to)) }
        ensures request { IfOk result (λ request. request
            ≡ record { ticket = ticket; what = what_in (tickets_at self.now hart) ticket }) }
        ensures refused { IfErr result (λ refusal.
            reply_to self.now (Post hart ticket to) ≡ reply.Refused refusal) }
    {
        self.needs_pair(hart, to)?;
        let tickets = self.tickets(hart);
        refuse(!tickets.is_open(ticket), Refusal::NotOpen)?;
        refuse(!tickets.names(ticket, to), Refusal::NotNamed)?;
        refuse(tickets.is_posted(ticket, to), Refusal::AlreadyPosted)?;
        Ok(Request {
            ticket,
            what: tickets.what(ticket),
        })
    }

    /// Puts the request of an open ticket into the mailbox to another hart.
    pub(crate) fn post(&mut self, hart: u8, ticket: u32, to: u8) -> Result<Reply, Refusal>
        ensures { Answers self.old (Post hart ticket to) result self.new }
    {
        let request = self.request_to(hart, ticket, to)?;
        self.send(hart, to, request)?;
        self.mark_posted(hart, ticket, to);
        Ok(Reply::Ok)
    }

    /// Whether a hart may take a request of another hart, if one waits.
    fn may_take(&self, hart: u8, from: u8) -> Result<(), Refusal>
        ensures reply { OnOk result (reply_to self.now (Take hart from)
            ≡ next_answer (first_waiting (mailbox_at self.now from hart))) }
        ensures hart { OnOk result (hart < length self.now.harts) }
        ensures from { OnOk result (from < length self.now.harts) }
        ensures refused { IfErr result (λ refusal.
            reply_to self.now (Take hart from) ≡ reply.Refused refusal) }
    {
        self.needs_pair(hart, from)?;
        let this = self.hart(hart);
        refuse(this.is_walking(), Refusal::Walking)?;
        refuse(this.is_serving(), Refusal::Serving)
    }

    /// Takes the oldest request out of the mailbox from another hart.
    pub(crate) fn take(&mut self, hart: u8, from: u8) -> Result<Reply, Refusal>
        ensures { Answers self.old (Take hart from) result self.new }
    {
        self.may_take(hart, from)?;
        let Some(request) = self.receive(from, hart) else {
            return Err(Refusal::Empty);
        };
        self.begin_service(hart, from, request);
        Ok(Reply::Taken(request))
    }

    /// Fences the hart's TLB as the request that it serves asks.
    pub(crate) fn serve_fence(&mut self, hart: u8) -> Result<Reply, Refusal>
        ensures { Answers self.old (ServeFence hart) result self.new }
    {
        self.needs_hart(hart)?;
        refuse(self.hart(hart).is_walking(), Refusal::Walking)?;
        refuse(!self.hart(hart).is_serving(), Refusal::NotServing)?;
        let this = &mut self.harts[usize::from(hart)];
        this.serve_fence();
        Ok(Reply::Ok)
    }

    /// Acknowledges the request that the hart serves.
    pub(crate) fn ack(&mut self, hart: u8) -> Result<Reply, Refusal>
        ensures { Answers self.old (Ack hart) result self.new }
    {
        self.needs_hart(hart)?;
        let Some(serving) = self.hart(hart).serving() else {
            return Err(Refusal::NotServing);
        };
        refuse(!serving.fenced, Refusal::NotFenced)?;
        self.end_service(hart);
        self.acknowledge(serving, hart);
        Ok(Reply::Ok)
    }

    /// A hart drops what one of its own tickets asks to drop.
    fn drop_own(&mut self, hart: u8, what: &What)
        requires { hart < length self.old.harts }
        ensures { self.new ≡ record self.old {
          harts = slice_set self.old.harts hart
              (record (hart_at self.old hart) {
                entries = after_service (hart_at self.old hart).entries what.now;
              });
        } }
    {
        let this = &mut self.harts[usize::from(hart)];
        this.serve(what);
    }

    /// A hart acknowledges an open ticket of its own, if the ticket names it. Answers how far the
    /// ticket is then.
    fn acknowledge_own(&mut self, hart: u8, ticket: u32) -> Collected
        requires hart { hart < length self.old.harts }
        requires open { IsTrue (is_open (tickets_at self.old hart) ticket) }
        ensures answer { result
            ≡ progress_at (acked_by (tickets_at self.old hart) ticket hart) ticket }
        ensures after { self.new ≡ record self.old {
          tickets = slice_set self.old.tickets hart
              (acked_by (tickets_at self.old hart) ticket hart);
        } }
    {
        let tickets = &mut self.tickets[usize::from(hart)];
        mark_acknowledged(tickets, ticket, hart);
        tickets.progress(ticket)
    }

    /// Serves an own ticket's request on the own TLB.
    pub(crate) fn ack_self(&mut self, hart: u8, ticket: u32) -> Result<Reply, Refusal>
        ensures { Answers self.old (AckSelf hart ticket) result self.new }
    {
        self.needs_hart(hart)?;
        refuse(!self.tickets(hart).is_open(ticket), Refusal::NotOpen)?;
        refuse(self.hart(hart).is_walking(), Refusal::Walking)?;
        let what = self.tickets(hart).what(ticket);
        self.drop_own(hart, &what);
        let collected = self.acknowledge_own(hart, ticket);
        Ok(progress_reply(collected))
    }

    /// Whether a hart has acknowledged the ticket and is not collected yet.
    fn is_collectable(&self, hart: u8, ticket: u32, from: u8) -> bool
        requires hart { hart < length self.now.harts }
        requires open { IsTrue (is_open (tickets_at self.now hart) ticket) }
        ensures { result ≡ is_collectable (tickets_at self.now hart) ticket from }
    {
        let tickets = self.tickets(hart);
        tickets.is_acked(ticket, from) && !tickets.is_collected(ticket, from)
    }

    /// Makes room in a mailbox for one more request, if the acknowledgement of one is collected
    /// now.
    fn make_room(&mut self, sender: u8, receiver: u8, is_collected: bool)
        requires sender { sender < length self.old.harts }
        requires receiver { receiver < length self.old.harts }
        ensures { self.new ≡ record self.old {
          mailboxes = put_mailbox self.old sender receiver
              (is_collected && can_release (mailbox_at self.old sender receiver))
              (after_release (mailbox_at self.old sender receiver));
        } }
    {
        if is_collected && self.mailbox(sender, receiver).can_release() {
            self.release(sender, receiver);
        }
    }

    /// Marks the acknowledgement of a hart that an open ticket names as collected, if there is one.
    fn collect_named(&mut self, hart: u8, ticket: u32, from: u8) -> Collected
        requires hart { hart < length self.old.harts }
        requires names { IsTrue (names (tickets_at self.old hart) ticket from) }
        ensures answer { result
            ≡ progress_at (after_collect (tickets_at self.old hart) ticket from) ticket }
        ensures after { self.new ≡ record self.old {
          tickets = slice_set self.old.tickets hart
              (after_collect (tickets_at self.old hart) ticket from);
        } }
    {
        let tickets = &mut self.tickets[usize::from(hart)];
        tickets.collect(ticket, from)
    }

    /// Collects the acknowledgement of another hart, if there is one.
    pub(crate) fn collect(&mut self, hart: u8, ticket: u32, from: u8) -> Result<Reply, Refusal>
        ensures { Answers self.old (Collect hart ticket from) result self.new }
    {
        self.needs_pair(hart, from)?;
        refuse(!self.tickets(hart).is_open(ticket), Refusal::NotOpen)?;
        refuse(!self.tickets(hart).names(ticket, from), Refusal::NotNamed)?;
        let is_collected = self.is_collectable(hart, ticket, from);
        self.make_room(hart, from, is_collected);
        Ok(progress_reply(self.collect_named(hart, ticket, from)))
    }

    /// Frees the number of an open ticket, if its named harts are all collected. At a refusal
    /// nothing changes.
    fn free_ticket(&mut self, hart: u8, ticket: u32) -> Result<(), Refusal>
        requires hart { hart < length self.old.harts }
        requires open { IsTrue (is_open (tickets_at self.old hart) ticket) }
        ensures done { OnOk result (is_done_at (tickets_at self.old hart) ticket ≡ true) }
        ensures refuses { IfErr result (λ why. (why ≡ NotDone)
            × (is_done_at (tickets_at self.old hart) ticket ≡ false)) }
        ensures after { OnOk result (self.new ≡ record self.old {
          tickets =
              slice_set self.old.tickets hart (after_finish (tickets_at self.old hart) ticket);
        }) }
        ensures unchanged { OnErr result (self.new ≡ self.old) }
    {
        let tickets = &mut self.tickets[usize::from(hart)];
        refuse(tickets.finish(ticket).is_err(), Refusal::NotDone)
    }

    /// Frees the number of a ticket whose named harts are all collected.
    pub(crate) fn finish(&mut self, hart: u8, ticket: u32) -> Result<Reply, Refusal>
        ensures { Answers self.old (Finish hart ticket) result self.new }
    {
        self.needs_hart(hart)?;
        refuse(!self.tickets(hart).is_open(ticket), Refusal::NotOpen)?;
        self.free_ticket(hart, ticket)?;
        self.end_retirement(hart, ticket);
        Ok(Reply::Ok)
    }

    /// Closes the mailbox to another hart.
    pub(crate) fn close(&mut self, hart: u8, to: u8) -> Result<Reply, Refusal>
        ensures { Answers self.old (Close hart to) result self.new }
    {
        self.needs_pair(hart, to)?;
        refuse(self.mailbox(hart, to).is_closed(), Refusal::Closed)?;
        let place = self.mailbox_place(hart, to);
        let mailbox = &mut self.mailboxes[place];
        mailbox.close();
        Ok(Reply::Ok)
    }
}
