//! A hart's port.

ghost use Rattle.std.specs.Prelude.{◌≡◌, ◌≢◌, ◌<◌, ◌↔◌, true, false, IfOk, IfErr, OnOk, OnErr, IfSome, IfNone, IsTrue, Some, None, Err, Ok, length, [], ◌∷◌, map, slice_set};
ghost use mathlib.Core.List.{IsPrefix};
ghost use Rattle.std.specs.Option.{option_map};
ghost use Rattle.board.specs.Ends.{after_close};
ghost use Rattle.shoot.specs.declared.TheConstants.{MAX_TICKETS};
ghost use Rattle.shoot.specs.Tickets.{acked_by, is_open, what_at};
ghost use Rattle.views.specs.OrderTurns.{IsAwaiting};
ghost use Rattle.board.specs.Ports.{element, end_of_outbox, end_of_inbox};
ghost use Rattle.board.specs.Answers.{outbox_refusal, outbox_with, inbox_with, known_room, known_waiting, is_closed_to};

use crate::outbox::Outbox;
use crate::receiver::Receiver;
use crate::slot::Slot;
use arrayvec::ArrayVec;
use history::{Refusal, Scope, opening_refusal, posting_refusal};
use pte::What;
use shoot::{Collected, HartSet, NotDone, Request, Tickets};
use spaces::Config;
use std::alloc::Global;
use std::marker::Model;
use std::sync::Arc;
use views::{Memory, Seat, arm, open_order, serve, serve_self};

/// What one hart does, in whatever thread it is. No call waits for another hart, or takes memory.
#[derive(Drop)]
pub struct HartPort {
    pub(crate) config: Arc<Config, Global>,
    pub(crate) memory: Arc<Memory, Global>,
    pub(crate) seat: Seat,
    pub(crate) hart: u8,
    pub(crate) space: u8,
    pub(crate) used: u16,
    pub(crate) tickets: Tickets,
    pub(crate) outboxes: Vec<Option<Outbox>>,
    pub(crate) inboxes: Vec<Option<Receiver>>,
}

impl Model for HartPort {
    ghost use Rattle.std.specs.Prelude.{◌≡◌, map};
    ghost use Rattle.std.specs.Arc.{arc_value};
    ghost use Rattle.std.specs.Option.{option_map};
    ghost use Rattle.spaces.specs.Limits.{MeetsLimits};
    ghost use Rattle.spaces.specs.declared.configuration.TheConstants.{MAX_LIVE_FRAMES};
    ghost use Rattle.history.specs.Setup.{setup_of};
    ghost use Rattle.board.specs.Ports.{PortState, IsPort, end_of_outbox, end_of_inbox};
    ghost use Rattle.board.specs.Seats.{IsSeated};
    ghost use Rattle.board.specs.Ties.{AreCounted, AreTied};

    ghost Value = { PortState };

    ghost view = { λ p. record {
      setup = setup_of (arc_value p.config);
      table = (arc_value p.memory).shared.table_id;
      hart = p.hart;
      space = p.space;
      view = p.seat.view;
      tickets = p.tickets;
      tlb = p.seat.tlb;
      outboxes = p.outboxes.items;
      inboxes = p.inboxes.items;
    } };

    ghost invariant = { λ p. MeetsLimits MAX_LIVE_FRAMES (arc_value p.config)
        × (p.tickets.hart ≡ p.hart)
        × IsPort (record {
          setup = setup_of (arc_value p.config);
          table = (arc_value p.memory).shared.table_id;
          hart = p.hart;
          outs = map (option_map end_of_outbox) p.outboxes.items;
          ins = map (option_map end_of_inbox) p.inboxes.items;
        })
        × IsSeated (arc_value p.memory).shared.table_id (arc_value p.memory).shared.key
        (arc_value p.config) p.seat p.hart p.space p.used
        × AreTied (arc_value p.config) p.seat.view.orders p.tickets
        × AreCounted p.tickets p.outboxes.items };
}

/// The request of a ticket whose number is below 64.
fn request(ticket: u32, what: &What) -> Request
    requires { ticket < MAX_TICKETS }
    ensures { result ≡ record { ticket = ticket; what = what.now } }
{
    Request {
        ticket,
        what: *what,
    }
}

/// Posts by the end that leads to a hart; `NoHart` if the port has no such end. The hart's cell is
/// armed for the request.
#[inline(always)]
fn post_to(
    outbox: &mut Option<Outbox>,
    seat: &Seat,
    config: &Config,
    to: u8,
    request: Request,
) -> Result<(), Refusal>
    requires armed { IsAwaiting config.now seat.now.view request.ticket to request.what }
    ensures refused { (refusal : Refusal) → outbox_refusal outbox.old ≡ Some refusal
        → result ≡ Err refusal }
    ensures full { outbox_refusal outbox.old ≡ None
        → IfErr result (λ refusal. (refusal ≡ Refusal.Full) × (known_room outbox.old ≡ 0)) }
    ensures accepted { OnOk result (outbox.new
        ≡ outbox_with request (known_room outbox.new) outbox.old) }
    ensures unchanged { OnErr result (outbox.new ≡ outbox.old) }
    ensures same { option_map end_of_outbox outbox.new ≡ option_map end_of_outbox outbox.old }
{
    let _seat = seat;
    let _config = config;
    let _to = to;
    let Some(outbox) = outbox else {
        return Err(Refusal::NoHart);
    };
    match outbox.post(request) {
        Ok(()) => Ok(()),
        Err((fault, _)) => Err(posting_refusal(fault)),
    }
}

/// Takes the oldest request that waits in an end. `None`: none waits, or the port has no such end.
#[inline(always)]
fn take_from(inbox: &mut Option<Receiver>) -> Option<Slot>
    ensures taken { IfSome result (λ request. inbox.new
        ≡ inbox_with request (known_waiting inbox.new) inbox.old) }
    ensures oldest { IfSome result (λ request. IsPrefix (known_waiting inbox.old)
        (request ∷ known_waiting inbox.new)) }
    ensures none { IfNone result ((known_waiting inbox.old ≡ []) × (inbox.new ≡ inbox.old)) }
    ensures same { option_map end_of_inbox inbox.new ≡ option_map end_of_inbox inbox.old }
{
    let Some(receiver) = inbox else {
        return None;
    };
    receiver.take()
}

/// Closes an end, if the port has it.
fn close_end(outbox: &mut Option<Outbox>)
    ensures closed { outbox.new ≡ option_map after_close outbox.old }
    ensures same { option_map end_of_outbox outbox.new ≡ option_map end_of_outbox outbox.old }
{
    if let Some(outbox) = outbox {
        outbox.close();
    }
}

/// Whether the port has the end and it is closed.
fn is_closed(outbox: &Option<Outbox>) -> bool
    ensures { result ≡ is_closed_to outbox.now }
{
    match outbox {
        Some(outbox) => outbox.is_closed(),
        None => false,
    }
}

/// Posts to one of the ends. The cell of its hart is armed for the request.
#[inline(always)]
#[tactic(auto, using(crate::proofs::Counts::outboxes_kept, crate::proofs::Counts::there_set, crate::proofs::Counts::put_back))]
fn post_at(
    outboxes: &mut Vec<Option<Outbox>>,
    seat: &Seat,
    config: &Config,
    to: u8,
    request: Request,
) -> Result<(), Refusal>
    requires there { to < length outboxes.old.items }
    requires armed { IsAwaiting config.now seat.now.view request.ticket to request.what }
    ensures refused { (refusal : Refusal)
        → outbox_refusal (element outboxes.old.items to) ≡ Some refusal → result ≡ Err refusal }
    ensures full { outbox_refusal (element outboxes.old.items to) ≡ None
        → IfErr result (λ refusal. (refusal ≡ Refusal.Full)
        × (known_room (element outboxes.old.items to) ≡ 0)) }
    ensures accepted { OnOk result (outboxes.new.items
        ≡ slice_set outboxes.old.items to
        (outbox_with request (known_room (element outboxes.new.items to))
        (element outboxes.old.items to))) }
    ensures unchanged { OnErr result (outboxes.new.items ≡ outboxes.old.items) }
    ensures same { map (option_map end_of_outbox) outboxes.new.items
        ≡ map (option_map end_of_outbox) outboxes.old.items }
{
    let outbox = &mut outboxes[usize::from(to)];
    post_to(outbox, seat, config, to, request)
}

/// Why an end refuses a post, whatever its ring has room for.
#[inline(always)]
fn refusal_of_end(outbox: &Option<Outbox>) -> Option<Refusal>
    ensures { result ≡ outbox_refusal outbox.now }
{
    let Some(outbox) = outbox else {
        return Some(Refusal::NoHart);
    };
    match outbox.post_fault() {
        Some(fault) => Some(posting_refusal(fault)),
        None => None,
    }
}

/// Why one of the ends refuses a post, whatever its ring has room for.
#[inline(always)]
#[tactic(auto, using(crate::proofs::Counts::at_index))]
fn refusal_at(outboxes: &Vec<Option<Outbox>>, to: u8) -> Option<Refusal>
    requires { to < length outboxes.now.items }
    ensures { result ≡ outbox_refusal (element outboxes.now.items to) }
{
    refusal_of_end(&outboxes[usize::from(to)])
}

/// Takes from one of the ends.
#[inline(always)]
#[tactic(auto, using(crate::proofs::Counts::inboxes_kept, crate::proofs::Counts::there_set, crate::proofs::Counts::put_back))]
fn take_at(inboxes: &mut Vec<Option<Receiver>>, from: u8) -> Option<Slot>
    requires { from < length inboxes.old.items }
    ensures taken { IfSome result (λ request. inboxes.new.items
        ≡ slice_set inboxes.old.items from
        (inbox_with request (known_waiting (element inboxes.new.items from))
        (element inboxes.old.items from))) }
    ensures oldest { IfSome result (λ request.
        IsPrefix (known_waiting (element inboxes.old.items from))
        (request ∷ known_waiting (element inboxes.new.items from))) }
    ensures none { IfNone result (known_waiting (element inboxes.old.items from) ≡ []) }
    ensures unchanged { IfNone result (inboxes.new.items ≡ inboxes.old.items) }
    ensures same { map (option_map end_of_inbox) inboxes.new.items
        ≡ map (option_map end_of_inbox) inboxes.old.items }
{
    let inbox = &mut inboxes[usize::from(from)];
    take_from(inbox)
}

/// Closes one of the ends.
#[tactic(auto, using(crate::proofs::Counts::outboxes_kept, crate::proofs::Counts::there_set, crate::proofs::Counts::put_back))]
fn close_at(outboxes: &mut Vec<Option<Outbox>>, to: u8)
    requires { to < length outboxes.old.items }
    ensures closed { outboxes.new.items
        ≡ slice_set outboxes.old.items to (option_map after_close (element outboxes.old.items to)) }
    ensures same { map (option_map end_of_outbox) outboxes.new.items
        ≡ map (option_map end_of_outbox) outboxes.old.items }
{
    let outbox = &mut outboxes[usize::from(to)];
    close_end(outbox);
}

/// Whether one of the ends is closed.
#[tactic(auto, using(crate::proofs::Counts::at_index))]
fn is_closed_at(outboxes: &Vec<Option<Outbox>>, to: u8) -> bool
    requires { to < length outboxes.now.items }
    ensures { result ≡ is_closed_to (element outboxes.now.items to) }
{
    is_closed(&outboxes[usize::from(to)])
}

/// The hart acknowledges an open ticket of its own, if that names it.
fn acknowledge_own(tickets: &mut Tickets, ticket: u32, hart: u8)
    requires { IsTrue (is_open tickets.old ticket) }
    ensures open { IsTrue (is_open tickets.new ticket) }
    ensures after { tickets.new ≡ acked_by tickets.old ticket hart }
    ensures hart { tickets.new.hart ≡ tickets.old.hart }
{
    if tickets.names(ticket, hart) {
        tickets.acked(ticket, hart);
    }
}

impl HartPort {
    ghost use Rattle.history.specs.Due.{are_harts, are_pair};
    ghost use Rattle.history.specs.Orders.{scope_request};
    ghost use Rattle.shoot.specs.HartSet.{harts_in};
    ghost use Rattle.shoot.specs.Tickets.{ticket_posted, names};
    ghost use Rattle.std.specs.Arc.{arc_value};
    ghost use Rattle.spaces.specs.Limits.{MeetsLimits};
    ghost use Rattle.spaces.specs.declared.configuration.TheConstants.{MAX_LIVE_FRAMES};
    ghost use Rattle.history.specs.Setup.{setup_of};
    ghost use Rattle.board.specs.Rows.{IsInRow, IsOutRow};
    ghost use Rattle.board.specs.Seats.{IsNewSeat};
    ghost use Rattle.shoot.specs.declared.tickets.Collected.TheVariants as collected;
    ghost use Rattle.board.specs.Collects.{AreAllCollected};
    ghost use Rattle.board.specs.Promises.{IsDoneClean};
    ghost use Rattle.board.specs.Together.{KnowsItself};
    ghost use Rattle.board.specs.Calls as call;
    ghost use Rattle.board.specs.Calls.{LeadsTo};
    ghost use Rattle.board.specs.Ports.{inbox_from, IsNew, IsPort, name_of, outbox_to};
    ghost use Rattle.board.specs.Answers.{ack_self_answer, after_ack_self, after_close_to, after_finish_of, after_flush, after_no_post, after_post, after_serve, close_answer, finish_answer, flush_answer, flush_refusal, is_there, post_refusal, request_of, ticket_refusal};

    /// A port of a hart that has done nothing yet.
    pub(crate) fn new(
        config: Arc<Config, Global>,
        memory: Arc<Memory, Global>,
        seat: Seat,
        hart: u8,
        outboxes: Vec<Option<Outbox>>,
        inboxes: Vec<Option<Receiver>>,
    ) -> HartPort
        requires limits { MeetsLimits MAX_LIVE_FRAMES (arc_value config) }
        requires hart { hart < (arc_value config).harts }
        requires seat { IsNewSeat (arc_value memory).shared.table_id (arc_value memory).shared.key
            (arc_value config) hart seat }
        requires outboxes { IsOutRow (arc_value config).capacity hart (arc_value config).harts
            outboxes.items }
        requires inboxes { IsInRow (arc_value config).capacity hart (arc_value config).harts
            inboxes.items }
        ensures setup { result.setup ≡ setup_of (arc_value config) }
        ensures table { result.table ≡ (arc_value memory).shared.table_id }
        ensures hart { result.hart ≡ hart }
        ensures ends { (result.outboxes ≡ outboxes.items) × (result.inboxes ≡ inboxes.items) }
        ensures port { IsPort (name_of result) }
        ensures new { IsNew result }
    {
        HartPort {
            config,
            memory,
            seat,
            hart,
            space: 0,
            used: 0,
            tickets: Tickets::new(hart),
            outboxes,
            inboxes,
        }
    }

    /// What the port is made of: its hart's seat, the words that it steps on, and the ends by which
    /// the hart posts and takes.
    pub(crate) fn into_parts(
        self,
    ) -> (
        Seat,
        Arc<Memory, Global>,
        Vec<Option<Outbox>>,
        Vec<Option<Receiver>>,
    )
        ensures seat { (result.0.table_id ≡ self.table) × (result.0.view ≡ self.view) }
        ensures words { ((arc_value result.1).shared.table_id ≡ self.table)
            × (0 < self.table.words) }
        ensures ends { (result.2.items ≡ self.outboxes) × (result.3.items ≡ self.inboxes) }
        ensures own { KnowsItself self }
    {
        self.seat.held();
        let HartPort {
            seat,
            memory,
            outboxes,
            inboxes,
            ..
        } = self;
        (seat, memory, outboxes, inboxes)
    }

    /// How many harts there are.
    #[inline(always)]
    pub(crate) fn harts(&self) -> u16
        ensures harts { result ≡ self.now.setup.harts }
        ensures own { self.now.hart < result }
        ensures outboxes { length self.now.outboxes ≡ result }
        ensures inboxes { length self.now.inboxes ≡ result }
        ensures spares { length self.now.setup.layout.spares ≡ result }
    {
        let _ = &self.outboxes;
        self.config.harts
    }

    /// Whether the board has a hart of this number, and it is not the port's own.
    #[inline(always)]
    pub(crate) fn is_other(&self, hart: u8) -> bool
        ensures pair { result ≡ are_pair self.now.setup self.now.hart hart }
        ensures outbox { IsTrue result → hart < length self.now.outboxes }
        ensures inbox { IsTrue result → hart < length self.now.inboxes }
        ensures spare { IsTrue result → hart < length self.now.setup.layout.spares }
        ensures other { IsTrue result → hart ≢ self.now.hart }
    {
        u16::from(hart) < self.harts() && hart != self.hart
    }

    /// What a flush of a scope asks harts to drop.
    fn what(&self, scope: Scope) -> Option<What>
        ensures some { IfSome result (λ what. IsTrue (is_there self.now.setup scope)
            × (what ≡ scope_request self.now.setup [] scope)) }
        ensures none { IfNone result (is_there self.now.setup scope ≡ false) }
    {
        match scope {
            Scope::All => Some(What::All),
            Scope::Space(number) => {
                let space = self.config.spaces.get(usize::from(number))?;
                Some(What::SpaceOf(space.asid))
            }
        }
    }

    /// The harts of a byte, in which bit h stands for hart h, if the board has all of them.
    pub(crate) fn named_harts(&self, named: u8) -> Option<HartSet>
        ensures some { IfSome result (λ set.
            IsTrue (are_harts self.now.setup named) × (set ≡ harts_in named)) }
        ensures none { IfNone result (are_harts self.now.setup named ≡ false) }
    {
        if u16::from(named) < 1 << self.config.harts {
            Some(HartSet::from(named))
        } else {
            None
        }
    }

    /// Opens a ticket for a space or for everything. Bit h of `named` stands for hart h. Refused
    /// with `NoHart`, `NoSpace`, `HomeNotNamed` or `NoTicket`, the first that applies, nothing
    /// changes.
    #[tactic(auto, unfolding(crate::specs::Calls::LeadsTo))]
    pub fn flush(&mut self, scope: Scope, named: u8) -> Result<u32, Refusal>
        ensures answer { result ≡ flush_answer self.old scope named }
        ensures after { self.new ≡ after_flush self.old scope named }
        ensures call { LeadsTo (call.Flush scope named) self.old self.new }
        ensures same { name_of self.new ≡ name_of self.old }
    {
        let Some(harts) = self.named_harts(named) else {
            return Err(Refusal::NoHart);
        };
        let Some(what) = self.what(scope) else {
            return Err(Refusal::NoSpace);
        };
        let HartPort {
            config,
            memory,
            seat,
            hart,
            tickets,
            ..
        } = self;
        let ticket = match tickets.open_for(what, &harts) {
            Ok(ticket) => ticket,
            Err(fault) => return Err(opening_refusal(fault)),
        };
        let request = request(ticket, &what);
        open_order(&memory.shared, seat, config, *hart, &request);
        Ok(ticket)
    }

    /// Frees the number of a ticket whose named harts are all collected. Refused with `NotOpen`,
    /// or with `NotDone` while one is not collected, nothing changes.
    #[tactic(auto, unfolding(crate::specs::Calls::LeadsTo))]
    pub fn finish(&mut self, ticket: u32) -> Result<(), Refusal>
        ensures answer { result ≡ finish_answer self.old ticket }
        ensures after { self.new ≡ after_finish_of self.old ticket }
        ensures call { LeadsTo (call.Finish ticket) self.old self.new }
        ensures same { name_of self.new ≡ name_of self.old }
    {
        if !self.tickets.is_open(ticket) {
            return Err(Refusal::NotOpen);
        }
        match self.tickets.finish(ticket) {
            Ok(()) => Ok(()),
            Err(NotDone) => Err(Refusal::NotDone),
        }
    }

    /// Serves an own ticket's request on the own TLB, and counts as collected. How far the ticket
    /// is then: it is done exactly if each named hart is collected in the view. Refused with
    /// `NotOpen`, nothing changes.
    #[tactic(auto, unfolding(crate::specs::Calls::LeadsTo))]
    pub fn ack_self(&mut self, ticket: u32) -> Result<Collected, Refusal>
        ensures answer { result ≡ ack_self_answer self.old ticket }
        ensures after { self.new ≡ after_ack_self self.old ticket }
        ensures call { LeadsTo (call.AckSelf ticket) self.old self.new }
        ensures done { is_open self.old.tickets ticket ≡ true
            → (result ≡ Ok collected.Done) ↔ AreAllCollected self.new ticket }
        ensures clean { result ≡ Ok collected.Done → IsDoneClean self.new ticket }
        ensures same { name_of self.new ≡ name_of self.old }
    {
        if !self.tickets.is_open(ticket) {
            return Err(Refusal::NotOpen);
        }
        let request = Request {
            ticket,
            what: self.tickets.what(ticket),
        };
        let HartPort {
            config,
            memory,
            seat,
            hart,
            tickets,
            ..
        } = self;
        serve_self(&memory.shared, seat, config, *hart, &request);
        acknowledge_own(tickets, ticket, *hart);
        Ok(self.progress(ticket))
    }

    /// The request of an open ticket for another hart, to whom it was not posted yet.
    #[inline(always)]
    fn request_to(&self, ticket: u32, to: u8) -> Result<Request, Refusal>
        ensures refused { IfErr result (λ refusal. ticket_refusal self.now ticket to
            ≡ Some refusal) }
        ensures request { ticket_refusal self.now ticket to ≡ None
            → result ≡ Ok (request_of self.now.tickets ticket) }
        ensures allowed { OnOk result (ticket_refusal self.now ticket to ≡ None) }
        ensures ticket { IfOk result (λ request. request.ticket ≡ ticket) }
        ensures what { IfOk result (λ request. what_at self.now.tickets ticket
            ≡ Some request.what) }
        ensures names { OnOk result (IsTrue (names self.now.tickets ticket to)) }
        ensures there { OnOk result (to < length self.now.outboxes) }
        ensures spare { OnOk result (to < length self.now.setup.layout.spares) }
        ensures other { OnOk result (to ≢ self.now.hart) }
        ensures unposted { OnOk result (ticket_posted self.now.tickets ticket to ≡ false) }
    {
        if !self.is_other(to) {
            return Err(Refusal::NoHart);
        }
        if !self.tickets.is_open(ticket) {
            return Err(Refusal::NotOpen);
        }
        if !self.tickets.names(ticket, to) {
            return Err(Refusal::NotNamed);
        }
        if self.tickets.is_posted(ticket, to) {
            return Err(Refusal::AlreadyPosted);
        }
        Ok(Request {
            ticket,
            what: self.tickets.what(ticket),
        })
    }

    /// Arms the cell of another hart that an open ticket names, and then posts the ticket's request
    /// to it. Refused with `NoHart` (also for this hart), `NotOpen`, `NotNamed`, `AlreadyPosted`,
    /// `Closed` or `Full`, the first that applies, nothing changes. `Full` also where the ring
    /// between the harts has no place that this end knows to be free; then the cell is armed
    /// nonetheless.
    #[tactic(auto, using(crate::proofs::Counts::outboxes_kept), unfolding(crate::specs::Calls::LeadsTo))]
    pub fn post(&mut self, ticket: u32, to: u8) -> Result<(), Refusal>
        ensures refused { (refusal : Refusal) → post_refusal self.old ticket to ≡ Some refusal
            → result ≡ Err refusal }
        ensures full { post_refusal self.old ticket to ≡ None
            → IfErr result (λ refusal. (refusal ≡ Refusal.Full)
            × (known_room (outbox_to self.old to) ≡ 0)) }
        ensures accepted { OnOk result (self.new
            ≡ after_post self.old ticket to (known_room (outbox_to self.new to))) }
        ensures unchanged { OnErr result (self.new ≡ after_no_post self.old ticket to) }
        ensures call { LeadsTo (call.Post ticket to result) self.old self.new }
        ensures same { name_of self.new ≡ name_of self.old }
    {
        let request = self.request_to(ticket, to)?;
        if let Some(refusal) = refusal_at(&self.outboxes, to) {
            return Err(refusal);
        }
        let HartPort {
            config,
            memory,
            seat,
            hart,
            tickets,
            outboxes,
            ..
        } = self;
        arm(&memory.shared, seat, config, *hart, ticket, to);
        post_at(outboxes, seat, config, to, request)?;
        tickets.posted(ticket, to);
        Ok(())
    }

    /// Takes the oldest request of another hart that came through, drops what it names from the own
    /// TLB, and then stores the acknowledgement. Refused with `NoHart` (also for this hart), or
    /// with `Empty`, nothing changes; `Empty` only where this end knew of no request that waits.
    #[tactic(auto, using(crate::proofs::Counts::inboxes_kept), unfolding(crate::specs::Calls::LeadsTo))]
    pub fn serve(&mut self, from: u8) -> Result<Request, Refusal>
        ensures no_hart { are_pair self.old.setup self.old.hart from ≡ false
            → result ≡ Err Refusal.NoHart }
        ensures empty { are_pair self.old.setup self.old.hart from ≡ true
            → IfErr result (λ refusal. (refusal ≡ Refusal.Empty)
            × (known_waiting (inbox_from self.old from) ≡ [])) }
        ensures taken { IfOk result (λ request. self.new
            ≡ after_serve self.old from request (known_waiting (inbox_from self.new from))) }
        ensures oldest { IfOk result (λ request. IsPrefix (known_waiting (inbox_from self.old from))
            (request ∷ known_waiting (inbox_from self.new from))) }
        ensures unchanged { OnErr result (self.new ≡ self.old) }
        ensures call { LeadsTo (call.Serve from result) self.old self.new }
        ensures same { name_of self.new ≡ name_of self.old }
    {
        if !self.is_other(from) {
            return Err(Refusal::NoHart);
        }
        let Some(slot) = take_at(&mut self.inboxes, from) else {
            return Err(Refusal::Empty);
        };
        let request = slot.request();
        let HartPort {
            config,
            memory,
            seat,
            hart,
            ..
        } = self;
        serve(&memory.shared, seat, config, *hart, from, &request);
        Ok(request)
    }

    /// Closes the mailbox to another hart: later posts are refused, and what waits stays. Refused
    /// with `NoHart` (also for this hart), or with `Closed` if it was closed before, nothing
    /// changes.
    #[tactic(auto, using(crate::proofs::Counts::outboxes_kept), unfolding(crate::specs::Calls::LeadsTo))]
    pub fn close_to(&mut self, to: u8) -> Result<(), Refusal>
        ensures answer { result ≡ close_answer self.old to }
        ensures after { self.new ≡ after_close_to self.old to }
        ensures call { LeadsTo (call.CloseTo to) self.old self.new }
        ensures same { name_of self.new ≡ name_of self.old }
    {
        if !self.is_other(to) {
            return Err(Refusal::NoHart);
        }
        if is_closed_at(&self.outboxes, to) {
            return Err(Refusal::Closed);
        }
        close_at(&mut self.outboxes, to);
        Ok(())
    }
}
