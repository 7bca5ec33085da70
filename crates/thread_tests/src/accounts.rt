//! What the steps and answers of one hart of eight say of its tickets, its pages and its mailboxes,
//! and whether each answer is one that may be given.

use crate::calls::{Answer, INVALID};
use crate::live_calls::answer_of;
use crate::scripts::{BASES, bit, ppn_of};
use harts::LiveReply;
use history::{LiveStep, Refusal, Scope};
use pte::{Page, What};
use shoot::Request;
use std::alloc::Global;

/// The version of a page that an unmapping took away.
#[derive(Clone, Copy)]
pub(crate) struct Gone {
    pub(crate) page: u8,
    pub(crate) version: u16,
}

/// An open ticket.
#[derive(Clone, Copy)]
pub(crate) struct Order {
    pub(crate) what: What,
    pub(crate) gone: Option<Gone>,
    named: u8,
    posted: u8,
    awaited: u8,
}

/// A request that was accepted for a hart, or acknowledged by the own one.
#[derive(Clone, Copy)]
pub(crate) struct Asked {
    pub(crate) to: u8,
    pub(crate) ticket: u32,
    pub(crate) order: Order,
}

impl Asked {
    /// Whether it is a request of that ticket and for the same.
    pub(crate) fn is_same(&self, request: Option<&Request>) -> bool {
        match request {
            Some(request) => self.ticket == request.ticket && self.order.what == request.what,
            None => false,
        }
    }
}

#[derive(Drop)]
pub(crate) struct Account {
    hart: u8,
    orders: Vec<Option<Order>>,
    closed: u8,
    space: u8,
    mapped: [Option<u16>; 2],
    /// The pages with their versions that were ever mapped.
    pub(crate) maps: Vec<(u8, u16)>,
    pub(crate) asked: Vec<Asked>,
    /// Whether there was memory for all of it.
    is_whole: bool,
}

/// The number of a page.
pub(crate) fn number_of(va: u64) -> Option<u8> {
    if va / 0x1000 == BASES[0] / 0x1000 {
        Some(0)
    } else if va / 0x1000 == BASES[1] / 0x1000 {
        Some(1)
    } else {
        None
    }
}

/// The awaited harts that an answer names, if it is one to a collection.
pub(crate) fn awaited_in(answer: &Answer) -> Option<u8> {
    match *answer {
        Answer::Done => Some(0),
        Answer::Waiting(harts) if harts != 0 => Some(harts),
        _ => None,
    }
}

/// Whether an answer is a request.
fn is_taken(answer: &Answer) -> bool {
    matches!(
        answer,
        Answer::TakenAll(_) | Answer::TakenSpace(..) | Answer::TakenPage(..)
    )
}

/// No step has this answer.
const NEVER: Answer = Answer::Missing;

/// Where a ticket stands among the orders.
fn place_of(ticket: u32) -> usize {
    usize::try_from(ticket).unwrap_or(usize::MAX)
}

impl Account {
    /// Setup mapped both pages of the hart's own space.
    pub(crate) fn new(alloc: Global, hart: u8) -> Account {
        let mut account = Account {
            hart,
            orders: Vec::new(alloc),
            closed: 0,
            space: 0,
            mapped: [None, None],
            maps: Vec::new(alloc),
            asked: Vec::new(alloc),
            is_whole: true,
        };
        account.store(0, 0);
        account.store(1, 1);
        account
    }

    fn order(&self, ticket: u32) -> Option<Order> {
        match self.orders.get(place_of(ticket)) {
            Some(order) => *order,
            None => None,
        }
    }

    fn set_order(&mut self, ticket: u32, order: Option<Order>) {
        if let Some(slot) = self.orders.get_mut(place_of(ticket)) {
            *slot = order;
        }
    }

    /// How many requests to a hart are accepted and not collected.
    fn outstanding(&self, to: u8) -> usize {
        self.orders
            .iter()
            .flatten()
            .filter(|order| order.posted & order.awaited & bit(to) != 0)
            .count()
    }

    /// A request to a hart is accepted, or acknowledged by the own one.
    fn ask(&mut self, to: u8, ticket: u32, order: &Order) {
        let (kept, order) = (*order, *order);
        self.set_order(ticket, Some(kept));
        self.is_whole &= self.asked.push(Asked { to, ticket, order }).is_ok();
    }

    /// The lowest number of a ticket that is not in use.
    fn free(&self) -> u32 {
        for ticket in 0..64 {
            if self.order(ticket).is_none() {
                return ticket;
            }
        }
        64
    }

    fn open(&mut self, what: What, named: u8, gone: Option<Gone>) -> Answer {
        if named & bit(self.hart) == 0 {
            return Answer::Refused(Refusal::HomeNotNamed);
        }
        let ticket = self.free();
        let order = Order {
            what,
            gone,
            named,
            posted: 0,
            awaited: named,
        };
        if place_of(ticket) < self.orders.len() {
            self.set_order(ticket, Some(order));
        } else {
            self.is_whole &= self.orders.push(Some(order)).is_ok();
        }
        Answer::Opened(ticket)
    }

    /// The version of a page of the own space, if it is mapped.
    fn mapped_at(&self, number: u8) -> Option<u16> {
        match self.mapped.get(usize::from(number)) {
            Some(version) => *version,
            None => None,
        }
    }

    fn set_mapped(&mut self, number: u8, version: Option<u16>) {
        if let Some(mapped) = self.mapped.get_mut(usize::from(number)) {
            *mapped = version;
        }
    }

    /// A page of the own space gets mapped as a version.
    fn store(&mut self, number: u8, version: u16) {
        self.set_mapped(number, Some(version));
        self.is_whole &= self.maps.push((number, version)).is_ok();
    }

    fn map(&mut self, page: &Page, ppn: u64) -> Answer {
        let Some(number) = number_of(page.base().get()) else {
            return NEVER;
        };
        if self.mapped_at(number).is_some() {
            return Answer::Refused(Refusal::AlreadyMapped);
        }
        let version = (ppn % 0x1_0000) as u16;
        self.store(number, version);
        if ppn == ppn_of(self.hart, version) {
            Answer::Leaf
        } else {
            NEVER
        }
    }

    /// An unmapping, or a protection where the page stays mapped.
    fn edit(&mut self, page: &Page, stays: bool, named: u8) -> Answer {
        let Some(number) = number_of(page.base().get()) else {
            return NEVER;
        };
        let Some(version) = self.mapped_at(number) else {
            return Answer::Refused(Refusal::NotMapped);
        };
        let what = What::PageOf(*page, Some(u16::from(self.hart) + 1));
        if stays {
            return self.open(what, named, None);
        }
        if named & bit(self.hart) != 0 {
            self.set_mapped(number, None);
        }
        let gone = Gone {
            page: number,
            version,
        };
        self.open(what, named, Some(gone))
    }

    fn flush(&mut self, scope: Scope, named: u8) -> Answer {
        let what = match scope {
            Scope::All => What::All,
            Scope::Space(space) => What::SpaceOf(u16::from(space) + 1),
        };
        self.open(what, named, None)
    }

    /// Why an open ticket is not posted to a hart.
    fn post_fault(&self, order: &Order, to: u8) -> Option<Refusal> {
        if order.named & bit(to) == 0 {
            Some(Refusal::NotNamed)
        } else if order.posted & bit(to) != 0 {
            Some(Refusal::AlreadyPosted)
        } else if self.closed & bit(to) != 0 {
            Some(Refusal::Closed)
        } else if self.outstanding(to) == 4 {
            Some(Refusal::Full)
        } else {
            None
        }
    }

    fn post(&mut self, ticket: u32, to: u8) -> Answer {
        if to == self.hart || bit(to) == 0 {
            return Answer::Refused(Refusal::NoHart);
        }
        let Some(mut order) = self.order(ticket) else {
            return Answer::Refused(Refusal::NotOpen);
        };
        if let Some(refusal) = self.post_fault(&order, to) {
            return Answer::Refused(refusal);
        }
        order.posted |= bit(to);
        self.ask(to, ticket, &order);
        Answer::Accepted
    }

    fn ack_self(&mut self, ticket: u32) -> Answer {
        let Some(mut order) = self.order(ticket) else {
            return Answer::Refused(Refusal::NotOpen);
        };
        let awaited = order.awaited & !bit(self.hart);
        order.awaited = awaited;
        self.ask(self.hart, ticket, &order);
        if awaited == 0 {
            Answer::Done
        } else {
            Answer::Waiting(awaited)
        }
    }

    fn finish(&mut self, ticket: u32) -> Answer {
        let Some(order) = self.order(ticket) else {
            return Answer::Refused(Refusal::NotOpen);
        };
        if order.awaited != 0 {
            return Answer::Refused(Refusal::NotDone);
        }
        self.set_order(ticket, None);
        Answer::Accepted
    }

    fn close(&mut self, to: u8) -> Answer {
        if to == self.hart || bit(to) == 0 {
            return Answer::Refused(Refusal::NoHart);
        }
        if self.closed & bit(to) != 0 {
            return Answer::Refused(Refusal::Closed);
        }
        self.closed |= bit(to);
        Answer::Accepted
    }

    /// Other harts that were asked may be collected, and nobody else.
    fn collect(&mut self, ticket: u32, answer: &Answer) -> bool {
        let Some(mut order) = self.order(ticket) else {
            return *answer == Answer::Refused(Refusal::NotOpen);
        };
        let Some(awaited) = awaited_in(answer) else {
            return false;
        };
        let collected = order.awaited & !awaited;
        let others = order.posted & !bit(self.hart);
        let is_lawful = awaited & !order.awaited == 0 && collected & !others == 0;
        order.awaited = awaited;
        self.set_order(ticket, Some(order));
        is_lawful
    }

    /// A wait that used up its turns says nothing of the ticket.
    fn wait(&mut self, ticket: u32, answer: &Answer) -> bool {
        match answer {
            Answer::Timeout => match self.order(ticket) {
                Some(order) => order.awaited != 0,
                None => false,
            },
            Answer::Waiting(_) => false,
            _ => self.collect(ticket, answer),
        }
    }

    /// A page of its own space is found as long as the home has it mapped.
    fn load(&self, va: u64, answer: &Answer) -> bool {
        let is_mapped = match number_of(va) {
            Some(number) => self.mapped_at(number).is_some(),
            None => false,
        };
        self.space != self.hart || !is_mapped || *answer != INVALID
    }

    /// A request that another hart sent, or none.
    fn serve(&self, from: u8, answer: &Answer) -> bool {
        if from == self.hart {
            return *answer == Answer::Refused(Refusal::NoHart);
        }
        is_taken(answer) || *answer == Answer::Refused(Refusal::Empty)
    }

    /// The one answer that an edit or a flush may have.
    fn opened(&mut self, step: &LiveStep) -> Answer {
        match step {
            LiveStep::Map { page, ppn, .. } => self.map(page, *ppn),
            LiveStep::Unmap { page, named, .. } => self.edit(page, false, *named),
            LiveStep::Protect { page, named, .. } => self.edit(page, true, *named),
            LiveStep::Flush { scope, named } => self.flush(*scope, *named),
            _ => NEVER,
        }
    }

    /// The one answer that another step may have, if there is but one.
    fn answered(&mut self, step: &LiveStep) -> Answer {
        match *step {
            LiveStep::Switch { space } => {
                self.space = space;
                Answer::Accepted
            }
            LiveStep::Fence { .. } => Answer::Accepted,
            LiveStep::Post { ticket, to } => self.post(ticket, to),
            LiveStep::AckSelf { ticket } => self.ack_self(ticket),
            LiveStep::Finish { ticket } => self.finish(ticket),
            LiveStep::Close { to } => self.close(to),
            _ => self.opened(step),
        }
    }

    /// Whether a step may have the answer, as far as the hart's own steps show.
    pub(crate) fn allows(&mut self, step: &LiveStep, reply: &LiveReply) -> bool {
        let answer = answer_of(reply);
        let is_allowed = match *step {
            LiveStep::Translate { va, .. } => self.load(va, &answer),
            LiveStep::Serve { from } => self.serve(from, &answer),
            LiveStep::Collect { ticket } => self.collect(ticket, &answer),
            LiveStep::Wait { ticket } => self.wait(ticket, &answer),
            _ => self.answered(step) == answer,
        };
        is_allowed && self.is_whole
    }

    /// How many requests to a hart were accepted.
    pub(crate) fn count(&self, to: u8) -> u64 {
        self.asked.iter().filter(|asked| asked.to == to).count() as u64
    }

    /// Whether these requests to a hart wait, once that many were taken.
    pub(crate) fn has_left(&self, to: u8, taken: u64, waiting: &[Request]) -> bool {
        let mut left = waiting.iter();
        let mut number: u64 = 0;
        for asked in self.asked.iter() {
            if asked.to != to {
                continue;
            }
            number = number.saturating_add(1);
            if taken < number && !asked.is_same(left.next()) {
                return false;
            }
        }
        left.next().is_none()
    }
}
