//! The sender's end.

ghost use Rattle.std.specs.Prelude.{◌≡◌, ◌+◌, ◌<◌, ◌≤◌, Some, None, Err, IfErr, OnOk, OnErr, true};

use crate::slot::Slot;
use rtrb::{Producer, PushError};
use shoot::{PostFault, Request};
use std::alloc::Global;
use std::marker::Model;

/// The end by which one hart posts requests to another.
///
/// The capacity bounds the requests that were accepted and whose acknowledgement was not collected
/// yet: these are outstanding. No call waits for the other end, or takes memory.
#[derive(Drop)]
pub struct Outbox {
    pub(crate) producer: Producer<Slot, Global>,
    pub(crate) capacity: usize,
    pub(crate) outstanding: usize,
    pub(crate) closed: bool,
    // How many requests were accepted, which stays at the greatest number.
    pub(crate) accepted: u64,
}

impl Model for Outbox {
    ghost use Rattle.std.specs.Prelude.{◌≡◌, ◌≤◌};
    ghost use Rattle.rtrb.specs.Ring.{sent, known_free, producer_capacity};
    ghost use Rattle.board.specs.Ends.{OutboxState, count_of};

    ghost Value = { OutboxState };

    ghost view = { λ o. record {
      ring = (
        o.producer.end.words,
        o.producer.end.slots,
        o.producer.end.names,
        o.producer.end.heap,
      );
      accepted = sent o.producer;
      room = known_free o.producer;
      outstanding = o.outstanding;
      closed = o.closed;
      capacity = o.capacity;
    } };

    ghost invariant = { λ o. (producer_capacity o.producer ≡ o.capacity)
        × (o.outstanding ≤ o.capacity) × (o.accepted ≡ count_of (sent o.producer)) };
}

impl Outbox {
    ghost use Rattle.board.specs.Ends.{count_of, post_fault, with_accepted, after_release, after_close};

    /// Why a post would be refused now, whatever the ring has room for.
    #[inline(always)]
    pub fn post_fault(&self) -> Option<PostFault>
        ensures { result ≡ post_fault self.now }
    {
        PostFault::of(self.closed, self.outstanding, self.capacity)
    }

    /// Posts a request. Refused with `Closed`, else with `Full`, it comes back, and nothing
    /// changes. `Full` is also the answer where the ring gives the request back, which it does only
    /// if this end knew of no free place.
    #[inline(always)]
    pub fn post(&mut self, request: Request) -> Result<(), (PostFault, Request)>
        ensures refused { (fault : PostFault) → post_fault self.old ≡ Some fault
            → result ≡ Err (fault, request) }
        ensures full { post_fault self.old ≡ None
            → IfErr result (λ e. (e ≡ (PostFault.Full, request)) × (self.old.room ≡ 0)) }
        ensures accepted { OnOk result ((self.new ≡ with_accepted self.old request self.new.room)
            × (self.old.room ≤ self.new.room + 1)) }
        ensures unchanged { OnErr result (self.new ≡ self.old) }
    {
        if let Some(fault) = self.post_fault() {
            return Err((fault, request));
        }
        match self.producer.push(Slot::of(&request)) {
            Ok(()) => {
                self.outstanding += 1;
                self.accepted = self.accepted.saturating_add(1);
                Ok(())
            }
            Err(PushError::Full(_)) => Err((PostFault::Full, request)),
        }
    }

    /// The acknowledgement of an outstanding request was collected: there is room for one more.
    #[inline(always)]
    pub fn release(&mut self)
        requires { 0 < self.old.outstanding }
        ensures { self.new ≡ after_release self.old }
    {
        self.outstanding -= 1;
    }

    /// Later posts are refused. What waits stays.
    pub fn close(&mut self)
        ensures { self.new ≡ after_close self.old }
    {
        self.closed = true;
    }

    /// How many requests were accepted whose acknowledgement was not collected yet. Those that wait
    /// are among them.
    pub fn outstanding(&self) -> usize
        ensures count { result ≡ self.now.outstanding }
        ensures bounded { result ≤ self.now.capacity }
    {
        self.outstanding
    }

    /// How many requests were accepted. The count stays at the greatest number of 64 bits.
    pub fn accepted(&self) -> u64
        ensures { result ≡ count_of self.now.accepted }
    {
        self.accepted
    }

    /// Whether later posts are refused.
    pub fn is_closed(&self) -> bool
        ensures { result ≡ self.now.closed }
    {
        self.closed
    }
}
