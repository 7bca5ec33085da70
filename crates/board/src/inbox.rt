//! The receiver's end.

ghost use Rattle.std.specs.Prelude.{◌≡◌, ◌<◌, [], ◌∷◌, length, IfSome, IfNone};
ghost use mathlib.Core.List.{IsPrefix};

use crate::slot::Slot;
use rtrb::Consumer;
use shoot::Request;
use std::alloc::Global;
use std::marker::Model;

/// The end by which one hart takes the requests of another. No call waits for the other end, or
/// takes memory.
#[derive(Drop)]
pub struct Inbox {
    pub(crate) consumer: Consumer<Slot, Global>,
    // How many requests were taken, which stays at the greatest number.
    pub(crate) taken: u64,
}

impl Model for Inbox {
    ghost use Rattle.std.specs.Prelude.{◌≡◌};
    ghost use Rattle.rtrb.specs.Ring.{received, known_items, consumer_capacity};
    ghost use Rattle.board.specs.Ends.{InboxState, count_of};

    ghost Value = { InboxState };

    ghost view = { λ i. record {
      ring = (
        i.consumer.end.words,
        i.consumer.end.slots,
        i.consumer.end.names,
        i.consumer.end.heap,
      );
      taken = received i.consumer;
      known = known_items i.consumer;
      capacity = consumer_capacity i.consumer;
    } };

    ghost invariant = { λ i. i.taken ≡ count_of (received i.consumer) };
}

impl Inbox {
    ghost use Rattle.board.specs.Ends.{count_of, with_taken};

    /// Takes the oldest request that came through. `None` only if this end knew of no request that
    /// waits, and then nothing changes.
    pub fn take(&mut self) -> Option<Request>
        ensures some { IfSome result (λ request.
            self.new ≡ with_taken self.old request self.new.known) }
        ensures oldest { IfSome result (λ request.
            IsPrefix self.old.known (request ∷ self.new.known)) }
        ensures none { IfNone result ((self.old.known ≡ []) × (self.new ≡ self.old)) }
    {
        match self.take_slot() {
            Some(slot) => Some(slot.request()),
            None => None,
        }
    }

    /// The same, as the request lies in the ring.
    #[inline(always)]
    pub(crate) fn take_slot(&mut self) -> Option<Slot>
        ensures some { IfSome result (λ request.
            self.new ≡ with_taken self.old request self.new.known) }
        ensures oldest { IfSome result (λ request.
            IsPrefix self.old.known (request ∷ self.new.known)) }
        ensures none { IfNone result ((self.old.known ≡ []) × (self.new ≡ self.old)) }
    {
        match self.consumer.pop() {
            Ok(slot) => {
                self.taken = self.taken.saturating_add(1);
                Some(slot)
            }
            Err(_) => None,
        }
    }

    /// How many requests were taken. The count stays at the greatest number of 64 bits.
    pub fn taken(&self) -> u64
        ensures { result ≡ count_of self.now.taken }
    {
        self.taken
    }
}
