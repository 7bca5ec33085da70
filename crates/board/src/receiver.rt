//! The end by which a port takes requests, with the room for those that will wait in the end.

ghost use Rattle.std.specs.Prelude.{◌≡◌, ◌≤◌, ◌++◌, [], vec_capacity, IfSome, IfOk};
ghost use Rattle.board.specs.Ends.{count_of};

use crate::inbox::Inbox;
use crate::outbox::Outbox;
use crate::pair::take_waiting;
use crate::report::PairReport;
use crate::slot::Slot;
use shoot::Request;
use std::alloc::{AllocError, Global};
use std::marker::Model;

/// An inbox, and an empty list that has room for all that can wait in it.
#[derive(Drop)]
pub(crate) struct Receiver {
    inbox: Inbox,
    waiting: Vec<Request>,
}

impl Model for Receiver {
    ghost use Rattle.std.specs.Prelude.{◌≡◌, ◌≤◌, [], vec_capacity};
    ghost use Rattle.board.specs.Ends.{InboxState};

    ghost Value = { InboxState };

    ghost view = { λ r. r.inbox };

    ghost invariant = { λ r. (r.waiting.items ≡ []) × (r.inbox.capacity ≤ vec_capacity r.waiting) };
}

impl Receiver {
    ghost use Rattle.std.specs.Prelude.{◌∷◌, IfNone};
    ghost use mathlib.Core.List.{IsPrefix};
    ghost use Rattle.board.specs.Ends.{with_taken};

    /// The room is taken here.
    pub(crate) fn new(alloc: Global, inbox: Inbox, capacity: usize) -> Result<Receiver, AllocError>
        requires { inbox.capacity ≤ capacity }
        ensures { IfOk result (λ receiver. receiver ≡ inbox) }
    {
        let waiting = Vec::with_capacity(alloc, capacity)?;
        Ok(Receiver { inbox, waiting })
    }

    /// Takes the oldest request that came through, as it lies in the ring.
    #[inline(always)]
    pub(crate) fn take(&mut self) -> Option<Slot>
        ensures some { IfSome result (λ request. self.new
            ≡ with_taken self.old request self.new.known) }
        ensures oldest { IfSome result (λ request.
            IsPrefix self.old.known (request ∷ self.new.known)) }
        ensures none { IfNone result ((self.old.known ≡ []) × (self.new ≡ self.old)) }
    {
        self.inbox.take_slot()
    }

    /// What became of the requests that the two ends carried.
    pub(crate) fn into_report(self, mut outbox: Outbox, sender: u8, receiver: u8) -> PairReport
        requires { outbox.ring ≡ self.ring }
        ensures pair { (result.sender ≡ sender) × (result.receiver ≡ receiver) }
        ensures order { outbox.accepted ≡ self.taken ++ result.waiting.items }
        ensures counts { (result.accepted ≡ count_of outbox.accepted)
            × (result.taken ≡ count_of self.taken) }
    {
        let Receiver {
            mut inbox,
            mut waiting,
        } = self;
        let accepted = outbox.accepted();
        let taken = inbox.taken();
        take_waiting(&mut outbox, &mut inbox, &mut waiting);
        PairReport {
            sender,
            receiver,
            accepted,
            taken,
            waiting,
        }
    }
}
