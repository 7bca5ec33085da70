//! Both ends of one ring: how they are made, and what is known once one thread has both again.

ghost use Rattle.std.specs.Prelude.{◌≡◌, ◌≤◌, [], ◌++◌, length, vec_capacity, IfOk};
ghost use mathlib.Core.List.{IsPrefix};
ghost use Rattle.board.specs.Ends.{new_inbox, new_outbox};
ghost use Rattle.shoot.specs.declared.TheConstants.{MAX_CAPACITY};

use crate::inbox::Inbox;
use crate::outbox::Outbox;
use rtrb::RingBuffer;
use shoot::Request;
use std::alloc::{AllocError, Global};

/// The two ends of an empty ring that is open. The capacity is from 1 to 64. `AllocError` if there
/// is not enough memory.
pub fn ends(alloc: Global, capacity: usize) -> Result<(Outbox, Inbox), AllocError>
    requires some { 1 ≤ capacity }
    requires bounded { capacity ≤ MAX_CAPACITY }
    ensures outbox { IfOk result (λ e. e.0 ≡ new_outbox e.0.ring capacity) }
    ensures inbox { IfOk result (λ e. e.1 ≡ new_inbox e.0.ring capacity) }
{
    let (producer, consumer) = RingBuffer::new(alloc, capacity)?;
    let outbox = Outbox {
        producer,
        capacity,
        outstanding: 0,
        closed: false,
        accepted: 0,
    };
    Ok((outbox, Inbox { consumer, taken: 0 }))
}

/// With both ends in one thread: how many requests wait. What was accepted is then what was taken,
/// followed by these, and this many takes in a row answer `Some`.
pub fn settle(outbox: &mut Outbox, inbox: &mut Inbox) -> usize
    requires { outbox.old.ring ≡ inbox.old.ring }
    ensures waiting { result ≡ length inbox.new.known }
    ensures order { outbox.new.accepted ≡ inbox.new.taken ++ inbox.new.known }
    ensures outbox { outbox.new ≡ record outbox.old { room = outbox.new.room } }
    ensures inbox { inbox.new ≡ record inbox.old { known = inbox.new.known } }
    ensures room { outbox.old.room ≤ outbox.new.room }
    ensures known { IsPrefix inbox.old.known inbox.new.known }
    ensures fits { result ≤ inbox.old.capacity }
{
    inbox.consumer.slots_beside(&mut outbox.producer)
}

/// With both ends in one thread: takes all requests that wait, in order, into an empty list that
/// has room for them.
pub fn take_waiting(outbox: &mut Outbox, inbox: &mut Inbox, list: &mut Vec<Request>)
    requires ends { outbox.old.ring ≡ inbox.old.ring }
    requires empty { list.old.items ≡ [] }
    requires room { inbox.old.capacity ≤ vec_capacity list.old }
    ensures order { outbox.old.accepted ≡ inbox.old.taken ++ list.new.items }
    ensures outbox { outbox.new ≡ record outbox.old { room = outbox.new.room } }
    ensures inbox { inbox.new ≡ record inbox.old {
      taken = outbox.old.accepted;
      known = inbox.new.known;
    } }
{
    let count = settle(outbox, inbox);
    for _ in 0..count {
        let Some(request) = inbox.take() else {
            break;
        };
        list.push_reserved(request);
    }
}
