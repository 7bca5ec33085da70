//! Mailboxes.

ghost use Rattle.std.specs.Prelude.{◌≡◌, ◌≤◌, IsTrue, slice_get};

use crate::MAX_CAPACITY;
use crate::request::Request;
use arrayvec::ArrayVec;
use std::marker::Model;
use thiserror::Error;

/// Why a post is refused.
#[derive(Clone, Copy, PartialEq, Eq, Debug, Error)]
pub enum PostFault {
    /// The mailbox was closed.
    #[error("the mailbox is closed")]
    Closed,
    /// As many requests as the capacity were accepted and not collected yet.
    #[error("the mailbox is full")]
    Full,
}

impl PostFault {
    ghost use Rattle.shoot.specs.Mailbox.{fault_of};

    /// Why an end refuses a post that is closed, or has this many requests outstanding of at most
    /// `capacity`: the first that applies.
    pub fn of(closed: bool, outstanding: usize, capacity: usize) -> Option<PostFault>
        ensures { result ≡ fault_of closed outstanding capacity }
    {
        if closed {
            Some(PostFault::Closed)
        } else if outstanding >= capacity {
            Some(PostFault::Full)
        } else {
            None
        }
    }
}

/// The requests from one hart to another, in the order of their posts.
///
/// The capacity bounds the requests that were accepted and whose
/// acknowledgement was not collected yet: these are outstanding. Taking a
/// request makes no room, collecting its acknowledgement does.
#[derive(Drop)]
pub struct Mailbox {
    waiting: ArrayVec<Request, MAX_CAPACITY>,
    outstanding: usize,
    closed: bool,
    capacity: usize,
}

impl Model for Mailbox {
    ghost use Rattle.shoot.specs.Mailbox.{MailboxState, IsMailbox};

    ghost Value = { MailboxState };

    ghost view = { λ m. record {
      waiting = m.waiting.items;
      outstanding = m.outstanding;
      closed = m.closed;
      capacity = m.capacity;
    } };

    ghost invariant = { λ m. IsMailbox (record {
      waiting = m.waiting.items;
      outstanding = m.outstanding;
      closed = m.closed;
      capacity = m.capacity;
    }) };
}

impl Mailbox {
    ghost use Rattle.shoot.specs.Mailbox.{IsMailbox, empty_mailbox, post_fault, post_answer, first_waiting, can_release, after_post, after_take, after_release, after_close};

    /// An empty mailbox that is open. The capacity is from 1 to 64.
    pub fn new(capacity: usize) -> Mailbox
        requires some { 1 ≤ capacity }
        requires bounded { capacity ≤ MAX_CAPACITY }
        ensures { result ≡ empty_mailbox capacity }
    {
        Mailbox {
            waiting: ArrayVec::new(),
            outstanding: 0,
            closed: false,
            capacity,
        }
    }

    /// Why a post would be refused now.
    pub fn post_fault(&self) -> Option<PostFault>
        ensures { result ≡ post_fault self.now }
    {
        PostFault::of(self.closed, self.outstanding, self.capacity)
    }

    /// Puts a request behind those that wait. Refused with `Closed`, else with
    /// `Full`, it comes back, and nothing changes.
    pub fn post(&mut self, request: Request) -> Result<(), (PostFault, Request)>
        ensures answer { result ≡ post_answer self.old request }
        ensures after { self.new ≡ after_post self.old request }
    {
        if let Some(fault) = self.post_fault() {
            return Err((fault, request));
        }
        self.waiting.push(request);
        self.outstanding += 1;
        Ok(())
    }

    /// The oldest request that waits.
    pub fn first_waiting(&self) -> Option<Request>
        ensures { result ≡ first_waiting self.now }
    {
        self.waiting.as_slice().first().copied()
    }

    /// The request that waits in a place: the oldest in place 0, and behind the last none.
    pub fn waiting(&self, place: usize) -> Option<Request>
        ensures { result ≡ slice_get self.now.waiting place }
    {
        self.waiting.as_slice().get(place).copied()
    }

    /// Takes the oldest request that waits. It stays outstanding.
    pub fn take(&mut self) -> Option<Request>
        ensures answer { result ≡ first_waiting self.old }
        ensures after { self.new ≡ after_take self.old }
    {
        self.waiting.pop_at(0)
    }

    /// Whether more requests are outstanding than wait: some were taken whose
    /// acknowledgement was not collected yet.
    pub fn can_release(&self) -> bool
        ensures { result ≡ can_release self.now }
    {
        self.waiting.len() < self.outstanding
    }

    /// Such an acknowledgement was collected: there is room for one more
    /// request.
    pub fn release(&mut self)
        requires { IsTrue (can_release self.old) }
        ensures { self.new ≡ after_release self.old }
    {
        self.outstanding -= 1;
    }

    /// How many requests were accepted whose acknowledgement was not collected
    /// yet. Those that wait are among them.
    pub fn outstanding(&self) -> usize
        ensures count { result ≡ self.now.outstanding }
        ensures bounds { IsMailbox self.now }
    {
        self.outstanding
    }

    /// Later posts are refused. What waits stays.
    pub fn close(&mut self)
        ensures { self.new ≡ after_close self.old }
    {
        self.closed = true;
    }

    /// Whether later posts are refused.
    pub fn is_closed(&self) -> bool
        ensures { result ≡ self.now.closed }
    {
        self.closed
    }
}
