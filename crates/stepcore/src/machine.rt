//! The machine, and which harts, spaces and places it has.

ghost use Rattle.std.specs.Prelude.{◌≡◌, ◌<◌, length, IsSome, IsTrue};
ghost use Rattle.spaces.specs.Held.{IsMemory};
ghost use Rattle.spaces.specs.Layout.{HasPlace};
ghost use Rattle.stepcore.specs.State.{setup_in, hart_at, space_at, tickets_at, mailbox_at, mailbox_index};

use crate::hart::Hart;
use crate::space_state::SpaceState;
use arrayvec::ArrayVec;
use history::Scope;
use shoot::{Mailbox, Tickets};
use spaces::{MAX_SPACES, Memory, Place};
use std::marker::Model;

/// Table memory, the spaces with their ASIDs and whether they are live, retiring or free, and harts
/// with their TLBs, walks, tickets and mailboxes. It moves by one event of one hart at a time.
#[derive(Drop)]
pub struct Machine {
    pub(crate) memory: Memory,
    pub(crate) spaces: ArrayVec<SpaceState, MAX_SPACES>,
    pub(crate) harts: Vec<Hart>,
    pub(crate) tickets: Vec<Tickets>,
    // those between the first n harts stand before all others
    pub(crate) mailboxes: Vec<Mailbox>,
    // of each mailbox
    pub(crate) capacity: usize,
}

impl Model for Machine {
    ghost use Rattle.stepcore.specs.State.{State, IsMachine};

    ghost Value = { State };

    ghost view = { λ m. record {
      memory = m.memory;
      spaces = m.spaces.items;
      harts = m.harts.items;
      tickets = m.tickets.items;
      mailboxes = m.mailboxes.items;
      capacity = m.capacity;
    } };

    ghost invariant = { λ m. IsMachine (record {
      memory = m.memory;
      spaces = m.spaces.items;
      harts = m.harts.items;
      tickets = m.tickets.items;
      mailboxes = m.mailboxes.items;
      capacity = m.capacity;
    }) };
}

impl Machine {
    ghost use Rattle.history.specs.Due.{are_pair, are_harts};
    ghost use Rattle.history.specs.Setup.{is_hart};
    ghost use Rattle.stepcore.specs.Answers.{asid_of_hart, asid_of_space, is_number, is_place, is_retiring, is_scope, is_space, retires, scope_retires};

    /// How many harts there are, with numbers from 0 on.
    pub fn harts(&self) -> u8
        ensures { result ≡ length self.now.harts }
    {
        self.harts.len() as u8
    }

    /// How many requests a mailbox may hold whose acknowledgement was not collected yet.
    pub fn capacity(&self) -> usize
        ensures { result ≡ self.now.capacity }
    {
        self.capacity
    }

    /// Table memory.
    pub fn memory(&self) -> &Memory
        ensures { result.now ≡ self.now.memory }
    {
        &self.memory
    }

    /// The ASID of a space that is live or retiring.
    pub fn asid_of_space(&self, space: u8) -> Option<u16>
        ensures value { result ≡ asid_of_space self.now space }
        ensures there { IsSome result → space < length self.now.memory.layout.homes }
    {
        self.recall();
        if self.is_space(space) {
            Some(self.space(space).asid)
        } else {
            None
        }
    }

    /// Whether the hart exists.
    #[inline(always)]
    pub(crate) fn is_hart(&self, hart: u8) -> bool
        ensures { result ≡ is_hart (setup_in self.now) hart }
    {
        usize::from(hart) < self.harts.len()
    }

    /// Whether both harts exist and differ.
    pub(crate) fn are_pair(&self, hart: u8, other: u8) -> bool
        ensures value { result ≡ are_pair (setup_in self.now) hart other }
        ensures hart { IsTrue result → hart < length self.now.harts }
        ensures other { IsTrue result → other < length self.now.harts }
    {
        self.is_hart(hart) && self.is_hart(other) && hart != other
    }

    /// Whether the harts of the set bits exist.
    pub(crate) fn are_harts(&self, named: u8) -> bool
        ensures { result ≡ are_harts (setup_in self.now) named }
    {
        u16::from(named) < 1 << self.harts.len()
    }

    /// Whether the number is that of a space.
    pub(crate) fn is_number(&self, space: u8) -> bool
        ensures { result ≡ is_number self.now space }
    {
        usize::from(space) < self.spaces.len()
    }

    /// How many spaces there are, free ones too, with numbers from 0 on.
    pub fn spaces(&self) -> u8
        ensures { result ≡ length self.now.spaces }
    {
        self.spaces.len() as u8
    }

    /// The ASID and the phase of a space that exists. The ASID of a free one means nothing.
    pub fn space(&self, space: u8) -> SpaceState
        requires { space < length self.now.spaces }
        ensures { result ≡ space_at self.now space }
    {
        self.spaces[usize::from(space)]
    }

    /// Whether the space exists and is not free.
    pub(crate) fn is_space(&self, space: u8) -> bool
        ensures value { result ≡ is_space self.now space }
        ensures there { IsTrue result → space < length self.now.spaces }
    {
        self.is_number(space) && !self.space(space).phase.is_free()
    }

    /// Whether the place exists and is not a free space.
    pub(crate) fn is_place(&self, place: Place) -> bool
        ensures value { result ≡ is_place self.now place }
        ensures there { IsTrue result → HasPlace self.now.memory.layout place }
        ensures memory { IsMemory self.now.memory }
    {
        let is_there = self.memory.has(place);
        match place {
            Place::Space(space) => is_there && self.is_space(space),
            Place::Kernel => true,
        }
    }

    /// Whether the place is that of a retiring space.
    pub(crate) fn retires(&self, place: Place) -> bool
        requires { IsTrue (is_place self.now place) }
        ensures { result ≡ retires self.now place }
    {
        match place {
            Place::Space(space) => self.space(space).phase.is_retiring(),
            Place::Kernel => false,
        }
    }

    /// Whether the space of the scope is retiring.
    pub(crate) fn scope_retires(&self, scope: Scope) -> bool
        requires { IsTrue (is_scope self.now scope) }
        ensures { result ≡ scope_retires self.now scope }
    {
        match scope {
            Scope::Space(space) => self.space(space).phase.is_retiring(),
            Scope::All => false,
        }
    }

    /// Whether the scope is everything, or a space that exists and is not free.
    pub(crate) fn is_scope(&self, scope: Scope) -> bool
        ensures { result ≡ is_scope self.now scope }
    {
        match scope {
            Scope::Space(space) => self.is_space(space),
            Scope::All => true,
        }
    }

    /// A hart that exists: its space, its walk, what it serves, and its TLB.
    #[inline(always)]
    pub fn hart(&self, hart: u8) -> &Hart
        requires { hart < length self.now.harts }
        ensures { result.now ≡ hart_at self.now hart }
    {
        &self.harts[usize::from(hart)]
    }

    /// The tickets of a hart that exists.
    pub fn tickets(&self, hart: u8) -> &Tickets
        requires { hart < length self.now.harts }
        ensures { result.now ≡ tickets_at self.now hart }
    {
        &self.tickets[usize::from(hart)]
    }

    /// The mailbox from one hart to another, both there.
    pub fn mailbox(&self, sender: u8, receiver: u8) -> &Mailbox
        requires sender { sender < length self.now.harts }
        requires receiver { receiver < length self.now.harts }
        ensures { result.now ≡ mailbox_at self.now sender receiver }
    {
        let place = self.mailbox_place(sender, receiver);
        &self.mailboxes[place]
    }

    /// The place of the mailbox from one hart to another.
    #[tactic(auto, using(crate::proofs::Places::place_in))]
    pub(crate) fn mailbox_place(&self, sender: u8, receiver: u8) -> usize
        requires sender { sender < length self.now.harts }
        requires receiver { receiver < length self.now.harts }
        ensures place { result ≡ mailbox_index sender receiver }
        ensures inside { result < length self.now.mailboxes }
    {
        self.recall();
        mailbox_index(sender, receiver)
    }

    /// The ASID of the space that a hart runs in.
    #[inline(always)]
    pub fn asid(&self, hart: u8) -> u16
        requires { hart < length self.now.harts }
        ensures { result ≡ asid_of_hart self.now (hart_at self.now hart) }
    {
        let hart = self.hart(hart);
        self.spaces[usize::from(hart.space())].asid
    }
}

/// Where the mailbox from one hart to another stands: those between the first n harts take the
/// first n * n places.
fn mailbox_index(sender: u8, receiver: u8) -> usize
    ensures { result ≡ mailbox_index sender receiver }
{
    let sender = usize::from(sender);
    let receiver = usize::from(receiver);
    if sender < receiver {
        receiver * receiver + sender
    } else {
        sender * sender + sender + receiver
    }
}
