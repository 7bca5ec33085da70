//! Spaces that are retired, given back and created again.

ghost use Rattle.std.specs.Prelude.{◌≡◌, ◌==◌, ◌<◌, ℕ, IsTrue, IfErr, OnOk, false, length, slice_set};
ghost use Rattle.std.specs.List.{list_any};
ghost use Rattle.history.specs.declared.event.Event.TheVariants.{Retire, Reclaim, Create, Finish};
ghost use Rattle.history.specs.declared.reply.Reply.TheVariants as reply;
ghost use Rattle.spaces.specs.Layout.{home_of};
ghost use Rattle.spaces.specs.declared.places.Place.TheVariants as place;
ghost use Rattle.stepcore.specs.State.{space_at, tickets_at};
ghost use Rattle.stepcore.specs.Answers.{every_hart, has_asid, open_in, reclaim_answer, reply_to};
ghost use Rattle.stepcore.specs.Changes.{Answers, is_under, space_after};

use crate::conditions::refuse;
use crate::hart::Hart;
use crate::machine::Machine;
use crate::space_state::{Phase, SpaceState};
use history::{Refusal, Reply};
use pte::What;
use spaces::Place;

/// Whether some hart is in a space.
fn is_in_use(harts: &[Hart], space: u8) -> bool
    ensures { result ≡ list_any (λ hart. hart.space == space) harts.now }
{
    harts.iter().any(|hart| hart.space() == space)
}

/// Whether a space that is not free has an ASID.
fn has_asid(space: SpaceState, asid: u16) -> bool
    ensures { result ≡ has_asid space asid }
{
    !space.phase.is_free() && space.asid == asid
}

/// Whether one of them has an ASID.
fn is_asid_used(spaces: &[SpaceState], asid: u16) -> bool
    ensures { result ≡ list_any (λ space. has_asid space asid) spaces.now }
{
    spaces.iter().copied().any(|space| has_asid(space, asid))
}

/// Whether a space retires under a ticket.
fn is_under(phase: Phase, ticket: u32) -> bool
    ensures { result ≡ is_under phase ticket }
{
    match phase {
        Phase::Retiring(Some(own)) => own == ticket,
        Phase::Retiring(None) => false,
        Phase::Live => false,
        Phase::Free => false,
    }
}

impl Machine {
    /// The byte of all harts.
    fn every_hart(&self) -> u8
        ensures { result ≡ every_hart self.now }
    {
        ((1_u16 << self.harts.len()) - 1) as u8
    }

    /// Replaces the ASID and the phase of a space.
    fn put_space(&mut self, space: u8, state: SpaceState)
        requires { space < length self.old.spaces }
        ensures { self.new ≡ record self.old { spaces = slice_set self.old.spaces space state } }
    {
        self.spaces[usize::from(space)] = state;
    }

    fn is_home(&self, hart: u8, space: u8) -> bool
        requires { space < length self.now.spaces }
        ensures { result ≡ (hart == home_of self.now.memory.layout (place.Space space)) }
    {
        hart == self.memory.home(Place::Space(space))
    }

    /// Whether a hart may retire a space, if it has a ticket for it.
    fn may_retire(&self, hart: u8, space: u8) -> Result<(), Refusal>
        ensures reply { OnOk result (reply_to self.now (Retire hart space)
            ≡ open_in self.now hart (every_hart self.now)) }
        ensures hart { OnOk result (hart < length self.now.harts) }
        ensures space { OnOk result (space < length self.now.spaces) }
        ensures refused { IfErr result (λ refusal.
            reply_to self.now (Retire hart space) ≡ reply.Refused refusal) }
    {
        self.needs_hart(hart)?;
        self.needs_space(space)?;
        refuse(!self.is_home(hart, space), Refusal::NotHome)?;
        refuse(self.space(space).phase.is_retiring(), Refusal::Retiring)?;
        if is_in_use(&self.harts, space) {
            return Err(Refusal::InUse);
        }
        Ok(())
    }

    /// Retires a space that no hart is in, and opens a ticket that names every hart.
    pub(crate) fn retire(&mut self, hart: u8, space: u8) -> Result<Reply, Refusal>
        ensures { Answers self.old (Retire hart space) result self.new }
    {
        self.may_retire(hart, space)?;
        let state = self.space(space);
        let named = self.every_hart();
        let ticket = self.open_ticket(hart, What::SpaceOf(state.asid), named)?;
        let phase = Phase::Retiring(Some(ticket));
        self.put_space(space, SpaceState { phase, ..state });
        Ok(Reply::Opened(ticket))
    }

    /// Whether each hart is collected for the retirement of a space, or why not.
    fn may_reclaim(&self, hart: u8, phase: Phase) -> Result<(), Refusal>
        requires { hart < length self.now.harts }
        ensures reply { OnOk result (reclaim_answer (tickets_at self.now hart) phase ≡ reply.Ok) }
        ensures refused { IfErr result (λ refusal.
            reclaim_answer (tickets_at self.now hart) phase ≡ reply.Refused refusal) }
    {
        match phase {
            Phase::Live => Err(Refusal::NotRetiring),
            Phase::Retiring(None) => Ok(()),
            Phase::Retiring(Some(ticket)) => {
                let tickets = self.tickets(hart);
                refuse(tickets.is_done(ticket) != Some(true), Refusal::NotAcked)
            }
            Phase::Free => Err(Refusal::NoSpace),
        }
    }

    /// Stores 0 on every word of a retired space whose ticket every hart has answered, and leaves
    /// it free.
    pub(crate) fn reclaim(&mut self, hart: u8, space: u8) -> Result<Reply, Refusal>
        ensures { Answers self.old (Reclaim hart space) result self.new }
    {
        self.needs_hart(hart)?;
        self.needs_space(space)?;
        refuse(!self.is_home(hart, space), Refusal::NotHome)?;
        let state = self.space(space);
        self.may_reclaim(hart, state.phase)?;
        self.memory.give_back(space);
        let phase = Phase::Free;
        self.put_space(space, SpaceState { phase, ..state });
        Ok(Reply::Ok)
    }

    /// Whether a hart may make a space live under an ASID.
    fn may_create(&self, hart: u8, space: u8, asid: u16) -> Result<(), Refusal>
        ensures reply { OnOk result (reply_to self.now (Create hart space asid) ≡ reply.Ok) }
        ensures space { OnOk result (space < length self.now.spaces) }
        ensures refused { IfErr result (λ refusal.
            reply_to self.now (Create hart space asid) ≡ reply.Refused refusal) }
    {
        self.needs_hart(hart)?;
        refuse(!self.is_number(space), Refusal::NoSpace)?;
        refuse(!self.is_home(hart, space), Refusal::NotHome)?;
        refuse(!self.space(space).phase.is_free(), Refusal::NotFree)?;
        if is_asid_used(&self.spaces, asid) {
            return Err(Refusal::AsidInUse);
        }
        Ok(())
    }

    /// Makes a free space live under an ASID.
    pub(crate) fn create(&mut self, hart: u8, space: u8, asid: u16) -> Result<Reply, Refusal>
        ensures { Answers self.old (Create hart space asid) result self.new }
    {
        self.may_create(hart, space, asid)?;
        let phase = Phase::Live;
        self.put_space(space, SpaceState { asid, phase });
        Ok(Reply::Ok)
    }

    /// A ticket of a hart was finished: a space that retires under it has none from now on.
    pub(crate) fn end_retirement(&mut self, hart: u8, ticket: u32)
        ensures others { self.new ≡ record self.old { spaces = self.new.spaces } }
        ensures count { length self.new.spaces ≡ length self.old.spaces }
        ensures spaces { (s : ℕ) → s < length self.old.spaces → space_at self.new s
            ≡ space_after self.old (Finish hart ticket) reply.Ok s (space_at self.old s) }
    {
        for space in 0..self.spaces.len() as u8 {
            let state = self.space(space);
            if self.is_home(hart, space) && is_under(state.phase, ticket) {
                let phase = Phase::Retiring(None);
                self.put_space(space, SpaceState { phase, ..state });
            }
        }
    }
}
