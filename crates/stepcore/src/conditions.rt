//! What events ask for before they change anything, and how a refusal becomes a reply.

ghost use Rattle.std.specs.Prelude.{◌≡◌, ◌<◌, ◌&&◌, IfErr, IsTrue, OnOk, false, length, true};
ghost use Rattle.history.specs.declared.refusal.Refusal.TheVariants.{NoHart, NoSpace};
ghost use Rattle.history.specs.Due.{are_harts, are_pair};
ghost use Rattle.history.specs.Setup.{is_hart};
ghost use Rattle.stepcore.specs.State.{setup_in};
ghost use Rattle.stepcore.specs.Answers.{is_space};
ghost use Rattle.stepcore.specs.Changes.{reply_of};

use crate::machine::Machine;
use history::{Refusal, Reply};

/// What an event is answered, as a reply.
#[inline(always)]
pub(crate) fn reply_of(answer: Result<Reply, Refusal>) -> Reply
    ensures { result ≡ reply_of answer }
{
    answer.unwrap_or_else(Reply::Refused)
}

/// Refuses if the test holds.
#[inline(always)]
pub(crate) fn refuse(test: bool, refusal: Refusal) -> Result<(), Refusal>
    ensures passes { OnOk result (test ≡ false) }
    ensures refuses { IfErr result (λ why. (why ≡ refusal) × (test ≡ true)) }
{
    if test { Err(refusal) } else { Ok(()) }
}

impl Machine {
    /// Refuses with `NoHart` unless the hart exists.
    #[inline(always)]
    pub(crate) fn needs_hart(&self, hart: u8) -> Result<(), Refusal>
        ensures there { OnOk result (IsTrue (is_hart (setup_in self.now) hart)) }
        ensures refuses { IfErr result (λ why. (why ≡ NoHart)
            × (is_hart (setup_in self.now) hart ≡ false)) }
    {
        refuse(!self.is_hart(hart), Refusal::NoHart)
    }

    /// Refuses with `NoHart` unless both harts exist and differ.
    #[inline(always)]
    pub(crate) fn needs_pair(&self, hart: u8, other: u8) -> Result<(), Refusal>
        ensures there { OnOk result (IsTrue (are_pair (setup_in self.now) hart other)) }
        ensures hart { OnOk result (hart < length self.now.harts) }
        ensures other { OnOk result (other < length self.now.harts) }
        ensures refuses { IfErr result (λ why. (why ≡ NoHart)
            × (are_pair (setup_in self.now) hart other ≡ false)) }
    {
        refuse(!self.are_pair(hart, other), Refusal::NoHart)
    }

    /// Refuses with `NoHart` unless the hart and those of the set bits exist.
    #[inline(always)]
    pub(crate) fn needs_harts(&self, hart: u8, named: u8) -> Result<(), Refusal>
        ensures there { OnOk result
            (IsTrue (is_hart (setup_in self.now) hart && are_harts (setup_in self.now) named)) }
        ensures hart { OnOk result (hart < length self.now.harts) }
        ensures refuses { IfErr result (λ why. (why ≡ NoHart)
            × ((is_hart (setup_in self.now) hart && are_harts (setup_in self.now) named) ≡ false)) }
    {
        refuse(
            !(self.is_hart(hart) && self.are_harts(named)),
            Refusal::NoHart,
        )
    }

    /// Refuses with `NoSpace` unless the space exists and is not free.
    #[inline(always)]
    pub(crate) fn needs_space(&self, space: u8) -> Result<(), Refusal>
        ensures there { OnOk result (IsTrue (is_space self.now space)) }
        ensures inside { OnOk result (space < length self.now.spaces) }
        ensures refuses { IfErr result (λ why. (why ≡ NoSpace) × (is_space self.now space
            ≡ false)) }
    {
        refuse(!self.is_space(space), Refusal::NoSpace)
    }
}
