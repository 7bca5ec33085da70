//! Which tickets are free.

ghost use Rattle.std.specs.Prelude.{◌≡◌, ◌<◌, IfSome, slice_set, true, false};

use crate::MAX_TICKETS;
use std::marker::Model;

/// Which of the 64 tickets of a hart are free, as a bitmap: bit t is set where
/// ticket t is free. The lowest of them is found with no search.
#[derive(Drop)]
pub(crate) struct FreeTickets {
    bits: u64,
}

impl Model for FreeTickets {
    ghost use Rattle.std.specs.Prelude.{List, Bool};

    ghost Value = { List Bool };

    ghost use Rattle.shoot.specs.FreeTickets.{marked_in};

    ghost view = { λ f. marked_in f.bits };
}

impl FreeTickets {
    ghost use Rattle.shoot.specs.FreeTickets.{all_free, lowest_marked};

    /// All tickets are free.
    pub(crate) fn new() -> FreeTickets
        ensures { result ≡ all_free }
    {
        FreeTickets { bits: u64::MAX }
    }

    /// The lowest number that is free.
    #[inline(always)]
    pub(crate) fn lowest(&self) -> Option<usize>
        ensures lowest { result ≡ lowest_marked self.now }
        ensures below { IfSome result (λ number. number < MAX_TICKETS) }
    {
        if self.bits == 0 {
            None
        } else {
            Some(self.bits.trailing_zeros() as usize)
        }
    }

    /// The ticket is free from now on.
    #[inline(always)]
    #[tactic(auto, using(crate::proofs::FreeTickets::marked))]
    pub(crate) fn insert(&mut self, ticket: usize)
        requires { ticket < MAX_TICKETS }
        ensures { self.new ≡ slice_set self.old ticket true }
    {
        self.bits |= 1 << ticket;
    }

    /// The ticket is no longer free.
    #[inline(always)]
    #[tactic(auto, using(crate::proofs::FreeTickets::unmarked))]
    pub(crate) fn remove(&mut self, ticket: usize)
        requires { ticket < MAX_TICKETS }
        ensures { self.new ≡ slice_set self.old ticket false }
    {
        self.bits &= !(1 << ticket);
    }
}
