//! Sets of harts.

ghost use Rattle.std.specs.Prelude.{◌≡◌, slice_set, true};

use pte::MAX_HARTS;
use std::marker::Model;

/// A set of harts, by their numbers.
#[derive(Clone, Copy, PartialEq, Eq, Debug)]
pub struct HartSet {
    // Bit h is set where hart h is in the set.
    bits: u8,
}

impl Model for HartSet {
    ghost use Rattle.std.specs.Prelude.{◌≡◌, List, Bool};
    ghost use Rattle.shoot.specs.HartSet.{byte_of, harts_in};

    ghost Value = { List Bool };

    ghost view = { λ s. harts_in s.bits };

    ghost invariant = { λ s. byte_of (harts_in s.bits) ≡ s.bits };

    ghost inverse = { λ set. record { bits = byte_of set } };

    ghost inverse_ok = { λ s h i. record { bits = h i } };
}

impl From<u8> for HartSet {
    ghost use Rattle.shoot.specs.HartSet.{harts_in};

    ghost from_gives = { λ byte set. set ≡ harts_in byte };

    /// Bit h of the byte stands for hart h.
    #[inline(always)]
    #[tactic(auto, using(crate::proofs::HartBits::byte_back))]
    fn from(byte: u8) -> HartSet {
        HartSet { bits: byte }
    }
}

impl HartSet {
    ghost use Rattle.shoot.specs.HartSet.{no_harts, contains, difference, is_empty};

    /// No hart.
    #[inline(always)]
    #[tactic(auto, unfolding(crate::specs::HartSet::byte_of))]
    pub fn new() -> HartSet
        ensures { result ≡ no_harts }
    {
        HartSet { bits: 0 }
    }

    /// Whether the hart is in the set. A number that no hart can have is not.
    #[inline(always)]
    #[tactic(auto, using(crate::proofs::HartBits::none_past))]
    pub fn contains(&self, hart: u8) -> bool
        ensures { result ≡ contains self.now hart }
    {
        (hart as usize) < MAX_HARTS && (self.bits >> hart) & 1 == 1
    }

    /// Puts a hart in the set. A number that no hart can have is left out.
    #[inline(always)]
    #[tactic(auto, using(crate::proofs::HartBits::none_put))]
    pub fn insert(&mut self, hart: u8)
        ensures { self.new ≡ slice_set self.old hart true }
    {
        if (hart as usize) < MAX_HARTS {
            self.bits |= 1 << hart;
        }
    }

    /// The harts of this set that are not in the other.
    #[inline(always)]
    pub fn difference(&self, other: &HartSet) -> HartSet
        ensures { result ≡ difference self.now other.now }
    {
        HartSet {
            bits: self.bits & !other.bits,
        }
    }

    /// Whether no hart is in the set.
    #[inline(always)]
    #[tactic(auto, using(crate::proofs::HartBits::no_bits))]
    pub fn is_empty(&self) -> bool
        ensures { result ≡ is_empty self.now }
    {
        self.bits == 0
    }
}

impl From<HartSet> for u8 {
    ghost use Rattle.shoot.specs.HartSet.{byte_of};

    ghost from_gives = { λ set byte. byte ≡ byte_of set };

    /// Bit h of the byte is set where hart h is in the set.
    #[inline(always)]
    fn from(set: HartSet) -> u8 {
        set.bits
    }
}

impl Default for HartSet {
    ghost use Rattle.shoot.specs.HartSet.{no_harts};

    ghost is_default = { λ set. set ≡ no_harts };

    /// No hart.
    fn default() -> HartSet {
        HartSet::new()
    }
}
