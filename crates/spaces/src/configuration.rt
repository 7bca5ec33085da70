//! What memory is opened with, and its limits.

ghost use Rattle.std.specs.Prelude.{◌≡◌, ◌+◌, ◌≤◌, ◌<◌, ◌^◌, ◌↔◌, IfSome, IsNone, IsTrue, None, Some, ◌==◌, ◌∷◌, ◌++◌, [], if◌then◌else◌, length, nat_lt, not, find, slice_index, sum};
ghost use Rattle.std.specs.List.{list_all, list_any};
ghost use Rattle.spaces.specs.Limits.{asids_differ, holds_limit};

use crate::faults::Limit;
use crate::places::Place;
use arrayvec::ArrayVec;
use pte::{PPN_LIMIT, Scheme};
pub use pte::{MAX_CAPACITY, MAX_HARTS};

/// How many spaces there may be.
pub const MAX_SPACES: usize = 32;

/// How many slots the kernel window may have.
pub const MAX_WINDOW: u16 = 4;

/// How many table frames there may be.
pub const MAX_FRAMES: u64 = 512;

/// How many table frames there may be for harts on threads.
pub const MAX_LIVE_FRAMES: u64 = 96;

/// How many spare frames each hart has by default.
pub const DEFAULT_SPARES: u16 = 8;

/// The limits, in the order of the fields that they are of.
const IN_ORDER: [Limit; 9] = [
    Limit::Harts,
    Limit::Spaces,
    Limit::Homes,
    Limit::Asids,
    Limit::Window,
    Limit::Ppns,
    Limit::Spares,
    Limit::Frames,
    Limit::Capacity,
];

/// An address space: the hart that alone stores to its tables, and its ASID.
#[derive(Clone, Copy, PartialEq, Eq, Debug, Default)]
pub struct Space {
    /// The hart, below the number of harts.
    pub home: u8,
    /// The ASID, different from those of the other spaces.
    pub asid: u16,
}

/// What memory is opened with.
#[derive(Clone, Debug, Drop, PartialEq, Eq)]
pub struct Config {
    /// The scheme of translation, which all tables have.
    pub scheme: Scheme,
    /// The number of harts, from 1 to 8.
    pub harts: u16,
    /// The spaces, at least one, with homes below the number of harts and different ASIDs.
    pub spaces: ArrayVec<Space, MAX_SPACES>,
    /// How many of the last slots of each root are the kernel window, from 1 to 4.
    pub window: u16,
    /// The PPN of the first table frame. The PPNs of all table frames are below 2^44.
    pub base: u64,
    /// How many spare frames for new tables each hart has: one number for each hart. Window, spaces
    /// and spares together are at most 512 table frames.
    pub spares: ArrayVec<u16, MAX_HARTS>,
    /// The capacity of each mailbox, from 1 to 64.
    pub capacity: u16,
}

impl Default for Config {
    ghost use Rattle.spaces.specs.Defaults.{default_config};

    ghost is_default = { λ config. config ≡ default_config };

    /// What a file asks for that leaves each key out: Sv39, one hart with 8 spare frames, one space
    /// of it with ASID 1, a window of one slot, frames from PPN 0x80000 on, and mailboxes of
    /// capacity 4.
    fn default() -> Config {
        Config::with_harts(1)
    }
}

/// The sum of the numbers.
pub(crate) fn total(spares: &[u16]) -> u64
    requires { length spares.now ≤ MAX_HARTS }
    ensures value { result ≡ sum spares.now }
    ensures bound { result < 2 ^ 32 }
{
    spares.iter().map(|n| u64::from(*n)).sum()
}

/// Whether a space has the ASID.
fn has_asid(spaces: &[Space], asid: u16) -> bool
    ensures { result ≡ list_any (λ s. s.asid == asid) spaces.now }
{
    spaces.iter().any(|space| space.asid == asid)
}

/// Whether all spaces have homes below this number of harts.
fn homes_are_there(spaces: &[Space], harts: u16) -> bool
    ensures { result ≡ list_all (λ s. nat_lt s.home harts) spaces.now }
{
    spaces.iter().all(|space| u16::from(space.home) < harts)
}

/// Whether no two spaces have one ASID.
fn asids_differ(spaces: &[Space]) -> bool
    ensures { result ≡ asids_differ spaces.now }
{
    match spaces {
        [] => true,
        [first, rest @ ..] => !has_asid(rest, first.asid) && asids_differ(rest),
    }
}

/// The first of the limits that a configuration breaks, with at most `frames` table frames.
fn first_broken(limits: &[Limit], config: &Config, frames: u64) -> Option<Limit>
    ensures { result ≡ find (λ limit. not (holds_limit frames config.now limit)) limits.now }
{
    limits
        .iter()
        .copied()
        .find(|limit| !config.holds(*limit, frames))
}

impl Config {
    ghost use Rattle.pte.specs.declared.entry.TheConstants.{PPN_BITS};
    ghost use Rattle.spaces.specs.Layout.{layout_of, frame_count, HasPlace, home_of, root_ppn, spare_ppn};
    ghost use Rattle.spaces.specs.Defaults.{default_for};
    ghost use Rattle.spaces.specs.Limits.{broken_limit, is_within_limits, MeetsLimits};

    /// The default for this many harts, each of which has 8 spare frames; there may be 8 harts at
    /// most.
    pub fn with_harts(harts: u16) -> Config
        ensures { result ≡ default_for harts }
    {
        let mut spaces = ArrayVec::new();
        spaces.push(Space { home: 0, asid: 1 });
        let mut spares = ArrayVec::from([DEFAULT_SPARES; MAX_HARTS]);
        spares.truncate(usize::from(harts));
        Config {
            scheme: Scheme::Sv39,
            harts,
            spaces,
            window: 1,
            base: 0x8_0000,
            spares,
            capacity: 4,
        }
    }

    /// The same configuration under Sv48 (privileged manual 4.5).
    pub fn sv48(self) -> Config
        ensures { result ≡ record self { scheme = Scheme.Sv48 } }
    {
        Config {
            scheme: Scheme::Sv48,
            ..self
        }
    }

    /// The same configuration with one space more, as the last, of this home, the number of a hart,
    /// and this ASID (privileged manual 4.1.11). There must be fewer than 32 spaces, as
    /// `spaces.is_full` tells; `check` judges the home and the ASID.
    pub fn space(self, home: u8, asid: u16) -> Config
        requires { length self.spaces.items < MAX_SPACES }
        ensures { result ≡ record self {
          spaces = record { items = self.spaces.items ++ record { home = home; asid = asid } ∷ [] };
        } }
    {
        let mut config = self;
        config.spaces.push(Space { home, asid });
        config
    }

    /// Whether the limits hold that the fields state, with at most 512 table frames.
    pub fn check(&self) -> bool
        ensures value { result ≡ is_within_limits MAX_FRAMES self.now }
        ensures limits { IsTrue result ↔ MeetsLimits MAX_FRAMES self.now }
    {
        self.broken_limit().is_none()
    }

    /// Whether the limits hold that the fields state, with at most 96 table frames.
    pub fn check_live(&self) -> bool
        ensures value { result ≡ is_within_limits MAX_LIVE_FRAMES self.now }
        ensures limits { IsTrue result ↔ MeetsLimits MAX_LIVE_FRAMES self.now }
    {
        self.broken_live_limit().is_none()
    }

    /// The first limit, in the order of the fields, that does not hold, with at most 512 table
    /// frames. `None` exactly if all hold, where `check` says yes.
    pub fn broken_limit(&self) -> Option<Limit>
        ensures first { result ≡ broken_limit MAX_FRAMES self.now }
        ensures limits { IsNone result ↔ MeetsLimits MAX_FRAMES self.now }
    {
        first_broken(&IN_ORDER, self, MAX_FRAMES)
    }

    /// The first limit, in the order of the fields, that does not hold, with at most 96 table
    /// frames. `None` exactly if all hold, where `check_live` says yes.
    pub fn broken_live_limit(&self) -> Option<Limit>
        ensures first { result ≡ broken_limit MAX_LIVE_FRAMES self.now }
        ensures limits { IsNone result ↔ MeetsLimits MAX_LIVE_FRAMES self.now }
    {
        first_broken(&IN_ORDER, self, MAX_LIVE_FRAMES)
    }

    /// The number of table frames.
    pub fn frame_count(&self) -> u64
        ensures { result ≡ frame_count (layout_of self.now) }
    {
        u64::from(self.window) + self.spaces.len() as u64 + total(&self.spares)
    }

    /// Whether the configuration has the place.
    pub fn has(&self, place: Place) -> bool
        ensures { IsTrue result ↔ HasPlace (layout_of self.now) place }
    {
        match place {
            Place::Space(space) => usize::from(space) < self.spaces.len(),
            Place::Kernel => true,
        }
    }

    /// The home of a place.
    pub(crate) fn home(&self, place: Place) -> u8
        requires { HasPlace (layout_of self.now) place }
        ensures { result ≡ home_of (layout_of self.now) place }
    {
        match place {
            Place::Space(space) => self.spaces[usize::from(space)].home,
            Place::Kernel => 0,
        }
    }

    /// The PPN of the root of a space.
    pub fn root(&self, space: u8) -> u64
        requires limits { MeetsLimits MAX_FRAMES self.now }
        requires space { space < length self.now.spaces.items }
        ensures value { result ≡ root_ppn (layout_of self.now) space }
        ensures range { result < 2 ^ PPN_BITS }
    {
        self.base + u64::from(self.window) + u64::from(space)
    }

    /// The PPN of the spare frame of a hart with this number, from 0 on. `None`: the hart has no
    /// spare frame of this number.
    #[tactic(auto, using(crate::proofs::Homes::sums))]
    pub fn spare(&self, hart: u8, number: u16) -> Option<u64>
        requires limits { MeetsLimits MAX_FRAMES self.now }
        requires hart { hart < length self.now.spares.items }
        ensures value { result
            ≡ (if nat_lt number (slice_index self.now.spares.items hart)
            then Some (spare_ppn (layout_of self.now) hart + number) else None) }
        ensures range { IfSome result (λ frame. frame < 2 ^ PPN_BITS) }
    {
        let hart = usize::from(hart);
        if number < self.spares[hart] {
            let before = u64::from(self.window)
                + self.spaces.len() as u64
                + total(&self.spares[..hart]);
            Some(self.base + before + u64::from(number))
        } else {
            None
        }
    }

    fn holds(&self, limit: Limit, frames: u64) -> bool
        ensures { result ≡ holds_limit frames self.now limit }
    {
        match limit {
            Limit::Harts => (1..=MAX_HARTS).contains(&usize::from(self.harts)),
            Limit::Spaces => (1..=MAX_SPACES).contains(&self.spaces.len()),
            Limit::Homes => homes_are_there(&self.spaces, self.harts),
            Limit::Asids => asids_differ(&self.spaces),
            Limit::Window => (1..=MAX_WINDOW).contains(&self.window),
            Limit::Ppns => self.base.saturating_add(self.frame_count()) <= PPN_LIMIT,
            Limit::Spares => self.spares.len() == usize::from(self.harts),
            Limit::Frames => self.frame_count() <= frames,
            Limit::Capacity => (1..=MAX_CAPACITY).contains(&self.capacity),
        }
    }
}
