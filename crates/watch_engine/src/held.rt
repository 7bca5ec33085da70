//! What harts may hold and the tables do not tell.

ghost use Rattle.std.specs.Prelude.{ℕ, Bool, ◌≡◌, ◌↔◌, ◌++◌, ◌∷◌, [], map, Option, OnOk, OnErr, IfOk, Contains, IsTrue};
ghost use Rattle.watch_tables.specs.Ways.{later};
ghost use Rattle.watch_engine.specs.Held.{held_from, is_of, is_same_entry, last_live_in, last_translation};
ghost use Rattle.watch_engine.specs.Places.{has};

use crate::state::State;
use tlb::Entry;
use watch::Space;

/// A translation that a hart may hold, and what is known of it.
#[derive(Clone, Copy, PartialEq, Eq, Debug)]
pub(crate) struct Held {
    pub(crate) hart: u8,
    /// The PPN of the root table that it came from.
    pub(crate) root: u64,
    pub(crate) entry: Entry,
    /// The number of records after which it was live last, as far as is known.
    pub(crate) last_live: u64,
    pub(crate) state: State,
}

/// A translation that was live for a hart. Of what is global, root and ASID are 0.
#[derive(Clone, Copy, PartialEq, Eq, Debug)]
pub(crate) struct LastLive {
    pub(crate) hart: u8,
    pub(crate) root: u64,
    pub(crate) entry: Entry,
    /// The number of records after which it was live last.
    pub(crate) last_live: u64,
}

impl LastLive {
    /// A leaf of an address space.
    pub(crate) fn of_leaf(hart: u8, space: Space, entry: &Entry, last_live: u64) -> LastLive
        ensures { result ≡ last_live_in hart space entry.now last_live }
    {
        if entry.global {
            LastLive {
                hart,
                root: 0,
                entry: Entry { asid: 0, ..*entry },
                last_live,
            }
        } else {
            LastLive {
                hart,
                root: space.root,
                entry: Entry {
                    asid: space.asid,
                    ..*entry
                },
                last_live,
            }
        }
    }
}

fn later(a: u64, b: u64) -> u64
    ensures { result ≡ later a b }
{
    if a < b { b } else { a }
}

/// Whether the entries are the same in each field.
pub(crate) fn is_same_entry(entry: &Entry, other: &Entry) -> bool
    ensures { result ≡ is_same_entry entry.now other.now }
{
    entry.asid == other.asid
        && entry.global == other.global
        && entry.page.base().get() == other.page.base().get()
        && entry.page.size().level() == other.page.size().level()
        && entry.ppn == other.ppn
        && entry.flags == other.flags
}

impl Held {
    /// What was live, as one that may be held.
    pub(crate) fn from_live(live: &LastLive) -> Held
        ensures { result ≡ held_from live.now }
    {
        Held {
            hart: live.hart,
            root: live.root,
            entry: live.entry,
            last_live: live.last_live,
            state: State::Current,
        }
    }

    /// Whether it is there, and the translation that was live.
    #[inline]
    pub(crate) fn is_of_live(&self, live: &LastLive) -> bool
        ensures { result ≡ has (is_of live.now.hart (last_translation live.now)) self.now }
    {
        !self.state.is_gone()
            && self.hart == live.hart
            && self.root == live.root
            && is_same_entry(&self.entry, &live.entry)
    }

    /// With a moment at which it was live.
    pub(crate) fn touch(&mut self, last_live: u64)
        ensures { self.new ≡ record self.old { last_live = later self.old.last_live last_live } }
    {
        self.last_live = later(self.last_live, last_live);
    }
}
