//! Where items stand by page, by frame and by root.

ghost use Rattle.std.specs.Prelude.{◌≡◌, ◌≤◌, ◌++◌, ◌∷◌, [], OnOk, length, map, take};
ghost use Rattle.watch_engine.specs.declared.keys.By.{By as ByOf};
ghost use Rattle.watch_engine.specs.Indexes.{AreIndexes, keys_by};
ghost use Rattle.watch_engine.specs.Keys.{BeginsWith, key_of};

use crate::chains::Chains;
use crate::held::Held;
use crate::keys::By;
use std::alloc::{AllocError, Global};

/// The keys of all places of a list, in chains that find the places of a key.
#[derive(Drop)]
pub(crate) struct Indexes {
    pages: Chains,
    frames: Chains,
    roots: Chains,
}

impl Indexes {
    /// Of no places.
    pub(crate) fn new(alloc: Global) -> Indexes
        ensures { AreIndexes [] result }
    {
        Indexes {
            pages: Chains::new(alloc),
            frames: Chains::new(alloc),
            roots: Chains::new(alloc),
        }
    }

    /// The chains by what an item is found by.
    #[inline(always)]
    pub(crate) fn by(&self, by: By) -> &Chains
        ensures { result.now.keys.items ≡ keys_by by self.now }
    {
        match by {
            By::Page => &self.pages,
            By::Frame => &self.frames,
            By::Root => &self.roots,
        }
    }

    /// With the keys of an item at the end. At `Err` some of them are there.
    pub(crate) fn push(&mut self, item: &Held) -> Result<(), AllocError>
        ensures ok { OnOk result ((by : ByOf) → keys_by by self.new
            ≡ keys_by by self.old ++ key_of by item.now ∷ []) }
        ensures begin { (by : ByOf) → BeginsWith (keys_by by self.old) (keys_by by self.new) }
    {
        self.pages.push(By::Page.key_of(item))?;
        self.frames.push(By::Frame.key_of(item))?;
        self.roots.push(By::Root.key_of(item))
    }

    /// With the keys of these places, of which there are no more than keys, and up to a place the same.
    pub(crate) fn relink(&mut self, places: &[Held], first: usize)
        requires first { first ≤ length places.now }
        requires fewer { (by : ByOf) → length places.now ≤ length (keys_by by self.old) }
        requires same { (by : ByOf) → take first (keys_by by self.old)
            ≡ map (key_of by) (take first places.now) }
        ensures { AreIndexes places.now self.new }
    {
        self.pages.relink(places, By::Page, first);
        self.frames.relink(places, By::Frame, first);
        self.roots.relink(places, By::Root, first);
    }
}
