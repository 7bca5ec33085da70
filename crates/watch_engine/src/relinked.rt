//! Chains of the keys of items, some of which have been taken out.

ghost use Rattle.std.specs.Prelude.{◌≡◌, ◌<◌, ◌≤◌, length, map, take};
ghost use Rattle.watch_engine.specs.Chains.{AreChained};
ghost use Rattle.watch_engine.specs.Keys.{key_of};

use crate::chains::{Chains, bucket_of, link};
use crate::held::Held;
use crate::keys::By;

// Takes the keys from a place on out of their chains, the last first.
fn unlink_from(keys: &[u64], links: &[usize], heads: &mut [usize], first: usize)
    requires first { first ≤ length keys.now }
    requires links { length links.now ≡ length keys.now }
    requires heads { 0 < length keys.now → 0 < length heads.old }
    requires chained { AreChained (length heads.old) keys.now links.now heads.old }
    ensures { AreChained (length heads.old) (take first keys.now) links.now heads.new }
{
    let mut place = keys.len();
    while place > first {
        place -= 1;
        let bucket = bucket_of(heads.len(), keys[place]);
        heads[bucket] = links[place];
    }
}

// Puts the keys of the places from one on into their chains.
fn link_from(
    places: &[Held],
    by: By,
    keys: &mut [u64],
    links: &mut [usize],
    heads: &mut [usize],
    first: usize,
)
    requires first { first ≤ length places.now }
    requires fewer { length places.now ≤ length keys.old }
    requires links { length links.old ≡ length keys.old }
    requires heads { 0 < length keys.old → 0 < length heads.old }
    requires same { take first keys.old ≡ map (key_of by) (take first places.now) }
    requires chained { AreChained (length heads.old) (take first keys.old) links.old heads.old }
    ensures keys { take (length places.now) keys.new ≡ map (key_of by) places.now }
    ensures chained { AreChained (length heads.old) (take (length places.now) keys.new) links.new
        heads.new }
{
    for place in first..places.len() {
        keys[place] = by.key_of(&places[place]);
        link(keys, links, heads, place);
    }
}

impl Chains {
    /// With the keys of these places, of which there are no more than keys, and up to a place the
    /// same. It needs no memory.
    pub(crate) fn relink(&mut self, places: &[Held], by: By, first: usize)
        requires first { first ≤ length places.now }
        requires fewer { length places.now ≤ length self.old.keys.items }
        requires same { take first self.old.keys.items ≡ map (key_of by) (take first places.now) }
        ensures { self.new.keys.items ≡ map (key_of by) places.now }
    {
        unlink_from(
            self.keys.as_slice(),
            self.links.as_slice(),
            self.heads.as_mut_slice(),
            first,
        );
        link_from(
            places,
            by,
            self.keys.as_mut_slice(),
            self.links.as_mut_slice(),
            self.heads.as_mut_slice(),
            first,
        );
        self.keys.truncate(places.len());
        self.links.truncate(places.len());
    }
}
