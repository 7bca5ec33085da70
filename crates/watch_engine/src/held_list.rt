//! The list of what harts may hold, and where its items stand by page, by frame and by root.

ghost use Rattle.std.specs.Prelude.{List, ◌≡◌, ◌+◌, ◌≤◌, ◌&&◌, ◌==◌, ◌++◌, ◌∷◌, [], OnErr, OnOk, false, length, map, take, true};
ghost use Rattle.std.specs.Option.{ForSome};
ghost use Rattle.std.specs.List.{list_any};
ghost use Rattle.watch_engine.specs.Causes.{applies};
ghost use Rattle.watch_engine.specs.declared.held.Held.{Held as HeldOf};
ghost use Rattle.watch_engine.specs.Effects.{IsPartly, all_changed, changed, is_due};
ghost use Rattle.watch_engine.specs.Held.{held_from, is_of, last_translation, remembered};
ghost use Rattle.watch_engine.specs.Indexes.{AreIndexes};
ghost use Rattle.watch_engine.specs.Keys.{AreSmall, IsAmong, key_of};
ghost use Rattle.watch_engine.specs.Places.{AreFewGone, count_gone, has, items_of, place_in};

use crate::cause::Cause;
use crate::concern::keys_of_cause;
use crate::effects::Effect;
use crate::held::{Held, LastLive};
use crate::indexes::Indexes;
use crate::keys::{By, Keys};
use crate::places::{add_empty, apply_each, apply_with_keys, end_of};
use std::alloc::{AllocError, Global};
use std::marker::Model;

/// How many empty places are let be, however few items there are.
const FEW_EMPTY: usize = 16;

/// How many steps along chains a look for items may take, however few places there are.
const FEW_STEPS: usize = 16;

/// For how many concerns of a record, and no more than there are steps, items are looked for by the keys of
/// each. With more of them the whole list is scanned.
const FEW_CONCERNS: usize = 64;

/// For how many places of the list one step along a chain may be taken.
const CHAIN_SHARE: usize = 32;

/// What harts may hold and the tables do not tell, with chains that find items by page, by frame and
/// by root. An item that goes leaves its place empty, so that nothing moves and no chain changes; all
/// are closed up once more than half of them are empty, or empty ones have cost as much. What harts hold
/// is the items that are there, in their order.
#[derive(Drop)]
pub(crate) struct HeldList {
    pub(crate) places: Vec<Held>,
    /// How often a place was emptied or found empty since all were closed up, which so many steps pay:
    /// no more than there are places.
    pub(crate) empty: usize,
    pub(crate) indexes: Indexes,
    ghost indexed: { AreIndexes places.items indexes },
    ghost counted: { count_gone places.items ≤ empty },
}

/// The items of places, but for those that have gone.
#[derive(Drop)]
pub(crate) struct Items<'a> {
    places: &'a [Held],
}

impl<'a> Model for Items<'a> {
    ghost use Rattle.std.specs.Prelude.{List};
    ghost use Rattle.watch_engine.specs.declared.held.Held.{Held as HeldOf};
    ghost use Rattle.watch_engine.specs.Places.{items_of};

    ghost Value = { List HeldOf };

    ghost view = { λ s. items_of s.places.now };
}

impl<'a> Iterator for Items<'a> {
    ghost use Rattle.std.specs.Iterator.{YieldsFirstRef, item_count};

    type Item = &'a Held;

    ghost next_gives = { YieldsFirstRef (λ s. s) };

    ghost remaining = { item_count (λ s. s) };

    #[inline]
    fn next(&mut self) -> Option<&'a Held> {
        while let Some((first, others)) = self.places.split_first() {
            self.places = others;
            if !first.state.is_gone() {
                return Some(first);
            }
        }
        None
    }
}

// Applies the effect to the items with one of the keys of its concerns. How many places are empty then
// of those that were looked at. `None` once the steps are used up, or where few keys do not tell what it
// concerns, and then some items may still be as they were.
fn apply_by_keys<E: Effect>(
    places: &mut [Held],
    indexes: &Indexes,
    effect: &mut E,
    steps: &mut usize,
) -> Option<usize>
    requires { AreIndexes places.old indexes.now }
    ensures partly { IsPartly (E.does effect.old).change places.old places.new }
    ensures none { ForSome result (λ _. list_any (is_due (E.does effect.old).change) places.new
        ≡ false) }
    ensures gone { ForSome result (λ empty.
        count_gone places.new ≤ count_gone places.old + empty) }
    ensures same { E.does effect.new ≡ E.does effect.old }
{
    let count = effect.count();
    if count > FEW_CONCERNS.min(*steps) {
        return None;
    }
    let mut empty: usize = 0;
    for number in 0..count {
        let Some(keys) = effect.concern(number).keys() else {
            return None;
        };
        let chains = indexes.by(keys.by);
        let Some(more) = apply_with_keys(places, chains, &keys, effect, steps) else {
            return None;
        };
        empty = add_empty(places, empty, more);
    }
    Some(empty)
}

// Applies the effect to all items that it changes: along the chains of few keys while there are steps, or
// over the whole list. How many places are empty then of those that were looked at.
fn apply_to_all<E: Effect>(
    places: &mut [Held],
    indexes: &Indexes,
    effect: &mut E,
    steps: &mut usize,
) -> usize
    requires { AreIndexes places.old indexes.now }
    ensures places { places.new ≡ map (changed (E.does effect.old).change) places.old }
    ensures gone { count_gone places.new ≤ count_gone places.old + result }
{
    let walked = apply_by_keys(places, indexes, effect, steps);
    let Some(empty) = walked else {
        return apply_each(places, effect);
    };
    empty
}

impl HeldList {
    /// Nothing.
    pub(crate) fn new(alloc: Global) -> HeldList
        ensures { items_of result.places.items ≡ [] }
    {
        HeldList {
            places: Vec::new(alloc),
            empty: 0,
            indexes: Indexes::new(alloc),
        }
    }

    /// All items, in their order.
    pub(crate) fn iter(&self) -> Items<'_>
        ensures { result ≡ items_of self.now.places.items }
    {
        Items {
            places: self.places.as_slice(),
        }
    }

    // How many steps a look for items may take along chains. A step along a chain is dearer than one
    // along the list: with so few, a look that gives up adds about a third to the scan of the list that
    // takes its place.
    fn chain_steps(&self) -> usize {
        FEW_STEPS + self.places.len() / CHAIN_SHARE
    }

    // Whether the cause may be of an item that has the key: so where the steps are used up.
    fn may_concern_with(&self, by: By, key: u64, cause: &Cause, steps: &mut usize) -> bool
        ensures { result ≡ false → list_any (λ i. (key_of by i == key) && applies cause.now i)
            self.now.places.items ≡ false }
    {
        let chains = self.indexes.by(by);
        let places = self.places.as_slice();
        let Some(mut at) = chains.newest(key, steps) else {
            return true;
        };
        while at > 0 {
            if places[at - 1].is_of_cause(cause) {
                return true;
            }
            let Some(older) = chains.before(at, steps) else {
                return true;
            };
            at = older;
        }
        false
    }

    // The same of items that have one of the keys.
    fn may_concern_among(&self, keys: &Keys, cause: &Cause, steps: &mut usize) -> bool
        requires { AreSmall keys.now }
        ensures { result ≡ false → ((i : HeldOf) → applies cause.now i ≡ true
            → IsAmong keys.now (key_of keys.now.by i))
            → list_any (applies cause.now) self.now.places.items ≡ false }
    {
        if self.may_concern_with(keys.by, keys.limit, cause, steps) {
            return true;
        }
        for offset in 0..keys.len() {
            if self.may_concern_with(keys.by, keys.key(offset), cause, steps) {
                return true;
            }
        }
        false
    }

    /// Whether the cause may be of some item: it is not where the answer is `false`.
    pub(crate) fn may_concern(&self, cause: &Cause) -> bool
        ensures { result ≡ false
            → list_any (applies cause.now) (items_of self.now.places.items) ≡ false }
    {
        let Some(keys) = keys_of_cause(cause) else {
            return true;
        };
        let mut steps = self.chain_steps();
        self.may_concern_among(&keys, cause, &mut steps)
    }

    // The place of a translation. By turns from the front of the list and along the chain of its page.
    fn place_of(&self, live: &LastLive) -> Option<usize>
        ensures { result ≡ place_in (has (is_of live.now.hart (last_translation live.now))) 0
            self.now.places.items }
    {
        let places = self.places.as_slice();
        let key = By::Page.key_of(&Held::from_live(live));
        let pages = self.indexes.by(By::Page);
        let mut at = pages.head(key);
        let mut front = 0;
        let mut found = None;
        while at > front {
            if places[front].is_of_live(live) {
                return Some(front);
            }
            front += 1;
            if places[at - 1].is_of_live(live) {
                found = Some(at - 1);
            }
            at = pages.older(at);
        }
        found
    }

    // With a translation that was live, as one more item. At `Err` nothing changed.
    fn try_push(&mut self, live: &LastLive) -> Result<(), AllocError>
        ensures ok { OnOk result (items_of self.new.places.items
            ≡ items_of self.old.places.items ++ held_from live.now ∷ []) }
        ensures err { OnErr result (items_of self.new.places.items
            ≡ items_of self.old.places.items) }
    {
        let item = Held::from_live(live);
        let count = self.places.len();
        let keyed = self.indexes.push(&item);
        if keyed.is_ok() && self.places.push(item).is_ok() {
            return Ok(());
        }
        self.indexes.relink(self.places.as_slice(), count);
        Err(AllocError)
    }

    // Without the empty places behind the last item.
    fn cut_end(&mut self)
        ensures { items_of self.new.places.items ≡ items_of self.old.places.items }
    {
        let count = self.places.len();
        let end = end_of(self.places.as_slice());
        if end == count {
            return;
        }
        self.places.truncate(end);
        self.indexes.relink(self.places.as_slice(), end);
        self.empty = self.empty.saturating_sub(count - end);
    }

    // Without the empty places.
    fn close_up(&mut self)
        ensures same { items_of self.new.places.items ≡ items_of self.old.places.items }
        ensures none { count_gone self.new.places.items ≡ 0 }
    {
        self.places.retain(|item| !item.state.is_gone());
        self.indexes.relink(self.places.as_slice(), 0);
        self.empty = 0;
    }

    /// With a translation that was live, as one more item. At `Err` nothing changed: empty places are
    /// closed up before memory is said to be short.
    pub(crate) fn push(&mut self, live: &LastLive) -> Result<(), AllocError>
        ensures ok { OnOk result (items_of self.new.places.items
            ≡ items_of self.old.places.items ++ held_from live.now ∷ []) }
        ensures err { OnErr result (items_of self.new.places.items
            ≡ items_of self.old.places.items) }
    {
        if self.try_push(live).is_ok() {
            return Ok(());
        }
        if self.empty == 0 {
            return Err(AllocError);
        }
        self.close_up();
        self.try_push(live)
    }

    /// With a translation that was live. At `Err` nothing changed.
    pub(crate) fn remember(&mut self, live: &LastLive) -> Result<(), AllocError>
        ensures ok { OnOk result (items_of self.new.places.items
            ≡ remembered live.now (items_of self.old.places.items)) }
        ensures err { OnErr result (items_of self.new.places.items
            ≡ items_of self.old.places.items) }
    {
        let Some(place) = self.place_of(live) else {
            return self.push(live);
        };
        self.places[place].touch(live.last_live);
        Ok(())
    }

    /// Closes up where that is worth its cost, by how many places were emptied or found empty. It needs no
    /// memory.
    pub(crate) fn tidy(&mut self)
        ensures same { items_of self.new.places.items ≡ items_of self.old.places.items }
        ensures few { AreFewGone self.new.places.items }
    {
        self.cut_end();
        if self.empty > FEW_EMPTY && self.empty > self.places.len() / 2 {
            self.close_up();
        }
    }

    /// With what the effect makes of each item.
    pub(crate) fn apply<E: Effect>(&mut self, effect: &mut E)
        ensures left { items_of self.new.places.items
            ≡ all_changed (E.does effect.old).change (items_of self.old.places.items) }
        ensures few { AreFewGone self.new.places.items }
    {
        if self.places.is_empty() {
            return;
        }
        let mut steps = self.chain_steps();
        let empty = apply_to_all(
            self.places.as_mut_slice(),
            &self.indexes,
            effect,
            &mut steps,
        );
        self.empty = add_empty(self.places.as_slice(), self.empty, empty);
        self.tidy();
    }
}
