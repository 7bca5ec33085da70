//! What harts may hold.

ghost use Rattle.std.specs.Prelude.{◌≡◌, ◌++◌, ◌∷◌, [], OnErr, OnOk, false};
ghost use Rattle.std.specs.List.{list_any};
ghost use Rattle.watch_engine.specs.Causes.{applies};
ghost use Rattle.watch_engine.specs.Effects.{AreThere, all_changed};
ghost use Rattle.watch_engine.specs.Held.{held_from, remembered};
ghost use Rattle.watch_engine.specs.PageRuns.{AreHartsOf};

use crate::cause::Cause;
use crate::effects::Effect;
use crate::held::LastLive;
use crate::held_list::{HeldList, Items};
use crate::shared::HARTS;
use pte::Page;
use std::alloc::{AllocError, Global};
use std::marker::Model;

/// What harts may hold and the tables do not tell, found by page, by frame and by root.
#[derive(Drop)]
pub(crate) struct TranslationIndex {
    list: HeldList,
}

impl Model for TranslationIndex {
    ghost use Rattle.std.specs.Prelude.{List};
    ghost use Rattle.watch_engine.specs.declared.held.Held.{Held as HeldOf};
    ghost use Rattle.watch_engine.specs.Places.{items_of};

    ghost Value = { List HeldOf };

    ghost view = { λ s. items_of s.list.places.items };
}

impl TranslationIndex {
    /// Nothing.
    pub(crate) fn new(alloc: Global) -> TranslationIndex
        ensures { result ≡ [] }
    {
        TranslationIndex {
            list: HeldList::new(alloc),
        }
    }

    /// All items, in their order.
    pub(crate) fn iter(&self) -> Items<'_>
        ensures { result ≡ self.now }
    {
        self.list.iter()
    }

    /// Whether the cause may be of some item: it is not where the answer is `false`.
    pub(crate) fn may_concern(&self, cause: &Cause) -> bool
        ensures { result ≡ false → list_any (applies cause.now) self.now ≡ false }
    {
        self.list.may_concern(cause)
    }

    /// The harts of the items of a page: all of them where it is dear to look.
    pub(crate) fn harts_of(&self, page: &Page) -> [bool; HARTS]
        ensures { AreHartsOf page.now self.now result }
    {
        self.list.harts_of(page)
    }

    /// With a translation that was live, as one more item. At `Err` nothing changed.
    pub(crate) fn push(&mut self, live: &LastLive) -> Result<(), AllocError>
        ensures ok { OnOk result (self.new ≡ self.old ++ held_from live.now ∷ []) }
        ensures err { OnErr result (self.new ≡ self.old) }
    {
        self.list.push(live)
    }

    /// With a translation that was live. At `Err` nothing changed.
    pub(crate) fn remember(&mut self, live: &LastLive) -> Result<(), AllocError>
        ensures ok { OnOk result (self.new ≡ remembered live.now self.old) }
        ensures err { OnErr result (self.new ≡ self.old) }
    {
        self.list.remember(live)
    }

    /// With what the effect makes of each item. Nothing that is listed has gone.
    pub(crate) fn apply<E: Effect>(&mut self, effect: &mut E)
        ensures left { self.new ≡ all_changed (E.does effect.old).change self.old }
        ensures there { AreThere self.old }
    {
        self.list.apply(effect);
    }
}
