//! Whether the leaves below a word are global.

ghost use Rattle.std.specs.Prelude.{◌≡◌, ◌<◌, ◌↔◌, IsTrue, true};
ghost use Rattle.pte.specs.Address.{top_level, vpn_of};
ghost use Rattle.tlb.specs.declared.store.Entry.{Entry as EntryOf};
ghost use Rattle.watch.specs.Holding.{HasLeaf};
ghost use Rattle.watch_tables.specs.Words.{since, words};
ghost use Rattle.watch_tables.specs.Paths.{kind_in};
ghost use Rattle.watch_tables.specs.Ways.{IsWay};
ghost use Rattle.watch_tables.specs.Leaves.{AreGlobalAt, AreGlobalBelow};

use crate::leaf::{Leaf, lacks_g};
use crate::tables::PageTables;
use crate::way::Way;
use pte::{Kind, PageSize, Pte, Scheme, TABLE_LENGTH};

impl PageTables {
    /// Whether each leaf at or below an index of the table of a way is global. The word there is of
    /// this kind, and was stored when there had been this number of records.
    #[cycle(are_global_below)]
    fn are_global_at(&self, scheme: Scheme, way: Way, index: u16, kind: Kind, records: u64) -> bool
        requires way { IsWay scheme (words self.now) (since self.now) way }
        requires index { index < TABLE_LENGTH }
        requires kind { kind ≡ kind_in (words self.now way.at.table index) }
        requires records { records ≡ since self.now way.at.table index }
        ensures { IsTrue result ↔ AreGlobalAt scheme (words self.now) (since self.now) way index }
    {
        let size = PageSize::at_level(way.level);
        if let Some(leaf) = Leaf::from_kind(way.at.global, size, kind) {
            return leaf.is_global();
        }
        match way.below(scheme, index, kind, records) {
            Some(next) => self.are_global_below(scheme, next),
            None => true,
        }
    }

    /// Whether each leaf in the table of a way or below it is global. Below a word with G each is.
    #[cycle(are_global_below)]
    fn are_global_below(&self, scheme: Scheme, way: Way) -> bool
        requires way { IsWay scheme (words self.now) (since self.now) way }
        ensures { IsTrue result ↔ AreGlobalBelow scheme (words self.now) (since self.now) way }
    {
        let mut from = 0;
        while let Some((index, stored)) = self.next_lacking_g(way.at.table, from) {
            let kind = Pte(stored.word).kind();
            if !self.are_global_at(scheme, way, index, kind, stored.since) {
                return false;
            }
            from = index + 1;
        }
        true
    }

    /// Whether each leaf of a root whose path begins with the word at this index of the root is global:
    /// G is set in the leaf or in a pointer above it. A path that comes to that word only below, where
    /// a pointer leads back to the root, is not meant. No leaf is listed: the first that is not global
    /// ends the search.
    pub fn are_leaves_global(&self, scheme: Scheme, root: u64, index: u16) -> bool
        ensures { IsTrue result ↔ ((e : EntryOf) → HasLeaf scheme (words self.now) root e
            → vpn_of e.page.base (top_level scheme) ≡ index → e.global ≡ true) }
    {
        if index >= TABLE_LENGTH {
            return true;
        }
        let Some(stored) = self.stored_at(root, index) else {
            return true;
        };
        if !lacks_g(stored.word) {
            return true;
        }
        let way = Way::to(root, scheme.top_level());
        let kind = Pte(stored.word).kind();
        self.are_global_at(scheme, way, index, kind, stored.since)
    }
}
