//! The leaves whose paths pass through a word.

ghost use Rattle.std.specs.Prelude.{ℕ, ◌≡◌, ◌≤◌, ◌<◌, ◌⊎◌, ◌↔◌, IfOk, OnOk};
ghost use Rattle.std.specs.List.{Contains};
ghost use Rattle.tlb.specs.declared.store.Entry.{Entry as EntryOf};
ghost use Rattle.walk.specs.Maps.{page_number};
ghost use Rattle.watch.specs.Trace.{index_of};
ghost use Rattle.watch_tables.specs.declared.leaf.RootLeaf.{RootLeaf as RootLeafOf};
ghost use Rattle.watch_tables.specs.Words.{since, words};
ghost use Rattle.watch_tables.specs.Paths.{IsUnchangedSince, kind_in};
ghost use Rattle.watch_tables.specs.Ways.{AreWays, IsInLevels, IsWay};
ghost use Rattle.watch_tables.specs.Leaves.{IsLeafAt, IsLeafBelow};
ghost use Rattle.watch_tables.specs.Through.{HasRootLeaf, IsLeafThrough};

use crate::leaf::{Leaf, RootLeaf, leads_on};
use crate::tables::{PageTables, index_of};
use crate::way::{Way, latest};
use pte::{Kind, PAGE_BYTES, PageSize, Pte, Scheme, TABLE_LENGTH};
use std::alloc::{AllocError, Global};

impl PageTables {
    /// Adds the leaves at or below an index of the table of a way. The word there is of this kind, and
    /// was stored when there had been this number of records.
    #[cycle(add_leaves)]
    fn add_leaves_at(
        &self,
        scheme: Scheme,
        way: Way,
        index: u16,
        kind: Kind,
        records: u64,
        out: &mut Vec<RootLeaf>,
    ) -> Result<(), AllocError>
        requires way { IsWay scheme (words self.now) (since self.now) way }
        requires index { index < TABLE_LENGTH }
        requires kind { kind ≡ kind_in (words self.now way.at.table index) }
        requires records { records ≡ since self.now way.at.table index }
        ensures { OnOk result ((x : RootLeafOf) → Contains out.new.items x ↔ (Contains out.old.items x
            ⊎ IsLeafAt scheme (words self.now) (since self.now) way index x)) }
    {
        let size = PageSize::at_level(way.level);
        if let Some(leaf) = Leaf::from_kind(way.at.global, size, kind) {
            out.push(RootLeaf {
                root: way.root,
                entry: leaf.entry(way.page(scheme, index)),
                since: latest(way.since, records),
            })?;
            return Ok(());
        }
        match way.below(scheme, index, kind, records) {
            Some(next) => self.add_leaves(scheme, next, out),
            None => Ok(()),
        }
    }

    /// Adds the leaves in the table of a way or below it.
    #[cycle(add_leaves)]
    fn add_leaves(
        &self,
        scheme: Scheme,
        way: Way,
        out: &mut Vec<RootLeaf>,
    ) -> Result<(), AllocError>
        requires way { IsWay scheme (words self.now) (since self.now) way }
        ensures { OnOk result ((x : RootLeafOf) → Contains out.new.items x ↔ (Contains out.old.items x
            ⊎ IsLeafBelow scheme (words self.now) (since self.now) way x)) }
    {
        let mut from = 0;
        while let Some((index, stored)) = self.next_word(way.at.table, from) {
            let kind = Pte(stored.word).kind();
            self.add_leaves_at(scheme, way, index, kind, stored.since, out)?;
            from = index + 1;
        }
        Ok(())
    }

    /// The leaves of each root whose path passes through the word at a physical address, by the ways
    /// to its table, in no order that is promised. A word that is no pointer has at most one for each
    /// way; a leaf whose path passes twice through the word may come twice. Refused only where memory
    /// runs out.
    pub fn leaves_through(
        &self,
        alloc: Global,
        scheme: Scheme,
        address: u64,
        ways: &[Way],
    ) -> Result<Vec<RootLeaf>, AllocError>
        requires { AreWays scheme (words self.now) (since self.now) (page_number address) ways.now }
        ensures exact { IfOk result (λ leaves. (root : ℕ) (e : EntryOf)
            → HasRootLeaf leaves.items root e ↔ IsLeafThrough scheme (words self.now) root
            (page_number address) (index_of address) e) }
        ensures since { IfOk result (λ leaves. (x : RootLeafOf) → Contains leaves.items x
            → (count : ℕ) → (x.since ≤ count)
            ↔ IsUnchangedSince scheme (words self.now) (since self.now) x.root x.entry count) }
    {
        let mut out = Vec::new(alloc);
        let index = index_of(address);
        let Some(stored) = self.stored_at(address / PAGE_BYTES, index) else {
            return Ok(out);
        };
        let kind = Pte(stored.word).kind();
        if !leads_on(kind) {
            return Ok(out);
        }
        for way in ways {
            self.add_leaves_at(scheme, *way, index, kind, stored.since, &mut out)?;
        }
        Ok(out)
    }
}
