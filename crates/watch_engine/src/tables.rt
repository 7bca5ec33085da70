//! The page tables of a trace.

ghost use Rattle.std.specs.Prelude.{ℕ, ◌≡◌, ◌≤◌, ◌↔◌, Option, Some, OnOk, OnErr, IfOk, Contains, IsTrue, false, true};
ghost use Rattle.std.specs.List.{list_any};
ghost use Rattle.pte.specs.Address.{top_level, vpn_of};
ghost use Rattle.pte.specs.declared.scheme.Scheme.{Scheme as SchemeOf};
ghost use Rattle.tlb.specs.declared.store.Entry.{Entry as EntryOf};
ghost use Rattle.walk.specs.Maps.{page_number};
ghost use Rattle.watch.specs.Trace.{index_of, is_among, words_after};
ghost use Rattle.watch.specs.declared.trace.Record.TheVariants.{GiveOut, Store};
ghost use Rattle.watch.specs.Computed.{is_mapped};
ghost use Rattle.watch.specs.Holding.{HasLeaf};
ghost use Rattle.watch.specs.Staleness.{IsMapped};
ghost use Rattle.watch_tables.specs.declared.leaf.RootLeaf.{RootLeaf as RootLeafOf};
ghost use Rattle.watch_tables.specs.Paths.{IsUnchangedSince};
ghost use Rattle.watch_tables.specs.Steady.{KeepsWays};
ghost use Rattle.watch_tables.specs.Through.{HasRootLeaf, IsLeafThrough};
ghost use Rattle.watch_tables.specs.Ways.{AreWays};
ghost use Rattle.watch_tables.specs.Words.{AreFilled};

use pte::Scheme;
use std::alloc::{AllocError, Global};
use tlb::Entry;
use watch::Frames;
use watch_tables::{PageTables, RootLeaf, Way};

/// The words of memory as page table entries, and since when each is what it is.
pub trait Tables {
    // the word at an index of the table at a PPN
    ghost words: { Self → ℕ → ℕ → Option ℕ };

    // the number of records after which it was stored, where it is not 0
    ghost since: { Self → ℕ → ℕ → ℕ };

    /// Stores a word at a physical address, as that of so many records. At `Err` nothing changed.
    fn store(&mut self, address: u64, word: u64, count: u64) -> Result<(), AllocError>
        ensures ok { OnOk result ((hart : ℕ)
            → words self.new ≡ words_after (Store hart address word) (words self.old)) }
        ensures others { OnOk result ((t i : ℕ)
            → ¬ ((t ≡ page_number address) × (i ≡ index_of address))
            → since self.new t i ≡ since self.old t i) }
        ensures count { OnOk result (¬ (word ≡ 0)
            → since self.new (page_number address) (index_of address) ≡ count) }
        ensures err { OnErr result (words self.new ≡ words self.old) }
        ensures err_since { OnErr result (since self.new ≡ since self.old) };

    /// Makes each word of the frames 0.
    fn clear(&mut self, frames: Frames)
        ensures words { (hart : ℕ)
            → words self.new ≡ words_after (GiveOut hart frames) (words self.old) }
        ensures others { (t i : ℕ) → is_among frames t ≡ false
            → since self.new t i ≡ since self.old t i };

    /// The physical addresses of the words of the frames that are not 0.
    fn stored_in(&self, alloc: Global, frames: Frames) -> Result<Vec<u64>, AllocError>
        ensures { IfOk result (λ addresses. AreFilled (words self.now) frames addresses.items) };

    /// The ways from roots to the table of the word at a physical address.
    fn ways(&self, alloc: Global, scheme: Scheme, address: u64) -> Result<Vec<Way>, AllocError>
        ensures { IfOk result (λ ways. AreWays scheme (words self.now) (since self.now)
            (page_number address) ways.items) };

    /// The leaves whose paths pass through the word at a physical address, to whose table these are
    /// the ways.
    fn leaves_through(
        &self,
        alloc: Global,
        scheme: Scheme,
        address: u64,
        ways: &[Way],
    ) -> Result<Vec<RootLeaf>, AllocError>
        requires { AreWays scheme (words self.now) (since self.now) (page_number address) ways.now }
        ensures exact { IfOk result (λ leaves. (root : ℕ) (e : EntryOf)
            → HasRootLeaf leaves.items root e
            ↔ IsLeafThrough scheme (words self.now) root (page_number address) (index_of address) e) }
        ensures since { IfOk result (λ leaves. (x : RootLeafOf) → Contains leaves.items x
            → (n : ℕ) → (x.since ≤ n)
            ↔ IsUnchangedSince scheme (words self.now) (since self.now) x.root x.entry n) };

    /// Whether the tables under a root have the leaf, whatever its ASID.
    fn has_leaf(&self, scheme: Scheme, root: u64, entry: &Entry) -> bool
        ensures { IsTrue result ↔ HasLeaf scheme (words self.now) root entry.now };

    /// Whether the tables under a root map what the entry says, with at least its rights.
    fn is_mapped(&self, scheme: Scheme, root: u64, entry: &Entry) -> bool
        ensures { IsTrue result
            ↔ IsMapped scheme (words self.now) (record { root = root; entry = entry.now }) };

    /// Whether the tables at two PPNs are known to have the same word at an index.
    fn has_same_word(&self, table: u64, other: u64, index: u16) -> bool
        ensures { IsTrue result → words self.now table index ≡ words self.now other index }
    {
        let _ = (table, other, index);
        false
    }

    /// Whether each leaf of a root whose path begins with the word at an index of the root is known to
    /// be global.
    fn are_leaves_global(&self, scheme: Scheme, root: u64, index: u16) -> bool
        ensures { IsTrue result → (e : EntryOf) → HasLeaf scheme (words self.now) root e
            → vpn_of e.page.base (top_level scheme) ≡ index → e.global ≡ true }
    {
        let _ = (scheme, root, index);
        false
    }

    /// Whether it is known that a store of a word at a physical address leaves the ways to each table
    /// as they are.
    fn keeps_ways(&self, address: u64, word: u64) -> bool
        ensures { IsTrue result → KeepsWays (words self.now) (since self.now) address word }
    {
        let _ = (address, word);
        false
    }

    /// Whether the tables under one of these roots map what the entry says, with at least its rights.
    fn is_mapped_in_any(&self, scheme: Scheme, roots: &[u64], entry: &Entry) -> bool
        ensures { result ≡ list_any (λ root. is_mapped scheme (words self.now)
            (record { root = root; entry = entry.now })) roots.now }
    {
        for root in roots {
            if self.is_mapped(scheme, *root, entry) {
                return true;
            }
        }
        false
    }
}

impl Tables for PageTables {
    ghost use Rattle.watch_tables.specs.Words.{since, words};

    ghost words = { words };

    ghost since = { since };

    fn store(&mut self, address: u64, word: u64, count: u64) -> Result<(), AllocError> {
        PageTables::store(self, address, word, count)
    }

    fn clear(&mut self, frames: Frames) {
        PageTables::clear(self, frames);
    }

    fn stored_in(&self, alloc: Global, frames: Frames) -> Result<Vec<u64>, AllocError> {
        PageTables::stored_in(self, alloc, frames)
    }

    fn ways(&self, alloc: Global, scheme: Scheme, address: u64) -> Result<Vec<Way>, AllocError> {
        PageTables::ways(self, alloc, scheme, address)
    }

    fn leaves_through(
        &self,
        alloc: Global,
        scheme: Scheme,
        address: u64,
        ways: &[Way],
    ) -> Result<Vec<RootLeaf>, AllocError> {
        PageTables::leaves_through(self, alloc, scheme, address, ways)
    }

    fn has_leaf(&self, scheme: Scheme, root: u64, entry: &Entry) -> bool {
        PageTables::has_leaf(self, scheme, root, entry)
    }

    fn is_mapped(&self, scheme: Scheme, root: u64, entry: &Entry) -> bool {
        PageTables::is_mapped(self, scheme, root, entry)
    }

    fn has_same_word(&self, table: u64, other: u64, index: u16) -> bool {
        PageTables::has_same_word(self, table, other, index)
    }

    fn are_leaves_global(&self, scheme: Scheme, root: u64, index: u16) -> bool {
        PageTables::are_leaves_global(self, scheme, root, index)
    }

    fn keeps_ways(&self, address: u64, word: u64) -> bool {
        PageTables::keeps_ways(self, address, word)
    }

    fn is_mapped_in_any(&self, scheme: Scheme, roots: &[u64], entry: &Entry) -> bool {
        PageTables::is_mapped_in_any(self, scheme, roots, entry)
    }
}
