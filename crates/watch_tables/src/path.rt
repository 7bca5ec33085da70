//! The path of an address, and the leaf of a page at its end.

ghost use Rattle.std.specs.Prelude.{ℕ, ◌≡◌, ◌≤◌, ◌↔◌, IfSome, IsTrue, None, Option, Some};
ghost use Rattle.pte.specs.Address.{top_level};
ghost use Rattle.walk.specs.Leads.{Leads};
ghost use Rattle.tlb.specs.declared.store.Entry.{Entry as EntryOf};
ghost use Rattle.watch.specs.Holding.{HasLeaf};
ghost use Rattle.watch.specs.Staleness.{IsMapped};
ghost use Rattle.watch_tables.specs.Words.{words};
ghost use Rattle.watch_tables.specs.Paths.{IsReached, kind_in, leaf_of, pointed_from};

use crate::leaf::Leaf;
use crate::tables::PageTables;
use pte::{Kind, Page, Pte, Scheme, VirtAddr};
use tlb::Entry;

/// A table that pointers lead to.
#[derive(Clone, Copy, PartialEq, Eq, Debug)]
pub(crate) struct Reached {
    /// The PPN of the table.
    pub(crate) table: u64,
    /// Whether one of the pointers has G.
    pub(crate) global: bool,
}

impl Reached {
    /// The table that an entry of a kind in this one points to; `None` for what is no pointer.
    #[inline(always)]
    pub(crate) fn below(self, kind: Kind) -> Option<Reached>
        ensures { result ≡ pointed_from self.global kind }
    {
        match kind {
            Kind::Table { ppn, global } => Some(Reached {
                table: ppn,
                global: self.global | global,
            }),
            _ => None,
        }
    }
}

impl PageTables {
    /// The kind of the word at an index of the table at a PPN.
    #[inline(always)]
    fn kind(&self, table: u64, index: u16) -> Kind
        ensures { result ≡ kind_in (words self.now table index) }
    {
        Pte(self.word(table, index)).kind()
    }

    /// The table of a level that the pointers of an address lead to from the root at a PPN, or
    /// `None` if they lead to none.
    #[inline(always)]
    fn table_at(&self, scheme: Scheme, root: u64, va: VirtAddr, level: u8) -> Option<Reached>
        requires { level ≤ top_level scheme }
        ensures some { IfSome result (λ at. IsReached scheme (words self.now) root va level at) }
        ensures none { result ≡ None → (table : ℕ) (word : Option ℕ)
            → ¬ Leads scheme (words self.now) root va level table word }
    {
        let mut at = Reached {
            table: root,
            global: false,
        };
        let mut here = scheme.top_level();
        while here > level {
            let Some(next) = at.below(self.kind(at.table, va.vpn(here))) else {
                return None;
            };
            at = next;
            here -= 1;
        }
        Some(at)
    }

    /// The leaf of just this page, of its base and its size, in the tables of the root at a PPN.
    #[inline(always)]
    fn leaf_at(&self, scheme: Scheme, root: u64, page: Page) -> Option<Leaf>
        ensures { (e : EntryOf) → e.page ≡ page
            → HasLeaf scheme (words self.now) root e ↔ (result ≡ Some (leaf_of e)) }
    {
        if !page.fits(scheme) {
            return None;
        }
        let (base, size) = (page.base(), page.size());
        let level = size.level();
        let Some(at) = self.table_at(scheme, root, base, level) else {
            return None;
        };
        Leaf::from_kind(at.global, size, self.kind(at.table, base.vpn(level)))
    }

    /// Whether the tables of the root at a PPN have an entry now, whatever its ASID.
    pub fn has_leaf(&self, scheme: Scheme, root: u64, entry: &Entry) -> bool
        ensures { IsTrue result ↔ HasLeaf scheme (words self.now) root entry.now }
    {
        match self.leaf_at(scheme, root, entry.page) {
            Some(leaf) => leaf.is_of(entry),
            None => false,
        }
    }

    /// Whether the tables of the root at a PPN have the page of an entry now, with its PPN and at
    /// least its rights, as global as it is.
    pub fn is_mapped(&self, scheme: Scheme, root: u64, entry: &Entry) -> bool
        ensures { IsTrue result
            ↔ IsMapped scheme (words self.now) (record { root = root; entry = entry.now }) }
    {
        match self.leaf_at(scheme, root, entry.page) {
            Some(leaf) => leaf.is_at_least(entry),
            None => false,
        }
    }
}
