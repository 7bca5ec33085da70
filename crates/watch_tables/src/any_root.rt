//! Whether the tables of one of many roots have an entry.

ghost use Rattle.std.specs.Prelude.{ℕ, ◌≡◌, ◌↔◌, ◌==◌, if◌then◌else◌, IsTrue, Some, false};
ghost use Rattle.std.specs.List.{list_any};
ghost use Rattle.pte.specs.Address.{top_level, vpn_of};
ghost use Rattle.watch.specs.Computed.{is_mapped};
ghost use Rattle.watch_tables.specs.Words.{words};

use crate::tables::PageTables;
use pte::Scheme;
use tlb::Entry;

/// The new word, or the one before where this is 0.
fn last_filled(word: u64, before: u64) -> u64
    ensures { result ≡ (if word == 0 then before else word) }
{
    if word == 0 { before } else { word }
}

impl PageTables {
    /// Whether the tables at two PPNs have the same word at an index. Where two roots have the same
    /// word for an address, they have the same tables for it from there on.
    pub fn has_same_word(&self, table: u64, other: u64, index: u16) -> bool
        ensures { IsTrue result ↔ (words self.now table index ≡ words self.now other index) }
    {
        self.word(table, index) == self.word(other, index)
    }

    /// Whether the tables of the root have the entry, whose address has this word in the root. Below
    /// another word it was seen that nothing has it.
    fn is_mapped_below(
        &self,
        scheme: Scheme,
        root: u64,
        entry: &Entry,
        word: u64,
        walked: u64,
    ) -> bool
        requires word { words self.now root (vpn_of entry.now.page.base (top_level scheme))
            ≡ Some word }
        requires walked { (other : ℕ)
            → words self.now other (vpn_of entry.now.page.base (top_level scheme)) ≡ Some walked
            → is_mapped scheme (words self.now) (record { root = other; entry = entry.now })
            ≡ false }
        ensures { result ≡ is_mapped scheme (words self.now)
            (record { root = root; entry = entry.now }) }
    {
        if word == 0 {
            return false;
        }
        word != walked && self.is_mapped(scheme, root, entry)
    }

    /// Whether the tables of one of the roots at these PPNs have the page of an entry now, with its
    /// PPN and at least its rights, as global as it is. A page of the kernel lies in tables that all
    /// roots share: where roots in a row have the same word for it, or none, these are walked once.
    pub fn is_mapped_in_any(&self, scheme: Scheme, roots: &[u64], entry: &Entry) -> bool
        ensures { result ≡ list_any (λ root. is_mapped scheme (words self.now)
            (record { root = root; entry = entry.now })) roots.now }
    {
        let index = entry.page.base().vpn(scheme.top_level());
        let mut walked = 0;
        for root in roots {
            let word = self.word(*root, index);
            if self.is_mapped_below(scheme, *root, entry, word, walked) {
                return true;
            }
            walked = last_filled(word, walked);
        }
        false
    }
}
