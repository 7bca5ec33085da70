//! Stores at which the ways to tables stay.

ghost use Rattle.std.specs.Prelude.{ℕ, ◌≡◌, IsTrue, Some, false};
ghost use Rattle.walk.specs.Leads.{PointsTo};
ghost use Rattle.watch_tables.specs.Steady.{KeepsWays};
ghost use Rattle.watch_tables.specs.Words.{since, words};

use crate::tables::{PageTables, index_of};
use pte::{Kind, PAGE_BYTES, Pte};

/// Whether a word is a pointer.
fn is_pointer(word: u64) -> bool
    ensures { result ≡ false → (table : ℕ) → ¬ PointsTo (Some word) table }
{
    match Pte(word).kind() {
        Kind::Table { .. } => true,
        _ => false,
    }
}

impl PageTables {
    /// Whether a store of a word at a physical address leaves the ways to each table as they are:
    /// neither the word that is there nor the new one is a pointer.
    pub fn keeps_ways(&self, address: u64, word: u64) -> bool
        ensures { IsTrue result → KeepsWays (words self.now) (since self.now) address word }
    {
        if is_pointer(word) {
            return false;
        }
        !is_pointer(self.word(address / PAGE_BYTES, index_of(address)))
    }
}
