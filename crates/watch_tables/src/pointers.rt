//! Which words point to a table.

ghost use Rattle.std.specs.Prelude.{ℕ, ◌≡◌, ◌<◌, ◌^◌, ◌==◌, ◌&&◌, ◌||◌, not};
ghost use Rattle.std.specs.Prelude.{IsTrue, OnErr, OnOk, false};
ghost use Rattle.watch_tables.specs.Stored.{is_table};

use std::alloc::{AllocError, Global};
use std::collections::btree_set::{BTreeSet, Range};

/// A word that is a pointer.
#[derive(Clone, Copy, PartialEq, Eq, Debug)]
pub(crate) struct Pointer {
    /// The number of the word.
    pub(crate) number: u64,
    /// Whether it has G.
    pub(crate) global: bool,
    /// How many records had been when it was stored.
    pub(crate) since: u64,
}

/// The pointers, from the table that each points to.
#[derive(Drop)]
pub(crate) struct Pointers {
    // a table, and the number of a word that points to it
    pairs: BTreeSet<(u64, u64)>,
}

impl Pointers {
    ghost use Rattle.watch_tables.specs.Pointers.{has_number, has_pointer};

    /// No pointers.
    pub(crate) fn new(alloc: Global) -> Pointers
        ensures { (table number : ℕ) → has_pointer result table number ≡ false }
    {
        Pointers {
            pairs: BTreeSet::new(alloc),
        }
    }

    /// Adds that the word with a number points to a table, if it does. At `Err` nothing changed.
    pub(crate) fn add(&mut self, table: Option<u64>, number: u64) -> Result<(), AllocError>
        ensures ok { OnOk result ((t n : ℕ) → has_pointer self.new t n
            ≡ ((is_table table t && number == n) || has_pointer self.old t n)) }
        ensures err { OnErr result ((t n : ℕ) → has_pointer self.new t n ≡ has_pointer self.old t n) }
    {
        if let Some(table) = table {
            self.pairs.insert((table, number))?;
        }
        Ok(())
    }

    /// Takes out that the word with a number points to a table, if it did.
    pub(crate) fn remove(&mut self, table: Option<u64>, number: u64)
        ensures { (t n : ℕ) → has_pointer self.new t n
            ≡ (not (is_table table t && number == n) && has_pointer self.old t n) }
    {
        if let Some(table) = table {
            self.pairs.remove(&(table, number));
        }
    }

    /// The pairs of a table and the number of each word that points to it, ascending.
    pub(crate) fn to(&self, table: u64) -> Range<'_, (u64, u64)>
        ensures { (n : ℕ) → n < 2 ^ 64 → IsTrue (has_pointer self.now table n)
            → IsTrue (has_number result n) }
    {
        self.pairs.range((table, 0)..=(table, u64::MAX))
    }
}
