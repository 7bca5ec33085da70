//! The words of the tables.

ghost use Rattle.std.specs.Prelude.{◌≡◌, ℕ, Option};

/// The memory that holds the tables. A walk reads it and never writes it.
pub trait Words {
    // the word at an index of the table at a PPN, or None outside memory
    ghost words: { Self → ℕ → ℕ → Option ℕ };

    /// The word at an index, below 512, of the table at a PPN; `None` outside memory.
    fn word(&self, ppn: u64, index: u16) -> Option<u64>
        ensures { result ≡ words self.now ppn index };
}
