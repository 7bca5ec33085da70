//! What a step of mapping a page stored.

/// The one word that a step of mapping a page stored.
#[derive(Clone, Copy, PartialEq, Eq, Debug)]
pub enum Mapped {
    /// A pointer to a new table; the PPN of the table. The same step is due again.
    Table(u64),
    /// The leaf: the page is mapped.
    Leaf,
}
