//! The last fills of a TLB: since when what it holds is valid.

use arrayvec::ArrayVec;
use tlb::{Entry, TLB_SIZE};

/// An entry that was filled, and the row since which it is valid.
#[derive(Clone, Copy, Default)]
struct Fill {
    entry: Entry,
    row: u32,
}

/// The last fills of a TLB, the oldest first: as many as it has entries, since each fill drops at
/// least the oldest of a full one.
#[derive(Drop)]
pub struct Fills {
    fills: ArrayVec<Fill, TLB_SIZE>,
}

impl Fills {
    /// No fill.
    pub fn new() -> Fills {
        Fills {
            fills: ArrayVec::new(),
        }
    }

    /// Adds the fill of an entry.
    pub fn add(&mut self, entry: Entry, row: u32) {
        if self.fills.is_full() {
            self.fills.remove(0);
        }
        let _ = self.fills.try_push(Fill { entry, row });
    }

    /// The row since which an entry is valid.
    pub fn valid_since(&self, entry: &Entry) -> Option<u32> {
        let mut found = None;
        for fill in self.fills.as_slice() {
            if fill.entry == *entry {
                found = Some(fill.row);
            }
        }
        found
    }

    /// An entry is valid once more, from a row on, if the TLB holds it still.
    pub fn restore(&mut self, entry: &Entry, row: u32) {
        for fill in self.fills.as_mut_slice() {
            if fill.entry == *entry {
                fill.row = row;
            }
        }
    }
}
