//! What is reported of a run: what becomes stale, and what stale mappings are used.

use crate::hits::StaleUse;
use pte::Page;
use tlb::Entry;

/// Mappings of a TLB that became stale by a step: those of an entry in a page.
#[derive(Clone, Copy, PartialEq, Eq, Debug)]
pub struct BecameStale {
    /// Whose TLB it is.
    pub hart: u8,
    /// The entry.
    pub entry: Entry,
    /// The page: that of the entry or that of the step, whichever is smaller.
    pub page: Page,
    /// The hart that made the step.
    pub home: u8,
    /// The ticket of the order that the step opened.
    pub ticket: u32,
}

/// What a step does with stale mappings.
#[derive(Clone, Copy, PartialEq, Eq, Debug)]
pub enum StaleItem {
    /// It makes mappings stale.
    Became(BecameStale),
    /// It is an access that a stale mapping answers.
    Used(StaleUse),
}

/// What an event of a run does with stale mappings.
#[derive(Clone, Copy, PartialEq, Eq, Debug)]
pub struct StaleAt {
    /// The number of the step, from 1 on.
    pub step: usize,
    /// What it does.
    pub item: StaleItem,
}
