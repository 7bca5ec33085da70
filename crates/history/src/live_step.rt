//! What a hart does in one step of a live run.

use crate::Scope;
use pte::{Access, Ctx, Page, PteFlags};
use spaces::Place;

/// One step of a hart of a live run, where each hart is a thread with a port of the board. The
/// numbers are those of `Event`, and so are the sets of harts.
#[derive(Clone, Copy, PartialEq, Eq, Debug)]
pub enum LiveStep {
    /// Translates an address to its end, by the hart's TLB or by a walk from the root of the hart's
    /// space.
    Translate {
        va: u64,
        access: Access,
        ctx: Ctx,
    },
    /// Makes the one store that is due next to map a page: a pointer to a new table, or the leaf.
    Map {
        place: Place,
        page: Page,
        ppn: u64,
        flags: PteFlags,
    },
    /// Stores 0 on the leaf of a page, and opens a ticket for the page.
    Unmap {
        place: Place,
        page: Page,
        named: u8,
    },
    /// Stores other flags on the leaf of a page, and opens a ticket for the page.
    Protect {
        place: Place,
        page: Page,
        flags: PteFlags,
        named: u8,
    },
    /// Opens a ticket for a space or for all, with no store.
    Flush {
        scope: Scope,
        named: u8,
    },
    /// Goes to another space, as a write of satp does (privileged manual 4.1.11). The TLB stays.
    Switch {
        space: u8,
    },
    /// SFENCE.VMA on the hart's own TLB; `None` is the register x0 (privileged manual 4.2.1).
    Fence {
        rs1: Option<u64>,
        rs2: Option<u64>,
    },
    /// Arms the cell of an open ticket's request to another hart, and puts the request into the
    /// ring to it.
    Post {
        ticket: u32,
        to: u8,
    },
    /// Takes the oldest request out of the ring from another hart, fences as it asks, and
    /// acknowledges it.
    Serve {
        from: u8,
    },
    /// Serves an own ticket's request on the own TLB, and counts as acknowledged and collected.
    AckSelf {
        ticket: u32,
    },
    /// Collects the acknowledgements of a ticket's request that have been given.
    Collect {
        ticket: u32,
    },
    /// Frees the number of a ticket whose named harts are all collected.
    Finish {
        ticket: u32,
    },
    /// Closes the ring to another hart: later posts are refused, what waits stays.
    Close {
        to: u8,
    },
    /// Serves the other harts and collects a ticket by turns, until all of its harts are collected
    /// or the turns are used up.
    Wait {
        ticket: u32,
    },
}
