//! What a hart does in one step.

use pte::{Access, Ctx, Page, PteFlags};
use spaces::Place;

/// What a flush asks the harts to drop.
#[derive(Clone, Copy, PartialEq, Eq, Debug)]
pub enum Scope {
    /// What is not global of the address space of a space's ASID.
    Space(u8),
    /// Everything.
    All,
}

/// One step of one hart. Harts, spaces and tickets are numbers from 0, and a step that speaks of
/// one that does not exist, or is not open, is refused. `named` is a set of harts, bit h for hart
/// h, and `va` a virtual address, canonical or not.
#[derive(Clone, Copy, PartialEq, Eq, Debug)]
pub enum Event {
    /// Begins an access: the hart's TLB answers it, or a walk from the root of the hart's space
    /// begins.
    Begin {
        hart: u8,
        va: u64,
        access: Access,
        ctx: Ctx,
    },
    /// Loads the next word of the hart's walk.
    Load {
        hart: u8,
    },
    /// Makes the one store that is due next to map a page: a pointer to a new table, or the leaf.
    Map {
        hart: u8,
        place: Place,
        page: Page,
        ppn: u64,
        flags: PteFlags,
    },
    /// Stores 0 on the leaf of a page, and opens a ticket for the page.
    Unmap {
        hart: u8,
        place: Place,
        page: Page,
        named: u8,
    },
    /// Stores other flags on the leaf of a page, and opens a ticket for the page.
    Protect {
        hart: u8,
        place: Place,
        page: Page,
        flags: PteFlags,
        named: u8,
    },
    /// Opens a ticket for a space or for all, with no store.
    Flush {
        hart: u8,
        scope: Scope,
        named: u8,
    },
    /// Goes to another space, as a write of satp does (privileged manual 4.1.11). The TLB stays.
    Switch {
        hart: u8,
        space: u8,
    },
    /// SFENCE.VMA on the hart's own TLB; `None` is the register x0 (privileged manual 4.2.1).
    Fence {
        hart: u8,
        rs1: Option<u64>,
        rs2: Option<u64>,
    },
    /// Puts the request of an open ticket into the mailbox to another hart.
    Post {
        hart: u8,
        ticket: u32,
        to: u8,
    },
    /// Takes the oldest request out of the mailbox from another hart, and serves it from then on.
    Take {
        hart: u8,
        from: u8,
    },
    /// Fences the hart's TLB as the request that it serves asks.
    ServeFence {
        hart: u8,
    },
    /// Acknowledges the request that the hart serves.
    Ack {
        hart: u8,
    },
    /// Serves an own ticket's request on the own TLB, and counts as acknowledged and collected.
    AckSelf {
        hart: u8,
        ticket: u32,
    },
    /// Collects the acknowledgement of another hart, if there is one.
    Collect {
        hart: u8,
        ticket: u32,
        from: u8,
    },
    /// Frees the number of a ticket whose named harts are all collected.
    Finish {
        hart: u8,
        ticket: u32,
    },
    /// Closes the mailbox to another hart: later posts are refused, what waits stays.
    Close {
        hart: u8,
        to: u8,
    },
    /// Retires a space that no hart is in, and opens a ticket for its address space that names
    /// every hart.
    Retire {
        hart: u8,
        space: u8,
    },
    /// Gives back a retiring space, once every hart is collected for its retirement: stores 0 on
    /// the words of its own tables and of its root's user half. The frames of the tables are unused
    /// then, and the space is free.
    Reclaim {
        hart: u8,
        space: u8,
    },
    /// Makes a free space live under an ASID.
    Create {
        hart: u8,
        space: u8,
        asid: u16,
    },
}
