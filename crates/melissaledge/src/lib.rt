//! The library: what a caller needs of a machine, of ports on threads, of walks, of tables, and of
//! text, by one name. A crate that lists `melissaledge` needs no other crate of this repository for
//! its code, but for the watch of traces (`watch_report`). A proof file imports what it cites from the
//! crate that defines it.
#![tactic(auto)]

mod accesses;
mod calls;
mod results;

pub use bitflags::Flags;
pub use board::{Board, HartPort, Mapped, PairReport, Report};
pub use calls::MachineCalls;
pub use harts::{
    Blank, Book, Gate, LiveFault, LiveReply, LiveReport, Locked, Named, OpenGate, Shared, Tally,
    run_live, shoot_down, unmap_and_drop,
};
pub use history::{Event, LiveStep, Refusal, Reply, Scope};
pub use lines::Text;
pub use pte::{
    Access, Ctx, Kind, LeafFault, Mode, NotPage, Page, PageSize, Pte, PteFlags, Scheme, Unaligned,
    VirtAddr, What,
};
pub use shoot::{Collected, HartSet, MAX_CAPACITY, MAX_HARTS, MAX_TICKETS, Request};
pub use spaces::{Config, Limit, MAX_SPACES, Memory, OpenFault, Place, Space};
pub use stepcore::{Hart, Machine, Phase, Serving, SpaceState};
pub use tlb::{Entry, TLB_SIZE, Tlb};
pub use walk::{
    AccessedDirty, Advance, Found, Granted, Permitted, Progress, ReadWord, Trap, Trapped, Walk,
    Why, Words, permits, translate, translate_in,
};
