//! A call of a port.

use history::Scope;
use pte::{Access, Ctx, Page, PteFlags};
use spaces::Place;

/// One call of a hart's port, with what it is called with.
#[derive(Clone, Copy, PartialEq, Eq, Debug)]
pub enum Call {
    /// `HartPort::translate`.
    Translate {
        va: u64,
        access: Access,
        ctx: Ctx,
    },
    /// `HartPort::map_step`.
    Map {
        place: Place,
        page: Page,
        ppn: u64,
        flags: PteFlags,
    },
    /// `HartPort::unmap`.
    Unmap {
        place: Place,
        page: Page,
        named: u8,
    },
    /// `HartPort::protect`.
    Protect {
        place: Place,
        page: Page,
        flags: PteFlags,
        named: u8,
    },
    /// `HartPort::flush`.
    Flush {
        scope: Scope,
        named: u8,
    },
    /// `HartPort::switch`.
    Switch {
        space: u8,
    },
    /// `HartPort::fence`.
    Fence {
        rs1: Option<u64>,
        rs2: Option<u64>,
    },
    /// `HartPort::post`.
    Post {
        ticket: u32,
        to: u8,
    },
    /// `HartPort::serve`.
    Serve {
        from: u8,
    },
    /// `HartPort::ack_self`.
    AckSelf {
        ticket: u32,
    },
    /// `HartPort::collect`.
    Collect {
        ticket: u32,
    },
    /// `HartPort::finish`.
    Finish {
        ticket: u32,
    },
    /// `HartPort::close_to`.
    CloseTo {
        to: u8,
    },
}
