//! The records of a trace.

/// An address space as satp names it (privileged manual 4.1.11).
#[derive(Clone, Copy, PartialEq, Eq, Debug)]
pub struct Space {
    /// The PPN of the root table.
    pub root: u64,
    /// The number of the address space.
    pub asid: u16,
}

/// Virtual addresses from a first one on.
#[derive(Clone, Copy, PartialEq, Eq, Debug)]
pub struct AddressRange {
    /// The first address.
    pub start: u64,
    /// How many bytes.
    pub size: u64,
}

/// Frames of 4 KiB that follow one another.
#[derive(Clone, Copy, PartialEq, Eq, Debug)]
pub struct Frames {
    /// The PPN of the first frame.
    pub first: u64,
    /// How many frames.
    pub count: u64,
}

/// A fence of which only the begin and the end are seen, because other harts execute it: one by the
/// firmware (SBI, RFENCE extension) or by an interrupt of the kernel's.
#[derive(Clone, Copy, PartialEq, Eq, Debug)]
pub struct RemoteFence {
    /// The harts that execute it, bit h for hart h.
    pub harts: u64,
    /// The addresses that it is for; `None` for all.
    pub range: Option<AddressRange>,
    /// The address space that it is for; `None` for all, and for what is global too.
    pub asid: Option<u16>,
}

/// What a kernel takes for gone from every TLB once its flush has returned.
#[derive(Clone, Copy, PartialEq, Eq, Debug)]
pub struct Claim {
    /// What is not global of the tables of the root at this PPN; `None` for what is mapped under
    /// any root, global or not.
    pub root: Option<u64>,
    /// Of these addresses; `None` for all.
    pub range: Option<AddressRange>,
}

/// What a hart did. Harts are numbers from 0. A remote fence, and a claim, ends under the token
/// that it began under.
#[derive(Clone, Copy, PartialEq, Eq, Debug)]
pub enum Record {
    /// Stored a word of 8 bytes, one that is or may become a page table entry, at a physical
    /// address, a multiple of 8.
    Store {
        hart: u8,
        address: u64,
        word: u64,
    },
    /// Wrote satp; `None` for the mode Bare, without translation (privileged manual 4.1.11).
    Satp {
        hart: u8,
        space: Option<Space>,
    },
    /// SFENCE.VMA with the registers rs1, an address, and rs2, an ASID, each `None` for x0
    /// (privileged manual 4.2.1).
    Fence {
        hart: u8,
        rs1: Option<u64>,
        rs2: Option<u64>,
    },
    /// Asked other harts for a fence.
    RemoteBegin {
        hart: u8,
        token: u64,
        fence: RemoteFence,
    },
    /// Learnt that each of those harts has executed it.
    RemoteEnd {
        hart: u8,
        token: u64,
    },
    /// Gave frames to a new owner. As page table entries their words are 0 from then on, until one
    /// is stored.
    GiveOut {
        hart: u8,
        frames: Frames,
    },
    /// Took frames back from their owner.
    GiveBack {
        hart: u8,
        frames: Frames,
    },
    /// Began a flush.
    ClaimBegin {
        hart: u8,
        token: u64,
        claim: Claim,
    },
    /// Returned from the flush.
    ClaimEnd {
        hart: u8,
        token: u64,
    },
    /// Accessed a virtual address.
    Use {
        hart: u8,
        address: u64,
    },
}

/// What is wrong where a hart may hold a stale translation.
#[derive(Clone, Copy, PartialEq, Eq, Debug)]
pub enum Verdict {
    /// A frame of its page is given back.
    Free,
    /// A frame of its page is given out.
    Reuse,
    /// A claim ends that began after it was stale.
    Claimed,
    /// The hart may use it for an access, after a frame of its page was given back or a claim of it
    /// has ended.
    Used,
}
