//! What the tests of several modules use: contexts, flags, addresses, pages, and the check of a row.

use arrayvec::ArrayVec;
use bitflags::Flags;
use pte::{Ctx, Mode, Page, PageSize, PteFlags, Scheme, VirtAddr};
use spaces::{MAX_HARTS, MAX_SPACES, Space};
use std::process::Abort;

/// Accesses from user mode and from supervisor mode, without SUM and MXR or with them.
pub const USER: Ctx = Ctx {
    mode: Mode::User,
    sum: false,
    mxr: false,
};

pub const USER_SUM: Ctx = Ctx { sum: true, ..USER };

pub const USER_MXR: Ctx = Ctx { mxr: true, ..USER };

pub const SUPER: Ctx = Ctx {
    mode: Mode::Super,
    ..USER
};

pub const SUPER_SUM: Ctx = Ctx { sum: true, ..SUPER };

pub const SUPER_MXR: Ctx = Ctx { mxr: true, ..SUPER };

pub const SUPER_BOTH: Ctx = Ctx {
    mode: Mode::Super,
    sum: true,
    mxr: true,
};

/// Ends the test unless the row of this number is answered as it says.
pub fn assert_row(rt: &impl Abort, number: usize, is_right: bool) {
    assert!(rt; is_right, "row {number} is answered otherwise");
}

/// An address of Sv48, so also each one of Sv39.
pub fn address(rt: &impl Abort, va: u64) -> VirtAddr {
    VirtAddr::new_in(Scheme::Sv48, va).expect(rt, "a canonical address")
}

pub fn page(rt: &impl Abort, base: u64, size: PageSize) -> Page {
    Page::new(address(rt, base), size).expect(rt, "an aligned base")
}

/// The flags with these bits of a word.
pub fn flags(bits: u8) -> PteFlags {
    PteFlags::from_bits_retain(bits)
}

pub fn spares_of(counts: &[u16]) -> ArrayVec<u16, MAX_HARTS> {
    let mut spares = ArrayVec::new();
    for count in counts {
        if !spares.is_full() {
            spares.push(*count);
        }
    }
    spares
}

/// Spaces by their homes and ASIDs.
pub fn spaces_of(list: &[(u8, u16)]) -> ArrayVec<Space, MAX_SPACES> {
    let mut spaces = ArrayVec::new();
    for (home, asid) in list {
        if !spaces.is_full() {
            spaces.push(Space {
                home: *home,
                asid: *asid,
            });
        }
    }
    spaces
}
