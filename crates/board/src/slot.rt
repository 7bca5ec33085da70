//! A request as it lies in a ring.

ghost use Rattle.std.specs.Prelude.{◌≡◌};

use pte::{Page, PageSize, VirtAddr, What};
use shoot::Request;
use std::marker::Model;

/// What a request asks to drop, but for the page's address and the ASID.
#[derive(Clone, Copy)]
pub(crate) enum Asked {
    PageOf(PageSize),
    GlobalPage(PageSize),
    SpaceOf,
    All,
}

/// A request in 16 bytes, so that it lies in one cache line wherever it lies in a ring.
#[derive(Drop)]
pub(crate) struct Slot {
    // Of a page, its base.
    base: VirtAddr,
    asid: u16,
    ticket: u8,
    asked: Asked,
}

impl Model for Slot {
    ghost use Rattle.std.specs.Prelude.{◌<◌};
    ghost use Rattle.shoot.specs.Request.{Request};
    ghost use Rattle.shoot.specs.declared.TheConstants.{MAX_TICKETS};

    ghost Value = { Request };

    ghost use Rattle.board.specs.Slots.{IsWhole, what_in};

    ghost view = { λ s. record { ticket = s.ticket; what = what_in s.asked s.base s.asid } };

    ghost invariant = { λ s. (s.ticket < MAX_TICKETS) × IsWhole s.asked s.base };
}

impl Slot {
    /// The request as it lies in a ring.
    #[inline(always)]
    pub(crate) fn of(request: &Request) -> Slot
        ensures { result ≡ request.now }
    {
        let ticket = request.ticket as u8;
        match request.what {
            What::PageOf(page, Some(asid)) => Slot {
                base: page.base(),
                asid,
                ticket,
                asked: Asked::PageOf(page.size()),
            },
            What::PageOf(page, None) => Slot {
                base: page.base(),
                asid: 0,
                ticket,
                asked: Asked::GlobalPage(page.size()),
            },
            What::SpaceOf(asid) => Slot {
                base: VirtAddr::default(),
                asid,
                ticket,
                asked: Asked::SpaceOf,
            },
            What::All => Slot {
                base: VirtAddr::default(),
                asid: 0,
                ticket,
                asked: Asked::All,
            },
        }
    }

    /// The request.
    #[inline(always)]
    pub(crate) fn request(&self) -> Request
        ensures { result ≡ self.now }
    {
        let ticket = u32::from(self.ticket);
        match self.asked {
            Asked::PageOf(size) => Request {
                ticket,
                what: What::PageOf(Page::around(self.base, size), Some(self.asid)),
            },
            Asked::GlobalPage(size) => Request {
                ticket,
                what: What::PageOf(Page::around(self.base, size), None),
            },
            Asked::SpaceOf => Request {
                ticket,
                what: What::SpaceOf(self.asid),
            },
            Asked::All => Request {
                ticket,
                what: What::All,
            },
        }
    }
}
