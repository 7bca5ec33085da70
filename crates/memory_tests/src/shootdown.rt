//! A shootdown of a page of 2 MiB between two harts, event by event, with the reply to each; and a
//! space that is retired and created again.

use arrayvec::ArrayVec;
use history::{Event, Refusal, Reply};
use pte::{Access, Ctx, Mode, Page, PageSize, PteFlags, Scheme, VirtAddr, What};
use shoot::Request;
use spaces::{Config, Place, Space};
use walk::{Trap, Why};

/// Two harts, and spaces 0 and 1 of ASIDs 1 and 2, which are at home on hart 0.
pub fn two_harts(scheme: Scheme) -> Config {
    let mut spaces = ArrayVec::new();
    spaces.push(Space { home: 0, asid: 1 });
    spaces.push(Space { home: 0, asid: 2 });
    let mut spares = ArrayVec::new();
    spares.push(8);
    spares.push(8);
    Config {
        scheme,
        harts: 2,
        spaces,
        window: 1,
        base: 0x8_0000,
        spares,
        capacity: 4,
    }
}

/// The page of 2 MiB at 0x400000.
pub fn superpage() -> Option<Page> {
    Page::new(VirtAddr::new(0x40_0000)?, PageSize::Mib2).ok()
}

fn map(page: Page) -> Event {
    Event::Map {
        hart: 0,
        place: Place::Space(0),
        page,
        ppn: 0x200,
        flags: PteFlags::R | PteFlags::W | PteFlags::U | PteFlags::A | PteFlags::D,
    }
}

fn unmap(page: Page) -> Event {
    Event::Unmap {
        hart: 0,
        place: Place::Space(0),
        page,
        named: 0b11,
    }
}

/// A load by the user of hart 1 at the end of the page.
const BEGIN: Event = Event::Begin {
    hart: 1,
    va: 0x5F_FFFF,
    access: Access::Load,
    ctx: Ctx {
        mode: Mode::User,
        sum: false,
        mxr: false,
    },
};

const LOAD: Event = Event::Load { hart: 1 };

const POST: Event = Event::Post {
    hart: 0,
    ticket: 0,
    to: 1,
};

const TAKE: Event = Event::Take { hart: 1, from: 0 };

const SERVE_FENCE: Event = Event::ServeFence { hart: 1 };

const ACK: Event = Event::Ack { hart: 1 };

const COLLECT: Event = Event::Collect {
    hart: 0,
    ticket: 0,
    from: 1,
};

const ACK_SELF: Event = Event::AckSelf { hart: 0, ticket: 0 };

const FINISH: Event = Event::Finish { hart: 0, ticket: 0 };

const RETIRE: Event = Event::Retire { hart: 0, space: 1 };

const RECLAIM: Event = Event::Reclaim { hart: 0, space: 1 };

const CREATE: Event = Event::Create {
    hart: 0,
    space: 1,
    asid: 3,
};

/// How many events there are.
pub const COUNT: usize = 27;

/// The page is mapped, used by hart 1, unmapped and shot down; then space 1 is retired, given back
/// and created again.
pub fn events(page: Page) -> [Event; COUNT] {
    [
        map(page),
        map(page),
        BEGIN,
        LOAD,
        LOAD,
        unmap(page),
        BEGIN,
        POST,
        TAKE,
        BEGIN,
        SERVE_FENCE,
        ACK,
        COLLECT,
        FINISH,
        ACK_SELF,
        FINISH,
        RETIRE,
        ACK_SELF,
        POST,
        TAKE,
        SERVE_FENCE,
        ACK,
        RECLAIM,
        COLLECT,
        RECLAIM,
        CREATE,
        FINISH,
    ]
}

fn taken(what: What) -> Reply {
    Reply::Taken(Request { ticket: 0, what })
}

/// The replies to the events, by Sv39: the root's word leads to a table of level 1, where the
/// page's leaf is.
pub fn replies(page: Page) -> [Reply; COUNT] {
    [
        Reply::Table(0x8_0003),
        Reply::Leaf,
        Reply::More,
        Reply::More,
        Reply::Filled(0x3F_FFFF),
        Reply::Opened(0),
        Reply::Hit(0x3F_FFFF),
        Reply::Ok,
        taken(What::PageOf(page, Some(1))),
        Reply::Refused(Refusal::Serving),
        Reply::Ok,
        Reply::Ok,
        Reply::Waiting(0b01),
        Reply::Refused(Refusal::NotDone),
        Reply::Done,
        Reply::Ok,
        Reply::Opened(0),
        Reply::Waiting(0b10),
        Reply::Ok,
        taken(What::SpaceOf(2)),
        Reply::Ok,
        Reply::Ok,
        Reply::Refused(Refusal::NotAcked),
        Reply::Done,
        Reply::Ok,
        Reply::Ok,
        Reply::Ok,
    ]
}

/// A load finds no page.
pub const INVALID: Reply = Reply::Trap(Trap {
    cause: 13,
    why: Why::Invalid,
});
