//! Events that come in parts: `run` is called for each part, and the list of its replies cleared
//! before the next.

use crate::first_machine::{ASKED_AND_ACKNOWLEDGED, hart_1_loads, map, two_harts, unmap};
use pte::{Page, PageSize, VirtAddr, What};
use std::test::Fail;
use stepcore::{Event, Machine, Reply, Request};

/// How many events a part has; the last has fewer.
const PART: usize = 4;

/// Hart 0 maps a page, hart 1 uses it, and hart 0 unmaps it, asks hart 1 and is answered.
fn events(page: Page) -> [Event; 11] {
    let [post, take, fence, ack] = ASKED_AND_ACKNOWLEDGED;
    [
        map(page),
        map(page),
        hart_1_loads(0x40_0123),
        Event::Load { hart: 1 },
        Event::Load { hart: 1 },
        unmap(page),
        post,
        take,
        fence,
        ack,
        hart_1_loads(0x40_0123),
    ]
}

fn replies(page: Page) -> [Reply; 11] {
    [
        Reply::Table(0x8_0002),
        Reply::Leaf,
        Reply::More,
        Reply::More,
        Reply::Filled(0x20_0123),
        Reply::Opened(0),
        Reply::Ok,
        Reply::Taken(Request {
            ticket: 0,
            what: What::PageOf(page, Some(1)),
        }),
        Reply::Ok,
        Reply::Ok,
        Reply::More,
    ]
}

#[test]
fn run_in_parts_is_one_run(rt: HostRuntime) -> Result<(), Fail> {
    let Some(base) = VirtAddr::new(0x40_0000) else {
        return Err(Fail::new("no address"));
    };
    let Ok(page) = Page::new(base, PageSize::Mib2) else {
        return Err(Fail::new("no page"));
    };
    let Ok(mut machine) = Machine::open(rt.alloc(), &two_harts()) else {
        return Err(Fail::new("no machine"));
    };
    let wanted = replies(page);
    let mut part: Vec<Reply> = Vec::with_capacity(rt.alloc(), PART)?;
    let room = part.capacity();
    let mut done = 0_usize;
    for events in events(page).chunks(PART) {
        part.clear();
        machine.run(events, &mut part)?;
        for reply in part.as_slice() {
            assert!(rt; wanted.get(done) == Some(reply));
            done = done.saturating_add(1);
        }
    }
    assert!(rt; done == wanted.len());
    assert!(rt; part.capacity() == room);
    Ok(())
}
