//! A machine of two harts: hart 0 maps a page and unmaps it again, and hart 1, which has used it,
//! drops it when it is asked.

use pte::{Access, Ctx, Page, PageSize, PteFlags, Scheme};
use std::test::Fail;
use stepcore::{Config, Event, Machine, Place, Reply};

/// Two harts, and one address space with ASID 1, whose tables hart 0 alone changes.
pub fn two_harts() -> Config {
    Config::with_harts(2)
}

/// A user's program on hart 1 begins to load from an address.
pub fn hart_1_loads(va: u64) -> Event {
    Event::Begin {
        hart: 1,
        va,
        access: Access::Load,
        ctx: Ctx::user(),
    }
}

/// Hart 0 maps a page: the event is made twice, for the pointer to a new table and for the leaf.
pub fn map(page: Page) -> Event {
    Event::Map {
        hart: 0,
        place: Place::Space(0),
        page,
        ppn: 0x200,
        flags: PteFlags::R | PteFlags::U | PteFlags::A,
    }
}

/// Hart 0 unmaps the page, and names itself and hart 1.
pub fn unmap(page: Page) -> Event {
    Event::Unmap {
        hart: 0,
        place: Place::Space(0),
        page,
        named: 0b11,
    }
}

/// Hart 0 asks, and hart 1 takes the request, drops what it names and says so.
pub const ASKED_AND_ACKNOWLEDGED: [Event; 4] = [
    Event::Post {
        hart: 0,
        ticket: 0,
        to: 1,
    },
    Event::Take { hart: 1, from: 0 },
    Event::ServeFence { hart: 1 },
    Event::Ack { hart: 1 },
];

/// Whether the TLB of hart 1 translates a page. `translates` needs a hart that exists.
pub fn hart_1_holds(machine: &Machine, page: Page) -> bool {
    machine.harts() > 1 && machine.translates(1, 1, page.base())
}

#[test]
fn page_is_held_until_it_is_acknowledged(rt: HostRuntime) -> Result<(), Fail> {
    let (Ok(page), Ok(mut machine)) = (
        Page::at(Scheme::Sv39, 0x40_0000, PageSize::Mib2),
        Machine::open(rt.alloc(), &two_harts()),
    ) else {
        return Err(Fail::new("no page, or no machine"));
    };
    assert!(rt; machine.step(map(page)) == Reply::Table(0x8_0002));
    assert!(rt; machine.step(map(page)) == Reply::Leaf);
    assert!(rt; machine.step(hart_1_loads(0x40_0123)) == Reply::More);
    assert!(rt; machine.step(Event::Load { hart: 1 }) == Reply::More);
    assert!(rt; machine.step(Event::Load { hart: 1 }) == Reply::Filled(0x20_0123));
    assert!(rt; machine.step(unmap(page)) == Reply::Opened(0));
    assert!(rt; hart_1_holds(&machine, page));
    let mut replies = Vec::new(rt.alloc());
    machine.run(&ASKED_AND_ACKNOWLEDGED, &mut replies)?;
    assert!(rt; replies.as_slice().last() == Some(&Reply::Ok));
    assert!(rt; !hart_1_holds(&machine, page));
    Ok(())
}
