//! A shootdown from its first event to its last, and pages that Sv39 does not have. Retirements by
//! harts that are not there, and the machines that are opened, stand in the modules below.

ghost use Rattle.std.specs.Prelude.{◌<◌};
ghost use Rattle.shoot.specs.declared.TheConstants.{MAX_TICKETS};

use crate::common::{USER, address, assert_row, flags, page, spaces_of};
use crate::first_machine::two_harts;
use pte::{Access, Page, PageSize, PteFlags, What};
use std::alloc::Global;
use std::process::Abort;
use stepcore::{Config, Event, Machine, Place, Refusal, Reply, Request, Scope};
use walk::{Trap, Why};

mod opening;
mod retirement;

/// R, U, A and D, and with W.
const READABLE: u8 = 0xD2;

const WRITABLE: u8 = 0xD6;

/// Harts 0 and 1.
const BOTH: u8 = 0b11;

/// There is ample memory for each machine of a test.
fn opened(rt: &impl Abort, alloc: Global, config: &Config) -> Machine {
    Machine::open(alloc, config).ok().expect(rt, "a machine")
}

/// The page of 2 MiB at 0x40_0000, which hart 0 maps to PPN 0x200 and unmaps.
fn large(rt: &impl Abort) -> Page {
    page(rt, 0x40_0000, PageSize::Mib2)
}

fn map_large(rt: &impl Abort) -> Event {
    map(0, large(rt), 0x200, flags(WRITABLE))
}

fn unmap_large(rt: &impl Abort) -> Event {
    unmap(large(rt))
}

/// Hart 0 unmaps a page of space 0, and names both harts.
fn unmap(page: Page) -> Event {
    Event::Unmap {
        hart: 0,
        place: Place::Space(0),
        page,
        named: BOTH,
    }
}

fn large_of_space(rt: &impl Abort) -> What {
    What::PageOf(large(rt), Some(1))
}

fn map(space: u8, page: Page, ppn: u64, flags: PteFlags) -> Event {
    Event::Map {
        hart: 0,
        place: Place::Space(space),
        page,
        ppn,
        flags,
    }
}

fn map_kernel(page: Page, ppn: u64) -> Event {
    Event::Map {
        hart: 0,
        place: Place::Kernel,
        page,
        ppn,
        flags: flags(0xE2),
    }
}

/// A load from user mode.
fn begin(hart: u8, va: u64) -> Event {
    Event::Begin {
        hart,
        va,
        access: Access::Load,
        ctx: USER,
    }
}

fn load(hart: u8) -> Event {
    Event::Load { hart }
}

fn post(ticket: u32) -> Event {
    Event::Post {
        hart: 0,
        ticket,
        to: 1,
    }
}

fn flush(scope: Scope) -> Event {
    Event::Flush {
        hart: 0,
        scope,
        named: BOTH,
    }
}

/// Hart 1 takes a request from hart 0, fences for it, and acknowledges.
fn take() -> Event {
    Event::Take { hart: 1, from: 0 }
}

fn serve_fence() -> Event {
    Event::ServeFence { hart: 1 }
}

fn ack() -> Event {
    Event::Ack { hart: 1 }
}

fn collect(ticket: u32) -> Event {
    Event::Collect {
        hart: 0,
        ticket,
        from: 1,
    }
}

fn finish(ticket: u32) -> Event {
    Event::Finish { hart: 0, ticket }
}

fn taken(ticket: u32, what: What) -> Reply
    requires { ticket < MAX_TICKETS }
{
    Reply::Taken(Request { ticket, what })
}

/// The page fault of a load.
fn page_fault(why: Why) -> Reply {
    Reply::Trap(Trap { cause: 13, why })
}

fn refused(refusal: Refusal) -> Reply {
    Reply::Refused(refusal)
}

/// Each event is answered as the row says.
fn steps(rt: &impl Abort, machine: &mut Machine, rows: &[(Event, Reply)]) {
    for (number, (event, reply)) in rows.iter().enumerate() {
        assert_row(rt, number, machine.step(*event) == *reply);
    }
}

/// Each event is answered as the row says by a new machine.
fn answers(rt: &impl Abort, alloc: Global, config: &Config, rows: &[(Event, Reply)]) {
    let mut machine = opened(rt, alloc, config);
    steps(rt, &mut machine, rows);
}

/// Whether the TLB of hart 1 translates an address for an ASID.
fn translates(rt: &impl Abort, machine: &Machine, asid: u16, va: u64) -> bool {
    assert!(rt; 1 < machine.harts());
    machine.translates(1, asid, address(rt, va))
}

/// How many of the pages of 4 KiB in the page of 2 MiB at 0x40_0000 hart 1 translates.
fn translated(rt: &impl Abort, machine: &Machine) -> usize {
    let mut count = 0_usize;
    for k in 0..512_u64 {
        if translates(rt, machine, 1, 0x40_0000 + k * 0x1000) && count < 512 {
            count += 1;
        }
    }
    count
}

/// A page of 2 MiB is unmapped while hart 1 holds it. Once hart 1 has acknowledged, it translates
/// no address of the page, and the number of the finished ticket is given out again.
#[test]
fn superpage_is_shot_down(rt: HostRuntime) {
    let mut machine = opened(&rt, rt.alloc(), &two_harts());
    let until_service = [
        (map_large(&rt), Reply::Table(0x8_0002)),
        (map_large(&rt), Reply::Leaf),
        (begin(1, 0x5F_FFFF), Reply::More),
        (load(1), Reply::More),
        (load(1), Reply::Filled(0x3F_FFFF)),
        (unmap_large(&rt), Reply::Opened(0)),
        (begin(1, 0x5F_FFFF), Reply::Hit(0x3F_FFFF)),
        (post(0), Reply::Ok),
        (take(), taken(0, large_of_space(&rt))),
        (begin(1, 0x5F_FFFF), refused(Refusal::Serving)),
    ];
    steps(&rt, &mut machine, &until_service);
    assert!(rt; translated(&rt, &machine) == 512);
    steps(
        &rt,
        &mut machine,
        &[(serve_fence(), Reply::Ok), (ack(), Reply::Ok)],
    );
    assert!(rt; translated(&rt, &machine) == 0);
    assert!(rt; !translates(&rt, &machine, 1, 0x5F_FFFF));
    let after = [
        (begin(1, 0x5F_FFFF), Reply::More),
        (load(1), Reply::More),
        (load(1), page_fault(Why::Invalid)),
        (collect(0), Reply::Waiting(0b01)),
        (finish(0), refused(Refusal::NotDone)),
        (Event::AckSelf { hart: 0, ticket: 0 }, Reply::Done),
        (finish(0), Reply::Ok),
        (flush(Scope::All), Reply::Opened(0)),
    ];
    steps(&rt, &mut machine, &after);
    assert!(rt; translated(&rt, &machine) == 0);
}

/// The page of 512 GiB at 0x80_0000_0000, which Sv48 alone has.
fn largest(rt: &impl Abort) -> Page {
    page(rt, 0x80_0000_0000, PageSize::Gib512)
}

fn map_largest(rt: &impl Abort) -> Event {
    map(0, largest(rt), 0x1000_0000, flags(WRITABLE))
}

/// Hart 0 gives the page of 512 GiB at 0 of space 0 other flags.
fn protect_first(rt: &impl Abort) -> Event {
    Event::Protect {
        hart: 0,
        place: Place::Space(0),
        page: page(rt, 0, PageSize::Gib512),
        flags: flags(READABLE),
        named: BOTH,
    }
}

/// A page that does not fit Sv39, by its size or by its address, is in neither half of the address
/// space.
#[test]
fn pages_that_do_not_fit_sv39(rt: HostRuntime) {
    let far = page(&rt, 0x40_0000_0000, PageSize::Kib4);
    let window = page(&rt, 0xFFFF_FF80_0000_0000, PageSize::Gib512);
    let rows = [
        (map_largest(&rt), refused(Refusal::WrongHalf)),
        (unmap(largest(&rt)), refused(Refusal::WrongHalf)),
        (protect_first(&rt), refused(Refusal::WrongHalf)),
        (map_kernel(window, 0x1000_0000), refused(Refusal::WrongHalf)),
        (
            map(0, far, 0x100, flags(READABLE)),
            refused(Refusal::WrongHalf),
        ),
        (unmap(far), refused(Refusal::WrongHalf)),
    ];
    answers(&rt, rt.alloc(), &two_harts(), &rows);
}

/// Two spaces of hart 0, of ASIDs 1 and 2. Two harts.
fn two_spaces() -> Config {
    Config {
        spaces: spaces_of(&[(0, 1), (0, 2)]),
        ..two_harts()
    }
}
