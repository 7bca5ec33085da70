ghost use Rattle.std.specs.Prelude.{◌≡◌, IfOk};

use crate::first_machine::two_harts;
use harts::*;
use pte::{Access, Ctx, Mode, Page, PageSize, PteFlags, VirtAddr, What};
use shoot::Request;
use spaces::{Config, Place};
use std::alloc::{AllocError, Global};
use std::marker::Brand;
use std::sync::Wait;
use std::test::Fail;
use std::thread::{Threads, join};
use stepcore::{Event, Refusal, Reply};
use walk::{Trap, Why};

/// The page of 2 MiB at 0x400000.
fn superpage() -> Option<Page> {
    Page::new(VirtAddr::new(0x40_0000)?, PageSize::Mib2).ok()
}

fn load_of(hart: u8, va: u64) -> Event {
    Event::Begin {
        hart,
        va,
        access: Access::Load,
        ctx: Ctx {
            mode: Mode::User,
            sum: false,
            mxr: false,
        },
    }
}

/// Whether each event, called by one thread in this order, is answered so, and the lock keeps all
/// of them.
fn answers<C: Named, R: Wait>(
    rt: &R,
    alloc: Global,
    blank: Blank,
    config: &Config,
    steps: &[(Event, Reply)],
) -> Option<bool>
    requires config { C.config ≡ config.now }
    requires lists { C.lists ≡ blank }
{
    let Ok((locked, mut tallies)) = Locked::<C>::open(alloc, blank, config) else {
        return None;
    };
    let mut tally = tallies.pop()?;
    let mut same = true;
    for step in steps {
        let Ok(reply) = locked.call(rt, &mut tally, step.0) else {
            return None;
        };
        same &= reply == step.1;
    }
    tallies.push_reserved(tally);
    let (_machine, history) = locked.into_parts(tallies);
    Some(same && history.as_slice() == steps)
}

/// What a book answers to one event after another, and whether it shows each with its reply.
fn book_shows<C: Named>(alloc: Global, config: &Config, steps: &[(Event, Reply)]) -> Option<bool>
    requires { C.config ≡ config.now }
{
    let Ok(mut book) = Book::<C>::open(alloc, config) else {
        return None;
    };
    let mut same = true;
    for step in steps {
        let Ok(reply) = book.note(step.0) else {
            return None;
        };
        same &= reply == step.1;
    }
    same &= book.history() == steps;
    let (machine, history) = book.into_parts();
    Some(same && machine.harts() == 2 && history.as_slice() == steps)
}

fn map_of(page: &Page) -> Event {
    Event::Map {
        hart: 0,
        place: Place::Space(0),
        page: *page,
        ppn: 0x200,
        flags: PteFlags::R | PteFlags::W | PteFlags::U | PteFlags::A | PteFlags::D,
    }
}

fn unmap_of(page: &Page) -> Event {
    Event::Unmap {
        hart: 0,
        place: Place::Space(0),
        page: *page,
        named: 0b11,
    }
}

fn finish() -> Event {
    Event::Finish { hart: 0, ticket: 0 }
}

/// Hart 0 maps a page of 2 MiB, hart 1 walks to it, and hart 0 unmaps it.
fn mapped_used_unmapped(page: &Page) -> [(Event, Reply); 8] {
    [
        (map_of(page), Reply::Table(0x8_0002)),
        (map_of(page), Reply::Leaf),
        (load_of(1, 0x5f_ffff), Reply::More),
        (Event::Load { hart: 1 }, Reply::More),
        (Event::Load { hart: 1 }, Reply::Filled(0x3f_ffff)),
        (unmap_of(page), Reply::Opened(0)),
        (load_of(1, 0x5f_ffff), Reply::Hit(0x3f_ffff)),
        (
            Event::Post {
                hart: 0,
                ticket: 0,
                to: 1,
            },
            Reply::Ok,
        ),
    ]
}

/// Hart 1 takes the request and serves it, and finds the page gone; hart 0 collects, acknowledges
/// and finishes.
fn served_and_finished(page: &Page) -> [(Event, Reply); 11] {
    let request = Request {
        ticket: 0,
        what: What::PageOf(*page, Some(1)),
    };
    let gone = Trap {
        cause: 13,
        why: Why::Invalid,
    };
    [
        (Event::Take { hart: 1, from: 0 }, Reply::Taken(request)),
        (load_of(1, 0x5f_ffff), Reply::Refused(Refusal::Serving)),
        (Event::ServeFence { hart: 1 }, Reply::Ok),
        (Event::Ack { hart: 1 }, Reply::Ok),
        (load_of(1, 0x5f_ffff), Reply::More),
        (Event::Load { hart: 1 }, Reply::More),
        (Event::Load { hart: 1 }, Reply::Trap(gone)),
        (
            Event::Collect {
                hart: 0,
                ticket: 0,
                from: 1,
            },
            Reply::Waiting(0b01),
        ),
        (finish(), Reply::Refused(Refusal::NotDone)),
        (Event::AckSelf { hart: 0, ticket: 0 }, Reply::Done),
        (finish(), Reply::Ok),
    ]
}

#[test]
fn superpage_shootdown_through_calls(rt: HostRuntime) -> Result<(), Fail> {
    let Some(page) = superpage() else {
        return Err(Fail::new("no page"));
    };
    let mut steps = Vec::new(rt.alloc());
    for step in mapped_used_unmapped(&page) {
        steps.push(step)?;
    }
    for step in served_and_finished(&page) {
        steps.push(step)?;
    }
    let config = two_harts();
    let blank = Blank::new(rt.alloc(), 2)?;
    let same = answers::<Brand, _>(&rt, rt.alloc(), blank, &config, steps.as_slice());
    assert!(rt; same == Some(true));
    Ok(())
}

/// A book shows the events with their replies, the refused one too.
#[test]
fn book_shows_its_history(rt: HostRuntime) -> Result<(), Fail> {
    let Some(page) = superpage() else {
        return Err(Fail::new("no page"));
    };
    let mut steps = Vec::new(rt.alloc());
    for step in mapped_used_unmapped(&page) {
        steps.push(step)?;
    }
    steps.push((finish(), Reply::Refused(Refusal::NotDone)))?;
    let config = two_harts();
    let same = book_shows::<Brand>(rt.alloc(), &config, steps.as_slice());
    assert!(rt; same == Some(true));
    Ok(())
}

fn fence_of(hart: u8, rs1: Option<u64>, rs2: Option<u64>) -> Event {
    Event::Fence { hart, rs1, rs2 }
}

/// A hart walks to the page of 2 MiB, and finds it until a fence names its address or its address
/// space. A fence of the page behind it, and one of another address space, leave it.
fn found_until_fenced(hart: u8) -> [(Event, Reply); 15] {
    [
        (load_of(hart, 0x5f_ffff), Reply::More),
        (Event::Load { hart }, Reply::More),
        (Event::Load { hart }, Reply::Filled(0x3f_ffff)),
        (fence_of(hart, Some(0x60_0000), None), Reply::Ok),
        (load_of(hart, 0x5f_ffff), Reply::Hit(0x3f_ffff)),
        (fence_of(hart, Some(0x40_0000), None), Reply::Ok),
        (load_of(hart, 0x5f_ffff), Reply::More),
        (Event::Load { hart }, Reply::More),
        (Event::Load { hart }, Reply::Filled(0x3f_ffff)),
        (fence_of(hart, None, Some(2)), Reply::Ok),
        (load_of(hart, 0x5f_ffff), Reply::Hit(0x3f_ffff)),
        (fence_of(hart, None, Some(1)), Reply::Ok),
        (load_of(hart, 0x5f_ffff), Reply::More),
        (Event::Load { hart }, Reply::More),
        (Event::Load { hart }, Reply::Filled(0x3f_ffff)),
    ]
}

/// The tally, and whether each event, called with it in this order, is answered so.
fn plays<C: Named, R: Wait>(
    rt: &R,
    locked: &Locked<C>,
    mut tally: Tally<C>,
    steps: &[(Event, Reply)],
) -> Result<(Tally<C>, bool), AllocError>
    ensures { IfOk result (λ back. back.0.turns.name ≡ tally.turns.name) }
{
    let mut same = true;
    for step in steps {
        let reply = locked.call(rt, &mut tally, step.0)?;
        same &= reply == step.1;
    }
    Ok((tally, same))
}

/// Whether each of two harts, played by a thread of its own, finds a page until its own fence.
fn both_find_until_fenced<C: Named + Send + Sync, R: Threads + Wait + Sync>(
    rt: &R,
    alloc: Global,
    blank: Blank,
    config: &Config,
    page: &Page,
) -> Option<bool>
    requires config { C.config ≡ config.now }
    requires lists { C.lists ≡ blank }
{
    let Ok((locked, mut tallies)) = Locked::<C>::open(alloc, blank, config) else {
        return None;
    };
    let (b, a) = (tallies.pop()?, tallies.pop()?);
    let mapped = [
        (map_of(page), Reply::Table(0x8_0002)),
        (map_of(page), Reply::Leaf),
    ];
    let Ok((a, is_mapped)) = plays(rt, &locked, a, mapped.as_slice()) else {
        return None;
    };
    let shared = &locked;
    let (of_0, of_1) = (found_until_fenced(0), found_until_fenced(1));
    let (a, b) = join(
        rt,
        || plays(rt, shared, a, of_0.as_slice()),
        || plays(rt, shared, b, of_1.as_slice()),
    );
    let (Ok((_, by_a)), Ok((_, by_b))) = (a, b) else {
        return None;
    };
    Some(is_mapped && by_a && by_b)
}

#[test]
fn fences_by_registers_through_calls(rt: HostRuntime) -> Result<(), Fail> {
    let Some(page) = superpage() else {
        return Err(Fail::new("no page"));
    };
    let config = two_harts();
    let blank = Blank::new(rt.alloc(), 2)?;
    let same = both_find_until_fenced::<Brand, _>(&rt, rt.alloc(), blank, &config, &page);
    assert!(rt; same == Some(true));
    Ok(())
}
