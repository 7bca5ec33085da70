//! Events on a machine, translations, and calls of a TLB.

use crate::Failure;
use crate::digest::Digest;
use crate::random::Random;
use arrayvec::ArrayVec;
use history::{Event, Reply};
use pte::{Access, Ctx, Mode, Page, PageSize, PteFlags, Scheme, VirtAddr, What};
use shoot::Request;
use spaces::{
    Config, MAX_HARTS, Memory, OpenFault, Place, Space, Wish, apply, next_edit, next_map_edit,
};
use std::alloc::{AllocError, Global};
use stepcore::Machine;
use tlb::{Entry, Tlb};
use walk::{Trap, Why, translate_in};

const HARTS: u8 = MAX_HARTS as u8;

/// How many pages of a space come and go.
const PAGES: u64 = 24;

/// How many times events are added to a batch: four to forty each time, about eight on the mean.
const ADDED: u64 = 1024;

/// How many addresses are translated in each batch, and how many calls of a TLB are made: no more than
/// a page has bytes, so that each is of another byte.
const CALLS: u64 = 4096;

/// How many pages of the memory of the translations get another frame before each batch.
const MOVED: u64 = 8;

/// How many pages the memory of the translations has: in each of 16 tables 512.
const MAPPED: u64 = 16 * 512;

const CTX: Ctx = Ctx {
    mode: Mode::User,
    sum: false,
    mxr: false,
};

fn flags() -> PteFlags {
    PteFlags::R | PteFlags::W | PteFlags::X | PteFlags::U | PteFlags::A | PteFlags::D
}

/// Eight harts, each the home of one space.
fn config(scheme: Scheme, spares: u16) -> Config {
    let mut spaces = ArrayVec::new();
    for home in 0..HARTS {
        spaces.push(Space {
            home,
            asid: u16::from(home) + 1,
        });
    }
    Config {
        scheme,
        harts: u16::from(HARTS),
        spaces,
        window: 1,
        base: 0x8_0000,
        spares: ArrayVec::from([spares; MAX_HARTS]),
        capacity: 4,
    }
}

/// A page of 4 KiB.
fn page(va: u64) -> Page {
    Page::around(VirtAddr::new(va).unwrap_or_default(), PageSize::Kib4)
}

/// An access to a page of some space, with the loads of a walk now and then.
fn access(events: &mut Vec<Event>, random: &mut Random, hart: u8) -> Result<(), AllocError> {
    let access = match random.below(4) {
        0 => Access::Fetch,
        1 => Access::Store,
        _ => Access::Load,
    };
    let va = random.below(PAGES) << 12 | random.below(512) << 3;
    events.push(Event::Begin {
        hart,
        va,
        access,
        ctx: CTX,
    })?;
    for _ in 0..3_u8 {
        events.push(Event::Load { hart })?;
    }
    Ok(())
}

/// The home of a space unmaps a page, and all harts serve that.
fn shoot_down(events: &mut Vec<Event>, home: u8, page: Page) -> Result<(), AllocError> {
    events.push(Event::Unmap {
        hart: home,
        place: Place::Space(home),
        page,
        named: 0xFF,
    })?;
    for to in (0..HARTS).filter(|to| *to != home) {
        let (hart, ticket) = (home, 0);
        events.push(Event::Post { hart, ticket, to })?;
        events.push(Event::Take {
            hart: to,
            from: home,
        })?;
        events.push(Event::ServeFence { hart: to })?;
        events.push(Event::Ack { hart: to })?;
        let from = to;
        events.push(Event::Collect { hart, ticket, from })?;
    }
    events.push(Event::AckSelf {
        hart: home,
        ticket: 0,
    })?;
    events.push(Event::Finish {
        hart: home,
        ticket: 0,
    })?;
    Ok(())
}

/// Some events more.
fn add(events: &mut Vec<Event>, random: &mut Random) -> Result<(), AllocError> {
    let hart = random.below(u64::from(HARTS)) as u8;
    let dice = random.below(100);
    if dice < 88 {
        return access(events, random, hart);
    }
    let page = page(random.below(PAGES) << 12);
    if dice < 94 {
        let frame = random.below(1 << 20);
        events.push(Event::Map {
            hart,
            place: Place::Space(hart),
            page,
            ppn: frame,
            flags: flags(),
        })?;
        Ok(())
    } else if dice < 98 {
        let space = random.below(u64::from(HARTS)) as u8;
        events.push(Event::Switch { hart, space })?;
        Ok(())
    } else {
        shoot_down(events, hart, page)
    }
}

/// A number for what an exception says.
fn number_of_trap(trap: &Trap) -> u64 {
    let why = match trap.why {
        Why::NotCanonical => 0,
        Why::Outside => 1,
        Why::Invalid => 2,
        Why::Reserved => 3,
        Why::TooDeep => 4,
        Why::Denied => 5,
        Why::Misaligned => 6,
        Why::NotAccessed => 7,
        Why::NotDirty => 8,
    };
    u64::from(trap.cause) << 4 | why
}

/// A number for what a request says.
fn number_of_request(request: &Request) -> u64 {
    let what = match request.what {
        What::PageOf(page, None) => page.base().get() << 2,
        What::PageOf(page, Some(asid)) => page.base().get() << 2 | u64::from(asid) << 40 | 1,
        What::SpaceOf(asid) => u64::from(asid) << 40 | 2,
        What::All => 3,
    };
    u64::from(request.ticket) << 16 ^ what
}

/// Takes replies.
fn take(replies: &[Reply], digest: &mut Digest) {
    for reply in replies {
        let (kind, value) = match reply {
            Reply::Hit(pa) => (1, *pa),
            Reply::Filled(pa) => (2, *pa),
            Reply::More => (3, 0),
            Reply::Trap(trap) => (4, number_of_trap(trap)),
            Reply::Table(ppn) => (5, *ppn),
            Reply::Leaf => (6, 0),
            Reply::Opened(ticket) => (7, u64::from(*ticket)),
            Reply::Ok => (8, 0),
            Reply::Taken(request) => (9, number_of_request(request)),
            Reply::Done => (10, 0),
            Reply::Waiting(harts) => (11, u64::from(*harts)),
            Reply::Refused(refusal) => (12, u64::from(refusal.code())),
        };
        digest.take_number(value << 4 | kind);
    }
}

/// Makes the next store that maps a page of the first space to a frame.
fn store_next(memory: &mut Memory, va: u64, frame: u64) {
    if memory.has(Place::Space(0)) {
        let place = Place::Space(0);
        if let Ok(edit) = next_map_edit(memory, 0, place, page(va), frame, flags()) {
            apply(memory, edit);
        }
    }
}

/// Gives a page of the first space another frame.
fn move_page(memory: &mut Memory, va: u64, frame: u64) {
    let place = Place::Space(0);
    if memory.has(place) {
        let wish = Wish::Unmap {
            place,
            page: page(va),
        };
        if let Ok(edit) = next_edit(memory, 0, &wish) {
            apply(memory, edit);
        }
        store_next(memory, va, frame);
    }
}

/// The memory of the translations.
fn memory(alloc: Global, random: &mut Random) -> Result<Memory, Failure> {
    let mut memory = match Memory::open(alloc, &config(Scheme::Sv39, 30)) {
        Ok(memory) => memory,
        Err(OpenFault::NoMemory) => return Err(Failure::NoMemory),
        Err(OpenFault::BadLayout) => return Err(Failure::Refused),
    };
    for number in 0..MAPPED {
        for _ in 0..3_u8 {
            store_next(&mut memory, number << 12, random.below(1 << 24));
        }
    }
    Ok(memory)
}

/// Translates addresses, of which an eighth lead nowhere.
fn translate(memory: &Memory, random: &mut Random, digest: &mut Digest) {
    if !memory.has(Place::Space(0)) {
        return;
    }
    let root = memory.root(0);
    for offset in 0..CALLS {
        let va = random.below(MAPPED + MAPPED / 8) << 12 | offset;
        let value = match translate_in(Scheme::Sv39, memory, root, va, Access::Load, CTX) {
            Ok(found) => found.pa,
            Err(trap) => number_of_trap(&trap),
        };
        digest.take_number(value);
    }
}

/// Looks up addresses in a TLB, fills what is not there, and drops a page now and then.
fn call(tlb: &mut Tlb, random: &mut Random, digest: &mut Digest) {
    for offset in 0..CALLS {
        let number = random.below(20);
        let asid = random.below(2) as u16;
        let va = VirtAddr::new(number << 12 | offset).unwrap_or_default();
        if random.is_below(2) {
            tlb.fence(Some(number << 12), Some(u64::from(asid)));
        }
        match tlb.lookup(asid, va) {
            Some(entry) => digest.take_number(entry.ppn),
            None => tlb.fill(Entry {
                asid,
                global: number == 7,
                page: page(number << 12),
                ppn: random.below(1 << 30),
                flags: flags(),
            }),
        }
    }
}

/// So many batches of each.
pub fn run(alloc: Global, seed: u64, count: u64, digest: &mut Digest) -> Result<(), Failure> {
    let mut random = Random::new(seed);
    let mut machine = match Machine::open(alloc, &config(Scheme::Sv39, 2)) {
        Ok(machine) => machine,
        Err(OpenFault::NoMemory) => return Err(Failure::NoMemory),
        Err(OpenFault::BadLayout) => return Err(Failure::Refused),
    };
    let mut memory = memory(alloc, &mut random)?;
    let mut tlb = Tlb::new();
    let mut events = Vec::new(alloc);
    let mut replies = Vec::new(alloc);
    for _ in 0..count {
        events.clear();
        replies.clear();
        for _ in 0..ADDED {
            add(&mut events, &mut random)?;
        }
        machine.run(&events, &mut replies)?;
        take(&replies, digest);
        for _ in 0..MOVED {
            let number = random.below(MAPPED);
            move_page(&mut memory, number << 12, random.below(1 << 24));
        }
        translate(&memory, &mut random, digest);
        call(&mut tlb, &mut random, digest);
    }
    Ok(())
}
