//! A cycle of events that leaves the tables, tickets and mailboxes as it found them.
//!
//! There are eight harts, and eight spaces, of which each hart is the home of one. In a space four
//! pages stay mapped. In a cycle each space has its turn, of 779 events:
//!
//! | events | of whom | replies |
//! |---|---|---|
//! | map four pages more | the home | 4 leaf |
//! | switch to the space | each of 7 others | 7 ok |
//! | begin and 3 loads for each of the 8 pages | each of 7 others | 56 * 3 = 168 more, 56 filled |
//! | 7 accesses more of each of the 8 pages | each of 7 others | 7 * 8 * 7 = 392 hit |
//! | unmap the four pages, naming all harts | the home | 4 opened |
//! | post each ticket to each other hart | the home | 28 ok |
//! | take, fence and acknowledge each request | each of 7 others | 28 taken, 56 ok |
//! | serve the four tickets itself | the home | 4 waiting |
//! | collect each ticket from each other hart | the home | 24 waiting, 4 done |
//! | finish the four tickets | the home | 4 ok |
//!
//! So a turn is answered by 392 hit, 168 more, 56 filled, 4 leaf, 4 opened, 95 ok, 28 taken, 4 done
//! and 28 waiting. A TLB keeps what it holds of the pages that stay: it is full from its third turn
//! on, and of a space's pages it holds nothing when the space has its next turn, since each turn
//! fills eight entries of sixteen and drops four.
//!
//! The file `stdout` is what 100,000 asks for: 100,000 / (8 * 779) = 16 cycles, which are 128
//! turns, after an opening answered by 16 table and 32 leaf. So 128 * 392 = 50,176 hit, 128 * 168 =
//! 21,504 more, 128 * 56 = 7,168 filled, 128 * 4 + 32 = 544 leaf, 128 * 4 = 512 opened, 128 * 95 =
//! 12,160 ok, 128 * 28 = 3,584 taken, 512 done and 3,584 waiting. Of 100,000 translations each 16th
//! finds nothing, and 100,000 - 6,250 = 93,750 are found.

use crate::Failure;
use crate::tally::Tally;
use arrayvec::ArrayVec;
use history::Event;
use pte::{Access, Ctx, Mode, Page, PageSize, PteFlags, VirtAddr};
use spaces::{Config, MAX_HARTS, OpenFault, Place, Space};
use std::alloc::{AllocError, Global};
use stepcore::Machine;

const HARTS: u8 = MAX_HARTS as u8;

/// How many pages of a space stay mapped.
const STAYING: u8 = 4;

/// How many pages of a space are mapped in its turn, and unmapped.
const CHANGING: u8 = 4;

/// How often a hart comes back to each page.
const RETURNS: u8 = 7;

const CTX: Ctx = Ctx {
    mode: Mode::User,
    sum: false,
    mxr: false,
};

/// Of each page.
fn flags() -> PteFlags {
    PteFlags::R | PteFlags::W | PteFlags::X | PteFlags::U | PteFlags::A | PteFlags::D
}

/// Eight harts, each the home of one space, with the spare frames for its two tables.
fn config() -> Config {
    let mut spaces = ArrayVec::new();
    for home in 0..HARTS {
        spaces.push(Space {
            home,
            asid: u16::from(home) + 1,
        });
    }
    Config {
        scheme: pte::Scheme::Sv39,
        harts: u16::from(HARTS),
        spaces,
        window: 1,
        base: 0x8_0000,
        spares: ArrayVec::from([2; MAX_HARTS]),
        capacity: u16::from(CHANGING),
    }
}

/// The address of a page of a space.
fn address(space: u8, number: u8) -> u64 {
    u64::from(space) << 30 | u64::from(number) << 12
}

/// A page of a space.
fn page(space: u8, number: u8) -> Page {
    let va = VirtAddr::new(address(space, number)).unwrap_or_default();
    Page::around(va, PageSize::Kib4)
}

/// The home of a space maps one of its pages, or makes the next table for it.
fn map(space: u8, number: u8) -> Event {
    Event::Map {
        hart: space,
        place: Place::Space(space),
        page: page(space, number),
        ppn: 0x10_0000 | u64::from(space) << 8 | u64::from(number),
        flags: flags(),
    }
}

fn begin(hart: u8, space: u8, number: u8) -> Event {
    Event::Begin {
        hart,
        va: address(space, number) | u64::from(hart) << 3,
        access: match number % 3 {
            0 => Access::Fetch,
            1 => Access::Load,
            _ => Access::Store,
        },
        ctx: CTX,
    }
}

/// Two tables for each space, and the pages that stay: 16 table and 32 leaf.
fn opening(alloc: Global) -> Result<Vec<Event>, AllocError> {
    let mut events = Vec::new(alloc);
    for space in 0..HARTS {
        events.push(map(space, 0))?;
        events.push(map(space, 0))?;
        for number in 0..STAYING {
            events.push(map(space, number))?;
        }
    }
    Ok(events)
}

/// A hart goes to a space, walks to its pages, and comes back to them.
fn use_pages(events: &mut Vec<Event>, hart: u8, space: u8) -> Result<(), AllocError> {
    events.push(Event::Switch { hart, space })?;
    for number in 0..STAYING + CHANGING {
        events.push(begin(hart, space, number))?;
        for _ in 0..3_u8 {
            events.push(Event::Load { hart })?;
        }
    }
    for _ in 0..RETURNS {
        for number in 0..STAYING + CHANGING {
            events.push(begin(hart, space, number))?;
        }
    }
    Ok(())
}

/// The home unmaps the pages that change, and posts each ticket to the other harts.
fn unmap_pages(events: &mut Vec<Event>, home: u8) -> Result<(), AllocError> {
    for ticket in 0..CHANGING {
        events.push(Event::Unmap {
            hart: home,
            place: Place::Space(home),
            page: page(home, STAYING + ticket),
            named: 0xFF,
        })?;
        for to in (0..HARTS).filter(|to| *to != home) {
            events.push(Event::Post {
                hart: home,
                ticket: u32::from(ticket),
                to,
            })?;
        }
    }
    Ok(())
}

/// A hart serves the requests of a home.
fn serve(events: &mut Vec<Event>, hart: u8, home: u8) -> Result<(), AllocError> {
    for _ in 0..CHANGING {
        events.push(Event::Take { hart, from: home })?;
        events.push(Event::ServeFence { hart })?;
        events.push(Event::Ack { hart })?;
    }
    Ok(())
}

/// The home serves its tickets itself, collects them, and finishes them.
fn close_tickets(events: &mut Vec<Event>, home: u8) -> Result<(), AllocError> {
    for ticket in 0..CHANGING {
        let (hart, ticket) = (home, u32::from(ticket));
        events.push(Event::AckSelf { hart, ticket })?;
        for from in (0..HARTS).filter(|from| *from != home) {
            events.push(Event::Collect { hart, ticket, from })?;
        }
        events.push(Event::Finish { hart, ticket })?;
    }
    Ok(())
}

/// The turn of a space.
fn add_turn(events: &mut Vec<Event>, home: u8) -> Result<(), AllocError> {
    for number in STAYING..STAYING + CHANGING {
        events.push(map(home, number))?;
    }
    for hart in (0..HARTS).filter(|hart| *hart != home) {
        use_pages(events, hart, home)?;
    }
    unmap_pages(events, home)?;
    for hart in (0..HARTS).filter(|hart| *hart != home) {
        serve(events, hart, home)?;
    }
    close_tickets(events, home)
}

/// A turn of each space.
fn cycle(alloc: Global) -> Result<Vec<Event>, AllocError> {
    let mut events = Vec::new(alloc);
    for home in 0..HARTS {
        add_turn(&mut events, home)?;
    }
    Ok(events)
}

/// Runs the opening, and as many whole cycles as have at most `count` events. Returns the number of
/// cycles, and the replies.
pub fn run(alloc: Global, count: u64) -> Result<(u64, Tally), Failure> {
    let mut machine = match Machine::open(alloc, &config()) {
        Ok(machine) => machine,
        Err(OpenFault::NoMemory) => return Err(Failure::NoMemory),
        Err(OpenFault::BadLayout) => return Err(Failure::NotOpened),
    };
    let (opening, cycle) = (opening(alloc)?, cycle(alloc)?);
    let cycles = count / (cycle.len() as u64).max(1);
    let mut tally = Tally::default();
    let mut replies = Vec::new(alloc);
    machine.run(&opening, &mut replies)?;
    replies.iter().for_each(|reply| tally.count(reply));
    for _ in 0..cycles {
        replies.clear();
        machine.run(&cycle, &mut replies)?;
        replies.iter().for_each(|reply| tally.count(reply));
    }
    Ok((cycles, tally))
}
