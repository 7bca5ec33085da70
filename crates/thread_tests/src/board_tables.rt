ghost use Rattle.std.specs.Prelude.{◌≡◌};

use crate::calls::Answer::{Accepted, Done, Found, Leaf, Opened, Refused, Table, Trapped};
use crate::calls::Call::{AckSelf, Fence, Finish, Load, Map, Protect, Store, Switch, Unmap};
use crate::calls::Leaves::{Readable, Writable};
use crate::calls::*;
use arrayvec::ArrayVec;
use board::*;
use history::Refusal::{
    AlreadyMapped, HomeNotNamed, NoHart, NoSpace, NoTicket, NotHome, NotMapped,
};
use pte::Scheme;
use spaces::{Config, Place, Space};
use std::alloc::Global;
use std::process::Abort;
use std::thread;
use std::thread::Threads;
use walk::{Trap, Why};

/// This many harts, and spaces 0 and 1 of ASIDs 1 and 2, both at home on hart 0.
pub(crate) fn layout(harts: u16) -> Config
    ensures { result.harts ≡ harts }
{
    let mut spaces = ArrayVec::new();
    spaces.push(Space { home: 0, asid: 1 });
    spaces.push(Space { home: 0, asid: 2 });
    let mut spares = ArrayVec::new();
    for _ in 0..8 {
        if spares.len() < 8 && spares.len() < usize::from(harts) {
            spares.push(8);
        }
    }
    Config {
        scheme: Scheme::Sv39,
        harts,
        spaces,
        window: 1,
        base: 0x8_0000,
        spares,
        capacity: 4,
    }
}

pub(crate) fn invalid(cause: u8) -> Result<u64, Trap> {
    Err(Trap {
        cause,
        why: Why::Invalid,
    })
}

/// The ports of a layout.
pub(crate) fn ports_of(rt: &impl Abort, alloc: Global, config: &Config) -> Vec<HartPort> {
    let ports = match Board::open(alloc, config) {
        Ok((_board, ports)) => ports,
        Err(_) => Vec::new(alloc),
    };
    assert!(rt; ports.len() == usize::from(config.harts));
    ports
}

/// The ports of this many harts.
pub(crate) fn open_ports(rt: &impl Abort, alloc: Global, harts: u16) -> Vec<HartPort> {
    ports_of(rt, alloc, &layout(harts))
}

/// The page of the tests.
pub(crate) const PAGE: u64 = 0x1000;

pub(crate) const OWN: Place = Place::Space(0);

const SECOND: Place = Place::Space(1);

const READ_BACK: [Row; 12] = [
    (0, Load(0x1004), INVALID),
    (0, Map(OWN, PAGE, 0x100, Readable), Table(0x8_0003)),
    (0, Map(OWN, PAGE, 0x100, Readable), Table(0x8_0004)),
    (0, Map(OWN, PAGE, 0x100, Readable), Leaf),
    (0, Map(OWN, PAGE, 0x100, Readable), Refused(AlreadyMapped)),
    (0, Load(0x1004), Found(0x10_0004)),
    (0, Unmap(OWN, PAGE, 1), Opened(0)),
    // the TLB answers until the hart serves its own ticket
    (0, Load(0x1008), Found(0x10_0008)),
    (0, AckSelf(0), Done),
    (0, Load(0x1004), INVALID),
    (0, Map(OWN, PAGE, 0x101, Readable), Leaf),
    (0, Load(0x1004), Found(0x10_1004)),
];

#[test]
fn home_reads_back(rt: HostRuntime) {
    let mut ports = open_ports(&rt, rt.alloc(), 1);
    assert_calls(&rt, &mut ports, READ_BACK.as_slice());
}

/// There is no such space.
const ABSENT: Place = Place::Space(2);

const REFUSED_EDITS: [Row; 13] = [
    (0, Map(OWN, PAGE, 0x100, Writable), Table(0x8_0003)),
    (0, Map(OWN, PAGE, 0x100, Writable), Table(0x8_0004)),
    (0, Map(OWN, PAGE, 0x100, Writable), Leaf),
    (1, Map(OWN, PAGE, 0x200, Writable), Refused(NotHome)),
    (1, Map(ABSENT, PAGE, 0x200, Writable), Refused(NoSpace)),
    (0, Unmap(ABSENT, PAGE, 0b100), Refused(NoHart)),
    (0, Unmap(ABSENT, PAGE, 0b10), Refused(NoSpace)),
    (0, Unmap(SECOND, PAGE, 0b10), Refused(NotMapped)),
    (0, Unmap(OWN, PAGE, 0b10), Refused(HomeNotNamed)),
    (0, Protect(OWN, PAGE, Readable, 0b10), Refused(HomeNotNamed)),
    (1, Unmap(OWN, PAGE, 0b11), Refused(NotHome)),
    // both harts still find the page as it was mapped, by loads of their own
    (0, Store(0x1000), Found(0x10_0000)),
    (1, Store(0x1000), Found(0x10_0000)),
];

const NO_TICKETS: [Row; 4] = [
    (0, Protect(OWN, PAGE, Readable, 0b11), Refused(NoTicket)),
    (0, Unmap(OWN, PAGE, 0b11), Refused(NoTicket)),
    (1, Fence(None, None), Accepted),
    (1, Store(0x1000), Found(0x10_0000)),
];

#[test]
fn refused_edits_store_nothing(rt: HostRuntime) {
    let mut ports = open_ports(&rt, rt.alloc(), 2);
    assert_calls(&rt, &mut ports, REFUSED_EDITS.as_slice());
    // 64 tickets are opened by edits, and then none
    for ticket in 0..64 {
        let leaves = if ticket % 2 == 0 {
            Leaves::Readable
        } else {
            Leaves::Writable
        };
        let row = (
            0,
            Call::Protect(OWN, PAGE, leaves, 0b11),
            Answer::Opened(ticket),
        );
        assert_call(&rt, &mut ports, &row);
    }
    assert_calls(&rt, &mut ports, NO_TICKETS.as_slice());
}

const APART: [Row; 20] = [
    (0, Map(OWN, PAGE, 0x100, Writable), Table(0x8_0003)),
    (0, Map(OWN, PAGE, 0x100, Writable), Table(0x8_0004)),
    (0, Map(OWN, PAGE, 0x100, Writable), Leaf),
    (0, Map(SECOND, PAGE, 0x200, Writable), Table(0x8_0005)),
    (0, Map(SECOND, PAGE, 0x200, Writable), Table(0x8_0006)),
    (0, Map(SECOND, PAGE, 0x200, Writable), Leaf),
    (1, Switch(2), Refused(NoSpace)),
    (1, Store(0x1004), Found(0x10_0004)),
    (1, Switch(1), Accepted),
    (1, Store(0x1004), Found(0x20_0004)),
    (0, Protect(OWN, PAGE, Readable, 1), Opened(0)),
    (0, Protect(SECOND, PAGE, Readable, 1), Opened(1)),
    // the TLB holds the entries of both spaces, until a fence for one ASID drops its own
    (1, Store(0x1004), Found(0x20_0004)),
    (1, Fence(None, Some(2)), Accepted),
    (1, Store(0x1004), DENIED),
    (1, Switch(0), Accepted),
    (1, Store(0x1004), Found(0x10_0004)),
    (1, Fence(Some(0x1000), None), Accepted),
    (1, Store(0x1004), DENIED),
    (1, Load(0x40_0000_0000), Trapped(13, Why::NotCanonical)),
];

#[test]
fn spaces_and_fences_are_told_apart(rt: HostRuntime) {
    let mut ports = open_ports(&rt, rt.alloc(), 2);
    assert_calls(&rt, &mut ports, APART.as_slice());
}

/// Two harts; space 0 at home on hart 0, and three spaces at home on hart 1.
fn two_homes() -> Config {
    let mut spaces = ArrayVec::new();
    spaces.push(Space { home: 0, asid: 1 });
    spaces.push(Space { home: 1, asid: 2 });
    spaces.push(Space { home: 1, asid: 3 });
    spaces.push(Space { home: 1, asid: 4 });
    let mut config = layout(2);
    config.spaces = spaces;
    config
}

const THIRD: Place = Place::Space(2);

const FOURTH: Place = Place::Space(3);

const OTHER_HOME: [Row; 27] = [
    (0, Switch(1), Accepted),
    (0, Load(0x1004), INVALID),
    (1, Map(SECOND, PAGE, 0x100, Readable), Table(0x8_000d)),
    (1, Map(SECOND, PAGE, 0x100, Readable), Table(0x8_000e)),
    (1, Map(SECOND, PAGE, 0x100, Readable), Leaf),
    (0, Load(0x1004), Found(0x10_0004)),
    (0, Switch(2), Accepted),
    (0, Load(0x1004), INVALID),
    (1, Map(THIRD, PAGE, 0x200, Readable), Table(0x8_000f)),
    (1, Map(THIRD, PAGE, 0x200, Readable), Table(0x8_0010)),
    (1, Map(THIRD, PAGE, 0x200, Readable), Leaf),
    (0, Load(0x1004), Found(0x20_0004)),
    (0, Switch(3), Accepted),
    (0, Load(0x1004), INVALID),
    (1, Map(FOURTH, PAGE, 0x300, Readable), Table(0x8_0011)),
    (1, Map(FOURTH, PAGE, 0x300, Readable), Table(0x8_0012)),
    (1, Map(FOURTH, PAGE, 0x300, Readable), Leaf),
    (0, Load(0x1004), Found(0x30_0004)),
    (1, Unmap(THIRD, PAGE, 0b11), Opened(0)),
    (0, Fence(None, None), Accepted),
    (0, Load(0x1004), Found(0x30_0004)),
    (0, Switch(2), Accepted),
    (0, Load(0x1004), INVALID),
    (0, Switch(1), Accepted),
    (0, Load(0x1004), Found(0x10_0004)),
    (0, Switch(0), Accepted),
    (0, Load(0x1004), INVALID),
];

// Hart 0 finds in each space of hart 1 what hart 1 stored there, by loads of its own, and in none
// what stands in another.
#[test]
fn reads_each_space_of_another_home(rt: HostRuntime) {
    let mut ports = ports_of(&rt, rt.alloc(), &two_homes());
    assert_calls(&rt, &mut ports, OTHER_HOME.as_slice());
}

const LOAD: Call = Load(0x1004);

const UNMAPPED: [Step; 4] = [
    (Unmap(OWN, PAGE, 1), Opened(0)),
    (AckSelf(0), Done),
    (Finish(0), Accepted),
    (LOAD, INVALID),
];

/// Maps the page, which takes one store, or three if there are no tables.
fn map_to(port: &mut HartPort, ppn: u64) {
    let map = Call::Map(OWN, PAGE, ppn, Leaves::Readable);
    for _ in 0..3 {
        if answer_to(port, &map) == Answer::Leaf {
            break;
        }
    }
}

// By turns hart 0 maps the page to 0x100 and to 0x101, and unmaps it. Whether it was answered as
// its own tables say.
fn map_by_turns(mut port: HartPort, rounds: u64) -> bool {
    let mut as_expected = true;
    for round in 0..rounds {
        let ppn = 0x100 + round % 2;
        map_to(&mut port, ppn);
        as_expected &= answer_to(&mut port, &LOAD) == Answer::Found(ppn * 0x1000 + 4);
        as_expected &= answers_all(&mut port, UNMAPPED.as_slice());
    }
    as_expected
}

// Whether a load is answered by one of 0x100004, 0x101004 and trap 13 Invalid.
fn loads_honestly(port: &mut HartPort) -> bool {
    match answer_to(port, &LOAD) {
        Answer::Found(pa) => pa == 0x10_0004 || pa == 0x10_1004,
        answer => answer == INVALID,
    }
}

fn answers_honestly(mut port: HartPort, times: u64) -> bool {
    let mut honest = true;
    for _ in 0..times {
        port.fence(None, None);
        honest &= loads_honestly(&mut port);
    }
    honest
}

/// The last port but one, and the last.
fn last_two(ports: &mut Vec<HartPort>) -> Option<(HartPort, HartPort)> {
    let last = ports.pop()?;
    let before = ports.pop()?;
    Some((before, last))
}

#[test]
fn honest_loads(rt: HostRuntime) {
    let mut ports = open_ports(&rt, rt.alloc(), 2);
    let Some((zero, one)) = last_two(&mut ports) else {
        assert!(&rt; false);
        return;
    };
    let (as_expected, honest) = thread::join(
        &rt,
        move || map_by_turns(zero, 500),
        move || answers_honestly(one, 1000),
    );
    assert!(&rt; as_expected && honest);
}

const SECOND_MAPPED: [Row; 3] = [
    (0, Map(SECOND, PAGE, 0x200, Readable), Table(0x8_0003)),
    (0, Map(SECOND, PAGE, 0x200, Readable), Table(0x8_0004)),
    (0, Map(SECOND, PAGE, 0x200, Readable), Leaf),
];

const SECOND_LOADED: [Step; 2] = [(Switch(1), Accepted), (LOAD, Found(0x20_0004))];

// A hart that goes from space to space and fences now and then. Whether each answer was possible:
// space 1 is not edited, and the page of space 0 is one of two, or none.
fn answers_possibly(mut port: HartPort, times: u64) -> bool {
    let mut possible = true;
    for time in 0..times {
        possible &= answers_all(&mut port, SECOND_LOADED.as_slice());
        let _back = port.switch(0);
        if time % 3 == 0 {
            port.fence(Some(0x1000), None);
        }
        possible &= loads_honestly(&mut port);
    }
    possible
}

fn edit_and_translate<R: Threads + Sync>(rt: &R, zero: HartPort, one: HartPort) -> bool {
    let (as_expected, possible) = thread::join(
        rt,
        move || map_by_turns(zero, 17_000),
        move || answers_possibly(one, 25_000),
    );
    as_expected && possible
}

fn two_translate<R: Threads + Sync>(rt: &R, two: HartPort, three: HartPort) -> bool {
    let (second, third) = thread::join(
        rt,
        move || answers_possibly(two, 25_000),
        move || answers_possibly(three, 25_000),
    );
    second && third
}

// One home edits, and three harts translate, each in a thread of its own, by 100,000 calls and
// more.
fn in_four_threads<R: Threads + Sync>(rt: &R, mut ports: Vec<HartPort>) -> Option<bool> {
    let (two, three) = last_two(&mut ports)?;
    let (zero, one) = last_two(&mut ports)?;
    let (edited, translated) = thread::join(
        rt,
        move || edit_and_translate(rt, zero, one),
        move || two_translate(rt, two, three),
    );
    Some(edited && translated)
}

#[test]
fn three_translate_while_one_edits(rt: HostRuntime) {
    let mut ports = open_ports(&rt, rt.alloc(), 4);
    assert_calls(&rt, &mut ports, SECOND_MAPPED.as_slice());
    let answered = in_four_threads(&rt, ports);
    assert!(&rt; answered == Some(true));
}
