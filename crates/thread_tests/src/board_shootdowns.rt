ghost use Rattle.std.specs.Prelude.{◌≡◌, map};
ghost use Rattle.board.specs.Ports.{ArePorts, name_of};

use crate::board_tables::{OWN, PAGE, invalid, layout, open_ports};
use crate::calls::Answer::{
    Accepted, Done, Found, Leaf, Opened, Refused, Table, TakenPage, TakenSpace, Waiting,
};
use crate::calls::Call::{AckSelf, Collect, Finish, Flush, Load, Map, Post, Serve, Switch, Unmap};
use crate::calls::Leaves::{Global, Readable};
use crate::calls::*;
use crate::runs::{Pair, assert_pairs};
use crate::two_threads::{Job, report_of_job};
use board::*;
use harts::unmap_and_drop;
use history::Refusal::{AlreadyPosted, BadFlags, Full, NotDone, NotHome, NotOpen};
use history::{Refusal, Scope};
use pte::{Access, Page};
use shoot::Collected;
use spaces::Place;
use std::test::Fail;
use std::thread;
use walk::Trap;

/// Hart 0 maps the page to PPN 0x100.
const MAPPED: [Row; 3] = [
    (0, Map(OWN, PAGE, 0x100, Readable), Table(0x8_0003)),
    (0, Map(OWN, PAGE, 0x100, Readable), Table(0x8_0004)),
    (0, Map(OWN, PAGE, 0x100, Readable), Leaf),
];

const OLD_ACKNOWLEDGEMENT: [Row; 13] = [
    (0, Unmap(OWN, PAGE, 0b11), Opened(0)),
    (0, Post(0, 1), Accepted),
    (1, Serve(0), TakenPage(0, PAGE, Some(1))),
    (0, Collect(0), Waiting(0b01)),
    (0, AckSelf(0), Done),
    (0, Finish(0), Accepted),
    (0, Map(OWN, PAGE, 0x100, Readable), Leaf),
    (1, Load(0x1004), Found(0x10_0004)),
    (0, Unmap(OWN, PAGE, 0b11), Opened(0)),
    (0, Post(0, 1), Accepted),
    (0, Collect(0), Waiting(0b11)),
    (1, Serve(0), TakenPage(0, PAGE, Some(1))),
    (0, Collect(0), Waiting(0b01)),
];

// The same word as before counts for no new order.
#[test]
fn old_acknowledgement(rt: HostRuntime) {
    let mut ports = open_ports(&rt, rt.alloc(), 2);
    assert_calls(&rt, &mut ports, MAPPED.as_slice());
    assert_calls(&rt, &mut ports, OLD_ACKNOWLEDGEMENT.as_slice());
}

const WHOLE: [Row; 19] = [
    (1, Load(0x1004), Found(0x10_0004)),
    (0, Load(0x1004), Found(0x10_0004)),
    (0, Collect(0), Refused(NotOpen)),
    (0, Unmap(OWN, PAGE, 0b11), Opened(0)),
    (0, Collect(0), Waiting(0b11)),
    (0, Post(0, 1), Accepted),
    (0, Collect(0), Waiting(0b11)),
    // nobody has dropped it yet
    (1, Load(0x1004), Found(0x10_0004)),
    (1, Serve(0), TakenPage(0, PAGE, Some(1))),
    (1, Load(0x1004), INVALID),
    (0, Finish(0), Refused(NotDone)),
    (0, Collect(0), Waiting(0b01)),
    (0, Load(0x1004), Found(0x10_0004)),
    (0, AckSelf(0), Done),
    (0, Load(0x1004), INVALID),
    (0, Collect(0), Done),
    (0, Finish(0), Accepted),
    (0, Collect(0), Refused(NotOpen)),
    (0, Collect(64), Refused(NotOpen)),
];

// Both harts hold the page until each has dropped it; the sender is done once both are collected.
#[test]
fn whole_shootdown(rt: HostRuntime) {
    let mut ports = open_ports(&rt, rt.alloc(), 2);
    assert_calls(&rt, &mut ports, MAPPED.as_slice());
    assert_calls(&rt, &mut ports, WHOLE.as_slice());
}

/// The first page of the kernel window.
const TOP: u64 = 0xFFFF_FFFF_C000_0000;

const KERNEL_LOAD: Call = Load(0xFFFF_FFFF_C000_0004);

const WINDOW: Place = Place::Kernel;

const OF_THE_KERNEL: [Row; 15] = [
    (1, Map(WINDOW, TOP, 0x100, Global), Refused(NotHome)),
    (0, Map(WINDOW, TOP, 0x100, Readable), Refused(BadFlags)),
    (0, Map(WINDOW, TOP, 0x100, Global), Table(0x8_0003)),
    (0, Map(WINDOW, TOP, 0x100, Global), Leaf),
    (1, KERNEL_LOAD, Found(0x10_0004)),
    (0, Unmap(WINDOW, TOP, 0b11), Opened(0)),
    (1, Switch(1), Accepted),
    (1, KERNEL_LOAD, Found(0x10_0004)),
    (0, Post(0, 1), Accepted),
    (1, Serve(0), TakenPage(0, TOP, None)),
    (1, KERNEL_LOAD, INVALID),
    (1, Switch(0), Accepted),
    (1, KERNEL_LOAD, INVALID),
    (0, Collect(0), Waiting(0b01)),
    (0, AckSelf(0), Done),
];

// A page of the kernel is in every address space: hart 1 holds it under both ASIDs until it serves
// the request, and under none afterwards.
#[test]
fn shootdown_of_a_kernel_page(rt: HostRuntime) {
    let mut ports = open_ports(&rt, rt.alloc(), 2);
    assert_calls(&rt, &mut ports, OF_THE_KERNEL.as_slice());
}

const ASKED: [Row; 8] = [
    (0, Load(0x1004), Found(0x10_0004)),
    (1, Flush(Scope::Space(0), 0b11), Opened(0)),
    (1, Post(0, 0), Accepted),
    (1, Collect(0), Waiting(0b11)),
    (0, Serve(1), TakenSpace(0, 1)),
    (1, Collect(0), Waiting(0b10)),
    (1, AckSelf(0), Done),
    (1, Finish(0), Accepted),
];

// Hart 1 asks hart 0: what hart 0 acknowledges, it acknowledges to the hart that asked.
#[test]
fn asked_by_hart_1(rt: HostRuntime) {
    let mut ports = open_ports(&rt, rt.alloc(), 2);
    assert_calls(&rt, &mut ports, MAPPED.as_slice());
    assert_calls(&rt, &mut ports, ASKED.as_slice());
}

const TWO_SENDERS: [Row; 9] = [
    (0, Flush(Scope::Space(0), 0b011), Opened(0)),
    (2, Flush(Scope::Space(0), 0b110), Opened(0)),
    (0, Post(0, 1), Accepted),
    (2, Post(0, 1), Accepted),
    (1, Serve(0), TakenSpace(0, 1)),
    (2, Collect(0), Waiting(0b110)),
    (0, Collect(0), Waiting(0b001)),
    (1, Serve(2), TakenSpace(0, 1)),
    (2, Collect(0), Waiting(0b100)),
];

// Harts 0 and 2 ask hart 1 for the same under the same ticket: whose request it served, it
// acknowledged, and no other.
#[test]
fn two_senders_ask_one_hart(rt: HostRuntime) {
    let mut ports = open_ports(&rt, rt.alloc(), 3);
    assert_calls(&rt, &mut ports, TWO_SENDERS.as_slice());
}

const ROOM: [Row; 22] = [
    (0, Flush(Scope::Space(0), 0b11), Opened(0)),
    (0, Post(0, 1), Accepted),
    (0, Flush(Scope::Space(0), 0b11), Opened(1)),
    (0, Post(1, 1), Accepted),
    (0, Flush(Scope::Space(0), 0b11), Opened(2)),
    (0, Post(2, 1), Accepted),
    (0, Flush(Scope::Space(0), 0b11), Opened(3)),
    (0, Post(3, 1), Accepted),
    (0, Flush(Scope::All, 0b11), Opened(4)),
    (0, Post(4, 1), Refused(Full)),
    (1, Serve(0), TakenSpace(0, 1)),
    (1, Serve(0), TakenSpace(1, 1)),
    (0, Collect(3), Waiting(0b11)),
    (0, Post(4, 1), Refused(Full)),
    (0, Collect(1), Waiting(0b01)),
    (0, Collect(1), Waiting(0b01)),
    (0, Post(4, 1), Accepted),
    (0, Post(4, 1), Refused(AlreadyPosted)),
    (0, Flush(Scope::All, 0b11), Opened(5)),
    (0, Post(5, 1), Refused(Full)),
    (0, Collect(0), Waiting(0b01)),
    (0, Post(5, 1), Accepted),
];

// The capacity of 4 counts the requests that are not collected: each one that is makes room for one
// more.
#[test]
fn collecting_makes_room(rt: HostRuntime) {
    let mut ports = open_ports(&rt, rt.alloc(), 2);
    assert_calls(&rt, &mut ports, MAPPED.as_slice());
    assert_calls(&rt, &mut ports, ROOM.as_slice());
}

/// The PPN of a round.
fn ppn_of(round: u64) -> u64 {
    0x100 + round % 2
}

/// What a load of the page finds in a round.
fn loaded_in(round: u64) -> Result<u64, Trap> {
    if round % 2 == 0 {
        Ok(0x10_0004)
    } else {
        Ok(0x10_1004)
    }
}

/// Collects ticket 0 until only hart 0 is awaited, in a limited number of tries.
fn collect_other(port: &mut HartPort) -> bool
    ensures { name_of port.new ≡ name_of port.old }
{
    let mut is_collected = false;
    for _ in 0..1_000_000_000_u64 {
        if is_collected {
            break;
        }
        is_collected = port.collect(0) == Ok(Collected::Waiting(0b01));
        if !is_collected {
            thread::yield_now();
        }
    }
    is_collected
}

/// Hart 0 unmaps the page in both harts, and then maps it to the PPN of the next round.
fn shoot_down(port: &mut HartPort, page: Page, ppn: u64) -> bool
    ensures { name_of port.new ≡ name_of port.old }
{
    let place = Place::Space(0);
    let unmapped = port.unmap(place, page, 0b11) == Ok(0);
    let posted = port.post(0, 1) == Ok(());
    let collected = collect_other(port);
    let acknowledged = port.ack_self(0) == Ok(Collected::Done);
    let finished = port.finish(0) == Ok(());
    let next = port.map_step(place, page, ppn, readable());
    unmapped && posted && collected && acknowledged && finished && next == Ok(Mapped::Leaf)
}

/// Hart 0 maps the page for the first time, which takes two tables.
pub(crate) fn map_first(port: &mut HartPort, page: Page) -> bool
    ensures { name_of port.new ≡ name_of port.old }
{
    let place = Place::Space(0);
    let _first = port.map_step(place, page, ppn_of(0), readable());
    let _second = port.map_step(place, page, ppn_of(0), readable());
    port.map_step(place, page, ppn_of(0), readable()) == Ok(Mapped::Leaf)
}

/// Hart 0 maps the page, hart 1 finds it, and both give it up. Whether its frame is free then.
fn map_and_free(board: &Board, mut ports: Vec<HartPort>, page: Page) -> bool
    requires ports { ArePorts board.now (map name_of ports.items) }
    requires two { board.now.harts ≡ 2 }
{
    let _board = board;
    let (Some(mut one), Some(mut zero)) = (ports.pop(), ports.pop()) else {
        return false;
    };
    let mapped = map_first(&mut zero, page);
    let held = one.translate(0x1004, Access::Load, USER) == Ok(0x10_0004);
    let free = unmap_and_drop(&mut zero, &mut one, Place::Space(0), page) == Ok(true);
    let gone = one.translate(0x1004, Access::Load, USER) == invalid(13);
    mapped && held && free && gone
}

// The worked caller of two ports.
#[test]
fn frame_is_free(rt: HostRuntime) -> Result<(), Fail> {
    let Some(page) = page(0x1000) else {
        return Err(Fail::new("no page"));
    };
    let Ok((board, ports)) = Board::open(rt.alloc(), &layout(2)) else {
        return Err(Fail::new("no board"));
    };
    assert!(&rt; map_and_free(&board, ports, page));
    Ok(())
}

// Hart 0 maps the page, and shoots it down 300 times. Whether it was answered so.
pub(crate) fn shoot_down_often(mut port: HartPort) -> (HartPort, bool)
    ensures { name_of result.0 ≡ name_of port }
{
    let Some(page) = page(0x1000) else {
        return (port, false);
    };
    let mut as_expected = map_first(&mut port, page);
    for round in 0..300 {
        as_expected &= shoot_down(&mut port, page, ppn_of(round + 1));
    }
    (port, as_expected)
}

// Hart 1 translates and serves, until it has served 300 requests. Once it served the request of a
// round, what it finds is that of the next one, or nothing. Whether it was so.
pub(crate) fn translate_and_serve(mut port: HartPort) -> (HartPort, bool)
    ensures { name_of result.0 ≡ name_of port }
{
    let mut served = 0;
    let mut as_found = true;
    for _ in 0..1_000_000_000_u64 {
        if served == 300 {
            break;
        }
        let answer = port.translate(0x1004, Access::Load, USER);
        as_found &= answer == loaded_in(served) || answer == invalid(13);
        if port.serve(0).is_ok() {
            served += 1;
        } else {
            thread::yield_now();
        }
    }
    (port, as_found && served == 300)
}

const ALL_SERVED: [Pair; 2] = [(0, 1, 300, 300), (1, 0, 0, 0)];

#[test]
fn shootdowns_by_two_threads(rt: HostRuntime) -> Result<(), Fail> {
    let (is_right, report) = report_of_job(&rt, rt.alloc(), &layout(2), Job::Shootdowns)?;
    assert!(&rt; is_right);
    assert_pairs(&rt, report.pairs.as_slice(), ALL_SERVED.as_slice());
    Ok(())
}
