ghost use Rattle.std.specs.Prelude.{◌≡◌};
ghost use Rattle.board.specs.Ports.{name_of};

use crate::board_tables::ports_of;
use crate::calls::Answer::{Accepted, Done, Opened, Refused, TakenAll, TakenSpace, Waiting};
use crate::calls::Call::{AckSelf, Close, Collect, Finish, Flush, Post, Serve};
use crate::calls::{Answer, Call, Row, assert_call, assert_calls};
use crate::runs::{Pair, assert_pairs, assert_waiting};
use crate::two_threads::{Job, report_of_job};
use arrayvec::ArrayVec;
use board::*;
use history::Refusal::{
    AlreadyPosted, Closed, Empty, Full, HomeNotNamed, NoHart, NoSpace, NotDone, NotNamed, NotOpen,
};
use history::{Refusal, Scope};
use pte::{Scheme, What};
use spaces::{Config, OpenFault, Space};
use std::alloc::Global;
use std::process::Abort;
use std::test::Fail;
use std::thread;

/// Two harts and one space of ASID 7, whose mailboxes have a capacity of 4.
fn two_harts(scheme: Scheme, harts: u16) -> Config {
    let mut spaces = ArrayVec::new();
    spaces.push(Space { home: 0, asid: 7 });
    let mut spares = ArrayVec::new();
    spares.push(8);
    spares.push(8);
    Config {
        scheme,
        harts,
        spaces,
        window: 1,
        base: 0x8_0000,
        spares,
        capacity: 4,
    }
}

/// The ports of both harts.
fn two_ports(rt: &impl Abort, alloc: Global, scheme: Scheme) -> Vec<HartPort> {
    ports_of(rt, alloc, &two_harts(scheme, 2))
}

const REQUESTS: [Row; 25] = [
    (0, Flush(Scope::Space(0), 0b100), Refused(NoHart)),
    (0, Flush(Scope::Space(1), 0b11), Refused(NoSpace)),
    (0, Flush(Scope::All, 0b10), Refused(HomeNotNamed)),
    (0, Flush(Scope::Space(0), 0b11), Opened(0)),
    (0, Flush(Scope::All, 0b01), Opened(1)),
    (0, Post(0, 0), Refused(NoHart)),
    (0, Post(0, 2), Refused(NoHart)),
    (0, Post(2, 1), Refused(NotOpen)),
    (0, Post(1, 1), Refused(NotNamed)),
    (0, Post(0, 1), Accepted),
    (0, Post(0, 1), Refused(AlreadyPosted)),
    (1, Serve(1), Refused(NoHart)),
    (1, Serve(0), TakenSpace(0, 7)),
    (1, Serve(0), Refused(Empty)),
    (0, AckSelf(2), Refused(NotOpen)),
    (0, AckSelf(0), Waiting(0b10)),
    (0, Finish(0), Refused(NotDone)),
    (0, AckSelf(1), Done),
    (0, Finish(1), Accepted),
    (0, Finish(1), Refused(NotOpen)),
    (0, Close(0), Refused(NoHart)),
    (0, Close(1), Accepted),
    (0, Close(1), Refused(Closed)),
    (0, Flush(Scope::All, 0b11), Opened(1)),
    (0, Post(1, 1), Refused(Closed)),
];

#[test]
fn requests_go_from_port_to_port(rt: HostRuntime) {
    let mut ports = two_ports(&rt, rt.alloc(), Scheme::Sv39);
    assert_calls(&rt, &mut ports, REQUESTS.as_slice());
}

const TWO_REASONS: [Row; 8] = [
    (0, Flush(Scope::Space(1), 0b100), Refused(NoHart)),
    (0, Flush(Scope::Space(1), 0b10), Refused(NoSpace)),
    (0, Post(9, 0), Refused(NoHart)),
    (0, Close(1), Accepted),
    (0, Post(9, 1), Refused(NotOpen)),
    (0, Flush(Scope::All, 0b01), Opened(0)),
    (0, Post(0, 1), Refused(NotNamed)),
    (0, Close(2), Refused(NoHart)),
];

// Of two reasons to refuse a call, the one that comes first in the order of the rules is answered.
#[test]
fn refusals_come_in_their_order(rt: HostRuntime) {
    let mut ports = two_ports(&rt, rt.alloc(), Scheme::Sv39);
    assert_calls(&rt, &mut ports, TWO_REASONS.as_slice());
}

#[test]
fn layout_is_refused(rt: HostRuntime) {
    for harts in [0, 1, 3, 9] {
        let refused = Board::open(rt.alloc(), &two_harts(Scheme::Sv48, harts)).err();
        assert!(&rt; refused == Some(OpenFault::BadLayout));
    }
}

const CLOSED_EARLY: [Row; 13] = [
    (0, Flush(Scope::All, 0b11), Opened(0)),
    (0, Flush(Scope::All, 0b11), Opened(1)),
    (0, Post(0, 1), Accepted),
    (0, Close(1), Accepted),
    (0, Close(1), Refused(Closed)),
    (0, Post(1, 1), Refused(Closed)),
    (1, Serve(0), TakenAll(0)),
    (0, Collect(0), Waiting(0b01)),
    (0, AckSelf(0), Done),
    (0, Finish(0), Accepted),
    (0, AckSelf(1), Waiting(0b10)),
    (0, Finish(1), Refused(NotDone)),
    (1, Serve(0), Refused(Empty)),
];

// The mailbox is closed while its one request waits: that one is served, and no other comes after
// it.
#[test]
fn closed_before_it_is_served(rt: HostRuntime) {
    for scheme in [Scheme::Sv39, Scheme::Sv48] {
        let mut ports = two_ports(&rt, rt.alloc(), scheme);
        assert_calls(&rt, &mut ports, CLOSED_EARLY.as_slice());
    }
}

const FILLED: [Row; 9] = [
    (0, Flush(Scope::All, 0b11), Opened(0)),
    (0, Flush(Scope::All, 0b11), Opened(1)),
    (0, Flush(Scope::All, 0b11), Opened(2)),
    (0, Flush(Scope::All, 0b11), Opened(3)),
    (0, Flush(Scope::All, 0b11), Opened(4)),
    (0, Post(0, 1), Accepted),
    (0, Post(1, 1), Accepted),
    (0, Post(2, 1), Accepted),
    (0, Post(3, 1), Accepted),
];

const STAYS_FULL: [Row; 2] = [
    (0, Post(4, 1), Refused(Full)),
    (0, Collect(0), Waiting(0b11)),
];

// However often hart 0 looks, hart 1 has not served.
#[test]
fn hart_that_never_serves(rt: HostRuntime) {
    for scheme in [Scheme::Sv39, Scheme::Sv48] {
        let mut ports = two_ports(&rt, rt.alloc(), scheme);
        assert_calls(&rt, &mut ports, FILLED.as_slice());
        for _ in 0..1_000 {
            assert_calls(&rt, &mut ports, STAYS_FULL.as_slice());
        }
        let unfinished = (0, Call::Finish(0), Answer::Refused(Refusal::NotDone));
        assert_call(&rt, &mut ports, &unfinished);
    }
}

// Hart 0 opens five tickets, posts each to hart 1, and closes its mailbox twice. Whether it was
// answered as a mailbox of four answers.
pub(crate) fn post_five(mut port: HartPort) -> (HartPort, bool)
    ensures { name_of result.0 ≡ name_of port }
{
    let mut as_expected = true;
    for ticket in 0..5 {
        let posted = if ticket < 4 {
            Ok(())
        } else {
            Err(Refusal::Full)
        };
        as_expected &= port.flush(Scope::All, 0b11) == Ok(ticket);
        as_expected &= port.post(ticket, 1) == posted;
    }
    as_expected &= port.close_to(1) == Ok(());
    as_expected &= port.close_to(1) == Err(Refusal::Closed);
    (port, as_expected)
}

// Hart 1 serves until it was answered `Ok` three times, in a limited number of tries. Whether they
// came in order.
pub(crate) fn serve_three(mut port: HartPort) -> (HartPort, bool)
    ensures { name_of result.0 ≡ name_of port }
{
    let mut in_order = 0;
    for _ in 0..1_000_000_000_u64 {
        if in_order == 3 {
            break;
        }
        match port.serve(0) {
            Ok(request) if request.ticket == in_order && request.what == What::All => in_order += 1,
            Ok(_) => break,
            Err(_) => thread::yield_now(),
        }
    }
    (port, in_order == 3)
}

// Four are accepted, and three served.
const CROSSED: [Pair; 2] = [(0, 1, 4, 3), (1, 0, 0, 0)];

#[test]
fn requests_cross_threads(rt: HostRuntime) -> Result<(), Fail> {
    let config = two_harts(Scheme::Sv39, 2);
    let (is_right, report) = report_of_job(&rt, rt.alloc(), &config, Job::Requests)?;
    assert!(&rt; is_right);
    assert_pairs(&rt, report.pairs.as_slice(), CROSSED.as_slice());
    assert_waiting(&rt, report.pairs.as_slice(), 3);
    Ok(())
}
