//! Tickets and sets of harts, as rows of calls with what each is to answer.

use crate::common::{assert_row, page};
use pte::{PageSize, What};
use shoot::{Collected, HartSet, TicketFault, Tickets};
use std::process::Abort;

/// What tickets say of one of them.
#[derive(Clone, Copy)]
enum Told {
    IsOpen(bool),
    Names(u8, bool),
    IsPosted(u8, bool),
    IsAcked(u8, bool),
    IsCollected(u8, bool),
    Progress(Collected),
    IsDone(Option<bool>),
    Asks(What),
}

/// Whether the tickets say this of one of them.
fn is_told(tickets: &Tickets, ticket: u32, told: &Told) -> bool {
    let is_open = tickets.is_open(ticket);
    match *told {
        Told::IsOpen(want) => is_open == want,
        Told::Names(hart, want) => tickets.names(ticket, hart) == want,
        Told::IsPosted(hart, want) => is_open && tickets.is_posted(ticket, hart) == want,
        Told::IsAcked(hart, want) => is_open && tickets.is_acked(ticket, hart) == want,
        Told::IsCollected(hart, want) => is_open && tickets.is_collected(ticket, hart) == want,
        Told::Progress(want) => is_open && tickets.progress(ticket) == want,
        Told::IsDone(want) => tickets.is_done(ticket) == want,
        Told::Asks(want) => is_open && tickets.what(ticket) == want,
    }
}

/// A call of tickets with its answer, or what they say of one ticket.
#[derive(Clone, Copy)]
enum Step {
    /// What is asked, the harts named, and the ticket.
    Open(What, u8, Result<u32, TicketFault>),
    WouldOpen(u8, Result<u32, TicketFault>),
    Posted(u32, u8),
    Acked(u32, u8),
    Collect(u32, u8, Collected),
    /// The ticket, and whether it is done.
    Finish(u32, bool),
    Tell(u32, Told),
}

/// Whether a call that asks for a ticket that names the hart may be made, and is answered so.
fn is_marked(tickets: &mut Tickets, step: &Step) -> bool {
    match *step {
        Step::Posted(ticket, hart) if tickets.names(ticket, hart) => {
            tickets.posted(ticket, hart);
            true
        }
        Step::Acked(ticket, hart) if tickets.names(ticket, hart) => {
            tickets.acked(ticket, hart);
            true
        }
        Step::Collect(ticket, hart, want) if tickets.names(ticket, hart) => {
            tickets.collect(ticket, hart) == want
        }
        _ => false,
    }
}

fn is_finished(tickets: &mut Tickets, ticket: u32) -> bool {
    tickets.is_open(ticket) && tickets.finish(ticket) == Ok(())
}

/// Whether the step is answered so.
fn is_as_told(tickets: &mut Tickets, step: &Step) -> bool {
    match *step {
        Step::Open(what, named, want) => tickets.open(what, named) == want,
        Step::WouldOpen(named, want) => tickets.would_open(&HartSet::from(named)) == want,
        Step::Posted(..) | Step::Acked(..) | Step::Collect(..) => is_marked(tickets, step),
        Step::Finish(ticket, want) => is_finished(tickets, ticket) == want,
        Step::Tell(ticket, told) => is_told(tickets, ticket, &told),
    }
}

fn are_as_told(rt: &impl Abort, tickets: &mut Tickets, steps: &[Step]) {
    for (number, step) in steps.iter().enumerate() {
        assert_row(rt, number, is_as_told(tickets, step));
    }
}

const WAITING: Collected = Collected::Waiting(0b10);

#[test]
fn own_acknowledgement_is_collected(rt: HostRuntime) {
    let steps = [
        Step::Open(What::All, 0b10, Err(TicketFault::HomeNotNamed)),
        Step::WouldOpen(0b11, Ok(0)),
        Step::Open(What::All, 0b11, Ok(0)),
        Step::Tell(0, Told::IsOpen(true)),
        Step::Tell(0, Told::Names(0, true)),
        Step::Tell(0, Told::Names(1, true)),
        Step::Acked(0, 0),
        Step::Tell(0, Told::IsOpen(true)),
        Step::Tell(0, Told::Names(0, true)),
        Step::Tell(0, Told::IsAcked(0, true)),
        Step::Tell(0, Told::IsCollected(0, true)),
        Step::Collect(0, 0, WAITING),
        Step::Tell(0, Told::IsOpen(true)),
        Step::Tell(0, Told::Names(1, true)),
        Step::Collect(0, 1, WAITING),
        Step::Tell(0, Told::IsOpen(true)),
        Step::Finish(0, false),
        Step::Tell(0, Told::IsOpen(true)),
        Step::Tell(0, Told::Names(1, true)),
        Step::Acked(0, 1),
        Step::Tell(0, Told::IsOpen(true)),
        Step::Tell(0, Told::Names(1, true)),
        Step::Tell(0, Told::Progress(WAITING)),
        Step::Tell(0, Told::IsDone(Some(false))),
        Step::Tell(0, Told::IsCollected(1, false)),
        Step::Collect(0, 1, Collected::Done),
        Step::Tell(0, Told::IsOpen(true)),
        Step::Tell(0, Told::IsDone(Some(true))),
        Step::Finish(0, true),
        Step::Tell(0, Told::IsOpen(false)),
    ];
    are_as_told(&rt, &mut Tickets::new(0), &steps);
}

/// The page of 2 MiB at 0x40_0000 of the address space 1.
fn superpage(rt: &impl Abort) -> What {
    What::PageOf(page(rt, 0x40_0000, PageSize::Mib2), Some(1))
}

#[test]
fn posting_is_no_acknowledgement(rt: HostRuntime) {
    let steps = [
        Step::Open(superpage(&rt), 0b1000_0100, Ok(0)),
        Step::Tell(0, Told::IsOpen(true)),
        Step::Tell(0, Told::Names(7, true)),
        Step::Tell(0, Told::Names(8, false)),
        Step::Tell(0, Told::Asks(superpage(&rt))),
        Step::Posted(0, 7),
        Step::Tell(0, Told::IsOpen(true)),
        Step::Tell(0, Told::IsPosted(7, true)),
        Step::Tell(0, Told::IsPosted(2, false)),
        Step::Tell(0, Told::IsAcked(7, false)),
        Step::Tell(0, Told::Progress(Collected::Waiting(0b1000_0100))),
        Step::Finish(0, false),
    ];
    are_as_told(&rt, &mut Tickets::new(2), &steps);
}

/// Ticket 0 names harts 2 and 7, ticket 1 names hart 2 alone, and no other is open.
const TWO_TICKETS: [Step; 35] = [
    Step::Open(What::SpaceOf(1), 0b1000_0100, Ok(0)),
    Step::Open(What::All, 0b0000_0100, Ok(1)),
    Step::Tell(0, Told::Names(2, true)),
    Step::Tell(0, Told::Names(7, true)),
    Step::Tell(1, Told::Names(2, true)),
    Step::Tell(1, Told::Names(7, false)),
    Step::Tell(2, Told::Names(2, false)),
    Step::Posted(0, 7),
    Step::Tell(0, Told::Names(2, true)),
    Step::Acked(0, 2),
    Step::Tell(0, Told::IsOpen(true)),
    Step::Tell(1, Told::IsOpen(true)),
    Step::Tell(2, Told::IsOpen(false)),
    Step::Tell(0, Told::IsPosted(7, true)),
    Step::Tell(0, Told::IsPosted(2, false)),
    Step::Tell(1, Told::IsPosted(7, false)),
    Step::Tell(0, Told::IsAcked(2, true)),
    Step::Tell(0, Told::IsAcked(7, false)),
    Step::Tell(1, Told::IsAcked(2, false)),
    Step::Tell(0, Told::IsCollected(2, true)),
    Step::Tell(0, Told::IsCollected(7, false)),
    Step::Tell(1, Told::IsCollected(2, false)),
    Step::Tell(1, Told::Names(2, true)),
    Step::Acked(1, 2),
    Step::Tell(0, Told::IsOpen(true)),
    Step::Tell(1, Told::IsOpen(true)),
    Step::Tell(1, Told::IsDone(Some(true))),
    Step::Tell(0, Told::IsDone(Some(false))),
    Step::Tell(2, Told::IsDone(None)),
    Step::Tell(64, Told::IsDone(None)),
    Step::Tell(0, Told::Asks(What::SpaceOf(1))),
    Step::Tell(1, Told::Asks(What::All)),
    Step::Tell(0, Told::Progress(Collected::Waiting(0b1000_0000))),
    Step::Finish(1, true),
    Step::Tell(0, Told::IsOpen(true)),
];

#[test]
fn tickets_and_harts_are_told_apart(rt: HostRuntime) {
    let mut tickets = Tickets::new(2);
    are_as_told(&rt, &mut tickets, &TWO_TICKETS);
    let again = [
        Step::Tell(1, Told::IsOpen(false)),
        Step::Open(What::All, 0b0000_0100, Ok(1)),
    ];
    are_as_told(&rt, &mut tickets, &again);
}

#[test]
fn sets_of_harts(rt: HostRuntime) {
    let mut set = HartSet::new();
    assert!(&rt; set.is_empty() && HartSet::default() == set);
    set.insert(0);
    set.insert(7);
    set.insert(8);
    let held = [
        set.contains(0),
        set.contains(1),
        set.contains(7),
        set.contains(8),
    ];
    assert_row(&rt, 0, held == [true, false, true, false]);
    assert_row(&rt, 1, u8::from(set) == 0b1000_0001);
    assert_row(&rt, 2, set == HartSet::from(0b1000_0001));
    let left = set.difference(&HartSet::from(0b0000_0011));
    assert_row(&rt, 3, u8::from(left) == 0b1000_0000);
}

/// Frees a ticket of hart 0 that names that hart alone.
fn finish_own(rt: &impl Abort, tickets: &mut Tickets, ticket: u32) {
    let steps = [
        Step::Tell(ticket, Told::IsOpen(true)),
        Step::Tell(ticket, Told::Names(0, true)),
        Step::Acked(ticket, 0),
        Step::Tell(ticket, Told::IsOpen(true)),
        Step::Finish(ticket, true),
    ];
    are_as_told(rt, tickets, &steps);
}

/// An order of hart 0 to itself opens the ticket of this number.
fn opens(rt: &impl Abort, tickets: &mut Tickets, number: u32) {
    are_as_told(rt, tickets, &[Step::Open(What::All, 0b1, Ok(number))]);
}

fn lowest_free(tickets: &Tickets) -> Option<u32> {
    for number in 0..64_u32 {
        if !tickets.is_open(number) {
            return Some(number);
        }
    }
    None
}

#[test]
fn lowest_free_number_is_opened(rt: HostRuntime) {
    let mut tickets = Tickets::new(0);
    for number in 0..64_u32 {
        let would_open = Step::WouldOpen(0b1, Ok(number));
        assert_row(&rt, number as usize, is_as_told(&mut tickets, &would_open));
        opens(&rt, &mut tickets, number);
    }
    let none = Step::Open(What::All, 0b1, Err(TicketFault::NoTicket));
    assert_row(&rt, 64, is_as_told(&mut tickets, &none));
}

/// Of tickets that are all open one after another is freed, and what would be opened is the lowest
/// that is free.
#[test]
fn lowest_free_number_would_be_opened(rt: HostRuntime) {
    let mut tickets = Tickets::new(0);
    for number in 0..64_u32 {
        opens(&rt, &mut tickets, number);
    }
    for turn in 0..64_u32 {
        finish_own(&rt, &mut tickets, (37 * turn + 11) % 64);
        let lowest = tickets.would_open(&HartSet::from(0b1)).ok();
        assert_row(&rt, turn as usize, lowest == lowest_free(&tickets));
    }
    let first = Step::WouldOpen(0b1, Ok(0));
    assert_row(&rt, 64, is_as_told(&mut tickets, &first));
}
