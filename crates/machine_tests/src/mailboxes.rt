//! Mailboxes, as rows of calls with what each is to answer.

use crate::common::assert_row;
use pte::What;
use shoot::{MAX_TICKETS, Mailbox, PostFault, Request};
use std::process::Abort;

/// A call of a mailbox, and its answer. A request is named by its ticket, and is for the address
/// space 1.
#[derive(Clone, Copy)]
enum Call {
    /// The ticket, and why its request is refused.
    Post(u32, Option<PostFault>),
    FirstWaiting(Option<u32>),
    Take(Option<u32>),
    Outstanding(usize),
    CanRelease(bool),
    Release,
    Close,
    IsClosed(bool),
    Fault(Option<PostFault>),
}

fn request(ticket: u32) -> Option<Request> {
    if (ticket as usize) < MAX_TICKETS {
        let what = What::SpaceOf(1);
        Some(Request { ticket, what })
    } else {
        None
    }
}

/// Whether the request of a ticket is posted, or refused with this fault and given back.
fn is_posted(mailbox: &mut Mailbox, ticket: u32, fault: Option<PostFault>) -> bool {
    let Some(asked) = request(ticket) else {
        return false;
    };
    match mailbox.post(asked) {
        Ok(()) => fault.is_none(),
        Err((why, back)) => fault == Some(why) && back == asked,
    }
}

/// Whether it is the request of a ticket, or none.
fn is_request(found: Option<Request>, ticket: Option<u32>) -> bool {
    match (found, ticket) {
        (Some(found), Some(ticket)) => found.ticket == ticket && found.what == What::SpaceOf(1),
        (None, None) => true,
        _ => false,
    }
}

fn is_released(mailbox: &mut Mailbox) -> bool {
    if mailbox.can_release() {
        mailbox.release();
        true
    } else {
        false
    }
}

/// Whether the call is answered so.
fn is_answered(mailbox: &mut Mailbox, call: &Call) -> bool {
    match *call {
        Call::Post(ticket, fault) => is_posted(mailbox, ticket, fault),
        Call::FirstWaiting(ticket) => is_request(mailbox.first_waiting(), ticket),
        Call::Take(ticket) => is_request(mailbox.take(), ticket),
        Call::Outstanding(count) => mailbox.outstanding() == count,
        Call::CanRelease(can_release) => mailbox.can_release() == can_release,
        Call::Release => is_released(mailbox),
        Call::Close => {
            mailbox.close();
            true
        }
        Call::IsClosed(is_closed) => mailbox.is_closed() == is_closed,
        Call::Fault(fault) => mailbox.post_fault() == fault,
    }
}

fn are_answered(rt: &impl Abort, mailbox: &mut Mailbox, calls: &[Call]) {
    for (number, call) in calls.iter().enumerate() {
        assert_row(rt, number, is_answered(mailbox, call));
    }
}

const FULL: Option<PostFault> = Some(PostFault::Full);

const CLOSED: Option<PostFault> = Some(PostFault::Closed);

#[test]
fn mailbox_of_two(rt: HostRuntime) {
    let calls = [
        Call::Post(0, None),
        Call::Post(1, None),
        Call::Post(2, FULL),
        Call::Take(Some(0)),
        Call::Outstanding(2),
        Call::Post(2, FULL),
        Call::CanRelease(true),
        Call::Release,
        Call::Outstanding(1),
        Call::CanRelease(false),
        Call::Post(2, None),
        Call::IsClosed(false),
        Call::Fault(FULL),
        Call::Close,
        Call::IsClosed(true),
        Call::Fault(CLOSED),
        Call::Post(3, CLOSED),
        Call::FirstWaiting(Some(1)),
        Call::Take(Some(1)),
        Call::Take(Some(2)),
        Call::Take(None),
    ];
    are_answered(&rt, &mut Mailbox::new(2), &calls);
}

#[test]
fn mailbox_keeps_order_around_its_end(rt: HostRuntime) {
    let mut mailbox = Mailbox::new(3);
    let first = [Call::Post(0, None), Call::Post(1, None)];
    are_answered(&rt, &mut mailbox, &first);
    for number in 0..200_u32 {
        let oldest = number % 64;
        let newest = (number + 2) % 64;
        let turn = [
            Call::Post(newest, None),
            Call::Post(newest, FULL),
            Call::FirstWaiting(Some(oldest)),
            Call::Take(Some(oldest)),
            Call::CanRelease(true),
            Call::Release,
        ];
        are_answered(&rt, &mut mailbox, &turn);
    }
    let last = [
        Call::Outstanding(2),
        Call::Take(Some(8)),
        Call::Take(Some(9)),
        Call::Take(None),
    ];
    are_answered(&rt, &mut mailbox, &last);
}

#[test]
fn mailbox_of_sixty_four(rt: HostRuntime) {
    let mut mailbox = Mailbox::new(64);
    for number in 0..64_u32 {
        are_answered(&rt, &mut mailbox, &[Call::Post(number, None)]);
    }
    are_answered(&rt, &mut mailbox, &[Call::Post(0, FULL)]);
    for number in 0..64_u32 {
        are_answered(&rt, &mut mailbox, &[Call::Take(Some(number))]);
    }
    let last = [
        Call::Take(None),
        Call::Outstanding(64),
        Call::Post(0, FULL),
        Call::CanRelease(true),
        Call::Release,
        Call::Post(7, None),
        Call::FirstWaiting(Some(7)),
    ];
    are_answered(&rt, &mut mailbox, &last);
}

#[test]
fn default_request_is_of_ticket_0_for_all(rt: HostRuntime) {
    let request = Request::default();
    assert!(&rt; request.ticket == 0 && request.what == What::All);
}

/// Each of the worked rows is a law that a caller gets.
#[test]
fn worked_rows_are_laws(_rt: HostRuntime) {
    shoot::worked_mailboxes();
    shoot::worked_tickets();
    shoot::worked_marks();
    shoot::worked_numbers();
    shoot::worked_bytes();
}
