ghost use Rattle.std.specs.Prelude.{◌≡◌, ◌<◌};

use board::{Inbox, Outbox, ends, settle, take_waiting};
use pte::What;
use shoot::{MAX_TICKETS, PostFault, Request};
use std::process::Abort;
use std::test::Fail;
use std::thread;
use std::thread::Threads;

fn request(ticket: u32) -> Request
    requires { ticket < MAX_TICKETS }
{
    Request {
        ticket,
        what: What::SpaceOf(1),
    }
}

/// A request is refused so, and comes back, or it is accepted.
fn assert_post(rt: &impl Abort, outbox: &mut Outbox, ticket: u32, fault: Option<PostFault>)
    requires { ticket < MAX_TICKETS }
    ensures { outbox.new.ring ≡ outbox.old.ring }
{
    let asked = request(ticket);
    let expected = match fault {
        Some(why) => Err((why, asked)),
        None => Ok(()),
    };
    assert!(rt; outbox.post(asked) == expected);
}

/// This many requests wait, and this one is the oldest of them.
fn assert_settled(
    rt: &impl Abort,
    outbox: &mut Outbox,
    inbox: &mut Inbox,
    count: usize,
    oldest: Option<Request>,
)
    requires { outbox.old.ring ≡ inbox.old.ring }
    ensures ring { outbox.new.ring ≡ inbox.new.ring }
    ensures outbox { outbox.new ≡ record outbox.old { room = outbox.new.room } }
{
    let waiting = settle(outbox, inbox);
    let taken = inbox.take();
    assert!(rt; waiting == count && taken == oldest);
}

#[test]
fn ends_of_two(rt: HostRuntime) -> Result<(), Fail> {
    let (mut outbox, mut inbox) = ends(rt.alloc(), 2)?;
    assert_post(&rt, &mut outbox, 0, None);
    assert_post(&rt, &mut outbox, 1, None);
    assert_post(&rt, &mut outbox, 2, Some(PostFault::Full));
    assert_settled(&rt, &mut outbox, &mut inbox, 2, Some(request(0)));
    assert_post(&rt, &mut outbox, 2, Some(PostFault::Full));
    assert!(&rt; outbox.outstanding() == 2);
    outbox.release();
    assert!(&rt; outbox.outstanding() == 1 && outbox.post_fault() == None);
    assert_post(&rt, &mut outbox, 2, None);
    assert!(&rt; outbox.post_fault() == Some(PostFault::Full) && !outbox.is_closed());
    outbox.close();
    assert!(&rt; outbox.post_fault() == Some(PostFault::Closed) && outbox.is_closed());
    assert_post(&rt, &mut outbox, 3, Some(PostFault::Closed));
    assert_settled(&rt, &mut outbox, &mut inbox, 2, Some(request(1)));
    assert_settled(&rt, &mut outbox, &mut inbox, 1, Some(request(2)));
    assert_settled(&rt, &mut outbox, &mut inbox, 0, None);
    Ok(())
}

// Places are used again, and what waits comes out in order.
#[test]
fn ring_of_three_turns_around(rt: HostRuntime) -> Result<(), Fail> {
    let (mut outbox, mut inbox) = ends(rt.alloc(), 3)?;
    assert_post(&rt, &mut outbox, 0, None);
    assert_post(&rt, &mut outbox, 1, None);
    for number in 0..200 {
        assert_post(&rt, &mut outbox, (number + 2) % 64, None);
        assert_post(&rt, &mut outbox, 63, Some(PostFault::Full));
        assert!(&rt; inbox.take() == Some(request(number % 64)));
        assert!(&rt; outbox.outstanding() == 3);
        outbox.release();
    }
    Ok(())
}

// What waits in a closed mailbox comes out in order too.
#[test]
fn waiting_requests_are_taken(rt: HostRuntime) -> Result<(), Fail> {
    let mut waiting = Vec::with_capacity(rt.alloc(), 3)?;
    let (mut outbox, mut inbox) = ends(rt.alloc(), 3)?;
    assert_post(&rt, &mut outbox, 5, None);
    assert_post(&rt, &mut outbox, 4, None);
    outbox.close();
    take_waiting(&mut outbox, &mut inbox, &mut waiting);
    assert!(&rt; waiting.as_slice() == [request(5), request(4)].as_slice());
    assert!(&rt; inbox.take() == None && outbox.outstanding() == 2);
    Ok(())
}

// Posts the requests of tickets 0 to 63, as often as it takes, and counts those that were accepted.
fn post_all(mut outbox: Outbox) -> (Outbox, u32)
    ensures { result.0.ring ≡ outbox.ring }
{
    let mut accepted = 0;
    for ticket in 0..64 {
        if outbox.post(request(ticket)).is_ok() {
            accepted = ticket + 1;
        }
    }
    (outbox, accepted)
}

// Takes until it has had 60 requests, in a limited number of tries, and counts those that came in
// order.
fn take_most(mut inbox: Inbox) -> (Inbox, u32)
    ensures { result.0.ring ≡ inbox.ring }
{
    let mut in_order = 0;
    for _ in 0..1_000_000_000_u64 {
        if in_order == 60 {
            break;
        }
        match inbox.take() {
            Some(next) if next.ticket == in_order => in_order += 1,
            Some(_) => break,
            None => thread::yield_now(),
        }
    }
    (inbox, in_order)
}

#[test]
fn requests_cross_threads_in_order(rt: HostRuntime) -> Result<(), Fail> {
    let (outbox, inbox) = ends(rt.alloc(), 64)?;
    let ((mut outbox, accepted), (mut inbox, taken)) = thread::join(
        &rt,
        move || -> (Outbox, u32)
            ensures { result.0.ring ≡ outbox.ring }
        { post_all(outbox) },
        move || -> (Inbox, u32)
            ensures { result.0.ring ≡ inbox.ring }
        { take_most(inbox) },
    );
    assert!(&rt; accepted == 64 && taken == 60);
    assert!(&rt; settle(&mut outbox, &mut inbox) == 4);
    for ticket in 60..64 {
        assert!(&rt; inbox.take() == Some(request(ticket)));
    }
    assert!(&rt; inbox.take() == None);
    Ok(())
}
