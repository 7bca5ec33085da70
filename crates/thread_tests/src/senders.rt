//! A usual sender of a shootdown: it tries again while its mailbox is full, and goes on to serve, to
//! collect and to translate while it waits.
ghost use Rattle.std.specs.Prelude.{◌≡◌, true};
ghost use Rattle.board.specs.Calls.{KeepsUnmappings};
ghost use Rattle.board.specs.Ports.{name_of};
ghost use Rattle.board.specs.Promises.{IsDoneClean, IsUnmappedFrom};

use crate::board_shootdowns::map_first;
use crate::board_tables::{invalid, layout};
use crate::calls::{USER, page};
use crate::runs::{Pair, assert_pairs};
use crate::two_threads::{Job, report_of_job};
use board::{HartPort, unmapping_stays_open};
use history::{Refusal, Scope};
use pte::{Access, Page};
use shoot::Collected;
use spaces::Place;
use std::test::Fail;
use std::thread;

/// How often a hart tries again.
const TRIES: u64 = 1_000_000_000;

/// What a hart does while it waits: it looks for the acknowledgements of an older ticket, serves a
/// request of another hart, and translates an address.
fn work_on(port: &mut HartPort, older: u32, other: u8)
    ensures stays { KeepsUnmappings port.old port.new }
    ensures same { name_of port.new ≡ name_of port.old }
{
    unmapping_stays_open();
    let _older = port.collect(older);
    let _served = port.serve(other);
    let _found = port.translate(0x1004, Access::Load, USER);
    thread::yield_now();
}

/// Posts the request of a ticket to another hart, again and again while there is no room for it.
/// Whether it was accepted.
fn post_until_accepted(port: &mut HartPort, ticket: u32, older: u32, other: u8) -> bool
    ensures stays { KeepsUnmappings port.old port.new }
    ensures same { name_of port.new ≡ name_of port.old }
{
    unmapping_stays_open();
    for _ in 0..TRIES {
        match port.post(ticket, other) {
            Ok(()) => return true,
            Err(Refusal::Full) => work_on(port, older, other),
            Err(_) => return false,
        }
    }
    false
}

/// Looks for the acknowledgements of a ticket until it is done. Whether it is.
fn collect_until_done(port: &mut HartPort, ticket: u32, older: u32, other: u8) -> bool
    ensures stays { KeepsUnmappings port.old port.new }
    ensures done { result ≡ true → IsDoneClean port.new ticket }
    ensures same { name_of port.new ≡ name_of port.old }
{
    unmapping_stays_open();
    for _ in 0..TRIES {
        if port.collect(ticket) == Ok(Collected::Done) {
            return true;
        }
        work_on(port, older, other);
    }
    false
}

/// Hart 0 unmaps a page, and has hart 1 drop it. `true` once it is gone from both.
fn unmap_in_both(port: &mut HartPort, place: Place, page: Page, older: u32) -> bool
    ensures gone { result ≡ true → IsUnmappedFrom port.new 3 place page }
    ensures same { name_of port.new ≡ name_of port.old }
{
    unmapping_stays_open();
    let Ok(ticket) = port.unmap(place, page, 0b11) else {
        return false;
    };
    if !post_until_accepted(port, ticket, older, 1) {
        return false;
    }
    let _own = port.ack_self(ticket);
    collect_until_done(port, ticket, older, 1)
}

/// Fills the mailbox to hart 1, and asks for one more. Whether only that was refused.
fn fill_mailbox(port: &mut HartPort) -> bool
    ensures { name_of port.new ≡ name_of port.old }
{
    let mut as_expected = true;
    for ticket in 0..5 {
        let posted = if ticket < 4 {
            Ok(())
        } else {
            Err(Refusal::Full)
        };
        as_expected &= port.flush(Scope::Space(1), 0b11) == Ok(ticket);
        as_expected &= port.post(ticket, 1) == posted;
    }
    as_expected
}

// Hart 0 maps the page, and unmaps it in both harts while its mailbox to hart 1 is full: the first
// post is refused until an older ticket is collected. Whether it was answered so.
pub(crate) fn unmap_while_full(mut port: HartPort) -> (HartPort, bool)
    ensures { name_of result.0 ≡ name_of port }
{
    let Some(page) = page(0x1000) else {
        return (port, false);
    };
    let mapped = map_first(&mut port, page);
    let filled = fill_mailbox(&mut port);
    let gone = unmap_in_both(&mut port, Place::Space(0), page, 0);
    let found = port.translate(0x1004, Access::Load, USER) == invalid(13);
    (port, mapped && filled && gone && found)
}

/// Serves this many requests of hart 0, and translates meanwhile. Whether they came.
fn serve_all(port: &mut HartPort, count: u32) -> bool
    ensures { name_of port.new ≡ name_of port.old }
{
    let mut served = 0;
    for _ in 0..TRIES {
        if served == count {
            break;
        }
        let _found = port.translate(0x1004, Access::Load, USER);
        if port.serve(0).is_ok() {
            served += 1;
        } else {
            thread::yield_now();
        }
    }
    served == count
}

// Hart 1 asks hart 0 for a flush, and then serves the four requests that filled its mailbox and that
// of the unmapping. Whether the page is gone then, and hart 0 served the flush while it waited.
pub(crate) fn ask_and_serve(mut port: HartPort) -> (HartPort, bool)
    ensures { name_of result.0 ≡ name_of port }
{
    let opened = port.flush(Scope::Space(1), 0b11) == Ok(0);
    let posted = port.post(0, 0) == Ok(());
    let served = serve_all(&mut port, 5);
    let gone = port.translate(0x1004, Access::Load, USER) == invalid(13);
    let own = port.ack_self(0).is_ok();
    let flushed = collect_until_done(&mut port, 0, 0, 0);
    (port, opened && posted && served && gone && own && flushed)
}

const SERVED: [Pair; 2] = [(0, 1, 5, 5), (1, 0, 1, 1)];

#[test]
fn sender_works_on_while_it_waits(rt: HostRuntime) -> Result<(), Fail> {
    let (is_right, report) = report_of_job(&rt, rt.alloc(), &layout(2), Job::Unmapping)?;
    assert!(&rt; is_right);
    assert_pairs(&rt, report.pairs.as_slice(), SERVED.as_slice());
    Ok(())
}
