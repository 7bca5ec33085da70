//! Replies as results. A reply that is due to no event of a kind is answered as `NoHart`.

ghost use Rattle.std.specs.Prelude.{◌≡◌, IsTrue};
ghost use Rattle.melissaledge.specs.Calls.{Makes, call_reply, called_of, calls, collects, map_reply, mapped_of, maps, opened_of, opening_reply, opens, progress_of, progress_reply, taken_of, takes, taking_reply};

use board::Mapped;
use history::{Event, Refusal, Reply};
use shoot::{Collected, Request};
use stepcore::Machine;

/// A reply as what a step of mapping stored.
fn mapped(reply: Reply) -> Result<Mapped, Refusal>
    ensures { result ≡ mapped_of reply }
{
    match reply {
        Reply::Table(ppn) => Ok(Mapped::Table(ppn)),
        Reply::Leaf => Ok(Mapped::Leaf),
        Reply::Refused(refusal) => Err(refusal),
        Reply::Hit(_)
        | Reply::Trap(_)
        | Reply::More
        | Reply::Filled(_)
        | Reply::Opened(_)
        | Reply::Ok
        | Reply::Taken(_)
        | Reply::Done
        | Reply::Waiting(_) => Err(Refusal::NoHart),
    }
}

/// A reply as the ticket that was opened.
fn opened(reply: Reply) -> Result<u32, Refusal>
    ensures { result ≡ opened_of reply }
{
    match reply {
        Reply::Opened(ticket) => Ok(ticket),
        Reply::Refused(refusal) => Err(refusal),
        Reply::Hit(_)
        | Reply::Trap(_)
        | Reply::More
        | Reply::Filled(_)
        | Reply::Table(_)
        | Reply::Leaf
        | Reply::Ok
        | Reply::Taken(_)
        | Reply::Done
        | Reply::Waiting(_) => Err(Refusal::NoHart),
    }
}

/// A reply as nothing but whether it was refused.
fn called(reply: Reply) -> Result<(), Refusal>
    ensures { result ≡ called_of reply }
{
    match reply {
        Reply::Ok => Ok(()),
        Reply::Refused(refusal) => Err(refusal),
        Reply::Hit(_)
        | Reply::Trap(_)
        | Reply::More
        | Reply::Filled(_)
        | Reply::Table(_)
        | Reply::Leaf
        | Reply::Opened(_)
        | Reply::Taken(_)
        | Reply::Done
        | Reply::Waiting(_) => Err(Refusal::NoHart),
    }
}

/// A reply as the request that was taken.
fn taken(reply: Reply) -> Result<Request, Refusal>
    ensures { result ≡ taken_of reply }
{
    match reply {
        Reply::Taken(request) => Ok(request),
        Reply::Refused(refusal) => Err(refusal),
        Reply::Hit(_)
        | Reply::Trap(_)
        | Reply::More
        | Reply::Filled(_)
        | Reply::Table(_)
        | Reply::Leaf
        | Reply::Opened(_)
        | Reply::Ok
        | Reply::Done
        | Reply::Waiting(_) => Err(Refusal::NoHart),
    }
}

/// A reply as how far the ticket is.
fn progress(reply: Reply) -> Result<Collected, Refusal>
    ensures { result ≡ progress_of reply }
{
    match reply {
        Reply::Done => Ok(Collected::Done),
        Reply::Waiting(harts) => Ok(Collected::Waiting(harts)),
        Reply::Refused(refusal) => Err(refusal),
        Reply::Hit(_)
        | Reply::Trap(_)
        | Reply::More
        | Reply::Filled(_)
        | Reply::Table(_)
        | Reply::Leaf
        | Reply::Opened(_)
        | Reply::Ok
        | Reply::Taken(_) => Err(Refusal::NoHart),
    }
}

/// Makes a step of mapping.
pub(crate) fn map_step(machine: &mut Machine, event: Event) -> Result<Mapped, Refusal>
    requires { IsTrue (maps event) }
    ensures { Makes machine.old event (map_reply result) machine.new }
{
    mapped(machine.step(event))
}

/// Makes an event that opens a ticket.
pub(crate) fn open(machine: &mut Machine, event: Event) -> Result<u32, Refusal>
    requires { IsTrue (opens event) }
    ensures { Makes machine.old event (opening_reply result) machine.new }
{
    opened(machine.step(event))
}

/// Makes an event that has nothing to report.
pub(crate) fn call(machine: &mut Machine, event: Event) -> Result<(), Refusal>
    requires { IsTrue (calls event) }
    ensures { Makes machine.old event (call_reply result) machine.new }
{
    called(machine.step(event))
}

/// Makes an event that takes a request.
pub(crate) fn take_one(machine: &mut Machine, event: Event) -> Result<Request, Refusal>
    requires { IsTrue (takes event) }
    ensures { Makes machine.old event (taking_reply result) machine.new }
{
    taken(machine.step(event))
}

/// Makes an event that tells how far a ticket is.
pub(crate) fn collect_of(machine: &mut Machine, event: Event) -> Result<Collected, Refusal>
    requires { IsTrue (collects event) }
    ensures { Makes machine.old event (progress_reply result) machine.new }
{
    progress(machine.step(event))
}
