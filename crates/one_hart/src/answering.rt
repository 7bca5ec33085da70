//! What the results of a port's calls, and the replies of a machine, are as answers.

ghost use Rattle.std.specs.Prelude.{◌≡◌};
ghost use Rattle.one_hart.specs.Answering.{call_told, heard, map_told, opening_told, progress_told, service_told, translation_told};

use board::Mapped;
use history::{Refusal, Reply};
use shoot::{Collected, Request};
use walk::Trap;

/// The reply of a machine, where a walk's address is one that the TLB might have answered.
pub(crate) fn heard(reply: Reply) -> Reply
    ensures { result ≡ heard reply }
{
    match reply {
        Reply::Filled(pa) => Reply::Hit(pa),
        Reply::Hit(_)
        | Reply::Trap(_)
        | Reply::More
        | Reply::Table(_)
        | Reply::Leaf
        | Reply::Opened(_)
        | Reply::Ok
        | Reply::Taken(_)
        | Reply::Done
        | Reply::Waiting(_)
        | Reply::Refused(_) => reply,
    }
}

/// The answer of a translation.
pub(crate) fn of_translation(answer: Result<u64, Trap>) -> Reply
    ensures { result ≡ translation_told answer }
{
    match answer {
        Ok(pa) => Reply::Hit(pa),
        Err(trap) => Reply::Trap(trap),
    }
}

/// The answer of a step of mapping.
pub(crate) fn of_map(answer: Result<Mapped, Refusal>) -> Reply
    ensures { result ≡ map_told answer }
{
    match answer {
        Ok(Mapped::Table(ppn)) => Reply::Table(ppn),
        Ok(Mapped::Leaf) => Reply::Leaf,
        Err(refusal) => Reply::Refused(refusal),
    }
}

/// The answer of a call that opens a ticket.
pub(crate) fn of_opening(answer: Result<u32, Refusal>) -> Reply
    ensures { result ≡ opening_told answer }
{
    match answer {
        Ok(ticket) => Reply::Opened(ticket),
        Err(refusal) => Reply::Refused(refusal),
    }
}

/// The answer of a call that returns no value.
pub(crate) fn of_call(answer: Result<(), Refusal>) -> Reply
    ensures { result ≡ call_told answer }
{
    match answer {
        Ok(()) => Reply::Ok,
        Err(refusal) => Reply::Refused(refusal),
    }
}

/// The answer of a service.
pub(crate) fn of_service(answer: Result<Request, Refusal>) -> Reply
    ensures { result ≡ service_told answer }
{
    match answer {
        Ok(request) => Reply::Taken(request),
        Err(refusal) => Reply::Refused(refusal),
    }
}

/// The answer of a call that returns how far a ticket is.
pub(crate) fn of_progress(answer: Result<Collected, Refusal>) -> Reply
    ensures { result ≡ progress_told answer }
{
    match answer {
        Ok(Collected::Done) => Reply::Done,
        Ok(Collected::Waiting(harts)) => Reply::Waiting(harts),
        Err(refusal) => Reply::Refused(refusal),
    }
}
