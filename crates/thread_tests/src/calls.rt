//! What a hart does, and what it is answered, as rows of tables, and the calls of its port by which
//! it does it.

use board::{HartPort, Mapped};
use history::{Refusal, Scope};
use pte::{Access, Ctx, Mode, Page, PageSize, PteFlags, VirtAddr, What};
use shoot::{Collected, Request};
use spaces::Place;
use std::process::Abort;
use walk::{Trap, Why};

/// The flags of a leaf: all have R, U, A and D.
#[derive(Clone, Copy)]
pub(crate) enum Leaves {
    Readable,
    /// W too.
    Writable,
    /// G too.
    Global,
}

/// What a hart does, as a user. A page is one of 4 KiB, by its address, and before PPNs and flags;
/// harts that are named come last, bit h for hart h.
#[derive(Clone, Copy)]
pub(crate) enum Call {
    Load(u64),
    Store(u64),
    Switch(u8),
    /// SFENCE.VMA for an address and an ASID.
    Fence(Option<u64>, Option<u64>),
    Map(Place, u64, u64, Leaves),
    Unmap(Place, u64, u8),
    Protect(Place, u64, Leaves, u8),
    Flush(Scope, u8),
    AckSelf(u32),
    Collect(u32),
    Finish(u32),
    /// For a ticket, and to a hart.
    Post(u32, u8),
    Serve(u8),
    Close(u8),
    /// In a live run alone.
    Wait(u32),
}

/// What it is answered.
#[derive(Clone, Copy, PartialEq, Eq)]
pub(crate) enum Answer {
    Accepted,
    /// This physical address.
    Found(u64),
    Trapped(u8, Why),
    /// A pointer to a table of this PPN was stored.
    Table(u64),
    Leaf,
    Opened(u32),
    Done,
    Waiting(u8),
    /// A request by its ticket, for everything.
    TakenAll(u32),
    /// For the address space of an ASID.
    TakenSpace(u32, u16),
    /// For a page of 4 KiB, of the address space of an ASID or of all.
    TakenPage(u32, u64, Option<u16>),
    Refused(Refusal),
    Timeout,
    Halted,
    /// The script has ended before.
    Missing,
    /// Nothing that a table names.
    Other,
}

/// A call or a step of a script, and its answer.
pub(crate) type Step = (Call, Answer);

/// The same of a hart.
pub(crate) type Row = (u8, Call, Answer);

pub(crate) const USER: Ctx = Ctx {
    mode: Mode::User,
    sum: false,
    mxr: false,
};

/// A load finds no valid word.
pub(crate) const INVALID: Answer = Answer::Trapped(13, Why::Invalid);

/// A store finds a leaf without W.
pub(crate) const DENIED: Answer = Answer::Trapped(15, Why::Denied);

/// The page of 4 KiB at an address.
pub(crate) fn page(va: u64) -> Option<Page> {
    Page::new(VirtAddr::new(va)?, PageSize::Kib4).ok()
}

pub(crate) fn readable() -> PteFlags {
    PteFlags::R | PteFlags::U | PteFlags::A | PteFlags::D
}

pub(crate) fn writable() -> PteFlags {
    PteFlags::R | PteFlags::W | PteFlags::U | PteFlags::A | PteFlags::D
}

pub(crate) fn flags_of(leaves: Leaves) -> PteFlags {
    match leaves {
        Leaves::Readable => readable(),
        Leaves::Writable => writable(),
        Leaves::Global => readable() | PteFlags::G,
    }
}

fn accepted(answer: Result<(), Refusal>) -> Answer {
    match answer {
        Ok(()) => Answer::Accepted,
        Err(refusal) => Answer::Refused(refusal),
    }
}

fn found(answer: Result<u64, Trap>) -> Answer {
    match answer {
        Ok(pa) => Answer::Found(pa),
        Err(trap) => Answer::Trapped(trap.cause, trap.why),
    }
}

fn stored(answer: Result<Mapped, Refusal>) -> Answer {
    match answer {
        Ok(Mapped::Table(ppn)) => Answer::Table(ppn),
        Ok(Mapped::Leaf) => Answer::Leaf,
        Err(refusal) => Answer::Refused(refusal),
    }
}

fn opened(answer: Result<u32, Refusal>) -> Answer {
    match answer {
        Ok(ticket) => Answer::Opened(ticket),
        Err(refusal) => Answer::Refused(refusal),
    }
}

fn collected(answer: Result<Collected, Refusal>) -> Answer {
    match answer {
        Ok(Collected::Done) => Answer::Done,
        Ok(Collected::Waiting(harts)) => Answer::Waiting(harts),
        Err(refusal) => Answer::Refused(refusal),
    }
}

/// A request as it is taken.
pub(crate) fn request_taken(request: &Request) -> Answer {
    match request.what {
        What::All => Answer::TakenAll(request.ticket),
        What::SpaceOf(asid) => Answer::TakenSpace(request.ticket, asid),
        What::PageOf(page, asid) => {
            if page.size() == PageSize::Kib4 {
                Answer::TakenPage(request.ticket, page.base().get(), asid)
            } else {
                Answer::Other
            }
        }
    }
}

fn taken(answer: Result<Request, Refusal>) -> Answer {
    match answer {
        Ok(taken) => request_taken(&taken),
        Err(refusal) => Answer::Refused(refusal),
    }
}

/// The calls that store to tables.
fn edit(port: &mut HartPort, call: &Call) -> Option<Answer> {
    match *call {
        Call::Map(place, va, ppn, leaves) => {
            Some(stored(port.map_step(place, page(va)?, ppn, flags_of(leaves))))
        }
        Call::Unmap(place, va, named) => Some(opened(port.unmap(place, page(va)?, named))),
        Call::Protect(place, va, leaves, named) => {
            Some(opened(port.protect(place, page(va)?, flags_of(leaves), named)))
        }
        _ => None,
    }
}

/// The calls of one hart that speak of its tickets.
fn order(port: &mut HartPort, call: &Call) -> Option<Answer> {
    match *call {
        Call::Flush(scope, named) => Some(opened(port.flush(scope, named))),
        Call::AckSelf(ticket) => Some(collected(port.ack_self(ticket))),
        Call::Collect(ticket) => Some(collected(port.collect(ticket))),
        Call::Finish(ticket) => Some(accepted(port.finish(ticket))),
        _ => None,
    }
}

/// The calls that speak of mailboxes.
fn mail(port: &mut HartPort, call: &Call) -> Option<Answer> {
    match *call {
        Call::Post(ticket, to) => Some(accepted(port.post(ticket, to))),
        Call::Serve(from) => Some(taken(port.serve(from))),
        Call::Close(to) => Some(accepted(port.close_to(to))),
        _ => None,
    }
}

/// The calls that use the hart's TLB.
fn translation(port: &mut HartPort, call: &Call) -> Option<Answer> {
    match *call {
        Call::Load(va) => Some(found(port.translate(va, Access::Load, USER))),
        Call::Store(va) => Some(found(port.translate(va, Access::Store, USER))),
        Call::Switch(space) => Some(accepted(port.switch(space))),
        Call::Fence(va, asid) => {
            port.fence(va, asid);
            Some(Answer::Accepted)
        }
        _ => None,
    }
}

/// What a port answers to a call.
pub(crate) fn answer_to(port: &mut HartPort, call: &Call) -> Answer {
    if let Some(answer) = edit(port, call) {
        return answer;
    }
    if let Some(answer) = order(port, call) {
        return answer;
    }
    if let Some(answer) = mail(port, call) {
        return answer;
    }
    translation(port, call).unwrap_or(Answer::Other)
}

/// Whether each call of a port, in order, has its answer.
pub(crate) fn answers_all(port: &mut HartPort, steps: &[Step]) -> bool {
    let mut as_expected = true;
    for (call, answer) in steps {
        as_expected &= answer_to(port, call) == *answer;
    }
    as_expected
}

/// Whether the call of a row by its hart's port has the answer of the row.
fn is_answered(ports: &mut Vec<HartPort>, row: &Row) -> bool {
    match ports.get_mut(usize::from(row.0)) {
        Some(port) => answer_to(port, &row.1) == row.2,
        None => false,
    }
}

/// What is compared under a number is as it should be.
pub(crate) fn assert_row(rt: &impl Abort, number: usize, is_right: bool) {
    assert!(rt; is_right, "row {number} is another");
}

/// The call has its answer.
pub(crate) fn assert_call(rt: &impl Abort, ports: &mut Vec<HartPort>, row: &Row) {
    assert!(rt; is_answered(ports, row));
}

/// Each call, in order, has its answer.
pub(crate) fn assert_calls(rt: &impl Abort, ports: &mut Vec<HartPort>, rows: &[Row]) {
    for (number, row) in rows.iter().enumerate() {
        assert_row(rt, number, is_answered(ports, row));
    }
}
