//! What a hart does and is answered, by steps of a live run.

use crate::calls::{Answer, Call, USER, flags_of, page, request_taken};
use harts::LiveReply;
use history::{LiveStep, Reply};
use pte::Access;

fn edit_step(call: &Call) -> Option<LiveStep> {
    match *call {
        Call::Map(place, va, ppn, leaves) => Some(LiveStep::Map {
            place,
            page: page(va)?,
            ppn,
            flags: flags_of(leaves),
        }),
        Call::Unmap(place, va, named) => Some(LiveStep::Unmap {
            place,
            page: page(va)?,
            named,
        }),
        Call::Protect(place, va, leaves, named) => Some(LiveStep::Protect {
            place,
            page: page(va)?,
            flags: flags_of(leaves),
            named,
        }),
        _ => None,
    }
}

fn order_step(call: &Call) -> Option<LiveStep> {
    match *call {
        Call::Flush(scope, named) => Some(LiveStep::Flush { scope, named }),
        Call::AckSelf(ticket) => Some(LiveStep::AckSelf { ticket }),
        Call::Collect(ticket) => Some(LiveStep::Collect { ticket }),
        Call::Finish(ticket) => Some(LiveStep::Finish { ticket }),
        Call::Wait(ticket) => Some(LiveStep::Wait { ticket }),
        _ => None,
    }
}

fn mail_step(call: &Call) -> Option<LiveStep> {
    match *call {
        Call::Post(ticket, to) => Some(LiveStep::Post { ticket, to }),
        Call::Serve(from) => Some(LiveStep::Serve { from }),
        Call::Close(to) => Some(LiveStep::Close { to }),
        _ => None,
    }
}

fn translation_step(call: &Call) -> Option<LiveStep> {
    match *call {
        Call::Load(va) => Some(LiveStep::Translate {
            va,
            access: Access::Load,
            ctx: USER,
        }),
        Call::Store(va) => Some(LiveStep::Translate {
            va,
            access: Access::Store,
            ctx: USER,
        }),
        Call::Switch(space) => Some(LiveStep::Switch { space }),
        Call::Fence(rs1, rs2) => Some(LiveStep::Fence { rs1, rs2 }),
        _ => None,
    }
}

/// The step of a live run by which a hart does it.
pub(crate) fn step_of(call: &Call) -> Option<LiveStep> {
    if let Some(step) = edit_step(call) {
        return Some(step);
    }
    if let Some(step) = order_step(call) {
        return Some(step);
    }
    if let Some(step) = mail_step(call) {
        return Some(step);
    }
    translation_step(call)
}

/// The replies that a step of a live run has as a step of a run of events has it.
fn replied(reply: &Reply) -> Answer {
    match reply {
        Reply::Ok => Answer::Accepted,
        Reply::Trap(trap) => Answer::Trapped(trap.cause, trap.why),
        Reply::Table(ppn) => Answer::Table(*ppn),
        Reply::Leaf => Answer::Leaf,
        Reply::Opened(ticket) => Answer::Opened(*ticket),
        Reply::Done => Answer::Done,
        Reply::Waiting(harts) => Answer::Waiting(*harts),
        Reply::Taken(taken) => request_taken(taken),
        Reply::Refused(refusal) => Answer::Refused(*refusal),
        _ => Answer::Other,
    }
}

/// The answer that a step of a live run had.
pub(crate) fn answer_of(reply: &LiveReply) -> Answer {
    match reply {
        LiveReply::Translated(pa) => Answer::Found(*pa),
        LiveReply::Replied(reply) => replied(reply),
        LiveReply::Halted => Answer::Halted,
        LiveReply::Timeout => Answer::Timeout,
    }
}
