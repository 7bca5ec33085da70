//! The calls by the port of the only hart of a board.

ghost use Rattle.std.specs.Prelude.{◌≡◌, ◌≤◌, [], IfOk, length, vec_capacity};
ghost use Rattle.one_hart.specs.declared.call.Call.TheVariants as call;
ghost use Rattle.one_hart.specs.Alone.{AreDueAtPort, IsDueAtPort};

use crate::answering::{of_call, of_map, of_opening, of_progress, of_service, of_translation};
use crate::call::Call;
use board::HartPort;
use history::{Reply, Scope};
use pte::{Access, Ctx, Page, PteFlags};
use spaces::Place;
use std::alloc::{AllocError, Global};

fn translate(port: &mut HartPort, va: u64, access: Access, ctx: Ctx) -> Reply
    ensures { IsDueAtPort (call.Translate va access ctx) port.old result port.new }
{
    port.held();
    of_translation(port.translate(va, access, ctx))
}

fn map(port: &mut HartPort, place: Place, page: Page, ppn: u64, flags: PteFlags) -> Reply
    ensures { IsDueAtPort (call.Map place page ppn flags) port.old result port.new }
{
    port.held();
    page.recall();
    of_map(port.map_step(place, page, ppn, flags))
}

fn unmap(port: &mut HartPort, place: Place, page: Page, named: u8) -> Reply
    ensures { IsDueAtPort (call.Unmap place page named) port.old result port.new }
{
    port.held();
    page.recall();
    of_opening(port.unmap(place, page, named))
}

fn protect(port: &mut HartPort, place: Place, page: Page, flags: PteFlags, named: u8) -> Reply
    ensures { IsDueAtPort (call.Protect place page flags named) port.old result port.new }
{
    port.held();
    page.recall();
    of_opening(port.protect(place, page, flags, named))
}

fn flush(port: &mut HartPort, scope: Scope, named: u8) -> Reply
    ensures { IsDueAtPort (call.Flush scope named) port.old result port.new }
{
    of_opening(port.flush(scope, named))
}

fn switch(port: &mut HartPort, space: u8) -> Reply
    ensures { IsDueAtPort (call.Switch space) port.old result port.new }
{
    of_call(port.switch(space))
}

fn fence(port: &mut HartPort, rs1: Option<u64>, rs2: Option<u64>) -> Reply
    ensures { IsDueAtPort (call.Fence rs1 rs2) port.old result port.new }
{
    port.fence(rs1, rs2);
    of_call(Ok(()))
}

fn post(port: &mut HartPort, ticket: u32, to: u8) -> Reply
    ensures { IsDueAtPort (call.Post ticket to) port.old result port.new }
{
    of_call(port.post(ticket, to))
}

fn serve(port: &mut HartPort, from: u8) -> Reply
    ensures { IsDueAtPort (call.Serve from) port.old result port.new }
{
    of_service(port.serve(from))
}

fn ack_self(port: &mut HartPort, ticket: u32) -> Reply
    ensures { IsDueAtPort (call.AckSelf ticket) port.old result port.new }
{
    of_progress(port.ack_self(ticket))
}

fn collect(port: &mut HartPort, ticket: u32) -> Reply
    ensures { IsDueAtPort (call.Collect ticket) port.old result port.new }
{
    of_progress(port.collect(ticket))
}

fn finish(port: &mut HartPort, ticket: u32) -> Reply
    ensures { IsDueAtPort (call.Finish ticket) port.old result port.new }
{
    of_call(port.finish(ticket))
}

fn close_to(port: &mut HartPort, to: u8) -> Reply
    ensures { IsDueAtPort (call.CloseTo to) port.old result port.new }
{
    of_call(port.close_to(to))
}

/// One call.
fn answer(port: &mut HartPort, call: &Call) -> Reply
    ensures { IsDueAtPort call.now port.old result port.new }
{
    match *call {
        Call::Translate { va, access, ctx } => translate(port, va, access, ctx),
        Call::Map {
            place,
            page,
            ppn,
            flags,
        } => map(port, place, page, ppn, flags),
        Call::Unmap { place, page, named } => unmap(port, place, page, named),
        Call::Protect {
            place,
            page,
            flags,
            named,
        } => protect(port, place, page, flags, named),
        Call::Flush { scope, named } => flush(port, scope, named),
        Call::Switch { space } => switch(port, space),
        Call::Fence { rs1, rs2 } => fence(port, rs1, rs2),
        Call::Post { ticket, to } => post(port, ticket, to),
        Call::Serve { from } => serve(port, from),
        Call::AckSelf { ticket } => ack_self(port, ticket),
        Call::Collect { ticket } => collect(port, ticket),
        Call::Finish { ticket } => finish(port, ticket),
        Call::CloseTo { to } => close_to(port, to),
    }
}

/// Calls in order.
fn answer_all(port: &mut HartPort, calls: &[Call], answers: &mut Vec<Reply>)
    requires none { answers.old.items ≡ [] }
    requires room { length calls.now ≤ vec_capacity answers.old }
    ensures { AreDueAtPort calls.now port.old answers.new.items port.new }
{
    for call in calls {
        answers.push_reserved(answer(port, call));
    }
}

/// What a port answers to calls in order. If it is the only port of its board, each answer is due
/// after the calls before it: a board with one hart answers as histories do.
pub fn port_answers(
    alloc: Global,
    port: &mut HartPort,
    calls: &[Call],
) -> Result<Vec<Reply>, AllocError>
    ensures { IfOk result (λ answers. AreDueAtPort calls.now port.old answers.items port.new) }
{
    let mut answers = Vec::with_capacity(alloc, calls.len())?;
    answer_all(port, calls, &mut answers);
    Ok(answers)
}
