//! The steps of a live run, each by the port of its hart.

ghost use Rattle.std.specs.Prelude.{◌≡◌, ◌<◌, true, Ok, Some, IfSome, length, map, slice_get, slice_set};
ghost use Rattle.board.specs.Ports.{PortState, name_of};
ghost use Rattle.board.specs.Tables.{after_fence};
ghost use Rattle.history.specs.declared.live_step.LiveStep.{LiveStep};
ghost use Rattle.history.specs.declared.live_step.LiveStep.TheVariants as live_step;
ghost use Rattle.harts.specs.Performs.{Collects, Performs, Posts, Serves, ServesBelow, Translates, Waits, call_reply};
ghost use Rattle.harts.specs.Scripts.{may_answer};

use crate::live_latch::Latch;
use crate::live_reply::LiveReply;
use board::HartPort;
use history::{LiveStep, Reply};
use pte::{Access, Ctx};
use std::thread;

/// Serves once from each other hart, the lowest first. Whether a request was waiting.
fn serve_others(port: &mut HartPort, harts: u8) -> bool
    ensures same { name_of port.new ≡ name_of port.old }
    ensures serves { ServesBelow harts port.old port.new }
{
    let mut served = false;
    for from in 0..harts {
        // the own number is refused
        served |= matches!(serve(port, from), LiveReply::Replied(Reply::Taken(_)));
    }
    served
}

fn serve(port: &mut HartPort, from: u8) -> LiveReply
    ensures same { name_of port.new ≡ name_of port.old }
    ensures made { (step : LiveStep) → may_answer step result ≡ true }
    ensures serves { Serves from port.old port.new result }
{
    LiveReply::of_service(port.serve(from))
}

fn collect(port: &mut HartPort, ticket: u32) -> LiveReply
    ensures same { name_of port.new ≡ name_of port.old }
    ensures made { (step : LiveStep) → may_answer step result ≡ true }
    ensures collects { Collects ticket port.old port.new result }
{
    LiveReply::of_collection(port.collect(ticket))
}

/// By turns serves the other harts and collects a ticket, until the ticket is done or not open, for
/// at most `turns` turns. `None` if the run was abandoned.
fn wait(port: &mut HartPort, ticket: u32, turns: u32, latch: &Latch) -> Option<LiveReply>
    ensures same { name_of port.new ≡ name_of port.old }
    ensures made { IfSome result (λ reply. may_answer (live_step.Wait ticket) reply ≡ true) }
    ensures waits { IfSome result (λ reply.
        Waits latch.now.harts turns ticket port.old port.new reply) }
{
    for _taken in 0..turns {
        let served = serve_others(port, latch.harts);
        let found = collect(port, ticket);
        if !found.is_waiting() {
            return Some(found);
        }
        if latch.is_abandoned() {
            return None;
        }
        if !served {
            thread::yield_now();
        }
    }
    Some(LiveReply::Timeout)
}

/// Once the hart's own script has ended: serves the other harts by turns until all scripts have
/// ended, for at most `turns` turns.
pub(crate) fn serve_until_over(port: &mut HartPort, turns: u32, latch: &Latch)
    ensures { name_of port.new ≡ name_of port.old }
{
    for _ in 0..turns {
        if latch.is_open() {
            break;
        }
        if !serve_others(port, latch.harts) {
            thread::yield_now();
        }
    }
}

fn translate(port: &mut HartPort, va: u64, access: Access, ctx: Ctx) -> LiveReply
    ensures same { name_of port.new ≡ name_of port.old }
    ensures made { (step : LiveStep) → may_answer step result ≡ true }
    ensures translates { Translates va access ctx port.old port.new result }
{
    LiveReply::of_translation(port.translate(va, access, ctx))
}

fn fence(port: &mut HartPort, rs1: Option<u64>, rs2: Option<u64>) -> LiveReply
    ensures same { name_of port.new ≡ name_of port.old }
    ensures made { (step : LiveStep) → may_answer step result ≡ true }
    ensures fenced { port.new ≡ after_fence port.old rs1 rs2 }
    ensures ok { result ≡ call_reply (Ok tt) }
{
    port.fence(rs1, rs2);
    LiveReply::of_call(Ok(()))
}

fn post(port: &mut HartPort, ticket: u32, to: u8) -> LiveReply
    ensures same { name_of port.new ≡ name_of port.old }
    ensures made { (step : LiveStep) → may_answer step result ≡ true }
    ensures posts { Posts ticket to port.old port.new result }
{
    LiveReply::of_call(port.post(ticket, to))
}

/// One step of a hart. `None` if the run was abandoned.
#[tactic(auto, unfolding(crate::specs::Performs::Performs))]
pub(crate) fn perform(
    port: &mut HartPort,
    step: &LiveStep,
    turns: u32,
    latch: &Latch,
) -> Option<LiveReply>
    ensures same { name_of port.new ≡ name_of port.old }
    ensures made { IfSome result (λ reply. may_answer step.now reply ≡ true) }
    ensures performs { IfSome result (λ reply.
        Performs latch.now.harts turns step.now port.old port.new reply) }
{
    let reply = match *step {
        LiveStep::Translate { va, access, ctx } => translate(port, va, access, ctx),
        LiveStep::Map {
            place,
            page,
            ppn,
            flags,
        } => LiveReply::of_map(port.map_step(place, page, ppn, flags)),
        LiveStep::Unmap { place, page, named } => {
            LiveReply::of_opening(port.unmap(place, page, named))
        }
        LiveStep::Protect {
            place,
            page,
            flags,
            named,
        } => LiveReply::of_opening(port.protect(place, page, flags, named)),
        LiveStep::Flush { scope, named } => LiveReply::of_opening(port.flush(scope, named)),
        LiveStep::Switch { space } => LiveReply::of_call(port.switch(space)),
        LiveStep::Fence { rs1, rs2 } => fence(port, rs1, rs2),
        LiveStep::Post { ticket, to } => post(port, ticket, to),
        LiveStep::Serve { from } => serve(port, from),
        LiveStep::AckSelf { ticket } => LiveReply::of_collection(port.ack_self(ticket)),
        LiveStep::Collect { ticket } => collect(port, ticket),
        LiveStep::Finish { ticket } => LiveReply::of_call(port.finish(ticket)),
        LiveStep::Close { to } => LiveReply::of_call(port.close_to(to)),
        LiveStep::Wait { ticket } => return wait(port, ticket, turns, latch),
    };
    Some(reply)
}

/// A step by the port of a hart. `None` if the run was abandoned.
pub(crate) fn step_of(
    ports: &mut Vec<HartPort>,
    hart: u8,
    step: &LiveStep,
    turns: u32,
    latch: &Latch,
) -> Option<LiveReply>
    requires { hart < length ports.old.items }
    ensures same { map name_of ports.new.items ≡ map name_of ports.old.items }
    ensures count { length ports.new.items ≡ length ports.old.items }
    ensures made { IfSome result (λ reply. may_answer step.now reply ≡ true) }
    ensures performs { IfSome result (λ reply. (port : PortState) × (next : PortState)
        × (slice_get ports.old.items hart ≡ Some port)
        × (ports.new.items ≡ slice_set ports.old.items hart next)
        × Performs latch.now.harts turns step.now port next reply) }
{
    let port = &mut ports[usize::from(hart)];
    perform(port, step, turns, latch)
}
