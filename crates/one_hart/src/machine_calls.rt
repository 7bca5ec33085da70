//! The calls as events of hart 0 of a machine.

ghost use Rattle.std.specs.Prelude.{◌≡◌, ◌≤◌, [], IfOk, length, vec_capacity};
ghost use Rattle.history.specs.Setup.{Setup};
ghost use Rattle.history.specs.Turns.{History};
ghost use Rattle.history.specs.declared.event.Event.{Event as EventOf};
ghost use Rattle.stepcore.specs.Stands.{Stands};
ghost use Rattle.one_hart.specs.declared.call.Call.TheVariants as call;
ghost use Rattle.one_hart.specs.Answering.{heard};
ghost use Rattle.one_hart.specs.Asked.{load_on, turned};
ghost use Rattle.one_hart.specs.Alone.{AreReplied, IsReplied};

use crate::answering::{heard, of_progress};
use crate::call::Call;
use history::{Event, Refusal, Reply, Scope};
use pte::{Access, Ctx, Page, PteFlags, SV48_LEVELS};
use spaces::Place;
use std::alloc::{AllocError, Global};
use stepcore::Machine;

/// One event.
fn one_event(machine: &mut Machine, event: Event) -> Reply
    ensures { (setup : Setup) (history : History) → Stands setup machine.old history →
        (result ≡ heard (turned setup event history).reply)
        × Stands setup machine.new (turned setup event history).history }
{
    heard(machine.step(event))
}

/// A load, if the walk goes on.
fn load_on(machine: &mut Machine, last: Reply) -> Reply
    ensures { (setup : Setup) (history : History) → Stands setup machine.old history →
        (result ≡ (load_on setup (record { reply = last; history = history })).reply)
        × Stands setup machine.new (load_on setup (record { reply = last; history = history })).history }
{
    match last {
        Reply::More => machine.step(Event::Load { hart: 0 }),
        Reply::Hit(_)
        | Reply::Trap(_)
        | Reply::Filled(_)
        | Reply::Table(_)
        | Reply::Leaf
        | Reply::Opened(_)
        | Reply::Ok
        | Reply::Taken(_)
        | Reply::Done
        | Reply::Waiting(_)
        | Reply::Refused(_) => last,
    }
}

/// An access, and loads while its walk goes on.
fn translate(machine: &mut Machine, va: u64, access: Access, ctx: Ctx) -> Reply
    ensures { IsReplied (call.Translate va access ctx) machine.old result machine.new }
{
    let mut reply = machine.step(Event::Begin {
        hart: 0,
        va,
        access,
        ctx,
    });
    for _made in 0..SV48_LEVELS {
        reply = load_on(machine, reply);
    }
    heard(reply)
}

/// How far a ticket is, since there is no other hart whose acknowledgement could be collected.
fn collect(machine: &Machine, ticket: u32) -> Reply
    ensures { IsReplied (call.Collect ticket) machine.now result machine.now }
{
    if machine.harts() == 0 {
        return Reply::Refused(Refusal::NoHart);
    }
    let tickets = machine.tickets(0);
    if !tickets.is_open(ticket) {
        return Reply::Refused(Refusal::NotOpen);
    }
    of_progress(Ok(tickets.progress(ticket)))
}

fn map(machine: &mut Machine, place: Place, page: Page, ppn: u64, flags: PteFlags) -> Reply
    ensures { IsReplied (call.Map place page ppn flags) machine.old result machine.new }
{
    let event = Event::Map {
        hart: 0,
        place,
        page,
        ppn,
        flags,
    };
    one_event(machine, event)
}

fn unmap(machine: &mut Machine, place: Place, page: Page, named: u8) -> Reply
    ensures { IsReplied (call.Unmap place page named) machine.old result machine.new }
{
    let event = Event::Unmap {
        hart: 0,
        place,
        page,
        named,
    };
    one_event(machine, event)
}

fn protect(machine: &mut Machine, place: Place, page: Page, flags: PteFlags, named: u8) -> Reply
    ensures { IsReplied (call.Protect place page flags named) machine.old result machine.new }
{
    let event = Event::Protect {
        hart: 0,
        place,
        page,
        flags,
        named,
    };
    one_event(machine, event)
}

fn flush(machine: &mut Machine, scope: Scope, named: u8) -> Reply
    ensures { IsReplied (call.Flush scope named) machine.old result machine.new }
{
    let event = Event::Flush {
        hart: 0,
        scope,
        named,
    };
    one_event(machine, event)
}

fn post(machine: &mut Machine, ticket: u32, to: u8) -> Reply
    ensures { IsReplied (call.Post ticket to) machine.old result machine.new }
{
    let event = Event::Post {
        hart: 0,
        ticket,
        to,
    };
    one_event(machine, event)
}

/// One call.
fn answer(machine: &mut Machine, call: &Call) -> Reply
    ensures { IsReplied call.now machine.old result machine.new }
{
    match *call {
        Call::Translate { va, access, ctx } => translate(machine, va, access, ctx),
        Call::Map {
            place,
            page,
            ppn,
            flags,
        } => map(machine, place, page, ppn, flags),
        Call::Unmap { place, page, named } => unmap(machine, place, page, named),
        Call::Protect {
            place,
            page,
            flags,
            named,
        } => protect(machine, place, page, flags, named),
        Call::Flush { scope, named } => flush(machine, scope, named),
        Call::Switch { space } => one_event(machine, Event::Switch { hart: 0, space }),
        Call::Fence { rs1, rs2 } => one_event(machine, Event::Fence { hart: 0, rs1, rs2 }),
        Call::Post { ticket, to } => post(machine, ticket, to),
        Call::Serve { from } => one_event(machine, Event::Take { hart: 0, from }),
        Call::AckSelf { ticket } => one_event(machine, Event::AckSelf { hart: 0, ticket }),
        Call::Collect { ticket } => collect(machine, ticket),
        Call::Finish { ticket } => one_event(machine, Event::Finish { hart: 0, ticket }),
        Call::CloseTo { to } => one_event(machine, Event::Close { hart: 0, to }),
    }
}

/// Calls in order.
fn answer_all(machine: &mut Machine, calls: &[Call], answers: &mut Vec<Reply>)
    requires none { answers.old.items ≡ [] }
    requires room { length calls.now ≤ vec_capacity answers.old }
    ensures { AreReplied calls.now machine.old answers.new.items machine.new }
{
    for call in calls {
        answers.push_reserved(answer(machine, call));
    }
}

/// What a machine answers to calls in order, each made by the events of hart 0: a translation by
/// `Begin`, and `Load` while the reply is `More`; a look for acknowledgements by none, since no
/// other hart is asked; each other call by the event of its name.
pub fn machine_answers(
    alloc: Global,
    machine: &mut Machine,
    calls: &[Call],
) -> Result<Vec<Reply>, AllocError>
    ensures { IfOk result (λ answers. AreReplied calls.now machine.old answers.items machine.new) }
{
    let mut answers = Vec::with_capacity(alloc, calls.len())?;
    answer_all(machine, calls, &mut answers);
    Ok(answers)
}
