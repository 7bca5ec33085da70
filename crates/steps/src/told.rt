//! The step of `run` that makes an event.
ghost use Rattle.std.specs.Prelude.{◌≡◌, Some, false, true};
ghost use Rattle.steps.specs.Table.{event_of, is_wide, name_for, nothing};

use crate::parts::Parts;
use crate::table::StepName;
use history::Event;

/// The name of the step.
fn name_for(event: &Event) -> StepName
    ensures { result ≡ name_for event.now }
{
    match event {
        Event::Begin { .. } => StepName::Begin,
        Event::Load { .. } => StepName::Load,
        Event::Map { .. } => StepName::Map,
        Event::Unmap { .. } => StepName::Unmap,
        Event::Protect { .. } => StepName::Protect,
        Event::Flush { .. } => StepName::Flush,
        Event::Switch { .. } => StepName::Switch,
        Event::Fence { .. } => StepName::Fence,
        Event::Post { .. } => StepName::Post,
        Event::Take { .. } => StepName::Take,
        Event::ServeFence { .. } => StepName::ServeFence,
        Event::Ack { .. } => StepName::Ack,
        Event::AckSelf { .. } => StepName::AckSelf,
        Event::Collect { .. } => StepName::Collect,
        Event::Finish { .. } => StepName::Finish,
        Event::Close { .. } => StepName::Close,
        Event::Retire { .. } => StepName::Retire,
        Event::Reclaim { .. } => StepName::Reclaim,
        Event::Create { .. } => StepName::Create,
    }
}

impl Parts {
    fn of_hart(hart: u8) -> Parts
        ensures { result ≡ record nothing { hart = hart } }
    {
        let mut parts = Parts::nothing();
        parts.hart = hart;
        parts
    }

    fn with_space(mut self, space: u8) -> Parts
        ensures { result ≡ record self { space = space } }
    {
        self.space = space;
        self
    }

    fn with_ticket(mut self, ticket: u32) -> Parts
        ensures { result ≡ record self { ticket = ticket } }
    {
        self.ticket = ticket;
        self
    }

    fn with_other(mut self, other: u8) -> Parts
        ensures { result ≡ record self { other = other } }
    {
        self.other = other;
        self
    }
}

/// What the words of another step say.
fn short_parts(event: &Event) -> Parts
    requires { is_wide event.now ≡ false }
    ensures { event_of (name_for event.now) result ≡ Some event.now }
{
    match *event {
        Event::Load { hart } => Parts::of_hart(hart),
        Event::Flush { hart, scope, named } => {
            let mut parts = Parts::of_hart(hart);
            parts.scope = scope;
            parts.named = named;
            parts
        }
        Event::Switch { hart, space } => Parts::of_hart(hart).with_space(space),
        Event::Fence { hart, rs1, rs2 } => {
            let mut parts = Parts::of_hart(hart);
            parts.rs1 = rs1;
            parts.rs2 = rs2;
            parts
        }
        Event::Post { hart, ticket, to } => Parts::of_hart(hart).with_ticket(ticket).with_other(to),
        Event::Take { hart, from } => Parts::of_hart(hart).with_other(from),
        Event::ServeFence { hart } => Parts::of_hart(hart),
        Event::Ack { hart } => Parts::of_hart(hart),
        Event::AckSelf { hart, ticket } => Parts::of_hart(hart).with_ticket(ticket),
        Event::Collect { hart, ticket, from } => Parts::of_hart(hart)
            .with_ticket(ticket)
            .with_other(from),
        Event::Finish { hart, ticket } => Parts::of_hart(hart).with_ticket(ticket),
        Event::Close { hart, to } => Parts::of_hart(hart).with_other(to),
        Event::Retire { hart, space } => Parts::of_hart(hart).with_space(space),
        Event::Reclaim { hart, space } => Parts::of_hart(hart).with_space(space),
        Event::Create { hart, space, asid } => {
            let mut parts = Parts::of_hart(hart).with_space(space);
            parts.asid = asid;
            parts
        }
        _ => Parts::nothing(),
    }
}

/// What the words of an access or an edit say.
fn wide_parts(event: &Event) -> Parts
    requires { is_wide event.now ≡ true }
    ensures { event_of (name_for event.now) result ≡ Some event.now }
{
    let parts = Parts::nothing();
    match *event {
        Event::Begin {
            hart,
            va,
            access,
            ctx,
        } => Parts {
            hart,
            va,
            access,
            ctx,
            ..parts
        },
        Event::Map {
            hart,
            place,
            page,
            ppn,
            flags,
        } => Parts {
            hart,
            place,
            page,
            ppn,
            flags,
            ..parts
        },
        Event::Unmap {
            hart,
            place,
            page,
            named,
        } => Parts {
            hart,
            place,
            page,
            named,
            ..parts
        },
        Event::Protect {
            hart,
            place,
            page,
            flags,
            named,
        } => Parts {
            hart,
            place,
            page,
            flags,
            named,
            ..parts
        },
        _ => parts,
    }
}

/// The name of the step of `run` that makes an event, and what the words of that step say.
pub fn step_for(event: &Event) -> (StepName, Parts)
    ensures name { result.0 ≡ name_for event.now }
    ensures made { event_of result.0 result.1 ≡ Some event.now }
{
    let parts = match *event {
        Event::Begin { .. } | Event::Map { .. } | Event::Unmap { .. } | Event::Protect { .. } => {
            wide_parts(event)
        }
        _ => short_parts(event),
    };
    (name_for(event), parts)
}
