//! One event of one hart.

ghost use Rattle.stepcore.specs.Changes.{Answers};

use crate::machine::Machine;
use history::{Event, Refusal, Reply};
use spaces::Wish;

impl Machine {
    /// What the event asks, done or refused. It stands out of line, so that the accesses of a run
    /// take fewer registers.
    #[inline(never)]
    pub(crate) fn do_event(&mut self, event: &Event) -> Result<Reply, Refusal>
        ensures { Answers self.old event.now result self.new }
    {
        match *event {
            Event::Begin {
                hart,
                va,
                access,
                ctx,
            } => Ok(self.begin(hart, va, access, ctx).reply()),
            Event::Load { hart } => Ok(self.load(hart).reply()),
            Event::Map {
                hart,
                place,
                page,
                ppn,
                flags,
            } => self.map(hart, place, page, ppn, flags),
            Event::Unmap {
                hart,
                place,
                page,
                named,
            } => self.change(hart, &Wish::Unmap { place, page }, named),
            Event::Protect {
                hart,
                place,
                page,
                flags,
                named,
            } => self.change(hart, &Wish::Protect { place, page, flags }, named),
            Event::Flush { hart, scope, named } => self.flush(hart, scope, named),
            Event::Switch { hart, space } => self.switch(hart, space),
            Event::Fence { hart, rs1, rs2 } => self.fence(hart, rs1, rs2),
            Event::Post { hart, ticket, to } => self.post(hart, ticket, to),
            Event::Take { hart, from } => self.take(hart, from),
            Event::ServeFence { hart } => self.serve_fence(hart),
            Event::Ack { hart } => self.ack(hart),
            Event::AckSelf { hart, ticket } => self.ack_self(hart, ticket),
            Event::Collect { hart, ticket, from } => self.collect(hart, ticket, from),
            Event::Finish { hart, ticket } => self.finish(hart, ticket),
            Event::Close { hart, to } => self.close(hart, to),
            Event::Retire { hart, space } => self.retire(hart, space),
            Event::Reclaim { hart, space } => self.reclaim(hart, space),
            Event::Create { hart, space, asid } => self.create(hart, space, asid),
        }
    }
}
