//! The calls of a machine, one for each event.

ghost use Rattle.shoot.specs.HartSet.{byte_of};
ghost use Rattle.history.specs.declared.event.Event.TheVariants as event;
ghost use Rattle.melissaledge.specs.Accesses.{Accesses};
ghost use Rattle.melissaledge.specs.Calls.{Makes, call_reply, map_reply, opening_reply, progress_reply, taking_reply};

use crate::accesses::make_access;
use crate::results::{call, collect_of, map_step, open, take_one};
use board::Mapped;
use history::{Event, Refusal, Scope};
use pte::{Access, Ctx, Page, PteFlags};
use shoot::{Collected, HartSet, Request};
use spaces::Place;
use stepcore::Machine;
use walk::Trap;

/// Each event of a machine as a call with a result of its own. The machine after it is what
/// `Machine::step` of that event leaves, and the result is the reply that is due: clause `makes` of
/// each says so for every history at which the machine stood. `Machine::open` makes no other
/// machine; another might answer `NoHart` where a reply is not due.
///
/// An `Err` is the first refusal of the event that applies (docs/FORMAT.md); then nothing changes.
pub trait MachineCalls {
    /// Makes a whole access: begins it, and makes the loads of its walk, four at most. The physical
    /// address or the exception.
    fn access(
        &mut self,
        hart: u8,
        va: u64,
        access: Access,
        ctx: Ctx,
    ) -> Result<Result<u64, Trap>, Refusal>;

    /// Makes the one store that is due next to map a page to a PPN: a pointer to a new table, after
    /// which the same call is due again, or the leaf.
    fn map(
        &mut self,
        hart: u8,
        place: Place,
        page: Page,
        ppn: u64,
        flags: PteFlags,
    ) -> Result<Mapped, Refusal>;

    /// Stores 0 on the leaf of a page, and opens a ticket for the page.
    fn unmap(&mut self, hart: u8, place: Place, page: Page, named: HartSet) -> Result<u32, Refusal>;

    /// Stores other flags on the leaf of a page, and opens a ticket for the page.
    fn protect(
        &mut self,
        hart: u8,
        place: Place,
        page: Page,
        flags: PteFlags,
        named: HartSet,
    ) -> Result<u32, Refusal>;

    /// Opens a ticket for a space or for everything, with no store.
    fn flush(&mut self, hart: u8, scope: Scope, named: HartSet) -> Result<u32, Refusal>;

    /// Goes to another space, as a write of satp does. The TLB stays.
    fn switch(&mut self, hart: u8, space: u8) -> Result<(), Refusal>;

    /// SFENCE.VMA on the hart's own TLB; `None` is the register x0.
    fn fence(&mut self, hart: u8, rs1: Option<u64>, rs2: Option<u64>) -> Result<(), Refusal>;

    /// Puts the request of an open ticket into the mailbox to another hart.
    fn post(&mut self, hart: u8, ticket: u32, to: u8) -> Result<(), Refusal>;

    /// Takes the oldest request out of the mailbox from another hart, and serves it from then on.
    fn take(&mut self, hart: u8, from: u8) -> Result<Request, Refusal>;

    /// Fences the hart's TLB as the request that it serves asks.
    fn serve_fence(&mut self, hart: u8) -> Result<(), Refusal>;

    /// Acknowledges the request that the hart serves.
    fn ack(&mut self, hart: u8) -> Result<(), Refusal>;

    /// Serves an own ticket's request on the own TLB, and counts as collected.
    fn ack_self(&mut self, hart: u8, ticket: u32) -> Result<Collected, Refusal>;

    /// Collects the acknowledgement of another hart, if there is one.
    fn collect(&mut self, hart: u8, ticket: u32, from: u8) -> Result<Collected, Refusal>;

    /// Frees the number of a ticket whose named harts are all collected.
    fn finish(&mut self, hart: u8, ticket: u32) -> Result<(), Refusal>;

    /// Closes the mailbox to another hart: later posts are refused, what waits stays.
    fn close(&mut self, hart: u8, to: u8) -> Result<(), Refusal>;

    /// Retires a space that no hart is in, and opens a ticket that names every hart.
    fn retire(&mut self, hart: u8, space: u8) -> Result<u32, Refusal>;

    /// Gives back a retiring space, once every hart is collected for its retirement.
    fn reclaim(&mut self, hart: u8, space: u8) -> Result<(), Refusal>;

    /// Makes a free space live under an ASID.
    fn create(&mut self, hart: u8, space: u8, asid: u16) -> Result<(), Refusal>;
}

impl MachineCalls for Machine {
    fn access(
        &mut self,
        hart: u8,
        va: u64,
        access: Access,
        ctx: Ctx,
    ) -> Result<Result<u64, Trap>, Refusal>
        ensures makes { Accesses self.old hart va access ctx result self.new }
    {
        make_access(self, hart, va, access, ctx)
    }

    fn map(
        &mut self,
        hart: u8,
        place: Place,
        page: Page,
        ppn: u64,
        flags: PteFlags,
    ) -> Result<Mapped, Refusal>
        ensures makes { Makes self.old (event.Map hart place page ppn flags) (map_reply result) self.new }
    {
        map_step(
            self,
            Event::Map {
                hart,
                place,
                page,
                ppn,
                flags,
            },
        )
    }

    fn unmap(&mut self, hart: u8, place: Place, page: Page, named: HartSet) -> Result<u32, Refusal>
        ensures makes { Makes self.old (event.Unmap hart place page (byte_of named)) (opening_reply result) self.new }
    {
        open(
            self,
            Event::Unmap {
                hart,
                place,
                page,
                named: u8::from(named),
            },
        )
    }

    fn protect(
        &mut self,
        hart: u8,
        place: Place,
        page: Page,
        flags: PteFlags,
        named: HartSet,
    ) -> Result<u32, Refusal>
        ensures makes { Makes self.old (event.Protect hart place page flags (byte_of named)) (opening_reply result) self.new }
    {
        open(
            self,
            Event::Protect {
                hart,
                place,
                page,
                flags,
                named: u8::from(named),
            },
        )
    }

    fn flush(&mut self, hart: u8, scope: Scope, named: HartSet) -> Result<u32, Refusal>
        ensures makes { Makes self.old (event.Flush hart scope (byte_of named)) (opening_reply result) self.new }
    {
        open(
            self,
            Event::Flush {
                hart,
                scope,
                named: u8::from(named),
            },
        )
    }

    fn switch(&mut self, hart: u8, space: u8) -> Result<(), Refusal>
        ensures makes { Makes self.old (event.Switch hart space) (call_reply result) self.new }
    {
        call(self, Event::Switch { hart, space })
    }

    fn fence(&mut self, hart: u8, rs1: Option<u64>, rs2: Option<u64>) -> Result<(), Refusal>
        ensures makes { Makes self.old (event.Fence hart rs1 rs2) (call_reply result) self.new }
    {
        call(self, Event::Fence { hart, rs1, rs2 })
    }

    fn post(&mut self, hart: u8, ticket: u32, to: u8) -> Result<(), Refusal>
        ensures makes { Makes self.old (event.Post hart ticket to) (call_reply result) self.new }
    {
        call(self, Event::Post { hart, ticket, to })
    }

    fn take(&mut self, hart: u8, from: u8) -> Result<Request, Refusal>
        ensures makes { Makes self.old (event.Take hart «from») (taking_reply result) self.new }
    {
        take_one(self, Event::Take { hart, from })
    }

    fn serve_fence(&mut self, hart: u8) -> Result<(), Refusal>
        ensures makes { Makes self.old (event.ServeFence hart) (call_reply result) self.new }
    {
        call(self, Event::ServeFence { hart })
    }

    fn ack(&mut self, hart: u8) -> Result<(), Refusal>
        ensures makes { Makes self.old (event.Ack hart) (call_reply result) self.new }
    {
        call(self, Event::Ack { hart })
    }

    fn ack_self(&mut self, hart: u8, ticket: u32) -> Result<Collected, Refusal>
        ensures makes { Makes self.old (event.AckSelf hart ticket) (progress_reply result) self.new }
    {
        collect_of(self, Event::AckSelf { hart, ticket })
    }

    fn collect(&mut self, hart: u8, ticket: u32, from: u8) -> Result<Collected, Refusal>
        ensures makes { Makes self.old (event.Collect hart ticket «from») (progress_reply result) self.new }
    {
        collect_of(self, Event::Collect { hart, ticket, from })
    }

    fn finish(&mut self, hart: u8, ticket: u32) -> Result<(), Refusal>
        ensures makes { Makes self.old (event.Finish hart ticket) (call_reply result) self.new }
    {
        call(self, Event::Finish { hart, ticket })
    }

    fn close(&mut self, hart: u8, to: u8) -> Result<(), Refusal>
        ensures makes { Makes self.old (event.Close hart to) (call_reply result) self.new }
    {
        call(self, Event::Close { hart, to })
    }

    fn retire(&mut self, hart: u8, space: u8) -> Result<u32, Refusal>
        ensures makes { Makes self.old (event.Retire hart space) (opening_reply result) self.new }
    {
        open(self, Event::Retire { hart, space })
    }

    fn reclaim(&mut self, hart: u8, space: u8) -> Result<(), Refusal>
        ensures makes { Makes self.old (event.Reclaim hart space) (call_reply result) self.new }
    {
        call(self, Event::Reclaim { hart, space })
    }

    fn create(&mut self, hart: u8, space: u8, asid: u16) -> Result<(), Refusal>
        ensures makes { Makes self.old (event.Create hart space asid) (call_reply result) self.new }
    {
        call(self, Event::Create { hart, space, asid })
    }
}
