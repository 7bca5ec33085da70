//! A hart's space, its fences and its translations.

ghost use Rattle.std.specs.Prelude.{◌≡◌, None, Some, Err};
ghost use Rattle.pte.specs.Address.{IsCanonical};
ghost use Rattle.walk.specs.Answer.{page_trap};
ghost use Rattle.walk.specs.declared.found_or_trap.Why.{Why};
ghost use Rattle.spaces.specs.Layout.{layout_of};
ghost use Rattle.tlb.specs.declared.store.Entry.{Entry as EntryOf};
ghost use Rattle.tlb.specs.Answer.{answer_of};
ghost use Rattle.tlb.specs.Entries.{first_match};
ghost use Rattle.views.specs.Rule.{IsRoot};
ghost use Rattle.views.specs.OnBoard.{IsFit};
ghost use Rattle.views.specs.Turns.{asid_at};
ghost use Rattle.views.specs.Walks.{AnswersByLoads, with_found};
ghost use Rattle.board.specs.Ports.{name_of};
ghost use Rattle.board.specs.Tables.{IsMissed, after_fence, after_switch, own_asid, switch_answer};

use crate::port::HartPort;
use history::Refusal;
use pte::{Access, Ctx, VirtAddr};
use spaces::Config;
use tlb::Entry;
use views::{Seat, Words, walk_from_root};
use walk::{Found, Trap, Why};

/// A walk for a canonical address.
fn walk_words(
    words: &Words,
    seat: &mut Seat,
    config: &Config,
    root: u64,
    va: VirtAddr,
    access: Access,
    ctx: Ctx,
) -> Result<Found, Trap>
    requires fit { IsFit words.now.table_id words.now.key config.now seat.old }
    requires root { IsRoot (layout_of config.now) root }
    requires canonical { IsCanonical config.now.scheme va }
    ensures fit { IsFit words.now.table_id words.now.key config.now seat.new }
    ensures loads { AnswersByLoads (layout_of config.now) seat.old.view root va access ctx result
        seat.new.view }
    ensures tlb { seat.new.tlb ≡ seat.old.tlb }
    ensures hart { seat.new.view.hart ≡ seat.old.view.hart }
    ensures used { seat.new.view.used ≡ seat.old.view.used }
    ensures orders { seat.new.view.orders ≡ seat.old.view.orders }
    ensures entries { seat.new.view.entries
        ≡ with_found (asid_at seat.old.view.config root) seat.old.view.entries result }
{
    walk_from_root(words, seat, config, root, va, access, ctx)
}

impl HartPort {
    ghost use Rattle.board.specs.Calls as call;
    ghost use Rattle.board.specs.Calls.{LeadsTo};

    /// Goes to another space, as a write of satp does (privileged manual 4.1.11). The TLB stays.
    /// Refused with `NoSpace` if the space does not exist.
    #[tactic(auto, unfolding(crate::specs::Calls::LeadsTo))]
    pub fn switch(&mut self, space: u8) -> Result<(), Refusal>
        ensures answer { result ≡ switch_answer self.old space }
        ensures after { self.new ≡ after_switch self.old space }
        ensures call { LeadsTo (call.Switch space) self.old self.new }
        ensures same { name_of self.new ≡ name_of self.old }
    {
        if usize::from(space) >= self.config.spaces.len() {
            return Err(Refusal::NoSpace);
        }
        self.space = space;
        Ok(())
    }

    /// SFENCE.VMA on the own TLB; `None` is the register x0 (privileged manual 4.2.1).
    #[tactic(auto, unfolding(crate::specs::Calls::LeadsTo))]
    pub fn fence(&mut self, rs1: Option<u64>, rs2: Option<u64>)
        ensures after { self.new ≡ after_fence self.old rs1 rs2 }
        ensures call { LeadsTo (call.Fence rs1 rs2) self.old self.new }
        ensures same { name_of self.new ≡ name_of self.old }
    {
        self.seat.fence(rs1, rs2);
    }

    /// What a walk from the root of the hart's space answers. What it finds is filled in.
    #[inline(never)]
    fn walk_and_fill(
        &mut self,
        asid: u16,
        va: VirtAddr,
        access: Access,
        ctx: Ctx,
    ) -> Result<u64, Trap>
        requires canonical { IsCanonical self.old.setup.layout.scheme va }
        requires asid { asid ≡ own_asid self.old }
        ensures missed { IsMissed self.old va access ctx result self.new }
        ensures same { name_of self.new ≡ name_of self.old }
    {
        let HartPort {
            config,
            memory,
            seat,
            space,
            ..
        } = self;
        let root = config.root(*space);
        let found = match walk_words(&memory.shared, seat, config, root, va, access, ctx) {
            Ok(found) => found,
            Err(trap) => return Err(trap),
        };
        seat.fill(Entry::found(asid, &found));
        Ok(found.pa)
    }

    /// The physical address of a virtual one in the hart's space, or the exception that the access
    /// raises. The oldest entry of the TLB that matches answers by its flags alone; without one a
    /// walk does, by the words that its own loads find in the shared tables, and what it finds is
    /// filled in. Other harts may store between the loads.
    #[inline(always)]
    #[tactic(auto, unfolding(crate::specs::Calls::LeadsTo))]
    pub fn translate(&mut self, va: u64, access: Access, ctx: Ctx) -> Result<u64, Trap>
        ensures not_canonical { (¬ IsCanonical self.old.setup.layout.scheme va)
            → (result ≡ Err (page_trap access Why.NotCanonical)) × (self.new ≡ self.old) }
        ensures hit { (entry : EntryOf) → IsCanonical self.old.setup.layout.scheme va
            → first_match self.old.tlb.entries (own_asid self.old) va ≡ Some entry
            → (result ≡ answer_of entry va access ctx) × (self.new ≡ self.old) }
        ensures miss { IsCanonical self.old.setup.layout.scheme va
            → first_match self.old.tlb.entries (own_asid self.old) va ≡ None
            → IsMissed self.old va access ctx result self.new }
        ensures call { LeadsTo (call.Translate va access ctx result) self.old self.new }
        ensures same { name_of self.new ≡ name_of self.old }
    {
        let asid = self.config.spaces[usize::from(self.space)].asid;
        let Some(address) = VirtAddr::new_in(self.config.scheme, va) else {
            return Err(Trap::page(access, Why::NotCanonical));
        };
        if let Some(entry) = self.seat.lookup(asid, address) {
            return entry.translate(address, access, ctx);
        }
        self.walk_and_fill(asid, address, access, ctx)
    }
}
