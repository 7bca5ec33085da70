//! Accesses: walks and loads, switches of the space, and fences.

ghost use Rattle.std.specs.Prelude.{◌≡◌, ◌<◌, ◌↔◌, IsTrue, Ok, Some, false, true, length, IfOk, IfErr, slice_set};
ghost use Rattle.walk.specs.Stage.{start_of};
ghost use Rattle.spaces.specs.Layout.{root_ppn};
ghost use Rattle.tlb.specs.Mappings.{IsMappedBy, Translates};
ghost use Rattle.history.specs.Turns.{is_more};
ghost use Rattle.history.specs.declared.reply.Reply.TheVariants.{More};
ghost use Rattle.history.specs.declared.event.Event.TheVariants.{Begin, Load, Switch, Fence};
ghost use Rattle.stepcore.specs.State.{hart_at, words_in};
ghost use Rattle.stepcore.specs.Answers.{access_answer, reply_to_access, asid_of_hart, next_of, progress_answer};
ghost use Rattle.stepcore.specs.Runs.{entries_in};
ghost use Rattle.stepcore.specs.Changes.{Answers, is_accepted, put_hart, with_progress};

use crate::conditions::refuse;
use crate::hart::AccessReply;
use crate::machine::Machine;
use history::{Refusal, Reply};
use pte::{Access, Ctx, VirtAddr};
use walk::{Progress, Trap, Walk, Why, Words};

impl Machine {
    /// The walk that an access of a hart begins, or what the access is answered at once.
    #[inline(always)]
    fn first_walk(&self, hart: u8, va: u64, access: Access, ctx: Ctx) -> Result<Walk, AccessReply>
        requires { hart < length self.now.harts }
        ensures walks { IfOk result (λ walk.
            (access_answer self.now (hart_at self.now hart) va access ctx ≡ More)
            × (walk ≡ start_of self.now.memory.layout.scheme
            (root_ppn self.now.memory.layout (hart_at self.now hart).space) va access ctx)) }
        ensures answers { IfErr result (λ answer.
            (reply_to_access answer ≡ access_answer self.now (hart_at self.now hart) va access ctx)
            × (is_more (reply_to_access answer) ≡ false)
            × (is_accepted (reply_to_access answer) ≡ true)) }
    {
        let scheme = self.memory.scheme();
        let Some(address) = VirtAddr::new_in(scheme, va) else {
            return Err(AccessReply::Trap(Trap::page(access, Why::NotCanonical)));
        };
        let this = self.hart(hart);
        match this.access(self.asid(hart), address, access, ctx) {
            Some(answer) => Err(answer),
            None => {
                let root = self.memory.root(this.space());
                Ok(Walk::from_root(scheme, root, address, access, ctx))
            }
        }
    }

    /// Begins the walk of an access of a hart, if the access is not answered at once.
    #[inline(always)]
    fn access(&mut self, hart: u8, va: u64, access: Access, ctx: Ctx) -> AccessReply
        requires { hart < length self.old.harts }
        ensures reply { reply_to_access result
            ≡ access_answer self.old (hart_at self.old hart) va access ctx }
        ensures accepted { is_accepted (reply_to_access result) ≡ true }
        ensures after { self.new ≡ record self.old {
          harts = put_hart self.old hart (is_more (reply_to_access result))
              (record (hart_at self.old hart) {
                walk = Some (start_of self.old.memory.layout.scheme
                    (root_ppn self.old.memory.layout (hart_at self.old hart).space) va access ctx);
              });
        } }
    {
        match self.first_walk(hart, va, access, ctx) {
            Ok(walk) => {
                let this = &mut self.harts[usize::from(hart)];
                this.begin(walk);
                AccessReply::More
            }
            Err(answer) => answer,
        }
    }

    /// Begins an access.
    #[inline(always)]
    pub(crate) fn begin(&mut self, hart: u8, va: u64, access: Access, ctx: Ctx) -> AccessReply
        ensures { Answers self.old (Begin hart va access ctx) (Ok (reply_to_access result))
            self.new }
    {
        if !self.is_hart(hart) {
            return AccessReply::Refused(Refusal::NoHart);
        }
        let this = self.hart(hart);
        if this.is_walking() {
            return AccessReply::Refused(Refusal::Walking);
        }
        if this.is_serving() {
            return AccessReply::Refused(Refusal::Serving);
        }
        self.access(hart, va, access, ctx)
    }

    /// What the next word makes of a walk.
    #[inline(always)]
    fn next(&self, walk: Walk) -> Progress
        ensures { result ≡ next_of (words_in self.now) walk }
    {
        let (table, index) = walk.wants();
        walk.load(self.memory.word(table, index))
    }

    /// Goes on as a load of the hart's walk says, which it answers.
    #[inline(always)]
    fn go_on(&mut self, hart: u8, progress: &Progress) -> AccessReply
        requires { hart < length self.old.harts }
        ensures reply { reply_to_access result ≡ progress_answer progress.now }
        ensures accepted { is_accepted (reply_to_access result) ≡ true }
        ensures after { self.new ≡ record self.old {
          harts = slice_set self.old.harts hart
              (with_progress (asid_of_hart self.old (hart_at self.old hart)) progress.now
              (hart_at self.old hart));
        } }
    {
        let asid = self.asid(hart);
        let this = &mut self.harts[usize::from(hart)];
        this.load(asid, progress)
    }

    /// Loads the next word of the hart's walk.
    #[inline(always)]
    pub(crate) fn load(&mut self, hart: u8) -> AccessReply
        ensures { Answers self.old (Load hart) (Ok (reply_to_access result)) self.new }
    {
        if !self.is_hart(hart) {
            return AccessReply::Refused(Refusal::NoHart);
        }
        let Some(walk) = self.hart(hart).walk() else {
            return AccessReply::Refused(Refusal::NotWalking);
        };
        let progress = self.next(walk);
        self.go_on(hart, &progress)
    }

    /// Goes to another space.
    pub(crate) fn switch(&mut self, hart: u8, space: u8) -> Result<Reply, Refusal>
        ensures { Answers self.old (Switch hart space) result self.new }
    {
        self.needs_hart(hart)?;
        self.needs_space(space)?;
        refuse(self.space(space).phase.is_retiring(), Refusal::Retiring)?;
        refuse(self.hart(hart).is_walking(), Refusal::Walking)?;
        let this = &mut self.harts[usize::from(hart)];
        this.switch(space);
        Ok(Reply::Ok)
    }

    /// Fences the hart's own TLB.
    pub(crate) fn fence(
        &mut self,
        hart: u8,
        rs1: Option<u64>,
        rs2: Option<u64>,
    ) -> Result<Reply, Refusal>
        ensures { Answers self.old (Fence hart rs1 rs2) result self.new }
    {
        self.needs_hart(hart)?;
        refuse(self.hart(hart).is_walking(), Refusal::Walking)?;
        let this = &mut self.harts[usize::from(hart)];
        this.fence(rs1, rs2);
        Ok(Reply::Ok)
    }

    /// Whether the TLB of a hart that exists translates an address for an ASID, by an entry of any
    /// size.
    pub fn translates(&self, hart: u8, asid: u16, va: VirtAddr) -> bool
        requires { hart < length self.now.harts }
        ensures { IsTrue result ↔ Translates (IsMappedBy (entries_in self.now hart)) asid va }
    {
        self.hart(hart).lookup(asid, va).is_some()
    }
}
