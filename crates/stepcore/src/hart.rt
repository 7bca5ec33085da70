//! A hart.

ghost use Rattle.std.specs.Prelude.{◌≡◌, ◌↔◌, IsSome, IfSome, IfNone, Some, None, false, true, is_some};
ghost use Rattle.tlb.specs.Entries.{first_match};
ghost use Rattle.tlb.specs.Fence.{fenced};
ghost use Rattle.tlb.specs.Mappings.{IsMappedBy, Translates};
ghost use Rattle.tlb.specs.Service.{after_service};
ghost use Rattle.history.specs.Due.{match_reply};
ghost use Rattle.history.specs.Turns.{is_more};
ghost use Rattle.history.specs.declared.reply.Reply.TheVariants.{More};
ghost use Rattle.stepcore.specs.State.{new_hart};
ghost use Rattle.stepcore.specs.Answers.{progress_answer, reply_to_access};
ghost use Rattle.stepcore.specs.Changes.{is_accepted, with_progress, with_served};

use crate::serving::Serving;
use history::{Refusal, Reply};
use pte::{Access, Ctx, Scheme, VirtAddr, What};
use shoot::Request;
use std::marker::Model;
use tlb::{Entry, Tlb};
use walk::{Progress, Trap, Walk};

/// A reply to an access or a load. It takes fewer bytes than a `Reply`, of which it makes one.
#[derive(Clone, Copy, PartialEq, Eq, Debug)]
pub(crate) enum AccessReply {
    More,
    Filled(u64),
    Trap(Trap),
    Hit(u64),
    Refused(Refusal),
}

impl AccessReply {
    ghost use Rattle.stepcore.specs.Answers.{reply_to_access};

    /// The same as a `Reply`.
    #[inline(always)]
    pub(crate) fn reply(self) -> Reply
        ensures { result ≡ reply_to_access self }
    {
        match self {
            AccessReply::Hit(pa) => Reply::Hit(pa),
            AccessReply::Trap(trap) => Reply::Trap(trap),
            AccessReply::More => Reply::More,
            AccessReply::Filled(pa) => Reply::Filled(pa),
            AccessReply::Refused(refusal) => Reply::Refused(refusal),
        }
    }
}

/// A hart: the space that it runs in, the walk in flight, the request that it serves, and its TLB.
#[derive(Drop)]
pub struct Hart {
    space: u8,
    walk: Option<Walk>,
    serving: Option<Serving>,
    tlb: Tlb,
}

impl Model for Hart {
    ghost use Rattle.stepcore.specs.State.{HartState};

    ghost Value = { HartState };

    ghost view = { λ h. record {
      space = h.space;
      walk = h.walk;
      serving = h.serving;
      scheme = h.tlb.scheme;
      entries = h.tlb.entries;
    } };
}

impl Hart {
    /// A hart in space 0 that neither walks nor serves, with an empty TLB.
    pub(crate) fn new(scheme: Scheme) -> Hart
        ensures { result ≡ new_hart scheme }
    {
        Hart {
            space: 0,
            walk: None,
            serving: None,
            tlb: Tlb::new_in(scheme),
        }
    }

    /// The space that it runs in.
    #[inline(always)]
    pub fn space(&self) -> u8
        ensures { result ≡ self.now.space }
    {
        self.space
    }

    /// Its walk in flight.
    #[inline(always)]
    pub fn walk(&self) -> Option<Walk>
        ensures { result ≡ self.now.walk }
    {
        self.walk
    }

    /// The request that it serves.
    pub fn serving(&self) -> Option<Serving>
        ensures { result ≡ self.now.serving }
    {
        self.serving
    }

    #[inline(always)]
    pub(crate) fn is_walking(&self) -> bool
        ensures { result ≡ is_some self.now.walk }
    {
        self.walk.is_some()
    }

    #[inline(always)]
    pub(crate) fn is_serving(&self) -> bool
        ensures { result ≡ is_some self.now.serving }
    {
        self.serving.is_some()
    }

    /// Its TLB.
    pub fn tlb(&self) -> &Tlb
        ensures { result.now ≡ record { scheme = self.now.scheme; entries = self.now.entries } }
    {
        &self.tlb
    }

    /// The oldest entry of the TLB that matches an address for an ASID.
    #[inline(always)]
    pub fn lookup(&self, asid: u16, va: VirtAddr) -> Option<Entry>
        ensures oldest { result ≡ first_match self.now.entries asid va }
        ensures translates { IsSome result ↔ Translates (IsMappedBy self.now.entries) asid va }
    {
        self.tlb.lookup(asid, va)
    }

    /// What the TLB answers to an access of an address, if an entry matches.
    #[inline(always)]
    pub(crate) fn access(
        &self,
        asid: u16,
        va: VirtAddr,
        access: Access,
        ctx: Ctx,
    ) -> Option<AccessReply>
        ensures answers { IfSome result (λ answer. reply_to_access answer
            ≡ match_reply va access ctx (first_match self.now.entries asid va)) }
        ensures ends { IfSome result (λ answer. (is_more (reply_to_access answer) ≡ false)
            × (is_accepted (reply_to_access answer) ≡ true)) }
        ensures misses { IfNone result
            (match_reply va access ctx (first_match self.now.entries asid va) ≡ More) }
    {
        let entry = self.lookup(asid, va)?;
        match entry.translate(va, access, ctx) {
            Ok(pa) => Some(AccessReply::Hit(pa)),
            Err(trap) => Some(AccessReply::Trap(trap)),
        }
    }

    pub(crate) fn switch(&mut self, space: u8)
        ensures { self.new ≡ record self.old { space = space } }
    {
        self.space = space;
    }

    #[inline(always)]
    pub(crate) fn begin(&mut self, walk: Walk)
        ensures { self.new ≡ record self.old { walk = Some walk } }
    {
        self.walk = Some(walk);
    }

    /// Goes on as a load of the walk says, which it answers: what the walk found goes into the TLB,
    /// for an ASID.
    #[inline(always)]
    pub(crate) fn load(&mut self, asid: u16, progress: &Progress) -> AccessReply
        ensures reply { reply_to_access result ≡ progress_answer progress.now }
        ensures accepted { is_accepted (reply_to_access result) ≡ true }
        ensures after { self.new ≡ with_progress asid progress.now self.old }
    {
        match progress {
            Progress::More(walk) => {
                self.walk = Some(*walk);
                AccessReply::More
            }
            Progress::Found(found) => {
                self.walk = None;
                self.tlb.fill(Entry::found(asid, found));
                AccessReply::Filled(found.pa)
            }
            Progress::Trap(trap) => {
                self.walk = None;
                AccessReply::Trap(*trap)
            }
        }
    }

    /// SFENCE.VMA (privileged manual 4.2.1).
    pub(crate) fn fence(&mut self, rs1: Option<u64>, rs2: Option<u64>)
        ensures { self.new ≡ record self.old {
          entries = fenced self.old.scheme self.old.entries rs1 rs2;
        } }
    {
        self.tlb.fence(rs1, rs2);
    }

    /// Begins to serve a request.
    pub(crate) fn take(&mut self, from: u8, request: Request)
        ensures { self.new ≡ record self.old {
          serving = Some (record { from = from; request = request; fenced = false });
        } }
    {
        self.serving = Some(Serving {
            from,
            request,
            fenced: false,
        });
    }

    /// Fences for the request that it serves, if any.
    pub(crate) fn serve_fence(&mut self)
        ensures { self.new ≡ with_served self.old.serving self.old }
    {
        if let Some(serving) = &mut self.serving {
            serving.fenced = true;
            self.tlb.serve(&serving.request.what);
        }
    }

    /// Serves nothing more.
    pub(crate) fn end_service(&mut self)
        ensures { self.new ≡ record self.old { serving = None } }
    {
        self.serving = None;
    }

    /// Drops what a request asks to drop.
    pub(crate) fn serve(&mut self, what: &What)
        ensures { self.new ≡ record self.old { entries = after_service self.old.entries what.now } }
    {
        self.tlb.serve(what);
    }
}
