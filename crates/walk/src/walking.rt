//! A walk, one word at a time.

ghost use Rattle.std.specs.Prelude.{◌≡◌, ◌<◌, ◌^◌};

use crate::found_or_trap::{Found, Trap, Why, accessed_fault};
use pte::{
    Access, Ctx, Kind, LEVEL_BITS, PAGE_BYTES, PPN_LIMIT, Page, PageSize, Pte, PteFlags, Scheme,
    VirtAddr, allowed,
};
use std::marker::Model;
use std::ops::ControlFlow;

/// A walk between two loads. It holds no memory: `wants` names the word that comes next, and `load`
/// takes it. Nor does it hold its scheme, which only says at which level it begins.
#[derive(Clone, Copy, PartialEq, Eq, Debug)]
pub struct Walk {
    va: VirtAddr,
    access: Access,
    ctx: Ctx,
    // the level of the table that is read next
    level: u8,
    // the PPN of that table
    table: u64,
    // whether a pointer so far has G
    global: bool,
}

impl Model for Walk {
    ghost use Rattle.walk.specs.Stage.{IsInLimits, Stage};

    ghost Value = { Stage };

    ghost view = { λ w. record {
      va = w.va;
      access = w.access;
      ctx = w.ctx;
      level = w.level;
      table = w.table;
      global = w.global;
    } };

    ghost invariant = { λ w. IsInLimits (record {
      va = w.va;
      access = w.access;
      ctx = w.ctx;
      level = w.level;
      table = w.table;
      global = w.global;
    }) };

    ghost inverse = { λ s. record {
      va = s.va;
      access = s.access;
      ctx = s.ctx;
      level = s.level;
      table = s.table;
      global = s.global;
    } };
}

/// What comes of a load.
#[derive(Clone, Copy, PartialEq, Eq, Debug)]
pub enum Progress {
    /// The word was a pointer: the walk goes on one level below.
    More(Walk),
    /// The word was a leaf that the access may use.
    Found(Found),
    /// The access raises an exception.
    Trap(Trap),
}

impl Progress {
    ghost use Rattle.walk.specs.Step.{flow_of};

    /// The walk that goes on, or what it ends with.
    #[inline(always)]
    pub fn flow(self) -> ControlFlow<Result<Found, Trap>, Walk>
        ensures { result ≡ flow_of self }
    {
        match self {
            Progress::More(next) => ControlFlow::Continue(next),
            Progress::Found(found) => ControlFlow::Break(Ok(found)),
            Progress::Trap(trap) => ControlFlow::Break(Err(trap)),
        }
    }
}

impl Walk {
    ghost use Rattle.std.specs.Option.{SomeIff};
    ghost use Rattle.pte.specs.declared.entry.TheConstants.{PPN_BITS};
    ghost use Rattle.walk.specs.Stage.{IsInLimits, stage_of};
    ghost use Rattle.walk.specs.Step.{below};

    /// The walk of these numbers, each as its method tells it. `None` exactly if they are no walk's:
    /// the address is not canonical in Sv48, the level is above 3, or the table's PPN is 2^44 or
    /// more.
    #[inline(always)]
    pub fn resume(
        va: u64,
        access: Access,
        ctx: Ctx,
        level: u8,
        table: u64,
        global: bool,
    ) -> Option<Walk>
        ensures { SomeIff result (IsInLimits (stage_of va access ctx level table global))
            (stage_of va access ctx level table global) }
    {
        let Some(va) = VirtAddr::new_in(Scheme::Sv48, va) else {
            return None;
        };
        if level > Scheme::Sv48.top_level() || table >= PPN_LIMIT {
            return None;
        }
        Some(Walk {
            va,
            access,
            ctx,
            level,
            table,
            global,
        })
    }

    /// The walk one level below, at the table that a pointer led to, global if the pointer has G.
    #[inline(always)]
    pub(crate) fn below(self, ppn: u64, global: bool) -> Walk
        requires table { ppn < 2 ^ PPN_BITS }
        requires level { 0 < self.level }
        ensures { result ≡ below self ppn global }
    {
        Walk {
            level: self.level - 1,
            table: ppn,
            global: self.global | global,
            ..self
        }
    }

    /// What of the hart's state decides about the access.
    #[inline(always)]
    pub fn ctx(&self) -> Ctx
        ensures { result ≡ self.now.ctx }
    {
        self.ctx
    }

    /// The PPN of the table that is read next, below 2^44.
    #[inline(always)]
    pub fn table(&self) -> u64
        ensures { result ≡ self.now.table }
    {
        self.table
    }

    /// Whether a pointer so far has G.
    #[inline(always)]
    pub fn is_global(&self) -> bool
        ensures { result ≡ self.now.global }
    {
        self.global
    }
}

impl Walk {
    ghost use Rattle.std.specs.Prelude.{◌||◌, Err, OnErr};
    ghost use Rattle.std.specs.Result.{OkIff};
    ghost use Rattle.pte.specs.declared.scheme.Scheme.TheVariants.{Sv39};
    ghost use Rattle.pte.specs.Address.{IsCanonical, level_bytes, level_pages, vpn_of};
    ghost use Rattle.pte.specs.Entry.{is_global};
    ghost use Rattle.pte.specs.declared.entry.TheConstants.{PPN_BITS};
    ghost use Rattle.walk.specs.Answer.{leaf_answer, leaf_fault, page_trap};
    ghost use Rattle.walk.specs.Step.{load_of};
    ghost use Rattle.walk.specs.Stage.{IsInLimits, start_of};
    ghost use Rattle.walk.specs.declared.found_or_trap.Why.TheVariants as why;

    /// The walk of Sv39 for an access of a virtual address, as `begin_in` has it.
    #[inline(always)]
    pub fn begin(root: u64, va: u64, access: Access, ctx: Ctx) -> Result<Walk, Trap>
        requires { root < 2 ^ PPN_BITS }
        ensures ok { OkIff result (IsCanonical Sv39 va) (start_of Sv39 root va access ctx) }
        ensures err { OnErr result (result ≡ Err (page_trap access Why.NotCanonical)) }
    {
        Walk::begin_in(Scheme::Sv39, root, va, access, ctx)
    }

    /// The walk of a scheme for an access of a virtual address from the root table at a PPN, which
    /// the caller keeps below 2^44. It waits for a word of the root. Refused with `NotCanonical`
    /// exactly if the address is not canonical in the scheme.
    #[inline(always)]
    pub fn begin_in(
        scheme: Scheme,
        root: u64,
        va: u64,
        access: Access,
        ctx: Ctx,
    ) -> Result<Walk, Trap>
        requires { root < 2 ^ PPN_BITS }
        ensures ok { OkIff result (IsCanonical scheme va) (start_of scheme root va access ctx) }
        ensures err { OnErr result (result ≡ Err (page_trap access Why.NotCanonical)) }
    {
        let Some(va) = VirtAddr::new_in(scheme, va) else {
            return Err(Trap::page(access, Why::NotCanonical));
        };
        Ok(Walk::from_root(scheme, root, va, access, ctx))
    }

    /// The walk that `begin_in` begins, of an address that the caller found canonical in the
    /// scheme.
    #[inline(always)]
    pub fn from_root(scheme: Scheme, root: u64, va: VirtAddr, access: Access, ctx: Ctx) -> Walk
        requires { root < 2 ^ PPN_BITS }
        ensures { result ≡ start_of scheme root va access ctx }
    {
        Walk {
            va,
            access,
            ctx,
            level: scheme.top_level(),
            table: root,
            global: false,
        }
    }

    /// The virtual address of the access.
    #[inline(always)]
    pub fn va(&self) -> VirtAddr
        ensures { result ≡ self.now.va }
    {
        self.va
    }

    /// What the access does.
    #[inline(always)]
    pub fn access(&self) -> Access
        ensures { result ≡ self.now.access }
    {
        self.access
    }

    /// The level of the table that is read next, from 0 for a table of pages of 4 KiB up.
    #[inline(always)]
    pub fn level(&self) -> u8
        ensures { result ≡ self.now.level }
    {
        self.level
    }

    /// The word that the walk waits for: the PPN of its table, below 2^44, and the index there,
    /// below 512.
    #[inline(always)]
    pub fn wants(&self) -> (u64, u16)
        ensures table { result.0 ≡ self.now.table }
        ensures index { result.1 ≡ vpn_of self.now.va self.now.level }
        ensures limits { IsInLimits self.now }
    {
        (self.table, self.va.vpn(self.level))
    }

    /// Goes on with the word that the walk waited for, `None` if it lies outside memory (privileged
    /// manual 4.3.2, steps 2 to 8).
    #[inline(always)]
    pub fn load(self, word: Option<u64>) -> Progress
        ensures { result ≡ load_of self word }
    {
        let Some(word) = word else {
            return Progress::Trap(Trap::outside(self.access));
        };
        match Pte(word).kind() {
            Kind::Invalid => Progress::Trap(Trap::page(self.access, Why::Invalid)),
            Kind::Reserved => Progress::Trap(Trap::page(self.access, Why::Reserved)),
            Kind::Table { ppn, global } => {
                if self.level == 0 {
                    return Progress::Trap(Trap::page(self.access, Why::TooDeep));
                }
                Progress::More(self.below(ppn, global))
            }
            Kind::Leaf { ppn, flags } => match self.leaf(ppn, flags) {
                Ok(found) => Progress::Found(found),
                Err(trap) => Progress::Trap(trap),
            },
        }
    }

    /// How many bytes a leaf at the walk's level maps.
    #[inline(always)]
    fn bytes(self) -> u64
        ensures { result ≡ level_bytes self.level }
    {
        PAGE_BYTES << (LEVEL_BITS * u32::from(self.level))
    }

    /// How many pages of 4 KiB these are.
    #[inline(always)]
    fn pages(self) -> u64
        ensures { result ≡ level_pages self.level }
    {
        1 << (LEVEL_BITS * u32::from(self.level))
    }

    /// What is wrong with a leaf at the walk's level, the first that applies.
    #[inline(always)]
    fn fault(self, ppn: u64, flags: PteFlags) -> Option<Why>
        ensures { result ≡ leaf_fault self.access self.ctx self.level ppn flags }
    {
        if !allowed(flags, self.access, self.ctx) {
            Some(Why::Denied)
        } else if ppn % self.pages() != 0 {
            Some(Why::Misaligned)
        } else {
            accessed_fault(flags, self.access)
        }
    }

    /// What a leaf at the walk's level gives.
    #[inline(always)]
    pub(crate) fn leaf(self, ppn: u64, flags: PteFlags) -> Result<Found, Trap>
        requires { ppn < 2 ^ PPN_BITS }
        ensures { result ≡ leaf_answer self.va self.access self.ctx self.level
            (self.global || is_global flags.0) ppn flags }
    {
        if let Some(why) = self.fault(ppn, flags) {
            return Err(Trap::page(self.access, why));
        }
        Ok(Found {
            pa: ppn * PAGE_BYTES + self.va.get() % self.bytes(),
            page: Page::around(self.va, PageSize::at_level(self.level)),
            ppn,
            flags,
            global: self.global | flags.is_global(),
        })
    }
}
