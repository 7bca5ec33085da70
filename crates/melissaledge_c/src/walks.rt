//! A walk word by word, as plain numbers, and what an entry permits.

ghost use Rattle.std.specs.Prelude.{ℕ, Ok};
ghost use Rattle.walk.specs.declared.stepping.AccessedDirty.{AccessedDirty};
ghost use Rattle.walk.specs.Stage.{IsInLimits, Stage};
ghost use Rattle.melissaledge_c.specs.declared.requests.AccessAsked.{AccessAsked};
ghost use Rattle.melissaledge_c.specs.Requests.{asked_of};
ghost use Rattle.std.specs.Prelude.{◌≡◌, ◌<◌, ◌^◌, None, Some};
ghost use Rattle.pte.specs.declared.entry.TheConstants.{PPN_BITS};
ghost use Rattle.melissaledge_c.specs.Codes.{mode_of};
ghost use Rattle.melissaledge_c.specs.Walks.{Begins, GoesOn, Permits, Starts, Tells, bare_leaf, granted_leaf, permits_code, policy_of, start_asked, trapped_leaf, walk_given, walk_of, wordless};

use crate::bare::{Translation, bare_answer, bare_status, translation_of};
use crate::codes::{Fault, is_set, mode_of, number_of};
use crate::requests::{AccessAsked, EntryGiven, asked_of};
use crate::translations::Answer;
use bitflags::Flags;
use pte::{Access, Ctx, PPN_LIMIT, PteFlags, Scheme, tests_are_facts};
use walk::{AccessedDirty, Advance, Granted, Permitted, Trap, Trapped, Walk, permits};

/// A walk between two loads: `struct mle_walk` of C.
#[repr(C)]
#[derive(Clone, Copy, PartialEq, Eq, Default)]
pub struct WalkGiven {
    /// The physical address of the word that comes next. It is told, and not read.
    pub pte_pa: u64,
    /// The PPN of the table that is read next.
    pub table_ppn: u64,
    /// The access.
    pub access: AccessAsked,
    /// The level of that table.
    pub level: u8,
    /// Not 0 if a pointer so far has G.
    pub global: u8,
    /// The policy for A and D: 0 traps, 1 sets.
    pub ad: u8,
}

/// What a walk ends with: `struct mle_leaf` of C.
#[repr(C)]
#[derive(Clone, Copy, PartialEq, Eq, Default)]
pub struct LeafGiven {
    /// The translation or the exception.
    pub answer: Answer,
    /// The physical address of the word that decided, or 0.
    pub pte_pa: u64,
    /// That word, or 0.
    pub pte: u64,
    /// The level of its table, or 0.
    pub level: u8,
    /// Which accesses the page lets go through: bit 0 a fetch, bit 1 a load, bit 2 a store.
    pub permits: u8,
    /// The bits of A and D to set in the word.
    pub set: u8,
}

/// What is asked of a walk that begins, once it is found to be in order.
#[derive(Clone, Copy, PartialEq, Eq)]
pub(crate) struct Start {
    pub(crate) translation: Translation,
    pub(crate) access: Access,
    pub(crate) ctx: Ctx,
}

/// The policy of a number.
fn policy_of(code: u8) -> Option<AccessedDirty>
    ensures { result ≡ policy_of code }
{
    match code {
        0 => Some(AccessedDirty::Trap),
        1 => Some(AccessedDirty::Set),
        _ => None,
    }
}

/// The number of what a page permits.
fn permits_code(permitted: Permitted) -> u8
    ensures { result ≡ permits_code permitted }
{
    number_of(permitted.fetch) + number_of(permitted.load) * 2 + number_of(permitted.store) * 4
}

/// The walk and the policy of numbers, refused with `Access`, `Mode`, `Policy` or `Walk`, in this
/// order.
#[inline(always)]
fn walk_of(given: &WalkGiven) -> Result<(Walk, AccessedDirty), Fault>
    ensures { result ≡ walk_of given.now }
{
    let (access, ctx) = asked_of(&given.access)?;
    let Some(policy) = policy_of(given.ad) else {
        return Err(Fault::Policy);
    };
    let global = is_set(given.global);
    let va = given.access.va;
    match Walk::resume(va, access, ctx, given.level, given.table_ppn, global) {
        Some(walk) => Ok((walk, policy)),
        None => Err(Fault::Walk),
    }
}

impl WalkGiven {
    /// The numbers of a walk for an access and a policy that were asked so.
    #[inline(always)]
    fn of(asked: AccessAsked, ad: u8, walk: &Walk) -> WalkGiven
        ensures { result ≡ walk_given asked ad walk.now }
    {
        WalkGiven {
            pte_pa: walk.word_address(),
            table_ppn: walk.table(),
            access: asked,
            level: walk.level(),
            global: number_of(walk.is_global()),
            ad,
        }
    }

    /// Takes the numbers of a walk for the same access and policy.
    #[inline(always)]
    fn advance(&mut self, walk: &Walk)
        ensures { self.new ≡ walk_given self.old.access self.old.ad walk.now }
    {
        self.pte_pa = walk.word_address();
        self.table_ppn = walk.table();
        self.level = walk.level();
        self.global = number_of(walk.is_global());
    }
}

impl LeafGiven {
    /// What a leaf gives in a state of the hart.
    #[inline(always)]
    fn granted(granted: &Granted, ctx: Ctx) -> LeafGiven
        ensures { result ≡ granted_leaf granted.now ctx }
    {
        LeafGiven {
            answer: Answer::found(&granted.found),
            pte_pa: granted.read.pa,
            pte: granted.read.word,
            level: granted.read.level,
            permits: permits_code(permits(granted.found.flags, ctx)),
            set: granted.set.bits(),
        }
    }

    /// What an exception gives.
    #[inline(always)]
    fn trapped(trapped: &Trapped) -> LeafGiven
        ensures { result ≡ trapped_leaf trapped.now }
    {
        let answer = Answer::trap(&trapped.trap);
        match trapped.read {
            None => LeafGiven {
                answer,
                ..LeafGiven::default()
            },
            Some(read) => LeafGiven {
                answer,
                pte_pa: read.pa,
                pte: read.word,
                level: read.level,
                permits: 0,
                set: 0,
            },
        }
    }
}

/// Tells C what came of a load.
#[inline(always)]
fn tell(ctx: Ctx, advance: Advance, walk: &mut WalkGiven, leaf: &mut LeafGiven) -> i32
    ensures { Tells ctx advance result walk.old walk.new leaf.old leaf.new }
{
    match advance {
        Advance::More(next) => {
            walk.advance(&next);
            3
        }
        Advance::Granted(granted) => {
            *leaf = LeafGiven::granted(&granted, ctx);
            0
        }
        Advance::Trapped(trapped) => {
            *leaf = LeafGiven::trapped(&trapped);
            1
        }
    }
}

/// Goes on with the word that the walk waited for, as `Walk::load_under` has it: 3 with the walk
/// that goes on, 0 with the leaf, or 1 with the exception. Refused with `Access`, `Mode`, `Policy`
/// or `Walk`, in this order, and then nothing has changed.
#[unsafe(no_mangle)]
pub extern "C" fn melissaledge_walk_word(
    walk: &mut WalkGiven,
    word: u64,
    leaf: &mut LeafGiven,
) -> i32
    ensures { GoesOn (walk_of walk.old) (Some word) result walk.old walk.new leaf.old leaf.new }
{
    let (resumed, policy) = match walk_of(walk) {
        Ok(resumed) => resumed,
        Err(fault) => return fault.code(),
    };
    let advance = resumed.load_under(policy, Some(word));
    tell(resumed.ctx(), advance, walk, leaf)
}

/// Ends a walk whose word lies outside memory: 1 with the access fault. Refused with `Access`,
/// `Mode`, `Policy` or `Walk`, in this order, and then nothing has changed.
#[unsafe(no_mangle)]
pub extern "C" fn melissaledge_walk_no_word(walk: &WalkGiven, leaf: &mut LeafGiven) -> i32
    ensures { GoesOn (walk_of walk.now) None result walk.now walk.now leaf.old leaf.new }
{
    let (resumed, _) = match walk_of(walk) {
        Ok(resumed) => resumed,
        Err(fault) => return fault.code(),
    };
    let trap = Trap::outside(resumed.access());
    *leaf = LeafGiven::trapped(&Trapped { trap, read: None });
    1
}

/// What is asked, or the first fault.
#[inline(always)]
fn start_asked(mode: u32, root: u64, asked: &AccessAsked, ad: u8) -> Result<Start, Fault>
    ensures { result ≡ start_asked mode root asked.now ad }
{
    let Some(translation) = translation_of(mode) else {
        return Err(Fault::Scheme);
    };
    let (access, ctx) = asked_of(asked)?;
    let Some(_) = policy_of(ad) else {
        return Err(Fault::Policy);
    };
    if root >= PPN_LIMIT {
        return Err(Fault::Root);
    }
    Ok(Start {
        translation,
        access,
        ctx,
    })
}

impl LeafGiven {
    /// What is answered without a word of a table.
    fn wordless(answer: Answer, permits: u8) -> LeafGiven
        ensures { result ≡ wordless answer permits }
    {
        LeafGiven {
            answer,
            permits,
            ..LeafGiven::default()
        }
    }

    /// What is answered in Bare.
    fn bare(va: u64, access: Access) -> LeafGiven
        ensures { result ≡ bare_leaf va access }
    {
        let permits = if bare_status(va) == 0 { 7 } else { 0 };
        LeafGiven::wordless(bare_answer(va, access), permits)
    }
}

/// Begins the walk of a scheme that is in order.
#[inline(always)]
fn begin_paged(
    scheme: Scheme,
    root: u64,
    asked: &AccessAsked,
    ad: u8,
    start: Start,
    walk: &mut WalkGiven,
    leaf: &mut LeafGiven,
) -> i32
    requires { root < 2 ^ PPN_BITS }
    ensures { Starts (Translation.Paged scheme) root asked.now ad start result
        walk.old walk.new leaf.old leaf.new }
{
    tests_are_facts();
    match Walk::begin_in(scheme, root, asked.va, start.access, start.ctx) {
        Ok(begun) => {
            *walk = WalkGiven::of(*asked, ad, &begun);
            3
        }
        Err(trap) => {
            *leaf = LeafGiven::wordless(Answer::trap(&trap), 0);
            1
        }
    }
}

/// Begins a walk, as `Walk::begin_in` has it: 3 with the walk, or 1 with the exception that the
/// address is not canonical. In Bare 0 with the address, or 1 with an access fault. Refused with
/// `Scheme`, `Access`, `Mode`, `Policy` or `Root`, in this order, and then nothing has changed.
#[unsafe(no_mangle)]
pub extern "C" fn melissaledge_walk_begin(
    scheme: u32,
    root: u64,
    asked: &AccessAsked,
    ad: u8,
    walk: &mut WalkGiven,
    leaf: &mut LeafGiven,
) -> i32
    ensures { Begins (start_asked scheme root asked.now ad) root asked.now ad result
        walk.old walk.new leaf.old leaf.new }
{
    let start = match start_asked(scheme, root, asked, ad) {
        Ok(start) => start,
        Err(fault) => return fault.code(),
    };
    match start.translation {
        Translation::Bare => {
            *leaf = LeafGiven::bare(asked.va, start.access);
            bare_status(asked.va)
        }
        Translation::Paged(scheme) => begin_paged(scheme, root, asked, ad, start, walk, leaf),
    }
}

/// Which accesses an entry lets go through, as `walk::permits` has it: 0 with bit 0 for a fetch, bit
/// 1 for a load and bit 2 for a store. Refused with `Mode`, and then nothing has changed.
#[unsafe(no_mangle)]
pub extern "C" fn melissaledge_entry_permits(
    entry: &EntryGiven,
    mode: u8,
    sum: u8,
    mxr: u8,
    permitted: &mut u8,
) -> i32
    ensures { Permits (mode_of mode) entry.now sum mxr result permitted.old permitted.new }
{
    let Some(mode) = mode_of(mode) else {
        return Fault::Mode.code();
    };
    let ctx = Ctx {
        mode,
        sum: is_set(sum),
        mxr: is_set(mxr),
    };
    *permitted = permits_code(permits(PteFlags::from_bits_retain(entry.flags), ctx));
    0
}

/// Does nothing; its contract says that the numbers of a walk are those of this walk alone: a call
/// that is given them goes on with it.
pub fn numbers_are_of_one_walk()
    ensures { (asked : AccessAsked) (ad : ℕ) (s : Stage) (policy : AccessedDirty) → IsInLimits s
        → asked.va ≡ s.va → asked_of asked ≡ Ok (s.access, s.ctx) → policy_of ad ≡ Some policy
        → walk_of (walk_given asked ad s) ≡ Ok (s, policy) }
{}
