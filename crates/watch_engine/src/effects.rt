//! What records do to what harts may hold.

ghost use Rattle.std.specs.Prelude.{◌≡◌, ◌<◌, ◌∷◌, ◌⊎◌, [], None, Some, false, filter, get_or, if◌then◌else◌, is_some, length, map, true};
ghost use Rattle.std.specs.List.{list_any};
ghost use Rattle.watch.specs.Computed.{is_mapped};
ghost use Rattle.watch_engine.specs.Held.{all_found_again, is_current_by, is_found, marked_if, outlives_fence, outlives_remote, translation_of, with_state};
ghost use Rattle.watch_engine.specs.Causes.{applies, verdict_of};
ghost use Rattle.watch_engine.specs.declared.concern.Concern.TheVariants.{All, Fence, Given, Remote};
ghost use Rattle.watch_engine.specs.declared.state.State.TheVariants.{Current, Gone};
ghost use Rattle.watch_engine.specs.Concerns.{concerns};
ghost use Rattle.watch_engine.specs.Effects.{Does, changed, is_due, or_same};
ghost use Rattle.watch_engine.specs.declared.concern.Concern.{Concern as ConcernOf};
ghost use Rattle.watch_engine.specs.declared.held.Held.{Held as HeldOf};
ghost use Rattle.watch_engine.specs.State.{given_of, is_gone, stale_of};
ghost use Rattle.watch_engine.specs.Touched.{settled_taken};
ghost use Rattle.watch_engine.specs.View.{view_of};

use crate::cause::Cause;
use crate::concern::Concern;
use crate::held::Held;
use crate::open::OpenFence;
use crate::roots::{is_current, is_mapped};
use crate::state::State;
use crate::tables::Tables;
use crate::translation_index::TranslationIndex;
use crate::view::View;
use crate::warning::Warning;
use pte::Scheme;

/// What a record does to the items that it concerns. What it has done to one it does not do again.
pub(crate) trait Effect {
    // what it does
    ghost does: { Self → Does };

    /// How many concerns it has. What it changes is of one of them.
    fn count(&self) -> usize
        ensures count { result ≡ length (does self.now).concerns }
        ensures told { (i : HeldOf) → is_some ((does self.now).change i) ≡ true
            → list_any (λ c. concerns c i) (does self.now).concerns ≡ true };

    /// One of its concerns.
    fn concern(&self, number: usize) -> Concern
        requires { number < length (does self.now).concerns }
        ensures { (c : ConcernOf) → result ≡ get_or (does self.now).concerns number c };

    /// Changes an item that is there. Whether its place is empty now.
    fn apply(&mut self, item: &mut Held) -> bool
        requires { is_gone item.old.state ≡ false }
        ensures item { item.new
            ≡ with_state (or_same ((does self.old).change item.old) item.old.state) item.old }
        ensures once { is_due (does self.old).change item.new ≡ false }
        ensures empty { result ≡ is_gone item.new.state }
        ensures same { does self.new ≡ does self.old };
}

/// Changes an item, if it is there. Whether its place is empty now.
#[inline(always)]
pub(crate) fn apply_to<E: Effect>(effect: &mut E, item: &mut Held) -> bool
    ensures item { item.new ≡ changed (E.does effect.old).change item.old }
    ensures once { is_due (E.does effect.old).change item.new ≡ false }
    ensures same { E.does effect.new ≡ E.does effect.old }
    ensures empty { result ≡ is_gone item.new.state }
{
    item.state.is_gone() || effect.apply(item)
}

// Makes current what the tables of a new root have again.
#[derive(Drop)]
struct FindAgain<'a, T: Tables> {
    tables: &'a T,
    scheme: Scheme,
    root: u64,
}

impl<T: Tables> Effect for FindAgain<'_, T> {
    ghost does = { λ s. record {
      change = λ i. if is_found (is_mapped s.scheme (T.words s.tables.now)) s.root i
          then Some Current else None;
      concerns = All ∷ [];
    } };

    fn count(&self) -> usize {
        1
    }

    fn concern(&self, _number: usize) -> Concern {
        Concern::All
    }

    #[inline]
    fn apply(&mut self, item: &mut Held) -> bool {
        if item.state.since().is_some()
            && item.entry.global
            && is_mapped(self.tables, self.scheme, self.root, &item.entry)
        {
            item.state = State::Current;
        }
        false
    }
}

// With what the tables of a root have, if a hart comes to a new one.
pub(crate) fn find_again<T: Tables>(
    root: Option<u64>,
    held: &mut TranslationIndex,
    tables: &T,
    scheme: Scheme,
)
    ensures { held.new
        ≡ all_found_again (is_mapped scheme (T.words tables.now)) root
        held.old }
{
    if let Some(root) = root {
        held.apply(&mut FindAgain {
            tables,
            scheme,
            root,
        });
    }
}

// Makes stale what the tables do not have any more, after a record that can only take from them.
#[derive(Drop)]
struct SettleUnlessStale<'a, T: Tables> {
    tables: &'a T,
    scheme: Scheme,
    roots: &'a [u64],
    count: u64,
}

impl<T: Tables> Effect for SettleUnlessStale<'_, T> {
    ghost does = { λ s. record {
      change = λ i. stale_of (is_current_by (is_mapped s.scheme (T.words s.tables.now)) s.roots.now
          (translation_of i)) s.count i.state;
      concerns = All ∷ [];
    } };

    fn count(&self) -> usize {
        1
    }

    fn concern(&self, _number: usize) -> Concern {
        Concern::All
    }

    #[inline]
    fn apply(&mut self, item: &mut Held) -> bool {
        if matches!(item.state, State::Current) {
            let current = is_current(self.tables, self.scheme, self.roots, item.root, &item.entry);
            item.state.recheck(current, self.count);
        }
        false
    }
}

// Rechecks what is current after the words at these addresses became 0, or not all roots stay: that only
// takes from what the tables have. If neither is so, nothing is done.
pub(crate) fn settle_taken<T: Tables>(
    addresses: &[u64],
    all_stay: bool,
    held: &mut TranslationIndex,
    view: &View<'_, T>,
)
    ensures { (held.new ≡ settled_taken (view_of view.now) held.old)
        ⊎ ((addresses.now ≡ []) × (all_stay ≡ true) × (held.new ≡ held.old)) }
{
    if addresses.is_empty() && all_stay {
        return;
    }
    held.apply(&mut SettleUnlessStale {
        tables: view.tables,
        scheme: view.scheme,
        roots: view.roots.as_slice(),
        count: view.count,
    });
}

// Gives the verdict of a cause to what it is of.
#[derive(Drop)]
struct Marks<'a> {
    cause: &'a Cause,
}

impl Effect for Marks<'_> {
    ghost does = { λ m. record {
      change = λ i. if applies m.cause.now i then given_of (verdict_of m.cause.now) i.state else None;
      concerns = Given m.cause.now ∷ [];
    } };

    fn count(&self) -> usize {
        1
    }

    fn concern(&self, _number: usize) -> Concern {
        Concern::Given(*self.cause)
    }

    #[inline]
    fn apply(&mut self, item: &mut Held) -> bool {
        if item.is_of_cause(self.cause) {
            item.state.give(self.cause.verdict());
        }
        false
    }
}

// With the verdict of those that the cause is of, where what is given by it is known: if nothing is, all
// keep the verdicts that they have.
pub(crate) fn mark_given(held: &mut TranslationIndex, cause: &Cause, given: &[Warning])
    requires { given.now ≡ [] → map (marked_if (verdict_of cause.now) (applies cause.now))
        held.old ≡ held.old }
    ensures { held.new
        ≡ map (marked_if (verdict_of cause.now) (applies cause.now)) held.old }
{
    if !given.is_empty() {
        held.apply(&mut Marks { cause });
    }
}

// Drops what a fence of the hart drops.
#[derive(Drop)]
struct FenceDrops {
    scheme: Scheme,
    hart: u8,
    rs1: Option<u64>,
    rs2: Option<u64>,
}

impl Effect for FenceDrops {
    ghost does = { λ f. record {
      change = λ i. if outlives_fence f.scheme f.hart f.rs1 f.rs2 i then None else Some Gone;
      concerns = Fence f.scheme f.hart f.rs1 f.rs2 ∷ [];
    } };

    fn count(&self) -> usize {
        1
    }

    fn concern(&self, _number: usize) -> Concern {
        Concern::Fence {
            scheme: self.scheme,
            hart: self.hart,
            rs1: self.rs1,
            rs2: self.rs2,
        }
    }

    #[inline]
    fn apply(&mut self, item: &mut Held) -> bool {
        if item.outlives_fence(self.scheme, self.hart, self.rs1, self.rs2) {
            return false;
        }
        item.state = State::Gone;
        true
    }
}

// Without what a fence of the hart drops.
pub(crate) fn drop_fenced(
    held: &mut TranslationIndex,
    scheme: Scheme,
    hart: u8,
    rs1: Option<u64>,
    rs2: Option<u64>,
)
    ensures { held.new
        ≡ filter (outlives_fence scheme hart rs1 rs2) held.old }
{
    held.apply(&mut FenceDrops {
        scheme,
        hart,
        rs1,
        rs2,
    });
}

// Drops what the end of a remote fence drops.
#[derive(Drop)]
struct RemoteDrops<'a> {
    scheme: Scheme,
    fence: &'a Option<OpenFence>,
}

impl Effect for RemoteDrops<'_> {
    ghost does = { λ r. record {
      change = λ i. if outlives_remote r.scheme r.fence.now i then None else Some Gone;
      concerns = Remote r.scheme r.fence.now ∷ [];
    } };

    fn count(&self) -> usize {
        1
    }

    fn concern(&self, _number: usize) -> Concern {
        Concern::Remote {
            scheme: self.scheme,
            fence: *self.fence,
        }
    }

    #[inline]
    fn apply(&mut self, item: &mut Held) -> bool {
        if item.outlives_remote(self.scheme, self.fence) {
            return false;
        }
        item.state = State::Gone;
        true
    }
}

// Without what the end of a remote fence drops.
pub(crate) fn drop_remote(held: &mut TranslationIndex, scheme: Scheme, fence: &Option<OpenFence>)
    ensures { held.new
        ≡ filter (outlives_remote scheme fence.now) held.old }
{
    held.apply(&mut RemoteDrops { scheme, fence });
}
