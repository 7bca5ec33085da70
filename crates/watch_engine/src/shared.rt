//! Leaves of which harts answer alike.

ghost use Rattle.std.specs.Prelude.{◌≡◌, ◌<◌, IsTrue, get_or, length, true};
ghost use Rattle.pte.specs.Address.{top_level, vpn_of};
ghost use Rattle.tlb.specs.declared.store.Entry.{Entry as EntryOf};
ghost use Rattle.watch.specs.declared.trace.Space.{Space as SpaceOf};
ghost use Rattle.watch.specs.ComputedTraces.{is_live_in};
ghost use Rattle.watch.specs.Holding.{HasLeaf};
ghost use Rattle.watch_tables.specs.declared.leaf.RootLeaf.{RootLeaf as RootLeafOf};
ghost use Rattle.watch_engine.specs.Filling.{are_alike};
ghost use Rattle.watch_engine.specs.Held.{translation_in};
ghost use Rattle.watch_engine.specs.Shared.{AreAnswersBelow, are_all_live, HasWordOf, IsBelow, IsBeside};
ghost use Rattle.watch_engine.specs.View.{view_of};

use crate::held::is_same_entry;
use crate::left::Left;
use crate::live::{Answer, answer_of, keep_answer};
use crate::satps::satp_in;
use crate::tables::Tables;
use crate::view::View;
use pte::Scheme;
use watch::Space;
use watch_tables::RootLeaf;

/// How many harts there can be.
pub(crate) const HARTS: usize = 256;

/// How many leaves below one word of a root are worth a look at the roots of the harts that left it.
const MANY: usize = 16;

/// Global leaves with the same entry.
pub(crate) fn are_alike(leaf: &RootLeaf, other: &RootLeaf) -> bool
    ensures { result ≡ are_alike leaf.now other.now }
{
    leaf.entry.global && is_same_entry(&leaf.entry, &other.entry)
}

// The index of the word of the root above the leaf.
fn index_in_root(scheme: Scheme, leaf: &RootLeaf) -> u16
    ensures { result ≡ vpn_of leaf.now.entry.page.base (top_level scheme) }
{
    leaf.entry.page.base().vpn(scheme.top_level())
}

/// Global leaves below the same word of the same root.
pub(crate) fn are_beside(scheme: Scheme, leaf: &RootLeaf, other: &RootLeaf) -> bool
    ensures other { IsTrue result → IsBeside scheme leaf.now other.now }
    ensures leaf { IsTrue result → leaf.now.entry.global ≡ true }
{
    leaf.entry.global
        && other.entry.global
        && leaf.root == other.root
        && index_in_root(scheme, leaf) == index_in_root(scheme, other)
}

/// The leaf at a place and the one `MANY - 1` places further on are such leaves, and so most often are
/// those between: many enough to be worth a look at the root of each hart that left.
pub(crate) fn begins_beside(scheme: Scheme, leaves: &[RootLeaf], at: usize) -> bool
    requires { at < length leaves.now }
    ensures { IsTrue result → (d : RootLeafOf) → (get_or leaves.now at d).entry.global ≡ true }
{
    leaves.len() - at >= MANY && are_beside(scheme, &leaves[at], &leaves[at + MANY - 1])
}

/// There is a space, and its root has the word of this root at the index.
pub(crate) fn has_word_of<T: Tables>(
    view: &View<'_, T>,
    space: Option<Space>,
    root: u64,
    index: u16,
) -> bool
    ensures { IsTrue result → HasWordOf (view_of view.now) root index space }
{
    match space {
        None => false,
        Some(space) => view.tables.has_same_word(root, space.root, index),
    }
}

// The root of the space has the word above the leaf: then who has the space can fill what is below it.
fn has_word<T: Tables>(view: &View<'_, T>, space: Option<Space>, leaf: &RootLeaf) -> bool
    ensures { IsTrue result → (e : EntryOf) (s : SpaceOf) → IsBelow view.now.scheme leaf.now e
        → HasLeaf view.now.scheme (T.words view.now.tables.now) leaf.now.root e
        → is_live_in view.now.scheme (T.words view.now.tables.now) space (translation_in s e) ≡ true }
{
    has_word_of(view, space, leaf.root, index_in_root(view.scheme, leaf))
}

// The hart answers, if its root has the word above the leaf.
fn answer_below<T: Tables>(answers: &mut [Answer], view: &View<'_, T>, hart: u8, leaf: &RootLeaf)
    requires { AreAnswersBelow (view_of view.now) leaf.now answers.old }
    ensures { AreAnswersBelow (view_of view.now) leaf.now answers.new }
{
    if has_word(view, satp_in(view.satps, hart), leaf) {
        keep_answer(answers, hart, true);
    }
}

/// What the harts that left these spaces answer of each global leaf below the word above this leaf:
/// those whose root has the same word can fill it, and the others are still to be asked.
pub(crate) fn answers_below<T: Tables>(
    view: &View<'_, T>,
    left: &[Left],
    leaf: &RootLeaf,
) -> [Answer; HARTS]
    ensures { AreAnswersBelow (view_of view.now) leaf.now result }
{
    let mut answers = [Answer::Unasked; HARTS];
    for space in left {
        answer_below(&mut answers, view, space.hart, leaf);
    }
    answers
}

/// Each hart that left one of these spaces can fill the leaf.
pub(crate) fn are_all_live(answers: &[Answer], left: &[Left]) -> bool
    ensures { result ≡ are_all_live answers.now left.now }
{
    for space in left {
        if !answer_of(answers, space.hart).is_live() {
            return false;
        }
    }
    true
}
