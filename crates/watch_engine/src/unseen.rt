//! Words of a root of whose leaves nothing is to be remembered.

ghost use Rattle.std.specs.Prelude.{ℕ, ◌≡◌, IsTrue, List, None, false, get_or};
ghost use Rattle.watch.specs.Trace.{has_root};
ghost use Rattle.watch_engine.specs.declared.held.LastLive.{LastLive as LastLiveOf};
ghost use Rattle.watch_engine.specs.Left.{EachLeft};
ghost use Rattle.watch_engine.specs.Seen.{AreAdded};
ghost use Rattle.watch_engine.specs.Shared.{HasWordOf};
ghost use Rattle.watch_engine.specs.Unseen.{FillsBelow};
ghost use Rattle.watch_engine.specs.View.{AreWaysTo, PassesAt, view_of};

use crate::left::Left;
use crate::satps::{harts_of_root, satp_in};
use crate::shared::has_word_of;
use crate::tables::Tables;
use crate::touched::index_of;
use crate::view::View;
use watch::Space;
use watch_tables::Way;

/// A root that harts left more often is not looked at.
const FEW_SPACES: usize = 16;

// No hart has the root in its satp.
fn is_in_no_satp(satps: &[Option<Space>], root: u64) -> bool
    ensures { IsTrue result → (hart : ℕ) → has_root (get_or satps.now hart None) root ≡ false }
{
    let harts = harts_of_root(satps, root);
    harts.first == harts.end
}

// Each hart that left one of these spaces is in a space with the word of the root.
fn have_word_of<T: Tables>(view: &View<'_, T>, left: &[Left], root: u64, index: u16) -> bool
    ensures { IsTrue result → EachLeft (λ l. HasWordOf (view_of view.now) root index
        (get_or view.now.satps.now l.hart None)) left.now }
{
    for space in left {
        if !has_word_of(view, satp_in(view.satps, space.hart), root, index) {
            return false;
        }
    }
    true
}

// Each hart that left one of these spaces can fill each leaf below the word of the root.
fn fill_below<T: Tables>(view: &View<'_, T>, left: &[Left], root: u64, index: u16) -> bool
    ensures { IsTrue result → EachLeft (FillsBelow (view_of view.now) root index)
        left.now }
{
    if left.is_empty() {
        return true;
    }
    if !have_word_of(view, left, root, index) {
        return false;
    }
    view.tables.are_leaves_global(view.scheme, root, index)
}

/// Nothing is to be remembered of the leaves whose paths pass through the word at an address, to
/// whose table these are the ways: it is a root to which no pointer leads, no hart has it in its
/// satp, and those that left it can fill the leaves. Where that is not known, the answer is false.
pub(crate) fn adds_nothing<T: Tables>(view: &View<'_, T>, address: u64, ways: &[Way]) -> bool
    requires { AreWaysTo (view_of view.now) address ways.now }
    ensures { IsTrue result → (seen : List LastLiveOf)
        → AreAdded (view_of view.now) (PassesAt (view_of view.now) address) seen seen }
{
    let [way] = ways else {
        return false;
    };
    if !is_in_no_satp(view.satps, way.root) {
        return false;
    }
    let spaces = view.left.of_root(way.root);
    if spaces.len() > FEW_SPACES {
        return false;
    }
    fill_below(view, spaces, way.root, index_of(address))
}
