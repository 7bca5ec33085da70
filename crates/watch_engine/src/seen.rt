//! What is remembered of leaves before a word on their paths changes.

ghost use Rattle.std.specs.Prelude.{◌≡◌, ◌<◌, ◌≤◌, ◌++◌, [], Contains, IfOk, IsTrue, OnOk, get_or, length, true};
ghost use Rattle.watch.specs.Holding.{HasLeaf};
ghost use Rattle.watch_tables.specs.declared.leaf.RootLeaf.{RootLeaf as RootLeafOf};
ghost use Rattle.watch_engine.specs.Filling.{AreAnswers};
ghost use Rattle.watch_engine.specs.Held.{last_translation};
ghost use Rattle.watch_engine.specs.Satps.{AreAllOf};
ghost use Rattle.watch_engine.specs.Seen.{AreAdded, AreAddedUpTo, AreSeen, PassesAny, is_kept, kept_for, last_of, live_for, with_kept, with_leaf, with_leaves, with_live};
ghost use Rattle.watch_engine.specs.Shared.{are_all_live};
ghost use Rattle.watch_engine.specs.View.{AreWaysTo, PassesAt, is_live_for, view_of};

use crate::held::LastLive;
use crate::left::Left;
use crate::live::{Answer, answer_of, is_live_in, keep_answer};
use crate::satps::{Harts, harts_of_root, satp_in};
use crate::shared::{HARTS, answers_below, are_alike, are_all_live, are_beside, begins_beside};
use crate::tables::Tables;
use crate::unseen::adds_nothing;
use crate::view::View;
use std::alloc::{AllocError, Global};
use watch::Space;
use watch_tables::{RootLeaf, Way};

// Adds the leaf, if the hart can fill it now.
fn add_live(
    seen: &mut Vec<LastLive>,
    leaf: &RootLeaf,
    hart: u8,
    space: Option<Space>,
    count: u64,
) -> Result<(), AllocError>
    ensures { OnOk result (seen.new.items ≡ seen.old.items ++ live_for count leaf.now hart space) }
{
    let Some(space) = space else {
        return Ok(());
    };
    if space.root == leaf.root {
        seen.push(LastLive::of_leaf(hart, space, &leaf.entry, count))?;
    }
    Ok(())
}

// Adds the leaf for each hart that can fill it now: these are among those with its root.
fn add_live_for_each(
    seen: &mut Vec<LastLive>,
    leaf: &RootLeaf,
    satps: &[Option<Space>],
    harts: Harts,
    count: u64,
) -> Result<(), AllocError>
    requires limit { length satps.now ≤ 256 }
    requires harts { AreAllOf satps.now leaf.now.root harts }
    ensures { OnOk result (seen.new.items ≡ with_live count leaf.now 0 satps.now seen.old.items) }
{
    for hart in harts.first..harts.end {
        add_live(seen, leaf, hart as u8, satps[hart], count)?;
    }
    Ok(())
}

// The leaf, as the hart had it last in the space that it left.
fn last_of(leaf: &RootLeaf, left: &Left) -> LastLive
    ensures { result ≡ last_of leaf.now left.now }
{
    LastLive::of_leaf(left.hart, left.space, &leaf.entry, left.left)
}

// Whether the hart can fill the leaf now. It is asked once, if there is a place for its answer.
fn is_live_once<T: Tables>(
    answers: &mut [Answer],
    view: &View<'_, T>,
    leaf: &RootLeaf,
    left: &Left,
) -> bool
    requires { AreAnswers (view_of view.now) leaf.now.entry answers.old }
    ensures is { result ≡ is_live_for (view_of view.now) left.now.hart
        (last_translation (last_of leaf.now left.now)) }
    ensures answers { AreAnswers (view_of view.now) leaf.now.entry answers.new }
{
    match answer_of(answers, left.hart) {
        Answer::Live => return true,
        Answer::NotLive => return false,
        Answer::Unasked => {}
    }
    let last = last_of(leaf, left);
    let space = satp_in(view.satps, left.hart);
    let live = is_live_in(view.tables, view.scheme, space, last.root, &last.entry);
    keep_answer(answers, left.hart, live);
    live
}

// The hart may hold the leaf since it left the space, and cannot fill it now.
fn is_kept<T: Tables>(
    answers: &mut [Answer],
    view: &View<'_, T>,
    leaf: &RootLeaf,
    left: &Left,
) -> bool
    requires { AreAnswers (view_of view.now) leaf.now.entry answers.old }
    ensures is { result ≡ is_kept (view_of view.now) leaf.now left.now }
    ensures answers { AreAnswers (view_of view.now) leaf.now.entry answers.new }
{
    if left.space.root != leaf.root || leaf.since > left.left {
        return false;
    }
    if is_live_once(answers, view, leaf, left) {
        return false;
    }
    let last = last_of(leaf, left);
    !view.drops.is_taken_since(view.scheme, left, &last.entry)
}

// Adds the leaf, if the hart may hold it since it left the space.
fn add_kept<T: Tables>(
    seen: &mut Vec<LastLive>,
    answers: &mut [Answer],
    view: &View<'_, T>,
    leaf: &RootLeaf,
    left: &Left,
) -> Result<(), AllocError>
    requires { AreAnswers (view_of view.now) leaf.now.entry answers.old }
    ensures seen { OnOk result (seen.new.items ≡ seen.old.items
        ++ kept_for (view_of view.now) leaf.now left.now) }
    ensures answers { AreAnswers (view_of view.now) leaf.now.entry answers.new }
{
    if is_kept(answers, view, leaf, left) {
        seen.push(last_of(leaf, left))?;
    }
    Ok(())
}

// Adds the leaf for each hart that may hold it since it left one of the spaces.
fn add_kept_for_each<T: Tables>(
    seen: &mut Vec<LastLive>,
    answers: &mut [Answer],
    view: &View<'_, T>,
    leaf: &RootLeaf,
    left: &[Left],
) -> Result<(), AllocError>
    requires { AreAnswers (view_of view.now) leaf.now.entry answers.old }
    ensures seen { OnOk result (seen.new.items
        ≡ with_kept (view_of view.now) leaf.now left.now seen.old.items) }
    ensures answers { AreAnswers (view_of view.now) leaf.now.entry answers.new }
{
    for space in left {
        add_kept(seen, answers, view, leaf, space)?;
    }
    Ok(())
}

// Adds the leaf for each hart that it is live for, or that may hold it since it left one of the
// spaces. The harts with its root are among these.
fn add_leaf<T: Tables>(
    seen: &mut Vec<LastLive>,
    answers: &mut [Answer],
    view: &View<'_, T>,
    harts: Harts,
    left: &[Left],
    leaf: &RootLeaf,
) -> Result<(), AllocError>
    requires harts { AreAllOf view.now.satps.now leaf.now.root harts }
    requires answers { AreAnswers (view_of view.now) leaf.now.entry answers.old }
    ensures seen { OnOk result (seen.new.items
        ≡ with_leaf (view_of view.now) leaf.now left.now seen.old.items) }
    ensures answers { AreAnswers (view_of view.now) leaf.now.entry answers.new }
{
    add_live_for_each(seen, leaf, view.satps, harts, view.count)?;
    add_kept_for_each(seen, answers, view, leaf, left)
}

// The same where some answers are known, or it is known that each hart that left can fill the leaf.
fn add_known<T: Tables>(
    seen: &mut Vec<LastLive>,
    known: &[Answer; HARTS],
    all: bool,
    view: &View<'_, T>,
    harts: Harts,
    left: &[Left],
    leaf: &RootLeaf,
) -> Result<(), AllocError>
    requires harts { AreAllOf view.now.satps.now leaf.now.root harts }
    requires answers { AreAnswers (view_of view.now) leaf.now.entry known.now }
    requires all { IsTrue all → IsTrue (are_all_live known.now left.now) }
    ensures { OnOk result (seen.new.items
        ≡ with_leaf (view_of view.now) leaf.now left.now seen.old.items) }
{
    if all {
        return add_live_for_each(seen, leaf, view.satps, harts, view.count);
    }
    let mut answers = *known;
    add_leaf(seen, &mut answers, view, harts, left, leaf)
}

// Adds the leaf for each hart, where the spaces are all that harts have left. Those with its root may
// be at the place; the answer is the place behind them.
fn add_one<T: Tables>(
    seen: &mut Vec<LastLive>,
    answers: &mut [Answer],
    view: &View<'_, T>,
    place: usize,
    leaf: &RootLeaf,
) -> Result<usize, AllocError>
    requires answers { AreAnswers (view_of view.now) leaf.now.entry answers.old }
    ensures seen { OnOk result (seen.new.items
        ≡ with_leaf (view_of view.now) leaf.now view.now.left.now seen.old.items) }
    ensures answers { AreAnswers (view_of view.now) leaf.now.entry answers.new }
{
    let harts = harts_of_root(view.satps, leaf.root);
    let (spaces, behind) = view.left.of_root_near(place, leaf.root);
    add_leaf(seen, answers, view, harts, spaces, leaf)?;
    Ok(behind)
}

// Adds global leaves with the same entry, such as those of a page of the kernel in the tables of each
// process, and answers where the next is another.
fn add_alike<T: Tables>(
    seen: &mut Vec<LastLive>,
    view: &View<'_, T>,
    leaves: &[RootLeaf],
    start: usize,
) -> Result<usize, AllocError>
    requires start { start < length leaves.now }
    requires global { (d : RootLeafOf) → (get_or leaves.now start d).entry.global ≡ true }
    ensures end { IfOk result (λ end. start < end) }
    ensures seen { IfOk result (λ end. AreAddedUpTo (view_of view.now) leaves.now
        start end seen.old.items seen.new.items) }
{
    let first = leaves[start];
    let mut known = [Answer::Unasked; HARTS];
    let mut place = 0;
    let mut at = start;
    loop {
        let leaf = &leaves[at];
        place = add_one(seen, &mut known, view, place, leaf)?;
        at += 1;
        if at >= leaves.len() || !are_alike(&first, &leaves[at]) {
            return Ok(at);
        }
    }
}

// The leaf at a place and the next one are global and have the same entry.
fn begins_alike(leaves: &[RootLeaf], at: usize) -> bool
    requires { at < length leaves.now }
    ensures { IsTrue result → (d : RootLeafOf) → (get_or leaves.now at d).entry.global ≡ true }
{
    at + 1 < leaves.len() && are_alike(&leaves[at], &leaves[at + 1])
}

// Adds global leaves below the same word of one root, such as those of the kernel where the frame of
// a root is given out, and answers where the next is another.
fn add_beside<T: Tables>(
    seen: &mut Vec<LastLive>,
    view: &View<'_, T>,
    leaves: &[RootLeaf],
    start: usize,
) -> Result<usize, AllocError>
    requires start { start < length leaves.now }
    requires global { (d : RootLeafOf) → (get_or leaves.now start d).entry.global ≡ true }
    requires leaves { (x : RootLeafOf) → Contains leaves.now x
        → HasLeaf view.now.scheme (T.words view.now.tables.now) x.root x.entry }
    ensures end { IfOk result (λ end. start < end) }
    ensures seen { IfOk result (λ end. AreAddedUpTo (view_of view.now) leaves.now
        start end seen.old.items seen.new.items) }
{
    let first = leaves[start];
    let harts = harts_of_root(view.satps, first.root);
    let spaces = view.left.of_root(first.root);
    let known = answers_below(view, spaces, &first);
    let all = are_all_live(&known, spaces);
    let mut at = start;
    loop {
        let leaf = &leaves[at];
        add_known(seen, &known, all, view, harts, spaces, leaf)?;
        at += 1;
        if at >= leaves.len()
            || begins_alike(leaves, at)
            || !are_beside(view.scheme, &first, &leaves[at])
        {
            return Ok(at);
        }
    }
}

// Adds leaves of one root, up to those that are alike or below one word of it, and answers where the
// next is another.
fn add_of_root<T: Tables>(
    seen: &mut Vec<LastLive>,
    view: &View<'_, T>,
    leaves: &[RootLeaf],
    start: usize,
) -> Result<usize, AllocError>
    requires start { start < length leaves.now }
    ensures end { IfOk result (λ end. start < end) }
    ensures seen { IfOk result (λ end. AreAddedUpTo (view_of view.now) leaves.now
        start end seen.old.items seen.new.items) }
{
    let mut none: [Answer; 0] = [];
    let root = leaves[start].root;
    let harts = harts_of_root(view.satps, root);
    let spaces = view.left.of_root(root);
    let mut at = start;
    loop {
        let leaf = &leaves[at];
        add_leaf(seen, &mut none, view, harts, spaces, leaf)?;
        at += 1;
        if at >= leaves.len()
            || leaves[at].root != root
            || begins_alike(leaves, at)
            || begins_beside(view.scheme, leaves, at)
        {
            return Ok(at);
        }
    }
}

// Adds the leaves for each hart that they are live for, or that may hold them since it left a space.
fn add_leaves<T: Tables>(
    seen: &mut Vec<LastLive>,
    view: &View<'_, T>,
    leaves: &[RootLeaf],
) -> Result<(), AllocError>
    requires leaves { (x : RootLeafOf) → Contains leaves.now x
        → HasLeaf view.now.scheme (T.words view.now.tables.now) x.root x.entry }
    ensures { OnOk result (seen.new.items ≡ with_leaves (view_of view.now) leaves.now seen.old.items) }
{
    let mut at = 0;
    while at < leaves.len() {
        if begins_alike(leaves, at) {
            at = add_alike(seen, view, leaves, at)?;
        } else if begins_beside(view.scheme, leaves, at) {
            at = add_beside(seen, view, leaves, at)?;
        } else {
            at = add_of_root(seen, view, leaves, at)?;
        }
    }
    Ok(())
}

/// Adds what harts may hold of the leaves whose paths pass through the word at an address, to whose
/// table these are the ways.
pub(crate) fn add_seen<T: Tables>(
    alloc: Global,
    view: &View<'_, T>,
    address: u64,
    ways: &[Way],
    seen: &mut Vec<LastLive>,
) -> Result<(), AllocError>
    requires ways { AreWaysTo (view_of view.now) address ways.now }
    ensures { OnOk result (AreAdded (view_of view.now) (PassesAt (view_of view.now) address)
        seen.old.items seen.new.items) }
{
    let leaves = view
        .tables
        .leaves_through(alloc, view.scheme, address, ways)?;
    add_leaves(seen, view, leaves.as_slice())?;
    Ok(())
}

// The same, where often nothing is to be added: that is asked before any leaf is listed.
fn add_seen_if_any<T: Tables>(
    alloc: Global,
    view: &View<'_, T>,
    address: u64,
    ways: &[Way],
    seen: &mut Vec<LastLive>,
) -> Result<(), AllocError>
    requires ways { AreWaysTo (view_of view.now) address ways.now }
    ensures { OnOk result (AreAdded (view_of view.now) (PassesAt (view_of view.now) address)
        seen.old.items seen.new.items) }
{
    if adds_nothing(view, address, ways) {
        return Ok(());
    }
    add_seen(alloc, view, address, ways, seen)
}

/// Adds what harts may hold of the leaves whose paths pass through the words at the addresses. The caller
/// leaves out words that are 0, since no path passes through these.
pub(crate) fn add_seen_in<T: Tables>(
    alloc: Global,
    view: &View<'_, T>,
    addresses: &[u64],
    seen: &mut Vec<LastLive>,
) -> Result<(), AllocError>
    requires none { seen.old.items ≡ [] }
    ensures { OnOk result (AreSeen (view_of view.now) (PassesAny (view_of view.now)
        addresses.now) seen.new.items) }
{
    for address in addresses {
        let ways = view.tables.ways(alloc, view.scheme, *address)?;
        add_seen_if_any(alloc, view, *address, ways.as_slice(), seen)?;
    }
    Ok(())
}
