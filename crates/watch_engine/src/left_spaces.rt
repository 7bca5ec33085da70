//! The spaces that harts have left.

ghost use Rattle.std.specs.Prelude.{ℕ, ◌≡◌, ◌==◌, ◌≤◌, ◌<◌, ◌++◌, [], IfOk, IsTrue, None, OnErr, OnOk, Some, drop, false, filter, get_or, if◌then◌else◌, length, take, vec_capacity, vec_len};
ghost use Rattle.std.specs.List.{list_all};
ghost use Rattle.watch_engine.specs.declared.left.Left.{Left as LeftOf};
ghost use Rattle.watch_engine.specs.LeftOrder.{AreByRoot, Begins, Ends};
ghost use Rattle.watch_engine.specs.Held.{AreEntered, IsWith, stays, without_frames};
ghost use Rattle.watch_engine.specs.Left.{added, has_its_root, is_of, is_of_other, is_other, with_left};

use crate::left::Left;
use crate::roots::Roots;
use std::alloc::{AllocError, Global};
use std::marker::Model;
use watch::{Frames, Space};

// How many of them have a root below this one.
fn count_below(left: &[Left], root: u64) -> usize
    requires { AreByRoot left.now }
    ensures within { result ≤ length left.now }
    ensures place { Begins left.now result root }
{
    left.partition_point(|l| l.space.root < root)
}

// How many of them have no root above this one.
fn count_up_to(left: &[Left], root: u64) -> usize
    requires { AreByRoot left.now }
    ensures within { result ≤ length left.now }
    ensures place { Ends left.now result root }
{
    left.partition_point(|l| l.space.root <= root)
}

// The run of the root begins at the place, if there is one.
fn begins_at(left: &[Left], place: usize, root: u64) -> bool
    requires { AreByRoot left.now }
    ensures within { IsTrue result → place ≤ length left.now }
    ensures place { IsTrue result → Begins left.now place root }
{
    place <= left.len()
        && (place == 0 || left[place - 1].space.root < root)
        && (place == left.len() || root <= left[place].space.root)
}

// How many of them have a root below this one: quicker, if as many as the place.
fn count_below_near(left: &[Left], place: usize, root: u64) -> usize
    requires { AreByRoot left.now }
    ensures within { result ≤ length left.now }
    ensures place { Begins left.now result root }
{
    if begins_at(left, place, root) {
        place
    } else {
        count_below(left, root)
    }
}

// Where the run of the root ends that begins at the place.
fn end_of_run(left: &[Left], start: usize, root: u64) -> usize
    requires order { AreByRoot left.now }
    requires within { start ≤ length left.now }
    requires place { Begins left.now start root }
    ensures from { start ≤ result }
    ensures within { result ≤ length left.now }
    ensures place { Ends left.now result root }
{
    let mut end = start;
    while end < left.len() && left[end].space.root == root {
        end += 1;
    }
    end
}

// Those with the root, and the place behind them: quicker, if they begin at the place.
fn of_root_near(left: &[Left], place: usize, root: u64) -> (&[Left], usize)
    requires { AreByRoot left.now }
    ensures { result.0.now ≡ filter (λ l. l.space.root == root) left.now }
{
    let start = count_below_near(left, place, root);
    let end = end_of_run(left, start, root);
    (&left[start..end], end)
}

// Those with the root.
fn of_root(left: &[Left], root: u64) -> &[Left]
    requires { AreByRoot left.now }
    ensures { result.now ≡ filter (λ l. l.space.root == root) left.now }
{
    let start = count_below(left, root);
    let end = count_up_to(left, root);
    &left[start..end]
}

// It is of the hart, and its space has the ASID.
fn is_of(hart: u8, asid: u16, left: &Left) -> bool
    ensures { result ≡ is_of hart asid left.now }
{
    left.hart == hart && asid == left.space.asid
}

// Where the first of the hart with the ASID stands from one place to another, or the other place.
fn first_of(left: &[Left], start: usize, end: usize, hart: u8, asid: u16) -> usize
    requires order { start ≤ end }
    requires within { end ≤ length left.now }
    ensures from { start ≤ result }
    ensures within { result ≤ end }
    ensures before { (k : ℕ) (d : LeftOf) → start ≤ k → k < result
        → is_of hart asid (get_or left.now k d) ≡ false }
{
    let mut at = start;
    while at < end && !is_of(hart, asid, &left[at]) {
        at += 1;
    }
    at
}

// Moves those from one place to another that are not of the hart's space, where all have its root, to
// the front of these, and answers where they end.
fn keep_others(left: &mut [Left], first: usize, end: usize, hart: u8, space: Space) -> usize
    requires order { first ≤ end }
    requires within { end ≤ length left.old }
    requires root { (k : ℕ) (d : LeftOf) → first ≤ k → k < end
        → (get_or left.old k d).space.root ≡ space.root }
    requires others { take first left.old ++ filter (is_other hart (Some space)) (drop first left.old)
        ≡ filter (is_other hart (Some space)) left.old }
    ensures order { result ≤ end }
    ensures len { length left.new ≡ length left.old }
    ensures behind { drop end left.new ≡ drop end left.old }
    ensures kept { take result left.new ++ filter (is_other hart (Some space)) (drop end left.new)
        ≡ filter (is_other hart (Some space)) left.old }
{
    let mut kept = first;
    let mut at = first;
    while at < end {
        let one = left[at];
        if !is_of(hart, space.asid, &one) {
            left[kept] = one;
            kept += 1;
        }
        at += 1;
    }
    kept
}

// Without what stands between two places: what is behind moves once.
fn close_gap(left: &mut Vec<Left>, start: usize, end: usize)
    requires order { start ≤ end }
    requires within { end ≤ length left.old.items }
    ensures { left.new.items ≡ take start left.old.items ++ drop end left.old.items }
{
    if start + 1 == end {
        left.remove(start);
        return;
    }
    let behind = left.len() - end;
    left.copy_within(end.., start);
    left.truncate(start + behind);
}

// Without the space to which the hart comes back: only those with its root can be that.
fn drop_back(left: &mut Vec<Left>, hart: u8, space: Space)
    requires { AreByRoot left.old.items }
    ensures { left.new.items ≡ filter (is_other hart (Some space)) left.old.items }
{
    let start = count_below(left.as_slice(), space.root);
    let end = count_up_to(left.as_slice(), space.root);
    let first = first_of(left.as_slice(), start, end, hart, space.asid);
    if first == end {
        return;
    }
    let kept = keep_others(left.as_mut_slice(), first, end, hart, space);
    close_gap(left, kept, end);
}

// Moves those with one of the roots to the front, and answers how many they are. The roots are asked
// once for those in a row with the same.
fn keep_rooted(left: &mut [Left], roots: &Roots) -> usize
    ensures { take result left.new ≡ filter (has_its_root roots.now) left.old }
{
    let mut kept = 0;
    let mut at = 0;
    let mut asked = 0;
    let (mut stays, mut place) = roots.has_near(0, asked);
    while at < left.len() {
        let space = left[at];
        if space.space.root != asked {
            asked = space.space.root;
            (stays, place) = roots.has_near(place, asked);
        }
        if stays {
            left[kept] = space;
            kept += 1;
        }
        at += 1;
    }
    kept
}

// With one more, of which there is room, behind those of its root.
fn add_reserved(spaces: &mut Vec<Left>, one: Left)
    requires order { AreByRoot spaces.old.items }
    requires room { vec_len spaces.old < vec_capacity spaces.old }
    ensures order { AreByRoot spaces.new.items }
    ensures added { spaces.new.items ≡ added one spaces.old.items }
{
    let place = count_up_to(spaces.as_slice(), one.space.root);
    let _ = spaces.insert(place, one);
}

/// The spaces that harts have left, in the order of their roots, and those of one root in the order
/// in which they were left.
#[derive(Drop)]
pub(crate) struct LeftSpaces {
    spaces: Vec<Left>,
}

impl Model for LeftSpaces {
    ghost use Rattle.std.specs.Prelude.{List};
    ghost use Rattle.watch_engine.specs.LeftOrder.{AreByRoot};
    ghost use Rattle.watch_engine.specs.declared.left.Left.{Left as LeftOf};

    ghost Value = { List LeftOf };

    ghost view = { λ s. s.spaces.items };

    ghost invariant = { λ s. AreByRoot s.spaces.items };
}

impl LeftSpaces {
    /// No space.
    pub(crate) fn new(alloc: Global) -> LeftSpaces
        ensures { result ≡ [] }
    {
        LeftSpaces {
            spaces: Vec::new(alloc),
        }
    }

    /// Whether there is no space.
    pub(crate) fn is_empty(&self) -> bool
        ensures { result ≡ (length self.now == 0) }
    {
        self.spaces.is_empty()
    }

    /// Those with the root.
    pub(crate) fn of_root(&self, root: u64) -> &[Left]
        ensures { result.now ≡ filter (λ l. l.space.root == root) self.now }
    {
        of_root(self.spaces.as_slice(), root)
    }

    /// Those with the root, and the place behind them: quicker, if they begin at the place.
    pub(crate) fn of_root_near(&self, place: usize, root: u64) -> (&[Left], usize)
        ensures { result.0.now ≡ filter (λ l. l.space.root == root) self.now }
    {
        of_root_near(self.spaces.as_slice(), place, root)
    }

    /// With the space that a hart leaves, and with the root of the one that it goes to; that root, if it
    /// is new. At `Err` nothing changed.
    pub(crate) fn add(
        &mut self,
        roots: &mut Roots,
        left: Option<Left>,
        new: Option<Space>,
    ) -> Result<Option<u64>, AllocError>
        ensures left { OnOk result (self.new ≡ with_left left self.old) }
        ensures roots { OnOk result (AreEntered new roots.old roots.new) }
        ensures same { IfOk result (λ root. root ≡ None → roots.new ≡ roots.old) }
        ensures more { IfOk result (λ root. (r : ℕ) → root ≡ Some r → IsWith r roots.old roots.new) }
        ensures err { OnErr result (self.new ≡ self.old) }
        ensures err_roots { OnErr result (roots.new ≡ roots.old) }
    {
        let Some(one) = left else {
            return roots.add(new);
        };
        self.spaces.reserve(1)?;
        let root = roots.add(new)?;
        add_reserved(&mut self.spaces, one);
        Ok(root)
    }

    /// Without the space to which the hart comes back.
    pub(crate) fn drop_back(&mut self, hart: u8, space: Option<Space>)
        ensures { self.new ≡ filter (is_other hart space) self.old }
    {
        match space {
            None => {}
            Some(space) => drop_back(&mut self.spaces, hart, space),
        }
    }

    /// Without the spaces that the hart has left.
    pub(crate) fn drop_of(&mut self, hart: u8)
        ensures { self.new ≡ filter (is_of_other hart) self.old }
    {
        self.spaces.retain(|l| !(l.hart == hart));
    }

    fn retain_rooted(&mut self, roots: &Roots)
        ensures { self.new ≡ filter (has_its_root roots.now) self.old }
    {
        let kept = keep_rooted(self.spaces.as_mut_slice(), roots);
        self.spaces.truncate(kept);
    }

    /// Takes frames that are given out from the roots, but for those in a satp, and drops the spaces
    /// of those roots. Whether all roots stay.
    pub(crate) fn drop_given(
        &mut self,
        roots: &mut Roots,
        frames: Frames,
        satps: &[Option<Space>],
    ) -> bool
        ensures roots { roots.new ≡ without_frames frames satps.now roots.old }
        ensures all { result ≡ list_all (stays frames satps.now) roots.old }
        ensures left { self.new ≡ (if result then self.old
            else filter (has_its_root roots.new) self.old) }
    {
        if roots.keeps_all(frames, satps) {
            return true;
        }
        roots.retain(frames, satps);
        self.retain_rooted(roots);
        false
    }
}
