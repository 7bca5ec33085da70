//! The frames that have a word that is not 0.

ghost use Rattle.std.specs.Prelude.{ℕ, ◌≡◌, ◌<◌, ◌≤◌, ◌+◌, ◌==◌, ◌≢◌, ◌/◌, ◌↔◌, if◌then◌else◌};
ghost use Rattle.std.specs.Prelude.{IfOk, IfSome, IsSome, IsTrue, None, OnErr, OnOk, Some, length};
ghost use Rattle.std.specs.Ordering.{nat_cmp};
ghost use Rattle.std.specs.BTreeMap.{get};
ghost use Rattle.std.specs.Option.{unwrap_or};
ghost use Rattle.watch_tables.specs.Stored.{value_of, word_to_store};
ghost use Rattle.watch_tables.specs.InFrame.{word_of};
ghost use Rattle.watch_tables.specs.FrameRow.{IsInStep, frame_at, ppn_at};
ghost use Rattle.watch_tables.specs.Hints.{AreHinted};

use crate::frame::Frame;
use crate::hints::{Hints, NO_PLACE};
use pte::TABLE_LENGTH;
use std::alloc::{AllocError, Global};
use std::collections::BTreeMap;

/// A frame that has a PPN.
#[derive(Drop)]
pub(crate) struct PlacedFrame {
    /// The PPN.
    pub(crate) ppn: u64,
    /// Its words.
    frame: Frame,
}

/// Frames, by their PPN.
#[derive(Drop)]
pub(crate) struct FrameTable {
    // the place in the row of each PPN
    places: BTreeMap<u64, usize>,
    // the frames, in no order
    row: Vec<PlacedFrame>,
    // where a frame may stand; where it does not, the map tells
    hints: Hints,
    ghost in_step: { IsInStep (get nat_cmp places) row.items },
    ghost hinted: { AreHinted hints row.items },
}

/// Puts a word down at an index of the frame at a place of a row, with the number of records so far;
/// 0 is not kept. Whether each word of the frame is 0 then. At `Err` the words are as before.
fn put_in(
    row: &mut Vec<PlacedFrame>,
    place: usize,
    index: u16,
    word: u64,
    count: u64,
) -> Result<bool, AllocError>
    requires place { place < length row.old.items }
    requires index { index < TABLE_LENGTH }
    ensures ppns { (p : ℕ) → ppn_at row.new.items p ≡ ppn_at row.old.items p }
    ensures others { (p : ℕ) → p ≢ place
        → frame_at row.new.items (Some p) ≡ frame_at row.old.items (Some p) }
    ensures words { OnOk result ((i : ℕ) → word_of (frame_at row.new.items (Some place)) i
        ≡ (if i == index then word_to_store word count
        else word_of (frame_at row.old.items (Some place)) i)) }
    ensures empty { IfOk result (λ empty. IsTrue empty
        ↔ ((i : ℕ) → word_of (frame_at row.new.items (Some place)) i ≡ None)) }
    ensures err { OnErr result ((i : ℕ) → word_of (frame_at row.new.items (Some place)) i
        ≡ word_of (frame_at row.old.items (Some place)) i) }
{
    let frame = &mut row[place].frame;
    frame.put(index, word, count)?;
    Ok(frame.is_empty())
}

/// The least PPN from `start` on and below `end`, and its place.
fn first_place(places: &BTreeMap<u64, usize>, start: u64, end: u64) -> Option<(u64, usize)>
    requires { start ≤ end }
    ensures from { IfSome result (λ first. start ≤ first.0) }
    ensures below { IfSome result (λ first. first.0 < end) }
    ensures present { IfSome result (λ first. get nat_cmp places.now first.0 ≡ Some first.1) }
    ensures least { IfSome result (λ first. (ppn : ℕ) → start ≤ ppn → ppn < first.0
        → get nat_cmp places.now ppn ≡ None) }
    ensures none { result ≡ None → (ppn : ℕ) → start ≤ ppn → ppn < end
        → get nat_cmp places.now ppn ≡ None }
{
    match places.range(start..end).next() {
        Some((ppn, place)) => Some((*ppn, *place)),
        None => None,
    }
}

/// Gives a PPN that has a place another one.
fn move_to(places: &mut BTreeMap<u64, usize>, ppn: u64, place: usize)
    requires { IsSome (get nat_cmp places.old ppn) }
    ensures { (k : ℕ) → get nat_cmp places.new k
        ≡ (if k == ppn then Some place else get nat_cmp places.old k) }
{
    if let Some(at) = places.get_mut(&ppn) {
        *at = place;
    }
}

impl FrameTable {
    ghost use Rattle.watch_tables.specs.FrameTables.{frame_count, frame_of, in_frames};

    /// No frames.
    pub(crate) fn new(alloc: Global) -> FrameTable
        ensures { (ppn : ℕ) → frame_of result ppn ≡ None }
    {
        FrameTable {
            places: BTreeMap::new(alloc),
            row: Vec::new(alloc),
            hints: Hints::new(alloc),
        }
    }

    /// The place, if the frame of a PPN stands there.
    #[inline(always)]
    fn place_if_of(&self, ppn: u64, place: usize) -> Option<usize>
        ensures { IfSome result (λ place. get nat_cmp self.now.places ppn ≡ Some place) }
    {
        if place < self.row.len() && self.row[place].ppn == ppn {
            return Some(place);
        }
        None
    }

    /// The place of a PPN, if it is hinted first.
    #[inline(always)]
    fn hinted_place(&self, ppn: u64) -> Option<usize>
        ensures { IfSome result (λ place. get nat_cmp self.now.places ppn ≡ Some place) }
    {
        self.place_if_of(ppn, self.hints.get(ppn) as usize)
    }

    /// The place of a PPN that is not hinted first: where it is hinted second, or else by the map.
    #[cold]
    #[inline(never)]
    fn mapped_place(&self, ppn: u64) -> Option<usize>
        ensures { result ≡ get nat_cmp self.now.places ppn }
    {
        if self.hints.get(ppn) == NO_PLACE {
            return None;
        }
        if let Some(place) = self.place_if_of(ppn, self.hints.second(ppn) as usize) {
            return Some(place);
        }
        match self.places.get(&ppn) {
            Some(place) => Some(*place),
            None => None,
        }
    }

    /// The place of a PPN: where it is hinted, or else where the map has it.
    #[inline(always)]
    fn place_of(&self, ppn: u64) -> Option<usize>
        ensures { result ≡ get nat_cmp self.now.places ppn }
    {
        match self.hinted_place(ppn) {
            Some(place) => Some(place),
            None => self.mapped_place(ppn),
        }
    }

    /// The frame of a PPN.
    #[inline(always)]
    pub(crate) fn find(&self, ppn: u64) -> Option<&Frame>
        ensures some { IfSome result (λ frame. frame_of self.now ppn ≡ Some frame.now) }
        ensures none { result ≡ None → frame_of self.now ppn ≡ None }
    {
        match self.place_of(ppn) {
            Some(place) => Some(&self.row[place].frame),
            None => None,
        }
    }

    /// The word at an index of the frame of a PPN that is not hinted first.
    #[cold]
    #[inline(never)]
    fn mapped_value(&self, ppn: u64, index: u16) -> u64
        requires { index < TABLE_LENGTH }
        ensures { result ≡ unwrap_or (value_of (word_of (frame_of self.now ppn) index)) 0 }
    {
        match self.mapped_place(ppn) {
            Some(place) => self.row[place].frame.value(index),
            None => 0,
        }
    }

    /// The word at an index of the frame of a PPN.
    #[inline(always)]
    pub(crate) fn value(&self, ppn: u64, index: u16) -> u64
        requires { index < TABLE_LENGTH }
        ensures { result ≡ unwrap_or (value_of (word_of (frame_of self.now ppn) index)) 0 }
    {
        match self.hinted_place(ppn) {
            Some(place) => self.row[place].frame.value(index),
            None => self.mapped_value(ppn, index),
        }
    }

    /// The least PPN from `start` on and below `end`, and its place. One PPN alone is looked up.
    fn first_between(&self, start: u64, end: u64) -> Option<(u64, usize)>
        requires { start ≤ end }
        ensures from { IfSome result (λ first. start ≤ first.0) }
        ensures below { IfSome result (λ first. first.0 < end) }
        ensures present { IfSome result (λ first. get nat_cmp self.now.places first.0 ≡ Some first.1) }
        ensures least { IfSome result (λ first. (ppn : ℕ) → start ≤ ppn → ppn < first.0
            → get nat_cmp self.now.places ppn ≡ None) }
        ensures none { result ≡ None → (ppn : ℕ) → start ≤ ppn → ppn < end
            → get nat_cmp self.now.places ppn ≡ None }
    {
        if end - start != 1 {
            return first_place(&self.places, start, end);
        }
        match self.place_of(start) {
            Some(place) => Some((start, place)),
            None => None,
        }
    }

    /// The frame of the least PPN from `start` on and below `end`.
    pub(crate) fn first_from(&self, start: u64, end: u64) -> Option<(u64, &Frame)>
        requires { start ≤ end }
        ensures from { IfSome result (λ first. start ≤ first.0) }
        ensures below { IfSome result (λ first. first.0 < end) }
        ensures present { IfSome result (λ first. frame_of self.now first.0 ≡ Some first.1.now) }
        ensures least { IfSome result (λ first. (ppn : ℕ) → start ≤ ppn → ppn < first.0
            → frame_of self.now ppn ≡ None) }
        ensures none { result ≡ None → (ppn : ℕ) → start ≤ ppn → ppn < end
            → frame_of self.now ppn ≡ None }
    {
        match self.first_between(start, end) {
            Some((ppn, place)) => Some((ppn, &self.row[place].frame)),
            None => None,
        }
    }

    /// Adds the frame of a PPN that has none. At `Err` nothing changed.
    fn add(&mut self, ppn: u64, frame: Frame) -> Result<(), AllocError>
        requires { frame_of self.old ppn ≡ None }
        ensures ok { OnOk result ((k : ℕ) → frame_of self.new k
            ≡ (if k == ppn then Some frame else frame_of self.old k)) }
        ensures err { OnErr result ((k : ℕ) → frame_of self.new k ≡ frame_of self.old k) }
    {
        let place = self.row.len();
        self.row.push(PlacedFrame { ppn, frame })?;
        if self.places.insert(ppn, place).is_err() {
            let _ = self.row.pop();
            return Err(AllocError);
        }
        self.hints.set(ppn, place);
        self.hints.spread(self.row.as_slice());
        Ok(())
    }

    /// Takes the frame of a PPN out, if it has one. The last frame of the row comes to its place.
    fn take_out(&mut self, ppn: u64) -> Option<Frame>
        ensures value { result ≡ frame_of self.old ppn }
        ensures without { (k : ℕ) → frame_of self.new k
            ≡ (if k == ppn then None else frame_of self.old k) }
        ensures fewer { IsSome result → frame_count self.new + 1 ≡ frame_count self.old }
    {
        let Some(place) = self.places.remove(&ppn) else {
            return None;
        };
        let gone = self.row.swap_remove(place);
        if place == self.row.len() {
            return Some(gone.frame);
        }
        let moved = self.row[place].ppn;
        move_to(&mut self.places, moved, place);
        self.hints.set(moved, place);
        Some(gone.frame)
    }

    /// Counts a frame that has gone, and gives room back where three quarters of it are free.
    fn shrink(&mut self)
        ensures frames { (k : ℕ) → frame_of self.new k ≡ frame_of self.old k }
        ensures count { frame_count self.new ≡ frame_count self.old }
    {
        self.hints.count_gone(self.row.as_slice());
        let (count, room) = (self.row.len(), self.row.capacity());
        if count >= room / 4 {
            return;
        }
        self.row.shrink_to(2 * count);
        if self.row.capacity() >= room {
            return;
        }
        self.hints.shrink(self.row.as_slice());
    }

    /// Takes the frame of a PPN out, if it has one.
    pub(crate) fn remove(&mut self, ppn: u64) -> Option<Frame>
        ensures value { result ≡ frame_of self.old ppn }
        ensures without { (k : ℕ) → frame_of self.new k
            ≡ (if k == ppn then None else frame_of self.old k) }
        ensures fewer { IsSome result → frame_count self.new + 1 ≡ frame_count self.old }
    {
        let gone = self.take_out(ppn);
        self.shrink();
        gone
    }

    /// Puts a word down under its number, in the frame at a place. The frame goes with its last word. At
    /// `Err` nothing changed.
    fn put_at(&mut self, place: usize, number: u64, word: u64, count: u64) -> Result<(), AllocError>
        requires { get nat_cmp self.old.places (number / TABLE_LENGTH) ≡ Some place }
        ensures ok { OnOk result ((n : ℕ) → in_frames self.new n
            ≡ (if n == number then word_to_store word count else in_frames self.old n)) }
        ensures err { OnErr result ((n : ℕ) → in_frames self.new n ≡ in_frames self.old n) }
        ensures goes { OnOk result (((i : ℕ) → word_of (frame_of self.new (number / TABLE_LENGTH)) i
            ≡ None) → frame_of self.new (number / TABLE_LENGTH) ≡ None) }
    {
        let length = u64::from(TABLE_LENGTH);
        let ppn = number / length;
        if put_in(&mut self.row, place, (number % length) as u16, word, count)? {
            let _frame = self.remove(ppn);
            return Ok(());
        }
        self.hints.set(ppn, place);
        Ok(())
    }

    /// Puts a word down under its number, with the number of records so far; 0 is not kept, and a frame
    /// goes with its last word. At `Err` nothing changed.
    pub(crate) fn put(
        &mut self,
        alloc: Global,
        number: u64,
        word: u64,
        count: u64,
    ) -> Result<(), AllocError>
        ensures ok { OnOk result ((n : ℕ) → in_frames self.new n
            ≡ (if n == number then word_to_store word count else in_frames self.old n)) }
        ensures err { OnErr result ((n : ℕ) → in_frames self.new n ≡ in_frames self.old n) }
    {
        let length = u64::from(TABLE_LENGTH);
        let ppn = number / length;
        if let Some(place) = self.place_of(ppn) {
            return self.put_at(place, number, word, count);
        }
        if word == 0 {
            return Ok(());
        }
        let mut frame = Frame::new(alloc)?;
        frame.put((number % length) as u16, word, count)?;
        self.add(ppn, frame)
    }
}
