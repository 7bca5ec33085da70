//! For which place each frame is in use.

ghost use Rattle.std.specs.Prelude.{◌≡◌, ◌<◌, ◌≤◌, ℕ, IfOk, length, slice_get, slice_set, replicate, Some, None};
ghost use Rattle.spaces.specs.declared.configuration.TheConstants.{MAX_FRAMES};
ghost use Rattle.spaces.specs.Held.{held_at};
ghost use Rattle.spaces.specs.Holders.{given_back, is_held_for};
ghost use Rattle.spaces.specs.UnusedFrames.{AreMarked, is_unused_in, IsLowest, marked_in};
ghost use Rattle.spaces.specs.declared.places.Place.TheVariants as place;

use crate::places::Place;
use crate::unused_frames::UnusedFrames;
use std::alloc::{AllocError, Global};
use std::marker::Model;

/// For which place each of up to 512 frames is in use as a spare one, if for any. Beside it stands
/// which frames are unused, so that a new table searches none of those in use.
#[derive(Drop)]
pub(crate) struct FrameUse {
    holders: Vec<Option<Place>>,
    unused: UnusedFrames,
}

impl Model for FrameUse {
    ghost use Rattle.std.specs.Prelude.{List, Option};
    ghost use Rattle.spaces.specs.UnusedFrames.{IsFrameUse, marked_in};
    ghost use Rattle.spaces.specs.declared.places.Place.{Place};

    ghost Value = { List (Option Place) };

    ghost view = { λ f. f.holders.items };

    ghost invariant = { λ f. IsFrameUse (marked_in f.unused) f.holders.items };
}

/// For which place each frame is in use, where none is.
fn no_holders(alloc: Global, count: u64) -> Result<Vec<Option<Place>>, AllocError>
    requires { count ≤ MAX_FRAMES }
    ensures { IfOk result (λ holders. holders.items ≡ replicate count None) }
{
    let mut holders = Vec::with_capacity(alloc, count as usize)?;
    for _ in 0..count {
        holders.push(None)?;
    }
    Ok(holders)
}

/// Whether a frame is in use for a space.
pub(crate) fn is_held_for(holder: Option<Place>, space: u8) -> bool
    ensures { result ≡ is_held_for holder (place.Space space) }
{
    match holder {
        Some(Place::Space(other)) => other == space,
        Some(Place::Kernel) => false,
        None => false,
    }
}

/// Leaves the frames unused that are in use for a space.
fn free_frames(holders: &mut [Option<Place>], unused: &mut UnusedFrames, space: u8)
    requires few { length holders.old ≤ MAX_FRAMES }
    requires marks { AreMarked (marked_in unused.old) holders.old }
    ensures length { length holders.new ≡ length holders.old }
    ensures holders { (n : ℕ)
        → held_at (slice_get holders.new n) ≡ given_back (held_at (slice_get holders.old n)) space }
    ensures marks { AreMarked (marked_in unused.new) holders.new }
{
    for at in 0..holders.len() {
        if is_held_for(holders[at], space) {
            holders[at] = None;
            unused.insert(at);
        }
    }
}

impl FrameUse {
    /// `count` frames, each of them unused.
    pub(crate) fn new(alloc: Global, count: u64) -> Result<FrameUse, AllocError>
        requires { count ≤ MAX_FRAMES }
        ensures { IfOk result (λ frames. frames ≡ replicate count None) }
    {
        let holders = no_holders(alloc, count)?;
        let unused = UnusedFrames::new();
        Ok(FrameUse { holders, unused })
    }

    /// The holders, frame by frame.
    pub(crate) fn holders(&self) -> &[Option<Place>]
        ensures { result.now ≡ self.now }
    {
        self.holders.as_slice()
    }

    /// The lowest unused frame from one on and below another.
    pub(crate) fn lowest(&self, from: usize, to: usize) -> Option<usize>
        requires { to ≤ length self.now }
        ensures { IsLowest (is_unused_in self.now) from to result }
    {
        self.unused.lowest(from, to)
    }

    /// The frame is in use for a place from now on.
    pub(crate) fn take(&mut self, frame: usize, place: Place)
        requires { frame < length self.old }
        ensures { self.new ≡ slice_set self.old frame (Some place) }
    {
        self.holders[frame] = Some(place);
        self.unused.remove(frame);
    }

    /// The frames of a space are unused from now on.
    pub(crate) fn give_back(&mut self, space: u8)
        ensures length { length self.new ≡ length self.old }
        ensures holders { (n : ℕ)
            → held_at (slice_get self.new n) ≡ given_back (held_at (slice_get self.old n)) space }
    {
        free_frames(&mut self.holders, &mut self.unused, space);
    }
}
