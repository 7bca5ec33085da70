//! The roots of address spaces, and what their tables have now.

ghost use Rattle.std.specs.Prelude.{ℕ, ◌≡◌, ◌==◌, ◌<◌, ◌≤◌, [], IfOk, IsTrue, None, OnErr, OnOk, Some, length};
ghost use Rattle.std.specs.List.{list_all, list_any};
ghost use Rattle.std.specs.List.Sorted.{IsNonDecreasing, IsPartitionPoint};
ghost use Rattle.watch.specs.Trace.{has_root as space_has_root, is_among};
ghost use Rattle.watch.specs.Computed.{is_mapped};
ghost use Rattle.watch_engine.specs.Held.{is_current_by, AreEntered, IsWith, is_root_in, stays, without_frames};

use crate::tables::Tables;
use pte::Scheme;
use std::alloc::{AllocError, Global};
use std::marker::Model;
use tlb::Entry;
use watch::{Frames, Space};

// One of the frames.
fn is_among(frames: Frames, ppn: u64) -> bool
    ensures { result ≡ is_among frames ppn }
{
    ppn >= frames.first && ppn - frames.first < frames.count
}

// The space has the root.
pub(crate) fn is_root_of(space: &Option<Space>, frame: u64) -> bool
    ensures { result ≡ space_has_root space.now frame }
{
    match space {
        None => false,
        Some(space) => space.root == frame,
    }
}

// Some satp has the root.
fn is_root_in(satps: &[Option<Space>], frame: u64) -> bool
    ensures { result ≡ is_root_in satps.now frame }
{
    for space in satps {
        if is_root_of(space, frame) {
            return true;
        }
    }
    false
}

fn stays(root: u64, frames: Frames, satps: &[Option<Space>]) -> bool
    ensures { result ≡ stays frames satps.now root }
{
    !is_among(frames, root) || is_root_in(satps, root)
}

// How many of them are below a PPN.
fn count_below(ppns: &[u64], ppn: u64) -> usize
    requires { IsNonDecreasing ppns.now }
    ensures within { result ≤ length ppns.now }
    ensures place { IsPartitionPoint (λ r. r < ppn) (λ r. ppn ≤ r) ppns.now result }
{
    ppns.partition_point(|other| *other < ppn)
}

// The place is where the PPN is or would be.
fn is_place(ppns: &[u64], place: usize, ppn: u64) -> bool
    requires { IsNonDecreasing ppns.now }
    ensures { IsTrue result → IsPartitionPoint (λ r. r < ppn) (λ r. ppn ≤ r) ppns.now place }
{
    place <= ppns.len()
        && (place == 0 || ppns[place - 1] < ppn)
        && (place == ppns.len() || ppn <= ppns[place])
}

// How many of them are below a PPN: quicker, if as many as the place or one more.
fn count_below_near(ppns: &[u64], place: usize, ppn: u64) -> usize
    requires { IsNonDecreasing ppns.now }
    ensures { IsPartitionPoint (λ r. r < ppn) (λ r. ppn ≤ r) ppns.now result }
{
    if is_place(ppns, place, ppn) {
        return place;
    }
    if place < ppns.len() && is_place(ppns, place + 1, ppn) {
        return place + 1;
    }
    count_below(ppns, ppn)
}

// The PPN is at the place where it would be.
fn is_at(ppns: &[u64], place: usize, ppn: u64) -> bool
    requires order { IsNonDecreasing ppns.now }
    requires place { IsPartitionPoint (λ r. r < ppn) (λ r. ppn ≤ r) ppns.now place }
    ensures { result ≡ list_any (λ r. r == ppn) ppns.now }
{
    place < ppns.len() && ppns[place] == ppn
}

// All of them stay, where those before a place are below the frames and the others are not.
fn keeps_from(ppns: &[u64], mut place: usize, frames: Frames, satps: &[Option<Space>]) -> bool
    requires order { IsNonDecreasing ppns.now }
    requires place { IsPartitionPoint (λ r. r < frames.first) (λ r. frames.first ≤ r)
        ppns.now place }
    ensures { result ≡ list_all (stays frames satps.now) ppns.now }
{
    while place < ppns.len() {
        let root = ppns[place];
        if !is_among(frames, root) {
            return true;
        }
        if !is_root_in(satps, root) {
            return false;
        }
        place += 1;
    }
    true
}

/// The PPNs of the roots of address spaces, in ascending order.
#[derive(Drop)]
pub(crate) struct Roots {
    ppns: Vec<u64>,
}

impl Model for Roots {
    ghost use Rattle.std.specs.Prelude.{List, ℕ};
    ghost use Rattle.std.specs.List.Sorted.{IsNonDecreasing};

    ghost Value = { List ℕ };

    ghost view = { λ r. r.ppns.items };

    ghost invariant = { λ r. IsNonDecreasing r.ppns.items };
}

impl Roots {
    /// No root.
    pub(crate) fn new(alloc: Global) -> Roots
        ensures { result ≡ [] }
    {
        Roots {
            ppns: Vec::new(alloc),
        }
    }

    /// One after the other.
    pub(crate) fn as_slice(&self) -> &[u64]
        ensures { result.now ≡ self.now }
    {
        self.ppns.as_slice()
    }

    /// The frame is one of them.
    pub(crate) fn has(&self, frame: u64) -> bool
        ensures { result ≡ list_any (λ r. r == frame) self.now }
    {
        let place = count_below(self.ppns.as_slice(), frame);
        is_at(self.ppns.as_slice(), place, frame)
    }

    /// The frame is one of them, and its place among them: quicker, if that is this or the next one.
    pub(crate) fn has_near(&self, place: usize, frame: u64) -> (bool, usize)
        ensures { result.0 ≡ list_any (λ r. r == frame) self.now }
    {
        let place = count_below_near(self.ppns.as_slice(), place, frame);
        (is_at(self.ppns.as_slice(), place, frame), place)
    }

    /// With the root of a space that a hart goes to; the root, if it is new. At `Err` nothing
    /// changed.
    pub(crate) fn add(&mut self, space: Option<Space>) -> Result<Option<u64>, AllocError>
        ensures ok { OnOk result (AreEntered space self.old self.new) }
        ensures same { IfOk result (λ new. new ≡ None → self.new ≡ self.old) }
        ensures more { IfOk result (λ new. (root : ℕ) → new ≡ Some root
            → IsWith root self.old self.new) }
        ensures err { OnErr result (self.new ≡ self.old) }
    {
        let Some(space) = space else {
            return Ok(None);
        };
        let place = count_below(self.ppns.as_slice(), space.root);
        if is_at(self.ppns.as_slice(), place, space.root) {
            return Ok(None);
        }
        self.ppns.insert(place, space.root)?;
        Ok(Some(space.root))
    }

    /// Whether all stay where frames are given out.
    pub(crate) fn keeps_all(&self, frames: Frames, satps: &[Option<Space>]) -> bool
        ensures { result ≡ list_all (stays frames satps.now) self.now }
    {
        let place = count_below(self.ppns.as_slice(), frames.first);
        keeps_from(self.ppns.as_slice(), place, frames, satps)
    }

    /// Without frames that are given out, but for those in a satp.
    pub(crate) fn retain(&mut self, frames: Frames, satps: &[Option<Space>])
        ensures { self.new ≡ without_frames frames satps.now self.old }
    {
        self.ppns.retain(|root| stays(*root, frames, satps));
    }
}

// The tables of the root have the entry.
pub(crate) fn is_mapped<T: Tables>(tables: &T, scheme: Scheme, root: u64, entry: &Entry) -> bool
    ensures { result ≡ is_mapped scheme (T.words tables.now)
        (record { root = root; entry = entry.now }) }
{
    tables.is_mapped(scheme, root, entry)
}

// The tables of the root have the entry or, where it is global, those of one of the roots.
pub(crate) fn is_current<T: Tables>(
    tables: &T,
    scheme: Scheme,
    roots: &[u64],
    root: u64,
    entry: &Entry,
) -> bool
    ensures { result ≡ is_current_by (is_mapped scheme (T.words tables.now)) roots.now
        (record { root = root; entry = entry.now }) }
{
    if entry.global {
        tables.is_mapped_in_any(scheme, roots, entry)
    } else {
        is_mapped(tables, scheme, root, entry)
    }
}
