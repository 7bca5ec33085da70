//! What is in the satp of each hart.

ghost use Rattle.std.specs.Prelude.{ℕ, ◌≡◌, ◌≤◌, ◌<◌, [], false, get_or, length, set, None, OnOk};
ghost use Rattle.watch.specs.Trace.{has_root};
ghost use Rattle.watch_engine.specs.Satps.{AreAllOf};

use crate::roots::is_root_of;
use std::alloc::{AllocError, Global};
use watch::Space;

/// What is in the satp of a hart.
pub(crate) fn satp_in(satps: &[Option<Space>], hart: u8) -> Option<Space>
    ensures { result ≡ get_or satps.now hart None }
{
    match satps.get(hart as usize) {
        Some(space) => *space,
        None => None,
    }
}

/// Some harts that follow one another.
#[derive(Clone, Copy, PartialEq, Eq, Debug)]
pub(crate) struct Harts {
    pub(crate) first: usize,
    pub(crate) end: usize,
}

// The first hart with the root in its satp, or how many there are.
fn first_of_root(satps: &[Option<Space>], root: u64) -> usize
    ensures within { result ≤ length satps.now }
    ensures before { (k : ℕ) → k < result → has_root (get_or satps.now k None) root ≡ false }
{
    let mut at = 0;
    while at < satps.len() && !is_root_of(&satps[at], root) {
        at += 1;
    }
    at
}

// One more than the last hart with the root in its satp from a first one on, or the first one.
fn end_of_root(satps: &[Option<Space>], root: u64, first: usize) -> usize
    requires { first ≤ length satps.now }
    ensures from { first ≤ result }
    ensures within { result ≤ length satps.now }
    ensures behind { (k : ℕ) → result ≤ k → has_root (get_or satps.now k None) root ≡ false }
{
    let mut end = satps.len();
    while end > first && !is_root_of(&satps[end - 1], root) {
        end -= 1;
    }
    end
}

/// From the first to the last hart with the root in its satp.
pub(crate) fn harts_of_root(satps: &[Option<Space>], root: u64) -> Harts
    ensures { AreAllOf satps.now root result }
{
    let first = first_of_root(satps, root);
    let end = end_of_root(satps, root, first);
    Harts { first, end }
}

/// What is in the satp of each hart, up to the last that has written its own: the others translate
/// nothing.
#[derive(Drop)]
pub(crate) struct Satps {
    spaces: Vec<Option<Space>>,
    ghost limit: { length spaces.items ≤ 256 },
}

impl Satps {
    /// No hart translates.
    pub(crate) fn new(alloc: Global) -> Satps
        ensures { result.spaces.items ≡ [] }
    {
        Satps {
            spaces: Vec::new(alloc),
        }
    }

    /// Hart by hart.
    pub(crate) fn spaces(&self) -> &[Option<Space>]
        ensures value { result.now ≡ self.now.spaces.items }
        ensures limit { length result.now ≤ 256 }
    {
        self.spaces.as_slice()
    }

    /// With a place for a hart. At `Err` some places are there.
    pub(crate) fn add_hart(&mut self, hart: u8) -> Result<(), AllocError>
        ensures same { (h : ℕ) → get_or self.new.spaces.items h None
            ≡ get_or self.old.spaces.items h None }
        ensures ok { OnOk result (hart < length self.new.spaces.items) }
    {
        for _place in self.spaces.len()..hart as usize + 1 {
            self.spaces.push(None)?;
        }
        Ok(())
    }

    /// With what a hart writes, for which there is a place.
    pub(crate) fn write(&mut self, hart: u8, space: Option<Space>)
        requires { hart < length self.old.spaces.items }
        ensures { self.new.spaces.items ≡ set self.old.spaces.items hart space }
    {
        self.spaces[hart as usize] = space;
    }
}
