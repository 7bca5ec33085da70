//! Spaces that harts have left, and fences since.

ghost use Rattle.std.specs.Prelude.{◌≡◌, ◌++◌, ◌∷◌, [], OnErr, OnOk, drop};
ghost use Rattle.std.specs.List.{list_any};
ghost use Rattle.watch_engine.specs.Left.{ended, fences_after, is_taken_since, left_after_fence, takes};
ghost use Rattle.watch_engine.specs.declared.left.PastFence.TheVariants as past;

use crate::fence::{is_covered, is_fenced, names};
use crate::left_spaces::LeftSpaces;
use crate::open::OpenFence;
use crate::past_fences::PastFences;
use pte::Scheme;
use std::alloc::AllocError;
use tlb::Entry;
use watch::{RemoteFence, Space};

/// An address space that a hart has left.
#[derive(Clone, Copy, PartialEq, Eq, Debug)]
pub(crate) struct Left {
    pub(crate) hart: u8,
    pub(crate) space: Space,
    /// The number of records after which it was in the hart's satp last.
    pub(crate) left: u64,
    /// How many fences there had been by then.
    pub(crate) fences: u64,
}

/// A fence that has been executed.
#[derive(Clone, Copy, PartialEq, Eq, Debug)]
pub(crate) enum PastFence {
    /// By a hart, of its own.
    Own {
        hart: u8,
        rs1: Option<u64>,
        rs2: Option<u64>,
    },
    /// By harts that were asked for it, and how many records there were up to its begin.
    Remote {
        fence: RemoteFence,
        begun: u64,
    },
}

impl PastFence {
    /// Whether it has dropped the entry from the hart since the hart left the space.
    pub(crate) fn takes(&self, scheme: Scheme, left: &Left, entry: &Entry) -> bool
        ensures { result ≡ takes scheme left.now entry.now self.now }
    {
        match self {
            PastFence::Own { hart, rs1, rs2 } => {
                *hart == left.hart && is_fenced(scheme, *rs1, *rs2, entry)
            }
            PastFence::Remote { fence, begun } => {
                names(fence, left.hart) && is_covered(scheme, fence, entry) && left.left < *begun
            }
        }
    }
}

/// Whether a fence since the hart left the space has dropped the entry.
pub(crate) fn is_taken_since(
    scheme: Scheme,
    drops: &[PastFence],
    left: &Left,
    entry: &Entry,
) -> bool
    ensures { result ≡ is_taken_since scheme drops.now left.now entry.now }
{
    let mut at = left.fences as usize;
    while at < drops.len() {
        let fence = drops[at];
        if fence.takes(scheme, left, entry) {
            return true;
        }
        at += 1;
    }
    false
}

/// After a fence of the hart: one of all drops all of what it has left. At `Err` nothing changed.
pub(crate) fn add_fence(
    left: &mut LeftSpaces,
    drops: &mut PastFences,
    hart: u8,
    rs1: Option<u64>,
    rs2: Option<u64>,
) -> Result<(), AllocError>
    ensures left { OnOk result (left.new ≡ left_after_fence hart rs1 rs2 left.old) }
    ensures drops { OnOk result (drops.new.fences.items ≡ fences_after hart rs1 rs2 drops.old.fences.items) }
    ensures err { OnErr result (left.new ≡ left.old) }
    ensures err_drops { OnErr result (drops.new.fences.items ≡ drops.old.fences.items) }
{
    if rs1.is_none() && rs2.is_none() {
        left.drop_of(hart);
        return Ok(());
    }
    drops.push(PastFence::Own { hart, rs1, rs2 }, !left.is_empty())?;
    Ok(())
}

/// After the end of a remote fence. At `Err` nothing changed.
pub(crate) fn add_ended(
    left: &LeftSpaces,
    drops: &mut PastFences,
    fence: &Option<OpenFence>,
) -> Result<(), AllocError>
    ensures ok { OnOk result (drops.new.fences.items ≡ ended fence.now drops.old.fences.items) }
    ensures err { OnErr result (drops.new.fences.items ≡ drops.old.fences.items) }
{
    let Some(open) = fence else {
        return Ok(());
    };
    let remote = PastFence::Remote {
        fence: open.fence,
        begun: open.begun,
    };
    drops.push(remote, !left.is_empty())?;
    Ok(())
}
