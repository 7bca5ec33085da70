//! The steps of `walk`.
ghost use Rattle.std.specs.Prelude.{◌≡◌};
ghost use Rattle.steps.specs.Step.{walk_step_of};

use crate::parts::Parts;
use crate::table::WALK_FIELDS;
use pte::{Access, Ctx, Scheme};

/// One translation from the root.
#[derive(Clone, Copy, Debug, PartialEq, Eq)]
pub struct WalkStep {
    /// The mode, SUM and MXR.
    pub ctx: Ctx,
    /// What the access does.
    pub access: Access,
    /// The virtual address, canonical or not.
    pub va: u64,
}

/// The step of `walk` that a text writes, if it writes one.
pub fn walk_step(text: &str) -> Option<WalkStep>
    ensures { result ≡ walk_step_of text.now }
{
    let mut parts = Parts::nothing();
    let read = parts.read_each(Scheme::Sv39, 0, &WALK_FIELDS, text.as_bytes());
    read.ok()?;
    Some(WalkStep {
        ctx: parts.ctx,
        access: parts.access,
        va: parts.va,
    })
}
