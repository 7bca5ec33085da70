//! What a watch reads at a record.

ghost use Rattle.std.specs.Prelude.{◌≤◌, length};

use crate::left_spaces::LeftSpaces;
use crate::past_fences::PastFences;
use crate::roots::Roots;
use crate::tables::Tables;
use pte::Scheme;
use watch::Space;

/// What a watch reads to tell what harts can fill and what they may hold.
#[derive(Drop)]
pub(crate) struct View<'a, T: Tables> {
    pub(crate) tables: &'a T,
    pub(crate) scheme: Scheme,
    /// What is in the satp of each hart.
    pub(crate) satps: &'a [Option<Space>],
    pub(crate) roots: &'a Roots,
    pub(crate) left: &'a LeftSpaces,
    pub(crate) drops: &'a PastFences,
    /// How many records there have been.
    pub(crate) count: u64,
    ghost limit: { length satps.now ≤ 256 },
}
