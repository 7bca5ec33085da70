//! Second owners: mappings of frames that a TLB can still reach by a stale mapping.

use crate::record::SecondOwner;
use crate::recorder::{Held, Track};
use pte::{PAGE_BYTES, Page};
use std::alloc::AllocError;
use std::ops::Range;

/// A mapping that a step stored: for an ASID, or for all.
#[derive(Clone, Copy)]
pub struct Mapping {
    pub asid: Option<u16>,
    pub page: Page,
    pub ppn: u64,
}

/// The frames of a page, from a PPN on.
fn frames_of(page: &Page, ppn: u64) -> Range<u64> {
    ppn..ppn.saturating_add(page.size().bytes() / PAGE_BYTES)
}

impl Mapping {
    /// Whether it gives frames that a stale mapping reaches to something else.
    fn is_second_owner(&self, held: &Held) -> bool {
        let own = frames_of(&self.page, self.ppn);
        let reached = frames_of(&held.page, held.ppn());
        own.start < reached.end && reached.start < own.end && !self.restores(held)
    }

    /// Whether it maps a part of the page of a stale mapping as that has it.
    fn restores(&self, held: &Held) -> bool {
        let is_place = match self.asid {
            Some(asid) => !held.entry.global && held.entry.asid == asid,
            None => held.entry.global,
        };
        is_place && held.page.contains(self.page.base()) && held.ppn_of(&self.page) == self.ppn
    }
}

/// The lane of the first stale mapping of a hart of which a mapping is a second owner.
fn first_lane(track: &Track, mapping: &Mapping) -> Option<u16> {
    for lane in 0..track.stale.count() {
        if let Some(held) = track.stale.get(lane) {
            if mapping.is_second_owner(&held) {
                return Some(lane);
            }
        }
    }
    None
}

/// Adds, of each hart, the first stale mapping of which a mapping that was stored in a row is a second
/// owner: one for each hart, so that a picture grows with its steps.
pub fn find_owners(
    tracks: &[Track],
    row: u32,
    mapping: &Mapping,
    owners: &mut Vec<SecondOwner>,
) -> Result<(), AllocError> {
    let mut hart: u8 = 0;
    for track in tracks {
        if let Some(lane) = first_lane(track, mapping) {
            owners.push(SecondOwner { row, hart, lane })?;
        }
        hart = hart.saturating_add(1);
    }
    Ok(())
}
