//! A process of a kernel whose trace is made.

use crate::random::Random;
use pte::TABLE_LENGTH;
use std::alloc::{AllocError, Global};

/// How often an index that has no page is looked for.
const TRIES: u8 = 16;

/// A process: its three tables, its ASID, and the pages that it has in the lowest table.
#[derive(Drop)]
pub struct Process {
    /// The PPNs of its tables, from the root down.
    pub tables: [u64; 3],
    /// Its ASID.
    pub asid: u64,
    /// The frame of the page at each index of its lowest table, 0 where there is none.
    pub frames: Vec<u64>,
    /// The indices that have a page.
    pub mapped: Vec<u64>,
    /// The harts that are in it.
    pub harts: u64,
    /// The harts that have been in it.
    pub seen: u64,
}

impl Process {
    /// A process with these tables and no page, in which no hart has been.
    pub fn new(alloc: Global, tables: [u64; 3], asid: u64) -> Result<Process, AllocError> {
        let mut frames = Vec::new(alloc);
        for _ in 0..TABLE_LENGTH {
            frames.push(0)?;
        }
        Ok(Process {
            tables,
            asid,
            frames,
            mapped: Vec::new(alloc),
            harts: 0,
            seen: 0,
        })
    }

    /// An index that has no page, if one is found soon.
    pub fn free_index(&self, random: &mut Random) -> Option<u64> {
        for _ in 0..TRIES {
            let index = random.below(u64::from(TABLE_LENGTH));
            if self.frames.get(index as usize) == Some(&0) {
                return Some(index);
            }
        }
        None
    }

    /// With a page at an index.
    pub fn map(&mut self, index: u64, frame: u64) -> Result<(), AllocError> {
        if let Some(place) = self.frames.get_mut(index as usize) {
            *place = frame;
        }
        self.mapped.push(index)?;
        Ok(())
    }

    /// Without one of its pages: the index, and the frame that it had.
    pub fn unmap(&mut self, random: &mut Random) -> Option<(u64, u64)> {
        let count = self.mapped.len();
        let place = random.below(count as u64) as usize;
        if place >= count {
            return None;
        }
        let index = self.mapped.swap_remove(place);
        let slot = self.frames.get_mut(index as usize)?;
        let frame = *slot;
        *slot = 0;
        Some((index, frame))
    }
}
