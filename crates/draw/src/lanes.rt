//! Lanes: places side by side, for what is open at the same time.

use std::alloc::{AllocError, Global};

/// A lane: what is open in it, or since which row it is free.
#[derive(Clone, Copy)]
enum Lane<T> {
    Open(T),
    Free(u32),
}

/// What is open, each in a lane of its own, from 0 on. A lane that is free is taken again.
#[derive(Drop)]
pub struct Lanes<T> {
    lanes: Vec<Lane<T>>,
}

impl<T: Copy> Lanes<T> {
    /// No lane.
    pub fn new(alloc: Global) -> Lanes<T> {
        Lanes {
            lanes: Vec::new(alloc),
        }
    }

    /// How many lanes were ever in use at once.
    pub fn count(&self) -> u16 {
        u16::try_from(self.lanes.len()).unwrap_or(u16::MAX)
    }

    /// What is open in a lane.
    pub fn get(&self, lane: u16) -> Option<T> {
        match self.lanes.get(usize::from(lane)) {
            Some(Lane::Open(item)) => Some(*item),
            _ => None,
        }
    }

    /// Puts something into the lowest lane that is free since a row.
    pub fn open(&mut self, item: T, since: u32) -> Result<(), AllocError> {
        for lane in self.lanes.as_mut_slice() {
            if let Lane::Free(row) = *lane {
                if row <= since {
                    *lane = Lane::Open(item);
                    return Ok(());
                }
            }
        }
        Ok(self.lanes.push(Lane::Open(item))?)
    }

    /// Puts something else into a lane.
    pub fn set(&mut self, lane: u16, item: T) {
        if let Some(slot) = self.lanes.get_mut(usize::from(lane)) {
            *slot = Lane::Open(item);
        }
    }

    /// Frees a lane, from the end of a row on.
    pub fn close(&mut self, lane: u16, row: u32) {
        if let Some(slot) = self.lanes.get_mut(usize::from(lane)) {
            *slot = Lane::Free(row);
        }
    }
}
