//! The limits of a scenario.

use spaces::MAX_FRAMES;

/// The frames that a file may list: as many as table memory may have.
pub const MOST_FRAMES: usize = MAX_FRAMES as usize;

/// The steps that a file may have.
pub const MOST_STEPS: usize = 65_536;
