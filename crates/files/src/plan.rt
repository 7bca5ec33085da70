//! A scenario that was read and checked.
ghost use Rattle.std.specs.Prelude.{◌<◌, ◌≤◌, ◌^◌, All, length};
ghost use Rattle.pte.specs.declared.entry.TheConstants.{PPN_BITS};
ghost use Rattle.spaces.specs.Limits.{MeetsLimits};
ghost use Rattle.spaces.specs.declared.configuration.TheConstants.{MAX_FRAMES, MAX_LIVE_FRAMES};

use crate::frames::TableFrames;
use history::{Event, LiveStep};
use pte::Scheme;
use spaces::Config;
use steps::WalkStep;

/// A scenario of `run`, read and checked.
#[derive(Drop)]
pub struct RunScenario {
    pub config: Config,
    pub events: Vec<Event>,
    ghost within: { MeetsLimits MAX_FRAMES config },
}

/// A scenario of `live`, read and checked.
#[derive(Drop)]
pub struct LiveScenario {
    pub config: Config,
    pub setup: Vec<(u8, LiveStep)>,
    pub scripts: Vec<Vec<LiveStep>>,
    pub turns: u32,
    ghost within: { MeetsLimits MAX_LIVE_FRAMES config },
    ghost harts: { All (λ step. step.0 < config.harts) setup.items },
    ghost few: { length scripts.items ≤ config.harts },
}

/// A scenario of `walk`, read and checked.
#[derive(Debug, Drop)]
pub struct WalkScenario {
    pub scheme: Scheme,
    pub root: u64,
    pub tables: TableFrames,
    pub steps: Vec<WalkStep>,
    ghost in_range: { root < 2 ^ PPN_BITS },
}
