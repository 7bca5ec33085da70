//! The latch of a live run, for which its threads wait.

ghost use Rattle.std.specs.Prelude.{◌≡◌};

use std::sync::atomic::{AtomicBool, AtomicU32, Ordering};

/// Counts the scripts of a run that have ended, and records whether the run was abandoned. It is
/// open once all scripts have ended, or the run was abandoned. The threads of a run share one.
#[derive(Drop)]
pub(crate) struct Latch {
    pub(crate) harts: u8,
    ended: AtomicU32,
    abandoned: AtomicBool,
}

impl Latch {
    /// The latch of a run of this many harts, of which no script has ended.
    pub(crate) fn new(harts: u8) -> Latch
        ensures { result.harts ≡ harts }
    {
        Latch {
            harts,
            ended: AtomicU32::new(0),
            abandoned: AtomicBool::new(false),
        }
    }

    /// One more script has ended.
    pub(crate) fn count_down(&self) {
        self.ended.fetch_add(1, Ordering::SeqCst);
    }

    /// The run has no report: each script is to end before its next step.
    pub(crate) fn abandon(&self) {
        self.abandoned.store(true, Ordering::SeqCst);
    }

    pub(crate) fn is_abandoned(&self) -> bool {
        self.abandoned.load(Ordering::SeqCst)
    }

    /// Whether no hart has anything to wait for.
    pub(crate) fn is_open(&self) -> bool {
        self.is_abandoned() || self.ended.load(Ordering::SeqCst) >= u32::from(self.harts)
    }
}
