use harts::*;
use std::sync::atomic::{AtomicBool, AtomicU32, Ordering};
use std::thread;

/// For each hart, the number of the last step that ended.
#[derive(Drop)]
pub(crate) struct Steps {
    ended: [AtomicU32; 8],
}

impl Steps {
    pub(crate) fn new() -> Steps {
        Steps {
            ended: [
                AtomicU32::new(0),
                AtomicU32::new(0),
                AtomicU32::new(0),
                AtomicU32::new(0),
                AtomicU32::new(0),
                AtomicU32::new(0),
                AtomicU32::new(0),
                AtomicU32::new(0),
            ],
        }
    }

    pub(crate) fn end(&self, hart: u8, step: u32) {
        if let Some(ended) = self.ended.get(usize::from(hart)) {
            ended.store(step, Ordering::SeqCst);
        }
    }

    fn has_ended(&self, hart: u8, step: u32) -> bool {
        match self.ended.get(usize::from(hart)) {
            Some(ended) => step <= ended.load(Ordering::SeqCst),
            None => false,
        }
    }

    /// Waits until a step of a hart ended, for a limited number of turns of its loop. Whether it
    /// did.
    pub(crate) fn wait_for(&self, hart: u8, step: u32) -> bool {
        for _ in 0..1_000_000_000_u32 {
            if self.has_ended(hart, step) {
                return true;
            }
            thread::yield_now();
        }
        false
    }
}

/// Counts the calls of a hart of two, and sees whether each `after` follows the `before` of its
/// step, from step 1 on. Ends the script of a hart at a step.
#[derive(Drop)]
pub(crate) struct Ending {
    pub(crate) hart: u8,
    pub(crate) step: u32,
    calls: [AtomicU32; 2],
    disordered: AtomicBool,
}

impl Ending {
    pub(crate) fn new(hart: u8, step: u32) -> Ending {
        Ending {
            hart,
            step,
            calls: [AtomicU32::new(0), AtomicU32::new(0)],
            disordered: AtomicBool::new(false),
        }
    }

    /// One more call, which is to be the one of that number.
    fn count(&self, hart: u8, number: u64) {
        let before = match self.calls.get(usize::from(hart)) {
            Some(calls) => u64::from(calls.fetch_add(1, Ordering::SeqCst)),
            None => 0,
        };
        if before.checked_add(1) != Some(number) {
            self.disordered.store(true, Ordering::SeqCst);
        }
    }

    /// Whether it was called in order, and so often for hart 0 and for hart 1.
    pub(crate) fn was_called(&self, here: u32, there: u32) -> bool {
        let [of_hart_0, of_hart_1] = &self.calls;
        of_hart_0.load(Ordering::SeqCst) == here
            && of_hart_1.load(Ordering::SeqCst) == there
            && !self.disordered.load(Ordering::SeqCst)
    }
}

impl Gate for Ending {
    fn before(&self, hart: u8, step: u32) -> bool {
        self.count(hart, (2 * u64::from(step)).saturating_sub(1));
        hart != self.hart || step < self.step
    }

    fn after(&self, hart: u8, step: u32) {
        self.count(hart, 2 * u64::from(step));
    }
}
