//! A moment of waiting for another thread.

use std::hint::spin_loop;
use std::thread;

/// How many tries there are before the processor is given away, for a machine with fewer processors
/// than threads.
const TRIES: u64 = 256;

/// Waits a moment after a try that was in vain.
#[inline]
pub fn pause(tries: u64) {
    if tries % TRIES == TRIES - 1 {
        thread::yield_now();
    } else {
        spin_loop();
    }
}
