//! Which frames are unused.

ghost use Rattle.std.specs.Prelude.{◌≡◌, ◌≢◌, ◌<◌, ◌≤◌, ℕ, true, false};
ghost use Rattle.spaces.specs.UnusedFrames.{IsLowest, marked_in};

use crate::configuration::MAX_FRAMES;
use std::marker::Model;

/// How many bits a word of the bitmap has.
const WORD: usize = u64::BITS as usize;

/// How many words the bitmap has.
const WORDS: usize = MAX_FRAMES as usize / WORD;

/// Which of up to 512 frames are unused, as a bitmap: bit n % 64 of word n / 64 is set where frame
/// n is unused. So the lowest unused frame from one on is found in at most eight looks, however
/// many frames there are.
#[derive(Drop)]
pub(crate) struct UnusedFrames {
    words: [u64; WORDS],
}

impl Model for UnusedFrames {
    ghost use Rattle.std.specs.Prelude.{ℕ, List};

    ghost Value = { List ℕ };

    ghost view = { λ u. u.words };
}

impl UnusedFrames {
    /// Each frame is unused.
    pub(crate) fn new() -> UnusedFrames
        ensures { (n : ℕ) → n < MAX_FRAMES → marked_in result n ≡ true }
    {
        UnusedFrames {
            words: [u64::MAX; WORDS],
        }
    }

    /// The lowest unused frame from one on and below another.
    pub(crate) fn lowest(&self, from: usize, to: usize) -> Option<usize>
        requires { to ≤ MAX_FRAMES }
        ensures { IsLowest (marked_in self.now) from to result }
    {
        let mut next = from;
        while next < to {
            let ahead = self.words[next / WORD] >> (next % WORD);
            if ahead != 0 {
                let frame = next + ahead.trailing_zeros() as usize;
                return if frame < to { Some(frame) } else { None };
            }
            next = (next / WORD + 1) * WORD;
        }
        None
    }

    /// The frame is unused from now on.
    pub(crate) fn insert(&mut self, frame: usize)
        requires { frame < MAX_FRAMES }
        ensures here { marked_in self.new frame ≡ true }
        ensures others { (n : ℕ) → n ≢ frame → marked_in self.new n ≡ marked_in self.old n }
    {
        self.words[frame / WORD] |= 1 << (frame % WORD);
    }

    /// The frame is in use from now on.
    pub(crate) fn remove(&mut self, frame: usize)
        requires { frame < MAX_FRAMES }
        ensures here { marked_in self.new frame ≡ false }
        ensures others { (n : ℕ) → n ≢ frame → marked_in self.new n ≡ marked_in self.old n }
    {
        self.words[frame / WORD] &= !(1 << (frame % WORD));
    }
}
