//! Frames that lie one behind the other.

ghost use Rattle.std.specs.Prelude.{◌≡◌, ◌≤◌, ◌+◌, ◌*◌, ◌^◌, length};
ghost use Rattle.pte.specs.declared.entry.TheConstants.{PPN_BITS};

use pte::TABLE_LENGTH;
use walk::Words;

/// The words of frames of 4 KiB with PPNs from a base on, 512 a frame.
#[derive(Drop)]
pub(crate) struct Flat<'a> {
    pub(crate) base: u64,
    pub(crate) frames: u64,
    pub(crate) words: &'a [u64],
    pub(crate) ghost fits: { base + frames ≤ 2 ^ PPN_BITS },
}

impl Words for Flat<'_> {
    ghost use Rattle.melissaledge_c.specs.Flat.{flat_words};

    ghost words = { λ m. flat_words m.base m.frames m.words.now };

    #[inline(always)]
    fn word(&self, ppn: u64, index: u16) -> Option<u64> {
        if ppn < self.base || self.base + self.frames <= ppn {
            return None;
        }
        let place = (ppn - self.base) * u64::from(TABLE_LENGTH) + u64::from(index);
        self.words.get(place as usize).copied()
    }
}
