//! Hints of where the frame of a PPN may stand.

ghost use Rattle.std.specs.Prelude.{ℕ, ◌≡◌, ◌<◌};
ghost use Rattle.watch_tables.specs.Hints.{AreHinted, IsHinted, IsIn, hash};

use crate::frame_table::PlacedFrame;
use std::alloc::Global;

/// What stands where no frame is hinted.
pub(crate) const NO_PLACE: u32 = u32::MAX;

/// How many hints the first frame makes.
const FIRST_HINTS: usize = 16;

/// How many hints there are for a frame at least, if there is memory for them. With two, a third of the
/// look-ups in a trace of Linux met the hint of another frame.
const HINTS_EACH: usize = 8;

/// An odd number, 2^64 times the golden ratio: products with it spread PPNs that are near one another.
pub(crate) const SPREAD: u64 = 0x9e37_79b9_7f4a_7c15;

/// For each hash of a PPN a place where a frame of such a PPN may stand, or `NO_PLACE` where there is no
/// such frame. Places beyond those of 32 bits are not hinted.
#[derive(Drop)]
pub(crate) struct Hints {
    places: Vec<u32>,
    // how many frames have gone since the hints were made anew
    gone: usize,
}

/// The hash of a PPN, below the number of hints.
#[tactic(auto, unfolding(crate::specs::Hints::hash))]
#[inline(always)]
fn hash_of(count: usize, ppn: u64) -> usize
    requires { 0 < count }
    ensures hash { result ≡ hash count ppn }
    ensures below { result < count }
{
    (ppn.wrapping_mul(SPREAD) >> 32 & (count as u64 - 1)) as usize
}

/// Makes a place the first hint of a PPN, if there are hints. The hint that stood there goes to the
/// second, if that is free. Where the first is that place already, or the second is and the first stands
/// for another frame, nothing is done.
fn set(places: &mut [u32], ppn: u64, place: usize)
    ensures own { IsIn places.new ppn }
    ensures kept { (k : ℕ) → IsIn places.old k → IsIn places.new k }
{
    if places.is_empty() {
        return;
    }
    let place = place.min(NO_PLACE as usize - 1) as u32;
    let first = hash_of(places.len(), ppn);
    let second = first ^ 1;
    let old = places[first];
    if old == place || old != NO_PLACE && second < places.len() && places[second] == place {
        return;
    }
    places[first] = place;
    if second < places.len() && places[second] == NO_PLACE {
        places[second] = old;
    }
}

impl Hints {
    /// No hints.
    pub(crate) fn new(alloc: Global) -> Hints
        ensures { (ppn : ℕ) → IsHinted result ppn }
    {
        Hints {
            places: Vec::new(alloc),
            gone: 0,
        }
    }

    /// A place where the frame of a PPN may stand; `NO_PLACE` where there is none.
    #[inline(always)]
    pub(crate) fn get(&self, ppn: u64) -> u32
        ensures { result ≡ NO_PLACE → ¬ IsHinted self.now ppn }
    {
        if self.places.is_empty() {
            return 0;
        }
        self.places[hash_of(self.places.len(), ppn)]
    }

    /// The second hint of a PPN: another place where its frame may stand, or `NO_PLACE` where that hint
    /// is free; 0 where there is no second hint.
    pub(crate) fn second(&self, ppn: u64) -> u32 {
        if self.places.is_empty() {
            return 0;
        }
        let second = hash_of(self.places.len(), ppn) ^ 1;
        if second >= self.places.len() {
            return 0;
        }
        self.places[second]
    }

    /// Sets the hint of a PPN.
    pub(crate) fn set(&mut self, ppn: u64, place: usize)
        ensures own { IsHinted self.new ppn }
        ensures kept { (k : ℕ) → IsHinted self.old k → IsHinted self.new k }
    {
        set(self.places.as_mut_slice(), ppn, place);
    }

    /// Makes the hints of all frames of a row anew.
    fn make(&mut self, row: &[PlacedFrame])
        ensures { AreHinted self.new row.now }
    {
        for place in self.places.iter_mut() {
            *place = NO_PLACE;
        }
        self.gone = 0;
        for place in 0..row.len() {
            self.set(row[place].ppn, place);
        }
    }

    /// Doubles the hints where there are too few for the frames, if there is memory for that, and makes
    /// them anew.
    pub(crate) fn spread(&mut self, row: &[PlacedFrame])
        requires { AreHinted self.old row.now }
        ensures { AreHinted self.new row.now }
    {
        let count = self.places.len();
        if row.len() <= count / HINTS_EACH {
            return;
        }
        let more = count.saturating_mul(2).max(FIRST_HINTS);
        if self.places.resize(more, NO_PLACE).is_ok() {
            self.make(row);
        }
    }

    /// Counts a frame that has gone from a row. Makes the hints anew where many may be of frames that
    /// have gone: as many as pay for it.
    pub(crate) fn count_gone(&mut self, row: &[PlacedFrame])
        requires { AreHinted self.old row.now }
        ensures { AreHinted self.new row.now }
    {
        self.gone = self.gone.saturating_add(1);
        if self.gone > row.len().max(self.places.len() / HINTS_EACH) {
            self.make(row);
        }
    }

    /// Gives the hints back that are too many for the frames of a row, and makes the others anew.
    pub(crate) fn shrink(&mut self, row: &[PlacedFrame])
        ensures { AreHinted self.new row.now }
    {
        let hints = row.len().saturating_mul(HINTS_EACH);
        let hints = hints.checked_next_power_of_two().unwrap_or(0);
        self.places.truncate(hints.max(FIRST_HINTS));
        self.places.shrink_to(0);
        self.make(row);
    }
}
