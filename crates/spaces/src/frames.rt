//! Table memory.

ghost use Rattle.std.specs.Prelude.{◌≡◌, ◌+◌, ◌*◌, ◌/◌, ◌%◌, ◌==◌, ◌<◌, ◌≤◌, ◌^◌, ◌↔◌, ◌&&◌, ◌||◌, IsTrue, IfOk, IfSome, length, map, nat_le, nat_lt, slice_index, slice_get, slice_set, sum, take, Some, None, replicate, ℕ, true, is_some, if◌then◌else◌};
ghost use Rattle.pte.specs.declared.entry.TheConstants.{PPN_BITS};
ghost use Rattle.spaces.specs.Layout.{first_window_slot, frame_count, HasPlace, home_of, layout_of, root_ppn, user_slots};
ghost use Rattle.spaces.specs.Limits.{MeetsLimits};
ghost use Rattle.spaces.specs.declared.configuration.TheConstants.{MAX_FRAMES};
ghost use Rattle.spaces.specs.Opening.{first_words, is_word, opening, root_word};
ghost use Rattle.spaces.specs.Edits.{place_of};
ghost use Rattle.spaces.specs.EditStages.{edit_start};
ghost use Rattle.spaces.specs.Held.{holders_of, IsMemory, is_own_at, spare_of, word_index, memory_words};
ghost use Rattle.spaces.specs.Holders.{given_back, is_held_for, zero_word};
ghost use Rattle.spaces.specs.declared.places.Place.TheVariants as place;

use crate::configuration::{Config, MAX_HARTS, MAX_SPACES, Space, total};
use crate::edit_walks::{EditWalk, USER_SLOTS, target};
use crate::faults::{MapFault, OpenFault};
use crate::frame_use::{FrameUse, is_held_for};
use crate::places::Place;
use crate::wishes::Wish;
use arrayvec::ArrayVec;
use pte::{Pte, Scheme, TABLE_LENGTH};
use std::alloc::{AllocError, Global};
use std::marker::Model;
use walk::Words;

/// Table memory: the words of the tables of all spaces, which are at home on the harts.
#[derive(Drop)]
pub struct Memory {
    scheme: Scheme,
    window: u16,
    base: u64,
    homes: ArrayVec<u8, MAX_SPACES>,
    spares: ArrayVec<u16, MAX_HARTS>,
    frames: FrameUse,
    words: Vec<u64>,
}

impl Model for Memory {
    ghost use Rattle.spaces.specs.Held.{Held, IsMemory};

    ghost Value = { Held };

    ghost view = { λ m. record {
      layout = record {
        scheme = m.scheme;
        window = m.window;
        base = m.base;
        homes = m.homes.items;
        spares = m.spares.items;
      };
      words = m.words.items;
      holders = m.frames;
    } };

    ghost invariant = { λ m. IsMemory (record {
      layout = record {
        scheme = m.scheme;
        window = m.window;
        base = m.base;
        homes = m.homes.items;
        spares = m.spares.items;
      };
      words = m.words.items;
      holders = m.frames;
    }) };
}

/// The homes of the spaces.
fn homes_of(spaces: &[Space]) -> ArrayVec<u8, MAX_SPACES>
    requires { length spaces.now ≤ MAX_SPACES }
    ensures { result.items ≡ map (λ s. s.home) spaces.now }
{
    let mut homes = ArrayVec::new();
    for space in spaces {
        homes.push(space.home);
    }
    homes
}

/// The spare frames of each hart.
fn copy_of(spares: &[u16]) -> ArrayVec<u16, MAX_HARTS>
    requires { length spares.now ≤ MAX_HARTS }
    ensures { result.items ≡ spares.now }
{
    let mut copy = ArrayVec::new();
    for spare in spares {
        copy.push(*spare);
    }
    copy
}

/// The words of all frames at the opening, frame by frame.
pub fn first_words(alloc: Global, config: &Config) -> Result<Vec<u64>, AllocError>
    requires { MeetsLimits MAX_FRAMES config.now }
    ensures { IfOk result (λ words. words.items
        ≡ first_words (layout_of config.now) (frame_count (layout_of config.now) * TABLE_LENGTH)) }
{
    let count = (config.frame_count() * u64::from(TABLE_LENGTH)) as usize;
    let mut words = Vec::with_capacity(alloc, count)?;
    words.resize(count, 0)?;
    store_roots(&mut words, config);
    Ok(words)
}

/// Stores the window's slots of each root. All words are 0 before.
fn store_roots(words: &mut [u64], config: &Config)
    requires limits { MeetsLimits MAX_FRAMES config.now }
    requires zeros { words.old ≡ replicate (frame_count (layout_of config.now) * TABLE_LENGTH) 0 }
    ensures { words.new
        ≡ first_words (layout_of config.now) (frame_count (layout_of config.now) * TABLE_LENGTH) }
{
    let window = usize::from(config.window);
    for root in window..window + config.spaces.len() {
        store_root(words, config, root);
    }
}

/// Stores the window's slots of the root whose frame has this number.
fn store_root(words: &mut [u64], config: &Config, root: usize)
    requires limits { MeetsLimits MAX_FRAMES config.now }
    requires inside { root * TABLE_LENGTH + TABLE_LENGTH ≤ length words.old }
    ensures length { length words.new ≡ length words.old }
    ensures words { (n : ℕ)
        → slice_get words.new n
        ≡ (if n / TABLE_LENGTH == root && nat_le (first_window_slot (layout_of config.now))
        (n % TABLE_LENGTH) then Some (root_word (layout_of config.now) (n % TABLE_LENGTH))
        else slice_get words.old n) }
{
    let first_slot = TABLE_LENGTH - config.window;
    for index in first_slot..TABLE_LENGTH {
        let at = root * usize::from(TABLE_LENGTH) + usize::from(index);
        words[at] = Pte::table(config.base + u64::from(index - first_slot), true).0;
    }
}

impl Memory {
    ghost use Rattle.std.specs.Prelude.{OnOk, Err};

    /// The memory of a configuration, with all the room that it ever takes. Its words are 0 but for
    /// the window's slots of each root. `BadLayout` exactly if `Config::check` says no, `NoMemory`
    /// if the words cannot be allocated.
    pub fn open(alloc: Global, config: &Config) -> Result<Memory, OpenFault>
        ensures bad_layout { (result ≡ Err OpenFault.BadLayout)
            ↔ (¬ MeetsLimits MAX_FRAMES config.now) }
        ensures limits { OnOk result (MeetsLimits MAX_FRAMES config.now) }
        ensures layout { IfOk result (λ memory. memory.layout ≡ layout_of config.now) }
        ensures words { IfOk result (λ memory. (ppn i : ℕ)
            → memory_words memory ppn i ≡ opening (layout_of config.now) ppn i) }
        ensures holders { IfOk result (λ memory. (ppn : ℕ) → holders_of memory ppn ≡ None) }
    {
        if !config.check() {
            return Err(OpenFault::BadLayout);
        }
        let words = first_words(alloc, config)?;
        let frames = FrameUse::new(alloc, config.frame_count())?;
        Ok(Memory {
            scheme: config.scheme,
            window: config.window,
            base: config.base,
            homes: homes_of(&config.spaces),
            spares: copy_of(&config.spares),
            frames,
            words,
        })
    }

    /// How many frames there are.
    #[inline(always)]
    fn frame_count(&self) -> u64
        ensures { result ≡ frame_count self.now.layout }
    {
        (self.words.len() / usize::from(TABLE_LENGTH)) as u64
    }

    /// Whether the memory has the word. A PPN below the first wraps to one above the last.
    #[inline(always)]
    fn is_word(&self, ppn: u64, index: u16) -> bool
        ensures { result ≡ is_word self.now.layout ppn index }
    {
        ppn.wrapping_sub(self.base) < self.frame_count() && index < TABLE_LENGTH
    }

    /// Whether the memory has the place.
    pub fn has(&self, place: Place) -> bool
        ensures value { IsTrue result ↔ HasPlace self.now.layout place }
        ensures memory { IsMemory self.now }
    {
        let spaces = self.homes.len();
        match place {
            Place::Space(space) => usize::from(space) < spaces,
            Place::Kernel => true,
        }
    }

    /// The scheme of translation.
    #[inline(always)]
    pub fn scheme(&self) -> Scheme
        ensures { result ≡ self.now.layout.scheme }
    {
        self.scheme
    }

    /// The PPN of the root of a space.
    #[inline(always)]
    pub fn root(&self, space: u8) -> u64
        requires { space < length self.now.layout.homes }
        ensures value { result ≡ root_ppn self.now.layout space }
        ensures range { result < 2 ^ PPN_BITS }
    {
        self.base + u64::from(self.window) + u64::from(space)
    }

    /// The home of a place.
    pub fn home(&self, place: Place) -> u8
        requires { HasPlace self.now.layout place }
        ensures value { result ≡ home_of self.now.layout place }
        ensures memory { IsMemory self.now }
    {
        match place {
            Place::Space(space) => self.homes[usize::from(space)],
            Place::Kernel => 0,
        }
    }

    /// The edit that a hart begins. `EditWalk::begin` has its refusals.
    #[inline(always)]
    pub(crate) fn begin(&self, hart: u8, wish: &Wish) -> Result<EditWalk, MapFault>
        requires { HasPlace self.now.layout (place_of wish.now) }
        ensures start { result ≡ edit_start self.now.layout hart wish.now }
        ensures memory { IsMemory self.now }
    {
        if hart != self.home(wish.place()) {
            return Err(MapFault::NotHome);
        }
        EditWalk::start(self.scheme, self.window, self.base, *wish)
    }

    /// A word that the memory has.
    #[inline(always)]
    #[tactic(auto, using(crate::proofs::WordLists::in_memory), unfolding(crate::specs::Held::memory_words))]
    pub(crate) fn word_there(&self, ppn: u64, index: u16) -> u64
        requires { is_word self.now.layout ppn index ≡ true }
        ensures { memory_words self.now ppn index ≡ Some result }
    {
        let at = (ppn - self.base) * u64::from(TABLE_LENGTH) + u64::from(index);
        self.words[at as usize]
    }

    /// The lowest unused spare frame of a hart.
    // Few edits ask for it, so it is not compiled into each of them.
    #[inline(never)]
    #[tactic(auto, using(crate::proofs::Homes::sums))]
    pub(crate) fn spare(&self, hart: u8) -> Option<u64>
        ensures value { result ≡ spare_of self.now hart }
        ensures range { IfSome result (λ frame. frame < 2 ^ PPN_BITS) }
    {
        let hart = usize::from(hart);
        let count = usize::from(*self.spares.get(hart)?);
        let first = usize::from(self.window)
            + self.homes.len()
            + total(&self.spares[..hart]) as usize;
        let frame = self.frames.lowest(first, first + count)?;
        Some(self.base + frame as u64)
    }
}

impl Memory {
    ghost use Rattle.spaces.specs.Edits.{Store};
    ghost use Rattle.spaces.specs.Held.{IsDue};
    ghost use Rattle.spaces.specs.Applied.{holders_after, words_after_store};

    /// Stores one word; the table that it points to, if it does, is in use for the place from now
    /// on.
    pub(crate) fn store(&mut self, place: Place, ppn: u64, index: u16, word: u64)
        requires { IsDue self.old
            (record { place = place; ppn = ppn; index = index; word = word }) }
        ensures layout { self.new.layout ≡ self.old.layout }
        ensures words { (f i : ℕ)
            → memory_words self.new f i
            ≡ words_after_store (memory_words self.old)
            (record { place = place; ppn = ppn; index = index; word = word }) f i }
        ensures holders { (f : ℕ)
            → holders_of self.new f
            ≡ holders_after (holders_of self.old) place
            (record { place = place; ppn = ppn; index = index; word = word }) f }
    {
        let at = (ppn - self.base) * u64::from(TABLE_LENGTH) + u64::from(index);
        self.words[at as usize] = word;
        if let Some(table) = target(word) {
            self.frames.take((table - self.base) as usize, place);
        }
    }
}

/// Stores 0 on `count` words from `first` on.
fn clear(words: &mut [u64], first: usize, count: usize)
    requires { first + count ≤ length words.old }
    ensures length { length words.new ≡ length words.old }
    ensures words { (n : ℕ)
        → slice_get words.new n
        ≡ (if nat_lt n (first + count) && nat_le first n then zero_word (slice_get words.old n)
        else slice_get words.old n) }
{
    for at in first..first + count {
        words[at] = 0;
    }
}

/// Stores 0 on each word of a space, whose root is the frame of this number. Words of no other
/// frame are read or stored.
fn empty_words(words: &mut [u64], holders: &[Option<Place>], root: usize, space: u8)
    requires length { length words.old ≡ length holders.now * TABLE_LENGTH }
    requires root { root < length holders.now }
    ensures length { length words.new ≡ length words.old }
    ensures words { (n : ℕ)
        → slice_get words.new n
        ≡ (if is_own_at holders.now root space n then zero_word (slice_get words.old n)
        else slice_get words.old n) }
{
    let table = usize::from(TABLE_LENGTH);
    for frame in 0..holders.len() {
        if is_held_for(holders[frame], space) {
            clear(words, frame * table, table);
        }
    }
    clear(words, root * table, usize::from(USER_SLOTS));
}

impl Memory {
    ghost use Rattle.spaces.specs.Effects.{EmptiesSpace};
    ghost use Rattle.spaces.specs.Holders.{emptied};

    /// Gives back the frames of a space: stores 0 on all its words, and leaves its frames unused.
    pub fn give_back(&mut self, space: u8)
        requires { space < length self.old.layout.homes }
        ensures layout { self.new.layout ≡ self.old.layout }
        ensures words { (ppn i : ℕ)
            → memory_words self.new ppn i
            ≡ emptied self.old.layout (holders_of self.old) space (memory_words self.old) ppn i }
        ensures holders { (ppn : ℕ)
            → holders_of self.new ppn ≡ given_back (holders_of self.old ppn) space }
        ensures empties { EmptiesSpace self.old.layout space (memory_words self.old)
            (memory_words self.new) }
    {
        let root = usize::from(self.window) + usize::from(space);
        empty_words(&mut self.words, self.frames.holders(), root, space);
        self.frames.give_back(space);
    }
}

impl Words for Memory {
    ghost use Rattle.spaces.specs.Held.{memory_words};

    ghost words = { memory_words };

    #[inline(always)]
    #[tactic(auto, unfolding(crate::specs::Held::memory_words))]
    fn word(&self, ppn: u64, index: u16) -> Option<u64> {
        if self.is_word(ppn, index) {
            Some(self.word_there(ppn, index))
        } else {
            None
        }
    }
}
