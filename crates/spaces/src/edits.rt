//! Edits: the one store that maps, unmaps or protects a page.

ghost use Rattle.std.specs.Prelude.{◌≡◌, ◌<◌, ◌^◌, ◌-◌, ◌≤◌, IfOk, IfSome, ℕ};
ghost use Rattle.pte.specs.declared.entry.TheConstants.{PPN_BITS};
ghost use Rattle.spaces.specs.Layout.{HasPlace};
ghost use Rattle.spaces.specs.Held.{holders_of, IsDue, spare_of, memory_words};
ghost use Rattle.spaces.specs.Applied.{holders_after, words_after_store};
ghost use Rattle.spaces.specs.Effects.{HasEffect, IsEdit};
ghost use Rattle.spaces.specs.declared.wishes.Wish.{Wish as WishOf};
ghost use Rattle.spaces.specs.Edits.{edit_of, place_of};
ghost use Rattle.spaces.specs.EditStages.{due_here};
ghost use Rattle.spaces.specs.declared.wishes.Wish.TheVariants as wish;

use crate::edit_walks::EditWalk;
use crate::faults::MapFault;
use crate::frames::Memory;
use crate::places::Place;
use crate::wishes::Wish;
use pte::{Page, PteFlags};
use std::marker::Model;

/// One store of a word of a table, for a place.
#[derive(Clone, Copy, PartialEq, Eq, Debug)]
pub struct Edit {
    ppn: u64,
    word: u64,
    index: u16,
    place: Place,
}

impl Model for Edit {
    ghost use Rattle.spaces.specs.Edits.{Store};

    ghost Value = { Store };

    ghost view = { λ e. record { place = e.place; ppn = e.ppn; index = e.index; word = e.word } };

    ghost inverse = { λ s.
        record { place = s.place; ppn = s.ppn; index = s.index; word = s.word } };
}

impl Edit {
    #[inline(always)]
    pub(crate) fn new(place: Place, ppn: u64, index: u16, word: u64) -> Edit
        ensures { result ≡ record { place = place; ppn = ppn; index = index; word = word } }
    {
        Edit {
            ppn,
            word,
            index,
            place,
        }
    }

    /// The PPN of the table.
    pub fn ppn(&self) -> u64
        ensures { result ≡ self.now.ppn }
    {
        self.ppn
    }

    /// The index of the word in its table.
    pub fn index(&self) -> u16
        ensures { result ≡ self.now.index }
    {
        self.index
    }

    /// The word that is stored.
    pub fn word(&self) -> u64
        ensures { result ≡ self.now.word }
    {
        self.word
    }
}

/// The lowest unused spare frame of the hart, which is looked for only where the store that is due
/// turns on it.
#[inline(always)]
fn spare_for(memory: &Memory, hart: u8, walk: &EditWalk) -> Option<u64>
    ensures same { (word : ℕ)
        → due_here walk.now word result ≡ due_here walk.now word (spare_of memory.now hart) }
    ensures range { IfSome result (λ frame. frame < 2 ^ PPN_BITS) }
{
    if walk.is_at_page() {
        None
    } else {
        memory.spare(hart)
    }
}

/// The one store that is due next for a wish, or why none is: as `next_map_edit`, `unmap_edit` and
/// `protect_edit` answer.
#[inline(always)]
pub fn next_edit(memory: &Memory, hart: u8, wish: &Wish) -> Result<Edit, MapFault>
    requires { HasPlace memory.now.layout (place_of wish.now) }
    ensures outcome { result
        ≡ edit_of memory.now.layout (memory_words memory.now) (spare_of memory.now hart) hart
        wish.now }
    ensures due { IfOk result (IsDue memory.now) }
{
    let mut walk = memory.begin(hart, wish)?;
    loop {
        let (ppn, index) = walk.wants();
        let word = memory.word_there(ppn, index);
        let Some(next) = walk.below(word) else {
            return walk.end(word, spare_for(memory, hart, &walk));
        };
        walk = next;
    }
}

/// The one store that is due next to map the page to the PPN with these flags: a pointer where a
/// table is missing, which takes the lowest unused spare frame of the home, else the leaf. The
/// refusals are tested in the order of `MapFault`.
#[inline(always)]
pub fn next_map_edit(
    memory: &Memory,
    hart: u8,
    place: Place,
    page: Page,
    ppn: u64,
    flags: PteFlags,
) -> Result<Edit, MapFault>
    requires { HasPlace memory.now.layout place }
    ensures outcome { result
        ≡ edit_of memory.now.layout (memory_words memory.now) (spare_of memory.now hart) hart
        (wish.Map place page ppn flags) }
    ensures due { IfOk result (IsDue memory.now) }
{
    next_edit(
        memory,
        hart,
        &Wish::Map {
            place,
            page,
            ppn,
            flags,
        },
    )
}

/// The one store that unmaps the page: 0 in the place of its leaf. Refused, in this order, with
/// `NotHome`, `WrongHalf`, and then `NotMapped` or `WrongSize` by what the path of the page ends
/// at.
#[inline(always)]
pub fn unmap_edit(memory: &Memory, hart: u8, place: Place, page: Page) -> Result<Edit, MapFault>
    requires { HasPlace memory.now.layout place }
    ensures outcome { result
        ≡ edit_of memory.now.layout (memory_words memory.now) (spare_of memory.now hart) hart
        (wish.Unmap place page) }
    ensures due { IfOk result (IsDue memory.now) }
{
    next_edit(memory, hart, &Wish::Unmap { place, page })
}

/// The one store that gives the page's leaf other flags, and keeps its PPN. Refused, in this order,
/// with `NotHome`, `WrongHalf`, `BadFlags`, and then `NotMapped` or `WrongSize` by what the path of
/// the page ends at.
#[inline(always)]
pub fn protect_edit(
    memory: &Memory,
    hart: u8,
    place: Place,
    page: Page,
    flags: PteFlags,
) -> Result<Edit, MapFault>
    requires { HasPlace memory.now.layout place }
    ensures outcome { result
        ≡ edit_of memory.now.layout (memory_words memory.now) (spare_of memory.now hart) hart
        (wish.Protect place page flags) }
    ensures due { IfOk result (IsDue memory.now) }
{
    next_edit(memory, hart, &Wish::Protect { place, page, flags })
}

/// Stores the edit's word; a new table is in use for the place from then on. Asks for an edit of
/// this memory as it is now.
pub fn apply(memory: &mut Memory, edit: Edit)
    requires { IsDue memory.old edit }
    ensures layout { memory.new.layout ≡ memory.old.layout }
    ensures words { (ppn i : ℕ)
        → memory_words memory.new ppn i ≡ words_after_store (memory_words memory.old) edit ppn i }
    ensures holders { (ppn : ℕ)
        → holders_of memory.new ppn ≡ holders_after (holders_of memory.old) edit.place edit ppn }
    // what it does to the mappings of all roots, for what was wished
    ensures maps { (hart : ℕ) (w : WishOf)
        → IsEdit memory.old.layout (memory_words memory.old) (holders_of memory.old) hart w edit
        → HasEffect memory.old.layout w edit (memory_words memory.old) (memory_words memory.new) }
{
    memory.store(edit.place, edit.ppn, edit.index, edit.word);
}
