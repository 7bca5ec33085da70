//! The atomic steps on table words, each with what its seat knows after it.

ghost use Rattle.std.specs.Prelude.{◌≡◌, ◌^◌, ◌<◌, [], true, Some, Ok};
ghost use Rattle.spaces.specs.Layout.{HasPlace, is_frame, layout_of};
ghost use Rattle.spaces.specs.Edits.{place_of};
ghost use Rattle.spaces.specs.Held.{word_index, memory_words};
ghost use Rattle.spaces.specs.Opening.{is_word};
ghost use Rattle.spaces.specs.Tree.{IsAtHome};
ghost use Rattle.views.specs.Rule.{IsRoot, memory_of, size};
ghost use Rattle.views.specs.OnBoard.{IsFit};
ghost use Rattle.views.specs.OrderTurns.{IsAsked, noted};
ghost use Rattle.views.specs.Turns.{IsStart, TellsLoad, walked};
ghost use Rattle.views.specs.Edits.{edit_over};

use crate::rule::Words;
use crate::seat::{Seat, load, store};
use pte::TABLE_LENGTH;
use spaces::{Config, Edit, Wish};
use std::marker::Brand;
use walk::Walk;

/// Where a word stands among the words of all frames.
fn word_index(config: &Config, table: u64, index: u16) -> usize
    requires word { is_word (layout_of config.now) table index ≡ true }
    requires small { size (layout_of config.now) < 2 ^ 32 }
    ensures value { result ≡ word_index (layout_of config.now) table index }
    ensures range { result < size (layout_of config.now) }
{
    ((table - config.base) * u64::from(TABLE_LENGTH) + u64::from(index)) as usize
}

/// The first load of a walk, of a word of the root.
pub fn load_first(words: &Words, seat: &mut Seat, config: &Config, root: u64, walk: Walk) -> u64
    requires fit { IsFit words.now.table_id words.now.key config.now seat.old }
    requires frame { is_frame (layout_of config.now) walk.table ≡ true }
    requires root { IsRoot (layout_of config.now) root }
    requires start { IsStart config.now.scheme root walk }
    ensures fit { IsFit words.now.table_id words.now.key config.now seat.new }
    ensures view { seat.new.view ≡ walked seat.old.view root walk [] result }
    ensures tlb { seat.new.tlb ≡ seat.old.tlb }
    ensures tells { TellsLoad (layout_of config.now) seat.old.view root walk [] result }
{
    let (table, index) = walk.wants();
    let at = word_index(config, table, index);
    load::<Brand, _>(words, seat, at, &(root, walk))
}

/// A further load of the walk that the seat has in flight.
pub fn load_next(words: &Words, seat: &mut Seat, config: &Config, root: u64, walk: Walk) -> u64
    requires fit { IsFit words.now.table_id words.now.key config.now seat.old }
    requires frame { is_frame (layout_of config.now) walk.table ≡ true }
    requires root { IsRoot (layout_of config.now) root }
    requires walks { (seat.old.view.walk ≡ Some walk) × (seat.old.view.root ≡ root) }
    ensures fit { IsFit words.now.table_id words.now.key config.now seat.new }
    ensures view { seat.new.view ≡ walked seat.old.view root walk seat.old.view.reads result }
    ensures tlb { seat.new.tlb ≡ seat.old.tlb }
    ensures tells { TellsLoad (layout_of config.now) seat.old.view root walk seat.old.view.reads
        result }
{
    let (table, index) = walk.wants();
    let at = word_index(config, table, index);
    load::<Brand, _>(words, seat, at, &(root, walk))
}

/// A home's reading of a word of its own, for an edit. The view stays.
pub fn read_home(words: &Words, seat: &mut Seat, config: &Config, table: u64, index: u16) -> u64
    requires fit { IsFit words.now.table_id words.now.key config.now seat.old }
    requires home { IsAtHome (layout_of config.now) seat.old.view.hart table }
    requires index { index < TABLE_LENGTH }
    ensures fit { IsFit words.now.table_id words.now.key config.now seat.new }
    ensures view { seat.new.view ≡ seat.old.view }
    ensures tlb { seat.new.tlb ≡ seat.old.tlb }
    ensures word { memory_words (memory_of (layout_of config.now) seat.old.view) table index
        ≡ Some result }
{
    let at = word_index(config, table, index);
    load::<Brand, _>(words, seat, at, &(table, index))
}

/// The one store of an edit that is due over the home's view. An unmap or a protect opens an order
/// under the ticket; a leaf that is mapped marks anew each unmapping of its place whose page it
/// overlaps.
pub fn store_edit(
    words: &Words,
    seat: &mut Seat,
    config: &Config,
    edit: &Edit,
    wish: &Wish,
    ticket: u32,
)
    requires fit { IsFit words.now.table_id words.now.key config.now seat.old }
    requires place { HasPlace (layout_of config.now) (place_of wish.now) }
    requires asked { IsAsked config.now wish.now }
    requires due { edit_over (layout_of config.now) seat.old.view wish.now ≡ Ok edit.now }
    ensures fit { IsFit words.now.table_id words.now.key config.now seat.new }
    ensures view { seat.new.view ≡ noted config.now wish.now ticket seat.old.view edit.now }
    ensures tlb { seat.new.tlb ≡ seat.old.tlb }
{
    let at = word_index(config, edit.ppn(), edit.index());
    store::<Brand, _>(words, seat, at, edit.word(), &(*edit, *wish, ticket))
}
