//! A whole edit by the home: decided by home reads, then stored.

ghost use Rattle.std.specs.Prelude.{◌≡◌, is_some, MatchResult, Ok, Some};
ghost use Rattle.walk.specs.Pointers.{pointed};
ghost use Rattle.spaces.specs.declared.places.Place.TheVariants as place;
ghost use Rattle.views.specs.Orders.{asid_of_space};
ghost use Rattle.spaces.specs.Layout.{HasPlace, layout_of};
ghost use Rattle.spaces.specs.Edits.{place_of};
ghost use Rattle.views.specs.OnBoard.{IsFit};
ghost use Rattle.views.specs.Edits.{edit_over};
ghost use Rattle.views.specs.OrderTurns.{IsAsked, noted};

use crate::rule::Words;
use crate::seat::Seat;
use crate::steps::{read_home, store_edit};
use pte::{Kind, Pte};
use spaces::{Config, Edit, EditWalk, MapFault, Next, Place as Home, Wish};

/// The store that a wish takes, or why none is due, over the home's view. It is not made:
/// `store_edit` makes it, and the view stays until then. `used` is how many of the hart's spare
/// frames are in use.
pub fn decide(
    words: &Words,
    seat: &mut Seat,
    config: &Config,
    hart: u8,
    used: u16,
    wish: &Wish,
) -> Result<Edit, MapFault>
    requires fit { IsFit words.now.table_id words.now.key config.now seat.old }
    requires hart { seat.old.view.hart ≡ hart }
    requires used { seat.old.view.used ≡ used }
    requires place { HasPlace (layout_of config.now) (place_of wish.now) }
    ensures fit { IsFit words.now.table_id words.now.key config.now seat.new }
    ensures view { seat.new.view ≡ seat.old.view }
    ensures tlb { seat.new.tlb ≡ seat.old.tlb }
    ensures answer { result ≡ edit_over (layout_of config.now) seat.old.view wish.now }
{
    let spare = config.spare(hart, used);
    let mut walk = match EditWalk::begin(config, hart, *wish) {
        Ok(walk) => walk,
        Err(fault) => return Err(fault),
    };
    loop {
        let (table, index) = walk.wants();
        let word = read_home(words, seat, config, table, index);
        match walk.load(word, spare) {
            Next::More(next) => walk = next,
            Next::Edit(edit) => return Ok(edit),
            Next::Refused(fault) => return Err(fault),
        }
    }
}

/// The ASID of a space.
fn asid_in(config: &Config, space: u8) -> u16
    requires { HasPlace (layout_of config.now) (place.Space space) }
    ensures { result ≡ asid_of_space config.now space }
{
    config.spaces[usize::from(space)].asid
}

/// Does nothing; its contract says that the base of a wish's page is canonical and a multiple of
/// the page's size, and that the ASID of what an unmap or a protect asks, if any, has 16 bits.
fn ask(config: &Config, wish: &Wish)
    requires { HasPlace (layout_of config.now) (place_of wish.now) }
    ensures { IsAsked config.now wish.now }
{
    match *wish {
        Wish::Unmap {
            place: Home::Space(space),
            page,
        }
        | Wish::Protect {
            place: Home::Space(space),
            page,
            ..
        } => {
            page.recall();
            let _asid = asid_in(config, space);
        }
        Wish::Map { page, .. } | Wish::Unmap { page, .. } | Wish::Protect { page, .. } => {
            page.recall();
        }
    }
}

/// Whether a word is a pointer.
fn is_pointer(word: u64) -> bool
    ensures { result ≡ is_some (pointed (Some word)) }
{
    match Pte(word).kind() {
        Kind::Table { .. } => true,
        Kind::Invalid | Kind::Reserved | Kind::Leaf { .. } => false,
    }
}

/// Makes the one store that was decided, and counts the spare frame that a new table takes; an
/// unmap or a protect opens an order under the ticket. No other hart's step changes what is due
/// here, so what was decided is due until the hart's own next store.
pub fn store(
    words: &Words,
    seat: &mut Seat,
    config: &Config,
    used: &mut u16,
    edit: &Edit,
    wish: &Wish,
    ticket: u32,
)
    requires fit { IsFit words.now.table_id words.now.key config.now seat.old }
    requires used { seat.old.view.used ≡ used.old }
    requires place { HasPlace (layout_of config.now) (place_of wish.now) }
    requires due { edit_over (layout_of config.now) seat.old.view wish.now ≡ Ok edit.now }
    ensures fit { IsFit words.now.table_id words.now.key config.now seat.new }
    ensures view { seat.new.view ≡ noted config.now wish.now ticket seat.old.view edit.now }
    ensures tlb { seat.new.tlb ≡ seat.old.tlb }
    ensures used { seat.new.view.used ≡ used.new }
{
    ask(config, wish);
    store_edit(words, seat, config, edit, wish, ticket);
    if is_pointer(edit.word()) {
        *used += 1;
    }
}

/// Makes the one store that a wish takes, or answers why none is due, over the home's view. The
/// ticket is for the order that an unmap or a protect opens; a map takes none.
pub fn edit(
    words: &Words,
    seat: &mut Seat,
    config: &Config,
    hart: u8,
    used: &mut u16,
    wish: &Wish,
    ticket: u32,
) -> Result<Edit, MapFault>
    requires fit { IsFit words.now.table_id words.now.key config.now seat.old }
    requires hart { seat.old.view.hart ≡ hart }
    requires used { seat.old.view.used ≡ used.old }
    requires place { HasPlace (layout_of config.now) (place_of wish.now) }
    ensures fit { IsFit words.now.table_id words.now.key config.now seat.new }
    ensures answer { result ≡ edit_over (layout_of config.now) seat.old.view wish.now }
    ensures view { MatchResult result (λ edit. seat.new.view
        ≡ noted config.now wish.now ticket seat.old.view edit)
        (λ _. seat.new.view ≡ seat.old.view) }
    ensures tlb { seat.new.tlb ≡ seat.old.tlb }
    ensures used { seat.new.view.used ≡ used.new }
{
    let edit = match decide(words, seat, config, hart, *used, wish) {
        Ok(edit) => edit,
        Err(fault) => return Err(fault),
    };
    store(words, seat, config, used, &edit, wish, ticket);
    Ok(edit)
}
