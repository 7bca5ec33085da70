//! The opening of the words, and a seat for each hart.

ghost use Rattle.std.specs.Prelude.{◌≡◌, ◌<◌, [], IfOk};
ghost use Rattle.spaces.specs.Limits.{MeetsLimits};
ghost use Rattle.spaces.specs.declared.configuration.TheConstants.{MAX_LIVE_FRAMES};
ghost use Rattle.spaces.specs.Layout.{layout_of};
ghost use Rattle.views.specs.Rule.{board_words, dealer, dealt, first_view};
ghost use Rattle.views.specs.OnBoard.{IsFit, IsOnBoard};

use crate::rule::{Memory, Words};
use crate::seat::{Seat, load};
use shoot::MAX_TICKETS;
use spaces::{Config, first_words};
use std::alloc::{AllocError, Global};
use std::marker::Brand;

/// How many tickets a hart has.
pub(crate) const TICKETS: u64 = MAX_TICKETS as u64;

/// The words of all frames at the opening, and the cells, which are 0.
fn board_words(alloc: Global, config: &Config) -> Result<Vec<u64>, AllocError>
    requires { MeetsLimits MAX_LIVE_FRAMES config.now }
    ensures { IfOk result (λ words. words.items ≡ board_words (layout_of config.now)) }
{
    let mut words = first_words(alloc, config)?;
    let harts = u64::from(config.harts);
    for _at in 0..harts * harts * TICKETS {
        words.push(0)?;
    }
    Ok(words)
}

/// A load by a new seat, which then knows that it is on the board, by its hart's number.
fn sit(words: &Words, seat: &mut Seat)
    requires same { seat.old.table_id ≡ words.now.table_id }
    requires inside { 0 < words.now.table_id.words }
    ensures same { seat.new.table_id ≡ seat.old.table_id }
    ensures view { seat.new.view ≡ seat.old.view }
    ensures tlb { seat.new.tlb ≡ seat.old.tlb }
    ensures number { seat.new.id ≡ seat.new.view.hart }
    ensures on_board { IsOnBoard seat.new.view }
{
    load::<Brand, _>(words, seat, 0, &());
}

/// The words of a configuration, with the seat of hart 0, from which the others are dealt.
pub fn open(alloc: Global, config: &Config) -> Result<(Memory, Seat), AllocError>
    requires { MeetsLimits MAX_LIVE_FRAMES config.now }
    ensures fit { IfOk result (λ t. IsFit t.0.shared.table_id t.0.shared.key config.now t.1) }
    ensures view { IfOk result (λ t. t.1.view ≡ first_view config.now) }
    ensures tlb { IfOk result (λ t. t.1.tlb ≡ record { scheme = config.now.scheme; entries = [] }) }
{
    let words = board_words(alloc, config)?;
    let (memory, right) = Memory::of_words(alloc, words.as_slice(), config)?;
    let mut first = Seat::new(right, config.scheme);
    sit(&memory.shared, &mut first);
    Ok((memory, first))
}

/// The seat of the next hart.
pub fn deal(words: &Words, first: &mut Seat, config: &Config) -> Seat
    requires fit { IsFit words.now.table_id words.now.key config.now first.old }
    requires next { (0 < first.old.view.next) × (first.old.view.next < config.now.harts) }
    ensures fit { IsFit words.now.table_id words.now.key config.now first.new
        × IsFit words.now.table_id words.now.key config.now result }
    ensures first { first.new.view ≡ dealer first.old.view }
    ensures next { result.view ≡ dealt first.old.view }
    ensures tlb { first.new.tlb ≡ first.old.tlb }
    ensures empty { result.tlb ≡ record { scheme = config.now.scheme; entries = [] } }
{
    let mut seat = first.split(words, config.scheme);
    sit(words, first);
    sit(words, &mut seat);
    seat
}
