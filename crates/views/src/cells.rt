//! The atomic steps on acknowledgement cells, each with what its seat knows after it. A cell holds
//! 0 when it is armed, and then the word of the request that its receiver served.

ghost use Rattle.std.specs.Prelude.{◌≡◌, ◌<◌, ◌==◌, length, not};
ghost use Rattle.std.specs.List.{AllPass};
ghost use Rattle.pte.specs.declared.address.What.{What as Asked};
ghost use Rattle.spaces.specs.Layout.{layout_of};
ghost use Rattle.spaces.specs.Limits.{MeetsLimits};
ghost use Rattle.spaces.specs.declared.configuration.TheConstants.{MAX_LIVE_FRAMES};
ghost use Rattle.tlb.specs.Service.{is_dropped};
ghost use Rattle.views.specs.Rule.{board_size, cell};
ghost use Rattle.views.specs.OnBoard.{IsFit};
ghost use Rattle.shoot.specs.declared.TheConstants.{MAX_TICKETS};
ghost use Rattle.shoot.specs.Acknowledgement.{IsAskable, acknowledgement};
ghost use Rattle.views.specs.OrderTurns.{IsAsking, IsAwaiting, acknowledged, last_word, looked, ordered, self_acked, with_armed};

use crate::rule::Words;
use crate::seat::{Seat, load, store};
use pte::{TABLE_LENGTH, What};
use shoot::{MAX_TICKETS, Request, encode};
use spaces::Config;
use std::marker::Brand;

/// Where a cell stands among all words: after those of the tables, by sender, receiver and ticket.
/// The cells of a sender and a receiver are 64 words side by side, so that they share a cache line
/// with others at most at their ends.
fn cell(config: &Config, sender: u8, ticket: u32, receiver: u8) -> usize
    requires limits { MeetsLimits MAX_LIVE_FRAMES config.now }
    requires sender { sender < length (layout_of config.now).spares }
    requires ticket { ticket < MAX_TICKETS }
    requires receiver { receiver < length (layout_of config.now).spares }
    ensures value { result ≡ cell (layout_of config.now) sender ticket receiver }
    ensures range { result < board_size (layout_of config.now) }
{
    let words = config.frame_count() * u64::from(TABLE_LENGTH);
    let pair = u64::from(sender) * u64::from(config.harts) + u64::from(receiver);
    (words + (pair * MAX_TICKETS as u64 + u64::from(ticket))) as usize
}

/// Does nothing; its contract says that what is to be dropped can be asked.
fn recall(what: &What)
    ensures { IsAskable what.now }
{
    match *what {
        What::PageOf(page, Some(_asid)) => page.recall(),
        What::PageOf(page, None) => page.recall(),
        What::SpaceOf(asid) => {
            let _small = asid <= u16::MAX;
        }
        What::All => {}
    }
}

/// Opens an order that follows no store, as that of a flush, under a ticket. What a seat knows
/// changes by a step alone, so it loads the hart's own cell, and ignores the word.
pub fn open_order(words: &Words, seat: &mut Seat, config: &Config, hart: u8, request: &Request)
    requires fit { IsFit words.now.table_id words.now.key config.now seat.old }
    requires hart { seat.old.view.hart ≡ hart }
    ensures fit { IsFit words.now.table_id words.now.key config.now seat.new }
    ensures view { seat.new.view ≡ ordered request.now.ticket request.now.what seat.old.view }
    ensures tlb { seat.new.tlb ≡ seat.old.tlb }
    ensures asks { IsAsking config.now seat.new.view request.now.ticket request.now.what }
{
    let at = cell(config, hart, request.ticket, hart);
    recall(&request.what);
    let _word = load::<Brand, _>(words, seat, at, &(request.ticket, request.what));
}

/// The store of 0 to the cell of a receiver, by the sender, before its request is pushed.
pub fn arm(words: &Words, seat: &mut Seat, config: &Config, hart: u8, ticket: u32, to: u8)
    requires fit { IsFit words.now.table_id words.now.key config.now seat.old }
    requires hart { seat.old.view.hart ≡ hart }
    requires ticket { ticket < MAX_TICKETS }
    requires to { to < length (layout_of config.now).spares }
    ensures fit { IsFit words.now.table_id words.now.key config.now seat.new }
    ensures view { seat.new.view ≡ with_armed ticket to seat.old.view }
    ensures tlb { seat.new.tlb ≡ seat.old.tlb }
    ensures awaits { (what : Asked) → IsAsking config.now seat.old.view ticket what
        → IsAwaiting config.now seat.new.view ticket to what }
{
    let at = cell(config, hart, ticket, to);
    store::<Brand, _>(words, seat, at, 0, &(ticket, to))
}

/// The store of a request's word to the sender's cell, by its receiver, whose TLB has nothing left
/// that the request drops.
pub(crate) fn acknowledge(
    words: &Words,
    seat: &mut Seat,
    config: &Config,
    hart: u8,
    from: u8,
    request: &Request,
)
    requires fit { IsFit words.now.table_id words.now.key config.now seat.old }
    requires hart { seat.old.view.hart ≡ hart }
    requires from { from < length (layout_of config.now).spares }
    requires served { AllPass (λ e. not (is_dropped request.now.what e)) seat.old.tlb.entries }
    ensures fit { IsFit words.now.table_id words.now.key config.now seat.new }
    ensures view { seat.new.view
        ≡ acknowledged from request.now.ticket request.now.what seat.old.view }
    ensures tlb { seat.new.tlb ≡ seat.old.tlb }
{
    let word = encode(request);
    let at = cell(config, from, request.ticket, hart);
    store::<Brand, _>(words, seat, at, word, &(from, request.ticket, request.what))
}

/// The same where the sender is the receiver, which is then collected.
pub(crate) fn acknowledge_self(
    words: &Words,
    seat: &mut Seat,
    config: &Config,
    hart: u8,
    request: &Request,
)
    requires fit { IsFit words.now.table_id words.now.key config.now seat.old }
    requires hart { seat.old.view.hart ≡ hart }
    requires asks { IsAsking config.now seat.old.view request.now.ticket request.now.what }
    requires served { AllPass (λ e. not (is_dropped request.now.what e)) seat.old.tlb.entries }
    ensures fit { IsFit words.now.table_id words.now.key config.now seat.new }
    ensures view { seat.new.view ≡ self_acked request.now.ticket request.now.what seat.old.view }
    ensures tlb { seat.new.tlb ≡ seat.old.tlb }
{
    let word = encode(request);
    let at = cell(config, hart, request.ticket, hart);
    store::<Brand, _>(words, seat, at, word, &(request.ticket, request.what))
}

/// Whether a word that stands in a cell acknowledges the request. What an armed cell holds, 0, is
/// the word of no request, so most looks need none.
#[inline(always)]
fn acknowledges(word: u64, request: &Request) -> bool
    ensures { result ≡ (word == acknowledgement request.now.what) }
{
    word != 0 && word == encode(request)
}

/// The load of a receiver's cell by the sender, for the open order of the request's ticket, for
/// which the cell was armed. Whether it holds the request's word: then the receiver is collected.
pub fn collect(
    words: &Words,
    seat: &mut Seat,
    config: &Config,
    hart: u8,
    from: u8,
    request: &Request,
) -> bool
    requires fit { IsFit words.now.table_id words.now.key config.now seat.old }
    requires hart { seat.old.view.hart ≡ hart }
    requires from { from < length (layout_of config.now).spares }
    requires awaits { IsAwaiting config.now seat.old.view request.now.ticket from request.now.what }
    ensures fit { IsFit words.now.table_id words.now.key config.now seat.new }
    ensures found { result
        ≡ (last_word seat.new.view.cell_steps == acknowledgement request.now.what) }
    ensures view { seat.new.view
        ≡ looked request.now.ticket from result (last_word seat.new.view.cell_steps) seat.old.view }
    ensures tlb { seat.new.tlb ≡ seat.old.tlb }
    ensures awaits { IsAwaiting config.now seat.new.view request.now.ticket from request.now.what }
{
    let at = cell(config, hart, request.ticket, from);
    let word = load::<Brand, _>(words, seat, at, &(from, request.ticket, request.what));
    acknowledges(word, request)
}
