//! The service of a request: first the TLB drops what is asked, then the acknowledgement is stored.

ghost use Rattle.std.specs.Prelude.{◌≡◌, ◌<◌, length};
ghost use Rattle.spaces.specs.Layout.{layout_of};
ghost use Rattle.tlb.specs.Service.{after_service};
ghost use Rattle.views.specs.OnBoard.{IsFit};
ghost use Rattle.views.specs.OrderTurns.{IsAsking, acknowledged, self_acked};

use crate::cells::{acknowledge, acknowledge_self};
use crate::rule::Words;
use crate::seat::Seat;
use shoot::Request;
use spaces::Config;

/// Serves the request of another hart.
#[tactic(auto, using(tlb::proofs::Keeping::served_are_gone))]
pub fn serve(words: &Words, seat: &mut Seat, config: &Config, hart: u8, from: u8, request: &Request)
    requires fit { IsFit words.now.table_id words.now.key config.now seat.old }
    requires hart { seat.old.view.hart ≡ hart }
    requires from { from < length (layout_of config.now).spares }
    ensures fit { IsFit words.now.table_id words.now.key config.now seat.new }
    ensures view { seat.new.view
        ≡ acknowledged from request.now.ticket request.now.what seat.old.view }
    ensures tlb { seat.new.tlb ≡ record seat.old.tlb
        { entries = after_service seat.old.tlb.entries request.now.what } }
{
    seat.drop_from_tlb(&request.what);
    acknowledge(words, seat, config, hart, from, request)
}

/// Serves the hart's own request, that of an open order of its own; the hart is then collected.
#[tactic(auto, using(tlb::proofs::Keeping::served_are_gone))]
pub fn serve_self(words: &Words, seat: &mut Seat, config: &Config, hart: u8, request: &Request)
    requires fit { IsFit words.now.table_id words.now.key config.now seat.old }
    requires hart { seat.old.view.hart ≡ hart }
    requires asks { IsAsking config.now seat.old.view request.now.ticket request.now.what }
    ensures fit { IsFit words.now.table_id words.now.key config.now seat.new }
    ensures view { seat.new.view ≡ self_acked request.now.ticket request.now.what seat.old.view }
    ensures tlb { seat.new.tlb ≡ record seat.old.tlb
        { entries = after_service seat.old.tlb.entries request.now.what } }
{
    let asked = request.what;
    seat.drop_from_tlb(&asked);
    acknowledge_self(words, seat, config, hart, request)
}
