//! Acknowledgements by cells.
ghost use Rattle.std.specs.Prelude.{◌≡◌, ◌<◌, length};
ghost use Rattle.spaces.specs.Layout.{layout_of};
ghost use Rattle.views.specs.OnBoard.{IsFit};

use crate::seats::two_harts;
use pte::{Scheme, What};
use shoot::Request;
use spaces::Config;
use std::process::Abort;
use std::test::Fail;
use views::{Seat, Words, arm, collect, deal, open, open_order, serve};

/// Hart 0 asks hart 1 to drop all that is of ASID 1. The acknowledgement is
/// found once it was stored, and not before.
fn ask_and_serve(rt: &impl Abort, words: &Words, seat: &mut Seat, other: &mut Seat, config: &Config)
    requires fit { IsFit words.now.table_id words.now.key config.now seat.old }
    requires hart { seat.old.view.hart ≡ 0 }
    requires other { IsFit words.now.table_id words.now.key config.now other.old }
    requires other_hart { other.old.view.hart ≡ 1 }
    requires harts { 1 < length (layout_of config.now).spares }
    ensures fit { IsFit words.now.table_id words.now.key config.now seat.new }
    ensures hart { seat.new.view.hart ≡ 0 }
    ensures other { IsFit words.now.table_id words.now.key config.now other.new }
    ensures other_hart { other.new.view.hart ≡ 1 }
{
    let request = Request {
        ticket: 0,
        what: What::SpaceOf(1),
    };
    open_order(words, seat, config, 0, &request);
    arm(words, seat, config, 0, 0, 1);
    let early = collect(words, seat, config, 0, 1, &request);
    assert!(rt; !early);
    serve(words, other, config, 1, 0, &request);
    let acknowledged = collect(words, seat, config, 0, 1, &request);
    assert!(rt; acknowledged);
}

// Under the same ticket, an old acknowledgement counts for no new order.
#[test]
fn old_acknowledgement(rt: HostRuntime) -> Result<(), Fail> {
    let config = two_harts(Scheme::Sv39);
    assert!(&rt; config.check_live() && 1 < config.harts);
    let (memory, mut seat) = open(rt.alloc(), &config)?;
    let words = &memory.shared;
    let mut other = deal(words, &mut seat, &config);
    ask_and_serve(&rt, words, &mut seat, &mut other, &config);
    ask_and_serve(&rt, words, &mut seat, &mut other, &config);
    Ok(())
}
