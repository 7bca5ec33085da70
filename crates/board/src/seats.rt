//! A seat for each hart in the shared words.

ghost use Rattle.std.specs.Prelude.{◌≡◌, IfOk, [], length};
ghost use Rattle.std.specs.Arc.{arc_value};
ghost use Rattle.spaces.specs.Limits.{MeetsLimits};
ghost use Rattle.spaces.specs.declared.configuration.TheConstants.{MAX_LIVE_FRAMES};
ghost use Rattle.views.specs.Rule.{first_view};
ghost use Rattle.views.specs.OnBoard.{IsFit};
ghost use Rattle.board.specs.Seats.{AreSeats};

use spaces::Config;
use std::alloc::{AllocError, Global};
use std::sync::Arc;
use views::{Memory, Seat, Words, deal, open};

/// The seats of all harts, of which the first one deals the others.
fn deal_seats(
    alloc: Global,
    words: &Words,
    mut first: Seat,
    config: &Config,
) -> Result<Vec<Seat>, AllocError>
    requires limits { MeetsLimits MAX_LIVE_FRAMES config.now }
    requires fit { IsFit words.now.table_id words.now.key config.now first }
    requires first { first.view ≡ first_view config.now }
    requires empty { first.tlb ≡ record { scheme = config.now.scheme; entries = [] } }
    ensures count { IfOk result (λ seats. length seats.items ≡ config.now.harts) }
    ensures seats { IfOk result (λ seats.
        AreSeats words.now.table_id words.now.key config.now 0 seats.items) }
{
    let mut seats = Vec::new(alloc);
    for _hart in 1..config.harts {
        let seat = deal(words, &mut first, config);
        seats.push(seat)?;
    }
    seats.insert(0, first)?;
    Ok(seats)
}

/// The words of a configuration, and the seats of its harts in order.
pub(crate) fn open_seats(
    alloc: Global,
    config: &Config,
) -> Result<(Arc<Memory, Global>, Vec<Seat>), AllocError>
    requires { MeetsLimits MAX_LIVE_FRAMES config.now }
    ensures count { IfOk result (λ t. length t.1.items ≡ config.now.harts) }
    ensures seats { IfOk result (λ t.
        AreSeats (arc_value t.0).shared.table_id (arc_value t.0).shared.key config.now 0
        t.1.items) }
{
    let (memory, first) = open(alloc, config)?;
    let seats = deal_seats(alloc, &memory.shared, first, config)?;
    let memory = Arc::new(alloc, memory)?;
    Ok((memory, seats))
}
