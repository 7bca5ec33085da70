//! The rule, and a step under it.

ghost use Rattle.std.specs.Prelude.{◌≡◌, ℕ, []};

use crate::view::{SeatView, View};
use atomic_table::{Join, Play, Seat, Shared, Split, Table, TableRule};
use spaces::Config;
use std::alloc::Global;
use std::marker::{Brand, PhantomData};

/// The board's rule.
pub struct Rule;

impl TableRule<u8, SeatView, Config> for Rule {
    ghost use Rattle.views.specs.Gathered.{BoardAndSeats, in_use};
    ghost use Rattle.views.specs.Rule.{first_view};

    ghost holds = { BoardAndSeats };

    ghost first = { λ c. in_use (first_view c) };
}

/// The shared words with their memory.
pub type Memory = Table<u8, SeatView, Config, Rule, Global>;

/// The shared words: those of all table frames, then the cells.
pub type Words = Shared<u8, SeatView, Config, Rule>;

/// The right of one hart to step, with what it knows.
pub(crate) type Right = Seat<u8, SeatView>;

/// What a seat knows after a step, by the word that it found, and what else the step says.
pub trait Turn {
    ghost use Rattle.views.specs.declared.view.View.{View};

    ghost after: { ℕ → View };

    ghost tells: { ℕ → Type 0 };
}

/// Each call picks what it says.
impl Turn for Brand {
    ghost use Rattle.views.specs.Gathered.{no_view};

    ghost after = { λ _. no_view };

    ghost tells = { λ _. Unit {0} };
}

/// The step after which the seat knows what `T` says.
pub struct To<T>(PhantomData<T>);

impl<T: Turn> Play<u8, SeatView> for To<T> {
    ghost use Rattle.views.specs.Gathered.{in_use};
    ghost use Rattle.views.specs.OnBoard.{IsOnBoard};

    ghost then = { λ st m n m'. (m' ≡ (in_use (T.after n), [])) × T.tells n
        × IsOnBoard m'.0.view × (m'.0.view.hart ≡ m.0.view.hart) };
}

/// How a seat is cut off the first one: the next hart's.
pub struct Deal;

impl Split<SeatView> for Deal {
    ghost use Rattle.views.specs.Gathered.{in_use};
    ghost use Rattle.views.specs.Rule.{dealer, dealt};

    ghost left = { λ seat. in_use (dealer seat.view) };

    ghost right = { λ seat. in_use (dealt seat.view) };
}

/// How a seat is gathered with another one. Each call picks the seat that is given up.
impl Join<SeatView> for Brand {
    ghost use Rattle.views.specs.Gathered.{given_up, no_view, with_gathered};

    ghost both = { λ seat other. with_gathered other.view seat };

    ghost spent = { given_up no_view };
}

/// A load that shows a state of the board in which the views of all that were gathered stand, with
/// the one that is borrowed.
pub(crate) struct Together;

impl Play<u8, SeatView> for Together {
    ghost use Rattle.std.specs.Prelude.{◌∷◌, Option, Some};
    ghost use Rattle.views.specs.declared.view.View.{View};
    ghost use Rattle.views.specs.Gathered.{StandTogether, all_views};

    ghost then = { λ st m n m'. (m' ≡ m) × StandTogether (all_views m.0)
        × ((v : View) → m.0.borrowed ≡ Some v → StandTogether (m.0.view ∷ v ∷ [])) };
}

/// How a seat is lent: a notice of it is cut off.
pub(crate) struct Lend;

impl Split<SeatView> for Lend {
    ghost use Rattle.std.specs.Prelude.{Some};
    ghost use Rattle.views.specs.Gathered.{lent, notice};

    ghost left = { λ seat. lent seat.view };

    ghost right = { λ seat. notice (Some seat.view) };
}

/// How a seat borrows another one, of which it takes the notice.
pub(crate) struct Borrow;

impl Join<SeatView> for Borrow {
    ghost use Rattle.std.specs.Prelude.{None};
    ghost use Rattle.views.specs.Gathered.{notice};

    ghost both = { λ seat other. record seat { borrowed = other.borrowed } };

    ghost spent = { notice None };
}

/// How a seat that borrowed another one gives the notice of it away.
pub(crate) struct Return;

impl Split<SeatView> for Return {
    ghost use Rattle.std.specs.Prelude.{None};
    ghost use Rattle.views.specs.Gathered.{in_use, notice};

    ghost left = { λ seat. in_use seat.view };

    ghost right = { λ seat. notice seat.borrowed };
}

/// How a seat that was lent is used again, once it has the notice back.
pub(crate) struct Resume;

impl Join<SeatView> for Resume {
    ghost use Rattle.std.specs.Prelude.{None};
    ghost use Rattle.views.specs.Gathered.{in_use, notice};

    ghost both = { λ seat other. in_use seat.view };

    ghost spent = { notice None };
}
