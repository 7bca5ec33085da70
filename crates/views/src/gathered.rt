//! Seats that came back, and one state of the board with the views of all of them.

ghost use Rattle.std.specs.Prelude.{◌≡◌, ◌<◌, [], ◌∷◌};
ghost use Rattle.views.specs.Gathered.{StandTogether};

use crate::rule::{Right, Together, Words};
use crate::seat::Seat;
use std::marker::{Brand, Model};

/// The seats of harts that came back, as one. None of them makes a step of its hart any more, so
/// what their harts knew stands together.
#[derive(Drop)]
pub struct Gathered {
    right: Right,
}

impl Model for Gathered {
    ghost use Rattle.std.specs.Prelude.{◌≡◌, []};
    ghost use Rattle.views.specs.Gathered.{GatheredState, IsInUse, all_views};

    ghost Value = { GatheredState };

    ghost view = { λ g. record {
      table_id = g.right.table_id;
      views = all_views g.right.me.0;
    } };

    ghost invariant = { λ g. (g.right.me.1 ≡ []) × IsInUse g.right.me.0 };
}

impl Gathered {
    /// One seat alone.
    pub fn of(seat: Seat) -> Gathered
        ensures table { result.table_id ≡ seat.table_id }
        ensures views { result.views ≡ seat.view ∷ [] }
    {
        Gathered {
            right: seat.into_right(),
        }
    }

    /// One seat more, of the same words.
    pub fn add(&mut self, words: &Words, seat: Seat)
        requires same { (self.old.table_id ≡ words.now.table_id)
            × (seat.table_id ≡ words.now.table_id) }
        requires inside { 0 < words.now.table_id.words }
        ensures table { self.new.table_id ≡ self.old.table_id }
        ensures views { self.new.views ≡ seat.view ∷ self.old.views }
    {
        let other = seat.into_right();
        words.join_seat::<Brand>(&mut self.right, other);
    }

    /// There is one state of the board in which all their views stand. What is known changes by a
    /// step alone, so this loads a word, and ignores it.
    pub fn stand(&mut self, words: &Words)
        requires same { self.old.table_id ≡ words.now.table_id }
        requires inside { 0 < words.now.table_id.words }
        ensures same { self.new ≡ self.old }
        ensures together { StandTogether self.new.views }
    {
        words.load::<Together>(&mut self.right, 0);
    }
}
