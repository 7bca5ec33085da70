//! Two ports at one time.

ghost use Rattle.std.specs.Prelude.{◌≡◌, [], ◌∷◌};
ghost use Rattle.board.specs.Together.{ShareAState};

use crate::port::HartPort;
use views::meet;

impl HartPort {
    /// There is one state of the board with the views of both ports, so what one of them was
    /// answered is a fact of the other's TLB. It makes five loads whose words are ignored, and
    /// nothing changes.
    pub fn meet(&mut self, other: &mut HartPort)
        requires same { self.old.table ≡ other.old.table }
        ensures same { (self.new ≡ self.old) × (other.new ≡ other.old) }
        ensures together { ShareAState (self.new ∷ other.new ∷ []) }
    {
        self.seat.held();
        other.seat.held();
        let HartPort { memory, seat, .. } = self;
        meet(&memory.shared, seat, &mut other.seat);
    }
}
