//! Spaces that a hart which is not there retires, gives back and creates.

use super::{opened, refused, steps, two_spaces};
use stepcore::{Event, Refusal};

fn retire(hart: u8, space: u8) -> Event {
    Event::Retire { hart, space }
}

fn reclaim(hart: u8, space: u8) -> Event {
    Event::Reclaim { hart, space }
}

fn create(hart: u8, space: u8, asid: u16) -> Event {
    Event::Create { hart, space, asid }
}

#[test]
fn harts_that_are_not_there_retire_nothing(rt: HostRuntime) {
    let mut machine = opened(&rt, rt.alloc(), &two_spaces());
    let rows = [
        (retire(2, 1), refused(Refusal::NoHart)),
        (reclaim(2, 1), refused(Refusal::NoHart)),
        (create(2, 1, 2), refused(Refusal::NoHart)),
    ];
    steps(&rt, &mut machine, &rows);
}
