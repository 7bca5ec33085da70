use crate::calls::Answer::{Accepted, Done, Leaf, Opened, Table, Waiting};
use crate::calls::Call::{AckSelf, Map, Post, Unmap, Wait};
use crate::calls::Leaves::Readable;
use crate::calls::*;
use crate::runs::*;
use harts::*;
use spaces::Place;
use std::sync::atomic::{AtomicBool, Ordering};
use std::test::Fail;
use std::thread;

// Each of two harts sets its flag before its first step, and then waits until the other's is set.
#[derive(Drop)]
struct Meeting {
    flags: [AtomicBool; 2],
}

impl Meeting {
    fn new() -> Meeting {
        Meeting {
            flags: [AtomicBool::new(false), AtomicBool::new(false)],
        }
    }
}

impl Gate for Meeting {
    fn before(&self, hart: u8, step: u32) -> bool {
        if step != 1 || hart > 1 {
            return true;
        }
        let own = usize::from(hart);
        self.flags[own].store(true, Ordering::SeqCst);
        for _ in 0..1_000_000_000_u32 {
            if self.flags[1 - own].load(Ordering::SeqCst) {
                return true;
            }
            thread::yield_now();
        }
        false
    }

    fn after(&self, _hart: u8, _step: u32) {}
}

/// The space of hart 0, and that of hart 1.
const FIRST: Place = Place::Space(0);

const SECOND: Place = Place::Space(1);

const MAPPED: [Row; 6] = [
    (0, Map(FIRST, 0x1000, 0x100, Readable), Table(0x8_0003)),
    (0, Map(FIRST, 0x1000, 0x100, Readable), Table(0x8_0004)),
    (0, Map(FIRST, 0x1000, 0x100, Readable), Leaf),
    (1, Map(SECOND, 0x2000, 0x200, Readable), Table(0x8_000b)),
    (1, Map(SECOND, 0x2000, 0x200, Readable), Table(0x8_000c)),
    (1, Map(SECOND, 0x2000, 0x200, Readable), Leaf),
];

const OF_HART_0: [Step; 4] = [
    (Unmap(FIRST, 0x1000, 0b11), Opened(0)),
    (Post(0, 1), Accepted),
    (AckSelf(0), Waiting(0b10)),
    (Wait(0), Done),
];

const OF_HART_1: [Step; 4] = [
    (Unmap(SECOND, 0x2000, 0b11), Opened(0)),
    (Post(0, 0), Accepted),
    (AckSelf(0), Waiting(0b01)),
    (Wait(0), Done),
];

const BOTH_SERVED: [Pair; 2] = [(0, 1, 1, 1), (1, 0, 1, 1)];

// Each hart maps a page of its space; then both unmap it in both harts, at once. No order in which
// one script goes before the other gives it: each waits until the other has served.
#[test]
fn both_harts_run(rt: HostRuntime) -> Result<(), Fail> {
    let shape = Shape {
        harts: 2,
        scripts: 2,
        turns: MANY_TURNS,
    };
    assert_whole(
        &rt,
        rt.alloc(),
        &shape,
        MAPPED.as_slice(),
        OF_HART_0.as_slice(),
        OF_HART_1.as_slice(),
        BOTH_SERVED.as_slice(),
        &Meeting::new(),
    )
}
