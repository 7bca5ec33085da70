use crate::calls::Answer::{Accepted, Done, Found, Leaf, Opened, Table, TakenPage, Waiting};
use crate::calls::Call::{AckSelf, Load, Map, Post, Serve, Unmap, Wait};
use crate::calls::Leaves::Readable;
use crate::calls::*;
use crate::gates::Steps;
use crate::runs::*;
use harts::*;
use spaces::Place;
use std::test::Fail;

// Hart 0 unmaps a page once all others have loaded it. Once it has posted to all, they load it
// again and serve. Once it has waited, they load it again, and at last once it has mapped the page
// anew.
#[derive(Drop)]
struct Rounds {
    steps: Steps,
}

impl Rounds {
    /// Waits until all harts but hart 0 have done a step.
    fn all_did(&self, step: u32) -> bool {
        for hart in 1..8 {
            if !self.steps.wait_for(hart, step) {
                return false;
            }
        }
        true
    }
}

impl Gate for Rounds {
    fn before(&self, hart: u8, step: u32) -> bool {
        match (hart, step) {
            (0, 1) => self.all_did(1),
            (0, 11) => self.all_did(4),
            (0, _) | (_, 1) => true,
            (_, 2) => self.steps.wait_for(0, 8),
            (_, 4) => self.steps.wait_for(0, 10),
            (_, 5) => self.steps.wait_for(0, 11),
            _ => true,
        }
    }

    fn after(&self, hart: u8, step: u32) {
        self.steps.end(hart, step);
    }
}

const OWN: Place = Place::Space(0);

/// Hart 0 maps the page: eight roots and the kernel's table are below its spare frames.
const MAPPED: [Row; 3] = [
    (0, Map(OWN, 0x1000, 0x100, Readable), Table(0x8_0009)),
    (0, Map(OWN, 0x1000, 0x100, Readable), Table(0x8_000a)),
    (0, Map(OWN, 0x1000, 0x100, Readable), Leaf),
];

// The page is unmapped, and at the end mapped anew.
const UNMAPS: [Step; 11] = [
    (Unmap(OWN, 0x1000, 0b1111_1111), Opened(0)),
    (Post(0, 1), Accepted),
    (Post(0, 2), Accepted),
    (Post(0, 3), Accepted),
    (Post(0, 4), Accepted),
    (Post(0, 5), Accepted),
    (Post(0, 6), Accepted),
    (Post(0, 7), Accepted),
    (AckSelf(0), Waiting(0b1111_1110)),
    (Wait(0), Done),
    (Map(OWN, 0x1000, 0x101, Readable), Leaf),
];

// The page is loaded before and after each thing that hart 0 does.
const LOADS: [Step; 5] = [
    (Load(0x1004), Found(0x10_0004)),
    (Load(0x1004), Found(0x10_0004)),
    (Serve(0), TakenPage(0, 0x1000, Some(1))),
    (Load(0x1004), INVALID),
    (Load(0x1004), Found(0x10_1004)),
];

// As long as a hart has not served, it may use what it holds. Once the wait of the hart that asked
// was answered with `Done`, it finds nothing, and then what is mapped anew.
#[test]
fn nothing_is_found_once_waited(rt: HostRuntime) -> Result<(), Fail> {
    let shape = Shape {
        harts: 8,
        scripts: 8,
        turns: MANY_TURNS,
    };
    let gate = Rounds {
        steps: Steps::new(),
    };
    let (first, others) = (UNMAPS.as_slice(), LOADS.as_slice());
    let ran = assert_run(
        &rt,
        rt.alloc(),
        &shape,
        MAPPED.as_slice(),
        first,
        others,
        &gate,
    )?;
    for other in 1..8 {
        assert_pair(&rt, ran.report.pairs.as_slice(), 0, other);
    }
    Ok(())
}
