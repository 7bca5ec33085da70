use crate::calls::Answer::{
    Accepted, Done, Halted, Missing, Opened, Refused, TakenAll, Timeout, Waiting,
};
use crate::calls::Call::{AckSelf, Finish, Flush, Post, Serve, Wait};
use crate::calls::*;
use crate::gates::{Ending, Steps};
use crate::runs::*;
use harts::*;
use history::Refusal::{Empty, Full, NotDone, NotOpen};
use history::{Refusal, Scope};
use std::alloc::{AllocError, Global};
use std::test::Fail;

// No harts; a mailbox of more than 64 places; no number of spare frames for a hart; more frames
// than harts that are threads have.
#[test]
fn layout_is_refused(rt: HostRuntime) {
    assert_refused(&rt, rt.alloc(), &homes(0));
    let mut roomy = homes(2);
    roomy.capacity = 65;
    assert_refused(&rt, rt.alloc(), &roomy);
    let mut short = homes(2);
    short.harts = 3;
    assert_refused(&rt, rt.alloc(), &short);
    let mut large = homes(8);
    for spare in large.spares.iter_mut() {
        *spare = 11;
    }
    assert!(&rt; large.check() && !large.check_live());
    assert_refused(&rt, rt.alloc(), &large);
}

const ASKS_TWO: [Step; 5] = [
    (Flush(Scope::All, 0b111), Opened(0)),
    (Post(0, 1), Accepted),
    (Post(0, 2), Accepted),
    (AckSelf(0), Waiting(0b110)),
    (Wait(0), Done),
];

const BOTH_SERVED: [Pair; 6] = [
    (0, 1, 1, 1),
    (0, 2, 1, 1),
    (1, 0, 0, 0),
    (1, 2, 0, 0),
    (2, 0, 0, 0),
    (2, 1, 0, 0),
];

// Harts without a script answer nothing, and serve the others.
#[test]
fn fewer_scripts_than_harts(rt: HostRuntime) -> Result<(), Fail> {
    let shape = Shape {
        harts: 3,
        scripts: 1,
        turns: MANY_TURNS,
    };
    let (script, pairs) = (ASKS_TWO.as_slice(), BOTH_SERVED.as_slice());
    assert_whole(&rt, rt.alloc(), &shape, &[], script, &[], pairs, &OpenGate)
}

#[test]
fn no_scripts(rt: HostRuntime) -> Result<(), Fail> {
    let shape = Shape {
        harts: 1,
        scripts: 0,
        turns: 3,
    };
    assert_whole(&rt, rt.alloc(), &shape, &[], &[], &[], &[], &OpenGate)
}

const DONE_ALONE: [Step; 3] = [
    (Flush(Scope::All, 0b01), Opened(0)),
    (AckSelf(0), Done),
    (Wait(0), Done),
];

const HALTED_SECOND: [Step; 3] = [
    (Flush(Scope::All, 0b10), Opened(0)),
    (Flush(Scope::All, 0b10), Halted),
    (Flush(Scope::All, 0b10), Missing),
];

// The gate ends the script of hart 1 before its step 2: that is the last answer, and the gate is
// not called after the step.
#[test]
fn halted_by_the_gate(rt: HostRuntime) -> Result<(), Fail> {
    let (here, there) = (DONE_ALONE.as_slice(), HALTED_SECOND.as_slice());
    let gate = Ending::new(1, 2);
    assert_scripts(
        &rt,
        rt.alloc(),
        here,
        there,
        3,
        NO_REQUESTS.as_slice(),
        &gate,
    )?;
    assert!(&rt; gate.was_called(6, 3));
    Ok(())
}

const ONE_FLUSH: [Step; 1] = [(Flush(Scope::All, 0b01), Opened(0))];

const HALTED_THIRD: [Step; 3] = [
    (Flush(Scope::All, 0b10), Opened(0)),
    (Flush(Scope::All, 0b10), Opened(1)),
    (Flush(Scope::All, 0b10), Halted),
];

// The gate ends the script of hart 1 before its last step: there are as many answers as steps.
#[test]
fn halted_before_the_last_step(rt: HostRuntime) -> Result<(), Fail> {
    let (here, there) = (ONE_FLUSH.as_slice(), HALTED_THIRD.as_slice());
    let gate = Ending::new(1, 3);
    assert_scripts(
        &rt,
        rt.alloc(),
        here,
        there,
        3,
        NO_REQUESTS.as_slice(),
        &gate,
    )?;
    assert!(&rt; gate.was_called(2, 5));
    Ok(())
}

const ASKS_ONE: [Step; 4] = [
    (Flush(Scope::All, 0b11), Opened(0)),
    (Post(0, 1), Accepted),
    (AckSelf(0), Waiting(0b10)),
    (Wait(0), Done),
];

const HALTED_FIRST: [Step; 2] = [(Flush(Scope::All, 0b10), Halted), (Serve(0), Missing)];

/// One request of hart 0 to hart 1 is accepted and taken.
const ONE_THERE: [Pair; 2] = [(0, 1, 1, 1), (1, 0, 0, 0)];

// A hart whose script was halted before its first step serves the others, as any hart whose script
// has ended.
#[test]
fn halted_hart_serves(rt: HostRuntime) -> Result<(), Fail> {
    let (here, there) = (ASKS_ONE.as_slice(), HALTED_FIRST.as_slice());
    let gate = Ending::new(1, 1);
    let pairs = ONE_THERE.as_slice();
    assert_scripts(&rt, rt.alloc(), here, there, MANY_TURNS, pairs, &gate)
}

const SET_UP: [Row; 3] = [
    (0, Flush(Scope::All, 0b01), Opened(0)),
    (0, Wait(7), Refused(NotOpen)),
    (1, Wait(0), Refused(NotOpen)),
];

const HALTED_ALONE: [Step; 1] = [(AckSelf(0), Halted)];

// The gate is called for no step of setup.
#[test]
fn setup_passes_no_gate(rt: HostRuntime) -> Result<(), Fail> {
    let shape = Shape {
        harts: 2,
        scripts: 1,
        turns: 3,
    };
    let (rows, script) = (SET_UP.as_slice(), HALTED_ALONE.as_slice());
    let gate = Ending::new(0, 1);
    let pairs = NO_REQUESTS.as_slice();
    assert_whole(&rt, rt.alloc(), &shape, rows, script, &[], pairs, &gate)?;
    assert!(&rt; gate.was_called(1, 0));
    Ok(())
}

// Hart 1 is held back before its first step until hart 0 has waited.
#[derive(Drop)]
struct Held {
    steps: Steps,
}

impl Gate for Held {
    fn before(&self, hart: u8, _step: u32) -> bool {
        hart == 0 || self.steps.wait_for(0, 4)
    }

    fn after(&self, hart: u8, step: u32) {
        self.steps.end(hart, step);
    }
}

const WAITS_IN_VAIN: [Step; 5] = [
    (Flush(Scope::All, 0b11), Opened(0)),
    (Post(0, 1), Accepted),
    (AckSelf(0), Waiting(0b10)),
    (Wait(0), Timeout),
    (Wait(1), Refused(NotOpen)),
];

const SERVES_LATE: [Step; 2] = [(Serve(0), TakenAll(0)), (Serve(0), Refused(Empty))];

// Nobody serves while hart 0 waits, so the wait uses up its turns.
#[test]
fn wait_times_out(rt: HostRuntime) -> Result<(), Fail> {
    let (here, there) = (WAITS_IN_VAIN.as_slice(), SERVES_LATE.as_slice());
    let gate = Held {
        steps: Steps::new(),
    };
    assert_scripts(&rt, rt.alloc(), here, there, 3, ONE_THERE.as_slice(), &gate)
}

const FILLED: [Row; 10] = [
    (0, Flush(Scope::All, 0b11), Opened(0)),
    (0, Flush(Scope::All, 0b11), Opened(1)),
    (0, Flush(Scope::All, 0b11), Opened(2)),
    (0, Flush(Scope::All, 0b11), Opened(3)),
    (0, Flush(Scope::All, 0b11), Opened(4)),
    (0, Post(0, 1), Accepted),
    (0, Post(1, 1), Accepted),
    (0, Post(2, 1), Accepted),
    (0, Post(3, 1), Accepted),
    (0, Post(4, 1), Refused(Full)),
];

/// The row of that number: 1,000 collections follow, and then what is not done.
fn row_at(number: usize) -> Row {
    match FILLED.get(number) {
        Some(row) => *row,
        None if number == 1_010 => (0, Call::Finish(0), Answer::Refused(NotDone)),
        None if number == 1_011 => (0, Call::Wait(0), Answer::Timeout),
        None => (0, Call::Collect(0), Answer::Waiting(0b11)),
    }
}

fn unserved_rows(alloc: Global) -> Result<Vec<Row>, AllocError> {
    let mut rows = Vec::with_capacity(alloc, 1_012)?;
    for number in 0..1_012 {
        rows.push(row_at(number))?;
    }
    Ok(rows)
}

/// Four requests of hart 0 to hart 1 are accepted, and none taken.
const NONE_TAKEN: [Pair; 2] = [(0, 1, 4, 0), (1, 0, 0, 0)];

// Hart 1 never serves: with no turns, a hart whose script has ended does nothing for the others.
#[test]
fn nobody_serves(rt: HostRuntime) -> Result<(), Fail> {
    let rows = unserved_rows(rt.alloc())?;
    let ran = assert_setup(&rt, rt.alloc(), 0, rows.as_slice())?;
    let pairs = ran.report.pairs.as_slice();
    assert_pairs(&rt, pairs, NONE_TAKEN.as_slice());
    assert_waiting(&rt, pairs, 0);
    Ok(())
}
