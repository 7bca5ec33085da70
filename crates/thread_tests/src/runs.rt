use crate::calls::{Answer, Row, Step, assert_row, request_taken};
use crate::live_calls::{answer_of, step_of};
use arrayvec::ArrayVec;
use harts::*;
use history::LiveStep;
use pte::Scheme;
use spaces::{Config, Space};
use std::alloc::{AllocError, Global};
use std::process::Abort;
use std::sync::Wait;
use std::test::Fail;
use std::thread::Threads;

/// More turns than any run of a test takes.
pub(crate) const MANY_TURNS: u32 = 1_000_000_000;

/// This many harts, each the home of the space of its number, whose ASID is one more. Each hart has
/// 8 spare frames, and the mailboxes have a capacity of 4.
pub(crate) fn homes(harts: u8) -> Config {
    let mut spaces = ArrayVec::new();
    let mut spares = ArrayVec::new();
    for home in 0..8_u8 {
        if home < harts && spaces.len() < 8 && spares.len() < 8 {
            let asid = u16::from(home) + 1;
            spaces.push(Space { home, asid });
            spares.push(8);
        }
    }
    Config {
        scheme: Scheme::Sv39,
        harts: u16::from(harts),
        spaces,
        window: 1,
        base: 0x8_0000,
        spares,
        capacity: 4,
    }
}

/// The run, if setup's harts exist and there are no more scripts than harts.
pub(crate) fn run<R: Threads + Wait + Sync, G: Gate + Sync>(
    rt: &R,
    alloc: Global,
    config: &Config,
    setup: &[(u8, LiveStep)],
    scripts: &[Vec<LiveStep>],
    turns: u32,
    gate: &G,
) -> Option<Result<LiveReport, LiveFault>> {
    if !setup.iter().all(|step| u16::from(step.0) < config.harts) {
        return None;
    }
    if scripts.len() > usize::from(config.harts) {
        return None;
    }
    Some(run_live(rt, alloc, config, setup, scripts, turns, gate))
}

/// The steps of setup of rows.
pub(crate) fn setup_of(alloc: Global, rows: &[Row]) -> Result<Vec<(u8, LiveStep)>, AllocError> {
    let mut setup = Vec::with_capacity(alloc, rows.len())?;
    for (hart, call, _) in rows {
        if let Some(step) = step_of(call) {
            setup.push((*hart, step))?;
        }
    }
    Ok(setup)
}

/// The steps of a script of rows.
fn script_of(alloc: Global, rows: &[Step]) -> Result<Vec<LiveStep>, AllocError> {
    let mut script = Vec::with_capacity(alloc, rows.len())?;
    for (call, _) in rows {
        if let Some(step) = step_of(call) {
            script.push(step)?;
        }
    }
    Ok(script)
}

/// The scripts of this many harts: hart 0 has one, and each other hart has the other one.
fn scripts_of(
    alloc: Global,
    count: u8,
    first: &[Step],
    others: &[Step],
) -> Result<Vec<Vec<LiveStep>>, AllocError> {
    let mut scripts = Vec::with_capacity(alloc, usize::from(count))?;
    for hart in 0..count {
        let rows = if hart == 0 { first } else { others };
        scripts.push(script_of(alloc, rows)?)?;
    }
    Ok(scripts)
}

/// The run, which there is.
pub(crate) fn report_of<R: Threads + Wait + Sync, G: Gate + Sync>(
    rt: &R,
    alloc: Global,
    config: &Config,
    setup: &[(u8, LiveStep)],
    scripts: &[Vec<LiveStep>],
    turns: u32,
    gate: &G,
) -> Result<LiveReport, Fail> {
    match run(rt, alloc, config, setup, scripts, turns, gate) {
        Some(Ok(report)) => Ok(report),
        _ => Err(Fail::new("no run")),
    }
}

/// There is no run under a layout.
pub(crate) fn assert_refused<R: Threads + Wait + Sync + Abort>(
    rt: &R,
    alloc: Global,
    config: &Config,
) {
    let refused = run(rt, alloc, config, &[], &[], 3, &OpenGate);
    assert!(rt; matches!(&refused, Some(Err(LiveFault::BadLayout))));
}

/// The step of that number has an answer. One that is missing has none.
fn assert_answer(rt: &impl Abort, replies: &[LiveReply], number: usize, expected: &Answer) {
    let answer = match replies.get(number) {
        Some(reply) => answer_of(reply),
        None => Answer::Missing,
    };
    assert_row(rt, number, answer == *expected);
}

/// Each step of setup has the answer of its row.
fn assert_answers(rt: &impl Abort, replies: &[LiveReply], rows: &[Row]) {
    assert!(rt; replies.len() == rows.len());
    for (number, row) in rows.iter().enumerate() {
        assert_answer(rt, replies, number, &row.2);
    }
}

/// Each step of a script has the answer of its row, and those that are missing have none.
fn assert_script(rt: &impl Abort, replies: &[LiveReply], rows: &[Step]) {
    assert!(rt; replies.len() <= rows.len());
    for (number, row) in rows.iter().enumerate() {
        assert_answer(rt, replies, number, &row.1);
    }
}

/// How many harts there are, how many of them have a script, from hart 0 on, and the turns.
#[derive(Clone, Copy)]
pub(crate) struct Shape {
    pub(crate) harts: u8,
    pub(crate) scripts: u8,
    pub(crate) turns: u32,
}

/// Each step of the scripts has the answer of its row, and a hart without a script answers nothing.
fn assert_answered(
    rt: &impl Abort,
    shape: &Shape,
    answers: &[Vec<LiveReply>],
    first: &[Step],
    others: &[Step],
) {
    assert!(rt; answers.len() == usize::from(shape.harts));
    for (hart, replies) in answers.iter().enumerate() {
        let replies = replies.as_slice();
        if usize::from(shape.scripts) <= hart {
            assert!(rt; replies.is_empty());
        } else if hart == 0 {
            assert_script(rt, replies, first);
        } else {
            assert_script(rt, replies, others);
        }
    }
}

/// Each step of setup, and then of the script of hart 0 and of that of each other hart, has the
/// answer of its row.
pub(crate) fn assert_run<R: Threads + Wait + Sync + Abort, G: Gate + Sync>(
    rt: &R,
    alloc: Global,
    shape: &Shape,
    rows: &[Row],
    first: &[Step],
    others: &[Step],
    gate: &G,
) -> Result<LiveReport, Fail> {
    let setup = setup_of(alloc, rows)?;
    let setup = setup.as_slice();
    let scripts = scripts_of(alloc, shape.scripts, first, others)?;
    let scripts = scripts.as_slice();
    let config = homes(shape.harts);
    let ran = report_of(rt, alloc, &config, setup, scripts, shape.turns, gate)?;
    assert_answers(rt, ran.setup.as_slice(), rows);
    assert_answered(rt, shape, ran.scripts.as_slice(), first, others);
    Ok(ran)
}

/// The same, and what became of the requests.
pub(crate) fn assert_whole<R: Threads + Wait + Sync + Abort, G: Gate + Sync>(
    rt: &R,
    alloc: Global,
    shape: &Shape,
    rows: &[Row],
    first: &[Step],
    others: &[Step],
    pairs: &[Pair],
    gate: &G,
) -> Result<(), Fail> {
    let ran = assert_run(rt, alloc, shape, rows, first, others, gate)?;
    assert_pairs(rt, ran.report.pairs.as_slice(), pairs);
    Ok(())
}

/// Each step of setup, run alone by two harts, has the answer of its row.
pub(crate) fn assert_setup<R: Threads + Wait + Sync + Abort>(
    rt: &R,
    alloc: Global,
    turns: u32,
    rows: &[Row],
) -> Result<LiveReport, Fail> {
    let shape = Shape {
        harts: 2,
        scripts: 0,
        turns,
    };
    assert_run(rt, alloc, &shape, rows, &[], &[], &OpenGate)
}

/// Each step of the scripts of two harts, run with no setup, has the answer of its row.
pub(crate) fn assert_scripts<R: Threads + Wait + Sync + Abort, G: Gate + Sync>(
    rt: &R,
    alloc: Global,
    here: &[Step],
    there: &[Step],
    turns: u32,
    pairs: &[Pair],
    gate: &G,
) -> Result<(), Fail> {
    let shape = Shape {
        harts: 2,
        scripts: 2,
        turns,
    };
    assert_whole(rt, alloc, &shape, &[], here, there, pairs, gate)
}

/// What became of the requests of a hart to another: how many were accepted, and how many of these
/// were taken. The others wait.
pub(crate) type Pair = (u8, u8, u64, u64);

/// No hart of two asks the other anything.
pub(crate) const NO_REQUESTS: [Pair; 2] = [(0, 1, 0, 0), (1, 0, 0, 0)];

fn is_pair(pair: &PairReport, row: &Pair) -> bool {
    let (sender, receiver, accepted, taken) = *row;
    pair.sender == sender
        && pair.receiver == receiver
        && pair.accepted == accepted
        && pair.taken == taken
        && accepted.checked_sub(taken) == Some(pair.waiting.len() as u64)
}

/// The pairs, in their order.
pub(crate) fn assert_pairs(rt: &impl Abort, pairs: &[PairReport], rows: &[Pair]) {
    assert!(rt; pairs.len() == rows.len());
    for (number, row) in rows.iter().enumerate() {
        let is_right = match pairs.get(number) {
            Some(pair) => is_pair(pair, row),
            None => false,
        };
        assert_row(rt, number, is_right);
    }
}

/// There is a pair, of which one request was accepted and taken.
pub(crate) fn assert_pair(rt: &impl Abort, pairs: &[PairReport], sender: u8, receiver: u8) {
    let row = (sender, receiver, 1, 1);
    assert!(rt; pairs.iter().any(|pair| is_pair(pair, &row)));
}

/// What waits of the first pair are requests for everything, of tickets from this one on.
pub(crate) fn assert_waiting(rt: &impl Abort, pairs: &[PairReport], first: u32) {
    let Some(pair) = pairs.first() else {
        return assert_row(rt, 0, false);
    };
    for (ticket, request) in (first..64).zip(pair.waiting.iter()) {
        assert_row(rt, 0, request_taken(request) == Answer::TakenAll(ticket));
    }
}
