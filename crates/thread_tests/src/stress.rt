use crate::accounts::Account;
use crate::calls::{Answer, assert_row};
use crate::live_calls::answer_of;
use crate::readers::Reader;
use crate::runs::{homes, report_of};
use crate::scripts::{Dice, map, page_of, ppn_of, script};
use harts::*;
use history::LiveStep;
use std::alloc::{AllocError, Global};
use std::process::Abort;
use std::sync::Wait;
use std::test::Fail;
use std::thread::Threads;

/// Each hart maps both pages of its space, as versions 0 and 1.
fn setup(alloc: Global) -> Result<Vec<(u8, LiveStep)>, AllocError> {
    let mut setup = Vec::with_capacity(alloc, 32)?;
    let (Some(first), Some(second)) = (page_of(0), page_of(1)) else {
        return Ok(setup);
    };
    for hart in 0..8_u8 {
        for (page, version) in [(first, 0), (first, 0), (first, 0), (second, 1)] {
            setup.push((hart, map(hart, page, ppn_of(hart, version))))?;
        }
    }
    Ok(setup)
}

/// The answer to a step of setup: two of each hart's eight spare frames are tables.
fn set_up(step: u8) -> Answer {
    let table = 0x8_0009 + 8 * u64::from(step / 4);
    match step % 4 {
        0 => Answer::Table(table),
        1 => Answer::Table(table + 1),
        _ => Answer::Leaf,
    }
}

fn assert_set_up(rt: &impl Abort, replies: &[LiveReply]) {
    assert!(rt; replies.len() == 32);
    for (step, reply) in (0..32_u8).zip(replies) {
        assert_row(rt, usize::from(step), answer_of(reply) == set_up(step));
    }
}

/// Whether an answer is one that a step of an orderly script may have: each wait is answered with
/// `Done`, and nothing is refused.
fn is_orderly(step: &LiveStep, reply: &LiveReply) -> bool {
    match step {
        LiveStep::Serve { .. } => true,
        LiveStep::Wait { .. } => answer_of(reply) == Answer::Done,
        _ => !matches!(answer_of(reply), Answer::Refused(_)),
    }
}

/// A step of a hart has an answer that may be given.
fn assert_step(rt: &impl Abort, hart: u8, number: usize, is_allowed: bool) {
    assert!(rt; is_allowed, "hart {hart}: step {number} has another answer");
}

/// What is of a hart.
fn row_of<T>(rows: &[Vec<T>], hart: u8) -> &[T] {
    match rows.get(usize::from(hart)) {
        Some(row) => row.as_slice(),
        None => &[],
    }
}

/// What a hart did, by its own answers, each of which is one that may be given.
fn account_of(
    rt: &impl Abort,
    alloc: Global,
    hart: u8,
    orderly: bool,
    script: &[LiveStep],
    replies: &[LiveReply],
) -> Account {
    let mut account = Account::new(alloc, hart);
    assert!(rt; script.len() == replies.len());
    for (number, step) in script.iter().enumerate() {
        let is_allowed = match replies.get(number) {
            Some(reply) => account.allows(step, reply) && (!orderly || is_orderly(step, reply)),
            None => false,
        };
        assert_step(rt, hart, number, is_allowed);
    }
    account
}

fn accounts_of(
    rt: &impl Abort,
    alloc: Global,
    orderly: bool,
    scripts: &[Vec<LiveStep>],
    answers: &[Vec<LiveReply>],
) -> Result<Vec<Account>, AllocError> {
    let mut accounts = Vec::with_capacity(alloc, 8)?;
    for hart in 0..8 {
        let (script, replies) = (row_of(scripts, hart), row_of(answers, hart));
        accounts.push(account_of(rt, alloc, hart, orderly, script, replies))?;
    }
    Ok(accounts)
}

/// What a hart took and found is what the others asked and mapped.
fn reader_of(
    rt: &impl Abort,
    hart: u8,
    accounts: &[Account],
    script: &[LiveStep],
    replies: &[LiveReply],
) -> Reader {
    let mut reader = Reader::new(hart);
    for (number, step) in script.iter().enumerate() {
        let is_allowed = match replies.get(number) {
            Some(reply) => reader.allows(accounts, step, reply),
            None => false,
        };
        assert_step(rt, hart, number, is_allowed);
    }
    reader
}

fn readers_of(
    rt: &impl Abort,
    alloc: Global,
    accounts: &[Account],
    scripts: &[Vec<LiveStep>],
    answers: &[Vec<LiveReply>],
) -> Result<Vec<Reader>, AllocError> {
    let mut readers = Vec::with_capacity(alloc, 8)?;
    for hart in 0..8 {
        let (script, replies) = (row_of(scripts, hart), row_of(answers, hart));
        readers.push(reader_of(rt, hart, accounts, script, replies))?;
    }
    Ok(readers)
}

/// Whether what was accepted is what was posted, and was taken in order: at least what the scripts
/// took, and all but what waits.
fn is_told(sender: &Account, receiver: &Reader, pair: &PairReport) -> bool {
    let waiting = pair.waiting.as_slice();
    sender.count(pair.receiver) == pair.accepted
        && pair.taken.checked_add(waiting.len() as u64) == Some(pair.accepted)
        && receiver.known(pair.sender) <= pair.taken
        && sender.has_left(pair.receiver, pair.taken, waiting)
}

/// After orderly scripts nothing waits.
fn assert_pairs(
    rt: &impl Abort,
    orderly: bool,
    accounts: &[Account],
    readers: &[Reader],
    pairs: &[PairReport],
) {
    assert!(rt; pairs.len() == 56);
    for (number, pair) in pairs.iter().enumerate() {
        let sender = accounts.get(usize::from(pair.sender));
        let is_right = match (sender, readers.get(usize::from(pair.receiver))) {
            (Some(sender), Some(receiver)) => is_told(sender, receiver, pair),
            _ => false,
        };
        assert_row(
            rt,
            number,
            is_right && (!orderly || pair.waiting.is_empty()),
        );
    }
}

/// Each answer, and what became of each request, is one that may be given.
fn assert_ran(
    rt: &impl Abort,
    alloc: Global,
    orderly: bool,
    scripts: &[Vec<LiveStep>],
    ran: &LiveReport,
) -> Result<(), AllocError> {
    let answers = ran.scripts.as_slice();
    assert_set_up(rt, ran.setup.as_slice());
    assert!(rt; answers.len() == 8);
    let accounts = accounts_of(rt, alloc, orderly, scripts, answers)?;
    let accounts = accounts.as_slice();
    let readers = readers_of(rt, alloc, accounts, scripts, answers)?;
    let pairs = ran.report.pairs.as_slice();
    assert_pairs(rt, orderly, accounts, readers.as_slice(), pairs);
    Ok(())
}

/// The scripts of all harts, which look random.
fn scripts_of(alloc: Global, seed: u64, orderly: bool) -> Result<Vec<Vec<LiveStep>>, Fail> {
    let mut dice = Dice::new(seed);
    let mut scripts = Vec::with_capacity(alloc, 8)?;
    for hart in 0..8 {
        scripts.push(script(alloc, hart, &mut dice, orderly)?)?;
    }
    Ok(scripts)
}

fn assert_run<R: Threads + Wait + Sync + Abort>(
    rt: &R,
    alloc: Global,
    seed: u64,
    orderly: bool,
    turns: u32,
) -> Result<(), Fail> {
    let scripts = scripts_of(alloc, seed, orderly)?;
    let scripts = scripts.as_slice();
    let setup = setup(alloc)?;
    let setup = setup.as_slice();
    let ran = report_of(rt, alloc, &homes(8), setup, scripts, turns, &OpenGate)?;
    Ok(assert_ran(rt, alloc, orderly, scripts, &ran)?)
}

// Shootdowns by all harts at once, each waited for.
#[test]
fn orderly_scripts(rt: HostRuntime) -> Result<(), Fail> {
    for seed in 0..100 {
        assert_run(&rt, rt.alloc(), seed, true, 1_000_000_000)?;
    }
    Ok(())
}

// Steps with numbers that may be wrong, in any order.
#[test]
fn wandering_scripts(rt: HostRuntime) -> Result<(), Fail> {
    for seed in 1_000..1_100 {
        assert_run(&rt, rt.alloc(), seed, false, 20)?;
    }
    Ok(())
}
