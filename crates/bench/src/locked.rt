//! Shootdowns between two harts on a machine under one lock, as `harts::Locked` has it.

ghost use Rattle.std.specs.Prelude.{◌≡◌};

use crate::Failure;
use crate::pause::pause;
use arrayvec::ArrayVec;
use harts::{Blank, Locked, Named, Tally};
use pte::Scheme;
use spaces::{Config, Space};
use std::alloc::Global;
use std::marker::Brand;
use std::sync::Wait;
use std::thread::{Threads, join};
use stepcore::{Event, Reply, Scope};

/// How many shootdowns one machine makes. The lock keeps each event, and each try, so another
/// machine takes over then.
const ROUND: u64 = 1000;

/// How often a thread waits a moment between two tries, so that the lock is free in between.
const PAUSES: u64 = 20;

/// Harts 0 and 1.
const BOTH: u8 = 0b11;

/// Two harts, and one space.
fn config() -> Config {
    let mut spaces = ArrayVec::new();
    spaces.push(Space { home: 0, asid: 1 });
    let mut spares = ArrayVec::new();
    spares.push(8);
    spares.push(8);
    Config {
        scheme: Scheme::Sv39,
        harts: 2,
        spaces,
        window: 1,
        base: 0x8_0000,
        spares,
        capacity: 4,
    }
}

fn wait(tries: u64) {
    for number in 0..PAUSES {
        pause(tries % ROUND * PAUSES + number);
    }
}

/// Hart 0 opens a ticket for everything, posts it to hart 1, and serves it itself.
fn ask<C: Named, R: Wait>(rt: &R, locked: &Locked<C>, tally: &mut Tally<C>) -> Option<u32> {
    let flush = Event::Flush {
        hart: 0,
        scope: Scope::All,
        named: BOTH,
    };
    let Reply::Opened(ticket) = locked.call(rt, tally, flush).ok()? else {
        return None;
    };
    let post = Event::Post {
        hart: 0,
        ticket,
        to: 1,
    };
    locked.call(rt, tally, post).ok()?;
    locked
        .call(rt, tally, Event::AckSelf { hart: 0, ticket })
        .ok()?;
    Some(ticket)
}

/// Hart 0 makes one shootdown of everything.
fn shoot_down<C: Named, R: Wait>(rt: &R, locked: &Locked<C>, tally: &mut Tally<C>) -> Option<()> {
    let ticket = ask(rt, locked, tally)?;
    let collect = Event::Collect {
        hart: 0,
        ticket,
        from: 1,
    };
    for tries in 0..u64::MAX {
        if locked.call(rt, tally, collect).ok()? == Reply::Done {
            break;
        }
        wait(tries);
    }
    let finish = Event::Finish { hart: 0, ticket };
    match locked.call(rt, tally, finish).ok()? {
        Reply::Ok => Some(()),
        _ => None,
    }
}

/// Hart 1 serves one request.
fn serve<C: Named, R: Wait>(rt: &R, locked: &Locked<C>, tally: &mut Tally<C>) -> Option<()> {
    for tries in 0..u64::MAX {
        let take = Event::Take { hart: 1, from: 0 };
        if let Reply::Taken(_) = locked.call(rt, tally, take).ok()? {
            locked.call(rt, tally, Event::ServeFence { hart: 1 }).ok()?;
            locked.call(rt, tally, Event::Ack { hart: 1 }).ok()?;
            return Some(());
        }
        wait(tries);
    }
    None
}

/// How many shootdowns hart 0 made.
fn shoots<C: Named, R: Wait>(rt: &R, locked: &Locked<C>, mut tally: Tally<C>, count: u64) -> u64 {
    for made in 0..count {
        if shoot_down(rt, locked, &mut tally).is_none() {
            return made;
        }
    }
    count
}

/// How many requests hart 1 served.
fn serves<C: Named, R: Wait>(rt: &R, locked: &Locked<C>, mut tally: Tally<C>, count: u64) -> u64 {
    for made in 0..count {
        if serve(rt, locked, &mut tally).is_none() {
            return made;
        }
    }
    count
}

/// Makes `count` shootdowns on one machine. How many were made.
fn round<C: Named + Send + Sync, R: Threads + Wait + Sync>(
    rt: &R,
    alloc: Global,
    blank: Blank,
    config: &Config,
    count: u64,
) -> Option<u64>
    requires config { C.config ≡ config.now }
    requires lists { C.lists ≡ blank }
{
    let (locked, mut tallies) = Locked::<C>::open(alloc, blank, config).ok()?;
    let (one, zero) = (tallies.pop()?, tallies.pop()?);
    let shared = &locked;
    let (made, _served) = join(
        rt,
        || shoots(rt, shared, zero, count),
        || serves(rt, shared, one, count),
    );
    Some(made)
}

/// Makes `count` shootdowns under a lock. How many were made.
pub fn under_lock<R: Threads + Wait + Sync>(
    rt: &R,
    alloc: Global,
    count: u64,
) -> Result<u64, Failure> {
    let config = config();
    let mut made = 0;
    while made < count {
        let wanted = ROUND.min(count - made);
        let blank = Blank::new(alloc, 2)?;
        let more = round::<Brand, _>(rt, alloc, blank, &config, wanted).ok_or(Failure::NotOpened)?;
        if more == 0 || more > wanted {
            return Ok(made);
        }
        made += more;
    }
    Ok(made)
}
