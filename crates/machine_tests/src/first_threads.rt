//! Two harts as two threads over one lock, each with events of its own. In the end there is one
//! history of both.

ghost use Rattle.std.specs.Prelude.{◌≡◌, IfOk};

use crate::first_machine::two_harts;
use harts::{Blank, Locked, Named, Tally};
use std::alloc::{AllocError, Global};
use std::marker::Brand;
use std::sync::Wait;
use std::test::Fail;
use std::thread::{Threads, join};
use stepcore::{Config, Event, Reply};

/// Calls the events in order, and gives back the tally, which has the list of them.
fn calls<C: Named, R: Wait>(
    rt: &R,
    locked: &Locked<C>,
    mut tally: Tally<C>,
    events: &[Event],
) -> Result<Tally<C>, AllocError>
    ensures { IfOk result (λ back. back.turns.name ≡ tally.turns.name) }
{
    for event in events {
        let _reply = locked.call(rt, &mut tally, *event)?;
    }
    Ok(tally)
}

/// What two threads did, each with its events: all events with their replies, the oldest first.
fn by_two<C: Named + Send + Sync, R: Threads + Wait + Sync>(
    rt: &R,
    alloc: Global,
    blank: Blank,
    config: &Config,
    of_0: &[Event],
    of_1: &[Event],
) -> Option<Vec<(Event, Reply)>>
    requires config { C.config ≡ config.now }
    requires lists { C.lists ≡ blank }
{
    let Ok((locked, mut tallies)) = Locked::<C>::open(alloc, blank, config) else {
        return None;
    };
    let (b, a) = (tallies.pop()?, tallies.pop()?);
    let shared = &locked;
    let (a, b) = join(
        rt,
        || calls(rt, shared, a, of_0),
        || calls(rt, shared, b, of_1),
    );
    let (Ok(a), Ok(b)) = (a, b) else { return None };
    tallies.push_reserved(a);
    tallies.push_reserved(b);
    let (_machine, history) = locked.into_parts(tallies);
    Some(history)
}

/// An SFENCE.VMA that drops everything from the hart's own TLB.
fn fence(hart: u8) -> Event {
    Event::Fence {
        hart,
        rs1: None,
        rs2: None,
    }
}

fn count_of(history: &[(Event, Reply)], hart: u8) -> usize {
    history
        .iter()
        .filter(|turn| turn.0 == fence(hart) && turn.1 == Reply::Ok)
        .count()
}

#[test]
fn locked_counts(rt: HostRuntime) -> Result<(), Fail> {
    let config = two_harts();
    let blank = Blank::new(rt.alloc(), 2)?;
    let (of_0, of_1) = ([fence(0); 100], [fence(1); 100]);
    let Some(history) = by_two::<Brand, _>(
        &rt,
        rt.alloc(),
        blank,
        &config,
        of_0.as_slice(),
        of_1.as_slice(),
    ) else {
        return Err(Fail::new("no memory"));
    };
    assert!(rt; history.len() == 200);
    assert!(rt; count_of(history.as_slice(), 0) == 100);
    assert!(rt; count_of(history.as_slice(), 1) == 100);
    Ok(())
}
