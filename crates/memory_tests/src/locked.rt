//! A machine under a lock.

ghost use Rattle.std.specs.Prelude.{◌≡◌};

use crate::shootdown::{events, replies, superpage, two_harts};
use crate::verdict::Verdict;
use harts::{Blank, Locked, Named};
use history::{Event, Reply};
use pte::Scheme;
use spaces::Config;
use std::alloc::Global;
use std::marker::Brand;
use std::sync::Wait;

/// What is said of a history: each event has its reply, and where memory ran out the later ones are
/// missing.
fn of_history(
    verdict: Verdict,
    history: &[(Event, Reply)],
    events: &[Event],
    wanted: &[Reply],
) -> Verdict {
    let mut same = verdict == Verdict::NoMemory || history.len() == events.len();
    for ((turn, event), reply) in history.iter().zip(events).zip(wanted) {
        same &= turn.0 == *event && turn.1 == *reply;
    }
    if same { verdict } else { Verdict::Other }
}

/// Calls the events by one thread; one for which there was no memory is called again.
fn called<C: Named, R: Wait>(
    rt: &R,
    alloc: Global,
    blank: Blank,
    config: &Config,
    events: &[Event],
    wanted: &[Reply],
) -> Verdict
    requires config { C.config ≡ config.now }
    requires lists { C.lists ≡ blank }
{
    let (locked, mut tallies) = match Locked::<C>::open(alloc, blank, config) {
        Ok(opened) => opened,
        Err(fault) => return Verdict::of_fault(fault),
    };
    let Some(mut tally) = tallies.pop() else {
        return Verdict::Other;
    };
    let mut verdict = Verdict::Usual;
    for event in events {
        if locked.call(rt, &mut tally, *event).is_err() {
            verdict = Verdict::NoMemory;
            if locked.call(rt, &mut tally, *event).is_err() {
                break;
            }
        }
    }
    tallies.push_reserved(tally);
    let (_machine, history) = locked.into_parts(tallies);
    of_history(verdict, history.as_slice(), events, wanted)
}

/// A machine under a lock, whose history is that of all the events.
pub fn calls<R: Wait>(rt: &R, alloc: Global) -> Verdict {
    let Some(page) = superpage() else {
        return Verdict::Other;
    };
    let config = two_harts(Scheme::Sv39);
    let Ok(blank) = Blank::new(alloc, 2) else {
        return Verdict::NoMemory;
    };
    called::<Brand, _>(rt, alloc, blank, &config, &events(page), &replies(page))
}
