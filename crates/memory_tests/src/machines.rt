//! Machines that are opened, and that run events.

use crate::shootdown::{events, replies, superpage, two_harts};
use crate::verdict::Verdict;
use history::{Event, Reply};
use pte::Scheme;
use std::alloc::Global;
use stepcore::Machine;

/// A machine of each scheme.
pub fn open(alloc: Global) -> Verdict {
    for scheme in [Scheme::Sv39, Scheme::Sv48] {
        match Machine::open(alloc, &two_harts(scheme)) {
            Ok(machine) if machine.harts() == 2 => {}
            Ok(_) => return Verdict::Other,
            Err(fault) => return Verdict::of_fault(fault),
        }
    }
    Verdict::Usual
}

/// How often the events without a reply are run again.
const MOST_RUNS: usize = 4;

/// Runs the events, and where memory ran out those without a reply again: the replies are the same.
fn run_on(alloc: Global, mut machine: Machine, events: &[Event], wanted: &[Reply]) -> Verdict {
    let mut replies: Vec<Reply> = Vec::new(alloc);
    let mut verdict = Verdict::Usual;
    for _ in 0..MOST_RUNS {
        let done = replies.len().min(events.len());
        if machine.run(&events[done..], &mut replies).is_ok() {
            let usual = replies.as_slice() == wanted;
            return if usual { verdict } else { Verdict::Other };
        }
        verdict = Verdict::NoMemory;
    }
    if wanted.starts_with(replies.as_slice()) {
        verdict
    } else {
        Verdict::Other
    }
}

/// The events of a shootdown, and of a space that comes and goes.
pub fn run(alloc: Global) -> Verdict {
    let Some(page) = superpage() else {
        return Verdict::Other;
    };
    match Machine::open(alloc, &two_harts(Scheme::Sv39)) {
        Ok(machine) => run_on(alloc, machine, &events(page), &replies(page)),
        Err(fault) => Verdict::of_fault(fault),
    }
}
