//! Two harts as two threads over one machine under a lock, with no proof file. In the end there is
//! one history of both, and the machine stands at it.

use crate::first_machine::two_harts;
use harts::Shared;
use std::alloc::{AllocError, Global};
use std::sync::Wait;
use std::test::Fail;
use std::thread::{Threads, join};
use stepcore::{Event, Reply};

/// Drops everything from a hart's own TLB, a hundred times.
fn fence_often<R: Wait>(rt: &R, shared: &Shared, hart: u8) -> Result<(), AllocError> {
    for _ in 0..100 {
        let fence = Event::Fence {
            hart,
            rs1: None,
            rs2: None,
        };
        let _reply = shared.call(rt, fence)?;
    }
    Ok(())
}

/// What two threads did: all events with their replies, the oldest first.
fn by_two<R: Threads + Wait + Sync>(rt: &R, alloc: Global) -> Option<Vec<(Event, Reply)>> {
    let Ok(locked) = Shared::open(alloc, &two_harts()) else {
        return None;
    };
    let shared = &locked;
    let (zero, one) = join(
        rt,
        || fence_often(rt, shared, 0),
        || fence_often(rt, shared, 1),
    );
    let (Ok(()), Ok(())) = (zero, one) else {
        return None;
    };
    let (_config, _machine, history) = locked.into_parts();
    Some(history)
}

#[test]
fn shared_counts(rt: HostRuntime) -> Result<(), Fail> {
    let Some(history) = by_two(&rt, rt.alloc()) else {
        return Err(Fail::new("no memory"));
    };
    assert!(rt; history.len() == 200);
    let accepted = history.iter().filter(|turn| turn.1 == Reply::Ok).count();
    assert!(rt; accepted == 200);
    Ok(())
}
