//! The machines that are opened, and the walk and the machine of `first_steps`.

use crate::common::{USER, assert_row, spares_of};
use crate::first_machine::two_harts;
use crate::first_steps::{Root, load_from, replies_to};
use std::alloc::Global;
use std::process::Abort;
use stepcore::{Config, Event, Machine, OpenFault, Refusal, Reply};
use walk::{Trap, Why};

/// Whether a machine of this configuration is opened, as it is within the limits, and has its harts
/// and its capacity.
fn is_opened(alloc: Global, config: &Config) -> bool {
    match Machine::open(alloc, config) {
        Ok(machine) => {
            u16::from(machine.harts()) == config.harts
                && machine.capacity() == usize::from(config.capacity)
        }
        Err(_) => false,
    }
}

fn is_beyond_the_limits(alloc: Global, config: &Config) -> bool {
    match Machine::open(alloc, config) {
        Ok(_) => false,
        Err(fault) => fault == OpenFault::BadLayout,
    }
}

fn largest() -> Config {
    Config {
        harts: 8,
        spares: spares_of(&[62, 62, 62, 62, 62, 62, 62, 62]),
        capacity: 64,
        ..two_harts()
    }
}

fn of_three_harts() -> Config {
    Config {
        harts: 3,
        ..two_harts()
    }
}

fn of_capacity_65() -> Config {
    Config {
        capacity: 65,
        ..two_harts()
    }
}

/// With ample memory a machine is opened exactly within the limits.
#[test]
fn machines_are_opened(rt: HostRuntime) {
    assert_row(&rt, 0, is_opened(rt.alloc(), &two_harts()));
    assert_row(&rt, 1, is_opened(rt.alloc(), &largest()));
    assert_row(&rt, 2, is_beyond_the_limits(rt.alloc(), &of_three_harts()));
    assert_row(&rt, 3, is_beyond_the_limits(rt.alloc(), &of_capacity_65()));
}

/// A root table with a page of 1 GiB at 0x8000_0000, for `first_steps`: PPN 0x40000 with V, R, U and
/// A.
fn root(rt: &impl Abort, alloc: Global) -> Root {
    let mut words = Vec::new(alloc);
    for index in 0..512_u32 {
        let word = if index == 2 { 0x1000_0053 } else { 0 };
        words.push(word).ok().expect(rt, "memory");
    }
    Root(words)
}

/// The physical address to which a load by U-mode leads.
fn loaded(root: &Root, va: u64) -> Result<u64, Trap> {
    match load_from(root, va, USER) {
        Ok(found) => Ok(found.pa),
        Err(trap) => Err(trap),
    }
}

#[test]
fn first_translations_are_answered(rt: HostRuntime) {
    let root = root(&rt, rt.alloc());
    let invalid = Trap {
        cause: 13,
        why: Why::Invalid,
    };
    assert_row(&rt, 0, loaded(&root, 0x8000_0ABC) == Ok(0x4000_0ABC));
    assert_row(&rt, 1, loaded(&root, 0xC000_0ABC) == Err(invalid));
}

#[test]
fn first_machine_is_run(rt: HostRuntime) {
    let events = [Event::Load { hart: 1 }];
    let replies = replies_to(rt.alloc(), &two_harts(), &events).expect(&rt, "a machine");
    assert!(rt; replies.as_slice() == [Reply::Refused(Refusal::NotWalking)].as_slice());
}
