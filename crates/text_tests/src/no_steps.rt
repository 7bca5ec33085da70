//! Texts that are no steps, however many harts there are. A file has 1 to 8 harts, and for a text with
//! no name of a step `check` prints the same line whatever fault it has.
use crate::asserting::assert_of;
use pte::Scheme;
use std::process::Abort;
use steps::{StepFault, live_step_among, run_step, run_step_among, setup_step_among};

/// No steps of `run`.
const NOT_OF_RUN: [&str; 89] = [
    // a word is missing or too many, or is no name of a step
    "",
    "0",
    "load",
    "load 0",
    "0 Load",
    "0 load 0",
    "0 jump",
    "-1 load",
    "18446744073709551616 load",
    "0 begin u load",
    "0 begin u+mxr+sum load 0",
    "0 fence x0",
    "0 post 0",
    "0 take",
    "0 servefence 0",
    "0 ack 0",
    "0 ackself",
    "0 collect 0",
    "0 wait 0",
    "9 jump",
    "0 retire",
    "0 retire 1 2",
    "0 Retire 1",
    "0 retires 1",
    "retire 1",
    "retire 0 1",
    "0 reclaim",
    "0 reclaim 1 2",
    "0 RECLAIM 1",
    "reclaim 1",
    "0 create",
    "0 create 1",
    "0 create 1 2 3",
    "0 Create 1 2",
    // a word does not fit
    "0 flush k 0",
    "0 flush 256 0",
    "0 switch 256",
    "0 switch k",
    "0 fence x1 x0",
    "0 fence - x0",
    "0 post 4294967296 1",
    "0 ackself 4294967296",
    "0 finish 0x100000000",
    "0 close -",
    "0 flush all 9,x",
    "0 retire 256",
    "0 retire k",
    "0 retire all",
    "0 retire -",
    "0 reclaim 256",
    "0 reclaim k",
    "0 create 256 1",
    "0 create k 1",
    "0 create 1 65536",
    "0 create 1 0x10000",
    "0 create 1 131071",
    "0 create 1 18446744073709551616",
    "0 create 1 x0",
    "0 create 1 -",
    "9 create 1 65536",
    // the same of edits
    "0 map 0 4K:0x1000 0x100",
    "0 map 0 4K:0x1000 0x100 ruad 0",
    "0 map 256 4K:0x1000 0x100 ruad",
    "0 map K 4K:0x1000 0x100 ruad",
    "0 map all 4K:0x1000 0x100 ruad",
    "0 map 0 4k:0x1000 0x100 ruad",
    "0 map 0 4K: 0x1000 0x100 ruad",
    "0 map 0 4K: 0x100 ruad",
    "0 map 0 4K0x1000 0x100 ruad",
    "0 map 0 0x1000 0x100 ruad",
    "0 map 0 512g:0x0 0x100 ruad",
    "0 map 0 256T:0x0 0x100 ruad",
    "0 map 0 4K:0x1000 0x100 ruadr",
    "0 map 0 4K:0x1000 0x100 v",
    "0 map 0 4K:0x1000 0x100 r-",
    "0 map 0 4K:0x1000 0x100 --",
    "0 map 0 4K:0x1000 0x100 R",
    "0 unmap 0 4K:0x1000 0,",
    "0 unmap 0 4K:0x1000 ,0",
    "0 unmap 0 4K:0x1000 0,,1",
    "0 unmap 0 4K:0x1000 0, 1",
    "0 unmap 0 4K:0x1000 -,0",
    "0 unmap 0 4K:0x1000",
    "9 map 0 4K:0x1 0x1 rr",
    // steps of `live` alone
    "0 translate u load 0",
    "0 serve 1",
    "0 collect 1",
    "0 wait 1",
    "9 wait 1",
];

/// Steps of `run` in Sv48 and no steps in Sv39, which has no pages of 512 GiB. Where a hart or page does
/// not exist besides, they are no steps in Sv39 all the same.
const NOT_OF_RUN_IN_SV39: [&str; 5] = [
    "0 map 0 512G:0x8000000000 0x10000000 ruad",
    "1 unmap 0 512G:549755813888 0,1",
    "0 protect k 512G:0xffffff8000000000 ruad -",
    "9 map 0 512G:0x1 0x1 r",
    "0 unmap 0 512G:0x0 9",
];

/// No steps of a script, in Sv39.
const NOT_OF_A_SCRIPT: [&str; 30] = [
    "",
    "0",
    "0 wait 1",
    "wait",
    "wait 1 2",
    "Wait 1",
    "wait 4294967296",
    "wait -1",
    "serve",
    "serve 0 1",
    "serve k",
    "collect",
    "collect 1 0",
    "translate u load",
    "translate u load 0 0",
    "translate m load 0",
    "begin u load 0",
    "load",
    "take 0",
    "servefence",
    "ack",
    "retire 0",
    "reclaim 0",
    "create 0 1",
    "map 0 4K:0 0",
    "unmap 0 4k:0 0",
    "flush 256 0",
    "flush 0 9,",
    "flush 0 18446744073709551616",
    "unmap 0 512G:0x8000000000 0",
];

/// No steps of the setup, in Sv39.
const NOT_OF_THE_SETUP: [&str; 13] = [
    "",
    "0",
    "wait 1",
    "wait 0 1",
    "0 0 wait 1",
    "k wait 1",
    "0 wait",
    "0 take 1",
    "9 load",
    "9 begin u load 0",
    "9 collect 1 0",
    "9 retire 0",
    "9 flush all 9,x",
];

/// The text writes no step of `run` in the scheme, whatever harts there are.
fn assert_no_step(rt: &impl Abort, scheme: Scheme, text: &str) {
    for harts in [0, 2, 8, 255] {
        let step = run_step_among(scheme, harts, text);
        assert_of(rt, text, step == Err(StepFault::NotStep));
    }
    assert_of(rt, text, run_step(scheme, text) == None);
}

#[test]
fn no_steps_of_run(rt: HostRuntime) {
    for text in NOT_OF_RUN {
        assert_no_step(&rt, Scheme::Sv39, text);
        assert_no_step(&rt, Scheme::Sv48, text);
    }
    for text in NOT_OF_RUN_IN_SV39 {
        assert_no_step(&rt, Scheme::Sv39, text);
    }
}

#[test]
fn no_steps_of_live(rt: HostRuntime) {
    for harts in [0, 8] {
        for line in NOT_OF_A_SCRIPT {
            let step = live_step_among(Scheme::Sv39, harts, line);
            assert_of(&rt, line, step == Err(StepFault::NotStep));
        }
        for line in NOT_OF_THE_SETUP {
            let step = setup_step_among(Scheme::Sv39, harts, line);
            assert_of(&rt, line, step == Err(StepFault::NotStep));
        }
    }
}
