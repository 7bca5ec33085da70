//! The uses of stale mappings as `stale_uses` gives them, beside the lines, which are data of
//! `svsim_examples`.
use crate::asserting::assert_of;
use files::read_run;
use stale::stale_uses;
use std::alloc::Global;
use std::test::Fail;
use stepcore::Machine;

/// Of a use: its event, hart, address, the base of the entry's page, its PPN, and whether it is
/// global.
type Use = (usize, u8, u64, u64, u64, bool);

/// What is used in a run.
fn uses_of(alloc: Global, text: &str) -> Result<Vec<Use>, Fail> {
    let Ok(scenario) = read_run(alloc, text) else {
        return Err(Fail::from("the file is not read"));
    };
    let Ok(mut machine) = Machine::open(alloc, &scenario.config) else {
        return Err(Fail::from("the machine is not opened"));
    };
    let mut told = Vec::new(alloc);
    for found in stale_uses(alloc, &mut machine, scenario.events.as_slice())?.iter() {
        let used = &found.used;
        let entry = used.entry;
        told.push((
            found.step,
            used.hart,
            used.va.get(),
            entry.page.base().get(),
            entry.ppn,
            entry.global,
        ))?;
    }
    Ok(told)
}

/// Runs, and what is used in each.
const RUNS: [(&str, &[Use]); 6] = [
    // a shootdown uses nothing stale
    (
        r#"harts = 3
spaces = ['0 1', '0 2']
steps = [
    "0 map 0 2M:0x400000 0x200 rwuad", "0 map 0 2M:0x400000 0x200 rwuad",
    "1 begin u load 0x5fffff", "1 load", "1 load", "1 begin u load 0x5fffff",
    "0 unmap 0 2M:0x400000 0,1", "0 post 0 1", "1 take 0", "1 servefence", "1 ack",
    "1 begin u load 0x5fffff", "1 load", "1 load", "0 collect 0 1", "0 ackself 0",
]"#,
        &[],
    ),
    // a hart that has not served uses the old page
    (
        r#"harts = 3
spaces = ['0 1', '0 2']
steps = [
    "0 map 0 2M:0x400000 0x200 rwuad", "0 map 0 2M:0x400000 0x200 rwuad",
    "1 begin u load 0x5fffff", "1 load", "1 load", "0 unmap 0 2M:0x400000 0,1",
    "1 begin u load 0x5fffff", "0 post 0 1", "1 take 0", "1 begin u load 0x5fffff",
    "1 servefence", "1 ack", "1 begin u load 0x5fffff",
]"#,
        &[(6, 1, 0x5F_FFFF, 0x40_0000, 0x200, false)],
    ),
    // a frame is used again
    (
        r#"harts = 3
spaces = ['0 1', '0 2']
steps = [
    "0 map 0 4K:0x1000 0x100 rwuad", "0 map 0 4K:0x1000 0x100 rwuad",
    "0 map 0 4K:0x1000 0x100 rwuad", "1 begin u store 0x1008", "1 load", "1 load", "1 load",
    "0 unmap 0 4K:0x1000 0,1", "0 post 0 1", "0 ackself 0", "0 map 1 4K:0x5000 0x100 rwuad",
    "0 map 1 4K:0x5000 0x100 rwuad", "0 map 1 4K:0x5000 0x100 rwuad", "2 switch 1",
    "2 begin u load 0x5008", "2 load", "2 load", "2 load", "1 begin u store 0x1008",
    "1 take 0", "1 servefence", "1 ack", "1 begin u store 0x1008", "0 collect 0 1",
]"#,
        &[(18, 1, 0x1008, 0x1000, 0x100, false)],
    ),
    // a superpage is split
    (
        r#"harts = 3
spaces = ['0 1', '0 2']
steps = [
    "0 map 0 2M:0x400000 0x200 rwuad", "0 map 0 2M:0x400000 0x200 rwuad",
    "1 begin u store 0x401008", "1 load", "1 load", "0 unmap 0 2M:0x400000 0,1",
    "0 map 0 4K:0x400000 0x200 ruad", "0 map 0 4K:0x400000 0x200 ruad",
    "0 map 0 4K:0x402000 0x202 rwuad", "1 begin u store 0x400008", "1 begin u store 0x401008",
    "1 begin u store 0x402008",
]"#,
        &[
            (9, 1, 0x40_0008, 0x40_0000, 0x200, false),
            (10, 1, 0x40_1008, 0x40_0000, 0x200, false),
        ],
    ),
    // a page is mapped anew
    (
        r#"harts = 3
spaces = ['0 1', '0 2']
steps = [
    "0 map 0 4K:0x1000 0x100 rua", "0 map 0 4K:0x1000 0x100 rua",
    "0 map 0 4K:0x1000 0x100 rua", "1 begin u load 0x1000", "1 load", "1 load", "1 load",
    "0 unmap 0 4K:0x1000 0,1", "0 map 0 4K:0x1000 0x100 rua", "1 begin u load 0x1000",
    "0 unmap 0 4K:0x1000 0,1", "0 map 0 4K:0x1000 0x101 rua", "1 begin u load 0x1000",
]"#,
        &[(12, 1, 0x1000, 0x1000, 0x100, false)],
    ),
    // a kernel page is stale in each space
    (
        r#"harts = 3
spaces = ['0 1', '0 2']
steps = [
    "0 map k 4K:0xffffffffc0000000 0x300 rga", "0 map k 4K:0xffffffffc0000000 0x300 rga",
    "1 begin s load 0xffffffffc0000008", "1 load", "1 load", "1 load", "1 switch 1",
    "1 begin s load 0xffffffffc0000008", "0 unmap k 4K:0xffffffffc0000000 0,1",
    "1 begin s load 0xffffffffc0000008",
]"#,
        &[(
            9,
            1,
            0xFFFF_FFFF_C000_0008,
            0xFFFF_FFFF_C000_0000,
            0x300,
            true,
        )],
    ),
];

#[test]
fn uses_of_runs(rt: HostRuntime) -> Result<(), Fail> {
    for (text, uses) in RUNS {
        let told = uses_of(rt.alloc(), text)?;
        assert_of(&rt, text, told.as_slice() == uses);
    }
    Ok(())
}
