//! Gates that two harts meet at, and gates that say no.
use crate::samples::{BOTH_UNMAP, BOTH_UNMAP_LINES};
use harts::Gate;
use scenario::live_command;
use std::alloc::Global;
use std::sync::Wait;
use std::sync::atomic::{AtomicBool, Ordering};
use std::test::Fail;
use std::thread;
use std::thread::Threads;

/// Whether `live` is done, with these lines, at a gate.
fn prints_at<T: Threads + Wait + Sync, G: Gate + Sync>(
    rt: &T,
    alloc: Global,
    gate: &G,
    text: &str,
    lines: &str,
) -> bool {
    let mut input = text.as_bytes();
    let mut out: Vec<u8> = Vec::new(alloc);
    let mut err: Vec<u8> = Vec::new(alloc);
    let status = live_command(rt, alloc, "a file", &mut input, &mut out, &mut err, gate);
    status == 0 && out.as_slice() == lines.as_bytes() && err.is_empty()
}

/// The turns for which a hart waits for the other.
const MOST_TURNS: u32 = 1_000_000_000;

/// Harts 0 and 1 meet before their first steps: each sets its own flag, and waits until the other's
/// is set.
#[derive(Drop)]
struct Meeting {
    here: [AtomicBool; 2],
}

impl Meeting {
    fn new() -> Meeting {
        Meeting {
            here: [AtomicBool::new(false), AtomicBool::new(false)],
        }
    }
}

impl Gate for Meeting {
    fn before(&self, hart: u8, step: u32) -> bool {
        if step != 1 || hart > 1 {
            return true;
        }
        let own = usize::from(hart);
        self.here[own].store(true, Ordering::SeqCst);
        for _ in 0..MOST_TURNS {
            if self.here[1 - own].load(Ordering::SeqCst) {
                return true;
            }
            thread::yield_now();
        }
        false
    }

    fn after(&self, _hart: u8, _step: u32) {}
}

#[test]
fn both_harts_run(rt: HostRuntime) {
    let gate = Meeting::new();
    assert!(rt; prints_at(&rt, rt.alloc(), &gate, BOTH_UNMAP, BOTH_UNMAP_LINES));
}

/// A gate that is shut from this step on for this hart.
#[derive(Drop)]
struct ShutFrom {
    hart: u8,
    step: u32,
}

impl Gate for ShutFrom {
    fn before(&self, hart: u8, step: u32) -> bool {
        hart != self.hart || step < self.step
    }

    fn after(&self, _hart: u8, _step: u32) {}
}

const FLUSHES: &str = r#"harts = 2
setup = ["1 flush all 1"]
scripts = [
    ["flush all 0", "flush all 0", "ackself 0"],
    ["fence x0 x0", "ackself 0"],
]
"#;

const SHUT: [(u8, u32, &str); 4] = [
    (0, 1, "0 1 halted\n1 1 ok\n1 2 done\n"),
    (0, 2, "0 1 opened 0\n0 2 halted\n1 1 ok\n1 2 done\n"),
    (
        0,
        3,
        "0 1 opened 0\n0 2 opened 1\n0 3 halted\n1 1 ok\n1 2 done\n",
    ),
    (
        1,
        2,
        "0 1 opened 0\n0 2 opened 1\n0 3 done\n1 1 ok\n1 2 halted\n",
    ),
];

/// A script ends with `halted` before the step at which its gate says no; the setup has no gate.
#[test]
fn scripts_are_halted(rt: HostRuntime) -> Result<(), Fail> {
    let alloc = rt.alloc();
    for (hart, step, scripts) in SHUT {
        let gate = ShutFrom { hart, step };
        let lines = format!(in alloc;
            "setup 1 opened 0\n{scripts}pair 0 1 accepted 0 taken 0 waiting 0\npair 1 0 accepted 0 taken 0 waiting 0\n"
        )?;
        assert!(rt;
            prints_at(&rt, alloc, &gate, FLUSHES, lines.as_str()),
            "{hart} {step}"
        );
    }
    Ok(())
}
