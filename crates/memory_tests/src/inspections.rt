//! The commands that say of a file what its replies don't.

use crate::verdict::Verdict;
use scenario::{Which, command};
use std::alloc::Global;

/// A page of 2 MiB that hart 1 holds is unmapped, and hart 1 uses it.
pub const STALE_USED: &str = r#"harts = 2
steps = [
    "0 map 0 2M:0x400000 0x200 rwuad", "0 map 0 2M:0x400000 0x200 rwuad",
    "1 begin u load 0x5fffff", "1 load", "1 load",
    "0 unmap 0 2M:0x400000 0,1", "1 begin u load 0x5fffff",
]
"#;

/// The second step is none.
const FAULTY: &str = "harts = 2\nsteps = [\"0 load\", \"1 laod\"]";

/// The page of the first step has no leaf.
const SHORT_MAP: &str = "steps = [\"0 map 0 4K:0x1000 0x100 rwuad\", \"0 load\"]";

/// Room for all that is written, so that no writer asks for memory.
pub const ROOM: usize = 65536;

/// How a command ends with ample memory: the status, the beginning and the end of the output, and
/// the line on standard error.
#[derive(Clone, Copy)]
struct Usual {
    status: u8,
    first: &'static str,
    last: &'static str,
    line: &'static str,
}

impl Usual {
    fn is_output(&self, out: &[u8]) -> bool {
        out.starts_with(self.first.as_bytes()) && out.ends_with(self.last.as_bytes())
    }
}

/// Does a command on a file. Without memory nothing is printed but by `check`, which may lack it
/// for the line on standard error alone.
fn inspect(alloc: Global, which: Which, file: &str, usual: Usual) -> Verdict {
    let Ok(mut out) = Vec::with_capacity(alloc, ROOM) else {
        return Verdict::NoMemory;
    };
    let Ok(mut err) = Vec::with_capacity(alloc, ROOM) else {
        return Verdict::NoMemory;
    };
    let mut input = file.as_bytes();
    let status = command(alloc, which, "a file", &mut input, &mut out, &mut err);
    let (out, err) = (out.as_slice(), err.as_slice());
    if status == 5 && err == b"svsim: no memory\n".as_slice() {
        let printed = which == Which::Check && usual.is_output(out);
        return if printed || out.is_empty() {
            Verdict::NoMemory
        } else {
            Verdict::Other
        };
    }
    let told = err == usual.line.as_bytes();
    Verdict::is_usual(status == usual.status && usual.is_output(out) && told)
}

/// The step that makes the page stale, and the access that it answers.
pub fn stale(alloc: Global) -> Verdict {
    let usual = Usual {
        status: 1,
        first: "6 stale 1 page 2M:0x400000 asid 1 ppn 0x200 order 0 0\n",
        last: "\n7 used 1 page 4K:0x5ff000 asid 1 ppn 0x3ff\nstale 1 used 1\n",
        line: "",
    };
    inspect(alloc, Which::Stale, STALE_USED, usual)
}

/// The state after the last step.
pub fn show(alloc: Global) -> Verdict {
    let usual = Usual {
        status: 0,
        first: "after 7 steps: sv39, harts 2, window 1, capacity 4\n\n",
        last: "tables of the kernel: in each root\n  511  table 0x80000 level 1 g\n",
        line: "",
    };
    inspect(alloc, Which::Show, STALE_USED, usual)
}

/// A picture of the run.
pub fn draw(alloc: Global) -> Verdict {
    let usual = Usual {
        status: 0,
        first: "<svg ",
        last: "</svg>\n",
        line: "",
    };
    inspect(alloc, Which::Draw, STALE_USED, usual)
}

/// What is wrong with a file.
pub fn check(alloc: Global) -> Verdict {
    let usual = Usual {
        status: 3,
        first: "file for run\na file:2:23: step 2: `laod` is no step of run; ",
        last: "perhaps load\n1 fault\n",
        line: "svsim: step 2: not a step\n",
    };
    inspect(alloc, Which::Check, FAULTY, usual)
}

/// What is noted of a file without a fault.
pub fn notes(alloc: Global) -> Verdict {
    let usual = Usual {
        status: 0,
        first: "file for run\na file:1:10: note: step 1: only a table was added, ",
        last: "and no later `map` names this page\nok\n",
        line: "",
    };
    inspect(alloc, Which::Check, SHORT_MAP, usual)
}
