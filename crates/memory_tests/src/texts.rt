//! Texts whose steps are made, and whose answers are written.

use crate::inspections::{ROOM, STALE_USED};
use crate::verdict::Verdict;
use scenario::{Fault, run_text, walk_text};
use std::alloc::Global;

/// A page of 1 GiB, an address in it, and one that is not canonical.
const ONE_PAGE: &str = r#"frames = ["0x80000"]
words = ["0x80000 1 0x40000000D7"]
steps = ["u load 0x40000ABC", "u load 0x8080403ABC"]
"#;

/// Whether these lines were written. Without memory none was.
fn told(ended: Result<(), Fault>, out: &[u8], lines: &str) -> Verdict {
    match ended {
        Ok(()) => Verdict::is_usual(out == lines.as_bytes()),
        Err(Fault::NoMemory) if out.is_empty() => Verdict::NoMemory,
        Err(_) => Verdict::Other,
    }
}

/// The answers to two accesses.
pub fn walk(alloc: Global) -> Verdict {
    let Ok(mut out) = Vec::with_capacity(alloc, ROOM) else {
        return Verdict::NoMemory;
    };
    let ended = walk_text(alloc, ONE_PAGE, &mut out);
    told(
        ended,
        out.as_slice(),
        "1 pa 0x10000000abc 1G\n2 trap 13 NotCanonical\n",
    )
}

/// The replies to the steps by which a stale mapping is used.
pub fn run(alloc: Global) -> Verdict {
    let Ok(mut out) = Vec::with_capacity(alloc, ROOM) else {
        return Verdict::NoMemory;
    };
    let ended = run_text(alloc, STALE_USED, &mut out);
    told(
        ended,
        out.as_slice(),
        "1 table 0x80002\n2 leaf\n3 more\n4 more\n5 fill 0x3fffff\n6 opened 0\n7 hit 0x3fffff\n",
    )
}
