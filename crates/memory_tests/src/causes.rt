//! A trace with a verdict, and its causes.

use crate::inspections::ROOM;
use crate::verdict::Verdict;
use scenario::{Detail, Filter, Form, KnownList, Options, watch_command_with};
use std::alloc::Global;

/// Hart 1 holds a page whose frame is given back.
pub const TRACE: &str = "watch 1 2 sv39\n\
    w 0 80000000 20000401\n\
    w 0 80001000 20000801\n\
    w 0 80002008 400d7\n\
    s 1 8000100000080000\n\
    w 0 80002008 0\n\
    c 0 9 80000 1000 1000\n\
    f 0 1000 1\n\
    z 0 100 1\n";

/// What is printed once the frame is given back.
const BLOCK: &str =
    "a trace:9: free hart 1 may hold page 1000+1000 -> 100 rw-u- asid 1 root 80000, \
    stale since line 6; frames 100+1 given back\n  cause 1: user pages, first free: its flush asked \
    for no fence on this hart\n";

/// What is printed at the end.
const END: &str =
    "a trace:9: cause 1: user pages, first free: its flush asked for no fence on this \
    hart; 1 finding: free 1\n  stale without a note: 1 finding, 1 page of 1 space, hart 1; fences \
    asked of hart 0; reachable 1\n8 records, 1 verdict: free 1\n";

/// Whether all is printed.
fn is_whole(out: &[u8]) -> bool {
    match out.strip_prefix(BLOCK.as_bytes()) {
        Some(end) => end == END.as_bytes(),
        None => false,
    }
}

/// The causes of the verdicts on the trace. Where memory ends, what was printed stays.
pub fn watch(alloc: Global) -> Verdict {
    let Ok(mut out) = Vec::with_capacity(alloc, ROOM) else {
        return Verdict::NoMemory;
    };
    let Ok(mut err) = Vec::with_capacity(alloc, ROOM) else {
        return Verdict::NoMemory;
    };
    let input = TRACE.as_bytes();
    let options = Options {
        detail: Detail::Causes,
        filter: Filter::default(),
        form: Form::Text,
        most: None,
    };
    let known = KnownList {
        file: b"",
        entries: Vec::new(alloc),
    };
    let status = watch_command_with(alloc, options, known, "a trace", input, &mut out, &mut err);
    let (out, err) = (out.as_slice(), err.as_slice());
    let is_cut = out.is_empty() || out == BLOCK.as_bytes();
    if status == 5 && is_cut && err == b"svsim: no memory\n".as_slice() {
        return Verdict::NoMemory;
    }
    Verdict::is_usual(status == 1 && is_whole(out) && err.is_empty())
}
