//! A trace with a verdict, its story, and the picture of that.

use crate::causes::TRACE;
use crate::inspections::ROOM;
use crate::verdict::Verdict;
use scenario::{Filter, explain_command, picture_command};
use std::alloc::Global;

/// What is printed of line 9.
const STORY: &str = "watch 1 2 sv39\n\
    # a trace:9: free hart 1 may hold page 1000+1000 -> 100 rw-u- asid 1 root 80000, stale since line 6; \
    frames 100+1 given back\n\
    # a trace:2: a word on the way to the page\n\
    w 0 80000000 20000401\n\
    # a trace:3: a word on the way to the page\n\
    w 0 80001000 20000801\n\
    # a trace:4: a word on the way to the page\n\
    w 0 80002008 400d7\n\
    # a trace:5: hart 1 enters the address space\n\
    s 1 8000100000080000\n\
    # a trace:6: stale from here on\n\
    w 0 80002008 0\n\
    # a trace:7: a flush begins\n\
    c 0 9 80000 1000 1000\n\
    # a trace:8: a fence, not for hart 1\n\
    f 0 1000 1\n\
    # a trace:9: frames are given back\n\
    z 0 100 1\n";

/// The story of the verdict on the trace. Where memory ends, nothing is printed.
pub fn explain(alloc: Global) -> Verdict {
    let Ok(mut out) = Vec::with_capacity(alloc, ROOM) else {
        return Verdict::NoMemory;
    };
    let Ok(mut err) = Vec::with_capacity(alloc, ROOM) else {
        return Verdict::NoMemory;
    };
    let input = TRACE.as_bytes();
    let status = explain_command(
        alloc,
        Filter::default(),
        9,
        "a trace",
        input,
        &mut out,
        &mut err,
    );
    let (out, err) = (out.as_slice(), err.as_slice());
    if status == 5 && out.is_empty() && err == b"svsim: no memory\n".as_slice() {
        return Verdict::NoMemory;
    }
    Verdict::is_usual(status == 0 && out == STORY.as_bytes() && err.is_empty())
}

/// The picture of that story. Where memory ends, nothing is printed.
pub fn picture(alloc: Global) -> Verdict {
    let Ok(mut out) = Vec::with_capacity(alloc, ROOM) else {
        return Verdict::NoMemory;
    };
    let Ok(mut err) = Vec::with_capacity(alloc, ROOM) else {
        return Verdict::NoMemory;
    };
    let input = TRACE.as_bytes();
    let status = picture_command(
        alloc,
        Filter::default(),
        9,
        "a trace",
        input,
        &mut out,
        &mut err,
    );
    let (out, err) = (out.as_slice(), err.as_slice());
    if status == 5 && out.is_empty() && err == b"svsim: no memory\n".as_slice() {
        return Verdict::NoMemory;
    }
    let is_whole = out.starts_with(b"<svg ") && out.ends_with(b"</svg>\n");
    Verdict::is_usual(status == 0 && is_whole && err.is_empty())
}
