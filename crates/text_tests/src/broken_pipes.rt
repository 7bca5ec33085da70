//! Pipes that nobody reads any more, and other writers of `watch` and `explain` that fail.
use crate::ends::{AtEnd, Narrow, Pieces, status_of};
use crate::readers_and_writers::ALL;
use crate::samples::{TRACE, VERDICTS};
use scenario::{Filter, explain_command, picture_command, watch_command};
use std::test::Fail;

/// A trace that is judged.
struct Judged {
    trace: &'static str,
    /// What `watch_command` prints of its records under the name `a trace`.
    verdicts: &'static str,
    /// Its last line.
    last: &'static str,
    status: u8,
    /// The line on standard error.
    line: &'static str,
}

const NO_VERDICT: &str = "watch 1 2 sv39\nu 1 1000\n";

const WRONG_LINE: &str = "watch 1 2 sv39\nu 1 1000\nu 2 1000\n";

/// A page that hart 1 may still hold when its frame is given back, and then a wrong line.
const WRONG_LINE_AFTER_A_VERDICT: &str = "watch 1 2 sv39\n\
    w 0 80000000 20000401\n\
    w 0 80001000 20000801\n\
    w 0 80002008 400d7\n\
    s 1 8000100000080000\n\
    w 0 80002008 0 @unmap\n\
    e 0 7\n\
    d 0 9\n\
    z 0 100 1\n\
    u 2 1000\n";

const VERDICT: &str = "a trace:9: free hart 1 may hold page 1000+1000 -> 100 rw-u- asid 1 root \
    80000, stale since line 6 by unmap; frames 100+1 given back\n";

const JUDGED: [Judged; 4] = [
    Judged {
        trace: TRACE,
        verdicts: VERDICTS,
        last: "",
        status: 1,
        line: "",
    },
    Judged {
        trace: NO_VERDICT,
        verdicts: "",
        last: "1 record, no verdict\n",
        status: 0,
        line: "",
    },
    Judged {
        trace: WRONG_LINE,
        verdicts: "",
        last: "1 record before line 3, no verdict\n",
        status: 3,
        line: "a trace:3:3: no hart 2: harts are 0 to 1\n",
    },
    Judged {
        trace: WRONG_LINE_AFTER_A_VERDICT,
        verdicts: VERDICT,
        last: "8 records before line 10, 1 verdict: free 1\n",
        status: 1,
        line: "a trace:10:3: no hart 2: harts are 0 to 1\n",
    },
];

/// `watch` ends without a line where nobody reads on, with the status of the verdicts so far; a wrong line
/// that was met is told.
#[test]
fn broken_pipes_of_watch(rt: HostRuntime) -> Result<(), Fail> {
    let alloc = rt.alloc();
    for row in &JUDGED {
        let whole = format!(in alloc; "{}{}", row.verdicts, row.last)?;
        let printed = whole.as_str();
        for room in 0..printed.len() + 1 {
            for step in [1, usize::MAX] {
                let mut out = Narrow::new(alloc, step, room, AtEnd::BreaksPipe);
                let mut err = Narrow::ample(alloc);
                let input = Pieces::whole(row.trace.as_bytes());
                let status = watch_command(alloc, "a trace", input, &mut out, &mut err);
                let (wanted, line) = if room < row.verdicts.len() {
                    (1, "")
                } else {
                    (row.status, row.line)
                };
                assert!(rt; status == wanted, "{room} of {}", row.trace);
                assert!(rt; out.held.as_slice() == &printed.as_bytes()[..room]);
                assert!(rt; err.held.as_slice() == line.as_bytes());
            }
        }
    }
    Ok(())
}

/// At another end of a writer the output has failed.
#[test]
fn writers_of_watch_that_are_full(rt: HostRuntime) -> Result<(), Fail> {
    let alloc = rt.alloc();
    for row in &JUDGED {
        let whole = format!(in alloc; "{}{}", row.verdicts, row.last)?;
        let printed = whole.as_str();
        for room in 0..printed.len() + 1 {
            for at_end in [AtEnd::Fails, AtEnd::TakesNothing] {
                let mut out = Narrow::new(alloc, 7, room, at_end);
                let mut err = Narrow::ample(alloc);
                let input = Pieces::whole(row.trace.as_bytes());
                let status = watch_command(alloc, "a trace", input, &mut out, &mut err);
                let (wanted, line) = if room < printed.len() {
                    (4, "svsim: output failed\n")
                } else {
                    (row.status, row.line)
                };
                assert!(rt; status == wanted, "{room} of {}", row.trace);
                assert!(rt; out.held.as_slice() == &printed.as_bytes()[..room]);
                assert!(rt; err.held.as_slice() == line.as_bytes());
            }
        }
    }
    Ok(())
}

/// What `explain_command` prints of line 9 of that trace.
const STORY: &str = "watch 1 2 sv39\n\
    # a trace:9: free hart 1 may hold page 1000+1000 -> 100 rw-u- asid 1 root 80000, stale since line 6 \
    by unmap; frames 100+1 given back\n\
    # a trace:2: a word on the way to the page\n\
    w 0 80000000 20000401\n\
    # a trace:3: a word on the way to the page\n\
    w 0 80001000 20000801\n\
    # a trace:4: a word on the way to the page\n\
    w 0 80002008 400d7\n\
    # a trace:5: hart 1 enters the address space\n\
    s 1 8000100000080000\n\
    # a trace:6: stale from here on\n\
    w 0 80002008 0 @unmap\n\
    # a trace:9: frames are given back\n\
    z 0 100 1\n";

/// `explain` ends without a line where nobody reads on. At another end of a writer the output has failed.
#[test]
fn writers_of_explain(rt: HostRuntime) -> Result<(), Fail> {
    let alloc = rt.alloc();
    let input = WRONG_LINE_AFTER_A_VERDICT.as_bytes();
    for room in 0..STORY.len() + 1 {
        for at_end in [AtEnd::BreaksPipe, AtEnd::Fails, AtEnd::TakesNothing] {
            let mut out = Narrow::new(alloc, 7, room, at_end);
            let mut err = Narrow::ample(alloc);
            let reader = Pieces::whole(input);
            let status = explain_command(
                alloc,
                Filter::default(),
                9,
                "a trace",
                reader,
                &mut out,
                &mut err,
            );
            let is_told = room == STORY.len() || at_end == AtEnd::BreaksPipe;
            let (wanted, line) = if is_told {
                (0, "")
            } else {
                (4, "svsim: output failed\n")
            };
            assert!(rt; status == wanted, "{room}");
            assert!(rt; out.held.as_slice() == &STORY.as_bytes()[..room]);
            assert!(rt; err.held.as_slice() == line.as_bytes());
        }
    }
    Ok(())
}

/// So does `explain --svg`, of which a beginning of the picture is written.
#[test]
fn writers_of_pictures(rt: HostRuntime) -> Result<(), Fail> {
    let alloc = rt.alloc();
    let input = WRONG_LINE_AFTER_A_VERDICT.as_bytes();
    for room in [0, 1, 4000] {
        for at_end in [AtEnd::BreaksPipe, AtEnd::Fails, AtEnd::TakesNothing] {
            let mut out = Narrow::new(alloc, 7, room, at_end);
            let mut err = Narrow::ample(alloc);
            let reader = Pieces::whole(input);
            let status = picture_command(
                alloc,
                Filter::default(),
                9,
                "a trace",
                reader,
                &mut out,
                &mut err,
            );
            let (wanted, line) = if at_end == AtEnd::BreaksPipe {
                (0, "")
            } else {
                (4, "svsim: output failed\n")
            };
            assert!(rt; status == wanted, "{room}");
            assert!(rt; out.held.len() == room);
            assert!(rt; err.held.as_slice() == line.as_bytes());
        }
    }
    Ok(())
}

/// Of the other commands the output has failed.
#[test]
fn broken_pipes_of_others(rt: HostRuntime) -> Result<(), Fail> {
    let alloc = rt.alloc();
    for (job, text, _) in ALL {
        let mut out = Narrow::new(alloc, 1, 1, AtEnd::BreaksPipe);
        let mut err = Narrow::ample(alloc);
        let mut input = Pieces::whole(text.as_bytes());
        let status = status_of(&rt, alloc, job, &mut input, &mut out, &mut err);
        assert!(rt; status == 4 && out.held.len() == 1, "{text}");
        assert!(rt; err.held.as_slice() == b"svsim: output failed\n".as_slice());
    }
    Ok(())
}
