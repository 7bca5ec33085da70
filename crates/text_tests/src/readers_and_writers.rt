//! Readers and writers that fail, and files that end early, of each command. What the commands print of
//! these files is data of `svsim_examples`.
use crate::asserting::assert_of;
use crate::ends::{AtEnd, Job, Narrow, Pieces, end_of, status_of};
use crate::samples::{
    BOTH_UNMAP, DEEP_LIVE, DEEP_RUN, DEEP_WALK, FILE, FLUSH, SHOOTDOWN, SPACE_RUN,
};
use scenario::Which;
use std::alloc::Global;
use std::sync::Wait;
use std::test::Fail;
use std::thread::Threads;

const WALK: Job = Job::Plain(Which::Walk);

const RUN: Job = Job::Plain(Which::Run);

const CHECK: Job = Job::Plain(Which::Check);

/// The files that end early too, and their commands.
const FILES: [(Job, &str); 8] = [
    (WALK, FILE),
    (WALK, DEEP_WALK),
    (RUN, SHOOTDOWN),
    (RUN, DEEP_RUN),
    (RUN, SPACE_RUN),
    (Job::Live, FLUSH),
    (Job::Live, BOTH_UNMAP),
    (Job::Live, DEEP_LIVE),
];

/// Files, their commands, and the status of these.
pub(crate) const ALL: [(Job, &str, u8); 12] = [
    (WALK, FILE, 0),
    (WALK, DEEP_WALK, 0),
    (RUN, SHOOTDOWN, 0),
    (RUN, DEEP_RUN, 0),
    (RUN, SPACE_RUN, 0),
    (Job::Live, FLUSH, 0),
    (Job::Live, BOTH_UNMAP, 0),
    (Job::Live, DEEP_LIVE, 0),
    (Job::Plain(Which::Stale), SHOOTDOWN, 1),
    (Job::Plain(Which::Show), SHOOTDOWN, 0),
    (Job::Plain(Which::Draw), SHOOTDOWN, 0),
    (CHECK, SHOOTDOWN, 0),
];

#[test]
fn each_beginning_of_a_file(rt: HostRuntime) -> Result<(), Fail> {
    for (job, text) in FILES {
        for length in 0..text.len() {
            let mut input = Pieces::whole(&text.as_bytes()[..length]);
            let ended = end_of(&rt, rt.alloc(), job, &mut input);
            let is_done = ended.status == 0;
            let is_quiet = is_done || ended.out.is_empty();
            let has_line = is_done == ended.err.is_empty();
            let is_known = matches!(ended.status, 0 | 2 | 3);
            assert!(rt; is_quiet && has_line && is_known, "{length} of {text}");
        }
    }
    Ok(())
}

/// A reader may fail at any read, the one at the end of the file too. One that gives one byte a
/// read changes nothing.
#[test]
fn readers_that_fail(rt: HostRuntime) -> Result<(), Fail> {
    let alloc = rt.alloc();
    for (job, text, status) in ALL {
        let left = text.as_bytes();
        let whole = end_of(&rt, alloc, job, &mut Pieces::whole(left));
        for (piece, most) in [(1, text.len().saturating_add(1)), (4096, 2)] {
            for reads in 0..most {
                let ended = end_of(&rt, alloc, job, &mut Pieces { left, piece, reads });
                assert_of(&rt, text, ended.is(2, "", "svsim: cannot read a file\n"));
            }
            let reads = most;
            let ended = end_of(&rt, alloc, job, &mut Pieces { left, piece, reads });
            assert_of(&rt, text, ended.status == status);
            assert_of(&rt, text, ended.out == whole.out && !ended.out.is_empty());
            assert_of(&rt, text, ended.err.is_empty());
        }
    }
    Ok(())
}

/// Whether a room is tried for this number of bytes: each, or, of many, five.
fn is_tried(room: usize, length: usize) -> bool {
    length < 500 || room < 2 || room == length / 2 || room >= length.saturating_sub(1)
}

/// Whether of each room that is tried, what a writer took is a beginning of the lines, as long as the
/// room.
fn takes_beginnings<T: Threads + Wait + Sync>(
    rt: &T,
    alloc: Global,
    row: (Job, &str, u8),
    at_end: AtEnd,
    step: usize,
) -> bool {
    let (job, text, done) = row;
    let left = text.as_bytes();
    let whole = end_of(rt, alloc, job, &mut Pieces::whole(left)).out;
    for room in 0..whole.len() + 1 {
        if is_tried(room, whole.len()) {
            let mut out = Narrow::new(alloc, step, room, at_end);
            let mut err = Narrow::ample(alloc);
            let status = status_of(rt, alloc, job, &mut Pieces::whole(left), &mut out, &mut err);
            let (wanted, line) = if room < whole.len() {
                (4, "svsim: output failed\n")
            } else {
                (done, "")
            };
            let is_beginning = out.held.as_slice() == &whole.as_slice()[..room];
            if status != wanted || !is_beginning || err.held.as_slice() != line.as_bytes() {
                return false;
            }
        }
    }
    true
}

/// Whether it is so of each of these commands, and of each of these ends and steps of a writer.
fn each_takes_beginnings<T: Threads + Wait + Sync>(
    rt: &T,
    alloc: Global,
    rows: &[(Job, &str, u8)],
    writers: &[(AtEnd, usize)],
) -> bool {
    for row in rows {
        for (at_end, step) in writers {
            if !takes_beginnings(rt, alloc, *row, *at_end, *step) {
                return false;
            }
        }
    }
    true
}

/// With room for all, one byte a write is enough.
#[test]
fn writers_that_are_full(rt: HostRuntime) {
    let writers = [
        (AtEnd::Fails, 1),
        (AtEnd::Fails, usize::MAX),
        (AtEnd::TakesNothing, 1),
        (AtEnd::TakesNothing, usize::MAX),
    ];
    assert!(rt; each_takes_beginnings(&rt, rt.alloc(), &ALL[..5], &writers));
}

#[test]
fn writers_of_live_that_are_full(rt: HostRuntime) {
    let writers = [
        (AtEnd::Fails, 1),
        (AtEnd::Fails, usize::MAX),
        (AtEnd::TakesNothing, 1),
    ];
    assert!(rt; each_takes_beginnings(&rt, rt.alloc(), &ALL[5..8], &writers));
}

#[test]
fn writers_of_inspections_that_are_full(rt: HostRuntime) {
    let writers = [(AtEnd::Fails, 7), (AtEnd::TakesNothing, 7)];
    assert!(rt; each_takes_beginnings(&rt, rt.alloc(), &ALL[8..], &writers));
}

/// The explanations of a faulty file that are not taken whole: it is the output that has failed.
#[test]
fn explanations_that_are_not_taken(rt: HostRuntime) -> Result<(), Fail> {
    let alloc = rt.alloc();
    let lines = "file for run\na file:1: key `harts`: 9 is not from 1 to 8\n1 fault\n";
    for room in 0..lines.len() + 1 {
        let mut out = Narrow::new(alloc, 2, room, AtEnd::Fails);
        let mut err = Narrow::ample(alloc);
        let mut input = Pieces::whole("harts = 9".as_bytes());
        let status = status_of(&rt, alloc, CHECK, &mut input, &mut out, &mut err);
        let full = room < lines.len();
        let line: &[u8] = if full {
            b"svsim: output failed\n"
        } else {
            b"svsim: layout refused\n"
        };
        assert!(rt; status == if full { 4 } else { 3 });
        assert!(rt; out.held.as_slice() == &lines.as_bytes()[..room]);
        assert!(rt; err.held.as_slice() == line);
    }
    Ok(())
}

/// Commands and the line for a file that says there are 9 harts.
const REFUSED: [(Job, &str); 7] = [
    (WALK, "svsim: key harts: wrong\n"),
    (RUN, "svsim: layout refused\n"),
    (Job::Live, "svsim: layout refused\n"),
    (Job::Plain(Which::Stale), "svsim: layout refused\n"),
    (Job::Plain(Which::Show), "svsim: layout refused\n"),
    (Job::Plain(Which::Draw), "svsim: layout refused\n"),
    (CHECK, "svsim: layout refused\n"),
];

#[test]
fn full_standard_error_counts_for_nothing(rt: HostRuntime) -> Result<(), Fail> {
    let alloc = rt.alloc();
    for (job, line) in REFUSED {
        for room in 0..line.len() + 1 {
            let mut out = Narrow::ample(alloc);
            let mut err = Narrow::new(alloc, 2, room, AtEnd::Fails);
            let mut input = Pieces::whole("harts = 9".as_bytes());
            let status = status_of(&rt, alloc, job, &mut input, &mut out, &mut err);
            assert_of(&rt, line, status == 3);
            assert_of(&rt, line, out.held.is_empty() == (job != CHECK));
            assert!(rt; err.held.as_slice() == &line.as_bytes()[..room]);
        }
    }
    Ok(())
}
