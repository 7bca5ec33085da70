//! The most steps and bytes of a file, and where their number stands in the order of checking.
use crate::asserting::assert_of;
use crate::ends::{JOBS, Job, Pieces, end_of, prints, refuses};
use scenario::Which;
use std::alloc::{AllocError, Global};
use std::sync::Wait;
use std::test::Fail;
use std::thread::Threads;

const WALK: Job = Job::Plain(Which::Walk);

const RUN: Job = Job::Plain(Which::Run);

/// A file of these keys and of a number of steps, the first of them another one.
fn steps_file(
    alloc: Global,
    keys: &str,
    first: &str,
    step: &str,
    count: usize,
) -> Result<String, AllocError> {
    let mut text = format!(in alloc; "{keys}steps = [\"{first}\",")?;
    for _ in 1..count {
        text.push_str("\"")?;
        text.push_str(step)?;
        text.push_str("\",")?;
    }
    text.push_str("]")?;
    Ok(text)
}

/// The lines of a number of steps with one answer.
fn lines_of(alloc: Global, answer: &str, count: usize) -> Result<String, Fail> {
    let mut lines = String::new(alloc);
    for number in 0..count {
        writeln!(lines, "{} {answer}", number + 1)?;
    }
    Ok(lines)
}

#[test]
fn most_steps(rt: HostRuntime) -> Result<(), Fail> {
    let alloc = rt.alloc();
    let sv48 = "mode = 'sv48'\n";
    for (job, keys, step, answer) in [
        (WALK, "", "u load 0", "trap 5 Outside"),
        (WALK, sv48, "u store 0", "trap 7 Outside"),
        (RUN, "", "0 load", "refused NotWalking"),
        (RUN, sv48, "0 create 0 1", "refused NotFree"),
    ] {
        let text = steps_file(alloc, keys, step, step, 65_536)?;
        let lines = lines_of(alloc, answer, 65_536)?;
        let is_done = prints(&rt, alloc, job, text.as_str(), lines.as_str());
        assert_of(&rt, step, is_done);
    }
    Ok(())
}

#[test]
fn too_many_steps(rt: HostRuntime) -> Result<(), Fail> {
    let alloc = rt.alloc();
    for (job, keys, first, step, reason) in [
        (WALK, "", "u load 0", "u load 0", "too many steps"),
        (WALK, "", "u jump 0", "u load 0", "too many steps"),
        (RUN, "", "0 load", "0 load", "too many steps"),
        (RUN, "", "0 jump", "0 load", "too many steps"),
        (RUN, "harts = 9\n", "0 load", "0 load", "layout refused"),
    ] {
        let text = steps_file(alloc, keys, first, step, 65_537)?;
        let is_refused = refuses(&rt, alloc, job, text.as_str(), 3, reason)?;
        assert_of(&rt, reason, is_refused);
    }
    Ok(())
}

/// An array of a number of empty texts.
fn push_texts(text: &mut String, count: usize) -> Result<(), AllocError> {
    text.push_str("[")?;
    for _ in 0..count {
        text.push_str("\"\",")?;
    }
    text.push_str("]")
}

/// A file for two harts with these numbers of steps in the setup and in the two scripts, none of
/// which can be read.
fn scripts_file(
    alloc: Global,
    setup: usize,
    first: usize,
    second: usize,
) -> Result<String, AllocError> {
    let mut text = String::from_str(alloc, "harts = 2\nsetup = ")?;
    push_texts(&mut text, setup)?;
    text.push_str("\nscripts = [")?;
    push_texts(&mut text, first)?;
    text.push_str(",")?;
    push_texts(&mut text, second)?;
    text.push_str("]\n")?;
    Ok(text)
}

const SCRIPTS: [(usize, usize, usize, &str); 8] = [
    (65_536, 0, 0, "step 1: not a step"),
    (65_537, 0, 0, "too many steps"),
    (0, 65_536, 0, "script 0 step 1: not a step"),
    (0, 65_537, 0, "too many steps"),
    (0, 0, 65_537, "too many steps"),
    (1, 65_535, 1, "too many steps"),
    (21_846, 21_845, 21_846, "too many steps"),
    (21_846, 21_845, 21_845, "step 1: not a step"),
];

#[test]
fn most_steps_of_scripts(rt: HostRuntime) -> Result<(), Fail> {
    let alloc = rt.alloc();
    for (setup, first, second, reason) in SCRIPTS {
        let text = scripts_file(alloc, setup, first, second)?;
        let is_refused = refuses(&rt, alloc, Job::Live, text.as_str(), 3, reason)?;
        assert!(rt; is_refused, "{setup} {first} {second}");
    }
    Ok(())
}

/// With ample memory a key of a million bytes is printed whole.
#[test]
fn longest_key_is_printed(rt: HostRuntime) -> Result<(), Fail> {
    let alloc = rt.alloc();
    let mut name = String::new(alloc);
    for _ in 0..1_000_000_u32 {
        name.push_str("k")?;
    }
    let text = format!(in alloc; "{name} = 1")?;
    let reason = format!(in alloc; "key {name}: wrong")?;
    for job in [WALK, RUN] {
        assert!(rt; refuses(&rt, alloc, job, text.as_str(), 3, reason.as_str())?);
    }
    Ok(())
}

/// Whether a command ends so on a file of line feeds, and leaves these bytes of it unread.
fn ends<T: Threads + Wait + Sync>(
    rt: &T,
    alloc: Global,
    job: Job,
    text: &[u8],
    status: u8,
    line: &str,
    left: usize,
) -> bool {
    let mut input = Pieces::whole(text);
    let ended = end_of(rt, alloc, job, &mut input);
    ended.is(status, "", line) && input.left.len() == left
}

#[test]
fn longest_file(rt: HostRuntime) -> Result<(), Fail> {
    let alloc = rt.alloc();
    let longest = vec![in alloc; b'\n'; 1_048_576]?;
    for job in [WALK, RUN, Job::Live] {
        assert!(rt; ends(&rt, alloc, job, longest.as_slice(), 0, "", 0));
    }
    let too_long = vec![in alloc; b'\n'; 1_048_577]?;
    let longer = vec![in alloc; b'\n'; 1_048_600]?;
    let line = "svsim: file too large\n";
    for job in JOBS {
        assert!(rt; ends(&rt, alloc, job, too_long.as_slice(), 2, line, 0));
        assert!(rt; ends(&rt, alloc, job, longer.as_slice(), 2, line, 23));
    }
    Ok(())
}
