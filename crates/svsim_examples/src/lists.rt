//! The lists of the folder `cases/lists`: many short files each, with what the program answers to words
//! that name one of them.
use crate::program::{Files, answer_on};
use crate::tally::Tally;
use std::alloc::Global;
use std::sync::Wait;
use std::thread::Threads;
use std::{fs, io};

/// The paths of the lists below `cases`, in order.
pub fn lists(rt: &HostRuntime) -> io::Result<Vec<String>> {
    let mut lists = Vec::new(rt.alloc());
    for entry in fs::read_dir(rt, "cases/lists")? {
        let entry = entry?;
        let name = entry.file_name();
        lists.push(format!(in rt.alloc(); "lists/{name}")?)?;
    }
    lists.sort_unstable();
    Ok(lists)
}

/// A text up to a separator, and what comes after it, if anything.
fn split<'a>(text: &'a str, at: &str) -> (&'a str, Option<&'a str>) {
    match text.split_once(at) {
        Some((before, behind)) => (before, Some(behind)),
        None => (text, None),
    }
}

/// A line and its end, or nothing.
fn ended(alloc: Global, line: Option<&str>) -> io::Result<String> {
    match line {
        Some(line) => Ok(format!(in alloc; "{line}\n")?),
        None => Ok(String::new(alloc)),
    }
}

/// The text of a case's file, and that of a list of what is known, which stands behind a line `+++`.
fn files_of(text: &str) -> Files<'_> {
    let (file, list) = split(text, "\n+++\n");
    Files { file, list }
}

/// Whether the program answers to words on these files what is written: `WORDS: STATUS ERROR`, where no
/// error may be, and below it the lines on standard output.
fn is_answered<T: Threads + Wait + Sync>(
    alloc: Global,
    threads: &T,
    files: Files<'_>,
    written: &str,
) -> io::Result<bool> {
    let (head, out) = split(written, "\n");
    let Some((words, ending)) = head.split_once(": ") else {
        return Ok(false);
    };
    let (status, err) = split(ending, " ");
    let Ok(status) = status.parse::<u8>() else {
        return Ok(false);
    };
    let out = ended(alloc, out)?;
    let err = ended(alloc, err)?;
    let outcome = answer_on(alloc, threads, words, files)?;
    Ok(outcome.is(status, out.as_str(), err.as_str()))
}

/// Counts the answers of a case: `TITLE`, the text of the file, perhaps that of a list of what is known,
/// and at least one answer, each behind `--- `.
fn count_case<T: Threads + Wait + Sync>(
    rt: &HostRuntime,
    threads: &T,
    list: &str,
    case: &str,
    tally: &mut Tally,
) {
    let (file, answers) = split(case, "\n--- ");
    let (title, text) = split(file, "\n");
    let Some(answers) = answers else {
        tally.count(rt, list, title, Ok(false));
        return;
    };
    let files = files_of(text.unwrap_or(""));
    for written in answers.split("\n--- ") {
        let came = is_answered(rt.alloc(), threads, files, written);
        tally.count(rt, list, title, came);
    }
}

/// How many answers of a list are as expected. Its cases stand behind `=== ` each, below words of
/// its own.
pub fn list_tally<T: Threads + Wait + Sync>(
    rt: &HostRuntime,
    threads: &T,
    list: &str,
) -> io::Result<Tally> {
    let whole = fs::read_to_string(rt, format!(in rt.alloc(); "cases/{list}")?.as_str())?;
    let whole = whole.as_str();
    let cases = whole.strip_suffix("\n").unwrap_or(whole);
    let mut tally = Tally::new();
    if let Some((_, cases)) = cases.split_once("\n=== ") {
        for case in cases.split("\n=== ") {
            count_case(rt, threads, list, case, &mut tally);
        }
    }
    Ok(tally)
}
