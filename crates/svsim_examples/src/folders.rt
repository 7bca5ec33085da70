//! The folders below `cases` that are named as a command: its answer to each `NAME.toml`, of `watch`
//! and `explain` to each `NAME.trace`, stands beside it.
use crate::program::{Outcome, answer};
use crate::tally::Tally;
use std::sync::Wait;
use std::thread::Threads;
use std::{fs, io};

pub const FOLDERS: [&str; 9] = [
    "check", "draw", "explain", "live", "run", "show", "stale", "walk", "watch",
];

/// The names of the files of a folder, in order.
fn entries(rt: &HostRuntime, folder: &str) -> io::Result<Vec<String>> {
    let mut names = Vec::new(rt.alloc());
    for entry in fs::read_dir(rt, format!(in rt.alloc(); "cases/{folder}")?.as_str())? {
        let entry = entry?;
        names.push(String::from_str(rt.alloc(), entry.file_name())?)?;
    }
    names.sort_unstable();
    Ok(names)
}

/// The path of `NAME.ENDING`.
fn path_of(rt: &HostRuntime, folder: &str, name: &str, ending: &str) -> io::Result<String> {
    Ok(format!(in rt.alloc(); "cases/{folder}/{name}.{ending}")?)
}

/// Whether a file `NAME.ENDING` stands there.
fn has(rt: &HostRuntime, folder: &str, name: &str, ending: &str) -> io::Result<bool> {
    fs::exists(rt, path_of(rt, folder, name, ending)?.as_str())
}

/// The text of `NAME.ENDING`, or nothing without such a file.
fn text_of(rt: &HostRuntime, folder: &str, name: &str, ending: &str) -> io::Result<String> {
    if has(rt, folder, name, ending)? {
        fs::read_to_string(rt, path_of(rt, folder, name, ending)?.as_str())
    } else {
        Ok(String::new(rt.alloc()))
    }
}

/// The ending of the files that the folder's command reads.
fn read_ending(folder: &str) -> &'static str {
    if folder == "watch" || folder == "explain" {
        "trace"
    } else {
        "toml"
    }
}

/// The status that is wanted: a written one, or else 1 if lines of `stale` name a use, or 0.
fn status_of(written: &str, command: &str, out: &str) -> Option<u8> {
    if !written.is_empty() {
        written.trim().parse::<u8>().ok()
    } else if command == "stale" && !out.ends_with(" used 0\n") {
        Some(1)
    } else {
        Some(0)
    }
}

/// Whether each line `N WORDS`, of which one is wanted at least, has the number of times that the
/// words are printed.
fn has_counts(printed: &str, counts: &str) -> bool {
    for line in counts.lines() {
        let Some((number, words)) = line.split_once(' ') else {
            return false;
        };
        let found = printed.split(words).count().saturating_sub(1);
        if number.parse::<usize>() != Ok(found) {
            return false;
        }
    }
    !counts.is_empty()
}

/// The words behind a command on a file of the folder: its name, and of `explain` the number of its last
/// line.
fn words_for(rt: &HostRuntime, folder: &str, name: &str) -> io::Result<String> {
    let ending = read_ending(folder);
    if folder != "explain" {
        return Ok(format!(in rt.alloc(); "{name}.{ending}")?);
    }
    let lines = text_of(rt, folder, name, ending)?.lines().count();
    Ok(format!(in rt.alloc(); "{name}.{ending} {lines}")?)
}

/// What the program answers to a command on a file of the folder.
fn outcome_of<T: Threads + Wait + Sync>(
    rt: &HostRuntime,
    threads: &T,
    folder: &str,
    name: &str,
    command: &str,
) -> io::Result<Outcome> {
    let alloc = rt.alloc();
    let below = format!(in alloc; "cases/{folder}")?;
    let words = words_for(rt, folder, name)?;
    answer(rt, threads, below.as_str(), command, words.as_str())
}

/// Whether a command on a file of the folder prints what stands in `NAME.ENDING`, with the status of
/// `NAME.status` and the line of `NAME.err`.
fn is_answered<T: Threads + Wait + Sync>(
    rt: &HostRuntime,
    threads: &T,
    folder: &str,
    name: &str,
    command: &str,
    ending: &str,
) -> io::Result<bool> {
    let outcome = outcome_of(rt, threads, folder, name, command)?;
    let out = text_of(rt, folder, name, ending)?;
    let err = text_of(rt, folder, name, "err")?;
    let written = text_of(rt, folder, name, "status")?;
    let status = status_of(written.as_str(), command, out.as_str());
    Ok(status.is_some_and(|status| outcome.is(status, out.as_str(), err.as_str())))
}

/// The command whose lines are counted.
fn counted_command(folder: &str) -> &str {
    match folder {
        "watch" => "watch --all",
        "explain" => "explain --svg",
        _ => folder,
    }
}

/// Whether a command on the folder's file prints words as often as `NAME.counts` has it, with the
/// status of `NAME.status`.
fn is_counted<T: Threads + Wait + Sync>(
    rt: &HostRuntime,
    threads: &T,
    folder: &str,
    name: &str,
) -> io::Result<bool> {
    let outcome = outcome_of(rt, threads, folder, name, counted_command(folder))?;
    let counts = text_of(rt, folder, name, "counts")?;
    let Ok(printed) = str::from_utf8(outcome.out.as_slice()) else {
        return Ok(false);
    };
    let written = text_of(rt, folder, name, "status")?;
    let status = status_of(written.as_str(), folder, printed);
    let is_done = status == Some(outcome.status) && outcome.err.is_empty();
    Ok(is_done && has_counts(printed, counts.as_str()))
}

/// The command whose answer a file has, and the ending of the file with what it prints.
fn asked<'a>(folder: &'a str, ending: &'a str) -> Option<(&'a str, &'a str)> {
    match ending {
        "toml" | "trace" => Some((folder, "out")),
        "svg" => Some(("draw", ending)),
        "all" => Some(("watch --all", ending)),
        "check" | "show" | "stale" => Some((ending, ending)),
        _ => None,
    }
}

/// Whether a file of a folder is read with another, that has an answer.
fn is_part(rt: &HostRuntime, folder: &str, name: &str, ending: &str) -> io::Result<bool> {
    match ending {
        "toml" | "trace" => has(rt, folder, name, "counts"),
        "out" | "err" | "status" => has(rt, folder, name, read_ending(folder)),
        _ => Ok(false),
    }
}

/// Whether a file of a folder is as expected. `None` of one that is read with another.
fn judged<T: Threads + Wait + Sync>(
    rt: &HostRuntime,
    threads: &T,
    folder: &str,
    entry: &str,
) -> io::Result<Option<bool>> {
    let Some((name, ending)) = entry.rsplit_once('.') else {
        return Ok(Some(false));
    };
    if is_part(rt, folder, name, ending)? {
        return Ok(None);
    }
    if ending == "counts" {
        return Ok(Some(is_counted(rt, threads, folder, name)?));
    }
    let Some((command, ending)) = asked(folder, ending) else {
        return Ok(Some(false));
    };
    let is_answered = is_answered(rt, threads, folder, name, command, ending)?;
    Ok(Some(is_answered))
}

/// How many answers of a folder are as expected.
pub fn folder_tally<T: Threads + Wait + Sync>(
    rt: &HostRuntime,
    threads: &T,
    folder: &str,
) -> io::Result<Tally> {
    let mut tally = Tally::new();
    for entry in entries(rt, folder)?.iter() {
        let entry = entry.as_str();
        match judged(rt, threads, folder, entry) {
            Ok(None) => {}
            Ok(Some(is_expected)) => tally.count(rt, folder, entry, Ok(is_expected)),
            Err(fault) => tally.count(rt, folder, entry, Err(fault)),
        }
    }
    Ok(tally)
}
