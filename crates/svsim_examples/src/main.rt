//! The files of the folder `examples`, in which it is run, each by the whole program over memory.
//! It prints a line for each `NAME.toml`, in the order of their names: `as expected`, or what is
//! amiss. Of a file for `run` it also counts the shapes of the picture. A line for each sheet of the
//! folder `shown` follows, one for each picture of a story in the folder `watch`, and one for each
//! folder and each list of `cases`, with the number of the answers that are as expected, below a line
//! for each that is another; the last line is for files of one long line. The status is 1 unless all
//! are as expected.
#![tactic(auto)]

mod examples;
mod folders;
mod lists;
mod long_lines;
mod program;
mod shapes;
mod shown;
mod stories;
mod tally;

use examples::{names, tell_file};
use folders::{FOLDERS, folder_tally};
use lists::{list_tally, lists};
use long_lines::tell_long_lines;
use shown::{is_shown, sheets};
use std::io;
use std::process::ExitCode;
use std::sync::Wait;
use std::thread::Threads;
use stories::{STORIES, is_drawn};
use tally::Tally;

/// Prints a line for a sheet. Whether it is as expected.
fn tell_sheet(rt: &HostRuntime, sheet: &str) -> bool {
    let is_expected = is_shown(rt, sheet).unwrap_or(false);
    let words = if is_expected {
        "as expected"
    } else {
        "another answer"
    };
    let _ = println!(rt; "{sheet}: {words}");
    is_expected
}

/// Prints a line for the picture of a story. Whether it is as expected.
fn tell_story<T: Threads + Wait + Sync>(
    rt: &HostRuntime,
    threads: &T,
    name: &str,
    line: &str,
) -> bool {
    let is_expected = is_drawn(rt, threads, name, line).unwrap_or(false);
    let words = if is_expected {
        "as expected"
    } else {
        "another picture"
    };
    let _ = println!(rt; "watch/{name}.svg: {words}");
    is_expected
}

/// Prints a line for what was counted. Whether all was as expected.
fn tell_tally(rt: &HostRuntime, of: &str, tally: io::Result<Tally>) -> bool {
    let Ok(tally) = tally else {
        let _ = println!(rt; "cases/{of}: not read");
        return false;
    };
    let _ = println!(rt; "cases/{of}: {} as expected", tally.right);
    tally.wrong == 0
}

fn main(rt: HostRuntime) -> ExitCode {
    let (Ok(names), Ok(sheets), Ok(lists)) = (names(&rt), sheets(&rt), lists(&rt)) else {
        return ExitCode::from(1);
    };
    let mut status = 0;
    for name in names.iter() {
        if !tell_file(&rt, &rt, name.as_str()) {
            status = 1;
        }
    }
    for sheet in sheets.iter() {
        if !tell_sheet(&rt, sheet.as_str()) {
            status = 1;
        }
    }
    for (name, line) in STORIES {
        if !tell_story(&rt, &rt, name, line) {
            status = 1;
        }
    }
    for folder in FOLDERS {
        if !tell_tally(&rt, folder, folder_tally(&rt, &rt, folder)) {
            status = 1;
        }
    }
    for list in lists.iter() {
        let list = list.as_str();
        if !tell_tally(&rt, list, list_tally(&rt, &rt, list)) {
            status = 1;
        }
    }
    if !tell_long_lines(&rt, &rt) {
        status = 1;
    }
    ExitCode::from(status)
}
