//! The files of the folder `examples`: the command of each prints what stands in `NAME.out`, `draw` and
//! `stale` of a file for `run` what stands in `NAME.svg` and `NAME.stale`, and `check` that it is ok.
use crate::program::answer;
use crate::shapes::shapes_of;
use std::sync::Wait;
use std::thread::Threads;
use std::{fs, io};

/// How often a file for `live` is run: its threads run otherwise each time.
const LIVE_RUNS: u32 = 20;

/// A line that `live-frame-used-too-early.out` has, and the line that may be printed in its place.
const TOO_EARLY: (&str, &str) = ("\n1 2 pa 0x100008\n", "\n1 2 trap 13 Invalid\n");

/// The names of the files for the program, in order and without `.toml`.
pub fn names(rt: &HostRuntime) -> io::Result<Vec<String>> {
    let mut names = Vec::new(rt.alloc());
    for entry in fs::read_dir(rt, ".")? {
        let entry = entry?;
        if let Some(name) = entry.file_name().strip_suffix(".toml") {
            names.push(String::from_str(rt.alloc(), name)?)?;
        }
    }
    names.sort_unstable();
    Ok(names)
}

/// The command that a file is for.
fn command_of(name: &str) -> &'static str {
    if name == "first" {
        "walk"
    } else if name.starts_with("live-") {
        "live"
    } else {
        "run"
    }
}

/// What the program prints for a command on `NAME.toml`. `None` unless it answers 0 and complains
/// of nothing.
fn printed<T: Threads + Wait + Sync>(
    rt: &HostRuntime,
    threads: &T,
    command: &str,
    name: &str,
) -> io::Result<Option<Vec<u8>>> {
    let file = format!(in rt.alloc(); "{name}.toml")?;
    let outcome = answer(rt, threads, ".", command, file.as_str())?;
    let is_done = outcome.status == 0 && outcome.err.is_empty();
    Ok(if is_done { Some(outcome.out) } else { None })
}

/// Whether a command on `NAME.toml` prints this text and nothing else.
fn prints<T: Threads + Wait + Sync>(
    rt: &HostRuntime,
    threads: &T,
    command: &str,
    name: &str,
    text: &str,
) -> io::Result<bool> {
    let printed = printed(rt, threads, command, name)?;
    Ok(printed.is_some_and(|out| out.as_slice() == text.as_bytes()))
}

/// Whether `live` prints this text in each run, or the text with its line that may be another.
fn prints_live<T: Threads + Wait + Sync>(
    rt: &HostRuntime,
    threads: &T,
    name: &str,
    text: &str,
) -> io::Result<bool> {
    let other = match text.split_once(TOO_EARLY.0) {
        Some((before, behind)) if name == "live-frame-used-too-early" => {
            format!(in rt.alloc(); "{before}{}{behind}", TOO_EARLY.1)?
        }
        _ => String::from_str(rt.alloc(), text)?,
    };
    for _ in 0..LIVE_RUNS {
        let Some(out) = printed(rt, threads, "live", name)? else {
            return Ok(false);
        };
        if out.as_slice() != text.as_bytes() && out.as_slice() != other.as_bytes() {
            return Ok(false);
        }
    }
    Ok(true)
}

/// Whether `stale` prints this of `NAME.toml`, with status 1 if a stale mapping is used.
fn tells_stale<T: Threads + Wait + Sync>(
    rt: &HostRuntime,
    threads: &T,
    name: &str,
    text: &str,
) -> io::Result<bool> {
    let file = format!(in rt.alloc(); "{name}.toml")?;
    let outcome = answer(rt, threads, ".", "stale", file.as_str())?;
    let status = if text.ends_with(" used 0\n") { 0 } else { 1 };
    Ok(
        outcome.status == status
            && outcome.err.is_empty()
            && outcome.out.as_slice() == text.as_bytes(),
    )
}

/// What is amiss with the picture of a file for `run`, or with what `stale` prints of it.
fn amiss_of_run<T: Threads + Wait + Sync>(
    rt: &HostRuntime,
    threads: &T,
    name: &str,
) -> io::Result<Option<&'static str>> {
    let picture = fs::read_to_string(rt, format!(in rt.alloc(); "{name}.svg")?.as_str())?;
    if !prints(rt, threads, "draw", name, picture.as_str())? {
        return Ok(Some("another picture"));
    }
    let stale = fs::read_to_string(rt, format!(in rt.alloc(); "{name}.stale")?.as_str())?;
    if !tells_stale(rt, threads, name, stale.as_str())? {
        return Ok(Some("other stale mappings"));
    }
    Ok(None)
}

/// What is amiss with a file, if anything.
fn amiss<T: Threads + Wait + Sync>(
    rt: &HostRuntime,
    threads: &T,
    name: &str,
) -> io::Result<Option<&'static str>> {
    let alloc = rt.alloc();
    let command = command_of(name);
    let lines = fs::read_to_string(rt, format!(in alloc; "{name}.out")?.as_str())?;
    let printed = if command == "live" {
        prints_live(rt, threads, name, lines.as_str())?
    } else {
        prints(rt, threads, command, name, lines.as_str())?
    };
    if !printed {
        return Ok(Some("other lines"));
    }
    if command == "run" {
        let amiss = amiss_of_run(rt, threads, name)?;
        if amiss.is_some() {
            return Ok(amiss);
        }
    }
    let ok = format!(in alloc; "file for {command}\nok\n")?;
    if !prints(rt, threads, "check", name, ok.as_str())? {
        return Ok(Some("a fault"));
    }
    Ok(None)
}

/// The end of the line for a file that is as expected.
fn as_expected(rt: &HostRuntime, name: &str) -> io::Result<String> {
    let alloc = rt.alloc();
    if command_of(name) != "run" {
        return Ok(String::from_str(alloc, "as expected")?);
    }
    let picture = fs::read_to_string(rt, format!(in alloc; "{name}.svg")?.as_str())?;
    let shapes = shapes_of(picture.as_str()).text(alloc)?;
    Ok(format!(in alloc; "as expected, in {shapes}")?)
}

/// The end of the line for a file, and whether it is as expected.
fn judged<T: Threads + Wait + Sync>(
    rt: &HostRuntime,
    threads: &T,
    name: &str,
) -> io::Result<(bool, String)> {
    match amiss(rt, threads, name)? {
        Some(amiss) => Ok((false, String::from_str(rt.alloc(), amiss)?)),
        None => Ok((true, as_expected(rt, name)?)),
    }
}

/// Prints a line for a file. Whether it is as expected.
pub fn tell_file<T: Threads + Wait + Sync>(rt: &HostRuntime, threads: &T, name: &str) -> bool {
    match judged(rt, threads, name) {
        Ok((is_expected, words)) => {
            let _ = println!(rt; "{name}: {words}");
            is_expected
        }
        Err(_) => {
            let _ = println!(rt; "{name}: not read");
            false
        }
    }
}
