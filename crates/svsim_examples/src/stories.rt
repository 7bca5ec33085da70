//! The pictures of stories in the folder `watch`: `NAME.svg` is what `explain --svg` prints of a line of
//! `NAME.trace`.
use crate::program::answer;
use std::sync::Wait;
use std::thread::Threads;
use std::{fs, io};

/// The name of a trace, and the line whose story is drawn.
pub const STORIES: [(&str, &str); 1] = [("left-out-hart", "15")];

/// Whether the picture of a story is as it stands there.
pub fn is_drawn<T: Threads + Wait + Sync>(
    rt: &HostRuntime,
    threads: &T,
    name: &str,
    line: &str,
) -> io::Result<bool> {
    let alloc = rt.alloc();
    let picture = fs::read_to_string(rt, format!(in alloc; "watch/{name}.svg")?.as_str())?;
    let words = format!(in alloc; "{name}.trace {line}")?;
    let outcome = answer(rt, threads, "watch", "explain --svg", words.as_str())?;
    Ok(outcome.is(0, picture.as_str(), ""))
}
