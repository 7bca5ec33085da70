//! A trace with a verdict, whose causes are printed in JSON, and a list of what is known.

use crate::causes::TRACE;
use crate::inspections::ROOM;
use crate::verdict::Verdict;
use harts::OpenGate;
use scenario::{NoWords, answer_words};
use std::alloc::{AllocError, Global};
use std::sync::Wait;
use std::thread::Threads;

/// The words that the program is started with.
const WORDS: [&str; 6] = ["svsim", "watch", "--json", "--known", "a list", "a trace"];

/// Two entries, which no verdict has.
const LIST: &str = "# by design\n\
    kernel - - 1000 1000 @the kernel's\n\
    user claim no-flush @a note\n";

/// What is printed once the frame is given back.
const BLOCK: &str =
    "{\"type\":\"verdict\",\"file\":\"a trace\",\"line\":9,\"verdict\":\"free\",\"kernel\":false,\
    \"hart\":1,\"page\":\"1000\",\"size\":\"1000\",\"frame\":\"100\",\"flags\":\"rw-u-\",\"asid\":\"1\",\
    \"root\":\"80000\",\"stale_since\":6,\"stale_by\":null,\"frames\":\"100\",\"count\":\"1\",\"by\":null}\n\
    {\"type\":\"cause\",\"file\":\"a trace\",\"line\":9,\"cause\":1,\"kernel\":false,\"first\":\"free\",\
    \"reason\":\"other-hart\"}\n";

/// What is printed at the end.
const END: &str =
    "{\"type\":\"finding\",\"file\":\"a trace\",\"line\":9,\"cause\":1,\"kernel\":false,\
    \"hart\":1,\"page\":\"1000\",\"size\":\"1000\",\"frame\":\"100\",\"flags\":\"rw-u-\",\
    \"asid\":\"1\",\"root\":\"80000\",\"stale_since\":6,\"stale_by\":null,\
    \"reach\":\"reachable\"}\n\
    {\"type\":\"total\",\"file\":\"a trace\",\"line\":9,\"cause\":1,\"kernel\":false,\
    \"first\":\"free\",\"reason\":\"other-hart\",\"findings\":1,\"free\":1,\"reuse\":0,\"claim\":0,\"use\":0}\n\
    {\"type\":\"note\",\"file\":\"a trace\",\"cause\":1,\"note\":null,\"findings\":1,\
    \"pages\":1,\"spaces\":1,\"harts\":[1],\"asked\":[0],\"used\":0,\"reachable\":1,\
    \"not_reached\":0}\n\
    {\"type\":\"known\",\"file\":\"a list\",\"line\":2,\"findings\":0}\n\
    {\"type\":\"known\",\"file\":\"a list\",\"line\":3,\"findings\":0}\n\
    {\"type\":\"summary\",\"file\":\"a trace\",\"records\":8,\"before_line\":null,\
    \"user\":{\"free\":1,\"reuse\":0,\"claim\":0,\"use\":0},\
    \"kernel\":{\"free\":0,\"reuse\":0,\"claim\":0,\"use\":0},\"by_design\":0}\n";

fn words(alloc: Global) -> Result<Vec<String>, AllocError> {
    let mut words = Vec::new(alloc);
    for word in WORDS {
        words.push(String::from_str(alloc, word)?)?;
    }
    Ok(words)
}

/// Whether all is printed.
fn is_whole(out: &[u8]) -> bool {
    match out.strip_prefix(BLOCK.as_bytes()) {
        Some(end) => end == END.as_bytes(),
        None => false,
    }
}

/// What the program answers to the words. Where memory ends, what was printed stays.
pub fn watch<R: Threads + Wait + Sync>(rt: &R, alloc: Global) -> Verdict {
    let Ok(mut out) = Vec::with_capacity(alloc, ROOM) else {
        return Verdict::NoMemory;
    };
    let Ok(mut err) = Vec::with_capacity(alloc, ROOM) else {
        return Verdict::NoMemory;
    };
    let words = match words(alloc) {
        Ok(words) => Ok(words),
        Err(AllocError) => Err(NoWords::NoMemory),
    };
    let status = answer_words(
        rt,
        alloc,
        words,
        |_name| Some(TRACE.as_bytes()),
        |_name| Some(LIST.as_bytes()),
        &mut out,
        &mut err,
        &OpenGate,
    );
    let (out, err) = (out.as_slice(), err.as_slice());
    let is_cut = out.is_empty() || out == BLOCK.as_bytes();
    if status == 5 && is_cut && err == b"svsim: no memory\n".as_slice() {
        return Verdict::NoMemory;
    }
    Verdict::is_usual(status == 1 && is_whole(out) && err.is_empty())
}
