//! A trace whose notes come again, and how much memory it takes.

use crate::inspections::ROOM;
use crate::verdict::Verdict;
use scenario::watch_command;
use std::alloc::{AllocError, Global};

/// How many notes there are: each comes again after as many others as it is compared with at most.
const NOTES: usize = 64;

/// How often each comes.
const ROUNDS: usize = 16;

/// How many bytes a note has before its number.
const NOTE_BYTES: usize = 250;

/// Room for the text: a line has 16 bytes at most beside its note.
const TEXT: usize = NOTES * ROUNDS * (NOTE_BYTES + 16);

/// How many bytes are enough where each note is kept once: too few for those of half the records.
pub const ENOUGH: usize = TEXT + 2 * ROOM + NOTES * ROUNDS * NOTE_BYTES / 2;

/// The text of the trace: a hart executes fences, each with a note.
fn trace(alloc: Global) -> Result<Vec<u8>, AllocError> {
    let mut text = Vec::with_capacity(alloc, TEXT)?;
    text.extend_from_slice(b"watch 1 1 sv39\n")?;
    for _ in 0..ROUNDS {
        for number in 0..NOTES {
            text.extend_from_slice(b"f 0 - - @")?;
            text.resize(text.len().saturating_add(NOTE_BYTES), b'n')?;
            text.push(b'0' + (number / 10 % 10) as u8)?;
            text.push(b'0' + (number % 10) as u8)?;
            text.push(b'\n')?;
        }
    }
    Ok(text)
}

/// The verdicts on the trace, of which there is none.
pub fn watch(alloc: Global) -> Verdict {
    let Ok(text) = trace(alloc) else {
        return Verdict::NoMemory;
    };
    let Ok(mut out) = Vec::with_capacity(alloc, ROOM) else {
        return Verdict::NoMemory;
    };
    let Ok(mut err) = Vec::with_capacity(alloc, ROOM) else {
        return Verdict::NoMemory;
    };
    let status = watch_command(alloc, "a trace", text.as_slice(), &mut out, &mut err);
    let (out, err) = (out.as_slice(), err.as_slice());
    if status == 5 && out.is_empty() && err == b"svsim: no memory\n".as_slice() {
        return Verdict::NoMemory;
    }
    let told = out == b"1024 records, no verdict\n".as_slice();
    Verdict::is_usual(status == 0 && told && err.is_empty())
}
