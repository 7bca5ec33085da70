//! `memory_tests`: makes eighteen calls that take memory, through which most others of the libraries
//! go, and prints a line for each: whether it answered as usual, found no memory, or answered
//! anything else. The status is 5 if one of them found no memory, else 0.
//! `scripts/refuse_memory.sh` runs it once for each of its requests for memory, which is then
//! refused. With the word `scarce` it repeats each call with ever more memory, from none on, until
//! it answers as usual, and one with too little for a note more than once.
#![tactic(auto)]

mod calls;
mod causes;
mod inspections;
mod known;
mod live;
mod locked;
mod machines;
mod notes;
mod scarce;
mod shootdown;
mod stories;
mod texts;
mod verdict;

use calls::Call;
use scarce::Hoard;
use std::alloc::Global;
use std::env;
use std::process::ExitCode;
use std::sync::Wait;
use std::thread::Threads;
use verdict::Verdict;

/// What became of each call, with all memory that there is. Whether none lacked memory.
fn with_all<R: Print + Threads + Wait + Sync>(rt: &R, alloc: Global) -> bool {
    let mut is_ample = true;
    for call in Call::ALL {
        let verdict = call.make(rt, alloc);
        is_ample &= verdict != Verdict::NoMemory;
        let _ = println!(rt; "{}: {}", call.name(), verdict.told());
    }
    is_ample
}

/// What became of each call while memory ended ever later.
fn with_little<R: Print + Threads + Wait + Sync>(rt: &R, alloc: Global) {
    let Some(mut hoard) = Hoard::open(alloc) else {
        let _ = println!(rt; "there is no end of memory here");
        return;
    };
    for call in Call::ALL {
        let told = hoard.tell(rt, alloc, call);
        let _ = println!(rt; "{}, as memory ends: {}", call.name(), told.words());
    }
    let told = match hoard.make(rt, alloc, Call::Watch, notes::ENOUGH) {
        None => "not tried",
        Some(verdict) => verdict.told(),
    };
    let _ = println!(rt; "watch_command, with room for each note once: {told}");
}

fn main(rt: HostRuntime) -> ExitCode {
    let alloc = rt.alloc();
    let (verdict, words) = match env::args(&rt) {
        Ok(words) => (Verdict::Usual, words.count()),
        Err(_) => (Verdict::NoMemory, 0),
    };
    let _ = println!(rt; "env::args: {}", verdict.told());
    let is_ample = with_all(&rt, alloc) & (verdict == Verdict::Usual);
    // its name and one word
    if words == 2 {
        with_little(&rt, alloc);
    }
    ExitCode::from(if is_ample { 0 } else { 5 })
}
