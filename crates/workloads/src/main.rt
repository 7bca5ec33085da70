//! `workloads NAME SEED [PARTS]`: does one of the jobs that users wait for, on input that it makes of
//! the number SEED, below 2^32, and prints a digest of all that came of it. Each number gives another
//! input of the same kind and size. PARTS is how many of the job's parts are done, all where it is left
//! out.
//!
//! | name | the job |
//! |---|---|
//! | processes | `watch` on traces of kernels with many processes |
//! | harts | `watch` on traces of kernels with 64 harts |
//! | lazy | `watch` on traces of kernels that fence late, with notes |
//! | ranges | `watch` on traces of kernels that unmap runs of pages, and superpages, in Sv48 |
//! | verdicts | `watch` on traces of kernels that forget other harts |
//! | files | `run`, `stale`, `show`, `check`, `draw` and `walk` on scenario files of many sizes |
//! | machine | events on a machine, translations, and calls of a TLB |
//!
//! The file `stdout` has what the Python script `scripts/workloads.py` prints, which makes the same
//! input and asks other programs what comes of it.
#![tactic(auto)]

mod digest;
mod file_texts;
mod kernel;
mod machine;
mod process;
mod random;
mod ranges;
mod scenarios;
mod texts;
mod traces;

use digest::Digest;
use kernel::Shape;
use std::alloc::{AllocError, Global};
use std::process::ExitCode;
use std::{env, io};

/// Why a job is not done.
#[derive(Clone, Copy, Debug, PartialEq, Eq)]
pub enum Failure {
    /// The words are not those that `workloads` takes.
    Usage,
    NoMemory,
    /// A machine or a file is refused.
    Refused,
    /// Words can't be read, or lines not be written.
    Io,
}

impl From<AllocError> for Failure {
    fn from(_error: AllocError) -> Failure {
        Failure::NoMemory
    }
}

impl From<io::Error> for Failure {
    fn from(_error: io::Error) -> Failure {
        Failure::Io
    }
}

/// A job.
#[derive(Clone, Copy, Debug, PartialEq, Eq)]
enum Job {
    /// Traces of kernels of a shape.
    Watch(Shape),
    /// Traces of kernels of a shape, which map and unmap runs of pages.
    Ranges(Shape),
    Files,
    Machine,
}

/// What is done: a job, on input that is made of a seed, in so many parts.
#[derive(Clone, Copy, Debug, PartialEq, Eq)]
struct Task {
    job: Job,
    seed: u64,
    parts: u64,
}

const PROCESSES: Shape = Shape {
    harts: 4,
    processes: 256,
    pages: 64,
    lazy: false,
    forgets: false,
    records: 120_000,
};

const HARTS: Shape = Shape {
    harts: 64,
    processes: 16,
    pages: 64,
    lazy: false,
    forgets: false,
    records: 100_000,
};

const LAZY: Shape = Shape {
    harts: 4,
    processes: 24,
    pages: 64,
    lazy: true,
    forgets: false,
    records: 400_000,
};

const RANGES: Shape = Shape {
    harts: 8,
    processes: 24,
    pages: 1024,
    lazy: false,
    forgets: false,
    records: 250_000,
};

const VERDICTS: Shape = Shape {
    harts: 4,
    processes: 24,
    pages: 64,
    lazy: false,
    forgets: true,
    records: 100_000,
};

/// The job of a name, and how many parts it has: records, files, batches.
fn job_of(name: &str) -> Option<(Job, u64)> {
    match name {
        "processes" => Some((Job::Watch(PROCESSES), 960_000)),
        "harts" => Some((Job::Watch(HARTS), 700_000)),
        "lazy" => Some((Job::Watch(LAZY), 800_000)),
        "ranges" => Some((Job::Ranges(RANGES), 1_250_000)),
        "verdicts" => Some((Job::Watch(VERDICTS), 600_000)),
        "files" => Some((Job::Files, 800)),
        "machine" => Some((Job::Machine, 4_000)),
        _ => None,
    }
}

fn number(word: &str) -> Result<u64, Failure> {
    word.parse::<u64>().map_err(|_| Failure::Usage)
}

/// What the words ask for.
fn task_of(words: &[String]) -> Result<Task, Failure> {
    let (Some(name), Some(seed)) = (words.get(1), words.get(2)) else {
        return Err(Failure::Usage);
    };
    let (job, parts) = job_of(name.as_str()).ok_or(Failure::Usage)?;
    let seed = number(seed.as_str())?;
    let parts = match words.get(3) {
        None => parts,
        Some(word) => number(word.as_str())?,
    };
    Ok(Task { job, seed, parts })
}

/// Does what is asked.
fn run(rt: &HostRuntime) -> Result<(), Failure> {
    let words: Vec<String> = env::args(rt)?.collect(rt.alloc())?;
    let Task { job, seed, parts } = task_of(&words)?;
    let alloc = rt.alloc();
    let mut digest = Digest::new();
    match job {
        Job::Watch(shape) => traces::run(alloc, shape, seed, parts, &mut digest)?,
        Job::Ranges(shape) => ranges::run(alloc, shape, seed, parts, &mut digest)?,
        Job::Files => scenarios::run(alloc, seed, parts, &mut digest)?,
        Job::Machine => machine::run(alloc, seed, parts, &mut digest)?,
    }
    println!(rt; "{:016x} {}", digest.hash, digest.bytes)?;
    Ok(())
}

fn main(rt: HostRuntime) -> ExitCode {
    let Err(failure) = run(&rt) else {
        return ExitCode::SUCCESS;
    };
    let _ = match failure {
        Failure::Usage => {
            eprintln!(rt;
                "usage: workloads processes|harts|lazy|ranges|verdicts|files|machine SEED [PARTS]"
            )
        }
        Failure::NoMemory => eprintln!(rt; "workloads: no memory"),
        Failure::Refused => eprintln!(rt; "workloads: the input is refused"),
        Failure::Io => eprintln!(rt; "workloads: cannot read the words, or write the digest"),
    };
    ExitCode::FAILURE
}
