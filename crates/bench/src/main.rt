//! `bench [all|events|sv39|sv48|tlb|KIND|rings|lock|words] [N]`: makes about N events on a machine
//! of 8 harts, N translations over the tables of a scheme, N calls of each kind or of one on a TLB
//! alone, N shootdowns between two threads, over rings or under one lock, N numbers that go there
//! and back between two threads, or all of these (then a tenth of N between the threads), and
//! prints what they came to, by counts. N is 10,000,000 where no number is given. The clock is the
//! caller's.
//!
//! `bench map|unmap|protect [N]` makes N edits of a table memory,
//! `bench flush1|..|shootdown1|..|ports1|.. [N]` makes N shootdowns by the ports of a board, with 1
//! to 3 other harts in threads of their own. These parts read the clock themselves, so `all` has
//! none of them.
#![tactic(auto)]

mod boards;
mod cycle;
mod edits;
mod entries;
mod locked;
mod pause;
mod tally;
mod tree;
mod trips;

use boards::{Others, Round};
use edits::Change;
use entries::Kind;
use pte::Scheme;
use std::alloc::{AllocError, Global};
use std::process::ExitCode;
use std::sync::Wait;
use std::thread::Threads;
use std::time::{Clock, Duration};
use std::{env, io};
use tally::Tally;

/// How many events and translations, where no number is given.
const DEFAULT_COUNT: u64 = 10_000_000;

/// Why nothing is measured.
#[derive(Clone, Copy, Debug, PartialEq, Eq)]
enum Failure {
    /// The words are not those that `bench` takes.
    Usage,
    NoMemory,
    /// The configuration is refused, or a page is not mapped.
    NotOpened,
    /// Words or the clock can't be read, or lines not be written.
    Io,
}

impl From<AllocError> for Failure {
    fn from(_error: AllocError) -> Failure {
        Failure::NoMemory
    }
}

impl From<io::Error> for Failure {
    fn from(_error: io::Error) -> Failure {
        Failure::Io
    }
}

/// What is measured.
#[derive(Clone, Copy, Debug, PartialEq, Eq)]
enum Part {
    All,
    Events,
    Translations(Scheme),
    Tlb,
    Kind(Kind),
    Rings,
    Lock,
    Words,
    Edits(Change),
    /// Shootdowns by ports.
    Ports(Round, Others),
}

/// The kind of call with a name.
fn kind_of(word: &str) -> Option<Kind> {
    for (kind, name) in entries::kinds() {
        if name == word {
            return Some(kind);
        }
    }
    None
}

/// The part that reads the clock itself with a name.
fn timed(word: &str) -> Option<Part> {
    for (change, name) in edits::changes() {
        if name == word {
            return Some(Part::Edits(change));
        }
    }
    for (round, others, name) in boards::parts() {
        if name == word {
            return Some(Part::Ports(round, others));
        }
    }
    None
}

/// The part of a name that no other part has.
fn named(word: &str) -> Option<Part> {
    match kind_of(word) {
        Some(kind) => Some(Part::Kind(kind)),
        None => timed(word),
    }
}

/// What the words ask for: the part, and how many.
fn asked(words: &[String]) -> Result<(Part, u64), Failure> {
    let part = match words.get(1) {
        None => Part::All,
        Some(word) => match word.as_str() {
            "all" => Part::All,
            "events" => Part::Events,
            "sv39" => Part::Translations(Scheme::Sv39),
            "sv48" => Part::Translations(Scheme::Sv48),
            "tlb" => Part::Tlb,
            "rings" => Part::Rings,
            "lock" => Part::Lock,
            "words" => Part::Words,
            word => named(word).ok_or(Failure::Usage)?,
        },
    };
    let count = match words.get(2) {
        None => DEFAULT_COUNT,
        Some(word) => word.as_str().parse::<u64>().map_err(|_| Failure::Usage)?,
    };
    Ok((part, count))
}

/// What the words of the command line ask for.
fn asked_by(rt: &HostRuntime) -> Result<(Part, u64), Failure> {
    let words: Vec<String> = env::args(rt)?.collect(rt.alloc())?;
    asked(&words)
}

fn print_events<R: Print>(rt: &R, cycles: u64, tally: &Tally) -> Result<(), Failure> {
    println!(rt; "cycles {cycles}")?;
    for (name, count) in tally.counts() {
        println!(rt; "{name} {count}")?;
    }
    Ok(())
}

/// The parts of one thread.
fn run_alone<R: Print>(rt: &R, alloc: Global, part: Part, count: u64) -> Result<(), Failure> {
    if matches!(part, Part::All | Part::Events) {
        let (cycles, tally) = cycle::run(alloc, count)?;
        print_events(rt, cycles, &tally)?;
    }
    for (scheme, name) in [(Scheme::Sv39, "sv39"), (Scheme::Sv48, "sv48")] {
        if part == Part::All || part == Part::Translations(scheme) {
            let found = tree::run(alloc, scheme, count)?;
            println!(rt; "{name} {count}")?;
            println!(rt; "found {found}")?;
        }
    }
    for (kind, name) in entries::kinds() {
        if matches!(part, Part::All | Part::Tlb) || part == Part::Kind(kind) {
            println!(rt; "{name} {}", entries::run(kind, count))?;
        }
    }
    Ok(())
}

/// The parts of two threads.
fn run_beside<R: Threads + Wait + Sync + Print>(
    rt: &R,
    alloc: Global,
    part: Part,
    count: u64,
) -> Result<(), Failure> {
    if matches!(part, Part::All | Part::Rings) {
        let made = trips::over_rings(rt, alloc, count)?;
        println!(rt; "rings {made}")?;
    }
    if matches!(part, Part::All | Part::Lock) {
        let made = locked::under_lock(rt, alloc, count)?;
        println!(rt; "lock {made}")?;
    }
    if matches!(part, Part::All | Part::Words) {
        let made = trips::over_words(rt, count);
        println!(rt; "words {made}")?;
    }
    Ok(())
}

/// Prints how many nanoseconds each of `count` took, to a hundredth.
fn print_each<R: Print>(rt: &R, time: Duration, count: u64) -> Result<(), Failure> {
    let hundredths = time.as_nanos() * 100 / u128::from(count.max(1));
    println!(rt; "nanoseconds {}.{:02}", hundredths / 100, hundredths % 100)?;
    Ok(())
}

/// The parts that read the clock themselves.
fn run_timed<R: Threads + Sync + Print + Clock>(
    rt: &R,
    alloc: Global,
    part: Part,
    count: u64,
) -> Result<(), Failure> {
    match part {
        Part::Edits(change) => {
            let time = edits::run(rt, alloc, change, count)?;
            println!(rt; "edits {count}")?;
            print_each(rt, time, count)
        }
        Part::Ports(round, others) => {
            let came = boards::run(rt, alloc, round, others, count)?;
            println!(rt; "shootdowns {}", came.shootdowns)?;
            print_each(rt, came.time, came.shootdowns)?;
            if came.translations > 0 {
                let second = u128::from(came.translations) * 1_000_000_000;
                println!(rt; "translations {}", came.translations)?;
                println!(rt; "found {}", came.found)?;
                println!(rt; "per_second {}", second / came.time.as_nanos().max(1))?;
            }
            Ok(())
        }
        _ => Ok(()),
    }
}

fn run<R: Threads + Wait + Sync + Print + Clock>(
    rt: &R,
    alloc: Global,
    asked: Result<(Part, u64), Failure>,
) -> Result<(), Failure> {
    let (part, count) = asked?;
    run_alone(rt, alloc, part, count)?;
    let between = if part == Part::All { count / 10 } else { count };
    run_beside(rt, alloc, part, between)?;
    run_timed(rt, alloc, part, count)
}

fn main(rt: HostRuntime) -> ExitCode {
    let Err(failure) = run(&rt, rt.alloc(), asked_by(&rt)) else {
        return ExitCode::SUCCESS;
    };
    let _ = match failure {
        Failure::Usage => {
            eprintln!(rt;
                "usage: bench [all|events|sv39|sv48|tlb|KIND|rings|lock|words|map|unmap|protect|flush1|shootdown1|ports1] [N]"
            )
        }
        Failure::NoMemory => eprintln!(rt; "bench: no memory"),
        Failure::NotOpened => eprintln!(rt; "bench: nothing to measure on"),
        Failure::Io => eprintln!(rt;
            "bench: cannot read the words or the clock, or write the counts"
        ),
    };
    ExitCode::FAILURE
}
