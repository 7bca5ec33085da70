//! The commands `watch` and `explain` of `svsim` alone: `svsim_watch [--all|--quiet|--explain LINE] [--json]
//! [--max N] [--known FILE] [--hart H] [--page VA] [--kind KIND] TRACE`.
//!
//! The wrapper `./svsim` builds it without a proof, which takes a third of the time of the whole
//! program. What it writes, and the statuses 0, 1 and 3, are those of `svsim`. At other words, and where
//! the trace or the list of what is known can't be read, written or held in memory, it answers 6, and the
//! wrapper builds the whole program.
#![tactic(auto)]

use std::io::Read;
use std::process::ExitCode;
use std::{env, fs};
use watch_report::{
    Detail, Filter, Form, Known, KnownError, KnownList, Options, ReportFault, explain_trace,
    read_filter, read_known, report_trace,
};

/// No verdict.
const DONE: u8 = 0;

/// There is a verdict.
const WARNED: u8 = 1;

/// There is no verdict to explain.
const NO_VERDICT: u8 = 1;

/// A line is wrong: of the list of what is known, or of the trace where there is no verdict before it, or
/// one is to be explained.
const REFUSED: u8 = 3;

/// The whole program has to answer.
const NO_ANSWER: u8 = 6;

/// The bytes of a list of what is known. A longer one is left to the whole program.
const MOST_OF_LIST: usize = 65_536;

/// What is done with the trace.
#[derive(Clone, Copy)]
enum Task {
    Watch(Detail),
    Explain(u64),
}

/// What the words ask for, and of which trace.
#[derive(Clone, Copy)]
struct Ask<'a> {
    task: Task,
    filter: Filter,
    form: Form,
    most: Option<u64>,
    /// The name of a list of what is known.
    known: Option<&'a str>,
    file: &'a str,
}

/// How the list of what is known was read.
#[derive(Drop)]
enum List {
    Entries(Vec<Known>),
    /// A line is wrong, and was told.
    Wrong,
}

fn has(words: &[String], option: &str) -> bool {
    words.iter().any(|word| word.as_str() == option)
}

/// The word behind an option, if it is not the last one.
fn word_of<'a>(words: &'a [String], option: &str) -> Option<&'a str> {
    let at = words.iter().position(|word| word.as_str() == option)?;
    if at + 2 < words.len() && !words[at + 1].starts_with('-') {
        Some(words[at + 1].as_str())
    } else {
        None
    }
}

/// The same, as bytes.
fn bytes_of<'a>(words: &'a [String], option: &str) -> Option<&'a [u8]> {
    Some(word_of(words, option)?.as_bytes())
}

/// A decimal number.
fn number_in(word: &str) -> Option<u64> {
    if word.as_bytes().iter().all(|byte| byte.is_ascii_digit()) {
        word.parse::<u64>().ok()
    } else {
        None
    }
}

/// How many words the options are, if each is there once.
fn words_of_options(words: &[String]) -> usize {
    let mut count = 0usize;
    for flag in ["--all", "--quiet", "--json"] {
        if has(words, flag) {
            count = count.saturating_add(1);
        }
    }
    for option in [
        "--explain",
        "--max",
        "--known",
        "--hart",
        "--page",
        "--kind",
    ] {
        if word_of(words, option).is_some() {
            count = count.saturating_add(2);
        }
    }
    count
}

/// What the words ask for but for the tests.
fn task_of(words: &[String]) -> Option<Task> {
    let line = word_of(words, "--explain");
    match (has(words, "--all"), has(words, "--quiet"), line) {
        (false, false, None) => Some(Task::Watch(Detail::Causes)),
        (true, false, None) => Some(Task::Watch(Detail::Verdicts)),
        (false, true, None) => Some(Task::Watch(Detail::Counts)),
        (false, false, Some(line)) => {
            let alone = !has(words, "--json") && !has(words, "--max") && !has(words, "--known");
            let number = number_in(line)?;
            if alone && number > 0 {
                Some(Task::Explain(number))
            } else {
                None
            }
        }
        _ => None,
    }
}

/// What the words ask for: each option once, and the trace behind all.
fn asked(words: &[String]) -> Option<Ask<'_>> {
    let file = words.last()?.as_str();
    if words.len() != words_of_options(words).saturating_add(2) || file.starts_with('-') {
        return None;
    }
    let filter = read_filter(
        bytes_of(words, "--hart"),
        bytes_of(words, "--page"),
        bytes_of(words, "--kind"),
    )?;
    let most = match word_of(words, "--max") {
        Some(word) => Some(number_in(word)?),
        None => None,
    };
    let form = if has(words, "--json") {
        Form::Json
    } else {
        Form::Text
    };
    Some(Ask {
        task: task_of(words)?,
        filter,
        form,
        most,
        known: word_of(words, "--known"),
        file,
    })
}

/// Reads the list of what is known, if there is one.
fn list_of(rt: &HostRuntime, known: Option<&str>) -> Option<List> {
    let mut text = Vec::new(rt.alloc());
    let Some(name) = known else {
        return Some(List::Entries(Vec::new(rt.alloc())));
    };
    let mut file = fs::open(rt, name).ok()?.take(MOST_OF_LIST as u64 + 1);
    file.read_to_end(&mut text).ok()?;
    if text.len() > MOST_OF_LIST {
        return None;
    }
    match read_known(rt.alloc(), text.as_slice()) {
        Ok(entries) => Some(List::Entries(entries)),
        Err(KnownError::Line(fault)) => {
            eprintln!(rt; "{name}:{fault}").ok()?;
            Some(List::Wrong)
        }
        Err(KnownError::NoMemory) => None,
    }
}

/// Reports a trace, and answers the status.
fn watch(rt: &HostRuntime, options: Options, known: KnownList<'_>, file: &str) -> Option<u8> {
    let trace = fs::open(rt, file).ok()?;
    match report_trace(rt.alloc(), options, known, file, trace, &mut rt.stdout()) {
        Ok(false) | Err(ReportFault::BrokenPipe { warned: false }) => Some(DONE),
        Ok(true) | Err(ReportFault::BrokenPipe { warned: true }) => Some(WARNED),
        Err(
            ReportFault::Line {
                number,
                fault,
                warned,
            }
            | ReportFault::BrokenPipeAtLine {
                number,
                fault,
                warned,
            },
        ) => {
            eprintln!(rt; "{file}:{number}:{fault}").ok()?;
            Some(if warned { WARNED } else { REFUSED })
        }
        Err(ReportFault::Unreadable | ReportFault::Output | ReportFault::NoMemory) => None,
    }
}

/// The same, once the list of what is known is read.
fn watch_with_list(rt: &HostRuntime, detail: Detail, ask: Ask<'_>) -> Option<u8> {
    let options = Options {
        detail,
        filter: ask.filter,
        form: ask.form,
        most: ask.most,
    };
    match list_of(rt, ask.known)? {
        List::Entries(entries) => {
            let file = ask.known.unwrap_or("").as_bytes();
            watch(rt, options, KnownList { file, entries }, ask.file)
        }
        List::Wrong => Some(REFUSED),
    }
}

/// Tells the first verdict of a line, and answers the status.
fn explain(rt: &HostRuntime, line: u64, filter: Filter, file: &str) -> Option<u8> {
    let trace = fs::open(rt, file).ok()?;
    match explain_trace(rt.alloc(), filter, line, file, trace, &mut rt.stdout()) {
        Ok(true) | Err(ReportFault::BrokenPipe { .. }) => Some(DONE),
        Ok(false) => {
            eprintln!(rt; "{file}:{line}: no such verdict").ok()?;
            Some(NO_VERDICT)
        }
        Err(
            ReportFault::Line { number, fault, .. }
            | ReportFault::BrokenPipeAtLine { number, fault, .. },
        ) => {
            eprintln!(rt; "{file}:{number}:{fault}").ok()?;
            Some(REFUSED)
        }
        Err(ReportFault::Unreadable | ReportFault::Output | ReportFault::NoMemory) => None,
    }
}

/// Does what the words ask for, and answers the status.
fn answer(rt: &HostRuntime) -> Option<u8> {
    let words: Vec<String> = env::args(rt).ok()?.collect(rt.alloc()).ok()?;
    let ask = asked(words.as_slice())?;
    match ask.task {
        Task::Watch(detail) => watch_with_list(rt, detail, ask),
        Task::Explain(line) => explain(rt, line, ask.filter, ask.file),
    }
}

fn main(rt: HostRuntime) -> ExitCode {
    ExitCode::from(answer(&rt).unwrap_or(NO_ANSWER))
}
