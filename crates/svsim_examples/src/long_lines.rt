//! Files of one long line, as long as a file may be, and what each command answers.
use crate::program::{Files, Outcome, answer_on};
use std::alloc::{AllocError, Global};
use std::io;
use std::sync::Wait;
use std::thread::Threads;

/// The most bytes that a file may have.
const LENGTH: usize = 1_048_576;

/// How many letters of a word `check` prints.
const SHOWN: usize = 40;

/// How many bytes the middle of a short file has.
const SHORT: usize = 300;

const COMMANDS: [&str; 7] = ["walk", "run", "live", "stale", "show", "draw", "check"];

/// What `check` prints.
#[derive(Clone, Copy)]
enum Told {
    /// This, where `@` is what it shows of the repeated bytes.
    Text(&'static str),
    /// That the file is not TOML, from some column of line 1 on.
    NotToml,
}

/// What stands after `svsim: ` on standard error, where `@` is the repeated bytes; nothing stands
/// there if all is right.
#[derive(Clone, Copy)]
struct Errors {
    walk: &'static str,
    /// Of `run`, `stale`, `show` and `draw`.
    run: &'static str,
    live: &'static str,
}

/// A file: a head, some bytes repeated, and a tail. Each of the units is repeated in a file of its
/// own.
#[derive(Clone, Copy)]
struct Line {
    head: &'static str,
    units: &'static [&'static str],
    tail: &'static str,
    errors: Errors,
    check: Told,
}

const RIGHT: Errors = Errors {
    walk: "",
    run: "",
    live: "",
};

const NOT_TOML: Errors = Errors {
    walk: "not TOML",
    run: "not TOML",
    live: "not TOML",
};

/// Of a file with the key `steps`, whose first text is no step.
const NOT_STEP: Errors = Errors {
    walk: "step 1: not a step",
    run: "step 1: not a step",
    live: "key steps: wrong",
};

/// Of a file with the key `scripts`, whose first text is no step.
const NOT_IN_SCRIPT: Errors = Errors {
    walk: "key scripts: wrong",
    run: "key scripts: wrong",
    live: "script 0 step 1: not a step",
};

const LINES: [Line; 12] = [
    // blanks alone are an empty document, and before a key they are skipped
    Line {
        head: "",
        units: &[" "],
        tail: "",
        errors: RIGHT,
        check: Told::Text("file for run\nok\n"),
    },
    Line {
        head: "",
        units: &[" ", "\t"],
        tail: "steps = [\"x\"]",
        errors: NOT_STEP,
        check: Told::Text(
            "file for run\nFILE:1:1048574: step 1: `x` where the number of the hart is expected\n1 fault\n",
        ),
    },
    // a comment is no text
    Line {
        head: "#",
        units: &["\""],
        tail: "",
        errors: RIGHT,
        check: Told::Text("file for run\nok\n"),
    },
    Line {
        head: "",
        units: &["'"],
        tail: "",
        errors: NOT_TOML,
        check: Told::NotToml,
    },
    Line {
        head: "steps = ",
        units: &["["],
        tail: "",
        errors: NOT_TOML,
        check: Told::NotToml,
    },
    // the text of a step: no word, or one where the hart is expected
    Line {
        head: "steps = [\"",
        units: &["\t"],
        tail: "\"]",
        errors: NOT_STEP,
        check: Told::Text("file for run\nFILE:1:10: step 1: no word\n1 fault\n"),
    },
    Line {
        head: "steps = [\"",
        units: &["7", "a", "["],
        tail: "\"]",
        errors: NOT_STEP,
        check: Told::Text(
            "file for run\nFILE:1:11: step 1: `@` where the number of the hart is expected\n1 fault\n",
        ),
    },
    // its last word, which is read letter by letter, and many words
    Line {
        head: "steps = [\"0 flush all ",
        units: &["0,"],
        tail: "\"]",
        errors: NOT_STEP,
        check: Told::Text(
            "file for run\nFILE:1:23: step 1: `@` where NAMED is expected: harts joined by commas without blanks, as 0,1, or - for none; written: H flush SCOPE NAMED\n1 fault\n",
        ),
    },
    Line {
        head: "steps = [\"0 load",
        units: &[" 7"],
        tail: "\"]",
        errors: NOT_STEP,
        check: Told::Text(
            "file for run\nFILE:1:18: step 1: `7` is a word too many; written: H load\n1 fault\n",
        ),
    },
    // a step of a script
    Line {
        head: "scripts = [[\"",
        units: &[" "],
        tail: "\"]]",
        errors: NOT_IN_SCRIPT,
        check: Told::Text(
            "file for live\nFILE:1:13: script 0 step 1: the name of the step is missing\n1 fault\n",
        ),
    },
    // a key
    Line {
        head: "",
        units: &["a"],
        tail: " = 1",
        errors: Errors {
            walk: "key @: wrong",
            run: "key @: wrong",
            live: "key @: wrong",
        },
        check: Told::Text("file for run\nFILE:1: key `@`: no key of run\n1 fault\n"),
    },
    // a number that blanks stand before
    Line {
        head: "root = \"",
        units: &["\t"],
        tail: "1\"",
        errors: Errors {
            walk: "",
            run: "key root: wrong",
            live: "key root: wrong",
        },
        check: Told::Text("file for walk\nok\n"),
    },
];

/// A unit, repeated as often as it fits in `length` bytes.
fn repeated(alloc: Global, unit: &str, length: usize) -> Result<String, AllocError> {
    let mut text = String::new(alloc);
    let count = length.checked_div(unit.len()).unwrap_or(0);
    for _ in 0..count {
        text.push_str(unit)?;
    }
    Ok(text)
}

/// What `check` shows of repeated bytes.
fn shown(alloc: Global, unit: &str) -> Result<String, AllocError> {
    let mut text = repeated(alloc, unit, SHOWN)?;
    text.push_str("..")?;
    Ok(text)
}

/// The status that goes with a line on standard error.
fn status_of(error: &str) -> u8 {
    match error {
        "" => 0,
        "not TOML" => 2,
        _ => 3,
    }
}

/// The line on standard error.
fn line_of(alloc: Global, error: &str, middle: &str) -> Result<String, AllocError> {
    if error.is_empty() {
        return Ok(String::new(alloc));
    }
    match error.split_once('@') {
        Some((before, after)) => format!(in alloc; "svsim: {before}{middle}{after}\n"),
        None => format!(in alloc; "svsim: {error}\n"),
    }
}

/// Whether a fault of no command is told at a column of line 1.
fn has_column(printed: &[u8]) -> bool {
    match printed.strip_prefix(b"file for no command\nFILE:1:".as_slice()) {
        Some(rest) => rest.first().is_some_and(|byte| byte.is_ascii_digit()),
        None => false,
    }
}

impl Line {
    /// The error of a command.
    fn error(&self, command: &str) -> &'static str {
        match command {
            "walk" => self.errors.walk,
            "live" => self.errors.live,
            _ => self.errors.run,
        }
    }

    /// The error of the command that the file is for.
    fn own_error(&self) -> &'static str {
        match self.check {
            Told::NotToml => self.errors.run,
            Told::Text(text) => {
                if text.starts_with("file for live") {
                    self.errors.live
                } else if text.starts_with("file for walk") {
                    self.errors.walk
                } else {
                    self.errors.run
                }
            }
        }
    }

    /// Whether this is what `check` prints.
    fn is_told(&self, alloc: Global, unit: &str, printed: &[u8]) -> Result<bool, AllocError> {
        match self.check {
            Told::NotToml => Ok(
                has_column(printed) && printed.ends_with(b"\n1 fault\n".as_slice()),
            ),
            Told::Text(text) => {
                let text = match text.split_once('@') {
                    Some((before, after)) => {
                        let word = shown(alloc, unit)?;
                        format!(in alloc; "{before}{word}{after}")?
                    }
                    None => String::from_str(alloc, text)?,
                };
                Ok(printed == text.as_bytes())
            }
        }
    }

    /// Whether a command prints what it prints of a short file: with an error nothing, and without
    /// one what it prints where the unit is repeated in 300 bytes, more than a title shows.
    fn is_printed<T: Threads + Wait + Sync>(
        &self,
        alloc: Global,
        threads: &T,
        command: &str,
        unit: &str,
        outcome: &Outcome,
    ) -> io::Result<bool> {
        if !self.error(command).is_empty() {
            return Ok(outcome.out.is_empty());
        }
        let words = format!(in alloc; "svsim {command} FILE")?;
        let middle = repeated(alloc, unit, SHORT)?;
        let short = format!(in alloc; "{}{middle}{}", self.head, self.tail)?;
        let wanted = answer_on(alloc, threads, words.as_str(), Files::of(short.as_str()))?;
        Ok(outcome.out.as_slice() == wanted.out.as_slice())
    }

    /// Whether a command answers so to the file in which a unit is repeated.
    fn is_answered<T: Threads + Wait + Sync>(
        &self,
        alloc: Global,
        threads: &T,
        command: &str,
        unit: &str,
    ) -> io::Result<bool> {
        let ends = self.head.len().saturating_add(self.tail.len());
        let middle = repeated(alloc, unit, LENGTH.saturating_sub(ends))?;
        let text = format!(in alloc; "{}{middle}{}", self.head, self.tail)?;
        let words = format!(in alloc; "svsim {command} FILE")?;
        let outcome = answer_on(alloc, threads, words.as_str(), Files::of(text.as_str()))?;
        let is_check = command == "check";
        let error = if is_check {
            self.own_error()
        } else {
            self.error(command)
        };
        let line = line_of(alloc, error, middle.as_str())?;
        if outcome.status != status_of(error) || outcome.err.as_slice() != line.as_bytes() {
            return Ok(false);
        }
        if is_check {
            Ok(self.is_told(alloc, unit, outcome.out.as_slice())?)
        } else {
            self.is_printed(alloc, threads, command, unit, &outcome)
        }
    }
}

/// How many commands answer as expected to the file in which a unit is repeated. Prints a line for
/// each other answer.
fn right_of_unit<T: Threads + Wait + Sync>(
    rt: &HostRuntime,
    threads: &T,
    line: &Line,
    unit: &str,
) -> usize {
    let mut right: usize = 0;
    for command in COMMANDS {
        if let Ok(true) = line.is_answered(rt.alloc(), threads, command, unit) {
            right = right.saturating_add(1);
        } else {
            let _ = println!(rt;
                "{command}: {}{unit}..{}: another answer",
                line.head, line.tail
            );
        }
    }
    right
}

/// The same of all units of a line.
fn right_of_line<T: Threads + Wait + Sync>(rt: &HostRuntime, threads: &T, line: &Line) -> usize {
    let mut right: usize = 0;
    for unit in line.units {
        right = right.saturating_add(right_of_unit(rt, threads, line, unit));
    }
    right
}

/// Prints a line for each answer that is another one than expected, and one with the number of the
/// others. Whether all are as expected.
pub fn tell_long_lines<T: Threads + Wait + Sync>(rt: &HostRuntime, threads: &T) -> bool {
    let mut right: usize = 0;
    let mut files: usize = 0;
    for line in LINES {
        right = right.saturating_add(right_of_line(rt, threads, &line));
        files = files.saturating_add(line.units.len());
    }
    let _ = println!(rt; "long lines: {right} as expected");
    right == files.saturating_mul(COMMANDS.len())
}
