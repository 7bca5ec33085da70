//! The words of the command line, and what is done for them.
ghost use Rattle.std.specs.Prelude.{◌≡◌, ◌⊎◌, [], IfOk, IfErr, map, option_map, string_bytes};
ghost use Rattle.std.specs.Fn.{FnOnceReturnsAt};
ghost use Rattle.std.specs.Io.KnownBytes.{Keeps};
ghost use Rattle.std.specs.IoError.{error_kind};
ghost use Rattle.scenario.specs.declared.command_line.NoWords.TheVariants.{NoMemory};
ghost use Rattle.clap.specs.Words.{first_value, found_of};
ghost use Rattle.scenario.specs.Command.{Reports, misused, no_memory};
ghost use Rattle.scenario.specs.EndsOn.{EndsAsked, EndsOn, files_by};
ghost use Rattle.scenario.specs.Shown.{EndsUnasked, shown, shown_in};
ghost use Rattle.scenario.specs.CommandLine.{AsksFor, ask_view, asked, asked_in, asked_of, no_words_by};
ghost use Rattle.watch_report.specs.KnownLists.{known_in};

use crate::commands::command_of;
use crate::explain_program::{explain_command, picture_command};
use crate::known_file::{no_list, read_list};
use crate::live_program::live_command;
use crate::output::write_whole;
use crate::program::{DONE, command, report};
use crate::shown::shown_of;
use crate::task::{Given, Task};
use crate::trouble::Trouble;
use crate::watch_program::watch_command_with;
use crate::words::matches_of;
use clap::ArgMatches;
use clap::error::ErrorKind;
use files::Fault;
use harts::Gate;
use std::alloc::{AllocError, Global};
use std::io;
use std::io::{Read, Write};
use std::sync::Wait;
use std::thread::Threads;
use thiserror::Error;
use watch_report::KnownList;

/// What is done, and the name of the file with which it is.
#[derive(Clone, Copy, Debug)]
pub struct Ask<'a> {
    pub task: Task,
    pub file: &'a str,
    /// The name of a list of what is known to be by design, of `watch` alone.
    pub known: Option<&'a str>,
}

/// Why the words that the program was started with are not known.
#[derive(Clone, Copy, Debug, PartialEq, Eq, Error)]
pub enum NoWords {
    #[error("a word is not UTF-8")]
    NotText,
    #[error("no memory")]
    NoMemory,
}

impl From<AllocError> for NoWords {
    ghost from_gives = { λ _ e. e ≡ NoMemory };

    fn from(_e: AllocError) -> NoWords {
        NoWords::NoMemory
    }
}

impl From<io::Error> for NoWords {
    ghost from_gives = { λ error e. e ≡ no_words_by (error_kind error) };

    fn from(error: io::Error) -> NoWords {
        if error.kind() == io::ErrorKind::OutOfMemory {
            NoWords::NoMemory
        } else {
            NoWords::NotText
        }
    }
}

/// What the matches ask for: a command that is known, its options, FILE, and LINE of `explain`.
fn asked_of<'a>(matches: &ArgMatches<'a>) -> Option<Ask<'a>>
    ensures { option_map ask_view result ≡ asked_of (first_value (found_of matches.now)) }
{
    let Some(word) = matches.get_str("COMMAND") else {
        return None;
    };
    let Some(file) = matches.get_str("FILE") else {
        return None;
    };
    let Some(command) = command_of(word) else {
        return None;
    };
    let given = Given::new(matches);
    match given.task(command) {
        Some(task) => Some(Ask {
            task,
            file,
            known: given.known,
        }),
        None => None,
    }
}

/// What the words ask for, if they ask for a command that is known and a FILE, with options and a LINE
/// that the command takes.
#[tactic(auto, using(crate::proofs::WordLemmas::asked_found), unfolding(crate::specs::CommandLine::asked))]
fn look_up<'a>(alloc: Global, words: &'a [String]) -> Result<Option<Ask<'a>>, AllocError>
    ensures { IfOk result (λ ask. option_map ask_view ask ≡ asked (map string_bytes words.now)) }
{
    match matches_of(alloc, words) {
        Ok(matches) => Ok(asked_of(&matches)),
        Err(error) => {
            if error.kind() == ErrorKind::OutOfMemory {
                Err(AllocError)
            } else {
                Ok(None)
            }
        }
    }
}

/// What the words ask for, of which the first is the program's name: a command that is known and a
/// FILE, and of `explain` a LINE, a decimal number from 1. `watch` and `explain` take the options
/// `--hart H`, `--page VA` and `--kind KIND`, and `watch` takes `--all` or `--quiet`, `--json`,
/// `--max N`, a decimal number, and `--known FILE`. `explain` takes `--svg`. `--` ends the options.
/// Refused with `Usage` if they ask for nothing, and with `NoMemory` if memory runs out.
pub fn ask_of<'a>(alloc: Global, words: &'a [String]) -> Result<Ask<'a>, Trouble>
    ensures { AsksFor (map string_bytes words.now) result }
{
    match look_up(alloc, words) {
        Ok(Some(ask)) => Ok(ask),
        Ok(None) => Err(Trouble::Usage),
        Err(_) => Err(Trouble::Refused(Fault::NoMemory)),
    }
}

/// Does what was asked for on the file that `input` reads; without one the file could not be
/// opened. `known` is for `watch` alone.
fn on_file<T: Threads + Wait + Sync, R: Read + Drop, W: Write, E: Write, G: Gate + Sync>(
    rt: &T,
    alloc: Global,
    ask: Ask<'_>,
    known: KnownList<'_>,
    input: Option<R>,
    out: &mut W,
    err: &mut E,
    gate: &G,
) -> u8
    ensures { EndsOn R.remaining ask.entry.task (known_in known.entry) ask.entry.file.now input result
        (W.contents out.old) (W.contents out.new) (E.contents err.old) (E.contents err.new) }
{
    let Some(mut reader) = input else {
        return report(alloc, ask.file, &Trouble::Unreadable, err);
    };
    match ask.task {
        Task::Plain(which) => command(alloc, which, ask.file, &mut reader, out, err),
        Task::Live => live_command(rt, alloc, ask.file, &mut reader, out, err, gate),
        Task::Watch(options) => {
            watch_command_with(alloc, options, known, ask.file, reader, out, err)
        }
        Task::Explain(filter, line) => {
            explain_command(alloc, filter, line, ask.file, reader, out, err)
        }
        Task::Picture(filter, line) => {
            picture_command(alloc, filter, line, ask.file, reader, out, err)
        }
    }
}

/// Does what was asked for on the file that `reader_of` opens. If a list is asked for, it is read
/// before that, from what `list_of` opens, and without it the file is not opened.
fn on_ask<
    T: Threads + Wait + Sync,
    R: Read + Drop,
    L: Read + Drop,
    W: Write,
    E: Write,
    O: FnOnce(&str) -> Option<R>,
    P: FnOnce(&str) -> Option<L>,
    G: Gate + Sync,
>(
    rt: &T,
    alloc: Global,
    ask: Ask<'_>,
    reader_of: O,
    list_of: P,
    out: &mut W,
    err: &mut E,
    gate: &G,
) -> u8
    requires reader { O.IsAlwaysCallable reader_of }
    requires list { P.IsAlwaysCallable list_of }
    ensures { EndsAsked (files_by (FnOnceReturnsAt O.FnOnce reader_of) R.remaining)
        (files_by (FnOnceReturnsAt P.FnOnce list_of) L.remaining) (ask_view ask.entry) result
        (W.contents out.old) (W.contents out.new) (E.contents err.old) (E.contents err.new) }
{
    let Some(name) = ask.known else {
        let known = no_list(alloc);
        return on_file(rt, alloc, ask, known, reader_of(ask.file), out, err, gate);
    };
    match read_list(alloc, list_of(name)) {
        Ok(entries) => {
            let file = name.as_bytes();
            let known = KnownList { file, entries };
            on_file(rt, alloc, ask, known, reader_of(ask.file), out, err, gate)
        }
        Err(trouble) => report(alloc, name, &trouble, err),
    }
}

/// Shows what the words ask for, which name no file, or tells the usage.
fn answer_unasked<W: Write, E: Write>(
    alloc: Global,
    words: &[String],
    out: &mut W,
    err: &mut E,
) -> u8
    ensures { EndsUnasked (shown (map string_bytes words.now)) misused result (W.contents out.old)
        (W.contents out.new) (E.contents err.old) (E.contents err.new) }
{
    let Some(what) = shown_of(words) else {
        return report(alloc, "", &Trouble::Usage, err);
    };
    match write_whole(out, what.text().as_bytes()) {
        Ok(()) => DONE,
        Err(fault) => report(alloc, "", &Trouble::Refused(fault), err),
    }
}

/// The whole of the program: does what the words ask for on the file that `reader_of` opens, and
/// answers the status. It is called with the name of the file, once the words are known to ask for
/// one. With `--known` the list that `list_of` opens is read first: one that is not opened or not
/// read, and a wrong line of it, are reported with the name of the list, and the file is not opened
/// then. Words that ask for help or the version get it on `out` (`shown_of`), with status 0. Others
/// that ask for nothing get the line `svsim: usage: svsim COMMAND FILE` and status 2, a file that is
/// not opened ends as one that can't be read. Memory may run out before the words are read. Threads
/// are started, and `gate` is asked, by `live` alone.
pub fn answer_words<
    T: Threads + Wait + Sync,
    R: Read + Drop,
    L: Read + Drop,
    W: Write,
    E: Write,
    O: FnOnce(&str) -> Option<R>,
    P: FnOnce(&str) -> Option<L>,
    G: Gate + Sync,
>(
    rt: &T,
    alloc: Global,
    words: Result<Vec<String>, NoWords>,
    reader_of: O,
    list_of: P,
    out: &mut W,
    err: &mut E,
    gate: &G,
) -> u8
    requires reader { O.IsAlwaysCallable reader_of }
    requires list { P.IsAlwaysCallable list_of }
    ensures asked { IfOk (asked_in words) (λ ask.
        EndsAsked (files_by (FnOnceReturnsAt O.FnOnce reader_of) R.remaining)
        (files_by (FnOnceReturnsAt P.FnOnce list_of) L.remaining) ask result
        (W.contents out.old) (W.contents out.new) (E.contents err.old) (E.contents err.new)
        ⊎ (Reports [] no_memory result (E.contents err.old) (E.contents err.new)
        × Keeps (W.contents out.old) (W.contents out.new))) }
    ensures unasked { IfErr (asked_in words) (λ ending. EndsUnasked (shown_in words) ending result
        (W.contents out.old) (W.contents out.new) (E.contents err.old) (E.contents err.new)) }
{
    let words = match words {
        Ok(words) => words,
        Err(NoWords::NotText) => return report(alloc, "", &Trouble::Usage, err),
        Err(NoWords::NoMemory) => return report(alloc, "", &Trouble::Refused(Fault::NoMemory), err),
    };
    match look_up(alloc, words.as_slice()) {
        Ok(Some(ask)) => on_ask(rt, alloc, ask, reader_of, list_of, out, err, gate),
        Ok(None) => answer_unasked(alloc, words.as_slice(), out, err),
        Err(_) => report(alloc, "", &Trouble::Refused(Fault::NoMemory), err),
    }
}
