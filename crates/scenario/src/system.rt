//! The program as a system starts it.
use crate::command_line::{NoWords, answer_words};
use crate::progress::Progress;
use harts::OpenGate;
use std::fs::File;
use std::io::{IsTerminal, Read};
use std::rt::{Env, Stdin};
use std::sync::Wait;
use std::thread::Threads;
use std::{env, fs, io};

/// What a name on the command line stands for.
#[derive(Drop)]
enum Source {
    Named(File),
    Input(Stdin),
}

impl Read for Source {
    fn read(&mut self, buf: &mut [u8]) -> io::Result<usize> {
        match self {
            Source::Named(file) => file.read(buf),
            Source::Input(input) => input.read(buf),
        }
    }
}

/// Opens a file; of a trace `-` is standard input.
fn open(rt: &HostRuntime, name: &str, of_trace: bool) -> Option<Source> {
    if of_trace && name == "-" {
        return Some(Source::Input(rt.stdin()));
    }
    match fs::open(rt, name) {
        Ok(file) => Some(Source::Named(file)),
        Err(_) => None,
    }
}

/// The words that the program was started with.
fn given_words<R: Env + AllocGlobal>(rt: &R) -> Result<Vec<String>, NoWords> {
    let words = env::args(rt)?;
    Ok(words.collect(rt.alloc())?)
}

/// Whether `watch` or `explain` is one of the words after the program's name. Of words that ask for
/// another command on the file `-` it is none, since no other has options or a LINE.
fn is_of_trace(words: &Result<Vec<String>, NoWords>) -> bool {
    match words {
        Ok(words) => words.iter().skip(1).any(|word| word.as_str() == "watch"
            || word.as_str() == "explain"),
        Err(_) => false,
    }
}

/// Does what the words that the program was started with ask for, over its files, standard input,
/// standard output and standard error, and answers its exit status. `threads` starts the threads of
/// `live`. No contract knows what a system gives: what is done of it is the contract of
/// `answer_words`.
pub fn start<T: Threads + Wait + Sync>(rt: &HostRuntime, threads: &T) -> u8 {
    let mut out = rt.stdout();
    let mut err = rt.stderr();
    let words = given_words(rt);
    let of_trace = is_of_trace(&words);
    let waits = of_trace && out.is_terminal() && err.is_terminal();
    answer_words(
        threads,
        rt.alloc(),
        words,
        |name| {
            let source = open(rt, name, of_trace)?;
            let is_typed = matches!(source, Source::Input(_)) && rt.stdin().is_terminal();
            let terminal = if waits && !is_typed {
                Some(rt.stderr())
            } else {
                None
            };
            Some(Progress::new(source, rt, terminal))
        },
        |name| fs::open(rt, name).ok(),
        &mut out,
        &mut err,
        &OpenGate,
    )
}
