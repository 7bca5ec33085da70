//! The whole program over memory.
use harts::OpenGate;
use scenario::answer_words;
use std::alloc::{AllocError, Global};
use std::fs::File;
use std::sync::Wait;
use std::thread::Threads;
use std::{fs, io};

/// What the program answers to words: its status, and what it prints.
#[derive(Drop)]
pub struct Outcome {
    pub status: u8,
    pub out: Vec<u8>,
    pub err: Vec<u8>,
}

impl Outcome {
    /// Whether it is this one.
    pub fn is(&self, status: u8, out: &str, err: &str) -> bool {
        self.status == status
            && self.out.as_slice() == out.as_bytes()
            && self.err.as_slice() == err.as_bytes()
    }
}

/// The words of a line, of which the first is the program's name.
fn words_of(alloc: Global, line: &str) -> Result<Vec<String>, AllocError> {
    let mut words = Vec::new(alloc);
    for word in line.split(' ') {
        words.push(String::from_str(alloc, word)?)?;
    }
    Ok(words)
}

fn opened(rt: &HostRuntime, folder: &str, file: &str) -> Option<File> {
    let path = format!(in rt.alloc(); "{folder}/{file}").ok()?;
    fs::open(rt, path.as_str()).ok()
}

/// What the program answers to a command and the name of a file, which it opens in this folder.
pub fn answer<T: Threads + Wait + Sync>(
    rt: &HostRuntime,
    threads: &T,
    folder: &str,
    command: &str,
    file: &str,
) -> io::Result<Outcome> {
    let alloc = rt.alloc();
    let line = format!(in alloc; "svsim {command} {file}")?;
    let words = words_of(alloc, line.as_str())?;
    let mut out: Vec<u8> = Vec::new(alloc);
    let mut err: Vec<u8> = Vec::new(alloc);
    let status = answer_words(
        threads,
        alloc,
        Ok(words),
        |file| opened(rt, folder, file),
        |list| opened(rt, folder, list),
        &mut out,
        &mut err,
        &OpenGate,
    );
    Ok(Outcome { status, out, err })
}

/// The files of a case of a list.
#[derive(Clone, Copy)]
pub struct Files<'a> {
    /// The text of the file of the commands.
    pub file: &'a str,
    /// That of a list of what is known, if there is one.
    pub list: Option<&'a str>,
}

impl<'a> Files<'a> {
    /// This file alone.
    pub fn of(file: &'a str) -> Files<'a> {
        Files { file, list: None }
    }

    /// The text of a file, for each name that it has.
    fn named(self, name: &str) -> Option<&'a [u8]> {
        match name {
            "FILE" | "-x" | "--" => Some(self.file.as_bytes()),
            "LIST" => Some(self.list?.as_bytes()),
            _ => None,
        }
    }
}

/// What the program answers to the words of a line, where these are the only files.
pub fn answer_on<T: Threads + Wait + Sync>(
    alloc: Global,
    threads: &T,
    line: &str,
    files: Files<'_>,
) -> io::Result<Outcome> {
    let words = words_of(alloc, line)?;
    let mut out: Vec<u8> = Vec::new(alloc);
    let mut err: Vec<u8> = Vec::new(alloc);
    let status = answer_words(
        threads,
        alloc,
        Ok(words),
        |name| files.named(name),
        |name| files.named(name),
        &mut out,
        &mut err,
        &OpenGate,
    );
    Ok(Outcome { status, out, err })
}
