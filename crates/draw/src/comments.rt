//! The comments of a file at its steps: those on lines of their own before a step, and the one behind
//! a step.

use crate::heading::push_plain;
use std::alloc::{AllocError, Global};

/// How many characters of the comments at one place are shown.
const MOST_CHARACTERS: usize = 240;

/// Where a comment stands.
#[derive(Clone, Copy, PartialEq, Eq)]
pub enum At {
    /// Before the step of a row, on lines of its own.
    Before,
    /// Behind the step of a row, on its line.
    Behind,
}

/// A comment: where it stands, and how many characters of it are shown.
#[derive(Clone, Copy)]
struct Comment {
    row: u32,
    at: At,
    length: usize,
}

/// Comments, by rows; those before a step come first.
#[derive(Drop)]
pub struct Comments {
    list: Vec<Comment>,
    /// Their words, one after the other.
    words: String,
    /// How many were taken, and how many characters these have.
    taken: usize,
    start: usize,
}

impl Comments {
    /// No comment.
    pub fn none(alloc: Global) -> Comments {
        Comments {
            list: Vec::new(alloc),
            words: String::new(alloc),
            taken: 0,
            start: 0,
        }
    }

    /// Adds words at a place. Words at the same place become one comment.
    pub fn add(&mut self, row: u32, at: At, words: &str) -> Result<(), AllocError> {
        if words.is_empty() {
            return Ok(());
        }
        let mut length: usize = 0;
        if let Some(last) = self.list.as_slice().last() {
            if last.row == row && last.at == at {
                length = last.length;
            }
        }
        if length >= MOST_CHARACTERS {
            return Ok(());
        }
        let start = self.words.len().saturating_sub(length);
        if length > 0 {
            self.list.pop();
            self.words.push(' ')?;
        }
        push_plain(&mut self.words, words, MOST_CHARACTERS - length)?;
        let length = self.words.len().saturating_sub(start);
        Ok(self.list.push(Comment { row, at, length })?)
    }

    /// Adds the words of the next comment, if it stands there. It answers whether it does.
    pub fn take(&mut self, row: u32, at: At, text: &mut String) -> Result<bool, AllocError> {
        let Some(comment) = self.list.get(self.taken) else {
            return Ok(false);
        };
        if comment.row != row || comment.at != at {
            return Ok(false);
        }
        let end = self.start.saturating_add(comment.length);
        text.push_str(between(self.words.as_str(), self.start, end))?;
        self.start = end;
        self.taken = self.taken.saturating_add(1);
        Ok(true)
    }
}

/// A part of a text, from one byte to another.
pub fn between(text: &str, start: usize, end: usize) -> &str {
    text.get(start..end).unwrap_or("")
}
