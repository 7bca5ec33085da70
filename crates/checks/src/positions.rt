//! Where in the file a fault is.
use crate::places::{Mark, column_after};
use steps::next_word;

/// A place in the file, as far as it is known.
#[derive(Clone, Copy)]
pub struct Position<'a> {
    /// The line and the column, from 1 on.
    pub line: Option<usize>,
    pub column: Option<usize>,
    /// The text of the document that it is in, with its quotes; no bytes if it is in none.
    quoted: &'a [u8],
}

impl<'a> Position<'a> {
    /// That of a fault whose line is not known.
    pub fn unknown() -> Position<'a> {
        Position::of_line(None)
    }

    /// That of a fault whose line may be known, and no column.
    pub fn of_line(line: Option<usize>) -> Position<'a> {
        Position {
            line,
            column: None,
            quoted: &[],
        }
    }

    /// That of a text of the document.
    pub fn of_mark(document: &'a str, mark: Mark) -> Position<'a> {
        Position {
            line: Some(mark.line),
            column: Some(mark.column),
            quoted: document.as_bytes().get(mark.start..mark.end).unwrap_or(&[]),
        }
    }

    /// That of the byte of this index.
    pub fn of_byte(document: &'a str, index: usize) -> Position<'a> {
        let begin = Position {
            line: Some(1),
            column: Some(1),
            quoted: document.as_bytes(),
        };
        begin.behind(index)
    }

    /// Of the position of a text, that of the word of this index, if the text has no backslash, else
    /// the same.
    pub fn at_word(self, index: usize) -> Position<'a> {
        match word_start(self.quoted, index) {
            Some(start) => self.behind(start),
            None => self,
        }
    }

    /// The position behind so many bytes of the text.
    fn behind(self, count: usize) -> Position<'a> {
        let mut at = self;
        for byte in self.quoted.iter().take(count) {
            if *byte == b'\n' {
                at.line = at.line.map(|line| line.saturating_add(1));
                at.column = Some(1);
            } else {
                at.column = at.column.map(|column| column_after(column, *byte));
            }
        }
        at
    }
}

/// How many bytes of a text with its quotes stand before the word of this index. `None`: it has no
/// such word, or a backslash.
fn word_start(quoted: &[u8], index: usize) -> Option<usize> {
    if quoted.contains(&b'\\') {
        return None;
    }
    let mut rest = inside(quoted);
    for _ in 0..index {
        match next_word(rest) {
            Some((_, after)) => rest = after,
            None => return None,
        }
    }
    match next_word(rest) {
        Some((word, after)) => {
            let behind = word.len().saturating_add(after.len());
            Some(quoted.len().saturating_sub(behind))
        }
        None => None,
    }
}

/// What stands behind the opening quotes of a text, and behind the line feed that follows three.
fn inside(quoted: &[u8]) -> &[u8] {
    for quotes in [b"\"\"\"".as_slice(), b"'''".as_slice()] {
        if let Some(rest) = quoted.strip_prefix(quotes) {
            if let Some(rest) = rest.strip_prefix(b"\r\n".as_slice()) {
                return rest;
            }
            return rest.strip_prefix(b"\n".as_slice()).unwrap_or(rest);
        }
    }
    quoted.get(1..).unwrap_or(&[])
}
