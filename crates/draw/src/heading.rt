//! What a picture is of, in words: a title, and a line below it.

use std::alloc::{AllocError, Global};

/// How many characters of a title are shown.
pub const TITLE_CHARACTERS: usize = 110;

/// How many characters of a file's name are shown.
pub const NAME_CHARACTERS: usize = 60;

/// The words above a picture: its title, and a line below that, which may be empty.
#[derive(Drop)]
pub struct Heading {
    pub title: String,
    pub subtitle: String,
}

/// What is shown of a character.
fn shown(character: char) -> char {
    if character == '\t' {
        ' '
    } else if character >= ' ' && character <= '~' {
        character
    } else {
        '?'
    }
}

/// Adds words up to a number of characters, and `..` for those beyond. Only what is printable ASCII
/// stands for itself: a tab becomes a blank, and each other character `?`.
pub fn push_plain(text: &mut String, words: &str, most: usize) -> Result<(), AllocError> {
    let mut left = most;
    for character in words.chars() {
        if left == 0 {
            return text.push_str("..");
        }
        left -= 1;
        text.push(shown(character))?;
    }
    Ok(())
}

/// Adds bytes as `push_plain` adds words.
pub fn push_plain_bytes(text: &mut String, bytes: &[u8], most: usize) -> Result<(), AllocError> {
    let mut left = most;
    for byte in bytes {
        if left == 0 {
            return text.push_str("..");
        }
        left -= 1;
        text.push(shown(char::from(*byte)))?;
    }
    Ok(())
}

/// The words of a comment that is all of a line. `None`: the line has something else.
pub fn comment_of(line: &str) -> Option<&str> {
    let line = line.trim();
    if !line.starts_with('#') {
        return None;
    }
    Some(line.trim_start_matches('#').trim())
}

/// The first sentence of the first line, if that is a comment; otherwise nothing.
fn first_sentence(text: &str) -> &str {
    let Some(line) = text.lines().next() else {
        return "";
    };
    let Some(words) = comment_of(line) else {
        return "";
    };
    match words.split_once(". ") {
        Some((sentence, _)) => sentence,
        None => words.trim_end_matches('.'),
    }
}

/// The last component of a path.
pub fn last_component(path: &str) -> &str {
    match path.rsplit_once('/') {
        Some((_, name)) => name,
        None => path,
    }
}

/// Adds a number and a word for what it counts.
fn push_count(text: &mut String, n: usize, word: &str) -> Result<(), AllocError> {
    write!(text, "{n} {word}")?;
    text.push_str(if n == 1 { "" } else { "s" })
}

/// Adds how many harts and steps a run has.
fn push_size(text: &mut String, harts: usize, steps: usize) -> Result<(), AllocError> {
    text.push_str(" run of ")?;
    push_count(text, harts, "hart")?;
    text.push_str(" in ")?;
    push_count(text, steps, "step")
}

impl Heading {
    /// No words.
    pub fn new(alloc: Global) -> Heading {
        Heading {
            title: String::new(alloc),
            subtitle: String::new(alloc),
        }
    }

    /// Adds as the title what a file says of itself, and below it the file's name and the size of
    /// its run. The title of a file that says nothing is the size of its run.
    pub fn describe(
        &mut self,
        name: &str,
        text: &str,
        harts: usize,
        steps: usize,
    ) -> Result<(), AllocError> {
        push_plain(&mut self.title, first_sentence(text), TITLE_CHARACTERS)?;
        push_plain(&mut self.subtitle, last_component(name), NAME_CHARACTERS)?;
        if self.title.is_empty() {
            return self.count(harts, steps);
        }
        self.subtitle.push_str(": a")?;
        push_size(&mut self.subtitle, harts, steps)
    }

    /// Adds the size of a run as the title.
    pub fn count(&mut self, harts: usize, steps: usize) -> Result<(), AllocError> {
        self.title.push_str("A")?;
        push_size(&mut self.title, harts, steps)
    }
}
