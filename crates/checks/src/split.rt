//! The words of a text, one by one.
use std::str::from_utf8;
use steps::{next_word, num};

/// The word of this index.
pub fn word_at(text: &str, index: usize) -> Option<&[u8]> {
    let mut rest = text.as_bytes();
    for _ in 0..index {
        match next_word(rest) {
            Some((_, after)) => rest = after,
            None => return None,
        }
    }
    match next_word(rest) {
        Some((word, _)) => Some(word),
        None => None,
    }
}

/// The number that a text of one word writes.
pub fn number_of(text: &str) -> Option<u64> {
    match next_word(text.as_bytes()) {
        Some((word, rest)) if next_word(rest).is_none() => num(word),
        _ => None,
    }
}

/// A word as text.
pub fn text_of(word: &[u8]) -> &str {
    from_utf8(word).unwrap_or("?")
}
