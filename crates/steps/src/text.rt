//! The words of a text.
ghost use Rattle.std.specs.Prelude.{◌≡◌, ◌<◌, false, not, [], ◌∷◌, IfOk, IfSome, MatchOption, length, map, slice_index};
ghost use Rattle.std.specs.List.{position_or_len};
ghost use Rattle.steps.specs.Words.{is_blank, words_of};

use std::alloc::{AllocError, Global};

fn is_blank(byte: u8) -> bool
    ensures { result ≡ is_blank byte }
{
    byte == b' ' || byte == b'\t'
}

/// How many bytes stand before the first that is not blank.
fn blank_len(text: &[u8]) -> usize
    ensures { result ≡ position_or_len (λ byte. not (is_blank byte)) text.now }
{
    text.iter()
        .position(|byte| !is_blank(*byte))
        .unwrap_or(text.len())
}

/// The word that a text begins with, and what stands after it.
fn split_word(text: &[u8]) -> (&[u8], &[u8])
    requires some { 0 < length text.now }
    requires plain { is_blank (slice_index text.now 0) ≡ false }
    ensures words { words_of text.now ≡ result.0.now ∷ words_of result.1.now }
    ensures shorter { length result.1.now < length text.now }
{
    let mut end = 1;
    while end < text.len() {
        if is_blank(text[end]) {
            return text.split_at(end);
        }
        end += 1;
    }
    (text, &[])
}

/// The first word of a text, and what stands after it.
pub fn next_word(text: &[u8]) -> Option<(&[u8], &[u8])>
    ensures words { MatchOption result (words_of text.now ≡ []) (λ next. words_of text.now
        ≡ next.0.now ∷ words_of next.1.now) }
    ensures shorter { IfSome result (λ next. length next.1.now < length text.now) }
{
    let (_, text) = text.split_at(blank_len(text));
    if text.is_empty() {
        return None;
    }
    Some(split_word(text))
}

/// What stands between spaces and tabs. `AllocError`: there was no room for the list.
pub fn words(alloc: Global, text: &str) -> Result<Vec<&[u8]>, AllocError>
    ensures { IfOk result (λ words. map (λ word. word.now) words.items ≡ words_of text.now) }
{
    let mut words = Vec::new(alloc);
    let mut rest = text.as_bytes();
    while let Some((word, after)) = next_word(rest) {
        words.push(word)?;
        rest = after;
    }
    Ok(words)
}
