//! The word that is meant perhaps where a word of a step or of a key is wrong.
ghost use Rattle.std.specs.Prelude.{◌≡◌, ◌++◌, IfOk, IfSome, OnOk, map, option_map, true};
ghost use Rattle.std.specs.List.{list_all};
ghost use Rattle.checks.specs.Meant.{alike, flags_meant, has, is_alike, is_read, letters_in, name_meant, number_meant, small, small_word};

use crate::fields::is_right;
use crate::near::{is_near, is_swap, nearest};
use crate::split::{number_of, text_of};
use pte::Scheme;
use std::alloc::{AllocError, Global};
use steps::Field;

/// No word that is longer is meant to be another.
const MOST_LETTERS: usize = 40;

const SIZES: [&str; 4] = ["4K", "2M", "1G", "512G"];

const MODES: [&str; 8] = [
    "u",
    "s",
    "u+sum",
    "u+mxr",
    "u+sum+mxr",
    "s+sum",
    "s+mxr",
    "s+sum+mxr",
];

/// The modes of more than one letter: each letter is near to those of one.
const LONG_MODES: [&str; 6] = ["u+sum", "u+mxr", "u+sum+mxr", "s+sum", "s+mxr", "s+sum+mxr"];

const SCHEMES: [&str; 2] = ["sv39", "sv48"];

const ACCESSES: [&str; 3] = ["fetch", "load", "store"];

/// The small letter of a letter, and any other byte itself.
fn small(byte: u8) -> u8
    ensures { result ≡ small byte }
{
    match byte {
        b'A'..=b'Z' => byte + 32,
        _ => byte,
    }
}

/// Whether two words have the same letters, small or large.
fn is_alike(word: &[u8], other: &[u8]) -> bool
    ensures { result ≡ is_alike word.now other.now }
{
    match word {
        [] => match other {
            [] => true,
            [_, ..] => false,
        },
        [first, word_rest @ ..] => match other {
            [] => false,
            [second, other_rest @ ..] => {
                small(*first) == small(*second) && is_alike(word_rest, other_rest)
            }
        },
    }
}

/// The first of the names that has the same letters.
fn alike(word: &str, names: &[&'static str]) -> Option<&'static str>
    ensures { option_map (λ name. name.now) result ≡ alike word.now
        (map (λ name. name.now) names.now) }
{
    match names {
        [] => None,
        [name, rest @ ..] => {
            if is_alike(word.as_bytes(), name.as_bytes()) {
                Some(name)
            } else {
                alike(word, rest)
            }
        }
    }
}

/// The first of the names that has the same letters, or else the nearest of those that are near.
pub fn name_meant(word: &str, names: &[&'static str], near: &[&'static str]) -> Option<&'static str>
    ensures { option_map (λ name. name.now) result ≡ name_meant word.now
        (map (λ name. name.now) names.now) (map (λ name. name.now) near.now) }
{
    if let Some(name) = alike(word, names) {
        return Some(name);
    }
    nearest(word, near)
}

/// Adds the small letters of a word.
fn push_small(text: &mut Vec<u8>, word: &[u8]) -> Result<(), AllocError>
    ensures { OnOk result (text.new.items ≡ text.old.items ++ small_word word.now) }
{
    match word {
        [] => Ok(()),
        [first, rest @ ..] => {
            text.push(small(*first))?;
            push_small(text, rest)
        }
    }
}

/// The small letters of a word.
fn small_word(alloc: Global, word: &[u8]) -> Result<Vec<u8>, AllocError>
    ensures { IfOk result (λ meant. meant.items ≡ small_word word.now) }
{
    let mut meant = Vec::new(alloc);
    push_small(&mut meant, word)?;
    Ok(meant)
}

/// The number with small letters if `0x` stands first, else with `0x` before it.
fn number_meant(alloc: Global, word: &[u8]) -> Result<Vec<u8>, AllocError>
    ensures { IfOk result (λ meant. meant.items ≡ number_meant word.now) }
{
    let small = small_word(alloc, word)?;
    if small.as_slice().starts_with(b"0x".as_slice()) {
        return Ok(small);
    }
    let mut meant = Vec::new(alloc);
    meant.extend_from_slice(b"0x".as_slice())?;
    meant.extend_from_slice(word)?;
    Ok(meant)
}

fn has(word: &[u8], letter: u8) -> bool
    ensures { result ≡ has word.now letter }
{
    match word {
        [] => false,
        [first, rest @ ..] => *first == letter || has(rest, letter),
    }
}

/// Whether each letter of a word is one of these.
fn has_all(letters: &[u8], word: &[u8]) -> bool
    ensures { result ≡ list_all (has letters.now) word.now }
{
    match word {
        [] => true,
        [first, rest @ ..] => has(letters, *first) && has_all(letters, rest),
    }
}

/// Adds those of the letters that a word has.
fn push_letters_in(text: &mut Vec<u8>, word: &[u8], letters: &[u8]) -> Result<(), AllocError>
    ensures { OnOk result (text.new.items ≡ text.old.items ++ letters_in word.now letters.now) }
{
    match letters {
        [] => Ok(()),
        [first, rest @ ..] => {
            if has(word, *first) {
                text.push(*first)?;
            }
            push_letters_in(text, word, rest)
        }
    }
}

/// Each flag of a word once, if it has no other letter; else nothing.
fn flags_meant(alloc: Global, word: &[u8]) -> Result<Vec<u8>, AllocError>
    ensures { IfOk result (λ meant. meant.items ≡ flags_meant word.now) }
{
    let small = small_word(alloc, word)?;
    let mut meant = Vec::new(alloc);
    if has_all(b"rwxugad".as_slice(), small.as_slice()) {
        push_letters_in(&mut meant, small.as_slice(), b"rwxugad".as_slice())?;
    }
    Ok(meant)
}

/// A name as bytes, or nothing.
fn bytes_of(alloc: Global, name: Option<&str>) -> Result<Vec<u8>, AllocError> {
    let mut bytes = Vec::new(alloc);
    if let Some(name) = name {
        bytes.extend_from_slice(name.as_bytes())?;
    }
    Ok(bytes)
}

/// The page with the size that is meant perhaps, before the same address.
fn page_meant(alloc: Global, word: &[u8]) -> Result<Vec<u8>, AllocError> {
    let Some((size, address)) = text_of(word).split_once(':') else {
        return bytes_of(alloc, None);
    };
    let mut meant = bytes_of(alloc, alike(size, &SIZES))?;
    meant.extend_from_slice(b":".as_slice())?;
    meant.extend_from_slice(address.as_bytes())?;
    Ok(meant)
}

/// What a word for a field is meant to be perhaps, whether that is one or not.
fn guess(alloc: Global, field: Field, word: &[u8]) -> Result<Vec<u8>, AllocError> {
    let name = text_of(word);
    match field {
        Field::Mode => bytes_of(alloc, name_meant(name, &MODES, &LONG_MODES)),
        Field::Access => bytes_of(alloc, name_meant(name, &ACCESSES, &ACCESSES)),
        Field::Flags => flags_meant(alloc, word),
        Field::Page => page_meant(alloc, word),
        Field::Place if name == "K" => bytes_of(alloc, Some("k")),
        Field::Scope if is_alike(word, b"all".as_slice()) => bytes_of(alloc, Some("all")),
        Field::Rs1 | Field::Rs2 if name == "X0" => bytes_of(alloc, Some("x0")),
        Field::Hart | Field::From | Field::To | Field::Named => bytes_of(alloc, None),
        _ => number_meant(alloc, word),
    }
}

/// The word that is meant perhaps where a word is wrong for a field: one that is right. `AllocError`:
/// there was not enough memory.
pub fn word_meant(
    alloc: Global,
    scheme: Scheme,
    field: Field,
    word: &[u8],
) -> Result<Option<Vec<u8>>, AllocError>
    ensures { IfOk result (λ meant. IfSome meant (λ meant. is_read scheme field meant.items
        ≡ true)) }
{
    if word.len() > MOST_LETTERS {
        return Ok(None);
    }
    let meant = guess(alloc, field, word)?;
    if is_right(field, scheme, meant.as_slice()) {
        Ok(Some(meant))
    } else {
        Ok(None)
    }
}

/// The number that is meant perhaps where a text is none: one below the limit, if there is one.
/// `AllocError`: there was not enough memory.
pub fn number_in(
    alloc: Global,
    text: &str,
    limit: Option<u64>,
) -> Result<Option<Vec<u8>>, AllocError> {
    if text.len() > MOST_LETTERS {
        return Ok(None);
    }
    let meant = number_meant(alloc, text.as_bytes())?;
    let is_meant = match (number_of(text_of(meant.as_slice())), limit) {
        (Some(n), Some(limit)) => n < limit,
        (Some(_), None) => true,
        (None, _) => false,
    };
    if is_meant { Ok(Some(meant)) } else { Ok(None) }
}

/// The scheme that is meant perhaps, or nothing: one with the same letters, or with two letters
/// exchanged, or with one more or less. With another digit it is another scheme.
pub fn scheme_meant(word: &str) -> &'static str {
    if let Some(name) = alike(word, &SCHEMES) {
        return name;
    }
    for name in SCHEMES {
        let (word, other) = (word.as_bytes(), name.as_bytes());
        let has_more_or_less = word.len() != other.len() && is_near(1, word, other);
        if has_more_or_less || is_swap(word, other) {
            return name;
        }
    }
    ""
}
