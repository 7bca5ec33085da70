//! The words of an entry of the list of what is known.
ghost use Rattle.std.specs.Prelude.{◌≡◌, None, Some, MatchOption, false, not};
ghost use Rattle.std.specs.List.{list_any};
ghost use Rattle.watch_report.specs.Fields.{fields_of, hexadecimal_field};
ghost use Rattle.watch_report.specs.Filters.{verdict_in};
ghost use Rattle.watch_report.specs.KnownTexts.{has_space_too_many, if_last, next, next_reach, or_any, owner_in, range_in, reach_in, reason_in, tests_in, words_of};

use crate::fields::is_separator;
use crate::filter::user_verdict;
use crate::find_fault::first_word;
use crate::known_fault::KnownReason;
use crate::numbers::hexadecimal;
use crate::reason_word::{reach_word, reason_word};
use watch::{AddressRange, Verdict};
use watch_causes::{Reach, Reason};

/// What the words of an entry say.
#[derive(Clone, Copy)]
pub struct KnownTests {
    pub global: bool,
    pub first: Option<Verdict>,
    pub reason: Option<Reason>,
    pub reach: Option<Reach>,
    pub range: Option<AddressRange>,
}

/// Whether the pages of this owner are global.
fn owner(word: &[u8]) -> Option<bool>
    ensures { result ≡ owner_in word.now }
{
    if word == b"user".as_slice() {
        Some(false)
    } else if word == b"kernel".as_slice() {
        Some(true)
    } else {
        None
    }
}

/// The reason that has this word.
fn reason(word: &[u8]) -> Option<Reason>
    ensures { result ≡ reason_in word.now }
{
    if word == reason_word(Reason::NoFlush) {
        Some(Reason::NoFlush)
    } else if word == reason_word(Reason::NoFence) {
        Some(Reason::NoFence)
    } else if word == reason_word(Reason::OtherHarts) {
        Some(Reason::OtherHarts)
    } else if word == reason_word(Reason::OtherSpaces) {
        Some(Reason::OtherSpaces)
    } else if word == reason_word(Reason::OtherPages) {
        Some(Reason::OtherPages)
    } else if word == reason_word(Reason::NotDone) {
        Some(Reason::NotDone)
    } else {
        None
    }
}

/// The reach that has this word.
fn reach(word: &[u8]) -> Option<Reach>
    ensures { result ≡ reach_in word.now }
{
    if word == reach_word(Reach::Used) {
        Some(Reach::Used)
    } else if word == reach_word(Reach::Reachable) {
        Some(Reach::Reachable)
    } else if word == reach_word(Reach::NotReached) {
        Some(Reach::NotReached)
    } else {
        None
    }
}

/// A verdict, or `-` for any.
fn verdict_or_any(word: &[u8]) -> Option<Option<Verdict>>
    ensures { result ≡ or_any (verdict_in false) word.now }
{
    if word == b"-".as_slice() {
        return Some(None);
    }
    let verdict = user_verdict(word)?;
    Some(Some(verdict))
}

/// A reason, or `-` for any.
fn reason_or_any(word: &[u8]) -> Option<Option<Reason>>
    ensures { result ≡ or_any reason_in word.now }
{
    if word == b"-".as_slice() {
        return Some(None);
    }
    let reason = reason(word)?;
    Some(Some(reason))
}

/// The owner that the first of the words names, and the words behind it.
fn next_owner(words: Option<&[u8]>) -> Option<(bool, Option<&[u8]>)>
    ensures { MatchOption result (next owner_in (words_of words.entry) ≡ None)
        (λ it. next owner_in (words_of words.entry) ≡ Some (it.0, words_of it.1)) }
{
    let (word, rest) = first_word(words?);
    let global = owner(word)?;
    Some((global, rest))
}

/// The same of a verdict.
fn next_verdict(words: Option<&[u8]>) -> Option<(Option<Verdict>, Option<&[u8]>)>
    ensures { MatchOption result (next (or_any (verdict_in false)) (words_of words.entry) ≡ None)
        (λ it. next (or_any (verdict_in false)) (words_of words.entry)
        ≡ Some (it.0, words_of it.1)) }
{
    let (word, rest) = first_word(words?);
    let verdict = verdict_or_any(word)?;
    Some((verdict, rest))
}

/// The same of a reason.
fn next_reason(words: Option<&[u8]>) -> Option<(Option<Reason>, Option<&[u8]>)>
    ensures { MatchOption result (next (or_any reason_in) (words_of words.entry) ≡ None)
        (λ it. next (or_any reason_in) (words_of words.entry) ≡ Some (it.0, words_of it.1)) }
{
    let (word, rest) = first_word(words?);
    let reason = reason_or_any(word)?;
    Some((reason, rest))
}

/// The reach that the first of the words names, if it names one, and the words behind it.
fn next_reach(words: Option<&[u8]>) -> (Option<Reach>, Option<&[u8]>)
    ensures { (result.0, words_of result.1) ≡ next_reach (words_of words.entry) }
{
    let Some(text) = words else {
        return (None, None);
    };
    let (word, rest) = first_word(text);
    match reach(word) {
        None => (None, words),
        Some(reach) => (Some(reach), rest),
    }
}

/// The number that the first of the words names, and the words behind it.
fn next_number(words: Option<&[u8]>) -> Option<(u64, Option<&[u8]>)>
    ensures { MatchOption result (next hexadecimal_field (words_of words.entry) ≡ None)
        (λ it. next hexadecimal_field (words_of words.entry) ≡ Some (it.0, words_of it.1)) }
{
    let (word, rest) = first_word(words?);
    let number = hexadecimal(word)?;
    Some((number, rest))
}

/// These addresses, if no word is left.
#[tactic(auto, using(crate::proofs::KnownLemmas::excess))]
fn if_last(range: AddressRange, words: Option<&[u8]>) -> Result<Option<AddressRange>, KnownReason>
    ensures { result ≡ if_last range (words_of words.entry) }
{
    match words {
        None => Ok(Some(range)),
        Some(_) => Err(KnownReason::Excess),
    }
}

/// The addresses that these words give, if there are some.
fn range(words: Option<&[u8]>) -> Result<Option<AddressRange>, KnownReason>
    ensures { result ≡ range_in (words_of words.entry) }
{
    let Some(text) = words else {
        return Ok(None);
    };
    let (word, words) = first_word(text);
    let Some(start) = hexadecimal(word) else {
        return Err(KnownReason::NoAddress);
    };
    let Some((size, words)) = next_number(words) else {
        return Err(KnownReason::NoSize);
    };
    if_last(AddressRange { start, size }, words)
}

/// What the words of a text say, or why it is no entry.
pub(crate) fn read_tests(text: &[u8]) -> Result<KnownTests, KnownReason>
    ensures { result ≡ tests_in (fields_of text.now) }
{
    let Some((global, words)) = next_owner(Some(text)) else {
        return Err(KnownReason::NoOwner);
    };
    let Some((first, words)) = next_verdict(words) else {
        return Err(KnownReason::NoVerdict);
    };
    let Some((reason, words)) = next_reason(words) else {
        return Err(KnownReason::NoReason);
    };
    let (reach, words) = next_reach(words);
    let range = range(words)?;
    Ok(KnownTests {
        global,
        first,
        reason,
        reach,
        range,
    })
}

/// Whether a space of the text meets another, or stands at an end.
pub(crate) fn has_space_too_many(text: &[u8]) -> bool
    ensures { result ≡ has_space_too_many (fields_of text.now) }
{
    text.split(|byte| is_separator(*byte))
        .any(|word| word.is_empty())
}
