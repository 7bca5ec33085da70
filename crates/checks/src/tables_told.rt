//! What is wrong with the root, the frames and the words of a file for `walk`.
ghost use Rattle.checks.specs.Told.{IsStillTrue};

use crate::places::Place;
use crate::positions::Position;
use crate::report::{Piece, Report, Spot};
use crate::split::{number_of, text_of, word_at};
use crate::values::{Document, text_in, texts_in};
use files::{Command, Key, MOST_FRAMES};
use pte::{PPN_LIMIT, TABLE_LENGTH};
use std::alloc::AllocError;
use steps::num;
use toml::Value;

/// What the value of `frames` is.
const FRAME_TEXTS: &str = "an array of texts PPN";

/// What the value of `words` is.
const WORD_TEXTS: &str = "an array of texts PPN INDEX WORD";

/// What is wrong with a word of `PPN INDEX WORD` that is wrong.
const WRONG_PARTS: [&str; 3] = [
    " where PPN is expected: one of the frames",
    " where INDEX is expected: a number below 512",
    " where WORD is expected: a number below 2^64",
];

/// What is wrong with a text `PPN INDEX WORD`.
#[derive(Clone, Copy)]
enum Wrong {
    /// It has not three words.
    Count,
    /// Its word of this index, and why.
    Part(usize, &'static str),
}

/// Reports what is wrong with the keys `root`, `frames` and `words`.
pub fn tell_tables(report: &mut Report, document: &Document<'_>)
    ensures { IsStillTrue report.old.is_out_of_memory report.new.is_out_of_memory }
{
    document.tell_numbers(report, Command::Walk.own_keys());
    tell_frames(report, document);
    if let Some(values) = document.texts(report, Key::Words, WORD_TEXTS) {
        tell_words(report, document, values);
    }
}

/// Reports what is wrong with the frames.
fn tell_frames(report: &mut Report, document: &Document<'_>)
    ensures { IsStillTrue report.old.is_out_of_memory report.new.is_out_of_memory }
{
    let Some(values) = document.texts(report, Key::Frames, FRAME_TEXTS) else {
        return;
    };
    if values.len() > MOST_FRAMES {
        let what = [
            Piece::Number(values.len() as u64),
            Piece::Text(" frames are more than "),
            Piece::Number(MOST_FRAMES as u64),
        ];
        document.tell(report, Key::Frames, &what);
    }
    let place = document.place(report, Key::Frames);
    tell_each_frame(report, document, &place, values)
}

/// The PPN that a text writes.
fn ppn_in(value: &Value) -> Option<u64> {
    number_of(text_in(value)).filter(|ppn| *ppn < PPN_LIMIT)
}

fn tell_each_frame(report: &mut Report, document: &Document<'_>, place: &Place, values: &[Value])
    ensures { IsStillTrue report.old.is_out_of_memory report.new.is_out_of_memory }
{
    for (index, value) in values.iter().enumerate() {
        if report.is_full() {
            break;
        }
        if ppn_in(value).is_none() {
            let at = document.position_in_array(place, index);
            tell_frame(report, at, index, text_in(value));
        }
    }
}

/// Reports that the text of a frame is no PPN.
fn tell_frame(report: &mut Report, at: Position<'_>, index: usize, text: &str)
    ensures { IsStillTrue report.old.is_out_of_memory report.new.is_out_of_memory }
{
    let number = Piece::Number(index.saturating_add(1) as u64);
    let what = [
        Piece::Text("text "),
        number,
        Piece::Text(" of frames: "),
        Piece::Word(text),
        Piece::Text(" is no PPN, a number below "),
        Piece::Limit(PPN_LIMIT),
    ];
    report.tell(Spot { at, place: &[] }, &what);
}

/// The PPNs of the frames. `None`: they are not known, as something is wrong with them.
fn frames_of(report: &mut Report, document: &Document<'_>) -> Option<Vec<u64>>
    ensures { IsStillTrue report.old.is_out_of_memory report.new.is_out_of_memory }
{
    let mut ppns = Vec::new(report.alloc);
    let values = match document.value(Key::Frames) {
        Some(value) => texts_in(value),
        None => return Some(ppns),
    };
    let are_known = values.is_some_and(|values| are_frames(values));
    let pushed = push_ppns(&mut ppns, values.unwrap_or(&[]));
    report.note(pushed);
    if are_known { Some(ppns) } else { None }
}

fn are_frames(values: &[Value]) -> bool {
    values.len() <= MOST_FRAMES && values.iter().all(|value| ppn_in(value).is_some())
}

/// Adds the PPNs that texts write.
fn push_ppns(ppns: &mut Vec<u64>, values: &[Value]) -> Result<(), AllocError> {
    for value in values {
        if let Some(ppn) = ppn_in(value) {
            ppns.push(ppn)?;
        }
    }
    Ok(())
}

/// Reports what is wrong with the words.
fn tell_words(report: &mut Report, document: &Document<'_>, values: &[Value])
    ensures { IsStillTrue report.old.is_out_of_memory report.new.is_out_of_memory }
{
    let place = document.place(report, Key::Words);
    let frames = frames_of(report, document);
    tell_each_word(report, document, &place, frames.as_ref(), values);
}

fn tell_each_word(
    report: &mut Report,
    document: &Document<'_>,
    place: &Place,
    frames: Option<&Vec<u64>>,
    values: &[Value],
)
    ensures { IsStillTrue report.old.is_out_of_memory report.new.is_out_of_memory }
{
    for (index, value) in values.iter().enumerate() {
        if report.is_full() {
            break;
        }
        let text = text_in(value);
        if let Some(wrong) = wrong_in(frames, text) {
            let at = document.position_in_array(place, index);
            tell_word(report, at, index, wrong, text);
        }
    }
}

/// What is wrong with a text `PPN INDEX WORD`, if something is. Which frames there are may be
/// unknown.
fn wrong_in(frames: Option<&Vec<u64>>, text: &str) -> Option<Wrong> {
    if word_at(text, 2).is_none() || word_at(text, 3).is_some() {
        return Some(Wrong::Count);
    }
    for (index, why) in WRONG_PARTS.iter().enumerate() {
        let word = word_at(text, index).unwrap_or(b"".as_slice());
        if !is_part(frames, index, word) {
            return Some(Wrong::Part(index, *why));
        }
    }
    None
}

/// Reports what is wrong with a text `PPN INDEX WORD`.
fn tell_word(report: &mut Report, at: Position<'_>, index: usize, wrong: Wrong, text: &str)
    ensures { IsStillTrue report.old.is_out_of_memory report.new.is_out_of_memory }
{
    let number = Piece::Number(index.saturating_add(1) as u64);
    let place = [Piece::Text("text "), number, Piece::Text(" of words: ")];
    let spot = Spot { at, place: &place };
    match wrong {
        Wrong::Count => {
            let why = Piece::Text(" is not three numbers PPN INDEX WORD");
            report.tell(spot, &[Piece::Word(text), why]);
        }
        Wrong::Part(part, why) => {
            let word = word_at(text, part).unwrap_or(b"".as_slice());
            let what = [Piece::Word(text_of(word)), Piece::Text(why)];
            report.tell(spot.at_word(part), &what);
        }
    }
}

/// Whether a word may be the one of this index of `PPN INDEX WORD`.
fn is_part(frames: Option<&Vec<u64>>, index: usize, word: &[u8]) -> bool {
    match num(word) {
        Some(ppn) if index == 0 => match frames {
            Some(frames) => frames.as_slice().contains(&ppn),
            None => true,
        },
        Some(n) => index != 1 || n < u64::from(TABLE_LENGTH),
        None => false,
    }
}
