//! What is wrong with the spaces of a file.
ghost use Rattle.checks.specs.Told.{IsStillTrue};

use crate::places::Place;
use crate::positions::Position;
use crate::report::{Piece, Report, Spot};
use crate::split::{text_of, word_at};
use crate::values::{Document, text_in};
use files::Key;
use spaces::{Config, MAX_HARTS, MAX_SPACES};
use steps::num;
use toml::Value;

/// What the value of `spaces` is.
const SPACE_TEXTS: &str = "an array of 1 to 32 texts HOME ASID";

/// The words HOME and ASID of a space, if it has just two words.
fn words_of(text: &str) -> Option<(&[u8], &[u8])> {
    match (word_at(text, 0), word_at(text, 1)) {
        (Some(home), Some(asid)) if word_at(text, 2).is_none() => Some((home, asid)),
        _ => None,
    }
}

/// Whether a word is the number of a hart.
fn is_home(word: &[u8], harts: u64) -> bool {
    match num(word) {
        Some(home) => home < harts,
        None => false,
    }
}

/// The ASID of the text of a space, if nothing is wrong with the text.
fn asid_in(text: &str, harts: u64) -> Option<u64> {
    match words_of(text) {
        Some((home, asid)) if is_home(home, harts) => {
            num(asid).filter(|asid| *asid <= u64::from(u16::MAX))
        }
        _ => None,
    }
}

/// The first of the spaces that has this ASID.
fn space_with(values: &[Value], harts: u64, asid: u64) -> Option<usize> {
    for (index, value) in values.iter().enumerate() {
        if asid_in(text_in(value), harts) == Some(asid) {
            return Some(index);
        }
    }
    None
}

/// Reports what is wrong with the spaces. `None`: they are no texts.
pub fn tell_spaces(report: &mut Report, document: &Document<'_>, harts: Option<u8>) -> Option<usize>
    ensures { IsStillTrue report.old.is_out_of_memory report.new.is_out_of_memory }
{
    if document.value(Key::Spaces).is_none() {
        return Some(Config::default().spaces.len());
    }
    let Some(values) = document.texts(report, Key::Spaces, SPACE_TEXTS) else {
        return None;
    };
    tell_count(report, document, values.len());
    tell_each(report, document, harts, values);
    Some(values.len())
}

/// Reports whether there is no space, or too many.
fn tell_count(report: &mut Report, document: &Document<'_>, count: usize)
    ensures { IsStillTrue report.old.is_out_of_memory report.new.is_out_of_memory }
{
    if count >= 1 && count <= MAX_SPACES {
        return;
    }
    let what = [
        Piece::Number(count as u64),
        Piece::Text(" spaces are not from 1 to "),
        Piece::Number(MAX_SPACES as u64),
    ];
    document.tell(report, Key::Spaces, &what)
}

/// Reports each space that is wrong, or has the ASID of an earlier one.
fn tell_each(report: &mut Report, document: &Document<'_>, harts: Option<u8>, values: &[Value])
    ensures { IsStillTrue report.old.is_out_of_memory report.new.is_out_of_memory }
{
    let harts = u64::from(harts.unwrap_or(MAX_HARTS as u8));
    let place = document.place(report, Key::Spaces);
    tell_each_at(report, document, &place, harts, values)
}

fn tell_each_at(
    report: &mut Report,
    document: &Document<'_>,
    place: &Place,
    harts: u64,
    values: &[Value],
)
    ensures { IsStillTrue report.old.is_out_of_memory report.new.is_out_of_memory }
{
    for (index, value) in values.iter().enumerate().take(MAX_SPACES) {
        let at = document.position_in_array(place, index);
        let text = text_in(value);
        match asid_in(text, harts) {
            Some(asid) => {
                let other = space_with(values, harts, asid).unwrap_or(index);
                if other < index {
                    tell_same(report, at.at_word(1), [other, index], asid);
                }
            }
            None => tell_space(report, at, index, harts, text),
        }
    }
}

/// Reports that two spaces have the same ASID.
fn tell_same(report: &mut Report, at: Position<'_>, spaces: [usize; 2], asid: u64)
    ensures { IsStillTrue report.old.is_out_of_memory report.new.is_out_of_memory }
{
    let what = [
        Piece::Text("spaces "),
        Piece::Number(spaces[0] as u64),
        Piece::Text(" and "),
        Piece::Number(spaces[1] as u64),
        Piece::Text(": both have ASID "),
        Piece::Number(asid),
    ];
    report.tell(Spot { at, place: &[] }, &what);
}

/// Reports what is wrong with the text of a space.
fn tell_space(report: &mut Report, at: Position<'_>, index: usize, harts: u64, text: &str)
    ensures { IsStillTrue report.old.is_out_of_memory report.new.is_out_of_memory }
{
    let place = [
        Piece::Text("space "),
        Piece::Number(index as u64),
        Piece::Text(": "),
    ];
    let spot = Spot { at, place: &place };
    tell_words(report, spot, harts, text);
}

fn tell_words(report: &mut Report, spot: Spot<'_>, harts: u64, text: &str)
    ensures { IsStillTrue report.old.is_out_of_memory report.new.is_out_of_memory }
{
    let Some((home, asid)) = words_of(text) else {
        let why = Piece::Text(" is not two numbers HOME ASID, as `0 1`");
        report.tell(spot, &[Piece::Word(text), why]);
        return;
    };
    if is_home(home, harts) {
        let why = Piece::Text(" where ASID is expected: a number below 65536");
        report.tell(spot.at_word(1), &[Piece::Word(text_of(asid)), why]);
        return;
    }
    let what = [
        Piece::Word(text_of(home)),
        Piece::Text(" where HOME is expected: the number of a hart, 0 to "),
        Piece::Number(harts.saturating_sub(1)),
    ];
    report.tell(spot.at_word(0), &what);
}
