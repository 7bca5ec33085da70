//! What is wrong with the harts, the spaces and the table memory of a file: each limit on its own.
ghost use Rattle.checks.specs.Told.{IsStillTrue};

use crate::report::{Piece, Report};
use crate::spaces_told::tell_spaces;
use crate::values::{Document, kind};
use files::{Command, Key};
use pte::PPN_LIMIT;
use spaces::{DEFAULT_SPARES, MAX_HARTS};
use toml::Value;

/// Reports what is wrong with the keys of the layout, where at most `most_frames` frames are
/// allowed. Answers the number of harts if it is right.
pub fn tell_layout(report: &mut Report, document: &Document<'_>, most_frames: u64) -> Option<u8>
    ensures { IsStillTrue report.old.is_out_of_memory report.new.is_out_of_memory }
{
    document.tell_numbers(report, Command::Run.keys());
    let harts = document.whole(Key::Harts);
    let harts = harts.and_then(|harts| u8::try_from(harts).ok());
    let spares = tell_spares(report, document, harts);
    let spaces = tell_spaces(report, document, harts);
    let window = document.whole(Key::Window);
    if let (Some(window), Some(spaces), Some(spares)) = (window, spaces, spares) {
        let parts = [u64::from(window), spaces as u64, spares];
        tell_frames(report, parts, document.ppn(Key::Base), most_frames);
    }
    harts
}

/// Reports what is wrong with the spare frames. Answers how many there are together, if they are
/// numbers.
fn tell_spares(report: &mut Report, document: &Document<'_>, harts: Option<u8>) -> Option<u64>
    ensures { IsStillTrue report.old.is_out_of_memory report.new.is_out_of_memory }
{
    let Some(value) = document.value(Key::Spares) else {
        return harts.map(|harts| u64::from(DEFAULT_SPARES).saturating_mul(u64::from(harts)));
    };
    let Some(values) = value.as_array() else {
        let expected = "an array of whole numbers is expected, one for each hart";
        let what = [
            Piece::Text(expected),
            Piece::Text(", not "),
            Piece::Text(kind(value)),
        ];
        document.tell(report, Key::Spares, &what);
        return None;
    };
    tell_count(report, document, harts, values.len());
    tell_each_spare(report, document, values.as_slice())
}

/// Reports whether the numbers of spare frames are not as many as the harts.
fn tell_count(report: &mut Report, document: &Document<'_>, harts: Option<u8>, count: usize)
    ensures { IsStillTrue report.old.is_out_of_memory report.new.is_out_of_memory }
{
    let count_piece = Piece::Number(count as u64);
    match harts {
        Some(harts) if count != usize::from(harts) => {
            let what = [
                Piece::Text("numbers are "),
                count_piece,
                Piece::Text(" and harts "),
                Piece::Number(u64::from(harts)),
                Piece::Text(": one number for each hart is expected"),
            ];
            document.tell(report, Key::Spares, &what)
        }
        None if count > MAX_HARTS => {
            let what = [
                Piece::Text("numbers are "),
                count_piece,
                Piece::Text(": one for each of at most "),
                Piece::Number(MAX_HARTS as u64),
                Piece::Text(" harts is expected"),
            ];
            document.tell(report, Key::Spares, &what)
        }
        _ => {}
    }
}

/// Reports each element that is no number of spare frames, and adds up the others.
fn tell_each_spare(report: &mut Report, document: &Document<'_>, values: &[Value]) -> Option<u64>
    ensures { IsStillTrue report.old.is_out_of_memory report.new.is_out_of_memory }
{
    let mut total = Some(0_u64);
    for (hart, value) in values.iter().enumerate() {
        let spares = value.as_integer().and_then(|n| u16::try_from(n).ok());
        match spares {
            Some(spares) => total = total.map(|total| total.saturating_add(u64::from(spares))),
            None => {
                total = None;
                if report.is_full() {
                    break;
                }
                tell_spare(report, document, hart, value);
            }
        }
    }
    total
}

/// Reports that an element is no number of spare frames.
fn tell_spare(report: &mut Report, document: &Document<'_>, hart: usize, value: &Value)
    ensures { IsStillTrue report.old.is_out_of_memory report.new.is_out_of_memory }
{
    let (place, hart) = (Piece::Text("of hart "), Piece::Number(hart as u64));
    match value.as_integer() {
        Some(n) => {
            let limits = Piece::Text(" is not from 0 to 65535");
            let what = [place, hart, Piece::Text(": "), Piece::Whole(n), limits];
            document.tell(report, Key::Spares, &what)
        }
        None => {
            let expected = Piece::Text(": a whole number is expected, not ");
            let what = [place, hart, expected, Piece::Text(kind(value))];
            document.tell(report, Key::Spares, &what)
        }
    }
}

/// Reports whether the frames are too many, or have PPNs that are too large. The parts are those of
/// the window, the spaces and the spare ones.
fn tell_frames(report: &mut Report, parts: [u64; 3], base: Option<u64>, most: u64)
    ensures { IsStillTrue report.old.is_out_of_memory report.new.is_out_of_memory }
{
    let count = parts[0].saturating_add(parts[1]).saturating_add(parts[2]);
    if count > most {
        tell_many_frames(report, parts, count, most);
    }
    match base {
        Some(base) if base > PPN_LIMIT.saturating_sub(count) => {
            let what = [
                Piece::Text("frames: "),
                Piece::Number(count),
                Piece::Text(" from PPN "),
                Piece::Address(base),
                Piece::Text(" on are not all below "),
                Piece::Limit(PPN_LIMIT),
            ];
            report.tell_of_file(&what)
        }
        _ => {}
    }
}

fn tell_many_frames(report: &mut Report, parts: [u64; 3], count: u64, most: u64)
    ensures { IsStillTrue report.old.is_out_of_memory report.new.is_out_of_memory }
{
    let what = [
        Piece::Text("frames: "),
        Piece::Number(parts[0]),
        Piece::Text(" of the window, "),
        Piece::Number(parts[1]),
        Piece::Text(" of spaces and "),
        Piece::Number(parts[2]),
        Piece::Text(" spare are "),
        Piece::Number(count),
        Piece::Text(", more than "),
        Piece::Number(most),
    ];
    report.tell_of_file(&what)
}
