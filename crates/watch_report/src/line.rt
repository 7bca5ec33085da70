//! The lines of a trace after the first.
ghost use Rattle.std.specs.Prelude.{◌≡◌, MatchOption, None, Some, option_map};
ghost use Rattle.std.specs.List.{position_or_len};
ghost use Rattle.watch_report.specs.Fields.{fields_of};
ghost use Rattle.watch_report.specs.ReadRecords.{read_fields};
ghost use Rattle.watch_report.specs.TraceLines.{before_note, begins_note, line_in, said_by, note_of, record_in, record_line_in, without_space};

use crate::bytes::first_of_two;
use crate::fields::next_letter;
use crate::header::Header;
use crate::numbers::next_hart;
use crate::record::read_record;
use watch::Record as TraceRecord;

/// What a line of a trace says.
#[derive(Clone, Copy, PartialEq, Eq, Debug)]
pub enum Line<'a> {
    /// A record, and the text after ` @` or ` #` at the end of its line, empty where there is none.
    Record { record: TraceRecord, by: &'a [u8] },
    /// `m` and this text.
    Mark(&'a [u8]),
    /// A line that begins with `#`.
    Comment,
    /// A line of no bytes.
    Empty,
}

/// How many bytes stand before the first `@` or `#`, or at all.
pub(crate) fn note_start(text: &[u8]) -> usize
    ensures { result ≡ position_or_len begins_note text.now }
{
    first_of_two(b'@', b'#', text)
}

/// The text without the space at its end. `None`: no space stands there.
fn without_space(text: &[u8]) -> Option<&[u8]>
    ensures { MatchOption result (without_space text.now ≡ None)
        (λ rest. without_space text.now ≡ Some rest.now) }
{
    text.strip_suffix(b" ".as_slice())
}

/// What stands before the note and its space, and what the note says. `None`: no space stands
/// before the note.
pub(crate) fn split_note(text: &[u8]) -> Option<(&[u8], &[u8])>
    ensures { MatchOption result (before_note text.now ≡ None)
        (λ parts. (before_note text.now ≡ Some parts.0.now) × (note_of text.now ≡ parts.1.now)) }
{
    let at = note_start(text);
    if at < text.len() {
        let body = without_space(&text[..at])?;
        Some((body, &text[at + 1..]))
    } else {
        Some((text, b"".as_slice()))
    }
}

/// The fields of a record, read one after another.
#[inline(always)]
fn read_fields(header: Header, text: &[u8]) -> Option<TraceRecord>
    ensures { result ≡ read_fields header (fields_of text.now) }
{
    let (letter, rest) = next_letter(text)?;
    let (hart, rest) = next_hart(header.harts, rest)?;
    read_record(header.scheme, letter, hart, rest)
}

/// The record that a text writes, without a note.
#[inline(always)]
fn record(header: Header, text: &[u8]) -> Option<TraceRecord>
    ensures { result ≡ record_in header (fields_of text.now) }
{
    read_fields(header, text)
}

/// The line of a record.
#[inline(always)]
fn record_line(header: Header, text: &[u8]) -> Option<Line<'_>>
    ensures { option_map said_by result ≡ record_line_in header text.now }
{
    let (body, by) = split_note(text)?;
    let record = record(header, body)?;
    Some(Line::Record { record, by })
}

/// Reads a line after the first, without its end. `None`: it has no form.
///
/// A line of no bytes and one that begins with `#` say nothing. `m TEXT` is a mark. Any other is a
/// record, with its fields apart by exactly one space, and perhaps a note after them, ` @TEXT` or
/// ` #TEXT`:
///
/// ```text
/// w H PA VALUE                    the word VALUE was stored at PA, a multiple of 8
/// s H SATP                        satp is written: MODE Bare, or that of the header's scheme
/// f H RS1 RS2                     SFENCE.VMA, `-` for x0
/// r H TOK MASK START SIZE ASID    a remote fence begins, `-` for every ASID
/// e H TOK                         it has ended
/// a H PPN COUNT                   frames are given out
/// z H PPN COUNT                   frames are given back
/// c H TOK ROOT START SIZE         a claim begins, `-` for every root
/// d H TOK                         it holds
/// u H VA                          an access
/// ```
///
/// H is decimal and below the header's harts, all other numbers are hexadecimal, each of 1 to 16
/// digits; an ASID has 16 bits. A remote fence is for all addresses where SIZE is all ones, and
/// where START and SIZE are 0 (SBI, RFENCE extension). A claim is of all addresses from START on
/// where SIZE is all ones.
#[inline(always)]
pub fn read_line(header: Header, text: &[u8]) -> Option<Line<'_>>
    ensures { option_map said_by result ≡ line_in header text.now }
{
    if text.is_empty() {
        return Some(Line::Empty);
    }
    if text.starts_with(b"#".as_slice()) {
        return Some(Line::Comment);
    }
    if let Some(mark) = text.strip_prefix(b"m ".as_slice()) {
        return Some(Line::Mark(mark));
    }
    record_line(header, text)
}
