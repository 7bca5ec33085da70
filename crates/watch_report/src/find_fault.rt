//! Where a line has no form, and why.
ghost use Rattle.std.specs.Prelude.{◌≡◌, ◌<◌, ◌≤◌, ◌+◌, ◌^◌, [], ◌∷◌, IfSome, length};
ghost use Rattle.watch_report.specs.Fields.{fields_of};
ghost use Rattle.watch_report.specs.LineFaults.{end_fault, ends_at_space, fault_of, header_fault, noted_fault, record_fault, words_after, words_fault};
ghost use Rattle.watch_report.specs.TraceLines.{before_note};

use crate::fields::field_len;
use crate::header::Header;
use crate::line::{note_start, split_note};
use crate::line_fault::{LineFault, LineReason};
use crate::line_form::{Field, LineForm, fields_of_form, form_of};
use crate::word_faults::{fault_at, first_reason, word_fault, wrong_word};
use pte::Scheme;

/// The first word of a text, and what stands after its space, if there is one.
pub(crate) fn first_word(text: &[u8]) -> (&[u8], Option<&[u8]>)
    ensures words { fields_of text.now ≡ result.0.now ∷ words_after result.1 (λ rest. rest.now) }
    ensures length { length result.0.now ≤ length text.now }
    ensures rest { IfSome result.1 (λ rest. length result.0.now + 1 + length rest.now
        ≡ length text.now) }
{
    let end = field_len(text);
    if end < text.len() {
        (&text[..end], Some(&text[end + 1..]))
    } else {
        (text, None)
    }
}

/// The fault of a line that ends before these fields, if there are some.
fn end_fault(form: LineForm, fields: &[Field], before: usize) -> Option<LineFault>
    ensures { result ≡ end_fault form fields.now before }
{
    let field = fields.first()?;
    Some(fault_at(
        before,
        LineReason::Missing {
            form,
            field: *field,
        },
    ))
}

/// Whether the line ends at a space, behind which the word should stand.
#[tactic(auto, using(crate::proofs::Positions::some_field))]
fn ends_at_space(word: &[u8], rest: Option<&[u8]>) -> bool
    ensures { result ≡ ends_at_space word.now (words_after rest.entry (λ rest. rest.now)) }
{
    word.is_empty() && rest.is_none()
}

/// The first fault of the words of a text, before which so many bytes stand.
fn words_fault(
    machine: Header,
    form: LineForm,
    fields: &[Field],
    before: usize,
    text: &[u8],
) -> Option<LineFault>
    requires { before + length text.now < 2 ^ 63 }
    ensures { result ≡ words_fault machine form fields.now before (fields_of text.now) }
{
    let (word, rest) = first_word(text);
    let Some((field, others)) = fields.split_first() else {
        return Some(wrong_word(before, word, LineReason::Excess(form)));
    };
    if ends_at_space(word, rest) {
        return end_fault(form, fields, before + 1);
    }
    if let Some(fault) = word_fault(machine, *field, before, word) {
        return Some(fault);
    }
    let past = before + word.len() + 1;
    match rest {
        Some(rest) => words_fault(machine, form, others, past, rest),
        None => end_fault(form, others, past),
    }
}

/// The first fault of a record's line, without its note.
fn record_fault(machine: Header, text: &[u8]) -> Option<LineFault>
    ensures { result ≡ record_fault machine (fields_of text.now) }
{
    let (letter, rest) = first_word(text);
    let Some(form) = form_of(letter) else {
        let reason = first_reason(LineReason::OtherLetter, letter);
        return Some(wrong_word(0, letter, reason));
    };
    let fields = fields_of_form(form);
    let past = letter.len() + 1;
    match rest {
        Some(rest) => words_fault(machine, form, fields, past, rest),
        None => end_fault(form, fields, past),
    }
}

/// The fault of a first line. `None`: it is a header.
pub fn find_header_fault(text: &[u8]) -> Option<LineFault>
    ensures { result ≡ header_fault text.now }
{
    if text.is_empty() {
        return Some(fault_at(1, LineReason::EmptyStart));
    }
    let machine = Header {
        harts: 1,
        scheme: Scheme::Sv39,
    };
    let fields = fields_of_form(LineForm::Header);
    words_fault(machine, LineForm::Header, fields, 0, text)
}

/// The fault of a line that may have a note, and of that.
fn noted_fault(machine: Header, text: &[u8]) -> Option<LineFault>
    ensures { result ≡ noted_fault machine text.now (before_note text.now) }
{
    match split_note(text) {
        Some((body, _)) => record_fault(machine, body),
        None => {
            let at = note_start(text);
            if at == 0 {
                return Some(fault_at(1, LineReason::OtherLetter));
            }
            if let Some(fault) = record_fault(machine, &text[..at]) {
                return Some(fault);
            }
            Some(fault_at(at + 1, LineReason::NoSpace))
        }
    }
}

/// The fault of a line after the first: the first one from the left. `None`: the line has a form.
pub fn find_line_fault(header: Header, text: &[u8]) -> Option<LineFault>
    ensures { result ≡ fault_of header text.now }
{
    if text.is_empty() {
        return None;
    }
    if text.starts_with(b"#".as_slice()) {
        return None;
    }
    if text.starts_with(b"m ".as_slice()) {
        return None;
    }
    noted_fault(header, text)
}
