//! What is wrong with a word of a line.
ghost use Rattle.std.specs.Prelude.{◌≡◌, ◌+◌, ◌<◌, ◌≤◌, ◌^◌, None, nat_lt, length};
ghost use Rattle.std.specs.Char.{digit_value};
ghost use Rattle.std.specs.List.{list_all};
ghost use Rattle.watch_report.specs.LineFaults.{begins_time, byte_reason, bytes_reason, fault_at, first_reason, first_wrong, hexadecimal_reason, is_printable, kind_reason, number_reason, optional_reason, unless, word_fault, word_reason, wrong_word};
ghost use Rattle.watch_report.specs.declared.line_form.FieldKind.TheVariants.{Asid, Hart, HartCount, Number, Optional, Satp, WordAddress};

use crate::header::{Header, scheme};
use crate::line_fault::{LineFault, LineReason};
use crate::line_form::{Field, FieldKind, kind_of};
use crate::numbers::{decimal, digit, hexadecimal};
use crate::record::{ASIDS, MODE_SHIFT, satp_space};

/// A fault at a column.
pub fn fault_at(column: usize, reason: LineReason) -> LineFault
    ensures { result ≡ fault_at column reason }
{
    LineFault {
        column: column as u64,
        reason,
    }
}

/// Whether each byte is a digit.
fn are_digits(radix: u64, word: &[u8]) -> bool
    requires { radix ≤ 16 }
    ensures { result ≡ list_all (λ c. nat_lt (digit_value c) radix) word.now }
{
    word.iter().all(|byte| u64::from(digit(*byte)) < radix)
}

/// Why a word is no number: `other`, where it is not for its length or what stands in front.
fn number_reason(radix: u64, other: LineReason, word: &[u8]) -> LineReason
    requires { radix ≤ 16 }
    ensures { result ≡ number_reason radix other word.now }
{
    if word.starts_with(b"0x".as_slice()) || word.starts_with(b"0X".as_slice()) {
        LineReason::Prefixed
    } else if are_digits(radix, word) {
        LineReason::TooLong
    } else {
        other
    }
}

/// Whether a time begins so that the log of a kernel puts before a line.
fn begins_time(word: &[u8]) -> bool
    ensures { result ≡ begins_time word.now }
{
    if word.len() < 2 {
        word == b"[".as_slice()
    } else {
        word[0] == b'[' && digit(word[1]) < 10
    }
}

/// Why the first word of a line is none that may stand there: `other`, if it is no time.
pub fn first_reason(other: LineReason, word: &[u8]) -> LineReason
    ensures { result ≡ first_reason other word.now }
{
    if begins_time(word) {
        LineReason::LogTime
    } else {
        other
    }
}

fn harts_reason(machine: Header, field: Field, word: &[u8]) -> Option<LineReason>
    ensures { result ≡ kind_reason machine field word.now HartCount }
{
    match decimal(word) {
        Some(harts) => {
            if 0 < harts && harts <= 64 {
                None
            } else {
                Some(LineReason::OtherHarts(harts))
            }
        }
        None => Some(number_reason(10, LineReason::NotDecimal(field), word)),
    }
}

fn hart_reason(machine: Header, field: Field, word: &[u8]) -> Option<LineReason>
    ensures { result ≡ kind_reason machine field word.now Hart }
{
    match decimal(word) {
        Some(hart) => {
            if hart < u64::from(machine.harts) {
                None
            } else {
                Some(LineReason::NoHart {
                    hart,
                    last: machine.harts.saturating_sub(1),
                })
            }
        }
        None => Some(number_reason(10, LineReason::NotDecimal(field), word)),
    }
}

fn address_reason(machine: Header, field: Field, word: &[u8]) -> Option<LineReason>
    ensures { result ≡ kind_reason machine field word.now WordAddress }
{
    match hexadecimal(word) {
        Some(address) => {
            if address % 8 == 0 {
                None
            } else {
                Some(LineReason::Unaligned(address))
            }
        }
        None => Some(number_reason(16, LineReason::NotHexadecimal(field), word)),
    }
}

fn satp_reason(machine: Header, field: Field, word: &[u8]) -> Option<LineReason>
    ensures { result ≡ kind_reason machine field word.now Satp }
{
    match hexadecimal(word) {
        Some(satp) => {
            if satp_space(machine.scheme, satp).is_some() {
                None
            } else {
                Some(LineReason::OtherMode {
                    mode: satp >> MODE_SHIFT,
                    scheme: machine.scheme,
                })
            }
        }
        None => Some(number_reason(16, LineReason::NotHexadecimal(field), word)),
    }
}

fn hexadecimal_reason(field: Field, word: &[u8]) -> Option<LineReason>
    ensures { result ≡ hexadecimal_reason field word.now (λ n. None) }
{
    match hexadecimal(word) {
        Some(_) => None,
        None => Some(number_reason(16, LineReason::NotHexadecimal(field), word)),
    }
}

fn optional_reason(field: Field, word: &[u8]) -> Option<LineReason>
    ensures { result ≡ optional_reason field word.now (λ n. None) }
{
    if word == b"-".as_slice() {
        return None;
    }
    match hexadecimal(word) {
        Some(_) => None,
        None => Some(number_reason(16, LineReason::NotOptional(field), word)),
    }
}

fn asid_reason(machine: Header, field: Field, word: &[u8]) -> Option<LineReason>
    ensures { result ≡ kind_reason machine field word.now Asid }
{
    if word == b"-".as_slice() {
        return None;
    }
    match hexadecimal(word) {
        Some(asid) => {
            if asid < ASIDS {
                None
            } else {
                Some(LineReason::WideAsid(asid))
            }
        }
        None => Some(number_reason(16, LineReason::NotOptional(field), word)),
    }
}

/// Why a field may not hold the word.
fn word_reason(machine: Header, field: Field, word: &[u8]) -> Option<LineReason>
    ensures { result ≡ word_reason machine field word.now }
{
    match kind_of(field) {
        FieldKind::Name => {
            let reason = first_reason(LineReason::NoTrace, word);
            unless(word == b"watch".as_slice(), reason)
        }
        FieldKind::Version => unless(word == b"1".as_slice(), LineReason::OtherVersion),
        FieldKind::HartCount => harts_reason(machine, field, word),
        FieldKind::Scheme => unless(scheme(word).is_some(), LineReason::OtherScheme),
        FieldKind::Hart => hart_reason(machine, field, word),
        FieldKind::WordAddress => address_reason(machine, field, word),
        FieldKind::Number => hexadecimal_reason(field, word),
        FieldKind::Optional => optional_reason(field, word),
        FieldKind::Asid => asid_reason(machine, field, word),
        FieldKind::Satp => satp_reason(machine, field, word),
    }
}

fn unless(test: bool, reason: LineReason) -> Option<LineReason>
    ensures { result ≡ unless test reason }
{
    if test { None } else { Some(reason) }
}

pub(crate) fn is_printable(byte: u8) -> bool
    ensures { result ≡ is_printable byte }
{
    b' ' < byte && byte < 0x7F
}

/// Where the first byte of a word stands that no word has, or its length.
fn first_wrong(word: &[u8]) -> usize
    ensures { result ≡ first_wrong word.now }
{
    word.iter()
        .position(|byte| !is_printable(*byte))
        .unwrap_or(word.len())
}

/// What a byte is that no word has.
fn byte_reason(byte: u8) -> LineReason
    ensures { result ≡ byte_reason byte }
{
    if byte == 0 {
        LineReason::ZeroByte
    } else if byte == b'\t' {
        LineReason::Tab
    } else if byte == b'\r' {
        LineReason::CarriageReturn
    } else {
        LineReason::OtherByte(byte)
    }
}

/// What the first of these bytes is, which no word has.
fn bytes_reason(bytes: &[u8]) -> LineReason
    requires { 0 < length bytes.now }
    ensures { result ≡ bytes_reason bytes.now }
{
    if bytes.starts_with(b"\xEF\xBB\xBF".as_slice()) {
        LineReason::ByteOrderMark
    } else {
        byte_reason(bytes[0])
    }
}

/// The fault of a wrong word, before which so many bytes stand.
pub fn wrong_word(before: usize, word: &[u8], reason: LineReason) -> LineFault
    requires { before + length word.now < 2 ^ 63 }
    ensures { result ≡ wrong_word before word.now reason }
{
    if word.is_empty() {
        return fault_at(before.max(1), LineReason::Space);
    }
    let wrong = first_wrong(word);
    if wrong < word.len() {
        fault_at(before + wrong + 1, bytes_reason(&word[wrong..]))
    } else {
        fault_at(before + 1, reason)
    }
}

/// The fault of a word, before which so many bytes stand, if it is wrong there.
pub fn word_fault(machine: Header, field: Field, before: usize, word: &[u8]) -> Option<LineFault>
    requires { before + length word.now < 2 ^ 63 }
    ensures { result ≡ word_fault machine field before word.now }
{
    let reason = word_reason(machine, field, word)?;
    Some(wrong_word(before, word, reason))
}
