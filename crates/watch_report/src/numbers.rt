//! The numbers that fields write.
ghost use Rattle.std.specs.Prelude.{◌≡◌, ◌≤◌, ℕ, MatchOption, None, Some, length, min};
ghost use Rattle.std.specs.Char.{digit_value};
ghost use Rattle.watch_report.specs.Fields.{fields_of, hexadecimal_field, number_field, optional_field};
ghost use Rattle.watch_report.specs.NextFields.{BeginsWithNumber, last_number, last_optional, next_hart, next_number, next_optional};

use crate::fields::is_separator;

/// The longest numeral.
const MOST_DIGITS: usize = 16;

/// The value of each byte as a digit up to `f`, and 16 of any other byte.
const DIGITS: [u8; 256] = [
    16, 16, 16, 16, 16, 16, 16, 16, 16, 16, 16, 16, 16, 16, 16, 16, 16, 16, 16, 16, 16, 16, 16, 16,
    16, 16, 16, 16, 16, 16, 16, 16, 16, 16, 16, 16, 16, 16, 16, 16, 16, 16, 16, 16, 16, 16, 16, 16,
    0, 1, 2, 3, 4, 5, 6, 7, 8, 9, 16, 16, 16, 16, 16, 16, 16, 10, 11, 12, 13, 14, 15, 16, 16, 16,
    16, 16, 16, 16, 16, 16, 16, 16, 16, 16, 16, 16, 16, 16, 16, 16, 16, 16, 16, 16, 16, 16, 16, 10,
    11, 12, 13, 14, 15, 16, 16, 16, 16, 16, 16, 16, 16, 16, 16, 16, 16, 16, 16, 16, 16, 16, 16, 16,
    16, 16, 16, 16, 16, 16, 16, 16, 16, 16, 16, 16, 16, 16, 16, 16, 16, 16, 16, 16, 16, 16, 16, 16,
    16, 16, 16, 16, 16, 16, 16, 16, 16, 16, 16, 16, 16, 16, 16, 16, 16, 16, 16, 16, 16, 16, 16, 16,
    16, 16, 16, 16, 16, 16, 16, 16, 16, 16, 16, 16, 16, 16, 16, 16, 16, 16, 16, 16, 16, 16, 16, 16,
    16, 16, 16, 16, 16, 16, 16, 16, 16, 16, 16, 16, 16, 16, 16, 16, 16, 16, 16, 16, 16, 16, 16, 16,
    16, 16, 16, 16, 16, 16, 16, 16, 16, 16, 16, 16, 16, 16, 16, 16, 16, 16, 16, 16, 16, 16, 16, 16,
    16, 16, 16, 16, 16, 16, 16, 16, 16, 16, 16, 16, 16, 16,
];

/// The value of a digit up to `f`, or 16.
#[inline(always)]
pub(crate) fn digit(byte: u8) -> u8
    ensures { result ≡ min (digit_value byte) 16 }
{
    DIGITS[usize::from(byte)]
}

/// How many digits a text begins with, up to 16 of them, and the number that they write.
#[inline(always)]
fn leading_number(radix: u64, text: &[u8]) -> (u64, usize)
    requires low { 2 ≤ radix }
    requires high { radix ≤ 16 }
    ensures { BeginsWithNumber radix text.now result.0 result.1 }
{
    let most = text.len().min(MOST_DIGITS);
    let mut number = 0;
    for at in 0..most {
        let digit = u64::from(digit(text[at]));
        if digit >= radix {
            return (number, at);
        }
        number = number * radix + digit;
    }
    (number, most)
}

/// The same of hexadecimal digits. It is no part of its callers, whose variables would take the
/// registers of its loop.
#[inline(never)]
fn leading_hexadecimal(text: &[u8]) -> (u64, usize)
    ensures { BeginsWithNumber 16 text.now result.0 result.1 }
{
    leading_number(16, text)
}

/// The number of so many leading digits, if no other byte comes after them.
#[inline(always)]
fn whole_number(number: u64, count: usize, field: &[u8]) -> Option<u64>
    ensures { (radix : ℕ) → BeginsWithNumber radix field.now number count
        → result ≡ number_field radix field.now }
{
    if count == 0 {
        return None;
    }
    if count < field.len() {
        return None;
    }
    Some(number)
}

/// The number of so many leading digits, if a space comes after them, and what stands after that.
#[inline(always)]
fn number_and_rest(number: u64, count: usize, text: &[u8]) -> Option<(u64, &[u8])>
    requires { count ≤ length text.now }
    ensures { (radix : ℕ) → radix ≤ 16 → BeginsWithNumber radix text.now number count
        → MatchOption result (next_number radix (fields_of text.now) ≡ None)
        (λ next. next_number radix (fields_of text.now) ≡ Some (next.0, fields_of next.1.now)) }
{
    if count == 0 {
        return None;
    }
    if count == text.len() {
        return None;
    }
    if is_separator(text[count]) {
        Some((number, &text[count + 1..]))
    } else {
        None
    }
}

/// The decimal number that 1 to 16 digits write.
pub fn decimal(field: &[u8]) -> Option<u64>
    ensures { result ≡ number_field 10 field.now }
{
    let (number, count) = leading_number(10, field);
    whole_number(number, count, field)
}

/// The hexadecimal number that 1 to 16 digits write.
#[inline(always)]
pub(crate) fn hexadecimal(field: &[u8]) -> Option<u64>
    ensures { result ≡ hexadecimal_field field.now }
{
    let (number, count) = leading_hexadecimal(field);
    whole_number(number, count, field)
}

/// The hexadecimal number of a text that is one field.
#[inline(always)]
pub fn last_hexadecimal(text: &[u8]) -> Option<u64>
    ensures { result ≡ last_number 16 (fields_of text.now) }
{
    hexadecimal(text)
}

/// The hexadecimal number of the first field, and what stands after its space. `None`: it is no
/// number, or no field comes after it.
#[inline(always)]
pub fn next_hexadecimal(text: &[u8]) -> Option<(u64, &[u8])>
    ensures { MatchOption result (next_number 16 (fields_of text.now) ≡ None)
        (λ next. next_number 16 (fields_of text.now) ≡ Some (next.0, fields_of next.1.now)) }
{
    let (number, count) = leading_hexadecimal(text);
    number_and_rest(number, count, text)
}

/// A hexadecimal number, or `-` for none.
#[inline(always)]
fn optional(field: &[u8]) -> Option<Option<u64>>
    ensures { result ≡ optional_field field.now }
{
    if field == b"-".as_slice() {
        return Some(None);
    }
    let number = hexadecimal(field)?;
    Some(Some(number))
}

/// The hexadecimal number of a text that is one field, or `-` for none.
#[inline(always)]
pub fn last_optional(text: &[u8]) -> Option<Option<u64>>
    ensures { result ≡ last_optional (fields_of text.now) }
{
    optional(text)
}

/// The hexadecimal number of the first field, or `-` for none, and what stands after its space.
#[inline(always)]
pub fn next_optional(text: &[u8]) -> Option<(Option<u64>, &[u8])>
    ensures { MatchOption result (next_optional (fields_of text.now) ≡ None)
        (λ next. next_optional (fields_of text.now) ≡ Some (next.0, fields_of next.1.now)) }
{
    if let Some(rest) = text.strip_prefix(b"- ".as_slice()) {
        return Some((None, rest));
    }
    let (number, rest) = next_hexadecimal(text)?;
    Some((Some(number), rest))
}

/// A decimal number below that of the harts, and what stands after its space.
#[inline(always)]
pub fn next_hart(harts: u8, text: &[u8]) -> Option<(u8, &[u8])>
    ensures { MatchOption result (next_hart harts (fields_of text.now) ≡ None)
        (λ next. next_hart harts (fields_of text.now) ≡ Some (next.0, fields_of next.1.now)) }
{
    let (number, count) = leading_number(10, text);
    let (hart, rest) = number_and_rest(number, count, text)?;
    if hart < u64::from(harts) {
        Some((hart as u8, rest))
    } else {
        None
    }
}
