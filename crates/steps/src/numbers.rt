//! Numbers in texts.
ghost use Rattle.std.specs.Prelude.{◌≡◌, ◌≤◌, ◌<◌, ◌+◌, ◌*◌, ◌^◌, min};
ghost use Rattle.std.specs.Char.{digit_value};
ghost use Rattle.std.specs.Option.{SomeIff};
ghost use Rattle.steps.specs.Num.{digits_of, num_of};

/// The longest hexadecimal numeral.
const MOST_HEX_DIGITS: usize = 16;

/// The longest decimal numeral.
const MOST_DIGITS: usize = 20;

/// What is no digit has this value.
const NO_DIGIT: u8 = 16;

/// The number that a word writes: `0x` and 1 to 16 hexadecimal digits, or 1 to 20 decimal digits of
/// a value below 2^64.
pub fn num(word: &[u8]) -> Option<u64>
    ensures { result ≡ num_of word.now }
{
    match word.strip_prefix(b"0x".as_slice()) {
        Some(digits) => short_number(digits, 16, MOST_HEX_DIGITS),
        None => decimal(word),
    }
}

/// The number that 1 to 20 decimal digits write, if it fits.
#[inline(always)]
#[tactic(auto, using(crate::proofs::NumLemmas::one_digit_less))]
fn decimal(digits: &[u8]) -> Option<u64>
    ensures { result ≡ digits_of 10 20 digits.now }
{
    if digits.len() < MOST_DIGITS {
        short_number(digits, 10, MOST_DIGITS - 1)
    } else {
        number(digits, 10, MOST_DIGITS)
    }
}

/// The value of a digit up to `f`.
#[inline(always)]
fn digit(byte: u8) -> u8
    ensures { result ≡ min (digit_value byte) 16 }
{
    if b'0' <= byte && byte <= b'9' {
        byte - b'0'
    } else if b'a' <= byte && byte <= b'f' {
        byte - b'a' + 10
    } else if b'A' <= byte && byte <= b'F' {
        byte - b'A' + 10
    } else {
        NO_DIGIT
    }
}

/// The number that 1 to `longest` digits write, where each such number fits.
#[inline(always)]
fn short_number(digits: &[u8], radix: u32, longest: usize) -> Option<u64>
    requires low { 2 ≤ radix }
    requires high { radix ≤ 16 }
    requires fits { radix ^ longest ≤ 2 ^ 64 }
    ensures { result ≡ digits_of radix longest digits.now }
{
    if digits.is_empty() || digits.len() > longest {
        return None;
    }
    let mut number = 0;
    for byte in digits {
        let digit = digit(*byte);
        if u32::from(digit) >= radix {
            return None;
        }
        number = number * u64::from(radix) + u64::from(digit);
    }
    Some(number)
}

/// The number that 1 to `longest` digits write, if it fits.
fn number(digits: &[u8], radix: u32, longest: usize) -> Option<u64>
    requires low { 2 ≤ radix }
    requires high { radix ≤ 36 }
    ensures { result ≡ digits_of radix longest digits.now }
{
    if digits.is_empty() || digits.len() > longest {
        return None;
    }
    let mut number = 0;
    for digit in digits {
        number = with_digit(number, *digit, radix)?;
    }
    Some(number)
}

/// The number with one digit more, if it is a digit and the number fits.
#[inline(always)]
fn with_digit(number: u64, digit: u8, radix: u32) -> Option<u64>
    requires low { 2 ≤ radix }
    requires high { radix ≤ 36 }
    ensures { SomeIff result ((digit_value digit < radix)
        × (number * radix + digit_value digit < 2 ^ 64)) (number * radix + digit_value digit) }
{
    let digit = char::from(digit).to_digit(radix)?;
    number
        .checked_mul(u64::from(radix))?
        .checked_add(u64::from(digit))
}
