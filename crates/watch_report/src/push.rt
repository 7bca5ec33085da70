//! Numbers and words that are added to a line.
ghost use Rattle.std.specs.Prelude.{◌≡◌, ◌≤◌, ◌<◌, ◌++◌, OnOk, drop, false};
ghost use Rattle.std.specs.Fmt.{decimal, digit_glyph, digits};

use itoa::Buffer;
use std::alloc::AllocError;

/// As many hexadecimal digits as a number of 64 bits has at most.
const MOST_DIGITS: usize = 16;

/// The hexadecimal digit of a number below 16.
#[inline(always)]
pub(crate) fn digit(n: u64) -> u8
    requires { n < 16 }
    ensures { result ≡ digit_glyph false n }
{
    let n = n as u8;
    if n < 10 { b'0' + n } else { b'a' + (n - 10) }
}

/// Writes the digits to the end of the buffer, and returns where they begin.
fn write_hexadecimal(n: u64, buffer: &mut [u8; MOST_DIGITS]) -> usize
    ensures start { result ≤ 16 }
    ensures digits { drop result buffer.new ≡ digits 16 false n }
{
    let mut at = MOST_DIGITS;
    let mut rest = n;
    loop {
        at -= 1;
        buffer[at] = digit(rest % 16);
        rest /= 16;
        if rest == 0 {
            return at;
        }
    }
}

/// Adds a number in hexadecimal, without a prefix.
pub fn push_hexadecimal(text: &mut Vec<u8>, n: u64) -> Result<(), AllocError>
    ensures ok { OnOk result (text.new.items ≡ text.old.items ++ digits 16 false n) }
{
    let mut buffer = [0; MOST_DIGITS];
    let start = write_hexadecimal(n, &mut buffer);
    text.extend_from_slice(&buffer[start..])
}

/// Adds a number in decimal.
pub fn push_decimal(text: &mut Vec<u8>, n: u64) -> Result<(), AllocError>
    ensures ok { OnOk result (text.new.items ≡ text.old.items ++ decimal n) }
{
    text.extend_from_slice(Buffer::new().format(n).as_bytes())
}

/// Adds a number in decimal that may have more than 64 bits.
pub fn push_wide_decimal(text: &mut Vec<u8>, n: u128) -> Result<(), AllocError>
    ensures ok { OnOk result (text.new.items ≡ text.old.items ++ decimal n) }
{
    text.extend_from_slice(Buffer::new().format(n).as_bytes())
}

/// Adds these bytes.
pub fn push(text: &mut Vec<u8>, bytes: &[u8]) -> Result<(), AllocError>
    ensures ok { OnOk result (text.new.items ≡ text.old.items ++ bytes.now) }
{
    text.extend_from_slice(bytes)
}

/// Adds these bytes, and then a number in hexadecimal.
pub fn push_number(text: &mut Vec<u8>, bytes: &[u8], n: u64) -> Result<(), AllocError>
    ensures ok { OnOk result (text.new.items ≡ text.old.items ++ bytes.now ++ digits 16 false n) }
{
    push(text, bytes)?;
    push_hexadecimal(text, n)
}
