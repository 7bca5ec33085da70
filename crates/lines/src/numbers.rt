//! Numbers as text.
ghost use Rattle.std.specs.Prelude.{◌≡◌, ◌≤◌, ◌<◌, ◌++◌, IsUtf8, OnOk, drop, false, string_bytes};
ghost use Rattle.std.specs.Fmt.{decimal, digit_glyph, digits};

use itoa::Buffer;
use std::alloc::AllocError;
use std::str::from_utf8;

/// As many hexadecimal digits as a number of 64 bits has at most.
pub(crate) const MOST_DIGITS: usize = 16;

/// The hexadecimal digit of a number below 16.
#[inline(always)]
fn digit(n: u64) -> u8
    requires { n < 16 }
    ensures { result ≡ digit_glyph false n }
{
    let n = n as u8;
    if n < 10 { b'0' + n } else { b'a' + (n - 10) }
}

/// Writes the digits to the end of the buffer, and returns where they begin.
pub(crate) fn write_hexadecimal(n: u64, buffer: &mut [u8; MOST_DIGITS]) -> usize
    ensures start { result ≤ 16 }
    ensures digits { drop result buffer.new ≡ digits 16 false n }
    ensures text { IsUtf8 (digits 16 false n) }
{
    let mut at = MOST_DIGITS;
    let mut rest = n;
    loop {
        at -= 1;
        buffer[at] = digit(rest % 16);
        rest /= 16;
        if rest == 0 {
            return at;
        }
    }
}

/// Adds a number in hexadecimal, without a prefix.
pub fn push_hexadecimal(text: &mut String, n: u64) -> Result<(), AllocError>
    ensures ok { OnOk result (string_bytes text.new ≡ string_bytes text.old ++ digits 16 false n) }
{
    let mut buffer = [0; MOST_DIGITS];
    let start = write_hexadecimal(n, &mut buffer);
    match from_utf8(&buffer[start..]) {
        Ok(digits) => text.push_str(digits),
        Err(_) => unreachable!(),
    }
}

/// Adds a number in decimal.
pub fn push_decimal(text: &mut String, n: usize) -> Result<(), AllocError>
    ensures ok { OnOk result (string_bytes text.new ≡ string_bytes text.old ++ decimal n) }
{
    text.push_str(Buffer::new().format(n))
}
