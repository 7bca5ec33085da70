//! Numbers as text.

use std::alloc::AllocError;

/// Adds a number of lower-case hexadecimal digits.
pub fn push_hexadecimal(text: &mut Vec<u8>, number: u64) -> Result<(), AllocError> {
    for place in 0..16_u32 {
        let rest = number >> (60 - place * 4);
        if rest > 0 || place == 15 {
            let digit = (rest & 15) as u8;
            text.push(if digit < 10 {
                b'0' + digit
            } else {
                b'a' - 10 + digit
            })?;
        }
    }
    Ok(())
}

/// Adds a number of decimal digits, of which it has at most eight.
pub fn push_decimal(text: &mut Vec<u8>, number: u64) -> Result<(), AllocError> {
    let mut unit: u64 = 10_000_000;
    for _ in 0..8_u8 {
        if number >= unit || unit <= 1 {
            text.push(b'0' + (number / unit.max(1) % 10) as u8)?;
        }
        unit = unit / 10;
    }
    Ok(())
}
