//! The place of a byte in a text, looked for in 16 bytes at once.
ghost use Rattle.std.specs.Prelude.{ℕ, ◌≡◌, ◌+◌, ◌<◌, ◌≤◌, ◌==◌, drop, false, length, slice_index, take, true};
ghost use Rattle.std.specs.List.{position_or_len};
ghost use Rattle.watch_report.specs.Bytes.{is_either};

use std::simd::prelude::*;

/// How many bytes a vector has.
const BLOCK: usize = 16;

/// How many bytes of a shorter text are looked at together.
const TOGETHER: usize = 8;

#[inline(always)]
fn is_either(a: u8, b: u8, byte: u8) -> bool
    ensures { result ≡ is_either a b byte }
{
    byte == a || byte == b
}

/// Whether none of the next eight bytes is `a` or `b`.
#[inline(always)]
fn none_of_eight(a: u8, b: u8, text: &[u8], at: usize) -> bool
    requires { at + 8 ≤ length text.now }
    ensures { result ≡ true → (k : ℕ) → at ≤ k → k < at + 8
        → is_either a b (slice_index text.now k) ≡ false }
{
    let some = is_either(a, b, text[at])
        | is_either(a, b, text[at + 1])
        | is_either(a, b, text[at + 2])
        | is_either(a, b, text[at + 3])
        | is_either(a, b, text[at + 4])
        | is_either(a, b, text[at + 5])
        | is_either(a, b, text[at + 6])
        | is_either(a, b, text[at + 7]);
    !some
}

/// How many of the 16 bytes from a place on stand before the first that is `a` or `b`, or 16.
#[inline(always)]
fn before_in_block(a: u8, b: u8, text: &[u8], at: usize) -> usize
    requires { at + 16 ≤ length text.now }
    ensures { result ≡ position_or_len (is_either a b) (take 16 (drop at text.now)) }
{
    let block = u8x16::from_slice(&text[at..]);
    let found = (block.simd_eq(u8x16::splat(a)) | block.simd_eq(u8x16::splat(b))).to_bitmask();
    if found == 0 {
        BLOCK
    } else {
        found.trailing_zeros() as usize
    }
}

/// The same as `first_of_two`, in a text that is too short for vectors.
#[inline(always)]
fn first_in_short(a: u8, b: u8, text: &[u8]) -> usize
    ensures { result ≡ position_or_len (is_either a b) text.now }
{
    let mut at = 0;
    'together: while TOGETHER <= text.len() - at && none_of_eight(a, b, text, at) {
        at += TOGETHER;
    }
    'single: while at < text.len() && !is_either(a, b, text[at]) {
        at += 1;
    }
    at
}

/// How many bytes stand before the first that is `a` or `b`, or at all.
///
/// The last block ends where the text does, and may begin within the one before.
#[inline(always)]
pub(crate) fn first_of_two(a: u8, b: u8, text: &[u8]) -> usize
    ensures { result ≡ position_or_len (is_either a b) text.now }
{
    if text.len() < BLOCK {
        return first_in_short(a, b, text);
    }
    let last = text.len() - BLOCK;
    let mut at = 0;
    'vectors: while at < last {
        let before = before_in_block(a, b, text, at);
        if before < BLOCK {
            return at + before;
        }
        at += BLOCK;
    }
    last + before_in_block(a, b, text, last)
}

/// How many bytes stand before the first that is `byte`, or at all.
#[inline(always)]
pub(crate) fn first_of(byte: u8, text: &[u8]) -> usize
    ensures { result ≡ position_or_len (λ other. other == byte) text.now }
{
    first_of_two(byte, byte, text)
}
