//! The line of a record.
ghost use Rattle.std.specs.Prelude.{◌≡◌, ◌∷◌, [], ◌++◌, OnOk, codes};
ghost use Rattle.std.specs.Fmt.{decimal, digits};
ghost use Rattle.std.specs.List.{join_with_byte};
ghost use Rattle.watch_report.specs.RecordLines.{note_text, optional_text, record_text, satp_word, range_size, range_start};
ghost use Rattle.watch_report.specs.Warnings.{hexadecimal};

use crate::push::{push, push_decimal, push_hexadecimal, push_number};
use crate::record::satp_mode;
use pte::{PPN_BITS, PPN_LIMIT, Scheme};
use std::alloc::AllocError;
use watch::{AddressRange, Claim, Frames, Record, RemoteFence, Space};

/// What satp holds for a space.
fn satp_word(scheme: Scheme, space: Option<Space>) -> u64
    ensures { result ≡ satp_word scheme space }
{
    match space {
        None => 0,
        Some(space) => {
            (satp_mode(scheme) << 60) + (u64::from(space.asid) << PPN_BITS) + space.root % PPN_LIMIT
        }
    }
}

fn range_start(range: Option<AddressRange>) -> u64
    ensures { result ≡ range_start range }
{
    match range {
        None => 0,
        Some(range) => range.start,
    }
}

fn range_size(range: Option<AddressRange>) -> u64
    ensures { result ≡ range_size range }
{
    match range {
        None => u64::MAX,
        Some(range) => range.size,
    }
}

/// Adds a space, and a number or `-` for none.
fn push_optional(text: &mut Vec<u8>, n: Option<u64>) -> Result<(), AllocError>
    ensures ok { OnOk result (text.new.items ≡ text.old.items ++ codes " " ++ optional_text n) }
{
    push(text, b" ")?;
    match n {
        None => push(text, b"-"),
        Some(n) => push_hexadecimal(text, n),
    }
}

/// Adds the letter and the hart.
fn push_opening(text: &mut Vec<u8>, letter: &[u8], hart: u8) -> Result<(), AllocError>
    ensures ok { OnOk result (text.new.items ≡ text.old.items ++ letter.now ++ codes " "
        ++ decimal hart) }
{
    push(text, letter)?;
    push(text, b" ")?;
    push_decimal(text, u64::from(hart))
}

/// Adds a record of one number.
#[tactic(auto, using(crate::proofs::Spaced::three_fields))]
fn push_one(text: &mut Vec<u8>, letter: &[u8], hart: u8, n: u64) -> Result<(), AllocError>
    ensures ok { OnOk result (text.new.items ≡ text.old.items
        ++ join_with_byte 32 (letter.now ∷ decimal hart ∷ hexadecimal n ∷ [])) }
{
    push_opening(text, letter, hart)?;
    push_number(text, b" ", n)
}

/// Adds a record of two numbers.
#[tactic(auto, using(crate::proofs::Spaced::four_fields))]
fn push_two(text: &mut Vec<u8>, letter: &[u8], hart: u8, m: u64, n: u64) -> Result<(), AllocError>
    ensures ok { OnOk result (text.new.items ≡ text.old.items
        ++ join_with_byte 32 (letter.now ∷ decimal hart ∷ hexadecimal m ∷ hexadecimal n ∷ [])) }
{
    push_opening(text, letter, hart)?;
    push_number(text, b" ", m)?;
    push_number(text, b" ", n)
}

#[tactic(auto, using(crate::proofs::Spaced::four_fields))]
fn push_fence(
    text: &mut Vec<u8>,
    hart: u8,
    rs1: Option<u64>,
    rs2: Option<u64>,
) -> Result<(), AllocError>
    ensures ok { OnOk result (text.new.items ≡ text.old.items
        ++ join_with_byte 32 (codes "f" ∷ decimal hart ∷ optional_text rs1 ∷ optional_text rs2
        ∷ [])) }
{
    push_opening(text, b"f", hart)?;
    push_optional(text, rs1)?;
    push_optional(text, rs2)
}

fn wide(asid: Option<u16>) -> Option<u64>
    ensures { result ≡ asid }
{
    match asid {
        None => None,
        Some(asid) => Some(u64::from(asid)),
    }
}

/// Adds a space, the start, a space and the size.
fn push_range(text: &mut Vec<u8>, range: Option<AddressRange>) -> Result<(), AllocError>
    ensures ok { OnOk result (text.new.items ≡ text.old.items ++ codes " "
        ++ hexadecimal (range_start range) ++ codes " " ++ hexadecimal (range_size range)) }
{
    push_number(text, b" ", range_start(range))?;
    push_number(text, b" ", range_size(range))
}

#[tactic(auto, using(crate::proofs::Spaced::seven_fields))]
fn push_remote_begin(
    text: &mut Vec<u8>,
    hart: u8,
    token: u64,
    fence: RemoteFence,
) -> Result<(), AllocError>
    ensures ok { OnOk result (text.new.items ≡ text.old.items
        ++ join_with_byte 32 (codes "r" ∷ decimal hart ∷ hexadecimal token
        ∷ hexadecimal fence.harts ∷ hexadecimal (range_start fence.range)
        ∷ hexadecimal (range_size fence.range) ∷ optional_text fence.asid ∷ [])) }
{
    push_opening(text, b"r", hart)?;
    push_number(text, b" ", token)?;
    push_number(text, b" ", fence.harts)?;
    push_range(text, fence.range)?;
    push_optional(text, wide(fence.asid))
}

#[tactic(auto, using(crate::proofs::Spaced::six_fields))]
fn push_claim_begin(
    text: &mut Vec<u8>,
    hart: u8,
    token: u64,
    claim: Claim,
) -> Result<(), AllocError>
    ensures ok { OnOk result (text.new.items ≡ text.old.items
        ++ join_with_byte 32 (codes "c" ∷ decimal hart ∷ hexadecimal token
        ∷ optional_text claim.root ∷ hexadecimal (range_start claim.range)
        ∷ hexadecimal (range_size claim.range) ∷ [])) }
{
    push_opening(text, b"c", hart)?;
    push_number(text, b" ", token)?;
    push_optional(text, claim.root)?;
    push_range(text, claim.range)
}

fn push_frames(
    text: &mut Vec<u8>,
    letter: &[u8],
    hart: u8,
    frames: Frames,
) -> Result<(), AllocError>
    ensures ok { OnOk result (text.new.items ≡ text.old.items
        ++ join_with_byte 32 (letter.now ∷ decimal hart ∷ hexadecimal frames.first
        ∷ hexadecimal frames.count ∷ [])) }
{
    push_two(text, letter, hart, frames.first, frames.count)
}

/// Adds the fields of a record.
fn push_fields(text: &mut Vec<u8>, scheme: Scheme, record: Record) -> Result<(), AllocError>
    ensures ok { OnOk result (text.new.items ≡ text.old.items ++ record_text scheme «record») }
{
    match record {
        Record::Store {
            hart,
            address,
            word,
        } => push_two(text, b"w", hart, address, word),
        Record::Satp { hart, space } => push_one(text, b"s", hart, satp_word(scheme, space)),
        Record::Fence { hart, rs1, rs2 } => push_fence(text, hart, rs1, rs2),
        Record::RemoteBegin { hart, token, fence } => push_remote_begin(text, hart, token, fence),
        Record::RemoteEnd { hart, token } => push_one(text, b"e", hart, token),
        Record::GiveOut { hart, frames } => push_frames(text, b"a", hart, frames),
        Record::GiveBack { hart, frames } => push_frames(text, b"z", hart, frames),
        Record::ClaimBegin { hart, token, claim } => push_claim_begin(text, hart, token, claim),
        Record::ClaimEnd { hart, token } => push_one(text, b"d", hart, token),
        Record::Use { hart, address } => push_one(text, b"u", hart, address),
    }
}

fn push_note(text: &mut Vec<u8>, by: &[u8]) -> Result<(), AllocError>
    ensures ok { OnOk result (text.new.items ≡ text.old.items ++ note_text by.now) }
{
    if by.is_empty() {
        return Ok(());
    }
    push(text, b" @")?;
    push(text, by)
}

/// Adds a record, with its note, without the end of its line.
pub(crate) fn push_noted(
    text: &mut Vec<u8>,
    scheme: Scheme,
    record: Record,
    by: &[u8],
) -> Result<(), AllocError>
    ensures ok { OnOk result (text.new.items ≡ text.old.items ++ record_text scheme «record»
        ++ note_text by.now) }
{
    push_fields(text, scheme, record)?;
    push_note(text, by)
}

/// Adds the line of a record, with a note, empty for none, that has no end of a line in it.
/// `AllocError`: there was no room; the part of the line that had room stays.
pub fn push_record(
    text: &mut Vec<u8>,
    scheme: Scheme,
    record: Record,
    by: &[u8],
) -> Result<(), AllocError>
    ensures ok { OnOk result (text.new.items ≡ text.old.items ++ record_text scheme «record»
        ++ note_text by.now ++ codes "\n") }
{
    push_noted(text, scheme, record, by)?;
    push(text, b"\n")
}
