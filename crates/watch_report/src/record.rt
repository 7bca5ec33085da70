//! The records that fields write, after their letter and their hart.
ghost use Rattle.std.specs.Prelude.{◌≡◌};
ghost use Rattle.watch_report.specs.Fields.{fields_of};
ghost use Rattle.watch_report.specs.ReadRecords.{last_asid, read_claim_begin, read_fence, read_frames, read_give_back, read_give_out, read_record, read_remote_begin, read_satp_write, read_store};
ghost use Rattle.watch_report.specs.Records.{claim_end_in, claim_range, fence_range, remote_end_in, satp_mode, satp_in, use_in};

use crate::numbers::{last_hexadecimal, last_optional, next_hexadecimal, next_optional};
use pte::{ASID_BITS, PPN_BITS, PPN_LIMIT, Scheme};
use watch::{AddressRange, Claim, Frames, Record, RemoteFence, Space};

/// The lowest bit of MODE in satp (privileged manual 4.1.11).
pub(crate) const MODE_SHIFT: u32 = 60;

/// How many ASIDs there are.
pub(crate) const ASIDS: u64 = 1 << ASID_BITS;

/// MODE of satp for a scheme (privileged manual 4.1.11).
pub fn satp_mode(scheme: Scheme) -> u64
    ensures { result ≡ satp_mode scheme }
{
    match scheme {
        Scheme::Sv39 => 8,
        Scheme::Sv48 => 9,
    }
}

/// What is written to satp. `None`: its mode is neither Bare nor that of the scheme.
pub(crate) fn satp_space(scheme: Scheme, satp: u64) -> Option<Option<Space>>
    ensures { result ≡ satp_in scheme satp }
{
    if satp >> MODE_SHIFT == 0 {
        return Some(None);
    }
    if satp >> MODE_SHIFT == satp_mode(scheme) {
        let root = satp % PPN_LIMIT;
        let asid = ((satp >> PPN_BITS) % ASIDS) as u16;
        Some(Some(Space { root, asid }))
    } else {
        None
    }
}

/// An ASID of 16 bits, or `-` for every ASID.
fn asid(text: &[u8]) -> Option<Option<u16>>
    ensures { result ≡ last_asid (fields_of text.now) }
{
    match last_optional(text)? {
        None => Some(None),
        Some(asid) => {
            if asid < ASIDS {
                Some(Some(asid as u16))
            } else {
                None
            }
        }
    }
}

/// The addresses of a remote fence; `None` for all (SBI, RFENCE extension).
fn fence_range(start: u64, size: u64) -> Option<AddressRange>
    ensures { result ≡ fence_range start size }
{
    if size == u64::MAX || (start == 0 && size == 0) {
        None
    } else {
        Some(AddressRange { start, size })
    }
}

/// The addresses of a claim; `None` for all.
fn claim_range(start: u64, size: u64) -> Option<AddressRange>
    ensures { result ≡ claim_range start size }
{
    if start == 0 && size == u64::MAX {
        None
    } else {
        Some(AddressRange { start, size })
    }
}

/// What stands after `w H`.
#[inline(always)]
fn store(hart: u8, text: &[u8]) -> Option<Record>
    ensures { result ≡ read_store hart (fields_of text.now) }
{
    let (address, rest) = next_hexadecimal(text)?;
    let word = last_hexadecimal(rest)?;
    if address % 8 == 0 {
        Some(Record::Store {
            hart,
            address,
            word,
        })
    } else {
        None
    }
}

/// What stands after `s H`.
#[inline(always)]
fn satp_write(scheme: Scheme, hart: u8, text: &[u8]) -> Option<Record>
    ensures { result ≡ read_satp_write scheme hart (fields_of text.now) }
{
    let satp = last_hexadecimal(text)?;
    let space = satp_space(scheme, satp)?;
    Some(Record::Satp { hart, space })
}

/// What stands after `f H`.
#[inline(always)]
fn fence(hart: u8, text: &[u8]) -> Option<Record>
    ensures { result ≡ read_fence hart (fields_of text.now) }
{
    let (rs1, rest) = next_optional(text)?;
    let rs2 = last_optional(rest)?;
    Some(Record::Fence { hart, rs1, rs2 })
}

/// What stands after `r H`.
#[inline(always)]
fn remote_begin(hart: u8, text: &[u8]) -> Option<Record>
    ensures { result ≡ read_remote_begin hart (fields_of text.now) }
{
    let (token, rest) = next_hexadecimal(text)?;
    let (harts, rest) = next_hexadecimal(rest)?;
    let (start, rest) = next_hexadecimal(rest)?;
    let (size, rest) = next_hexadecimal(rest)?;
    let asid = asid(rest)?;
    let range = fence_range(start, size);
    Some(Record::RemoteBegin {
        hart,
        token,
        fence: RemoteFence { harts, range, asid },
    })
}

/// What stands after `e H`.
#[inline(always)]
fn remote_end(hart: u8, text: &[u8]) -> Option<Record>
    ensures { result ≡ remote_end_in hart (fields_of text.now) }
{
    let token = last_hexadecimal(text)?;
    Some(Record::RemoteEnd { hart, token })
}

/// What stands after `a H` or `z H`.
#[inline(always)]
fn frames(text: &[u8]) -> Option<Frames>
    ensures { result ≡ read_frames (fields_of text.now) }
{
    let (first, rest) = next_hexadecimal(text)?;
    let count = last_hexadecimal(rest)?;
    Some(Frames { first, count })
}

/// What stands after `a H`.
#[inline(always)]
fn give_out(hart: u8, text: &[u8]) -> Option<Record>
    ensures { result ≡ read_give_out hart (fields_of text.now) }
{
    let frames = frames(text)?;
    Some(Record::GiveOut { hart, frames })
}

/// What stands after `z H`.
#[inline(always)]
fn give_back(hart: u8, text: &[u8]) -> Option<Record>
    ensures { result ≡ read_give_back hart (fields_of text.now) }
{
    let frames = frames(text)?;
    Some(Record::GiveBack { hart, frames })
}

/// What stands after `c H`.
#[inline(always)]
fn claim_begin(hart: u8, text: &[u8]) -> Option<Record>
    ensures { result ≡ read_claim_begin hart (fields_of text.now) }
{
    let (token, rest) = next_hexadecimal(text)?;
    let (root, rest) = next_optional(rest)?;
    let (start, rest) = next_hexadecimal(rest)?;
    let size = last_hexadecimal(rest)?;
    let range = claim_range(start, size);
    Some(Record::ClaimBegin {
        hart,
        token,
        claim: Claim { root, range },
    })
}

/// What stands after `d H`.
#[inline(always)]
fn claim_end(hart: u8, text: &[u8]) -> Option<Record>
    ensures { result ≡ claim_end_in hart (fields_of text.now) }
{
    let token = last_hexadecimal(text)?;
    Some(Record::ClaimEnd { hart, token })
}

/// What stands after `u H`.
#[inline(always)]
fn usage(hart: u8, text: &[u8]) -> Option<Record>
    ensures { result ≡ use_in hart (fields_of text.now) }
{
    let address = last_hexadecimal(text)?;
    Some(Record::Use { hart, address })
}

/// The record of a letter and a hart, with the text after them.
#[inline(always)]
pub fn read_record(scheme: Scheme, letter: u8, hart: u8, text: &[u8]) -> Option<Record>
    ensures { result ≡ read_record scheme letter hart (fields_of text.now) }
{
    if letter == b'w' {
        store(hart, text)
    } else if letter == b's' {
        satp_write(scheme, hart, text)
    } else if letter == b'f' {
        fence(hart, text)
    } else if letter == b'r' {
        remote_begin(hart, text)
    } else if letter == b'e' {
        remote_end(hart, text)
    } else if letter == b'a' {
        give_out(hart, text)
    } else if letter == b'z' {
        give_back(hart, text)
    } else if letter == b'c' {
        claim_begin(hart, text)
    } else if letter == b'd' {
        claim_end(hart, text)
    } else if letter == b'u' {
        usage(hart, text)
    } else {
        None
    }
}
