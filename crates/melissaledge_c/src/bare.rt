//! What MODE of satp chooses.

ghost use Rattle.std.specs.Prelude.{◌≡◌};
ghost use Rattle.melissaledge_c.specs.Translations.{bare_answer, bare_status, is_beyond, translation_of};

use crate::codes::scheme_of;
use crate::translations::Answer;
use pte::{Access, PAGE_BYTES, PPN_LIMIT, Scheme};
use walk::Trap;

/// How addresses are translated.
#[derive(Clone, Copy, PartialEq, Eq)]
pub(crate) enum Translation {
    /// Not at all.
    Bare,
    /// By the tables of a scheme.
    Paged(Scheme),
}

/// The translation of a number: that of MODE in satp (privileged manual 4.1.11).
pub(crate) fn translation_of(code: u32) -> Option<Translation>
    ensures { result ≡ translation_of code }
{
    if code == 0 {
        return Some(Translation::Bare);
    }
    match scheme_of(code) {
        Some(scheme) => Some(Translation::Paged(scheme)),
        None => None,
    }
}

/// Whether an address has more than the 56 bits of a physical address.
fn is_beyond(va: u64) -> bool
    ensures { result ≡ is_beyond va }
{
    va / PAGE_BYTES >= PPN_LIMIT
}

/// What an access answers where MODE is Bare: its address, or an access fault if that has more than
/// 56 bits.
pub(crate) fn bare_answer(va: u64, access: Access) -> Answer
    ensures { result ≡ bare_answer va access }
{
    if is_beyond(va) {
        return Answer::trap(&Trap::outside(access));
    }
    let ppn = va / PAGE_BYTES;
    Answer {
        pa: va,
        page_base: ppn * PAGE_BYTES,
        page_bytes: PAGE_BYTES,
        ppn,
        flags: 0,
        global: 0,
        cause: 0,
        why: 0,
    }
}

/// The number of what is answered so: 0 for an address, 1 for an access fault.
pub(crate) fn bare_status(va: u64) -> i32
    ensures { result ≡ bare_status va }
{
    if is_beyond(va) { 1 } else { 0 }
}
