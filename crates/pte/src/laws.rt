//! Laws of the numbers: each function does nothing, and its contract is the law.

ghost use Rattle.std.specs.Prelude.{ℕ, ◌≡◌, ◌+◌, ◌*◌, ◌^◌, ◌≤◌, ◌↔◌, IsTrue};
ghost use Rattle.pte.specs.declared.scheme.Scheme.{Scheme};
ghost use Rattle.pte.specs.declared.address.PageSize.TheVariants.{Kib4};
ghost use Rattle.pte.specs.Address.{Holds, IsCanonical, IsPage, IsPageOf, Overlap, Span};
ghost use Rattle.pte.specs.Address.{address_bits, bytes_of, level_count, top_level, widest};
ghost use Rattle.pte.specs.Address.{fits, holds, is_canonical, overlaps};

use crate::ASID_BITS;
use crate::address::{PAGE_BYTES, TABLE_LENGTH};
use crate::entry::{PPN_BITS, PPN_LIMIT};
use crate::scheme::{LEVEL_BITS, OFFSET_BITS, SV39_LEVELS, SV48_LEVELS};

/// The constants, from which the definitions have their numbers, are the manual's: LEVELS and the
/// fields of an address (4.4.1 and 4.5.1), PAGESIZE, and the bits of a PPN and of an ASID.
pub fn constants_are_the_manuals()
    ensures sv39 { SV39_LEVELS ≡ 3 }
    ensures sv48 { SV48_LEVELS ≡ 4 }
    ensures level { LEVEL_BITS ≡ 9 }
    ensures offset { OFFSET_BITS ≡ 12 }
    ensures table { TABLE_LENGTH ≡ 512 }
    ensures page { PAGE_BYTES ≡ 4096 }
    ensures bytes { PAGE_BYTES ≡ bytes_of Kib4 }
    ensures ppn { PPN_BITS ≡ 44 }
    ensures ppn_limit { PPN_LIMIT ≡ 2 ^ PPN_BITS }
    ensures asid { ASID_BITS ≡ 16 }
{}

/// The schemes differ in their number of levels alone, and each address and level of a scheme is
/// one of the widest.
#[tactic(auto, using(crate::proofs::Schemes::in_widest))]
pub fn schemes_differ_in_their_levels()
    ensures bits { (scheme : Scheme) → address_bits scheme ≡ 12 + 9 * level_count scheme }
    ensures levels { (scheme : Scheme) → top_level scheme ≤ top_level widest }
    ensures addresses { (scheme : Scheme) (va : ℕ) → IsCanonical scheme va → IsCanonical widest va }
    ensures pages { (scheme : Scheme) (page : Span) → IsPageOf scheme page → IsPage page }
{}

/// Each test of an address or of a page is the fact that stands beside it.
#[tactic(auto, using(crate::proofs::Tests::tests))]
pub fn tests_are_facts()
    ensures canonical { (scheme : Scheme) (va : ℕ)
        → IsTrue (is_canonical scheme va) ↔ IsCanonical scheme va }
    ensures fits { (scheme : Scheme) (page : Span)
        → IsPage page → IsTrue (fits scheme page) ↔ IsPageOf scheme page }
    ensures holds { (page : Span) (va : ℕ) → IsTrue (holds page va) ↔ Holds page va }
    ensures overlaps { (a b : Span) → IsTrue (overlaps a b) ↔ Overlap a b }
{}
