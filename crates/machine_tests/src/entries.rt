//! Entries: tables worked by hand from the bits, fields and rules of the RISC-V privileged manual,
//! chapter 4.

use crate::common::{
    SUPER, SUPER_BOTH, SUPER_MXR, SUPER_SUM, USER, USER_MXR, USER_SUM, assert_row, flags,
};
use pte::{Access, Ctx, Kind, LeafFault, Pte, access_cause, allowed, page_cause};
use std::process::Abort;

/// Each word has this meaning.
fn are_kinds(rt: &impl Abort, rows: &[(u64, Kind)]) {
    for (number, (word, kind)) in rows.iter().enumerate() {
        assert_row(rt, number, Pte(*word).kind() == *kind);
    }
}

const NO_MEANING: [(u64, Kind); 18] = [
    (0, Kind::Invalid),
    (0x4, Kind::Invalid),
    (0x10, Kind::Invalid),
    (0xE, Kind::Invalid),
    (0x20_0000_0000_0000, Kind::Invalid),
    (u64::MAX - 1, Kind::Invalid),
    (0x5, Kind::Reserved),
    (0xD, Kind::Reserved),
    (0x48D_14D5, Kind::Reserved),
    (0x48D_14DD, Kind::Reserved),
    (0x11, Kind::Reserved),
    (0x41, Kind::Reserved),
    (0x81, Kind::Reserved),
    (0x31, Kind::Reserved),
    (0x61, Kind::Reserved),
    (0xA1, Kind::Reserved),
    (0xD1, Kind::Reserved),
    (0x2000_0481, Kind::Reserved),
];

/// V clear is invalid, whatever else is set; then a W without R is reserved, and a pointer with U,
/// A or D.
#[test]
fn words_of_no_meaning(rt: HostRuntime) {
    are_kinds(&rt, &NO_MEANING);
}

/// Each of bits 63 to 54 is reserved where V is set, and counts for nothing where it is clear.
#[test]
fn high_bits(rt: HostRuntime) {
    for bit in 54..64_u32 {
        let high = 1_u64 << bit;
        let leaf = (high | 0x48D_14D7, Kind::Reserved);
        let pointer = (high | 0x2000_0401, Kind::Reserved);
        let not_valid = (high | 0x48D_14D6, Kind::Invalid);
        are_kinds(&rt, &[leaf, pointer, not_valid]);
    }
}

const POINTERS: [(u64, u64, bool); 5] = [
    (0x1, 0, false),
    (0x21, 0, true),
    (0x2000_0401, 0x8_0001, false),
    (0x2000_0701, 0x8_0001, false),
    (0x3F_FFFF_FFFF_FC21, 0xFFF_FFFF_FFFF, true),
];

const LEAVES: [(u64, u64, u8); 9] = [
    (0x3, 0, 0x02),
    (0x7, 0, 0x06),
    (0x9, 0, 0x08),
    (0xB, 0, 0x0A),
    (0xF, 0, 0x0E),
    (0x48D_14D7, 0x1_2345, 0xD6),
    (0x48D_17D7, 0x1_2345, 0xD6),
    (0x48D_1529, 0x1_2345, 0x28),
    (0x3F_FFFF_FFFF_FCFF, 0xFFF_FFFF_FFFF, 0xFE),
];

fn pointer(ppn: u64, global: bool) -> Kind {
    Kind::Table { ppn, global }
}

fn leaf(ppn: u64, bits: u8) -> Kind {
    Kind::Leaf {
        ppn,
        flags: flags(bits),
    }
}

/// PPNs from bit 10 on, of 44 bits, and flags from bit 1 on; RSW, bits 9 and 8, counts for nothing.
#[test]
fn words_with_a_meaning(rt: HostRuntime) {
    for (number, (word, ppn, global)) in POINTERS.iter().enumerate() {
        assert_row(&rt, number, Pte(*word).kind() == pointer(*ppn, *global));
    }
    for (number, (word, ppn, bits)) in LEAVES.iter().enumerate() {
        assert_row(&rt, number, Pte(*word).kind() == leaf(*ppn, *bits));
    }
}

/// What is seen of flags: whether there are R, W, X, U, G, A and D.
fn seen(bits: u8) -> [bool; 7] {
    let given = flags(bits);
    [
        given.may_read(),
        given.may_write(),
        given.may_execute(),
        given.is_user(),
        given.is_global(),
        given.is_accessed(),
        given.is_dirty(),
    ]
}

const BITS: [(u8, [bool; 7]); 7] = [
    (0x02, [true, false, false, false, false, false, false]),
    (0x04, [false, true, false, false, false, false, false]),
    (0x08, [false, false, true, false, false, false, false]),
    (0x10, [false, false, false, true, false, false, false]),
    (0x20, [false, false, false, false, true, false, false]),
    (0x40, [false, false, false, false, false, true, false]),
    (0x80, [false, false, false, false, false, false, true]),
];

#[test]
fn flags_by_their_bits(rt: HostRuntime) {
    for (number, (bits, want)) in BITS.iter().enumerate() {
        assert_row(&rt, number, seen(*bits) == *want);
    }
}

fn is_made(ppn: u64, bits: u8, made: Result<u64, LeafFault>) -> bool {
    match (Pte::leaf(ppn, flags(bits)), made) {
        (Ok(entry), Ok(word)) => entry == Pte(word),
        (Err(fault), Err(why)) => fault == why,
        _ => false,
    }
}

/// A PPN, flags, and the word of the leaf with these, or why there is none.
const MADE: [(u64, u8, Result<u64, LeafFault>); 12] = [
    (0x100, 0xD2, Ok(0x4_00D3)),
    (0x300, 0xE6, Ok(0xC_00E7)),
    (0x100, 0x08, Ok(0x4_0009)),
    (0x100, 0x58, Ok(0x4_0059)),
    (0xFFF_FFFF_FFFF, 0xFE, Ok(0x3F_FFFF_FFFF_FCFF)),
    (0x100, 0x00, Err(LeafFault::BadFlags)),
    (0x100, 0xF0, Err(LeafFault::BadFlags)),
    (0x100, 0x04, Err(LeafFault::BadFlags)),
    (0x100, 0x0C, Err(LeafFault::BadFlags)),
    (1 << 44, 0x02, Err(LeafFault::PpnTooLarge)),
    (u64::MAX, 0x02, Err(LeafFault::PpnTooLarge)),
    (1 << 44, 0x04, Err(LeafFault::BadFlags)),
];

#[test]
fn entries_that_are_made(rt: HostRuntime) {
    assert!(rt; Pte::table(0x8_0002, false) == Pte(0x2000_0801));
    assert!(rt; Pte::table(0x8_0000, true) == Pte(0x2000_0021));
    for (number, (ppn, bits, made)) in MADE.iter().enumerate() {
        assert_row(&rt, number, is_made(*ppn, *bits, *made));
    }
}

/// Flags, a context, and whether a fetch, a load and a store are allowed.
type Permitted = (u8, Ctx, [bool; 3]);

fn are_permitted(rt: &impl Abort, rows: &[Permitted]) {
    for (number, (bits, ctx, want)) in rows.iter().enumerate() {
        let flags = flags(*bits);
        let given = [
            allowed(flags, Access::Fetch, *ctx),
            allowed(flags, Access::Load, *ctx),
            allowed(flags, Access::Store, *ctx),
        ];
        assert_row(rt, number, given == *want);
    }
}

const OF_USER_MODE: [Permitted; 10] = [
    (0x1E, USER, [true, true, true]),
    (0x0E, USER, [false, false, false]),
    (0x0E, USER_SUM, [false, false, false]),
    (0x1E, USER_SUM, [true, true, true]),
    (0x12, USER, [false, true, false]),
    (0x16, USER, [false, true, true]),
    (0x18, USER, [true, false, false]),
    (0x12, USER_MXR, [false, true, false]),
    (0x18, USER_MXR, [true, true, false]),
    (0x08, USER_MXR, [false, false, false]),
];

/// U-mode needs U, whatever SUM says; MXR adds loads where X is.
#[test]
fn permissions_of_user_mode(rt: HostRuntime) {
    are_permitted(&rt, &OF_USER_MODE);
    assert!(rt; Ctx::user() == USER);
}

const OF_SUPERVISOR_MODE: [Permitted; 12] = [
    (0x0E, SUPER, [true, true, true]),
    (0x0E, SUPER_SUM, [true, true, true]),
    (0x1E, SUPER, [false, false, false]),
    (0x1E, SUPER_SUM, [false, true, true]),
    (0x1E, SUPER_MXR, [false, false, false]),
    (0x18, SUPER_SUM, [false, false, false]),
    (0x18, SUPER_BOTH, [false, true, false]),
    (0x02, SUPER, [false, true, false]),
    (0x02, SUPER_MXR, [false, true, false]),
    (0x08, SUPER, [true, false, false]),
    (0x08, SUPER_MXR, [true, true, false]),
    (0x06, SUPER, [false, true, true]),
];

/// S-mode needs U clear, or SUM for a load or a store; no fetch from a page with U.
#[test]
fn permissions_of_supervisor_mode(rt: HostRuntime) {
    are_permitted(&rt, &OF_SUPERVISOR_MODE);
    assert!(rt; Ctx::supervisor() == SUPER);
}

fn has_causes(access: Access, page: u8, outside: u8) -> bool {
    page_cause(access) == page && access_cause(access) == outside
}

#[test]
fn exception_codes(rt: HostRuntime) {
    assert_row(&rt, 0, has_causes(Access::Fetch, 12, 1));
    assert_row(&rt, 1, has_causes(Access::Load, 13, 5));
    assert_row(&rt, 2, has_causes(Access::Store, 15, 7));
}
