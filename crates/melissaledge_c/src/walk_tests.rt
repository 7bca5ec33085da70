//! A walk word by word, once on its way and with bad numbers; what an entry permits; and Bare.

use crate::requests::{AccessAsked, EntryGiven};
use crate::translations::{Answer, Tables, melissaledge_translate};
use crate::walks::{
    LeafGiven, WalkGiven, melissaledge_entry_permits, melissaledge_walk_begin,
    melissaledge_walk_no_word, melissaledge_walk_word,
};

/// A user's store to 0x8040_3abc.
const STORE: AccessAsked = AccessAsked {
    va: 0x8040_3abc,
    access: 2,
    mode: 0,
    sum: 0,
    mxr: 0,
};

/// The walk of that store under `Set` that waits for a word of the table at 0x8000_2000.
const LOW: WalkGiven = WalkGiven {
    pte_pa: 0x8000_2018,
    table_ppn: 0x8_0002,
    access: STORE,
    level: 0,
    global: 1,
    ad: 1,
};

/// Two pointers, the first with G, and a leaf with V, R, W and U.
#[test]
fn walk_is_made_word_by_word(rt: HostRuntime) {
    let mut walk = WalkGiven::default();
    let mut leaf = LeafGiven::default();
    assert!(rt; melissaledge_walk_begin(8, 0x8_0000, &STORE, 1, &mut walk, &mut leaf) == 3);
    assert!(rt; walk.pte_pa == 0x8000_0010 && walk.level == 2 && walk.ad == 1);
    assert!(rt; melissaledge_walk_word(&mut walk, 0x2000_0421, &mut leaf) == 3);
    assert!(rt; walk.pte_pa == 0x8000_1010 && walk.level == 1);
    assert!(rt; melissaledge_walk_word(&mut walk, 0x2000_0801, &mut leaf) == 3);
    assert!(rt; walk == LOW && leaf == LeafGiven::default());
    assert!(rt; melissaledge_walk_word(&mut walk, 0x48d_1417, &mut leaf) == 0);
    let found = LeafGiven {
        answer: Answer {
            pa: 0x1234_5abc,
            page_base: 0x8040_3000,
            page_bytes: 0x1000,
            ppn: 0x1_2345,
            flags: 0xd6,
            global: 1,
            cause: 0,
            why: 0,
        },
        pte_pa: 0x8000_2018,
        pte: 0x48d_1417,
        level: 0,
        permits: 6,
        set: 0xc0,
    };
    assert!(rt; leaf == found && walk == LOW);
}

#[test]
fn walk_traps_with_its_word_or_without(rt: HostRuntime) {
    let mut walk = LOW;
    let mut leaf = LeafGiven::default();
    walk.ad = 0;
    assert!(rt; melissaledge_walk_word(&mut walk, 0x48d_1457, &mut leaf) == 1);
    assert!(rt; leaf.answer.cause == 15 && leaf.answer.why == 9 && leaf.permits == 0);
    assert!(rt; leaf.pte_pa == 0x8000_2018 && leaf.pte == 0x48d_1457 && leaf.set == 0);
    assert!(rt; melissaledge_walk_no_word(&walk, &mut leaf) == 1);
    assert!(rt; leaf.answer.cause == 7 && leaf.answer.why == 2 && leaf.pte_pa == 0);
}

/// Whether a walk of these numbers is refused so by both calls, with nothing changed.
fn is_refused(walk: WalkGiven, code: i32) -> bool {
    let mut after = walk;
    let mut leaf = LeafGiven::default();
    let word = melissaledge_walk_word(&mut after, 1, &mut leaf);
    let no_word = melissaledge_walk_no_word(&after, &mut leaf);
    word == code && no_word == code && after == walk && leaf == LeafGiven::default()
}

#[test]
fn numbers_of_no_walk_are_refused(rt: HostRuntime) {
    let mut bad = LOW;
    bad.access.access = 3;
    assert!(rt; is_refused(bad, -4));
    bad.access.mode = 3;
    bad.access.access = 0;
    assert!(rt; is_refused(bad, -5));
    bad = LOW;
    bad.ad = 2;
    assert!(rt; is_refused(bad, -20));
    bad = LOW;
    bad.level = 4;
    assert!(rt; is_refused(bad, -21));
    bad = LOW;
    bad.table_ppn = 1 << 44;
    assert!(rt; is_refused(bad, -21));
    bad = LOW;
    bad.access.va = 0x8000_0000_0000;
    assert!(rt; is_refused(bad, -21));
}

/// What the beginning of that store answers, with walk and leaf as they were.
fn refusal(scheme: u32, root: u64, access: u8, ad: u8) -> Option<i32> {
    let mut asked = STORE;
    let mut walk = LOW;
    let mut leaf = LeafGiven::default();
    asked.access = access;
    let code = melissaledge_walk_begin(scheme, root, &asked, ad, &mut walk, &mut leaf);
    if walk == LOW && leaf == LeafGiven::default() {
        Some(code)
    } else {
        None
    }
}

#[test]
fn beginning_out_of_order_is_refused(rt: HostRuntime) {
    assert!(rt; refusal(10, 1 << 44, 3, 2) == Some(-3));
    assert!(rt; refusal(9, 1 << 44, 3, 2) == Some(-4));
    assert!(rt; refusal(9, 1 << 44, 2, 2) == Some(-20));
    assert!(rt; refusal(9, 1 << 44, 2, 1) == Some(-8));
}

/// R, W, U and A: a user may load, and S-mode with SUM too.
#[test]
fn entry_permits(rt: HostRuntime) {
    let entry = EntryGiven {
        flags: 0x56,
        ..EntryGiven::default()
    };
    let mut permits = 9_u8;
    assert!(rt; melissaledge_entry_permits(&entry, 3, 0, 0, &mut permits) == -5 && permits == 9);
    assert!(rt; melissaledge_entry_permits(&entry, 0, 0, 0, &mut permits) == 0 && permits == 2);
    assert!(rt; melissaledge_entry_permits(&entry, 1, 0, 0, &mut permits) == 0 && permits == 0);
    assert!(rt; melissaledge_entry_permits(&entry, 1, 1, 0, &mut permits) == 0 && permits == 2);
}

#[test]
fn bare_is_the_identity(rt: HostRuntime) {
    let mut walk = WalkGiven::default();
    let mut leaf = LeafGiven::default();
    let mut asked = STORE;
    asked.va = 0xff_ffff_ffff_f123;
    assert!(rt; melissaledge_walk_begin(0, 0, &asked, 0, &mut walk, &mut leaf) == 0);
    assert!(rt; leaf.answer.pa == 0xff_ffff_ffff_f123 && leaf.permits == 7 && leaf.pte_pa == 0);
    assert!(rt; leaf.answer.page_base == 0xff_ffff_ffff_f000 && leaf.answer.page_bytes == 0x1000);
    asked.va = 0x100_0000_0000_0000;
    let tables = Tables {
        base_ppn: 0,
        frames: 0,
        root_ppn: 0,
        scheme: 0,
    };
    let mut answer = Answer::default();
    assert!(rt; melissaledge_translate(&tables, &[], &asked, &mut answer) == 1);
    assert!(rt; answer.cause == 7 && answer.why == 2 && answer.pa == 0);
    assert!(rt; walk == WalkGiven::default());
}
