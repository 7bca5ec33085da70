//! Bad arguments of the exports: an error, and nothing changed; and each export once on its way. A
//! null pointer is none here: `examples/bad_arguments.c` passes it.

use crate::configs::{ConfigAsked, SpaceAsked};
use crate::events::EventAsked;
use crate::machine_handle::MachineHandle;
use crate::machines::{
    melissaledge_machine_close, melissaledge_machine_open, melissaledge_machine_step,
    melissaledge_machine_translates,
};
use crate::replies::ReplyGiven;
use crate::requests::{AccessAsked, EntryGiven};
use crate::tlbs::melissaledge_entry_translate;
use crate::translations::{Answer, Tables, melissaledge_translate};

/// Two frames from PPN 0x80000 on, with the root in the first.
const TABLES: Tables = Tables {
    base_ppn: 0x8_0000,
    frames: 2,
    root_ppn: 0x8_0000,
    scheme: 8,
};

/// A user's load from an address.
fn load_from(va: u64) -> AccessAsked {
    AccessAsked {
        va,
        access: 1,
        mode: 0,
        sum: 0,
        mxr: 0,
    }
}

/// An answer that no call gives.
const BEFORE: Answer = Answer {
    pa: 1,
    page_base: 2,
    page_bytes: 3,
    ppn: 4,
    flags: 5,
    global: 6,
    cause: 7,
    why: 8,
};

/// Whether a translation over zeros answers so, with the answer left as it was.
fn is_refused(tables: &Tables, words: &[u64], asked: &AccessAsked, code: i32) -> bool {
    let mut answer = BEFORE;
    melissaledge_translate(tables, words, asked, &mut answer) == code && answer == BEFORE
}

#[test]
fn translation_of_no_scheme_is_refused(rt: HostRuntime) {
    let words = [0_u64; 1024];
    let mut tables = TABLES;
    tables.scheme = 1;
    assert!(rt; is_refused(&tables, &words, &load_from(0), -3));
    tables.scheme = 10;
    assert!(rt; is_refused(&tables, &words, &load_from(0), -3));
}

#[test]
fn translation_of_no_access_is_refused(rt: HostRuntime) {
    let words = [0_u64; 1024];
    let mut asked = load_from(0);
    asked.access = 3;
    assert!(rt; is_refused(&TABLES, &words, &asked, -4));
}

#[test]
fn translation_of_no_mode_is_refused(rt: HostRuntime) {
    let words = [0_u64; 1024];
    let mut asked = load_from(0);
    asked.mode = 3;
    assert!(rt; is_refused(&TABLES, &words, &asked, -5));
}

#[test]
fn translation_over_no_memory_is_refused(rt: HostRuntime) {
    let words = [0_u64; 1024];
    let mut tables = TABLES;
    tables.frames = 0;
    assert!(rt; is_refused(&tables, &[], &load_from(0), -6));
    tables.frames = 2;
    tables.base_ppn = (1 << 44) - 1;
    assert!(rt; is_refused(&tables, &words, &load_from(0), -6));
}

#[test]
fn translation_of_a_wrong_length_is_refused(rt: HostRuntime) {
    let words = [0_u64; 1024];
    assert!(rt; is_refused(&TABLES, &words[..1023], &load_from(0), -7));
    let mut tables = TABLES;
    tables.frames = 1;
    assert!(rt; is_refused(&tables, &words, &load_from(0), -7));
}

#[test]
fn root_of_no_ppn_is_refused(rt: HostRuntime) {
    let words = [0_u64; 1024];
    let mut tables = TABLES;
    tables.root_ppn = 1 << 44;
    assert!(rt; is_refused(&tables, &words, &load_from(0), -8));
}

#[test]
fn root_outside_memory_is_an_access_fault(rt: HostRuntime) {
    let words = [0_u64; 1024];
    let mut tables = TABLES;
    let mut answer = BEFORE;
    tables.root_ppn = 0x8_0002;
    let status = melissaledge_translate(&tables, &words, &load_from(0), &mut answer);
    assert!(rt; status == 1 && answer.cause == 5 && answer.why == 2 && answer.pa == 0);
}

/// A page of 1 GiB at 0x4000_0000, which the root's word 1 maps to itself: V, R, W, X, U, G, A and
/// D.
#[test]
fn translation_is_answered(rt: HostRuntime) {
    let mut words = [0_u64; 1024];
    words[1] = (0x4_0000 << 10) | 0xff;
    let mut answer = BEFORE;
    let status = melissaledge_translate(&TABLES, &words, &load_from(0x4000_0123), &mut answer);
    assert!(rt; status == 0);
    let found = Answer {
        pa: 0x4000_0123,
        page_base: 0x4000_0000,
        page_bytes: 0x4000_0000,
        ppn: 0x4_0000,
        flags: 0xfe,
        global: 1,
        cause: 0,
        why: 0,
    };
    assert!(rt; answer == found);
    let status = melissaledge_translate(&TABLES, &words, &load_from(0x123), &mut answer);
    assert!(rt; status == 1);
    assert!(rt; answer.cause == 13 && answer.why == 3 && answer.pa == 0);
}

/// A page of 4 KiB at 0x1000, for address space 1: R, U, A and D.
const ENTRY: EntryGiven = EntryGiven {
    page_base: 0x1000,
    page_bytes: 0x1000,
    ppn: 5,
    asid: 1,
    flags: 0xd2,
    global: 0,
};

#[test]
fn entry_answers(rt: HostRuntime) {
    let mut answer = BEFORE;
    let mut asked = load_from(0x1234);
    assert!(rt; melissaledge_entry_translate(&ENTRY, &asked, &mut answer) == 0);
    assert!(rt; answer.pa == 0x5234 && answer.page_base == 0x1000 && answer.cause == 0);
    asked.access = 2;
    assert!(rt; melissaledge_entry_translate(&ENTRY, &asked, &mut answer) == 1);
    assert!(rt; answer.cause == 15 && answer.why == 6 && answer.pa == 0);
    asked.access = 4;
    answer = BEFORE;
    assert!(rt; melissaledge_entry_translate(&ENTRY, &asked, &mut answer) == -4);
    asked.access = 1;
    asked.mode = 2;
    assert!(rt; melissaledge_entry_translate(&ENTRY, &asked, &mut answer) == -5);
    asked = load_from(0x8000_0000_0000);
    assert!(rt; melissaledge_entry_translate(&ENTRY, &asked, &mut answer) == -16);
    let mut bad = ENTRY;
    bad.page_base = 0x1001;
    assert!(rt; melissaledge_entry_translate(&bad, &load_from(0), &mut answer) == -12);
    assert!(rt; answer == BEFORE);
}

/// A machine of one hart and one space.
const CONFIG: ConfigAsked = ConfigAsked {
    base: 0x8_0000,
    scheme: 8,
    harts: 1,
    window: 1,
    capacity: 1,
};

/// The space, with ASID 1.
const SPACES: [SpaceAsked; 1] = [SpaceAsked { asid: 1, home: 0 }];

/// Hart 0 begins a user's load from 0.
fn begin() -> EventAsked {
    EventAsked {
        access: load_from(0),
        page_base: 0,
        page_bytes: 0x1000,
        ppn: 0x100,
        rs1: 0,
        rs2: 0,
        ticket: 0,
        asid: 0,
        kind: 0,
        hart: 0,
        other: 0,
        space: 0,
        all: 0,
        flags: 0x52,
        named: 1,
        has_rs1: 0,
        has_rs2: 0,
    }
}

#[test]
fn closed_machine_is_refused(rt: HostRuntime) {
    let mut machine = MachineHandle::empty();
    let mut reply = ReplyGiven::default();
    reply.kind = 99;
    let before = reply;
    assert!(rt; melissaledge_machine_step(rt.alloc(), &mut machine, &begin(), &mut reply) == -11);
    assert!(rt; reply == before);
    assert!(rt; melissaledge_machine_translates(rt.alloc(), &mut machine, 0, 1, 0) == -11);
    assert!(rt; melissaledge_machine_close(rt.alloc(), &mut machine) == -11);
}

#[test]
fn machine_of_no_scheme_is_refused(rt: HostRuntime) {
    let mut machine = MachineHandle::empty();
    let mut config = CONFIG;
    config.scheme = 1;
    assert!(rt; melissaledge_machine_open(rt.alloc(), &config, &SPACES, &[4], &mut machine) == -3);
    assert!(rt; melissaledge_machine_close(rt.alloc(), &mut machine) == -11);
}

#[test]
fn machine_outside_the_limits_is_refused(rt: HostRuntime) {
    let mut machine = MachineHandle::empty();
    let spaces = [SpaceAsked { asid: 1, home: 0 }; 33];
    let mut config = CONFIG;
    assert!(rt; melissaledge_machine_open(rt.alloc(), &config, &spaces, &[4], &mut machine) == -14);
    assert!(rt; melissaledge_machine_open(rt.alloc(), &config, &[], &[4], &mut machine) == -14);
    assert!(rt; melissaledge_machine_open(rt.alloc(), &config, &SPACES, &[], &mut machine) == -14);
    assert!(rt;
        melissaledge_machine_open(rt.alloc(), &config, &SPACES, &[1; 9], &mut machine) == -14
    );
    config.harts = 9;
    assert!(rt; melissaledge_machine_open(rt.alloc(), &config, &SPACES, &[4], &mut machine) == -14);
    assert!(rt; melissaledge_machine_close(rt.alloc(), &mut machine) == -11);
}

#[test]
fn bad_event_is_refused(rt: HostRuntime) {
    let mut machine = MachineHandle::empty();
    let mut reply = ReplyGiven::default();
    reply.kind = 99;
    let before = reply;
    assert!(rt; melissaledge_machine_open(rt.alloc(), &CONFIG, &SPACES, &[4], &mut machine) == 0);
    assert!(rt; melissaledge_machine_open(rt.alloc(), &CONFIG, &SPACES, &[4], &mut machine) == -10);
    let mut event = begin();
    event.kind = 19;
    assert!(rt; melissaledge_machine_step(rt.alloc(), &mut machine, &event, &mut reply) == -13);
    event.kind = 2;
    event.page_base = 1;
    assert!(rt; melissaledge_machine_step(rt.alloc(), &mut machine, &event, &mut reply) == -12);
    event = begin();
    event.access.access = 3;
    assert!(rt; melissaledge_machine_step(rt.alloc(), &mut machine, &event, &mut reply) == -4);
    event.access.access = 1;
    event.access.mode = 3;
    assert!(rt; melissaledge_machine_step(rt.alloc(), &mut machine, &event, &mut reply) == -5);
    assert!(rt; reply == before);
    assert!(rt; melissaledge_machine_translates(rt.alloc(), &mut machine, 1, 1, 0) == -15);
    assert!(rt; melissaledge_machine_close(rt.alloc(), &mut machine) == 0);
}

/// Three stores map a page of 4 KiB at 0, a walk of three loads fills it in, and an unmapping is
/// opened.
#[test]
fn machine_steps(rt: HostRuntime) {
    let mut machine = MachineHandle::empty();
    let mut reply = ReplyGiven::default();
    assert!(rt; melissaledge_machine_open(rt.alloc(), &CONFIG, &SPACES, &[4], &mut machine) == 0);
    let mut map = begin();
    map.kind = 2;
    assert!(rt; melissaledge_machine_step(rt.alloc(), &mut machine, &map, &mut reply) == 0);
    assert!(rt; reply.kind == 4 && reply.value == 0x8_0002);
    assert!(rt; melissaledge_machine_step(rt.alloc(), &mut machine, &map, &mut reply) == 0);
    assert!(rt; reply.kind == 4 && reply.value == 0x8_0003);
    assert!(rt; melissaledge_machine_step(rt.alloc(), &mut machine, &map, &mut reply) == 0);
    assert!(rt; reply.kind == 5);
    assert!(rt; melissaledge_machine_step(rt.alloc(), &mut machine, &begin(), &mut reply) == 0);
    assert!(rt; reply.kind == 2);
    let mut load = begin();
    load.kind = 1;
    for _ in 0..3 {
        assert!(rt; melissaledge_machine_translates(rt.alloc(), &mut machine, 0, 1, 0xfff) == 0);
        assert!(rt; melissaledge_machine_step(rt.alloc(), &mut machine, &load, &mut reply) == 0);
    }
    assert!(rt; reply.kind == 3 && reply.value == 0x10_0000);
    assert!(rt; melissaledge_machine_translates(rt.alloc(), &mut machine, 0, 1, 0xfff) == 1);
    let mut unmap = begin();
    unmap.kind = 3;
    assert!(rt; melissaledge_machine_step(rt.alloc(), &mut machine, &unmap, &mut reply) == 0);
    assert!(rt; reply.kind == 6 && reply.value == 0);
    assert!(rt; melissaledge_machine_step(rt.alloc(), &mut machine, &unmap, &mut reply) == 0);
    assert!(rt; reply.kind == 11 && reply.refusal == 12);
    assert!(rt; melissaledge_machine_close(rt.alloc(), &mut machine) == 0);
}
