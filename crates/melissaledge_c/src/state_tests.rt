//! The state of a machine through the exports: a walk in flight, an order in flight, and what is
//! refused and changes nothing.

use crate::configs::{ConfigAsked, SpaceAsked};
use crate::events::EventAsked;
use crate::machine_handle::MachineHandle;
use crate::machines::{
    melissaledge_machine_close, melissaledge_machine_open, melissaledge_machine_step,
};
use crate::replies::ReplyGiven;
use crate::requests::{AccessAsked, EntryGiven, WhatAsked};
use crate::states::{
    HartGiven, MailboxGiven, RequestGiven, SpaceGiven, TicketGiven, melissaledge_machine_entry,
    melissaledge_machine_hart, melissaledge_machine_mailbox, melissaledge_machine_request,
    melissaledge_machine_space, melissaledge_machine_ticket, melissaledge_machine_word,
};
use crate::version::{Version, melissaledge_version};
use std::alloc::Global;

/// Two harts, of which hart 0 stores to the tables of the one space.
const CONFIG: ConfigAsked = ConfigAsked {
    base: 0x8_0000,
    scheme: 8,
    harts: 2,
    window: 1,
    capacity: 4,
};

/// A user's load of hart 1 from 0x400123.
const BEGIN: EventAsked = EventAsked {
    access: AccessAsked {
        va: 0x40_0123,
        access: 1,
        mode: 0,
        sum: 0,
        mxr: 0,
    },
    page_base: 0x40_0000,
    page_bytes: 0x20_0000,
    ppn: 0x200,
    rs1: 0,
    rs2: 0,
    ticket: 0,
    asid: 0,
    kind: 0,
    hart: 1,
    other: 0,
    space: 0,
    all: 0,
    flags: 0x52,
    named: 3,
    has_rs1: 0,
    has_rs2: 0,
};

/// What no call gives of a hart.
const NO_HART: HartGiven = HartGiven {
    va: 99,
    table_ppn: 99,
    what: WhatAsked {
        page_base: 99,
        page_bytes: 99,
        asid: 99,
        has_asid: 99,
        kind: 99,
    },
    ticket: 99,
    asid: 99,
    space: 99,
    entries: 99,
    is_walking: 99,
    access: 99,
    level: 99,
    is_serving: 99,
    sender: 99,
    has_fenced: 99,
};

/// Whether a step of a kind is made: by hart 0 but for what the kinds 0, 1, 9, 10 and 11 do, by which
/// hart 1 walks, takes, fences and acknowledges.
fn is_done(alloc: Global, machine: &mut MachineHandle, kind: u8) -> bool {
    let mut event = BEGIN;
    event.kind = kind;
    if kind > 1 && (kind < 9 || kind > 11) {
        event.hart = 0;
        event.other = 1;
    }
    let mut reply = ReplyGiven::default();
    melissaledge_machine_step(alloc, machine, &event, &mut reply) == 0 && reply.kind != 11
}

/// Opens a machine and makes steps until hart 1 serves the unmapping of the page that it holds; how
/// many steps were made of eight.
fn serve(alloc: Global, machine: &mut MachineHandle) -> usize {
    let spaces = [SpaceAsked { asid: 1, home: 0 }];
    if melissaledge_machine_open(alloc, &CONFIG, &spaces, &[4, 4], machine) != 0 {
        return 0;
    }
    let mut made = 0_usize;
    for kind in [2_u8, 2, 0, 1, 1, 3, 8, 9] {
        if is_done(alloc, machine, kind) {
            made = made.saturating_add(1);
        }
    }
    made
}

/// Each export refuses a closed handle, and leaves what was there.
#[test]
fn closed_machine_tells_nothing(rt: HostRuntime) {
    let mut machine = MachineHandle::empty();
    let mut hart = NO_HART;
    let mut word = 99_u64;
    assert!(rt; melissaledge_machine_hart(rt.alloc(), &mut machine, 0, &mut hart) == -11);
    assert!(rt; hart == NO_HART);
    assert!(rt; melissaledge_machine_word(rt.alloc(), &mut machine, 0x8_0001, 0, &mut word) == -11);
    assert!(rt; word == 99);
}

/// Numbers of no hart, no entry, no space, no open ticket, no request and no word are refused.
#[test]
fn what_is_not_there_is_refused(rt: HostRuntime) {
    let mut machine = MachineHandle::empty();
    assert!(rt; serve(rt.alloc(), &mut machine) == 8);
    let mut hart = NO_HART;
    let mut entry = EntryGiven::default();
    let mut request = RequestGiven {
        what: NO_HART.what,
        ticket: 99,
    };
    let mut word = 99_u64;
    assert!(rt; melissaledge_machine_hart(rt.alloc(), &mut machine, 2, &mut hart) == -15);
    assert!(rt; hart == NO_HART);
    assert!(rt; melissaledge_machine_entry(rt.alloc(), &mut machine, 2, 0, &mut entry) == -15);
    assert!(rt; melissaledge_machine_entry(rt.alloc(), &mut machine, 1, 1, &mut entry) == -19);
    assert!(rt; entry == EntryGiven::default());
    assert!(rt;
        melissaledge_machine_request(rt.alloc(), &mut machine, 0, 2, 0, &mut request) == -15
    );
    assert!(rt;
        melissaledge_machine_request(rt.alloc(), &mut machine, 0, 1, 0, &mut request) == -19
    );
    assert!(rt; request.ticket == 99 && request.what == NO_HART.what);
    assert!(rt;
        melissaledge_machine_word(rt.alloc(), &mut machine, 0x8_0001, 512, &mut word) == -19
    );
    assert!(rt; melissaledge_machine_word(rt.alloc(), &mut machine, 0x7_ffff, 0, &mut word) == -19);
    assert!(rt; word == 99);
    assert!(rt; melissaledge_machine_close(rt.alloc(), &mut machine) == 0);
}

/// The hart that serves holds the page still; its order is posted and not acknowledged.
#[test]
fn order_in_flight_is_told(rt: HostRuntime) {
    let mut machine = MachineHandle::empty();
    assert!(rt; serve(rt.alloc(), &mut machine) == 8);
    let mut hart = NO_HART;
    let mut entry = EntryGiven::default();
    let mut ticket = TicketGiven {
        what: NO_HART.what,
        named: 99,
        posted: 99,
        acknowledged: 99,
        collected: 99,
    };
    assert!(rt; melissaledge_machine_hart(rt.alloc(), &mut machine, 1, &mut hart) == 0);
    assert!(rt; hart.is_serving == 1 && hart.sender == 0 && hart.ticket == 0);
    assert!(rt; hart.has_fenced == 0 && hart.is_walking == 0 && hart.entries == 1);
    assert!(rt; hart.what.page_base == 0x40_0000 && hart.what.asid == 1 && hart.va == 0);
    assert!(rt; melissaledge_machine_entry(rt.alloc(), &mut machine, 1, 0, &mut entry) == 0);
    assert!(rt; entry.page_base == 0x40_0000 && entry.ppn == 0x200 && entry.flags == 0x52);
    assert!(rt; melissaledge_machine_ticket(rt.alloc(), &mut machine, 0, 1, &mut ticket) == -18);
    assert!(rt; melissaledge_machine_ticket(rt.alloc(), &mut machine, 2, 0, &mut ticket) == -15);
    assert!(rt; ticket.named == 99);
    assert!(rt; melissaledge_machine_ticket(rt.alloc(), &mut machine, 0, 0, &mut ticket) == 0);
    assert!(rt; ticket.named == 3 && ticket.posted == 2);
    assert!(rt; ticket.acknowledged == 0 && ticket.collected == 0);
    assert!(rt; is_done(rt.alloc(), &mut machine, 10) && is_done(rt.alloc(), &mut machine, 11));
    assert!(rt; melissaledge_machine_ticket(rt.alloc(), &mut machine, 0, 0, &mut ticket) == 0);
    assert!(rt; ticket.acknowledged == 2 && ticket.collected == 0);
    assert!(rt; melissaledge_machine_close(rt.alloc(), &mut machine) == 0);
}

/// A mailbox counts what is outstanding, and a closed one says so; a space, a table word and the
/// version are told.
#[test]
fn mailbox_and_space_are_told(rt: HostRuntime) {
    let mut machine = MachineHandle::empty();
    assert!(rt; serve(rt.alloc(), &mut machine) == 8);
    let mut mailbox = MailboxGiven {
        capacity: 99,
        outstanding: 99,
        is_closed: 99,
    };
    let mut space = SpaceGiven {
        root_ppn: 99,
        asid: 99,
        home: 99,
        phase: 99,
    };
    let mut word = 99_u64;
    let mut version = Version {
        major: 99,
        minor: 99,
        patch: 99,
    };
    assert!(rt; melissaledge_machine_mailbox(rt.alloc(), &mut machine, 2, 1, &mut mailbox) == -15);
    assert!(rt; mailbox.capacity == 99);
    assert!(rt; melissaledge_machine_mailbox(rt.alloc(), &mut machine, 0, 1, &mut mailbox) == 0);
    assert!(rt; mailbox.capacity == 4 && mailbox.outstanding == 1 && mailbox.is_closed == 0);
    assert!(rt; is_done(rt.alloc(), &mut machine, 15));
    assert!(rt; melissaledge_machine_mailbox(rt.alloc(), &mut machine, 0, 1, &mut mailbox) == 0);
    assert!(rt; mailbox.is_closed == 1);
    assert!(rt; melissaledge_machine_space(rt.alloc(), &mut machine, 1, &mut space) == -17);
    assert!(rt; space.root_ppn == 99);
    assert!(rt; melissaledge_machine_space(rt.alloc(), &mut machine, 0, &mut space) == 0);
    assert!(rt; space.root_ppn == 0x8_0001 && space.asid == 1 && space.phase == 0);
    assert!(rt; melissaledge_machine_word(rt.alloc(), &mut machine, 0x8_0001, 0, &mut word) == 0);
    assert!(rt; word == 0x2000_0801);
    assert!(rt; melissaledge_version(&mut version) == 0);
    assert!(rt; version.major == 0 && version.minor == 2 && version.patch == 0);
    assert!(rt; melissaledge_machine_close(rt.alloc(), &mut machine) == 0);
}
