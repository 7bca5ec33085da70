//! The state of a machine, as numbers: nothing here changes it.

ghost use Rattle.std.specs.Prelude.{◌≡◌};
ghost use Rattle.melissaledge_c.specs.States.{Gives, Reads, access_code, entry_at, hart_given, mailbox_given, phase_code, request_given, resting, space_given, ticket_given, with_service, with_walk, word_given};

use crate::codes::{Fault, number_of};
use crate::machine_handle::MachineHandle;
use crate::requests::{EntryGiven, WhatAsked};
use pte::Access;
use spaces::Place;
use std::alloc::Global;
use stepcore::{Hart, Machine, Phase, Serving};
use walk::{Walk, Words};

/// A hart: `struct mle_hart` of C. What it does not do leaves its fields 0.
#[repr(C)]
#[derive(Clone, Copy, PartialEq, Eq)]
pub struct HartGiven {
    /// The address that it walks to.
    pub va: u64,
    /// The PPN of the table that the walk reads next.
    pub table_ppn: u64,
    /// How many entries its TLB has.
    pub entries: u64,
    /// What the request that it serves asks to drop.
    pub what: WhatAsked,
    /// The sender's ticket of that request.
    pub ticket: u32,
    /// The ASID of its space.
    pub asid: u16,
    /// The space that it runs in.
    pub space: u8,
    /// 1 if it walks.
    pub is_walking: u8,
    /// What the access does that it walks for: 0 fetches, 1 loads, 2 stores.
    pub access: u8,
    /// The level of the table that the walk reads next.
    pub level: u8,
    /// 1 if it serves a request.
    pub is_serving: u8,
    /// The hart that sent the request.
    pub sender: u8,
    /// 1 if it has fenced for the request.
    pub has_fenced: u8,
}

/// An address space: `struct mle_space_state` of C.
#[repr(C)]
#[derive(Clone, Copy, PartialEq, Eq)]
pub struct SpaceGiven {
    /// The PPN of its root table.
    pub root_ppn: u64,
    /// Its ASID, which means nothing if it is free.
    pub asid: u16,
    /// The hart that stores to its tables.
    pub home: u8,
    /// 0 if it is live, 1 if it is retiring, 2 if it is free.
    pub phase: u8,
}

/// An open ticket: `struct mle_ticket` of C. In its sets bit h stands for hart h.
#[repr(C)]
#[derive(Clone, Copy, PartialEq, Eq)]
pub struct TicketGiven {
    /// What the named harts are to drop.
    pub what: WhatAsked,
    /// The harts that are named.
    pub named: u8,
    /// Those to which it was posted.
    pub posted: u8,
    /// Those that have acknowledged it.
    pub acknowledged: u8,
    /// Those whose acknowledgement is collected.
    pub collected: u8,
}

/// A mailbox: `struct mle_mailbox` of C.
#[repr(C)]
#[derive(Clone, Copy, PartialEq, Eq)]
pub struct MailboxGiven {
    /// How many requests may be outstanding.
    pub capacity: u64,
    /// How many are: accepted, and their acknowledgement not collected.
    pub outstanding: u64,
    /// 1 if it is closed.
    pub is_closed: u8,
}

/// A request that waits: `struct mle_request` of C.
#[repr(C)]
#[derive(Clone, Copy, PartialEq, Eq)]
pub struct RequestGiven {
    /// What it asks to drop.
    pub what: WhatAsked,
    /// The sender's ticket.
    pub ticket: u32,
}

/// The number of an access.
fn access_code(access: Access) -> u8
    ensures { result ≡ access_code access }
{
    match access {
        Access::Fetch => 0,
        Access::Load => 1,
        Access::Store => 2,
    }
}

/// The number of a phase.
fn phase_code(phase: Phase) -> u8
    ensures { result ≡ phase_code phase }
{
    match phase {
        Phase::Live => 0,
        Phase::Retiring(_) => 1,
        Phase::Free => 2,
    }
}

impl HartGiven {
    /// A hart without its walk and its service.
    fn resting(hart: &Hart, asid: u16) -> HartGiven
        ensures { result ≡ resting hart.now asid }
    {
        HartGiven {
            va: 0,
            table_ppn: 0,
            what: WhatAsked::default(),
            ticket: 0,
            asid,
            space: hart.space(),
            entries: hart.tlb().len() as u64,
            is_walking: 0,
            access: 0,
            level: 0,
            is_serving: 0,
            sender: 0,
            has_fenced: 0,
        }
    }

    /// With the walk, if there is one.
    fn with_walk(self, walk: Option<Walk>) -> HartGiven
        ensures { result ≡ with_walk walk self }
    {
        match walk {
            Some(walk) => {
                let (table_ppn, _index) = walk.wants();
                HartGiven {
                    va: walk.va().get(),
                    table_ppn,
                    is_walking: 1,
                    access: access_code(walk.access()),
                    level: walk.level(),
                    ..self
                }
            }
            None => self,
        }
    }

    /// With the service, if there is one.
    fn with_service(self, serving: Option<Serving>) -> HartGiven
        ensures { result ≡ with_service serving self }
    {
        match serving {
            Some(serving) => HartGiven {
                what: WhatAsked::of(&serving.request.what),
                ticket: serving.request.ticket,
                is_serving: 1,
                sender: serving.from,
                has_fenced: number_of(serving.fenced),
                ..self
            },
            None => self,
        }
    }
}

/// What C is answered: the value, or the refusal, at which nothing changes.
fn give<T: Copy>(given: Result<T, Fault>, to: &mut T) -> i32
    ensures { Gives given result to.old to.new }
{
    match given {
        Ok(value) => {
            *to = value;
            0
        }
        Err(fault) => fault.code(),
    }
}

/// The numbers of a hart.
fn hart_given(machine: &Machine, hart: u8) -> Result<HartGiven, Fault>
    ensures { result ≡ hart_given hart machine.now }
{
    if hart >= machine.harts() {
        return Err(Fault::Hart);
    }
    let asid = machine.asid(hart);
    let hart = machine.hart(hart);
    Ok(
        HartGiven::resting(hart, asid)
            .with_walk(hart.walk())
            .with_service(hart.serving()),
    )
}

/// The numbers of the entry of a hart's TLB of an age.
fn entry_at(machine: &Machine, hart: u8, age: u32) -> Result<EntryGiven, Fault>
    ensures { result ≡ entry_at hart age machine.now }
{
    if hart >= machine.harts() {
        return Err(Fault::Hart);
    }
    match machine.hart(hart).tlb().entry(age as usize) {
        Some(entry) => Ok(EntryGiven::of(&entry)),
        None => Err(Fault::Place),
    }
}

/// The numbers of a space.
fn space_given(machine: &Machine, space: u8) -> Result<SpaceGiven, Fault>
    ensures { result ≡ space_given space machine.now }
{
    if space >= machine.spaces() || !machine.memory().has(Place::Space(space)) {
        return Err(Fault::Space);
    }
    let state = machine.space(space);
    Ok(SpaceGiven {
        root_ppn: machine.memory().root(space),
        asid: state.asid,
        home: machine.memory().home(Place::Space(space)),
        phase: phase_code(state.phase),
    })
}

/// The numbers of an open ticket of a hart.
fn ticket_given(machine: &Machine, hart: u8, ticket: u32) -> Result<TicketGiven, Fault>
    ensures { result ≡ ticket_given hart ticket machine.now }
{
    if hart >= machine.harts() {
        return Err(Fault::Hart);
    }
    match machine.tickets(hart).ticket(ticket) {
        Some(ticket) => Ok(TicketGiven {
            what: WhatAsked::of(&ticket.what),
            named: u8::from(ticket.named),
            posted: u8::from(ticket.posted),
            acknowledged: u8::from(ticket.acked),
            collected: u8::from(ticket.collected),
        }),
        None => Err(Fault::Ticket),
    }
}

/// The numbers of a mailbox.
fn mailbox_given(machine: &Machine, sender: u8, receiver: u8) -> Result<MailboxGiven, Fault>
    ensures { result ≡ mailbox_given sender receiver machine.now }
{
    if sender >= machine.harts() || receiver >= machine.harts() {
        return Err(Fault::Hart);
    }
    let mailbox = machine.mailbox(sender, receiver);
    Ok(MailboxGiven {
        capacity: machine.capacity() as u64,
        outstanding: mailbox.outstanding() as u64,
        is_closed: number_of(mailbox.is_closed()),
    })
}

/// The numbers of a request that waits.
fn request_given(
    machine: &Machine,
    sender: u8,
    receiver: u8,
    place: u32,
) -> Result<RequestGiven, Fault>
    ensures { result ≡ request_given sender receiver place machine.now }
{
    if sender >= machine.harts() || receiver >= machine.harts() {
        return Err(Fault::Hart);
    }
    match machine.mailbox(sender, receiver).waiting(place as usize) {
        Some(request) => Ok(RequestGiven {
            what: WhatAsked::of(&request.what),
            ticket: request.ticket,
        }),
        None => Err(Fault::Place),
    }
}

/// A word of the tables.
fn word_given(machine: &Machine, ppn: u64, index: u16) -> Result<u64, Fault>
    ensures { result ≡ word_given ppn index machine.now }
{
    match machine.memory().word(ppn, index) {
        Some(word) => Ok(word),
        None => Err(Fault::Place),
    }
}

/// What a hart does: its space, its walk, the request that it serves, and how many entries its TLB
/// has. Refused with `NotOpen` or `Hart`.
#[unsafe(no_mangle)]
pub extern "C" fn melissaledge_machine_hart(
    alloc: Global,
    machine: &mut MachineHandle,
    hart: u8,
    given: &mut HartGiven,
) -> i32
    ensures read { Reads (hart_given hart) machine.old.held result given.old given.new }
    ensures kept { machine.new.held ≡ machine.old.held }
{
    let Some(open) = machine.take(alloc) else {
        return Fault::NotOpen.code();
    };
    let read = hart_given(&open, hart);
    machine.put(open);
    give(read, given)
}

/// The entry of an age of a hart's TLB, of which the oldest has 0. Refused with `NotOpen`, `Hart`,
/// or with `Place` if there is none of this age.
#[unsafe(no_mangle)]
pub extern "C" fn melissaledge_machine_entry(
    alloc: Global,
    machine: &mut MachineHandle,
    hart: u8,
    age: u32,
    given: &mut EntryGiven,
) -> i32
    ensures read { Reads (entry_at hart age) machine.old.held result given.old given.new }
    ensures kept { machine.new.held ≡ machine.old.held }
{
    let Some(open) = machine.take(alloc) else {
        return Fault::NotOpen.code();
    };
    let read = entry_at(&open, hart, age);
    machine.put(open);
    give(read, given)
}

/// An address space. Refused with `NotOpen` or `Space`.
#[unsafe(no_mangle)]
pub extern "C" fn melissaledge_machine_space(
    alloc: Global,
    machine: &mut MachineHandle,
    space: u8,
    given: &mut SpaceGiven,
) -> i32
    ensures read { Reads (space_given space) machine.old.held result given.old given.new }
    ensures kept { machine.new.held ≡ machine.old.held }
{
    let Some(open) = machine.take(alloc) else {
        return Fault::NotOpen.code();
    };
    let read = space_given(&open, space);
    machine.put(open);
    give(read, given)
}

/// An open ticket of a hart. Refused with `NotOpen`, `Hart`, or with `Ticket` if it is not open.
#[unsafe(no_mangle)]
pub extern "C" fn melissaledge_machine_ticket(
    alloc: Global,
    machine: &mut MachineHandle,
    hart: u8,
    ticket: u32,
    given: &mut TicketGiven,
) -> i32
    ensures read { Reads (ticket_given hart ticket) machine.old.held result given.old given.new }
    ensures kept { machine.new.held ≡ machine.old.held }
{
    let Some(open) = machine.take(alloc) else {
        return Fault::NotOpen.code();
    };
    let read = ticket_given(&open, hart, ticket);
    machine.put(open);
    give(read, given)
}

/// The mailbox from one hart to another. Refused with `NotOpen` or `Hart`.
#[unsafe(no_mangle)]
pub extern "C" fn melissaledge_machine_mailbox(
    alloc: Global,
    machine: &mut MachineHandle,
    sender: u8,
    receiver: u8,
    given: &mut MailboxGiven,
) -> i32
    ensures read { Reads (mailbox_given sender receiver) machine.old.held result given.old
        given.new }
    ensures kept { machine.new.held ≡ machine.old.held }
{
    let Some(open) = machine.take(alloc) else {
        return Fault::NotOpen.code();
    };
    let read = mailbox_given(&open, sender, receiver);
    machine.put(open);
    give(read, given)
}

/// The request that waits in a place of a mailbox, the oldest in place 0. Refused with `NotOpen`,
/// `Hart`, or with `Place` if none waits there.
#[unsafe(no_mangle)]
pub extern "C" fn melissaledge_machine_request(
    alloc: Global,
    machine: &mut MachineHandle,
    sender: u8,
    receiver: u8,
    place: u32,
    given: &mut RequestGiven,
) -> i32
    ensures read { Reads (request_given sender receiver place) machine.old.held result given.old
        given.new }
    ensures kept { machine.new.held ≡ machine.old.held }
{
    let Some(open) = machine.take(alloc) else {
        return Fault::NotOpen.code();
    };
    let read = request_given(&open, sender, receiver, place);
    machine.put(open);
    give(read, given)
}

/// The word of a table frame, by its index below 512. Refused with `NotOpen`, or with `Place` if the
/// machine has no such word.
#[unsafe(no_mangle)]
pub extern "C" fn melissaledge_machine_word(
    alloc: Global,
    machine: &mut MachineHandle,
    ppn: u64,
    index: u16,
    given: &mut u64,
) -> i32
    ensures read { Reads (word_given ppn index) machine.old.held result given.old given.new }
    ensures kept { machine.new.held ≡ machine.old.held }
{
    let Some(open) = machine.take(alloc) else {
        return Fault::NotOpen.code();
    };
    let read = word_given(&open, ppn, index);
    machine.put(open);
    give(read, given)
}
