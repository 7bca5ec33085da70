//! A machine.

ghost use Rattle.std.specs.Prelude.{◌≡◌, nat_lt, length};
ghost use Rattle.pte.specs.Address.{is_canonical, widest};
ghost use Rattle.melissaledge_c.specs.Configs.{config_of};
ghost use Rattle.melissaledge_c.specs.Events.{event_of};
ghost use Rattle.melissaledge_c.specs.Machines.{Closes, IsStepped, Opens, SaysAt, Steps, Tells};

use crate::codes::Fault;
use crate::configs::{ConfigAsked, SpaceAsked, config_of};
use crate::events::{EventAsked, event_of};
use crate::machine_handle::MachineHandle;
use crate::replies::ReplyGiven;
use pte::{Scheme, VirtAddr, tests_are_facts};
use std::alloc::Global;
use stepcore::{Event, Machine, OpenFault};

/// Opens a machine, as `Machine::open` has it: `spares` has a number for each hart. Refused with
/// `Scheme`, `Layout`, `AlreadyOpen` or `NoMemory`, and then nothing has changed.
#[unsafe(no_mangle)]
pub extern "C" fn melissaledge_machine_open(
    alloc: Global,
    config: &ConfigAsked,
    spaces: &[SpaceAsked],
    spares: &[u16],
    machine: &mut MachineHandle,
) -> i32
    ensures { Opens (config_of config.now spaces.now spares.now) machine.old.held result
        machine.new.held }
{
    let config = match config_of(config, spaces, spares) {
        Ok(config) => config,
        Err(fault) => return fault.code(),
    };
    if let Some(open) = machine.take(alloc) {
        machine.put(open);
        return Fault::AlreadyOpen.code();
    }
    let opened = match Machine::open(alloc, &config) {
        Ok(opened) => opened,
        Err(OpenFault::BadLayout) => return Fault::Layout.code(),
        Err(OpenFault::NoMemory) => return Fault::NoMemory.code(),
    };
    match Box::new(alloc, opened) {
        Ok(new) => {
            machine.put(new);
            0
        }
        Err(_) => Fault::NoMemory.code(),
    }
}

/// Closes a machine and gives its memory back. Refused with `NotOpen`.
#[unsafe(no_mangle)]
pub extern "C" fn melissaledge_machine_close(alloc: Global, machine: &mut MachineHandle) -> i32
    ensures { Closes machine.old.held result machine.new.held }
{
    match machine.take(alloc) {
        Some(_) => 0,
        None => Fault::NotOpen.code(),
    }
}

/// Makes a step, and returns the reply in numbers.
fn stepped(machine: &mut Machine, event: Event) -> ReplyGiven
    ensures { IsStepped machine.old event machine.new result }
{
    let reply = machine.step(event);
    ReplyGiven::of(&reply)
}

/// Does one event, or refuses it, as `Machine::step` has it: 0 with the reply, which may also be a
/// refusal by the machine. The call itself is refused with `Kind`, `Access`, `Mode` or `Page` of
/// what the kind names, or with `NotOpen`, and then nothing has changed.
#[unsafe(no_mangle)]
pub extern "C" fn melissaledge_machine_step(
    alloc: Global,
    machine: &mut MachineHandle,
    event: &EventAsked,
    reply: &mut ReplyGiven,
) -> i32
    ensures { Steps (event_of event.now) machine.old.held result machine.new.held reply.old
        reply.new }
{
    let event = match event_of(event) {
        Ok(event) => event,
        Err(fault) => return fault.code(),
    };
    let Some(mut open) = machine.take(alloc) else {
        return Fault::NotOpen.code();
    };
    let told = stepped(&mut open, event);
    machine.put(open);
    *reply = told;
    0
}

/// The answer of `melissaledge_machine_translates` about a machine.
fn answer_of(machine: &Machine, hart: u8, asid: u16, va: u64) -> i32
    ensures { SaysAt (nat_lt hart (length machine.now.harts)) (is_canonical widest va) machine.now
        hart asid va result }
{
    tests_are_facts();
    if hart >= machine.harts() {
        return Fault::Hart.code();
    }
    match VirtAddr::new_in(Scheme::Sv48, va) {
        Some(va) if machine.translates(hart, asid, va) => 1,
        _ => 0,
    }
}

/// Whether the TLB of a hart translates an address for an ASID, as `Machine::translates` has it: 1
/// if so, 0 if not, which is also so if the address is not canonical. Refused with `NotOpen` or
/// `Hart`.
#[unsafe(no_mangle)]
pub extern "C" fn melissaledge_machine_translates(
    alloc: Global,
    machine: &mut MachineHandle,
    hart: u8,
    asid: u16,
    va: u64,
) -> i32
    ensures told { Tells machine.old.held hart asid va result }
    ensures kept { machine.new.held ≡ machine.old.held }
{
    let Some(open) = machine.take(alloc) else {
        return Fault::NotOpen.code();
    };
    let result = answer_of(&open, hart, asid, va);
    machine.put(open);
    result
}
