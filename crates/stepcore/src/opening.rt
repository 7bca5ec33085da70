//! Opening a machine.

ghost use Rattle.std.specs.Prelude.{◌≡◌, ◌↔◌, ◌<◌, ◌≤◌, ◌^◌, ◌*◌, ◌++◌, ◌∷◌, [], Err, IfOk, OnOk, All, length, map, replicate};
ghost use Rattle.std.specs.List.{range_with_len};
ghost use Rattle.shoot.specs.Mailbox.{empty_mailbox};
ghost use Rattle.shoot.specs.Tickets.{no_tickets};
ghost use Rattle.pte.specs.declared.TheConstants.{MAX_CAPACITY, MAX_HARTS};
ghost use Rattle.spaces.specs.Limits.{MeetsLimits};
ghost use Rattle.spaces.specs.declared.configuration.TheConstants.{MAX_FRAMES};
ghost use Rattle.spaces.specs.declared.faults.OpenFault.TheVariants as fault;
ghost use Rattle.pte.specs.declared.TheConstants.{ASID_BITS};
ghost use Rattle.history.specs.Setup.{setup_of};
ghost use Rattle.stepcore.specs.State.{live_space, new_hart};
ghost use Rattle.stepcore.specs.Stands.{Stands};

use crate::hart::Hart;
use crate::machine::Machine;
use crate::space_state::{Phase, SpaceState};
use arrayvec::ArrayVec;
use laws::limits_give_setup;
use pte::Scheme;
use shoot::{Mailbox, Tickets};
use spaces::{Config, MAX_SPACES, Memory, OpenFault, Space};
use std::alloc::{AllocError, Global};

/// The ASID of a space.
fn asid_of(space: &Space) -> u16
    ensures value { result ≡ space.now.asid }
    ensures bits { space.now.asid < 2 ^ ASID_BITS }
{
    space.asid
}

/// What is kept of each space at the opening.
fn live_spaces(spaces: &[Space]) -> ArrayVec<SpaceState, MAX_SPACES>
    requires { length spaces.now ≤ MAX_SPACES }
    ensures spaces { result.items ≡ map (λ s. live_space s.asid) spaces.now }
    ensures bits { All (λ s. s.asid < 2 ^ ASID_BITS) spaces.now }
{
    let mut states = ArrayVec::new();
    for space in spaces {
        states.push(SpaceState {
            asid: asid_of(space),
            phase: Phase::Live,
        });
    }
    states
}

/// Harts that neither walk nor serve.
fn idle_harts(alloc: Global, scheme: Scheme, count: u8) -> Result<Vec<Hart>, AllocError>
    ensures { IfOk result (λ harts. harts.items ≡ replicate count (new_hart scheme)) }
{
    let mut harts = Vec::with_capacity(alloc, usize::from(count))?;
    for _ in 0..count {
        harts.push(Hart::new(scheme))?;
    }
    Ok(harts)
}

/// Puts the tickets of a hart, all of them free, behind those of others.
fn push_tickets(tickets: &mut Vec<Tickets>, hart: u8) -> Result<(), AllocError>
    requires { hart < MAX_HARTS }
    ensures { OnOk result (tickets.new.items ≡ tickets.old.items ++ no_tickets hart ∷ []) }
{
    Ok(tickets.push(Tickets::new(hart))?)
}

/// The tickets of each hart, all of them free.
fn free_tickets(alloc: Global, count: u8) -> Result<Vec<Tickets>, AllocError>
    requires { count ≤ MAX_HARTS }
    ensures { IfOk result (λ tickets. tickets.items ≡ map no_tickets (range_with_len 0 count)) }
{
    let mut tickets = Vec::with_capacity(alloc, usize::from(count))?;
    for hart in 0..count {
        if let Err(error) = push_tickets(&mut tickets, hart) {
            return Err(error);
        }
    }
    Ok(tickets)
}

/// A mailbox for each pair of harts.
fn empty_mailboxes(alloc: Global, harts: u8, capacity: usize) -> Result<Vec<Mailbox>, AllocError>
    requires harts { harts ≤ MAX_HARTS }
    requires some { 1 ≤ capacity }
    requires bounded { capacity ≤ MAX_CAPACITY }
    ensures { IfOk result (λ mailboxes. mailboxes.items
        ≡ replicate (harts * harts) (empty_mailbox capacity)) }
{
    let pairs = usize::from(harts) * usize::from(harts);
    let mut mailboxes = Vec::with_capacity(alloc, pairs)?;
    for _ in 0..pairs {
        mailboxes.push(Mailbox::new(capacity))?;
    }
    Ok(mailboxes)
}

impl Machine {
    /// The machine of a configuration, with all the room that it ever takes: harts in space 0 that
    /// neither walk nor serve, empty TLBs and mailboxes, no open ticket, and nothing mapped.
    /// `BadLayout` exactly if `Config::check` says no, `NoMemory` if the room cannot be allocated.
    pub fn open(alloc: Global, config: &Config) -> Result<Machine, OpenFault>
        ensures bad_layout { (result ≡ Err fault.BadLayout)
            ↔ (¬ MeetsLimits MAX_FRAMES config.now) }
        ensures limits { OnOk result (MeetsLimits MAX_FRAMES config.now) }
        ensures ok { IfOk result (λ machine. Stands (setup_of config.now) machine []) }
    {
        let memory = Memory::open(alloc, config)?;
        let spaces = live_spaces(&config.spaces);
        let count = config.harts as u8;
        let harts = idle_harts(alloc, config.scheme, count)?;
        let tickets = free_tickets(alloc, count)?;
        let capacity = usize::from(config.capacity);
        let mailboxes = empty_mailboxes(alloc, count, capacity)?;
        limits_give_setup();
        Ok(Machine {
            memory,
            spaces,
            harts,
            tickets,
            mailboxes,
            capacity,
        })
    }
}
