//! What becomes stale in a run, and what stale mappings it uses.

ghost use Rattle.std.specs.Prelude.{ℕ, ◌≡◌, ◌<◌, ◌^◌, ◌↔◌, ◌⊎◌, Some, IfSome, OnOk, IfOk, Contains, length};
ghost use Rattle.pte.specs.declared.entry.TheConstants.{PPN_BITS};
ghost use Rattle.history.specs.Setup.{Setup};
ghost use Rattle.history.specs.Turns.{History, opened_ticket};
ghost use Rattle.history.specs.Due.{due};
ghost use Rattle.history.specs.Runs.{with_turn};
ghost use Rattle.tlb.specs.declared.store.Entry.{Entry as EntryOf};
ghost use Rattle.tlb.specs.Mappings.{Mapping};
ghost use Rattle.stepcore.specs.Stands.{Stands};
ghost use Rattle.stale.specs.declared.items.StaleAt.{StaleAt as StaleAtOf};
ghost use Rattle.stale.specs.Stale.{BecomesStale, UsesStale};
ghost use Rattle.stale.specs.UseRuns.{due_turn};
ghost use Rattle.stale.specs.Told.{home_in, AddsOnce, AreBefore, AreDifferent, BecomesBy, EntryBecomesBy, EntryBecomesStale, HoldOnce, InOrder, InOrderTo, IsEditOf, IsOfChange, IsOfEntries, IsOfEntry, IsOfHarts, IsOfUse, IsToldBecoming, IsToldEntry, IsToldOrder, IsToldUse, OpensBy, TellsOnce, UsedBy};

use crate::changes::{Change, change_of, is_held, smaller};
use crate::hits::{StaleUse, stale_use};
use crate::items::{BecameStale, StaleAt, StaleItem};
use std::alloc::{AllocError, Global};
use stepcore::{Event, Machine, Reply};
use tlb::{Entry, Tlb};

/// An edit that opened an order: when, of whom, under which ticket, and the leaf that it changed.
#[derive(Clone, Copy, PartialEq, Eq, Debug)]
struct Opening {
    step: usize,
    home: u8,
    ticket: u32,
    change: Change,
}

/// Adds what became stale of an entry, if there is one.
fn tell_entry(
    opening: &Opening,
    hart: u8,
    entry: Option<Entry>,
    items: &mut Vec<StaleAt>,
) -> Result<(), AllocError>
    requires { opening.now.change.ppn < 2 ^ PPN_BITS }
    ensures told { OnOk result ((item : StaleAtOf) → Contains items.new.items item
        ↔ (Contains items.old.items item ⊎ IsOfEntry opening.now hart entry item)) }
    ensures in_order { OnOk result (InOrderTo items.old.items opening.now.step
        → InOrderTo items.new.items opening.now.step) }
    ensures once { OnOk result (AddsOnce (λ item. IsOfEntry opening.now hart entry item)
        items.old.items items.new.items) }
{
    let Some(entry) = entry else {
        return Ok(());
    };
    if is_held(&opening.change, &entry) {
        let became = BecameStale {
            hart,
            entry,
            page: smaller(entry.page, opening.change.page),
            home: opening.home,
            ticket: opening.ticket,
        };
        items.push(StaleAt {
            step: opening.step,
            item: StaleItem::Became(became),
        })?;
    }
    Ok(())
}

/// Adds what became stale of a TLB.
fn tell_tlb(
    opening: &Opening,
    hart: u8,
    tlb: &Tlb,
    items: &mut Vec<StaleAt>,
) -> Result<(), AllocError>
    requires { opening.now.change.ppn < 2 ^ PPN_BITS }
    ensures told { OnOk result ((item : StaleAtOf) → Contains items.new.items item
        ↔ (Contains items.old.items item ⊎ IsOfEntries opening.now hart tlb.now.entries
        (length tlb.now.entries) item)) }
    ensures in_order { OnOk result (InOrderTo items.old.items opening.now.step
        → InOrderTo items.new.items opening.now.step) }
    ensures once { OnOk result (AreDifferent tlb.now.entries
        → AddsOnce (λ item. IsOfEntries opening.now hart tlb.now.entries
        (length tlb.now.entries) item) items.old.items items.new.items) }
{
    for age in 0..tlb.len() {
        tell_entry(opening, hart, tlb.entry(age), items)?;
    }
    Ok(())
}

/// Adds what became stale of each TLB.
fn tell_tlbs(
    machine: &Machine,
    opening: &Opening,
    items: &mut Vec<StaleAt>,
) -> Result<(), AllocError>
    requires { opening.now.change.ppn < 2 ^ PPN_BITS }
    ensures told { OnOk result ((item : StaleAtOf) → Contains items.new.items item
        ↔ (Contains items.old.items item ⊎ IsOfHarts machine.now opening.now
        (length machine.now.harts) item)) }
    ensures in_order { OnOk result (InOrderTo items.old.items opening.now.step
        → InOrderTo items.new.items opening.now.step) }
    ensures once { OnOk result (HoldOnce machine.now
        → AddsOnce (λ item. IsOfHarts machine.now opening.now (length machine.now.harts) item)
        items.old.items items.new.items) }
{
    for hart in 0..machine.harts() {
        tell_tlb(opening, hart, machine.hart(hart).tlb(), items)?;
    }
    Ok(())
}

/// The hart of an unmapping or a change of flags.
fn home_of(event: &Event) -> u8
    ensures { result ≡ home_in event.now }
{
    match *event {
        Event::Unmap { hart, .. } => hart,
        Event::Protect { hart, .. } => hart,
        _ => 0,
    }
}

/// Adds what became stale by the change of a leaf, if its event was answered by a ticket.
fn tell_change(
    machine: &Machine,
    change: Option<Change>,
    home: u8,
    reply: &Reply,
    step: usize,
    items: &mut Vec<StaleAt>,
) -> Result<(), AllocError>
    requires { IfSome change (λ change. change.ppn < 2 ^ PPN_BITS) }
    ensures told { OnOk result ((item : StaleAtOf) → Contains items.new.items item
        ↔ (Contains items.old.items item ⊎ IsOfChange machine.now change home step
        (opened_ticket reply.now) item)) }
    ensures in_order { OnOk result (InOrderTo items.old.items step
        → InOrderTo items.new.items step) }
    ensures once { OnOk result (HoldOnce machine.now
        → AddsOnce (λ item. IsOfChange machine.now change home step (opened_ticket reply.now) item)
        items.old.items items.new.items) }
{
    let Some(change) = change else {
        return Ok(());
    };
    let Reply::Opened(ticket) = *reply else {
        return Ok(());
    };
    let opening = Opening {
        step,
        home,
        ticket,
        change,
    };
    tell_tlbs(machine, &opening, items)
}

/// Adds a use, if there is one.
#[tactic(auto, using(crate::proofs::Once::once_use))]
fn tell_use(used: Option<StaleUse>, step: usize, items: &mut Vec<StaleAt>) -> Result<(), AllocError>
    ensures told { OnOk result ((item : StaleAtOf) → Contains items.new.items item
        ↔ (Contains items.old.items item ⊎ IsOfUse used step item)) }
    ensures in_order { OnOk result (InOrderTo items.old.items step
        → InOrderTo items.new.items step) }
    ensures once { OnOk result (AddsOnce (λ item. IsOfUse used step item)
        items.old.items items.new.items) }
{
    if let Some(used) = used {
        items.push(StaleAt {
            step,
            item: StaleItem::Used(used),
        })?;
    }
    Ok(())
}

/// Does one event, which is the step of this number, and adds what becomes stale by it and what
/// stale mapping it uses: an item for each entry some of whose mappings become stale, with the hart
/// of the event and the ticket of the order that it opened. An error comes only if there is no
/// memory for an item: the event is done all the same.
pub fn step_stale(
    machine: &mut Machine,
    event: Event,
    step: usize,
    items: &mut Vec<StaleAt>,
) -> Result<Reply, AllocError>
    ensures stands { (setup : Setup) (history : History) → Stands setup machine.old history
        → Stands setup machine.new (with_turn event (due setup history event) history) }
    ensures reply { IfOk result (λ reply. (setup : Setup) (history : History)
        → Stands setup machine.old history → reply ≡ due setup history event) }
    ensures became { OnOk result ((setup : Setup) (history : History) (n hart : ℕ) (m : Mapping)
        → Stands setup machine.old history
        → IsToldBecoming items.new.items n hart m
        ↔ (IsToldBecoming items.old.items n hart m
        ⊎ ((n ≡ step) × BecomesStale setup (due_turn setup history event) history hart m))) }
    ensures used { OnOk result ((setup : Setup) (history : History) (n hart : ℕ) (m : Mapping)
        → Stands setup machine.old history
        → IsToldUse items.new.items n hart m
        ↔ (IsToldUse items.old.items n hart m
        ⊎ ((n ≡ step) × UsesStale setup (due_turn setup history event) history hart m))) }
    ensures entries { OnOk result ((setup : Setup) (history : History) (n hart : ℕ) (e : EntryOf)
        → Stands setup machine.old history
        → IsToldEntry items.new.items n hart e
        ↔ (IsToldEntry items.old.items n hart e ⊎ ((n ≡ step)
        × EntryBecomesStale setup (due_turn setup history event) history hart e))) }
    ensures orders { OnOk result ((setup : Setup) (history : History) (n home ticket : ℕ)
        → Stands setup machine.old history → IsToldOrder items.new.items n home ticket
        → IsToldOrder items.old.items n home ticket ⊎ ((n ≡ step) × IsEditOf home event
        × (opened_ticket (due setup history event) ≡ Some ticket))) }
    ensures in_order { OnOk result (InOrderTo items.old.items step
        → InOrderTo items.new.items step) }
    ensures once { OnOk result ((setup : Setup) (history : History)
        → Stands setup machine.old history → AreBefore items.old.items step
        → TellsOnce items.old.items → TellsOnce items.new.items) }
{
    let change = change_of(machine, &event);
    let reply = machine.step(event);
    let used = stale_use(machine, &event, &reply);
    tell_change(machine, change, home_of(&event), &reply, step, items)?;
    tell_use(used, step, items)?;
    Ok(reply)
}

/// Does the events in order, and lists what becomes stale and what stale mappings are used: items
/// in the order of the steps, none of them twice. An error comes only if there is no memory for it.
pub fn stale_report(
    alloc: Global,
    machine: &mut Machine,
    events: &[Event],
) -> Result<Vec<StaleAt>, AllocError>
    ensures became { IfOk result (λ items. (setup : Setup) (history : History) (number hart : ℕ)
        (m : Mapping) → Stands setup machine.old history
        → BecomesBy setup history events.now number hart m
        ↔ IsToldBecoming items.items number hart m) }
    ensures used { IfOk result (λ items. (setup : Setup) (history : History) (number hart : ℕ)
        (m : Mapping) → Stands setup machine.old history
        → UsedBy setup history events.now number hart m ↔ IsToldUse items.items number hart m) }
    ensures entries { IfOk result (λ items. (setup : Setup) (history : History)
        (number hart : ℕ) (e : EntryOf) → Stands setup machine.old history
        → EntryBecomesBy setup history events.now number hart e
        ↔ IsToldEntry items.items number hart e) }
    ensures orders { IfOk result (λ items. (setup : Setup) (history : History)
        (number home ticket : ℕ) → Stands setup machine.old history
        → IsToldOrder items.items number home ticket
        → OpensBy setup history events.now number home ticket) }
    ensures in_order { IfOk result (λ items. InOrder items.items) }
    ensures once { IfOk result (λ items. (setup : Setup) (history : History)
        → Stands setup machine.old history → TellsOnce items.items) }
{
    let mut items = Vec::new(alloc);
    let mut step = 0;
    for event in events {
        step += 1;
        let _reply = step_stale(machine, *event, step, &mut items)?;
    }
    Ok(items)
}
