//! The rings between all harts, as a board is opened.

ghost use Rattle.std.specs.Prelude.{◌≡◌, ◌≢◌, ◌≤◌, ◌<◌, ◌+◌, ◌++◌, ◌∷◌, [], ℕ, IfOk, OnOk, length};
ghost use Rattle.std.specs.Option.{option_map};
ghost use Rattle.shoot.specs.declared.TheConstants.{MAX_CAPACITY};
ghost use Rattle.board.specs.Ports.{element, end_of_outbox, end_of_inbox};
ghost use Rattle.board.specs.Rows.{AreLinked, IsInRow, IsNet, IsOutRow, capacity_between, capacity_of, items_at, new_inbox_of, new_outbox_of};

use crate::outbox::Outbox;
use crate::pair::ends;
use crate::receiver::Receiver;
use std::alloc::{AllocError, Global};

/// The two ends from one hart to another, none from a hart to itself.
fn ends_between(
    alloc: Global,
    capacity: usize,
    sender: usize,
    receiver: usize,
) -> Result<(Option<Outbox>, Option<Receiver>), AllocError>
    requires some { 1 ≤ capacity }
    requires bounded { capacity ≤ MAX_CAPACITY }
    ensures linked { IfOk result (λ e. option_map end_of_outbox e.0 ≡ option_map end_of_inbox e.1) }
    ensures outbox { IfOk result (λ e.
        (capacity_of (option_map end_of_outbox e.0) ≡ capacity_between capacity sender receiver)
        × (e.0 ≡ option_map new_outbox_of (option_map end_of_outbox e.0))) }
    ensures inbox { IfOk result (λ e.
        (capacity_of (option_map end_of_inbox e.1) ≡ capacity_between capacity receiver sender)
        × (e.1 ≡ option_map new_inbox_of (option_map end_of_inbox e.1))) }
{
    if receiver == sender {
        return Ok((None, None));
    }
    let (outbox, inbox) = ends(alloc, capacity)?;
    let receiver = Receiver::new(alloc, inbox, capacity)?;
    Ok((Some(outbox), Some(receiver)))
}

/// One more end in a row.
fn push_at(
    rows: &mut Vec<Vec<Option<Receiver>>>,
    number: usize,
    end: Option<Receiver>,
) -> Result<(), AllocError>
    requires { number < length rows.old.items }
    ensures own { OnOk result (items_at rows.new.items number
        ≡ items_at rows.old.items number ++ end ∷ []) }
    ensures others { OnOk result ((other : ℕ) → other ≢ number
        → items_at rows.new.items other ≡ items_at rows.old.items other) }
    ensures count { OnOk result (length rows.new.items ≡ length rows.old.items) }
{
    let row = &mut rows[number];
    row.push(end)?;
    Ok(())
}

/// The ends from one hart to each, and one more end in each row of those by which the others take.
fn open_row(
    alloc: Global,
    capacity: usize,
    harts: usize,
    sender: usize,
    inboxes: &mut Vec<Vec<Option<Receiver>>>,
) -> Result<Vec<Option<Outbox>>, AllocError>
    requires harts { length inboxes.old.items ≡ harts }
    requires some { 1 ≤ capacity }
    requires bounded { capacity ≤ MAX_CAPACITY }
    requires rows { (hart : ℕ) → hart < harts
        → IsInRow capacity hart sender (items_at inboxes.old.items hart) }
    ensures count { OnOk result (length inboxes.new.items ≡ harts) }
    ensures own { IfOk result (λ row. IsOutRow capacity sender harts row.items) }
    ensures rows { OnOk result ((hart : ℕ) → hart < harts
        → IsInRow capacity hart (sender + 1) (items_at inboxes.new.items hart)) }
    ensures kept { OnOk result ((hart number : ℕ) → hart < harts → number < sender
        → element (items_at inboxes.new.items hart) number
        ≡ element (items_at inboxes.old.items hart) number) }
    ensures linked { IfOk result (λ row. (hart : ℕ) → hart < harts
        → option_map end_of_outbox (element row.items hart)
        ≡ option_map end_of_inbox (element (items_at inboxes.new.items hart) sender)) }
{
    let mut row = Vec::new(alloc);
    for receiver in 0..harts {
        let (outbox, inbox) = ends_between(alloc, capacity, sender, receiver)?;
        row.push(outbox)?;
        push_at(inboxes, receiver, inbox)?;
    }
    Ok(row)
}

/// One empty row for each hart.
fn empty_rows(alloc: Global, harts: usize) -> Result<Vec<Vec<Option<Receiver>>>, AllocError>
    ensures count { IfOk result (λ rows. length rows.items ≡ harts) }
    ensures empty { IfOk result (λ rows. (hart : ℕ) → items_at rows.items hart ≡ []) }
{
    let mut rows = Vec::new(alloc);
    for _ in 0..harts {
        rows.push(Vec::new(alloc))?;
    }
    Ok(rows)
}

/// A ring from each hart to each other one: by sender the ends that post, and by receiver the ends
/// that take.
pub(crate) fn open_rows(
    alloc: Global,
    capacity: usize,
    harts: usize,
) -> Result<(Vec<Vec<Option<Outbox>>>, Vec<Vec<Option<Receiver>>>), AllocError>
    requires some { 1 ≤ capacity }
    requires bounded { capacity ≤ MAX_CAPACITY }
    ensures { IfOk result (λ net. IsNet capacity harts net.0.items net.1.items) }
{
    let mut inboxes = empty_rows(alloc, harts)?;
    let mut outboxes = Vec::new(alloc);
    for sender in 0..harts {
        let row = open_row(alloc, capacity, harts, sender, &mut inboxes)?;
        outboxes.push(row)?;
    }
    Ok((outboxes, inboxes))
}
