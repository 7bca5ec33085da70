//! Mailboxes with requests that are outstanding, and those that are closed.

ghost use Rattle.std.specs.Prelude.{◌≡◌, ◌++◌, ◌<◌, length, IfOk, OnOk, string_bytes};
ghost use Rattle.lines.specs.Sheet.{mailbox_rows, mailbox_rows_from, mailbox_rows_if, mailboxes_text, waiting_row};
ghost use Rattle.lines.specs.Rows.{mailbox_line, waiting_line, with_first, with_request, with_state};

use crate::columns::{pad, push_table};
use crate::replies::push_what;
use shoot::{MAX_CAPACITY, Mailbox, Request};
use std::alloc::{AllocError, Global};
use stepcore::Machine;

/// The columns of mailboxes.
const MAILBOX_HEAD: &str = "from  to  mailbox  outstanding  ticket  drops\n";

/// Adds the columns of a request that waits.
fn push_request(line: &mut String, request: Request) -> Result<(), AllocError>
    ensures ok { OnOk result (string_bytes line.new
        ≡ with_request (string_bytes line.old) request) }
{
    let ticket = request.ticket;
    pad(line, 32)?;
    write!(line, "{ticket}")?;
    pad(line, 40)?;
    push_what(line, request.what)
}

/// Adds whether a mailbox is open, and how many of its requests are outstanding.
fn push_state(line: &mut String, mailbox: &Mailbox, capacity: u16) -> Result<(), AllocError>
    ensures ok { OnOk result (string_bytes line.new
        ≡ with_state (string_bytes line.old) mailbox.now capacity) }
{
    let outstanding = mailbox.outstanding();
    pad(line, 10)?;
    line.push_str(if mailbox.is_closed() {
        "closed"
    } else {
        "open"
    })?;
    pad(line, 19)?;
    write!(line, "{outstanding} of {capacity}")
}

/// Adds the columns of the oldest request that waits, if there is one.
fn push_first(line: &mut String, first: Option<Request>) -> Result<(), AllocError>
    ensures ok { OnOk result (string_bytes line.new
        ≡ with_first (string_bytes line.old) first) }
{
    match first {
        Some(request) => push_request(line, request),
        None => {
            pad(line, 32)?;
            line.push_str("-")
        }
    }
}

/// The line of a mailbox, with the oldest request that waits.
fn mailbox_line(
    alloc: Global,
    from: u8,
    to: u8,
    mailbox: &Mailbox,
    capacity: u16,
) -> Result<String, AllocError>
    ensures { IfOk result (λ line. string_bytes line ≡ mailbox_line from to mailbox.now capacity) }
{
    let mut line = String::new(alloc);
    write!(line, "{from}")?;
    pad(&mut line, 6)?;
    write!(line, "{to}")?;
    push_state(&mut line, mailbox, capacity)?;
    push_first(&mut line, mailbox.first_waiting())?;
    line.push_str("\n")?;
    Ok(line)
}

/// The line of a request that waits behind others.
fn waiting_line(alloc: Global, request: Request) -> Result<String, AllocError>
    ensures { IfOk result (λ line. string_bytes line ≡ waiting_line request) }
{
    let mut line = String::new(alloc);
    push_request(&mut line, request)?;
    line.push_str("\n")?;
    Ok(line)
}

/// Adds the request that waits in a place, if there is one.
fn push_waiting(
    alloc: Global,
    rows: &mut String,
    waiting: Option<Request>,
) -> Result<(), AllocError>
    ensures ok { OnOk result (string_bytes rows.new ≡ string_bytes rows.old
        ++ waiting_row waiting) }
{
    if let Some(request) = waiting {
        let line = waiting_line(alloc, request)?;
        rows.push_str(line.as_str())?;
    }
    Ok(())
}

/// Adds a mailbox with all requests that wait, the oldest first.
fn push_mailbox(
    alloc: Global,
    rows: &mut String,
    from: u8,
    to: u8,
    mailbox: &Mailbox,
    capacity: u16,
) -> Result<(), AllocError>
    ensures ok { OnOk result (string_bytes rows.new ≡ string_bytes rows.old
        ++ mailbox_rows from to mailbox.now capacity) }
{
    let first = mailbox_line(alloc, from, to, mailbox, capacity)?;
    rows.push_str(first.as_str())?;
    for place in 0..MAX_CAPACITY {
        push_waiting(alloc, rows, mailbox.waiting(place + 1))?;
    }
    Ok(())
}

/// Adds a mailbox, if it is closed or has requests that are outstanding.
fn push_mailbox_if(
    alloc: Global,
    rows: &mut String,
    from: u8,
    to: u8,
    mailbox: &Mailbox,
    capacity: u16,
) -> Result<(), AllocError>
    ensures ok { OnOk result (string_bytes rows.new ≡ string_bytes rows.old
        ++ mailbox_rows_if from to mailbox.now capacity) }
{
    if mailbox.is_closed() || mailbox.outstanding() > 0 {
        push_mailbox(alloc, rows, from, to, mailbox, capacity)
    } else {
        Ok(())
    }
}

/// Adds the mailboxes of a sender.
fn push_mailboxes_from(
    alloc: Global,
    rows: &mut String,
    machine: &Machine,
    from: u8,
    capacity: u16,
) -> Result<(), AllocError>
    requires { from < length machine.now.harts }
    ensures ok { OnOk result (string_bytes rows.new ≡ string_bytes rows.old
        ++ mailbox_rows_from machine.now capacity from (length machine.now.harts)) }
{
    for to in 0..machine.harts() {
        push_mailbox_if(alloc, rows, from, to, machine.mailbox(from, to), capacity)?;
    }
    Ok(())
}

/// Adds the table of the mailboxes that are closed or have requests that are outstanding, if there
/// is one.
pub(crate) fn push_mailboxes(
    alloc: Global,
    text: &mut String,
    machine: &Machine,
    capacity: u16,
) -> Result<(), AllocError>
    ensures ok { OnOk result (string_bytes text.new ≡ string_bytes text.old
        ++ mailboxes_text machine.now capacity) }
{
    let mut rows = String::new(alloc);
    for from in 0..machine.harts() {
        push_mailboxes_from(alloc, &mut rows, machine, from, capacity)?;
    }
    push_table(text, MAILBOX_HEAD, rows.as_str())
}
