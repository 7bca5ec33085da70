//! Open orders.

ghost use Rattle.std.specs.Prelude.{◌≡◌, ◌++◌, IfOk, IsTrue, OnOk, Some, string_bytes};
ghost use Rattle.shoot.specs.Tickets.{ticket_acked, ticket_collected, is_open, ticket_posted, names, what_at};
ghost use Rattle.lines.specs.Marks.{is_marked};
ghost use Rattle.lines.specs.Sheet.{order_row, order_rows, orders_text};
ghost use Rattle.lines.specs.Rows.{marks_text, order_line};

use crate::columns::{pad, push_table};
use crate::replies::push_what;
use shoot::{MAX_TICKETS, Tickets};
use std::alloc::{AllocError, Global};
use stepcore::Machine;

/// The columns of open orders.
const ORDER_HEAD: &str = "hart  ticket  named     posted    acknowledged  collected  drops\n";

/// What an order knows of a hart.
#[derive(Clone, Copy, PartialEq, Eq, Debug)]
enum Mark {
    Named,
    Posted,
    Acknowledged,
    Collected,
}

/// Whether a hart has the mark for an open order.
fn is_marked(tickets: &Tickets, ticket: u32, mark: Mark, hart: u8) -> bool
    requires { IsTrue (is_open tickets.now ticket) }
    ensures { result ≡ is_marked tickets.now ticket mark hart }
{
    match mark {
        Mark::Named => tickets.names(ticket, hart),
        Mark::Posted => tickets.is_posted(ticket, hart),
        Mark::Acknowledged => tickets.is_acked(ticket, hart),
        Mark::Collected => tickets.is_collected(ticket, hart),
    }
}

/// Adds a place for each hart: its number where it has the mark, and `-` where not.
fn push_marked(
    line: &mut String,
    harts: u8,
    tickets: &Tickets,
    ticket: u32,
    mark: Mark,
) -> Result<(), AllocError>
    requires { IsTrue (is_open tickets.now ticket) }
    ensures ok { OnOk result (string_bytes line.new ≡ string_bytes line.old
        ++ marks_text harts (is_marked tickets.now ticket mark)) }
{
    for hart in 0..harts {
        if is_marked(tickets, ticket, mark, hart) {
            write!(line, "{hart}")?;
        } else {
            line.push_str("-")?;
        }
    }
    Ok(())
}

/// The line of an open order.
fn order_line(
    alloc: Global,
    harts: u8,
    hart: u8,
    tickets: &Tickets,
    ticket: u32,
) -> Result<String, AllocError>
    requires { IsTrue (is_open tickets.now ticket) }
    ensures { IfOk result (λ line. string_bytes line
        ≡ order_row harts hart tickets.now ticket (what_at tickets.now ticket)) }
{
    let mut line = String::new(alloc);
    write!(line, "{hart}")?;
    pad(&mut line, 6)?;
    write!(line, "{ticket}")?;
    pad(&mut line, 14)?;
    push_marked(&mut line, harts, tickets, ticket, Mark::Named)?;
    pad(&mut line, 24)?;
    push_marked(&mut line, harts, tickets, ticket, Mark::Posted)?;
    pad(&mut line, 34)?;
    push_marked(&mut line, harts, tickets, ticket, Mark::Acknowledged)?;
    pad(&mut line, 48)?;
    push_marked(&mut line, harts, tickets, ticket, Mark::Collected)?;
    pad(&mut line, 59)?;
    push_what(&mut line, tickets.what(ticket))?;
    line.push_str("\n")?;
    Ok(line)
}

/// Adds the order of a ticket, if it is open.
fn push_order(
    alloc: Global,
    rows: &mut String,
    harts: u8,
    hart: u8,
    tickets: &Tickets,
    ticket: u32,
) -> Result<(), AllocError>
    ensures ok { OnOk result (string_bytes rows.new ≡ string_bytes rows.old
        ++ order_row harts hart tickets.now ticket (what_at tickets.now ticket)) }
{
    if tickets.is_open(ticket) {
        let line = order_line(alloc, harts, hart, tickets, ticket)?;
        rows.push_str(line.as_str())?;
    }
    Ok(())
}

/// Adds the open orders of a hart.
fn push_orders_of(
    alloc: Global,
    rows: &mut String,
    harts: u8,
    hart: u8,
    tickets: &Tickets,
) -> Result<(), AllocError>
    ensures ok { OnOk result (string_bytes rows.new ≡ string_bytes rows.old
        ++ order_rows harts hart tickets.now) }
{
    for ticket in 0..MAX_TICKETS as u32 {
        push_order(alloc, rows, harts, hart, tickets, ticket)?;
    }
    Ok(())
}

/// Adds the table of the open orders, if there is one.
pub(crate) fn push_orders(
    alloc: Global,
    text: &mut String,
    machine: &Machine,
) -> Result<(), AllocError>
    ensures ok { OnOk result (string_bytes text.new ≡ string_bytes text.old
        ++ orders_text machine.now) }
{
    let harts = machine.harts();
    let mut rows = String::new(alloc);
    for hart in 0..harts {
        push_orders_of(alloc, &mut rows, harts, hart, machine.tickets(hart))?;
    }
    push_table(text, ORDER_HEAD, rows.as_str())
}
