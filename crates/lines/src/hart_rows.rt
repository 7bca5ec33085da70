//! Harts: where they run, what they walk for, what they serve, and what their TLBs hold.

ghost use Rattle.std.specs.Prelude.{◌≡◌, ◌++◌, IfOk, OnOk, Some, string_bytes};
ghost use Rattle.lines.specs.Sheet.{entry_row, entry_rows, harts_text, service_row, services_text, tlbs_text};
ghost use Rattle.lines.specs.Rows.{access_text, hart_line, service_line, with_walk};

use crate::columns::{pad, push_table};
use crate::entries::{ENTRY_HEAD, entry_line};
use crate::replies::push_what;
use pte::Access;
use std::alloc::{AllocError, Global};
use stepcore::{Hart, Machine, Serving};
use tlb::Entry;
use walk::Walk;

/// The columns of harts.
const HART_HEAD: &str = "hart  space  asid   walk   address             level  table\n";

/// The columns of requests that harts serve.
const SERVICE_HEAD: &str = "hart  serves  ticket  fenced  drops\n";

fn access_word(access: Access) -> &'static str
    ensures { result.now ≡ access_text access }
{
    match access {
        Access::Fetch => "fetch",
        Access::Load => "load",
        Access::Store => "store",
    }
}

/// Adds the columns of a walk in flight.
fn push_walk(line: &mut String, walk: Walk) -> Result<(), AllocError>
    ensures ok { OnOk result (string_bytes line.new
        ≡ with_walk (string_bytes line.old) (Some walk)) }
{
    let va = walk.va().get();
    let level = walk.level();
    let (table, _index) = walk.wants();
    line.push_str(access_word(walk.access()))?;
    pad(line, 27)?;
    write!(line, "0x{va:x}")?;
    pad(line, 47)?;
    write!(line, "{level}")?;
    pad(line, 54)?;
    write!(line, "0x{table:x}")
}

/// The line of a hart in a space of an ASID.
fn hart_line(alloc: Global, number: u8, hart: &Hart, asid: u16) -> Result<String, AllocError>
    ensures { IfOk result (λ line. string_bytes line ≡ hart_line number hart.now asid) }
{
    let mut line = String::new(alloc);
    let space = hart.space();
    write!(line, "{number}")?;
    pad(&mut line, 6)?;
    write!(line, "{space}")?;
    pad(&mut line, 13)?;
    write!(line, "{asid}")?;
    pad(&mut line, 20)?;
    match hart.walk() {
        Some(walk) => push_walk(&mut line, walk)?,
        None => line.push_str("-")?,
    }
    line.push_str("\n")?;
    Ok(line)
}

/// The line of a request that a hart serves.
fn service_line(alloc: Global, number: u8, serving: &Serving) -> Result<String, AllocError>
    ensures { IfOk result (λ line. string_bytes line ≡ service_line number serving.now) }
{
    let mut line = String::new(alloc);
    let from = serving.from;
    let ticket = serving.request.ticket;
    write!(line, "{number}")?;
    pad(&mut line, 6)?;
    write!(line, "{from}")?;
    pad(&mut line, 14)?;
    write!(line, "{ticket}")?;
    pad(&mut line, 22)?;
    line.push_str(if serving.fenced { "yes" } else { "no" })?;
    pad(&mut line, 30)?;
    push_what(&mut line, serving.request.what)?;
    line.push_str("\n")?;
    Ok(line)
}

/// Adds the table of the harts.
pub(crate) fn push_harts(
    alloc: Global,
    text: &mut String,
    machine: &Machine,
) -> Result<(), AllocError>
    ensures ok { OnOk result (string_bytes text.new ≡ string_bytes text.old
        ++ harts_text machine.now) }
{
    let mut rows = String::new(alloc);
    for number in 0..machine.harts() {
        let line = hart_line(alloc, number, machine.hart(number), machine.asid(number))?;
        rows.push_str(line.as_str())?;
    }
    push_table(text, HART_HEAD, rows.as_str())
}

/// Adds the request that a hart serves, if there is one.
fn push_service(
    alloc: Global,
    rows: &mut String,
    number: u8,
    serving: Option<Serving>,
) -> Result<(), AllocError>
    ensures ok { OnOk result (string_bytes rows.new ≡ string_bytes rows.old
        ++ service_row number serving) }
{
    if let Some(serving) = serving {
        let line = service_line(alloc, number, &serving)?;
        rows.push_str(line.as_str())?;
    }
    Ok(())
}

/// Adds the table of the requests that harts serve, if there is one.
pub(crate) fn push_services(
    alloc: Global,
    text: &mut String,
    machine: &Machine,
) -> Result<(), AllocError>
    ensures ok { OnOk result (string_bytes text.new ≡ string_bytes text.old
        ++ services_text machine.now) }
{
    let mut rows = String::new(alloc);
    for number in 0..machine.harts() {
        push_service(alloc, &mut rows, number, machine.hart(number).serving())?;
    }
    push_table(text, SERVICE_HEAD, rows.as_str())
}

/// Adds the entry of an age, if there is one.
fn push_entry(
    alloc: Global,
    rows: &mut String,
    number: u8,
    age: usize,
    entry: Option<Entry>,
) -> Result<(), AllocError>
    ensures ok { OnOk result (string_bytes rows.new ≡ string_bytes rows.old
        ++ entry_row number age entry) }
{
    if let Some(entry) = entry {
        let line = entry_line(alloc, number, age, &entry)?;
        rows.push_str(line.as_str())?;
    }
    Ok(())
}

/// Adds the entries of the TLB of a hart, the oldest first.
fn push_entries(alloc: Global, rows: &mut String, number: u8, hart: &Hart) -> Result<(), AllocError>
    ensures ok { OnOk result (string_bytes rows.new ≡ string_bytes rows.old
        ++ entry_rows number hart.now.entries) }
{
    for age in 0..hart.tlb().len() {
        push_entry(alloc, rows, number, age, hart.tlb().entry(age))?;
    }
    Ok(())
}

/// Adds the table of the TLBs' entries, if there is one.
pub(crate) fn push_tlbs(
    alloc: Global,
    text: &mut String,
    machine: &Machine,
) -> Result<(), AllocError>
    ensures ok { OnOk result (string_bytes text.new ≡ string_bytes text.old
        ++ tlbs_text machine.now) }
{
    let mut rows = String::new(alloc);
    for number in 0..machine.harts() {
        push_entries(alloc, &mut rows, number, machine.hart(number))?;
    }
    push_table(text, ENTRY_HEAD, rows.as_str())
}
