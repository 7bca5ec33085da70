//! The whole text.

ghost use Rattle.std.specs.Prelude.{◌≡◌, ◌<◌, ◌≤◌, IfErr, IfOk, length, string_bytes};
ghost use Rattle.pte.specs.declared.address.TheConstants.{TABLE_LENGTH};
ghost use Rattle.files.specs.declared.fault.Fault.TheVariants.{NoMemory};
ghost use Rattle.lines.specs.Sheet.{IsSheet, Shows};
ghost use Rattle.lines.specs.Rows.{first_line, scheme_text, steps_text};

use crate::hart_rows::{push_harts, push_services, push_tlbs};
use crate::mailbox_rows::push_mailboxes;
use crate::order_rows::push_orders;
use crate::runs::machine_after;
use crate::space_rows::push_spaces;
use crate::table_tree::tree_text;
use files::{Fault, RunScenario};
use pte::Scheme;
use spaces::Config;
use std::alloc::{AllocError, Global};
use stepcore::Machine;

fn scheme_word(scheme: Scheme) -> &'static str
    ensures { result.now ≡ scheme_text scheme }
{
    match scheme {
        Scheme::Sv39 => "sv39",
        Scheme::Sv48 => "sv48",
    }
}

/// The word behind the number of steps.
fn steps_word(steps: usize) -> &'static str
    ensures { result.now ≡ steps_text steps }
{
    if steps == 1 { " step: " } else { " steps: " }
}

/// The first line: after how many steps, and what the machine was opened with.
fn first_line(alloc: Global, steps: usize, config: &Config) -> Result<String, AllocError>
    ensures { IfOk result (λ line. string_bytes line ≡ first_line steps config.now) }
{
    let mut line = String::new(alloc);
    let (harts, window, capacity) = (config.harts, config.window, config.capacity);
    line.push_str("after ")?;
    write!(line, "{steps}")?;
    line.push_str(steps_word(steps))?;
    line.push_str(scheme_word(config.scheme))?;
    line.push_str(", harts ")?;
    write!(line, "{harts}")?;
    line.push_str(", window ")?;
    write!(line, "{window}")?;
    line.push_str(", capacity ")?;
    write!(line, "{capacity}")?;
    line.push_str("\n")?;
    Ok(line)
}

/// The text of a machine after `steps` steps, opened with a configuration.
fn sheet(
    alloc: Global,
    machine: &Machine,
    steps: usize,
    config: &Config,
) -> Result<String, AllocError>
    requires spaces { length machine.now.spaces ≡ length machine.now.memory.layout.homes }
    requires some { 0 < length machine.now.memory.layout.homes }
    requires window { config.now.window ≤ TABLE_LENGTH }
    ensures { IfOk result (λ text. IsSheet steps config.now machine.now (string_bytes text)) }
{
    let mut text = first_line(alloc, steps, config)?;
    push_spaces(alloc, &mut text, machine)?;
    push_harts(alloc, &mut text, machine)?;
    push_services(alloc, &mut text, machine)?;
    push_tlbs(alloc, &mut text, machine)?;
    push_orders(alloc, &mut text, machine)?;
    push_mailboxes(alloc, &mut text, machine, config.capacity)?;
    let tree = tree_text(alloc, machine, config.window)?;
    text.push_str(tree.as_str())?;
    Ok(text)
}

/// What `svsim show` prints of a scenario: its events are done on a machine, and then its state is
/// written as tables of text, a line of at most 100 bytes for each row. `NoMemory` is the only
/// fault.
///
/// The events are done once, in one pass, as `run` does them. What follows reads each table word
/// once and each part of the machine a fixed number of times, whatever the number of events.
pub fn show_text(alloc: Global, scenario: &RunScenario) -> Result<String, Fault>
    ensures shown { IfOk result (λ text. Shows scenario.now.config scenario.now.events.items
        (string_bytes text)) }
    ensures fault { IfErr result (λ fault. fault ≡ NoMemory) }
{
    let machine = machine_after(alloc, scenario)?;
    let text = sheet(alloc, &machine, scenario.events.len(), &scenario.config)?;
    Ok(text)
}
