//! Spaces.

ghost use Rattle.std.specs.Prelude.{◌≡◌, ◌++◌, IfOk, OnOk, length, string_bytes};
ghost use Rattle.lines.specs.Sheet.{spaces_text};
ghost use Rattle.lines.specs.Rows.{asid_text, phase_text, space_line};

use crate::columns::{pad, push_table};
use spaces::Place;
use std::alloc::{AllocError, Global};
use stepcore::{Machine, Phase, SpaceState};

/// The columns of spaces.
const SPACE_HEAD: &str = "space  asid   home  root           state\n";

/// Adds the ASID of a space, if it has one.
fn push_asid(line: &mut String, asid: u16, phase: Phase) -> Result<(), AllocError>
    ensures ok { OnOk result (string_bytes line.new ≡ string_bytes line.old
        ++ asid_text asid phase) }
{
    match phase {
        Phase::Live | Phase::Retiring(_) => write!(line, "{asid}"),
        Phase::Free => line.push_str("-"),
    }
}

/// Adds the phase of a space.
fn push_phase(line: &mut String, phase: Phase) -> Result<(), AllocError>
    ensures ok { OnOk result (string_bytes line.new ≡ string_bytes line.old ++ phase_text phase) }
{
    match phase {
        Phase::Live => line.push_str("live"),
        Phase::Retiring(Some(ticket)) => write!(line, "retiring, ticket {ticket}"),
        Phase::Retiring(None) => line.push_str("retiring, ticket finished"),
        Phase::Free => line.push_str("free"),
    }
}

/// The line of a space.
fn space_line(
    alloc: Global,
    space: u8,
    state: SpaceState,
    home: u8,
    root: u64,
) -> Result<String, AllocError>
    ensures { IfOk result (λ line. string_bytes line ≡ space_line space state home root) }
{
    let mut line = String::new(alloc);
    write!(line, "{space}")?;
    pad(&mut line, 7)?;
    push_asid(&mut line, state.asid, state.phase)?;
    pad(&mut line, 14)?;
    write!(line, "{home}")?;
    pad(&mut line, 20)?;
    write!(line, "0x{root:x}")?;
    pad(&mut line, 35)?;
    push_phase(&mut line, state.phase)?;
    line.push_str("\n")?;
    Ok(line)
}

/// Adds the table of the spaces.
pub(crate) fn push_spaces(
    alloc: Global,
    text: &mut String,
    machine: &Machine,
) -> Result<(), AllocError>
    requires { length machine.now.spaces ≡ length machine.now.memory.layout.homes }
    ensures ok { OnOk result (string_bytes text.new ≡ string_bytes text.old
        ++ spaces_text machine.now) }
{
    let mut rows = String::new(alloc);
    let memory = machine.memory();
    for space in 0..machine.spaces() {
        let home = memory.home(Place::Space(space));
        let root = memory.root(space);
        let line = space_line(alloc, space, machine.space(space), home, root)?;
        rows.push_str(line.as_str())?;
    }
    push_table(text, SPACE_HEAD, rows.as_str())
}
