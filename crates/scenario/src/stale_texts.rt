//! From a scenario to the lines of what becomes stale in it.

ghost use Rattle.std.specs.Prelude.{◌≡◌, IfOk, IfErr, string_bytes};
ghost use Rattle.history.specs.Setup.{setup_of};
ghost use Rattle.files.specs.declared.fault.Fault.TheVariants.{NoMemory};
ghost use Rattle.scenario.specs.Printed.{Prints};

use crate::stale_items::{stale_lines, uses_in};
use files::{Fault, RunScenario};
use spaces::OpenFault;
use stale::stale_report;
use std::alloc::Global;
use stepcore::Machine;

/// What `stale` prints of a scenario.
#[derive(Drop)]
pub struct StaleText {
    /// The lines.
    pub text: String,
    /// Whether an access is answered by a stale mapping.
    pub is_used: bool,
}

/// Opens the machine of a scenario, does its steps, and lists what becomes stale and what stale
/// mappings are used. `NoMemory`: there is no memory for the machine or the lines.
pub fn stale_text(alloc: Global, scenario: &RunScenario) -> Result<StaleText, Fault>
    ensures prints { IfOk result (λ printed. Prints
        (setup_of scenario.now.config) scenario.now.events.items
        (string_bytes printed.text) printed.is_used) }
    ensures fault { IfErr result (λ fault. fault ≡ NoMemory) }
{
    let mut machine = match Machine::open(alloc, &scenario.config) {
        Ok(machine) => machine,
        Err(OpenFault::NoMemory) => return Err(Fault::NoMemory),
        Err(OpenFault::BadLayout) => return Err(Fault::Layout),
    };
    let items = stale_report(alloc, &mut machine, scenario.events.as_slice())?;
    let text = stale_lines(alloc, items.as_slice())?;
    Ok(StaleText {
        text,
        is_used: uses_in(items.as_slice()) > 0,
    })
}
