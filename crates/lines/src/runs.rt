//! The machine after the steps of a file, and its replies to them.

ghost use Rattle.std.specs.Prelude.{◌≡◌, ◌<◌, ◌≤◌, [], IfErr, IfOk, OnOk, length};
ghost use Rattle.pte.specs.declared.address.TheConstants.{TABLE_LENGTH};
ghost use Rattle.history.specs.Runs.{due_replies};
ghost use Rattle.history.specs.Setup.{setup_of};
ghost use Rattle.files.specs.declared.fault.Fault.TheVariants.{NoMemory};
ghost use Rattle.stepcore.specs.Stands.{Stands};
ghost use Rattle.lines.specs.Runs.{due_history};

use files::{Fault, RunScenario};
use history::Reply;
use spaces::OpenFault;
use std::alloc::Global;
use stepcore::Machine;

/// The machine of a scenario, after all its events.
pub(crate) fn machine_after(alloc: Global, scenario: &RunScenario) -> Result<Machine, Fault>
    ensures stands { IfOk result (λ machine. Stands (setup_of scenario.now.config) machine
        (due_history (setup_of scenario.now.config) scenario.now.events.items)) }
    ensures spaces { IfOk result (λ machine. length machine.spaces
        ≡ length machine.memory.layout.homes) }
    ensures some { IfOk result (λ machine. 0 < length machine.memory.layout.homes) }
    ensures window { OnOk result (scenario.now.config.window ≤ TABLE_LENGTH) }
    ensures fault { IfErr result (λ fault. fault ≡ NoMemory) }
{
    let mut machine = match Machine::open(alloc, &scenario.config) {
        Ok(machine) => machine,
        Err(OpenFault::NoMemory) => return Err(Fault::NoMemory),
        Err(OpenFault::BadLayout) => return Err(Fault::Layout),
    };
    let mut replies = Vec::with_capacity(alloc, scenario.events.len())?;
    machine.run(scenario.events.as_slice(), &mut replies)?;
    Ok(machine)
}

/// The replies to the steps of a scenario, from the opening on. `NoMemory`: there is no memory for the
/// machine or the replies.
pub fn run_replies(alloc: Global, scenario: &RunScenario) -> Result<Vec<Reply>, Fault>
    ensures due { IfOk result (λ replies. replies.items ≡ due_replies (setup_of scenario.now.config)
        [] scenario.now.events.items) }
    ensures fault { IfErr result (λ fault. fault ≡ NoMemory) }
{
    let mut machine = match Machine::open(alloc, &scenario.config) {
        Ok(machine) => machine,
        Err(OpenFault::NoMemory) => return Err(Fault::NoMemory),
        Err(OpenFault::BadLayout) => return Err(Fault::Layout),
    };
    let mut replies = Vec::with_capacity(alloc, scenario.events.len())?;
    machine.run(scenario.events.as_slice(), &mut replies)?;
    Ok(replies)
}
