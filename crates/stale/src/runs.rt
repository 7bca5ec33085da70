//! The uses of stale mappings of a run.

ghost use Rattle.std.specs.Prelude.{ℕ, ◌≡◌, ◌↔◌, IfOk};
ghost use Rattle.history.specs.Setup.{Setup};
ghost use Rattle.history.specs.Turns.{History};
ghost use Rattle.history.specs.Due.{due};
ghost use Rattle.history.specs.Runs.{with_turn};
ghost use Rattle.tlb.specs.Mappings.{Mapping};
ghost use Rattle.stepcore.specs.Stands.{Stands};
ghost use Rattle.stale.specs.Stale.{UsesStale};
ghost use Rattle.stale.specs.Uses.{Tells};
ghost use Rattle.stale.specs.UseRuns.{due_turn, history_at, IsTold, UsedAt};

use crate::hits::{StaleUse, stale_use};
use std::alloc::{AllocError, Global};
use stepcore::{Event, Machine};

/// A use of a stale mapping, and which event of a run it is.
#[derive(Clone, Copy, PartialEq, Eq, Debug)]
pub struct UseAt {
    /// The event's place in the list, from 0 on.
    pub step: usize,
    /// What it uses.
    pub used: StaleUse,
}

/// Does one event, and returns what it uses that is stale.
fn step_use(machine: &mut Machine, event: Event) -> Option<StaleUse>
    ensures stands { (setup : Setup) (history : History) → Stands setup machine.old history
        → Stands setup machine.new (with_turn event (due setup history event) history) }
    ensures used { (setup : Setup) (history : History) (hart : ℕ) (m : Mapping)
        → Stands setup machine.old history
        → UsesStale setup (due_turn setup history event) history hart m ↔ Tells result hart m }
{
    let reply = machine.step(event);
    stale_use(machine, &event, &reply)
}

/// Does the events in order, and lists each use of a stale mapping. An error comes only if there is
/// no memory for one.
pub fn stale_uses(
    alloc: Global,
    machine: &mut Machine,
    events: &[Event],
) -> Result<Vec<UseAt>, AllocError>
    ensures { IfOk result (λ uses. (setup : Setup) (history : History) (n hart : ℕ) (m : Mapping)
        → Stands setup machine.old history → UsedAt setup history events.now n hart m
        ↔ IsTold uses.items n hart m) }
{
    let mut uses = Vec::new(alloc);
    let mut step = 0;
    for event in events {
        if let Some(used) = step_use(machine, *event) {
            uses.push(UseAt { step, used })?;
        }
        step += 1;
    }
    Ok(uses)
}
