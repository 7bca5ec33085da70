//! First steps: an address that is translated over tables of one's own, and a machine that is
//! opened and run.

use pte::{Access, Ctx};
use std::alloc::Global;
use stepcore::{Config, Event, Machine, Reply};
use walk::{Found, Trap, Words, translate};

/// One root table, at PPN 0x80000.
#[derive(Drop)]
pub struct Root(pub Vec<u64>);

impl Words for Root {
    ghost use Rattle.std.specs.Prelude.{None, nat_eq, if◌then◌else◌};
    ghost use Rattle.std.specs.List.{slice_get};

    ghost words = { λ root ppn index. if nat_eq ppn 0x80000 then slice_get root.0.items index else None };

    fn word(&self, ppn: u64, index: u16) -> Option<u64> {
        let word = self.0.get(usize::from(index)).copied();
        if ppn == 0x8_0000 { word } else { None }
    }
}

/// Where a load from an address leads: to the physical address of its leaf, or to an exception.
pub fn load_from(root: &Root, va: u64, ctx: Ctx) -> Result<Found, Trap> {
    translate(root, 0x8_0000, va, Access::Load, ctx)
}

/// What a new machine replies to these events. `None` if the configuration breaks a limit, or there
/// is no memory.
pub fn replies_to(alloc: Global, config: &Config, events: &[Event]) -> Option<Vec<Reply>> {
    let mut machine = Machine::open(alloc, config).ok()?;
    let mut replies = Vec::new(alloc);
    machine.run(events, &mut replies).ok()?;
    Some(replies)
}
