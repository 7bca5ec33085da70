//! Accesses that a TLB answers by a stale mapping.

ghost use Rattle.std.specs.Prelude.{ℕ, ◌≡◌, ◌<◌, ◌↔◌, true, length};
ghost use Rattle.history.specs.Setup.{Setup};
ghost use Rattle.history.specs.Turns.{History};
ghost use Rattle.history.specs.Runs.{with_turn};
ghost use Rattle.history.specs.declared.event.Event.TheVariants.{Begin};
ghost use Rattle.history.specs.declared.reply.Reply.{Reply as ReplyOf};
ghost use Rattle.stepcore.specs.Stands.{Stands};
ghost use Rattle.tlb.specs.Mappings.{Mapping};
ghost use Rattle.stale.specs.Stale.{is_hit, UsesStale};
ghost use Rattle.stale.specs.Uses.{Tells};

use crate::mapped::is_mapped_now;
use pte::{Access, Ctx, VirtAddr};
use stepcore::{Event, Machine, Reply};
use tlb::Entry;
use walk::flags_fault;

/// An access that a TLB answers by a stale mapping.
#[derive(Clone, Copy, PartialEq, Eq, Debug)]
pub struct StaleUse {
    /// Whose TLB it is.
    pub hart: u8,
    /// The address.
    pub va: VirtAddr,
    /// The entry that answers.
    pub entry: Entry,
}

/// Whether the reply is a hit.
fn is_hit(reply: &Reply) -> bool
    ensures { result ≡ is_hit reply.now }
{
    matches!(reply, Reply::Hit(_))
}

/// What a hit of a hart uses, if that is stale.
fn use_of(machine: &Machine, hart: u8, va: u64, access: Access, ctx: Ctx) -> Option<StaleUse>
    ensures { (setup : Setup) (history : History) (r : ReplyOf) (holder : ℕ) (m : Mapping)
        → Stands setup machine.now (with_turn (Begin hart va access ctx) r history)
        → is_hit r ≡ true
        → UsesStale setup (record { event = Begin hart va access ctx; reply = r }) history holder m
        ↔ Tells result holder m }
{
    let Some(va) = VirtAddr::new_in(machine.memory().scheme(), va) else {
        return None;
    };
    if hart >= machine.harts() {
        return None;
    }
    let Some(entry) = machine.hart(hart).lookup(machine.asid(hart), va) else {
        return None;
    };
    entry.page.recall();
    if flags_fault(entry.flags, access, ctx).is_some() {
        return None;
    }
    if is_mapped_now(machine, &entry, va, access, ctx) {
        return None;
    }
    Some(StaleUse { hart, va, entry })
}

/// What a step uses that is stale at that moment: of an access that was answered by a hit, the
/// mapping of the oldest entry that matches, if the tables do not map it so. `event` and `reply`
/// are those of the machine's last step.
pub fn stale_use(machine: &Machine, event: &Event, reply: &Reply) -> Option<StaleUse>
    ensures { (setup : Setup) (history : History) (hart : ℕ) (m : Mapping)
        → Stands setup machine.now (with_turn event.now reply.now history)
        → UsesStale setup (record { event = event.now; reply = reply.now }) history hart m
        ↔ Tells result hart m }
{
    match *event {
        Event::Begin {
            hart,
            va,
            access,
            ctx,
        } => {
            if is_hit(reply) {
                use_of(machine, hart, va, access, ctx)
            } else {
                None
            }
        }
        _ => None,
    }
}
