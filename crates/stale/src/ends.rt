//! Which steps can end that a TLB holds a stale mapping.

ghost use Rattle.std.specs.Prelude.{ℕ, ◌≡◌, ◌↔◌, false};
ghost use Rattle.pte.specs.Address.{Span};
ghost use Rattle.tlb.specs.declared.store.Entry.{Entry};
ghost use Rattle.tlb.specs.Mappings.{Mapping};
ghost use Rattle.history.specs.Setup.{Setup};
ghost use Rattle.history.specs.Turns.{History};
ghost use Rattle.history.specs.Runs.{with_turn};
ghost use Rattle.stale.specs.Lasting.{may_change, may_change_at, StaleIn};

use stepcore::{Event, Reply};

/// Whether a step that got this reply may change tables, TLBs, or which spaces there are.
fn may_change(event: &Event, reply: &Reply) -> bool
    ensures { result ≡ may_change event.now reply.now }
{
    match *event {
        Event::Load { .. } => matches!(reply, Reply::Filled(_)),
        Event::Begin { .. }
        | Event::Flush { .. }
        | Event::Switch { .. }
        | Event::Post { .. }
        | Event::Take { .. }
        | Event::Ack { .. }
        | Event::Collect { .. }
        | Event::Finish { .. }
        | Event::Close { .. } => false,
        Event::Map { .. }
        | Event::Unmap { .. }
        | Event::Protect { .. }
        | Event::Fence { .. }
        | Event::ServeFence { .. }
        | Event::AckSelf { .. }
        | Event::Retire { .. }
        | Event::Reclaim { .. }
        | Event::Create { .. } => true,
    }
}

/// Whether a step that got this reply can change which stale mappings TLBs hold: a Load where it
/// fills, and any step that may change tables, TLBs, or which spaces there are. `false`: they hold
/// just those after it that they held before it.
pub fn may_end_stale(event: &Event, reply: &Reply) -> bool
    ensures steps { result ≡ may_change event.now reply.now }
    ensures kept { result ≡ false → (setup : Setup) (history : History) (hart : ℕ) (e : Entry)
        (page : Span) (m : Mapping)
        → StaleIn setup (with_turn event.now reply.now history) hart e page m
        ↔ StaleIn setup history hart e page m }
{
    may_change(event, reply)
}

/// Whether a step that got this reply may change tables, the TLB of this hart, or which spaces there
/// are.
fn may_change_at(event: &Event, reply: &Reply, hart: u8) -> bool
    ensures { result ≡ may_change_at event.now reply.now hart }
{
    match *event {
        Event::Load { hart: by } => matches!(reply, Reply::Filled(_)) && by == hart,
        Event::Fence { hart: by, .. } => matches!(reply, Reply::Ok) && by == hart,
        Event::ServeFence { hart: by } => matches!(reply, Reply::Ok) && by == hart,
        Event::AckSelf { hart: by, .. } => {
            matches!(reply, Reply::Done | Reply::Waiting(_)) && by == hart
        }
        _ => may_change(event, reply),
    }
}

/// Whether a step that got this reply can change which stale mappings the TLB of this hart holds.
/// `false`: it holds just those after it that it held before it.
pub fn may_end_stale_at(event: &Event, reply: &Reply, hart: u8) -> bool
    ensures steps { result ≡ may_change_at event.now reply.now hart }
    ensures kept { result ≡ false → (setup : Setup) (history : History) (e : Entry) (page : Span)
        (m : Mapping) → StaleIn setup (with_turn event.now reply.now history) hart e page m
        ↔ StaleIn setup history hart e page m }
{
    may_change_at(event, reply, hart)
}
