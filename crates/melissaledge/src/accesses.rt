//! A whole access of a hart.

ghost use Rattle.std.specs.Prelude.{◌≡◌};
ghost use Rattle.history.specs.Setup.{Setup};
ghost use Rattle.history.specs.Turns.{History, is_more};
ghost use Rattle.stepcore.specs.Runs.{Promises};
ghost use Rattle.stepcore.specs.Stands.{Stands};
ghost use Rattle.melissaledge.specs.Accesses.{Accesses, HasLoads, IsWalked, accessed_of};

use history::{Event, Refusal, Reply};
use pte::{Access, Ctx, SV48_LEVELS};
use stepcore::Machine;
use walk::Trap;

fn is_more(reply: &Reply) -> bool
    ensures { result ≡ is_more reply.now }
{
    matches!(reply, Reply::More)
}

/// What the last reply to an access tells.
fn accessed(reply: Reply) -> Result<Result<u64, Trap>, Refusal>
    ensures { result ≡ accessed_of reply }
{
    match reply {
        Reply::Hit(pa) => Ok(Ok(pa)),
        Reply::Filled(pa) => Ok(Ok(pa)),
        Reply::Trap(trap) => Ok(Err(trap)),
        Reply::Refused(refusal) => Err(refusal),
        Reply::More
        | Reply::Table(_)
        | Reply::Leaf
        | Reply::Opened(_)
        | Reply::Ok
        | Reply::Taken(_)
        | Reply::Done
        | Reply::Waiting(_) => Err(Refusal::NoHart),
    }
}

/// Makes the loads of a hart's walk until it has ended: one a level at most. `first` is the reply
/// with which it began.
fn load_all(machine: &mut Machine, hart: u8, first: Reply) -> Reply
    ensures { (setup : Setup) (start : History) → Stands setup machine.old start
        → Promises setup start machine.old → HasLoads start hart 0 first
        → IsWalked setup hart start first result machine.new }
{
    let mut reply = first;
    for _load in 0..SV48_LEVELS {
        if !is_more(&reply) {
            return reply;
        }
        reply = machine.step(Event::Load { hart });
    }
    reply
}

/// Begins an access and makes the loads of its walk.
pub(crate) fn make_access(
    machine: &mut Machine,
    hart: u8,
    va: u64,
    access: Access,
    ctx: Ctx,
) -> Result<Result<u64, Trap>, Refusal>
    ensures { Accesses machine.old hart va access ctx result machine.new }
{
    let first = machine.step(Event::Begin {
        hart,
        va,
        access,
        ctx,
    });
    accessed(load_all(machine, hart, first))
}
