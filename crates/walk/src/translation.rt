//! A whole walk over one memory.

ghost use Rattle.std.specs.Prelude.{◌<◌, ◌^◌};
ghost use Rattle.pte.specs.declared.scheme.Scheme.TheVariants.{Sv39};
ghost use Rattle.pte.specs.declared.entry.TheConstants.{PPN_BITS};
ghost use Rattle.walk.specs.Outcome.{Outcome};

use crate::found_or_trap::{Found, Trap};
use crate::memory::Words;
use crate::walking::Walk;
use pte::{Access, Ctx, Scheme};
use std::ops::ControlFlow;

/// Where an access of a virtual address of Sv39 leads, as `translate_in` has it.
pub fn translate<W: Words>(
    words: &W,
    root: u64,
    va: u64,
    access: Access,
    ctx: Ctx,
) -> Result<Found, Trap>
    requires { root < 2 ^ PPN_BITS }
    ensures { Outcome Sv39 (W.words words.now) root va access ctx result }
{
    translate_in(Scheme::Sv39, words, root, va, access, ctx)
}

/// Where an access of a virtual address of a scheme leads from the root table at a PPN, which the
/// caller keeps below 2^44, or the exception that it raises (privileged manual 4.3.2). The accessed
/// and dirty bits are never set: a leaf that lacks A, or D for a store, faults. At most one word a
/// level is read, which is tested, and no clause.
pub fn translate_in<W: Words>(
    scheme: Scheme,
    words: &W,
    root: u64,
    va: u64,
    access: Access,
    ctx: Ctx,
) -> Result<Found, Trap>
    requires { root < 2 ^ PPN_BITS }
    ensures { Outcome scheme (W.words words.now) root va access ctx result }
{
    let mut walk = Walk::begin_in(scheme, root, va, access, ctx)?;
    loop {
        let (ppn, index) = walk.wants();
        match walk.load(words.word(ppn, index)).flow() {
            ControlFlow::Continue(next) => walk = next,
            ControlFlow::Break(answer) => return answer,
        }
    }
}
