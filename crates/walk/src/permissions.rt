//! What a page permits, for a client that keeps its translations in a table of its own.

ghost use Rattle.std.specs.Prelude.{◌≡◌};
ghost use Rattle.walk.specs.Permits.{permits};

use pte::{Access, Ctx, PteFlags, allowed};

/// Which accesses go through with nothing to trap and no bit to set.
#[derive(Clone, Copy, PartialEq, Eq, Debug, Default)]
pub struct Permitted {
    /// The fetch of an instruction.
    pub fetch: bool,
    /// A load.
    pub load: bool,
    /// A store, or an atomic memory operation.
    pub store: bool,
}

/// Which accesses an aligned leaf with these flags lets go through in this state of the hart:
/// exactly those of which `flags_fault` has nothing to tell. A must be set, and D for a store,
/// whatever the policy: under `AccessedDirty::Set` the walk of an access that is not among them
/// sets them, and a leaf that was granted has its flags with them.
#[inline(always)]
pub fn permits(flags: PteFlags, ctx: Ctx) -> Permitted
    ensures { result ≡ permits ctx flags }
{
    let accessed = flags.is_accessed();
    let dirty = flags.is_dirty();
    Permitted {
        fetch: accessed && allowed(flags, Access::Fetch, ctx),
        load: accessed && allowed(flags, Access::Load, ctx),
        store: accessed && dirty && allowed(flags, Access::Store, ctx),
    }
}
