//! Laws of spaces that are retired, given back and created again: when Retire, Reclaim and Create
//! are accepted, and what they leave. Each function does nothing, and its contract is the law.

ghost use Rattle.std.specs.Prelude.{ℕ, ◌≡◌, ◌↔◌, ◌≤◌, slice_index};
ghost use Rattle.pte.specs.declared.TheConstants.{MAX_HARTS};
ghost use Rattle.history.specs.declared.event.Event.TheVariants.{Create, Reclaim, Retire};
ghost use Rattle.history.specs.declared.reply.Reply.TheVariants.{Ok, Opened};
ghost use Rattle.history.specs.Setup.{Setup};
ghost use Rattle.history.specs.Turns.{History};
ghost use Rattle.history.specs.Due.{due};
ghost use Rattle.history.specs.Spaces.{Free, Live, Retires, asid_of, status_of};
ghost use Rattle.history.specs.Occurrences.{Creates, Decides, IsCreate, IsReclaim, IsRetire, Since, SinceOr};
ghost use Rattle.history.specs.Retirements.{AfterCreate, AfterReclaim, AfterRetire, CanCreate, CanReclaim, CanRetire};

/// A Retire opens a ticket exactly if its hart is the home of the space, the space is live, no hart
/// is in it, and this is the least ticket that is not open.
pub fn retire_is_due_a_ticket()
    ensures { (setup : Setup) (history : History) (hart space ticket : ℕ) → setup.harts ≤ MAX_HARTS
        → (due setup history (Retire hart space) ≡ Opened ticket)
        ↔ CanRetire setup history hart space ticket }
{}

/// A Reclaim is accepted exactly if its hart is the home of the space, the space is retiring, and
/// each hart that its retirement names is collected.
pub fn reclaim_is_due_ok()
    ensures { (setup : Setup) (history : History) (hart space : ℕ)
        → (due setup history (Reclaim hart space) ≡ Ok) ↔ CanReclaim setup history hart space }
{}

/// A Create is accepted exactly if its hart is the home of the space, the space is free, and no
/// live or retiring space has the ASID.
pub fn create_is_due_ok()
    ensures { (setup : Setup) (history : History) (hart space asid : ℕ)
        → (due setup history (Create hart space asid) ≡ Ok)
        ↔ CanCreate setup history hart space asid }
{}

/// What a Retire leaves: the space is retiring since an order that asks each hart to drop its ASID,
/// and nothing else changes.
pub fn retire_opens_an_order()
    ensures { (setup : Setup) (history : History) (hart space ticket : ℕ)
        → AfterRetire setup history hart space ticket }
{}

/// What a Reclaim leaves: the space is free, the words of its frames and of its root's user half
/// are 0, and its frames unused; nothing else changes.
pub fn reclaim_gives_the_space_back()
    ensures { (setup : Setup) (history : History) (hart space : ℕ)
        → AfterReclaim setup history hart space }
{}

/// What a Create leaves: the space is live with the ASID, and nothing else changes.
pub fn create_gives_the_asid()
    ensures { (setup : Setup) (history : History) (hart space asid : ℕ)
        → AfterCreate setup history hart space asid }
{}

/// A space is retiring since the last turn that retired, reclaimed or created it, if that was a
/// Retire; free, if it was a Reclaim; and live, if it was a Create or there was none.
pub fn status_is_by_the_last_turn_of_the_space()
    ensures retiring { (history : History) (s order : ℕ) → (status_of history s ≡ Retires order)
        ↔ Since (IsRetire s order) (Decides s) history }
    ensures free { (history : History) (s : ℕ) → (status_of history s ≡ Free)
        ↔ Since (IsReclaim s) (Decides s) history }
    ensures live { (history : History) (s : ℕ) → (status_of history s ≡ Live)
        ↔ SinceOr (Creates s) (Decides s) (Unit {0}) history }
{}

/// The ASID of a space is that of its last accepted Create, or that of the opening if there was
/// none.
pub fn asid_is_that_of_the_last_create()
    ensures { (setup : Setup) (history : History) (s asid : ℕ) → (asid_of setup history s ≡ asid)
        ↔ SinceOr (IsCreate s asid) (Creates s) (slice_index setup.asids s ≡ asid) history }
{}
