//! Laws of the policies for A and D: each function does nothing, and its contract is the law.

ghost use Rattle.std.specs.Prelude.{ℕ, ◌≡◌, ◌≢◌, ◌↔◌, Some};
ghost use Rattle.std.specs.Int.Bits.{bit_or};
ghost use Rattle.pte.specs.Entry.{flags_of};
ghost use Rattle.walk.specs.declared.found_or_trap.Why.TheVariants as why;
ghost use Rattle.walk.specs.declared.stepping.AccessedDirty.{AccessedDirty};
ghost use Rattle.walk.specs.declared.stepping.AccessedDirty.TheVariants as policy;
ghost use Rattle.walk.specs.declared.stepping.Advance.TheVariants as advance;
ghost use Rattle.walk.specs.declared.stepping.Granted.{Granted};
ghost use Rattle.walk.specs.declared.stepping.Trapped.{Trapped};
ghost use Rattle.walk.specs.declared.walking.Progress.TheVariants as progress;
ghost use Rattle.walk.specs.Policy.{clear_bits, load_under, no_bits, read_at, told};
ghost use Rattle.walk.specs.PolicyRows as rows;
ghost use Rattle.walk.specs.Stage.{Stage};
ghost use Rattle.walk.specs.Step.{load_of};

/// Under `Set` an access is granted exactly if the walk grants it once the bits that it names are
/// set in the word, and these are those of A and, at a store, of D that are clear. There are none
/// exactly if the walk grants it at once.
pub fn bits_to_set_let_the_access_through()
    ensures granted { (s : Stage) (word : ℕ) (given : Granted)
        → load_under policy.Set s (Some word) ≡ advance.Granted given
        ↔ (load_of s (Some (bit_or word given.set.0)) ≡ progress.Found given.found)
        × (given.set ≡ clear_bits s.access (flags_of word)) × (given.read ≡ read_at s word) }
    ensures nothing { (s : Stage) (word : ℕ) (given : Granted)
        → load_under policy.Set s (Some word) ≡ advance.Granted given
        → (given.set ≡ no_bits) ↔ (load_of s (Some word) ≡ progress.Found given.found) }
{}

/// Under `Trap` a walk goes as with `load`, with nothing to set.
pub fn trap_policy_sets_nothing()
    ensures { (s : Stage) (word : ℕ) → load_under policy.Trap s (Some word)
        ≡ told s word no_bits (load_of s (Some word)) }
{}

/// Worked rows: which bits an access sets under `Set`, by hand.
#[tactic(auto, using(crate::proofs::PolicyRowsHold::rows_hold))]
pub fn worked_bits_to_set()
    ensures load_sets_accessed { rows.load_sets_accessed }
    ensures store_sets_both { rows.store_sets_both }
    ensures load_leaves_dirty_clear { rows.load_leaves_dirty_clear }
    ensures store_sets_dirty { rows.store_sets_dirty }
    ensures store_sets_accessed { rows.store_sets_accessed }
    ensures store_finds_both { rows.store_finds_both }
    ensures fetch_sets_accessed { rows.fetch_sets_accessed }
{}

/// Worked rows: what sets no bits, whatever the policy, and where the word stood.
#[tactic(auto, using(crate::proofs::PolicyRowsHold::rows_hold))]
pub fn worked_policies()
    ensures denied_sets_nothing { rows.denied_sets_nothing }
    ensures misaligned_sets_nothing { rows.misaligned_sets_nothing }
    ensures too_deep { rows.too_deep }
    ensures accessed_traps { rows.accessed_traps }
    ensures dirty_traps { rows.dirty_traps }
    ensures pointer_goes_on { rows.pointer_goes_on }
    ensures outside { rows.outside }
{}
