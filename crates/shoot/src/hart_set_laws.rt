//! Laws of sets of harts. Each function does nothing: its contract is the law.

ghost use Rattle.std.specs.Prelude.{◌≡◌, ◌<◌, ◌^◌, ◌==◌, ◌&&◌, ◌||◌, not, ℕ, Bool, true, List, slice_set};
ghost use Rattle.std.specs.Int.{bit_at};
ghost use Rattle.shoot.specs.HartSet.{byte_of, contains, difference, harts_in, harts_where};

use pte::MAX_HARTS;

/// Bit h of the byte of a set is 1 exactly if hart h is in the set, and a byte is the byte of the
/// set that it stands for.
#[tactic(auto, using(crate::proofs::HartBytes::bit_told, crate::proofs::HartBits::byte_back))]
pub fn bytes_are_sets_of_harts()
    ensures bits { (set : List Bool) (hart : ℕ) → hart < MAX_HARTS
        → (bit_at (byte_of set) hart == 1) ≡ contains set hart }
    ensures back { (byte : ℕ) → byte < 2 ^ 8 → byte_of (harts_in byte) ≡ byte }
{}

/// The set of the harts that pass a test has those harts, and putting one in
/// makes it pass.
#[tactic(auto, using(crate::proofs::HartSets::contains_where, crate::proofs::HartSets::where_with, crate::proofs::HartBytes::contains_difference))]
pub fn sets_of_harts_are_tests()
    ensures has { (test : ℕ → Bool) (hart : ℕ) → hart < MAX_HARTS
        → contains (harts_where test) hart ≡ test hart }
    ensures with { (test : ℕ → Bool) (hart : ℕ)
        → slice_set (harts_where test) hart true
        ≡ harts_where (λ other. (hart == other) || test other) }
    ensures without { (a b : List Bool) (hart : ℕ) → hart < MAX_HARTS
        → contains (difference a b) hart ≡ (contains a hart && not (contains b hart)) }
{}
