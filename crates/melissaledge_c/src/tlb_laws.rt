//! Laws of the definitions that the contracts of a TLB of a chosen size cite, and rows worked out by
//! hand. Each function does nothing, and each of its clauses is a law or a row.

ghost use Rattle.std.specs.Prelude.{ℕ, true, Some, List, [], ◌∷◌, ◌++◌, drop, length, ◌≡◌, ◌+◌, ◌-◌, ◌<◌, ◌==◌, ◌||◌};
ghost use Rattle.pte.specs.Address.{holds};
ghost use Rattle.tlb.specs.declared.store.Entry.{Entry};
ghost use Rattle.tlb.specs.declared.store.TheConstants.{TLB_SIZE};
ghost use Rattle.tlb.specs.Entries.{filled, first_match};
ghost use Rattle.melissaledge_c.specs.SizedTlbs.{after_fills, filled_to, replaced_to};

/// A fill of a TLB with room drops nothing, and of a full one the oldest entry alone. With the bound
/// of the core's TLB it is the core's fill.
pub fn fill_drops_at_most_the_oldest()
    ensures room { (most : ℕ) (entries : List Entry) (e : Entry) → length entries < most
        → filled_to most entries e ≡ entries ++ e ∷ [] }
    ensures full { (most : ℕ) (oldest e : Entry) (others : List Entry) → length others + 1 ≡ most
        → filled_to most (oldest ∷ others) e ≡ others ++ e ∷ [] }
    ensures sixteen { (entries : List Entry) (e : Entry)
        → filled_to TLB_SIZE entries e ≡ filled entries e }
{}

/// Of entries that are added to an empty TLB, one after the other, the last stay, as many as it
/// holds.
pub fn last_fills_stay()
    ensures { (most : ℕ) (fills : List Entry)
        → after_fills most [] fills ≡ drop (length fills - most) fills }
{}

/// Two entries stay in a TLB of two; the third drops the first, and the fourth the second. A TLB of
/// four keeps them all.
pub fn worked_fills()
    ensures two { (a b : Entry) → after_fills 2 [] (a ∷ b ∷ []) ≡ a ∷ b ∷ [] }
    ensures third { (a b c : Entry) → after_fills 2 [] (a ∷ b ∷ c ∷ []) ≡ b ∷ c ∷ [] }
    ensures fourth { (a b c d : Entry) → after_fills 2 [] (a ∷ b ∷ c ∷ d ∷ []) ≡ c ∷ d ∷ [] }
    ensures of_four { (a b c d : Entry)
        → after_fills 4 [] (a ∷ b ∷ c ∷ d ∷ []) ≡ a ∷ b ∷ c ∷ d ∷ [] }
{}

/// After a replacement the new entry alone answers for its page, in each address space that is its.
pub fn replacement_answers()
    ensures { (most asid va : ℕ) (entries : List Entry) (e : Entry) → 0 < most
        → holds e.page va ≡ true → (e.global || (e.asid == asid)) ≡ true
        → first_match (replaced_to most entries e) asid va ≡ Some e }
{}
