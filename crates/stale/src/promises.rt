//! Laws of stale mappings. Each function does nothing, and its contract is the law.

ghost use Rattle.std.specs.Prelude.{ℕ, ◌≡◌, ◌∷◌, Option, false};
ghost use Rattle.pte.specs.Address.{Span};
ghost use Rattle.walk.specs.Maps.{LiesIn};
ghost use Rattle.tlb.specs.declared.store.Entry.{Entry};
ghost use Rattle.tlb.specs.Mappings.{IsMappedBy, Mapping};
ghost use Rattle.spaces.specs.declared.places.Place.{Place};
ghost use Rattle.history.specs.Harts.{entries_of};
ghost use Rattle.history.specs.Spaces.{asid_in};
ghost use Rattle.history.specs.Setup.{Setup};
ghost use Rattle.history.specs.Turns.{History, Turn};
ghost use Rattle.history.specs.Orders.{Cause, Unmapped};
ghost use Rattle.history.specs.Due.{Lawful};
ghost use Rattle.history.specs.Staleness.{HasAnswered, is_mapped_anew, is_superseded, IsChange, IsForAsid};
ghost use Rattle.laws.specs.Kept.{HavePages, IsSetup};
ghost use Rattle.stale.specs.Lasting.{ComesBefore, StaleIn};
ghost use Rattle.stale.specs.Stale.{BecomesStale, Stale, unmapping, UsesStale};
ghost use Rattle.stale.specs.Told.{is_edit, AreDifferent};

/// A hart that an unmapping names and that has acknowledged it neither holds nor uses a stale
/// mapping of the page in its address space, until the page is mapped anew.
pub fn acknowledged_page_is_not_stale()
    ensures held { (setup : Setup) → IsSetup setup
        → (history : History) (number hart : ℕ) (of : Option ℕ) (page : Span) (m : Mapping)
        → Lawful setup history → HavePages history
        → HasAnswered setup history number hart (Unmapped of page)
        → is_mapped_anew setup history number ≡ false → IsForAsid of m → LiesIn page m.page
        → ¬ Stale setup history hart m }
    ensures used { (setup : Setup) → IsSetup setup
        → (turn : Turn) (history : History) (number hart : ℕ) (of : Option ℕ) (page : Span)
        (m : Mapping) → Lawful setup history → HavePages history
        → HasAnswered setup history number hart (Unmapped of page)
        → is_mapped_anew setup history number ≡ false → IsForAsid of m
        → LiesIn page m.page → ¬ UsesStale setup turn history hart m }
{}

/// After a change of flags as after an unmapping, a hart that the order names and that has
/// acknowledged it neither holds nor uses a stale mapping of the page in its address space, until
/// the page is unmapped or changed once more.
pub fn changed_page_is_not_stale()
    ensures held { (setup : Setup) → IsSetup setup
        → (history : History) (number hart : ℕ) (cause : Cause) (of : Option ℕ) (page : Span)
        (m : Mapping) → Lawful setup history → HavePages history → IsChange cause of page
        → HasAnswered setup history number hart cause → is_superseded setup history number ≡ false
        → IsForAsid of m → LiesIn page m.page → ¬ Stale setup history hart m }
    ensures used { (setup : Setup) → IsSetup setup
        → (turn : Turn) (history : History) (number hart : ℕ) (cause : Cause) (of : Option ℕ)
        (page : Span) (m : Mapping) → Lawful setup history → HavePages history
        → IsChange cause of page → HasAnswered setup history number hart cause
        → is_superseded setup history number ≡ false → IsForAsid of m → LiesIn page m.page
        → ¬ UsesStale setup turn history hart m }
{}

/// An unmapping makes stale each mapping of the page in its address space that any hart holds.
pub fn unmapping_makes_stale()
    ensures { (setup : Setup) → IsSetup setup
        → (history : History) (hart : ℕ) (place : Place) (page : Span) (named ticket holder : ℕ)
        (m : Mapping) → Lawful setup (unmapping hart place page named ticket ∷ history)
        → HavePages (unmapping hart place page named ticket ∷ history)
        → IsMappedBy (entries_of setup history holder) m → m.asid ≡ asid_in setup history place
        → LiesIn page m.page
        → Stale setup (unmapping hart place page named ticket ∷ history) holder m }
{}

/// No two entries of a TLB are equal: a walk begins only where no entry matches its address, and
/// until it ends none comes to match it, but what it fills does.
#[tactic(auto, using(crate::proofs::Differing::entries_differ))]
pub fn entries_differ()
    ensures { (setup : Setup) → IsSetup setup → (history : History) (hart : ℕ)
        → Lawful setup history → AreDifferent (entries_of setup history hart) }
{}

/// No step but an unmapping or a change of flags that opens an order makes a mapping stale: no
/// fill, no store that maps a page, and neither the retirement of a space nor what becomes of it
/// later.
pub fn only_edits_make_stale()
    ensures { (setup : Setup) → IsSetup setup
        → (turn : Turn) (history : History) (hart : ℕ) (m : Mapping)
        → Lawful setup (turn ∷ history) → HavePages (turn ∷ history)
        → is_edit turn.event turn.reply ≡ false → ¬ BecomesStale setup turn history hart m }
{}

/// A mapping that an entry holds stale in a page after a turn, and did not before it, becomes stale
/// by that turn. And each use of a stale mapping is of what the entry that answers holds stale.
pub fn entry_holds_what_became_stale()
    ensures begins { (setup : Setup) → IsSetup setup
        → (turn : Turn) (history : History) (hart : ℕ) (e : Entry) (page : Span) (m : Mapping)
        → Lawful setup (turn ∷ history) → HavePages (turn ∷ history)
        → StaleIn setup (turn ∷ history) hart e page m → ¬ StaleIn setup history hart e page m
        → BecomesStale setup turn history hart m }
    ensures used { (setup : Setup) (turn : Turn) (history : History) (hart : ℕ) (page : Span)
        (m : Mapping) → UsesStale setup turn history hart m → LiesIn page m.page
        → (e : Entry) × StaleIn setup history hart e page m }
{}

/// The order in which pages are looked for: from 5 on, of the pages 3 to 6 first 5 and 6, and then 3
/// and 4. And none comes both before and after another.
pub fn pages_are_looked_for_in_turn()
    ensures worked { ComesBefore 5 5 6 × ComesBefore 5 6 3 × ComesBefore 5 3 4 }
    ensures order { (from n other : ℕ) → ComesBefore from n other → ¬ ComesBefore from other n }
{}
