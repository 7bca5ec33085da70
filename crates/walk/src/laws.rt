//! Laws of the definitions: each function does nothing, and its contract is the law.

ghost use Rattle.std.specs.Prelude.{ℕ, Bool, ◌≡◌, ◌+◌, ◌-◌, ◌*◌, ◌/◌, ◌%◌, ◌^◌, ◌<◌, ◌≤◌, ◌⊎◌, ◌↔◌};
ghost use Rattle.std.specs.Prelude.{Option, Some, Ok, Result, IsTrue, false, true};
ghost use Rattle.pte.specs.declared.address.PageSize.TheVariants.{Kib4};
ghost use Rattle.pte.specs.declared.scheme.Scheme.{Scheme};
ghost use Rattle.pte.specs.declared.permission.Access.{Access};
ghost use Rattle.pte.specs.declared.permission.Ctx.{Ctx};
ghost use Rattle.pte.specs.declared.flags.PteFlags.{PteFlags};
ghost use Rattle.pte.specs.declared.entry.Kind.TheVariants as kinds;
ghost use Rattle.pte.specs.Address.{Holds, IsCanonical, bytes_of, level_bytes, level_count};
ghost use Rattle.pte.specs.Address.{level_pages, pages_of, top_level, vpn_of};
ghost use Rattle.pte.specs.Entry.{kind_of};
ghost use Rattle.pte.specs.declared.entry.TheConstants.{PPN_BITS};
ghost use Rattle.walk.specs.declared.found_or_trap.Found.{Found};
ghost use Rattle.walk.specs.declared.found_or_trap.Trap.{Trap};
ghost use Rattle.walk.specs.Answer.{flags_fault, found_unless};
ghost use Rattle.walk.specs.declared.walking.Progress.TheVariants as progress;
ghost use Rattle.walk.specs.Leads.{IsGlobalAt, Leads, PointsTo, Tables, word_at};
ghost use Rattle.walk.specs.Loads.{GoesOn, answer_after};
ghost use Rattle.walk.specs.Maps.{Maps, page_number};
ghost use Rattle.walk.specs.Outcome.{Outcome};
ghost use Rattle.walk.specs.Pointers.{goes_on, table_after};
ghost use Rattle.walk.specs.Stage.{IsFor, OnPath, Stage, start_of};
ghost use Rattle.walk.specs.Step.{ended, load_of};
ghost use Rattle.walk.specs.Stores.{AgreeBut, KeepsPointers, PassesThrough, stored};

/// There is one outcome of an access.
pub fn outcome_is_unique()
    ensures { (scheme : Scheme) (words : Tables) (root va : ℕ) (access : Access) (ctx : Ctx)
        (a b : Result Found Trap) → Outcome scheme words root va access ctx a
        → Outcome scheme words root va access ctx b → a ≡ b }
{}

/// The outcome of an access of a canonical address is what a walk from the root computes within as
/// many loads as there are levels.
pub fn outcome_takes_one_load_a_level()
    ensures { (scheme : Scheme) (words : Tables) (root va : ℕ) (access : Access) (ctx : Ctx)
        (answer : Result Found Trap) → IsCanonical scheme va
        → Outcome scheme words root va access ctx answer
        ↔ (answer ≡ answer_after (level_count scheme) words (start_of scheme root va access ctx)) }
{}

/// A walk that begins stands on its path, over any memory.
pub fn walk_begins_on_its_path()
    ensures { (scheme : Scheme) (words : Tables) (root va : ℕ) (access : Access) (ctx : Ctx)
        → IsCanonical scheme va → OnPath scheme words root (start_of scheme root va access ctx) }
{}

/// A walk on its path that is fed the word that the memory has goes on along the path, one level
/// below, or ends with the outcome.
pub fn walk_goes_on_along_its_path()
    ensures { (scheme : Scheme) (words : Tables) (root : ℕ) (s : Stage)
        → OnPath scheme words root s
        → GoesOn scheme words root s (load_of s (word_at words s.va s.level s.table)) }
{}

/// A walk on its path computes the outcome within one load for each level from its own down to 0.
pub fn walk_on_its_path_computes_the_outcome()
    ensures { (scheme : Scheme) (words : Tables) (root loads : ℕ) (s : Stage)
        (answer : Result Found Trap) → OnPath scheme words root s → s.level < loads
        → Outcome scheme words root s.va s.access s.ctx answer
        ↔ (answer ≡ answer_after loads words s) }
{}

/// Where the pointers stay, a walk stays on its path, whatever else is stored meanwhile.
pub fn walk_stays_on_its_path()
    ensures { (scheme : Scheme) (old new : Tables) (root : ℕ) (s : Stage) → KeepsPointers old new
        → OnPath scheme old root s → OnPath scheme new root s }
{}

/// A walk on its path that has made `loads` loads goes on exactly where a pointer above level 0
/// leads after them, and else ends with the outcome.
#[tactic(auto, using(crate::proofs::Loads::load_goes_on, crate::proofs::Loads::load_ends))]
pub fn loads_count_the_levels_of_a_walk()
    ensures more { (scheme : Scheme) (words : Tables) (root loads : ℕ) (s : Stage)
        → OnPath scheme words root s → s.level + loads ≡ top_level scheme
        → goes_on scheme words root s.va loads ≡ true
        → (next : Stage) × (load_of s (word_at words s.va s.level s.table) ≡ progress.More next)
        × OnPath scheme words root next × (next.level + (loads + 1) ≡ top_level scheme)
        × IsFor next s.va s.access s.ctx }
    ensures end { (scheme : Scheme) (words : Tables) (root loads : ℕ) (s : Stage)
        → OnPath scheme words root s → s.level + loads ≡ top_level scheme
        → goes_on scheme words root s.va loads ≡ false
        → load_of s (word_at words s.va s.level s.table)
        ≡ ended (answer_after (level_count scheme) words
        (start_of scheme root s.va s.access s.ctx)) }
{}

/// Below a word that is no pointer nothing leads.
#[tactic(auto, using(crate::proofs::Members::nothing_below))]
pub fn nothing_leads_below_the_end_of_a_path()
    ensures { (scheme : Scheme) (words : Tables) (root va i j t u : ℕ) (v w : Option ℕ)
        → Leads scheme words root va i t v → ((next : ℕ) → ¬ PointsTo v next)
        → Leads scheme words root va j u w → i ≤ j }
{}

/// A path begins at the root, goes on one level below at a pointer, and comes from nowhere else.
#[tactic(auto, using(crate::proofs::Paths::pointer_by_pointer))]
pub fn paths_go_pointer_by_pointer()
    ensures start { (scheme : Scheme) (words : Tables) (root va : ℕ)
        → Leads scheme words root va (top_level scheme) root
        (word_at words va (top_level scheme) root) }
    ensures down { (scheme : Scheme) (words : Tables) (root va i t u : ℕ) (v : Option ℕ)
        → Leads scheme words root va (i + 1) t v → PointsTo v u
        → Leads scheme words root va i u (word_at words va i u) }
    ensures up { (scheme : Scheme) (words : Tables) (root va i u : ℕ) (w : Option ℕ)
        → i < top_level scheme → Leads scheme words root va i u w
        → (t : ℕ) × (v : Option ℕ) × Leads scheme words root va (i + 1) t v × PointsTo v u }
{}

/// One table and one word lead at a level.
pub fn one_word_leads_at_a_level()
    ensures { (scheme : Scheme) (words : Tables) (root va i t u : ℕ) (v w : Option ℕ)
        → Leads scheme words root va i t v → Leads scheme words root va i u w → (t ≡ u) × (v ≡ w) }
{}

/// What leads at level i is the word of the table that is reached from the root over as many
/// pointers as i lies below the top level.
#[tactic(auto, using(crate::proofs::Downward::leads_by_pointers))]
pub fn leads_is_the_pointers_followed()
    ensures { (scheme : Scheme) (words : Tables) (root va i t : ℕ) (w : Option ℕ)
        → Leads scheme words root va i t w
        ↔ ((i ≤ top_level scheme)
        × (table_after scheme words root va (top_level scheme - i) ≡ Some t)
        × (w ≡ word_at words va i t)) }
{}

/// Addresses of one page of level i have the same words leading at level i and above.
pub fn addresses_of_a_page_share_their_path()
    ensures { (scheme : Scheme) (words : Tables) (root a b i j t : ℕ) (w : Option ℕ)
        → a / level_bytes i ≡ b / level_bytes i → i ≤ j → Leads scheme words root a j t w
        → Leads scheme words root b j t w }
{}

/// Whether G stands on a word that leads or above it is known.
pub fn global_is_known()
    ensures { (scheme : Scheme) (words : Tables) (root va i t : ℕ) (w : Option ℕ)
        → Leads scheme words root va i t w
        → (global : Bool) × (IsTrue global ↔ IsGlobalAt scheme words root va i) }
{}

/// What is found for an address is the one member of its page in Maps.
pub fn found_is_mapped()
    ensures { (scheme : Scheme) (words : Tables) (root va : ℕ) (access : Access) (ctx : Ctx)
        (found : Found) → Outcome scheme words root va access ctx (Ok found)
        → Maps scheme words root (page_number va) (page_number found.pa) found.flags found.global }
{}

/// Each page of 4 KiB of the page that is found is mapped: its PPN is the leaf's and its place in
/// the page.
pub fn found_page_is_mapped()
    ensures { (scheme : Scheme) (words : Tables) (root va : ℕ) (access : Access) (ctx : Ctx)
        (found : Found) → Outcome scheme words root va access ctx (Ok found) → (at : ℕ)
        → Holds found.page at
        → Maps scheme words root (page_number at)
        (found.ppn + page_number at % pages_of found.page.size) found.flags found.global }
{}

/// An access of a page that is mapped is answered by the member alone: it is found at its place in
/// the page, unless the flags refuse it.
#[tactic(auto, using(crate::proofs::MappedAnswers::mapped_answer))]
pub fn mapped_page_answers_by_its_flags()
    ensures { (scheme : Scheme) (words : Tables) (root va ppn : ℕ) (access : Access) (ctx : Ctx)
        (flags : PteFlags) (global : Bool)
        → Maps scheme words root (page_number va) ppn flags global
        → (found : Found)
        × Outcome scheme words root va access ctx
        (found_unless (flags_fault access ctx flags) access found)
        × (found.pa ≡ ppn * bytes_of Kib4 + va % bytes_of Kib4) × (found.flags ≡ flags)
        × (found.global ≡ global) }
{}

/// A PPN that is found fits its bits, and so does the physical address.
pub fn found_is_in_range()
    ensures { (scheme : Scheme) (words : Tables) (root va : ℕ) (access : Access) (ctx : Ctx)
        (found : Found) → Outcome scheme words root va access ctx (Ok found)
        → (found.ppn < 2 ^ PPN_BITS) × (found.pa < 2 ^ PPN_BITS * bytes_of Kib4) }
{}

/// Maps has at most one member a page.
pub fn page_is_mapped_once()
    ensures { (scheme : Scheme) (words : Tables) (root page p q : ℕ) (f g : PteFlags) (a b : Bool)
        → Maps scheme words root page p f a → Maps scheme words root page q g b
        → (p ≡ q) × (f ≡ g) × (a ≡ b) }
{}

/// An aligned leaf that leads maps each page of 4 KiB of its page.
pub fn leaf_maps_its_page()
    ensures { (scheme : Scheme) (words : Tables) (root va i table entry leaf at : ℕ)
        (flags : PteFlags) (global : Bool) → Leads scheme words root va i table (Some entry)
        → kind_of entry ≡ kinds.Leaf leaf flags → leaf % level_pages i ≡ 0
        → (IsTrue global ↔ IsGlobalAt scheme words root va i) → IsCanonical scheme at
        → at / level_bytes i ≡ va / level_bytes i
        → Maps scheme words root (page_number at)
        (leaf + page_number at % level_pages i) flags global }
{}

/// Where a path ends at a word that is no aligned leaf, no page under that word is mapped.
pub fn path_without_leaf_maps_nothing()
    ensures { (scheme : Scheme) (words : Tables) (root va i table : ℕ) (word : Option ℕ)
        (page ppn : ℕ) (flags : PteFlags) (global : Bool) → Leads scheme words root va i table word
        → ((next : ℕ) → ¬ PointsTo word next)
        → ((entry leaf : ℕ) (given : PteFlags) → word ≡ Some entry
        → kind_of entry ≡ kinds.Leaf leaf given → ¬ (leaf % level_pages i ≡ 0))
        → page / level_pages i ≡ va / level_bytes i
        → ¬ Maps scheme words root page ppn flags global }
{}

/// A store leaves every other word.
#[tactic(auto, using(crate::proofs::Stored::agrees_elsewhere))]
pub fn store_agrees_elsewhere()
    ensures elsewhere { (words : Tables) (table index word : ℕ)
        → AgreeBut words (stored words table index word) table index }
    ensures here { (words : Tables) (table index word : ℕ)
        → stored words table index word table index ≡ Some word }
{}

/// If two memories differ in one word, what leads in the one leads in the other, or its path passes
/// through that word.
pub fn what_leads_passes_through_a_change()
    ensures after { (scheme : Scheme) (old new : Tables) (root va table index i t : ℕ)
        (w : Option ℕ) → AgreeBut old new table index → Leads scheme old root va i t w
        → Leads scheme new root va i t w ⊎ PassesThrough scheme old new root va i table index }
    ensures before { (scheme : Scheme) (old new : Tables) (root va table index i t : ℕ)
        (w : Option ℕ) → AgreeBut old new table index → Leads scheme new root va i t w
        → Leads scheme old root va i t w ⊎ PassesThrough scheme old new root va i table index }
{}

/// A store over a word that is no pointer keeps the pointers, and a path that passes through that
/// word ends there.
pub fn store_over_no_pointer_is_at_an_end()
    ensures pointers { (old new : Tables) (table index : ℕ) → AgreeBut old new table index
        → ((next : ℕ) → ¬ PointsTo (old table index) next) → KeepsPointers old new }
    ensures end { (scheme : Scheme) (old new : Tables) (root va table index i t : ℕ) (w : Option ℕ)
        → Leads scheme old root va i t w → ((next : ℕ) → ¬ PointsTo (old table index) next)
        → PassesThrough scheme old new root va i table index
        → (t ≡ table) × (vpn_of va i ≡ index) × (w ≡ old table index)
        × Leads scheme new root va i table (new table index) }
{}

/// If two memories differ in one word, what is mapped in the one is mapped in the other, or its
/// path passes through that word.
pub fn what_is_mapped_passes_through_a_change()
    ensures after { (scheme : Scheme) (old new : Tables) (root page ppn table index : ℕ)
        (flags : PteFlags) (global : Bool) → AgreeBut old new table index
        → (m : Maps scheme old root page ppn flags global)
        → Maps scheme new root page ppn flags global
        ⊎ PassesThrough scheme old new root m.va m.level table index }
    ensures before { (scheme : Scheme) (old new : Tables) (root page ppn table index : ℕ)
        (flags : PteFlags) (global : Bool) → AgreeBut old new table index
        → (m : Maps scheme new root page ppn flags global)
        → Maps scheme old root page ppn flags global
        ⊎ PassesThrough scheme old new root m.va m.level table index }
{}
