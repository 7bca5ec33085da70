//! Laws of the definitions that the contracts of a TLB cite. Each function does nothing, and its
//! clause is the law.

ghost use Rattle.std.specs.Prelude.{ℕ, Bool, Option, None, Some, Ok, Result, List, [], ◌∷◌, ◌++◌};
ghost use Rattle.std.specs.Prelude.{length, ◌≡◌, ◌+◌, ◌⊎◌, ◌↔◌, ◌<◌, ◌^◌, ◌==◌, ◌&&◌, ◌||◌, IsSome};
ghost use Rattle.std.specs.Prelude.{IsTrue, not};
ghost use Rattle.std.specs.List.{All, AllPass};
ghost use Rattle.pte.specs.Address.{Holds, IsPage, IsPageOf, overlaps, Span};
ghost use Rattle.pte.specs.declared.scheme.Scheme.{Scheme};
ghost use Rattle.pte.specs.declared.address.What.{What};
ghost use Rattle.pte.specs.declared.address.What.TheVariants.{PageOf};
ghost use Rattle.pte.specs.declared.permission.Access.{Access};
ghost use Rattle.pte.specs.declared.permission.Ctx.{Ctx};
ghost use Rattle.pte.specs.declared.flags.PteFlags.{PteFlags};
ghost use Rattle.pte.specs.declared.entry.TheConstants.{PPN_BITS};
ghost use Rattle.pte.specs.declared.TheConstants.{ASID_BITS};
ghost use Rattle.tlb.specs.declared.store.Entry.{Entry};
ghost use Rattle.tlb.specs.declared.store.TheConstants.{TLB_SIZE};
ghost use Rattle.walk.specs.declared.found_or_trap.Found.{Found};
ghost use Rattle.walk.specs.declared.found_or_trap.Trap.{Trap};
ghost use Rattle.walk.specs.Leads.{Tables};
ghost use Rattle.walk.specs.Maps.{Maps, page_number};
ghost use Rattle.walk.specs.Outcome.{Outcome};
ghost use Rattle.tlb.specs.Answer.{address_found, answer_of, entry_of};
ghost use Rattle.tlb.specs.Entries.{filled, first_match, is_match};
ghost use Rattle.tlb.specs.Fence.{fenced, is_fenced};
ghost use Rattle.tlb.specs.Mappings.{IsMappedBy, IsMappingOf, Mapping, Translates, maps_into};
ghost use Rattle.tlb.specs.Service.{Goes, IsRequest, is_dropped, after_service, Served};

/// A request drops an entry exactly if some fence that it stands for does; what it leaves is what
/// stays under all of them, and only that.
pub fn service_is_its_fences()
    ensures goes { (scheme : Scheme) (what : What) (e : Entry) → IsRequest scheme what
        → IsTrue (is_dropped what e) ↔ Goes scheme what e }
    ensures leaves { (scheme : Scheme) (entries : List Entry) (what : What) → IsRequest scheme what
        → Served scheme entries what (after_service entries what) }
    ensures alone { (scheme : Scheme) (entries : List Entry) (what : What) (a b : List Entry)
        → Served scheme entries what a → Served scheme entries what b → a ≡ b }
{}

/// A fill of a TLB with room drops nothing, and of a full one the oldest entry alone; what is
/// filled is the youngest.
#[tactic(auto, using(crate::proofs::Keeping::fills))]
pub fn fill_drops_at_most_the_oldest()
    ensures room { (entries : List Entry) (e : Entry) → length entries < TLB_SIZE
        → filled entries e ≡ entries ++ e ∷ [] }
    ensures full { (oldest e : Entry) (others : List Entry) → length others + 1 ≡ TLB_SIZE
        → filled (oldest ∷ others) e ≡ others ++ e ∷ [] }
{}

/// What holds of each entry still does after a fence, after a service, and after the fill of an
/// entry of which it holds.
pub fn each_entry_is_kept_or_dropped()
    ensures fence { (scheme : Scheme) (p : Entry → Bool) (entries : List Entry)
        (rs1 rs2 : Option ℕ) → AllPass p entries → AllPass p (fenced scheme entries rs1 rs2) }
    ensures serve { (p : Entry → Bool) (entries : List Entry) (what : What) → AllPass p entries
        → AllPass p (after_service entries what) }
    ensures fill { (p : Entry → Bool) (entries : List Entry) (e : Entry) → AllPass p entries
        → IsTrue (p e) → AllPass p (filled entries e) }
{}

/// No entry is left that the fence, or the service, takes out.
pub fn what_goes_is_gone()
    ensures fence { (scheme : Scheme) (entries : List Entry) (rs1 rs2 : Option ℕ)
        → AllPass (λ e. not (is_fenced scheme rs1 rs2 e)) (fenced scheme entries rs1 rs2) }
    ensures serve { (entries : List Entry) (what : What)
        → AllPass (λ e. not (is_dropped what e)) (after_service entries what) }
{}

/// Fences and services only take mappings away, and a fill adds only those of its entry.
pub fn mappings_come_by_fills()
    ensures fence { (scheme : Scheme) (entries : List Entry) (rs1 rs2 : Option ℕ) (m : Mapping)
        → IsMappedBy (fenced scheme entries rs1 rs2) m → IsMappedBy entries m }
    ensures serve { (entries : List Entry) (what : What) (m : Mapping)
        → IsMappedBy (after_service entries what) m → IsMappedBy entries m }
    ensures fill { (entries : List Entry) (e : Entry) (m : Mapping)
        → IsMappedBy (filled entries e) m → IsMappedBy entries m ⊎ IsMappingOf e m }
{}

/// A look-up answers an entry exactly if the mappings translate the address.
pub fn look_up_translates()
    ensures { (entries : List Entry) (asid va : ℕ) → All (λ e. IsPage e.page) entries
        → IsSome (first_match entries asid va) ↔ Translates (IsMappedBy entries) asid va }
{}

/// Where no entry maps into a page, for an ASID or for any, no address of the page is translated
/// for that ASID, or for any.
pub fn unmapped_page_is_not_translated()
    ensures space { (entries : List Entry) (page : Span) (asid va : ℕ)
        → AllPass (λ e. not (maps_into page (Some asid) e)) entries → Holds page va
        → ¬ Translates (IsMappedBy entries) asid va }
    ensures global { (entries : List Entry) (page : Span) (asid va : ℕ)
        → AllPass (λ e. not (maps_into page None e)) entries → Holds page va
        → ¬ Translates (IsMappedBy entries) asid va }
{}

/// After the service of a global page no entry maps into it. After the service of a page of an ASID
/// no entry does for that ASID, if no global entry did.
pub fn served_page_is_not_mapped()
    ensures global { (entries : List Entry) (page : Span)
        → AllPass (λ e. not (maps_into page None e)) (after_service entries (PageOf page None)) }
    ensures space { (entries : List Entry) (page : Span) (asid : ℕ) → asid < 2 ^ ASID_BITS
        → AllPass (λ e. not (e.global && overlaps page e.page)) entries
        → AllPass (λ e. not (maps_into page (Some asid) e))
        (after_service entries (PageOf page (Some asid))) }
{}

/// What a walk found gives an entry that matches the address for the walk's ASID, for another
/// exactly where the walk found it global, and whose mappings are all among those of the tables.
pub fn found_entry_is_mapped()
    ensures matches { (scheme : Scheme) (words : Tables) (root va : ℕ) (access : Access)
        (ctx : Ctx) (found : Found) (asid : ℕ) → Outcome scheme words root va access ctx (Ok found)
        → IsPageOf scheme (entry_of asid found).page
        × IsTrue (is_match asid va (entry_of asid found)) }
    ensures spaces { (scheme : Scheme) (words : Tables) (root va : ℕ) (access : Access) (ctx : Ctx)
        (found : Found) (asid : ℕ) → Outcome scheme words root va access ctx (Ok found)
        → (other : ℕ)
        → is_match other va (entry_of asid found) ≡ (found.global || (asid == other)) }
    ensures mapped { (scheme : Scheme) (words : Tables) (root va : ℕ) (access : Access) (ctx : Ctx)
        (found : Found) (asid : ℕ) → Outcome scheme words root va access ctx (Ok found)
        → (m : Mapping) → IsMappingOf (entry_of asid found) m
        → Maps scheme words root m.page m.ppn m.flags found.global }
{}

/// Where the tables map nothing in a page, what a walk finds does not map into it, for any ASID.
pub fn unmapped_page_is_not_found()
    ensures { (scheme : Scheme) (words : Tables) (root va : ℕ) (access : Access) (ctx : Ctx)
        (found : Found) (asid : ℕ) → Outcome scheme words root va access ctx (Ok found)
        → (page : Span)
        → ((at ppn : ℕ) (flags : PteFlags) (global : Bool)
        → Holds page at → ¬ Maps scheme words root (page_number at) ppn flags global)
        → (space : Option ℕ) → IsTrue (not (maps_into page space (entry_of asid found))) }
{}

/// As long as the tables map the page of an address as an entry does, the entry answers each access
/// as a walk would.
pub fn mapped_entry_answers_as_a_walk()
    ensures { (scheme : Scheme) (words : Tables) (root va : ℕ) (access : Access) (ctx : Ctx)
        (answer : Result Found Trap) (e : Entry) (m : Mapping) (global : Bool)
        → e.ppn < 2 ^ PPN_BITS → IsMappingOf e m → m.page ≡ page_number va
        → Maps scheme words root m.page m.ppn m.flags global
        → Outcome scheme words root va access ctx answer
        → answer_of e va access ctx ≡ address_found answer }
{}
