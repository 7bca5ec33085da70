//! Laws of the definitions: each function does nothing, and its contract is the law.

ghost use Rattle.std.specs.Prelude.{ℕ, Bool, ◌≡◌, ◌≢◌, ◌+◌, ◌%◌, ◌^◌, ◌<◌, ◌≤◌, ◌⊎◌, ◌↔◌, not};
ghost use Rattle.std.specs.Prelude.{◌∷◌, ◌++◌, length, true, false, Some, None, Option, Ok, IsTrue};
ghost use Rattle.std.specs.List.{AllPass};
ghost use Rattle.pte.specs.declared.scheme.Scheme.{Scheme};
ghost use Rattle.pte.specs.declared.permission.Access.{Access};
ghost use Rattle.pte.specs.declared.permission.Ctx.{Ctx};
ghost use Rattle.pte.specs.declared.flags.PteFlags.{PteFlags};
ghost use Rattle.pte.specs.declared.TheConstants.{ASID_BITS};
ghost use Rattle.pte.specs.Address.{Holds, IsPageOf, holds, pages_of};
ghost use Rattle.walk.specs.declared.found_or_trap.Found.{Found};
ghost use Rattle.walk.specs.Leads.{Tables};
ghost use Rattle.walk.specs.Maps.{Maps, page_number};
ghost use Rattle.walk.specs.Outcome.{Outcome};
ghost use Rattle.tlb.specs.declared.store.Entry.{Entry};
ghost use Rattle.tlb.specs.Answer.{entry_of};
ghost use Rattle.tlb.specs.Fence.{is_fenced};
ghost use Rattle.watch.specs.declared.trace.AddressRange.{AddressRange};
ghost use Rattle.watch.specs.declared.trace.Frames.{Frames};
ghost use Rattle.watch.specs.declared.trace.Record.{Record};
ghost use Rattle.watch.specs.declared.trace.Record.TheVariants as records;
ghost use Rattle.watch.specs.declared.trace.RemoteFence.{RemoteFence};
ghost use Rattle.watch.specs.declared.trace.Space.{Space};
ghost use Rattle.watch.specs.declared.trace.Verdict.{Verdict};
ghost use Rattle.watch.specs.declared.trace.Verdict.TheVariants.{Claimed, Free};
ghost use Rattle.watch.specs.Trace.{Trace, fence_of, hart_of, has_written_satp, is_among, is_root};
ghost use Rattle.watch.specs.Trace.{satp_of, stores, words_of};
ghost use Rattle.watch.specs.Holding.{Drops, HasLeaf, HeldSince, Live, LiveSince, MayHold};
ghost use Rattle.watch.specs.Holding.{Translation, is_covered, is_fence_for, names};
ghost use Rattle.watch.specs.Staleness.{Exposed, HasFencedAll, IsCurrent, IsRootFor, Permit, Stale};
ghost use Rattle.watch.specs.Verdicts.{WasGiven, IsGiven, IsGivenAt, IsNew, TakenForGone};

/// What a walk finds is a leaf that the tables have, and it maps each page of 4 KiB of its page; a
/// page has one leaf.
pub fn leaf_is_what_a_walk_finds()
    ensures found { (scheme : Scheme) (words : Tables) (root va asid : ℕ) (access : Access)
        (ctx : Ctx) (found : Found) → Outcome scheme words root va access ctx (Ok found)
        → HasLeaf scheme words root (entry_of asid found) }
    ensures maps { (scheme : Scheme) (words : Tables) (root : ℕ) (e : Entry) (va : ℕ)
        → HasLeaf scheme words root e → Holds e.page va → Maps scheme words root (page_number va)
        (e.ppn + page_number va % pages_of e.page.size) e.flags e.global }
    ensures one { (scheme : Scheme) (words : Tables) (root : ℕ) (a b : Entry)
        → HasLeaf scheme words root a → HasLeaf scheme words root b → a.page ≡ b.page
        → (a.ppn ≡ b.ppn) × (a.flags ≡ b.flags) × (a.global ≡ b.global) }
{}

/// The manual's sentence (4.2.1): a hart may hold what was live at some moment and was not dropped
/// since.
pub fn held_was_live_and_not_dropped_since()
    ensures { (scheme : Scheme) (trace : Trace) (hart : ℕ) (x : Translation)
        → MayHold scheme trace hart x ↔ HeldSince scheme trace hart x }
{}

/// What a hart may hold is the least set that has at each moment what is live, and keeps what a
/// record does not drop.
pub fn held_is_the_least_set()
    ensures live { (scheme : Scheme) (trace : Trace) (hart : ℕ) (x : Translation)
        → Live scheme trace hart x → MayHold scheme trace hart x }
    ensures kept { (scheme : Scheme) (newest : Record) (trace : Trace) (hart : ℕ) (x : Translation)
        → MayHold scheme trace hart x → ¬ Drops scheme newest trace hart x
        → MayHold scheme (newest ∷ trace) hart x }
    ensures least { (scheme : Scheme) (is_in : Trace → ℕ → Translation → Bool)
        → ((trace : Trace) (hart : ℕ) (x : Translation) → Live scheme trace hart x
        → IsTrue (is_in trace hart x))
        → ((newest : Record) (trace : Trace) (hart : ℕ) (x : Translation)
        → IsTrue (is_in trace hart x) → ¬ Drops scheme newest trace hart x
        → IsTrue (is_in (newest ∷ trace) hart x))
        → (trace : Trace) (hart : ℕ) (x : Translation) → MayHold scheme trace hart x
        → IsTrue (is_in trace hart x) }
{}

/// Only a fence of the hart itself, or the end of a remote fence that names it, takes from what it
/// may hold; and a record of another hart that is neither and stores no word changes nothing of it.
pub fn only_fences_take()
    ensures kept { (scheme : Scheme) (newest : Record) (trace : Trace) (hart : ℕ) (x : Translation)
        → is_fence_for newest trace hart ≡ false → MayHold scheme trace hart x
        → MayHold scheme (newest ∷ trace) hart x }
    ensures same { (scheme : Scheme) (newest : Record) (trace : Trace) (hart : ℕ) (x : Translation)
        → hart_of newest ≢ hart → stores newest ≡ false → is_fence_for newest trace hart ≡ false
        → MayHold scheme (newest ∷ trace) hart x ↔ MayHold scheme trace hart x }
{}

/// A hart that goes to another space may still hold what it held of the old one.
pub fn satp_takes_nothing()
    ensures { (scheme : Scheme) (by : ℕ) (space : Option Space) (trace : Trace) (hart : ℕ)
        (x : Translation) → MayHold scheme trace hart x
        → MayHold scheme (records.Satp by space ∷ trace) hart x }
{}

/// What a fence takes and what it leaves: nothing of another hart, nothing that is global or of
/// another ASID where it has an ASID, no page without its address; and what it covers is held after
/// it only if it is live.
pub fn fence_takes_what_it_covers()
    ensures other_hart { (scheme : Scheme) (by : ℕ) (rs1 rs2 : Option ℕ) (trace : Trace) (hart : ℕ)
        (x : Translation) → by ≢ hart → MayHold scheme trace hart x
        → MayHold scheme (records.Fence by rs1 rs2 ∷ trace) hart x }
    ensures global { (scheme : Scheme) (by rs2 : ℕ) (rs1 : Option ℕ) (trace : Trace) (hart : ℕ)
        (x : Translation) → x.entry.global ≡ true → MayHold scheme trace hart x
        → MayHold scheme (records.Fence by rs1 (Some rs2) ∷ trace) hart x }
    ensures other_asid { (scheme : Scheme) (by rs2 : ℕ) (rs1 : Option ℕ) (trace : Trace) (hart : ℕ)
        (x : Translation) → x.entry.asid ≢ rs2 % 2 ^ ASID_BITS → MayHold scheme trace hart x
        → MayHold scheme (records.Fence by rs1 (Some rs2) ∷ trace) hart x }
    ensures other_page { (scheme : Scheme) (by rs1 : ℕ) (rs2 : Option ℕ) (trace : Trace) (hart : ℕ)
        (x : Translation) → holds x.entry.page rs1 ≡ false → MayHold scheme trace hart x
        → MayHold scheme (records.Fence by (Some rs1) rs2 ∷ trace) hart x }
    ensures covered { (scheme : Scheme) (rs1 rs2 : Option ℕ) (trace : Trace) (hart : ℕ)
        (x : Translation) → IsTrue (is_fenced scheme rs1 rs2 x.entry)
        → MayHold scheme (records.Fence hart rs1 rs2 ∷ trace) hart x
        → Live scheme (records.Fence hart rs1 rs2 ∷ trace) hart x }
{}

/// The end of a remote fence leaves what was live since it began; of what it covers and was not,
/// nothing is held after it that is not live then. It covers what a fence for some address of its
/// range does.
pub fn remote_fence_takes_what_was_not_live()
    ensures live_since { (scheme : Scheme) (by token : ℕ) (trace : Trace) (hart : ℕ)
        (x : Translation) → LiveSince scheme token trace hart x → MayHold scheme trace hart x
        → MayHold scheme (records.RemoteEnd by token ∷ trace) hart x }
    ensures covered { (scheme : Scheme) (by token : ℕ) (fence : RemoteFence) (trace : Trace)
        (hart : ℕ) (x : Translation) → fence_of trace token ≡ Some fence
        → IsTrue (names fence hart) → IsTrue (is_covered scheme fence x.entry)
        → ¬ LiveSince scheme token trace hart x
        → MayHold scheme (records.RemoteEnd by token ∷ trace) hart x
        → Live scheme (records.RemoteEnd by token ∷ trace) hart x }
    ensures addresses { (scheme : Scheme) (harts : ℕ) (range : AddressRange) (asid : Option ℕ)
        (e : Entry) → IsPageOf scheme e.page
        → IsTrue (is_covered scheme
        (record { harts = harts; range = Some range; asid = asid }) e)
        ↔ ((va : ℕ) × (range.start ≤ va) × (va < range.start + range.size)
        × IsTrue (is_fenced scheme (Some va) asid e)) }
{}

/// What is stale after a record may have been held before it; and what is stale after one that
/// stores no word was stale before it.
pub fn only_stores_make_stale()
    ensures held { (scheme : Scheme) (newest : Record) (trace : Trace) (hart : ℕ) (x : Translation)
        → Stale scheme (newest ∷ trace) hart x → MayHold scheme trace hart x }
    ensures stale { (scheme : Scheme) (newest : Record) (trace : Trace) (hart : ℕ)
        (x : Translation) → stores newest ≡ false → Stale scheme (newest ∷ trace) hart x
        → Stale scheme trace hart x }
{}

/// What the tables have now is not stale, be it that the page was unmapped and mapped again just
/// so, that its leaf has gained rights, or that it is global and another address space has it.
pub fn what_is_mapped_is_not_stale()
    ensures live { (scheme : Scheme) (trace : Trace) (hart : ℕ) (x : Translation)
        → Live scheme trace hart x → ¬ Stale scheme trace hart x }
    ensures again { (scheme : Scheme) (trace : Trace) (hart root : ℕ) (x : Translation)
        → IsRootFor trace x root → HasLeaf scheme (words_of trace) root x.entry
        → ¬ Stale scheme trace hart x }
    ensures gained { (scheme : Scheme) (trace : Trace) (hart root : ℕ) (x : Translation)
        (flags : PteFlags) → IsRootFor trace x root → Permit flags x.entry.flags
        → HasLeaf scheme (words_of trace) root (record x.entry { flags = flags })
        → ¬ Stale scheme trace hart x }
    ensures shared { (scheme : Scheme) (trace : Trace) (hart root : ℕ) (x : Translation)
        → IsTrue x.entry.global → IsTrue (is_root trace root)
        → HasLeaf scheme (words_of trace) root x.entry → ¬ Stale scheme trace hart x }
{}

/// The root in a hart's satp is the root of an address space, and of the frames that are given out
/// just those stay roots that a satp has; so what a hart can fill is current.
pub fn root_in_satp_is_a_root()
    ensures satp { (trace : Trace) (hart : ℕ) (space : Space) → satp_of trace hart ≡ Some space
        → IsTrue (is_root trace space.root) }
    ensures given_out { (by : ℕ) (frames : Frames) (trace : Trace) (frame : ℕ)
        → IsTrue (is_among frames frame)
        → IsTrue (is_root (records.GiveOut by frames ∷ trace) frame)
        ↔ ((hart : ℕ) × (space : Space) × (satp_of trace hart ≡ Some space)
        × (space.root ≡ frame)) }
    ensures current { (scheme : Scheme) (trace : Trace) (hart : ℕ) (x : Translation)
        → Live scheme trace hart x → IsCurrent scheme trace x }
{}

/// What is global is in every address space (4.3.1, G): its root and its ASID change nothing of
/// whether it is live, held or stale, nor of verdicts.
pub fn root_and_asid_of_global_change_nothing()
    ensures live { (scheme : Scheme) (trace : Trace) (hart : ℕ) (x : Translation) (root asid : ℕ)
        → IsTrue x.entry.global
        → Live scheme trace hart (record { root = root; entry = record x.entry { asid = asid } })
        ↔ Live scheme trace hart x }
    ensures held { (scheme : Scheme) (trace : Trace) (hart : ℕ) (x : Translation) (root asid : ℕ)
        → IsTrue x.entry.global
        → MayHold scheme trace hart (record { root = root; entry = record x.entry { asid = asid } })
        ↔ MayHold scheme trace hart x }
    ensures stale { (scheme : Scheme) (trace : Trace) (hart : ℕ) (x : Translation) (root asid : ℕ)
        → IsTrue x.entry.global
        → Stale scheme trace hart (record { root = root; entry = record x.entry { asid = asid } })
        ↔ Stale scheme trace hart x }
    ensures given { (scheme : Scheme) (verdict : Verdict) (newest : Record) (trace : Trace)
        (hart : ℕ) (x : Translation) (root asid : ℕ) → IsTrue x.entry.global
        → IsGiven scheme verdict newest trace hart
        (record { root = root; entry = record x.entry { asid = asid } })
        ↔ IsGiven scheme verdict newest trace hart x }
    ensures fresh { (scheme : Scheme) (verdict : Verdict) (trace : Trace) (hart : ℕ)
        (x : Translation) (root asid : ℕ) → IsTrue x.entry.global
        → IsNew scheme verdict trace hart
        (record { root = root; entry = record x.entry { asid = asid } })
        ↔ IsNew scheme verdict trace hart x }
{}

/// What a hart may hold of a page is stale where the page has no leaf now, or one to another frame,
/// with fewer rights, or not as global: under its root and, of what is global, under the root of
/// each address space.
pub fn what_has_changed_is_stale()
    ensures unmapped { (scheme : Scheme) (trace : Trace) (hart : ℕ) (x : Translation)
        → MayHold scheme trace hart x
        → ((root : ℕ) (e : Entry) → IsRootFor trace x root → e.page ≡ x.entry.page
        → ¬ HasLeaf scheme (words_of trace) root e)
        → Stale scheme trace hart x }
    ensures changed { (scheme : Scheme) (trace : Trace) (hart : ℕ) (x : Translation)
        → MayHold scheme trace hart x
        → ((root : ℕ) (now : Entry) → IsRootFor trace x root → now.page ≡ x.entry.page
        → HasLeaf scheme (words_of trace) root now
        → ¬ ((now.ppn ≡ x.entry.ppn) × (now.global ≡ x.entry.global)
        × Permit now.flags x.entry.flags))
        → Stale scheme trace hart x }
    ensures of_its_root { (scheme : Scheme) (trace : Trace) (hart : ℕ) (x : Translation)
        (now : Entry) → x.entry.global ≡ false → MayHold scheme trace hart x
        → HasLeaf scheme (words_of trace) x.root now → now.page ≡ x.entry.page
        → ¬ ((now.ppn ≡ x.entry.ppn) × Permit now.flags x.entry.flags)
        → Stale scheme trace hart x }
{}

/// After a fence of all of a hart with no store since, nothing is stale for it, and if each hart
/// that has written satp did, no frame is exposed; nor is anything stale after a remote fence of all
/// with no store since it began.
pub fn fence_of_all_leaves_nothing_stale()
    ensures hart { (scheme : Scheme) (trace : Trace) (hart : ℕ) (x : Translation)
        → HasFencedAll trace hart → ¬ Stale scheme trace hart x }
    ensures each { (scheme : Scheme) (trace : Trace)
        → ((hart : ℕ) → has_written_satp trace hart ≡ true → HasFencedAll trace hart)
        → (hart frame : ℕ) → ¬ Exposed scheme trace hart frame }
    ensures remote { (scheme : Scheme) (by ender token : ℕ) (fence : RemoteFence) (hart : ℕ)
        (x : Translation) (earlier during : Trace)
        → fence_of (during ++ records.RemoteBegin by token fence ∷ earlier) token ≡ Some fence
        → fence.range ≡ None → fence.asid ≡ None → IsTrue (names fence hart)
        → AllPass (λ newest. not (stores newest)) during
        → ¬ Stale scheme (records.RemoteEnd ender token ∷ during
        ++ records.RemoteBegin by token fence ∷ earlier) hart x }
{}

/// A hart that has not written satp holds nothing.
pub fn hart_without_satp_holds_nothing()
    ensures { (scheme : Scheme) (trace : Trace) (hart : ℕ) (x : Translation)
        → has_written_satp trace hart ≡ false → ¬ MayHold scheme trace hart x }
{}

/// The verdicts at a record depend on it and on the records before it alone, so those of a beginning
/// of a trace are a beginning of its verdicts.
pub fn later_records_change_no_verdict()
    ensures later { (scheme : Scheme) (later trace : Trace) (number : ℕ) (verdict : Verdict)
        (hart : ℕ) (x : Translation) → number < length trace
        → IsGivenAt scheme (later ++ trace) number verdict hart x
        ↔ IsGivenAt scheme trace number verdict hart x }
    ensures newest { (scheme : Scheme) (newest : Record) (trace : Trace) (verdict : Verdict)
        (hart : ℕ) (x : Translation) → IsGivenAt scheme (newest ∷ trace) (length trace) verdict hart x
        ↔ IsGiven scheme verdict newest trace hart x }
    ensures there { (scheme : Scheme) (trace : Trace) (number : ℕ) (verdict : Verdict) (hart : ℕ)
        (x : Translation) → IsGivenAt scheme trace number verdict hart x → number < length trace }
{}

/// A verdict is of what the hart may hold as stale; and a use is of what had the verdict of a free or
/// of a claim at an earlier record, and has been stale since.
pub fn verdicts_are_of_stale_translations()
    ensures stale { (scheme : Scheme) (verdict : Verdict) (newest : Record) (trace : Trace)
        (hart : ℕ) (x : Translation) → IsGiven scheme verdict newest trace hart x
        → Stale scheme trace hart x }
    ensures taken { (scheme : Scheme) (trace : Trace) (hart : ℕ) (x : Translation)
        → TakenForGone scheme trace hart x
        ↔ (WasGiven scheme Free trace hart x ⊎ WasGiven scheme Claimed trace hart x) }
    ensures at { (scheme : Scheme) (verdict : Verdict) (trace : Trace) (hart : ℕ)
        (x : Translation) → WasGiven scheme verdict trace hart x
        → (number : ℕ) × IsGivenAt scheme trace number verdict hart x }
{}

/// Of each translation it is known whether a hart may hold it, whether it is stale, and which
/// verdicts are given of it.
pub fn verdicts_are_known()
    ensures held { (scheme : Scheme) (trace : Trace) (hart : ℕ) (x : Translation)
        → MayHold scheme trace hart x ⊎ (¬ MayHold scheme trace hart x) }
    ensures stale { (scheme : Scheme) (trace : Trace) (hart : ℕ) (x : Translation)
        → Stale scheme trace hart x ⊎ (¬ Stale scheme trace hart x) }
    ensures verdict { (scheme : Scheme) (verdict : Verdict) (newest : Record) (trace : Trace)
        (hart : ℕ) (x : Translation) → IsGiven scheme verdict newest trace hart x
        ⊎ (¬ IsGiven scheme verdict newest trace hart x) }
    ensures fresh { (scheme : Scheme) (verdict : Verdict) (trace : Trace) (hart : ℕ)
        (x : Translation) → IsNew scheme verdict trace hart x
        ⊎ (¬ IsNew scheme verdict trace hart x) }
{}
