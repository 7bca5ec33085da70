//! Laws of what a TLB answers and keeps, one for each event that touches a TLB: exactly what Begin
//! and Load answer, and exactly what is left of the entries. Each function does nothing, and its
//! contract is the law.

ghost use Rattle.std.specs.Prelude.{ℕ, ◌<◌, ◌≡◌, ◌∷◌, Err, None, Ok, Option, Result, Some};
ghost use Rattle.pte.specs.Address.{IsCanonical};
ghost use Rattle.pte.specs.declared.permission.Access.{Access};
ghost use Rattle.pte.specs.declared.permission.Ctx.{Ctx};
ghost use Rattle.walk.specs.declared.found_or_trap.Found.{Found};
ghost use Rattle.walk.specs.declared.found_or_trap.Trap.{Trap as Fault};
ghost use Rattle.walk.specs.declared.found_or_trap.Why.TheVariants.{NotCanonical};
ghost use Rattle.walk.specs.Answer.{page_trap};
ghost use Rattle.spaces.specs.Layout.{root_ppn};
ghost use Rattle.tlb.specs.declared.store.Entry.{Entry};
ghost use Rattle.tlb.specs.Answer.{answer_of, entry_of};
ghost use Rattle.tlb.specs.Entries.{filled};
ghost use Rattle.tlb.specs.Fence.{fenced};
ghost use Rattle.tlb.specs.Service.{IsRequest, Served};
ghost use Rattle.history.specs.declared.event.Event.TheVariants.{AckSelf, Begin, Fence, Load, ServeFence};
ghost use Rattle.history.specs.declared.refusal.Refusal.TheVariants.{NotWalking};
ghost use Rattle.history.specs.declared.reply.Reply.{Reply};
ghost use Rattle.history.specs.declared.reply.Reply.TheVariants as reply;
ghost use Rattle.history.specs.Setup.{Setup};
ghost use Rattle.history.specs.Turns.{History, Turn};
ghost use Rattle.history.specs.Runs.{with_turn};
ghost use Rattle.history.specs.Due.{due, Lawful};
ghost use Rattle.history.specs.Tables.{words_of};
ghost use Rattle.history.specs.Spaces.{asid_of};
ghost use Rattle.history.specs.Orders.{Order, open_order, order_at};
ghost use Rattle.history.specs.Mailboxes.{Sent};
ghost use Rattle.history.specs.Service.{served};
ghost use Rattle.history.specs.Harts.{entries_of, space_of, walk_of, Walking};
ghost use Rattle.history.specs.Occurrences.{IsProgress, LeadsOn};
ghost use Rattle.history.specs.Translations.{IsFirstMatch, MayBegin, NoneMatches, TouchesTlb, WalkEnds};

/// A Begin of a hart that is in no walk and serves nothing is answered as the oldest entry that
/// matches answers the access: its physical address, or the trap that its flags raise. If none
/// matches a walk begins. An address that is not canonical traps.
pub fn begin_answers_as_the_first_match()
    ensures hit { (setup : Setup) (history : History) (hart va : ℕ) (access : Access) (ctx : Ctx)
        (e : Entry) (pa : ℕ) → MayBegin setup history hart → IsCanonical setup.layout.scheme va
        → IsFirstMatch (entries_of setup history hart)
        (asid_of setup history (space_of history hart)) va e → answer_of e va access ctx ≡ Ok pa
        → due setup history (Begin hart va access ctx) ≡ reply.Hit pa }
    ensures trap { (setup : Setup) (history : History) (hart va : ℕ) (access : Access) (ctx : Ctx)
        (e : Entry) (trap : Fault) → MayBegin setup history hart
        → IsCanonical setup.layout.scheme va
        → IsFirstMatch (entries_of setup history hart)
        (asid_of setup history (space_of history hart)) va e → answer_of e va access ctx ≡ Err trap
        → due setup history (Begin hart va access ctx) ≡ reply.Trap trap }
    ensures more { (setup : Setup) (history : History) (hart va : ℕ) (access : Access) (ctx : Ctx)
        → MayBegin setup history hart → IsCanonical setup.layout.scheme va
        → NoneMatches (entries_of setup history hart)
        (asid_of setup history (space_of history hart)) va
        → due setup history (Begin hart va access ctx) ≡ reply.More }
    ensures not_canonical { (setup : Setup) (history : History) (hart va : ℕ) (access : Access)
        (ctx : Ctx) → MayBegin setup history hart → (¬ IsCanonical setup.layout.scheme va)
        → due setup history (Begin hart va access ctx)
        ≡ reply.Trap (page_trap access NotCanonical) }
{}

/// A Load goes on where one more pointer leads on; else it is answered with the outcome of the
/// access in the current words, of every access and every size of a leaf.
pub fn load_answers_the_outcome()
    ensures more { (setup : Setup) (history : History) (hart : ℕ) (walk : Walking)
        → hart < setup.harts → walk_of history hart ≡ Some walk
        → LeadsOn setup.layout.scheme (words_of setup history)
        (root_ppn setup.layout (space_of history hart)) walk
        → due setup history (Load hart) ≡ reply.More }
    ensures found { (setup : Setup) (history : History) (hart : ℕ) (walk : Walking) (found : Found)
        → Lawful setup history → WalkEnds setup history hart walk (Ok found)
        → due setup history (Load hart) ≡ reply.Filled found.pa }
    ensures trap { (setup : Setup) (history : History) (hart : ℕ) (walk : Walking) (trap : Fault)
        → Lawful setup history → WalkEnds setup history hart walk (Err trap)
        → due setup history (Load hart) ≡ reply.Trap trap }
    ensures no_walk { (setup : Setup) (history : History) (hart : ℕ) → hart < setup.harts
        → walk_of history hart ≡ None → due setup history (Load hart) ≡ reply.Refused NotWalking }
{}

/// Each Load that is answered Filled ended a walk that found a leaf.
#[tactic(auto, using(crate::proofs::Answering::filled_found))]
pub fn filled_is_of_what_was_found()
    ensures { (setup : Setup) (history : History) (hart pa : ℕ)
        → Lawful setup (with_turn (Load hart) (reply.Filled pa) history)
        → (walk : Walking) × (found : Found) × WalkEnds setup history hart walk (Ok found)
        × (pa ≡ found.pa) }
{}

/// A Load that is answered Filled leaves exactly the TLB filled with the entry of what its walk
/// found, for the ASID of the hart's space: of every access and every size of a leaf.
pub fn load_fills_what_was_found()
    ensures { (setup : Setup) (history : History) (hart pa : ℕ) (walk : Walking) (found : Found)
        → Lawful setup history → WalkEnds setup history hart walk (Ok found)
        → entries_of setup (with_turn (Load hart) (reply.Filled pa) history) hart
        ≡ filled (entries_of setup history hart)
        (entry_of (asid_of setup history (space_of history hart)) found) }
{}

/// A fence leaves exactly the entries that SFENCE.VMA with its registers does not take out.
#[tactic(auto, using(crate::proofs::Leaving::fence_leaves))]
pub fn fence_leaves_what_it_does_not_name()
    ensures { (setup : Setup) (history : History) (hart : ℕ) (rs1 rs2 : Option ℕ)
        → entries_of setup (with_turn (Fence hart rs1 rs2) reply.Ok history) hart
        ≡ fenced setup.layout.scheme (entries_of setup history hart) rs1 rs2 }
{}

/// The service of a request, of a page of the scheme, leaves exactly the entries that stay under
/// each fence that the request stands for, in the same order.
#[tactic(auto, using(crate::proofs::Leaving::service_leaves))]
pub fn service_leaves_what_stays()
    ensures { (setup : Setup) (history : History) (hart : ℕ) (post : Sent)
        → served setup history hart ≡ Some post → IsRequest setup.layout.scheme post.request.what
        → Served setup.layout.scheme (entries_of setup history hart) post.request.what
        (entries_of setup (with_turn (ServeFence hart) reply.Ok history) hart) }
{}

/// A hart's acknowledgement of its own order, of a page of the scheme, leaves exactly the entries
/// that stay under each fence that the order stands for, in the same order.
#[tactic(auto, using(crate::proofs::Leaving::own_leaves))]
pub fn own_acknowledgement_leaves_what_stays()
    ensures { (setup : Setup) (history : History) (hart ticket number : ℕ) (order : Order)
        (answer : Reply) → open_order history hart ticket ≡ Some number
        → order_at setup history number ≡ Some order
        → IsRequest setup.layout.scheme order.what → IsProgress answer
        → Served setup.layout.scheme (entries_of setup history hart) order.what
        (entries_of setup (with_turn (AckSelf hart ticket) answer history) hart) }
{}

/// No other turn changes an entry of the hart's TLB: no other event, nothing that is refused, and
/// no event of another hart.
#[tactic(auto, using(crate::proofs::Leaving::untouched))]
pub fn nothing_else_touches_a_tlb()
    ensures { (setup : Setup) (history : History) (hart : ℕ) (turn : Turn)
        → (¬ TouchesTlb hart turn) → entries_of setup (turn ∷ history) hart
        ≡ entries_of setup history hart }
{}
