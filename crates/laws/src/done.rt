//! What a sender may rely on once its order was answered Done, what is left once a request is
//! served, and what stays. Each function does nothing, and its contract is the law.

ghost use Rattle.std.specs.Prelude.{ℕ, ◌≡◌, ◌⊎◌, ◌∷◌, ◌++◌, false, Some, true};
ghost use Rattle.walk.specs.Leads.{PointsTo};
ghost use Rattle.tlb.specs.Service.{Served};
ghost use Rattle.history.specs.declared.event.Event.TheVariants.{AckSelf, ServeFence};
ghost use Rattle.history.specs.declared.reply.Reply.{Reply};
ghost use Rattle.history.specs.declared.reply.Reply.TheVariants as reply;
ghost use Rattle.history.specs.Setup.{Setup};
ghost use Rattle.history.specs.Turns.{History, Turn};
ghost use Rattle.history.specs.Tables.{words_of};
ghost use Rattle.history.specs.Runs.{with_turn};
ghost use Rattle.history.specs.Orders.{open_order, Order, order_at};
ghost use Rattle.history.specs.Mailboxes.{is_closed, Sent};
ghost use Rattle.history.specs.Service.{served};
ghost use Rattle.history.specs.Harts.{entries_of};
ghost use Rattle.history.specs.Acknowledgements.{is_acked, is_posted};
ghost use Rattle.history.specs.Occurrences.{Empties, IsProgress, Sometime};
ghost use Rattle.history.specs.Completion.{ClearOnceDone, IsDoneAt};
ghost use Rattle.history.specs.Due.{Lawful, names};
ghost use Rattle.laws.specs.Kept.{HavePages, IsSetup};

/// Once an AckSelf or a Collect was answered Done, each hart that the order names has acknowledged
/// it.
#[tactic(auto, using(crate::proofs::Completed::done_acked))]
pub fn done_order_is_acknowledged_by_each()
    ensures { (setup : Setup) (history : History) (order hart : ℕ) → Lawful setup history
        → Sometime (IsDoneAt order) history → names (order_at setup history order) hart ≡ true
        → is_acked setup history order hart ≡ true }
{}

/// Once an AckSelf or a Collect of an unmapping was answered Done, no entry, of any size, of the
/// TLB of a hart that the unmapping names translates an address of the page in its address space,
/// until the page is mapped anew.
pub fn done_unmapping_stays_clear()
    ensures { (setup : Setup) → IsSetup setup → (history : History) (order hart : ℕ)
        → Lawful setup history → HavePages history
        → ClearOnceDone setup history (entries_of setup history hart) order hart }
{}

/// An order that was not posted to a hart that it names before the sender's mailbox to the hart was
/// closed stays open for good.
pub fn order_cut_off_stays_open()
    ensures { (setup : Setup) (later earlier : History) (s t order hart : ℕ)
        → Lawful setup (later ++ earlier) → open_order earlier s t ≡ Some order
        → names (order_at setup earlier order) hart ≡ true
        → (¬ (s ≡ hart)) → is_closed earlier s hart ≡ true → is_posted earlier order hart ≡ false
        → open_order (later ++ earlier) s t ≡ Some order }
{}

/// A service leaves exactly the entries that stay under each fence that the request stands for, in
/// the same order.
#[tactic(auto, using(crate::proofs::Requested::service_stays))]
pub fn service_leaves_what_its_fences_leave()
    ensures { (setup : Setup) (history : History) (hart : ℕ) (post : Sent) → Lawful setup history
        → HavePages history → served setup history hart ≡ Some post
        → Served setup.layout.scheme (entries_of setup history hart) post.request.what
        (entries_of setup (with_turn (ServeFence hart) reply.Ok history) hart) }
{}

/// A hart's acknowledgement of its own order leaves exactly the entries that stay under each fence
/// that the order stands for, in the same order.
#[tactic(auto, using(crate::proofs::Requested::own_stays))]
pub fn own_acknowledgement_leaves_what_its_fences_leave()
    ensures { (setup : Setup) (history : History) (hart ticket number : ℕ) (order : Order)
        (answer : Reply) → Lawful setup history → HavePages history
        → open_order history hart ticket ≡ Some number
        → order_at setup history number ≡ Some order → IsProgress answer
        → Served setup.layout.scheme (entries_of setup history hart) order.what
        (entries_of setup (with_turn (AckSelf hart ticket) answer history) hart) }
{}

/// A pointer that was stored stays, turn by turn, until the space whose own word it is is
/// reclaimed.
pub fn pointer_stays_until_given_back()
    ensures { (setup : Setup) → IsSetup setup → (turn : Turn) (history : History)
        → Lawful setup (turn ∷ history) → HavePages history → (ppn i next : ℕ)
        → PointsTo (words_of setup history ppn i) next
        → (words_of setup (turn ∷ history) ppn i ≡ words_of setup history ppn i)
        ⊎ Empties setup ppn i turn history }
{}
