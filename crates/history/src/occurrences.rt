//! Laws of the definitions: what a history leaves is read off its turns. Each function does
//! nothing, and its contract is the law.

ghost use Rattle.std.specs.Prelude.{ℕ, true, ◌<◌, None, ◌≡◌, ◌↔◌, ◌∷◌, Result, Some, slice_get};
ghost use Rattle.pte.specs.Address.{IsCanonical};
ghost use Rattle.walk.specs.declared.found_or_trap.Found.{Found};
ghost use Rattle.walk.specs.declared.found_or_trap.Trap.{Trap};
ghost use Rattle.walk.specs.Outcome.{Outcome};
ghost use Rattle.spaces.specs.Layout.{root_ppn};
ghost use Rattle.spaces.specs.Opening.{opening};
ghost use Rattle.shoot.specs.Request.{Request};
ghost use Rattle.shoot.specs.declared.TheConstants.{MAX_TICKETS};
ghost use Rattle.history.specs.Setup.{Setup};
ghost use Rattle.history.specs.Turns.{Turn, History};
ghost use Rattle.history.specs.Due.{Lawful, goes_on, least_free};
ghost use Rattle.history.specs.Orders.{Order, open_order, order_at};
ghost use Rattle.history.specs.Acknowledgements.{is_acked, is_collected, is_posted};
ghost use Rattle.history.specs.Mailboxes.{Mailboxes, Sent, accepted, is_closed, posts, taken};
ghost use Rattle.history.specs.Service.{has_fenced, served};
ghost use Rattle.history.specs.Staleness.{is_mapped_anew, is_superseded};
ghost use Rattle.history.specs.Tables.{words_of};
ghost use Rattle.history.specs.Spaces.{holder_of};
ghost use Rattle.spaces.specs.declared.places.Place.{Place};
ghost use Rattle.history.specs.Harts.{Walking, outcome_of, space_of, walk_of};
ghost use Rattle.history.specs.Occurrences.{Acknowledges, Collects, EachIsDue, IsClose, IsInWalk, IsLeastFree, IsMapOver, IsNthPost, IsNthTake, IsPost, IsNewTable, IsServeFence, IsSwitch, IsTake, LeadsOn, NoneAfterClose, OpensAt, OpensOrder, OpensOrFinishes, Puts, Since, SinceOr, Sometime, Stores, Supersedes, Switches, TakesOrAcks, TakesOrGivesBack, TakesPost};

/// An order is posted to a hart exactly if at some turn a Post to it was accepted of the ticket
/// under which the order was open.
#[tactic(auto, using(crate::proofs::Occurred::posted))]
pub fn posted_is_an_accepted_post()
    ensures { (history : History) (order hart : ℕ) → (is_posted history order hart ≡ true)
        ↔ Sometime (IsPost order hart) history }
{}

/// An order is acknowledged by a hart exactly if at some turn an Ack by the hart was accepted while
/// it served the order, or an AckSelf by the hart of its own ticket under which the order was open.
#[tactic(auto, using(crate::proofs::Occurred::acked))]
pub fn acknowledged_is_an_accepted_ack()
    ensures { (setup : Setup) (history : History) (order hart : ℕ)
        → (is_acked setup history order hart ≡ true)
        ↔ Sometime (Acknowledges setup order hart) history }
{}

/// An order is collected from a hart exactly if at some turn a Collect from it was accepted once it
/// had acknowledged the open order, or its own AckSelf was.
#[tactic(auto, using(crate::proofs::Occurred::collected))]
pub fn collected_is_an_accepted_collect()
    ensures { (setup : Setup) (history : History) (order hart : ℕ)
        → (is_collected setup history order hart ≡ true)
        ↔ Sometime (Collects setup order hart) history }
{}

/// A mailbox is closed exactly if at some turn a Close of its pair was accepted.
#[tactic(auto, using(crate::proofs::Occurred::closed))]
pub fn closed_is_an_accepted_close()
    ensures { (history : History) (sender receiver : ℕ) → (is_closed history sender receiver ≡ true)
        ↔ Sometime (IsClose sender receiver) history }
{}

/// The page of an order is mapped anew exactly if at some turn after the order a Map over it stored
/// its leaf.
#[tactic(auto, using(crate::proofs::Occurred::mapped_anew))]
pub fn mapped_anew_is_a_stored_leaf()
    ensures { (setup : Setup) (history : History) (order : ℕ)
        → (is_mapped_anew setup history order ≡ true) ↔ Sometime (IsMapOver setup order) history }
{}

/// An order is superseded exactly if at some turn after it an Unmap or a Protect over its page was
/// accepted.
#[tactic(auto, using(crate::proofs::Occurred::superseded))]
pub fn superseded_is_an_accepted_change()
    ensures { (setup : Setup) (history : History) (order : ℕ)
        → (is_superseded setup history order ≡ true) ↔ Sometime (Supersedes setup order) history }
{}

/// The order of a number is the one that the turn with as many turns before it opened.
pub fn order_at_is_the_one_opened_there()
    ensures { (setup : Setup) (history : History) (number : ℕ) (order : Order)
        → (order_at setup history number ≡ Some order)
        ↔ Sometime (OpensAt setup number order) history }
{}

/// The open order of a sender under a ticket is this one exactly if the turn with as many turns
/// before it opened the sender's ticket, and no later turn opened the ticket or finished it.
pub fn open_order_is_the_last_opened()
    ensures { (history : History) (sender ticket order : ℕ)
        → (open_order history sender ticket ≡ Some order)
        ↔ Since (OpensOrder sender ticket order) (OpensOrFinishes sender ticket) history }
{}

/// An opening takes the least number of the hart under which no order is open, and there is none
/// exactly if each is open.
#[tactic(auto, using(crate::proofs::LeastFree::none_is))]
pub fn opening_takes_the_least_free_ticket()
    ensures least { (history : History) (hart ticket : ℕ)
        → (least_free history hart MAX_TICKETS 0 ≡ Some ticket) ↔ IsLeastFree history hart ticket }
    ensures none { (history : History) (hart : ℕ) → (least_free history hart MAX_TICKETS 0 ≡ None)
        ↔ ((n : ℕ) → n < MAX_TICKETS → ¬ (open_order history hart n ≡ None)) }
{}

/// A history is lawful exactly if the reply of each turn was due after the turns before it.
#[tactic(auto, using(crate::proofs::Lawfully::each_is_due))]
pub fn lawful_is_each_reply_due()
    ensures { (setup : Setup) (history : History) → Lawful setup history ↔ EachIsDue setup history }
{}

/// After a lawful history each mailbox has kept its order: what was accepted is what was taken,
/// followed by what waits.
#[tactic(auto, using(crate::proofs::Mailboxes::lawful_order))]
pub fn lawful_mailboxes_keep_order()
    ensures { (setup : Setup) (history : History) → Lawful setup history → Mailboxes setup history }
{}

/// The n-th request taken of a mailbox is the n-th accepted.
#[tactic(auto, using(crate::proofs::Mailboxes::taken_nth))]
pub fn nth_taken_is_the_nth_accepted()
    ensures { (setup : Setup) (history : History) (sender receiver n : ℕ) (request : Request)
        → Lawful setup history → slice_get (taken history sender receiver) n ≡ Some request
        → slice_get (accepted setup history sender receiver) n ≡ Some request }
{}

/// A turn of a lawful history adds nothing to what a closed mailbox accepted.
#[tactic(auto, using(crate::proofs::Mailboxes::none_added))]
pub fn nothing_is_accepted_after_a_close()
    ensures { (setup : Setup) (turn : Turn) (history : History) (sender receiver : ℕ)
        → Lawful setup (turn ∷ history) → is_closed history sender receiver ≡ true
        → accepted setup (turn ∷ history) sender receiver ≡ accepted setup history sender receiver }
{}

/// In a lawful history no Post of a pair is accepted after a Close of it was.
pub fn no_post_is_accepted_after_a_close()
    ensures { (setup : Setup) (history : History) (sender receiver : ℕ) → Lawful setup history
        → NoneAfterClose history sender receiver }
{}

/// The n-th post that a mailbox accepted is the one that a Post of its pair was accepted for after
/// n others.
pub fn nth_post_is_an_accepted_post()
    ensures { (setup : Setup) (history : History) (sender receiver n : ℕ) (sent : Sent)
        → (slice_get (posts setup history sender receiver) n ≡ Some sent)
        ↔ Sometime (IsNthPost setup sender receiver n sent) history }
{}

/// The n-th request taken of a mailbox is the one that a Take of its pair answered after n others.
pub fn nth_taken_is_an_answered_take()
    ensures { (history : History) (sender receiver n : ℕ) (request : Request)
        → (slice_get (taken history sender receiver) n ≡ Some request)
        ↔ Sometime (IsNthTake sender receiver n request) history }
{}

/// A Load goes on exactly if the address leads to one more table below the level that the walk has
/// come to.
#[tactic(auto, using(crate::proofs::Walks::goes_on_by))]
pub fn load_goes_on_over_a_pointer()
    ensures { (setup : Setup) (history : History) (hart : ℕ) (walk : Walking)
        → (goes_on setup history hart walk ≡ true)
        ↔ LeadsOn setup.layout.scheme (words_of setup history)
        (root_ppn setup.layout (space_of history hart)) walk }
{}

/// A walk of a lawful history is for a canonical address.
pub fn lawful_walk_is_canonical()
    ensures { (setup : Setup) (history : History) (hart : ℕ) (walk : Walking) → Lawful setup history
        → walk_of history hart ≡ Some walk → IsCanonical setup.layout.scheme walk.va }
{}

/// What a walk of a lawful history finds is the outcome of its access in the current words.
pub fn lawful_walk_finds_the_outcome()
    ensures { (setup : Setup) (history : History) (hart space : ℕ) (walk : Walking)
        (answer : Result Found Trap) → Lawful setup history → walk_of history hart ≡ Some walk
        → (answer ≡ outcome_of setup history space walk)
        ↔ Outcome setup.layout.scheme (words_of setup history) (root_ppn setup.layout space) walk.va
        walk.access walk.ctx answer }
{}

/// The space of a hart is that of its last accepted Switch, or space 0 if there was none.
pub fn space_is_that_of_the_last_switch()
    ensures { (history : History) (hart space : ℕ) → (space_of history hart ≡ space)
        ↔ SinceOr (IsSwitch hart space) (Switches hart) (0 ≡ space) history }
{}

/// A hart serves an accepted post exactly if it took the post's request, and since then took none
/// and acknowledged none.
pub fn service_is_from_take_to_ack()
    ensures { (setup : Setup) (history : History) (hart : ℕ) (sent : Sent)
        → (served setup history hart ≡ Some sent)
        ↔ Since (TakesPost setup hart sent) (TakesOrAcks hart) history }
{}

/// A hart has fenced exactly if a ServeFence by it was accepted and it took no request since.
#[tactic(auto, using(crate::proofs::Lasting::fences))]
pub fn fenced_is_since_the_last_take()
    ensures { (history : History) (hart : ℕ) → (has_fenced history hart ≡ true)
        ↔ Since (IsServeFence hart) (IsTake hart) history }
{}

/// Each word of table memory is what the last accepted edit stored there, or 0 if its space was
/// reclaimed since, or that of the opening if neither was.
pub fn word_is_the_last_stored()
    ensures { (setup : Setup) (history : History) (ppn index word : ℕ)
        → (words_of setup history ppn index ≡ Some word)
        ↔ SinceOr (Puts setup ppn index word) (Stores setup ppn index)
        (opening setup.layout ppn index ≡ Some word) history }
{}

/// A hart is in a walk exactly if a Begin of its access was answered More, and since then no walk
/// of the hart began or ended; the walk has made as many loads as Loads of the hart were answered
/// More since.
pub fn walk_is_since_its_begin()
    ensures { (history : History) (hart : ℕ) (walk : Walking) → (walk_of history hart ≡ Some walk)
        ↔ IsInWalk hart walk history }
{}

/// A frame is in use for a place exactly if a Map for the place was answered with it as a new
/// table, and since then neither was another one answered with it nor was its space reclaimed.
pub fn frame_is_held_since_its_new_table()
    ensures { (history : History) (ppn : ℕ) (place : Place) → (holder_of history ppn ≡ Some place)
        ↔ Since (IsNewTable ppn place) (TakesOrGivesBack ppn) history }
{}
