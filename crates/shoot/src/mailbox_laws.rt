//! Laws of every list of calls on one mailbox. Each function does nothing: its
//! contract is the law.

ghost use Rattle.std.specs.Prelude.{◌≡◌, ◌+◌, ℕ, List, [], ◌∷◌, ◌++◌, length, nat_le, if◌then◌else◌};
ghost use Rattle.shoot.specs.Mailbox.{MailboxState, empty_mailbox, post_fault};
ghost use Rattle.shoot.specs.MailboxHistory.{MailboxCall, Close, IsDue, IsLawful, IsLeftBy, accepted_by_calls, after_turn, is_closed_by_calls, mailbox_after, released, taken_by_calls};

use crate::mailbox::PostFault;

/// A new mailbox stands at no calls. Each call that may be made and is answered
/// as its contract says is one more at which the mailbox stands.
#[tactic(auto, using(crate::proofs::MailboxLaws::stands_new, crate::proofs::MailboxLaws::stands_after))]
pub fn mailbox_stands_at_its_calls()
    ensures new { (capacity : ℕ) → IsLeftBy (empty_mailbox capacity) [] }
    ensures call { (mailbox : MailboxState) (turn : MailboxCall) (history : List MailboxCall)
        → IsLeftBy mailbox history → IsDue mailbox turn
        → IsLeftBy (after_turn mailbox turn) (turn ∷ history) }
{}

/// What a mailbox accepted is what was taken from it, followed by what waits, in
/// the order of the posts.
#[tactic(auto, using(crate::proofs::MailboxLaws::stands_order))]
pub fn mailbox_keeps_order()
    ensures { (mailbox : MailboxState) (history : List MailboxCall) → IsLeftBy mailbox history
        → accepted_by_calls history ≡ taken_by_calls history ++ mailbox.waiting }
{}

/// What is outstanding is what was accepted, but for the acknowledgements that
/// were collected.
#[tactic(auto, using(crate::proofs::MailboxLaws::stands_room))]
pub fn mailbox_counts_what_is_not_collected()
    ensures { (mailbox : MailboxState) (history : List MailboxCall) → IsLeftBy mailbox history
        → length (accepted_by_calls history) ≡ mailbox.outstanding + released history }
{}

/// Nothing is accepted after a close.
#[tactic(auto, using(crate::proofs::MailboxLaws::none_after_close))]
pub fn mailbox_accepts_nothing_after_close()
    ensures { (capacity : ℕ) (later earlier : List MailboxCall)
        → IsLawful capacity (later ++ Close ∷ earlier)
        → accepted_by_calls (later ++ Close ∷ earlier) ≡ accepted_by_calls earlier }
{}

/// A post is refused as closed exactly if there was a close, and else as full
/// exactly if as many requests as the capacity were accepted and not collected.
#[tactic(auto, using(crate::proofs::MailboxLaws::fault))]
pub fn mailbox_refuses_when_closed_or_full()
    ensures { (capacity : ℕ) (history : List MailboxCall) → IsLawful capacity history
        → post_fault (mailbox_after capacity history)
        ≡ (if is_closed_by_calls history then Some PostFault.Closed
        else if nat_le (capacity + released history) (length (accepted_by_calls history))
        then Some PostFault.Full else None) }
{}
