//! What the statements of the machine under a lock refuse. Each function does nothing, and its
//! clauses are the facts.

ghost use Rattle.std.specs.Prelude.{ℕ, [], ◌∷◌};
ghost use Rattle.history.specs.declared.event.Event.TheVariants.{Create, Switch};
ghost use Rattle.history.specs.declared.reply.Reply.TheVariants as reply;
ghost use Rattle.history.specs.declared.refusal.Refusal.TheVariants.{AsidInUse, NotFree, Retiring};
ghost use Rattle.counterexamples.specs.ShootdownRuns.{spaces_of_one_home};
ghost use Rattle.counterexamples.specs.WorkedRuns.{refused, two_harts};
ghost use Rattle.harts.specs.Books.{IsDueAfterSome};
ghost use Rattle.harts.specs.Turns.{IsInterleaving};

/// Replies that no lawful history gives: where there is one space, each hart is in it, so it never
/// retires; and where events speak of ASIDs of 16 bits, no space has a larger one.
pub fn what_is_due_after_no_history()
    ensures switched { IsDueAfterSome two_harts (Switch 0 0) reply.Ok }
    ensures only_space_retires { ¬ IsDueAfterSome two_harts (Switch 0 0) (refused Retiring) }
    ensures live { IsDueAfterSome spaces_of_one_home (Create 0 1 65536) (refused NotFree) }
    ensures asid_of_17_bits { ¬ IsDueAfterSome spaces_of_one_home (Create 0 1 65536)
        (refused AsidInUse) }
{}

/// An interleaving has each turn of each list once, those of a list in order, and no other turn.
pub fn what_is_no_interleaving()
    ensures woven { IsInterleaving {A = ℕ} ((1 ∷ 3 ∷ []) ∷ (2 ∷ []) ∷ []) (1 ∷ 2 ∷ 3 ∷ []) }
    ensures one_more { ¬ IsInterleaving {A = ℕ} ((1 ∷ []) ∷ []) (1 ∷ 1 ∷ []) }
    ensures one_of_none { ¬ IsInterleaving {A = ℕ} ((1 ∷ []) ∷ []) (1 ∷ 2 ∷ []) }
    ensures one_less { ¬ IsInterleaving {A = ℕ} ((1 ∷ 1 ∷ []) ∷ []) (1 ∷ []) }
    ensures swapped { ¬ IsInterleaving {A = ℕ} ((1 ∷ 2 ∷ []) ∷ []) (2 ∷ 1 ∷ []) }
{}
