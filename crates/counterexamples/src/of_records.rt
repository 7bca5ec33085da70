//! What the definitions of this crate refuse, so that none of them says less than its name. Each
//! function does nothing, and its clauses are the facts, computed from the histories of worked
//! runs.

ghost use Rattle.std.specs.Prelude.{ℕ, [], ◌∷◌, false, true};
ghost use Rattle.pte.specs.declared.address.What.TheVariants.{All, SpaceOf};
ghost use Rattle.tlb.specs.declared.store.Entry.{Entry};
ghost use Rattle.history.specs.declared.event.Event.TheVariants.{Load};
ghost use Rattle.history.specs.declared.reply.Reply.TheVariants.{Filled, More};
ghost use Rattle.history.specs.Setup.{Setup};
ghost use Rattle.history.specs.Turns.{History};
ghost use Rattle.history.specs.Mailboxes.{posts};
ghost use Rattle.counterexamples.specs.WorkedRuns.{history_of, two_harts};
ghost use Rattle.counterexamples.specs.ShootdownRuns.{spaces_of_one_home, superpage_of_space, superpage_shootdown, superpage_until_acknowledged};
ghost use Rattle.counterexamples.specs.UnlawfulRuns.{created_with_a_used_asid, mapped_in_a_free_space, two_orders, two_posts};
ghost use Rattle.counterexamples.specs.RecordCounterexamples.{order_to, post_of};
ghost use Rattle.laws.specs.Fills.{Fills};
ghost use Rattle.laws.specs.Kept.{AsidsDiffer, FreeMapsNothing};
ghost use Rattle.laws.specs.Orders.{IsOpenedBy, IsOrder};
ghost use Rattle.laws.specs.Posts.{IsAcceptedPost, IsLive, IsOwn, StandsIn};

/// An order names its sender, has a ticket below 64, stands at the place of a turn, and names no
/// hart from 8 on.
#[tactic(auto, using(crate::proofs::Refuted::without_sender, crate::proofs::Refuted::ticket_64, crate::proofs::Refuted::no_turn, crate::proofs::Refuted::hart_8))]
pub fn what_is_no_order()
    ensures without_sender { ¬ IsOrder (history_of two_posts) 0 (order_to 0 (false ∷ true ∷ [])) }
    ensures ticket_64 { ¬ IsOrder (history_of two_posts) 0 (order_to 64 (true ∷ true ∷ [])) }
    ensures no_turn { ¬ IsOrder (history_of two_posts) 4 (order_to 0 (true ∷ true ∷ [])) }
    ensures hart_8 { ¬ IsOrder (history_of two_posts) 0
        (order_to 0 (true ∷ false ∷ false ∷ false ∷ false ∷ false ∷ false ∷ false ∷ true ∷ [])) }
{}

/// The order at place 0 is hart 0's, under ticket 0.
#[tactic(auto, using(crate::proofs::Refuted::other_sender, crate::proofs::Refuted::other_ticket, crate::proofs::Refuted::not_own))]
pub fn what_another_opened()
    ensures sender { ¬ IsOpenedBy two_harts (history_of two_posts) 1 0 0 }
    ensures ticket { ¬ IsOpenedBy two_harts (history_of two_posts) 0 1 0 }
    ensures own { ¬ IsOwn two_harts (history_of two_posts) 0 1 }
{}

/// A post is of an order of its sender, under its ticket; it asks what that order asks, goes to
/// another hart, which the order names, and was posted.
#[tactic(auto, using(crate::proofs::Refuted::other_request, crate::proofs::Refuted::to_itself, crate::proofs::Refuted::not_posted, crate::proofs::Refuted::not_under_its_ticket, crate::proofs::Refuted::not_of_its_sender, crate::proofs::Refuted::not_named))]
pub fn what_is_no_accepted_post()
    ensures other_request { ¬ IsAcceptedPost two_harts (history_of two_posts) 0 1
        (post_of 0 0 (SpaceOf 1)) }
    ensures to_itself { ¬ IsAcceptedPost two_harts (history_of two_posts) 0 0 (post_of 0 0 All) }
    ensures not_posted { ¬ IsAcceptedPost two_harts (history_of two_orders) 0 1 (post_of 0 0 All) }
    ensures other_sender { ¬ IsAcceptedPost two_harts (history_of two_posts) 1 0 (post_of 0 0 All) }
    ensures other_ticket { ¬ IsAcceptedPost two_harts (history_of two_posts) 0 1 (post_of 0 1 All) }
    ensures not_named { ¬ IsAcceptedPost two_harts (history_of two_posts) 0 2 (post_of 0 0 All) }
{}

/// A post is no longer live once its receiver has acknowledged its order, nor once the ticket is
/// finished; and a list in which an order stands has a post of that order.
#[tactic(auto, using(crate::proofs::Refuted::acknowledged, crate::proofs::Refuted::finished, crate::proofs::Refuted::not_standing))]
pub fn what_is_not_live()
    ensures acknowledged { ¬ IsLive two_harts (history_of superpage_until_acknowledged) 1
        (post_of 5 0 superpage_of_space) }
    ensures finished { ¬ IsLive two_harts (history_of superpage_shootdown) 2
        (post_of 5 0 superpage_of_space) }
    ensures not_standing { ¬ StandsIn (posts two_harts (history_of two_posts) 0 1) 2 }
{}

/// A Load after which the walk goes on fills nothing, and one of another hart nothing of this hart.
pub fn what_fills_nothing()
    ensures other_hart { (setup : Setup) (e : Entry) (pa : ℕ) (before : History)
        → ¬ Fills setup 1 e (record { event = Load 0; reply = Filled pa }) before }
    ensures goes_on { (setup : Setup) (hart : ℕ) (e : Entry) (before : History)
        → ¬ Fills setup hart e (record { event = Load hart; reply = More }) before }
{}

/// Two spaces that are not free have different ASIDs, and a free one maps nothing: each is false of
/// a run, not lawful, in which a space is created with the ASID of another, or a page is mapped in
/// a free one.
#[tactic(auto, using(crate::proofs::RetiredRefuted::used_asid, crate::proofs::RetiredRefuted::mapped_while_free))]
pub fn what_lawful_spaces_do_not_do()
    ensures asid { ¬ AsidsDiffer spaces_of_one_home (history_of created_with_a_used_asid) }
    ensures mapped { ¬ FreeMapsNothing spaces_of_one_home (history_of mapped_in_a_free_space) }
{}
