//! Laws of all lawful histories. Each function does nothing, and its contract is the law.

ghost use Rattle.std.specs.Prelude.{ℕ, ◌≡◌, ◌⊎◌, ◌<◌, ◌≤◌, ◌^◌, ◌∷◌, ◌++◌, length, true, false, not, None, Some, All};
ghost use Rattle.std.specs.List.{AllPairs, AllPass};
ghost use Rattle.walk.specs.Maps.{Maps};
ghost use Rattle.spaces.specs.Layout.{root_ppn};
ghost use Rattle.tlb.specs.declared.store.Entry.{Entry};
ghost use Rattle.tlb.specs.Mappings.{Mapping, IsMappingOf};
ghost use Rattle.tlb.specs.Service.{is_dropped};
ghost use Rattle.history.specs.Setup.{Setup, setup_of};
ghost use Rattle.history.specs.Turns.{Turn, History, is_progress};
ghost use Rattle.history.specs.Orders.{Order, order_at, open_order, what_asked};
ghost use Rattle.history.specs.declared.event.Event.TheVariants.{Collect};
ghost use Rattle.history.specs.declared.reply.Reply.{Reply};
ghost use Rattle.history.specs.Mailboxes.{Sent, posts, waiting};
ghost use Rattle.history.specs.Service.{served, has_fenced};
ghost use Rattle.history.specs.Harts.{walk_of, space_of, entries_of};
ghost use Rattle.history.specs.Tables.{words_of};
ghost use Rattle.history.specs.Occurrences.{IsEdit, Sometime};
ghost use Rattle.history.specs.Staleness.{Clear, Coherent, HoldsUsedAsids, WalksUsedFrames};
ghost use Rattle.history.specs.Acknowledgements.{is_posted, is_acked, is_collected, outstanding};
ghost use Rattle.history.specs.Due.{Lawful, names};
ghost use Rattle.spaces.specs.Held.{IsLayout};
ghost use Rattle.spaces.specs.declared.configuration.Config.{Config as Configuration};
ghost use Rattle.spaces.specs.Limits.{MeetsLimits};
ghost use Rattle.spaces.specs.declared.configuration.TheConstants.{MAX_FRAMES};
ghost use Rattle.pte.specs.declared.TheConstants.{ASID_BITS, MAX_HARTS};
ghost use Rattle.spaces.specs.Tree.{IsTree};
ghost use Rattle.spaces.specs.declared.wishes.Wish.{Wish};
ghost use Rattle.history.specs.Spaces.{Live, Retires, asid_of, holder_of, status_of};
ghost use Rattle.pte.specs.declared.address.What.TheVariants.{SpaceOf};
ghost use Rattle.laws.specs.Fills.{Fills, FillsAcked};
ghost use Rattle.laws.specs.Kept.{AsidsDiffer, FreeMapsNothing, HavePages, IsSetup, MakesDueStore, StaysMapped, StaysUnmapped, UserPagesAreNotGlobal, WindowIsShared};
ghost use Rattle.laws.specs.Orders.{IsOrder, IsOpenedBy, Finishes};
ghost use Rattle.laws.specs.Outstanding.{is_collectable, outstanding_after};
ghost use Rattle.laws.specs.Posts.{IsAcceptedPost, IsLive, IsOwn, IsOfOther, AreOfDifferent, StandsIn, waiting_posts};

/// Each order is one of the turns; its ticket is below 64, and it names its own sender, and only
/// harts that can be there.
pub fn orders_are_known()
    ensures { (setup : Setup) (history : History) (number : ℕ) (order : Order)
        → Lawful setup history → order_at setup history number ≡ Some order
        → IsOrder history number order }
{}

/// An order's record never changes.
#[tactic(auto, using(crate::proofs::Orders::orders_stay))]
pub fn orders_stay()
    ensures { (setup : Setup) (later earlier : History) (order : ℕ) → order < length earlier
        → order_at setup (later ++ earlier) order ≡ order_at setup earlier order }
{}

/// What is open under a ticket of a hart is an order that this hart opened under this ticket. So
/// two open orders of a hart have different tickets.
#[tactic(auto, using(crate::proofs::Orders::open_known))]
pub fn open_orders_are_of_their_ticket()
    ensures { (setup : Setup) (history : History) (s t order : ℕ) → Lawful setup history
        → open_order history s t ≡ Some order → IsOpenedBy setup history s t order }
{}

/// An open order stays open until its ticket is finished: no opening takes a ticket that is open.
pub fn orders_stay_open_until_finished()
    ensures { (setup : Setup) (turn : Turn) (history : History) (s t order : ℕ)
        → Lawful setup (turn ∷ history) → open_order history s t ≡ Some order
        → (open_order (turn ∷ history) s t ≡ Some order) ⊎ Finishes turn s t }
{}

/// A ticket is finished only once each hart that its order names is collected.
#[tactic(auto, using(crate::proofs::Live::finished_collected))]
pub fn finished_ticket_is_collected()
    ensures { (setup : Setup) (turn : Turn) (history : History) (s t order hart : ℕ)
        → Lawful setup (turn ∷ history) → Finishes turn s t → open_order history s t ≡ Some order
        → names (order_at setup history order) hart ≡ true
        → is_collected setup history order hart ≡ true }
{}

/// Each accepted post is of an order of its sender that names the receiver, another hart, and asks
/// what the request asks.
#[tactic(auto, using(crate::proofs::Posts::posts_known))]
pub fn posts_are_of_their_order()
    ensures { (setup : Setup) (history : History) (s hart : ℕ) → Lawful setup history
        → All (IsAcceptedPost setup history s hart) (posts setup history s hart) }
{}

/// No two accepted posts of a pair are of one order.
#[tactic(auto, using(crate::proofs::Posts::posts_differ))]
pub fn posts_of_a_pair_differ()
    ensures { (setup : Setup) (history : History) (s hart : ℕ) → Lawful setup history
        → AllPairs AreOfDifferent (posts setup history s hart) }
{}

/// An order that is posted to a hart stands among the posts from its sender to the hart, and names
/// the hart.
pub fn posted_order_stands_among_the_posts()
    ensures stands { (setup : Setup) (history : History) (number hart : ℕ) (order : Order)
        → Lawful setup history → order_at setup history number ≡ Some order
        → is_posted history number hart ≡ true
        → StandsIn (posts setup history order.sender hart) number }
    ensures names { (setup : Setup) (history : History) (number hart : ℕ) (order : Order)
        → Lawful setup history → order_at setup history number ≡ Some order
        → is_posted history number hart ≡ true
        → names (order_at setup history number) hart ≡ true }
{}

/// What is collected is acknowledged, and a hart that acknowledged an order was posted to, or
/// opened the order.
pub fn acknowledged_was_posted()
    ensures collected { (setup : Setup) (history : History) (order hart : ℕ)
        → is_collected setup history order hart ≡ true → is_acked setup history order hart ≡ true }
    ensures acked { (setup : Setup) (history : History) (order hart : ℕ) → Lawful setup history
        → is_acked setup history order hart ≡ true
        → (is_posted history order hart ≡ true) ⊎ IsOwn setup history order hart }
{}

/// Each post that waits is live: its ticket is open for its order, and its receiver has not
/// acknowledged it. So a ticket is not finished, and its number not used again, while a request of
/// it waits.
pub fn what_waits_is_live()
    ensures { (setup : Setup) (history : History) (s hart : ℕ) → Lawful setup history
        → All (IsLive setup history hart) (waiting_posts setup history s hart) }
{}

/// What a hart serves is an accepted post to it and live, and of another order than all that waits
/// for the hart. So a ticket is not finished, and its number not used again, while a request of it
/// is served.
pub fn what_is_served_is_live()
    ensures posted { (setup : Setup) (history : History) (hart : ℕ) (post : Sent)
        → Lawful setup history → served setup history hart ≡ Some post
        → IsAcceptedPost setup history post.sender hart post }
    ensures live { (setup : Setup) (history : History) (hart : ℕ) (post : Sent)
        → Lawful setup history → served setup history hart ≡ Some post
        → IsLive setup history hart post }
    ensures other { (setup : Setup) (history : History) (s hart : ℕ) (post : Sent)
        → Lawful setup history → served setup history hart ≡ Some post
        → All (IsOfOther post.order) (waiting_posts setup history s hart) }
{}

/// A hart that serves a request has no walk in flight: it neither takes in the middle of a walk nor
/// begins one while it serves.
#[tactic(auto, using(crate::proofs::Serving::idle))]
pub fn serving_hart_is_not_walking()
    ensures { (setup : Setup) (history : History) (hart : ℕ) (post : Sent) → Lawful setup history
        → served setup history hart ≡ Some post → walk_of history hart ≡ None }
{}

/// A hart that has fenced for the request that it serves holds no entry that the request drops.
#[tactic(auto, using(crate::proofs::Serving::fenced))]
pub fn fenced_hart_holds_nothing_of_the_request()
    ensures { (setup : Setup) (history : History) (hart : ℕ) (post : Sent) → Lawful setup history
        → served setup history hart ≡ Some post → has_fenced history hart ≡ true
        → AllPass (λ e. not (is_dropped post.request.what e)) (entries_of setup history hart) }
{}

/// The number of posted orders of a pair that are not collected: an accepted Post adds one, a
/// Collect that finds an acknowledgement that was not collected takes one away, and no other event
/// changes it.
#[tactic(auto, using(crate::proofs::Outstanding::counts))]
pub fn outstanding_counts_posts_and_collects()
    ensures { (setup : Setup) (turn : Turn) (history : History) (s hart : ℕ)
        → Lawful setup (turn ∷ history)
        → outstanding setup (turn ∷ history) s hart
        ≡ outstanding_after setup turn.event turn.reply history s hart
        (outstanding setup history s hart) }
{}

/// What waits is outstanding, and what is outstanding is at most the capacity.
pub fn outstanding_is_bounded()
    ensures capacity { (setup : Setup) (history : History) (s hart : ℕ) → Lawful setup history
        → outstanding setup history s hart ≤ setup.capacity }
    ensures waiting { (setup : Setup) (history : History) (s hart : ℕ) → Lawful setup history
        → length (waiting setup history s hart) ≤ outstanding setup history s hart }
{}

/// Where a Collect finds an acknowledgement that was not collected, more is outstanding than waits:
/// some request was taken whose acknowledgement is collected now.
pub fn collected_request_was_taken()
    ensures { (setup : Setup) (history : History) (s t hart : ℕ) (reply : Reply)
        → Lawful setup (record { event = Collect s t hart; reply = reply } ∷ history)
        → is_progress reply ≡ true
        → is_collectable setup history (open_order history s t) hart ≡ true
        → length (waiting setup history s hart) < outstanding setup history s hart }
{}

/// Each entry of a TLB was filled by a Load of its hart.
#[tactic(auto, using(crate::proofs::Filling::entries_filled))]
pub fn entries_were_filled()
    ensures { (setup : Setup) (history : History) (hart : ℕ)
        → All (λ e. Sometime (Fills setup hart e) history) (entries_of setup history hart) }
{}

/// What a Load fills is mapped from the root of the hart's space in the words of that moment, for
/// the ASID of that space or, if it is global, for every one.
pub fn filled_pages_are_mapped()
    ensures { (setup : Setup) (turn : Turn) (history : History) (hart : ℕ) (e : Entry) (m : Mapping)
        → Lawful setup history → Fills setup hart e turn history → IsMappingOf e m
        → Maps setup.layout.scheme (words_of setup history)
        (root_ppn setup.layout (space_of history hart)) m.page m.ppn m.flags e.global }
{}

/// The turn by which a hart acknowledges an order leaves no entry in its TLB that the order drops.
#[tactic(auto, using(crate::proofs::Filling::acknowledged))]
pub fn acknowledgement_leaves_nothing_of_the_request()
    ensures { (setup : Setup) (turn : Turn) (history : History) (order hart : ℕ)
        → Lawful setup (turn ∷ history) → is_acked setup history order hart ≡ false
        → is_acked setup (turn ∷ history) order hart ≡ true
        → AllPass (λ e. not (is_dropped (what_asked (order_at setup history order)) e))
        (entries_of setup (turn ∷ history) hart) }
{}

/// Of what an order drops, a hart that has acknowledged it holds only entries that it filled since.
#[tactic(auto, using(crate::proofs::Filling::acknowledged_since))]
pub fn acknowledged_hart_holds_only_what_it_filled_since()
    ensures { (setup : Setup) (history : History) (order hart : ℕ) → Lawful setup history
        → is_acked setup history order hart ≡ true
        → All (λ e. (is_dropped (what_asked (order_at setup history order)) e ≡ false)
        ⊎ Sometime (FillsAcked setup order hart e) history) (entries_of setup history hart) }
{}

/// A configuration within the limits, with ASIDs of 16 bits, makes a setup such as the laws of the
/// tables, of Clear and of Coherent ask for.
#[tactic(auto, using(crate::proofs::Setups::setup))]
pub fn limits_give_setup()
    ensures { (c : Configuration) → MeetsLimits MAX_FRAMES c
        → All (λ s. s.asid < 2 ^ ASID_BITS) c.spaces.items → IsSetup (setup_of c) }
{}

/// No page of the user's half is mapped global, from the root of any space.
pub fn user_pages_are_not_global()
    ensures { (setup : Setup) → IsSetup setup → (history : History) → Lawful setup history
        → HavePages history → UserPagesAreNotGlobal setup history }
{}

/// What is mapped in the window from one root is mapped from each.
pub fn window_is_shared()
    ensures { (setup : Setup) → IsSetup setup → (history : History) → Lawful setup history
        → HavePages history → WindowIsShared setup history }
{}

/// What is mapped in the page of an unmapping or a change of flags stays mapped over one turn more,
/// unless by then the page is unmapped or changed once more.
pub fn mapped_page_stays_mapped()
    ensures { (setup : Setup) → IsSetup setup → (turn : Turn) (history : History)
        → Lawful setup (turn ∷ history) → HavePages (turn ∷ history)
        → StaysMapped setup turn history }
{}

/// Nothing is mapped in the page of an unmapping until it is mapped anew.
pub fn unmapped_page_stays_unmapped()
    ensures { (setup : Setup) → IsSetup setup → (history : History) → Lawful setup history
        → HavePages history → StaysUnmapped setup history }
{}

/// Clear: once a hart that an unmapping names has acknowledged it, no entry of its TLB, of any
/// size, translates an address of the page in its address space, until the page is mapped anew. It
/// holds after every lawful history whose events speak of pages.
pub fn unmapped_page_stays_clear()
    ensures { (setup : Setup) → IsSetup setup → (history : History) (order hart : ℕ)
        → Lawful setup history → HavePages history
        → Clear setup history (entries_of setup history hart) order hart }
{}

/// Coherent: once a hart that an unmapping or a change of flags names has acknowledged it, each
/// mapping of the page that its TLB holds for its address space is mapped now, from each root of
/// the place, until the page is unmapped or changed once more. It holds after every lawful history
/// whose events speak of pages.
pub fn changed_page_stays_coherent()
    ensures { (setup : Setup) → IsSetup setup → (history : History) (order hart : ℕ)
        → Lawful setup history → HavePages history
        → Coherent setup history (words_of setup history) (entries_of setup history hart)
        order hart }
{}

/// The table words are a tree after every lawful history whose events speak of pages, with the
/// spare frames in use that Maps answered with a new table, but for those of spaces that were
/// reclaimed since.
#[tactic(auto, using(crate::proofs::TreeKept::tree))]
pub fn tables_stay_a_tree()
    ensures { (setup : Setup) → IsLayout setup.layout
        → length setup.asids ≡ length setup.layout.homes
        → (history : History) → Lawful setup history → HavePages history
        → IsTree setup.layout (words_of setup history) (holder_of history) }
{}

/// An accepted edit makes the store that was due to it, and no other.
#[tactic(auto, using(crate::proofs::DueStores::due_store_made))]
pub fn accepted_edit_makes_its_due_store()
    ensures { (setup : Setup) (turn : Turn) (history : History) (hart : ℕ) (wanted : Wish)
        → IsSetup setup → Lawful setup (turn ∷ history) → HavePages history
        → IsEdit hart wanted turn.event turn.reply → MakesDueStore setup hart wanted turn history }
{}

/// No two live or retiring spaces have one ASID.
pub fn used_asids_differ()
    ensures { (setup : Setup) → IsSetup setup → (history : History) → Lawful setup history
        → AsidsDiffer setup history }
{}

/// A hart is in a live space.
pub fn harts_are_in_live_spaces()
    ensures { (setup : Setup) → IsSetup setup → (history : History) (hart : ℕ)
        → Lawful setup history → hart < setup.harts
        → status_of history (space_of history hart) ≡ Live }
{}

/// A hart that has acknowledged the retirement of a space holds no entry that it drops, until the
/// space is reclaimed.
pub fn retired_space_is_not_held()
    ensures { (setup : Setup) → IsSetup setup → (history : History) (s order hart : ℕ)
        → Lawful setup history → HavePages history → s < length setup.asids
        → status_of history s ≡ Retires order
        → is_acked setup history order hart ≡ true
        → All (λ e. is_dropped (SpaceOf (asid_of setup history s)) e ≡ false)
        (entries_of setup history hart) }
{}

/// No entry that is not global is of an ASID that no live or retiring space has.
pub fn held_asids_are_used()
    ensures { (setup : Setup) → IsSetup setup → (history : History) (hart : ℕ)
        → Lawful setup history → HavePages history
        → HoldsUsedAsids setup history (entries_of setup history hart) }
{}

/// A free space maps nothing in the user's half.
pub fn free_space_maps_nothing()
    ensures { (setup : Setup) → IsSetup setup → (history : History) → Lawful setup history
        → HavePages history → FreeMapsNothing setup history }
{}

/// A walk in flight is of a live space, and has come to no unused table frame.
pub fn walks_hold_used_frames()
    ensures { (setup : Setup) → IsSetup setup → (history : History) (hart : ℕ)
        → Lawful setup history → HavePages history → WalksUsedFrames setup history hart }
{}
